//! The top call.

ghost use Rattle.std.specs.Prelude.{◌≡◌, ◌<◌, ◌≤◌, ◌⊎◌, IfSome, OnOk, OnErr, Err, None, map, string_bytes};
ghost use Rattle.std.specs.Io.KnownBytes.{IsAtEnd};
ghost use Rattle.pn_outside.specs.Cause.{Rose};
ghost use Rattle.pn_command.specs.Answer.{Answer, Answers, Begins, EachAnswer, ForAnswer, IsAnswer, RoseWhereDue, Says, status_of_due};
ghost use Rattle.pn_command.specs.Lines.{IsLine};
ghost use Rattle.pn_command.specs.Reading.{ReadsNoFurther, TakesBegun};
ghost use Rattle.pn_command.specs.Words.{asked_of};

use crate::Status;
use crate::due::{Due, decide};
use crate::input::Stop;
use crate::lines::write_line;
use crate::outputs::write_output;
use pn_outside::{Failed, Sink, Source};
use std::alloc::Global;

/// The status where what is due was written, or where a write failed.
fn ended(written: Result<(), Failed>, status: Status) -> Status
    ensures ok { OnOk written (result ≡ status) }
    ensures err { OnErr written (result ≡ Status.WriteFault) }
{
    match written {
        Ok(()) => status,
        Err(_) => Status::WriteFault,
    }
}

/// Writes what is due, and says how that ended.
fn deliver<O: Sink, E: Sink>(due: &Due, out: &mut O, err: &mut E) -> Status
    ensures answered { (a : Answer) → Says due.now a → IsAnswer result → Answers O.taken O.number E.taken E.number result out.old out.new err.old err.new a }
    ensures begun { (a : Answer) → Says due.now a → Begins O.taken O.number E.taken E.number out.old out.new err.old err.new a }
    ensures ends { (result ≡ status_of_due due.now) ⊎ (result ≡ Status.WriteFault) }
    ensures write_fault { result ≡ Status.WriteFault → RoseWhereDue (status_of_due due.now) (O.faults out.old) (O.faults out.new) (E.faults err.old) (E.faults err.new) }
    ensures done { result ≡ Status.Done → O.settled out.new × (err.new ≡ err.old) }
    ensures line { IsLine result → E.settled err.new × (out.new ≡ out.old) }
    ensures later { (O.faults out.old ≤ O.faults out.new) × (E.faults err.old ≤ E.faults err.new) }
    ensures told { (result ≡ Status.WriteFault) ⊎ ((O.faults out.new ≡ O.faults out.old) × (E.faults err.new ≡ E.faults err.old)) }
{
    match due {
        Due::Line(line) => ended(write_line(err, line), line.status()),
        Due::Output(output) => ended(write_output(out, output), Status::Done),
    }
}

/// Answers what the words ask for. `source` gives the document; `side` is a second input that no
/// command reads so far. The answer's text goes to `out`, a usage or refusal line to `err`.
/// Reads the input to its end, or to the piece behind which no document goes on or which goes past
/// the limit.
pub fn run<S: Source, T: Source, O: Sink, E: Sink>(
    alloc: Global,
    words: &[String],
    source: &mut S,
    side: &mut T,
    out: &mut O,
    err: &mut E,
) -> Status
    // The answer that is due for the words and the bytes of the source is what the call gives.
    ensures answered { IsAnswer result → IfSome (S.left source.old) (λ b. ForAnswer (map string_bytes words.now) b
        (Answers O.taken O.number E.taken E.number result out.old out.new err.old err.new)) }

    // However the call ends, what is written is a front of what was due.
    ensures begun { IfSome (S.left source.old) (λ b. EachAnswer (map string_bytes words.now) b
        (Begins O.taken O.number E.taken E.number out.old out.new err.old err.new)) }

    // A failed read or write is answered only where one happened.
    ensures read_fault { result ≡ Status.ReadFault → Rose (S.faults source.old) (S.faults source.new) }
    ensures nothing_written { result ≡ Status.ReadFault → (out.new ≡ out.old) × (err.new ≡ err.old) }
    ensures write_fault { result ≡ Status.WriteFault → IfSome (S.left source.old) (λ b. EachAnswer (map string_bytes words.now) b
        (λ a. RoseWhereDue a.status (O.faults out.old) (O.faults out.new) (E.faults err.old) (E.faults err.new))) }
    ensures write_fault_untold { result ≡ Status.WriteFault → Rose (O.faults out.old) (O.faults out.new) ⊎ Rose (E.faults err.old) (E.faults err.new) }

    // Each fault that is counted is told, below the end of its count: no failed call is followed by another answer.
    ensures read_fault_told { S.faults source.old < S.faults source.new → result ≡ Status.ReadFault }
    ensures write_fault_told { (O.faults out.old < O.faults out.new) ⊎ (E.faults err.old < E.faults err.new) → result ≡ Status.WriteFault }

    // What was read before a failed read is a front of a document, within the limit. However the
    // call ends, at most one piece more than that was read.
    ensures read_fault_begun { result ≡ Status.ReadFault → TakesBegun (S.left source.old) (S.left source.new) }
    ensures no_further { ReadsNoFurther (S.left source.old) (S.left source.new) }

    // Where nothing failed, the call answers or wants memory.
    ensures complete { ¬ Rose (S.faults source.old) (S.faults source.new) → ¬ Rose (T.faults side.old) (T.faults side.new)
        → ¬ Rose (O.faults out.old) (O.faults out.new) → ¬ Rose (E.faults err.old) (E.faults err.new)
        → IsAnswer result ⊎ (result ≡ Status.OutOfMemory) }

    // Where the words ask for nothing, nothing is read, and no want of memory is answered.
    ensures unread { asked_of (map string_bytes words.now) ≡ None → source.new ≡ source.old }
    ensures misused { asked_of (map string_bytes words.now) ≡ None → (result ≡ Status.Usage) ⊎ (result ≡ Status.WriteFault) }
    ensures usage { result ≡ Status.Usage → asked_of (map string_bytes words.now) ≡ None }

    // Memory is wanted before anything is written.
    ensures memory { result ≡ Status.OutOfMemory → (out.new ≡ out.old) × (err.new ≡ err.old) }

    // What stands afterwards.
    ensures done { result ≡ Status.Done → O.settled out.new × (err.new ≡ err.old) }
    ensures read_to_end { result ≡ Status.Done → IsAtEnd (S.left source.new) }
    ensures line { IsLine result → E.settled err.new × (out.new ≡ out.old) }
    ensures side { side.new ≡ side.old }
{
    match decide(alloc, words, source) {
        Ok(due) => deliver(&due, out, err),
        Err(Stop::Fault) => Status::ReadFault,
        Err(Stop::Memory) => Status::OutOfMemory,
    }
}
