//! The line that tells a fault.

ghost use Rattle.std.specs.Prelude.{◌++◌, codes};
ghost use Rattle.pn_outside.specs.Cause.{CountsFault, HasCause};
ghost use Rattle.pn_outside.specs.Taking.{Puts};
ghost use Rattle.pn_lines.specs.Escapes.{escaped};
ghost use Rattle.pn_report.specs.Lines.{fault_line};

use pn_faults::Fault;
use pn_lines::{put_count, put_escaped};
use pn_outside::{Failed, Sink, put_text};

/// Puts what a fault is about, at the end of its line.
fn put_detail<K: Sink>(sink: &mut K, detail: &str) -> Result<(), Failed>
    ensures puts { Puts K.taken K.number result sink.old sink.new (codes ": " ++ (escaped detail.now ++ codes "\n")) }
    ensures cause { HasCause (K.faults sink.old) (K.faults sink.new) result }
    ensures counted { CountsFault (K.faults sink.old) (K.faults sink.new) result }
{
    put_text(sink, ": ")?;
    put_escaped(sink, detail)?;
    put_text(sink, "\n")
}

/// Puts the line of a fault: `pnml: byte AT: REASON: DETAIL`, where the detail stands as
/// `put_escaped` puts it, and a line end. After `Failed`, which comes only from the sink, a front of
/// it is out. Takes no memory.
pub fn put_fault<K: Sink>(fault: &Fault, sink: &mut K) -> Result<(), Failed>
    ensures puts { Puts K.taken K.number result sink.old sink.new (fault_line fault.now) }
    ensures cause { HasCause (K.faults sink.old) (K.faults sink.new) result }
    ensures counted { CountsFault (K.faults sink.old) (K.faults sink.new) result }
{
    put_count(sink, "pnml: byte ", fault.at)?;
    put_text(sink, ": ")?;
    put_text(sink, fault.reason.words())?;
    put_detail(sink, fault.detail.as_str())
}
