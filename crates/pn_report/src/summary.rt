//! The line that sums a net up.

ghost use Rattle.std.specs.Prelude.{◌≡◌, ◌++◌};
ghost use Rattle.pn_outside.specs.Cause.{CountsFault, HasCause};
ghost use Rattle.pn_outside.specs.Taking.{Puts};
ghost use Rattle.pn_report.specs.Summaries.{kind_word, sizes_text, summary_line};

use pn_lines::put_count;
use pn_net::{Marking, Typed};
use pn_operators::Kind;
use pn_outside::{Failed, Sink, put_text};

/// The word for the nets of a kind, the last part of their `type`.
fn kind_word(kind: Kind) -> &'static str
    ensures { result.now ≡ kind_word kind }
{
    match kind {
        Kind::PtNet => "ptnet",
        Kind::Symmetric => "symmetricnet",
        Kind::HighLevel => "highlevelnet",
    }
}

/// Puts how many places, transitions and arcs there are.
fn put_sizes<K: Sink>(
    sink: &mut K,
    places: usize,
    transitions: usize,
    arcs: usize,
) -> Result<(), Failed>
    ensures puts { Puts K.taken K.number result sink.old sink.new (sizes_text places transitions arcs) }
    ensures cause { HasCause (K.faults sink.old) (K.faults sink.new) result }
    ensures counted { CountsFault (K.faults sink.old) (K.faults sink.new) result }
{
    put_count(sink, " places ", places)?;
    put_count(sink, " transitions ", transitions)?;
    put_count(sink, " arcs ", arcs)
}

/// Puts the line that sums up a net with this initial marking, `KIND places P transitions T arcs A
/// tokens N`, and a line end. The kind is the last part of the net's `type`; the tokens are counted
/// with how often each is there. After `Failed`, which comes only from the sink, a front of the line
/// is out. Takes no memory.
pub fn put_summary<K: Sink>(net: &Typed, initial: &Marking, sink: &mut K) -> Result<(), Failed>
    ensures puts { Puts K.taken K.number result sink.old sink.new (summary_line net.now initial.now) }
    ensures cause { HasCause (K.faults sink.old) (K.faults sink.new) result }
    ensures counted { CountsFault (K.faults sink.old) (K.faults sink.new) result }
{
    let flat = net.flat();
    put_text(sink, kind_word(flat.kind))?;
    put_sizes(
        sink,
        flat.places.len(),
        flat.transitions.len(),
        flat.arcs.len(),
    )?;
    put_count(sink, " tokens ", initial.cardinality())?;
    put_text(sink, "\n")
}
