ghost use Rattle.pn_outside.specs.Cause.{CountsFault, HasCause};
ghost use Rattle.pn_outside.specs.Taking.{Puts};
ghost use Rattle.std.specs.Prelude.{◌++◌};

use itoa::{Buffer, Integer};
use pn_outside::{Failed, Sink, put_text};

/// Puts a label and the number behind it, in decimal. After `Failed`, which comes only from the
/// sink, a front of them is out. Takes no memory.
pub fn put_count<K: Sink, N: Integer>(sink: &mut K, label: &str, number: N) -> Result<(), Failed>
    ensures puts { Puts K.taken K.number result sink.old sink.new (label.now ++ N.text number) }
    ensures cause { HasCause (K.faults sink.old) (K.faults sink.new) result }
    ensures counted { CountsFault (K.faults sink.old) (K.faults sink.new) result }
{
    put_text(sink, label)?;
    let mut digits = Buffer::new();
    put_text(sink, digits.format(number))
}
