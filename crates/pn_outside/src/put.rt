ghost use Rattle.pn_outside.specs.Cause.{CountsFault, HasCause};
ghost use Rattle.pn_outside.specs.Taking.{Puts};

use crate::{Failed, Sink};

/// Writes all of `bytes`. After `Failed` a front of them is out. Takes no memory.
pub fn put_all<K: Sink>(sink: &mut K, bytes: &[u8]) -> Result<(), Failed>
    ensures puts { Puts K.taken K.number result sink.old sink.new bytes.now }
    ensures cause { HasCause (K.faults sink.old) (K.faults sink.new) result }
    ensures counted { CountsFault (K.faults sink.old) (K.faults sink.new) result }
{
    let mut at = 0;
    while at < bytes.len() {
        at += sink.write(&bytes[at..])?;
    }
    Ok(())
}

/// Writes a text. After `Failed` a front of it is out. Takes no memory.
pub fn put_text<K: Sink>(sink: &mut K, text: &str) -> Result<(), Failed>
    ensures puts { Puts K.taken K.number result sink.old sink.new text.now }
    ensures cause { HasCause (K.faults sink.old) (K.faults sink.new) result }
    ensures counted { CountsFault (K.faults sink.old) (K.faults sink.new) result }
{
    put_all(sink, text.as_bytes())
}
