//! Ids, names and values as they stand in a line.

ghost use Rattle.std.specs.Prelude.{◌≡◌, ◌<◌, ◌++◌, true};
ghost use Rattle.std.specs.Fmt.{digit_glyph};
ghost use Rattle.pn_outside.specs.Cause.{CountsFault, HasCause};
ghost use Rattle.pn_outside.specs.Taking.{Puts};
ghost use Rattle.pn_lines.specs.Escapes.{escaped, is_plain, percent_escape};

use pn_outside::{Failed, Sink, put_all};

/// Whether a byte stands in a line as it is: an ASCII letter or digit, `_`, `-`, `.`, or a byte past
/// ASCII.
pub fn is_plain(byte: u8) -> bool
    ensures { result ≡ is_plain byte }
{
    let is_mark = byte == b'_' || byte == b'-' || byte == b'.';
    byte.is_ascii_alphanumeric() || is_mark || !byte.is_ascii()
}

/// The upper-case hexadecimal digit of a number.
pub fn hex_digit(number: u8) -> u8
    requires { number < 16 }
    ensures { result ≡ digit_glyph true number }
{
    if number < 10 {
        b'0' + number
    } else {
        b'A' + (number - 10)
    }
}

/// Puts `%` and the two digits of a byte.
fn put_escape<K: Sink>(sink: &mut K, byte: u8) -> Result<(), Failed>
    ensures puts { Puts K.taken K.number result sink.old sink.new (percent_escape byte) }
    ensures cause { HasCause (K.faults sink.old) (K.faults sink.new) result }
    ensures counted { CountsFault (K.faults sink.old) (K.faults sink.new) result }
{
    let escape = [b'%', hex_digit(byte / 16), hex_digit(byte % 16)];
    put_all(sink, &escape)
}

/// Puts a run of bytes that stay as they are, and the escape of the byte behind it.
fn put_run<K: Sink>(sink: &mut K, run: &[u8], byte: u8) -> Result<(), Failed>
    ensures puts { Puts K.taken K.number result sink.old sink.new (run.now ++ percent_escape byte) }
    ensures cause { HasCause (K.faults sink.old) (K.faults sink.new) result }
    ensures counted { CountsFault (K.faults sink.old) (K.faults sink.new) result }
{
    put_all(sink, run)?;
    put_escape(sink, byte)
}

/// Puts a text as it stands in a line: ASCII letters and digits, `_`, `-`, `.` and bytes past ASCII
/// as they are, each other byte as `%` and two upper-case hexadecimal digits. After `Failed`, which
/// comes only from the sink, a front of it is out. Takes no memory.
pub fn put_escaped<K: Sink>(sink: &mut K, text: &str) -> Result<(), Failed>
    ensures puts { Puts K.taken K.number result sink.old sink.new (escaped text.now) }
    ensures cause { HasCause (K.faults sink.old) (K.faults sink.new) result }
    ensures counted { CountsFault (K.faults sink.old) (K.faults sink.new) result }
{
    let bytes = text.as_bytes();
    let mut start = 0;
    for at in 0..bytes.len() {
        if !is_plain(bytes[at]) {
            put_run(sink, &bytes[start..at], bytes[at])?;
            start = at + 1;
        }
    }
    put_all(sink, &bytes[start..])
}
