//! Texts between quotation marks, read byte by byte.

ghost use Rattle.std.specs.Prelude.{◌≡◌, ◌≤◌, ◌<◌, ◌↔◌, [], false, true, length, drop, IfOk, IsTrue};
ghost use Rattle.pn_lines.specs.Escapes.{is_plain};
ghost use Rattle.pn_mode_text.specs.Quoted.{BeginsEscape, IsEnded, IsQuoted, IsStanding, ComesOf};
ghost use Rattle.pn_mode_text.specs.Readings.{ReadsOr};
ghost use Rattle.pn_mode_text.specs.declared.quoted.Inside.TheVariants as insides;
ghost use Rattle.pn_text.specs.Characters.{is_text};
ghost use Rattle.pn_utf8.specs.Characters.{AreOpen};
ghost use Rattle.pn_utf8.specs.Open.{open_bytes};
ghost use Rattle.pn_words.specs.Languages.{Closed};

use crate::escapes::byte_of_digits;
use crate::reading::ReadFault;
use pn_lines::is_plain;
use pn_text::Text;
use pn_utf8::Open;
use pn_words::{literal, mark};
use std::alloc::Global;

/// What the next byte of an escaped text stands behind.
#[derive(Clone, Copy)]
pub(crate) enum Inside {
    /// A byte of the text, or none, and these bytes of a character that is not whole yet.
    Text(Open),
    /// The `%` of an escape.
    Percent,
    /// The `%` and the first digit of an escape.
    Digit(u8),
}

/// What comes of one more byte.
#[derive(Clone, Copy)]
pub(crate) enum Turn {
    /// More of an escape.
    Within(Inside),
    /// A byte of the text, and the bytes of the character that is not whole yet.
    Byte(u8, Open),
    /// The quotation mark behind the text.
    End,
    /// No text goes on so.
    Stop,
}

/// Whether a character that a document may have has an escape that begins with this digit.
fn begins_escape(digit: u8) -> bool
    ensures { IsTrue result ↔ BeginsEscape digit }
{
    digit == b'0' || b'2' <= digit && digit <= b'7'
}

/// What comes of a byte that stands as it is.
fn plain(begun: Open, byte: u8) -> Turn
    requires begun { AreOpen (open_bytes begun) }
    requires plain { is_plain byte ≡ true }
    ensures { ComesOf (insides.Text begun) byte result }
{
    match begun.next(byte) {
        Some(next) => Turn::Byte(byte, next),
        None => Turn::Stop,
    }
}

/// What comes of a byte that does not stand for itself.
fn other(begun: Open, byte: u8) -> Turn
    requires begun { AreOpen (open_bytes begun) }
    requires other { is_plain byte ≡ false }
    ensures { ComesOf (insides.Text begun) byte result }
{
    match begun {
        Open::Nothing => match byte {
            b'"' => Turn::End,
            b'%' => Turn::Within(Inside::Percent),
            _ => Turn::Stop,
        },
        Open::One(_) | Open::Two(..) | Open::Three(..) => Turn::Stop,
    }
}

/// What comes of the first digit of an escape.
fn first_digit(byte: u8) -> Turn
    ensures { ComesOf insides.Percent byte result }
{
    if begins_escape(byte) {
        return Turn::Within(Inside::Digit(byte));
    }
    Turn::Stop
}

/// What comes of the last digit of an escape.
fn last_digit(high: u8, byte: u8) -> Turn
    ensures { ComesOf (insides.Digit high) byte result }
{
    let Some(escaped) = byte_of_digits(high, byte) else {
        return Turn::Stop;
    };
    match Open::Nothing.next(escaped) {
        Some(next) => Turn::Byte(escaped, next),
        None => Turn::Stop,
    }
}

/// What comes of one more byte.
fn behind(inside: Inside, byte: u8) -> Turn
    requires { IsStanding inside }
    ensures { ComesOf inside byte result }
{
    match inside {
        Inside::Text(begun) => {
            if is_plain(byte) {
                plain(begun, byte)
            } else {
                other(begun, byte)
            }
        }
        Inside::Percent => first_digit(byte),
        Inside::Digit(high) => last_digit(high, byte),
    }
}

/// Reads a text, escaped, and a quotation mark behind it: puts the text's bytes into `text`, and
/// answers how many bytes were read.
fn read_ended(text: &mut Vec<u8>, bytes: &[u8]) -> Result<usize, ReadFault>
    requires { text.old.items ≡ [] }
    ensures reads { ReadsOr IsEnded bytes.now (λ at. text.new.items) (λ at. drop at bytes.now) result }
    ensures within { IfOk result (λ at. at ≤ length bytes.now) }
{
    let mut inside = Inside::Text(Open::Nothing);
    for at in 0..bytes.len() {
        match behind(inside, bytes[at]) {
            Turn::Within(next) => inside = next,
            Turn::Byte(byte, begun) => {
                if let Err(error) = text.push(byte) {
                    return Err(ReadFault::Memory(error.into()));
                }
                inside = Inside::Text(begun);
            }
            Turn::End => return Ok(at + 1),
            Turn::Stop => return Err(ReadFault::Broken(bytes.len() - at)),
        }
    }
    Err(ReadFault::Broken(0))
}

/// The text of these bytes.
fn text_of(bytes: Vec<u8>) -> Text
    requires { is_text bytes.items ≡ true }
    ensures { result ≡ bytes.items }
{
    // The condition says that these bytes are UTF-8.
    Text::from_string(unsafe { String::from_utf8_unchecked(bytes) })
}

/// Reads a text, escaped, and a quotation mark behind it.
fn ended<'a>(alloc: Global, bytes: &'a [u8]) -> Result<(Text, &'a [u8]), ReadFault>
    ensures { ReadsOr IsEnded bytes.now (λ x. x.0) (λ x. x.1.now) result }
{
    let mut text = Vec::new(alloc);
    match read_ended(&mut text, bytes) {
        Ok(at) => Ok((text_of(text), &bytes[at..])),
        Err(fault) => Err(fault),
    }
}

/// Reads a text, escaped, a quotation mark and one of the marks behind it.
fn ended_before<'a>(
    alloc: Global,
    marks: &[u8],
    bytes: &'a [u8],
) -> Result<((Text, u8), &'a [u8]), ReadFault>
    requires { 0 < length marks.now }
    ensures { ReadsOr (Closed IsEnded marks.now) bytes.now (λ x. x.0) (λ x. x.1.now) result }
{
    match ended(alloc, bytes) {
        Ok((text, rest)) => match mark(marks, rest) {
            Ok((mark, behind)) => Ok(((text, mark), behind)),
            Err(left) => Err(ReadFault::Broken(left)),
        },
        Err(fault) => Err(fault),
    }
}

/// Reads a text of characters that a document may have (XML 1.0, 2.2), escaped and between quotation
/// marks, and one of the marks behind it; answers the text, the mark and the bytes behind it. The time
/// is linear in the bytes that are read, and so is the memory.
pub(crate) fn quoted<'a>(
    alloc: Global,
    marks: &[u8],
    bytes: &'a [u8],
) -> Result<((Text, u8), &'a [u8]), ReadFault>
    requires some { 0 < length marks.now }
    ensures { ReadsOr (Closed IsQuoted marks.now) bytes.now (λ x. x.0) (λ x. x.1.now) result }
{
    match literal(b"\"", bytes) {
        Ok(rest) => ended_before(alloc, marks, rest),
        Err(left) => Err(ReadFault::Broken(left)),
    }
}
