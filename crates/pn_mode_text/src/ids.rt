//! Escaped ids, read.

ghost use Rattle.std.specs.Prelude.{◌≡◌, ◌<◌, IfOk, IfSome, length};
ghost use Rattle.pn_carriers.specs.Carriers.{width_of};
ghost use Rattle.pn_ids.specs.Names.{AreDistinct};
ghost use Rattle.pn_lines.specs.Escapes.{escape, escaped};
ghost use Rattle.pn_mode_text.specs.Readings.{AreStops, IsConstantText, ReadsOr};
ghost use Rattle.pn_names.specs.Names.{names_of, widths_of};
ghost use Rattle.pn_words.specs.Languages.{Closed, IsRead, Only, Reads};
ghost use Rattle.pn_values.specs.declared.value.Value.TheVariants as values;

use crate::escapes::unescaped;
use crate::reading::ReadFault;
use pn_lines::{hex_digit, is_plain};
use pn_sorts::{ConstantRef, Decls, Size, Sort, Value};
use pn_words::{literal, mark};
use std::alloc::{AllocError, Global};

/// Reads a byte as it stands in an escaped text.
fn escaped_byte<'a>(byte: u8, bytes: &'a [u8]) -> Result<&'a [u8], usize>
    ensures { Reads (Only (escape byte)) bytes.now (λ x. tt) (λ x. x.now) result }
{
    if is_plain(byte) {
        return literal(&[byte], bytes);
    }
    let escape = [b'%', hex_digit(byte / 16), hex_digit(byte % 16)];
    literal(&escape, bytes)
}

/// Reads a text as it stands escaped.
fn escaped_text<'a>(text: &[u8], bytes: &'a [u8]) -> Result<&'a [u8], usize>
    ensures { Reads (Only (escaped text.now)) bytes.now (λ x. tt) (λ x. x.now) result }
{
    let mut rest = bytes;
    for at in 0..text.len() {
        match escaped_byte(text[at], rest) {
            Ok(more) => rest = more,
            Err(left) => return Err(left),
        }
    }
    Ok(rest)
}

/// Reads a text as it stands escaped, and one of the marks behind it.
pub(crate) fn closed_escaped<'a>(
    text: &[u8],
    marks: &[u8],
    bytes: &'a [u8],
) -> Result<(u8, &'a [u8]), usize>
    requires { 0 < length marks.now }
    ensures { Reads (Closed (Only (escaped text.now)) marks.now) bytes.now (λ x. (tt, x.0)) (λ x. x.1.now) result }
{
    match escaped_text(text, bytes) {
        Ok(rest) => mark(marks, rest),
        Err(left) => Err(left),
    }
}

/// The number of constants or elements of the declaration at this place.
fn width(decls: &Decls, place: u32) -> Result<u32, AllocError>
    ensures { IfOk result (λ n. n ≡ width_of (widths_of decls.now) place) }
{
    match decls.size(&Sort::Enumeration(place)) {
        Size::Finite(width) => {
            if width > u32::MAX as u128 {
                return Err(AllocError);
            }
            Ok(width as u32)
        }
        Size::Infinite => Err(AllocError),
    }
}

/// Looks the front of the bytes up: an escaped id with one of the marks behind it, where a constant
/// or an element of the declaration at this place has the id.
fn look_up<'a>(
    alloc: Global,
    decls: &Decls,
    place: u32,
    marks: &[u8],
    bytes: &'a [u8],
) -> Result<Option<((u32, u8), &'a [u8])>, AllocError>
    requires distinct { AreDistinct (names_of decls.now) }
    requires stops { AreStops marks.now }
    ensures { IfOk result (λ o. IfSome o (λ x. IsRead (Closed (IsConstantText decls.now place) marks.now) bytes.now (values.Const x.0.0, x.0.1) x.1.now)) }
{
    let Some(read) = unescaped(alloc, marks, bytes)? else {
        return Ok(None);
    };
    match decls.constant(read.0.0.as_str()) {
        Some(named) => {
            if named.declaration != place {
                return Ok(None);
            }
            Ok(Some(((named.index, read.0.1), read.1)))
        }
        None => Ok(None),
    }
}

/// Compares the front of the bytes with the escaped ids of all constants or elements of the
/// declaration at this place. The time is linear in their number and in what the bytes share with
/// their ids.
fn compare<'a>(
    decls: &Decls,
    place: u32,
    marks: &[u8],
    bytes: &'a [u8],
) -> Result<((Value, u8), &'a [u8]), ReadFault>
    requires distinct { AreDistinct (names_of decls.now) }
    requires some { 0 < length marks.now }
    requires stops { AreStops marks.now }
    ensures { ReadsOr (Closed (IsConstantText decls.now place) marks.now) bytes.now (λ x. x.0) (λ x. x.1.now) result }
{
    let width = match width(decls, place) {
        Ok(width) => width,
        Err(error) => return Err(ReadFault::Memory(error)),
    };
    let mut left = bytes.len();
    for index in 0..width {
        let id = decls.constant_id(ConstantRef {
            declaration: place,
            index,
        });
        match closed_escaped(id.as_bytes(), marks, bytes) {
            Ok((mark, rest)) => return Ok(((Value::Const(index), mark), rest)),
            Err(less) => left = left.min(less),
        }
    }
    Err(ReadFault::Broken(left))
}

/// Reads the escaped id of a constant or an element of the declaration at this place, and one of the
/// marks behind it. The time is linear in the id; where there is none, it is also linear in the number
/// of constants.
pub(crate) fn constant<'a>(
    alloc: Global,
    decls: &Decls,
    place: u32,
    marks: &[u8],
    bytes: &'a [u8],
) -> Result<((Value, u8), &'a [u8]), ReadFault>
    requires distinct { AreDistinct (names_of decls.now) }
    requires some { 0 < length marks.now }
    requires stops { AreStops marks.now }
    ensures { ReadsOr (Closed (IsConstantText decls.now place) marks.now) bytes.now (λ x. x.0) (λ x. x.1.now) result }
{
    match look_up(alloc, decls, place, marks, bytes) {
        Ok(Some(((index, mark), rest))) => Ok(((Value::Const(index), mark), rest)),
        Ok(None) => compare(decls, place, marks, bytes),
        Err(error) => Err(ReadFault::Memory(error)),
    }
}
