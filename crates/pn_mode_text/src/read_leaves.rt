//! Values of single sorts, read.

ghost use Rattle.std.specs.Prelude.{◌<◌, length};
ghost use Rattle.pn_mode_text.specs.Readings.{AreStops, ReadsOr};
ghost use Rattle.pn_mode_text.specs.ValueReadings.{IsDotText, IsNumberText, IsTextText, IsTruthText};
ghost use Rattle.pn_words.specs.Languages.{Closed};

use crate::quoted::quoted;
use crate::reading::ReadFault;
use pn_sorts::Value;
use pn_words::{closed_text, one_of, signed};
use std::alloc::Global;

/// Reads `dot`, and one of the marks behind it.
pub(crate) fn dot<'a>(marks: &[u8], bytes: &'a [u8]) -> Result<((Value, u8), &'a [u8]), ReadFault>
    requires some { 0 < length marks.now }
    ensures { ReadsOr (Closed IsDotText marks.now) bytes.now (λ x. x.0) (λ x. x.1.now) result }
{
    match closed_text(b"dot", marks, bytes) {
        Ok((mark, rest)) => Ok(((Value::Dot, mark), rest)),
        Err(left) => Err(ReadFault::Broken(left)),
    }
}

/// Reads `false` or `true`, and one of the marks behind it.
pub(crate) fn truth<'a>(marks: &[u8], bytes: &'a [u8]) -> Result<((Value, u8), &'a [u8]), ReadFault>
    requires some { 0 < length marks.now }
    requires stops { AreStops marks.now }
    ensures { ReadsOr (Closed IsTruthText marks.now) bytes.now (λ x. x.0) (λ x. x.1.now) result }
{
    let words: [&[u8]; 2] = [b"false", b"true"];
    match one_of(&words, marks, bytes) {
        Ok(((place, mark), rest)) => Ok(((Value::Bool(place == 1), mark), rest)),
        Err(left) => Err(ReadFault::Broken(left)),
    }
}

/// Reads a whole number within these bounds, and one of the marks behind it.
pub(crate) fn whole<'a>(
    low: i64,
    high: i64,
    marks: &[u8],
    bytes: &'a [u8],
) -> Result<((Value, u8), &'a [u8]), ReadFault>
    requires some { 0 < length marks.now }
    requires stops { AreStops marks.now }
    ensures { ReadsOr (Closed (IsNumberText low high) marks.now) bytes.now (λ x. x.0) (λ x. x.1.now) result }
{
    match signed(low, high, marks, bytes) {
        Ok(((number, mark), rest)) => Ok(((Value::Int(number), mark), rest)),
        Err(left) => Err(ReadFault::Broken(left)),
    }
}

/// Reads a text between quotation marks, and one of the marks behind it.
pub(crate) fn text<'a>(
    alloc: Global,
    marks: &[u8],
    bytes: &'a [u8],
) -> Result<((Value, u8), &'a [u8]), ReadFault>
    requires some { 0 < length marks.now }
    ensures { ReadsOr (Closed IsTextText marks.now) bytes.now (λ x. x.0) (λ x. x.1.now) result }
{
    match quoted(alloc, marks, bytes) {
        Ok(read) => Ok(((Value::Text(read.0.0), read.0.1), read.1)),
        Err(fault) => Err(fault),
    }
}
