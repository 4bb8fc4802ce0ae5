//! Values, read.

ghost use Rattle.std.specs.Prelude.{◌≡◌, ◌+◌, ◌<◌, List, [], ◌∷◌, IfOk, codes, drop, length};
ghost use Rattle.pn_ids.specs.Names.{AreDistinct};
ghost use Rattle.pn_mode_text.specs.Readings.{AreStops, IsValueText, ReadsOr};
ghost use Rattle.pn_mode_text.specs.ValueReadings.{AreInhabitedParts, AreItemTexts, HaveIds, ArePartTexts, IsBracketed, IsInhabited, IsListRest, IsOpened, IsTupleRest, mark_before_parts};
ghost use Rattle.pn_names.specs.Names.{names_of};
ghost use Rattle.pn_values.specs.declared.sort.Sort.{Sort};
ghost use Rattle.pn_values.specs.declared.value.Value.TheVariants as variants;
ghost use Rattle.pn_words.specs.Languages.{Closed, Mark};

use crate::ids::constant;
use crate::inhabited::has_values;
use crate::read_leaves::{dot, text, truth, whole};
use crate::reading::ReadFault;
use pn_sorts::{Decls, Sort, Value};
use pn_words::{literal, mark};
use sqlite_items::Items;
use std::alloc::Global;

/// Reads the text of a value of the sort, as `put_value` puts it, and one of the marks behind it. Of
/// a sort without values no byte is read. The recursion goes by the depth of the sort.
pub(crate) fn value<'a>(
    alloc: Global,
    decls: &Decls,
    sort: &Sort,
    marks: &[u8],
    bytes: &'a [u8],
) -> Result<((Value, u8), &'a [u8]), ReadFault>
    requires distinct { AreDistinct (names_of decls.now) }
    requires named { HaveIds decls.now }
    requires some { 0 < length marks.now }
    requires stops { AreStops marks.now }
    ensures { ReadsOr (Closed (IsValueText decls.now sort.now) marks.now) bytes.now (λ x. x.0) (λ x. x.1.now) result }
{
    if !has_values(decls, sort) {
        return Err(ReadFault::Broken(bytes.len()));
    }
    some_value(alloc, decls, sort, marks, bytes)
}

/// Reads the text of a value of a sort that has values.
#[cycle(some_value)]
fn some_value<'a>(
    alloc: Global,
    decls: &Decls,
    sort: &Sort,
    marks: &[u8],
    bytes: &'a [u8],
) -> Result<((Value, u8), &'a [u8]), ReadFault>
    requires distinct { AreDistinct (names_of decls.now) }
    requires named { HaveIds decls.now }
    requires inhabited { IsInhabited decls.now sort.now }
    requires some { 0 < length marks.now }
    requires stops { AreStops marks.now }
    ensures { ReadsOr (Closed (IsValueText decls.now sort.now) marks.now) bytes.now (λ x. x.0) (λ x. x.1.now) result }
{
    match sort {
        Sort::Dot => dot(marks, bytes),
        Sort::Bool => truth(marks, bytes),
        Sort::Enumeration(place) => constant(alloc, decls, *place, marks, bytes),
        Sort::Partition(place) => constant(alloc, decls, *place, marks, bytes),
        Sort::Range { start, end } => whole(*start, *end, marks, bytes),
        Sort::Product(parts) => tuple(alloc, decls, parts.as_slice(), marks, bytes),
        Sort::Integer => whole(i64::MIN, i64::MAX, marks, bytes),
        Sort::Natural => whole(0, i64::MAX, marks, bytes),
        Sort::Positive => whole(1, i64::MAX, marks, bytes),
        Sort::Text => text(alloc, marks, bytes),
        Sort::List(item) => list(alloc, decls, item.get(), marks, bytes),
    }
}

/// Reads one of the marks behind a value that was read.
fn closed<'a>(
    value: Value,
    marks: &[u8],
    bytes: &'a [u8],
) -> Result<((Value, u8), &'a [u8]), ReadFault>
    ensures value { IfOk result (λ x. x.0.0 ≡ value) }
    ensures mark { ReadsOr (Mark marks.now) bytes.now (λ x. x.0.1) (λ x. x.1.now) result }
{
    match mark(marks, bytes) {
        Ok((mark, rest)) => Ok(((value, mark), rest)),
        Err(left) => Err(ReadFault::Broken(left)),
    }
}

/// Reads a tuple of values of these sorts, and one of the marks behind it.
#[cycle(some_value)]
fn tuple<'a>(
    alloc: Global,
    decls: &Decls,
    parts: &[Sort],
    marks: &[u8],
    bytes: &'a [u8],
) -> Result<((Value, u8), &'a [u8]), ReadFault>
    requires distinct { AreDistinct (names_of decls.now) }
    requires named { HaveIds decls.now }
    requires inhabited { AreInhabitedParts decls.now parts.now }
    requires some { 0 < length marks.now }
    ensures { ReadsOr (Closed (IsOpened (codes "(") variants.Tuple (IsTupleRest decls.now parts.now)) marks.now) bytes.now (λ x. x.0) (λ x. x.1.now) result }
{
    let mut values = Items::new(alloc);
    match tuple_parts(alloc, decls, parts, &mut values, bytes) {
        Ok(rest) => closed(Value::Tuple(values), marks, rest),
        Err(fault) => Err(fault),
    }
}

/// Reads the parts of a tuple in parentheses.
#[cycle(some_value)]
fn tuple_parts<'a>(
    alloc: Global,
    decls: &Decls,
    parts: &[Sort],
    values: &mut Items<Value>,
    bytes: &'a [u8],
) -> Result<&'a [u8], ReadFault>
    requires distinct { AreDistinct (names_of decls.now) }
    requires named { HaveIds decls.now }
    requires inhabited { AreInhabitedParts decls.now parts.now }
    requires none { values.old ≡ [] }
    ensures { ReadsOr (IsBracketed (codes "(") (IsTupleRest decls.now parts.now)) bytes.now (λ x. values.new) (λ x. x.now) result }
{
    match literal(b"(", bytes) {
        Ok(rest) => tuple_rest(alloc, decls, parts, values, rest),
        Err(left) => Err(ReadFault::Broken(left)),
    }
}

/// Reads what stands behind the `(` of a tuple.
#[cycle(some_value)]
fn tuple_rest<'a>(
    alloc: Global,
    decls: &Decls,
    parts: &[Sort],
    values: &mut Items<Value>,
    bytes: &'a [u8],
) -> Result<&'a [u8], ReadFault>
    requires distinct { AreDistinct (names_of decls.now) }
    requires named { HaveIds decls.now }
    requires inhabited { AreInhabitedParts decls.now parts.now }
    requires none { values.old ≡ [] }
    ensures { ReadsOr (IsTupleRest decls.now parts.now) bytes.now (λ x. values.new) (λ x. x.now) result }
{
    if !parts.is_empty() {
        return each_part(alloc, decls, parts, values, bytes);
    }
    match literal(b")", bytes) {
        Ok(rest) => Ok(rest),
        Err(left) => Err(ReadFault::Broken(left)),
    }
}

/// The mark behind the part at this place of so many: `)` behind the last, and else `,`.
fn mark_behind(place: usize, number: usize) -> &'static [u8]
    requires { place < number }
    ensures mark { (sorts : List Sort) → number ≡ length sorts → result.now ≡ mark_before_parts (drop (place + 1) sorts) ∷ [] }
    ensures some { 0 < length result.now }
    ensures stops { AreStops result.now }
{
    if place + 1 == number { b")" } else { b"," }
}

/// Reads a value of each of these sorts, and the marks behind them.
#[cycle(some_value)]
fn each_part<'a>(
    alloc: Global,
    decls: &Decls,
    parts: &[Sort],
    values: &mut Items<Value>,
    bytes: &'a [u8],
) -> Result<&'a [u8], ReadFault>
    requires distinct { AreDistinct (names_of decls.now) }
    requires named { HaveIds decls.now }
    requires inhabited { AreInhabitedParts decls.now parts.now }
    requires none { values.old ≡ [] }
    ensures { ReadsOr (ArePartTexts decls.now parts.now) bytes.now (λ x. values.new) (λ x. x.now) result }
{
    let mut rest = bytes;
    for i in 0..parts.len() {
        let read = match some_value(alloc, decls, &parts[i], mark_behind(i, parts.len()), rest) {
            Ok(read) => read,
            Err(fault) => return Err(fault),
        };
        rest = read.1;
        match values.push(read.0.0) {
            Ok(()) => {}
            Err(error) => return Err(ReadFault::Memory(error)),
        }
    }
    Ok(rest)
}

/// Reads a list of values of this sort, and one of the marks behind it.
#[cycle(some_value)]
fn list<'a>(
    alloc: Global,
    decls: &Decls,
    item: &Sort,
    marks: &[u8],
    bytes: &'a [u8],
) -> Result<((Value, u8), &'a [u8]), ReadFault>
    requires distinct { AreDistinct (names_of decls.now) }
    requires named { HaveIds decls.now }
    requires some { 0 < length marks.now }
    ensures { ReadsOr (Closed (IsOpened (codes "[") variants.List (IsListRest decls.now item.now)) marks.now) bytes.now (λ x. x.0) (λ x. x.1.now) result }
{
    let mut values = Items::new(alloc);
    match list_items(alloc, decls, item, &mut values, bytes) {
        Ok(rest) => closed(Value::List(values), marks, rest),
        Err(fault) => Err(fault),
    }
}

/// Reads the items of a list in brackets.
#[cycle(some_value)]
fn list_items<'a>(
    alloc: Global,
    decls: &Decls,
    item: &Sort,
    values: &mut Items<Value>,
    bytes: &'a [u8],
) -> Result<&'a [u8], ReadFault>
    requires distinct { AreDistinct (names_of decls.now) }
    requires named { HaveIds decls.now }
    requires none { values.old ≡ [] }
    ensures { ReadsOr (IsBracketed (codes "[") (IsListRest decls.now item.now)) bytes.now (λ x. values.new) (λ x. x.now) result }
{
    match literal(b"[", bytes) {
        Ok(rest) => list_rest(alloc, decls, item, values, rest),
        Err(left) => Err(ReadFault::Broken(left)),
    }
}

/// Reads what stands behind the `[` of a list.
#[cycle(some_value)]
fn list_rest<'a>(
    alloc: Global,
    decls: &Decls,
    item: &Sort,
    values: &mut Items<Value>,
    bytes: &'a [u8],
) -> Result<&'a [u8], ReadFault>
    requires distinct { AreDistinct (names_of decls.now) }
    requires named { HaveIds decls.now }
    requires none { values.old ≡ [] }
    ensures { ReadsOr (IsListRest decls.now item.now) bytes.now (λ x. values.new) (λ x. x.now) result }
{
    match literal(b"]", bytes) {
        Ok(rest) => Ok(rest),
        Err(_) => {
            if !has_values(decls, item) {
                return Err(ReadFault::Broken(bytes.len()));
            }
            each_item(alloc, decls, item, values, bytes)
        }
    }
}

/// Reads values of this sort, and the marks behind them up to `]`.
#[cycle(some_value)]
fn each_item<'a>(
    alloc: Global,
    decls: &Decls,
    item: &Sort,
    values: &mut Items<Value>,
    bytes: &'a [u8],
) -> Result<&'a [u8], ReadFault>
    requires distinct { AreDistinct (names_of decls.now) }
    requires named { HaveIds decls.now }
    requires inhabited { IsInhabited decls.now item.now }
    requires none { values.old ≡ [] }
    ensures { ReadsOr (AreItemTexts decls.now item.now) bytes.now (λ x. values.new) (λ x. x.now) result }
{
    let mut rest = bytes;
    let mut goes_on = true;
    while goes_on {
        let read = match some_value(alloc, decls, item, b",]", rest) {
            Ok(read) => read,
            Err(fault) => return Err(fault),
        };
        goes_on = read.0.1 == b',';
        rest = read.1;
        match values.push(read.0.0) {
            Ok(()) => {}
            Err(error) => return Err(ReadFault::Memory(error)),
        }
    }
    Ok(rest)
}
