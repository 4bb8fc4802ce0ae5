//! What no clause of partitions says: that calls succeed while there is memory, and worked examples.

ghost use Rattle.std.specs.Prelude.{◌≡◌, []};
ghost use Rattle.pn_names.specs.Names.{names_of};

use crate::names::{declarations, index_of};
use pn_names::Index;
use pn_partitions::part_table;
use pn_samples::add_element;
use pn_syntax::{ConstExpr, Declaration, PartElement};
use pn_text::Text;
use pn_values::Sort;
use sqlite_items::Items;
use std::alloc::{AllocError, Global};
use std::process::Abort;
use std::test::Fail;

fn add_elements(
    alloc: Global,
    elements: &mut Items<PartElement>,
    lists: &str,
) -> Result<(), AllocError> {
    for words in lists.split(';') {
        add_element(alloc, elements, 0, "e", words)?;
    }
    Ok(())
}

/// Elements, split by semicolons, that list these values.
fn elements_of(alloc: Global, lists: &str) -> Result<Items<PartElement>, AllocError> {
    let mut elements = Items::new(alloc);
    add_elements(alloc, &mut elements, lists)?;
    Ok(elements)
}

/// Whether a table has these numbers, each a digit.
fn is_written(table: &[u32], digits: &[u8]) -> bool {
    if table.len() != digits.len() {
        return false;
    }
    for place in 0..table.len() {
        if table[place].saturating_add(48) != u32::from(digits[place]) {
            return false;
        }
    }
    true
}

/// Whether these are the numbers of the elements that list each value, or `none` for no partition.
fn is_table(table: &Option<Vec<u32>>, want: &str) -> bool {
    match table {
        Some(table) => is_written(table.as_slice(), want.as_bytes()),
        None => want == "none",
    }
}

/// Whether these elements have this table of the base sort.
fn have_table(
    alloc: Global,
    items: &[Declaration],
    index: &Index,
    base: &Sort,
    elements: &[PartElement],
    want: &str,
) -> Result<bool, AllocError>
    requires { index.now ≡ names_of items.now }
{
    if elements.len() >= 100 {
        return Ok(false);
    }
    let table = part_table(alloc, index, items, base, elements)?;
    Ok(is_table(&table, want))
}

/// Whether the base sort split into elements that list these values has this table.
fn is_split(
    alloc: Global,
    items: &[Declaration],
    index: &Index,
    base: &Sort,
    lists: &str,
    want: &str,
) -> Result<bool, AllocError>
    requires { index.now ≡ names_of items.now }
{
    let elements = elements_of(alloc, lists)?;
    have_table(alloc, items, index, base, elements.as_slice(), want)
}

/// Whether a row has lists of values and their table.
fn is_row(
    alloc: Global,
    items: &[Declaration],
    index: &Index,
    base: &Sort,
    row: &str,
) -> Result<bool, AllocError>
    requires { index.now ≡ names_of items.now }
{
    match row.split_once('=') {
        Some((lists, want)) => is_split(alloc, items, index, base, lists, want),
        None => Ok(false),
    }
}

fn are_rows(
    rt: &impl Abort,
    alloc: Global,
    items: &[Declaration],
    index: &Index,
    base: &Sort,
    rows: &str,
) -> Result<(), AllocError>
    requires { index.now ≡ names_of items.now }
{
    for row in rows.lines() {
        assert!(rt; is_row(alloc, items, index, base, row)?);
    }
    Ok(())
}

fn are_split_by(
    rt: &impl Abort,
    alloc: Global,
    items: &[Declaration],
    base: &Sort,
    rows: &str,
) -> Result<(), Fail> {
    let index = index_of(rt, alloc, items)?;
    Ok(are_rows(rt, alloc, items, &index, base, rows)?)
}

/// Each row has lists of values, split by semicolons, and their table.
fn are_split(rt: &impl Abort, alloc: Global, base: &Sort, rows: &str) -> Result<(), Fail> {
    let items = declarations(alloc)?;
    are_split_by(rt, alloc, &items, base, rows)
}

const COLOURS: &str = "\
red blue;green=010
green;;blue red=202
red blue=none
red blue;green red=none
red blue blue=none
red blue;green mon=none
red blue;low=none
red blue;colour=none
red blue;1/0/2=none";

#[test]
fn partitions_of_enumerations(rt: HostRuntime) -> Result<(), Fail> {
    are_split(&rt, rt.alloc(), &Sort::Enumeration(0), COLOURS)
}

#[test]
fn partitions_of_no_values(rt: HostRuntime) -> Result<(), Fail> {
    are_split(&rt, rt.alloc(), &Sort::Enumeration(6), "=\n;=\nred=none")
}

const NUMBERS: &str = "\
1/-2/1 -2/-2/1;0/-2/1 -1/-2/1=0110
1/-2/1 -2/-2/1;0/-2/1=none
1/-2/1 -2/-2/1;0/-2/1 0/-2/1=none
1/-2/1 -2/-2/1;0/-2/1 -1/-2/2=none
1/-2/1 -2/-2/1;0/-2/1 2/-2/1=none
1/-2/1 -2/-2/1;0/-2/1 red=none";

#[test]
fn partitions_of_ranges(rt: HostRuntime) -> Result<(), Fail> {
    let range = Sort::Range { start: -2, end: 1 };
    are_split(&rt, rt.alloc(), &range, NUMBERS)
}

fn range_is_not_split(rt: &impl Abort, alloc: Global, start: i64, end: i64) -> Result<(), Fail> {
    are_split(rt, alloc, &Sort::Range { start, end }, "=none")
}

#[test]
fn sorts_that_are_not_split(rt: HostRuntime) -> Result<(), Fail> {
    are_split(&rt, rt.alloc(), &Sort::Dot, "=none")?;
    are_split(&rt, rt.alloc(), &Sort::Bool, "=none")?;
    are_split(&rt, rt.alloc(), &Sort::Partition(3), "=none")?;
    range_is_not_split(&rt, rt.alloc(), 0, 1048576)?;
    range_is_not_split(&rt, rt.alloc(), i64::MIN, i64::MAX)
}

/// Numbers from 0 on below a count, the last first.
fn numbers_down(alloc: Global, count: i64) -> Result<Items<ConstExpr>, AllocError> {
    let mut values = Items::new(alloc);
    for value in (0..count).rev() {
        values.push(ConstExpr::Range {
            value,
            start: 0,
            end: 1048575,
            at: 0,
        })?;
    }
    Ok(values)
}

fn add_numbers(
    alloc: Global,
    elements: &mut Items<PartElement>,
    count: i64,
) -> Result<(), AllocError> {
    let id = Text::from_str(alloc, "all")?;
    let values = numbers_down(alloc, count)?;
    elements.push(PartElement {
        id,
        name: None,
        values,
        at: 0,
    })?;
    Ok(())
}

/// An element that lists so many numbers from 0 on.
fn all_numbers(alloc: Global, count: i64) -> Result<Items<PartElement>, AllocError> {
    let mut elements = Items::new(alloc);
    add_numbers(alloc, &mut elements, count)?;
    Ok(elements)
}

fn has_a_million_places(table: &Option<Vec<u32>>) -> bool {
    match table {
        Some(table) => table.len() == 1048576,
        None => false,
    }
}

fn has_a_million(
    rt: &impl Abort,
    alloc: Global,
    index: &Index,
    elements: &[PartElement],
) -> Result<(), Fail>
    requires { index.now ≡ names_of [] }
{
    assert!(rt; elements.len() < 100);
    let base = Sort::Range {
        start: 0,
        end: 1048575,
    };
    let table = part_table(alloc, index, &[], &base, elements)?;
    assert!(rt; has_a_million_places(&table));
    Ok(())
}

#[test]
fn a_range_of_a_million_values(rt: HostRuntime) -> Result<(), Fail> {
    let elements = all_numbers(rt.alloc(), 1048576)?;
    let index = index_of(&rt, rt.alloc(), &[])?;
    has_a_million(&rt, rt.alloc(), &index, elements.as_slice())
}
