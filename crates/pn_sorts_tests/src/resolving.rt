//! What no clause of resolving says: that calls succeed while there is memory, and worked examples.

ghost use Rattle.std.specs.Prelude.{◌≡◌, IfOk};
ghost use Rattle.pn_names.specs.Names.{names_of};
ghost use Rattle.pn_resolve.specs.Tables.{IsTable};

use crate::names::index_of;
use pn_faults::{Fault, Reason};
use pn_names::{Index, are_numbered};
use pn_resolve::{Extent, ResolveFault, Table, least_fault_of};
use pn_samples::{add_cyclic, add_partition, add_sort, elements, sort, user};
use pn_syntax::{Declaration, SortExpr, SortNode};
use pn_values::Sort;
use sqlite_items::{Boxed, Items};
use std::alloc::{AllocError, Global};
use std::process::Abort;
use std::test::Fail;

fn add_users(
    alloc: Global,
    parts: &mut Items<SortExpr>,
    at: u64,
    name: &str,
) -> Result<(), AllocError> {
    parts.push(user(alloc, at, name)?)?;
    parts.push(user(alloc, at, name)?)?;
    Ok(())
}

/// The product of what a name means, twice, all at one offset.
pub(crate) fn twice(alloc: Global, at: u64, name: &str) -> Result<SortExpr, AllocError> {
    let mut parts = Items::new(alloc);
    add_users(alloc, &mut parts, at, name)?;
    Ok(sort(at, SortNode::Product(parts)))
}

/// Lists in one another, all at one offset, so many around a dot.
fn lists(alloc: Global, at: u64, count: usize) -> Result<SortExpr, AllocError> {
    let mut all = sort(at, SortNode::Dot);
    for _ in 0..count {
        all = sort(at, SortNode::List(Boxed::new(alloc, all)?));
    }
    Ok(all)
}

/// A partition with one element, which lists a number of a range that is empty, at the offset 900.
fn add_empty_range(
    alloc: Global,
    items: &mut Vec<Declaration>,
    at: u64,
    base: SortExpr,
) -> Result<(), AllocError> {
    let elements = elements(alloc, 900, &[("element", "0/1/0")])?;
    add_partition(alloc, items, "split", at, base, elements)
}

fn add_link(
    alloc: Global,
    items: &mut Vec<Declaration>,
    k: u64,
    before: &str,
    doubles: bool,
) -> Result<(), AllocError> {
    let id = format!(in alloc; "s{k}")?;
    let sort = if doubles {
        twice(alloc, k, before)?
    } else {
        user(alloc, k, before)?
    };
    add_sort(alloc, items, &id, k, sort)
}

fn add_links(
    alloc: Global,
    items: &mut Vec<Declaration>,
    count: u64,
    doubles: bool,
) -> Result<(), AllocError> {
    add_sort(alloc, items, "s0", 0, sort(1, SortNode::Dot))?;
    for k in 1..count {
        let before = k - 1;
        let before = format!(in alloc; "s{before}")?;
        add_link(alloc, items, k, &before, doubles)?;
    }
    Ok(())
}

/// Declarations of which each is named by the next, once or twice. Each has an offset of its own.
pub(crate) fn chain(
    alloc: Global,
    count: u64,
    doubles: bool,
) -> Result<Vec<Declaration>, AllocError> {
    let mut items = Vec::new(alloc);
    add_links(alloc, &mut items, count, doubles)?;
    Ok(items)
}

fn table_of(
    rt: &impl Abort,
    alloc: Global,
    items: &[Declaration],
    index: &Index,
) -> Result<Table, AllocError>
    requires { index.now ≡ names_of items.now }
    ensures { IfOk result (IsTable items.now index.now) }
{
    assert!(rt; are_numbered(items));
    Table::of(alloc, items, index)
}

/// What a test asks of declarations; names stand at the offset 7.
#[derive(Clone, Copy)]
enum Asked<'a> {
    NoFault,
    Fault(Reason, u64, &'a str),
    Extent(&'a SortExpr, Extent),
    /// This name means the product of two enumerations, of the declaration at place 1.
    Pair(&'a str),
    /// This name is no sort.
    Unknown(&'a str),
    /// What this name means refers elsewhere.
    Elsewhere(&'a str),
}

fn has_fault(
    alloc: Global,
    items: &[Declaration],
    index: &Index,
    table: &Table,
    reason: Reason,
    at: u64,
    detail: &str,
) -> Result<bool, AllocError>
    requires { IsTable items.now index.now table.now }
{
    let least = least_fault_of(alloc, items, index, table)?;
    Ok(is(&least, reason, at, detail))
}

fn has_no_fault(
    alloc: Global,
    items: &[Declaration],
    index: &Index,
    table: &Table,
) -> Result<bool, AllocError>
    requires { IsTable items.now index.now table.now }
{
    let least = least_fault_of(alloc, items, index, table)?;
    Ok(least.is_none())
}

fn has_extent(
    alloc: Global,
    index: &Index,
    table: &Table,
    expr: &SortExpr,
    extent: Extent,
) -> Result<bool, AllocError> {
    let mut least = None;
    Ok(table.walk(alloc, index, expr, &mut least)? == extent)
}

/// What the expression that is this name stands for.
fn meaning_of(
    alloc: Global,
    index: &Index,
    table: &Table,
    name: &str,
) -> Result<Sort, ResolveFault> {
    let expr = user(alloc, 7, name)?;
    table.resolve(alloc, index, &expr)
}

fn holds(
    alloc: Global,
    items: &[Declaration],
    index: &Index,
    table: &Table,
    asked: Asked<'_>,
) -> Result<bool, AllocError>
    requires { IsTable items.now index.now table.now }
{
    match asked {
        Asked::NoFault => has_no_fault(alloc, items, index, table),
        Asked::Fault(reason, at, detail) => {
            has_fault(alloc, items, index, table, reason, at, detail)
        }
        Asked::Extent(expr, extent) => has_extent(alloc, index, table, expr, extent),
        Asked::Pair(name) => Ok(is_pair(&meaning_of(alloc, index, table, name))),
        Asked::Unknown(name) => Ok(is_unknown(&meaning_of(alloc, index, table, name), name)),
        Asked::Elsewhere(name) => Ok(is_elsewhere(&meaning_of(alloc, index, table, name))),
    }
}

/// Builds the table of the declarations and asks this of it.
fn holds_by(
    rt: &impl Abort,
    alloc: Global,
    items: &[Declaration],
    index: &Index,
    asked: Asked<'_>,
) -> Result<bool, AllocError>
    requires { index.now ≡ names_of items.now }
{
    let table = table_of(rt, alloc, items, index)?;
    holds(alloc, items, index, &table, asked)
}

/// Asks this of the declarations.
fn answer(
    rt: &impl Abort,
    alloc: Global,
    items: &[Declaration],
    asked: Asked<'_>,
) -> Result<(), Fail> {
    let index = index_of(rt, alloc, items)?;
    assert!(rt; holds_by(rt, alloc, items, &index, asked)?);
    Ok(())
}

/// Whether a fault is this one, whole.
pub(crate) fn is_fault(fault: &Fault, reason: Reason, at: u64, detail: &str) -> bool {
    fault.reason == reason && fault.at == at && fault.detail.as_str() == detail
}

fn is(least: &Option<Fault>, reason: Reason, at: u64, detail: &str) -> bool {
    match least {
        Some(fault) => is_fault(fault, reason, at, detail),
        None => false,
    }
}

#[test]
fn a_long_chain_has_no_fault(rt: HostRuntime) -> Result<(), Fail> {
    let items = chain(rt.alloc(), 20000, false)?;
    answer(&rt, rt.alloc(), &items, Asked::NoFault)
}

fn fit(rt: &impl Abort, alloc: Global, items: &[Declaration]) -> Result<(), Fail> {
    answer(rt, alloc, items, Asked::NoFault)?;
    let expr = user(alloc, 0, "s11")?;
    answer(rt, alloc, items, Asked::Extent(&expr, fits(12, 4095)))
}

#[test]
fn doubles_fit_up_to_4095_nodes(rt: HostRuntime) -> Result<(), Fail> {
    let items = chain(rt.alloc(), 12, true)?;
    fit(&rt, rt.alloc(), &items)
}

#[test]
fn doubles_past_that_are_too_big(rt: HostRuntime) -> Result<(), Fail> {
    let items = chain(rt.alloc(), 64, true)?;
    let asked = Asked::Fault(Reason::SortTooBig, 12, "productsort");
    answer(&rt, rt.alloc(), &items, asked)
}

fn fits(depth: u32, nodes: u32) -> Extent {
    Extent::Fits { depth, nodes }
}

fn lists_have(rt: &impl Abort, alloc: Global, count: usize, extent: Extent) -> Result<(), Fail> {
    let lists = lists(alloc, 0, count)?;
    answer(rt, alloc, &[], Asked::Extent(&lists, extent))
}

/// The product of so many dots.
fn dots(alloc: Global, count: usize) -> Result<SortExpr, AllocError> {
    let mut parts = Items::new(alloc);
    for _ in 0..count {
        parts.push(sort(0, SortNode::Dot))?;
    }
    Ok(sort(0, SortNode::Product(parts)))
}

fn dots_have(rt: &impl Abort, alloc: Global, count: usize, extent: Extent) -> Result<(), Fail> {
    let dots = dots(alloc, count)?;
    answer(rt, alloc, &[], Asked::Extent(&dots, extent))
}

#[test]
fn sorts_fit_up_to_the_limits(rt: HostRuntime) -> Result<(), Fail> {
    lists_have(&rt, rt.alloc(), 31, fits(32, 32))?;
    lists_have(&rt, rt.alloc(), 32, Extent::TooBig)?;
    dots_have(&rt, rt.alloc(), 4095, fits(2, 4096))?;
    dots_have(&rt, rt.alloc(), 4096, Extent::TooBig)
}

fn add_user(
    alloc: Global,
    items: &mut Vec<Declaration>,
    id: &str,
    at: u64,
    name: &str,
) -> Result<(), AllocError> {
    let expr = user(alloc, at, name)?;
    add_sort(alloc, items, id, at, expr)
}

fn add_big(alloc: Global, items: &mut Vec<Declaration>, at: u64) -> Result<(), AllocError> {
    let expr = lists(alloc, at, 32)?;
    add_sort(alloc, items, "big", at, expr)
}

fn add_split(alloc: Global, items: &mut Vec<Declaration>, at: u64) -> Result<(), AllocError> {
    let base = user(alloc, at, "way")?;
    add_empty_range(alloc, items, at, base)
}

/// The number at this place of the words.
fn number(words: &str, place: usize) -> u64 {
    match words.split(' ').nth(place) {
        Some(word) => word.parse().unwrap_or(0),
        None => 0,
    }
}

/// One declaration with each fault, each at its own offset of these.
fn add_faults(
    alloc: Global,
    items: &mut Vec<Declaration>,
    offsets: &str,
) -> Result<(), AllocError> {
    add_user(alloc, items, "unknown", number(offsets, 0), "nowhere")?;
    add_user(alloc, items, "cycle", number(offsets, 1), "cycle")?;
    add_big(alloc, items, number(offsets, 2))?;
    let empty = number(offsets, 3);
    let range = sort(empty, SortNode::Range { start: 2, end: 1 });
    add_sort(alloc, items, "empty", empty, range)?;
    // the `namedsort` on the way back to the partition is on no cycle
    add_split(alloc, items, number(offsets, 4))?;
    add_user(alloc, items, "way", 0, "split")
}

fn least_at_1(
    rt: &impl Abort,
    alloc: Global,
    offsets: &str,
    reason: Reason,
    detail: &str,
) -> Result<(), Fail> {
    let mut items = Vec::new(alloc);
    add_faults(alloc, &mut items, offsets)?;
    answer(rt, alloc, &items, Asked::Fault(reason, 1, detail))
}

#[test]
fn the_fault_at_the_least_offset_is_told(rt: HostRuntime) -> Result<(), Fail> {
    let alloc = rt.alloc();
    least_at_1(&rt, alloc, "1 2 3 4 5", Reason::UnknownSort, "nowhere")?;
    least_at_1(&rt, alloc, "2 1 3 4 5", Reason::SortCycle, "cycle")?;
    least_at_1(&rt, alloc, "2 3 1 4 5", Reason::SortTooBig, "list")?;
    least_at_1(
        &rt,
        alloc,
        "2 3 4 1 5",
        Reason::EmptyRange,
        "finiteintrange",
    )?;
    least_at_1(&rt, alloc, "2 3 4 5 1", Reason::SortCycle, "split")?;
    least_at_1(&rt, alloc, "1 1 1 1 1", Reason::UnknownSort, "nowhere")
}

#[test]
fn a_range_of_a_constant_is_empty(rt: HostRuntime) -> Result<(), Fail> {
    let mut items = Vec::new(rt.alloc());
    add_empty_range(rt.alloc(), &mut items, 1, sort(2, SortNode::Dot))?;
    let asked = Asked::Fault(Reason::EmptyRange, 900, "finiteintrange");
    answer(&rt, rt.alloc(), &items, asked)
}

fn add_pair(alloc: Global, items: &mut Vec<Declaration>) -> Result<(), AllocError> {
    let pair = twice(alloc, 2, "c")?;
    add_sort(alloc, items, "p", 1, pair)?;
    add_cyclic(alloc, items, "c", 0, &["c1"])?;
    add_user(alloc, items, "q", 6, "q")
}

/// Whether a sort is the product of two enumerations, of the declaration at place 1.
fn is_pair(sort: &Result<Sort, ResolveFault>) -> bool {
    match sort {
        Ok(Sort::Product(parts)) => matches!(
            parts.as_slice(),
            [Sort::Enumeration(1), Sort::Enumeration(1)]
        ),
        _ => false,
    }
}

fn is_unknown(sort: &Result<Sort, ResolveFault>, name: &str) -> bool {
    match sort {
        Err(ResolveFault::Fault(fault)) => is_fault(fault, Reason::UnknownSort, 7, name),
        _ => false,
    }
}

fn is_elsewhere(sort: &Result<Sort, ResolveFault>) -> bool {
    matches!(sort, Err(ResolveFault::Elsewhere))
}

fn resolve_each(rt: &impl Abort, alloc: Global, items: &[Declaration]) -> Result<(), Fail> {
    answer(rt, alloc, items, Asked::Pair("p"))?;
    answer(rt, alloc, items, Asked::Unknown("c1"))?;
    answer(rt, alloc, items, Asked::Elsewhere("q"))
}

#[test]
fn resolves(rt: HostRuntime) -> Result<(), Fail> {
    let mut items = Vec::new(rt.alloc());
    add_pair(rt.alloc(), &mut items)?;
    resolve_each(&rt, rt.alloc(), &items)
}
