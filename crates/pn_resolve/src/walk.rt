//! The walk over a sort expression.

ghost use Rattle.std.specs.Prelude.{◌≡◌, IfOk, OnOk, Some, None, map, slice_index_or};
ghost use Rattle.std.specs.List.{flat_map};
ghost use Rattle.pn_faults.specs.Least.{least_fault, lower};
ghost use Rattle.pn_resolve.specs.Telling.{told, told_range, told_name, told_parts, known_by, too_big};

use crate::Extent;
use pn_faults::{Fault, Reason, keep_least_at};
use pn_names::Index;
use pn_syntax::{SortExpr, SortNode};
use pn_text::Text;
use std::alloc::{AllocError, Global};

/// The extent of the sort that an expression has, where `extents` has those of the declarations.
/// Keeps the least of the faults in it and the one so far. The recursion goes by the depth of the
/// expression.
#[cycle(walk)]
pub(crate) fn walk(
    alloc: Global,
    index: &Index,
    extents: &[Extent],
    expr: &SortExpr,
    least: &mut Option<Fault>,
) -> Result<Extent, AllocError>
    ensures extent { IfOk result (λ e. e ≡ (told (known_by index.now extents.now) expr.now).extent) }
    ensures faults { OnOk result (least.new ≡ lower least.old (least_fault (told (known_by index.now extents.now) expr.now).faults)) }
{
    let at = expr.at;
    match &expr.node {
        SortNode::Range { start, end } => walk_range(alloc, at, *start, *end, least),
        SortNode::User(name) => {
            let extent = walk_name(alloc, index, extents, at, name, least)?;
            keep_big(alloc, at, "usersort", extent, least)
        }
        SortNode::Product(parts) => {
            let inside = walk_all(alloc, index, extents, parts.as_slice(), least)?;
            keep_big(alloc, at, "productsort", inside.around(), least)
        }
        SortNode::List(part) => {
            let inside = walk(alloc, index, extents, part.get(), least)?;
            keep_big(alloc, at, "list", inside.around(), least)
        }
        _ => Ok(Extent::Fits { depth: 1, nodes: 1 }),
    }
}

/// The extent of parts side by side.
#[cycle(walk)]
fn walk_all(
    alloc: Global,
    index: &Index,
    extents: &[Extent],
    parts: &[SortExpr],
    least: &mut Option<Fault>,
) -> Result<Extent, AllocError>
    ensures extent { IfOk result (λ e. e ≡ (told_parts (map (told (known_by index.now extents.now)) parts.now)).extent) }
    ensures faults { OnOk result (least.new ≡ lower least.old (least_fault (told_parts (map (told (known_by index.now extents.now)) parts.now)).faults)) }
{
    let mut total = Extent::Fits { depth: 0, nodes: 0 };
    for part in parts {
        total = total.beside(walk(alloc, index, extents, part, least)?);
    }
    Ok(total)
}

/// The extent of a range.
fn walk_range(
    alloc: Global,
    at: u64,
    start: i64,
    end: i64,
    least: &mut Option<Fault>,
) -> Result<Extent, AllocError>
    ensures extent { IfOk result (λ e. e ≡ (told_range at start end).extent) }
    ensures faults { OnOk result (least.new ≡ lower least.old (least_fault (told_range at start end).faults)) }
{
    if end < start {
        keep_least_at(least, alloc, Reason::EmptyRange, at, "finiteintrange")?;
        return Ok(Extent::NoSort);
    }
    Ok(Extent::Fits { depth: 1, nodes: 1 })
}

/// The extent of what a name means.
fn walk_name(
    alloc: Global,
    index: &Index,
    extents: &[Extent],
    at: u64,
    name: &Text,
    least: &mut Option<Fault>,
) -> Result<Extent, AllocError>
    ensures extent { IfOk result (λ e. e ≡ (told_name at name.now (known_by index.now extents.now name.now)).extent) }
    ensures faults { OnOk result (least.new ≡ lower least.old (least_fault (told_name at name.now (known_by index.now extents.now name.now)).faults)) }
{
    match index.sort_place(name.as_str()) {
        Some(place) => Ok(extent_at(extents, place)),
        None => {
            keep_least_at(least, alloc, Reason::UnknownSort, at, name.as_str())?;
            Ok(Extent::NoSort)
        }
    }
}

/// The extent at a place, no sort where there is no such place.
fn extent_at(extents: &[Extent], place: u32) -> Extent
    ensures { result ≡ slice_index_or extents.now place Extent.NoSort }
{
    let place = place as usize;
    if place < extents.len() {
        extents[place]
    } else {
        Extent::NoSort
    }
}

/// The extent of an element of this name. Where it is too big, that fault is kept.
fn keep_big(
    alloc: Global,
    at: u64,
    name: &str,
    extent: Extent,
    least: &mut Option<Fault>,
) -> Result<Extent, AllocError>
    ensures extent { IfOk result (λ e. e ≡ extent) }
    ensures faults { OnOk result (least.new ≡ lower least.old (least_fault (too_big at name.now extent))) }
{
    if let Extent::TooBig = extent {
        keep_least_at(least, alloc, Reason::SortTooBig, at, name)?;
    }
    Ok(extent)
}
