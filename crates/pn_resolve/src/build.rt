//! The sort of an expression.

ghost use Rattle.std.specs.Prelude.{◌≡◌, IfOk, map};
ghost use Rattle.std.specs.Option.{option_map};
ghost use Rattle.pn_values.specs.declared.sort.Sort.TheVariants as variants;
ghost use Rattle.pn_resolve.specs.Meaning.{all_sorts, range_sort, sort_with};
ghost use Rattle.pn_resolve.specs.Tables.{kept_by, sort_in, within};

use crate::Extent;
use crate::named_sorts::NamedSorts;
use pn_names::Index;
use pn_syntax::{SortExpr, SortNode};
use pn_text::Text;
use pn_values::Sort;
use sqlite_items::{Boxed, Items};
use std::alloc::{AllocError, Global};

/// The sort of an expression whose extent is known, where that keeps within the limits. `sorts` has
/// those of the declarations. Nothing else is built.
pub(crate) fn build_within(
    alloc: Global,
    index: &Index,
    sorts: &NamedSorts,
    expr: &SortExpr,
    extent: Extent,
) -> Result<Option<Sort>, AllocError>
    ensures { IfOk result (λ s. s ≡ within extent (sort_with (kept_by index.now sorts.now) expr.now)) }
{
    match extent {
        Extent::Fits { .. } => build(alloc, index, sorts, expr),
        _ => Ok(None),
    }
}

/// The sort of an expression, where each name in it has one in `sorts`. The recursion goes by the
/// depth of the expression.
#[cycle(build)]
fn build(
    alloc: Global,
    index: &Index,
    sorts: &NamedSorts,
    expr: &SortExpr,
) -> Result<Option<Sort>, AllocError>
    ensures { IfOk result (λ s. s ≡ sort_with (kept_by index.now sorts.now) expr.now) }
{
    match &expr.node {
        SortNode::Dot => Ok(Some(Sort::Dot)),
        SortNode::Bool => Ok(Some(Sort::Bool)),
        SortNode::Range { start, end } => Ok(range(*start, *end)),
        SortNode::Product(parts) => product(alloc, index, sorts, parts.as_slice()),
        SortNode::User(name) => named(alloc, index, sorts, name),
        SortNode::Integer => Ok(Some(Sort::Integer)),
        SortNode::Natural => Ok(Some(Sort::Natural)),
        SortNode::Positive => Ok(Some(Sort::Positive)),
        SortNode::Text => Ok(Some(Sort::Text)),
        SortNode::List(item) => list(alloc, index, sorts, item.get()),
    }
}

/// The product of parts, where each has a sort.
#[cycle(build)]
fn product(
    alloc: Global,
    index: &Index,
    sorts: &NamedSorts,
    parts: &[SortExpr],
) -> Result<Option<Sort>, AllocError>
    ensures { IfOk result (λ s. s ≡ option_map variants.Product (all_sorts (map (sort_with (kept_by index.now sorts.now)) parts.now))) }
{
    match build_all(alloc, index, sorts, parts)? {
        Some(parts) => Ok(Some(Sort::Product(parts))),
        None => Ok(None),
    }
}

/// The lists of an item, where that has a sort.
#[cycle(build)]
fn list(
    alloc: Global,
    index: &Index,
    sorts: &NamedSorts,
    item: &SortExpr,
) -> Result<Option<Sort>, AllocError>
    ensures { IfOk result (λ s. s ≡ option_map variants.List (sort_with (kept_by index.now sorts.now) item.now)) }
{
    match build(alloc, index, sorts, item)? {
        Some(item) => Ok(Some(Sort::List(Boxed::new(alloc, item)?))),
        None => Ok(None),
    }
}

/// The sorts of parts, where each has one.
#[cycle(build)]
fn build_all(
    alloc: Global,
    index: &Index,
    sorts: &NamedSorts,
    parts: &[SortExpr],
) -> Result<Option<Items<Sort>>, AllocError>
    ensures { IfOk result (λ all. all ≡ all_sorts (map (sort_with (kept_by index.now sorts.now)) parts.now)) }
{
    let mut all = Items::new(alloc);
    for part in parts {
        match build(alloc, index, sorts, part)? {
            Some(sort) => all.push(sort)?,
            None => return Ok(None),
        }
    }
    Ok(Some(all))
}

/// The sort of a range that is not empty.
fn range(start: i64, end: i64) -> Option<Sort>
    ensures { result ≡ range_sort start end }
{
    if end < start {
        return None;
    }
    Some(Sort::Range { start, end })
}

/// The sort of what a name means.
fn named(
    alloc: Global,
    index: &Index,
    sorts: &NamedSorts,
    name: &Text,
) -> Result<Option<Sort>, AllocError>
    ensures { IfOk result (λ s. s ≡ kept_by index.now sorts.now name.now) }
{
    match index.sort_place(name.as_str()) {
        Some(place) => copy_at(alloc, sorts, place),
        None => Ok(None),
    }
}

/// The sort at a place, none where there is no such place.
fn copy_at(alloc: Global, sorts: &NamedSorts, place: u32) -> Result<Option<Sort>, AllocError>
    ensures { IfOk result (λ s. s ≡ sort_in sorts.now place) }
{
    match sorts.get(place) {
        Some(sort) => Ok(Some(sort.copy(alloc)?)),
        None => Ok(None),
    }
}
