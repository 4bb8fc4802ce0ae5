//! The declarations of the examples of terms.

ghost use Rattle.std.specs.Prelude.{IfOk};
ghost use Rattle.pn_sorts.specs.Standing.{IsFaultless};

use pn_samples::{
    add_cyclic, add_finite, add_partition, add_sort, add_variable, elements, sort, user,
};
use pn_sorts::{Declaration, Decls, SortNode, are_distinct, are_numbered};
use std::alloc::{AllocError, Global};
use std::process::Abort;

/// Enters a partition of the sort of this name.
fn put_partition(
    alloc: Global,
    items: &mut Vec<Declaration>,
    id: &str,
    base: &str,
    rows: &[(&str, &str)],
) -> Result<(), AllocError> {
    let base = user(alloc, 0, base)?;
    let elements = elements(alloc, 0, rows)?;
    add_partition(alloc, items, id, 0, base, elements)
}

/// Enters a name of the range from 1.
fn put_range(
    alloc: Global,
    items: &mut Vec<Declaration>,
    id: &str,
    end: i64,
) -> Result<(), AllocError> {
    let range = sort(0, SortNode::Range { start: 1, end });
    add_sort(alloc, items, id, 0, range)
}

/// The cyclic enumeration c (place 0) and the finite one f (place 1), with the partitions q of c
/// (place 2) and t of f (place 3).
fn put_sorts(alloc: Global, items: &mut Vec<Declaration>) -> Result<(), AllocError> {
    add_cyclic(alloc, items, "c", 0, &["c1", "c2", "c3"])?;
    add_finite(alloc, items, "f", 0, &["f1", "f2"])?;
    put_partition(alloc, items, "q", "c", &[("qa", "c1"), ("qb", "c2 c3")])?;
    put_partition(alloc, items, "t", "f", &[("ta", "f1"), ("tb", "f2")])
}

/// The names of the range that `all` may just take, of the next, and of the natural numbers.
fn put_names(alloc: Global, items: &mut Vec<Declaration>) -> Result<(), AllocError> {
    put_range(alloc, items, "most", 1048576)?;
    put_range(alloc, items, "more", 1048577)?;
    add_sort(alloc, items, "naturals", 0, sort(0, SortNode::Natural))
}

/// The variables x of c, y of f and n of the natural numbers.
fn put_variables(alloc: Global, items: &mut Vec<Declaration>) -> Result<(), AllocError> {
    add_variable(alloc, items, "x", 0, user(alloc, 0, "c")?)?;
    add_variable(alloc, items, "y", 0, user(alloc, 0, "f")?)?;
    add_variable(alloc, items, "n", 0, sort(0, SortNode::Natural))
}

/// Enters all of them.
pub(crate) fn put_all(alloc: Global, items: &mut Vec<Declaration>) -> Result<(), AllocError> {
    put_sorts(alloc, items)?;
    put_names(alloc, items)?;
    put_variables(alloc, items)
}

/// What these declare, which have no fault.
fn built(rt: &impl Abort, alloc: Global, items: &[Declaration]) -> Result<Decls, AllocError>
    ensures { IfOk result (λ d. IsFaultless d) }
{
    assert!(rt; are_numbered(items));
    assert!(rt; are_distinct(alloc, items)?);
    let decls = Decls::build(alloc, items)?;
    match decls.fault() {
        None => {}
        Some(_) => panic!(rt; "the declarations have a fault"),
    }
    Ok(decls)
}

/// The declarations of the examples.
pub(crate) fn declared(rt: &impl Abort, alloc: Global) -> Result<Decls, AllocError>
    ensures { IfOk result (λ d. IsFaultless d) }
{
    let mut items = Vec::new(alloc);
    put_all(alloc, &mut items)?;
    built(rt, alloc, &items)
}
