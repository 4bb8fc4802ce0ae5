//! The declarations of the examples of values.

ghost use Rattle.std.specs.Prelude.{IfOk};
ghost use Rattle.pn_sorts.specs.Standing.{IsFaultless};

use pn_samples::{add_cyclic, add_partition, add_sort, add_variable, elements, sort, user};
use pn_sorts::{Declaration, Decls, SortNode, are_distinct, are_numbered};
use std::alloc::{AllocError, Global};
use std::process::Abort;

fn put_range(
    alloc: Global,
    items: &mut Vec<Declaration>,
    id: &str,
    end: i64,
) -> Result<(), AllocError> {
    let range = sort(0, SortNode::Range { start: 1, end });
    add_sort(alloc, items, id, 0, range)
}

fn put_partition(
    alloc: Global,
    items: &mut Vec<Declaration>,
    id: &str,
    base: &str,
    rows: &[(&str, &str)],
) -> Result<(), AllocError> {
    let base = user(alloc, 0, base)?;
    let elements = elements(alloc, 0, rows)?;
    add_partition(alloc, items, id, 0, base, elements)
}

/// The philosophers of a table, the range from 1 to 3, and the range that `all` may just take; the
/// partition of the philosophers into the first and the others, and that of the range into the
/// number 2 and the others.
fn put_sorts(alloc: Global, items: &mut Vec<Declaration>) -> Result<(), AllocError> {
    add_cyclic(alloc, items, "phil", 0, &["p1", "p2", "p3"])?;
    put_range(alloc, items, "three", 3)?;
    put_range(alloc, items, "most", 1048576)?;
    put_partition(
        alloc,
        items,
        "sides",
        "phil",
        &[("head", "p1"), ("rest", "p3 p2")],
    )?;
    put_partition(
        alloc,
        items,
        "halves",
        "three",
        &[("outer", "1/1/3 3/1/3"), ("inner", "2/1/3")],
    )
}

/// The variables x and y of philosophers and n of the natural numbers.
fn put_all(alloc: Global, items: &mut Vec<Declaration>) -> Result<(), AllocError> {
    put_sorts(alloc, items)?;
    add_variable(alloc, items, "x", 0, user(alloc, 0, "phil")?)?;
    add_variable(alloc, items, "y", 0, user(alloc, 0, "phil")?)?;
    add_variable(alloc, items, "n", 0, sort(0, SortNode::Natural))
}

/// What these declare, which have no fault.
fn built(rt: &impl Abort, alloc: Global, items: &[Declaration]) -> Result<Decls, AllocError>
    ensures { IfOk result (λ d. IsFaultless d) }
{
    assert!(rt; are_numbered(items));
    assert!(rt; are_distinct(alloc, items)?);
    let decls = Decls::build(alloc, items)?;
    match decls.fault() {
        None => {}
        Some(_) => panic!(rt; "the declarations have a fault"),
    }
    Ok(decls)
}

/// The declarations of the examples.
pub(crate) fn declared(rt: &impl Abort, alloc: Global) -> Result<Decls, AllocError>
    ensures { IfOk result (λ d. IsFaultless d) }
{
    let mut items = Vec::new(alloc);
    put_all(alloc, &mut items)?;
    built(rt, alloc, &items)
}
