//! What no clause of declarations says: that calls succeed while there is memory, and worked
//! examples.

ghost use Rattle.std.specs.Prelude.{◌≡◌, ◌<◌, ◌^◌, true, length};
ghost use Rattle.pn_carriers.specs.Carriers.{carrier, is_finite};
ghost use Rattle.pn_names.specs.Names.{widths_of};

use crate::resolving::{chain, is_fault, twice};
use pn_faults::{Reason, Refusal};
use pn_samples::{add_cyclic, add_element, add_partition, add_sort, add_variable, user};
use pn_sorts::{Decls, are_distinct, are_numbered};
use pn_syntax::{Declaration, PartElement};
use pn_values::{Size, Sort, Value};
use sqlite_items::Items;
use std::alloc::{AllocError, Global};
use std::process::Abort;
use std::test::Fail;

fn add_elements(
    alloc: Global,
    elements: &mut Items<PartElement>,
    last: &str,
) -> Result<(), AllocError> {
    add_element(alloc, elements, 0, "f", "e1")?;
    add_element(alloc, elements, 0, "g", last)
}

fn elements_of(alloc: Global, last: &str) -> Result<Items<PartElement>, AllocError> {
    let mut elements = Items::new(alloc);
    add_elements(alloc, &mut elements, last)?;
    Ok(elements)
}

fn add_all(alloc: Global, items: &mut Vec<Declaration>, last: &str) -> Result<(), AllocError> {
    add_cyclic(alloc, items, "e", 1, &["e1", "e2", "e3"])?;
    add_variable(alloc, items, "x", 2, user(alloc, 3, "e")?)?;
    let elements = elements_of(alloc, last)?;
    add_partition(alloc, items, "p", 7, user(alloc, 8, "e")?, elements)
}

/// The enumeration e of e1, e2 and e3, the variable x of that sort, and the partition p of it, at
/// the offset 7, whose elements f and g list e1, and these constants.
fn items(alloc: Global, last: &str) -> Result<Vec<Declaration>, AllocError> {
    let mut items = Vec::new(alloc);
    add_all(alloc, &mut items, last)?;
    Ok(items)
}

fn add_circle(alloc: Global, items: &mut Vec<Declaration>) -> Result<(), AllocError> {
    add_sort(alloc, items, "s", 171, user(alloc, 172, "t")?)?;
    add_sort(alloc, items, "t", 181, user(alloc, 182, "s")?)
}

/// Two names of the sorts of each other.
fn circle(alloc: Global) -> Result<Vec<Declaration>, AllocError> {
    let mut items = Vec::new(alloc);
    add_circle(alloc, &mut items)?;
    Ok(items)
}

/// What a test asks of the declarations that it builds.
#[derive(Clone, Copy)]
enum Asked {
    Circle,
    BadlySplit,
    NoFault,
    Pair(u32),
    Place,
    Large,
}

fn is_right(rt: &impl Abort, answer: Result<bool, AllocError>) -> Result<(), Fail> {
    assert!(rt; answer?);
    Ok(())
}

/// Builds the declarations and asks this of them. No other function owns them.
fn answer(rt: &impl Abort, alloc: Global, items: &[Declaration], asked: Asked) -> Result<(), Fail> {
    assert!(rt; are_numbered(items));
    assert!(rt; are_distinct(alloc, items)?);
    let decls = Decls::build(alloc, items)?;
    is_right(rt, holds(alloc, &decls, asked))
}

fn holds(alloc: Global, decls: &Decls, asked: Asked) -> Result<bool, AllocError> {
    match asked {
        Asked::Circle => Ok(is_a_circle(alloc, decls)),
        Asked::BadlySplit => Ok(tells(decls, Reason::BadPartition, 7, "p")),
        Asked::NoFault => Ok(has_no_fault(alloc, decls)),
        Asked::Pair(place) => Ok(has_pair(alloc, decls, place)),
        Asked::Place => has_place_4(alloc, decls),
        Asked::Large => Ok(has_a_large_sort(decls)),
    }
}

/// Whether the fault of these declarations is this one, whole.
fn tells(decls: &Decls, reason: Reason, at: u64, detail: &str) -> bool {
    match decls.fault() {
        Some(fault) => is_fault(fault, reason, at, detail),
        None => false,
    }
}

/// Whether an expression is refused for this fault, whole.
fn is_refused(refused: &Result<Sort, Refusal>, reason: Reason, at: u64, detail: &str) -> bool {
    match refused {
        Err(Refusal::Fault(fault)) => is_fault(fault, reason, at, detail),
        _ => false,
    }
}

/// What the expression that is this name stands for.
fn resolved(alloc: Global, decls: &Decls, name: &str) -> Result<Sort, Refusal> {
    let expr = user(alloc, 300, name)?;
    decls.resolve(alloc, &expr)
}

fn is_a_circle(alloc: Global, decls: &Decls) -> bool {
    let refused = resolved(alloc, decls, "t");
    tells(decls, Reason::SortCycle, 171, "s") && is_refused(&refused, Reason::SortCycle, 171, "s")
}

#[test]
fn sorts_that_name_each_other(rt: HostRuntime) -> Result<(), Fail> {
    let items = circle(rt.alloc())?;
    answer(&rt, rt.alloc(), &items, Asked::Circle)
}

#[test]
fn a_value_that_is_listed_twice(rt: HostRuntime) -> Result<(), Fail> {
    let items = items(rt.alloc(), "e2 e1")?;
    answer(&rt, rt.alloc(), &items, Asked::BadlySplit)
}

/// Whether this constant is the last of the first declaration.
fn has_last(decls: &Decls, id: &str) -> bool {
    match decls.constant(id) {
        Some(constant) => constant.declaration == 0 && constant.index == 2,
        None => false,
    }
}

fn is_partition(sort: &Result<Sort, Refusal>) -> bool {
    matches!(sort, Ok(Sort::Partition(2)))
}

fn has_no_fault(alloc: Global, decls: &Decls) -> bool {
    let sort = resolved(alloc, decls, "p");
    decls.fault().is_none() && has_last(decls, "e3") && is_partition(&sort)
}

#[test]
fn declarations_without_a_fault(rt: HostRuntime) -> Result<(), Fail> {
    let items = items(rt.alloc(), "e2 e3")?;
    answer(&rt, rt.alloc(), &items, Asked::NoFault)
}

fn add_product(alloc: Global, items: &mut Vec<Declaration>) -> Result<(), AllocError> {
    add_sort(alloc, items, "p", 1, twice(alloc, 2, "c")?)
}

fn add_pair(alloc: Global, items: &mut Vec<Declaration>, first: bool) -> Result<(), AllocError> {
    if first {
        add_product(alloc, items)?;
    }
    add_cyclic(alloc, items, "c", 5, &["c1"])?;
    if !first {
        add_product(alloc, items)?;
    }
    Ok(())
}

/// The enumeration c of c1, and the name p of the product of c with itself, before it or behind it.
fn pair(alloc: Global, first: bool) -> Result<Vec<Declaration>, AllocError> {
    let mut items = Vec::new(alloc);
    add_pair(alloc, &mut items, first)?;
    Ok(items)
}

/// Whether a sort is the product of two enumerations of the declaration at this place.
fn is_pair_of(sort: &Result<Sort, Refusal>, place: u32) -> bool {
    match sort {
        Ok(Sort::Product(parts)) => match parts.as_slice() {
            [Sort::Enumeration(one), Sort::Enumeration(two)] => *one == place && *two == place,
            _ => false,
        },
        _ => false,
    }
}

fn has_pair(alloc: Global, decls: &Decls, place: u32) -> bool {
    let sort = resolved(alloc, decls, "p");
    decls.fault().is_none() && is_pair_of(&sort, place)
}

fn means_a_pair(rt: &impl Abort, alloc: Global, first: bool, place: u32) -> Result<(), Fail> {
    let items = pair(alloc, first)?;
    answer(rt, alloc, &items, Asked::Pair(place))
}

#[test]
fn declarations_in_either_order(rt: HostRuntime) -> Result<(), Fail> {
    means_a_pair(&rt, rt.alloc(), true, 1)?;
    means_a_pair(&rt, rt.alloc(), false, 0)
}

fn push_both(sorts: &mut Items<Sort>) -> Result<(), AllocError> {
    sorts.push(Sort::Bool)?;
    sorts.push(Sort::Range { start: 3, end: 5 })?;
    Ok(())
}

/// The product of the truth values and the numbers from 3 to 5.
fn truths_and_numbers(alloc: Global) -> Result<Sort, AllocError> {
    let mut sorts = Items::new(alloc);
    push_both(&mut sorts)?;
    Ok(Sort::Product(sorts))
}

/// Whether a value is the pair of true and 4.
fn is_true_and_4(value: &Value) -> bool {
    match value {
        Value::Tuple(parts) => { matches!(parts.as_slice(), [Value::Bool(true), Value::Int(4)]) }
        _ => false,
    }
}

/// Whether the pair of true and 4 stands at this place of a small sort, and this is its place.
fn stands_at(alloc: Global, decls: &Decls, sort: &Sort, place: u64) -> Result<bool, AllocError> {
    match decls.size(sort) {
        Size::Finite(count) => {
            if u128::from(place) >= count || count > 1000 {
                return Ok(false);
            }
            let value = decls.nth(alloc, sort, place)?;
            Ok(is_true_and_4(&value) && is_at(decls, sort, &value, place))
        }
        Size::Infinite => Ok(false),
    }
}

fn is_at(decls: &Decls, sort: &Sort, value: &Value, place: u64) -> bool
    requires finite { is_finite sort.now ≡ true }
    requires few { length (carrier (widths_of decls.now) sort.now) < 2 ^ 64 }
{
    decls.has_value(sort, value) && decls.ordinal(sort, value) == place
}

fn has_place_4(alloc: Global, decls: &Decls) -> Result<bool, AllocError> {
    let sort = truths_and_numbers(alloc)?;
    stands_at(alloc, decls, &sort, 4)
}

#[test]
fn a_value_at_its_place(rt: HostRuntime) -> Result<(), Fail> {
    answer(&rt, rt.alloc(), &[], Asked::Place)
}

fn add_variables(alloc: Global, items: &mut Vec<Declaration>) -> Result<(), AllocError> {
    for number in 0..500 {
        let id = format!(in alloc; "x{number}")?;
        add_variable(alloc, items, &id, 0, user(alloc, 0, "s11")?)?;
    }
    Ok(())
}

fn has_a_large_sort(decls: &Decls) -> bool {
    decls.fault().is_none() && decls.variable("x499") == Some(499)
}

/// They share the sort of 4095 nodes, so this takes no longer than one of them.
#[test]
fn many_variables_of_a_large_sort(rt: HostRuntime) -> Result<(), Fail> {
    let mut items = chain(rt.alloc(), 12, true)?;
    add_variables(rt.alloc(), &mut items)?;
    answer(&rt, rt.alloc(), &items, Asked::Large)
}
