//! What no clause of names says: that calls succeed while there is memory, and worked examples.

ghost use Rattle.std.specs.Prelude.{◌≡◌, IfOk};
ghost use Rattle.pn_names.specs.Names.{names_of, variable_places_of};

use pn_names::{
    Declared, Index, are_distinct, are_numbered, constant_count, constant_id, declaration_id,
    variable_id, variable_places, widths,
};
use pn_samples::{add_cyclic, add_finite, add_partition, add_sort, add_variable, elements, sort};
use pn_syntax::{Declaration, SortNode};
use pn_values::ConstantRef;
use std::alloc::{AllocError, Global};
use std::process::Abort;
use std::test::Fail;

fn add_halves(alloc: Global, items: &mut Vec<Declaration>) -> Result<(), AllocError> {
    let elements = elements(alloc, 0, &[("low", "1/1/2"), ("high", "2/1/2")])?;
    let range = sort(0, SortNode::Range { start: 1, end: 2 });
    add_partition(alloc, items, "half", 0, range, elements)
}

fn add_truth(alloc: Global, items: &mut Vec<Declaration>, id: &str) -> Result<(), AllocError> {
    add_variable(alloc, items, id, 0, sort(0, SortNode::Bool))
}

fn add_first(alloc: Global, items: &mut Vec<Declaration>) -> Result<(), AllocError> {
    add_finite(alloc, items, "colour", 0, &["red", "green", "blue"])?;
    add_truth(alloc, items, "x")?;
    add_cyclic(alloc, items, "day", 0, &["mon", "tue"])
}

fn add_all(alloc: Global, items: &mut Vec<Declaration>) -> Result<(), AllocError> {
    add_first(alloc, items)?;
    add_halves(alloc, items)?;
    add_truth(alloc, items, "y")?;
    add_sort(alloc, items, "dots", 0, sort(0, SortNode::Dot))?;
    add_finite(alloc, items, "none", 0, &[])
}

/// Colours, the variable x, days, a partition, the variable y, another name of dots, and no values.
pub(crate) fn declarations(alloc: Global) -> Result<Vec<Declaration>, AllocError> {
    let mut items = Vec::new(alloc);
    add_all(alloc, &mut items)?;
    Ok(items)
}

/// The index of declarations that are numbered, with distinct ids.
pub(crate) fn index_of(
    rt: &impl Abort,
    alloc: Global,
    items: &[Declaration],
) -> Result<Index, AllocError>
    ensures { IfOk result (λ index. index ≡ names_of items.now) }
{
    assert!(rt; are_numbered(items));
    assert!(rt; are_distinct(alloc, items)?);
    Index::of(alloc, items)
}

/// Ids, with what each names and where.
const NAMED: &str = "\
colour named 0
red constant 0/0
blue constant 0/2
x variable 0
tue constant 2/1
half partition 3
high constant 3/1
y variable 1
none named 6
pink nothing
re nothing
redd nothing
 nothing";

fn is_constant(constant: ConstantRef, place: &str) -> bool {
    match place.split_once('/') {
        Some((declaration, index)) => {
            declaration.parse() == Ok(constant.declaration) && index.parse() == Ok(constant.index)
        }
        None => false,
    }
}

/// Whether this is a constant, a variable, .. at this place.
fn is_named(found: Declared, kind: &str, place: &str) -> bool {
    match found {
        Declared::Named(at) => kind == "named" && place.parse() == Ok(at),
        Declared::Variable(at) => kind == "variable" && place.parse() == Ok(at),
        Declared::Partition(at) => kind == "partition" && place.parse() == Ok(at),
        Declared::Constant(constant) => kind == "constant" && is_constant(constant, place),
    }
}

/// Whether an id names what the words tell.
fn names(index: &Index, id: &str, words: &str) -> bool {
    if index.constant(id).is_some() != words.starts_with("constant") {
        return false;
    }
    match index.find(id) {
        Some(found) => match words.split_once(' ') {
            Some((kind, place)) => is_named(found, kind, place),
            None => false,
        },
        None => words == "nothing",
    }
}

fn find(rt: &impl Abort, index: &Index) -> Result<(), Fail> {
    for row in NAMED.lines() {
        let (id, words) = row.split_once(' ').ok_or("no words")?;
        assert!(rt; names(index, id, words));
    }
    Ok(())
}

/// The id of the constant that this id names.
fn id_again<'a>(items: &'a [Declaration], index: &Index, id: &str) -> Option<&'a str>
    requires { index.now ≡ names_of items.now }
{
    let constant = index.constant(id)?;
    Some(constant_id(items, constant))
}

fn constants_tell_their_ids(rt: &impl Abort, items: &[Declaration], index: &Index)
    requires { index.now ≡ names_of items.now }
{
    for id in "red green blue mon tue low high".split(' ') {
        assert!(rt; id_again(items, index, id) == Some(id));
    }
}

/// What ids name where one kind of declaration is asked for.
fn finds_each_kind(index: &Index) -> bool {
    index.sort_place("day") == Some(2)
        && index.sort_place("half") == Some(3)
        && index.sort_place("x").is_none()
        && index.partition("half") == Some(3)
        && index.partition("day").is_none()
        && index.variable("y") == Some(1)
        && index.variable("red").is_none()
}

fn are_named(rt: &impl Abort, alloc: Global, items: &[Declaration]) -> Result<(), Fail> {
    let index = index_of(rt, alloc, items)?;
    find(rt, &index)?;
    assert!(rt; finds_each_kind(&index));
    constants_tell_their_ids(rt, items, &index);
    Ok(())
}

#[test]
fn ids_name_what_is_declared(rt: HostRuntime) -> Result<(), Fail> {
    let items = declarations(rt.alloc())?;
    are_named(&rt, rt.alloc(), &items)
}

/// The id of a variable, if there is one of this number.
fn id_of_variable<'a>(items: &'a [Declaration], places: &[u32], v: u32) -> Option<&'a str>
    requires { places.now ≡ variable_places_of items.now }
{
    if (v as usize) < places.len() {
        Some(variable_id(items, places, v))
    } else {
        None
    }
}

fn are_widths(counts: &[u32]) -> bool {
    counts == [3, 0, 2, 2, 0, 0, 0].as_slice()
}

fn have_widths(rt: &impl Abort, alloc: Global, items: &[Declaration]) -> Result<(), Fail> {
    assert!(rt; are_numbered(items));
    let counts = widths(alloc, items)?;
    assert!(rt; are_widths(counts.as_slice()));
    Ok(())
}

fn are_x_and_y(items: &[Declaration], places: &[u32]) -> bool
    requires { places.now ≡ variable_places_of items.now }
{
    places == [1, 4].as_slice()
        && id_of_variable(items, places, 0) == Some("x")
        && id_of_variable(items, places, 1) == Some("y")
        && id_of_variable(items, places, 2).is_none()
}

fn have_variables(rt: &impl Abort, alloc: Global, items: &[Declaration]) -> Result<(), Fail> {
    assert!(rt; items.len() == 7);
    let places = variable_places(alloc, items)?;
    assert!(rt; are_x_and_y(items, &places));
    Ok(())
}

fn tell_their_own(rt: &impl Abort, alloc: Global, items: &[Declaration]) -> Result<(), Fail> {
    have_widths(rt, alloc, items)?;
    have_variables(rt, alloc, items)?;
    assert!(rt; items.len() == 7);
    assert!(rt; declaration_id(items, 3) == "half");
    assert!(rt; constant_count(&items[3]) == 2);
    Ok(())
}

#[test]
fn declarations_tell_their_own(rt: HostRuntime) -> Result<(), Fail> {
    let items = declarations(rt.alloc())?;
    tell_their_own(&rt, rt.alloc(), &items)
}

fn with_variable(alloc: Global, id: &str) -> Result<Vec<Declaration>, AllocError> {
    let mut items = declarations(alloc)?;
    add_truth(alloc, &mut items, id)?;
    Ok(items)
}

fn has_distinct_ids(
    rt: &impl Abort,
    alloc: Global,
    items: &[Declaration],
) -> Result<bool, AllocError> {
    assert!(rt; are_numbered(items));
    are_distinct(alloc, items)
}

/// Whether the ids are distinct with one more variable of this id.
fn are_distinct_with(rt: &impl Abort, alloc: Global, id: &str) -> Result<bool, AllocError> {
    let items = with_variable(alloc, id)?;
    has_distinct_ids(rt, alloc, &items)
}

#[test]
fn an_id_given_twice(rt: HostRuntime) -> Result<(), Fail> {
    assert!(rt; are_distinct_with(&rt, rt.alloc(), "more")?);
    for id in "colour red x low".split(' ') {
        assert!(rt; !are_distinct_with(&rt, rt.alloc(), id)?);
    }
    Ok(())
}
