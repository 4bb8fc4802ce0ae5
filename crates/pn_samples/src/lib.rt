//! Declarations for tests, entered into a list that the caller lends, sorts, and terms. No clause says
//! what they are: a test looks at what comes of them.
#![tactic(auto)]

mod sorts;
mod terms;

use pn_syntax::{ConstExpr, Constant, Declaration, PartElement, SortBody, SortExpr, SortNode};
use pn_text::Text;
pub use sorts::sort_of;
use sqlite_items::Items;
use std::alloc::{AllocError, Global};
pub use terms::term;

/// The sort expression at this offset.
pub fn sort(at: u64, node: SortNode) -> SortExpr {
    SortExpr { at, node }
}

/// The sort expression at this offset that names another sort.
pub fn user(alloc: Global, at: u64, name: &str) -> Result<SortExpr, AllocError> {
    Ok(sort(at, SortNode::User(Text::from_str(alloc, name)?)))
}

fn add_constant(
    alloc: Global,
    constants: &mut Items<Constant>,
    id: &str,
) -> Result<(), AllocError> {
    constants.push(Constant {
        id: Text::from_str(alloc, id)?,
        name: None,
        at: 0,
    })?;
    Ok(())
}

/// Constants of these ids.
fn constants(alloc: Global, ids: &[&str]) -> Result<Items<Constant>, AllocError> {
    let mut constants = Items::new(alloc);
    for id in ids {
        add_constant(alloc, &mut constants, id)?;
    }
    Ok(constants)
}

fn add_named(
    alloc: Global,
    items: &mut Vec<Declaration>,
    id: &str,
    at: u64,
    body: SortBody,
) -> Result<(), AllocError> {
    let id = Text::from_str(alloc, id)?;
    items.push(Declaration::Named {
        id,
        name: None,
        body,
        at,
    })?;
    Ok(())
}

/// Enters another name of a sort.
pub fn add_sort(
    alloc: Global,
    items: &mut Vec<Declaration>,
    id: &str,
    at: u64,
    sort: SortExpr,
) -> Result<(), AllocError> {
    add_named(alloc, items, id, at, SortBody::Plain(sort))
}

/// Enters a finite enumeration of these constants.
pub fn add_finite(
    alloc: Global,
    items: &mut Vec<Declaration>,
    id: &str,
    at: u64,
    ids: &[&str],
) -> Result<(), AllocError> {
    let constants = constants(alloc, ids)?;
    add_named(alloc, items, id, at, SortBody::Finite(constants))
}

/// Enters a cyclic enumeration of these constants.
pub fn add_cyclic(
    alloc: Global,
    items: &mut Vec<Declaration>,
    id: &str,
    at: u64,
    ids: &[&str],
) -> Result<(), AllocError> {
    let constants = constants(alloc, ids)?;
    add_named(alloc, items, id, at, SortBody::Cyclic(constants))
}

/// Enters a variable of a sort.
pub fn add_variable(
    alloc: Global,
    items: &mut Vec<Declaration>,
    id: &str,
    at: u64,
    sort: SortExpr,
) -> Result<(), AllocError> {
    let id = Text::from_str(alloc, id)?;
    items.push(Declaration::Variable {
        id,
        name: None,
        sort,
        at,
    })?;
    Ok(())
}

/// Enters a partition of a sort.
pub fn add_partition(
    alloc: Global,
    items: &mut Vec<Declaration>,
    id: &str,
    at: u64,
    sort: SortExpr,
    elements: Items<PartElement>,
) -> Result<(), AllocError> {
    let id = Text::from_str(alloc, id)?;
    items.push(Declaration::Partition {
        id,
        name: None,
        sort,
        elements,
        at,
    })?;
    Ok(())
}

fn number(part: Option<&str>) -> Option<i64> {
    part?.parse().ok()
}

/// A value as a partition lists it.
fn const_expr(alloc: Global, at: u64, word: &str) -> Result<ConstExpr, AllocError> {
    let mut parts = word.split('/');
    let value = number(parts.next());
    let start = number(parts.next());
    let end = number(parts.next());
    if let (Some(value), Some(start), Some(end)) = (value, start, end) {
        return Ok(ConstExpr::Range {
            value,
            start,
            end,
            at,
        });
    }
    Ok(ConstExpr::Named {
        id: Text::from_str(alloc, word)?,
        at,
    })
}

fn add_values(
    alloc: Global,
    values: &mut Items<ConstExpr>,
    at: u64,
    words: &str,
) -> Result<(), AllocError> {
    for word in words.split_whitespace() {
        values.push(const_expr(alloc, at, word)?)?;
    }
    Ok(())
}

fn values(alloc: Global, at: u64, words: &str) -> Result<Items<ConstExpr>, AllocError> {
    let mut values = Items::new(alloc);
    add_values(alloc, &mut values, at, words)?;
    Ok(values)
}

/// Enters an element that lists these values, each an id or a number with the first and the last of
/// its range, as in `red` or `1/1/3`. It and they have this offset.
pub fn add_element(
    alloc: Global,
    elements: &mut Items<PartElement>,
    at: u64,
    id: &str,
    words: &str,
) -> Result<(), AllocError> {
    let id = Text::from_str(alloc, id)?;
    let values = values(alloc, at, words)?;
    elements.push(PartElement {
        id,
        name: None,
        values,
        at,
    })?;
    Ok(())
}

/// Elements of a partition, each with its id and the values that it lists, as `add_element` takes
/// them.
pub fn elements(
    alloc: Global,
    at: u64,
    rows: &[(&str, &str)],
) -> Result<Items<PartElement>, AllocError> {
    let mut elements = Items::new(alloc);
    for (id, words) in rows {
        add_element(alloc, &mut elements, at, id, words)?;
    }
    Ok(elements)
}
