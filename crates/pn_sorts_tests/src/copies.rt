//! What no clause of declarations as they are written says: that copies succeed while there is
//! memory.

use crate::names::declarations;
use pn_samples::{sort, user};
use pn_syntax::{Declaration, SortExpr, SortNode};
use pn_text::Text;
use sqlite_items::Boxed;
use std::alloc::{AllocError, Global};
use std::process::Abort;
use std::test::Fail;

/// The lists of colours.
fn colour_lists(alloc: Global) -> Result<SortExpr, AllocError> {
    let item = user(alloc, 3, "colour")?;
    Ok(sort(2, SortNode::List(Boxed::new(alloc, item)?)))
}

/// Enters a variable with a name of its own.
fn put_variable(alloc: Global, items: &mut Vec<Declaration>) -> Result<(), AllocError> {
    let sort = colour_lists(alloc)?;
    items.push(Declaration::Variable {
        id: Text::from_str(alloc, "z")?,
        name: Some(Text::from_str(alloc, "Z")?),
        sort,
        at: 1,
    })?;
    Ok(())
}

/// A declaration as a text, with all that it holds.
fn shown(alloc: Global, one: &Declaration) -> Result<String, AllocError> {
    format!(in alloc; "{one:?}")
}

fn is_shown_so(alloc: Global, one: &Declaration, want: &str) -> Result<bool, AllocError> {
    let text = shown(alloc, one)?;
    Ok(text.as_str() == want)
}

fn has_copy(alloc: Global, one: &Declaration, want: &str) -> Result<bool, AllocError> {
    let twin = one.copy(alloc)?;
    is_shown_so(alloc, &twin, want)
}

/// Whether a copy is the same, whole.
fn is_copied(alloc: Global, one: &Declaration) -> Result<bool, AllocError> {
    let text = shown(alloc, one)?;
    has_copy(alloc, one, text.as_str())
}

fn are_copied(rt: &impl Abort, alloc: Global, items: &[Declaration]) -> Result<(), AllocError> {
    for one in items {
        assert!(rt; is_copied(alloc, one)?);
    }
    Ok(())
}

#[test]
fn copies_of_declarations(rt: HostRuntime) -> Result<(), Fail> {
    let mut items = declarations(rt.alloc())?;
    put_variable(rt.alloc(), &mut items)?;
    are_copied(&rt, rt.alloc(), &items)?;
    Ok(())
}
