//! Sorts from elements.

ghost use Rattle.std.specs.Prelude.{◌≡◌, IfOk, map};
ghost use Rattle.pn_tree.specs.Views.{element_of};
ghost use Rattle.pn_spelling.specs.Parts.{child_elements};
ghost use Rattle.pn_spelling.specs.ReadSorts.{no_sort, sort_node, sort_read, sort_in};

use crate::parts::number;
use pn_spelling::{copy_attribute, first_element};
use pn_syntax::{SortExpr, SortNode};
use pn_tree::{Kid, View};
use sqlite_items::{Boxed, Items};
use std::alloc::{AllocError, Global};

/// The sort that an element spells in which no fault of shape stands. The recursion goes by the
/// depth of the element.
#[cycle(make_sort)]
#[tactic(auto, using(pn_spelling::proofs::ReadLemmas::sort_read_is))]
pub fn make_sort(alloc: Global, view: View<'_>) -> Result<SortExpr, AllocError>
    ensures { IfOk result (λ s. s ≡ sort_read (element_of view.entry)) }
{
    let node = make_node(alloc, view)?;
    Ok(SortExpr {
        at: view.at(),
        node,
    })
}

/// What the element says.
#[cycle(make_sort)]
fn make_node(alloc: Global, view: View<'_>) -> Result<SortNode, AllocError>
    ensures { IfOk result (λ n. n ≡ sort_node (element_of view.entry) (map sort_read (child_elements (element_of view.entry)))) }
{
    match view.name() {
        "bool" => Ok(SortNode::Bool),
        "finiteintrange" => Ok(SortNode::Range {
            start: number(view, "start"),
            end: number(view, "end"),
        }),
        "productsort" => Ok(SortNode::Product(make_all(alloc, view)?)),
        "usersort" => Ok(SortNode::User(copy_attribute(alloc, view, "declaration")?)),
        "integer" => Ok(SortNode::Integer),
        "natural" => Ok(SortNode::Natural),
        "positive" => Ok(SortNode::Positive),
        "string" => Ok(SortNode::Text),
        "list" => Ok(SortNode::List(Boxed::new(alloc, make_inner_sort(alloc, view)?)?)),
        _ => Ok(SortNode::Dot),
    }
}

/// The sort that stands in the element.
#[cycle(make_sort)]
pub(crate) fn make_inner_sort(alloc: Global, view: View<'_>) -> Result<SortExpr, AllocError>
    ensures { IfOk result (λ s. s ≡ sort_in (element_of view.entry)) }
{
    match first_element(view) {
        Some(inner) => make_sort(alloc, inner),
        None => Ok(SortExpr {
            at: 0,
            node: SortNode::Dot,
        }),
    }
}

/// The sorts that stand in the element, in order.
#[cycle(make_sort)]
fn make_all(alloc: Global, view: View<'_>) -> Result<Items<SortExpr>, AllocError>
    ensures { IfOk result (λ all. all ≡ map sort_read (child_elements (element_of view.entry))) }
{
    let mut all = Items::new(alloc);
    for i in 0..view.kid_count() {
        if let Kid::Element(inner) = view.kid(i) {
            all.push(make_sort(alloc, inner)?)?;
        }
    }
    Ok(all)
}
