//! Terms from elements.

ghost use Rattle.std.specs.Prelude.{◌≡◌, IfOk, codes, map};
ghost use Rattle.pn_tree.specs.Views.{element_of};
ghost use Rattle.pn_syntax.specs.declared.term.TermNode.TheVariants as nodes;
ghost use Rattle.pn_spelling.specs.Parts.{attribute_of, child_elements};
ghost use Rattle.pn_spelling.specs.ReadTerms.{argument_in, basis_in, number_sort_in, operator_named, term_in, term_node, term_read};

use crate::parts::{inner_number, number};
use crate::sorts::{make_inner_sort, make_sort};
use pn_operators::{Kind, Op, find_op};
use pn_spelling::{attribute, copy_attribute, first_element, has_name};
use pn_syntax::{NumberSort, SortExpr, SortNode, Term, TermNode};
use pn_tree::{Kid, View};
use sqlite_items::{Boxed, Items};
use std::alloc::{AllocError, Global};

/// The term that an element spells in which no fault of shape stands. The recursion goes by the
/// depth of the element.
#[cycle(make_term)]
#[tactic(auto, using(pn_spelling::proofs::ReadLemmas::term_read_is))]
pub fn make_term(alloc: Global, view: View<'_>) -> Result<Term, AllocError>
    ensures { IfOk result (λ t. t ≡ term_read (element_of view.entry)) }
{
    let node = make_node(alloc, view)?;
    Ok(Term {
        at: view.at(),
        node,
    })
}

/// What the element says.
#[cycle(make_term)]
fn make_node(alloc: Global, view: View<'_>) -> Result<TermNode, AllocError>
    ensures { IfOk result (λ n. n ≡ term_node (element_of view.entry) (map term_in (child_elements (element_of view.entry)))) }
{
    match view.name() {
        "variable" => Ok(TermNode::Variable(copy_attribute(alloc, view, "refvariable")?)),
        "useroperator" => Ok(TermNode::UserOp(copy_attribute(alloc, view, "declaration")?)),
        "booleanconstant" => Ok(TermNode::Bool(attribute(view, "value") == "true")),
        "numberconstant" => Ok(TermNode::Number {
            value: number(view, "value"),
            sort: number_sort(view),
        }),
        "finiteintrangeconstant" => Ok(TermNode::RangeConst {
            value: number(view, "value"),
            start: inner_number(view, "start"),
            end: inner_number(view, "end"),
        }),
        "stringconstant" => Ok(TermNode::Text(copy_attribute(alloc, view, "value")?)),
        "all" => Ok(TermNode::All(make_basis(alloc, view)?)),
        "empty" => Ok(TermNode::Empty(make_basis(alloc, view)?)),
        "emptylist" => Ok(TermNode::EmptyList(make_inner_sort(alloc, view)?)),
        "partitionelementof" => make_partition_of(alloc, view),
        _ => Ok(TermNode::Apply {
            op: operator(view),
            args: make_arguments(alloc, view)?,
        }),
    }
}

/// The element of a partition that lists the argument.
#[cycle(make_term)]
fn make_partition_of(alloc: Global, view: View<'_>) -> Result<TermNode, AllocError>
    ensures { IfOk result (λ n. n ≡ nodes.PartitionOf (attribute_of (codes "refpartition") (element_of view.entry)) (argument_in (element_of view.entry))) }
{
    Ok(TermNode::PartitionOf {
        partition: copy_attribute(alloc, view, "refpartition")?,
        arg: Boxed::new(alloc, make_argument(alloc, view)?)?,
    })
}

/// The term in the `subterm` in the element.
#[cycle(make_term)]
fn make_argument(alloc: Global, view: View<'_>) -> Result<Term, AllocError>
    ensures { IfOk result (λ t. t ≡ argument_in (element_of view.entry)) }
{
    match first_element(view) {
        Some(inner) => make_inner_term(alloc, inner),
        None => Ok(Term {
            at: 0,
            node: TermNode::Bool(false),
        }),
    }
}

/// The term that stands in the element.
#[cycle(make_term)]
fn make_inner_term(alloc: Global, view: View<'_>) -> Result<Term, AllocError>
    ensures { IfOk result (λ t. t ≡ term_in (element_of view.entry)) }
{
    match first_element(view) {
        Some(inner) => make_term(alloc, inner),
        None => Ok(Term {
            at: 0,
            node: TermNode::Bool(false),
        }),
    }
}

/// The terms in the `subterm`s in the element, in order.
#[cycle(make_term)]
fn make_arguments(alloc: Global, view: View<'_>) -> Result<Items<Term>, AllocError>
    ensures { IfOk result (λ all. all ≡ map term_in (child_elements (element_of view.entry))) }
{
    let mut all = Items::new(alloc);
    for i in 0..view.kid_count() {
        if let Kid::Element(inner) = view.kid(i) {
            all.push(make_inner_term(alloc, inner)?)?;
        }
    }
    Ok(all)
}

/// The operator whose element this is.
fn operator(view: View<'_>) -> Op
    ensures { result ≡ operator_named (element_of view.entry).name }
{
    match find_op(view.name(), Kind::HighLevel) {
        Some(op) => op,
        None => Op::DotConstant,
    }
}

/// The sort of a number that is named in the element.
fn number_sort(view: View<'_>) -> NumberSort
    ensures { result ≡ number_sort_in (element_of view.entry) }
{
    match first_element(view) {
        Some(inner) => match inner.name() {
            "natural" => NumberSort::Natural,
            "positive" => NumberSort::Positive,
            _ => NumberSort::Integer,
        },
        None => NumberSort::Integer,
    }
}

/// The sort of which the element says something, in a `multisetsort` or not.
fn make_basis(alloc: Global, view: View<'_>) -> Result<SortExpr, AllocError>
    ensures { IfOk result (λ s. s ≡ basis_in (element_of view.entry)) }
{
    match first_element(view) {
        Some(inner) => {
            if has_name(inner, "multisetsort") {
                make_inner_sort(alloc, inner)
            } else {
                make_sort(alloc, inner)
            }
        }
        None => Ok(SortExpr {
            at: 0,
            node: SortNode::Dot,
        }),
    }
}
