//! The ground term of a value.

ghost use Rattle.std.specs.Prelude.{◌≡◌, ℤ, [], map, true, IfOk};
ghost use Rattle.std.specs.List.{list_all};
ghost use Rattle.pn_carriers.specs.Members.{IsMember, is_document_text, is_list_of, is_member, is_truth, is_tuple_of, pass_each};
ghost use Rattle.pn_ids.specs.Names.{AreDistinct};
ghost use Rattle.pn_names.specs.Names.{names_of, widths_of};
ghost use Rattle.pn_operations.specs.Outcomes.{items_of, number_of, place_of, text_of, truth_of};
ghost use Rattle.pn_operators.specs.declared.op.Op.TheVariants as op;
ghost use Rattle.pn_resolve.specs.Naming.{NamesDeclared, names_declared};
ghost use Rattle.pn_sorts.specs.Lookups.{IsDeclaredConstant};
ghost use Rattle.pn_syntax.specs.declared.term.TermNode.TheVariants as nodes;
ghost use Rattle.pn_values.specs.Kin.{kin_of};
ghost use Rattle.pn_values.specs.declared.sort.Sort.{Sort};
ghost use Rattle.pn_values.specs.declared.value.Value.TheVariants as values;
ghost use Rattle.pn_values.specs.declared.value.Value.TheViews.{out-Value};
ghost use Rattle.pn_marked.specs.Ground.{IsTermOf, applied, constant_id, ground_term, is_sound, parts_of_tuple, term_of_list, term_of_node, terms_of_parts, writing_of};

use crate::sorts::node_written;
use pn_operators::Op;
use pn_sorts::{ConstantRef, Decls, Sort, Value};
use pn_syntax::{NumberSort, SortExpr, Term, TermNode};
use pn_text::Text;
use sqlite_items::Items;
use std::alloc::{AllocError, Global};

/// The ground term of a value of a sort (ISO/IEC 15909-2, terms): a constant; for a tuple `tuple` of
/// the terms of its parts; for a list `makelist` of those of its items, or `emptylist` where it has
/// none. Where the ids of the declarations are distinct it has that value, and is of the sort's kin.
///
/// The recursion goes by the depth of the sort. The time is linear in the value.
pub fn value_term(
    alloc: Global,
    decls: &Decls,
    sort: &Sort,
    value: &Value,
) -> Result<Term, AllocError>
    requires declared { NamesDeclared decls.now sort.now }
    requires sound { is_sound sort.now ≡ true }
    requires member { IsMember (widths_of decls.now) value.now sort.now }
    ensures ground { IfOk result (λ term. term ≡ ground_term decls.now sort.now value.now) }
    ensures exact { AreDistinct (names_of decls.now) → IfOk result (IsTermOf decls.now (kin_of sort.now) value.now) }
{
    term_of(alloc, decls, sort, value)
}

/// The ground term of a value of a sort.
#[cycle(term_of)]
pub(crate) fn term_of(
    alloc: Global,
    decls: &Decls,
    sort: &Sort,
    value: &Value,
) -> Result<Term, AllocError>
    requires declared { NamesDeclared decls.now sort.now }
    requires member { IsMember (widths_of decls.now) value.now sort.now }
    ensures { IfOk result (λ term. term ≡ ground_term decls.now sort.now value.now) }
{
    match sort {
        Sort::Dot => Ok(apply(Op::DotConstant, Items::new(alloc))),
        Sort::Bool => Ok(truth(value)),
        Sort::Enumeration(place) => constant(alloc, decls, *place, value),
        Sort::Partition(place) => constant(alloc, decls, *place, value),
        Sort::Range { start, end } => Ok(range_constant(start, end, value)),
        Sort::Product(parts) => tuple(alloc, decls, parts.as_slice(), value),
        Sort::Integer => Ok(number(NumberSort::Integer, value)),
        Sort::Natural => Ok(number(NumberSort::Natural, value)),
        Sort::Positive => Ok(number(NumberSort::Positive, value)),
        Sort::Text => text(alloc, value),
        Sort::List(item) => list(alloc, decls, item.get(), value),
    }
}

/// A term that is made, not read.
fn term(node: TermNode) -> Term
    ensures { result ≡ term_of_node node }
{
    Term { at: 0, node }
}

/// An operator with its arguments.
pub(crate) fn apply(op: Op, args: Items<Term>) -> Term
    ensures { result ≡ applied op args }
{
    term(TermNode::Apply { op, args })
}

fn truth(value: &Value) -> Term
    requires { is_truth (out-Value value.now) ≡ true }
    ensures { result ≡ term_of_node (nodes.Bool (truth_of (out-Value value.now))) }
{
    match value {
        Value::Bool(truth) => term(TermNode::Bool(*truth)),
        _ => unreachable!(),
    }
}

fn number(sort: NumberSort, value: &Value) -> Term
    requires { (z : ℤ) × (value.now ≡ values.Int z) }
    ensures { result ≡ term_of_node (nodes.Number (number_of (out-Value value.now)) sort) }
{
    match value {
        Value::Int(value) => term(TermNode::Number {
            value: *value,
            sort,
        }),
        _ => unreachable!(),
    }
}

fn range_constant(start: &i64, end: &i64, value: &Value) -> Term
    requires { (z : ℤ) × (value.now ≡ values.Int z) }
    ensures { result ≡ term_of_node (nodes.RangeConst (number_of (out-Value value.now)) start.now end.now) }
{
    match value {
        Value::Int(value) => term(TermNode::RangeConst {
            value: *value,
            start: *start,
            end: *end,
        }),
        _ => unreachable!(),
    }
}

fn text(alloc: Global, value: &Value) -> Result<Term, AllocError>
    requires { is_document_text (out-Value value.now) ≡ true }
    ensures { IfOk result (λ term. term ≡ term_of_node (nodes.Text (text_of (out-Value value.now)))) }
{
    match value {
        Value::Text(text) => Ok(term(TermNode::Text(text.copy(alloc)?))),
        _ => unreachable!(),
    }
}

/// A constant of an enumeration, or an element of a partition.
fn constant(alloc: Global, decls: &Decls, place: u32, value: &Value) -> Result<Term, AllocError>
    requires { (sort : Sort) × IsDeclaredConstant decls.now place sort value.now }
    ensures { IfOk result (λ term. term ≡ term_of_node (nodes.UserOp (constant_id decls.now place (place_of (out-Value value.now))))) }
{
    match value {
        Value::Const(index) => {
            let id = decls.constant_id(ConstantRef {
                declaration: place,
                index: *index,
            });
            Ok(term(TermNode::UserOp(Text::from_str(alloc, id)?)))
        }
        _ => unreachable!(),
    }
}

/// The tuple of the terms of its parts.
#[cycle(term_of)]
fn tuple(alloc: Global, decls: &Decls, parts: &[Sort], value: &Value) -> Result<Term, AllocError>
    requires declared { list_all (names_declared decls.now) parts.now ≡ true }
    requires member { is_tuple_of (map (is_member (widths_of decls.now)) parts.now) (out-Value value.now) ≡ true }
    ensures { IfOk result (λ term. term ≡ applied op.Tuple (terms_of_parts (map (writing_of decls.now) parts.now) (parts_of_tuple (out-Value value.now)))) }
{
    match value {
        Value::Tuple(values) => Ok(apply(
            Op::Tuple,
            part_terms(alloc, decls, parts, values.as_slice())?,
        )),
        _ => unreachable!(),
    }
}

#[cycle(term_of)]
fn part_terms(
    alloc: Global,
    decls: &Decls,
    parts: &[Sort],
    values: &[Value],
) -> Result<Items<Term>, AllocError>
    requires declared { list_all (names_declared decls.now) parts.now ≡ true }
    requires members { pass_each (map (is_member (widths_of decls.now)) parts.now) values.now ≡ true }
    ensures { IfOk result (λ terms. terms ≡ terms_of_parts (map (writing_of decls.now) parts.now) values.now) }
{
    let mut terms = Items::new(alloc);
    for (i, part) in parts.iter().enumerate() {
        terms.push(term_of(alloc, decls, part, &values[i])?)?;
    }
    Ok(terms)
}

/// The list of the terms of its items; where it has none, the empty list of its sort.
#[cycle(term_of)]
fn list(alloc: Global, decls: &Decls, item: &Sort, value: &Value) -> Result<Term, AllocError>
    requires declared { NamesDeclared decls.now item.now }
    requires member { is_list_of (is_member (widths_of decls.now) item.now) (out-Value value.now) ≡ true }
    ensures { IfOk result (λ term. term ≡ term_of_list (writing_of decls.now item.now) (items_of (out-Value value.now))) }
{
    match value {
        Value::List(values) if values.is_empty() => empty_list(alloc, decls, item),
        Value::List(values) => Ok(apply(
            Op::MakeList,
            item_terms(alloc, decls, item, values.as_slice())?,
        )),
        _ => unreachable!(),
    }
}

fn empty_list(alloc: Global, decls: &Decls, item: &Sort) -> Result<Term, AllocError>
    requires { NamesDeclared decls.now item.now }
    ensures { IfOk result (λ term. term ≡ term_of_list (writing_of decls.now item.now) []) }
{
    let node = node_written(alloc, decls, item)?;
    Ok(term(TermNode::EmptyList(SortExpr { at: 0, node })))
}

#[cycle(term_of)]
fn item_terms(
    alloc: Global,
    decls: &Decls,
    item: &Sort,
    values: &[Value],
) -> Result<Items<Term>, AllocError>
    requires declared { NamesDeclared decls.now item.now }
    requires members { list_all (is_member (widths_of decls.now) item.now) values.now ≡ true }
    ensures { IfOk result (λ terms. terms ≡ map (ground_term decls.now item.now) values.now) }
{
    let mut terms = Items::new(alloc);
    for value in values {
        terms.push(term_of(alloc, decls, item, value)?)?;
    }
    Ok(terms)
}
