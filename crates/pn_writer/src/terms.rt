//! The elements of terms.

ghost use Rattle.std.specs.Prelude.{◌≡◌, [], map, codes, OnOk};
ghost use Rattle.std.specs.Fmt.{signed_decimal};
ghost use Rattle.pn_tree.specs.Building.{at_innermost, with_kid};
ghost use Rattle.pn_tree.specs.Copies.{with_kids};
ghost use Rattle.pn_tree.specs.declared.element.Child.TheVariants as children;
ghost use Rattle.pn_spelling.specs.Writing.{made, enclosing};
ghost use Rattle.pn_spelling.specs.WriteSorts.{range_element};
ghost use Rattle.pn_spelling.specs.WriteTerms.{constant_of, number_sort_name, subterm, term_element, truth_text};
ghost use Rattle.pn_writer.specs.Giving.{MayTake, MayTakeElement};

use crate::giving::{add_attributed, add_leaf, begin_number, begin_with};
use crate::sorts::{add_range, add_sort_in};
use pn_operators::op_name;
use pn_syntax::{NumberSort, Term, TermNode};
use pn_tree::Builder;
use std::alloc::{AllocError, Global};

/// Adds the element of a term, within the innermost open one, each offset in it 0. The builder takes
/// the memory that is wanted. The recursion goes by the height of the term.
pub fn term_tree(_alloc: Global, term: &Term, into: &mut Builder) -> Result<(), AllocError>
    requires { MayTakeElement (term_element term.now) into.old }
    ensures { OnOk result (into.new ≡ at_innermost (with_kid (children.Element (term_element term.now))) into.old) }
{
    add_term(into, term)
}

/// Adds the element of a term.
#[cycle(add_term)]
pub(crate) fn add_term(into: &mut Builder, term: &Term) -> Result<(), AllocError>
    requires { MayTakeElement (term_element term.now) into.old }
    ensures { OnOk result (into.new ≡ at_innermost (with_kid (children.Element (term_element term.now))) into.old) }
{
    match &term.node {
        TermNode::Variable(name) => add_attributed(into, "variable", "refvariable", name.as_str()),
        TermNode::UserOp(name) => {
            add_attributed(into, "useroperator", "declaration", name.as_str())
        }
        TermNode::Bool(truth) => {
            add_attributed(into, "booleanconstant", "value", truth_name(*truth))
        }
        TermNode::Number { value, sort } => add_number(into, value, *sort),
        TermNode::RangeConst { value, start, end } => add_range_constant(into, value, start, end),
        TermNode::Text(text) => add_attributed(into, "stringconstant", "value", text.as_str()),
        TermNode::All(sort) => add_sort_in(into, "all", sort),
        TermNode::Empty(sort) => add_sort_in(into, "empty", sort),
        TermNode::EmptyList(sort) => add_sort_in(into, "emptylist", sort),
        TermNode::PartitionOf { partition, arg } => {
            begin_with(
                into,
                "partitionelementof",
                "refpartition",
                partition.as_str(),
            )?;
            into.begin("subterm", 0)?;
            add_term(into, arg.get())?;
            into.end();
            into.end();
            Ok(())
        }
        TermNode::Apply { op, args } => {
            into.begin(op_name(*op), 0)?;
            add_subterms(into, args.as_slice())?;
            into.end();
            Ok(())
        }
    }
}

/// Adds an element that has one term in it.
pub(crate) fn add_term_in(into: &mut Builder, name: &str, term: &Term) -> Result<(), AllocError>
    requires { MayTakeElement (enclosing name.now (term_element term.now)) into.old }
    ensures { OnOk result
        (into.new ≡ at_innermost (with_kid (children.Element (enclosing name.now (term_element term.now)))) into.old) }
{
    into.begin(name, 0)?;
    add_term(into, term)?;
    into.end();
    Ok(())
}

/// Adds arguments in their order, each in a `subterm` of its own.
#[cycle(add_term)]
fn add_subterms(into: &mut Builder, args: &[Term]) -> Result<(), AllocError>
    requires { MayTake (map subterm (map term_element args.now)) into.old }
    ensures { OnOk result (into.new ≡ at_innermost (with_kids (map subterm (map term_element args.now))) into.old) }
{
    for arg in args {
        into.begin("subterm", 0)?;
        add_term(into, arg)?;
        into.end();
    }
    Ok(())
}

/// How a truth value is written.
fn truth_name(truth: bool) -> &'static str
    ensures { result.now ≡ truth_text truth }
{
    if truth { "true" } else { "false" }
}

/// Adds a number, with the sort of numbers that it names.
fn add_number(into: &mut Builder, value: &i64, sort: NumberSort) -> Result<(), AllocError>
    requires { MayTakeElement (constant_of (codes "numberconstant") (signed_decimal value.now) (made (number_sort_name sort) [] [])) into.old }
    ensures { OnOk result
        (into.new ≡ at_innermost (with_kid (children.Element (constant_of (codes "numberconstant") (signed_decimal value.now) (made (number_sort_name sort) [] [])))) into.old) }
{
    begin_number(into, "numberconstant", "value", value)?;
    add_leaf(into, number_sort_element(sort))?;
    into.end();
    Ok(())
}

/// The name of the element of a sort of numbers.
fn number_sort_element(sort: NumberSort) -> &'static str
    ensures { result.now ≡ number_sort_name sort }
{
    match sort {
        NumberSort::Integer => "integer",
        NumberSort::Natural => "natural",
        NumberSort::Positive => "positive",
    }
}

/// Adds a number of a range.
pub(crate) fn add_range_constant(
    into: &mut Builder,
    value: &i64,
    start: &i64,
    end: &i64,
) -> Result<(), AllocError>
    requires { MayTakeElement (constant_of (codes "finiteintrangeconstant") (signed_decimal value.now) (range_element start.now end.now)) into.old }
    ensures { OnOk result
        (into.new ≡ at_innermost (with_kid (children.Element (constant_of (codes "finiteintrangeconstant") (signed_decimal value.now) (range_element start.now end.now)))) into.old) }
{
    begin_number(into, "finiteintrangeconstant", "value", value)?;
    add_range(into, start, end)?;
    into.end();
    Ok(())
}
