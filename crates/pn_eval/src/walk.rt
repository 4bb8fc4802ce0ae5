//! The value of a term.

ghost use Rattle.std.specs.Prelude.{IfOk};
ghost use Rattle.std.specs.List.{Contains};
ghost use Rattle.pn_eval.specs.Assignments.{Covers, IsAssignment};
ghost use Rattle.pn_eval.specs.Outcomes.{IsOutcomeOf};
ghost use Rattle.pn_eval.specs.Ready.{IsReady};
ghost use Rattle.pn_eval.specs.Values.{HasValue, HaveValues};
ghost use Rattle.pn_sorts.specs.Standing.{IsFaultless};
ghost use Rattle.pn_syntax.specs.declared.term.Term.{Term};
ghost use Rattle.pn_terms.specs.Sorts.{HasSort};
ghost use Rattle.pn_terms.specs.Standing.{HasSoundSorts};
ghost use Rattle.pn_terms.specs.declared.term_sort.TermSort.{TermSort};

use crate::leaves::{all, constant, element, empty_list, number, text, variable};
use crate::rounds::round;
use pn_bag::Bag;
use pn_operations::outcome::Outcome;
use pn_operations::rows::applied;
use pn_sorts::{Decls, Value};
use pn_terms::{Term, TermNode};
use std::alloc::{AllocError, Global};

/// What a term gives that has a sort, where its variables have these values: a value, a multiset,
/// or none (ISO/IEC 15909-2, terms). It is of the term's sort.
///
/// All operators are strict: a term has no value where one of its arguments has none. The recursion
/// goes by the height of the term. The time is linear in the term and in the values that it and the
/// terms in it have, but for `successor` and `predecessor`, which ask for the sort of their argument,
/// and for what its operators take.
pub fn eval(
    alloc: Global,
    decls: &Decls,
    term: &Term,
    vars: &[u32],
    values: &[Value],
) -> Result<Outcome, AllocError>
    requires faultless { IsFaultless decls.now }
    requires sound { HasSoundSorts decls.now term.now }
    requires sorted { (s : TermSort) × HasSort decls.now term.now s }
    requires assignment { IsAssignment decls.now vars.now values.now }
    requires covers { Covers decls.now vars.now term.now }
    ensures value { IfOk result (HasValue decls.now vars.now values.now term.now) }
    ensures member { (s : TermSort) → HasSort decls.now term.now s → IfOk result (IsOutcomeOf decls.now s) }
{
    walk(alloc, decls, term, vars, values)
}

/// What a term gives.
#[cycle(walk)]
fn walk(
    alloc: Global,
    decls: &Decls,
    term: &Term,
    vars: &[u32],
    values: &[Value],
) -> Result<Outcome, AllocError>
    requires faultless { IsFaultless decls.now }
    requires assignment { IsAssignment decls.now vars.now values.now }
    requires ready { IsReady decls.now vars.now term.now }
    ensures { IfOk result (HasValue decls.now vars.now values.now term.now) }
{
    match &term.node {
        TermNode::Variable(name) => variable(alloc, decls, name.as_str(), vars, values),
        TermNode::UserOp(name) => Ok(constant(decls, name.as_str())),
        TermNode::Bool(truth) => Ok(Outcome::Value(Value::Bool(*truth))),
        TermNode::Number { value, .. } => Ok(number(value)),
        TermNode::RangeConst { value, .. } => Ok(number(value)),
        TermNode::Text(value) => text(alloc, value),
        TermNode::All(_) => all(alloc, decls, term),
        TermNode::Empty(_) => Ok(Outcome::Bag(Bag::new(alloc))),
        TermNode::EmptyList(_) => Ok(empty_list(alloc)),
        TermNode::PartitionOf { partition, arg } => {
            let outcome = walk(alloc, decls, arg.get(), vars, values)?;
            Ok(element(decls, partition.as_str(), &outcome))
        }
        TermNode::Apply { op, args } => {
            let outcomes = walk_all(alloc, decls, args.as_slice(), vars, values)?;
            let round = round(alloc, decls, *op, args.as_slice())?;
            applied(alloc, round, *op, outcomes)
        }
    }
}

/// What terms give, one after another.
#[cycle(walk)]
fn walk_all(
    alloc: Global,
    decls: &Decls,
    terms: &[Term],
    vars: &[u32],
    values: &[Value],
) -> Result<Vec<Outcome>, AllocError>
    requires faultless { IsFaultless decls.now }
    requires assignment { IsAssignment decls.now vars.now values.now }
    requires ready { (e : Term) → Contains terms.now e → IsReady decls.now vars.now e }
    ensures { IfOk result (λ outcomes. HaveValues decls.now vars.now values.now terms.now outcomes.items) }
{
    let mut outcomes = Vec::with_capacity(alloc, terms.len())?;
    for term in terms {
        outcomes.push(walk(alloc, decls, term, vars, values)?)?;
    }
    Ok(outcomes)
}
