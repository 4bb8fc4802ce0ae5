//! Modes of transitions, and what they take and put.

ghost use Rattle.std.specs.Prelude.{◌≡◌, ◌<◌, ◌↔◌, ℕ, List, IfOk, IfSome, IsTrue, length, true};
ghost use Rattle.pn_eval.specs.Assignments.{Covers, IsAssignment};
ghost use Rattle.pn_eval.specs.Values.{HasValue};
ghost use Rattle.pn_marking.specs.Modes.{HoldsCondition, IsAssigned, IsMode, IsPost, IsPre};
ghost use Rattle.pn_marking.specs.Totals.{IsMoved};
ghost use Rattle.pn_net.specs.Labels.{said};
ghost use Rattle.pn_net.specs.Typed.{AreVariablesAt, IsTypedTerm, condition_at};
ghost use Rattle.pn_net.specs.declared.token.Token.{Token};
ghost use Rattle.pn_operations.specs.declared.outcome.Outcome.TheVariants as outcomes;

use crate::terms::{gives_one, outcome_of};
use crate::totals::moved;
use pn_eval::Outcome;
use pn_net::{Marking, Mode, Typed};
use pn_objects::Transition;
use pn_syntax::Term;
use pn_values::Value;
use std::alloc::{AllocError, Global};

/// Whether a transition with a value for each of its variables is a mode: its condition is true or
/// missing, and each of its totals has a value (ISO/IEC 15909-1, modes).
pub fn is_mode(alloc: Global, net: &Typed, mode: &Mode) -> Result<bool, AllocError>
    requires { (vars : List ℕ) × IsAssigned net.now mode.now vars }
    ensures { IfOk result (λ is. IsTrue is ↔ IsMode net.now mode.now) }
{
    let vars = net.variables(mode.transition);
    let values = mode.values.as_slice();
    if !condition_holds(alloc, net, mode.transition, vars, values)? {
        return Ok(false);
    }
    if !has_totals(alloc, net, mode, false)? {
        return Ok(false);
    }
    has_totals(alloc, net, mode, true)
}

/// What a mode takes from the places before its transition (ISO/IEC 15909-1, transition rule).
pub fn pre(alloc: Global, net: &Typed, mode: &Mode) -> Result<Marking, AllocError>
    requires { IsMode net.now mode.now }
    ensures { IfOk result (IsPre net.now mode.now) }
{
    tokens_moved(alloc, net, mode, false)
}

/// What a mode puts on the places behind its transition (ISO/IEC 15909-1, transition rule).
pub fn post(alloc: Global, net: &Typed, mode: &Mode) -> Result<Marking, AllocError>
    requires { IsMode net.now mode.now }
    ensures { IfOk result (IsPost net.now mode.now) }
{
    tokens_moved(alloc, net, mode, true)
}

/// What a mode takes or puts.
fn tokens_moved(alloc: Global, net: &Typed, mode: &Mode, into: bool) -> Result<Marking, AllocError>
    requires { IsMode net.now mode.now }
    ensures { IfOk result (λ m. (vars : List ℕ) × AreVariablesAt net.now mode.now.transition vars
        × IsMoved net.now mode.now.transition into vars mode.now.values m) }
{
    let vars = net.variables(mode.transition);
    match moved(
        alloc,
        net,
        mode.transition,
        into,
        vars,
        mode.values.as_slice(),
    )? {
        Some(marking) => Ok(marking),
        None => unreachable!(),
    }
}

/// Whether all totals of a transition in one direction have values.
fn has_totals(alloc: Global, net: &Typed, mode: &Mode, into: bool) -> Result<bool, AllocError>
    requires { (vars : List ℕ) × IsAssigned net.now mode.now vars }
    ensures { (vars : List ℕ) → IsAssigned net.now mode.now vars
        → IfOk result (λ is. IsTrue is ↔ ((m : List (Token × ℕ)) × IsMoved net.now mode.now.transition into vars mode.now.values m)) }
{
    let vars = net.variables(mode.transition);
    let marking = moved(
        alloc,
        net,
        mode.transition,
        into,
        vars,
        mode.values.as_slice(),
    )?;
    Ok(marking.is_some())
}

/// Whether the condition of a transition has the value true, or is missing, where these variables
/// have these values, which are all that stand in it (ISO/IEC 15909-1, transition conditions).
pub fn condition_holds(
    alloc: Global,
    net: &Typed,
    transition: u32,
    vars: &[u32],
    values: &[Value],
) -> Result<bool, AllocError>
    requires within { transition < length net.now.transitions }
    requires assignment { IsAssignment net.now.declarations vars.now values.now }
    requires covers { IfSome (condition_at net.now transition) (Covers net.now.declarations vars.now) }
    ensures { IfOk result (λ is. IsTrue is ↔ HoldsCondition net.now.declarations vars.now values.now (condition_at net.now transition)) }
{
    let transition = transition_at(net, transition);
    match &transition.condition {
        Some(label) => is_true(alloc, net, &label.get().value, vars, values),
        None => Ok(true),
    }
}

/// The transition of a number.
fn transition_at(net: &Typed, number: u32) -> &Transition
    requires { number < length net.now.transitions }
    ensures condition { condition_at net.now number ≡ said result.now.condition }
    ensures typed { IfSome (said result.now.condition) (IsTypedTerm net.now.declarations) }
{
    &net.flat().transitions.as_slice()[number as usize]
}

/// Whether a term has the value true, where these variables have these values, which are all that
/// stand in it.
pub fn is_true(
    alloc: Global,
    net: &Typed,
    term: &Term,
    vars: &[u32],
    values: &[Value],
) -> Result<bool, AllocError>
    requires typed { IsTypedTerm net.now.declarations term.now }
    requires assignment { IsAssignment net.now.declarations vars.now values.now }
    requires covers { Covers net.now.declarations vars.now term.now }
    ensures { IfOk result (λ is. IsTrue is ↔ HasValue net.now.declarations vars.now values.now term.now (outcomes.Value (Value.Bool true))) }
{
    gives_one(net);
    let outcome = outcome_of(alloc, net, term, vars, values)?;
    Ok(says_true(&outcome))
}

/// Whether it is the value true.
fn says_true(outcome: &Outcome) -> bool
    ensures { IsTrue result ↔ (outcome.now ≡ outcomes.Value (Value.Bool true)) }
{
    match outcome {
        Outcome::Value(value) => is_truth(value),
        Outcome::Bag(_) => false,
        Outcome::NoValue => false,
    }
}

/// Whether a value is true.
fn is_truth(value: &Value) -> bool
    ensures { IsTrue result ↔ (value.now ≡ Value.Bool true) }
{
    match value {
        Value::Bool(truth) => *truth,
        _ => false,
    }
}
