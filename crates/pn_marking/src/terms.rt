//! What the labels of a net say under an assignment of values to variables.

ghost use Rattle.std.specs.Prelude.{◌≡◌, ◌<◌, ◌∷◌, [], ℕ, List, None, IfOk, IfSome};
ghost use Rattle.pn_bag.specs.Counts.{IsSame, count_of};
ghost use Rattle.pn_bag.specs.declared.TheConstants.{MAX_COUNT};
ghost use Rattle.pn_eval.specs.Assignments.{Covers, IsAssignment};
ghost use Rattle.pn_eval.specs.Values.{HasValue};
ghost use Rattle.pn_marking.specs.Totals.{IsArcBag, StandsFor};
ghost use Rattle.pn_net.specs.Labels.{said};
ghost use Rattle.pn_net.specs.Typed.{IsTypedTerm};
ghost use Rattle.pn_operations.specs.declared.outcome.Outcome.{Outcome};
ghost use Rattle.pn_syntax.specs.declared.term.Term.{Term};
ghost use Rattle.pn_values.specs.Order.{value_cmp};
ghost use Rattle.pn_values.specs.declared.value.Value.{Value};
ghost use Rattle.std.specs.Option.{unwrap_or};

use pn_bag::{Bag, BagFault};
use pn_eval::laws::a_term_has_one_value;
use pn_eval::{Outcome, eval};
use pn_net::{FlatArc, Typed};
use pn_objects::Label;
use pn_syntax::Term;
use pn_values::Value;
use sqlite_items::Boxed;
use std::alloc::{AllocError, Global};

/// What a term of a net gives, where its variables have these values.
pub(crate) fn outcome_of(
    alloc: Global,
    net: &Typed,
    term: &Term,
    vars: &[u32],
    values: &[Value],
) -> Result<Outcome, AllocError>
    requires typed { IsTypedTerm net.now.declarations term.now }
    requires assignment { IsAssignment net.now.declarations vars.now values.now }
    requires covers { Covers net.now.declarations vars.now term.now }
    ensures { IfOk result (HasValue net.now.declarations vars.now values.now term.now) }
{
    eval(alloc, net.decls(), term, vars, values)
}

/// A term of a net gives one thing at most.
pub(crate) fn gives_one(net: &Typed)
    ensures { (vars : List ℕ) (values : List Value) (e : Term) (o p : Outcome)
        → HasValue net.now.declarations vars values e o → HasValue net.now.declarations vars values e p → o ≡ p }
{
    a_term_has_one_value();
    let _decls = net.decls();
}

/// The multiset that an arc says, none where it says none, or one with a count that is too large.
pub(crate) fn arc_bag(
    alloc: Global,
    net: &Typed,
    arc: &FlatArc,
    vars: &[u32],
    values: &[Value],
) -> Result<Option<Bag<Value>>, AllocError>
    requires typed { IfSome (said arc.now.arc.inscription) (IsTypedTerm net.now.declarations) }
    requires assignment { IsAssignment net.now.declarations vars.now values.now }
    requires covers { IfSome (said arc.now.arc.inscription) (Covers net.now.declarations vars.now) }
    ensures some { IfOk result (λ o. IfSome o (λ bag. (said : List (Value × ℕ))
        × IsArcBag net.now.declarations vars.now values.now arc.now said × IsSame value_cmp bag said)) }
    ensures none { IfOk result (λ o. o ≡ None → (said : List (Value × ℕ)) → IsArcBag net.now.declarations vars.now values.now arc.now said
        → (v : Value) × (MAX_COUNT < count_of value_cmp said v)) }
{
    match &arc.arc.inscription {
        Some(label) => term_bag(alloc, net, &label.get().value, vars, values),
        None => weight_bag(alloc, &arc.arc.weight),
    }
}

/// The multiset for which a term stands.
fn term_bag(
    alloc: Global,
    net: &Typed,
    term: &Term,
    vars: &[u32],
    values: &[Value],
) -> Result<Option<Bag<Value>>, AllocError>
    requires typed { IsTypedTerm net.now.declarations term.now }
    requires assignment { IsAssignment net.now.declarations vars.now values.now }
    requires covers { Covers net.now.declarations vars.now term.now }
    ensures some { IfOk result (λ o. IfSome o (StandsFor net.now.declarations vars.now values.now term.now)) }
    ensures none { IfOk result (λ o. o ≡ None → (bag : List (Value × ℕ)) → StandsFor net.now.declarations vars.now values.now term.now bag → ⊥) }
{
    gives_one(net);
    match outcome_of(alloc, net, term, vars, values)? {
        Outcome::Value(value) => Ok(Some(once(alloc, value)?)),
        Outcome::Bag(bag) => Ok(Some(bag)),
        Outcome::NoValue => Ok(None),
    }
}

/// The multiset that has a value once.
fn once(alloc: Global, value: Value) -> Result<Bag<Value>, AllocError>
    ensures { IfOk result (λ bag. bag ≡ (value, 1) ∷ []) }
{
    let mut bag = Bag::new(alloc);
    match bag.add(value, 1) {
        Ok(()) => Ok(bag),
        Err(BagFault::Memory(error)) => Err(error),
        Err(BagFault::TooLarge) => unreachable!(),
    }
}

/// The one value, as often as a weight says; once where there is none.
fn weight_bag(
    alloc: Global,
    weight: &Option<Boxed<Label<u64>>>,
) -> Result<Option<Bag<Value>>, AllocError>
    ensures some { IfOk result (λ o. IfSome o (λ bag. IsSame value_cmp bag ((Value.Dot, unwrap_or (said weight.now) 1) ∷ []))) }
    ensures none { IfOk result (λ o. o ≡ None → MAX_COUNT < unwrap_or (said weight.now) 1) }
{
    match weight {
        Some(label) => dots(alloc, label.get().value),
        None => dots(alloc, 1),
    }
}

/// The one value, so many times, none where the count is too large.
fn dots(alloc: Global, count: u64) -> Result<Option<Bag<Value>>, AllocError>
    ensures some { IfOk result (λ o. IfSome o (λ bag. IsSame value_cmp bag ((Value.Dot, count) ∷ []))) }
    ensures none { IfOk result (λ o. o ≡ None → MAX_COUNT < count) }
{
    let mut bag = Bag::new(alloc);
    match bag.add(Value::Dot, count) {
        Ok(()) => Ok(Some(bag)),
        Err(BagFault::Memory(error)) => Err(error),
        Err(BagFault::TooLarge) => Ok(None),
    }
}
