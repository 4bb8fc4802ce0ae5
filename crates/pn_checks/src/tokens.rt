//! The tokens of an initial marking.

ghost use Rattle.std.specs.Prelude.{◌≡◌, ◌+◌, ◌≤◌, ◌↔◌, [], ◌∷◌, ℕ, Some, IfOk, IfSome, IsTrue, OnOk};
ghost use Rattle.pn_bag.specs.Counts.{count_in, count_of};
ghost use Rattle.pn_bag.specs.declared.TheConstants.{MAX_COUNT};
ghost use Rattle.pn_checks.specs.Initial.{token};
ghost use Rattle.pn_checks.specs.NoValue.{AreOfSort};
ghost use Rattle.pn_eval.specs.Outcomes.{multiset_of};
ghost use Rattle.pn_checks.specs.Tokens.{Gets, HasTokens, IsEmptyAt, KeepsOthers, number_tokens};
ghost use Rattle.pn_net.specs.Labels.{said};
ghost use Rattle.pn_net.specs.Orders.{token_cmp};
ghost use Rattle.pn_net.specs.declared.token.Token.{Token};
ghost use Rattle.pn_values.specs.declared.value.Value.{Value};
ghost use Rattle.pn_values.specs.declared.value.Value.TheVariants as values;

use pn_bag::{Bag, BagFault};
use pn_eval::Outcome;
use pn_net::{Marking, Token};
use pn_objects::Label;
use pn_sorts::{Decls, Sort};
use pn_values::Value;
use sqlite_items::Boxed;
use std::alloc::{AllocError, Global};

/// Whether there is a value or a multiset, with no value outside this sort.
pub(crate) fn has_tokens(decls: &Decls, sort: &Sort, outcome: &Outcome) -> bool
    ensures { IsTrue result ↔ HasTokens decls.now sort.now outcome.now }
{
    match outcome {
        Outcome::Value(value) => decls.has_value(sort, value),
        Outcome::Bag(bag) => are_of_sort(decls, sort, bag),
        Outcome::NoValue => false,
    }
}

/// Whether all values of a multiset are of this sort.
fn are_of_sort(decls: &Decls, sort: &Sort, bag: &Bag<Value>) -> bool
    ensures { IsTrue result ↔ AreOfSort decls.now sort.now bag.now }
{
    for (value, _count) in bag.iter() {
        if !decls.has_value(sort, value) {
            return false;
        }
    }
    true
}

/// Puts a value once, or the values of a multiset, on a place that is empty; where there is none,
/// nothing.
pub(crate) fn put_outcome(
    alloc: Global,
    marking: &mut Marking,
    place: u32,
    outcome: Outcome,
) -> Result<(), AllocError>
    requires { IsEmptyAt place marking.old }
    ensures gets { OnOk result (IfSome (multiset_of outcome) (λ bag. Gets place bag marking.old marking.new)) }
    ensures others { OnOk result (KeepsOthers place marking.old marking.new) }
{
    match outcome {
        Outcome::Value(value) => put(marking, place, value, 1),
        Outcome::Bag(bag) => put_all(alloc, marking, place, &bag),
        Outcome::NoValue => Ok(()),
    }
}

/// Puts the values of a multiset on a place that is empty.
fn put_all(
    alloc: Global,
    marking: &mut Marking,
    place: u32,
    bag: &Bag<Value>,
) -> Result<(), AllocError>
    requires { IsEmptyAt place marking.old }
    ensures gets { OnOk result (Gets place bag.now marking.old marking.new) }
    ensures others { OnOk result (KeepsOthers place marking.old marking.new) }
{
    for (value, count) in bag.iter() {
        put(marking, place, value.copy(alloc)?, count)?;
    }
    Ok(())
}

/// Puts the one value on a place that is empty, as often as its number says, where it has one.
pub(crate) fn put_number(
    marking: &mut Marking,
    place: u32,
    number: &Option<Boxed<Label<u64>>>,
) -> Result<(), AllocError>
    requires empty { IsEmptyAt place marking.old }
    requires counted { IfSome (said number.now) (λ n. n ≤ MAX_COUNT) }
    ensures gets { OnOk result (Gets place (number_tokens (said number.now)) marking.old marking.new) }
    ensures others { OnOk result (KeepsOthers place marking.old marking.new) }
{
    match number {
        Some(label) => put(marking, place, Value::Dot, label.get().value),
        None => Ok(()),
    }
}

/// Puts a value on a place, so many times.
fn put(marking: &mut Marking, place: u32, value: Value, count: u64) -> Result<(), AllocError>
    requires { count_of token_cmp marking.old (token place value) + count ≤ MAX_COUNT }
    ensures { OnOk result ((other : Token) → count_of token_cmp marking.new other
        ≡ count_of token_cmp marking.old other + count_in token_cmp (token place value, count) other) }
{
    let token = Token { place, value };
    match marking.add(token, count) {
        Ok(()) => Ok(()),
        Err(BagFault::Memory(error)) => Err(error),
        Err(BagFault::TooLarge) => unreachable!(),
    }
}
