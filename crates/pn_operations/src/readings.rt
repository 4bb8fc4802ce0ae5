//! What an outcome holds, where it is of the kind that is wanted; else a plain one. None takes memory.

ghost use Rattle.std.specs.Prelude.{◌≡◌};
ghost use Rattle.pn_operations.specs.Outcomes.{bag_in, is_given, items_in, number_in, number_of, place_in, place_of, text_in, truth_in, truth_of, value_in};
ghost use Rattle.pn_values.specs.declared.value.Value.TheViews.{out-Value};

use crate::outcome::Outcome;
use pn_bag::Bag;
use pn_text::Text;
use pn_values::Value;
use sqlite_items::Items;
use std::alloc::Global;

/// Whether there is a value or a multiset.
pub(crate) fn is_given(outcome: &Outcome) -> bool
    ensures { result ≡ is_given outcome.now }
{
    match outcome {
        Outcome::Value(_) => true,
        Outcome::Bag(_) => true,
        Outcome::NoValue => false,
    }
}

/// The truth value, else false.
pub(crate) fn truth_in(outcome: &Outcome) -> bool
    ensures { result ≡ truth_in outcome.now }
{
    match outcome {
        Outcome::Value(value) => truth_of(value),
        _ => false,
    }
}

fn truth_of(value: &Value) -> bool
    ensures { result ≡ truth_of (out-Value value.now) }
{
    match value {
        Value::Bool(truth) => *truth,
        _ => false,
    }
}

/// The place of the constant, else 0.
pub(crate) fn place_in(outcome: &Outcome) -> u32
    ensures { result ≡ place_in outcome.now }
{
    match outcome {
        Outcome::Value(value) => place_of(value),
        _ => 0,
    }
}

fn place_of(value: &Value) -> u32
    ensures { result ≡ place_of (out-Value value.now) }
{
    match value {
        Value::Const(place) => *place,
        _ => 0,
    }
}

/// The number, else 0.
pub(crate) fn number_in(outcome: &Outcome) -> i64
    ensures { result ≡ number_in outcome.now }
{
    match outcome {
        Outcome::Value(value) => number_of(value),
        _ => 0,
    }
}

fn number_of(value: &Value) -> i64
    ensures { result ≡ number_of (out-Value value.now) }
{
    match value {
        Value::Int(number) => *number,
        _ => 0,
    }
}

/// The value, else Dot.
pub(crate) fn into_value(outcome: Outcome) -> Value
    ensures { result ≡ value_in outcome }
{
    match outcome {
        Outcome::Value(value) => value,
        _ => Value::Dot,
    }
}

/// The multiset, else the empty one.
pub(crate) fn into_bag(alloc: Global, outcome: Outcome) -> Bag<Value>
    ensures { result ≡ bag_in outcome }
{
    match outcome {
        Outcome::Bag(bag) => bag,
        _ => Bag::new(alloc),
    }
}

/// The text, else the empty one.
pub(crate) fn into_text(alloc: Global, outcome: Outcome) -> Text
    ensures { result ≡ text_in outcome }
{
    match into_value(outcome) {
        Value::Text(text) => text,
        _ => Text::from_string(String::new(alloc)),
    }
}

/// The items of the list, else none.
pub(crate) fn into_items(alloc: Global, outcome: Outcome) -> Items<Value>
    ensures { result ≡ items_in outcome }
{
    match into_value(outcome) {
        Value::List(items) => items,
        _ => Items::new(alloc),
    }
}
