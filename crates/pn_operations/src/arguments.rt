//! What the arguments of an operator gave, taken out of their list.

ghost use Rattle.std.specs.Prelude.{◌≡◌, drop, map, slice_index_or, IfOk};
ghost use Rattle.std.specs.List.{list_all, list_any};
ghost use Rattle.pn_operations.specs.Outcomes.{bag_in, first_of, is_given, number_in, second_of, truth_in, value_in};

use crate::outcome::Outcome;
use crate::readings::{into_bag, into_value, is_given, number_in, truth_in};
use pn_bag::Bag;
use pn_values::Value;
use std::alloc::{AllocError, Global};

/// Takes the first one out; where there is none it is no value.
pub(crate) fn take_first(args: &mut Vec<Outcome>) -> Outcome
    ensures first { result ≡ first_of args.old.items }
    ensures rest { args.new.items ≡ drop 1 args.old.items }
{
    if args.is_empty() {
        return Outcome::NoValue;
    }
    args.remove(0)
}

/// Takes the first two out.
pub(crate) fn take_two(args: &mut Vec<Outcome>) -> (Outcome, Outcome)
    ensures first { result.0 ≡ first_of args.old.items }
    ensures second { result.1 ≡ second_of args.old.items }
{
    let first = take_first(args);
    let second = take_first(args);
    (first, second)
}

/// Takes all out as values.
pub(crate) fn take_values(alloc: Global, args: &mut Vec<Outcome>) -> Result<Vec<Value>, AllocError>
    ensures { IfOk result (λ values. values.items ≡ map value_in args.old.items) }
{
    let mut values = Vec::with_capacity(alloc, args.len())?;
    args.reverse();
    while let Some(outcome) = args.pop() {
        values.push(into_value(outcome))?;
    }
    Ok(values)
}

/// Takes all out as multisets.
pub(crate) fn take_bags(
    alloc: Global,
    args: &mut Vec<Outcome>,
) -> Result<Vec<Bag<Value>>, AllocError>
    ensures { IfOk result (λ bags. bags.items ≡ map bag_in args.old.items) }
{
    let mut bags = Vec::with_capacity(alloc, args.len())?;
    args.reverse();
    while let Some(outcome) = args.pop() {
        bags.push(into_bag(alloc, outcome))?;
    }
    Ok(bags)
}

/// Whether each has a value or a multiset.
pub(crate) fn are_given(args: &[Outcome]) -> bool
    ensures { result ≡ list_all is_given args.now }
{
    args.iter().all(|outcome| is_given(outcome))
}

/// Whether each is true.
pub(crate) fn are_true(args: &[Outcome]) -> bool
    ensures { result ≡ list_all truth_in args.now }
{
    args.iter().all(|outcome| truth_in(outcome))
}

/// Whether one is true.
pub(crate) fn is_one_true(args: &[Outcome]) -> bool
    ensures { result ≡ list_any truth_in args.now }
{
    args.iter().any(|outcome| truth_in(outcome))
}

/// The truth value at the place, else false.
pub(crate) fn truth_at(args: &[Outcome], place: usize) -> bool
    ensures { result ≡ truth_in (slice_index_or args.now place Outcome.NoValue) }
{
    match args.get(place) {
        Some(outcome) => truth_in(outcome),
        None => false,
    }
}

/// The number at the place, else 0.
pub(crate) fn number_at(args: &[Outcome], place: usize) -> i64
    ensures { result ≡ number_in (slice_index_or args.now place Outcome.NoValue) }
{
    match args.get(place) {
        Some(outcome) => number_in(outcome),
        None => 0,
    }
}
