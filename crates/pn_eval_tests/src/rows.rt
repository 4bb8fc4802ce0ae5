//! Asks of the term of a row what it gives.
//!
//! A row is a term in words, and behind ` = ` what it gives: `none`, a truth value, `place 2` of a
//! constant, `number -3`, `text ab`, `items 2` for a list of two items, `parts 2` for a tuple of two, or
//! `bag` and the counts and places of the constants in it, as `1/0 2/2`.

ghost use Rattle.pn_eval.specs.Assignments.{IsAssignment};
ghost use Rattle.pn_sorts.specs.Standing.{IsFaultless};

use crate::assigned::value_of;
use pn_bag::Bag;
use pn_eval::Outcome;
use pn_samples::term;
use pn_sorts::{Decls, Value};
use pn_terms::Term;
use std::alloc::{AllocError, Global};

/// Whether a value is that of these words.
fn is_value(value: &Value, words: &str) -> bool {
    match (value, words.split_once(' ')) {
        (Value::Bool(truth), None) => *truth == (words == "true"),
        (Value::Const(place), Some(("place", of))) => of.parse() == Ok(*place),
        (Value::Int(number), Some(("number", of))) => of.parse() == Ok(*number),
        (Value::Text(text), Some(("text", of))) => text.as_str() == of,
        (Value::List(items), Some(("items", of))) => of.parse() == Ok(items.as_slice().len()),
        (Value::Tuple(parts), Some(("parts", of))) => of.parse() == Ok(parts.as_slice().len()),
        _ => false,
    }
}

/// Whether a multiset has a constant so often.
fn has_entry(bag: &Bag<Value>, word: &str) -> bool {
    match word.split_once('/') {
        Some((count, place)) => {
            let value = Value::Const(place.parse().unwrap_or(0));
            count.parse() == Ok(bag.count(&value))
        }
        None => false,
    }
}

/// Whether these are all the entries of a multiset.
fn is_bag(bag: &Bag<Value>, words: &str) -> bool {
    for word in words.split(' ').skip(1) {
        if !has_entry(bag, word) {
            return false;
        }
    }
    bag.iter().count() == words.split(' ').skip(1).count()
}

fn is_outcome(outcome: &Outcome, words: &str) -> bool {
    match outcome {
        Outcome::Value(value) => is_value(value, words),
        Outcome::Bag(bag) => words.starts_with("bag") && is_bag(bag, words),
        Outcome::NoValue => words == "none",
    }
}

/// Whether a term gives what is told.
fn gives(
    alloc: Global,
    decls: &Decls,
    term: &Term,
    vars: &[u32],
    values: &[Value],
    told: &str,
) -> Result<bool, AllocError>
    requires faultless { IsFaultless decls.now }
    requires assignment { IsAssignment decls.now vars.now values.now }
{
    match value_of(alloc, decls, term, vars, values)? {
        Some(outcome) => Ok(is_outcome(&outcome, told)),
        None => Ok(false),
    }
}

/// Whether a row is right.
pub(crate) fn is_right(
    alloc: Global,
    decls: &Decls,
    vars: &[u32],
    values: &[Value],
    row: &str,
) -> Result<bool, AllocError>
    requires faultless { IsFaultless decls.now }
    requires assignment { IsAssignment decls.now vars.now values.now }
{
    match row.split_once(" = ") {
        Some((words, told)) => {
            let term = term(alloc, words)?;
            gives(alloc, decls, &term, vars, values, told)
        }
        None => Ok(false),
    }
}
