//! Outcomes in words: `none`, `dot`, `true`, `false`, a number, `#` and the place of a constant, `'` and a text, `(1 2)` and
//! `[1 2]` a tuple and a list of numbers, `{1:2 3:4}` a multiset of numbers with their counts.

use pn_bag::Bag;
use pn_operations::outcome::Outcome;
use pn_text::Text;
use pn_values::Value;
use sqlite_items::Items;
use std::alloc::{AllocError, Global};

/// What stands between the two brackets, where the word begins and ends with them.
fn within<'a>(word: &'a str, open: char, close: char) -> Option<&'a str> {
    word.strip_prefix(open)?.strip_suffix(close)
}

fn number(word: &str) -> i64 {
    word.parse().unwrap_or(0)
}

fn numbers(alloc: Global, words: &str) -> Result<Items<Value>, AllocError> {
    let mut items = Items::new(alloc);
    for word in words.split(' ') {
        if word != "" {
            items.push(Value::Int(number(word)))?;
        }
    }
    Ok(items)
}

fn add_entry(bag: &mut Bag<Value>, word: &str) -> Result<(), AllocError> {
    let Some((value, count)) = word.split_once(':') else {
        return Ok(());
    };
    if bag
        .add(Value::Int(number(value)), count.parse().unwrap_or(0))
        .is_err()
    {
        return Err(AllocError);
    }
    Ok(())
}

fn bag(alloc: Global, words: &str) -> Result<Bag<Value>, AllocError> {
    let mut bag = Bag::new(alloc);
    for word in words.split(' ') {
        add_entry(&mut bag, word)?;
    }
    Ok(bag)
}

fn plain(word: &str) -> Value {
    match word {
        "dot" => Value::Dot,
        "true" => Value::Bool(true),
        "false" => Value::Bool(false),
        _ => Value::Int(number(word)),
    }
}

fn value(alloc: Global, word: &str) -> Result<Value, AllocError> {
    if let Some(text) = word.strip_prefix('\'') {
        return Ok(Value::Text(Text::from_str(alloc, text)?));
    }
    if let Some(place) = word.strip_prefix('#') {
        return Ok(Value::Const(place.parse().unwrap_or(0)));
    }
    if let Some(parts) = within(word, '(', ')') {
        return Ok(Value::Tuple(numbers(alloc, parts)?));
    }
    if let Some(items) = within(word, '[', ']') {
        return Ok(Value::List(numbers(alloc, items)?));
    }
    Ok(plain(word))
}

/// The outcome of these words.
pub(crate) fn outcome(alloc: Global, word: &str) -> Result<Outcome, AllocError> {
    if word == "none" {
        return Ok(Outcome::NoValue);
    }
    match within(word, '{', '}') {
        Some(entries) => Ok(Outcome::Bag(bag(alloc, entries)?)),
        None => Ok(Outcome::Value(value(alloc, word)?)),
    }
}

fn have_same_entries(one: &Bag<Value>, other: &Bag<Value>) -> bool {
    let mut others = other.iter();
    for (value, count) in one.iter() {
        let Some((another, number)) = others.next() else {
            return false;
        };
        if value != another || count != number {
            return false;
        }
    }
    others.next().is_none()
}

/// Whether both are the same.
pub(crate) fn are_same(one: &Outcome, other: &Outcome) -> bool {
    match (one, other) {
        (Outcome::Value(one), Outcome::Value(other)) => one == other,
        (Outcome::Bag(one), Outcome::Bag(other)) => have_same_entries(one, other),
        (Outcome::NoValue, Outcome::NoValue) => true,
        _ => false,
    }
}
