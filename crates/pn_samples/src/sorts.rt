//! Sorts in words, each before its parts.
//!
//! `Dot`, `Bool`, `Integer`, `Natural`, `Positive` and `Text` are sorts. `Enumeration/0` and
//! `Partition/2` have the place of a declaration, `Range/-1/5` a first and a last number. `List`
//! takes the next sort, `Product/3` the next three.

use pn_values::Sort;
use sqlite_items::{Boxed, Items};
use std::alloc::{AllocError, Global};

/// The last sort of the stack.
fn top(stack: &mut Vec<Sort>) -> Sort {
    match stack.pop() {
        Some(sort) => sort,
        None => Sort::Dot,
    }
}

/// Puts the last sorts of the stack behind these, the last one first.
fn pop_into(
    stack: &mut Vec<Sort>,
    count: usize,
    sorts: &mut Items<Sort>,
) -> Result<(), AllocError> {
    for _ in 0..count {
        sorts.push(top(stack))?;
    }
    Ok(())
}

fn product(alloc: Global, count: usize, stack: &mut Vec<Sort>) -> Result<Sort, AllocError> {
    let mut parts = Items::new(alloc);
    pop_into(stack, count, &mut parts)?;
    Ok(Sort::Product(parts))
}

fn range(numbers: &str) -> Sort {
    let (start, end) = numbers.split_once('/').unwrap_or((numbers, numbers));
    Sort::Range {
        start: start.parse().unwrap_or(0),
        end: end.parse().unwrap_or(0),
    }
}

/// The sort of a word with numbers.
fn numbered(
    alloc: Global,
    word: &str,
    numbers: &str,
    stack: &mut Vec<Sort>,
) -> Result<Sort, AllocError> {
    match word {
        "Enumeration" => Ok(Sort::Enumeration(numbers.parse().unwrap_or(0))),
        "Partition" => Ok(Sort::Partition(numbers.parse().unwrap_or(0))),
        "Product" => product(alloc, numbers.parse().unwrap_or(0), stack),
        _ => Ok(range(numbers)),
    }
}

/// The sort of a word that is one.
fn plain(word: &str) -> Sort {
    match word {
        "Bool" => Sort::Bool,
        "Integer" => Sort::Integer,
        "Natural" => Sort::Natural,
        "Positive" => Sort::Positive,
        "Text" => Sort::Text,
        _ => Sort::Dot,
    }
}

fn node(alloc: Global, word: &str, stack: &mut Vec<Sort>) -> Result<Sort, AllocError> {
    match word.split_once('/') {
        Some((word, numbers)) => numbered(alloc, word, numbers, stack),
        None => {
            if word == "List" {
                Ok(Sort::List(Boxed::new(alloc, top(stack))?))
            } else {
                Ok(plain(word))
            }
        }
    }
}

fn put_all(alloc: Global, words: &str, stack: &mut Vec<Sort>) -> Result<(), AllocError> {
    for word in words.rsplit(' ') {
        let sort = node(alloc, word, stack)?;
        stack.push(sort)?;
    }
    Ok(())
}

/// The sort of these words.
pub fn sort_of(alloc: Global, words: &str) -> Result<Sort, AllocError> {
    let mut stack = Vec::new(alloc);
    put_all(alloc, words, &mut stack)?;
    Ok(top(&mut stack))
}
