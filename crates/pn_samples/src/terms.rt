//! Terms in words.
//!
//! A term is the words of its nodes, each before its arguments: `and/2` is an operator and the number
//! of its arguments, `of:q` an element of a partition, `variable:x`, `constant:c1`, `positive:2`,
//! `range:3,1,5`, `text:ab`, `all:c`, `empty:c` and `emptylist:c` are leaves, and `true` is a truth
//! value. The offset of a node is its place among them.

use crate::user;
use pn_operators::{Kind, find_op};
use pn_syntax::{NumberSort, Term, TermNode};
use pn_text::Text;
use sqlite_items::{Boxed, Items};
use std::alloc::{AllocError, Global};

/// Puts the last terms of the stack behind these, the last one first.
fn pop_into(
    stack: &mut Vec<Term>,
    count: usize,
    terms: &mut Items<Term>,
) -> Result<(), AllocError> {
    for _ in 0..count {
        if let Some(term) = stack.pop() {
            terms.push(term)?;
        }
    }
    Ok(())
}

/// The last term of the stack.
fn top(stack: &mut Vec<Term>) -> Term {
    match stack.pop() {
        Some(term) => term,
        None => Term {
            at: 0,
            node: TermNode::Bool(false),
        },
    }
}

fn element(alloc: Global, name: &str, stack: &mut Vec<Term>) -> Result<TermNode, AllocError> {
    let partition = Text::from_str(alloc, name)?;
    Ok(TermNode::PartitionOf {
        partition,
        arg: Boxed::new(alloc, top(stack))?,
    })
}

fn apply(
    alloc: Global,
    name: &str,
    count: &str,
    stack: &mut Vec<Term>,
) -> Result<TermNode, AllocError> {
    let mut args = Items::new(alloc);
    pop_into(stack, count.parse().unwrap_or(0), &mut args)?;
    match find_op(name, Kind::HighLevel) {
        Some(op) => Ok(TermNode::Apply { op, args }),
        None => Ok(TermNode::Bool(false)),
    }
}

fn number(value: &str, sort: NumberSort) -> TermNode {
    TermNode::Number {
        value: value.parse().unwrap_or(0),
        sort,
    }
}

fn part(text: Option<&str>) -> i64 {
    match text {
        Some(text) => text.parse().unwrap_or(0),
        None => 0,
    }
}

fn range(text: &str) -> (i64, i64, i64) {
    let mut parts = text.split(',');
    (part(parts.next()), part(parts.next()), part(parts.next()))
}

fn in_range(text: &str) -> TermNode {
    let (value, start, end) = range(text);
    TermNode::RangeConst { value, start, end }
}

fn leaf(alloc: Global, head: &str, name: &str) -> Result<TermNode, AllocError> {
    match head {
        "variable" => Ok(TermNode::Variable(Text::from_str(alloc, name)?)),
        "constant" => Ok(TermNode::UserOp(Text::from_str(alloc, name)?)),
        "text" => Ok(TermNode::Text(Text::from_str(alloc, name)?)),
        "all" => Ok(TermNode::All(user(alloc, 7, name)?)),
        "empty" => Ok(TermNode::Empty(user(alloc, 7, name)?)),
        "emptylist" => Ok(TermNode::EmptyList(user(alloc, 7, name)?)),
        "integer" => Ok(number(name, NumberSort::Integer)),
        "natural" => Ok(number(name, NumberSort::Natural)),
        "positive" => Ok(number(name, NumberSort::Positive)),
        _ => Ok(in_range(name)),
    }
}

fn node(alloc: Global, word: &str, stack: &mut Vec<Term>) -> Result<TermNode, AllocError> {
    if let Some((name, count)) = word.split_once('/') {
        return apply(alloc, name, count, stack);
    }
    match word.split_once(':') {
        Some(("of", name)) => element(alloc, name, stack),
        Some((head, name)) => leaf(alloc, head, name),
        None => Ok(TermNode::Bool(true)),
    }
}

fn put_all(alloc: Global, words: &str, stack: &mut Vec<Term>) -> Result<(), AllocError> {
    let mut at = words.split(' ').count() as u64;
    for word in words.rsplit(' ') {
        at = at.saturating_sub(1);
        let node = node(alloc, word, stack)?;
        stack.push(Term { at, node })?;
    }
    Ok(())
}

/// The term of these words.
pub fn term(alloc: Global, words: &str) -> Result<Term, AllocError> {
    let mut stack = Vec::new(alloc);
    put_all(alloc, words, &mut stack)?;
    Ok(top(&mut stack))
}
