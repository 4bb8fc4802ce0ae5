//! Concatenations at their limits: 16777216 bytes, 1048576 items.

use crate::written::outcome;
use pn_operations::outcome::Outcome;
use pn_operations::rows::applied;
use pn_operators::Op;
use pn_values::Value;
use std::alloc::{AllocError, Global};

/// What the operator gives for two values.
fn joined(alloc: Global, op: Op, one: Value, other: Value) -> Result<Outcome, AllocError> {
    let mut args = Vec::new(alloc);
    args.push(Outcome::Value(one))?;
    args.push(Outcome::Value(other))?;
    applied(alloc, 0, op, args)
}

/// A value joined to itself. Where there is none the answer is Dot.
fn doubled(alloc: Global, op: Op, value: Value) -> Result<Value, AllocError> {
    let copy = value.copy(alloc)?;
    match joined(alloc, op, value, copy)? {
        Outcome::Value(twice) => Ok(twice),
        _ => Ok(Value::Dot),
    }
}

/// A value joined to itself so many times.
fn often_doubled(alloc: Global, op: Op, word: &str, times: u32) -> Result<Value, AllocError> {
    let mut value = Value::Dot;
    if let Outcome::Value(first) = outcome(alloc, word)? {
        value = first;
    }
    for _ in 0..times {
        value = doubled(alloc, op, value)?;
    }
    Ok(value)
}

/// Whether what is doubled so many times has a value, and has none with one more.
fn ends_at(alloc: Global, op: Op, one: &str, times: u32) -> Result<bool, AllocError> {
    let whole = often_doubled(alloc, op, one, times)?;
    if whole == Value::Dot {
        return Ok(false);
    }
    let more = often_doubled(alloc, op, one, 0)?;
    let given = joined(alloc, op, whole, more)?;
    Ok(matches!(given, Outcome::NoValue))
}

#[test]
fn texts_end(rt: HostRuntime) -> Result<(), AllocError> {
    assert!(&rt; ends_at(rt.alloc(), Op::StringConcatenation, "'a", 24)?);
    Ok(())
}

#[test]
fn lists_end(rt: HostRuntime) -> Result<(), AllocError> {
    assert!(&rt; ends_at(rt.alloc(), Op::ListConcatenation, "[1]", 20)?);
    Ok(())
}
