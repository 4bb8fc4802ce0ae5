//! The rows of the table of operators: what each gives for what its arguments gave. An operator that
//! a family of rows doesn't have is in the next.

ghost use Rattle.std.specs.Prelude.{◌≡◌, IfOk};
ghost use Rattle.pn_operations.specs.Rows.{bag_row, constant_row, list_row, number_row, order_row, text_row, truth_row, value_given};

use crate::arguments::{are_given, are_true, is_one_true, number_at, take_first, truth_at};
use crate::numbers;
use crate::outcome::Outcome;
use crate::readings::place_in;
use crate::single::{
    are_equal, constant, count, difference, implies, includes, joined_lists, joined_texts, list,
    list_length, member, multiple, next_place, number_of, number_where, order, previous_place,
    size, sum, text_length, text_order, truth, tuple,
};
use pn_operators::Op;
use pn_values::Value;
use std::alloc::{AllocError, Global};

/// What the operator gives for what its arguments gave, which it uses up. `round` is the number of
/// constants of the enumeration that the first argument has; only `successor` and `predecessor` look
/// at it.
pub fn applied(alloc: Global, round: u32, op: Op, args: Vec<Outcome>) -> Result<Outcome, AllocError>
    ensures { IfOk result (λ outcome. outcome ≡ value_given round op args.items) }
{
    let mut rest = args;
    given(alloc, round, op, &mut rest)
}

fn given(alloc: Global, round: u32, op: Op, args: &mut Vec<Outcome>) -> Result<Outcome, AllocError>
    ensures { IfOk result (λ outcome. outcome ≡ value_given round op args.old.items) }
{
    if !are_given(args) {
        return Ok(Outcome::NoValue);
    }
    truth_row(alloc, round, op, args)
}

/// The rows of truth values and equality.
fn truth_row(
    alloc: Global,
    round: u32,
    op: Op,
    args: &mut Vec<Outcome>,
) -> Result<Outcome, AllocError>
    ensures { IfOk result (λ outcome. outcome ≡ truth_row round op args.old.items) }
{
    match op {
        Op::And => Ok(truth(are_true(args))),
        Op::Or => Ok(truth(is_one_true(args))),
        Op::Not => Ok(truth(!truth_at(args, 0))),
        Op::Imply => Ok(truth(implies(truth_at(args, 0), truth_at(args, 1)))),
        Op::Equality => Ok(truth(are_equal(args))),
        Op::Inequality => Ok(truth(!are_equal(args))),
        _ => order_row(alloc, round, op, args),
    }
}

/// The rows of order.
fn order_row(
    alloc: Global,
    round: u32,
    op: Op,
    args: &mut Vec<Outcome>,
) -> Result<Outcome, AllocError>
    ensures { IfOk result (λ outcome. outcome ≡ order_row round op args.old.items) }
{
    match op {
        Op::LessThan => Ok(truth(order(args).is_lt())),
        Op::LessThanOrEqual => Ok(truth(order(args).is_le())),
        Op::GreaterThan => Ok(truth(order(args).is_gt())),
        Op::GreaterThanOrEqual => Ok(truth(order(args).is_ge())),
        Op::Ltp => Ok(truth(order(args).is_lt())),
        Op::Gtp => Ok(truth(order(args).is_gt())),
        _ => constant_row(alloc, round, op, args),
    }
}

/// The rows of the one value, constants and tuples.
fn constant_row(
    alloc: Global,
    round: u32,
    op: Op,
    args: &mut Vec<Outcome>,
) -> Result<Outcome, AllocError>
    ensures { IfOk result (λ outcome. outcome ≡ constant_row round op args.old.items) }
{
    match op {
        Op::DotConstant => Ok(Outcome::Value(Value::Dot)),
        Op::Successor => Ok(constant(next_place(round, place_in(&take_first(args))))),
        Op::Predecessor => Ok(constant(previous_place(round, place_in(&take_first(args))))),
        Op::Tuple => tuple(alloc, args),
        _ => number_row(alloc, op, args),
    }
}

/// The rows of numbers.
fn number_row(alloc: Global, op: Op, args: &mut Vec<Outcome>) -> Result<Outcome, AllocError>
    ensures { IfOk result (λ outcome. outcome ≡ number_row op args.old.items) }
{
    let one = number_at(args, 0);
    let other = number_at(args, 1);
    match op {
        Op::Addition => Ok(number_where(numbers::sum(&one, &other))),
        Op::Subtraction => Ok(number_where(numbers::difference(&one, &other))),
        Op::Mult => Ok(number_where(numbers::product(&one, &other))),
        Op::Div => Ok(number_where(numbers::quotient(&one, &other))),
        Op::Mod => Ok(number_where(numbers::rest(&one, &other))),
        Op::Lt => Ok(truth(numbers::is_less(&one, &other))),
        Op::Leq => Ok(truth(numbers::is_at_most(&one, &other))),
        Op::Gt => Ok(truth(numbers::is_greater(&one, &other))),
        Op::Geq => Ok(truth(numbers::is_at_least(&one, &other))),
        _ => bag_row(alloc, op, args),
    }
}

/// The rows of multisets.
fn bag_row(alloc: Global, op: Op, args: &mut Vec<Outcome>) -> Result<Outcome, AllocError>
    ensures { IfOk result (λ outcome. outcome ≡ bag_row op args.old.items) }
{
    match op {
        Op::NumberOf => number_of(alloc, args),
        Op::Add => sum(alloc, args),
        Op::Subtract => difference(alloc, args),
        Op::ScalarProduct => Ok(multiple(alloc, args)),
        Op::Cardinality => Ok(size(alloc, args)),
        Op::CardinalityOf => Ok(count(alloc, args)),
        Op::Contains => Ok(truth(includes(alloc, args))),
        _ => text_row(alloc, op, args),
    }
}

/// The rows of texts.
fn text_row(alloc: Global, op: Op, args: &mut Vec<Outcome>) -> Result<Outcome, AllocError>
    ensures { IfOk result (λ outcome. outcome ≡ text_row op args.old.items) }
{
    match op {
        Op::StringConcatenation => joined_texts(alloc, args),
        Op::StringLength => Ok(text_length(alloc, args)),
        Op::Lts => Ok(truth(text_order(alloc, args).is_lt())),
        Op::Leqs => Ok(truth(text_order(alloc, args).is_le())),
        Op::Gts => Ok(truth(text_order(alloc, args).is_gt())),
        Op::Geqs => Ok(truth(text_order(alloc, args).is_ge())),
        _ => list_row(alloc, op, args),
    }
}

/// The rows of lists.
fn list_row(alloc: Global, op: Op, args: &mut Vec<Outcome>) -> Result<Outcome, AllocError>
    ensures { IfOk result (λ outcome. outcome ≡ list_row op args.old.items) }
{
    match op {
        Op::MakeList => list(alloc, args),
        Op::ListConcatenation => joined_lists(alloc, args),
        Op::ListLength => Ok(list_length(alloc, args)),
        Op::MemberAtIndex => Ok(member(alloc, args)),
        _ => Ok(Outcome::NoValue),
    }
}
