//! The rows of the table of operators, each at its bounds.

use crate::written::{are_same, outcome};
use pn_operations::outcome::Outcome;
use pn_operations::rows::applied;
use pn_operators::{Kind, find_op};
use std::alloc::{AllocError, Global};
use std::process::Abort;

/// In a row stand the name of an operator and the number at which it goes round, each argument behind
/// ` | `, and behind ` = ` what it gives.
const TRUTHS: &str = "dotconstant 0 = dot
and 0 | true | true = true
and 0 | true | false | true = false
and 0 | false | none = none
or 0 | false | true = true
or 0 | false = false
or 0 | true | none = none
not 0 | true = false
imply 0 | true | false = false
imply 0 | false | false = true
imply 0 | false | none = none
equality 0 | (1 2) | (1 2) = true
equality 0 | [1 2] | [1] = false
equality 0 | {1:2 5:1} | {5:1 1:2} = true
equality 0 | {1:2} | {1:2 5:1} = false
inequality 0 | {1:2} | {1:3} = true
inequality 0 | 'a | 'a = false
successor 3 | #0 = #1
successor 3 | #2 = #0
successor 1 | #0 = #0
predecessor 3 | #0 = #2
predecessor 3 | #2 = #1
lessthan 0 | #1 | #2 = true
lessthanorequal 0 | 5 | 4 = false
greaterthan 0 | -1 | -2 = true
greaterthanorequal 0 | #2 | #2 = true
ltp 0 | #0 | #1 = true
gtp 0 | #0 | #0 = false
tuple 0 | 1 | 2 = (1 2)";

const NUMBERS: &str = "addition 0 | 9223372036854775806 | 1 = 9223372036854775807
addition 0 | 9223372036854775807 | 1 = none
subtraction 0 | -9223372036854775807 | 1 = -9223372036854775808
subtraction 0 | -9223372036854775808 | 1 = none
mult 0 | -4611686018427387904 | 2 = -9223372036854775808
mult 0 | 4611686018427387904 | 2 = none
div 0 | -7 | 2 = -3
div 0 | 7 | -2 = -3
div 0 | -9223372036854775808 | -1 = none
div 0 | 1 | 0 = none
mod 0 | -7 | 2 = -1
mod 0 | 7 | -2 = 1
mod 0 | -9223372036854775808 | -1 = 0
mod 0 | 1 | 0 = none
lt 0 | -1 | 0 = true
leq 0 | 0 | 0 = true
gt 0 | 0 | 0 = false
geq 0 | -1 | 0 = false
lt 0 | none | 0 = none";

const MULTISETS: &str = "numberof 0 | 7 = {7:1}
numberof 0 | 3 | 7 = {7:3}
numberof 0 | 0 | 7 = {}
numberof 0 | -1 | 7 = none
numberof 0 | 9223372036854775807 | 7 = {7:9223372036854775807}
add 0 | {1:1} = {1:1}
add 0 | {2:1} | {1:1 2:2} | {} = {1:1 2:3}
add 0 | {1:9223372036854775806} | {1:1} = {1:9223372036854775807}
add 0 | {1:9223372036854775807} | {1:1} = none
add 0 | {1:1} | none = none
subtract 0 | {1:2 2:3} | {1:1} | {2:3} = {1:1}
subtract 0 | {1:2} | {1:1} | {1:2} = none
subtract 0 | {1:2} | {2:1} = none
scalarproduct 0 | 0 | {1:2} = {}
scalarproduct 0 | 2 | {1:2 3:1} = {1:4 3:2}
scalarproduct 0 | -1 | {} = none
scalarproduct 0 | 2 | {1:4611686018427387904} = none
cardinality 0 | {1:9223372036854775806 2:1} = 9223372036854775807
cardinality 0 | {1:9223372036854775807 2:1} = none
cardinality 0 | {} = 0
cardinalityof 0 | {1:2 3:4} | 3 = 4
cardinalityof 0 | {1:2} | 3 = 0
contains 0 | {1:2 3:4} | {3:4} = true
contains 0 | {1:2} | {1:3} = false
contains 0 | {1:2} | {} = true";

const TEXTS: &str = "stringconcatenation 0 | 'ab | 'c = 'abc
stringlength 0 | 'aü€😀 = 4
stringlength 0 | ' = 0
lts 0 | 'a | 'ab = true
leqs 0 | 'b | 'ab = false
gts 0 | 'é | 'z = true
geqs 0 | 'a | 'a = true
makelist 0 | 1 = [1]
makelist 0 | 1 | 1 | 2 = [1 1 2]
listconcatenation 0 | [1 2] | [3] = [1 2 3]
listconcatenation 0 | [] | [] = []
listlength 0 | [4 5 6] = 3
memberatindex 0 | [4 5] | 0 = 4
memberatindex 0 | [4 5] | 1 = 5
memberatindex 0 | [4 5] | 2 = none
memberatindex 0 | [4 5] | -1 = none";

/// What stands behind the operator of a row, each by itself.
fn arguments(alloc: Global, words: &str) -> Result<Vec<Outcome>, AllocError> {
    let mut args = Vec::new(alloc);
    for word in words.split(" | ").skip(1) {
        args.push(outcome(alloc, word)?)?;
    }
    Ok(args)
}

/// Whether the operator gives what is told.
fn gives(
    alloc: Global,
    call: &str,
    name: &str,
    round: &str,
    told: &str,
) -> Result<bool, AllocError> {
    let Some(op) = find_op(name, Kind::HighLevel) else {
        return Ok(false);
    };
    let args = arguments(alloc, call)?;
    let given = applied(alloc, round.parse().unwrap_or(0), op, args)?;
    is_told(alloc, &given, told)
}

fn is_told(alloc: Global, given: &Outcome, told: &str) -> Result<bool, AllocError> {
    let wanted = outcome(alloc, told)?;
    Ok(are_same(given, &wanted))
}

fn is_right(alloc: Global, row: &str) -> Result<bool, AllocError> {
    let Some((call, told)) = row.split_once(" = ") else {
        return Ok(false);
    };
    let head = call.split(" | ").next().unwrap_or("");
    let Some((name, round)) = head.split_once(' ') else {
        return Ok(false);
    };
    gives(alloc, call, name, round, told)
}

fn are_right(rt: &impl Abort, alloc: Global, rows: &str) -> Result<(), AllocError> {
    for row in rows.lines() {
        assert!(rt; is_right(alloc, row)?);
    }
    Ok(())
}

#[test]
fn truths(rt: HostRuntime) -> Result<(), AllocError> {
    are_right(&rt, rt.alloc(), TRUTHS)
}

#[test]
fn numbers(rt: HostRuntime) -> Result<(), AllocError> {
    are_right(&rt, rt.alloc(), NUMBERS)
}

#[test]
fn multisets(rt: HostRuntime) -> Result<(), AllocError> {
    are_right(&rt, rt.alloc(), MULTISETS)
}

#[test]
fn texts_and_lists(rt: HostRuntime) -> Result<(), AllocError> {
    are_right(&rt, rt.alloc(), TEXTS)
}
