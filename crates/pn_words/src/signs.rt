//! Whole numbers in decimal, with `-` before a negative one.

ghost use Rattle.std.specs.Prelude.{◌≡◌, ◌-◌, ◌^◌, ◌<◌, ◌≤◌, pos, negsuc, int_le, length, true, false};
ghost use Rattle.std.specs.List.{list_all};
ghost use Rattle.pn_words.specs.Languages.{Closed, Reads};
ghost use Rattle.pn_words.specs.Numbers.{BehindSign, PlainDecimal, SignedDecimal, is_no_digit, least_behind, least_plain};

use crate::literals::literal;
use crate::numbers::number;

/// The least number that may stand behind `-`, where numbers are at most `high`.
fn least_behind(high: i64) -> u64
    ensures { result ≡ least_behind high }
{
    if high < 0 { high.unsigned_abs() } else { 1 }
}

/// The least number that may stand without `-`, where numbers are at least `low`.
fn least_plain(low: i64) -> u64
    ensures { result ≡ least_plain low }
{
    if low < 0 { 0 } else { low.unsigned_abs() }
}

/// The negative number of these digits.
fn negative(number: u64) -> i64
    requires some { 0 < number }
    requires least { number ≤ 2 ^ 63 }
    ensures { result ≡ negsuc (number - 1) }
{
    -((number - 1) as i64) - 1
}

/// Reads the digits of a negative number behind its `-`, and one of the marks behind them.
fn behind_sign<'a>(
    low: i64,
    high: i64,
    marks: &[u8],
    bytes: &'a [u8],
) -> Result<((i64, u8), &'a [u8]), usize>
    requires some { 0 < length marks.now }
    requires marks { list_all is_no_digit marks.now ≡ true }
    requires below { int_le (pos 0) low ≡ false }
    ensures { Reads (Closed (BehindSign low high) marks.now) bytes.now (λ x. x.0) (λ x. x.1.now) result }
{
    match number(least_behind(high), low.unsigned_abs(), marks, bytes) {
        Ok(((digits, mark), rest)) => Ok(((negative(digits), mark), rest)),
        Err(left) => Err(left),
    }
}

/// Reads the digits of a number that is not negative, and one of the marks behind them.
fn without_sign<'a>(
    low: i64,
    high: i64,
    marks: &[u8],
    bytes: &'a [u8],
) -> Result<((i64, u8), &'a [u8]), usize>
    requires some { 0 < length marks.now }
    requires marks { list_all is_no_digit marks.now ≡ true }
    requires above { int_le (pos 0) high ≡ true }
    ensures { Reads (Closed (PlainDecimal low high) marks.now) bytes.now (λ x. x.0) (λ x. x.1.now) result }
{
    match number(least_plain(low), high.unsigned_abs(), marks, bytes) {
        Ok(((digits, mark), rest)) => Ok(((digits as i64, mark), rest)),
        Err(left) => Err(left),
    }
}

/// Reads a whole number from `low` to `high` in decimal without leading zeros, with `-` before a
/// negative one, and one of the marks behind it.
pub fn signed<'a>(
    low: i64,
    high: i64,
    marks: &[u8],
    bytes: &'a [u8],
) -> Result<((i64, u8), &'a [u8]), usize>
    requires some { 0 < length marks.now }
    requires marks { list_all is_no_digit marks.now ≡ true }
    ensures { Reads (Closed (SignedDecimal low high) marks.now) bytes.now (λ x. x.0) (λ x. x.1.now) result }
{
    if high < low {
        return Err(bytes.len());
    }
    match literal(b"-", bytes) {
        Ok(rest) => {
            if low >= 0 {
                return Err(bytes.len());
            }
            behind_sign(low, high, marks, rest)
        }
        Err(_) => {
            if high < 0 {
                return Err(bytes.len());
            }
            without_sign(low, high, marks, bytes)
        }
    }
}
