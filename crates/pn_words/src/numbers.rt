//! Numbers in decimal, between bounds.

ghost use Rattle.std.specs.Prelude.{◌≡◌, ◌<◌, ◌↔◌, ℕ, List, length, IsTrue, true, false};
ghost use Rattle.std.specs.Char.{is_ascii_digit};
ghost use Rattle.std.specs.List.{Contains, list_all};
ghost use Rattle.pn_words.specs.Languages.{Closed, Reads};
ghost use Rattle.pn_words.specs.Numbers.{Begins, Decimal, HasBegun, is_no_digit};
ghost use Rattle.pn_words.specs.Turns.{IsTurn};

use crate::marks::is_mark;

/// Whether a number from `low` to `high` begins with the digits of `number`.
fn begins(low: u64, high: u64, number: u128) -> bool
    requires { number < 200000000000000000000 }
    ensures { IsTrue result ↔ Begins low high number }
{
    if high < low {
        return false;
    }
    if number == 0 {
        return low == 0;
    }
    let mut least = number;
    let mut above = number + 1;
    while least <= high as u128 {
        if (low as u128) < above {
            return true;
        }
        least *= 10;
        above *= 10;
    }
    false
}

/// What comes of one more byte behind some digits: they are more digits, the number has ended, or no
/// number goes on so.
pub(crate) enum Turn {
    Digits(u64),
    End,
    Stop,
}

/// What comes of one more byte behind the digits of `number`, or behind none.
fn behind(low: u64, high: u64, marks: &[u8], is_first: bool, number: u64, byte: u8) -> Turn
    requires begun { HasBegun low high is_first number }
    requires marks { list_all is_no_digit marks.now ≡ true }
    ensures { IsTurn low high marks.now is_first number byte result }
{
    if byte.is_ascii_digit() {
        more_digits(low, high, is_first, number, byte)
    } else if !is_first && low <= number && is_mark(marks, byte) {
        Turn::End
    } else {
        Turn::Stop
    }
}

/// What comes of one more digit.
fn more_digits(low: u64, high: u64, is_first: bool, number: u64, digit: u8) -> Turn
    requires begun { HasBegun low high is_first number }
    requires digit { is_ascii_digit digit ≡ true }
    ensures { (marks : List ℕ) → list_all is_no_digit marks ≡ true → IsTurn low high marks is_first number digit result }
{
    if is_first {
        go_on(low, high, is_first, number, digit)
    } else if number == 0 {
        Turn::Stop
    } else {
        go_on(low, high, is_first, number, digit)
    }
}

/// What comes of one more digit where none is so far, or the number is not 0.
fn go_on(low: u64, high: u64, is_first: bool, number: u64, digit: u8) -> Turn
    requires begun { HasBegun low high is_first number }
    requires digit { is_ascii_digit digit ≡ true }
    requires open { is_first ≡ false → 0 < number }
    ensures { (marks : List ℕ) → list_all is_no_digit marks ≡ true → IsTurn low high marks is_first number digit result }
{
    let next = number as u128 * 10 + (digit - b'0') as u128;
    if next > high as u128 {
        return Turn::Stop;
    }
    if begins(low, high, next) {
        Turn::Digits(next as u64)
    } else {
        Turn::Stop
    }
}

/// Reads a number from `low` to `high` in decimal without leading zeros, and one of the marks behind
/// it.
pub fn number<'a>(
    low: u64,
    high: u64,
    marks: &[u8],
    bytes: &'a [u8],
) -> Result<((u64, u8), &'a [u8]), usize>
    requires some { 0 < length marks.now }
    requires marks { list_all is_no_digit marks.now ≡ true }
    ensures { Reads (Closed (Decimal low high) marks.now) bytes.now (λ x. x.0) (λ x. x.1.now) result }
{
    let mut number = 0;
    for at in 0..bytes.len() {
        match behind(low, high, marks, at == 0, number, bytes[at]) {
            Turn::Digits(next) => number = next,
            Turn::End => return Ok(((number, bytes[at]), &bytes[at + 1..])),
            Turn::Stop => return Err(bytes.len() - at),
        }
    }
    Err(0)
}
