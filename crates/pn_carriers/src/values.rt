ghost use Rattle.std.specs.Prelude.{◌≡◌, ℕ, ◌<◌, ◌^◌, ◌+ℤ◌, pos, min, true, Some, List, map, length, slice_get, IfOk};
ghost use Rattle.std.specs.List.{list_all};
ghost use Rattle.pn_carriers.specs.Members.{IsMember};
ghost use Rattle.pn_carriers.specs.Carriers.{is_finite, count_between, choices, carrier};

use crate::sizes::finite_size;
use pn_values::{Sort, Value};
use sqlite_items::Items;
use std::alloc::{AllocError, Global};

/// The value at the place `k`, from 0 on, among those of a finite sort of more than `k` values,
/// also of far more than 2^64. Fails only for want of memory.
#[cycle(nth)]
pub fn nth(alloc: Global, widths: &[u32], sort: &Sort, k: u64) -> Result<Value, AllocError>
    requires finite { is_finite sort.now ≡ true }
    requires below { k < length (carrier widths.now sort.now) }
    ensures place { IfOk result (λ v. slice_get (carrier widths.now sort.now) k ≡ Some v) }
    ensures member { IfOk result (λ v. IsMember widths.now v sort.now) }
{
    match sort {
        Sort::Dot => Ok(Value::Dot),
        Sort::Bool => Ok(Value::Bool(k == 1)),
        Sort::Enumeration(_) => Ok(Value::Const(k as u32)),
        Sort::Partition(_) => Ok(Value::Const(k as u32)),
        Sort::Range { start, end } => Ok(Value::Int(number_at(*start, *end, k))),
        Sort::Product(parts) => Ok(Value::Tuple(nth_choice(alloc, widths, parts.as_slice(), k)?)),
        Sort::Integer | Sort::Natural | Sort::Positive | Sort::Text | Sort::List(_) =>
            unreachable!(),
    }
}

/// The choice at the place `k` among those of one value of each part.
#[cycle(nth)]
fn nth_choice(
    alloc: Global,
    widths: &[u32],
    parts: &[Sort],
    k: u64,
) -> Result<Items<Value>, AllocError>
    requires finite { list_all is_finite parts.now ≡ true }
    requires below { k < length (choices (map (carrier widths.now) parts.now)) }
    ensures { IfOk result (λ vs. slice_get (choices (map (carrier widths.now) parts.now)) k ≡ Some vs) }
{
    let mut values = Vec::new(alloc);
    let mut rest = u128::from(k);
    let mut left = parts.len();
    while left > 0 {
        left -= 1;
        let part = &parts[left];
        let count = finite_size(widths, part);
        let place = (rest % count) as u64;
        values.push(nth(alloc, widths, part, place)?)?;
        rest = rest / count;
    }
    values.reverse();
    Ok(Items::from_vec(values))
}

/// The whole number at the place `k` of those from `start` to `end`.
fn number_at(start: i64, end: i64, k: u64) -> i64
    requires { k < count_between start end }
    ensures { result ≡ start +ℤ pos k }
{
    (i128::from(start) + i128::from(k)) as i64
}
