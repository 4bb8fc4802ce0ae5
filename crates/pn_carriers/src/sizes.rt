ghost use Rattle.std.specs.Prelude.{◌≡◌, ◌*◌, ◌≤◌, ◌^◌, min, true, ℕ, List, map, length};
ghost use Rattle.pn_carriers.specs.Carriers.{is_finite, width_of, count_between, carrier, choices};
ghost use Rattle.pn_carriers.specs.Sizes.{size_of, size_of_product, capped_size};

use pn_values::{Size, Sort};

/// The greatest size that is told.
const CAP: u128 = 18_446_744_073_709_551_616;

/// How many values `sort` has, capped at 2^64. `widths` tells how many constants or elements each
/// declaration has. Takes no memory.
#[cycle(size)]
pub fn size(widths: &[u32], sort: &Sort) -> Size
    ensures { result ≡ capped_size (size_of widths.now sort.now) }
{
    match sort {
        Sort::Dot => Size::Finite(1),
        Sort::Bool => Size::Finite(2),
        Sort::Enumeration(n) => Size::Finite(u128::from(width(widths, *n))),
        Sort::Partition(n) => Size::Finite(u128::from(width(widths, *n))),
        Sort::Range { start, end } => Size::Finite(count_between(*start, *end)),
        Sort::Product(parts) => product_size(widths, parts.as_slice()),
        Sort::Integer | Sort::Natural | Sort::Positive | Sort::Text | Sort::List(_) => {
            Size::Infinite
        }
    }
}

/// The size of the product of `parts`.
#[cycle(size)]
fn product_size(widths: &[u32], parts: &[Sort]) -> Size
    ensures { result ≡ capped_size (size_of_product widths.now parts.now) }
{
    let mut total: u128 = 1;
    for part in parts {
        match size(widths, part) {
            Size::Finite(count) => total = total.saturating_mul(count).min(CAP),
            Size::Infinite => return Size::Infinite,
        }
    }
    Size::Finite(total)
}

/// How many values a finite sort has, capped at 2^64.
pub(crate) fn finite_size(widths: &[u32], sort: &Sort) -> u128
    requires { is_finite sort.now ≡ true }
    ensures { result ≡ min (length (carrier widths.now sort.now)) (2 ^ 64) }
{
    match size(widths, sort) {
        Size::Finite(count) => count,
        Size::Infinite => 0,
    }
}

/// How many constants or elements a declaration has, 0 where it is none that has any.
pub(crate) fn width(widths: &[u32], declaration: u32) -> u32
    ensures { result ≡ width_of widths.now declaration }
{
    match widths.get(declaration as usize) {
        Some(width) => *width,
        None => 0,
    }
}

/// How many whole numbers there are from `start` to `end`; none where `end` is the lower. Takes no
/// memory.
pub fn count_between(start: i64, end: i64) -> u128
    ensures value { result ≡ count_between start end }
    ensures most { result ≤ 2 ^ 64 }
{
    if start <= end {
        u128::from(end.abs_diff(start)) + 1
    } else {
        0
    }
}
