ghost use Rattle.std.specs.Prelude.{◌≡◌, ℕ, ◌<◌, ◌^◌, ℤ, false, true, [], ◌∷◌, Some, List, map, length, slice_get};
ghost use Rattle.std.specs.List.{list_all};
ghost use Rattle.pn_values.specs.declared.value.Value.TheViews.{out-Value};
ghost use Rattle.pn_values.specs.declared.value.Value.TheVariants as values;
ghost use Rattle.pn_carriers.specs.Carriers.{is_finite, constants, numbers_between, choices, carrier};
ghost use Rattle.pn_carriers.specs.Members.{is_constant, is_between, is_truth, is_tuple_of, pass_each, is_member, IsMember};

use crate::sizes::finite_size;
use pn_values::{Sort, Value};

/// The place of `value`, from 0 on, among the values of a finite sort that has fewer than 2^64 of
/// them. Takes no memory.
#[cycle(ordinal)]
pub fn ordinal(widths: &[u32], sort: &Sort, value: &Value) -> u64
    requires finite { is_finite sort.now ≡ true }
    requires few { length (carrier widths.now sort.now) < 2 ^ 64 }
    requires member { IsMember widths.now value.now sort.now }
    ensures place { slice_get (carrier widths.now sort.now) result ≡ Some value.now }
    ensures only { (k : ℕ) → slice_get (carrier widths.now sort.now) k ≡ Some value.now → k ≡ result }
{
    match sort {
        Sort::Dot => 0,
        Sort::Bool => truth_place(value),
        Sort::Enumeration(_) => constant_place(value),
        Sort::Partition(_) => constant_place(value),
        Sort::Range { start, .. } => number_place(*start, value),
        Sort::Product(parts) => tuple_place(widths, parts.as_slice(), value),
        Sort::Integer | Sort::Natural | Sort::Positive | Sort::Text | Sort::List(_) =>
            unreachable!(),
    }
}

/// The place of a tuple among those of a product.
#[cycle(ordinal)]
fn tuple_place(widths: &[u32], parts: &[Sort], value: &Value) -> u64
    requires finite { list_all is_finite parts.now ≡ true }
    requires few { length (choices (map (carrier widths.now) parts.now)) < 2 ^ 64 }
    requires member { is_tuple_of (map (is_member widths.now) parts.now) (out-Value value.now) ≡ true }
    ensures place { slice_get (map values.Tuple (choices (map (carrier widths.now) parts.now))) result ≡ Some value.now }
{
    match value {
        Value::Tuple(values) => choice_place(widths, parts, values.as_slice()),
        _ => unreachable!(),
    }
}

/// The place of a choice of one value of each part.
#[cycle(ordinal)]
fn choice_place(widths: &[u32], parts: &[Sort], values: &[Value]) -> u64
    requires finite { list_all is_finite parts.now ≡ true }
    requires few { length (choices (map (carrier widths.now) parts.now)) < 2 ^ 64 }
    requires member { pass_each (map (is_member widths.now) parts.now) values.now ≡ true }
    ensures place { slice_get (choices (map (carrier widths.now) parts.now)) result ≡ Some values.now }
{
    let mut place: u64 = 0;
    for (i, part) in parts.iter().enumerate() {
        let value = &values[i];
        let count = finite_size(widths, part) as u64;
        place = place * count + ordinal(widths, part, value);
    }
    place
}

fn truth_place(value: &Value) -> u64
    requires { is_truth (out-Value value.now) ≡ true }
    ensures { slice_get (values.Bool false ∷ values.Bool true ∷ []) result ≡ Some value.now }
{
    match value {
        Value::Bool(truth) => u64::from(*truth),
        _ => unreachable!(),
    }
}

fn constant_place(value: &Value) -> u64
    ensures { (width : ℕ) → is_constant width (out-Value value.now) ≡ true
        → slice_get (constants width) result ≡ Some value.now }
{
    match value {
        Value::Const(constant) => u64::from(*constant),
        _ => 0,
    }
}

fn number_place(start: i64, value: &Value) -> u64
    ensures { (end : ℤ) → is_between start end (out-Value value.now) ≡ true
        → slice_get (numbers_between start end) result ≡ Some value.now }
{
    match value {
        Value::Int(number) => number.abs_diff(start),
        _ => 0,
    }
}
