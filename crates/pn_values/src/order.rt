//! The order of values.

ghost use Rattle.std.specs.Prelude.{◌≡◌, refl};
ghost use Rattle.std.specs.Cmp.{eq_by_cmp_equiv, partial_equiv_from_equiv, partial_order_from_agreeing_total};
ghost use Rattle.std.specs.Cmp.Lexicographic.{slice_cmp};
ghost use Rattle.std.specs.Ordering.{as_partial_cmp, eq_by_cmp};
ghost use Rattle.pn_values.specs.Order.{value_cmp, variant_of};
ghost use Rattle.pn_values.specs.OrderLaws.{values_total};
ghost use Rattle.pn_values.specs.declared.value.Value.{out-Value};

use crate::Value;
use std::cmp::Ordering;

impl PartialEq for Value {
    ghost eq = { eq_by_cmp value_cmp };

    ghost laws = { partial_equiv_from_equiv (eq_by_cmp_equiv values_total) };

    fn eq(&self, other: &Value) -> bool {
        compare(self, other).is_eq()
    }
}

impl Eq for Value {
    ghost laws = { eq_by_cmp_equiv values_total };
}

impl PartialOrd for Value {
    ghost partial_cmp = { as_partial_cmp value_cmp };

    ghost laws = { partial_order_from_agreeing_total value_cmp values_total (λ _ _. refl) (λ _ _. refl) };

    fn partial_cmp(&self, other: &Value) -> Option<Ordering> {
        Some(compare(self, other))
    }
}

impl Ord for Value {
    ghost cmp = { value_cmp };

    ghost total = { values_total };

    ghost matches_partial_cmp = { λ _ _. refl };

    ghost matches_eq = { λ _ _. refl };

    fn cmp(&self, other: &Value) -> Ordering {
        compare(self, other)
    }
}

/// How two values compare: by variant in the order written, then by content; tuples and lists part
/// by part, a shorter prefix first; texts by bytes; false before true. The recursion goes by the
/// depth of the values.
#[cycle(compare)]
fn compare(one: &Value, two: &Value) -> Ordering
    ensures { result ≡ value_cmp one.now two.now }
{
    match (one, two) {
        (Value::Bool(first), Value::Bool(second)) => first.cmp(second),
        (Value::Const(first), Value::Const(second)) => first.cmp(second),
        (Value::Int(first), Value::Int(second)) => first.cmp(second),
        (Value::Text(first), Value::Text(second)) => first.as_str().cmp(second.as_str()),
        (Value::Tuple(first), Value::Tuple(second)) => {
            compare_all(first.as_slice(), second.as_slice())
        }
        (Value::List(first), Value::List(second)) => {
            compare_all(first.as_slice(), second.as_slice())
        }
        _ => variant(one).cmp(&variant(two)),
    }
}

/// The place of the variant in the order written.
fn variant(value: &Value) -> u8
    ensures { result ≡ variant_of (out-Value value.now) }
{
    match value {
        Value::Dot => 0,
        Value::Bool(_) => 1,
        Value::Const(_) => 2,
        Value::Int(_) => 3,
        Value::Text(_) => 4,
        Value::Tuple(_) => 5,
        Value::List(_) => 6,
    }
}

#[cycle(compare)]
fn compare_all(ones: &[Value], twos: &[Value]) -> Ordering
    ensures { result ≡ slice_cmp value_cmp ones.now twos.now }
{
    for i in 0..ones.len() {
        if i >= twos.len() {
            return Ordering::Greater;
        }
        let order = compare(&ones[i], &twos[i]);
        if order.is_ne() {
            return order;
        }
    }
    if ones.len() < twos.len() {
        Ordering::Less
    } else {
        Ordering::Equal
    }
}
