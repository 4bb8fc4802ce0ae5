//! The laws of the order of values. Each function does nothing; its contract is the law.

ghost use Rattle.std.specs.Prelude.{◌≡◌, ◌↔◌};
ghost use Rattle.std.specs.Cmp.{IsTotalOrder};
ghost use Rattle.std.specs.declared.cmp.Ordering.TheVariants.{Equal};
ghost use Rattle.pn_values.specs.Order.{layer_cmp, value_cmp};
ghost use Rattle.pn_values.specs.declared.value.Value.{Value, out-Value};

/// The order in plain words, one level at a time: by variant in the order written, then by content;
/// tuples and lists part by part, a shorter prefix first; texts by bytes; false before true.
pub fn order_by_levels()
    ensures { (a b : Value) → value_cmp a b ≡ layer_cmp value_cmp (out-Value a) (out-Value b) }
{}

/// Values that compare as equal are the same, and no others.
pub fn equal_is_same()
    ensures { (a b : Value) → (value_cmp a b ≡ Equal) ↔ (a ≡ b) }
{}

/// Any two values compare, and what comes before is before all that comes after.
pub fn values_are_ordered()
    ensures { IsTotalOrder value_cmp }
{}
