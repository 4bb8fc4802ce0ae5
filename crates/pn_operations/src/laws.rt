//! The laws of the operators, by which their definitions say what they should. Each function does
//! nothing; its contract is the law.

ghost use Rattle.std.specs.Prelude.{◌≡◌, ◌↔◌, ◌<◌, ◌+◌, ℕ, ℤ, pos, negsuc, ◌+ℤ◌, ◌*ℤ◌, int_le, int_div, int_rem, unsigned_abs, true, List, sum_by, Some, None};
ghost use Rattle.pn_bag.specs.Bag.{IsBag};
ghost use Rattle.pn_bag.specs.Counts.{count_of, Includes, IsMultiset, IsSame};
ghost use Rattle.pn_operations.specs.Multisets.{bag_sum, bag_without, does_include, is_same_bag, total_bag};
ghost use Rattle.pn_operations.specs.Numbers.{number_quotient, number_rest};
ghost use Rattle.pn_values.specs.Order.{value_cmp};
ghost use Rattle.pn_values.specs.declared.value.Value.{Value};

/// A sum is a multiset in which each value has the sum of its counts, and there is none exactly
/// where such a count passes 2^63 - 1.
pub fn sums_by_counts()
    ensures order { (bags : List (List (Value × ℕ))) → IsMultiset value_cmp (total_bag bags) }
    ensures counts { (bags : List (List (Value × ℕ))) (value : Value)
        → count_of value_cmp (total_bag bags) value
        ≡ sum_by (λ bag. count_of value_cmp bag value) bags }
    ensures none { (bags : List (List (Value × ℕ))) → (bag_sum bags ≡ None)
        ↔ ((value : Value) × (9223372036854775807 < count_of value_cmp (total_bag bags) value)) }
{}

/// What is left, and the sum of what was taken away, are the whole; and nothing is left only where
/// that sum is not included.
pub fn differences_by_counts()
    ensures some { (whole : List (Value × ℕ)) (parts : List (List (Value × ℕ)))
        (rest : List (Value × ℕ)) (value : Value) → IsBag value_cmp whole
        → bag_without whole parts ≡ Some rest → count_of value_cmp rest value
        + count_of value_cmp (total_bag parts) value ≡ count_of value_cmp whole value }
    ensures none { (whole : List (Value × ℕ)) (parts : List (List (Value × ℕ)))
        → IsBag value_cmp whole → bag_without whole parts ≡ None
        → Includes value_cmp whole (total_bag parts) → ⊥ }
{}

/// The tests of inclusion and of equality say that no count is greater, and that all are the same.
pub fn inclusion_by_counts()
    ensures includes { (whole part : List (Value × ℕ)) → (does_include whole part ≡ true)
        ↔ Includes value_cmp whole part }
    ensures same { (one other : List (Value × ℕ)) → (is_same_bag one other ≡ true)
        ↔ IsSame value_cmp one other }
{}

/// The quotient times the divisor, and the rest, are the number; the rest is smaller than the
/// divisor, both without their signs, and not on the other side of 0 than the number.
pub fn division_with_rest()
    ensures whole { (one other : ℤ) → int_div one other *ℤ other +ℤ int_rem one other ≡ one }
    ensures below { (one other : ℤ) → 0 < unsigned_abs other
        → unsigned_abs (int_rem one other) < unsigned_abs other }
    ensures above_zero { (one other : ℤ) → int_le (pos 0) one ≡ true
        → int_le (pos 0) (int_rem one other) ≡ true }
    ensures below_zero { (one other : ℤ) → int_le one (pos 0) ≡ true
        → int_le (int_rem one other) (pos 0) ≡ true }
{}

/// The least number by -1 has no quotient, and the rest 0.
pub fn least_by_minus_one()
    ensures quotient { number_quotient (negsuc 9223372036854775807) (negsuc 0) ≡ None }
    ensures rest { number_rest (negsuc 9223372036854775807) (negsuc 0) ≡ Some (pos 0) }
{}
