//! Integers from -2^63 to 2^63 - 1.

ghost use Rattle.std.specs.Prelude.{◌≡◌};
ghost use Rattle.std.specs.Ordering.{int_cmp, is_lt, is_le, is_gt, is_ge};
ghost use Rattle.pn_operations.specs.Numbers.{number_sum, number_difference, number_product, number_quotient, number_rest};

/// `addition`: `None` outside the range.
pub fn sum(one: &i64, other: &i64) -> Option<i64>
    ensures { result ≡ number_sum one.now other.now }
{
    one.checked_add(*other)
}

/// `subtraction`: `None` outside the range.
pub fn difference(one: &i64, other: &i64) -> Option<i64>
    ensures { result ≡ number_difference one.now other.now }
{
    one.checked_sub(*other)
}

/// `mult`: `None` outside the range.
pub fn product(one: &i64, other: &i64) -> Option<i64>
    ensures { result ≡ number_product one.now other.now }
{
    one.checked_mul(*other)
}

/// `div`, towards zero: `None` by 0, and for -2^63 by -1.
pub fn quotient(one: &i64, other: &i64) -> Option<i64>
    ensures { result ≡ number_quotient one.now other.now }
{
    one.checked_div(*other)
}

/// `mod`, with the sign of the first: `None` by 0. Of -2^63 by -1 it is 0.
pub fn rest(one: &i64, other: &i64) -> Option<i64>
    ensures { result ≡ number_rest one.now other.now }
{
    if *other == -1 {
        return Some(0);
    }
    one.checked_rem(*other)
}

/// `lt`
pub fn is_less(one: &i64, other: &i64) -> bool
    ensures { result ≡ is_lt (int_cmp one.now other.now) }
{
    one.cmp(other).is_lt()
}

/// `leq`
pub fn is_at_most(one: &i64, other: &i64) -> bool
    ensures { result ≡ is_le (int_cmp one.now other.now) }
{
    one.cmp(other).is_le()
}

/// `gt`
pub fn is_greater(one: &i64, other: &i64) -> bool
    ensures { result ≡ is_gt (int_cmp one.now other.now) }
{
    one.cmp(other).is_gt()
}

/// `geq`
pub fn is_at_least(one: &i64, other: &i64) -> bool
    ensures { result ≡ is_ge (int_cmp one.now other.now) }
{
    one.cmp(other).is_ge()
}
