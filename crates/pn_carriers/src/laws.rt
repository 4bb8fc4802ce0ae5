//! Laws of carriers. Each function does nothing; its contract is the law.

ghost use Rattle.std.specs.Prelude.{◌≡◌, ◌↔◌, ℕ, List, true, Some, Contains, slice_get};
ghost use Rattle.std.specs.Ordering.{nat_cmp};
ghost use Rattle.pn_values.specs.Kin.{kin_of};
ghost use Rattle.pn_values.specs.Order.{value_cmp};
ghost use Rattle.pn_values.specs.declared.sort.Sort.{Sort};
ghost use Rattle.pn_values.specs.declared.value.Value.{Value};
ghost use Rattle.pn_carriers.specs.Carriers.{is_finite, carrier};
ghost use Rattle.pn_carriers.specs.Members.{IsMember};

/// The values of a finite sort are exactly those in its carrier.
pub fn members_are_in_the_carrier()
    ensures { (widths : List ℕ) (sort : Sort) → is_finite sort ≡ true
        → (v : Value) → IsMember widths v sort ↔ Contains (carrier widths sort) v }
{}

/// No value stands twice in a carrier. So a place and its value determine each other: `nth` and
/// `ordinal` are inverse to each other.
pub fn values_stand_once()
    ensures { (widths : List ℕ) (sort : Sort) (v : Value) (i j : ℕ)
        → slice_get (carrier widths sort) i ≡ Some v → slice_get (carrier widths sort) j ≡ Some v → i ≡ j }
{}

/// The order of values on one sort is that of their places.
pub fn values_stand_in_order()
    ensures { (widths : List ℕ) (sort : Sort) (u v : Value) (i j : ℕ)
        → slice_get (carrier widths sort) i ≡ Some u → slice_get (carrier widths sort) j ≡ Some v
        → value_cmp u v ≡ nat_cmp i j }
{}

/// A finite sort is its own kin, so a term of a finite sort has the very sort that is declared.
pub fn finite_is_its_own_kin()
    ensures { (sort : Sort) → is_finite sort ≡ true → kin_of sort ≡ sort }
{}
