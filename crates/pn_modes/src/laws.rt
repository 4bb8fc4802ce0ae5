//! The laws of the search. A function here does nothing; its contract is the law.

ghost use Rattle.std.specs.Prelude.{◌≡◌, ℕ, List, Option, Some, map};
ghost use Rattle.std.specs.Cmp.Lexicographic.{slice_cmp};
ghost use Rattle.std.specs.List.Sorted.{IsStrictlySortedBy};
ghost use Rattle.pn_carriers.specs.Carriers.{carrier, choices};
ghost use Rattle.pn_modes.specs.Causes.{HasAssignments, HasFewAssignments, HasManyAssignments, IsFirstInfinite, IsFirstLarge};
ghost use Rattle.pn_net.specs.declared.flat.Flat.{Flat};
ghost use Rattle.pn_values.specs.Order.{value_cmp};
ghost use Rattle.pn_values.specs.declared.sort.Sort.{Sort};

/// The choices of values of sorts ascend as lists of values.
pub fn choices_ascend()
    ensures { (widths : List ℕ) (sorts : List Sort) → IsStrictlySortedBy (slice_cmp value_cmp) (choices (map (carrier widths) sorts)) }
{}

/// Why the modes of a transition are not searched or not listed is told in one way: the first
/// variable that is told is one, a product is one, a transition has not both an infinite sort and a
/// product, and few assignments are not many.
pub fn one_cause()
    ensures infinite { (f : Flat) (t : ℕ) (v w : Option ℕ) → IsFirstInfinite f t v → IsFirstInfinite f t w → v ≡ w }
    ensures large { (f : Flat) (t : ℕ) (v w : Option ℕ) → IsFirstLarge f t v → IsFirstLarge f t w → v ≡ w }
    ensures product { (f : Flat) (t n m : ℕ) → HasAssignments f t n → HasAssignments f t m → n ≡ m }
    ensures finite { (f : Flat) (t n v : ℕ) → HasAssignments f t n → IsFirstInfinite f t (Some v) → ⊥ }
    ensures told { (f : Flat) (t n m : ℕ) → HasManyAssignments f t n → HasManyAssignments f t m → n ≡ m }
    ensures few { (f : Flat) (t n : ℕ) → HasFewAssignments f t → HasManyAssignments f t n → ⊥ }
{}
