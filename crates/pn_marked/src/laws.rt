//! The laws of ground terms. Each function does nothing; its contract is the law.

ghost use Rattle.std.specs.Prelude.{◌≡◌, ℕ, true, List, Some};
ghost use Rattle.pn_bag.specs.Bag.{IsBag};
ghost use Rattle.pn_bag.specs.Counts.{Every};
ghost use Rattle.pn_carriers.specs.Members.{IsMember};
ghost use Rattle.pn_ids.specs.Names.{AreDistinct};
ghost use Rattle.pn_names.specs.Names.{names_of, widths_of};
ghost use Rattle.pn_resolve.specs.Naming.{NamesDeclared};
ghost use Rattle.pn_syntax.specs.declared.declaration.Declaration.{Declaration};
ghost use Rattle.pn_syntax.specs.declared.term.Term.{Term};
ghost use Rattle.pn_values.specs.Kin.{kin_of};
ghost use Rattle.pn_values.specs.Order.{value_cmp};
ghost use Rattle.pn_values.specs.declared.sort.Sort.{Sort};
ghost use Rattle.pn_values.specs.declared.value.Value.{Value};
ghost use Rattle.pn_marked.specs.Ground.{IsBagTermOf, IsTermOf, ground_term, is_sound};
ghost use Rattle.pn_marked.specs.Marked.{bag_term};

/// Where the ids of the declarations are distinct, the ground term of a value of a sort has this value
/// without any variable, and is of the sort's kin. No range in the sort has its start above its end, and
/// each product in it has a part.
pub fn ground_terms_have_their_values()
    ensures { (items : List Declaration) (s : Sort) (v : Value) → AreDistinct (names_of items) → NamesDeclared items s → is_sound s ≡ true
        → IsMember (widths_of items) v s → IsTermOf items (kin_of s) v (ground_term items s v) }
{}

/// The term of a multiset of values of a sort has this multiset without any variable, and is of the
/// multisets over the sort's kin.
pub fn bag_terms_have_their_multisets()
    ensures { (items : List Declaration) (s : Sort) (bag : List (Value × ℕ)) (e : Term) → AreDistinct (names_of items) → NamesDeclared items s → is_sound s ≡ true
        → IsBag value_cmp bag → Every (λ entry. IsMember (widths_of items) entry.0 s) bag → bag_term items s bag ≡ Some e → IsBagTermOf items (kin_of s) bag e }
{}
