//! Laws of names. Each function does nothing; what it ensures is the law.

ghost use Rattle.std.specs.Prelude.{◌≡◌, ℕ, List, Some, length, slice_get};
ghost use Rattle.std.specs.Option.{option_and_then};
ghost use Rattle.pn_syntax.specs.declared.declaration.Declaration.{Declaration};
ghost use Rattle.pn_names.specs.declared.Declared.{Declared};
ghost use Rattle.pn_ids.specs.Names.{AreDistinct};
ghost use Rattle.pn_names.specs.Names.{names_of, meaning_of, variables_of, variable_at, variable_places_of, Declares};

/// What an id names is declared, by that id.
pub fn named_is_declared()
    ensures { (items : List Declaration) (id : List ℕ) (m : Declared) → meaning_of items id ≡ Some m → Declares items id m }
{}

/// Where no id is given twice, what is declared by an id is what it names.
pub fn declared_is_named()
    ensures { (items : List Declaration) → AreDistinct (names_of items) → (id : List ℕ) (m : Declared) → Declares items id m → meaning_of items id ≡ Some m }
{}

/// The variable of each number is the one that the declaration at its place declares.
pub fn variables_have_their_places()
    ensures count { (items : List Declaration) → length (variable_places_of items) ≡ length (variables_of items) }
    ensures declared { (items : List Declaration) (v : ℕ) → slice_get (variables_of items) v ≡ option_and_then (variable_at items) (slice_get (variable_places_of items) v) }
{}
