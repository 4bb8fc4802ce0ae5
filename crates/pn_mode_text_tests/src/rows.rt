//! Worked examples of texts of tokens, modes and words, by their definitions. Each function does
//! nothing; its contract is the example.

ghost use Rattle.std.specs.Prelude.{◌≡◌, ◌∷◌, [], ◌++◌, ℕ, List, codes};
ghost use Rattle.pn_mode_text.specs.Texts.{mode_text, with_commas};
ghost use Rattle.pn_mode_text.specs.Words.{IsCountedText};

/// A transition without variables has its brackets alone.
pub fn transition_without_variables_has_its_text()
    ensures { mode_text [] (codes "t") [] [] ≡ codes "t[]" }
{}

/// The id of a transition is escaped.
pub fn id_of_a_transition_is_escaped()
    ensures { mode_text [] (codes "a b") [] [] ≡ codes "a%20b[]" }
{}

/// Commas stand between texts only.
pub fn commas_stand_between()
    ensures none { with_commas [] ≡ [] }
    ensures one { with_commas (codes "1" ∷ []) ≡ codes "1" }
    ensures three { with_commas (codes "1" ∷ codes "" ∷ codes "3" ∷ []) ≡ codes "1,,3" }
{}

/// A text tells itself once, with and without the number.
pub fn once_is_told_in_two_ways()
    ensures alone { IsCountedText 1 (codes "t[]") (codes "t[]") }
    ensures counted { IsCountedText 1 (codes "t[]") (codes "1*t[]") }
{}
