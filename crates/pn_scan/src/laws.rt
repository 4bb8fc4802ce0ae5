//! What holds of documents and of the machine that reads them.

ghost use Rattle.std.specs.Prelude.{◌≡◌, ℕ, List, [], ◌∷◌, ◌++◌, length, Some, None};
ghost use Rattle.pn_tree.specs.declared.element.Element.{Element};
ghost use Rattle.pn_markup.specs.Document.{IsDocument, IsFront};
ghost use Rattle.pn_scan.specs.State.{State, at_start, at_end};
ghost use Rattle.pn_scan.specs.NextState.{next_state};
ghost use Rattle.pn_utf8.specs.Characters.{open_behind};
ghost use Rattle.pn_scan.specs.Fed.{Fed};

/// A text spells one tree.
pub fn a_text_spells_one_tree()
    ensures { (t u : Element) (b : List ℕ) → IsDocument t b → IsDocument u b → t ≡ u }
{}

/// The machine starts with no bytes, and a byte that it takes carries on what the bytes so
/// far mean.
pub fn bytes_keep_the_meaning()
    ensures start { Fed at_start [] [] }
    ensures more { (s : State) (p b : List ℕ) (x : ℕ) (o : List ℕ) (t : State) → Fed s p b
        → open_behind p x ≡ Some o → next_state s (length b) x ≡ Some t → Fed t o (b ++ (x ∷ [])) }
{}

/// What the machine has taken begins a document, and where it refuses a byte no document goes on.
pub fn refusals_are_breaks()
    ensures front { (s : State) (p b : List ℕ) → Fed s p b → IsFront b }
    ensures character { (s : State) (p b : List ℕ) (x : ℕ) → Fed s p b → open_behind p x ≡ None
        → IsFront (b ++ (x ∷ [])) → ⊥ }
    ensures markup { (s : State) (p b : List ℕ) (x : ℕ) → Fed s p b → next_state s (length b) x ≡ None
        → IsFront (b ++ (x ∷ [])) → ⊥ }
{}

/// What the machine has taken is a document exactly behind the root, and then of that root.
pub fn ends_are_documents()
    ensures document { (s : State) (p b : List ℕ) (t : Element) → Fed s p b → IsDocument t b
        → (s ≡ at_end t) × (p ≡ []) }
    ensures end { (t : Element) (b : List ℕ) → Fed (at_end t) [] b → IsDocument t b }
{}
