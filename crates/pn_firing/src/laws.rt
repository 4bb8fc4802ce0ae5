//! The laws of what is listed. A function here does nothing; its contract is the law.

ghost use Rattle.std.specs.Prelude.{◌≡◌, ℕ, List};
ghost use Rattle.std.specs.List.{Contains};
ghost use Rattle.pn_marking.specs.Modes.{IsAssigned};
ghost use Rattle.pn_net.specs.declared.flat.Flat.{Flat};
ghost use Rattle.pn_net.specs.declared.mode.Mode.{Mode};
ghost use Rattle.pn_sorts.specs.Standing.{IsFaultless};
ghost use Rattle.pn_firing.specs.Lines.{HasModeLines};
ghost use Rattle.pn_firing.specs.Listing.{AreListed, IsReason, IsUnlisted};
ghost use Rattle.pn_firing.specs.declared.listing.ListFault.{ListFault};

/// What is answered for a net and an id is one: one list, with one text, or one fault, and not both.
pub fn one_answer()
    ensures list { (f : Flat) (id : List ℕ) (xs ys : List Mode) → IsFaultless f.declarations → AreListed f id xs → AreListed f id ys → xs ≡ ys }
    ensures text { (f : Flat) (modes : List Mode) (x y : List ℕ) → HasModeLines f modes x → HasModeLines f modes y → x ≡ y }
    ensures fault { (f : Flat) (id : List ℕ) (x y : ListFault) → IsReason x → IsReason y → IsUnlisted f id x → IsUnlisted f id y → x ≡ y }
    ensures either { (f : Flat) (id : List ℕ) (modes : List Mode) (x : ListFault) → IsReason x → AreListed f id modes → IsUnlisted f id x → ⊥ }
{}

/// What is listed can be put: each mode has values of its variables' sorts, and a text.
pub fn listed_modes_have_texts()
    ensures assigned { (f : Flat) (id : List ℕ) (modes : List Mode) → AreListed f id modes → (m : Mode) → Contains modes m → (vars : List ℕ) × IsAssigned f m vars }
    ensures lines { (f : Flat) (id : List ℕ) (modes : List Mode) → AreListed f id modes → (text : List ℕ) × HasModeLines f modes text }
{}
