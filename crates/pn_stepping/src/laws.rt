//! The laws of steps by words. A function here does nothing; its contract is the law.

ghost use Rattle.std.specs.Prelude.{◌≡◌, ℕ, List};
ghost use Rattle.pn_net.specs.declared.flat.Flat.{Flat};
ghost use Rattle.pn_net.specs.declared.token.Token.{Token};
ghost use Rattle.pn_sorts.specs.Standing.{IsFaultless};
ghost use Rattle.pn_stepping.specs.Refusing.{IsToldReason, IsRefusedStep};
ghost use Rattle.pn_stepping.specs.Stepping.{LeadTo};
ghost use Rattle.pn_stepping.specs.declared.told.StepRefusal.{StepRefusal};

/// What is answered for a net and words is one: one marking or one refusal, and not both.
pub fn one_answer()
    ensures marking { (f : Flat) (words : List (List ℕ)) → IsFaultless f.declarations → (x y : List (Token × ℕ)) → LeadTo f words x → LeadTo f words y → x ≡ y }
    ensures refusal { (f : Flat) (words : List (List ℕ)) → IsFaultless f.declarations → (x y : StepRefusal) → IsToldReason x → IsToldReason y → IsRefusedStep f words x → IsRefusedStep f words y → x ≡ y }
    ensures either { (f : Flat) (words : List (List ℕ)) → IsFaultless f.declarations → (new : List (Token × ℕ)) (x : StepRefusal) → IsToldReason x → LeadTo f words new → IsRefusedStep f words x → ⊥ }
{}
