//! The laws of modes. A function here does nothing; its contract is the law.

ghost use Rattle.std.specs.Prelude.{◌≡◌, ℕ, List};
ghost use Rattle.pn_bag.specs.Bag.{IsBag};
ghost use Rattle.pn_marking.specs.Firing.{IsLeastLarge, IsLeastShort};
ghost use Rattle.pn_marking.specs.Modes.{IsPost, IsPre};
ghost use Rattle.pn_marking.specs.Steps.{IsEnabled, IsStep};
ghost use Rattle.pn_net.specs.Orders.{token_cmp};
ghost use Rattle.pn_net.specs.declared.flat.Flat.{Flat};
ghost use Rattle.pn_net.specs.declared.mode.Mode.{Mode};
ghost use Rattle.pn_net.specs.declared.token.Token.{Token};
ghost use Rattle.pn_sorts.specs.Standing.{IsFaultless};

use pn_bag::laws::same_counts_same_entries;
use pn_eval::laws::a_term_has_one_value;
use pn_net::Token;
use pn_net::laws::tokens_are_ordered;

/// A mode takes one multiset of tokens, and puts one, in declarations without a fault.
pub fn a_mode_takes_one_marking()
    ensures takes { (f : Flat) (mode : Mode) (a b : List (Token × ℕ)) → IsFaultless f.declarations → IsPre f mode a → IsPre f mode b → a ≡ b }
    ensures puts { (f : Flat) (mode : Mode) (a b : List (Token × ℕ)) → IsFaultless f.declarations → IsPost f mode a → IsPost f mode b → a ≡ b }
{
    same_counts_same_entries::<Token>();
    tokens_are_ordered();
    a_term_has_one_value();
}

/// A multiset of modes leads from a marking to one marking, in declarations without a fault; and
/// where it does, no token is missing and no count is too large. The least token that is missing is
/// one, with one need, and so is the least whose count is too large.
pub fn a_step_leads_to_one_marking()
    ensures one { (f : Flat) (m : List (Token × ℕ)) (x : List (Mode × ℕ)) (a b : List (Token × ℕ)) → IsFaultless f.declarations
        → IsBag token_cmp a → IsBag token_cmp b → IsStep f m x a → IsStep f m x b → a ≡ b }
    ensures short { (f : Flat) (m : List (Token × ℕ)) (x : List (Mode × ℕ)) (token : Token) (need has : ℕ) → IsFaultless f.declarations
        → IsLeastShort f m x token need has → IsEnabled f m x → ⊥ }
    ensures large { (f : Flat) (m : List (Token × ℕ)) (x : List (Mode × ℕ)) (token : Token) (new : List (Token × ℕ)) → IsFaultless f.declarations
        → IsBag token_cmp new → IsLeastLarge f m x token → IsStep f m x new → ⊥ }
    ensures one_short { (f : Flat) (m : List (Token × ℕ)) (x : List (Mode × ℕ)) (token other : Token) (need more has had : ℕ) → IsFaultless f.declarations
        → IsLeastShort f m x token need has → IsLeastShort f m x other more had → (token ≡ other) × (need ≡ more) × (has ≡ had) }
    ensures one_large { (f : Flat) (m : List (Token × ℕ)) (x : List (Mode × ℕ)) (token other : Token) → IsFaultless f.declarations
        → IsLeastLarge f m x token → IsLeastLarge f m x other → token ≡ other }
{
    a_mode_takes_one_marking();
    same_counts_same_entries::<Token>();
}
