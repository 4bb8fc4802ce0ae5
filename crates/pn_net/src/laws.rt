//! The laws of the orders of tokens and of modes. Each function does nothing; its contract is the law.

ghost use Rattle.std.specs.Prelude.{◌≡◌, ◌↔◌};
ghost use Rattle.std.specs.Cmp.{IsTotalOrder};
ghost use Rattle.std.specs.declared.cmp.Ordering.TheVariants.{Equal};
ghost use Rattle.pn_net.specs.Orders.{mode_cmp, token_cmp};
ghost use Rattle.pn_net.specs.declared.mode.Mode.{Mode};
ghost use Rattle.pn_net.specs.declared.token.Token.{Token};

/// Any two tokens compare, what comes before is before all that comes after, and only tokens that
/// are the same compare as equal.
pub fn tokens_are_ordered()
    ensures total { IsTotalOrder token_cmp }
    ensures equal { (a b : Token) → (token_cmp a b ≡ Equal) ↔ (a ≡ b) }
{}

/// The same of modes.
pub fn modes_are_ordered()
    ensures total { IsTotalOrder mode_cmp }
    ensures equal { (a b : Mode) → (mode_cmp a b ≡ Equal) ↔ (a ≡ b) }
{}
