ghost use Rattle.std.specs.Prelude.{◌≡◌, IfOk, refl};
ghost use Rattle.std.specs.Cmp.{eq_by_cmp_equiv, partial_equiv_from_equiv, partial_order_from_agreeing_total};
ghost use Rattle.std.specs.Ordering.{as_partial_cmp, eq_by_cmp};
ghost use Rattle.pn_net.specs.Orders.{token_cmp, tokens_total};

use pn_bag::Bag;
use pn_values::Value;
use std::alloc::{AllocError, Global};
use std::cmp::Ordering;

/// A token: a value on the place of this number (ISO/IEC 15909-1, markings). Tokens are ordered by
/// place, then by value.
#[derive(Debug, Drop)]
pub struct Token {
    pub place: u32,
    pub value: Value,
}

/// A marking: a finite multiset of tokens.
pub type Marking = Bag<Token>;

impl Token {
    /// The same token, in memory of its own.
    pub fn copy(&self, alloc: Global) -> Result<Token, AllocError>
        ensures { IfOk result (λ token. token ≡ self.now) }
    {
        Ok(Token {
            place: self.place,
            value: self.value.copy(alloc)?,
        })
    }
}

fn compare(one: &Token, two: &Token) -> Ordering
    ensures { result ≡ token_cmp one.now two.now }
{
    one.place.cmp(&two.place).then(one.value.cmp(&two.value))
}

impl PartialEq for Token {
    ghost eq = { eq_by_cmp token_cmp };

    ghost laws = { partial_equiv_from_equiv (eq_by_cmp_equiv tokens_total) };

    fn eq(&self, other: &Token) -> bool {
        compare(self, other).is_eq()
    }
}

impl Eq for Token {
    ghost laws = { eq_by_cmp_equiv tokens_total };
}

impl PartialOrd for Token {
    ghost partial_cmp = { as_partial_cmp token_cmp };

    ghost laws = { partial_order_from_agreeing_total token_cmp tokens_total (λ _ _. refl) (λ _ _. refl) };

    fn partial_cmp(&self, other: &Token) -> Option<Ordering> {
        Some(compare(self, other))
    }
}

impl Ord for Token {
    ghost cmp = { token_cmp };

    ghost total = { tokens_total };

    ghost matches_partial_cmp = { λ _ _. refl };

    ghost matches_eq = { λ _ _. refl };

    fn cmp(&self, other: &Token) -> Ordering {
        compare(self, other)
    }
}
