//! The keys of a bag with their counts, one after another.

ghost use Rattle.std.specs.Prelude.{◌≡◌};
ghost use Rattle.std.specs.Iterator.{YieldsFirstBy, item_count};

use std::marker::Model;

/// What is left of a bag's keys with their counts, ascending.
#[derive(Debug, Drop)]
pub struct BagIter<'a, K> {
    rest: &'a [(K, u64)],
}

impl<'a, K> Model for BagIter<'a, K> {
    ghost use Rattle.std.specs.Prelude.{ℕ, List};

    ghost Value = { List (K × ℕ) };

    ghost view = { λ items. items.rest.now };
}

impl<'a, K> BagIter<'a, K> {
    pub(crate) fn new(rest: &'a [(K, u64)]) -> BagIter<'a, K>
        ensures { result ≡ rest.entry.now }
    {
        BagIter { rest }
    }
}

impl<'a, K> Iterator for BagIter<'a, K> {
    type Item = (&'a K, u64);

    ghost next_gives = { YieldsFirstBy (λ item. (item.0.now, item.1)) (λ rest. rest) };

    ghost remaining = { item_count (λ rest. rest) };

    fn next(&mut self) -> Option<(&'a K, u64)> {
        let (first, rest) = self.rest.split_first()?;
        self.rest = rest;
        Some((&first.0, first.1))
    }
}
