ghost use Rattle.std.specs.Prelude.{◌≡◌, ◌↔◌, IfOk, IsTrue};

use pn_values::Sort;
use std::alloc::{AllocError, Global};

/// The sort of a term: a basis sort, or the multisets over one.
#[derive(Debug, Drop)]
pub enum TermSort {
    Basis(Sort),
    Bag(Sort),
}

impl TermSort {
    /// The same sort, in memory of its own.
    pub fn copy(&self, alloc: Global) -> Result<TermSort, AllocError>
        ensures { IfOk result (λ sort. sort ≡ self.now) }
    {
        match self {
            TermSort::Basis(sort) => Ok(TermSort::Basis(sort.copy(alloc)?)),
            TermSort::Bag(sort) => Ok(TermSort::Bag(sort.copy(alloc)?)),
        }
    }

    /// Whether the two sorts are the same.
    pub fn is_same(&self, other: &TermSort) -> bool
        ensures { IsTrue result ↔ (self.now ≡ other.now) }
    {
        match (self, other) {
            (TermSort::Basis(one), TermSort::Basis(two)) => one.is_same(two),
            (TermSort::Bag(one), TermSort::Bag(two)) => one.is_same(two),
            _ => false,
        }
    }
}
