ghost use Rattle.std.specs.Prelude.{◌≡◌, IfOk};

use crate::label::{copy_number_label, copy_sort_label, copy_term_label};
use crate::{Head, Label};
use pn_syntax::{SortExpr, Term};
use pn_text::Text;
use sqlite_items::Boxed;
use std::alloc::{AllocError, Global};

/// A place. In a place/transition net `marking` is its initial marking, where it has one; in the
/// other kinds `sort` is its type, and `hl_marking` its initial marking.
#[derive(Debug, Drop)]
pub struct Place {
    pub id: Text,
    pub head: Head,
    pub marking: Option<Boxed<Label<u64>>>,
    pub sort: Option<Boxed<Label<SortExpr>>>,
    pub hl_marking: Option<Boxed<Label<Term>>>,
    /// The offset of the start tag of its element.
    pub at: u64,
}

/// A transition. Place/transition nets have no conditions.
#[derive(Debug, Drop)]
pub struct Transition {
    pub id: Text,
    pub head: Head,
    pub condition: Option<Boxed<Label<Term>>>,
    /// The offset of the start tag of its element.
    pub at: u64,
}

/// An arc. `source` and `target` are ids of nodes. In a place/transition net `weight` is its
/// inscription, where it has one; in the other kinds `inscription` is it.
#[derive(Debug, Drop)]
pub struct Arc {
    pub id: Text,
    pub head: Head,
    pub source: Text,
    pub target: Text,
    pub weight: Option<Boxed<Label<u64>>>,
    pub inscription: Option<Boxed<Label<Term>>>,
    /// The offset of the start tag of its element.
    pub at: u64,
}

/// A reference to a place or to a transition, or to another reference of the same side, by the id
/// `refers`.
#[derive(Debug, Drop)]
pub struct Reference {
    pub id: Text,
    pub head: Head,
    pub refers: Text,
    /// The offset of the start tag of its element.
    pub at: u64,
}

impl Place {
    /// The same place, in memory of its own.
    pub fn copy(&self, alloc: Global) -> Result<Place, AllocError>
        ensures { IfOk result (λ place. place ≡ self.now) }
    {
        Ok(Place {
            id: self.id.copy(alloc)?,
            head: self.head.copy(alloc)?,
            marking: copy_number_label(alloc, &self.marking)?,
            sort: copy_sort_label(alloc, &self.sort)?,
            hl_marking: copy_term_label(alloc, &self.hl_marking)?,
            at: self.at,
        })
    }
}

impl Transition {
    /// The same transition, in memory of its own.
    pub fn copy(&self, alloc: Global) -> Result<Transition, AllocError>
        ensures { IfOk result (λ transition. transition ≡ self.now) }
    {
        Ok(Transition {
            id: self.id.copy(alloc)?,
            head: self.head.copy(alloc)?,
            condition: copy_term_label(alloc, &self.condition)?,
            at: self.at,
        })
    }
}

impl Arc {
    /// The same arc, in memory of its own.
    pub fn copy(&self, alloc: Global) -> Result<Arc, AllocError>
        ensures { IfOk result (λ arc. arc ≡ self.now) }
    {
        Ok(Arc {
            id: self.id.copy(alloc)?,
            head: self.head.copy(alloc)?,
            source: self.source.copy(alloc)?,
            target: self.target.copy(alloc)?,
            weight: copy_number_label(alloc, &self.weight)?,
            inscription: copy_term_label(alloc, &self.inscription)?,
            at: self.at,
        })
    }
}
