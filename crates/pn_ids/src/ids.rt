//! Ids, seen as the list of them with what they name.

ghost use Rattle.std.specs.Prelude.{◌≡◌, ◌∷◌, ◌++◌, [], is_none, map, not, IfOk, OnErr, IsTrue};
ghost use Rattle.pn_ids.specs.Names.{named_in, NotesAll};

use crate::HasId;
use crate::map::{entry_at, put_new};
use indexmap::IndexMap;
use std::alloc::{AllocError, Global};
use std::marker::Model;

/// What each id names. Of an id that is given twice the first giver is kept.
#[derive(Drop)]
pub struct Ids<A: Drop> {
    index: IndexMap<String, A>,
}

impl<A: Drop> Model for Ids<A> {
    ghost use Rattle.std.specs.Prelude.{List, ℕ};
    ghost use Rattle.pn_ids.specs.Entries.{entry_names};

    ghost Value = { List (List ℕ × A) };

    ghost view = { λ i. entry_names i.index };
}

impl<A: Copy + Drop> Ids<A> {
    /// No ids. It takes no memory.
    pub fn new(alloc: Global) -> Ids<A>
        ensures { result ≡ [] }
    {
        Ids {
            index: IndexMap::new(alloc),
        }
    }

    /// What this id names, if it names something. It takes no memory.
    pub fn find(&self, id: &str) -> Option<A>
        ensures { result ≡ named_in self.now id.now }
    {
        entry_at(&self.index, id)
    }

    /// Notes what an id names, where it is new; says whether it is. Nothing changes otherwise, and
    /// nothing after an error.
    pub fn note(&mut self, alloc: Global, id: &str, named: A) -> Result<bool, AllocError>
        ensures fresh { IfOk result (λ b. b ≡ is_none (named_in self.old id.now)) }
        ensures noted { IfOk result (λ b. IsTrue b → self.new ≡ self.old ++ (id.now, named) ∷ []) }
        ensures kept { IfOk result (λ b. IsTrue (not b) → self.new ≡ self.old) }
        ensures err { OnErr result (self.new ≡ self.old) }
        ensures notes { IfOk result (NotesAll self.old self.new ((id.now, named) ∷ [])) }
    {
        put_new(alloc, &mut self.index, id, named)
    }

    /// Notes the ids of all items, which name the same, until one is not new; says whether all are.
    pub fn note_all<T: HasId>(
        &mut self,
        alloc: Global,
        items: &[T],
        named: A,
    ) -> Result<bool, AllocError>
        ensures { IfOk result (NotesAll self.old self.new (map (λ x. (T.id_of x, named)) items.now)) }
    {
        for item in items {
            if !self.note(alloc, item.id(), named)? {
                return Ok(false);
            }
        }
        Ok(true)
    }
}
