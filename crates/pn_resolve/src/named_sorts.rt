//! The sorts of the names of declarations, each of which is kept once.

ghost use Rattle.std.specs.Prelude.{◌≡◌, ◌<◌, ◌++◌, ◌∷◌, [], None, length, slice_set, slice_index_or, IfOk, OnOk, OnErr};
ghost use Rattle.std.specs.Option.{option_copied};
ghost use Rattle.pn_resolve.specs.NamedSorts.{IsKept};
ghost use Rattle.pn_resolve.specs.Tables.{sort_in};

use pn_values::Sort;
use std::alloc::{AllocError, Global};
use std::marker::Model;

/// For each declaration the sort of its name, where that is known. A name of a name has the sort
/// of that name, which isn't copied.
#[derive(Debug, Drop)]
pub(crate) struct NamedSorts {
    kept: Vec<Sort>,
    /// For each declaration where its sort is kept.
    places: Vec<Option<usize>>,
}

impl Model for NamedSorts {
    ghost use Rattle.std.specs.Coded.{codes};
    ghost use Rattle.std.specs.Prelude.{List, Option};
    ghost use Rattle.pn_values.specs.contracts.sort.Sort as sort;
    ghost use Rattle.pn_values.specs.declared.sort.Sort.{Sort};
    ghost use Rattle.pn_resolve.specs.NamedSorts.{sorts_found, AreFound};

    ghost Value = { List (Option Sort) };

    ghost coded = { Prim.hlevel (codes, sort.the_row.coded) };

    ghost view = { λ sorts. sorts_found sorts.kept.items sorts.places.items };

    ghost invariant = { λ sorts. AreFound sorts.kept.items sorts.places.items };
}

impl NamedSorts {
    /// The sorts of no declaration. It takes no memory.
    pub(crate) fn new(alloc: Global) -> NamedSorts
        ensures { result ≡ [] }
    {
        NamedSorts {
            kept: Vec::new(alloc),
            places: Vec::new(alloc),
        }
    }

    /// One declaration more, which has this sort.
    pub(crate) fn push(&mut self, sort: Option<Sort>) -> Result<(), AllocError>
        ensures { OnOk result (self.new ≡ self.old ++ sort ∷ []) }
    {
        let place = keep(&mut self.kept, sort)?;
        self.places.push(place)?;
        Ok(())
    }

    /// Gives a declaration this sort.
    pub(crate) fn set(&mut self, place: usize, sort: Option<Sort>) -> Result<(), AllocError>
        requires { place < length self.old }
        ensures { OnOk result (self.new ≡ slice_set self.old place sort) }
    {
        let found = keep(&mut self.kept, sort)?;
        self.places[place] = found;
        Ok(())
    }

    /// Gives a declaration the sort of another.
    pub(crate) fn share(&mut self, place: usize, other: u32)
        requires { place < length self.old }
        ensures { self.new ≡ slice_set self.old place (sort_in self.old other) }
    {
        self.places[place] = place_at(&self.places, other);
    }

    /// Takes the sort of a declaration away.
    pub(crate) fn clear(&mut self, place: usize)
        requires { place < length self.old }
        ensures { self.new ≡ slice_set self.old place None }
    {
        self.places[place] = None;
    }

    /// The sort of a declaration.
    pub(crate) fn get(&self, place: u32) -> Option<&Sort>
        ensures { option_copied result ≡ sort_in self.now place }
    {
        match place_at(&self.places, place) {
            Some(found) => self.kept.get(found),
            None => None,
        }
    }
}

/// Where the sort of a declaration is kept.
fn place_at(places: &[Option<usize>], place: u32) -> Option<usize>
    ensures { result ≡ slice_index_or places.now place None }
{
    let place = place as usize;
    if place < places.len() {
        places[place]
    } else {
        None
    }
}

/// Keeps a sort, and tells where.
fn keep(kept: &mut Vec<Sort>, sort: Option<Sort>) -> Result<Option<usize>, AllocError>
    ensures ok { IfOk result (λ place. IsKept kept.old.items kept.new.items sort place) }
    ensures err { OnErr result (kept.new.items ≡ kept.old.items) }
{
    match sort {
        None => Ok(None),
        Some(sort) => {
            let place = kept.len();
            kept.push(sort)?;
            Ok(Some(place))
        }
    }
}
