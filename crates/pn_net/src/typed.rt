//! The flat net of a document, with its declarations and with tables by which it is asked.

ghost use Rattle.std.specs.Prelude.{OnOk};
ghost use Rattle.pn_net.specs.Typed.{HasNumbers};

use crate::Flat;
use crate::tables::{Tables, arcs_in, find, make_tables, sort_in, variables_in};
use pn_sorts::{Decls, Sort};
use std::alloc::{AllocError, Global};
use std::marker::Model;

/// A flat net in which no fault stands but that an initial marking may have no value, with its
/// declarations. Contracts see it as the flat net.
///
/// Places, transitions and arcs are numbered by their places in the lists of the flat net, variables
/// among themselves in the order of their declarations.
#[derive(Drop)]
pub struct Typed {
    flat: Flat,
    decls: Decls,
    tables: Tables,
}

impl Model for Typed {
    ghost use Rattle.std.specs.Coded.{codes};
    ghost use Rattle.pn_net.specs.contracts.flat.Flat as f;
    ghost use Rattle.pn_net.specs.declared.flat.Flat.{Flat};
    ghost use Rattle.pn_net.specs.Typed.{TypedKeeps};

    ghost Value = { Flat };

    ghost coded = { Prim.hlevel (codes, f.the_row.coded) };

    ghost view = { λ t. t.flat };

    ghost invariant = { λ t. TypedKeeps t.flat t.decls t.tables.sorts t.tables.rows.items t.tables.ids };
}

/// Places, transitions and arcs are fewer than 2^32.
fn have_numbers(flat: &Flat) -> Result<(), AllocError>
    ensures { OnOk result (HasNumbers flat.now) }
{
    let most = u32::MAX as usize;
    if flat.places.len() > most || flat.transitions.len() > most || flat.arcs.len() > most {
        return Err(AllocError);
    }
    Ok(())
}

impl Typed {
    ghost use Rattle.std.specs.Prelude.{◌≡◌, ◌<◌, length, IfOk, IfSome};
    ghost use Rattle.pn_sorts.specs.Standing.{IsFaultless};
    ghost use Rattle.pn_net.specs.Typed.{AreVariablesAt, IsSortOfPlace, IsTyped, arc_numbers_at, transition_named};

    /// The typed net of a flat net and its declarations (ISO/IEC 15909-1, high-level nets). The time
    /// is linear in the flat net and in the sorts of its places, but for sorting variables.
    ///
    /// Where there are 2^32 places, transitions or arcs or more it answers `AllocError`: there is no
    /// memory for their tables.
    pub fn new(alloc: Global, flat: Flat, decls: Decls) -> Result<Typed, AllocError>
        requires declared { decls ≡ flat.declarations }
        requires typed { IsTyped flat }
        ensures { IfOk result (λ typed. typed ≡ flat) }
    {
        have_numbers(&flat)?;
        let tables = make_tables(alloc, &flat, &decls)?;
        Ok(Typed {
            flat,
            decls,
            tables,
        })
    }

    /// The flat net.
    pub fn flat(&self) -> &Flat
        ensures flat { result.now ≡ self.now }
        ensures typed { IsTyped self.now }
    {
        &self.flat
    }

    /// Its declarations, in which no fault stands.
    pub fn decls(&self) -> &Decls
        ensures declared { result.now ≡ self.now.declarations }
        ensures faultless { IsFaultless self.now.declarations }
    {
        &self.decls
    }

    /// The sort of a place; in a place/transition net the sort of the one value.
    pub fn place_sort(&self, place: u32) -> &Sort
        requires { place < length self.now.places }
        ensures { IsSortOfPlace self.now place result.now }
    {
        sort_in(&self.tables, place)
    }

    /// The variables of a transition: those in its condition and in the inscriptions of all its
    /// arcs, ascending.
    pub fn variables(&self, transition: u32) -> &[u32]
        requires { transition < length self.now.transitions }
        ensures { AreVariablesAt self.now transition result.now }
    {
        variables_in(&self.tables, transition)
    }

    /// The numbers of the arcs from a transition and to it, ascending.
    pub fn arcs_of(&self, transition: u32) -> &[u32]
        requires { transition < length self.now.transitions }
        ensures { result.now ≡ arc_numbers_at self.now transition }
    {
        arcs_in(&self.tables, transition)
    }

    /// The number of the transition of this id, if there is one.
    pub fn find_transition(&self, id: &str) -> Option<u32>
        ensures found { result ≡ transition_named self.now id.now }
        ensures within { IfSome result (λ t. t < length self.now.transitions) }
    {
        find(&self.tables, id)
    }
}
