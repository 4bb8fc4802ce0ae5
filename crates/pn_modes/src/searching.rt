//! The modes of a transition, one at a time.

ghost use Rattle.std.specs.Prelude.{◌≡◌, ◌<◌, ◌↔◌, ℕ, List, length, None, Some, Err, IfOk, OnOk};
ghost use Rattle.pn_marking.specs.Modes.{IsMode};
ghost use Rattle.pn_modes.specs.Causes.{IsFirstInfinite, IsFirstLarge};
ghost use Rattle.pn_modes.specs.Parts.{AreSearchable};
ghost use Rattle.pn_modes.specs.Searching.{IsAdvanced, IsToCome};
ghost use Rattle.pn_modes.specs.Sizes.{HaveSortsAt};
ghost use Rattle.pn_net.specs.declared.mode.Mode.{Mode};

use crate::causes::{SearchFault, searched_sorts};
use crate::cursor::Cursor;
use crate::fronts::{Fronts, plan_fronts};
use crate::walk;
use pn_net::{Mode, Typed};
use pn_sorts::Sort;
use sqlite_items::Items;
use std::alloc::{AllocError, Global};
use std::marker::Model;

/// The modes of a transition that are still to come. Contracts see the choices of values that are
/// left, of which some are modes.
#[derive(Drop)]
pub struct ModeSearch<'a> {
    alloc: Global,
    fronts: Fronts<'a>,
    cursor: Cursor,
}

impl<'a> Model for ModeSearch<'a> {
    ghost use Rattle.std.specs.Coded.{codes};
    ghost use Rattle.pn_modes.specs.Parts.{carriers_of};
    ghost use Rattle.pn_modes.specs.Search.{to_come};
    ghost use Rattle.pn_modes.specs.Searching.{IsUnderWay, Searching};
    ghost use Rattle.pn_net.specs.contracts.flat.Flat as f;
    ghost use Rattle.pn_values.specs.contracts.value.Value as v;

    ghost Value = { Searching };

    ghost coded = { Prim.hlevel (codes, f.the_row.coded, v.the_row.coded) };

    ghost view = { λ s. record { flat = s.fronts.net.now; transition = s.fronts.transition; choices = to_come (carriers_of s.fronts.net.now s.fronts.sorts) s.cursor } };

    ghost invariant = { λ s. IsUnderWay s.fronts s.cursor };
}

/// The modes of a transition, one at a time, ascending: a choice of a value for each variable in
/// order, where what begins with values of which no mode can come is left out at once. The number of
/// assignments has no limit here.
pub fn search<'a>(
    alloc: Global,
    net: &'a Typed,
    transition: u32,
) -> Result<ModeSearch<'a>, SearchFault>
    requires within { transition < length net.now.transitions }
    ensures all { IfOk result (λ s. (m : Mode) → IsToCome s m ↔ ((m.transition ≡ transition) × IsMode net.now m)) }
    ensures net { IfOk result (λ s. s.flat ≡ net.now) }
    ensures transition { IfOk result (λ s. s.transition ≡ transition) }
    ensures small { OnOk result (IsFirstLarge net.now transition None) }
    ensures infinite { (v : ℕ) → result ≡ Err (SearchFault.InfiniteSort v) → IsFirstInfinite net.now transition (Some v) }
    ensures large { (v : ℕ) → result ≡ Err (SearchFault.SortTooLarge v) → IsFirstInfinite net.now transition None × IsFirstLarge net.now transition (Some v) }
{
    let sorts = searched_sorts(alloc, net, transition)?;
    match begin(alloc, net, transition, sorts) {
        Ok(search) => Ok(search),
        Err(error) => Err(SearchFault::Memory(error)),
    }
}

/// The search at its start, with the sorts of the variables.
fn begin<'a>(
    alloc: Global,
    net: &'a Typed,
    transition: u32,
    sorts: Items<Sort>,
) -> Result<ModeSearch<'a>, AllocError>
    requires within { transition < length net.now.transitions }
    requires sorts { (vars : List ℕ) × HaveSortsAt net.now transition vars sorts }
    requires searchable { AreSearchable net.now sorts }
    ensures all { IfOk result (λ s. (m : Mode) → IsToCome s m ↔ ((m.transition ≡ transition) × IsMode net.now m)) }
    ensures net { IfOk result (λ s. s.flat ≡ net.now) }
    ensures transition { IfOk result (λ s. s.transition ≡ transition) }
{
    let fronts = plan_fronts(alloc, net, transition, sorts, None)?;
    let cursor = walk::start(alloc, &fronts, transition);
    Ok(ModeSearch {
        alloc,
        fronts,
        cursor,
    })
}

impl<'a> ModeSearch<'a> {
    /// The first of the modes that are still to come, which is taken from them; `None` where none is
    /// to come.
    pub fn next(&mut self) -> Result<Option<Mode>, AllocError>
        ensures net { self.new.flat ≡ self.old.flat }
        ensures transition { self.new.transition ≡ self.old.transition }
        ensures next { IfOk result (λ found. IsAdvanced self.old found self.new) }
    {
        walk::next(self.alloc, &self.fronts, &mut self.cursor)
    }
}
