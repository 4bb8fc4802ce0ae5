//! The modes of a transition, all at once.

ghost use Rattle.std.specs.Prelude.{◌≡◌, ◌<◌, ℕ, List, length, None, Some, Err, IfOk, OnOk, option_copied};
ghost use Rattle.pn_modes.specs.Causes.{HasFewAssignments, HasManyAssignments, IsFirstInfinite};
ghost use Rattle.pn_modes.specs.Listed.{AreModesOf};
ghost use Rattle.pn_modes.specs.Parts.{AreSearchable};
ghost use Rattle.pn_modes.specs.Sizes.{HaveSortsAt};

use crate::causes::{ModesFault, listed_sorts};
use crate::fronts::plan_fronts;
use crate::walk::collect;
use pn_net::{Marking, Mode, Typed};
use pn_sorts::Sort;
use sqlite_items::Items;
use std::alloc::{AllocError, Global};

/// All modes of a transition, ascending (ISO/IEC 15909-1, high-level nets). What begins with values
/// of which no mode can come is left out at once.
pub fn modes_of(alloc: Global, net: &Typed, transition: u32) -> Result<Vec<Mode>, ModesFault>
    requires within { transition < length net.now.transitions }
    ensures modes { IfOk result (λ modes. AreModesOf net.now transition None modes.items) }
    ensures few { OnOk result (HasFewAssignments net.now transition) }
    ensures infinite { (v : ℕ) → result ≡ Err (ModesFault.InfiniteSort v) → IsFirstInfinite net.now transition (Some v) }
    ensures many { (n : ℕ) → result ≡ Err (ModesFault.TooManyAssignments n) → HasManyAssignments net.now transition n }
{
    listed(alloc, net, transition, None)
}

/// The modes of a transition that are enabled at a marking, ascending (ISO/IEC 15909-1, enabling):
/// those that take no more than it has. What begins with values that take more is left out at once.
pub fn enabled(
    alloc: Global,
    net: &Typed,
    transition: u32,
    marking: &Marking,
) -> Result<Vec<Mode>, ModesFault>
    requires within { transition < length net.now.transitions }
    ensures modes { IfOk result (λ modes. AreModesOf net.now transition (Some marking.now) modes.items) }
    ensures few { OnOk result (HasFewAssignments net.now transition) }
    ensures infinite { (v : ℕ) → result ≡ Err (ModesFault.InfiniteSort v) → IsFirstInfinite net.now transition (Some v) }
    ensures many { (n : ℕ) → result ≡ Err (ModesFault.TooManyAssignments n) → HasManyAssignments net.now transition n }
{
    listed(alloc, net, transition, Some(marking))
}

/// All modes of a transition, those alone that are enabled where a marking is given.
fn listed(
    alloc: Global,
    net: &Typed,
    transition: u32,
    marking: Option<&Marking>,
) -> Result<Vec<Mode>, ModesFault>
    requires within { transition < length net.now.transitions }
    ensures modes { IfOk result (λ modes. AreModesOf net.now transition (option_copied marking.entry) modes.items) }
    ensures few { OnOk result (HasFewAssignments net.now transition) }
    ensures infinite { (v : ℕ) → result ≡ Err (ModesFault.InfiniteSort v) → IsFirstInfinite net.now transition (Some v) }
    ensures many { (n : ℕ) → result ≡ Err (ModesFault.TooManyAssignments n) → HasManyAssignments net.now transition n }
{
    match listed_sorts(alloc, net, transition)? {
        Some(sorts) => match collected(alloc, net, transition, sorts, marking) {
            Ok(modes) => Ok(modes),
            Err(error) => Err(ModesFault::Memory(error)),
        },
        None => Ok(Vec::new(alloc)),
    }
}

/// All modes of a transition whose variables have these sorts.
fn collected(
    alloc: Global,
    net: &Typed,
    transition: u32,
    sorts: Items<Sort>,
    marking: Option<&Marking>,
) -> Result<Vec<Mode>, AllocError>
    requires within { transition < length net.now.transitions }
    requires sorts { (vars : List ℕ) × HaveSortsAt net.now transition vars sorts }
    requires searchable { AreSearchable net.now sorts }
    ensures { IfOk result (λ modes. AreModesOf net.now transition (option_copied marking.entry) modes.items) }
{
    let fronts = plan_fronts(alloc, net, transition, sorts, marking)?;
    collect(alloc, &fronts, transition)
}
