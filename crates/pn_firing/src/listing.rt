//! The modes of a transition that are enabled at the initial marking.

ghost use Rattle.std.specs.Prelude.{◌<◌, length, IfErr, IfOk, Some};
ghost use Rattle.pn_modes.specs.Causes.{IsFirstInfinite};
ghost use Rattle.pn_firing.specs.Listing.{IsIdOf, AreListed, AreListedAt, IsUnlisted, IsUnlistedAt};

use pn_checks::Checked;
use pn_modes::{ModesFault, enabled};
use pn_net::{Mode, Typed};
use pn_text::Text;
use std::alloc::{AllocError, Global};

/// Why the modes of a transition are not listed.
#[derive(Debug, Drop)]
pub enum ListFault {
    Memory(AllocError),
    /// No transition has the id.
    UnknownTransition,
    /// The id of the transition's first variable that has an infinite sort.
    InfiniteSort(Text),
    /// All sorts of its variables are finite, and the product of their numbers of values, capped at
    /// 2^64, passes 16777216.
    TooManyAssignments(u128),
}

/// The modes of the transition of this id that are enabled at the initial marking, ascending (ISO/IEC
/// 15909-1, enabling).
pub fn list_enabled(alloc: Global, net: &Checked, id: &str) -> Result<Vec<Mode>, ListFault>
    ensures listed { IfOk result (λ modes. AreListed net.now id.now modes.items) }
    ensures unlisted { IfErr result (IsUnlisted net.now id.now) }
{
    match net.typed().find_transition(id) {
        Some(transition) => enabled_at(alloc, net, transition),
        None => Err(ListFault::UnknownTransition),
    }
}

/// The enabled modes of the transition of this number.
fn enabled_at(alloc: Global, net: &Checked, transition: u32) -> Result<Vec<Mode>, ListFault>
    requires { transition < length net.now.transitions }
    ensures listed { IfOk result (λ modes. AreListedAt net.now transition modes.items) }
    ensures unlisted { IfErr result (IsUnlistedAt net.now transition) }
{
    match enabled(alloc, net.typed(), transition, net.initial()) {
        Ok(modes) => Ok(modes),
        Err(ModesFault::Memory(error)) => Err(ListFault::Memory(error)),
        Err(ModesFault::InfiniteSort(v)) => Err(infinite(alloc, net.typed(), transition, v)),
        Err(ModesFault::TooManyAssignments(count)) => Err(ListFault::TooManyAssignments(count)),
    }
}

/// The fault of a transition whose first variable of an infinite sort is this.
fn infinite(alloc: Global, net: &Typed, transition: u32, v: u32) -> ListFault
    requires { IsFirstInfinite net.now transition (Some v) }
    ensures { IsUnlistedAt net.now transition result }
{
    match Text::from_str(alloc, variable_id(net, transition, v)) {
        Ok(id) => ListFault::InfiniteSort(id),
        Err(error) => ListFault::Memory(error),
    }
}

/// The id of a variable of a transition.
fn variable_id(net: &Typed, transition: u32, v: u32) -> &str
    requires { IsFirstInfinite net.now transition (Some v) }
    ensures { IsIdOf net.now v result.now }
{
    net.decls().variable_id(v)
}
