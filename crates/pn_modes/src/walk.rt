//! The search through the choices of values, in order.

ghost use Rattle.std.specs.Prelude.{◌≡◌, ◌<◌, length, true, false, IfOk, OnOk, OnErr};
ghost use Rattle.std.specs.Cmp.Lexicographic.{slice_cmp};
ghost use Rattle.std.specs.List.Sorted.{IsStrictlySortedBy};
ghost use Rattle.pn_carriers.specs.Carriers.{choices};
ghost use Rattle.pn_modes.specs.Prunes.{AreAllModes, IsNext, Skips};
ghost use Rattle.pn_values.specs.Order.{value_cmp};
ghost use Rattle.pn_modes.specs.Search.{IsAt, IsSearchStep, to_come, with_more, with_next, without};

use crate::cursor::Cursor;
use crate::pruning::Pruning;
use crate::step::Step;
use pn_net::Mode;
use pn_values::Value;
use sqlite_items::Items;
use std::alloc::{AllocError, Global};

/// The search for modes of a transition, at its start: all choices are to come. Takes no memory.
pub fn start<P: Pruning>(alloc: Global, over: &P, transition: u32) -> Cursor
    ensures at { IsAt (P.carriers over.now) result }
    ensures all { to_come (P.carriers over.now) result ≡ choices (P.carriers over.now) }
    ensures transition { result.front.transition ≡ transition }
{
    Cursor {
        places: Items::new(alloc),
        front: Mode {
            transition,
            values: Items::new(alloc),
        },
        fresh: true,
    }
}

/// The next mode: the first choice to come that is wanted. After an error the search goes on from
/// where it was.
pub fn next<P: Pruning>(
    alloc: Global,
    over: &P,
    cursor: &mut Cursor,
) -> Result<Option<Mode>, AllocError>
    requires sound { P.is_sound over.now }
    requires at { IsAt (P.carriers over.now) cursor.old }
    ensures at { IsAt (P.carriers over.now) cursor.new }
    ensures transition { cursor.new.front.transition ≡ cursor.old.front.transition }
    ensures next { IfOk result (λ mode. IsNext (P.wanted over.now) cursor.old.front.transition (to_come (P.carriers over.now) cursor.old) mode (to_come (P.carriers over.now) cursor.new)) }
    ensures err { OnErr result (Skips (P.wanted over.now) (to_come (P.carriers over.now) cursor.old) (to_come (P.carriers over.now) cursor.new)) }
{
    loop {
        match step(alloc, over, cursor)? {
            Step::Found(mode) => return Ok(Some(mode)),
            Step::Moved => {}
            Step::Done => return Ok(None),
        }
    }
}

/// All modes of a transition with a choice of values that is wanted, in order.
pub fn collect<P: Pruning>(
    alloc: Global,
    over: &P,
    transition: u32,
) -> Result<Vec<Mode>, AllocError>
    requires sound { P.is_sound over.now }
    requires ascending { IsStrictlySortedBy (slice_cmp value_cmp) (choices (P.carriers over.now)) }
    ensures { IfOk result (λ modes. AreAllModes (P.wanted over.now) (P.carriers over.now) transition modes.items) }
{
    let mut modes = Vec::new(alloc);
    let mut cursor = start(alloc, over, transition);
    while let Some(mode) = next(alloc, over, &mut cursor)? {
        modes.push(mode)?;
    }
    Ok(modes)
}

/// One step: into what begins with the front, or out of it.
fn step<P: Pruning>(alloc: Global, over: &P, cursor: &mut Cursor) -> Result<Step, AllocError>
    requires sound { P.is_sound over.now }
    requires at { IsAt (P.carriers over.now) cursor.old }
    ensures at { IsAt (P.carriers over.now) cursor.new }
    ensures transition { cursor.new.front.transition ≡ cursor.old.front.transition }
    ensures step { IfOk result (λ step. IsSearchStep (P.wanted over.now) (P.carriers over.now) cursor.old step cursor.new) }
    ensures err { OnErr result (cursor.new ≡ cursor.old) }
{
    if cursor.fresh {
        enter(alloc, over, cursor)
    } else {
        leave(alloc, over, cursor)
    }
}

/// Tries a fresh front: it is left out, found, or gets the first value of the next variable.
fn enter<P: Pruning>(alloc: Global, over: &P, cursor: &mut Cursor) -> Result<Step, AllocError>
    requires sound { P.is_sound over.now }
    requires at { IsAt (P.carriers over.now) cursor.old }
    requires fresh { cursor.old.fresh ≡ true }
    ensures at { IsAt (P.carriers over.now) cursor.new }
    ensures transition { cursor.new.front.transition ≡ cursor.old.front.transition }
    ensures step { IfOk result (λ step. IsSearchStep (P.wanted over.now) (P.carriers over.now) cursor.old step cursor.new) }
    ensures err { OnErr result (cursor.new ≡ cursor.old) }
{
    if !over.goes_on(alloc, cursor.front.values.as_slice())? {
        cursor.fresh = false;
        return Ok(Step::Moved);
    }
    let variable = cursor.places.len();
    if variable == over.variables() {
        let mode = cursor.front.copy(alloc)?;
        cursor.fresh = false;
        return Ok(Step::Found(mode));
    }
    if over.size(variable) == 0 {
        cursor.fresh = false;
        return Ok(Step::Moved);
    }
    let value = over.nth(alloc, variable, 0)?;
    push_first(cursor, value)?;
    Ok(Step::Moved)
}

/// Gives the next variable this value, the first of its carrier.
fn push_first(cursor: &mut Cursor, value: Value) -> Result<(), AllocError>
    ensures ok { OnOk result (cursor.new ≡ with_more cursor.old value) }
    ensures err { OnErr result (cursor.new ≡ cursor.old) }
{
    cursor.places.push(0)?;
    if cursor.front.values.push(value).is_err() {
        let _ = cursor.places.pop();
        return Err(AllocError);
    }
    Ok(())
}

/// Leaves a front that was tried: the last variable gets its next value, or none.
fn leave<P: Pruning>(alloc: Global, over: &P, cursor: &mut Cursor) -> Result<Step, AllocError>
    requires sound { P.is_sound over.now }
    requires at { IsAt (P.carriers over.now) cursor.old }
    requires tried { cursor.old.fresh ≡ false }
    ensures at { IsAt (P.carriers over.now) cursor.new }
    ensures transition { cursor.new.front.transition ≡ cursor.old.front.transition }
    ensures step { IfOk result (λ step. IsSearchStep (P.wanted over.now) (P.carriers over.now) cursor.old step cursor.new) }
    ensures err { OnErr result (cursor.new ≡ cursor.old) }
{
    let depth = cursor.places.len();
    if depth == 0 {
        return Ok(Step::Done);
    }
    let variable = depth - 1;
    let size = over.size(variable);
    let next = cursor.places.as_slice()[variable] + 1;
    if next == size {
        drop_last(cursor, variable);
        return Ok(Step::Moved);
    }
    let value = over.nth(alloc, variable, next)?;
    set_last(cursor, variable, next, value);
    Ok(Step::Moved)
}

/// Takes the value of the last variable away.
fn drop_last(cursor: &mut Cursor, variable: usize)
    requires places { variable < length cursor.old.places }
    requires values { variable < length cursor.old.front.values }
    ensures { cursor.new ≡ without cursor.old variable }
{
    cursor.places.remove(variable);
    cursor.front.values.remove(variable);
}

/// Gives the last variable another value.
fn set_last(cursor: &mut Cursor, variable: usize, place: u64, value: Value)
    requires places { variable < length cursor.old.places }
    requires values { variable < length cursor.old.front.values }
    ensures { cursor.new ≡ with_next cursor.old variable place value }
{
    cursor.places.set(variable, place);
    cursor.front.values.set(variable, value);
    cursor.fresh = true;
}
