//! What modes move in all, by a tree of merges.

ghost use Rattle.std.specs.Prelude.{[], ◌∷◌, map, IfOk};
ghost use Rattle.pn_marking.specs.Modes.{IsMode};
ghost use Rattle.pn_marking.specs.Moves.{AreMoves, ArePutBy, AreTakenBy};
ghost use Rattle.pn_marking.specs.Steps.{AreModes};

use crate::flows::{Flow, Side, flows_of, merge};
use crate::modes::{post, pre};
use pn_bag::Bag;
use pn_net::{Mode, Typed};
use std::alloc::{AllocError, Global};

/// What the modes take and put, each as often as its number says.
pub(crate) fn moves_of(
    alloc: Global,
    net: &Typed,
    modes: &Bag<Mode>,
) -> Result<Vec<Flow>, AllocError>
    requires { AreModes net.now modes.now }
    ensures { IfOk result (λ flows. AreMoves net.now modes.now flows.items) }
{
    let mut entries = Vec::new(alloc);
    for entry in modes.iter() {
        entries.push(entry)?;
    }
    sum(alloc, net, &entries)
}

/// The same of a part of them: a half at a time, so that each flow moves once for each level of the
/// halves.
fn sum(alloc: Global, net: &Typed, entries: &[(&Mode, u64)]) -> Result<Vec<Flow>, AllocError>
    requires { AreModes net.now (map (λ entry. (entry.0.now, entry.1)) entries.now) }
    ensures { IfOk result (λ flows. AreMoves net.now (map (λ entry. (entry.0.now, entry.1)) entries.now) flows.items) }
{
    if entries.is_empty() {
        return Ok(Vec::new(alloc));
    }
    if entries.len() == 1 {
        return moves_of_mode(alloc, net, entries[0].0, entries[0].1);
    }
    let (front, back) = entries.split_at(entries.len() / 2);
    let front = sum(alloc, net, front)?;
    let back = sum(alloc, net, back)?;
    merge(alloc, front, back)
}

/// What one mode takes and puts, so many times.
fn moves_of_mode(
    alloc: Global,
    net: &Typed,
    mode: &Mode,
    count: u64,
) -> Result<Vec<Flow>, AllocError>
    requires { IsMode net.now mode.now }
    ensures { IfOk result (λ flows. AreMoves net.now ((mode.now, count) ∷ []) flows.items) }
{
    let taken = taken_by(alloc, net, mode, count)?;
    let put = put_by(alloc, net, mode, count)?;
    merge(alloc, taken, put)
}

/// What a mode takes, so many times.
fn taken_by(alloc: Global, net: &Typed, mode: &Mode, count: u64) -> Result<Vec<Flow>, AllocError>
    requires { IsMode net.now mode.now }
    ensures { IfOk result (λ flows. AreTakenBy net.now mode.now count flows.items) }
{
    let tokens = pre(alloc, net, mode)?;
    flows_of(alloc, Side::Taken, count, &tokens)
}

/// What a mode puts, so many times.
fn put_by(alloc: Global, net: &Typed, mode: &Mode, count: u64) -> Result<Vec<Flow>, AllocError>
    requires { IsMode net.now mode.now }
    ensures { IfOk result (λ flows. ArePutBy net.now mode.now count flows.items) }
{
    let tokens = post(alloc, net, mode)?;
    flows_of(alloc, Side::Put, count, &tokens)
}
