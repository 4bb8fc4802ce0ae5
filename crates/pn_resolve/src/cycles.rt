//! The declarations whose sorts lead back to themselves.

ghost use Rattle.std.specs.Prelude.{◌≡◌, ℕ, ◌<◌, length, false, slice_index_or, IsTrue, ◌↔◌, IfOk};
ghost use Rattle.std.specs.List.{slice_get};
ghost use Rattle.pn_cycles.specs.Orders.{TellsCycles};
ghost use Rattle.pn_names.specs.Names.{names_of};
ghost use Rattle.pn_resolve.specs.Links.{IsGraph, TellsCyclesOf};
ghost use Rattle.pn_resolve.specs.Standing.{LeadsTo};

use crate::links::{Sources, graph_of, is_namedsort};
use pn_cycles::{Order, order_of};
use pn_names::Index;
use pn_syntax::Declaration;
use std::alloc::{AllocError, Global};

/// For each declaration whether its sort leads back to it, directly or through `namedsort`s. The
/// time is linear but for partitions on a cycle that goes through another partition.
pub fn sort_cycles(
    alloc: Global,
    items: &[Declaration],
    index: &Index,
) -> Result<Vec<bool>, AllocError>
    requires { index.now ≡ names_of items.now }
    ensures sized { IfOk result (λ told. length told.items ≡ length items.now) }
    ensures told { IfOk result (λ told. (place : ℕ) → place < length items.now → IsTrue (slice_index_or told.items place false) ↔ LeadsTo items.now place place) }
{
    let named = order_by(alloc, items, index, Sources::Named)?;
    let all = order_by(alloc, items, index, Sources::All)?;
    told_by(alloc, items, index, &named, &all)
}

/// The same, by what is told of the graph of the `namedsort`s and of the whole graph.
fn told_by(
    alloc: Global,
    items: &[Declaration],
    index: &Index,
    named: &Order,
    all: &Order,
) -> Result<Vec<bool>, AllocError>
    requires index { index.now ≡ names_of items.now }
    requires named { TellsCyclesOf items.now Sources.Named named.now.on_cycle }
    requires all { TellsCyclesOf items.now Sources.All all.now.on_cycle }
    ensures sized { IfOk result (λ told. length told.items ≡ length items.now) }
    ensures told { IfOk result (λ told. (place : ℕ) → place < length items.now → IsTrue (slice_index_or told.items place false) ↔ LeadsTo items.now place place) }
{
    let mut told = Vec::new(alloc);
    for place in 0..items.len() {
        let leads = leads_back(alloc, items, index, named, all, place)?;
        told.push(leads)?;
    }
    Ok(told)
}

/// What is told of the graph of the declarations.
fn order_by(
    alloc: Global,
    items: &[Declaration],
    index: &Index,
    sources: Sources,
) -> Result<Order, AllocError>
    requires { index.now ≡ names_of items.now }
    ensures { IfOk result (λ order. TellsCyclesOf items.now sources order.on_cycle) }
{
    let graph = graph_of(alloc, index, items, sources)?;
    let order = order_of(alloc, &graph)?;
    Ok(order)
}

/// Whether the sort of the declaration at a place leads back to it. Where it is no `namedsort`, that
/// is asked of the graph of the `namedsort`s and it alone, if it lies on a cycle of the whole graph.
fn leads_back(
    alloc: Global,
    items: &[Declaration],
    index: &Index,
    named: &Order,
    all: &Order,
    place: usize,
) -> Result<bool, AllocError>
    requires index { index.now ≡ names_of items.now }
    requires named { TellsCyclesOf items.now Sources.Named named.now.on_cycle }
    requires all { TellsCyclesOf items.now Sources.All all.now.on_cycle }
    requires place { place < length items.now }
    ensures { IfOk result (λ told. IsTrue told ↔ LeadsTo items.now place place) }
{
    if is_namedsort(&items[place]) {
        return Ok(named.is_on_cycle(place));
    }
    if !all.is_on_cycle(place) {
        return Ok(false);
    }
    let own = order_by(alloc, items, index, Sources::NamedAnd(place))?;
    Ok(own.is_on_cycle(place))
}
