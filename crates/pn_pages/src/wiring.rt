//! The arcs of a flat net, each with the place and the transition that it joins.

ghost use Rattle.std.specs.Prelude.{◌≡◌, ◌++◌, ◌∷◌, [], length, map, reverse, IfOk, OnOk};
ghost use Rattle.std.specs.List.{slice_get};
ghost use Rattle.pn_pages.specs.Wiring.{end_number, goal_number, flat_arc_of, flat_arcs, id_of_place, id_of_transition, is_at_places, wire_of};

use crate::ends::Ends;
use crate::follow::Goal;
use crate::gather::put_reversed;
use crate::linking::side;
use crate::names::Node;
use crate::single_page::name_ends;
use pn_net::FlatArc;
use pn_objects::{Arc, Place, Transition};
use sqlite_items::Items;
use std::alloc::{AllocError, Global};

/// What an arc joins.
#[derive(Clone, Copy)]
pub(crate) struct Wire {
    pub(crate) place: usize,
    pub(crate) transition: usize,
    /// The arc leads from the transition to the place.
    pub(crate) into_place: bool,
}

/// What an arc with these ends joins: the places and transitions to which they lead.
fn wire_by(place_refs: usize, goals: &[Goal], ends: Ends) -> Wire
    ensures { result ≡ wire_of place_refs goals.now ends }
{
    let source = end_number(goals, ends.source);
    let target = end_number(goals, ends.target);
    if is_at_places(place_refs, ends.source) {
        Wire {
            place: source,
            transition: target,
            into_place: false,
        }
    } else {
        Wire {
            place: target,
            transition: source,
            into_place: true,
        }
    }
}

/// Whether a node is on the side of places.
fn is_at_places(place_refs: usize, node: Option<Node>) -> bool
    ensures { result ≡ is_at_places place_refs node }
{
    match side(place_refs, node) {
        Some(of_places) => of_places,
        None => false,
    }
}

/// The number of the place or transition that a node is, or to which it leads: 0 where there is none.
fn end_number(goals: &[Goal], node: Option<Node>) -> usize
    ensures { result ≡ end_number goals.now node }
{
    match node {
        Some(Node::Place(i)) => i,
        Some(Node::Transition(i)) => i,
        Some(Node::Reference(k)) => goal_number(goals, k),
        _ => 0,
    }
}

/// The number to which a reference leads: 0 where there is none.
fn goal_number(goals: &[Goal], k: usize) -> usize
    ensures { result ≡ goal_number (slice_get goals.now k) }
{
    match goals.get(k) {
        Some(goal) => match goal.end {
            Some(i) => i,
            None => 0,
        },
        None => 0,
    }
}

/// What the arcs with these ends join.
pub(crate) fn wires(
    alloc: Global,
    place_refs: usize,
    goals: &[Goal],
    ends: &[Ends],
) -> Result<Vec<Wire>, AllocError>
    ensures { IfOk result (λ wires. wires.items ≡ map (wire_of place_refs goals.now) ends.now) }
{
    let mut wires = Vec::new(alloc);
    for end in ends {
        wires.push(wire_by(place_refs, goals, *end))?;
    }
    Ok(wires)
}

/// The arcs of a flat net with these places and transitions, by what each arc joins. Where a number
/// is 2^32 or more it answers `AllocError`.
pub(crate) fn wired_arcs(
    alloc: Global,
    arcs: Items<Arc>,
    wires: &[Wire],
    places: &[Place],
    transitions: &[Transition],
) -> Result<Items<FlatArc>, AllocError>
    requires { length wires.now ≡ length arcs }
    ensures { IfOk result (λ all. all ≡ flat_arcs places.now transitions.now arcs wires.now) }
{
    let mut left = Items::new(alloc);
    put_reversed(arcs, &mut left)?;
    let mut all = Items::new(alloc);
    wire_left(alloc, &mut left, wires, places, transitions, &mut all)?;
    Ok(all)
}

/// Adds the arcs that are left, of which the last comes first.
fn wire_left(
    alloc: Global,
    left: &mut Items<Arc>,
    wires: &[Wire],
    places: &[Place],
    transitions: &[Transition],
    all: &mut Items<FlatArc>,
) -> Result<(), AllocError>
    requires { length wires.now ≡ length left.old }
    ensures { OnOk result (all.new ≡ all.old ++ flat_arcs places.now transitions.now (reverse left.old) wires.now) }
{
    let mut i = 0;
    while let Some(arc) = left.pop() {
        add_arc(alloc, arc, wires[i], places, transitions, all)?;
        i += 1;
    }
    Ok(())
}

fn add_arc(
    alloc: Global,
    arc: Arc,
    wire: Wire,
    places: &[Place],
    transitions: &[Transition],
    all: &mut Items<FlatArc>,
) -> Result<(), AllocError>
    ensures { OnOk result (all.new ≡ all.old ++ flat_arc_of places.now transitions.now arc wire ∷ []) }
{
    let flat = flat_arc(alloc, arc, wire, places, transitions)?;
    all.push(flat)
}

/// An arc of a flat net.
fn flat_arc(
    alloc: Global,
    mut arc: Arc,
    wire: Wire,
    places: &[Place],
    transitions: &[Transition],
) -> Result<FlatArc, AllocError>
    ensures { IfOk result (λ flat. flat ≡ flat_arc_of places.now transitions.now arc wire) }
{
    if wire.place > u32::MAX as usize || wire.transition > u32::MAX as usize {
        return Err(AllocError);
    }
    let place = place_id(places, wire.place);
    let transition = transition_id(transitions, wire.transition);
    name_ends(alloc, &mut arc, wire.into_place, place, transition)?;
    Ok(FlatArc {
        arc,
        place: wire.place as u32,
        transition: wire.transition as u32,
        into_place: wire.into_place,
    })
}

/// The id of the place of this number: empty where there is none.
fn place_id(places: &[Place], i: usize) -> &str
    ensures { result.now ≡ id_of_place places.now i }
{
    match places.get(i) {
        Some(place) => place.id.as_str(),
        None => "",
    }
}

/// The id of the transition of this number: empty where there is none.
fn transition_id(transitions: &[Transition], i: usize) -> &str
    ensures { result.now ≡ id_of_transition transitions.now i }
{
    match transitions.get(i) {
        Some(transition) => transition.id.as_str(),
        None => "",
    }
}
