//! The faults of references and of arcs.

ghost use Rattle.std.specs.Prelude.{◌≡◌, ◌<◌, length, Some, OnOk, if◌then◌else◌};
ghost use Rattle.std.specs.List.{AllZip};
ghost use Rattle.std.specs.Option.{option_map};
ghost use Rattle.pn_faults.specs.Least.{lower};
ghost use Rattle.pn_faults.specs.Order.{fault_at};
ghost use Rattle.pn_faults.specs.Walks.{StandsInSome};
ghost use Rattle.pn_faults.specs.declared.reason.Reason.TheVariants as reasons;
ghost use Rattle.pn_net.specs.Ids.{holders_of};
ghost use Rattle.pn_objects.specs.declared.net.Net.{Net};
ghost use Rattle.pn_pages.specs.Linking.{AreEnds, AreFollowed, IsArcFault, IsFaultOfReferences, IsReferenceFault, IsTargetFault, AddsFaults, TellsArc, TellsEndless, is_of_places, node_side, reference_side, side_by};
ghost use Rattle.pn_pages.specs.Naming.{FindsNode};
ghost use Rattle.pn_pages.specs.declared.numbered.Objects.{Objects};

use crate::ends::Ends;
use crate::follow::Goal;
use crate::names::Node;
use pn_faults::{Fault, Reason, keep_least_at};
use pn_objects::{Arc, Reference};
use std::alloc::{AllocError, Global};

/// Tells the fault of an arc, where it has one, by what its source and its target name.
pub(crate) fn tell_arc(
    alloc: Global,
    place_refs: usize,
    arc: &Arc,
    source: Option<Node>,
    target: Option<Node>,
    least: &mut Option<Fault>,
) -> Result<(), AllocError>
    ensures { OnOk result ((n : Net) (o : Objects) → o.place_refs ≡ place_refs → FindsNode o (holders_of n) arc.now.source source
        → FindsNode o (holders_of n) arc.now.target target → TellsArc n arc.now least.old least.new) }
{
    let Some(from) = side(place_refs, source) else {
        return keep_least_at(
            least,
            alloc,
            Reason::UnknownEnd,
            arc.at,
            arc.source.as_str(),
        );
    };
    let Some(to) = side(place_refs, target) else {
        return keep_least_at(
            least,
            alloc,
            Reason::UnknownEnd,
            arc.at,
            arc.target.as_str(),
        );
    };
    if from == to {
        return keep_least_at(least, alloc, Reason::WrongEnd, arc.at, arc.id.as_str());
    }
    Ok(())
}

/// Tells the faults of arcs, by what their ends name.
pub(crate) fn tell_arcs(
    alloc: Global,
    place_refs: usize,
    arcs: &[Arc],
    ends: &[Ends],
    least: &mut Option<Fault>,
) -> Result<(), AllocError>
    requires { length ends.now ≡ length arcs.now }
    ensures { OnOk result ((n : Net) (o : Objects) → o.place_refs ≡ place_refs → AllZip (AreEnds o (holders_of n)) arcs.now ends.now
        → AddsFaults n (StandsInSome (IsArcFault n) arcs.now) least.old least.new) }
{
    for i in 0..arcs.len() {
        tell_arc(
            alloc,
            place_refs,
            &arcs[i],
            ends[i].source,
            ends[i].target,
            least,
        )?;
    }
    Ok(())
}

/// Tells the faults of references, by what they refer to and by where that leads. The first
/// references, so many, are to places.
pub(crate) fn tell_references(
    alloc: Global,
    place_refs: usize,
    references: &[Reference],
    targets: &[Option<Node>],
    goals: &[Goal],
    least: &mut Option<Fault>,
) -> Result<(), AllocError>
    requires targets { length targets.now ≡ length references.now }
    requires goals { length goals.now ≡ length references.now }
    ensures { OnOk result ((n : Net) (o : Objects) → o.place_refs ≡ place_refs → AreFollowed n o references.now targets.now goals.now
        → AddsFaults n (IsFaultOfReferences n place_refs references.now) least.old least.new) }
{
    for i in 0..references.len() {
        let endless = goals[i].endless;
        tell_reference(
            alloc,
            place_refs,
            i,
            &references[i],
            targets[i],
            endless,
            least,
        )?;
    }
    Ok(())
}

/// Tells the faults of the reference of this number, by what it refers to, and by whether following
/// references from it never ends.
fn tell_reference(
    alloc: Global,
    place_refs: usize,
    number: usize,
    reference: &Reference,
    target: Option<Node>,
    endless: bool,
    least: &mut Option<Fault>,
) -> Result<(), AllocError>
    ensures { OnOk result ((n : Net) (o : Objects) → o.place_refs ≡ place_refs → FindsNode o (holders_of n) reference.now.refers target
        → TellsEndless n reference.now endless → AddsFaults n (IsReferenceFault n (reference_side place_refs number) reference.now) least.old least.new) }
{
    let of_places = number < place_refs;
    tell_target(alloc, place_refs, of_places, reference, target, least)?;
    tell_endless(alloc, reference, endless, least)
}

/// Tells the fault of what a reference refers to, where there is one. The reference is to a place or
/// to a transition.
fn tell_target(
    alloc: Global,
    place_refs: usize,
    of_places: bool,
    reference: &Reference,
    target: Option<Node>,
    least: &mut Option<Fault>,
) -> Result<(), AllocError>
    ensures { OnOk result ((n : Net) (o : Objects) → o.place_refs ≡ place_refs → FindsNode o (holders_of n) reference.now.refers target
        → AddsFaults n (IsTargetFault n (side_by of_places) reference.now) least.old least.new) }
{
    let Some(to) = side(place_refs, target) else {
        return keep_least_at(
            least,
            alloc,
            Reason::UnknownEnd,
            reference.at,
            reference.refers.as_str(),
        );
    };
    if to != of_places {
        return keep_least_at(
            least,
            alloc,
            Reason::WrongEnd,
            reference.at,
            reference.id.as_str(),
        );
    }
    Ok(())
}

/// Tells that following references from this one never ends, where it is so.
fn tell_endless(
    alloc: Global,
    reference: &Reference,
    endless: bool,
    least: &mut Option<Fault>,
) -> Result<(), AllocError>
    ensures { OnOk result (least.new ≡ (if endless then lower least.old (Some (fault_at reasons.ReferenceCycle reference.now.at reference.now.id)) else least.old)) }
{
    if endless {
        return keep_least_at(
            least,
            alloc,
            Reason::ReferenceCycle,
            reference.at,
            reference.id.as_str(),
        );
    }
    Ok(())
}

/// Whether a node is on the side of places; nothing where it is none.
pub(crate) fn side(place_refs: usize, node: Option<Node>) -> Option<bool>
    ensures { result ≡ option_map is_of_places (node_side place_refs node) }
{
    match node {
        Some(Node::Place(_)) => Some(true),
        Some(Node::Transition(_)) => Some(false),
        Some(Node::Reference(k)) => Some(k < place_refs),
        _ => None,
    }
}
