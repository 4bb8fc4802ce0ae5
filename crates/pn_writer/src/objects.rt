//! The elements of places, transitions, arcs and references.

ghost use Rattle.std.specs.Prelude.{◌≡◌, [], codes, true, OnOk};
ghost use Rattle.pn_tree.specs.Building.{at_innermost, with_kid};
ghost use Rattle.pn_tree.specs.Copies.{with_kids};
ghost use Rattle.pn_tree.specs.Elements.{are_attrs};
ghost use Rattle.pn_tree.specs.declared.element.Child.TheVariants as children;
ghost use Rattle.pn_spelling.specs.Writing.{made, all_kids};
ghost use Rattle.pn_spelling.specs.WriteNets.{place_element, transition_element, arc_element, reference_element};
ghost use Rattle.pn_writer.specs.Giving.{MayTake, MayTakeElement, MayBegin, opened};

use crate::giving::{begin_with_id, begin_with_two};
use crate::labels::{add_head, add_optional_number, add_optional_sort, add_optional_term};
use pn_objects::{Arc, Place, Reference, Transition};
use pn_tree::Builder;
use std::alloc::AllocError;

/// Adds places in their order.
pub(crate) fn add_places(into: &mut Builder, places: &[Place]) -> Result<(), AllocError>
    requires { MayTake (all_kids place_element places.now) into.old }
    ensures { OnOk result (into.new ≡ at_innermost (with_kids (all_kids place_element places.now)) into.old) }
{
    for place in places {
        add_place(into, place)?;
    }
    Ok(())
}

fn add_place(into: &mut Builder, place: &Place) -> Result<(), AllocError>
    requires { MayTakeElement (place_element place.now) into.old }
    ensures { OnOk result (into.new ≡ at_innermost (with_kid (children.Element (place_element place.now))) into.old) }
{
    begin_with_id(into, "place", &place.id)?;
    add_head(into, &place.head)?;
    add_optional_number(into, "initialMarking", &place.marking)?;
    add_optional_sort(into, "type", &place.sort)?;
    add_optional_term(into, "hlinitialMarking", &place.hl_marking)?;
    into.end();
    Ok(())
}

/// Adds transitions in their order.
pub(crate) fn add_transitions(
    into: &mut Builder,
    transitions: &[Transition],
) -> Result<(), AllocError>
    requires { MayTake (all_kids transition_element transitions.now) into.old }
    ensures { OnOk result (into.new ≡ at_innermost (with_kids (all_kids transition_element transitions.now)) into.old) }
{
    for transition in transitions {
        add_transition(into, transition)?;
    }
    Ok(())
}

fn add_transition(into: &mut Builder, transition: &Transition) -> Result<(), AllocError>
    requires { MayTakeElement (transition_element transition.now) into.old }
    ensures { OnOk result (into.new ≡ at_innermost (with_kid (children.Element (transition_element transition.now))) into.old) }
{
    begin_with_id(into, "transition", &transition.id)?;
    add_head(into, &transition.head)?;
    add_optional_term(into, "condition", &transition.condition)?;
    into.end();
    Ok(())
}

/// Adds arcs in their order.
pub(crate) fn add_arcs(into: &mut Builder, arcs: &[Arc]) -> Result<(), AllocError>
    requires { MayTake (all_kids arc_element arcs.now) into.old }
    ensures { OnOk result (into.new ≡ at_innermost (with_kids (all_kids arc_element arcs.now)) into.old) }
{
    for arc in arcs {
        add_arc(into, arc)?;
    }
    Ok(())
}

fn add_arc(into: &mut Builder, arc: &Arc) -> Result<(), AllocError>
    requires { MayTakeElement (arc_element arc.now) into.old }
    ensures { OnOk result (into.new ≡ at_innermost (with_kid (children.Element (arc_element arc.now))) into.old) }
{
    begin_arc(into, arc)?;
    add_head(into, &arc.head)?;
    add_optional_number(into, "inscription", &arc.weight)?;
    add_optional_term(into, "hlinscription", &arc.inscription)?;
    into.end();
    Ok(())
}

/// Begins an arc with its attributes.
fn begin_arc(into: &mut Builder, arc: &Arc) -> Result<(), AllocError>
    requires room { MayBegin into.old }
    requires attrs { are_attrs (arc_element arc.now).attrs ≡ true }
    ensures { OnOk result (into.new ≡ opened (made (codes "arc") (arc_element arc.now).attrs []) into.old) }
{
    begin_with_two(into, "arc", &arc.id, "source", &arc.source)?;
    into.attr("target", arc.target.as_str())
}

/// Adds references in their order, each in an element of this name.
pub(crate) fn add_references(
    into: &mut Builder,
    name: &str,
    references: &[Reference],
) -> Result<(), AllocError>
    requires { MayTake (all_kids (reference_element name.now) references.now) into.old }
    ensures { OnOk result (into.new ≡ at_innermost (with_kids (all_kids (reference_element name.now) references.now)) into.old) }
{
    for reference in references {
        add_reference(into, name, reference)?;
    }
    Ok(())
}

fn add_reference(into: &mut Builder, name: &str, reference: &Reference) -> Result<(), AllocError>
    requires { MayTakeElement (reference_element name.now reference.now) into.old }
    ensures { OnOk result (into.new ≡ at_innermost (with_kid (children.Element (reference_element name.now reference.now))) into.old) }
{
    begin_with_two(into, name, &reference.id, "ref", &reference.refers)?;
    add_head(into, &reference.head)?;
    into.end();
    Ok(())
}
