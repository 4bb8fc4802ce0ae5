//! The ids of all that has one.

ghost use Rattle.std.specs.Prelude.{◌≡◌, ℕ, List, [], ◌∷◌, ◌++◌, map, OnOk, Option};
ghost use Rattle.std.specs.List.{flat_map, slice_get};
ghost use Rattle.pn_faults.specs.declared.fault.Fault.{Fault};
ghost use Rattle.pn_names.specs.Names.{constants_of};
ghost use Rattle.pn_net.specs.Ids.{constant_holder, declaration_holders, holder, other, place_holder, transition_holder};
ghost use Rattle.pn_pages.specs.Naming.{AddsNames, all_holders, holders_from, reference_holder};
ghost use Rattle.pn_pages.specs.declared.numbered.Objects.{Objects};

use crate::gather::Title;
use crate::names::{Names, Node};
use crate::numbered::Objects;
use pn_faults::Fault;
use pn_objects::{Arc, Place, Reference, Transition};
use pn_syntax::{Constant, Declaration, PartElement, SortBody};
use std::alloc::{AllocError, Global};

/// Something that has an id and is no node.
pub(crate) trait Held {
    ghost id_of: { Self → List ℕ };

    ghost offset_of: { Self → ℕ };

    fn id(&self) -> &str
        ensures { result.now ≡ id_of self.now };

    fn offset(&self) -> u64
        ensures { result ≡ offset_of self.now };
}

impl Held for Title {
    ghost id_of = { λ t. t.id };

    ghost offset_of = { λ t. t.at };

    fn id(&self) -> &str {
        self.id.as_str()
    }

    fn offset(&self) -> u64 {
        self.at
    }
}

impl Held for Arc {
    ghost id_of = { λ a. a.id };

    ghost offset_of = { λ a. a.at };

    fn id(&self) -> &str {
        self.id.as_str()
    }

    fn offset(&self) -> u64 {
        self.at
    }
}

impl Held for Constant {
    ghost id_of = { λ c. c.id };

    ghost offset_of = { λ c. c.at };

    fn id(&self) -> &str {
        self.id.as_str()
    }

    fn offset(&self) -> u64 {
        self.at
    }
}

impl Held for PartElement {
    ghost id_of = { λ e. e.id };

    ghost offset_of = { λ e. e.at };

    fn id(&self) -> &str {
        self.id.as_str()
    }

    fn offset(&self) -> u64 {
        self.at
    }
}

/// Notes all that has an id in a net with this id at this offset.
pub(crate) fn note_all<'a>(
    alloc: Global,
    id: &'a str,
    at: u64,
    objects: &'a Objects,
    names: &mut Names<'a>,
    least: &mut Option<Fault>,
) -> Result<(), AllocError>
    ensures { OnOk result (AddsNames names.old least.old names.new least.new objects.now (all_holders id.now at objects.now)) }
{
    note_other(alloc, id, at, names, least)?;
    note_others(alloc, objects.titles.as_slice(), names, least)?;
    note_declarations(alloc, objects.declarations.as_slice(), names, least)?;
    note_nodes(alloc, objects, names, least)?;
    note_others(alloc, objects.arcs.as_slice(), names, least)
}

fn note_nodes<'a>(
    alloc: Global,
    objects: &'a Objects,
    names: &mut Names<'a>,
    least: &mut Option<Fault>,
) -> Result<(), AllocError>
    ensures { OnOk result (AddsNames names.old least.old names.new least.new objects.now
        (map place_holder objects.now.places ++ (map transition_holder objects.now.transitions ++ holders_from objects.now 0 objects.now.references))) }
{
    note_places(alloc, objects.places.as_slice(), names, least)?;
    note_transitions(alloc, objects.transitions.as_slice(), names, least)?;
    note_references(alloc, objects.references.as_slice(), names, least)
}

fn note_places<'a>(
    alloc: Global,
    places: &'a [Place],
    names: &mut Names<'a>,
    least: &mut Option<Fault>,
) -> Result<(), AllocError>
    ensures { OnOk result ((o : Objects) → o.places ≡ places.now → AddsNames names.old least.old names.new least.new o (map place_holder places.now)) }
{
    for i in 0..places.len() {
        let place = &places[i];
        names.note(alloc, place.id.as_str(), place.at, Node::Place(i), least)?;
    }
    Ok(())
}

fn note_transitions<'a>(
    alloc: Global,
    transitions: &'a [Transition],
    names: &mut Names<'a>,
    least: &mut Option<Fault>,
) -> Result<(), AllocError>
    ensures { OnOk result ((o : Objects) → o.transitions ≡ transitions.now → AddsNames names.old least.old names.new least.new o (map transition_holder transitions.now)) }
{
    for i in 0..transitions.len() {
        let transition = &transitions[i];
        names.note(
            alloc,
            transition.id.as_str(),
            transition.at,
            Node::Transition(i),
            least,
        )?;
    }
    Ok(())
}

fn note_references<'a>(
    alloc: Global,
    references: &'a [Reference],
    names: &mut Names<'a>,
    least: &mut Option<Fault>,
) -> Result<(), AllocError>
    ensures { OnOk result ((o : Objects) → o.references ≡ references.now → AddsNames names.old least.old names.new least.new o (holders_from o 0 references.now)) }
{
    for i in 0..references.len() {
        let reference = &references[i];
        names.note(
            alloc,
            reference.id.as_str(),
            reference.at,
            Node::Reference(i),
            least,
        )?;
    }
    Ok(())
}

fn note_declarations<'a>(
    alloc: Global,
    declarations: &'a [Declaration],
    names: &mut Names<'a>,
    least: &mut Option<Fault>,
) -> Result<(), AllocError>
    ensures { OnOk result ((o : Objects) → AddsNames names.old least.old names.new least.new o (flat_map declaration_holders declarations.now)) }
{
    for declaration in declarations {
        note_declaration(alloc, declaration, names, least)?;
    }
    Ok(())
}

/// Notes a declaration, and the constants and elements in it.
fn note_declaration<'a>(
    alloc: Global,
    declaration: &'a Declaration,
    names: &mut Names<'a>,
    least: &mut Option<Fault>,
) -> Result<(), AllocError>
    ensures { OnOk result ((o : Objects) → AddsNames names.old least.old names.new least.new o (declaration_holders declaration.now)) }
{
    match declaration {
        Declaration::Named { id, body, at, .. } => {
            note_other(alloc, id.as_str(), *at, names, least)?;
            note_body(alloc, body, names, least)
        }
        Declaration::Variable { id, at, .. } => note_other(alloc, id.as_str(), *at, names, least),
        Declaration::Partition {
            id,
            elements,
            at,
            ..
        } => {
            note_other(alloc, id.as_str(), *at, names, least)?;
            note_others(alloc, elements.as_slice(), names, least)
        }
    }
}

/// Notes the constants of an enumeration.
fn note_body<'a>(
    alloc: Global,
    body: &'a SortBody,
    names: &mut Names<'a>,
    least: &mut Option<Fault>,
) -> Result<(), AllocError>
    ensures { OnOk result ((o : Objects) → AddsNames names.old least.old names.new least.new o (map constant_holder (constants_of body.now))) }
{
    match body {
        SortBody::Plain(_) => Ok(()),
        SortBody::Finite(constants) => note_others(alloc, constants.as_slice(), names, least),
        SortBody::Cyclic(constants) => note_others(alloc, constants.as_slice(), names, least),
    }
}

/// Notes things that are no nodes.
fn note_others<'a, T: Held>(
    alloc: Global,
    items: &'a [T],
    names: &mut Names<'a>,
    least: &mut Option<Fault>,
) -> Result<(), AllocError>
    ensures { OnOk result ((o : Objects) → AddsNames names.old least.old names.new least.new o (map (λ x. holder (T.id_of x) (T.offset_of x) other) items.now)) }
{
    for item in items {
        note_other(alloc, item.id(), item.offset(), names, least)?;
    }
    Ok(())
}

/// Notes something that is no node.
fn note_other<'a>(
    alloc: Global,
    id: &'a str,
    at: u64,
    names: &mut Names<'a>,
    least: &mut Option<Fault>,
) -> Result<(), AllocError>
    ensures { OnOk result ((o : Objects) → AddsNames names.old least.old names.new least.new o (holder id.now at other ∷ [])) }
{
    names.note(alloc, id, at, Node::Other, least)
}
