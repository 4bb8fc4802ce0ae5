//! A flat net as a net of one page.

ghost use Rattle.std.specs.Prelude.{◌≡◌, ◌++◌, ◌∷◌, [], ◌<◌, length, map, Some, IfOk, IfSome, OnOk, if◌then◌else◌};
ghost use Rattle.std.specs.List.{Contains, slice_get};
ghost use Rattle.pn_net.specs.Flattening.{arc_of_flat, in_one, net_of_flat, page_of_objects, place_id, source_id, target_id, transition_id};
ghost use Rattle.pn_net.specs.Typed.{IsWired};
ghost use Rattle.pn_net.specs.declared.flat.FlatArc.{FlatArc};
ghost use Rattle.pn_pages.specs.Flat.{HasEnds};

use pn_net::{Flat, FlatArc, Typed};
use pn_objects::{Arc, Head, Label, Net, Page, Place, Prefix, Transition};
use pn_syntax::Declaration;
use pn_text::Text;
use sqlite_items::Items;
use std::alloc::{AllocError, Global};

/// A flat net as a net of one page (ISO/IEC 15909-2, pages): its declarations stand in one
/// `declaration` of the net, without text, and there is none where there are no declarations. Each
/// arc names the ids of its ends. The time is linear in the net.
pub fn flat_net(alloc: Global, flat: &Flat) -> Result<Net, AllocError>
    requires { (a : FlatArc) → Contains flat.now.arcs a → HasEnds flat.now a }
    ensures { IfOk result (λ net. net ≡ net_of_flat flat.now) }
{
    let arcs = arcs_of(alloc, flat)?;
    net_with(alloc, flat, arcs)
}

/// The flat net of a typed net as a net of one page, as `flat_net` makes it. Its arcs name the ids of
/// their ends already, so no place or transition is looked at for an arc.
pub fn typed_net(alloc: Global, net: &Typed) -> Result<Net, AllocError>
    ensures { IfOk result (λ made. made ≡ net_of_flat net.now) }
{
    let flat = net.flat();
    let arcs = named_arcs(alloc, flat)?;
    net_with(alloc, flat, arcs)
}

/// A flat net as a net of one page, with its arcs.
fn net_with(alloc: Global, flat: &Flat, arcs: Items<Arc>) -> Result<Net, AllocError>
    requires { arcs ≡ map (arc_of_flat flat.now) flat.now.arcs }
    ensures { IfOk result (λ net. net ≡ net_of_flat flat.now) }
{
    let declarations = in_one_label(alloc, flat.declarations.as_slice())?;
    let pages = one_page(alloc, flat, arcs)?;
    Ok(Net {
        id: flat.id.copy(alloc)?,
        kind: flat.kind,
        prefixes: copy_prefixes(alloc, flat.prefixes.as_slice())?,
        head: flat.head.copy(alloc)?,
        declarations,
        pages,
        at: 0,
    })
}

/// The declarations in one label, where there are some.
fn in_one_label(
    alloc: Global,
    declarations: &[Declaration],
) -> Result<Items<Label<Items<Declaration>>>, AllocError>
    ensures { IfOk result (λ labels. labels ≡ in_one declarations.now) }
{
    let mut labels = Items::new(alloc);
    if !declarations.is_empty() {
        labels.push(Label {
            value: copy_declarations(alloc, declarations)?,
            text: None,
            opaque: Items::new(alloc),
            at: 0,
        })?;
    }
    Ok(labels)
}

fn copy_declarations(
    alloc: Global,
    declarations: &[Declaration],
) -> Result<Items<Declaration>, AllocError>
    ensures { IfOk result (λ all. all ≡ declarations.now) }
{
    let mut all = Items::new(alloc);
    for declaration in declarations {
        all.push(declaration.copy(alloc)?)?;
    }
    Ok(all)
}

fn copy_prefixes(alloc: Global, prefixes: &[Prefix]) -> Result<Items<Prefix>, AllocError>
    ensures { IfOk result (λ all. all ≡ prefixes.now) }
{
    let mut all = Items::new(alloc);
    for prefix in prefixes {
        all.push(copy_prefix(alloc, prefix)?)?;
    }
    Ok(all)
}

fn copy_prefix(alloc: Global, prefix: &Prefix) -> Result<Prefix, AllocError>
    ensures { IfOk result (λ copied. copied ≡ prefix.now) }
{
    Ok(Prefix {
        name: prefix.name.copy(alloc)?,
        address: prefix.address.copy(alloc)?,
    })
}

/// The page of a flat net with these arcs, alone in a list.
fn one_page(alloc: Global, flat: &Flat, arcs: Items<Arc>) -> Result<Items<Page>, AllocError>
    ensures { IfOk result (λ pages. pages ≡ page_of_objects flat.now.page_id flat.now.page_head flat.now.places flat.now.transitions arcs ∷ []) }
{
    let mut pages = Items::new(alloc);
    pages.push(Page {
        id: flat.page_id.copy(alloc)?,
        head: flat.page_head.copy(alloc)?,
        declarations: Items::new(alloc),
        places: copy_places(alloc, flat.places.as_slice())?,
        transitions: copy_transitions(alloc, flat.transitions.as_slice())?,
        place_refs: Items::new(alloc),
        transition_refs: Items::new(alloc),
        arcs,
        pages: Items::new(alloc),
        at: 0,
    })?;
    Ok(pages)
}

fn copy_places(alloc: Global, places: &[Place]) -> Result<Items<Place>, AllocError>
    ensures { IfOk result (λ all. all ≡ places.now) }
{
    let mut all = Items::new(alloc);
    for place in places {
        all.push(place.copy(alloc)?)?;
    }
    Ok(all)
}

fn copy_transitions(
    alloc: Global,
    transitions: &[Transition],
) -> Result<Items<Transition>, AllocError>
    ensures { IfOk result (λ all. all ≡ transitions.now) }
{
    let mut all = Items::new(alloc);
    for transition in transitions {
        all.push(transition.copy(alloc)?)?;
    }
    Ok(all)
}

/// The arcs of a flat net, each with the ids of its ends.
fn arcs_of(alloc: Global, flat: &Flat) -> Result<Items<Arc>, AllocError>
    requires { (a : FlatArc) → Contains flat.now.arcs a → HasEnds flat.now a }
    ensures { IfOk result (λ arcs. arcs ≡ map (arc_of_flat flat.now) flat.now.arcs) }
{
    let mut all = Items::new(alloc);
    for arc in flat.arcs.as_slice() {
        all.push(arc_within(alloc, flat, arc)?)?;
    }
    Ok(all)
}

/// An arc of a flat net, with the ids of its ends.
fn arc_within(alloc: Global, flat: &Flat, arc: &FlatArc) -> Result<Arc, AllocError>
    requires { HasEnds flat.now arc.now }
    ensures { IfOk result (λ named. named ≡ arc_of_flat flat.now arc.now) }
{
    let mut named = arc.arc.copy(alloc)?;
    let place = flat.places.as_slice()[arc.place as usize].id.as_str();
    let transition = flat.transitions.as_slice()[arc.transition as usize]
        .id
        .as_str();
    name_ends(alloc, &mut named, arc.into_place, place, transition)?;
    Ok(named)
}

/// The arcs of a flat net, where each names the ids of its ends.
fn named_arcs(alloc: Global, flat: &Flat) -> Result<Items<Arc>, AllocError>
    requires { (a : FlatArc) → Contains flat.now.arcs a → IsWired flat.now a }
    ensures { IfOk result (λ arcs. arcs ≡ map (arc_of_flat flat.now) flat.now.arcs) }
{
    let mut all = Items::new(alloc);
    for arc in flat.arcs.as_slice() {
        all.push(named_arc(alloc, flat, arc)?)?;
    }
    Ok(all)
}

/// An arc of a flat net, where it names the ids of its ends.
fn named_arc(alloc: Global, _flat: &Flat, arc: &FlatArc) -> Result<Arc, AllocError>
    requires { IsWired _flat.now arc.now }
    ensures { IfOk result (λ named. named ≡ arc_of_flat _flat.now arc.now) }
{
    arc.arc.copy(alloc)
}

/// Names the ends of an arc.
pub(crate) fn name_ends(
    alloc: Global,
    arc: &mut Arc,
    into_place: bool,
    place: &str,
    transition: &str,
) -> Result<(), AllocError>
    ensures { OnOk result (arc.new ≡ record arc.old {
      source = if into_place then transition.now else place.now;
      target = if into_place then place.now else transition.now;
    }) }
{
    if into_place {
        set_text(alloc, &mut arc.source, transition)?;
        set_text(alloc, &mut arc.target, place)
    } else {
        set_text(alloc, &mut arc.source, place)?;
        set_text(alloc, &mut arc.target, transition)
    }
}

/// Makes a text the same as another; where it is, nothing is copied.
fn set_text(alloc: Global, text: &mut Text, other: &str) -> Result<(), AllocError>
    ensures { OnOk result (text.new ≡ other.now) }
{
    if text.as_str() != other {
        *text = Text::from_str(alloc, other)?;
    }
    Ok(())
}
