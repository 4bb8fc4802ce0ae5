//! Pages from the elements that spell them.

ghost use Rattle.std.specs.Prelude.{◌≡◌, ◌++◌, ◌∷◌, [], Some, IfOk, OnOk};
ghost use Rattle.std.specs.Option.{option_or};
ghost use Rattle.pn_tree.specs.Views.{element_of};
ghost use Rattle.pn_spelling.specs.Parts.{child_elements};
ghost use Rattle.pn_spelling.specs.ReadNets.{arc_read, declarations_label, label_read, page_read, place_read, reference_read, transition_read};
ghost use Rattle.pn_core_grammar.specs.Pages.{parts_among, with_part};

use crate::labels::{make_declarations_label, make_name_label};
use crate::objects::{make_arc, make_place, make_reference, make_transition};
use crate::search::keep_opaque;
use pn_objects::{Arc, Head, Label, Page, Place, Reference, Transition};
use pn_spelling::copy_attribute;
use pn_syntax::Declaration;
use pn_tree::{Kid, View};
use sqlite_items::{Boxed, Items};
use std::alloc::{AllocError, Global};

/// What stands in a page or a net, kind by kind.
#[derive(Drop)]
pub(crate) struct PageParts {
    pub head: Head,
    pub declarations: Items<Label<Items<Declaration>>>,
    pub places: Items<Place>,
    pub transitions: Items<Transition>,
    pub place_refs: Items<Reference>,
    pub transition_refs: Items<Reference>,
    pub arcs: Items<Arc>,
    pub pages: Items<Page>,
}

/// The page that an element spells. The recursion goes by the depth of the element.
#[cycle(make_page)]
pub(crate) fn make_page(alloc: Global, view: View<'_>) -> Result<Page, AllocError>
    ensures { IfOk result (λ p. p ≡ page_read (element_of view.entry)) }
{
    let id = copy_attribute(alloc, view, "id")?;
    let parts = page_parts(alloc, view)?;
    Ok(Page {
        id,
        head: parts.head,
        declarations: parts.declarations,
        places: parts.places,
        transitions: parts.transitions,
        place_refs: parts.place_refs,
        transition_refs: parts.transition_refs,
        arcs: parts.arcs,
        pages: parts.pages,
        at: view.at(),
    })
}

/// What stands in a page or a net. One pass over its kids, in any order.
#[cycle(make_page)]
pub(crate) fn page_parts(alloc: Global, view: View<'_>) -> Result<PageParts, AllocError>
    ensures { IfOk result (λ p. p ≡ parts_among (child_elements (element_of view.entry))) }
{
    let mut parts = no_parts(alloc);
    for i in 0..view.kid_count() {
        if let Kid::Element(part) = view.kid(i) {
            add(alloc, &mut parts, part)?;
        }
    }
    Ok(parts)
}

fn no_parts(alloc: Global) -> PageParts
    ensures { result ≡ parts_among [] }
{
    PageParts {
        head: Head {
            name: None,
            opaque: Items::new(alloc),
        },
        declarations: Items::new(alloc),
        places: Items::new(alloc),
        transitions: Items::new(alloc),
        place_refs: Items::new(alloc),
        transition_refs: Items::new(alloc),
        arcs: Items::new(alloc),
        pages: Items::new(alloc),
    }
}

/// Adds one element.
#[cycle(make_page)]
fn add(alloc: Global, parts: &mut PageParts, view: View<'_>) -> Result<(), AllocError>
    ensures { OnOk result (parts.new ≡ with_part (element_of view.entry) parts.old) }
{
    match view.name() {
        "name" => add_name(alloc, &mut parts.head, view),
        "graphics" => keep_opaque(alloc, &mut parts.head.opaque, view),
        "toolspecific" => keep_opaque(alloc, &mut parts.head.opaque, view),
        "declaration" => add_declarations(alloc, &mut parts.declarations, view),
        "place" => add_place(alloc, &mut parts.places, view),
        "transition" => add_transition(alloc, &mut parts.transitions, view),
        "referencePlace" => add_reference(alloc, &mut parts.place_refs, view),
        "referenceTransition" => add_reference(alloc, &mut parts.transition_refs, view),
        "arc" => add_arc(alloc, &mut parts.arcs, view),
        "page" => add_page(alloc, &mut parts.pages, view),
        _ => Ok(()),
    }
}

fn add_name(alloc: Global, head: &mut Head, view: View<'_>) -> Result<(), AllocError>
    ensures { OnOk result (head.new ≡ record head.old { name = option_or head.old.name (Some (label_read tt (element_of view.entry))) }) }
{
    if head.name.is_none() {
        head.name = Some(Boxed::new(alloc, make_name_label(alloc, view)?)?);
    }
    Ok(())
}

fn add_declarations(
    alloc: Global,
    declarations: &mut Items<Label<Items<Declaration>>>,
    view: View<'_>,
) -> Result<(), AllocError>
    ensures { OnOk result (declarations.new ≡ declarations.old ++ declarations_label (element_of view.entry) ∷ []) }
{
    declarations.push(make_declarations_label(alloc, view)?)
}

fn add_place(alloc: Global, places: &mut Items<Place>, view: View<'_>) -> Result<(), AllocError>
    ensures { OnOk result (places.new ≡ places.old ++ place_read (element_of view.entry) ∷ []) }
{
    places.push(make_place(alloc, view)?)
}

fn add_transition(
    alloc: Global,
    transitions: &mut Items<Transition>,
    view: View<'_>,
) -> Result<(), AllocError>
    ensures { OnOk result (transitions.new ≡ transitions.old ++ transition_read (element_of view.entry) ∷ []) }
{
    transitions.push(make_transition(alloc, view)?)
}

fn add_reference(
    alloc: Global,
    references: &mut Items<Reference>,
    view: View<'_>,
) -> Result<(), AllocError>
    ensures { OnOk result (references.new ≡ references.old ++ reference_read (element_of view.entry) ∷ []) }
{
    references.push(make_reference(alloc, view)?)
}

fn add_arc(alloc: Global, arcs: &mut Items<Arc>, view: View<'_>) -> Result<(), AllocError>
    ensures { OnOk result (arcs.new ≡ arcs.old ++ arc_read (element_of view.entry) ∷ []) }
{
    arcs.push(make_arc(alloc, view)?)
}

#[cycle(make_page)]
fn add_page(alloc: Global, pages: &mut Items<Page>, view: View<'_>) -> Result<(), AllocError>
    ensures { OnOk result (pages.new ≡ pages.old ++ page_read (element_of view.entry) ∷ []) }
{
    pages.push(make_page(alloc, view)?)
}
