//! Places, transitions, arcs and references from the elements that spell them.

ghost use Rattle.std.specs.Prelude.{◌≡◌, codes, IfOk};
ghost use Rattle.std.specs.Option.{option_map};
ghost use Rattle.pn_tree.specs.Views.{element_of};
ghost use Rattle.pn_spelling.specs.Parts.{attribute_of};
ghost use Rattle.pn_spelling.specs.ReadNets.{arc_read, count_label, label_read, place_read, reference_read, sort_label, term_label, transition_read};

use crate::labels::{make_count_label, make_name_label, make_sort_label, make_term_label};
use crate::search::look_into;
use pn_objects::{Arc, Head, Label, Place, Reference, Transition};
use pn_spelling::copy_attribute;
use pn_syntax::{SortExpr, Term};
use pn_text::Text;
use pn_tree::{Tree, View};
use sqlite_items::{Boxed, Items};
use std::alloc::{AllocError, Global};

/// A place.
pub(crate) fn make_place(alloc: Global, view: View<'_>) -> Result<Place, AllocError>
    ensures { IfOk result (λ p. p ≡ place_read (element_of view.entry)) }
{
    let inside = look_into(alloc, view)?;
    Ok(Place {
        id: copy_attribute(alloc, view, "id")?,
        head: make_head(alloc, inside.name, inside.opaque)?,
        marking: optional_count_label(alloc, inside.marking)?,
        sort: optional_sort_label(alloc, inside.sort)?,
        hl_marking: optional_term_label(alloc, inside.hl_marking)?,
        at: view.at(),
    })
}

/// A transition.
pub(crate) fn make_transition(alloc: Global, view: View<'_>) -> Result<Transition, AllocError>
    ensures { IfOk result (λ t. t ≡ transition_read (element_of view.entry)) }
{
    let inside = look_into(alloc, view)?;
    Ok(Transition {
        id: copy_attribute(alloc, view, "id")?,
        head: make_head(alloc, inside.name, inside.opaque)?,
        condition: optional_term_label(alloc, inside.condition)?,
        at: view.at(),
    })
}

/// An arc.
pub(crate) fn make_arc(alloc: Global, view: View<'_>) -> Result<Arc, AllocError>
    ensures { IfOk result (λ a. a ≡ arc_read (element_of view.entry)) }
{
    let inside = look_into(alloc, view)?;
    let ends = make_ends(alloc, view)?;
    Ok(Arc {
        id: copy_attribute(alloc, view, "id")?,
        head: make_head(alloc, inside.name, inside.opaque)?,
        source: ends.source,
        target: ends.target,
        weight: optional_count_label(alloc, inside.weight)?,
        inscription: optional_term_label(alloc, inside.inscription)?,
        at: view.at(),
    })
}

/// The ids that an arc names.
#[derive(Drop)]
struct Ends {
    source: Text,
    target: Text,
}

fn make_ends(alloc: Global, view: View<'_>) -> Result<Ends, AllocError>
    ensures { IfOk result (λ e. e ≡ record {
      source = attribute_of (codes "source") (element_of view.entry);
      target = attribute_of (codes "target") (element_of view.entry);
    }) }
{
    Ok(Ends {
        source: copy_attribute(alloc, view, "source")?,
        target: copy_attribute(alloc, view, "target")?,
    })
}

/// A reference to a place or to a transition.
pub(crate) fn make_reference(alloc: Global, view: View<'_>) -> Result<Reference, AllocError>
    ensures { IfOk result (λ r. r ≡ reference_read (element_of view.entry)) }
{
    let inside = look_into(alloc, view)?;
    Ok(Reference {
        id: copy_attribute(alloc, view, "id")?,
        head: make_head(alloc, inside.name, inside.opaque)?,
        refers: copy_attribute(alloc, view, "ref")?,
        at: view.at(),
    })
}

/// The head with these parts.
fn make_head(alloc: Global, name: Option<View<'_>>, opaque: Items<Tree>) -> Result<Head, AllocError>
    ensures { IfOk result (λ h. h ≡ record { name = option_map (label_read tt) (option_map element_of name.entry); opaque = opaque }) }
{
    Ok(Head {
        name: optional_name_label(alloc, name)?,
        opaque,
    })
}

fn optional_name_label(
    alloc: Global,
    name: Option<View<'_>>,
) -> Result<Option<Boxed<Label<()>>>, AllocError>
    ensures { IfOk result (λ l. l ≡ option_map (label_read tt) (option_map element_of name.entry)) }
{
    match name {
        Some(view) => Ok(Some(Boxed::new(alloc, make_name_label(alloc, view)?)?)),
        None => Ok(None),
    }
}

fn optional_count_label(
    alloc: Global,
    label: Option<View<'_>>,
) -> Result<Option<Boxed<Label<u64>>>, AllocError>
    ensures { IfOk result (λ l. l ≡ option_map count_label (option_map element_of label.entry)) }
{
    match label {
        Some(view) => Ok(Some(Boxed::new(alloc, make_count_label(alloc, view)?)?)),
        None => Ok(None),
    }
}

fn optional_sort_label(
    alloc: Global,
    label: Option<View<'_>>,
) -> Result<Option<Boxed<Label<SortExpr>>>, AllocError>
    ensures { IfOk result (λ l. l ≡ option_map sort_label (option_map element_of label.entry)) }
{
    match label {
        Some(view) => Ok(Some(Boxed::new(alloc, make_sort_label(alloc, view)?)?)),
        None => Ok(None),
    }
}

fn optional_term_label(
    alloc: Global,
    label: Option<View<'_>>,
) -> Result<Option<Boxed<Label<Term>>>, AllocError>
    ensures { IfOk result (λ l. l ≡ option_map term_label (option_map element_of label.entry)) }
{
    match label {
        Some(view) => Ok(Some(Boxed::new(alloc, make_term_label(alloc, view)?)?)),
        None => Ok(None),
    }
}
