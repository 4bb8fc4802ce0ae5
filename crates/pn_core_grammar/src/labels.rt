//! Labels from the elements that spell them.

ghost use Rattle.std.specs.Prelude.{◌≡◌, IfOk};
ghost use Rattle.pn_tree.specs.Views.{element_of};
ghost use Rattle.pn_spelling.specs.ReadNets.{count_label, count_read, declarations_label, label_read, sort_label, term_label};
ghost use Rattle.pn_core_grammar.specs.Inside.{text_shown};

use crate::search::{Inside, look_into, or_self, structured};
use pn_hl_grammar::{make_declarations, make_sort, make_term};
use pn_objects::Label;
use pn_shape::count_in;
use pn_shape_faults::own_text;
use pn_syntax::{Declaration, SortExpr, Term};
use pn_text::Text;
use pn_tree::View;
use sqlite_items::Items;
use std::alloc::{AllocError, Global};

/// The label of a name: it says no more than its text.
pub(crate) fn make_name_label(alloc: Global, view: View<'_>) -> Result<Label<()>, AllocError>
    ensures { IfOk result (λ l. l ≡ label_read tt (element_of view.entry)) }
{
    let inside = look_into(alloc, view)?;
    make_label(alloc, view, inside, ())
}

/// A label that says a number.
pub(crate) fn make_count_label(alloc: Global, view: View<'_>) -> Result<Label<u64>, AllocError>
    ensures { IfOk result (λ l. l ≡ count_label (element_of view.entry)) }
{
    let inside = look_into(alloc, view)?;
    let value = count(alloc, or_self(inside.text, view))?;
    Ok(Label {
        value,
        text: None,
        opaque: inside.opaque,
        at: view.at(),
    })
}

/// A label that says a sort.
pub(crate) fn make_sort_label(alloc: Global, view: View<'_>) -> Result<Label<SortExpr>, AllocError>
    ensures { IfOk result (λ l. l ≡ sort_label (element_of view.entry)) }
{
    let inside = look_into(alloc, view)?;
    let value = make_sort(alloc, structured(inside.structure, view))?;
    make_label(alloc, view, inside, value)
}

/// A label that says a term.
pub(crate) fn make_term_label(alloc: Global, view: View<'_>) -> Result<Label<Term>, AllocError>
    ensures { IfOk result (λ l. l ≡ term_label (element_of view.entry)) }
{
    let inside = look_into(alloc, view)?;
    let value = make_term(alloc, structured(inside.structure, view))?;
    make_label(alloc, view, inside, value)
}

/// A label that says declarations.
pub(crate) fn make_declarations_label(
    alloc: Global,
    view: View<'_>,
) -> Result<Label<Items<Declaration>>, AllocError>
    ensures { IfOk result (λ l. l ≡ declarations_label (element_of view.entry)) }
{
    let inside = look_into(alloc, view)?;
    let value = make_declarations(alloc, structured(inside.structure, view))?;
    make_label(alloc, view, inside, Items::from_vec(value))
}

/// A label that says this, where that stands in it.
fn make_label<T: Drop>(
    alloc: Global,
    view: View<'_>,
    inside: Inside<'_>,
    value: T,
) -> Result<Label<T>, AllocError>
    ensures { IfOk result (λ l. l ≡ record { value = value; text = text_shown inside.entry.text; opaque = inside.entry.opaque; at = (element_of view.entry).at }) }
{
    Ok(Label {
        value,
        text: text_of(alloc, inside.text)?,
        opaque: inside.opaque,
        at: view.at(),
    })
}

/// The number that stands in an element.
fn count(alloc: Global, view: View<'_>) -> Result<u64, AllocError>
    ensures { IfOk result (λ n. n ≡ count_read (element_of view.entry)) }
{
    let text = own_text(alloc, view)?;
    match count_in(text.as_str()) {
        Some(number) => Ok(number),
        None => Ok(0),
    }
}

/// What stands in a `text`, where there is one.
fn text_of(alloc: Global, text: Option<View<'_>>) -> Result<Option<Text>, AllocError>
    ensures { IfOk result (λ t. t ≡ text_shown text.entry) }
{
    match text {
        Some(view) => Ok(Some(own_text(alloc, view)?)),
        None => Ok(None),
    }
}
