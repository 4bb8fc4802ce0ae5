//! Nets in few words: each part with its own parts in brackets, and its offset behind `@`.

use crate::shown::{put_declarations, put_sort, put_term};
use itoa::Buffer;
use pn_objects::{Arc, Head, Label, Net, Page, Place, Prefix, Reference, Transition};
use pn_operators::Kind;
use pn_syntax::{Declaration, SortExpr, Term};
use pn_text::Text;
use pn_tree::{Tree, View};
use sqlite_items::{Boxed, Items};
use std::alloc::AllocError;

fn put_number(text: &mut String, number: u64) -> Result<(), AllocError> {
    let mut digits = Buffer::new();
    text.push_str(digits.format(number))
}

fn put_end(text: &mut String, at: u64) -> Result<(), AllocError> {
    text.push_str(")@")?;
    put_number(text, at)
}

/// A word, a bracket and an id.
fn put_start(text: &mut String, word: &str, id: &Text) -> Result<(), AllocError> {
    text.push_str(word)?;
    text.push_str(id.as_str())
}

/// A part that is kept as it is: its attributes, and how many kids it has.
fn put_kept(text: &mut String, view: View<'_>) -> Result<(), AllocError> {
    text.push_str(" ")?;
    text.push_str(view.name())?;
    text.push_str("(")?;
    for i in 0..view.attr_count() {
        let (name, value) = view.attr(i);
        put_pair(text, name, value)?;
    }
    put_number(text, view.kid_count() as u64)?;
    put_end(text, view.at())
}

fn put_pair(text: &mut String, name: &str, value: &str) -> Result<(), AllocError> {
    text.push_str(name)?;
    text.push_str("=")?;
    text.push_str(value)?;
    text.push_str(" ")
}

fn put_opaque(text: &mut String, trees: &[Tree]) -> Result<(), AllocError> {
    for tree in trees {
        put_kept(text, tree.root())?;
    }
    Ok(())
}

fn put_label_text(text: &mut String, own: &Option<Text>) -> Result<(), AllocError> {
    match own {
        Some(own) => {
            text.push_str(" '")?;
            text.push_str(own.as_str())?;
            text.push_str("'")
        }
        None => Ok(()),
    }
}

/// What a label has whatever it says.
fn put_label_end(
    text: &mut String,
    own: &Option<Text>,
    opaque: &[Tree],
    at: u64,
) -> Result<(), AllocError> {
    put_label_text(text, own)?;
    put_opaque(text, opaque)?;
    put_end(text, at)
}

fn put_head(text: &mut String, head: &Head) -> Result<(), AllocError> {
    if let Some(label) = &head.name {
        let label = label.get();
        text.push_str(" name(")?;
        put_label_end(text, &label.text, label.opaque.as_slice(), label.at)?;
    }
    put_opaque(text, head.opaque.as_slice())
}

fn put_count_label(text: &mut String, label: &Option<Boxed<Label<u64>>>) -> Result<(), AllocError> {
    match label {
        Some(label) => {
            let label = label.get();
            text.push_str(" count(")?;
            put_number(text, label.value)?;
            put_label_end(text, &label.text, label.opaque.as_slice(), label.at)
        }
        None => Ok(()),
    }
}

fn put_sort_label(
    text: &mut String,
    label: &Option<Boxed<Label<SortExpr>>>,
) -> Result<(), AllocError> {
    match label {
        Some(label) => {
            let label = label.get();
            text.push_str(" sort(")?;
            put_sort(text, &label.value)?;
            put_label_end(text, &label.text, label.opaque.as_slice(), label.at)
        }
        None => Ok(()),
    }
}

fn put_term_label(text: &mut String, label: &Option<Boxed<Label<Term>>>) -> Result<(), AllocError> {
    match label {
        Some(label) => {
            let label = label.get();
            text.push_str(" term(")?;
            put_term(text, &label.value)?;
            put_label_end(text, &label.text, label.opaque.as_slice(), label.at)
        }
        None => Ok(()),
    }
}

fn put_all_declarations(
    text: &mut String,
    labels: &[Label<Items<Declaration>>],
) -> Result<(), AllocError> {
    for label in labels {
        text.push_str(" declaration(")?;
        put_declarations(text, label.value.as_slice())?;
        put_label_end(text, &label.text, label.opaque.as_slice(), label.at)?;
    }
    Ok(())
}

fn put_place(text: &mut String, place: &Place) -> Result<(), AllocError> {
    put_start(text, " place(", &place.id)?;
    put_head(text, &place.head)?;
    put_count_label(text, &place.marking)?;
    put_sort_label(text, &place.sort)?;
    put_term_label(text, &place.hl_marking)?;
    put_end(text, place.at)
}

fn put_transition(text: &mut String, transition: &Transition) -> Result<(), AllocError> {
    put_start(text, " transition(", &transition.id)?;
    put_head(text, &transition.head)?;
    put_term_label(text, &transition.condition)?;
    put_end(text, transition.at)
}

fn put_arc(text: &mut String, arc: &Arc) -> Result<(), AllocError> {
    put_start(text, " arc(", &arc.id)?;
    put_start(text, " ", &arc.source)?;
    put_start(text, ">", &arc.target)?;
    put_head(text, &arc.head)?;
    put_count_label(text, &arc.weight)?;
    put_term_label(text, &arc.inscription)?;
    put_end(text, arc.at)
}

fn put_references(
    text: &mut String,
    word: &str,
    references: &[Reference],
) -> Result<(), AllocError> {
    for reference in references {
        put_start(text, word, &reference.id)?;
        put_start(text, "=", &reference.refers)?;
        put_head(text, &reference.head)?;
        put_end(text, reference.at)?;
    }
    Ok(())
}

fn put_places(text: &mut String, places: &[Place]) -> Result<(), AllocError> {
    for place in places {
        put_place(text, place)?;
    }
    Ok(())
}

fn put_transitions(text: &mut String, transitions: &[Transition]) -> Result<(), AllocError> {
    for transition in transitions {
        put_transition(text, transition)?;
    }
    Ok(())
}

fn put_arcs(text: &mut String, arcs: &[Arc]) -> Result<(), AllocError> {
    for arc in arcs {
        put_arc(text, arc)?;
    }
    Ok(())
}

#[cycle(put_pages)]
fn put_page(text: &mut String, page: &Page) -> Result<(), AllocError> {
    put_start(text, " page(", &page.id)?;
    put_head(text, &page.head)?;
    put_all_declarations(text, page.declarations.as_slice())?;
    put_places(text, page.places.as_slice())?;
    put_transitions(text, page.transitions.as_slice())?;
    put_references(text, " of_place(", page.place_refs.as_slice())?;
    put_references(text, " of_transition(", page.transition_refs.as_slice())?;
    put_arcs(text, page.arcs.as_slice())?;
    put_pages(text, page.pages.as_slice())?;
    put_end(text, page.at)
}

#[cycle(put_pages)]
fn put_pages(text: &mut String, pages: &[Page]) -> Result<(), AllocError> {
    for page in pages {
        put_page(text, page)?;
    }
    Ok(())
}

fn kind_word(kind: Kind) -> &'static str {
    match kind {
        Kind::PtNet => "ptnet(",
        Kind::Symmetric => "symmetricnet(",
        Kind::HighLevel => "highlevelnet(",
    }
}

fn put_prefixes(text: &mut String, prefixes: &[Prefix]) -> Result<(), AllocError> {
    for prefix in prefixes {
        put_start(text, " ", &prefix.name)?;
        put_start(text, "=", &prefix.address)?;
    }
    Ok(())
}

pub(crate) fn put_net(text: &mut String, net: &Net) -> Result<(), AllocError> {
    put_start(text, kind_word(net.kind), &net.id)?;
    put_prefixes(text, net.prefixes.as_slice())?;
    put_head(text, &net.head)?;
    put_all_declarations(text, net.declarations.as_slice())?;
    put_pages(text, net.pages.as_slice())?;
    put_end(text, net.at)
}
