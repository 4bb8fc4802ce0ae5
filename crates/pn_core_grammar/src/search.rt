//! What stands in an object or a label, read in one pass.

ghost use Rattle.std.specs.Prelude.{◌≡◌, [], ◌∷◌, ◌++◌, Some, IfOk, OnOk};
ghost use Rattle.std.specs.Option.{option_map, option_or, unwrap_or};
ghost use Rattle.pn_tree.specs.Views.{element_of};
ghost use Rattle.std.specs.List.{find};
ghost use Rattle.pn_spelling.specs.Parts.{has_name};
ghost use Rattle.pn_spelling.specs.ReadNets.{child_or_self, inner_or_self};
ghost use Rattle.pn_core_grammar.specs.Inside.{IsFoundIn, kid_elements, name_noted, noted, noted_kid};

use pn_spelling::first_element;
use pn_tree::{Kid, Tree, View};
use sqlite_items::Items;
use std::alloc::{AllocError, Global};

/// What stands in an object or a label: the first element of each name, and the parts that are kept
/// as they are.
#[derive(Drop)]
pub(crate) struct Inside<'a> {
    pub name: Option<View<'a>>,
    pub text: Option<View<'a>>,
    pub structure: Option<View<'a>>,
    pub marking: Option<View<'a>>,
    pub sort: Option<View<'a>>,
    pub hl_marking: Option<View<'a>>,
    pub condition: Option<View<'a>>,
    pub weight: Option<View<'a>>,
    pub inscription: Option<View<'a>>,
    pub opaque: Items<Tree>,
}

/// What stands in an element. One pass over its kids, in any order.
pub(crate) fn look_into<'a>(alloc: Global, view: View<'a>) -> Result<Inside<'a>, AllocError>
    ensures { IfOk result (IsFoundIn (element_of view.entry)) }
{
    let mut inside = Inside {
        name: None,
        text: None,
        structure: None,
        marking: None,
        sort: None,
        hl_marking: None,
        condition: None,
        weight: None,
        inscription: None,
        opaque: Items::new(alloc),
    };
    for i in 0..view.kid_count() {
        note_kid(alloc, &mut inside, view.kid(i))?;
    }
    Ok(inside)
}

fn note_kid<'a>(alloc: Global, inside: &mut Inside<'a>, kid: Kid<'a>) -> Result<(), AllocError>
    ensures { OnOk result (inside.new ≡ noted_kid kid.entry inside.old) }
{
    match kid {
        Kid::Element(view) => note(alloc, inside, view),
        Kid::Text(_) => Ok(()),
    }
}

fn note<'a>(alloc: Global, inside: &mut Inside<'a>, view: View<'a>) -> Result<(), AllocError>
    ensures { OnOk result (inside.new ≡ noted view.entry inside.old) }
{
    match view.name() {
        "graphics" => keep_opaque(alloc, &mut inside.opaque, view),
        "toolspecific" => keep_opaque(alloc, &mut inside.opaque, view),
        _ => {
            note_name(inside, view);
            Ok(())
        }
    }
}

/// Notes an element that may be the first of its name.
fn note_name<'a>(inside: &mut Inside<'a>, view: View<'a>)
    ensures { inside.new ≡ name_noted view.entry inside.old }
{
    match view.name() {
        "name" => keep_first(&mut inside.name, view),
        "text" => keep_first(&mut inside.text, view),
        "structure" => keep_first(&mut inside.structure, view),
        "initialMarking" => keep_first(&mut inside.marking, view),
        "type" => keep_first(&mut inside.sort, view),
        "hlinitialMarking" => keep_first(&mut inside.hl_marking, view),
        "condition" => keep_first(&mut inside.condition, view),
        "inscription" => keep_first(&mut inside.weight, view),
        "hlinscription" => keep_first(&mut inside.inscription, view),
        _ => {}
    }
}

fn keep_first<'a>(place: &mut Option<View<'a>>, view: View<'a>)
    ensures { place.new ≡ option_or place.old (Some view.entry) }
{
    if place.is_none() {
        *place = Some(view);
    }
}

/// Keeps an element as it is. There is seldom more than one in an object or a label, so the first
/// takes room for itself alone.
pub(crate) fn keep_opaque(
    alloc: Global,
    opaque: &mut Items<Tree>,
    view: View<'_>,
) -> Result<(), AllocError>
    ensures { OnOk result (opaque.new ≡ opaque.old ++ element_of view.entry ∷ []) }
{
    let part = view.copy(alloc)?;
    if opaque.is_empty() {
        keep_alone(alloc, opaque, part)
    } else {
        opaque.push(part)
    }
}

/// Keeps the first part.
fn keep_alone(alloc: Global, opaque: &mut Items<Tree>, part: Tree) -> Result<(), AllocError>
    requires { opaque.old ≡ [] }
    ensures { OnOk result (opaque.new ≡ part ∷ []) }
{
    let mut parts = Vec::with_capacity(alloc, 1)?;
    parts.push(part)?;
    *opaque = Items::from_vec(parts);
    Ok(())
}

/// What was found, or else this.
pub(crate) fn or_self<'a>(found: Option<View<'a>>, view: View<'a>) -> View<'a>
    ensures { element_of result ≡ unwrap_or (option_map element_of found.entry) (element_of view.entry) }
{
    match found {
        Some(inner) => inner,
        None => view,
    }
}

/// The element in the `structure` of a label.
pub(crate) fn structured<'a>(structure: Option<View<'a>>, view: View<'a>) -> View<'a>
    ensures { element_of result ≡ inner_or_self (unwrap_or (option_map element_of structure.entry) (element_of view.entry)) }
{
    let structure = or_self(structure, view);
    match first_element(structure) {
        Some(inner) => inner,
        None => structure,
    }
}

/// The first element of this name in an element, or the element itself where there is none.
pub(crate) fn first_or_self<'a>(view: View<'a>, name: &str) -> View<'a>
    ensures { element_of result ≡ child_or_self name.now (element_of view.entry) }
{
    for i in 0..view.kid_count() {
        if let Some(inner) = named(view.kid(i), name) {
            return inner;
        }
    }
    view
}

/// The element that a kid is, where it has this name.
fn named<'a>(kid: Kid<'a>, name: &str) -> Option<View<'a>>
    ensures { option_map element_of result ≡ find (has_name name.now) (kid_elements kid.entry) }
{
    match kid {
        Kid::Element(inner) => {
            if inner.name() == name {
                Some(inner)
            } else {
                None
            }
        }
        Kid::Text(_) => None,
    }
}
