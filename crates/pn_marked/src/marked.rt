//! A net with another marking as its initial one.

ghost use Rattle.std.specs.Prelude.{◌≡◌, ◌<◌, ◌≤◌, ◌∷◌, [], pos, length, None, IfOk, OnOk};
ghost use Rattle.std.specs.List.{Contains};
ghost use Rattle.std.specs.Option.{option_map};
ghost use Rattle.pn_bag.specs.Counts.{count_of};
ghost use Rattle.pn_bag.specs.declared.TheConstants.{MAX_COUNT};
ghost use Rattle.pn_checks.specs.Initial.{token};
ghost use Rattle.pn_net.specs.Orders.{token_cmp};
ghost use Rattle.pn_net.specs.Typed.{IsSortOfPlace};
ghost use Rattle.pn_net.specs.declared.flat.FlatArc.{FlatArc};
ghost use Rattle.pn_operators.specs.declared.kind.Kind.TheVariants as kinds;
ghost use Rattle.pn_pages.specs.Flat.{HasEnds};
ghost use Rattle.pn_operators.specs.declared.op.Op.TheVariants as op;
ghost use Rattle.pn_syntax.specs.declared.term.NumberSort.TheVariants as numbers;
ghost use Rattle.pn_syntax.specs.declared.term.TermNode.TheVariants as nodes;
ghost use Rattle.pn_values.specs.declared.sort.Sort.{Sort};
ghost use Rattle.pn_values.specs.declared.value.Value.TheVariants as values;
ghost use Rattle.pn_marked.specs.Ground.{applied, term_of_node};
ghost use Rattle.pn_marking.specs.Totals.{AreTokensOf, IsTokenOf};
ghost use Rattle.pn_marked.specs.Marked.{AreMarkedPlaces, IsMarkedNet, label_of, net_with_places, number_label, so_often, sum_term};
ghost use Rattle.pn_marked.specs.Gathering.{AreMadeFor, AreNone, AreTermsOn, IsGrownAt, IsPlaceWith};

use crate::terms::{apply, term_of};
use pn_net::{Flat, Marking, Token, Typed};
use pn_objects::{Label, Net, Place};
use pn_operators::{Kind, Op};
use pn_pages::flat_net;
use pn_syntax::{NumberSort, Term, TermNode};
use pn_values::Value;
use sqlite_items::{Boxed, Items};
use std::alloc::{AllocError, Global};

/// The flat net as a net of one page with this marking as its initial one (ISO/IEC 15909-2, initial
/// markings): in a place/transition net the number of tokens of each place, in the other kinds the
/// term of its values, with their counts and in their order. A place without tokens has no initial
/// marking, and what the flat net has as one is gone, with its text and its other parts.
///
/// The time is linear in the net and in the marking, but for looking up the tokens of a
/// place/transition net.
pub fn with_marking(alloc: Global, net: &Typed, marking: &Marking) -> Result<Net, AllocError>
    requires tokens { AreTokensOf net.now marking.now }
    ensures marked { IfOk result (IsMarkedNet net.now marking.now) }
{
    let places = marked_places(alloc, net, marking)?;
    with_places(alloc, net.flat(), places)
}

/// A flat net as a net, with these places.
fn with_places(alloc: Global, flat: &Flat, places: Items<Place>) -> Result<Net, AllocError>
    requires { (a : FlatArc) → Contains flat.now.arcs a → HasEnds flat.now a }
    ensures { IfOk result (λ net. net ≡ net_with_places flat.now places) }
{
    let mut net = flat_net(alloc, flat)?;
    match net.pages.pop() {
        Some(mut page) => {
            page.places = places;
            net.pages.push(page)?;
            Ok(net)
        }
        None => unreachable!(),
    }
}

/// The places of the net, with what stands on each.
fn marked_places(alloc: Global, net: &Typed, marking: &Marking) -> Result<Items<Place>, AllocError>
    requires tokens { AreTokensOf net.now marking.now }
    ensures { IfOk result (AreMarkedPlaces net.now marking.now) }
{
    match net.flat().kind {
        Kind::PtNet => plain_places(alloc, net.flat(), marking),
        _ => coloured_places(alloc, net, marking),
    }
}

/// The places of a place/transition net, with their numbers of tokens.
fn plain_places(alloc: Global, flat: &Flat, marking: &Marking) -> Result<Items<Place>, AllocError>
    requires kind { flat.now.kind ≡ kinds.PtNet }
    ensures { IfOk result (AreMarkedPlaces flat.now marking.now) }
{
    let places = flat.places.as_slice();
    let mut all = Items::new(alloc);
    for i in 0..places.len() {
        all.push(plain_place(alloc, &places[i], count_on(marking, i)?)?)?;
    }
    Ok(all)
}

/// How many tokens are on a place of a place/transition net.
fn count_on(marking: &Marking, place: usize) -> Result<u64, AllocError>
    ensures { IfOk result (λ count. count ≡ count_of token_cmp marking.now (token place values.Dot)) }
{
    match u32::try_from(place) {
        Ok(place) => Ok(marking.count(&Token {
            place,
            value: Value::Dot,
        })),
        Err(_) => Err(AllocError),
    }
}

/// A place with this number of tokens.
fn plain_place(alloc: Global, place: &Place, count: u64) -> Result<Place, AllocError>
    ensures { IfOk result (λ marked. marked ≡ record place.now { marking = number_label count; hl_marking = None }) }
{
    let mut marked = place.copy(alloc)?;
    marked.hl_marking = None;
    marked.marking = label_of_count(alloc, count)?;
    Ok(marked)
}

fn label_of_count(alloc: Global, count: u64) -> Result<Option<Boxed<Label<u64>>>, AllocError>
    ensures { IfOk result (λ label. label ≡ number_label count) }
{
    if count == 0 {
        return Ok(None);
    }
    let label = Label {
        value: count,
        text: None,
        opaque: Items::new(alloc),
        at: 0,
    };
    Ok(Some(Boxed::new(alloc, label)?))
}

/// The places of a net of another kind, with the terms of their values.
fn coloured_places(
    alloc: Global,
    net: &Typed,
    marking: &Marking,
) -> Result<Items<Place>, AllocError>
    requires tokens { AreTokensOf net.now marking.now }
    requires kind { net.now.kind ≡ kinds.PtNet → ⊥ }
    ensures { IfOk result (AreMarkedPlaces net.now marking.now) }
{
    let terms = terms_on(alloc, net, marking)?;
    places_with(alloc, net, &terms)
}

/// The places of the net with these terms.
fn places_with(
    alloc: Global,
    net: &Typed,
    terms: &[Items<Term>],
) -> Result<Items<Place>, AllocError>
    requires { length terms.now ≡ length net.now.places }
    ensures { IfOk result (λ all. AreMadeFor (IsPlaceWith net.now.declarations terms.now) net.now.places all (length net.now.places)) }
{
    let places = net.flat().places.as_slice();
    let mut all = Items::new(alloc);
    for i in 0..places.len() {
        has_sort(net, i)?;
        all.push(coloured_place(alloc, &places[i], &terms[i])?)?;
    }
    Ok(all)
}

/// A place has a sort.
fn has_sort(net: &Typed, place: usize) -> Result<(), AllocError>
    requires { place < length net.now.places }
    ensures { OnOk result ((sort : Sort) × IsSortOfPlace net.now place sort) }
{
    match u32::try_from(place) {
        Ok(place) => {
            let _sort = net.place_sort(place);
            Ok(())
        }
        Err(_) => Err(AllocError),
    }
}

/// A place with this sum of terms.
fn coloured_place(alloc: Global, place: &Place, terms: &Items<Term>) -> Result<Place, AllocError>
    ensures { IfOk result (λ marked. marked ≡ record place.now { marking = None; hl_marking = option_map label_of (sum_term terms.now) }) }
{
    let mut marked = place.copy(alloc)?;
    marked.marking = None;
    marked.hl_marking = label_of_sum(alloc, terms.as_slice())?;
    Ok(marked)
}

fn label_of_sum(alloc: Global, terms: &[Term]) -> Result<Option<Boxed<Label<Term>>>, AllocError>
    ensures { IfOk result (λ label. label ≡ option_map label_of (sum_term terms.now)) }
{
    match terms.len() {
        0 => Ok(None),
        1 => Ok(Some(label_of_term(alloc, terms[0].copy(alloc)?)?)),
        _ => Ok(Some(label_of_term(alloc, apply(Op::Add, copy_all(alloc, terms)?))?)),
    }
}

fn label_of_term(alloc: Global, value: Term) -> Result<Boxed<Label<Term>>, AllocError>
    ensures { IfOk result (λ label. label ≡ label_of value) }
{
    Boxed::new(
        alloc,
        Label {
            value,
            text: None,
            opaque: Items::new(alloc),
            at: 0,
        },
    )
}

fn copy_all(alloc: Global, terms: &[Term]) -> Result<Items<Term>, AllocError>
    ensures { IfOk result (λ all. all ≡ terms.now) }
{
    let mut all = Items::new(alloc);
    for term in terms {
        all.push(term.copy(alloc)?)?;
    }
    Ok(all)
}

/// For each place the terms of the values on it, in their order.
fn terms_on(alloc: Global, net: &Typed, marking: &Marking) -> Result<Vec<Items<Term>>, AllocError>
    requires tokens { AreTokensOf net.now marking.now }
    ensures { IfOk result (λ terms. AreTermsOn net.now marking.now terms.items) }
{
    let mut terms = no_terms(alloc, net.flat().places.len())?;
    for (token, count) in marking.iter() {
        let term = term_of_tokens(alloc, net, token, count)?;
        add_term(&mut terms, token.place, term)?;
    }
    Ok(terms)
}

/// No terms on any of so many places.
fn no_terms(alloc: Global, count: usize) -> Result<Vec<Items<Term>>, AllocError>
    ensures { IfOk result (λ terms. AreNone count terms.items) }
{
    let mut terms = Vec::with_capacity(alloc, count)?;
    for _ in 0..count {
        terms.push(Items::new(alloc))?;
    }
    Ok(terms)
}

fn add_term(terms: &mut Vec<Items<Term>>, place: u32, term: Term) -> Result<(), AllocError>
    requires { place < length terms.old.items }
    ensures { OnOk result (IsGrownAt place term terms.old.items terms.new.items) }
{
    terms[place as usize].push(term)
}

/// The term of so many tokens.
fn term_of_tokens(alloc: Global, net: &Typed, token: &Token, count: u64) -> Result<Term, AllocError>
    requires token { IsTokenOf net.now token.now }
    requires counted { count ≤ MAX_COUNT }
    ensures { IfOk result (λ term. (sort : Sort) → IsSortOfPlace net.now token.now.place sort → term ≡ so_often net.now.declarations sort (token.now.value, count)) }
{
    let value = term_of(
        alloc,
        net.decls(),
        net.place_sort(token.place),
        &token.value,
    )?;
    numberof(alloc, count, value)
}

/// A value so often.
fn numberof(alloc: Global, count: u64, value: Term) -> Result<Term, AllocError>
    requires { count ≤ MAX_COUNT }
    ensures { IfOk result (λ term. term ≡ applied op.NumberOf (term_of_node (nodes.Number (pos count) numbers.Positive) ∷ value ∷ [])) }
{
    let mut args = Items::new(alloc);
    args.push(number_term(count))?;
    args.push(value)?;
    Ok(apply(Op::NumberOf, args))
}

fn number_term(count: u64) -> Term
    requires { count ≤ MAX_COUNT }
    ensures { result ≡ term_of_node (nodes.Number (pos count) numbers.Positive) }
{
    Term {
        at: 0,
        node: TermNode::Number {
            value: count as i64,
            sort: NumberSort::Positive,
        },
    }
}
