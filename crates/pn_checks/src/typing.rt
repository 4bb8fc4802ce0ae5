//! The least fault of typing of a flat net, and its initial marking: one walk over its labels.

ghost use Rattle.std.specs.Prelude.{◌≡◌, ◌⊎◌, ◌<◌, ◌≤◌, ◌^◌, ℕ, List, [], Option, None, Some, Err, IfOk, IfSome, IsOk, OnOk, codes, length};
ghost use Rattle.std.specs.List.{AllZip, Contains, slice_get};
ghost use Rattle.pn_bag.specs.Bag.{IsBag};
ghost use Rattle.pn_bag.specs.declared.TheConstants.{MAX_COUNT};
ghost use Rattle.pn_checks.specs.Initial.{AreMarked, IsFirstOf, IsInitial};
ghost use Rattle.pn_checks.specs.LabelFaults.{ArcLabels, LabelStands, MarkingStands, PlaceLabels, TransitionLabels};
ghost use Rattle.pn_checks.specs.Linked.{IsLinked};
ghost use Rattle.pn_checks.specs.NoValue.{HasNoVariable, IsNoValue, IsNoValueOf, SaysMultiset};
ghost use Rattle.pn_checks.specs.Tokens.{Gets, IsEmptyAt, KeepsOthers};
ghost use Rattle.pn_checks.specs.SoundLabels.{AreCounted, HasSaidSort, HasSoundLabels, HasSoundTerm, HaveSaidSorts, HaveSortedLabels, HaveSoundTerms};
ghost use Rattle.pn_faults.specs.declared.fault.Fault.{Fault};
ghost use Rattle.pn_faults.specs.declared.fault.Refusal.TheVariants as Refusal;
ghost use Rattle.pn_faults.specs.Standing.{IsLeastOf};
ghost use Rattle.pn_faults.specs.Walks.{KeepsLeast, StandsInSome};
ghost use Rattle.pn_net.specs.Flattening.{IsFlattened, net_of_flat};
ghost use Rattle.pn_net.specs.Labels.{IsPlaceSort, said};
ghost use Rattle.pn_net.specs.Links.{StandsInLinks};
ghost use Rattle.pn_net.specs.Orders.{token_cmp};
ghost use Rattle.pn_net.specs.Sound.{HasSoundSort, HaveSoundSorts};
ghost use Rattle.pn_net.specs.Typed.{HasTypedLabels};
ghost use Rattle.pn_net.specs.Typing.{IsTermOver, StandsInSorts, StandsInTyping};
ghost use Rattle.pn_net.specs.declared.flat.FlatArc.{FlatArc};
ghost use Rattle.pn_objects.specs.declared.net.Net.{Net};
ghost use Rattle.pn_objects.specs.declared.object.Place.{Place};
ghost use Rattle.pn_resolve.specs.Meaning.{Resolves};
ghost use Rattle.pn_resolve.specs.Standing.{StandsInSort};
ghost use Rattle.pn_sorts.specs.Standing.{IsFaultless};
ghost use Rattle.pn_terms.specs.Sorts.{HasSort};
ghost use Rattle.pn_terms.specs.Standing.{HasSoundSorts};
ghost use Rattle.pn_terms.specs.declared.term_sort.TermSort.{TermSort};
ghost use Rattle.pn_tree.specs.declared.element.Element.{Element};
ghost use Rattle.pn_values.specs.declared.value.Value.{Value};

use crate::labels::{keep_at_place, keep_condition, keep_variables};
use crate::tokens::{has_tokens, put_number, put_outcome};
use pn_bag::Bag;
use pn_eval::eval;
use pn_eval::laws::a_term_has_one_value;
use pn_faults::{Fault, Reason, Refusal, keep_least_at};
use pn_net::{Flat, FlatArc, Marking};
use pn_objects::{Place, Transition};
use pn_sorts::{Decls, Sort};
use pn_syntax::{SortExpr, Term};
use sqlite_items::Items;
use std::alloc::{AllocError, Global};

/// The initial marking of a flat net (ISO/IEC 15909-1, high-level nets), in which no fault of sorts
/// stands. Each label's term is typed once, and each initial marking evaluated once. Its time is
/// linear in the net and in the sorts and values of its labels.
///
/// # Errors
///
/// `Refusal::Fault` with the least fault of typing exactly where one stands, and `Refusal::Memory`
/// where there is no memory.
pub(crate) fn typing(alloc: Global, flat: &Flat, decls: &Decls) -> Result<Marking, Refusal>
    requires declared { decls.now ≡ flat.now.declarations }
    requires linked { (tree : Element) × IsLinked tree flat.now }
    requires sound { (net : Net) → IsFlattened net (net_of_flat flat.now) → (f : Fault) → StandsInSorts net f → ⊥ }
    ensures fault { (f : Fault) → result ≡ Err (Refusal.Fault f) → (net : Net) → IsFlattened net (net_of_flat flat.now)
        → ((g : Fault) → StandsInLinks net g → ⊥) → IsLeastOf (λ g. StandsInTyping net g ⊎ IsNoValue net g) (Some f) }
    ensures clean { IsOk result → (net : Net) → IsFlattened net (net_of_flat flat.now)
        → ((g : Fault) → StandsInLinks net g → ⊥) → (f : Fault) → StandsInTyping net f ⊎ IsNoValue net f → ⊥ }
    ensures initial { IfOk result (IsInitial flat.now) }
    ensures typed { IsOk result → HasTypedLabels flat.now }
{
    let mut marking = Bag::new(alloc);
    let mut least = None;
    match keep_labels(alloc, flat, decls, &mut marking, &mut least) {
        Ok(()) => told(marking, least),
        Err(error) => Err(Refusal::Memory(error)),
    }
}

/// The marking, or the fault where one was kept.
fn told(marking: Marking, least: Option<Fault>) -> Result<Marking, Refusal>
    ensures fault { (f : Fault) → result ≡ Err (Refusal.Fault f) → least ≡ Some f }
    ensures clean { IsOk result → least ≡ None }
    ensures marking { IfOk result (λ m. m ≡ marking) }
    ensures bag { IfOk result (IsBag token_cmp) }
{
    match least {
        Some(fault) => Err(Refusal::Fault(fault)),
        None => Ok(marking),
    }
}

/// Keeps the least fault of typing in all labels, and puts the tokens of all initial markings.
fn keep_labels(
    alloc: Global,
    flat: &Flat,
    decls: &Decls,
    marking: &mut Marking,
    least: &mut Option<Fault>,
) -> Result<(), AllocError>
    requires faultless { IsFaultless decls.now }
    requires sound { HasSoundLabels decls.now flat.now }
    requires counted { AreCounted flat.now.places }
    requires numbered { length flat.now.places < 2 ^ 32 }
    requires wired { (a : FlatArc) → Contains flat.now.arcs a → a.place < length flat.now.places }
    requires unmarked { marking.old ≡ [] }
    requires first { least.old ≡ None }
    ensures least { OnOk result (KeepsLeast (λ f. (StandsInSome (PlaceLabels decls.now) flat.now.places f ⊎ StandsInSome (TransitionLabels decls.now) flat.now.transitions f)
        ⊎ StandsInSome (ArcLabels decls.now flat.now.places) flat.now.arcs f) least.old least.new) }
    ensures marked { OnOk result (least.new ≡ None → AreMarked (SaysMultiset decls.now) flat.now.places marking.new) }
    ensures sorted { OnOk result (least.new ≡ None → HaveSortedLabels decls.now flat.now) }
{
    let sorts = place_sorts(alloc, decls, flat.places.as_slice())?;
    keep_places(
        alloc,
        decls,
        flat.places.as_slice(),
        sorts.as_slice(),
        marking,
        least,
    )?;
    keep_transitions(alloc, decls, flat.transitions.as_slice(), least)?;
    keep_arcs(alloc, decls, sorts.as_slice(), flat.arcs.as_slice(), least)
}

/// The same of the initial markings of places.
fn keep_places(
    alloc: Global,
    decls: &Decls,
    places: &[Place],
    sorts: &[Sort],
    marking: &mut Marking,
    least: &mut Option<Fault>,
) -> Result<(), AllocError>
    requires faultless { IsFaultless decls.now }
    requires sound { HaveSoundTerms decls.now (λ p. said p.hl_marking) places.now }
    requires sorts { AllZip (IsPlaceSort decls.now) places.now sorts.now }
    requires counted { AreCounted places.now }
    requires numbered { length places.now < 2 ^ 32 }
    requires unmarked { marking.old ≡ [] }
    requires first { least.old ≡ None }
    ensures least { OnOk result (KeepsLeast (StandsInSome (PlaceLabels decls.now) places.now) least.old least.new) }
    ensures marked { OnOk result (least.new ≡ None → AreMarked (SaysMultiset decls.now) places.now marking.new) }
{
    for i in 0..places.len() {
        keep_place(
            alloc, decls, &places[i], &sorts[i], i as u32, marking, least,
        )?;
    }
    Ok(())
}

/// The same of one place of this number, on which nothing stands yet.
fn keep_place(
    alloc: Global,
    decls: &Decls,
    place: &Place,
    sort: &Sort,
    number: u32,
    marking: &mut Marking,
    least: &mut Option<Fault>,
) -> Result<(), AllocError>
    requires faultless { IsFaultless decls.now }
    requires sound { HasSoundTerm decls.now (said place.now.hl_marking) }
    requires sort { IsPlaceSort decls.now place.now sort.now }
    requires counted { IfSome (said place.now.marking) (λ n. n ≤ MAX_COUNT) }
    requires empty { IsEmptyAt number marking.old }
    ensures least { OnOk result (KeepsLeast (PlaceLabels decls.now place.now) least.old least.new) }
    ensures gets { OnOk result (least.new ≡ None → (bag : List (Value × ℕ)) × IsFirstOf (SaysMultiset decls.now) place.now bag × Gets number bag marking.old marking.new) }
    ensures others { OnOk result (KeepsOthers number marking.old marking.new) }
{
    match &place.hl_marking {
        Some(label) => {
            keep_marking(
                alloc,
                decls,
                &label.get().value,
                sort,
                number,
                marking,
                least,
            )
        }
        None => put_number(marking, number, &place.marking),
    }
}

/// The same of an initial marking on a place of this number and this sort.
fn keep_marking(
    alloc: Global,
    decls: &Decls,
    term: &Term,
    sort: &Sort,
    number: u32,
    marking: &mut Marking,
    least: &mut Option<Fault>,
) -> Result<(), AllocError>
    requires faultless { IsFaultless decls.now }
    requires sound { HasSoundSorts decls.now term.now }
    requires empty { IsEmptyAt number marking.old }
    ensures least { OnOk result ((p : Place) → IsPlaceSort decls.now p sort.now → KeepsLeast (MarkingStands decls.now p term.now) least.old least.new) }
    ensures gets { OnOk result (least.new ≡ None → (bag : List (Value × ℕ)) × SaysMultiset decls.now term.now bag × Gets number bag marking.old marking.new) }
    ensures others { OnOk result (KeepsOthers number marking.old marking.new) }
{
    let is_right = keep_at_place(alloc, decls, sort, "hlinitialMarking", term, least)?;
    let is_ground = keep_variables(alloc, term, least)?;
    if is_right && is_ground {
        return keep_value(alloc, decls, term, sort, number, marking, least);
    }
    Ok(())
}

/// The same of one of the right sort, without variables: keeps that it has no value, or one outside
/// the place's own sort.
fn keep_value(
    alloc: Global,
    decls: &Decls,
    term: &Term,
    sort: &Sort,
    number: u32,
    marking: &mut Marking,
    least: &mut Option<Fault>,
) -> Result<(), AllocError>
    requires faultless { IsFaultless decls.now }
    requires sound { HasSoundSorts decls.now term.now }
    requires right { (s : TermSort) × HasSort decls.now term.now s × IsTermOver sort.now s }
    requires ground { HasNoVariable term.now }
    requires empty { IsEmptyAt number marking.old }
    ensures least { OnOk result ((p : Place) → IsPlaceSort decls.now p sort.now → KeepsLeast (IsNoValueOf decls.now p term.now) least.old least.new) }
    ensures gets { OnOk result (least.new ≡ None → (bag : List (Value × ℕ)) × SaysMultiset decls.now term.now bag × Gets number bag marking.old marking.new) }
    ensures others { OnOk result (KeepsOthers number marking.old marking.new) }
{
    a_term_has_one_value();
    let outcome = eval(alloc, decls, term, &[], &[])?;
    if has_tokens(decls, sort, &outcome) {
        return put_outcome(alloc, marking, number, outcome);
    }
    keep_least_at(least, alloc, Reason::NoValue, term.at, "hlinitialMarking")
}

/// The same of the conditions of transitions.
fn keep_transitions(
    alloc: Global,
    decls: &Decls,
    transitions: &[Transition],
    least: &mut Option<Fault>,
) -> Result<(), AllocError>
    requires faultless { IsFaultless decls.now }
    requires sound { HaveSoundTerms decls.now (λ t. said t.condition) transitions.now }
    ensures least { OnOk result (KeepsLeast (StandsInSome (TransitionLabels decls.now) transitions.now) least.old least.new) }
    ensures sorted { OnOk result (least.new ≡ None → HaveSaidSorts decls.now (λ t. said t.condition) transitions.now) }
{
    for transition in transitions {
        keep_transition(alloc, decls, transition, least)?;
    }
    Ok(())
}

/// The same of one transition.
fn keep_transition(
    alloc: Global,
    decls: &Decls,
    transition: &Transition,
    least: &mut Option<Fault>,
) -> Result<(), AllocError>
    requires faultless { IsFaultless decls.now }
    requires sound { HasSoundTerm decls.now (said transition.now.condition) }
    ensures least { OnOk result (KeepsLeast (TransitionLabels decls.now transition.now) least.old least.new) }
    ensures sorted { OnOk result (least.new ≡ None → HasSaidSort decls.now (said transition.now.condition)) }
{
    match &transition.condition {
        Some(label) => keep_condition(alloc, decls, &label.get().value, least),
        None => Ok(()),
    }
}

/// The same of the inscriptions of arcs.
fn keep_arcs(
    alloc: Global,
    decls: &Decls,
    sorts: &[Sort],
    arcs: &[FlatArc],
    least: &mut Option<Fault>,
) -> Result<(), AllocError>
    requires faultless { IsFaultless decls.now }
    requires sound { HaveSoundTerms decls.now (λ a. said a.arc.inscription) arcs.now }
    requires wired { (a : FlatArc) → Contains arcs.now a → a.place < length sorts.now }
    ensures least { OnOk result ((places : List Place) → AllZip (IsPlaceSort decls.now) places sorts.now
        → KeepsLeast (StandsInSome (ArcLabels decls.now places) arcs.now) least.old least.new) }
    ensures sorted { OnOk result ((places : List Place) → AllZip (IsPlaceSort decls.now) places sorts.now
        → least.new ≡ None → HaveSaidSorts decls.now (λ a. said a.arc.inscription) arcs.now) }
{
    for arc in arcs {
        keep_arc(alloc, decls, arc, &sorts[arc.place as usize], least)?;
    }
    Ok(())
}

/// The same of one arc at a place of this sort.
fn keep_arc(
    alloc: Global,
    decls: &Decls,
    arc: &FlatArc,
    sort: &Sort,
    least: &mut Option<Fault>,
) -> Result<(), AllocError>
    requires faultless { IsFaultless decls.now }
    requires sound { HasSoundTerm decls.now (said arc.now.arc.inscription) }
    ensures least { OnOk result ((places : List Place) (p : Place) → slice_get places arc.now.place ≡ Some p → IsPlaceSort decls.now p sort.now
        → KeepsLeast (ArcLabels decls.now places arc.now) least.old least.new) }
    ensures sorted { OnOk result (least.new ≡ None → HasSaidSort decls.now (said arc.now.arc.inscription)) }
{
    match &arc.arc.inscription {
        Some(label) => keep_inscription(alloc, decls, sort, &label.get().value, least),
        None => Ok(()),
    }
}

/// The same of an inscription at a place of this sort.
fn keep_inscription(
    alloc: Global,
    decls: &Decls,
    sort: &Sort,
    term: &Term,
    least: &mut Option<Fault>,
) -> Result<(), AllocError>
    requires faultless { IsFaultless decls.now }
    requires sound { HasSoundSorts decls.now term.now }
    ensures least { OnOk result (KeepsLeast (LabelStands decls.now (IsTermOver sort.now) (codes "hlinscription") term.now) least.old least.new) }
    ensures sorted { OnOk result (least.new ≡ None → (s : TermSort) × HasSort decls.now term.now s) }
{
    keep_at_place(alloc, decls, sort, "hlinscription", term, least)?;
    Ok(())
}

/// The sorts of places.
fn place_sorts(alloc: Global, decls: &Decls, places: &[Place]) -> Result<Items<Sort>, AllocError>
    requires faultless { IsFaultless decls.now }
    requires sound { HaveSoundSorts decls.now places.now }
    ensures { IfOk result (AllZip (IsPlaceSort decls.now) places.now) }
{
    let mut sorts = Items::new(alloc);
    for place in places {
        sorts.push(place_sort(alloc, decls, place)?)?;
    }
    Ok(sorts)
}

/// The sort of a place.
fn place_sort(alloc: Global, decls: &Decls, place: &Place) -> Result<Sort, AllocError>
    requires faultless { IsFaultless decls.now }
    requires sound { HasSoundSort decls.now (said place.now.sort) }
    ensures { IfOk result (IsPlaceSort decls.now place.now) }
{
    match &place.sort {
        Some(label) => resolved(alloc, decls, &label.get().value),
        None => Ok(Sort::Dot),
    }
}

/// The sort that a sound expression writes.
fn resolved(alloc: Global, decls: &Decls, expr: &SortExpr) -> Result<Sort, AllocError>
    requires faultless { IsFaultless decls.now }
    requires sound { (f : Fault) → StandsInSort decls.now expr.now f → ⊥ }
    ensures { IfOk result (Resolves decls.now expr.now) }
{
    match decls.resolve(alloc, expr) {
        Ok(sort) => Ok(sort),
        Err(Refusal::Memory(error)) => Err(error),
        Err(Refusal::Fault(_)) => unreachable!(),
    }
}
