//! The walk: an element, its kids one by one, what stands in them.

ghost use Rattle.std.specs.Prelude.{◌≡◌, ◌<◌, ◌≤◌, ◌+◌, ◌-◌, ◌^◌, ◌++◌, ◌∷◌, [], ℕ, List, length, take, Some, OnOk, IfOk, if◌then◌else◌};
ghost use Rattle.std.specs.List.{slice_get, slice_index};
ghost use Rattle.pn_faults.specs.Least.{least_fault};
ghost use Rattle.pn_faults.specs.Order.{fault_at};
ghost use Rattle.pn_faults.specs.declared.reason.Reason.TheVariants.{UnknownElement};
ghost use Rattle.pn_tree.specs.declared.element.Child.TheVariants as children;
ghost use Rattle.pn_tree.specs.Views.{element_of};
ghost use Rattle.pn_tree.specs.declared.element.Child.{Child};
ghost use Rattle.pn_tree.specs.declared.element.Child.TheViews.{out-Child};
ghost use Rattle.pn_shape.specs.Faults.{kind_inside, layer_faults, kids_faults, element_faults, spot_faults, row_faults, all_faults, fill_faults, shape_faults};
ghost use Rattle.pn_shape.specs.Rules.{said_by};
ghost use Rattle.pn_shape_faults.specs.Keeping.{KeepsLower, Counted};

use crate::attrs::{ask_attrs, ask_lacks};
use crate::keep::keep;
use crate::kids::{
    ask_missing, ask_text, asks_inside, count_one, is_opaque, over_reason, stray_fault,
};
use pn_faults::{Fault, Reason};
use pn_operators::Kind;
use pn_shape::{Content, Fill, Over, Rule, Slot, Tag, find_tag, net_kind, rule_of, spot_among};
use pn_tree::{Kid, Tree, View};
use std::alloc::{AllocError, Global};

/// The kind of net that the elements in an element are of.
fn kind_inside(kind: Kind, content: Content, view: View<'_>) -> Option<Kind>
    ensures { result ≡ kind_inside kind content (element_of view.entry).attrs }
{
    match content {
        Content::Net => match view.find_attr("type") {
            Some(value) => net_kind(value),
            None => None,
        },
        Content::Elements => Some(kind),
        Content::Characters => Some(kind),
        Content::Count { least: _ } => Some(kind),
        Content::Opaque => Some(kind),
    }
}

/// Keeps the least fault at and in an element of this tag, in a net of this kind.
#[cycle(ask)]
fn ask(
    least: &mut Option<Fault>,
    alloc: Global,
    kind: Kind,
    tag: Tag,
    view: View<'_>,
) -> Result<(), AllocError>
    ensures { OnOk result (KeepsLower least.old least.new (all_faults kind tag (element_of view.entry))) }
{
    let rule = rule_of(tag);
    if is_opaque(rule.content) {
        return Ok(());
    }
    match kind_inside(kind, rule.content, view) {
        Some(inside) => ask_row(least, alloc, true, inside, rule, view),
        None => ask_row(least, alloc, false, Kind::PtNet, rule, view),
    }
}

/// Keeps the least fault at and in an element with this row, where something or nothing is asked of
/// the elements in it, which are those of a net of this kind.
#[cycle(ask)]
fn ask_row(
    least: &mut Option<Fault>,
    alloc: Global,
    asks: bool,
    kind: Kind,
    rule: Rule,
    view: View<'_>,
) -> Result<(), AllocError>
    requires few { length rule.slots.now ≤ 9 }
    ensures { OnOk result (KeepsLower least.old least.new (row_faults all_faults asks kind (said_by rule) (element_of view.entry))) }
{
    ask_attrs(least, alloc, rule, view)?;
    ask_lacks(least, alloc, rule, view)?;
    ask_text(least, alloc, rule.content, view)?;
    let mut counts = [0; 9];
    ask_kids(least, alloc, &mut counts, asks, kind, rule, view)?;
    ask_missing(least, alloc, kind, rule.slots, &counts, view)
}

/// Keeps the least fault at and in the kids, and counts those in each place.
#[cycle(ask)]
fn ask_kids(
    least: &mut Option<Fault>,
    alloc: Global,
    counts: &mut [usize],
    asks: bool,
    kind: Kind,
    rule: Rule,
    view: View<'_>,
) -> Result<(), AllocError>
    requires few { length rule.slots.now ≤ length counts.old }
    requires none { Counted kind rule.slots.now counts.old [] }
    ensures kept { OnOk result (KeepsLower least.old least.new
        (kids_faults all_faults asks kind (said_by rule) (element_of view.entry) [] (element_of view.entry).kids)) }
    ensures counted { OnOk result (Counted kind rule.slots.now counts.new (element_of view.entry).kids) }
    ensures size { length counts.new ≡ length counts.old }
{
    for i in 0..view.kid_count() {
        ask_kid(least, alloc, counts, asks, kind, rule, view, i)?;
    }
    Ok(())
}

/// Keeps the least fault at and in one kid, and counts it in its place.
#[cycle(ask)]
fn ask_kid(
    least: &mut Option<Fault>,
    alloc: Global,
    counts: &mut [usize],
    asks: bool,
    kind: Kind,
    rule: Rule,
    view: View<'_>,
    i: usize,
) -> Result<(), AllocError>
    requires few { length rule.slots.now ≤ length counts.old }
    requires within { i < length (element_of view).kids }
    requires room { i < 2 ^ 64 - 1 }
    requires counted { Counted kind rule.slots.now counts.old (take i (element_of view).kids) }
    ensures kept { OnOk result ((c : Child) → slice_get (element_of view.entry).kids i ≡ Some c → KeepsLower least.old least.new
        (layer_faults all_faults asks kind (said_by rule) (element_of view.entry) (take i (element_of view.entry).kids) (out-Child c))) }
    ensures counted { OnOk result (Counted kind rule.slots.now counts.new (take (i + 1) (element_of view.entry).kids)) }
    ensures size { length counts.new ≡ length counts.old }
{
    match view.kid(i) {
        Kid::Text(text) => {
            let reason = stray_fault(rule.content, text);
            keep(least, alloc, reason, view.at(), view.name())
        }
        Kid::Element(kid) => ask_element(least, alloc, counts, asks, kind, rule.slots, kid),
    }
}

/// Keeps the least fault at and in an element that stands in a place of these, or in none, and
/// counts it there.
#[cycle(ask)]
fn ask_element(
    least: &mut Option<Fault>,
    alloc: Global,
    counts: &mut [usize],
    asks: bool,
    kind: Kind,
    slots: &[Slot],
    kid: View<'_>,
) -> Result<(), AllocError>
    requires few { length slots.now ≤ length counts.old }
    requires room { (i : ℕ) → slice_index counts.old i < 2 ^ 64 - 1 }
    ensures kept { OnOk result ((before : List Child) → Counted kind slots.now counts.old before
        → KeepsLower least.old least.new (element_faults all_faults asks kind slots.now before (element_of kid.entry))) }
    ensures counted { OnOk result ((before : List Child) → Counted kind slots.now counts.old before
        → Counted kind slots.now counts.new (before ++ children.Element (element_of kid.entry) ∷ [])) }
    ensures size { length counts.new ≡ length counts.old }
{
    match spot_among(kind, kid.name(), slots) {
        Some(spot) => {
            let past = count_one(counts, slots, spot.place);
            ask_placed(least, alloc, asks, kind, past, spot.tag, kid)
        }
        None => ask_unknown(least, alloc, asks, kid),
    }
}

/// Keeps that an element has no place, where something is asked of it.
fn ask_unknown(
    least: &mut Option<Fault>,
    alloc: Global,
    asks: bool,
    kid: View<'_>,
) -> Result<(), AllocError>
    ensures { OnOk result (KeepsLower least.old least.new (if asks then fault_at UnknownElement (element_of kid.entry).at (element_of kid.entry).name ∷ [] else [])) }
{
    if asks {
        keep(
            least,
            alloc,
            Some(Reason::UnknownElement),
            kid.at(),
            kid.name(),
        )
    } else {
        Ok(())
    }
}

/// Keeps the least fault at and in an element that has a place, where something is asked of it.
#[cycle(ask)]
fn ask_placed(
    least: &mut Option<Fault>,
    alloc: Global,
    asks: bool,
    kind: Kind,
    past: Option<Over>,
    tag: Tag,
    kid: View<'_>,
) -> Result<(), AllocError>
    ensures { OnOk result (KeepsLower least.old least.new (if asks then spot_faults all_faults kind (element_of kid.entry) past tag else [])) }
{
    if !asks {
        return Ok(());
    }
    keep(least, alloc, over_reason(past), kid.at(), kid.name())?;
    if asks_inside(past) {
        ask(least, alloc, kind, tag, kid)
    } else {
        Ok(())
    }
}

/// The least fault of shape at or inside an element of this tag, in a net of this kind.
///
/// # Errors
///
/// `AllocError` where there is no memory for the detail of a fault or for the characters of a
/// number.
pub fn part_fault(
    alloc: Global,
    kind: Kind,
    tag: Tag,
    view: View<'_>,
) -> Result<Option<Fault>, AllocError>
    ensures { IfOk result (λ fault. fault ≡ least_fault (all_faults kind tag (element_of view.entry))) }
{
    let mut least = None;
    ask(&mut least, alloc, kind, tag, view)?;
    Ok(least)
}

/// The least fault of shape at or inside an element that has to be one that fills this place, in a
/// net of this kind. An element that is none of them is an unknown element.
///
/// # Errors
///
/// As `part_fault`.
pub fn fill_fault(
    alloc: Global,
    kind: Kind,
    fill: Fill,
    view: View<'_>,
) -> Result<Option<Fault>, AllocError>
    ensures { IfOk result (λ fault. fault ≡ least_fault (fill_faults kind fill (element_of view.entry))) }
{
    match find_tag(kind, view.name(), fill) {
        Some(tag) => part_fault(alloc, kind, tag, view),
        None => {
            let mut least = None;
            ask_unknown(&mut least, alloc, true, view)?;
            Ok(least)
        }
    }
}

/// The least fault of shape of a document. Its time is linear in the tree.
///
/// # Errors
///
/// As `part_fault`.
pub fn shape_fault(alloc: Global, tree: &Tree) -> Result<Option<Fault>, AllocError>
    ensures { IfOk result (λ fault. fault ≡ least_fault (shape_faults tree.now)) }
{
    fill_fault(alloc, Kind::PtNet, Fill::One(Tag::Pnml), tree.root())
}
