//! What is asked of the kids of an element one by one, and of all of them together.

ghost use Rattle.std.specs.Prelude.{◌≡◌, ◌<◌, ◌≤◌, ◌+◌, ◌-◌, ◌^◌, length, slice_set, OnOk, IfOk};
ghost use Rattle.std.specs.List.{slice_index, slice_index_or};
ghost use Rattle.pn_tree.specs.Views.{element_of};
ghost use Rattle.pn_shape.specs.Faults.{told, text_fault, stray_fault, own_text, over_fault, over_reason, asks_inside, is_opaque, no_slot, missing_fault, missing_faults};
ghost use Rattle.pn_shape.specs.Rules.{fill_name};
ghost use Rattle.pn_shape.specs.declared.rule.Content.TheVariants.{Count};
ghost use Rattle.pn_shape_faults.specs.Keeping.{KeepsLower, Counted};

use crate::keep::keep;
use pn_faults::{Fault, Reason};
use pn_operators::Kind;
use pn_shape::{Content, Over, Slot, count_in, fill_word, is_blank, is_open};
use pn_text::Text;
use pn_tree::{Kid, View};
use std::alloc::{AllocError, Global};

/// The characters that stand directly in an element, joined. What stands in the elements in it is
/// none of them.
pub fn own_text(alloc: Global, view: View<'_>) -> Result<Text, AllocError>
    ensures { IfOk result (λ text. text ≡ own_text (element_of view.entry).kids) }
{
    let mut text = Text::from_str(alloc, "")?;
    for i in 0..view.kid_count() {
        if let Kid::Text(more) = view.kid(i) {
            text.push_str(more)?;
        }
    }
    Ok(text)
}

/// What is wrong with the characters of an element that are asked to be a number.
fn count_fault(least: u64, text: &str) -> Option<Reason>
    ensures { result ≡ text_fault (Count least) text.now }
{
    match count_in(text) {
        Some(number) => {
            if least <= number {
                None
            } else {
                Some(Reason::BadNumber)
            }
        }
        None => Some(Reason::BadNumber),
    }
}

/// Keeps what is wrong with the characters of an element, joined.
pub(crate) fn ask_text(
    least: &mut Option<Fault>,
    alloc: Global,
    content: Content,
    view: View<'_>,
) -> Result<(), AllocError>
    ensures { OnOk result (KeepsLower least.old least.new
        (told (element_of view.entry).at (element_of view.entry).name (text_fault content (own_text (element_of view.entry).kids)))) }
{
    if let Content::Count { least: number } = content {
        let text = own_text(alloc, view)?;
        let reason = count_fault(number, text.as_str());
        keep(least, alloc, reason, view.at(), view.name())
    } else {
        Ok(())
    }
}

/// What is wrong with characters between elements.
pub(crate) fn stray_fault(content: Content, text: &str) -> Option<Reason>
    ensures { result ≡ stray_fault content text.now }
{
    let is_between = match content {
        Content::Elements => true,
        Content::Net => true,
        Content::Characters => false,
        Content::Count { least: _ } => false,
        Content::Opaque => false,
    };
    if is_between && !is_blank(text) {
        Some(Reason::StrayText)
    } else {
        None
    }
}

/// Whether nothing is asked of an element.
pub(crate) fn is_opaque(content: Content) -> bool
    ensures { result ≡ is_opaque content }
{
    match content {
        Content::Opaque => true,
        Content::Elements => false,
        Content::Net => false,
        Content::Characters => false,
        Content::Count { least: _ } => false,
    }
}

/// What is wrong with one element more than those that stand in a place.
fn over_fault(slot: Slot, count: usize) -> Option<Over>
    ensures { result ≡ over_fault slot count }
{
    match slot.most {
        Some(most) => { if most <= count { Some(slot.over) } else { None } }
        None => None,
    }
}

/// The reason for which an element is one too many.
pub(crate) fn over_reason(past: Option<Over>) -> Option<Reason>
    ensures { result ≡ over_reason past }
{
    match past {
        None => None,
        Some(Over::Repeated) => Some(Reason::RepeatedElement),
        Some(Over::SecondNet) => Some(Reason::SecondNet),
    }
}

/// Whether something is asked of what stands in an element that may be one too many.
pub(crate) fn asks_inside(past: Option<Over>) -> bool
    ensures { result ≡ asks_inside past }
{
    match past {
        None => true,
        Some(Over::Repeated) => true,
        Some(Over::SecondNet) => false,
    }
}

/// Counts one element more in its place, and tells whether it is one too many.
pub(crate) fn count_one(counts: &mut [usize], slots: &[Slot], place: usize) -> Option<Over>
    requires within { place < length slots.now }
    requires few { length slots.now ≤ length counts.old }
    requires room { slice_index counts.old place < 2 ^ 64 - 1 }
    ensures over { result ≡ over_fault (slice_index_or slots.now place no_slot) (slice_index counts.old place) }
    ensures counts { counts.new ≡ slice_set counts.old place (slice_index counts.old place + 1) }
{
    let past = over_fault(slots[place], counts[place]);
    counts[place] += 1;
    past
}

/// What is wrong with a place in which so many elements stand.
fn missing_fault(kind: Kind, slot: Slot, count: usize) -> Option<Reason>
    ensures { result ≡ missing_fault kind slot count }
{
    if count < slot.least && is_open(kind, slot.fill) {
        Some(Reason::MissingElement)
    } else {
        None
    }
}

/// Keeps the least fault of the places in which too few elements stand, where these are the numbers
/// of elements in them.
pub(crate) fn ask_missing(
    least: &mut Option<Fault>,
    alloc: Global,
    kind: Kind,
    slots: &[Slot],
    counts: &[usize],
    view: View<'_>,
) -> Result<(), AllocError>
    requires few { length slots.now ≤ length counts.now }
    requires counted { Counted kind slots.now counts.now (element_of view).kids }
    ensures { OnOk result (KeepsLower least.old least.new (missing_faults kind slots.now (element_of view.entry) 0 slots.now)) }
{
    for i in 0..slots.len() {
        keep_missing(least, alloc, kind, slots[i], counts[i], view)?;
    }
    Ok(())
}

/// Keeps that too few elements stand in a place, where it is so.
fn keep_missing(
    least: &mut Option<Fault>,
    alloc: Global,
    kind: Kind,
    slot: Slot,
    count: usize,
    view: View<'_>,
) -> Result<(), AllocError>
    ensures { OnOk result (KeepsLower least.old least.new (told (element_of view.entry).at (fill_name slot.fill) (missing_fault kind slot count))) }
{
    let reason = missing_fault(kind, slot, count);
    if reason.is_some() {
        keep(least, alloc, reason, view.at(), fill_word(slot.fill))
    } else {
        Ok(())
    }
}
