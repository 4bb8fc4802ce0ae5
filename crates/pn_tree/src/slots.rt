ghost use Rattle.std.specs.Prelude.{◌≡◌, ◌+◌, ◌-◌, ◌<◌, ◌≤◌, ◌++◌, ◌∷◌, [], length, take, drop, IsOk, OnOk, MatchOption, slice_index_or, vec_len, vec_capacity};
ghost use Rattle.pn_tree.specs.Packed.{slot_of, packed_of, IsFilled, IsLastText, HasNoLastText};
ghost use Rattle.pn_tree.specs.Changes.{IsTextTaken, HasNoText};

use crate::tables::{Slot, Span};
use std::alloc::{AllocError, Global};
use std::marker::Model;

/// A kid in eight bytes. A text is where its bytes stand, and as it is not empty, it ends behind the
/// place 0. An element is its node's place, with the end 0.
#[derive(Clone, Copy, Debug)]
struct Packed {
    start: u32,
    end: u32,
}

/// Kids of elements. Contracts see them as a list, and how many there is room for.
#[derive(Debug, Drop)]
pub(crate) struct Slots {
    kept: Vec<Packed>,
}

impl Model for Slots {
    ghost use Rattle.std.specs.Prelude.{map, vec_capacity};
    ghost use Rattle.std.specs.Coded.{codes};
    ghost use Rattle.pn_tree.specs.contracts.tables.Slot as s;
    ghost use Rattle.pn_tree.specs.Packed.{SlotList, slot_of};

    ghost Value = { SlotList };

    ghost coded = { Prim.hlevel (codes, s.the_row.coded) };

    ghost view = { λ s. record { items = map slot_of s.kept.items; capacity = vec_capacity s.kept } };
}

fn unpack(kept: Packed) -> Slot
    ensures { result ≡ slot_of kept }
{
    if kept.end == 0 {
        return Slot::Element(kept.start);
    }
    Slot::Text(Span {
        start: kept.start,
        end: kept.end,
    })
}

fn pack(slot: Slot) -> Packed
    ensures { result ≡ packed_of slot }
{
    match slot {
        Slot::Element(start) => Packed { start, end: 0 },
        Slot::Text(span) => Packed {
            start: span.start,
            end: span.end,
        },
    }
}

/// The text that stands last, if one does.
fn last_text(kept: &[Packed]) -> Option<Span>
    ensures { MatchOption result (HasNoLastText kept.now) (IsLastText kept.now) }
{
    match kept.last() {
        Some(last) => match unpack(*last) {
            Slot::Text(span) => Some(span),
            Slot::Element(_) => None,
        },
        None => None,
    }
}

/// Moves what stands in a table from `start` on behind another. Takes no memory.
fn move_rest(kept: &mut Vec<Packed>, other: &mut Vec<Packed>, start: usize)
    requires ordered { start ≤ length other.old.items }
    requires room { vec_len kept.old + (vec_len other.old - start) ≤ vec_capacity kept.old }
    ensures moved { kept.new.items ≡ kept.old.items ++ drop start other.old.items }
    ensures left { other.new.items ≡ take start other.old.items }
    ensures capacity { vec_capacity kept.old ≤ vec_capacity kept.new }
    ensures other_capacity { vec_capacity other.new ≡ vec_capacity other.old }
{
    let rest = &other[start..];
    if kept.extend_from_slice(rest).is_err() {
        unreachable!()
    }
    other.truncate(start);
}

impl Slots {
    /// No kids. Takes no memory.
    pub(crate) fn new(alloc: Global) -> Slots
        ensures { result.items ≡ [] }
    {
        Slots {
            kept: Vec::new(alloc),
        }
    }

    pub(crate) fn len(&self) -> usize
        ensures { result ≡ length self.now.items }
    {
        self.kept.len()
    }

    /// The kid at this place.
    pub(crate) fn get(&self, place: usize) -> Slot
        requires { place < length self.now.items }
        ensures { result ≡ slice_index_or self.now.items place result }
    {
        unpack(self.kept[place])
    }

    /// Makes room for so many kids more.
    pub(crate) fn reserve(&mut self, more: usize) -> Result<(), AllocError>
        ensures items { self.new.items ≡ self.old.items }
        ensures room { OnOk result (length self.new.items + more ≤ self.new.capacity) }
        ensures capacity { self.old.capacity ≤ self.new.capacity }
    {
        self.kept.reserve(more)
    }

    /// Puts a kid behind the others.
    pub(crate) fn push(&mut self, slot: Slot) -> Result<(), AllocError>
        requires filled { IsFilled slot }
        ensures items { OnOk result (self.new.items ≡ self.old.items ++ (slot ∷ [])) }
        ensures room { length self.old.items < self.old.capacity → IsOk result }
        ensures capacity { self.old.capacity ≤ self.new.capacity }
    {
        self.kept.push(pack(slot))?;
        Ok(())
    }

    /// Takes the text off that stands last among the kids from `start` on, if one does.
    pub(crate) fn take_text(&mut self, start: u32) -> Option<Span>
        ensures taken { MatchOption result ((self.new.items ≡ self.old.items) × HasNoText start self.old.items)
            (IsTextTaken start self.old.items self.new.items) }
        ensures len { length self.new.items ≤ length self.old.items }
        ensures capacity { self.new.capacity ≡ self.old.capacity }
    {
        if self.kept.len() <= start as usize {
            return None;
        }
        let last = last_text(self.kept.as_slice())?;
        self.kept.pop();
        Some(last)
    }

    /// Takes all kids off.
    pub(crate) fn clear(&mut self)
        ensures { self.new.items ≡ [] }
    {
        self.kept.clear();
    }

    /// Moves the kids of `other` from `start` on behind these. Takes no memory.
    pub(crate) fn take_from(&mut self, other: &mut Slots, start: usize)
        requires ordered { start ≤ length other.old.items }
        requires room { length self.old.items + (length other.old.items - start) ≤ self.old.capacity }
        ensures moved { self.new.items ≡ self.old.items ++ drop start other.old.items }
        ensures left { other.new.items ≡ take start other.old.items }
        ensures capacity { self.old.capacity ≤ self.new.capacity }
        ensures other_capacity { other.new.capacity ≡ other.old.capacity }
    {
        move_rest(&mut self.kept, &mut other.kept, start);
    }
}
