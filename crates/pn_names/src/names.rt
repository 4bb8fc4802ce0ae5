//! A look-up of what ids name.

ghost use Rattle.std.specs.Prelude.{◌≡◌, ◌∷◌, ◌++◌, ◌+◌, ◌<◌, ◌^◌, [], List, ℕ, length, is_none, IfOk, IfSome, IsSome, IsTrue, ◌↔◌};
ghost use Rattle.std.specs.Option.{option_and_then};
ghost use Rattle.pn_ids.specs.Names.{named_in, AreDistinct, NotesAll};
ghost use Rattle.pn_names.specs.Names.{constant_ids, numbered, own_name, with_variable, names_in, names_of, AreNumbered, sort_place, partition_place, variable_number, constant_ref};

use crate::Declared;
use crate::items::{constant_count, id_of, id_within};
use pn_ids::Ids;
use pn_syntax::Declaration;
use pn_values::ConstantRef;
use std::alloc::{AllocError, Global};
use std::marker::Model;

/// What each id of some declarations names. Contracts see the ids with what they name, in the order
/// of the document.
#[derive(Drop)]
pub struct Index {
    ids: Ids<Declared>,
}

impl Model for Index {
    ghost use Rattle.std.specs.Prelude.{List, ℕ};
    ghost use Rattle.pn_names.specs.declared.Declared.{Declared};

    ghost Value = { List (List ℕ × Declared) };

    ghost view = { λ i. i.ids };
}

/// Notes the ids of the constants or elements of a declaration, until one is not new; says whether
/// all are.
fn note_constants(
    alloc: Global,
    ids: &mut Ids<Declared>,
    item: &Declaration,
    place: u32,
) -> Result<bool, AllocError>
    requires { length (constant_ids item.now) < 2 ^ 32 }
    ensures { IfOk result (NotesAll ids.old ids.new (numbered place 0 (constant_ids item.now))) }
{
    let count = constant_count(item);
    for number in 0..count {
        let constant = ConstantRef {
            declaration: place,
            index: number as u32,
        };
        if !ids.note(alloc, id_within(item, number), Declared::Constant(constant))? {
            return Ok(false);
        }
    }
    Ok(true)
}

/// What the id of a declaration names.
fn own_name(item: &Declaration, place: u32, before: u32) -> Declared
    ensures { result ≡ own_name place before item.now }
{
    match item {
        Declaration::Named { .. } => Declared::Named(place),
        Declaration::Variable { .. } => Declared::Variable(before),
        Declaration::Partition { .. } => Declared::Partition(place),
    }
}

/// How many variables there are with this declaration.
fn with_variable(item: &Declaration, before: u32) -> u32
    requires { before + 1 < 2 ^ 32 }
    ensures { result ≡ with_variable before item.now }
{
    match item {
        Declaration::Variable { .. } => before + 1,
        _ => before,
    }
}

/// Notes all ids of a declaration, until one is not new; says whether all are.
fn note_item(
    alloc: Global,
    ids: &mut Ids<Declared>,
    item: &Declaration,
    place: u32,
    before: u32,
) -> Result<bool, AllocError>
    requires { length (constant_ids item.now) < 2 ^ 32 }
    ensures { IfOk result (NotesAll ids.old ids.new (names_in place before item.now)) }
{
    if !ids.note(alloc, id_of(item), own_name(item, place, before))? {
        return Ok(false);
    }
    note_constants(alloc, ids, item, place)
}

/// Notes all ids of the declarations in order, until one is not new; says whether all are.
fn note_items(
    alloc: Global,
    ids: &mut Ids<Declared>,
    items: &[Declaration],
) -> Result<bool, AllocError>
    requires { AreNumbered items.now }
    ensures { IfOk result (NotesAll ids.old ids.new (names_of items.now)) }
{
    let mut place: u32 = 0;
    let mut before: u32 = 0;
    for item in items {
        if !note_item(alloc, ids, item, place, before)? {
            return Ok(false);
        }
        before = with_variable(item, before);
        place += 1;
    }
    Ok(true)
}

/// All ids of the declarations, or none where one is given twice.
fn noted(alloc: Global, items: &[Declaration]) -> Result<Option<Ids<Declared>>, AllocError>
    requires { AreNumbered items.now }
    ensures distinct { IfOk result (λ ids. IsSome ids ↔ AreDistinct (names_of items.now)) }
    ensures names { IfOk result (λ ids. IfSome ids (λ i. i ≡ names_of items.now)) }
{
    let mut ids = Ids::new(alloc);
    if note_items(alloc, &mut ids, items)? {
        Ok(Some(ids))
    } else {
        Ok(None)
    }
}

/// Whether no id of the declarations is given twice.
pub fn are_distinct(alloc: Global, items: &[Declaration]) -> Result<bool, AllocError>
    requires { AreNumbered items.now }
    ensures { IfOk result (λ b. IsTrue b ↔ AreDistinct (names_of items.now)) }
{
    let ids = noted(alloc, items)?;
    Ok(ids.is_some())
}

impl Index {
    /// The ids of these declarations, with what they name.
    pub fn of(alloc: Global, items: &[Declaration]) -> Result<Index, AllocError>
        requires distinct { AreDistinct (names_of items.now) }
        requires numbered { AreNumbered items.now }
        ensures { IfOk result (λ i. i ≡ names_of items.now) }
    {
        match noted(alloc, items)? {
            Some(ids) => Ok(Index { ids }),
            None => unreachable!(),
        }
    }

    /// What this id names, if it names something.
    pub fn find(&self, id: &str) -> Option<Declared>
        ensures { result ≡ named_in self.now id.now }
    {
        self.ids.find(id)
    }

    /// The place of the `namedsort` or `partition` of this id.
    pub fn sort_place(&self, id: &str) -> Option<u32>
        ensures { result ≡ option_and_then sort_place (named_in self.now id.now) }
    {
        match self.find(id) {
            Some(Declared::Named(place)) => Some(place),
            Some(Declared::Partition(place)) => Some(place),
            _ => None,
        }
    }

    /// The place of the `partition` of this id.
    pub fn partition(&self, id: &str) -> Option<u32>
        ensures { result ≡ option_and_then partition_place (named_in self.now id.now) }
    {
        match self.find(id) {
            Some(Declared::Partition(place)) => Some(place),
            _ => None,
        }
    }

    /// The number of the variable of this id.
    pub fn variable(&self, id: &str) -> Option<u32>
        ensures { result ≡ option_and_then variable_number (named_in self.now id.now) }
    {
        match self.find(id) {
            Some(Declared::Variable(number)) => Some(number),
            _ => None,
        }
    }

    /// The constant or partition element of this id.
    pub fn constant(&self, id: &str) -> Option<ConstantRef>
        ensures { result ≡ option_and_then constant_ref (named_in self.now id.now) }
    {
        match self.find(id) {
            Some(Declared::Constant(constant)) => Some(constant),
            _ => None,
        }
    }
}
