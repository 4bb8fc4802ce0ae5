//! The tree as far as it was read.

ghost use Rattle.std.specs.Prelude.{◌≡◌, ◌<◌, ◌≤◌, ◌+◌, ◌-◌, true, false, [], suc, length, take, drop, is_some, slice_get, IfSome, OnOk};
ghost use Rattle.pn_text.specs.Characters.{is_name, is_text};
ghost use Rattle.pn_tree.specs.Building.{with_attr, with_text};
ghost use Rattle.pn_tree.specs.Elements.{attr_value};
ghost use Rattle.pn_markup.specs.Tags.{named};
ghost use Rattle.pn_scan.specs.State.{before, within};
ghost use Rattle.pn_scan.specs.Nestings.{nesting_of, is_inside, levels_of, inner_of, outer_of, levels_for, outer_for, HasRoom, IsRoom, IsWhere, behind_nesting, Belongs};

use crate::names::{AttributeNames, Names};
use crate::ordinary::due_front;
use pn_tree::{Builder, Tree};
use std::alloc::{AllocError, Global};

/// Where a piece of content stands: before the root, within an open element, or behind the root.
#[derive(Clone, Copy)]
pub(crate) enum Where {
    Before,
    Within,
    Behind,
}

/// A tree under way: its builder, the names of the open elements, the innermost last, the names
/// of the attributes of the innermost one, and whether the root is ended.
#[derive(Drop)]
pub(crate) struct OpenTree {
    builder: Builder,
    names: Names,
    attributes: AttributeNames,
    ended: bool,
}

/// Bytes that are a text, as one. Takes no memory.
pub(crate) fn as_text(bytes: &[u8]) -> &str
    requires { is_text bytes.now ≡ true }
    ensures { result.now ≡ bytes.now }
{
    // The condition says that these bytes are UTF-8.
    unsafe { str::from_utf8_unchecked(bytes) }
}

fn byte_at(bytes: &[u8], index: usize) -> Option<u8>
    ensures value { result ≡ slice_get bytes.now index }
    ensures within { IfSome result (λ _. index < usize.MAX) }
{
    if index < bytes.len() {
        return Some(bytes[index]);
    }
    None
}

/// How many bytes at the front of a piece are those that are due behind so many of a name.
fn front_behind(name: &[u8], read: usize, piece: &[u8]) -> usize
    requires { is_text (drop read name.now) ≡ true }
    ensures same { take result piece.now ≡ take result (drop read name.now) }
    ensures whole { is_text (take result piece.now) ≡ true }
    ensures within { result ≤ length piece.now }
    ensures fits { read + result ≤ usize.MAX }
{
    if name.len() <= read {
        return 0;
    }
    due_front(&name[read..], piece)
}

impl OpenTree {
    /// Nothing was read yet. Takes no memory.
    pub(crate) fn new(alloc: Global) -> OpenTree
        ensures belongs { Belongs result }
        ensures nesting { nesting_of result ≡ before }
    {
        OpenTree {
            builder: Builder::new(alloc),
            names: Names::new(alloc),
            attributes: AttributeNames::new(alloc),
            ended: false,
        }
    }

    /// Where the next piece of content stands.
    pub(crate) fn nesting(&self) -> Where
        requires { Belongs self.now }
        ensures { IsWhere result (nesting_of self.now) }
    {
        if self.ended {
            return Where::Behind;
        }
        if self.names.len() == 0 {
            return Where::Before;
        }
        Where::Within
    }

    /// Whether an element may begin here.
    pub(crate) fn has_room(&self) -> bool
        requires { Belongs self.now }
        ensures { IsRoom result (nesting_of self.now) }
    {
        !self.ended && self.names.len() < 256
    }

    /// Begins an element whose start tag has the offset `at`.
    pub(crate) fn begin(&mut self, name: &[u8], at: u64) -> Result<(), AllocError>
        requires belongs { Belongs self.old }
        requires name { is_name name.now ≡ true }
        requires room { HasRoom (nesting_of self.old) }
        ensures nesting { OnOk result
            (nesting_of self.new ≡ within (levels_for (nesting_of self.old)) (named name.now at) (outer_for (nesting_of self.old))) }
        ensures belongs { OnOk result (Belongs self.new) }
    {
        self.names.push(name)?;
        self.attributes.clear();
        self.builder.begin(as_text(name), at)?;
        Ok(())
    }

    /// Gives the innermost open element an attribute.
    pub(crate) fn attr(&mut self, name: &[u8], value: &[u8]) -> Result<(), AllocError>
        requires belongs { Belongs self.old }
        requires inside { is_inside (nesting_of self.old) ≡ true }
        requires name { is_name name.now ≡ true }
        requires value { is_text value.now ≡ true }
        requires before_kids { (inner_of (nesting_of self.old)).kids ≡ [] }
        requires is_new { is_some (attr_value name.now (inner_of (nesting_of self.old)).attrs) ≡ false }
        ensures nesting { OnOk result (nesting_of self.new
            ≡ within (levels_of (nesting_of self.old)) (with_attr name.now value.now (inner_of (nesting_of self.old))) (outer_of (nesting_of self.old))) }
        ensures belongs { OnOk result (Belongs self.new) }
    {
        let name = as_text(name);
        self.attributes.insert(name)?;
        self.builder.attr(name, as_text(value))?;
        Ok(())
    }

    /// Whether the innermost open element, which has no kids yet, has an attribute of this name.
    pub(crate) fn has_attr(&self, name: &[u8]) -> bool
        requires belongs { Belongs self.now }
        requires inside { is_inside (nesting_of self.now) ≡ true }
        requires name { is_text name.now ≡ true }
        requires before_kids { (inner_of (nesting_of self.now)).kids ≡ [] }
        ensures { result ≡ is_some (attr_value name.now (inner_of (nesting_of self.now)).attrs) }
    {
        self.attributes.contains(name)
    }

    /// Gives the innermost open element a text.
    pub(crate) fn text(&mut self, text: &[u8]) -> Result<(), AllocError>
        requires belongs { Belongs self.old }
        requires inside { is_inside (nesting_of self.old) ≡ true }
        requires text { is_text text.now ≡ true }
        ensures nesting { OnOk result (nesting_of self.new
            ≡ within (levels_of (nesting_of self.old)) (with_text text.now (inner_of (nesting_of self.old))) (outer_of (nesting_of self.old))) }
        ensures belongs { OnOk result (Belongs self.new) }
    {
        self.builder.text(as_text(text))?;
        Ok(())
    }

    /// A byte of the name of the innermost open element.
    pub(crate) fn name_byte(&self, index: usize) -> Option<u8>
        requires belongs { Belongs self.now }
        requires inside { is_inside (nesting_of self.now) ≡ true }
        ensures value { result ≡ slice_get (inner_of (nesting_of self.now)).name index }
        ensures within { IfSome result (λ _. index < usize.MAX) }
    {
        byte_at(self.names.last(), index)
    }

    /// How many bytes at the front of a piece are those that are due behind so many of the name of
    /// the innermost open element.
    pub(crate) fn name_front(&self, read: usize, piece: &[u8]) -> usize
        requires belongs { Belongs self.now }
        requires inside { is_inside (nesting_of self.now) ≡ true }
        requires text { is_text (drop read (inner_of (nesting_of self.now)).name) ≡ true }
        ensures same { take result piece.now ≡ take result (drop read (inner_of (nesting_of self.now)).name) }
        ensures whole { is_text (take result piece.now) ≡ true }
        ensures within { result ≤ length piece.now }
        ensures fits { read + result ≤ usize.MAX }
    {
        front_behind(self.names.last(), read, piece)
    }

    /// Ends the innermost open element. Takes no memory.
    pub(crate) fn end(&mut self)
        requires belongs { Belongs self.old }
        requires inside { is_inside (nesting_of self.old) ≡ true }
        ensures nesting { nesting_of self.new
            ≡ behind_nesting (suc (levels_of (nesting_of self.old))) (outer_of (nesting_of self.old)) (inner_of (nesting_of self.old)) }
        ensures belongs { Belongs self.new }
    {
        self.builder.end();
        self.names.pop();
        self.ended = self.names.len() == 0;
    }

    /// The tree, behind its root. Takes no memory.
    pub(crate) fn finish(self) -> Tree
        requires belongs { Belongs self }
        requires ended { IsWhere Where.Behind (nesting_of self) }
        ensures { result ≡ inner_of (nesting_of self) }
    {
        self.builder.finish()
    }
}
