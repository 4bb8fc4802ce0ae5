//! Tags: their names, what stands between attributes, and end tags.

ghost use Rattle.std.specs.Prelude.{◌≡◌, ◌<◌, ◌+◌, ◌==◌, true, None, Some, OnOk, IfSome, IfOk, if◌then◌else◌};
ghost use Rattle.std.specs.Option.{option_map};
ghost use Rattle.pn_text.specs.Characters.{is_name};
ghost use Rattle.pn_scan.specs.NextState.{next_state, next_in_tag};
ghost use Rattle.pn_scan.specs.Nestings.{nesting_of, is_inside, levels_of, inner_of, outer_of, levels_for, outer_for, HasRoom, Belongs};
ghost use Rattle.pn_scan.specs.State.{Nesting, in_name};
ghost use Rattle.pn_scan.specs.Contexts.{state_of, end_state, end_of, IsTag, Admits};

use crate::bytes::{begin_name, begins_name, continues_name, is_space_byte};
use crate::context::{Context, Kept, Then, Word};
use crate::open_tree::OpenTree;
use std::alloc::AllocError;

/// A byte of a tag behind its name or an attribute.
pub(crate) fn tag(
    tree: &mut OpenTree,
    kept: &mut Kept,
    spaced: bool,
    byte: u8,
) -> Result<Option<Context>, AllocError>
    requires belongs { Belongs tree.old }
    requires is_tag { IsTag (nesting_of tree.old) }
    ensures state { IfOk result (λ m. option_map (state_of (nesting_of tree.new) kept.new) m
        ≡ next_in_tag (levels_of (nesting_of tree.old)) (outer_of (nesting_of tree.old)) (inner_of (nesting_of tree.old)) spaced byte) }
    ensures fits { IfOk result (λ m. IfSome m (Admits (nesting_of tree.new))) }
    ensures belongs { OnOk result (Belongs tree.new) }
{
    if is_space_byte(byte) {
        return Ok(Some(Context::Tag { spaced: true }));
    }
    if byte == b'/' {
        tree.end();
        return Ok(Some(Context::Due {
            word: Word::End,
            read: 0,
            then: Then::Between,
        }));
    }
    if byte == b'>' {
        return Ok(Some(Context::Between));
    }
    if spaced && begins_name(byte) {
        begin_name(&mut kept.name, byte)?;
        return Ok(Some(Context::Attribute));
    }
    Ok(None)
}

/// A byte of the name of a tag, whose `<` has the offset `begin`.
pub(crate) fn name(
    tree: &mut OpenTree,
    kept: &mut Kept,
    begin: u64,
    at: u64,
    byte: u8,
) -> Result<Option<Context>, AllocError>
    requires belongs { Belongs tree.old }
    requires room { HasRoom (nesting_of tree.old) }
    requires whole { byte < 128 → is_name kept.old.name.items ≡ true }
    ensures state { IfOk result (λ m. option_map (state_of (nesting_of tree.new) kept.new) m
        ≡ next_state (in_name (levels_for (nesting_of tree.old)) (outer_for (nesting_of tree.old)) begin kept.old.name.items) at byte) }
    ensures fits { IfOk result (λ m. IfSome m (Admits (nesting_of tree.new))) }
    ensures belongs { OnOk result (Belongs tree.new) }
{
    if continues_name(byte) {
        kept.name.push(byte)?;
        return Ok(Some(Context::Name { begin }));
    }
    tree.begin(&kept.name, begin)?;
    tag(tree, kept, false, byte)
}

/// A byte of the name in an end tag, where `due` comes behind so many bytes of it.
fn end_byte(due: u8, read: usize, byte: u8) -> Option<Context>
    requires { read < usize.MAX }
    ensures state { (p : Nesting) (k : Kept) → option_map (state_of p k) result ≡ (if due == byte then Some (end_of p (read + 1)) else None) }
    ensures fits { (p : Nesting) → is_inside p ≡ true → IfSome result (Admits p) }
{
    if due != byte {
        return None;
    }
    Some(Context::EndName { read: read + 1 })
}

/// A byte behind the name in an end tag.
fn end_space(tree: &mut OpenTree, read: usize, at: u64, byte: u8) -> Option<Context>
    requires belongs { Belongs tree.old }
    requires inside { is_inside (nesting_of tree.old) ≡ true }
    requires whole { end_of (nesting_of tree.old) read ≡ end_state (nesting_of tree.old) }
    ensures state { (k : Kept) → option_map (state_of (nesting_of tree.new) k) result ≡ next_state (end_state (nesting_of tree.old)) at byte }
    ensures fits { IfSome result (Admits (nesting_of tree.new)) }
    ensures belongs { Belongs tree.new }
{
    if is_space_byte(byte) {
        return Some(Context::EndName { read });
    }
    if byte == b'>' {
        tree.end();
        return Some(Context::Between);
    }
    None
}

/// A byte of an end tag, behind so many bytes of its name.
pub(crate) fn end_name(tree: &mut OpenTree, read: usize, at: u64, byte: u8) -> Option<Context>
    requires belongs { Belongs tree.old }
    requires inside { is_inside (nesting_of tree.old) ≡ true }
    ensures state { (k : Kept) → option_map (state_of (nesting_of tree.new) k) result ≡ next_state (end_of (nesting_of tree.old) read) at byte }
    ensures fits { IfSome result (Admits (nesting_of tree.new)) }
    ensures belongs { Belongs tree.new }
{
    match tree.name_byte(read) {
        Some(due) => end_byte(due, read, byte),
        None => end_space(tree, read, at, byte),
    }
}
