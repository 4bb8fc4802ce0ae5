//! References (XML 1.0, 4.1 and 4.6).

ghost use Rattle.std.specs.Prelude.{◌≡◌, ◌≤◌, ◌⊎◌, true, false, None, Some, if◌then◌else◌, string_bytes, OnOk, IfSome, IfOk, MatchOption};
ghost use Rattle.std.specs.Char.{digit_value};
ghost use Rattle.std.specs.Option.{option_map};
ghost use Rattle.pn_text.specs.Characters.{is_text, is_character, utf8_of};
ghost use Rattle.pn_markup.specs.Bytes.{begins_with};
ghost use Rattle.pn_markup.specs.References.{is_digit, entity_text};
ghost use Rattle.pn_scan.specs.State.{behind_reference, at_reference, at_number};
ghost use Rattle.pn_scan.specs.NextState.{next_state, next_in_entity, next_in_number, entity_of, is_entity_front};
ghost use Rattle.pn_scan.specs.Nestings.{nesting_of, Belongs};
ghost use Rattle.pn_scan.specs.Contexts.{state_of, holder_of, AdmitsHolder, FitsNumber, Admits};

use crate::context::{Context, Holder, Kept};
use crate::open_tree::OpenTree;
use std::alloc::{AllocError, Global};

/// How it goes on behind a reference that stands for this text.
fn behind(
    tree: &mut OpenTree,
    kept: &mut Kept,
    holder: Holder,
    text: &[u8],
) -> Result<Context, AllocError>
    requires belongs { Belongs tree.old }
    requires holder { AdmitsHolder (nesting_of tree.old) holder }
    requires text { is_text text.now ≡ true }
    ensures state { IfOk result (λ m. state_of (nesting_of tree.new) kept.new m ≡ behind_reference (holder_of (nesting_of tree.old) kept.old.name.items kept.old.text.items holder) text.now) }
    ensures fits { IfOk result (Admits (nesting_of tree.new)) }
    ensures belongs { OnOk result (Belongs tree.new) }
{
    match holder {
        Holder::Content => {
            tree.text(text)?;
            Ok(Context::Between)
        }
        Holder::Value { quote } => {
            kept.text.extend_from_slice(text)?;
            Ok(Context::Value { quote, cr: false })
        }
    }
}

/// The text that an entity stands for, by its name and the `;`.
fn entity_of_name(part: &[u8]) -> Option<&'static [u8]>
    ensures value { option_map (λ t. t.now) result ≡ option_map entity_text (entity_of part.now) }
    ensures texts { IfSome result (λ t. is_text t.now ≡ true) }
{
    if part == b"lt;".as_slice() {
        return Some(b"<");
    }
    if part == b"gt;".as_slice() {
        return Some(b">");
    }
    if part == b"amp;".as_slice() {
        return Some(b"&");
    }
    if part == b"apos;".as_slice() {
        return Some(b"'");
    }
    if part == b"quot;".as_slice() {
        return Some(b"\"");
    }
    None
}

/// Whether `whole` begins with `part`.
pub(crate) fn is_front(part: &[u8], whole: &[u8]) -> bool
    ensures { result ≡ begins_with part.now whole.now }
{
    whole.starts_with(part)
}

/// Whether the name of an entity and the `;` begin so.
fn is_entity_begun(part: &[u8]) -> bool
    ensures { result ≡ is_entity_front part.now }
{
    is_front(part, b"lt;")
        || is_front(part, b"gt;")
        || is_front(part, b"amp;")
        || is_front(part, b"apos;")
        || is_front(part, b"quot;")
}

/// A byte of the name of an entity.
pub(crate) fn entity(
    tree: &mut OpenTree,
    kept: &mut Kept,
    holder: Holder,
    byte: u8,
) -> Result<Option<Context>, AllocError>
    requires belongs { Belongs tree.old }
    requires holder { AdmitsHolder (nesting_of tree.old) holder }
    ensures state { IfOk result (λ m. option_map (state_of (nesting_of tree.new) kept.new) m ≡ next_in_entity (holder_of (nesting_of tree.old) kept.old.name.items kept.old.text.items holder) kept.old.entity.items byte) }
    ensures fits { IfOk result (λ m. IfSome m (Admits (nesting_of tree.new))) }
    ensures belongs { OnOk result (Belongs tree.new) }
{
    kept.entity.push(byte)?;
    if let Some(text) = entity_of_name(&kept.entity) {
        let context = behind(tree, kept, holder, text)?;
        return Ok(Some(context));
    }
    if is_entity_begun(&kept.entity) {
        return Ok(Some(Context::Entity { holder }));
    }
    Ok(None)
}

/// A byte behind `&`.
pub(crate) fn reference(
    tree: &mut OpenTree,
    kept: &mut Kept,
    holder: Holder,
    at: u64,
    byte: u8,
) -> Result<Option<Context>, AllocError>
    requires belongs { Belongs tree.old }
    requires holder { AdmitsHolder (nesting_of tree.old) holder }
    ensures state { IfOk result (λ m. option_map (state_of (nesting_of tree.new) kept.new) m ≡ next_state (at_reference (holder_of (nesting_of tree.old) kept.old.name.items kept.old.text.items holder)) at byte) }
    ensures fits { IfOk result (λ m. IfSome m (Admits (nesting_of tree.new))) }
    ensures belongs { OnOk result (Belongs tree.new) }
{
    if byte != b'#' {
        kept.entity.clear();
        return entity(tree, kept, holder, byte);
    }
    Ok(Some(Context::NumberSign { holder }))
}

/// Whether a number is that of a character that a document may have.
fn is_character_number(number: u32) -> bool
    ensures { result ≡ is_character number }
{
    match number {
        9 | 10 | 13 => true,
        0x20..=0xD7FF => true,
        0xE000..=0xFFFD => true,
        0x1_0000..=0x10_FFFF => true,
        _ => false,
    }
}

/// A character in UTF-8.
fn character(alloc: Global, number: u32) -> Result<String, AllocError>
    requires { is_character number ≡ true }
    ensures { IfOk result (λ text. string_bytes text ≡ utf8_of number) }
{
    let mut text = String::new(alloc);
    match char::from_u32(number) {
        Some(character) => text.push(character)?,
        None => unreachable!(),
    }
    Ok(text)
}

/// A digit to a base.
fn digit(base: u32, byte: u8) -> Option<u32>
    requires { (base ≡ 10) ⊎ (base ≡ 16) }
    ensures { MatchOption result (is_digit base byte ≡ false) (λ d. (is_digit base byte ≡ true) × (d ≡ digit_value byte) × (d ≤ 15)) }
{
    char::from(byte).to_digit(base)
}

/// The `;` behind a number.
fn number_end(
    alloc: Global,
    tree: &mut OpenTree,
    kept: &mut Kept,
    holder: Holder,
    number: u32,
) -> Result<Option<Context>, AllocError>
    requires belongs { Belongs tree.old }
    requires holder { AdmitsHolder (nesting_of tree.old) holder }
    ensures state { IfOk result (λ m. option_map (state_of (nesting_of tree.new) kept.new) m
        ≡ (if is_character number then Some (behind_reference (holder_of (nesting_of tree.old) kept.old.name.items kept.old.text.items holder) (utf8_of number)) else None)) }
    ensures fits { IfOk result (λ m. IfSome m (Admits (nesting_of tree.new))) }
    ensures belongs { OnOk result (Belongs tree.new) }
{
    if !is_character_number(number) {
        return Ok(None);
    }
    let text = character(alloc, number)?;
    let context = behind(tree, kept, holder, text.as_bytes())?;
    Ok(Some(context))
}

/// A byte of a number.
pub(crate) fn number(
    alloc: Global,
    tree: &mut OpenTree,
    kept: &mut Kept,
    holder: Holder,
    base: u32,
    number: u32,
    any: bool,
    byte: u8,
) -> Result<Option<Context>, AllocError>
    requires belongs { Belongs tree.old }
    requires holder { AdmitsHolder (nesting_of tree.old) holder }
    requires number { FitsNumber base number }
    ensures state { IfOk result (λ m. option_map (state_of (nesting_of tree.new) kept.new) m
        ≡ next_in_number (holder_of (nesting_of tree.old) kept.old.name.items kept.old.text.items holder) base number any byte) }
    ensures fits { IfOk result (λ m. IfSome m (Admits (nesting_of tree.new))) }
    ensures belongs { OnOk result (Belongs tree.new) }
{
    if let Some(digit) = digit(base, byte) {
        let number = number * base + digit;
        if number > 0x10_FFFF {
            return Ok(None);
        }
        return Ok(Some(Context::Number {
            holder,
            base,
            number,
            any: true,
        }));
    }
    if byte == b';' && any {
        return number_end(alloc, tree, kept, holder, number);
    }
    Ok(None)
}

/// A byte behind `&#`.
pub(crate) fn number_sign(
    alloc: Global,
    tree: &mut OpenTree,
    kept: &mut Kept,
    holder: Holder,
    at: u64,
    byte: u8,
) -> Result<Option<Context>, AllocError>
    requires belongs { Belongs tree.old }
    requires holder { AdmitsHolder (nesting_of tree.old) holder }
    ensures state { IfOk result (λ m. option_map (state_of (nesting_of tree.new) kept.new) m ≡ next_state (at_number (holder_of (nesting_of tree.old) kept.old.name.items kept.old.text.items holder)) at byte) }
    ensures fits { IfOk result (λ m. IfSome m (Admits (nesting_of tree.new))) }
    ensures belongs { OnOk result (Belongs tree.new) }
{
    if byte != b'x' {
        return number(alloc, tree, kept, holder, 10, 0, false, byte);
    }
    Ok(Some(Context::Number {
        holder,
        base: 16,
        number: 0,
        any: false,
    }))
}
