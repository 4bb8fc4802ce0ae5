//! Attributes.

ghost use Rattle.std.specs.Prelude.{◌≡◌, ◌<◌, ◌++◌, true, None, OnOk, IfSome, IfOk};
ghost use Rattle.std.specs.Option.{option_map};
ghost use Rattle.pn_text.specs.Characters.{is_name, is_text};
ghost use Rattle.pn_tree.specs.Elements.{attr_value};
ghost use Rattle.pn_scan.specs.NextState.{next_state, next_before_equals, next_behind_equals, next_in_value, space_text};
ghost use Rattle.pn_scan.specs.Nestings.{nesting_of, levels_of, inner_of, outer_of, Belongs};
ghost use Rattle.pn_scan.specs.State.{Nesting, in_attribute};
ghost use Rattle.pn_scan.specs.Contexts.{state_of, IsTag, Admits};

use crate::bytes::{continues_name, is_quote_byte, is_space_byte};
use crate::context::{Context, Holder, Kept};
use crate::open_tree::OpenTree;
use std::alloc::AllocError;

/// A byte behind the name of an attribute.
pub(crate) fn equals(byte: u8) -> Option<Context>
    ensures state { (p : Nesting) (k : Kept) → option_map (state_of p k) result ≡ next_before_equals (levels_of p) (outer_of p) (inner_of p) k.name.items byte }
    ensures fits { (p : Nesting) → IsTag p → IfSome result (Admits p) }
{
    if is_space_byte(byte) {
        return Some(Context::BeforeEquals);
    }
    if byte == b'=' {
        return Some(Context::BehindEquals);
    }
    None
}

/// A byte behind the `=` of an attribute.
pub(crate) fn quote(kept: &mut Kept, byte: u8) -> Option<Context>
    ensures state { (p : Nesting) → option_map (state_of p kept.new) result ≡ next_behind_equals (levels_of p) (outer_of p) (inner_of p) kept.old.name.items byte }
    ensures fits { (p : Nesting) → IsTag p → IfSome result (Admits p) }
{
    if is_space_byte(byte) {
        return Some(Context::BehindEquals);
    }
    if is_quote_byte(byte) {
        kept.text.clear();
        return Some(Context::Value {
            quote: byte,
            cr: false,
        });
    }
    None
}

/// A byte of the name of an attribute.
pub(crate) fn attribute(
    tree: &OpenTree,
    kept: &mut Kept,
    at: u64,
    byte: u8,
) -> Result<Option<Context>, AllocError>
    requires belongs { Belongs tree.now }
    requires is_tag { IsTag (nesting_of tree.now) }
    requires whole { byte < 128 → is_text kept.old.name.items ≡ true }
    ensures state { IfOk result (λ m. option_map (state_of (nesting_of tree.now) kept.new) m
        ≡ next_state (in_attribute (levels_of (nesting_of tree.now)) (outer_of (nesting_of tree.now)) (inner_of (nesting_of tree.now)) kept.old.name.items) at byte) }
    ensures fits { IfOk result (λ m. IfSome m (Admits (nesting_of tree.now))) }
{
    if continues_name(byte) {
        kept.name.push(byte)?;
        return Ok(Some(Context::Attribute));
    }
    if tree.has_attr(&kept.name) {
        return Ok(None);
    }
    Ok(equals(byte))
}

/// Puts to a value what a byte stands for, behind a CR or not (XML 1.0, 3.3.3).
fn put_value_byte(value: &mut Vec<u8>, cr: bool, byte: u8) -> Result<(), AllocError>
    ensures { OnOk result (value.new.items ≡ value.old.items ++ space_text cr byte) }
{
    if byte == b'\n' && cr {
        return Ok(());
    }
    value.push(if is_space_byte(byte) { b' ' } else { byte })?;
    Ok(())
}

/// A byte of the value of an attribute.
pub(crate) fn value(
    tree: &mut OpenTree,
    kept: &mut Kept,
    quote: u8,
    cr: bool,
    byte: u8,
) -> Result<Option<Context>, AllocError>
    requires belongs { Belongs tree.old }
    requires is_tag { IsTag (nesting_of tree.old) }
    requires name { is_name kept.old.name.items ≡ true }
    requires is_new { attr_value kept.old.name.items (inner_of (nesting_of tree.old)).attrs ≡ None }
    requires whole { byte < 128 → is_text kept.old.text.items ≡ true }
    requires quoted { quote < 128 }
    ensures state { IfOk result (λ m. option_map (state_of (nesting_of tree.new) kept.new) m
        ≡ next_in_value (levels_of (nesting_of tree.old)) (outer_of (nesting_of tree.old)) (inner_of (nesting_of tree.old)) kept.old.name.items quote kept.old.text.items cr byte) }
    ensures fits { IfOk result (λ m. IfSome m (Admits (nesting_of tree.new))) }
    ensures belongs { OnOk result (Belongs tree.new) }
{
    if byte == quote {
        tree.attr(&kept.name, &kept.text)?;
        return Ok(Some(Context::Tag { spaced: false }));
    }
    if byte == b'<' {
        return Ok(None);
    }
    if byte == b'&' {
        let holder = Holder::Value { quote };
        return Ok(Some(Context::Reference { holder }));
    }
    put_value_byte(&mut kept.text, cr, byte)?;
    Ok(Some(Context::Value {
        quote,
        cr: byte == b'\r',
    }))
}
