//! Content: runs of characters, CDATA sections, and what stands between two pieces.

ghost use Rattle.std.specs.Prelude.{◌≡◌, ◌<◌, ◌++◌, ◌==◌, true, OnOk, IfSome, IfOk};
ghost use Rattle.std.specs.Option.{option_map};
ghost use Rattle.pn_text.specs.Characters.{is_text};
ghost use Rattle.pn_scan.specs.State.{Nesting, behind_piece, in_section, no_bracket};
ghost use Rattle.pn_scan.specs.Rest.{brackets as bracket_bytes};
ghost use Rattle.pn_scan.specs.NextState.{next_state, next_in_run, next_in_section, bracket_in, line_text, brackets_behind, cr_behind};
ghost use Rattle.pn_scan.specs.Nestings.{nesting_of, is_inside, levels_of, inner_of, outer_of, Belongs};
ghost use Rattle.pn_scan.specs.Contexts.{state_of, brackets_of, next_behind_root, Admits};

use crate::bytes::is_space_byte;
use crate::context::{Brackets, Context, Holder, Kept};
use crate::misc::outside;
use crate::open_tree::{OpenTree, Where};
use std::alloc::AllocError;

/// The brackets that a run ends in behind one more byte.
fn next_brackets(brackets: Brackets, byte: u8) -> Brackets
    ensures { brackets_of result ≡ brackets_behind (brackets_of brackets) byte }
{
    if byte != b']' {
        return Brackets::Zero;
    }
    match brackets {
        Brackets::Zero => Brackets::One,
        _ => Brackets::Two,
    }
}

/// Puts to a text what a byte stands for, behind a CR or not (XML 1.0, 2.11).
fn put_line_byte(text: &mut Vec<u8>, cr: bool, byte: u8) -> Result<(), AllocError>
    ensures { OnOk result (text.new.items ≡ text.old.items ++ line_text cr byte) }
{
    if byte == b'\n' && cr {
        return Ok(());
    }
    text.push(if byte == b'\r' { b'\n' } else { byte })?;
    Ok(())
}

/// A byte of a run.
pub(crate) fn run(
    tree: &mut OpenTree,
    kept: &mut Kept,
    brackets: Brackets,
    cr: bool,
    at: u64,
    byte: u8,
) -> Result<Option<Context>, AllocError>
    requires belongs { Belongs tree.old }
    requires inside { is_inside (nesting_of tree.old) ≡ true }
    requires whole { byte < 128 → is_text kept.old.text.items ≡ true }
    ensures state { IfOk result (λ m. option_map (state_of (nesting_of tree.new) kept.new) m
        ≡ next_in_run (levels_of (nesting_of tree.old)) (inner_of (nesting_of tree.old)) (outer_of (nesting_of tree.old)) kept.old.text.items (brackets_of brackets) cr at byte) }
    ensures fits { IfOk result (λ m. IfSome m (Admits (nesting_of tree.new))) }
    ensures belongs { OnOk result (Belongs tree.new) }
{
    if byte == b'<' {
        tree.text(&kept.text)?;
        return Ok(Some(Context::Markup {
            first: false,
            begin: at,
        }));
    }
    if byte == b'&' {
        tree.text(&kept.text)?;
        return Ok(Some(Context::Reference {
            holder: Holder::Content,
        }));
    }
    if byte == b'>' && matches!(brackets, Brackets::Two) {
        return Ok(None);
    }
    put_line_byte(&mut kept.text, cr, byte)?;
    Ok(Some(Context::Run {
        brackets: next_brackets(brackets, byte),
        cr: byte == b'\r',
    }))
}

/// A byte behind the root.
fn behind_root(at: u64, byte: u8) -> Option<Context>
    ensures state { (p : Nesting) (k : Kept) → option_map (state_of p k) result ≡ next_behind_root p at byte }
    ensures fits { (p : Nesting) → IfSome result (Admits p) }
{
    if is_space_byte(byte) {
        return Some(Context::Between);
    }
    if byte == b'<' {
        return Some(Context::Markup {
            first: false,
            begin: at,
        });
    }
    None
}

/// A byte between two pieces of content.
pub(crate) fn between(
    tree: &mut OpenTree,
    kept: &mut Kept,
    at: u64,
    byte: u8,
) -> Result<Option<Context>, AllocError>
    requires belongs { Belongs tree.old }
    ensures state { IfOk result (λ m. option_map (state_of (nesting_of tree.new) kept.new) m ≡ next_state (behind_piece (nesting_of tree.old)) at byte) }
    ensures fits { IfOk result (λ m. IfSome m (Admits (nesting_of tree.new))) }
    ensures belongs { OnOk result (Belongs tree.new) }
{
    match tree.nesting() {
        Where::Before => Ok(outside(false, at, byte)),
        Where::Behind => Ok(behind_root(at, byte)),
        Where::Within => {
            kept.text.clear();
            run(tree, kept, Brackets::Zero, false, at, byte)
        }
    }
}

/// Puts brackets that stood behind a text to it.
fn put_brackets(text: &mut Vec<u8>, brackets: Brackets) -> Result<(), AllocError>
    ensures { OnOk result (text.new.items ≡ text.old.items ++ bracket_bytes (brackets_of brackets)) }
{
    match brackets {
        Brackets::Zero => Ok(()),
        Brackets::One => text.extend_from_slice(b"]"),
        Brackets::Two => text.extend_from_slice(b"]]"),
    }
}

/// A bracket in a section: of three the first is text.
fn bracket(kept: &mut Kept, brackets: Brackets, cr: bool) -> Result<Context, AllocError>
    ensures state { IfOk result (λ m. (p : Nesting) → state_of p kept.new m
        ≡ bracket_in (levels_of p) (inner_of p) (outer_of p) kept.old.text.items (brackets_of brackets) cr) }
    ensures fits { IfOk result (λ m. (p : Nesting) → is_inside p ≡ true → Admits p m) }
{
    match brackets {
        Brackets::Zero => Ok(Context::Section {
            brackets: Brackets::One,
            cr,
        }),
        Brackets::One => Ok(Context::Section {
            brackets: Brackets::Two,
            cr,
        }),
        Brackets::Two => {
            kept.text.push(b']')?;
            Ok(Context::Section {
                brackets,
                cr: false,
            })
        }
    }
}

/// A byte of a section that ends in no bracket.
fn section_byte(
    kept: &mut Kept,
    brackets: Brackets,
    cr: bool,
    byte: u8,
) -> Result<Context, AllocError>
    ensures state { IfOk result (λ m. (p : Nesting) → state_of p kept.new m
        ≡ in_section (levels_of p) (inner_of p) (outer_of p)
        ((kept.old.text.items ++ bracket_bytes (brackets_of brackets)) ++ line_text (cr_behind (brackets_of brackets) cr) byte) no_bracket (byte == 13)) }
    ensures fits { IfOk result (λ m. (p : Nesting) → is_inside p ≡ true → Admits p m) }
{
    put_brackets(&mut kept.text, brackets)?;
    let behind_cr = cr && matches!(brackets, Brackets::Zero);
    put_line_byte(&mut kept.text, behind_cr, byte)?;
    Ok(Context::Section {
        brackets: Brackets::Zero,
        cr: byte == b'\r',
    })
}

/// A byte of a CDATA section.
pub(crate) fn section(
    tree: &mut OpenTree,
    kept: &mut Kept,
    brackets: Brackets,
    cr: bool,
    byte: u8,
) -> Result<Option<Context>, AllocError>
    requires belongs { Belongs tree.old }
    requires inside { is_inside (nesting_of tree.old) ≡ true }
    requires whole { byte < 128 → is_text kept.old.text.items ≡ true }
    ensures state { IfOk result (λ m. option_map (state_of (nesting_of tree.new) kept.new) m
        ≡ next_in_section (levels_of (nesting_of tree.old)) (inner_of (nesting_of tree.old)) (outer_of (nesting_of tree.old)) kept.old.text.items (brackets_of brackets) cr byte) }
    ensures fits { IfOk result (λ m. IfSome m (Admits (nesting_of tree.new))) }
    ensures belongs { OnOk result (Belongs tree.new) }
{
    if byte == b']' {
        return Ok(Some(bracket(kept, brackets, cr)?));
    }
    if byte == b'>' && matches!(brackets, Brackets::Two) {
        tree.text(&kept.text)?;
        return Ok(Some(Context::Between));
    }
    Ok(Some(section_byte(kept, brackets, cr, byte)?))
}
