//! The XML declaration (XML 1.0, 2.8).

ghost use Rattle.std.specs.Prelude.{◌≡◌, ◌==◌, ◌&&◌, ◌++◌, ◌∷◌, [], true, map, OnOk, IfSome, IfOk};
ghost use Rattle.std.specs.Char.{to_ascii_lowercase};
ghost use Rattle.std.specs.List.{list_all};
ghost use Rattle.std.specs.Str.{bytes_eq};
ghost use Rattle.std.specs.Option.{option_map};
ghost use Rattle.pn_scan.specs.State.{Nesting, before, before_part_equals, behind_part_equals};
ghost use Rattle.pn_text.specs.Characters.{is_within};
ghost use Rattle.pn_markup.specs.Declaration.{is_version};
ghost use Rattle.pn_scan.specs.Rest.{may_come, may_end, stage_behind, is_part_value};
ghost use Rattle.pn_scan.specs.NextState.{next_state, next_in_declaration, next_in_part, part_begins, is_part_front, is_version_front};
ghost use Rattle.pn_scan.specs.Contexts.{state_of, stage_of, part_of, Admits};

use crate::bytes::{is_quote_byte, is_space_byte};
use crate::context::{Context, Kept, Part, Stage, Then, Word};
use crate::reference::is_front;
use std::alloc::{AllocError, Global};

/// Whether a part may come at a stage.
fn may_begin(stage: Stage, part: Part) -> bool
    ensures { result ≡ may_come (stage_of stage) (part_of part) }
{
    match (stage, part) {
        (Stage::All, Part::Version) => true,
        (Stage::FromEncoding, Part::Encoding) => true,
        (Stage::FromEncoding, Part::Standalone) => true,
        (Stage::FromStandalone, Part::Standalone) => true,
        _ => false,
    }
}

/// Whether the declaration may end at a stage: behind its version.
fn may_close(stage: Stage) -> bool
    ensures { result ≡ may_end (stage_of stage) }
{
    !matches!(stage, Stage::All)
}

/// Which parts may still come behind a part.
fn next_stage(part: Part) -> Stage
    ensures { stage_of result ≡ stage_behind (part_of part) }
{
    match part {
        Part::Version => Stage::FromEncoding,
        Part::Encoding => Stage::FromStandalone,
        Part::Standalone => Stage::Nothing,
    }
}

/// A byte with which the declaration ends, up to its `>`.
fn closes(stage: Stage, byte: u8) -> bool
    ensures { result ≡ ((byte == 63) && may_end (stage_of stage)) }
{
    byte == b'?' && may_close(stage)
}

/// The first byte of the word of a part.
fn begin_part(stage: Stage, byte: u8) -> Option<Context>
    ensures state { (p : Nesting) (k : Kept) → option_map (state_of p k) result ≡ part_begins (stage_of stage) byte }
    ensures fits { (p : Nesting) → p ≡ before → IfSome result (Admits p) }
{
    if byte == b'v' && may_begin(stage, Part::Version) {
        return Some(Context::Due {
            word: Word::Version,
            read: 0,
            then: Then::BeforeEquals(Part::Version),
        });
    }
    if byte == b'e' && may_begin(stage, Part::Encoding) {
        return Some(Context::Due {
            word: Word::Encoding,
            read: 0,
            then: Then::BeforeEquals(Part::Encoding),
        });
    }
    if byte == b's' && may_begin(stage, Part::Standalone) {
        return Some(Context::Due {
            word: Word::Standalone,
            read: 0,
            then: Then::BeforeEquals(Part::Standalone),
        });
    }
    None
}

/// A byte of the declaration behind a part of it, or behind its beginning.
pub(crate) fn declaration(stage: Stage, spaced: bool, byte: u8) -> Option<Context>
    ensures state { (p : Nesting) (k : Kept) → p ≡ before → option_map (state_of p k) result ≡ next_in_declaration (stage_of stage) spaced byte }
    ensures fits { (p : Nesting) → p ≡ before → IfSome result (Admits p) }
{
    if is_space_byte(byte) {
        return Some(Context::Declaration {
            stage,
            spaced: true,
        });
    }
    if closes(stage, byte) {
        return Some(Context::Due {
            word: Word::End,
            read: 0,
            then: Then::Between,
        });
    }
    if spaced {
        return begin_part(stage, byte);
    }
    None
}

/// A byte behind the word of a part.
pub(crate) fn part_equals(part: Part, at: u64, byte: u8) -> Option<Context>
    ensures state { (p : Nesting) (k : Kept) → option_map (state_of p k) result ≡ next_state (before_part_equals (part_of part)) at byte }
    ensures fits { (p : Nesting) → p ≡ before → IfSome result (Admits p) }
{
    if is_space_byte(byte) {
        return Some(Context::BeforePartEquals { part });
    }
    if byte == b'=' {
        return Some(Context::BehindPartEquals { part });
    }
    None
}

/// A byte behind the `=` of a part.
pub(crate) fn part_quote(kept: &mut Kept, part: Part, at: u64, byte: u8) -> Option<Context>
    ensures state { (p : Nesting) → option_map (state_of p kept.new) result ≡ next_state (behind_part_equals (part_of part)) at byte }
    ensures fits { (p : Nesting) → p ≡ before → IfSome result (Admits p) }
{
    if is_space_byte(byte) {
        return Some(Context::BehindPartEquals { part });
    }
    if is_quote_byte(byte) {
        kept.text.clear();
        return Some(Context::PartValue { part, quote: byte });
    }
    None
}

/// Whether these are decimal digits, one at least.
fn are_version_digits(bytes: &[u8]) -> bool
    ensures { result ≡ list_all (is_within 48 57) bytes.now }
{
    bytes.iter().all(|byte| byte.is_ascii_digit())
}

/// Whether a byte goes on with what begins a version.
fn goes_on_version(value: &[u8], byte: u8) -> bool
    requires { is_version_front value.now ≡ true }
    ensures { result ≡ is_version_front (value.now ++ byte ∷ []) }
{
    match value.len() {
        0 => byte == b'1',
        1 => byte == b'.',
        _ => byte.is_ascii_digit(),
    }
}

/// Whether a value is a version (2.8, VersionNum).
fn is_version_whole(value: &[u8]) -> bool
    ensures { result ≡ is_version value.now }
{
    match value {
        [one, dot, first, digits @ ..] => {
            *one == b'1' && *dot == b'.' && first.is_ascii_digit() && are_version_digits(digits)
        }
        _ => false,
    }
}

/// Bytes in lower case.
fn lower_case(alloc: Global, bytes: &[u8]) -> Result<Vec<u8>, AllocError>
    ensures { IfOk result (λ v. v.items ≡ map to_ascii_lowercase bytes.now) }
{
    bytes
        .iter()
        .map(|byte| byte.to_ascii_lowercase())
        .collect(alloc)
}

/// Puts a byte to the value of a part; says whether one begins so.
fn put_part_byte(
    alloc: Global,
    part: Part,
    value: &mut Vec<u8>,
    byte: u8,
) -> Result<bool, AllocError>
    requires { is_part_front (part_of part) value.old.items ≡ true }
    ensures put { OnOk result (value.new.items ≡ value.old.items ++ byte ∷ []) }
    ensures begun { IfOk result (λ b. b ≡ is_part_front (part_of part) (value.old.items ++ byte ∷ [])) }
{
    match part {
        Part::Version => {
            let goes_on = goes_on_version(value, byte);
            value.push(byte)?;
            Ok(goes_on)
        }
        Part::Encoding => {
            value.push(byte)?;
            let lower = lower_case(alloc, value)?;
            Ok(is_front(&lower, b"utf-8") || is_front(&lower, b"us-ascii"))
        }
        Part::Standalone => {
            value.push(byte)?;
            Ok(is_front(value, b"yes") || is_front(value, b"no"))
        }
    }
}

/// Whether two byte lists are the same.
fn is_same(bytes: &[u8], other: &[u8]) -> bool
    ensures { result ≡ bytes_eq bytes.now other.now }
{
    bytes == other
}

/// Whether a value is that of a part.
fn is_part_whole(alloc: Global, part: Part, value: &[u8]) -> Result<bool, AllocError>
    ensures { IfOk result (λ b. b ≡ is_part_value (part_of part) value.now) }
{
    match part {
        Part::Version => Ok(is_version_whole(value)),
        Part::Encoding => {
            let lower = lower_case(alloc, value)?;
            Ok(is_same(&lower, b"utf-8") || is_same(&lower, b"us-ascii"))
        }
        Part::Standalone => Ok(is_same(value, b"yes") || is_same(value, b"no")),
    }
}

/// A byte of the value of a part.
pub(crate) fn part_value(
    alloc: Global,
    kept: &mut Kept,
    part: Part,
    quote: u8,
    byte: u8,
) -> Result<Option<Context>, AllocError>
    requires { is_part_front (part_of part) kept.old.text.items ≡ true }
    ensures state { IfOk result (λ m. (p : Nesting) → option_map (state_of p kept.new) m ≡ next_in_part (part_of part) quote kept.old.text.items byte) }
    ensures fits { IfOk result (λ m. (p : Nesting) → p ≡ before → IfSome m (Admits p)) }
{
    if byte == quote {
        if is_part_whole(alloc, part, &kept.text)? {
            return Ok(Some(Context::Declaration {
                stage: next_stage(part),
                spaced: false,
            }));
        }
        return Ok(None);
    }
    if put_part_byte(alloc, part, &mut kept.text, byte)? {
        return Ok(Some(Context::PartValue { part, quote }));
    }
    Ok(None)
}
