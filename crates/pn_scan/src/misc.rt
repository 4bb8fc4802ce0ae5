//! What stands outside the root, what a `<` begins, comments and processing instructions.

ghost use Rattle.std.specs.Prelude.{◌≡◌, false, [], drop, Some, IfSome, IfOk};
ghost use Rattle.std.specs.Option.{option_map};
ghost use Rattle.pn_text.specs.Characters.{is_name_part};
ghost use Rattle.pn_markup.specs.Misc.{is_xml};
ghost use Rattle.pn_scan.specs.State.{Nesting, at_start};
ghost use Rattle.pn_scan.specs.NextState.{next_state, next_outside, next_at_markup, next_at_bang, next_in_comment, next_in_target, next_in_instruction, next_due};
ghost use Rattle.pn_scan.specs.Nestings.{IsWhere, IsRoom};
ghost use Rattle.pn_scan.specs.Contexts.{bytes_of, state_of, then_of, Admits, AdmitsThen};

use crate::bytes::{begin_name, begins_name, continues_name, is_space_byte};
use crate::context::{Brackets, Context, Kept, Stage, Then, Word};
use crate::open_tree::Where;
use std::alloc::AllocError;

/// The context that follows bytes that were due.
fn context_behind(kept: &mut Kept, then: Then) -> Context
    ensures state { (p : Nesting) → state_of p kept.new result ≡ then_of p then }
    ensures fits { (p : Nesting) → AdmitsThen p then → Admits p result }
{
    match then {
        Then::First => Context::First,
        Then::Between => Context::Between,
        Then::Section => {
            kept.text.clear();
            Context::Section {
                brackets: Brackets::Zero,
                cr: false,
            }
        }
        Then::Comment => Context::Comment { dash: false },
        Then::BeforeEquals(part) => Context::BeforePartEquals { part },
    }
}

/// A byte where a word is due, behind so many bytes of it.
pub(crate) fn due(kept: &mut Kept, word: Word, read: usize, then: Then, byte: u8) -> Option<Context>
    ensures state { (p : Nesting) → option_map (state_of p kept.new) result ≡ next_due (drop read (bytes_of word)) (then_of p then) byte }
    ensures fits { (p : Nesting) → AdmitsThen p then → IfSome result (Admits p) }
{
    let (first, rest) = word.left(read).split_first()?;
    if *first != byte {
        return None;
    }
    if rest.is_empty() {
        return Some(context_behind(kept, then));
    }
    Some(Context::Due {
        word,
        read: read + 1,
        then,
    })
}

/// A byte before the root, where a declaration may still come or not.
pub(crate) fn outside(first: bool, at: u64, byte: u8) -> Option<Context>
    ensures state { (p : Nesting) (k : Kept) → IsWhere Where.Before p → option_map (state_of p k) result ≡ next_outside first at byte }
    ensures fits { (p : Nesting) → IfSome result (Admits p) }
{
    if is_space_byte(byte) {
        return Some(Context::Between);
    }
    if byte == b'<' {
        return Some(Context::Markup { first, begin: at });
    }
    None
}

/// The first byte of all.
pub(crate) fn start(at: u64, byte: u8) -> Option<Context>
    ensures state { (p : Nesting) (k : Kept) → IsWhere Where.Before p → option_map (state_of p k) result ≡ next_state at_start at byte }
    ensures fits { (p : Nesting) → IsWhere Where.Before p → IfSome result (Admits p) }
{
    if byte == 0xEF {
        return Some(Context::Due {
            word: Word::Mark,
            read: 0,
            then: Then::First,
        });
    }
    outside(true, at, byte)
}

/// A byte behind `<!`.
pub(crate) fn bang(nesting: Where, byte: u8) -> Option<Context>
    ensures state { (p : Nesting) (k : Kept) → IsWhere nesting p → option_map (state_of p k) result ≡ next_at_bang p byte }
    ensures fits { (p : Nesting) → IsWhere nesting p → IfSome result (Admits p) }
{
    if byte == b'-' {
        return Some(Context::Due {
            word: Word::Dash,
            read: 0,
            then: Then::Comment,
        });
    }
    match nesting {
        Where::Within if byte == b'[' => Some(Context::Due {
            word: Word::Section,
            read: 0,
            then: Then::Section,
        }),
        _ => None,
    }
}

/// A byte of a comment.
pub(crate) fn comment(dash: bool, byte: u8) -> Context
    ensures state { (p : Nesting) (k : Kept) → Some (state_of p k result) ≡ next_in_comment p dash byte }
    ensures fits { (p : Nesting) → Admits p result }
{
    if byte != b'-' {
        return Context::Comment { dash: false };
    }
    if dash {
        return Context::Due {
            word: Word::End,
            read: 0,
            then: Then::Between,
        };
    }
    Context::Comment { dash: true }
}

/// A byte of the text of a processing instruction.
pub(crate) fn instruction(question: bool, byte: u8) -> Context
    ensures state { (p : Nesting) (k : Kept) → Some (state_of p k result) ≡ next_in_instruction p question byte }
    ensures fits { (p : Nesting) → Admits p result }
{
    if question && byte == b'>' {
        return Context::Between;
    }
    Context::Instruction {
        question: byte == b'?',
    }
}

/// Whether a name is `xml` in any case.
fn is_xml_name(name: &[u8]) -> bool
    ensures { result ≡ is_xml name.now }
{
    name.eq_ignore_ascii_case(b"xml")
}

/// A byte behind the whole name of a processing instruction, or of a declaration.
fn behind_target(nesting: Where, first: bool, name: &[u8], byte: u8) -> Option<Context>
    requires { is_name_part byte ≡ false }
    ensures state { (p : Nesting) (k : Kept) → (name.now ≡ [] → ⊥) → IsWhere nesting p → option_map (state_of p k) result ≡ next_in_target first p name.now byte }
    ensures fits { (p : Nesting) → IsWhere nesting p → IfSome result (Admits p) }
{
    let space = is_space_byte(byte);
    if space && first && matches!(nesting, Where::Before) && name == b"xml".as_slice() {
        return Some(Context::Declaration {
            stage: Stage::All,
            spaced: true,
        });
    }
    if is_xml_name(name) {
        return None;
    }
    if space {
        return Some(Context::Instruction { question: false });
    }
    if byte == b'?' {
        return Some(Context::Due {
            word: Word::End,
            read: 0,
            then: Then::Between,
        });
    }
    None
}

/// A byte of the name of a processing instruction, or of what may be a declaration.
pub(crate) fn target(
    nesting: Where,
    kept: &mut Kept,
    first: bool,
    byte: u8,
) -> Result<Option<Context>, AllocError>
    ensures state { IfOk result (λ m. (p : Nesting) → IsWhere nesting p → option_map (state_of p kept.new) m ≡ next_in_target first p kept.old.name.items byte) }
    ensures fits { IfOk result (λ m. (p : Nesting) → IsWhere nesting p → IfSome m (Admits p)) }
{
    let more = if kept.name.is_empty() {
        begins_name(byte)
    } else {
        continues_name(byte)
    };
    if more {
        kept.name.push(byte)?;
        return Ok(Some(Context::Target { first }));
    }
    if kept.name.is_empty() {
        return Ok(None);
    }
    Ok(behind_target(nesting, first, &kept.name, byte))
}

/// A byte behind `<`; `room` where an element may begin here.
pub(crate) fn markup(
    nesting: Where,
    room: bool,
    kept: &mut Kept,
    first: bool,
    begin: u64,
    byte: u8,
) -> Result<Option<Context>, AllocError>
    ensures state { IfOk result (λ m. (p : Nesting) → IsWhere nesting p → IsRoom room p → option_map (state_of p kept.new) m ≡ next_at_markup first p begin byte) }
    ensures fits { IfOk result (λ m. (p : Nesting) → IsWhere nesting p → IsRoom room p → IfSome m (Admits p)) }
{
    match byte {
        b'!' => Ok(Some(Context::Bang)),
        b'?' => {
            kept.name.clear();
            Ok(Some(Context::Target { first }))
        }
        b'/' => match nesting {
            Where::Within => Ok(Some(Context::EndName { read: 0 })),
            _ => Ok(None),
        },
        _ => {
            if room && begins_name(byte) {
                begin_name(&mut kept.name, byte)?;
                return Ok(Some(Context::Name { begin }));
            }
            Ok(None)
        }
    }
}
