//! Bytes that stand for themselves, many at once.

ghost use Rattle.std.specs.Prelude.{◌≡◌, ℕ, Bool, ◌≤◌, ◌++◌, true, length, take, IfOk};
ghost use Rattle.std.specs.List.{prefix_len};
ghost use Rattle.pn_text.specs.Characters.{is_text};
ghost use Rattle.pn_markup.specs.Bytes.{is_space};
ghost use Rattle.pn_scan.specs.State.{Nesting};
ghost use Rattle.pn_scan.specs.Contexts.{state_of};
ghost use Rattle.pn_scan.specs.Ordinary.{is_ascii, is_ordinary_text, is_ordinary_name, is_ordinary_value, is_ordinary_but, is_high, or_high, ordinary_text, ordinary_value, ordinary_but, ordinary_space, is_ordinary, behind_ordinary, IsSlice};

use crate::bytes::{continues_name, is_space_byte};
use crate::context::{Brackets, Context, Kept};
use pn_utf8::character_front;
use std::alloc::AllocError;

/// A character of one byte, but CR.
fn is_ascii_byte(byte: u8) -> bool
    ensures { result ≡ is_ascii byte }
{
    byte == b'\t' || byte == b'\n' || 0x20 <= byte && byte <= 0x7F
}

/// A byte that stands for itself in content.
fn is_text_byte(byte: u8) -> bool
    ensures { result ≡ is_ordinary_text byte }
{
    is_ascii_byte(byte) && !(byte == b'<' || byte == b'&' || byte == b'>' || byte == b']')
}

/// A byte that stands for itself in a name.
fn is_name_byte(byte: u8) -> bool
    ensures { result ≡ is_ordinary_name byte }
{
    byte < 0x80 && continues_name(byte)
}

/// A byte that stands for itself in a value in these quotes.
fn is_value_byte(quote: u8, byte: u8) -> bool
    ensures { result ≡ is_ordinary_value quote byte }
{
    0x20 <= byte && byte <= 0x7F && !(byte == quote || byte == b'<' || byte == b'&')
}

/// How many bytes at the front of a piece are whole characters.
fn whole_front(piece: &[u8]) -> usize
    ensures whole { is_text (take result piece.now) ≡ true }
    ensures within { result ≤ length piece.now }
{
    let mut at = 0;
    while at < piece.len() {
        let size = character_front(&piece[at..]);
        if size == 0 {
            return at;
        }
        at += size;
    }
    at
}

/// How many bytes at the front of a piece are past ASCII.
fn high_count(piece: &[u8]) -> usize
    ensures value { result ≡ prefix_len is_high piece.now }
    ensures within { result ≤ length piece.now }
{
    piece.iter().take_while(|byte| 0x80 <= **byte).count()
}

/// How many bytes at the front of a piece are whole characters past ASCII.
#[inline(never)]
fn high_front(piece: &[u8]) -> usize
    ensures slice { IsSlice is_high (take result piece.now) }
    ensures within { result ≤ length piece.now }
{
    whole_front(&piece[..high_count(piece)])
}

/// So many bytes at the front of a piece, and the characters past ASCII behind them.
fn with_high(piece: &[u8], size: usize) -> usize
    requires { size ≤ length piece.now }
    ensures slice { (passes : ℕ → Bool) → IsSlice (or_high passes) (take size piece.now) → IsSlice (or_high passes) (take result piece.now) }
    ensures within { result ≤ length piece.now }
{
    if size < piece.len() && 0x80 <= piece[size] {
        return size + high_front(&piece[size..]);
    }
    size
}

/// How many bytes at the front of a piece stand for themselves in content, of ASCII.
fn text_count(piece: &[u8]) -> usize
    ensures value { result ≡ prefix_len is_ordinary_text piece.now }
    ensures within { result ≤ length piece.now }
{
    piece.iter().take_while(|byte| is_text_byte(**byte)).count()
}

/// How many bytes at the front of a piece stand for themselves in content behind these brackets,
/// in CR or not.
fn text_front(brackets: Brackets, cr: bool, piece: &[u8]) -> usize
    ensures slice { IsSlice (ordinary_text brackets cr) (take result piece.now) }
    ensures within { result ≤ length piece.now }
{
    if cr {
        return 0;
    }
    match brackets {
        Brackets::Zero => with_high(piece, text_count(piece)),
        _ => 0,
    }
}

/// How many bytes at the front of a piece stand for themselves in a name, of ASCII.
fn name_count(piece: &[u8]) -> usize
    ensures value { result ≡ prefix_len is_ordinary_name piece.now }
    ensures within { result ≤ length piece.now }
{
    piece.iter().take_while(|byte| is_name_byte(**byte)).count()
}

/// How many bytes at the front of a piece stand for themselves in a name.
fn name_front(piece: &[u8]) -> usize
    ensures slice { IsSlice (or_high is_ordinary_name) (take result piece.now) }
    ensures within { result ≤ length piece.now }
{
    with_high(piece, name_count(piece))
}

/// How many bytes at the front of a piece stand for themselves in a value in these quotes, of ASCII.
fn value_count(quote: u8, piece: &[u8]) -> usize
    ensures value { result ≡ prefix_len (is_ordinary_value quote) piece.now }
    ensures within { result ≤ length piece.now }
{
    piece
        .iter()
        .take_while(|byte| is_value_byte(quote, **byte))
        .count()
}

/// How many bytes at the front of a piece stand for themselves in a value in these quotes, behind
/// a CR or not.
fn value_front(quote: u8, cr: bool, piece: &[u8]) -> usize
    ensures slice { IsSlice (ordinary_value quote cr) (take result piece.now) }
    ensures within { result ≤ length piece.now }
{
    if cr {
        return 0;
    }
    with_high(piece, value_count(quote, piece))
}

/// How many bytes at the front of a piece stand for themselves before this byte, of ASCII.
fn count_before(mark: u8, piece: &[u8]) -> usize
    ensures value { result ≡ prefix_len (is_ordinary_but mark) piece.now }
    ensures within { result ≤ length piece.now }
{
    piece
        .iter()
        .take_while(|byte| is_ascii_byte(**byte) && **byte != mark)
        .count()
}

/// How many bytes at the front of a piece stand for themselves where this byte may begin an end,
/// behind one or not.
fn front_before(mark: u8, behind: bool, piece: &[u8]) -> usize
    ensures slice { IsSlice (ordinary_but mark behind) (take result piece.now) }
    ensures within { result ≤ length piece.now }
{
    if behind {
        return 0;
    }
    with_high(piece, count_before(mark, piece))
}

/// How many bytes at the front of a piece are white space.
fn space_count(piece: &[u8]) -> usize
    ensures value { result ≡ prefix_len is_space piece.now }
    ensures within { result ≤ length piece.now }
{
    piece
        .iter()
        .take_while(|byte| is_space_byte(**byte))
        .count()
}

/// How many bytes at the front of a piece are white space, behind white space or not.
fn space_front(spaced: bool, piece: &[u8]) -> usize
    ensures slice { IsSlice (ordinary_space spaced) (take result piece.now) }
    ensures within { result ≤ length piece.now }
{
    if spaced {
        return space_count(piece);
    }
    0
}

/// How many bytes at the front of a piece are those that are due of a name, characters whole.
pub(crate) fn due_front(due: &[u8], piece: &[u8]) -> usize
    requires { is_text due.now ≡ true }
    ensures same { take result piece.now ≡ take result due.now }
    ensures whole { is_text (take result piece.now) ≡ true }
    ensures of_due { result ≤ length due.now }
    ensures within { result ≤ length piece.now }
{
    let mut at = 0;
    while at < due.len() && at < piece.len() {
        if due[at] != piece[at] {
            return whole_front(&piece[..at]);
        }
        at += 1;
    }
    if at < due.len() {
        return whole_front(&piece[..at]);
    }
    at
}

/// Puts the front of a piece to a text.
fn put_front(text: &mut Vec<u8>, piece: &[u8], size: usize) -> Result<usize, AllocError>
    requires { size ≤ length piece.now }
    ensures size { IfOk result (λ n. n ≡ size) }
    ensures text { IfOk result (λ n. text.new.items ≡ text.old.items ++ take n piece.now) }
{
    text.extend_from_slice(&piece[..size])?;
    Ok(size)
}

/// Takes the bytes at the front of a piece that stand for themselves in a context; answers how
/// many.
#[tactic(auto, using(crate::proofs::OrdinaryLemmas::behind_none, crate::proofs::OrdinaryLemmas::no_slice))]
pub(crate) fn take_ordinary(
    kept: &mut Kept,
    context: Context,
    piece: &[u8],
) -> Result<usize, AllocError>
    ensures slice { IfOk result (λ n. IsSlice (is_ordinary context) (take n piece.now)) }
    ensures within { IfOk result (λ n. n ≤ length piece.now) }
    ensures state { IfOk result (λ n. (p : Nesting) → state_of p kept.new context ≡ behind_ordinary (state_of p kept.old context) (take n piece.now)) }
{
    match context {
        Context::Run { brackets, cr } => {
            put_front(&mut kept.text, piece, text_front(brackets, cr, piece))
        }
        Context::Section { brackets, cr } => {
            put_front(&mut kept.text, piece, text_front(brackets, cr, piece))
        }
        Context::Name { .. } => put_front(&mut kept.name, piece, name_front(piece)),
        Context::Tag { spaced } => Ok(space_front(spaced, piece)),
        Context::Attribute => put_front(&mut kept.name, piece, name_front(piece)),
        Context::Value { quote, cr } => {
            put_front(&mut kept.text, piece, value_front(quote, cr, piece))
        }
        Context::Comment { dash } => Ok(front_before(b'-', dash, piece)),
        Context::Instruction { question } => Ok(front_before(b'?', question, piece)),
        _ => Ok(0),
    }
}
