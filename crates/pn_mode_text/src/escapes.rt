//! Escaped texts, read back.

ghost use Rattle.std.specs.Prelude.{◌≡◌, ◌<◌, ◌≤◌, ◌∷◌, ◌++◌, [], ℕ, List, None, Some, IfOk, IfSome, true, length, drop};
ghost use Rattle.std.specs.Fmt.{digit_glyph};
ghost use Rattle.std.specs.Str.{IsUtf8};
ghost use Rattle.pn_lines.specs.Escapes.{escape};
ghost use Rattle.pn_mode_text.specs.Readings.{AreStops};
ghost use Rattle.pn_mode_text.specs.Unescaped.{Unescapes};

use pn_lines::is_plain;
use pn_text::Text;
use pn_words::is_mark;
use std::alloc::{AllocError, Global};

/// The number of an upper-case hexadecimal digit.
fn hex_value(digit: u8) -> Option<u8>
    ensures value { IfSome result (λ n. (n < 16) × (digit_glyph true n ≡ digit)) }
    ensures none { result ≡ None → (n : ℕ) → n < 16 → digit_glyph true n ≡ digit → ⊥ }
{
    match digit {
        b'0'..=b'9' => Some(digit - b'0'),
        b'A'..=b'F' => Some(digit - b'A' + 10),
        _ => None,
    }
}

/// The byte whose escape is `%` and these two digits.
pub(crate) fn byte_of_digits(high: u8, low: u8) -> Option<u8>
    ensures byte { IfSome result (λ b. escape b ≡ 37 ∷ high ∷ low ∷ []) }
    ensures none { result ≡ None → (b : ℕ) → escape b ≡ 37 ∷ high ∷ low ∷ [] → ⊥ }
{
    let Some(upper) = hex_value(high) else {
        return None;
    };
    let Some(lower) = hex_value(low) else {
        return None;
    };
    let byte = upper * 16 + lower;
    if is_plain(byte) {
        return None;
    }
    Some(byte)
}

/// The byte whose escape stands at the front, and how many bytes the escape has.
fn escape_front(bytes: &[u8]) -> Option<(u8, usize)>
    ensures front { IfSome result (λ x. bytes.now ≡ escape x.0 ++ drop x.1 bytes.now) }
    ensures within { IfSome result (λ x. (0 < x.1) × (x.1 ≤ length bytes.now)) }
    ensures none { result ≡ None → (b : ℕ) (rest : List ℕ) → bytes.now ≡ escape b ++ rest → ⊥ }
{
    match bytes {
        [b'%', high, low, ..] => match byte_of_digits(*high, *low) {
            Some(byte) => Some((byte, 3)),
            None => None,
        },
        [byte, ..] if is_plain(*byte) => Some((*byte, 1)),
        _ => None,
    }
}

/// Reads an id, escaped, up to one of the marks, puts its bytes into `id`, and answers the mark and
/// the bytes behind it; `None` where the bytes begin with no such id.
fn unescape<'a>(
    id: &mut Vec<u8>,
    marks: &[u8],
    bytes: &'a [u8],
) -> Result<Option<(u8, &'a [u8])>, AllocError>
    requires empty { id.old.items ≡ [] }
    requires stops { AreStops marks.now }
    ensures found { IfOk result (λ o. IfSome o (λ x. Unescapes marks.now id.new.items x.0 x.1.now bytes.now)) }
    ensures none { IfOk result (λ o. o ≡ None → (t : List ℕ) (mark : ℕ) (rest : List ℕ) → Unescapes marks.now t mark rest bytes.now → ⊥) }
{
    let mut at = 0;
    while at < bytes.len() {
        if is_mark(marks, bytes[at]) {
            return Ok(Some((bytes[at], &bytes[at + 1..])));
        }
        let Some((byte, length)) = escape_front(&bytes[at..]) else {
            return Ok(None);
        };
        id.push(byte)?;
        at += length;
    }
    Ok(None)
}

/// The text of these bytes, where they are UTF-8.
fn text_of(bytes: Vec<u8>) -> Option<Text>
    ensures text { IfSome result (λ t. t ≡ bytes.items) }
    ensures none { result ≡ None → IsUtf8 bytes.items → ⊥ }
{
    match String::from_utf8(bytes) {
        Ok(inner) => Some(Text::from_string(inner)),
        Err(_) => None,
    }
}

/// Reads an id, escaped, up to one of the marks, and answers the id, the mark and the bytes behind
/// it; `None` where the bytes begin with no such id. Which ids there are is not asked. The time is
/// linear in the bytes of the id, and so is the memory.
pub(crate) fn unescaped<'a>(
    alloc: Global,
    marks: &[u8],
    bytes: &'a [u8],
) -> Result<Option<((Text, u8), &'a [u8])>, AllocError>
    requires stops { AreStops marks.now }
    ensures found { IfOk result (λ o. IfSome o (λ x. Unescapes marks.now x.0.0 x.0.1 x.1.now bytes.now)) }
    ensures none { IfOk result (λ o. o ≡ None → (id : List ℕ) (mark : ℕ) (rest : List ℕ) → IsUtf8 id → Unescapes marks.now id mark rest bytes.now → ⊥) }
{
    let mut id = Vec::new(alloc);
    let Some((mark, rest)) = unescape(&mut id, marks, bytes)? else {
        return Ok(None);
    };
    match text_of(id) {
        Some(text) => Ok(Some(((text, mark), rest))),
        None => Ok(None),
    }
}
