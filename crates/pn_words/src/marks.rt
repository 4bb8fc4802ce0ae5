//! Marks, and texts with a mark behind them.

ghost use Rattle.std.specs.Prelude.{◌≡◌, ◌<◌, ◌↔◌, length, map, IsTrue};
ghost use Rattle.std.specs.List.{Contains};
ghost use Rattle.pn_words.specs.Languages.{AreApart, Closed, Listed, Mark, Only, Reads};

use crate::literals::literal;

/// Whether a byte is one of the marks.
pub fn is_mark(marks: &[u8], byte: u8) -> bool
    ensures { IsTrue result ↔ Contains marks.now byte }
{
    marks.contains(&byte)
}

/// Reads one of the marks, and answers it and the bytes behind it.
pub fn mark<'a>(marks: &[u8], bytes: &'a [u8]) -> Result<(u8, &'a [u8]), usize>
    ensures { Reads (Mark marks.now) bytes.now (λ x. x.0) (λ x. x.1.now) result }
{
    if bytes.is_empty() || !is_mark(marks, bytes[0]) {
        return Err(bytes.len());
    }
    Ok((bytes[0], &bytes[1..]))
}

/// Reads a text and one of the marks behind it, and answers the mark and the bytes behind it.
pub fn closed_text<'a>(text: &[u8], marks: &[u8], bytes: &'a [u8]) -> Result<(u8, &'a [u8]), usize>
    requires { 0 < length marks.now }
    ensures { Reads (Closed (Only text.now) marks.now) bytes.now (λ x. (tt, x.0)) (λ x. x.1.now) result }
{
    match literal(text, bytes) {
        Ok(rest) => mark(marks, rest),
        Err(left) => Err(left),
    }
}

/// Reads one of the texts and one of the marks behind it, and answers the place of the text, the mark
/// and the bytes behind it. The time is linear in the number of texts and in what the bytes share with them.
pub fn one_of<'a>(
    texts: &[&[u8]],
    marks: &[u8],
    bytes: &'a [u8],
) -> Result<((usize, u8), &'a [u8]), usize>
    requires some { 0 < length marks.now }
    requires apart { AreApart (map (λ t. t.now) texts.now) marks.now }
    ensures { Reads (Closed (Listed (map (λ t. t.now) texts.now) (length texts.now)) marks.now) bytes.now (λ x. x.0) (λ x. x.1.now) result }
{
    let mut left = bytes.len();
    for place in 0..texts.len() {
        match closed_text(texts[place], marks, bytes) {
            Ok((mark, rest)) => return Ok(((place, mark), rest)),
            Err(less) => left = left.min(less),
        }
    }
    Err(left)
}
