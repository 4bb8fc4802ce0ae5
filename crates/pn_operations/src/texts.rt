//! Texts in UTF-8.

ghost use Rattle.std.specs.Prelude.{◌≡◌, length, IfOk};
ghost use Rattle.pn_text.specs.Characters.{characters_of};
ghost use Rattle.pn_operations.specs.Texts.{text_concatenation, text_length, text_cmp};

use pn_text::Text;
use std::alloc::AllocError;
use std::cmp::Ordering;

/// The greatest number of bytes of a text that `stringconcatenation` gives.
const MOST_BYTES: usize = 16777216;

/// `stringconcatenation`, in the memory of the first: `None` where there are more than 16777216
/// bytes.
pub fn concatenation(one: Text, other: &Text) -> Result<Option<Text>, AllocError>
    ensures { IfOk result (λ text. text ≡ text_concatenation one other.now) }
{
    let bytes = one.as_str().len();
    if bytes > MOST_BYTES || other.as_str().len() > MOST_BYTES - bytes {
        return Ok(None);
    }
    let mut text = one;
    text.push_str(other.as_str())?;
    Ok(Some(text))
}

/// `stringlength`: the number of characters.
pub fn length(text: &Text) -> Option<i64>
    ensures { result ≡ text_length text.now }
{
    i64::try_from(characters(text.as_str())).ok()
}

/// The number of characters.
fn characters(text: &str) -> usize
    ensures { result ≡ length (characters_of text.now) }
{
    text.chars().count()
}

/// How the first compares with the second, byte by byte.
pub fn order(one: &Text, other: &Text) -> Ordering
    ensures { result ≡ text_cmp one.now other.now }
{
    one.as_str().cmp(other.as_str())
}
