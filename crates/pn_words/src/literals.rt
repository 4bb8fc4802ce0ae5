//! A fixed text.

ghost use Rattle.std.specs.Prelude.{◌≡◌, ◌≤◌, length};
ghost use Rattle.pn_words.specs.Languages.{Only, Reads, same};

/// How many bytes two slices share from the front.
pub fn shared(word: &[u8], bytes: &[u8]) -> usize
    ensures shared { result ≡ same word.now bytes.now }
    ensures first { result ≤ length word.now }
    ensures second { result ≤ length bytes.now }
{
    let mut at = 0;
    while at < word.len() && at < bytes.len() && word[at] == bytes[at] {
        at += 1;
    }
    at
}

/// Reads this text from the front, and answers the bytes behind it; else how many bytes are left
/// behind the front that it shares.
pub fn literal<'a>(text: &[u8], bytes: &'a [u8]) -> Result<&'a [u8], usize>
    ensures { Reads (Only text.now) bytes.now (λ x. tt) (λ x. x.now) result }
{
    let shared = shared(text, bytes);
    if shared < text.len() {
        return Err(bytes.len() - shared);
    }
    Ok(&bytes[shared..])
}
