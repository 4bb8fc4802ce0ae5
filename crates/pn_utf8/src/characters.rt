//! Characters in UTF-8, byte by byte.

ghost use Rattle.std.specs.Prelude.{◌≡◌, ◌⊎◌, ◌≤◌, ◌∷◌, [], true, length, take};
ghost use Rattle.std.specs.Option.{option_map};
ghost use Rattle.pn_utf8.specs.Characters.{is_further, begin_three, begin_four, is_last_pair, is_whole, character_behind, open_behind};
ghost use Rattle.pn_utf8.specs.Open.{open_bytes};

/// The bytes of a character that is not whole yet, if any.
#[derive(Clone, Copy)]
pub enum Open {
    Nothing,
    One(u8),
    Two(u8, u8),
    Three(u8, u8, u8),
}

/// A byte behind the first of a character.
fn is_further_byte(byte: u8) -> bool
    ensures { result ≡ is_further byte }
{
    0x80 <= byte && byte <= 0xBF
}

/// The first two bytes of a character of three bytes.
fn begins_three(a: u8, b: u8) -> bool
    ensures { result ≡ begin_three a b }
{
    match a {
        0xE0 => 0xA0 <= b && b <= 0xBF,
        0xED => 0x80 <= b && b <= 0x9F,
        _ => 0xE1 <= a && a <= 0xEF && is_further_byte(b),
    }
}

/// The first two bytes of a character of four bytes.
fn begins_four(a: u8, b: u8) -> bool
    ensures { result ≡ begin_four a b }
{
    match a {
        0xF0 => 0x90 <= b && b <= 0xBF,
        0xF4 => 0x80 <= b && b <= 0x8F,
        _ => 0xF1 <= a && a <= 0xF3 && is_further_byte(b),
    }
}

/// U+FFFE and U+FFFF are no characters of a document.
fn is_forbidden(a: u8, b: u8, c: u8) -> bool
    ensures { result ≡ is_last_pair a b c }
{
    a == 0xEF && b == 0xBF && c > 0xBD
}

/// A character of one byte.
fn is_one(a: u8) -> bool
    ensures { result ≡ is_whole (a ∷ []) }
{
    match a {
        9 | 10 | 13 => true,
        _ => 0x20 <= a && a <= 0x7F,
    }
}

/// A character of two bytes.
fn is_two(a: u8, b: u8) -> bool
    ensures { result ≡ is_whole (a ∷ b ∷ []) }
{
    0xC2 <= a && a <= 0xDF && is_further_byte(b)
}

/// A character of three bytes.
fn is_three(a: u8, b: u8, c: u8) -> bool
    ensures { result ≡ is_whole (a ∷ b ∷ c ∷ []) }
{
    begins_three(a, b) && !is_forbidden(a, b, c) && is_further_byte(c)
}

/// A character of four bytes.
fn is_four(a: u8, b: u8, c: u8, d: u8) -> bool
    ensures { result ≡ is_whole (a ∷ b ∷ c ∷ d ∷ []) }
{
    begins_four(a, b) && is_further_byte(c) && is_further_byte(d)
}

fn first(a: u8) -> Option<Open>
    ensures { option_map open_bytes result ≡ character_behind (a ∷ []) }
{
    match a {
        9 | 10 | 13 => Some(Open::Nothing),
        0x20..=0x7F => Some(Open::Nothing),
        0xC2..=0xF4 => Some(Open::One(a)),
        _ => None,
    }
}

fn second(a: u8, b: u8) -> Option<Open>
    ensures { option_map open_bytes result ≡ character_behind (a ∷ b ∷ []) }
{
    if is_two(a, b) {
        return Some(Open::Nothing);
    }
    if begins_three(a, b) || begins_four(a, b) {
        return Some(Open::Two(a, b));
    }
    None
}

fn third(a: u8, b: u8, c: u8) -> Option<Open>
    ensures { option_map open_bytes result ≡ character_behind (a ∷ b ∷ c ∷ []) }
{
    if is_three(a, b, c) {
        return Some(Open::Nothing);
    }
    if begins_four(a, b) && is_further_byte(c) {
        return Some(Open::Three(a, b, c));
    }
    None
}

fn fourth(a: u8, b: u8, c: u8, d: u8) -> Option<Open>
    ensures { option_map open_bytes result ≡ character_behind (a ∷ b ∷ c ∷ d ∷ []) }
{
    if is_four(a, b, c, d) {
        return Some(Open::Nothing);
    }
    None
}

impl Open {
    /// What is open behind one more byte, or `None` where no document goes on so.
    pub fn next(self, byte: u8) -> Option<Open>
        ensures { option_map open_bytes result ≡ open_behind (open_bytes self) byte }
    {
        match self {
            Open::Nothing => first(byte),
            Open::One(a) => second(a, byte),
            Open::Two(a, b) => third(a, b, byte),
            Open::Three(a, b, c) => fourth(a, b, c, byte),
        }
    }
}

/// How many bytes the character at the front of a piece has; none where none stands there whole.
pub fn character_front(piece: &[u8]) -> usize
    ensures whole { (result ≡ 0) ⊎ (is_whole (take result piece.now) ≡ true) }
    ensures within { result ≤ length piece.now }
{
    match piece {
        [a, ..] if is_one(*a) => 1,
        [a, b, ..] if is_two(*a, *b) => 2,
        [a, b, c, ..] if is_three(*a, *b, *c) => 3,
        [a, b, c, d, ..] if is_four(*a, *b, *c, *d) => 4,
        _ => 0,
    }
}
