//! What texts in a document may be: numbers, truth values, ids, types of nets.

ghost use Rattle.std.specs.Prelude.{◌≡◌, ◌≤◌, length, true};
ghost use Rattle.std.specs.List.{list_all, prefix_len};
ghost use Rattle.std.specs.Char.{is_ascii_digit};
ghost use Rattle.pn_markup.specs.Bytes.{is_space};
ghost use Rattle.pn_shape.specs.Numbers.{numeral_in, signed_in, number_in, count_in, truth_in, is_blank, may_be_id, net_kind, address_of, kind_at, namespace, digits_up_to, behind_space};

use pn_operators::Kind;

/// White space: space, tab, LF, CR.
fn is_space_byte(byte: u8) -> bool
    ensures { result ≡ is_space byte }
{
    byte == b' ' || byte == b'\t' || byte == b'\n' || byte == b'\r'
}

/// Whether these bytes are white space alone.
fn are_blank(bytes: &[u8]) -> bool
    ensures { result ≡ is_blank bytes.now }
{
    for byte in bytes {
        if !is_space_byte(*byte) {
            return false;
        }
    }
    true
}

/// Whether a text is white space alone. Takes no memory.
pub fn is_blank(text: &str) -> bool
    ensures { result ≡ is_blank text.now }
{
    are_blank(text.as_bytes())
}

/// Whether a text is not empty and has no white space. Takes no memory.
pub fn may_be_id(text: &str) -> bool
    ensures { result ≡ may_be_id text.now }
{
    let bytes = text.as_bytes();
    for byte in bytes {
        if is_space_byte(*byte) {
            return false;
        }
    }
    !bytes.is_empty()
}

/// How many bytes at the front are white space.
fn spaces(bytes: &[u8]) -> usize
    ensures value { result ≡ prefix_len is_space bytes.now }
    ensures within { result ≤ length bytes.now }
{
    bytes
        .iter()
        .take_while(|byte| is_space_byte(**byte))
        .count()
}

/// How many bytes at the front are digits.
fn digits_in_front(bytes: &[u8]) -> usize
    ensures value { result ≡ prefix_len is_ascii_digit bytes.now }
    ensures within { result ≤ length bytes.now }
{
    bytes
        .iter()
        .take_while(|byte| byte.is_ascii_digit())
        .count()
}

/// The bytes behind the white space at the front.
fn behind_space(bytes: &[u8]) -> &[u8]
    ensures { result.now ≡ behind_space bytes.now }
{
    &bytes[spaces(bytes)..]
}

/// The number that these digits write, where it is not above `most`.
fn digits(bytes: &[u8], most: u64) -> Option<u64>
    requires { list_all is_ascii_digit bytes.now ≡ true }
    ensures { result ≡ digits_up_to most bytes.now }
{
    let mut value: u128 = 0;
    for byte in bytes {
        value = value * 10 + u128::from(*byte - b'0');
        if value > u128::from(most) {
            return None;
        }
    }
    Some(value as u64)
}

/// The number that the digits at the front write, where there is a digit, white space alone behind
/// them, and the number is not above `most`.
fn numeral(bytes: &[u8], most: u64) -> Option<u64>
    ensures { result ≡ numeral_in most bytes.now }
{
    let many = digits_in_front(bytes);
    if many == 0 {
        return None;
    }
    if !are_blank(&bytes[many..]) {
        return None;
    }
    digits(&bytes[..many], most)
}

/// The number of tokens in a text: ASCII digits with white space around. Takes no memory.
pub fn count_in(text: &str) -> Option<u64>
    ensures { result ≡ count_in text.now }
{
    numeral(behind_space(text.as_bytes()), i64::MAX as u64)
}

/// The whole number that a text begins with: digits with white space behind them, perhaps behind a
/// minus.
fn signed(bytes: &[u8]) -> Option<i64>
    ensures { result ≡ signed_in bytes.now }
{
    let (first, rest) = bytes.split_first()?;
    if *first == b'-' {
        match numeral(rest, 1 << 63) {
            Some(number) => Some((-i128::from(number)) as i64),
            None => None,
        }
    } else {
        match numeral(bytes, i64::MAX as u64) {
            Some(number) => Some(number as i64),
            None => None,
        }
    }
}

/// The whole number in a text: ASCII digits, perhaps behind a minus, with white space around. Takes
/// no memory.
pub fn number_in(text: &str) -> Option<i64>
    ensures { result ≡ number_in text.now }
{
    signed(behind_space(text.as_bytes()))
}

/// The truth value in a text. Takes no memory.
pub fn truth_in(text: &str) -> Option<bool>
    ensures { result ≡ truth_in text.now }
{
    match text {
        "true" => Some(true),
        "false" => Some(false),
        _ => None,
    }
}

/// The type of the nets of a kind. Takes no memory.
pub fn address_of(kind: Kind) -> &'static str
    ensures { result.now ≡ address_of kind }
{
    match kind {
        Kind::PtNet => "http://www.pnml.org/version-2009/grammar/ptnet",
        Kind::Symmetric => "http://www.pnml.org/version-2009/grammar/symmetricnet",
        Kind::HighLevel => "http://www.pnml.org/version-2009/grammar/highlevelnet",
    }
}

/// The kind, where this is the type of its nets.
fn kind_of(kind: Kind, text: &str) -> Option<Kind>
    ensures { result ≡ kind_at kind text.now }
{
    if text == address_of(kind) {
        Some(kind)
    } else {
        None
    }
}

/// The kind of the nets of a type. Takes no memory.
pub fn net_kind(text: &str) -> Option<Kind>
    ensures { result ≡ net_kind text.now }
{
    if let Some(kind) = kind_of(Kind::PtNet, text) {
        return Some(kind);
    }
    if let Some(kind) = kind_of(Kind::Symmetric, text) {
        return Some(kind);
    }
    kind_of(Kind::HighLevel, text)
}

/// The namespace of PNML. Takes no memory.
pub fn namespace() -> &'static str
    ensures { result.now ≡ namespace }
{
    "http://www.pnml.org/version-2009/grammar/pnml"
}
