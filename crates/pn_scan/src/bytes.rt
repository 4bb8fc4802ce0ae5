//! Kinds of bytes.

ghost use Rattle.std.specs.Prelude.{◌≡◌, ◌∷◌, [], OnOk};
ghost use Rattle.pn_text.specs.Characters.{is_name_start, is_name_part};
ghost use Rattle.pn_markup.specs.Bytes.{is_space, is_quote};

use std::alloc::AllocError;

/// White space (XML 1.0, 2.3).
pub(crate) fn is_space_byte(byte: u8) -> bool
    ensures { result ≡ is_space byte }
{
    byte == b' ' || byte == b'\t' || byte == b'\n' || byte == b'\r'
}

/// A quote of either kind.
pub(crate) fn is_quote_byte(byte: u8) -> bool
    ensures { result ≡ is_quote byte }
{
    byte == b'"' || byte == b'\''
}

/// A byte with which a name begins (XML 1.0, 2.3, with this project's wider names).
pub(crate) fn begins_name(byte: u8) -> bool
    ensures { result ≡ is_name_start byte }
{
    byte.is_ascii_alphabetic() || byte == b'_' || byte == b':' || byte > 127
}

/// A byte with which a name goes on.
pub(crate) fn continues_name(byte: u8) -> bool
    ensures { result ≡ is_name_part byte }
{
    begins_name(byte) || byte.is_ascii_digit() || byte == b'-' || byte == b'.'
}

/// A name begins with this byte.
pub(crate) fn begin_name(name: &mut Vec<u8>, byte: u8) -> Result<(), AllocError>
    ensures { OnOk result (name.new.items ≡ byte ∷ []) }
{
    name.clear();
    name.push(byte)?;
    Ok(())
}
