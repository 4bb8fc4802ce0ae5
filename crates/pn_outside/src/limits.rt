//! The limits that several parts of the program share.

ghost use Rattle.std.specs.Prelude.{◌≡◌};

/// The greatest length of an input and of a written net, in bytes.
pub const BYTES: u64 = 67108864;

/// The greatest number of places of an unfolded net.
pub const PLACES: u128 = 1048576;

/// The limits as numbers. The function does nothing; its contract is the law.
pub fn limits_as_numbers()
    ensures bytes { BYTES ≡ 67108864 }
    ensures places { PLACES ≡ 1048576 }
{}
