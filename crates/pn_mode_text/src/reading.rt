//! Why a word of a language was not read.

use std::alloc::AllocError;

/// There is no memory; or the bytes begin with no word, and so many are left behind the longest front
/// of them that begins one.
#[derive(Drop)]
pub(crate) enum ReadFault {
    Memory(AllocError),
    Broken(usize),
}
