//! The answers other than `Ok`.

use std::alloc::AllocError;
use thiserror::Error;

/// Why a bag did not grow.
#[derive(Debug, Drop, Error)]
pub enum BagFault {
    #[error("a count is too large")]
    TooLarge,
    #[error(transparent)]
    Memory(#[from(alloc)] AllocError),
}

/// The first key of a bag, in order, of which another bag has fewer.
#[derive(Clone, Copy, Debug, PartialEq, Eq)]
pub struct Short {
    /// The place of the key among those of the bag that needs it.
    pub position: usize,
    /// The count that is needed.
    pub need: u64,
    /// The count that is there.
    pub has: u64,
}
