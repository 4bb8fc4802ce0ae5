//! What may be wrong with a document: its faults, and which of them comes first.
#![tactic(auto)]

mod fault;
pub mod laws;
mod least;
mod reason;

pub use fault::{Fault, Refusal};
pub use least::{keep_least, keep_least_at, keep_least_of};
pub use reason::Reason;
