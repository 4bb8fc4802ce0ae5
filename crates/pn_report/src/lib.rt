//! The lines in which the program tells of a net and of a fault.
#![tactic(auto)]

mod fault;
mod summary;

pub use fault::put_fault;
pub use summary::put_summary;
