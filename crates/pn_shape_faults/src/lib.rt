//! The walk over a document that finds the least of its faults of shape.
#![tactic(auto)]

mod attrs;
mod keep;
mod kids;
mod walk;

pub use kids::own_text;
pub use walk::{fill_fault, part_fault, shape_fault};
