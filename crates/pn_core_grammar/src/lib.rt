//! The net that the tree of a document spells, or the least of its faults of shape (ISO/IEC 15909-2,
//! the core model and its net types).
#![tactic(auto)]

mod labels;
mod net;
mod objects;
mod page;
mod read;
mod search;

pub use read::shape;
