//! The verdict on a document: the flat net of the net that it spells, with its initial marking, or
//! the least of its faults (ISO/IEC 15909-2).
#![tactic(auto)]

mod checked;
mod judging;
mod labels;
pub mod laws;
mod links;
mod net_sorts;
mod sorts;
mod tokens;
mod told;
mod typing;

pub use checked::Checked;
pub use judging::verdict;
pub use links::linked;
