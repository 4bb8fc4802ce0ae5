//! Markup in pieces: bytes become one element tree, or the offset at which no document can go on.
#![tactic(auto)]

mod advance;
mod attribute;
mod bytes;
mod context;
mod declaration;
pub mod laws;
mod misc;
mod names;
mod open_tree;
mod ordinary;
mod reference;
mod run;
mod scanner;
mod tag;

pub use scanner::{ScanFault, Scanner};
