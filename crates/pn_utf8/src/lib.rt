//! The characters that a document may have, in UTF-8, byte by byte.
#![tactic(auto)]

mod characters;

pub use characters::{Open, character_front};
