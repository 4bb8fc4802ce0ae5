//! Flat nets, tokens, markings and modes (ISO/IEC 15909-1, high-level nets).
#![tactic(auto)]

mod flat;
pub mod laws;
mod mode;
mod tables;
mod token;
mod typed;

pub use flat::{Flat, FlatArc};
pub use mode::Mode;
pub use token::{Marking, Token};
pub use typed::Typed;
