//! Modes by the words that name them (ISO/IEC 15909-1, high-level nets): which modes of the
//! transition with an id are enabled at the initial marking, and their lines.
#![tactic(auto)]

pub mod laws;
mod lines;
mod listing;

pub use lines::put_mode_lines;
pub use listing::{ListFault, list_enabled};
