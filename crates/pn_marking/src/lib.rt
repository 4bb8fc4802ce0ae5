//! Modes of transitions, what they take and put, and steps (ISO/IEC 15909-1, high-level nets).
#![tactic(auto)]

mod arcs;
mod firing;
mod flows;
pub mod laws;
mod modes;
mod sums;
mod terms;
mod tokens;
mod totals;

pub use arcs::arc_tokens;
pub use firing::{FireFault, fire};
pub use modes::{condition_holds, is_mode, is_true, post, pre};
pub use totals::total;
