//! Values, tokens and modes as texts (ISO/IEC 15909-1, high-level nets).
#![tactic(auto)]

mod escapes;
mod givens;
mod ids;
mod inhabited;
mod modes;
mod quoted;
mod read_leaves;
mod read_modes;
mod read_values;
mod reading;
mod transitions;
mod values;
mod words;

pub use modes::{put_mode, put_token};
pub use values::put_value;
pub use words::{Counted, ModeTextFault, read_mode};
