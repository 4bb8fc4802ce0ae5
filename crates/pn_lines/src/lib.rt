//! Texts and numbers as they stand in the lines that the program writes and in the words that it reads.
#![tactic(auto)]

mod escape;
pub mod laws;
mod number;

pub use escape::{hex_digit, is_plain, put_escaped};
pub use number::put_count;
