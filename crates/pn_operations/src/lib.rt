//! What the operators of terms on numbers, multisets, texts and lists give, on plain values
//! (ISO/IEC 15909-2). Where an operator has no value the answer is `None`.
#![tactic(auto)]

mod arguments;
pub mod laws;
pub mod lists;
pub mod multisets;
pub mod numbers;
pub mod outcome;
mod readings;
pub mod rows;
mod single;
pub mod texts;
