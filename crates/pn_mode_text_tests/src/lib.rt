//! Tests of the texts of values, tokens and modes, by what their crate makes public.
#![tactic(auto)]

pub mod rows;
#[cfg(test)]
mod texts;
#[cfg(test)]
mod words;
