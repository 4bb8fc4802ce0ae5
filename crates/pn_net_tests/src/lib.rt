//! Tests of flat nets, tokens, markings and modes, by what their crate makes public.
#![tactic(auto)]

#[cfg(test)]
mod markings;
#[cfg(test)]
mod orders;
pub mod rows;
