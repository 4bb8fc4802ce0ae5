//! Tests of the lines of faults and nets, by what their crate makes public.
#![tactic(auto)]

#[cfg(test)]
mod escapes;
#[cfg(test)]
mod faults;
pub mod rows;
