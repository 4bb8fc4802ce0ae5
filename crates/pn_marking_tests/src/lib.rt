//! Tests of modes and steps of nets, by what their crate makes public.
#![tactic(auto)]

#[cfg(test)]
mod firing;
#[cfg(test)]
mod modes;
