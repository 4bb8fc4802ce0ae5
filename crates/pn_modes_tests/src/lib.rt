//! Tests of the modes of transitions, as lists and one at a time, by what their crate makes public.
#![tactic(auto)]

#[cfg(test)]
mod listing;
#[cfg(test)]
mod searching;
