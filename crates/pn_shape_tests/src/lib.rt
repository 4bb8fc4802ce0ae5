//! Tests of the faults of shape by documents that have them: each fault at each element that can
//! have it, and which of two comes first.
#![tactic(auto)]

#[cfg(test)]
mod documents;
#[cfg(test)]
mod faultless;
#[cfg(test)]
mod faulty;
