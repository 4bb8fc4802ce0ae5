//! The tests of faults, sorts and values, by what those crates make public.
#![tactic(auto)]

#[cfg(test)]
mod faults;
#[cfg(test)]
mod values;
