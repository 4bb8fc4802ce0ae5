//! The tests of operators and terms, by what those crates make public.
#![tactic(auto)]

#[cfg(test)]
mod declared;
#[cfg(test)]
mod operators;
#[cfg(test)]
mod refused;
#[cfg(test)]
mod rows;
#[cfg(test)]
mod sorted;
