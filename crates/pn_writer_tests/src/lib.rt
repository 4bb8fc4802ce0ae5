//! Tests of the element trees of nets, by what the crate that makes them makes public.
#![tactic(auto)]

#[cfg(test)]
mod coloured;
#[cfg(test)]
mod nets;
#[cfg(test)]
mod parts;
#[cfg(test)]
mod sample;
