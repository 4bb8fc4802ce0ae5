//! Tests of the public interfaces of sorts, their values and their declarations.
#![tactic(auto)]

#[cfg(test)]
mod carriers;
#[cfg(test)]
mod copies;
#[cfg(test)]
mod declarations;
#[cfg(test)]
mod names;
#[cfg(test)]
mod partitions;
#[cfg(test)]
mod resolving;
