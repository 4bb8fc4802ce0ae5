//! Tests of the base crates by their public interfaces: sources and sinks, multisets, graphs, trees.
#![tactic(auto)]

#[cfg(test)]
mod bags;
#[cfg(test)]
mod cycles;
#[cfg(test)]
mod outside;
#[cfg(test)]
mod trees;
