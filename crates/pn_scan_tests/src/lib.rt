//! Tests of the scanner by what stands above it: breaks, trees, faults.
#![tactic(auto)]

#[cfg(test)]
mod tests;
