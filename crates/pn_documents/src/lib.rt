//! That what is written of a net is a document of the same net: laws alone, and no code that runs.
#![tactic(auto)]

pub mod laws;
