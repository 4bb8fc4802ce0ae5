//! What a document is: XML 1.0 markup in this project's profile, as definitions for contracts.
#![tactic(auto)]

pub mod laws;
