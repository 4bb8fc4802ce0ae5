//! Facts about truth values, options, lists and bytes that several crates cite. Nothing here runs.
#![tactic(auto)]
