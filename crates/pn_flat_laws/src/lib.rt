//! That flat nets which are equal but for offsets mean the same (ISO/IEC 15909-1, high-level nets):
//! laws alone, and no code that runs.
#![tactic(auto)]

pub mod laws;
