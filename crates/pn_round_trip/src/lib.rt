//! Laws of what the elements of a document spell and of the elements that are written for it: what
//! is written has no fault of shape, and reads back as the same.
#![tactic(auto)]

pub mod laws;
