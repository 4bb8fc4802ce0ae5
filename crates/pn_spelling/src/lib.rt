//! What the elements of a document spell, and the elements that spell it: definitions and their
//! laws, with calls that find the parts of an element.
#![tactic(auto)]

mod parts;

pub use parts::{attribute, copy_attribute, copy_optional_attribute, first_element, has_name};
