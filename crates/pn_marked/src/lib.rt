//! Values as terms, and nets with another marking as their initial one (ISO/IEC 15909-2, terms and
//! initial markings).
#![tactic(auto)]

pub mod laws;
mod marked;
mod sorts;
mod terms;

pub use marked::with_marking;
pub use terms::value_term;
