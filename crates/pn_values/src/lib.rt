//! Sorts of coloured nets, their values, and the order of values (ISO/IEC 15909-2, sorts).
#![tactic(auto)]

mod constant_ref;
pub mod laws;
mod order;
mod sort;
mod value;

pub use constant_ref::ConstantRef;
pub use sort::{Size, Sort};
pub use value::Value;
