//! The values of terms (ISO/IEC 15909-2, terms).
#![tactic(auto)]

mod every;
pub mod laws;
mod leaves;
mod rounds;
mod walk;

pub use pn_operations::outcome::Outcome;
pub use walk::eval;
