//! Ids, and what each of them names.
//!
//! A contract sees an `Ids` as the list of its ids in the order in which they were noted, each with
//! what it names.
#![tactic(auto)]

mod has_id;
mod ids;
mod map;

pub use has_id::HasId;
pub use ids::Ids;
