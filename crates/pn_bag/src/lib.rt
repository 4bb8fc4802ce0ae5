//! Finite multisets over any lawfully ordered key, with exact contracts and their laws.
//!
//! A contract sees a `Bag` as its entries in order, each a key and its count. The definition
//! `count_of` of specs/ gives the count of a key in such entries, and the clauses speak of it.
#![tactic(auto)]

mod copies;
mod edits;
mod faults;
mod items;
pub mod laws;
mod merges;
mod multiset;
mod places;
mod reads;
mod scales;
mod takes;

pub use faults::{BagFault, Short};
pub use items::BagIter;
pub use multiset::Bag;

/// The greatest count that a key of a bag may have: 2^63 - 1.
pub const MAX_COUNT: u64 = 9223372036854775807;
