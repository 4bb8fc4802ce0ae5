//! Terms of symmetric nets and of high-level nets, and their sorts (ISO/IEC 15909-2, terms).
#![tactic(auto)]

mod family;
pub mod laws;
mod nodes;
mod rules;
mod sound;
mod term_sort;
mod typing;
mod variable_list;

pub use pn_operators::{Kind, OP_TABLE, Op, OpRow, find_op, op_name, row_of};
pub use pn_syntax::{NumberSort, Term, TermNode};
pub use sound::sort_fault;
pub use term_sort::TermSort;
pub use typing::sort_of;
pub use variable_list::variables;

/// The greatest number of values of a sort of which `all` takes each once.
pub const MAX_ALL: u128 = 1048576;
