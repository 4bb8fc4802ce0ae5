//! Sorts of coloured nets, their values, and the declarations of a document (ISO/IEC 15909-2,
//! declarations and sorts).
#![tactic(auto)]

mod decls;
mod kept;
pub mod laws;
mod lookups;
mod settle;

pub use decls::Decls;
pub use pn_faults::{Fault, Reason, Refusal};
pub use pn_names::{are_distinct, are_numbered};
pub use pn_resolve::{MAX_DEPTH, MAX_NODES};
pub use pn_syntax::{ConstExpr, Constant, Declaration, PartElement, SortBody, SortExpr, SortNode};
pub use pn_values::{ConstantRef, Size, Sort, Value};
