//! The kinds of nets, the operators of terms, and the one table of their names and of the numbers
//! of their arguments (ISO/IEC 15909-2, terms of symmetric nets and of high-level nets).
#![tactic(auto)]

mod kind;
pub mod laws;
mod op;
mod row;
mod rows;
mod search;
mod table;

pub use kind::Kind;
pub use op::Op;
pub use row::OpRow;
pub use table::{OP_TABLE, find_op, op_name, row_of};
