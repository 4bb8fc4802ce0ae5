//! Sort expressions, declarations and terms as a document writes them (ISO/IEC 15909-2,
//! declarations, sorts and terms). What they mean is told by the crates above.
#![tactic(auto)]

mod declaration;
mod sort_expr;
mod term;

pub use declaration::{ConstExpr, Constant, Declaration, PartElement, SortBody};
pub use sort_expr::{SortExpr, SortNode};
pub use term::{NumberSort, Term, TermNode};
