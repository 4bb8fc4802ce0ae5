//! The element trees of nets, and of the sorts and terms in them, as canonical text has them
//! (ISO/IEC 15909-2).
#![tactic(auto)]

mod declarations;
mod giving;
mod labels;
mod nets;
mod objects;
mod sorts;
mod terms;

pub use nets::tree_of;
pub use sorts::sort_tree;
pub use terms::term_tree;
