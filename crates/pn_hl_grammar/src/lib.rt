//! Sorts, terms and declarations from the elements that spell them (ISO/IEC 15909-2, sorts, terms
//! and declarations).
#![tactic(auto)]

mod declarations;
mod parts;
mod read;
mod sorts;
mod terms;

pub use declarations::make_declarations;
pub use read::{read_declarations, read_sort, read_term};
pub use sorts::make_sort;
pub use terms::make_term;
