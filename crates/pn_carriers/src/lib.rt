//! The values of sorts: how many there are, which they are, and their order (ISO/IEC 15909-2).
//! Enumerations and partitions are places in a list of declarations, of which only the widths are
//! known here: how many constants or elements each declaration has.
#![tactic(auto)]

pub mod laws;
mod members;
mod ordinals;
mod sizes;
mod values;

pub use members::{has_value, is_text};
pub use ordinals::ordinal;
pub use sizes::{count_between, size};
pub use values::nth;
