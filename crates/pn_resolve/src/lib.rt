//! The sorts that a document writes, resolved by its declarations, and what may be wrong with them.
#![tactic(auto)]

mod build;
mod cycles;
mod extent;
mod faults;
pub mod laws;
mod links;
mod named_sorts;
mod resolve;
mod table;
mod walk;

pub use cycles::sort_cycles;
pub use extent::Extent;
pub use faults::least_fault_of;
pub use resolve::ResolveFault;
pub use table::Table;

/// The greatest depth of a resolved sort.
pub const MAX_DEPTH: u32 = 32;
/// The greatest number of nodes of a resolved sort.
pub const MAX_NODES: u32 = 4096;
