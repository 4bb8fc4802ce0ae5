//! What the ids of a document's declarations name.
#![tactic(auto)]

mod items;
pub mod laws;
mod names;

pub use items::{
    are_numbered, constant_count, constant_id, declaration_id, variable_id, variable_places, widths,
};
pub use names::{Index, are_distinct};
use pn_values::ConstantRef;

/// What an id of the declarations names. The numbers of a `namedsort` and a `partition` are places
/// in the list of declarations; variables are numbered among themselves.
#[derive(Clone, Copy, Debug, PartialEq, Eq)]
pub enum Declared {
    Named(u32),
    Partition(u32),
    Variable(u32),
    Constant(ConstantRef),
}
