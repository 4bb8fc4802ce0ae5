//! Which values the elements of partitions list, and whether they split their base sorts.
#![tactic(auto)]

mod table;

pub use table::part_table;
