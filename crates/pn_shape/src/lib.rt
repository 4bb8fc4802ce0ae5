//! The shape of a document: the one table of its elements, what each has, and which faults of shape
//! there are (ISO/IEC 15909-2, in this project's profile).
#![tactic(auto)]

mod rows;
mod rule;
mod search;
mod table;
mod tag;
mod values;

pub use rule::{AttrName, AttrRule, Content, Fill, Form, Kinds, Over, Rule, Slot};
pub use search::{
    Spot, attr_word, fill_word, find_spot, find_tag, is_open, spot_among, tag_of_sort, tag_of_term,
};
pub use table::rule_of;
pub use tag::Tag;
pub use values::{
    address_of, count_in, is_blank, may_be_id, namespace, net_kind, number_in, truth_in,
};
