//! What terms give.

use pn_bag::Bag;
use pn_values::Value;

/// What a term gives: a value, a multiset of values, or nothing.
#[derive(Debug, Drop)]
pub enum Outcome {
    Value(Value),
    Bag(Bag<Value>),
    NoValue,
}
