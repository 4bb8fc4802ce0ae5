//! Which nodes of a finite directed graph lie on a cycle, and an order in which each node stands
//! behind the nodes that it leads to, unless they lead back to it.
//!
//! A contract sees a `Graph` as the list of the nodes that each node leads to directly, node by
//! node. The relation `Leads` of specs/ says that one or more edges lead from one node to another.
#![tactic(auto)]

mod graph;
pub mod laws;
mod order;
mod search;

pub use graph::Graph;
pub use order::{Order, order_of};
