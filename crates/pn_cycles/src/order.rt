//! The order of a graph's nodes.

ghost use Rattle.std.specs.Prelude.{◌≡◌, ◌<◌, length, slice_index_or, false, IfOk};
ghost use Rattle.pn_cycles.specs.Graphs.{IsWhole};
ghost use Rattle.pn_cycles.specs.Orders.{ListsEachOnce, StandBehindTargets, StandBehindOffCycles, TellsCycles};

use crate::graph::Graph;
use crate::search::Search;
use std::alloc::{AllocError, Global};
use std::marker::Model;

/// What is told of the nodes of a graph.
#[derive(Debug, Drop)]
pub struct Order {
    on_cycle: Vec<bool>,
    nodes: Vec<usize>,
}

impl Model for Order {
    ghost use Rattle.pn_cycles.specs.Orders.{NodeOrder};

    ghost Value = { NodeOrder };

    ghost view = { λ order. record { on_cycle = order.on_cycle.items; nodes = order.nodes.items } };
}

impl Order {
    /// Whether a node is on a cycle.
    pub fn is_on_cycle(&self, node: usize) -> bool
        requires { node < length self.now.on_cycle }
        ensures { result ≡ slice_index_or self.now.on_cycle node false }
    {
        self.on_cycle[node]
    }

    /// The nodes in their order.
    pub fn nodes(&self) -> &[usize]
        ensures { result.now ≡ self.now.nodes }
    {
        &self.nodes
    }
}

/// Tells which nodes lie on a cycle, and an order in which each node stands behind the nodes that it
/// leads to, unless they lead back to it. Time and memory are linear in the nodes and edges.
pub fn order_of(alloc: Global, graph: &Graph) -> Result<Order, AllocError>
    requires { IsWhole graph.now }
    ensures sized { IfOk result (λ order. length order.on_cycle ≡ length graph.now) }
    ensures on_cycle { IfOk result (λ order. TellsCycles graph.now order.on_cycle) }
    ensures nodes { IfOk result (λ order. ListsEachOnce (length graph.now) order.nodes) }
    ensures order { IfOk result (λ order. StandBehindTargets graph.now order.nodes) }
    ensures off_cycles { IfOk result (λ order. StandBehindOffCycles graph.now order.nodes) }
{
    let mut search = Search::new(alloc, graph)?;
    for root in 0..graph.len() {
        search.explore(graph, root)?;
    }
    Ok(Order {
        on_cycle: search.cyclic,
        nodes: search.nodes,
    })
}
