//! The graph: for each node the nodes that it leads to directly.

ghost use Rattle.std.specs.Prelude.{◌≡◌, ℕ, ◌+◌, ◌<◌, ◌≤◌, ◌++◌, ◌∷◌, [], List, length, slice_index, slice_index_or, IsTrue, ◌↔◌, OnOk, OnErr};
ghost use Rattle.std.specs.List.{All};
ghost use Rattle.pn_cycles.specs.Graphs.{IsWhole};
ghost use Rattle.pn_cycles.specs.Rows.{rows_of, AreStarts};

use std::alloc::{AllocError, Global};
use std::marker::Model;

/// A directed graph whose nodes are numbered from 0. Contracts see it as the list of the nodes that
/// each node leads to directly, node by node.
#[derive(Debug, Drop)]
pub struct Graph {
    /// Where the ends of each node's edges begin.
    starts: Vec<usize>,
    /// The ends of all edges, node by node.
    ends: Vec<usize>,
}

impl Model for Graph {
    ghost use Rattle.std.specs.Prelude.{ℕ, List};
    ghost use Rattle.pn_cycles.specs.Rows.{rows_of, AreStarts};

    ghost Value = { List (List ℕ) };

    ghost view = { λ graph. rows_of graph.starts.items graph.ends.items };

    ghost invariant = { λ graph. AreStarts graph.starts.items graph.ends.items };
}

impl Graph {
    /// The graph with no node. It takes no memory.
    pub fn new(alloc: Global) -> Graph
        ensures { result ≡ [] }
    {
        Graph {
            starts: Vec::new(alloc),
            ends: Vec::new(alloc),
        }
    }

    /// The number of nodes.
    pub fn len(&self) -> usize
        ensures { result ≡ length self.now }
    {
        self.starts.len()
    }

    /// Whether each edge leads to a node of the graph. It takes no memory.
    pub fn is_whole(&self) -> bool
        ensures { IsTrue result ↔ IsWhole self.now }
    {
        let count = self.len();
        for node in 0..count {
            if !are_below(self.targets(node), count) {
                return false;
            }
        }
        true
    }

    /// Begins the next node, which leads nowhere yet.
    pub fn node(&mut self) -> Result<(), AllocError>
        ensures ok { OnOk result (self.new ≡ self.old ++ [] ∷ []) }
        ensures err { OnErr result (self.new ≡ self.old) }
    {
        self.starts.push(self.ends.len())?;
        Ok(())
    }

    /// Lets the last node lead to one more node, which may be begun later.
    pub fn edge(&mut self, end: usize) -> Result<(), AllocError>
        requires { 0 < length self.old }
        ensures ok { OnOk result ((nodes : List (List ℕ)) (last : List ℕ)
            → self.old ≡ nodes ++ last ∷ [] → self.new ≡ nodes ++ (last ++ end ∷ []) ∷ []) }
        ensures size { length self.new ≡ length self.old }
        ensures err { OnErr result (self.new ≡ self.old) }
    {
        self.ends.push(end)?;
        Ok(())
    }

    /// The nodes that a node leads to directly.
    pub fn targets(&self, node: usize) -> &[usize]
        requires { node < length self.now }
        ensures { result.now ≡ slice_index_or self.now node [] }
    {
        targets_of(&self.starts, &self.ends, node)
    }
}

/// The ends of a node's edges.
fn targets_of<'a>(starts: &[usize], ends: &'a [usize], node: usize) -> &'a [usize]
    requires starts { AreStarts starts.now ends.now }
    requires node { node < length starts.now }
    ensures { result.now ≡ slice_index_or (rows_of starts.now ends.now) node [] }
{
    let start = starts[node];
    let end = next_start(starts, ends, node);
    &ends[start..end]
}

/// Where the node behind one begins, or the end of the list where there is none.
fn next_start(starts: &[usize], ends: &[usize], node: usize) -> usize
    requires starts { AreStarts starts.now ends.now }
    requires node { node < length starts.now }
    ensures next { result ≡ slice_index_or starts.now (node + 1) (length ends.now) }
    ensures behind { slice_index starts.now node ≤ result }
    ensures within { result ≤ length ends.now }
{
    if node + 1 < starts.len() {
        starts[node + 1]
    } else {
        ends.len()
    }
}

/// Whether all numbers are below a bound.
fn are_below(numbers: &[usize], bound: usize) -> bool
    ensures { IsTrue result ↔ All (λ number. number < bound) numbers.now }
{
    numbers.iter().all(|number| *number < bound)
}
