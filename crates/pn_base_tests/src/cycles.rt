//! What no clause says: that calls succeed while there is memory, and graphs to look at.

ghost use Rattle.std.specs.Prelude.{◌≡◌, ◌≤◌, length};

use pn_cycles::{Graph, Order, laws, order_of};
use std::alloc::{AllocError, Global};
use std::process::Abort;
use std::test::Fail;

/// Begins a node that leads to these.
fn add_row(graph: &mut Graph, row: &str) -> Result<(), AllocError> {
    graph.node()?;
    for end in row.split_whitespace() {
        graph.edge(end.parse().unwrap_or(0))?;
    }
    Ok(())
}

/// Adds a node for each line, which leads to the nodes in it.
fn add_rows(graph: &mut Graph, rows: &str) -> Result<(), AllocError> {
    for row in rows.lines() {
        add_row(graph, row)?;
    }
    Ok(())
}

/// The graph of the nodes that each node leads to.
fn graph_of(alloc: Global, rows: &str) -> Result<Graph, AllocError> {
    let mut graph = Graph::new(alloc);
    add_rows(&mut graph, rows)?;
    Ok(graph)
}

/// Whether the nodes that are told to be on a cycle are those with an `o`.
fn shows(order: &Order, marks: &[u8]) -> bool
    requires { length order.now.on_cycle ≡ length marks.now }
{
    for node in 0..marks.len() {
        if order.is_on_cycle(node) != (marks[node] == b'o') {
            return false;
        }
    }
    order.nodes().len() == marks.len()
}

fn tells_of(rt: &impl Abort, alloc: Global, graph: &Graph, marks: &[u8]) -> Result<(), Fail> {
    assert!(rt; graph.is_whole());
    assert!(rt; graph.len() == marks.len());
    let order = order_of(alloc, graph)?;
    assert!(rt; shows(&order, marks));
    Ok(())
}

/// Whether of these nodes, each with those that it leads to, the ones with an `o` are on a cycle.
fn tells(rt: &impl Abort, alloc: Global, rows: &str, marks: &str) -> Result<(), Fail> {
    let graph = graph_of(alloc, rows)?;
    tells_of(rt, alloc, &graph, marks.as_bytes())
}

#[test]
fn small_graphs(rt: HostRuntime) -> Result<(), Fail> {
    let alloc = rt.alloc();
    tells(&rt, alloc, "", "")?;
    tells(&rt, alloc, "\n", ".")?;
    tells(&rt, alloc, "0\n", "o")?;
    // a diamond, and one cycle through all nodes
    tells(&rt, alloc, "1 2\n3\n3\n\n", "....")?;
    tells(&rt, alloc, "1\n2\n3\n0\n", "oooo")
}

#[test]
fn graphs_with_cycles(rt: HostRuntime) -> Result<(), Fail> {
    let alloc = rt.alloc();
    // two cycles, and a path from one to the other
    tells(&rt, alloc, "1\n0 2\n3\n4\n5\n4\n", "oo..oo")?;
    // two cycles through one node, with edges that come more than once
    tells(&rt, alloc, "4\n2 2\n1 3 3\n2\n1 1\n", ".ooo.")?;
    // an edge back to the middle of a path, and one to what is done
    tells(&rt, alloc, "1 4\n2\n3 1\n4\n\n", ".oo..")
}

fn is_ordered(rt: &impl Abort, alloc: Global, graph: &Graph) -> Result<(), Fail> {
    assert!(rt; graph.is_whole());
    assert!(rt; graph.len() == 4);
    assert!(rt; graph.targets(0) == [2].as_slice());
    let order = order_of(alloc, graph)?;
    assert!(rt; order.nodes() == [3, 2, 0, 1].as_slice());
    Ok(())
}

#[test]
fn orders(rt: HostRuntime) -> Result<(), Fail> {
    laws::leads_on();
    laws::leads_within();
    let graph = graph_of(rt.alloc(), "2\n0\n3\n\n")?;
    is_ordered(&rt, rt.alloc(), &graph)
}

fn becomes_whole(rt: &impl Abort, graph: &mut Graph) -> Result<(), Fail> {
    assert!(rt; !graph.is_whole());
    graph.node()?;
    assert!(rt; graph.is_whole());
    Ok(())
}

#[test]
fn ends_to_come(rt: HostRuntime) -> Result<(), Fail> {
    let mut graph = graph_of(rt.alloc(), "0 1\n")?;
    becomes_whole(&rt, &mut graph)
}

/// Adds so many nodes, each of which leads to the one behind it, and a last one.
fn add_chain(graph: &mut Graph, count: usize) -> Result<(), AllocError>
    requires { count ≤ 20000 }
{
    for node in 0..count {
        graph.node()?;
        graph.edge(node + 1)?;
    }
    graph.node()
}

fn is_chain(rt: &impl Abort, order: &Order)
    requires { length order.now.on_cycle ≡ length order.now.nodes }
{
    let nodes = order.nodes();
    assert!(rt; nodes.len() == 20001);
    for place in 0..nodes.len() {
        assert!(rt; nodes[place] == 20000 - place);
        assert!(rt; !order.is_on_cycle(place));
    }
}

fn is_ordered_chain(rt: &impl Abort, alloc: Global, graph: &Graph) -> Result<(), Fail> {
    assert!(rt; graph.is_whole());
    let order = order_of(alloc, graph)?;
    is_chain(rt, &order);
    Ok(())
}

#[test]
fn long_chain(rt: HostRuntime) -> Result<(), Fail> {
    let mut graph = Graph::new(rt.alloc());
    add_chain(&mut graph, 20000)?;
    is_ordered_chain(&rt, rt.alloc(), &graph)
}
