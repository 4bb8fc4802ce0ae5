//! The search: one walk along all edges, with stacks in place of recursion.

ghost use Rattle.std.specs.Prelude.{◌≡◌, ℕ, ◌+◌, ◌-◌, ◌<◌, ◌≤◌, ◌++◌, ◌∷◌, [], List, length, slice_index, Some, None, OnOk, IfOk, vec_len};
ghost use Rattle.pn_cycles.specs.Graphs.{IsWhole};
ghost use Rattle.pn_cycles.specs.Searches.{mark_of, group_at, LeadTo, IsFinish};
ghost use Rattle.pn_cycles.specs.States.{IsSearch, IsSomeSearch, KeepsVisits, rest_of};

use crate::graph::Graph;
use std::alloc::{AllocError, Global};

/// How far the search has come with a node.
#[derive(Clone, Copy)]
pub(crate) enum Mark {
    New,
    /// Its place on the stack.
    Open(usize),
    /// Its place in the order.
    Done(usize),
}

/// Nodes side by side on the stack, each of which leads to each, or a single one.
#[derive(Clone, Copy)]
pub(crate) struct Group {
    /// The place of its first node on the stack.
    start: usize,
    /// The place of its first edge among those to be looked at.
    edges: usize,
    /// Whether its nodes lead to themselves.
    cyclic: bool,
}

/// What the search knows.
#[derive(Drop)]
pub(crate) struct Search {
    marks: Vec<Mark>,
    /// The open nodes.
    stack: Vec<usize>,
    /// The nodes at the ends of edges that are still to be looked at.
    pending: Vec<usize>,
    /// The groups of open nodes, each of which leads to the next.
    path: Vec<Group>,
    /// The nodes that are done, in their order.
    pub(crate) nodes: Vec<usize>,
    /// Whether each node is on a cycle, once it is done.
    pub(crate) cyclic: Vec<bool>,
}

impl Search {
    /// The search before its first step.
    pub(crate) fn new(alloc: Global, graph: &Graph) -> Result<Search, AllocError>
        ensures search { IfOk result (IsSearch graph.now None) }
        ensures empty { IfOk result (λ search. vec_len search.path ≡ 0) }
    {
        let count = graph.len();
        Ok(Search {
            marks: vec![in alloc; Mark::New; count]?,
            stack: Vec::new(alloc),
            pending: Vec::new(alloc),
            path: Vec::new(alloc),
            nodes: Vec::new(alloc),
            cyclic: vec![in alloc; false; count]?,
        })
    }

    /// Goes on until the root and each node that it leads to are done.
    pub(crate) fn explore(&mut self, graph: &Graph, root: usize) -> Result<(), AllocError>
        requires whole { IsWhole graph.now }
        requires root { root < length graph.now }
        requires search { IsSearch graph.now None self.old }
        requires empty { vec_len self.old.path ≡ 0 }
        ensures search { OnOk result (IsSearch graph.now None self.new) }
        ensures empty { OnOk result (vec_len self.new.path ≡ 0) }
        ensures visits { OnOk result (KeepsVisits self.old self.new) }
        ensures root { OnOk result (mark_of self.new.marks.items root ≡ Mark.New → ⊥) }
    {
        let Mark::New = self.marks[root] else {
            return Ok(());
        };
        self.open(graph, root)?;
        while !self.path.is_empty() {
            self.step(graph)?;
        }
        Ok(())
    }

    /// Looks at the next edge of the last group, or closes the group where none is left.
    fn step(&mut self, graph: &Graph) -> Result<(), AllocError>
        requires whole { IsWhole graph.now }
        requires search { IsSearch graph.now None self.old }
        requires some { 0 < vec_len self.old.path }
        ensures search { OnOk result (IsSearch graph.now None self.new) }
        ensures rest { OnOk result (rest_of graph.now self.new < rest_of graph.now self.old) }
        ensures visits { OnOk result (KeepsVisits self.old self.new) }
    {
        let group = self.path[self.path.len() - 1];
        if self.pending.len() == group.edges {
            return self.close();
        }
        let node = take_last(&mut self.pending);
        match self.marks[node] {
            Mark::New => self.open(graph, node),
            Mark::Open(place) => {
                self.join(place);
                Ok(())
            }
            Mark::Done(_) => Ok(()),
        }
    }

    /// Puts a new node onto the stack, as a group of its own, with its edges to be looked at.
    fn open(&mut self, graph: &Graph, node: usize) -> Result<(), AllocError>
        requires node { node < length graph.now }
        requires search { IsSearch graph.now (Some node) self.old }
        requires fresh { mark_of self.old.marks.items node ≡ Mark.New }
        requires lead { LeadTo graph.now self.old.stack.items node }
        ensures search { OnOk result (IsSearch graph.now None self.new) }
        ensures rest { OnOk result (rest_of graph.now self.new + 1 ≡ rest_of graph.now self.old) }
        ensures visits { OnOk result (KeepsVisits self.old self.new) }
        ensures node { OnOk result (mark_of self.new.marks.items node ≡ Mark.New → ⊥) }
    {
        let place = self.stack.len();
        self.marks[node] = Mark::Open(place);
        self.path.push(Group {
            start: place,
            edges: self.pending.len(),
            cyclic: false,
        })?;
        self.stack.push(node)?;
        self.pending.extend_from_slice(graph.targets(node))?;
        Ok(())
    }

    /// Makes one group of those from an open node on, to which all open nodes lead.
    fn join(&mut self, place: usize)
        requires search { IsSomeSearch self.old }
        requires place { place < vec_len self.old.stack }
        ensures search { let node = slice_index self.old.stack.items place in
            (edges : List (List ℕ)) → IsSearch edges (Some node) self.old → LeadTo edges self.old.stack.items node
            → IsSearch edges None self.new }
        ensures pending { self.new.pending ≡ self.old.pending }
        ensures path { vec_len self.new.path ≤ vec_len self.old.path }
        ensures marks { self.new.marks ≡ self.old.marks }
    {
        let at = group_of(&self.path, place);
        self.path.truncate(at + 1);
        self.path[at].cyclic = true;
    }

    /// Takes the last group, whose edges are all looked at, off the stack: its nodes are done.
    fn close(&mut self) -> Result<(), AllocError>
        requires search { (edges : List (List ℕ)) × IsSearch edges None self.old }
        requires some { 0 < vec_len self.old.path }
        requires looked { (group_at self.old.path.items (vec_len self.old.path - 1)).edges
            ≡ vec_len self.old.pending }
        ensures search { OnOk result ((edges : List (List ℕ)) → IsSearch edges None self.old
            → IsSearch edges None self.new) }
        ensures rest { OnOk result ((edges : List (List ℕ)) → rest_of edges self.new
            < rest_of edges self.old) }
        ensures visits { OnOk result (KeepsVisits self.old self.new) }
    {
        let group = take_last(&mut self.path);
        finish(
            &self.stack,
            group,
            &mut self.marks,
            &mut self.nodes,
            &mut self.cyclic,
        )?;
        self.stack.truncate(group.start);
        Ok(())
    }
}

/// The last element, which is taken away.
fn take_last<T: Drop>(items: &mut Vec<T>) -> T
    requires { 0 < vec_len items.old }
    ensures items { items.old.items ≡ items.new.items ++ result ∷ [] }
    ensures shorter { vec_len items.new + 1 ≡ vec_len items.old }
{
    items.pop().unwrap()
}

/// The group that a place of the stack belongs to.
fn group_of(path: &[Group], place: usize) -> usize
    requires some { 0 < length path.now }
    requires first { (group_at path.now 0).start ≤ place }
    ensures within { result < length path.now }
    ensures start { (group_at path.now result).start ≤ place }
    ensures above { (at : ℕ) → result < at → at < length path.now
        → place < (group_at path.now at).start }
{
    let mut at = path.len() - 1;
    while path[at].start > place {
        at -= 1;
    }
    at
}

/// Marks the nodes of a group, the last of the stack, as done.
fn finish(
    stack: &[usize],
    group: Group,
    marks: &mut [Mark],
    nodes: &mut Vec<usize>,
    cyclic: &mut [bool],
) -> Result<(), AllocError>
    requires start { group.start ≤ length stack.now }
    requires open { (at : ℕ) → at < length stack.now
        → mark_of marks.old (slice_index stack.now at) ≡ Mark.Open at }
    requires marks { (at : ℕ) → at < length stack.now
        → slice_index stack.now at < length marks.old }
    requires cyclic { (at : ℕ) → at < length stack.now
        → slice_index stack.now at < length cyclic.old }
    ensures finish { OnOk result (IsFinish stack.now group (length stack.now) marks.old
        nodes.old.items cyclic.old marks.new nodes.new.items cyclic.new) }
{
    for at in group.start..stack.len() {
        let node = stack[at];
        marks[node] = Mark::Done(nodes.len());
        cyclic[node] = group.cyclic;
        nodes.push(node)?;
    }
    Ok(())
}
