ghost use Rattle.std.specs.Prelude.{◌≡◌, ◌+◌, ◌-◌, ◌^◌, ◌<◌, ◌≤◌, IsTrue, length, slice_index_or, vec_len, vec_capacity};
ghost use Rattle.pn_tree.specs.Tables.{HasGrown};
ghost use Rattle.pn_tree.specs.Packed.{shape_of, shaped, node_in, no_shape, HasStoredShape, ArePacked};

use crate::tables::{Node, Span};
use std::alloc::{AllocError, Global};
use std::marker::Model;

/// What a node shares with those behind it, where they have the same.
#[derive(Clone, Copy, Debug)]
struct Shape {
    name: Span,
    attrs: Span,
    kids: Span,
}

/// A node in eight bytes: the place of its shape, and the offset of its start tag.
#[derive(Clone, Copy, Debug)]
struct Entry {
    shape: u32,
    at: u32,
}

/// Nodes of elements. Contracts see them as a list, and how many there is room for.
#[derive(Debug, Drop)]
pub(crate) struct Nodes {
    shapes: Vec<Shape>,
    entries: Vec<Entry>,
}

impl Model for Nodes {
    ghost use Rattle.std.specs.Prelude.{map};
    ghost use Rattle.std.specs.Coded.{codes};
    ghost use Rattle.pn_tree.specs.contracts.tables.Node as n;
    ghost use Rattle.pn_tree.specs.Packed.{NodeList, node_in, room_for, ArePacked};

    ghost Value = { NodeList };

    ghost coded = { Prim.hlevel (codes, n.the_row.coded) };

    ghost view = { λ n. record { items = map (node_in n.shapes.items) n.entries.items; capacity = room_for n.shapes n.entries } };

    ghost invariant = { λ n. ArePacked n.shapes.items n.entries.items };
}

fn is_same(first: Span, second: Span) -> bool
    ensures { IsTrue result → first ≡ second }
{
    first.start == second.start && first.end == second.end
}

/// Whether this shape is the last one.
fn is_last(shapes: &[Shape], shape: Shape) -> bool
    ensures { IsTrue result → (0 < length shapes.now) × (slice_index_or shapes.now (length shapes.now - 1) no_shape ≡ shape) }
{
    match shapes.last() {
        Some(last) => {
            is_same(last.name, shape.name)
                && is_same(last.attrs, shape.attrs)
                && is_same(last.kids, shape.kids)
        }
        None => false,
    }
}

/// Says where a shape stands, which is put behind the others where it is not the last one. Takes no
/// memory.
fn place_of(shapes: &mut Vec<Shape>, shape: Shape) -> u32
    requires room { vec_len shapes.old < vec_capacity shapes.old }
    requires fit { vec_len shapes.old + 1 < 2 ^ 32 }
    ensures grown { HasGrown shapes.old.items shapes.new.items }
    ensures there { result < length shapes.new.items }
    ensures shape { slice_index_or shapes.new.items result no_shape ≡ shape }
    ensures len { vec_len shapes.new ≤ vec_len shapes.old + 1 }
    ensures capacity { vec_capacity shapes.new ≡ vec_capacity shapes.old }
{
    if !is_last(shapes.as_slice(), shape) {
        shapes.push_reserved(shape);
    }
    (shapes.len() - 1) as u32
}

fn shared(node: Node) -> Shape
    ensures { result ≡ shape_of node }
{
    Shape {
        name: node.name,
        attrs: node.attrs,
        kids: node.kids,
    }
}

impl Nodes {
    ghost use Rattle.std.specs.Prelude.{◌≡◌, ◌+◌, ◌^◌, ◌<◌, ◌≤◌, ◌++◌, ◌∷◌, ℕ, [], length, slice_index_or, OnOk, MatchOption};
    ghost use Rattle.pn_tree.specs.Tables.{no_node};

    /// No nodes. Takes no memory.
    pub(crate) fn new(alloc: Global) -> Nodes
        ensures { result.items ≡ [] }
    {
        Nodes {
            shapes: Vec::new(alloc),
            entries: Vec::new(alloc),
        }
    }

    pub(crate) fn len(&self) -> usize
        ensures { result ≡ length self.now.items }
    {
        self.entries.len()
    }

    /// The node at this place.
    pub(crate) fn get(&self, place: usize) -> Node
        requires { place < length self.now.items }
        ensures { result ≡ slice_index_or self.now.items place no_node }
    {
        let entry = self.entries[place];
        let shape = self.shapes[entry.shape as usize];
        Node {
            name: shape.name,
            at: entry.at,
            attrs: shape.attrs,
            kids: shape.kids,
        }
    }

    /// The last node.
    pub(crate) fn last(&self) -> Option<Node>
        ensures { MatchOption result (self.now.items ≡ [])
            (λ n. (i : ℕ) × (i < length self.now.items) × (n ≡ slice_index_or self.now.items i no_node)) }
    {
        let len = self.len();
        if len == 0 {
            return None;
        }
        Some(self.get(len - 1))
    }

    /// Makes room for so many nodes more.
    pub(crate) fn reserve(&mut self, more: usize) -> Result<(), AllocError>
        ensures items { self.new.items ≡ self.old.items }
        ensures room { OnOk result (length self.new.items + more ≤ self.new.capacity) }
    {
        self.shapes.reserve(more)?;
        self.entries.reserve(more)
    }

    /// Puts a node behind the others, where there is room. Takes no memory.
    pub(crate) fn push(&mut self, node: Node)
        requires room { length self.old.items < self.old.capacity }
        requires fit { length self.old.items + 1 < 2 ^ 32 }
        ensures items { self.new.items ≡ self.old.items ++ (node ∷ []) }
        ensures capacity { self.old.capacity ≤ self.new.capacity }
    {
        let at = node.at;
        let shape = place_of(&mut self.shapes, shared(node));
        self.entries.push_reserved(Entry { shape, at });
    }
}
