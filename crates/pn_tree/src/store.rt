use crate::tables::{Node, Pair, Slot, Span, Tables, text_at};
use std::marker::Model;

/// The tables of a tree that is whole. Contracts see them as lists.
#[derive(Debug, Drop)]
pub(crate) struct Store {
    tables: Tables,
}

impl Model for Store {
    ghost use Rattle.pn_tree.specs.Tables.{TableLists, content, AreWithin};
    ghost use Rattle.pn_tree.specs.contracts.tables.Node as n;
    ghost use Rattle.pn_tree.specs.contracts.tables.Pair as p;
    ghost use Rattle.pn_tree.specs.contracts.tables.Slot as s;
    ghost use Rattle.std.specs.Coded.{codes};

    ghost Value = { TableLists };

    ghost coded = { Prim.hlevel (codes, n.the_row.coded, p.the_row.coded, s.the_row.coded) };

    ghost view = { λ s. content s.tables };

    ghost invariant = { λ s. AreWithin (content s.tables) };
}

impl Store {
    ghost use Rattle.std.specs.Prelude.{◌≡◌, ◌<◌, length, slice_index_or};
    ghost use Rattle.pn_tree.specs.Tables.{cut, content, no_node, IsTextIn, IsPairIn, IsSlotIn, IsNodeIn, AreWithin};

    pub(crate) fn new(tables: Tables) -> Store
        requires { AreWithin (content tables) }
        ensures { result ≡ content tables }
    {
        Store { tables }
    }

    pub(crate) fn node(&self, place: u32) -> Node
        requires { place < length self.now.nodes }
        ensures node { result ≡ slice_index_or self.now.nodes place no_node }
        ensures within { IsNodeIn self.now result }
    {
        self.tables.nodes.get(place as usize)
    }

    pub(crate) fn pair(&self, place: usize) -> Pair
        requires { place < length self.now.attrs }
        ensures pair { result ≡ slice_index_or self.now.attrs place result }
        ensures within { IsPairIn self.now.bytes result }
    {
        self.tables.attrs[place]
    }

    pub(crate) fn slot(&self, place: usize) -> Slot
        requires { place < length self.now.kids }
        ensures slot { result ≡ slice_index_or self.now.kids place result }
        ensures within { IsSlotIn self.now.bytes (length self.now.nodes) result }
    {
        self.tables.kids.get(place)
    }

    pub(crate) fn text(&self, span: Span) -> &str
        requires { IsTextIn self.now.bytes span }
        ensures { result.now ≡ cut span self.now.bytes }
    {
        text_at(self.tables.bytes.as_slice(), span)
    }
}
