use crate::View;
use crate::store::Store;
use std::marker::Model;

/// An element tree (XML 1.0, 3), whose names, characters and depth are those of this project's
/// profile. Contracts see it as its root.
///
/// A tree is five flat tables: the bytes of its names and texts, its attributes, its kids, its
/// elements, and what elements share. Besides the bytes an element takes 8 bytes, and 24 more where its
/// name, its attributes or its kids are not those of the element that ended before it; an attribute
/// takes 16, and each kid 8. A table may have room for twice as much. Dropping a tree is one call a
/// table.
#[derive(Debug, Drop)]
pub struct Tree {
    store: Store,
    root: u32,
}

impl Model for Tree {
    ghost use Rattle.pn_tree.specs.declared.element.Element.{Element};
    ghost use Rattle.pn_tree.specs.contracts.element.Element as e;
    ghost use Rattle.std.specs.Coded.{codes};

    ghost Value = { Element };

    ghost coded = { Prim.hlevel (codes, e.the_row.coded) };

    ghost use Rattle.pn_tree.specs.Tables.{element_in};
    ghost use Rattle.pn_tree.specs.Frames.{IsRoot};

    ghost view = { λ t. element_in 256 t.store t.root };

    ghost invariant = { λ t. IsRoot t.store t.root };
}

impl Tree {
    ghost use Rattle.std.specs.Prelude.{◌≡◌, ◌≤◌};
    ghost use Rattle.pn_tree.specs.Depth.{depth_of};
    ghost use Rattle.pn_tree.specs.Elements.{IsTree};
    ghost use Rattle.pn_tree.specs.Tables.{element_in};
    ghost use Rattle.pn_tree.specs.Frames.{IsRoot};
    ghost use Rattle.pn_tree.specs.Views.{element_of};

    /// The tree of a root.
    pub(crate) fn new(store: Store, root: u32) -> Tree
        requires { IsRoot store root }
        ensures { result ≡ element_in 256 store root }
    {
        Tree { store, root }
    }

    /// The root.
    pub fn root(&self) -> View<'_>
        ensures root { element_of result ≡ self.now }
        ensures is_tree { IsTree (element_of result) }
        ensures depth { depth_of (element_of result) ≤ 256 }
    {
        View::new(&self.store, self.root)
    }
}
