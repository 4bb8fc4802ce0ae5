ghost use Rattle.pn_tree.specs.Frames.{IsRoot};

use crate::copy::copy_element;
use crate::store::Store;
use crate::tables::{Node, Slot};
use crate::{Builder, Tree};
use std::alloc::{AllocError, Global};

/// One element of a tree. Clauses name it by the definition `element_of`.
#[derive(Clone, Copy)]
pub struct View<'a> {
    store: &'a Store,
    node: u32,
    ghost is_tree: { IsRoot store.now node },
}

/// What stands in an element: an element or a text.
#[derive(Clone, Copy)]
pub enum Kid<'a> {
    Element(View<'a>),
    Text(&'a str),
}

impl<'a> View<'a> {
    ghost use Rattle.std.specs.Prelude.{◌≡◌, ◌<◌, ◌↔◌, [], length, IsTrue, slice_get, IfOk, Some};
    ghost use Rattle.std.specs.Option.{option_map};
    ghost use Rattle.pn_tree.specs.Elements.{IsTree, attr_value};
    ghost use Rattle.pn_tree.specs.Depth.{depth_of};
    ghost use Rattle.pn_tree.specs.Tables.{made_of, element_in, IsNodeIn};
    ghost use Rattle.pn_tree.specs.Views.{element_of, child_of, IsShallower};

    /// A view of the element of a node.
    #[tactic(auto, unfolding(crate::specs::Views::element_of))]
    pub(crate) fn new(store: &'a Store, node: u32) -> View<'a>
        requires { IsRoot store.now node }
        ensures { element_of result ≡ element_in 256 store.entry.now node }
    {
        View { store, node }
    }

    /// The element's node.
    #[tactic(auto, unfolding(crate::specs::Views::element_of))]
    fn own_node(self) -> Node
        ensures made { element_of self.entry
            ≡ made_of (element_in 255 self.entry.store.now) self.entry.store.now self.entry.store.now.kids result }
        ensures within { IsNodeIn self.entry.store.now result }
    {
        self.store.node(self.node)
    }

    /// The element's name.
    pub fn name(self) -> &'a str
        ensures { result.now ≡ (element_of self.entry).name }
    {
        self.store.text(self.own_node().name)
    }

    /// The offset of the element's start tag.
    pub fn at(self) -> u64
        ensures { result ≡ (element_of self.entry).at }
    {
        u64::from(self.own_node().at)
    }

    pub fn attr_count(self) -> usize
        ensures { result ≡ length (element_of self.entry).attrs }
    {
        self.own_node().attrs.len()
    }

    /// The name and the value of the attribute at this place.
    pub fn attr(self, i: usize) -> (&'a str, &'a str)
        requires { i < length (element_of self).attrs }
        ensures { slice_get (element_of self.entry).attrs i
            ≡ Some (record { name = result.0.now; value = result.1.now }) }
    {
        let pair = self.store.pair(self.own_node().attrs.place(i));
        (self.store.text(pair.name), self.store.text(pair.value))
    }

    /// The value of the attribute of this name.
    pub fn find_attr(self, name: &str) -> Option<&'a str>
        ensures { option_map (λ v. v.now) result ≡ attr_value name.now (element_of self.entry).attrs }
    {
        for i in 0..self.attr_count() {
            let (own_name, value) = self.attr(i);
            if own_name == name {
                return Some(value);
            }
        }
        None
    }

    pub fn kid_count(self) -> usize
        ensures { result ≡ length (element_of self.entry).kids }
    {
        self.own_node().kids.len()
    }

    pub(crate) fn is_empty(self) -> bool
        ensures { IsTrue result ↔ ((element_of self.entry).kids ≡ []) }
    {
        self.kid_count() == 0
    }

    /// The kid at this place.
    #[tactic(auto, unfolding(crate::specs::Views::element_of))]
    pub fn kid(self, i: usize) -> Kid<'a>
        requires { i < length (element_of self).kids }
        ensures kid { slice_get (element_of self.entry).kids i ≡ Some (child_of result) }
        ensures depth { IsShallower result (depth_of (element_of self.entry)) }
    {
        let store = self.store;
        match store.slot(self.own_node().kids.place(i)) {
            Slot::Element(node) => Kid::Element(View { store, node }),
            Slot::Text(span) => Kid::Text(store.text(span)),
        }
    }

    /// The same element, offsets and all, as a tree of its own.
    pub fn copy(self, alloc: Global) -> Result<Tree, AllocError>
        ensures { IfOk result (λ t. t ≡ element_of self.entry) }
    {
        let mut builder = Builder::new(alloc);
        copy_element(&mut builder, self)?;
        Ok(builder.finish())
    }
}
