use crate::{Arc, Head, Label, Place, Reference, Transition};
use pn_operators::Kind;
use pn_syntax::Declaration;
use pn_text::Text;
use sqlite_items::Items;

/// A page, with its parts in document order, kind by kind.
#[derive(Debug, Drop)]
#[cycle(page)]
pub struct Page {
    pub id: Text,
    pub head: Head,
    pub declarations: Items<Label<Items<Declaration>>>,
    pub places: Items<Place>,
    pub transitions: Items<Transition>,
    pub place_refs: Items<Reference>,
    pub transition_refs: Items<Reference>,
    pub arcs: Items<Arc>,
    pub pages: Items<Page>,
    /// The offset of the start tag of its element.
    pub at: u64,
}

/// An attribute `xmlns:..` of the root: the prefix of a namespace, with its address.
#[derive(Debug, Drop)]
pub struct Prefix {
    pub name: Text,
    pub address: Text,
}

/// A net, with what the root of its document keeps.
#[derive(Debug, Drop)]
pub struct Net {
    pub id: Text,
    pub kind: Kind,
    pub prefixes: Items<Prefix>,
    pub head: Head,
    pub declarations: Items<Label<Items<Declaration>>>,
    pub pages: Items<Page>,
    /// The offset of the start tag of its element.
    pub at: u64,
}
