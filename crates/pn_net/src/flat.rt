use pn_objects::{Arc, Head, Place, Prefix, Transition};
use pn_operators::Kind;
use pn_syntax::Declaration;
use pn_text::Text;
use sqlite_items::Items;

/// An arc of a flat net, with the place and the transition that it joins, each by its number.
#[derive(Debug, Drop)]
pub struct FlatArc {
    pub arc: Arc,
    pub place: u32,
    pub transition: u32,
    /// The arc leads from the transition to the place.
    pub into_place: bool,
}

/// A net of one page without references, its objects in the order of their numbers. The page has
/// the id and the head of the first page of the document.
#[derive(Debug, Drop)]
pub struct Flat {
    pub id: Text,
    pub kind: Kind,
    pub prefixes: Items<Prefix>,
    pub head: Head,
    pub page_id: Text,
    pub page_head: Head,
    pub declarations: Items<Declaration>,
    pub places: Items<Place>,
    pub transitions: Items<Transition>,
    pub arcs: Items<FlatArc>,
}
