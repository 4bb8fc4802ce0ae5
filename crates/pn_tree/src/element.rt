use pn_text::Text;
use sqlite_items::Items;

/// An attribute: its name and its value.
#[derive(Debug, Drop)]
pub struct Attr {
    pub name: Text,
    pub value: Text,
}

/// An element as plain content.
#[derive(Debug, Drop)]
#[cycle(element)]
pub struct Element {
    pub name: Text,
    pub at: u64,
    pub attrs: Items<Attr>,
    pub kids: Items<Child>,
}

/// What stands in an element: an element or a text.
#[derive(Debug, Drop)]
#[cycle(element)]
pub enum Child {
    Element(Element),
    Text(Text),
}
