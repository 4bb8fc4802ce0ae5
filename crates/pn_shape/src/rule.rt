use crate::Tag;
use pn_operators::Kind;

/// The kinds of nets that have an element.
#[derive(Clone, Copy)]
pub enum Kinds {
    All,
    /// Place/transition nets alone.
    Plain,
    /// This kind is the first, as in the table of operators; place/transition nets are none of them.
    From(Kind),
}

/// What may stand in an element.
#[derive(Clone, Copy)]
pub enum Content {
    /// Elements, with nothing but white space between them.
    Elements,
    /// The same, in a net: they are of the kind of nets that its `type` names.
    Net,
    /// Characters.
    Characters,
    /// Characters that are a number, at least this one.
    Count { least: u64 },
    /// Anything: the element is kept as it is.
    Opaque,
}

/// The attributes that elements have.
#[derive(Clone, Copy)]
pub enum AttrName {
    Xmlns,
    Id,
    Type,
    Name,
    Source,
    Target,
    Ref,
    Declaration,
    RefVariable,
    RefPartition,
    Value,
    Start,
    End,
}

/// What the value of an attribute has to be.
#[derive(Clone, Copy)]
pub enum Form {
    Any,
    /// The namespace of PNML.
    Namespace,
    /// The type of a net.
    NetType,
    /// Not empty, and without white space.
    Id,
    /// A whole number of 64 bits.
    Number,
    /// `true` or `false`.
    Truth,
}

/// An attribute of an element.
#[derive(Clone, Copy)]
pub struct AttrRule {
    pub name: AttrName,
    pub is_needed: bool,
    pub form: Form,
}

/// What fills a place in an element: one of these elements.
#[derive(Clone, Copy)]
pub enum Fill {
    One(Tag),
    /// `graphics` or `toolspecific`.
    Opaque,
    Sort,
    Term,
    /// What a `namedsort` names: a sort or an enumeration.
    Body,
    /// The sort whose multisets `all` and `empty` are of: a sort, or a `multisetsort` with one in it.
    Basis,
    /// The sort of a `numberconstant`.
    NumberSort,
    /// A constant that an element of a partition lists.
    Constant,
}

/// What one element more is than its place allows.
#[derive(Clone, Copy)]
pub enum Over {
    /// A repeated element.
    Repeated,
    /// A second net, in which nothing is asked.
    SecondNet,
}

/// A place for elements in an element.
#[derive(Clone, Copy)]
pub struct Slot {
    pub fill: Fill,
    /// The least number of elements in it.
    pub least: usize,
    /// The greatest number of elements in it, where there is one.
    pub most: Option<usize>,
    /// What one more than the greatest number is.
    pub over: Over,
}

/// A row of the table of elements.
#[derive(Clone, Copy)]
pub struct Rule {
    pub name: &'static str,
    pub kinds: Kinds,
    pub content: Content,
    pub attrs: &'static [AttrRule],
    pub slots: &'static [Slot],
}
