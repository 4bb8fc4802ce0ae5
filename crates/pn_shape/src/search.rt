//! Which element a name is, and which place it has.

ghost use Rattle.std.specs.Prelude.{◌≡◌, ◌<◌, length, IfSome};
ghost use Rattle.pn_shape.specs.Rules.{rule_for, are_had, is_had, is_named, alternatives, fill_name, attr_name};
ghost use Rattle.pn_shape.specs.Spots.{first_named, tag_of, has_slot, spot_in};
ghost use Rattle.std.specs.List.{list_any};
ghost use Rattle.std.specs.Option.{option_or};
ghost use Rattle.pn_shape.specs.declared.rule.Fill.TheVariants.{Sort, Term};

use crate::rows::{CONSTANTS, ENUMERATIONS, LEAVES, MULTISETS, NUMBER_SORTS, OPAQUE_TAGS, SORTS};
use crate::table::name_of;
use crate::{AttrName, Fill, Kinds, Slot, Tag, rule_of};
use pn_operators::{Kind, find_op};

/// A place of an element, and which element stands there.
#[derive(Clone, Copy)]
pub struct Spot {
    /// The number of the place, in the order of the row.
    pub place: usize,
    pub tag: Tag,
}

impl Kinds {
    /// Whether nets of this kind are among these. Takes no memory.
    pub fn have(self, kind: Kind) -> bool
        ensures { result ≡ are_had self kind }
    {
        match self {
            Kinds::All => true,
            Kinds::Plain => match kind {
                Kind::PtNet => true,
                Kind::Symmetric => false,
                Kind::HighLevel => false,
            },
            Kinds::From(first) => kind.has(first),
        }
    }
}

/// The name of an attribute. Takes no memory.
pub fn attr_word(name: AttrName) -> &'static str
    ensures { result.now ≡ attr_name name }
{
    match name {
        AttrName::Xmlns => "xmlns",
        AttrName::Id => "id",
        AttrName::Type => "type",
        AttrName::Name => "name",
        AttrName::Source => "source",
        AttrName::Target => "target",
        AttrName::Ref => "ref",
        AttrName::Declaration => "declaration",
        AttrName::RefVariable => "refvariable",
        AttrName::RefPartition => "refpartition",
        AttrName::Value => "value",
        AttrName::Start => "start",
        AttrName::End => "end",
    }
}

/// How a place is called where its element is missing. Takes no memory.
pub fn fill_word(fill: Fill) -> &'static str
    ensures { result.now ≡ fill_name fill }
{
    match fill {
        Fill::One(tag) => name_of(tag),
        Fill::Opaque => "graphics",
        Fill::Sort => "sort",
        Fill::Term => "term",
        Fill::Body => "sort",
        Fill::Basis => "sort",
        Fill::NumberSort => "sort",
        Fill::Constant => "constant",
    }
}

/// Whether nets of this kind have the element, and this is its name.
fn has_name(kind: Kind, name: &str, tag: Tag) -> bool
    ensures { result ≡ is_named kind name.now tag }
{
    name_of(tag) == name && rule_of(tag).kinds.have(kind)
}

/// The first of these elements that nets of this kind have and that has this name.
fn find_named(kind: Kind, name: &str, tags: &[Tag]) -> Option<Tag>
    ensures { result ≡ first_named kind name.now tags.now }
{
    for tag in tags {
        if has_name(kind, name, *tag) {
            return Some(*tag);
        }
    }
    None
}

/// The same of two lists, the second behind the first.
fn find_in_two(kind: Kind, name: &str, tags: &[Tag], more: &[Tag]) -> Option<Tag>
    ensures { result ≡ option_or (first_named kind name.now tags.now) (first_named kind name.now more.now) }
{
    match find_named(kind, name, tags) {
        Some(tag) => Some(tag),
        None => find_named(kind, name, more),
    }
}

/// Which sort the element of this name is, in nets of this kind. Takes no memory.
#[tactic(auto, unfolding(crate::specs::Spots::tag_of))]
pub fn tag_of_sort(kind: Kind, name: &str) -> Option<Tag>
    ensures { result ≡ tag_of kind name.now Sort }
{
    find_named(kind, name, SORTS)
}

/// Which term the element of this name is, in nets of this kind. Takes no memory.
#[tactic(auto, unfolding(crate::specs::Spots::tag_of))]
pub fn tag_of_term(kind: Kind, name: &str) -> Option<Tag>
    ensures { result ≡ tag_of kind name.now Term }
{
    match find_named(kind, name, LEAVES) {
        Some(tag) => Some(tag),
        None => match find_op(name, kind) {
            Some(op) => Some(Tag::Operator(op)),
            None => None,
        },
    }
}

/// Which of the elements that fill a place the element of this name is, in nets of this kind. Takes
/// no memory.
#[tactic(auto, unfolding(crate::specs::Spots::tag_of))]
pub fn find_tag(kind: Kind, name: &str, fill: Fill) -> Option<Tag>
    ensures { result ≡ tag_of kind name.now fill }
{
    match fill {
        Fill::One(tag) => {
            if has_name(kind, name, tag) {
                Some(tag)
            } else {
                None
            }
        }
        Fill::Opaque => find_named(kind, name, OPAQUE_TAGS),
        Fill::Sort => tag_of_sort(kind, name),
        Fill::Term => tag_of_term(kind, name),
        Fill::Body => find_in_two(kind, name, ENUMERATIONS, SORTS),
        Fill::Basis => find_in_two(kind, name, MULTISETS, SORTS),
        Fill::NumberSort => find_named(kind, name, NUMBER_SORTS),
        Fill::Constant => find_named(kind, name, CONSTANTS),
    }
}

/// Whether nets of this kind have one of these elements.
fn have_any(kind: Kind, tags: &[Tag]) -> bool
    ensures { result ≡ list_any (is_had kind) tags.now }
{
    for tag in tags {
        if rule_of(*tag).kinds.have(kind) {
            return true;
        }
    }
    false
}

/// Whether nets of this kind have an element that fills a place. Takes no memory.
#[tactic(auto, unfolding(crate::specs::Spots::has_slot))]
pub fn is_open(kind: Kind, fill: Fill) -> bool
    ensures { result ≡ has_slot kind fill }
{
    match fill {
        Fill::One(tag) => rule_of(tag).kinds.have(kind),
        Fill::Opaque => have_any(kind, OPAQUE_TAGS),
        Fill::Sort => have_any(kind, SORTS),
        Fill::Term => kind.has(Kind::Symmetric),
        Fill::Body => have_any(kind, ENUMERATIONS) || have_any(kind, SORTS),
        Fill::Basis => have_any(kind, MULTISETS) || have_any(kind, SORTS),
        Fill::NumberSort => have_any(kind, NUMBER_SORTS),
        Fill::Constant => have_any(kind, CONSTANTS),
    }
}

/// The first of these places in which the element of this name may stand, and which element it is
/// there, in nets of this kind. Takes no memory.
#[tactic(auto, unfolding(crate::specs::Spots::spot_in))]
pub fn spot_among(kind: Kind, name: &str, slots: &[Slot]) -> Option<Spot>
    ensures spot { result ≡ spot_in kind name.now 0 slots.now }
    ensures within { IfSome result (λ s. s.place < length slots.now) }
{
    for place in 0..slots.len() {
        if let Some(tag) = find_tag(kind, name, slots[place].fill) {
            return Some(Spot { place, tag });
        }
    }
    None
}

/// The place in an element of this tag in which the element of this name may stand, and which
/// element it is there, in nets of this kind. Takes no memory.
pub fn find_spot(kind: Kind, tag: Tag, name: &str) -> Option<Spot>
    ensures { result ≡ spot_in kind name.now 0 (rule_for tag).slots }
{
    spot_among(kind, name, rule_of(tag).slots)
}
