//! The attributes and the places of the elements, in the order of their table. An element that is
//! written has them in this order.

use crate::{AttrName, AttrRule, Fill, Form, Over, Slot, Tag};

macro_rules! needed {
    ($name:ident $form:ident) => {
        AttrRule {
            name: AttrName::$name,
            is_needed: true,
            form: Form::$form,
        }
    };
}

macro_rules! slot {
    ($fill:expr, $least:literal, $most:expr) => {
        Slot {
            fill: $fill,
            least: $least,
            most: $most,
            over: Over::Repeated,
        }
    };
}

macro_rules! one {
    ($tag:ident) => {
        slot!(Fill::One(Tag::$tag), 1, Some(1))
    };
}

macro_rules! optional {
    ($tag:ident) => {
        slot!(Fill::One(Tag::$tag), 0, Some(1))
    };
}

macro_rules! any {
    ($tag:ident) => {
        slot!(Fill::One(Tag::$tag), 0, None)
    };
}

macro_rules! some {
    ($tag:ident) => {
        slot!(Fill::One(Tag::$tag), 1, None)
    };
}

macro_rules! subterms {
    ($least:literal, $most:expr) => {
        slot!(Fill::One(Tag::Subterm), $least, $most)
    };
}

const OPAQUE: Slot = slot!(Fill::Opaque, 0, None);

const NAME: AttrRule = AttrRule {
    name: AttrName::Name,
    is_needed: false,
    form: Form::Any,
};

pub(crate) const NO_ATTRS: &[AttrRule] = &[];

pub(crate) const PNML_ATTRS: &[AttrRule] = &[needed!(Xmlns Namespace)];

pub(crate) const NET_ATTRS: &[AttrRule] = &[needed!(Id Id), needed!(Type NetType)];

pub(crate) const ID_ATTRS: &[AttrRule] = &[needed!(Id Id)];

pub(crate) const ARC_ATTRS: &[AttrRule] = &[
    needed!(Id Id),
    needed!(Source Any),
    needed!(Target Any),
];

pub(crate) const REFERENCE_ATTRS: &[AttrRule] = &[needed!(Id Id), needed!(Ref Any)];

pub(crate) const NAMED_ATTRS: &[AttrRule] = &[needed!(Id Id), NAME];

pub(crate) const RANGE_ATTRS: &[AttrRule] = &[needed!(Start Number), needed!(End Number)];

pub(crate) const DECLARATION_ATTRS: &[AttrRule] = &[needed!(Declaration Any)];

pub(crate) const VARIABLE_ATTRS: &[AttrRule] = &[needed!(RefVariable Any)];

pub(crate) const PARTITION_ATTRS: &[AttrRule] = &[needed!(RefPartition Any)];

pub(crate) const TRUTH_ATTRS: &[AttrRule] = &[needed!(Value Truth)];

pub(crate) const NUMBER_ATTRS: &[AttrRule] = &[needed!(Value Number)];

pub(crate) const VALUE_ATTRS: &[AttrRule] = &[needed!(Value Any)];

pub(crate) const NO_SLOTS: &[Slot] = &[];

pub(crate) const PNML_SLOTS: &[Slot] = &[Slot {
    fill: Fill::One(Tag::Net),
    least: 1,
    most: Some(1),
    over: Over::SecondNet,
}];

pub(crate) const NET_SLOTS: &[Slot] = &[optional!(Name), OPAQUE, any!(Declaration), some!(Page)];

pub(crate) const PAGE_SLOTS: &[Slot] = &[
    optional!(Name),
    OPAQUE,
    any!(Declaration),
    any!(Place),
    any!(Transition),
    any!(ReferencePlace),
    any!(ReferenceTransition),
    any!(Arc),
    any!(Page),
];

pub(crate) const PLACE_SLOTS: &[Slot] = &[
    optional!(Name),
    OPAQUE,
    optional!(InitialMarking),
    one!(Type),
    optional!(HlInitialMarking),
];

pub(crate) const TRANSITION_SLOTS: &[Slot] = &[optional!(Name), OPAQUE, optional!(Condition)];

pub(crate) const ARC_SLOTS: &[Slot] = &[
    optional!(Name),
    OPAQUE,
    optional!(Inscription),
    one!(HlInscription),
];

pub(crate) const HEAD_SLOTS: &[Slot] = &[optional!(Name), OPAQUE];

pub(crate) const NAME_SLOTS: &[Slot] = &[optional!(Text), OPAQUE];

pub(crate) const MARKING_SLOTS: &[Slot] = &[one!(MarkingText), OPAQUE];

pub(crate) const WEIGHT_SLOTS: &[Slot] = &[one!(WeightText), OPAQUE];

pub(crate) const SORT_LABEL_SLOTS: &[Slot] = &[optional!(Text), one!(SortStructure), OPAQUE];

pub(crate) const TERM_LABEL_SLOTS: &[Slot] = &[optional!(Text), one!(TermStructure), OPAQUE];

pub(crate) const DECLARATION_SLOTS: &[Slot] = &[
    optional!(Text),
    one!(DeclarationStructure),
    OPAQUE,
];

pub(crate) const DECLARATIONS_SLOTS: &[Slot] = &[one!(Declarations)];

pub(crate) const DECLARED_SLOTS: &[Slot] = &[any!(NamedSort), any!(VariableDecl), any!(Partition)];

pub(crate) const BODY_SLOTS: &[Slot] = &[slot!(Fill::Body, 1, Some(1))];

pub(crate) const CONSTANTS_SLOTS: &[Slot] = &[some!(FeConstant)];

pub(crate) const PARTITION_SLOTS: &[Slot] = &[
    slot!(Fill::Sort, 1, Some(1)),
    some!(PartitionElement),
];

pub(crate) const VALUES_SLOTS: &[Slot] = &[slot!(Fill::Constant, 1, None)];

pub(crate) const SORT_SLOTS: &[Slot] = &[slot!(Fill::Sort, 1, Some(1))];

pub(crate) const SORTS_SLOTS: &[Slot] = &[slot!(Fill::Sort, 1, None)];

pub(crate) const TERM_SLOTS: &[Slot] = &[slot!(Fill::Term, 1, Some(1))];

pub(crate) const BASIS_SLOTS: &[Slot] = &[slot!(Fill::Basis, 1, Some(1))];

pub(crate) const NUMBER_SORT_SLOTS: &[Slot] = &[slot!(Fill::NumberSort, 1, Some(1))];

pub(crate) const RANGE_SLOTS: &[Slot] = &[one!(FiniteIntRange)];

// the arguments of an operator, by their least and their greatest number
pub(crate) const ONE_SUBTERM: &[Slot] = &[subterms!(1, Some(1))];

pub(crate) const TWO_SUBTERMS: &[Slot] = &[subterms!(2, Some(2))];

pub(crate) const ONE_OR_TWO_SUBTERMS: &[Slot] = &[subterms!(1, Some(2))];

pub(crate) const ONE_OR_MORE_SUBTERMS: &[Slot] = &[subterms!(1, None)];

pub(crate) const TWO_OR_MORE_SUBTERMS: &[Slot] = &[subterms!(2, None)];

/// The elements that are sorts.
pub(crate) const SORTS: &[Tag] = &[
    Tag::Dot,
    Tag::Bool,
    Tag::FiniteIntRange,
    Tag::ProductSort,
    Tag::UserSort,
    Tag::Integer,
    Tag::Natural,
    Tag::Positive,
    Tag::StringSort,
    Tag::ListSort,
];

/// The elements that are terms, but for the operators.
pub(crate) const LEAVES: &[Tag] = &[
    Tag::Variable,
    Tag::UserOperator,
    Tag::BooleanConstant,
    Tag::NumberConstant,
    Tag::FiniteIntRangeConstant,
    Tag::PartitionElementOf,
    Tag::All,
    Tag::Empty,
    Tag::StringConstant,
    Tag::EmptyList,
];

pub(crate) const ENUMERATIONS: &[Tag] = &[Tag::FiniteEnumeration, Tag::CyclicEnumeration];

pub(crate) const MULTISETS: &[Tag] = &[Tag::MultisetSort];

pub(crate) const NUMBER_SORTS: &[Tag] = &[Tag::OfIntegers, Tag::OfNaturals, Tag::OfPositives];

pub(crate) const CONSTANTS: &[Tag] = &[Tag::UserOperator, Tag::FiniteIntRangeConstant];

pub(crate) const OPAQUE_TAGS: &[Tag] = &[Tag::Graphics, Tag::ToolSpecific];
