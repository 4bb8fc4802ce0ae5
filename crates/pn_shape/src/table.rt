//! The table of elements: the row of each (ISO/IEC 15909-2, in this project's profile).

ghost use Rattle.std.specs.Prelude.{◌≡◌, ◌≤◌, length};
ghost use Rattle.pn_shape.specs.Rules.{rule_for, said_by, argument_slots};
ghost use Rattle.pn_shape.specs.declared.tag.Tag.TheVariants.{Operator};

use crate::rows::*;
use crate::{Content, Kinds, Rule, Slot, Tag};
use pn_operators::{Kind, Op, op_name, row_of, with_rows};

macro_rules! kinds {
    (All) => {
        Kinds::All
    };
    (Plain) => {
        Kinds::Plain
    };
    ($from:ident) => {
        Kinds::From(Kind::$from)
    };
}

macro_rules! content {
    (Tokens) => {
        Content::Count { least: 0 }
    };
    (Weight) => {
        Content::Count { least: 1 }
    };
    ($content:ident) => {
        Content::$content
    };
}

macro_rules! rules {
    ($value:expr, $op:ident => $operator:expr; $($tag:ident $name:literal $kinds:ident $content:ident $attrs:ident $slots:ident;)*) => {
        match $value {
            $(Tag::$tag => Rule { name: $name, kinds: kinds!($kinds), content: content!($content), attrs: $attrs, slots: $slots },)*
            Tag::Operator($op) => $operator,
        }
    };
}

macro_rules! names {
    ($value:expr, $op:ident => $operator:expr; $($tag:ident $name:literal $kinds:ident $content:ident $attrs:ident $slots:ident;)*) => {
        match $value {
            $(Tag::$tag => $name,)*
            Tag::Operator($op) => $operator,
        }
    };
}

/// The elements but operators, a row each: its name, the kinds of nets that have it, what stands in it, its attributes and places.
macro_rules! with_elements {
    ($use:ident, $value:expr, $op:ident => $operator:expr) => {
        $use!($value, $op => $operator;
            Pnml "pnml" All Elements PNML_ATTRS PNML_SLOTS;
            Net "net" All Net NET_ATTRS NET_SLOTS;
            Page "page" All Elements ID_ATTRS PAGE_SLOTS;
            Place "place" All Elements ID_ATTRS PLACE_SLOTS;
            Transition "transition" All Elements ID_ATTRS TRANSITION_SLOTS;
            Arc "arc" All Elements ARC_ATTRS ARC_SLOTS;
            ReferencePlace "referencePlace" All Elements REFERENCE_ATTRS HEAD_SLOTS;
            ReferenceTransition "referenceTransition" All Elements REFERENCE_ATTRS HEAD_SLOTS;
            Name "name" All Elements NO_ATTRS NAME_SLOTS;
            InitialMarking "initialMarking" Plain Elements NO_ATTRS MARKING_SLOTS;
            Inscription "inscription" Plain Elements NO_ATTRS WEIGHT_SLOTS;
            Type "type" Symmetric Elements NO_ATTRS SORT_LABEL_SLOTS;
            HlInitialMarking "hlinitialMarking" Symmetric Elements NO_ATTRS TERM_LABEL_SLOTS;
            Condition "condition" Symmetric Elements NO_ATTRS TERM_LABEL_SLOTS;
            HlInscription "hlinscription" Symmetric Elements NO_ATTRS TERM_LABEL_SLOTS;
            Declaration "declaration" Symmetric Elements NO_ATTRS DECLARATION_SLOTS;
            Text "text" All Characters NO_ATTRS NO_SLOTS;
            MarkingText "text" All Tokens NO_ATTRS NO_SLOTS;
            WeightText "text" All Weight NO_ATTRS NO_SLOTS;
            SortStructure "structure" All Elements NO_ATTRS SORT_SLOTS;
            TermStructure "structure" All Elements NO_ATTRS TERM_SLOTS;
            DeclarationStructure "structure" All Elements NO_ATTRS DECLARATIONS_SLOTS;
            Declarations "declarations" All Elements NO_ATTRS DECLARED_SLOTS;
            NamedSort "namedsort" All Elements NAMED_ATTRS BODY_SLOTS;
            FiniteEnumeration "finiteenumeration" All Elements NO_ATTRS CONSTANTS_SLOTS;
            CyclicEnumeration "cyclicenumeration" All Elements NO_ATTRS CONSTANTS_SLOTS;
            FeConstant "feconstant" All Elements NAMED_ATTRS NO_SLOTS;
            VariableDecl "variabledecl" All Elements NAMED_ATTRS SORT_SLOTS;
            Partition "partition" All Elements NAMED_ATTRS PARTITION_SLOTS;
            PartitionElement "partitionelement" All Elements NAMED_ATTRS VALUES_SLOTS;
            Dot "dot" Symmetric Elements NO_ATTRS NO_SLOTS;
            Bool "bool" Symmetric Elements NO_ATTRS NO_SLOTS;
            FiniteIntRange "finiteintrange" Symmetric Elements RANGE_ATTRS NO_SLOTS;
            ProductSort "productsort" Symmetric Elements NO_ATTRS SORTS_SLOTS;
            UserSort "usersort" Symmetric Elements DECLARATION_ATTRS NO_SLOTS;
            Integer "integer" HighLevel Elements NO_ATTRS NO_SLOTS;
            Natural "natural" HighLevel Elements NO_ATTRS NO_SLOTS;
            Positive "positive" HighLevel Elements NO_ATTRS NO_SLOTS;
            StringSort "string" HighLevel Elements NO_ATTRS NO_SLOTS;
            ListSort "list" HighLevel Elements NO_ATTRS SORT_SLOTS;
            OfIntegers "integer" Symmetric Elements NO_ATTRS NO_SLOTS;
            OfNaturals "natural" Symmetric Elements NO_ATTRS NO_SLOTS;
            OfPositives "positive" Symmetric Elements NO_ATTRS NO_SLOTS;
            MultisetSort "multisetsort" Symmetric Elements NO_ATTRS SORT_SLOTS;
            Variable "variable" Symmetric Elements VARIABLE_ATTRS NO_SLOTS;
            UserOperator "useroperator" Symmetric Elements DECLARATION_ATTRS NO_SLOTS;
            BooleanConstant "booleanconstant" Symmetric Elements TRUTH_ATTRS NO_SLOTS;
            NumberConstant "numberconstant" Symmetric Elements NUMBER_ATTRS NUMBER_SORT_SLOTS;
            FiniteIntRangeConstant "finiteintrangeconstant" Symmetric Elements NUMBER_ATTRS RANGE_SLOTS;
            PartitionElementOf "partitionelementof" Symmetric Elements PARTITION_ATTRS ONE_SUBTERM;
            All "all" Symmetric Elements NO_ATTRS BASIS_SLOTS;
            Empty "empty" Symmetric Elements NO_ATTRS BASIS_SLOTS;
            StringConstant "stringconstant" HighLevel Elements VALUE_ATTRS NO_SLOTS;
            EmptyList "emptylist" HighLevel Elements NO_ATTRS SORT_SLOTS;
            Subterm "subterm" All Elements NO_ATTRS TERM_SLOTS;
            Graphics "graphics" All Opaque NO_ATTRS NO_SLOTS;
            ToolSpecific "toolspecific" All Opaque NO_ATTRS NO_SLOTS;
        )
    };
}

macro_rules! slots_of {
    (0 (Some(0))) => {
        NO_SLOTS
    };
    (1 (Some(1))) => {
        ONE_SUBTERM
    };
    (1 (Some(2))) => {
        ONE_OR_TWO_SUBTERMS
    };
    (2 (Some(2))) => {
        TWO_SUBTERMS
    };
    (1 (None)) => {
        ONE_OR_MORE_SUBTERMS
    };
    (2 (None)) => {
        TWO_OR_MORE_SUBTERMS
    };
}

macro_rules! as_slots {
    ($value:expr; $($op:ident $name:literal $from:ident $least:tt $most:tt $rule:ident($($family:ident)?)),*) => {
        match $value { $(Op::$op => slots_of!($least $most)),* }
    };
}

/// The row of an element. Takes no memory.
pub fn rule_of(tag: Tag) -> Rule
    ensures row { said_by result ≡ rule_for tag }
    ensures few { length result.slots.now ≤ 9 }
{
    table_row(tag)
}

/// The name of an element. Takes no memory.
#[tactic(auto, unfolding(crate::specs::Rules::rule_for))]
pub(crate) fn name_of(tag: Tag) -> &'static str
    ensures { result.now ≡ (rule_for tag).name }
{
    with_elements!(names, tag, op => op_name(op))
}

/// The row of an element, as it stands in the table.
#[tactic(auto, unfolding(crate::specs::Rules::rule_for))]
fn table_row(tag: Tag) -> Rule
    ensures { said_by result ≡ rule_for tag }
{
    with_elements!(rules, tag, op => operator_rule(op))
}

/// The row of an operator's element.
#[tactic(auto, unfolding(crate::specs::Rules::rule_for))]
fn operator_rule(op: Op) -> Rule
    ensures { said_by result ≡ rule_for (Operator op) }
{
    Rule {
        name: op_name(op),
        kinds: Kinds::From(row_of(op).from),
        content: Content::Elements,
        attrs: NO_ATTRS,
        slots: slots_for(op),
    }
}

/// The places for the arguments of an operator.
fn slots_for(op: Op) -> &'static [Slot]
    ensures { result.now ≡ argument_slots op }
{
    with_rows!(as_slots, op)
}
