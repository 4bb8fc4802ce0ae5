use pn_operators::Op;

/// The elements of a document that are no opaque content, and the two that are (ISO/IEC 15909-2,
/// with this project's profile). An element whose content depends on where it stands has a tag for
/// each content: `text` and `structure` by the label that they stand in, and the sorts of numbers by
/// whether they stand in a `numberconstant`.
#[derive(Clone, Copy)]
pub enum Tag {
    Pnml,
    Net,
    Page,
    Place,
    Transition,
    Arc,
    ReferencePlace,
    ReferenceTransition,
    Name,
    InitialMarking,
    Inscription,
    Type,
    HlInitialMarking,
    Condition,
    HlInscription,
    Declaration,
    /// A `text` of any characters.
    Text,
    /// The `text` of an `initialMarking`.
    MarkingText,
    /// The `text` of an `inscription`.
    WeightText,
    /// A `structure` with a sort.
    SortStructure,
    /// A `structure` with a term.
    TermStructure,
    /// A `structure` with declarations.
    DeclarationStructure,
    Declarations,
    NamedSort,
    FiniteEnumeration,
    CyclicEnumeration,
    FeConstant,
    VariableDecl,
    Partition,
    PartitionElement,
    Dot,
    Bool,
    FiniteIntRange,
    ProductSort,
    UserSort,
    /// The sort `integer`.
    Integer,
    /// The sort `natural`.
    Natural,
    /// The sort `positive`.
    Positive,
    StringSort,
    ListSort,
    /// `integer` in a `numberconstant`.
    OfIntegers,
    /// `natural` in a `numberconstant`.
    OfNaturals,
    /// `positive` in a `numberconstant`.
    OfPositives,
    MultisetSort,
    Variable,
    UserOperator,
    BooleanConstant,
    NumberConstant,
    FiniteIntRangeConstant,
    PartitionElementOf,
    All,
    Empty,
    StringConstant,
    EmptyList,
    Subterm,
    /// A term whose arguments stand in `subterm`s.
    Operator(Op),
    Graphics,
    ToolSpecific,
}
