ghost use Rattle.std.specs.Prelude.{◌≡◌};
ghost use Rattle.pn_faults.specs.Reasons.{number_of, phase_of, words_of};

/// What is wrong, in the order in which reasons at one place are told. The reasons fall into four
/// phases: shape (to `BadValue`), ids and links (to `ReferenceCycle`), sorts (to `BadPartition`)
/// and typing.
#[derive(Clone, Copy, Debug, PartialEq, Eq)]
pub enum Reason {
    UnknownElement,
    SecondNet,
    RepeatedElement,
    MissingElement,
    WrongNamespace,
    UnknownAttribute,
    MissingAttribute,
    StrayText,
    WrongNetType,
    BadId,
    BadNumber,
    BadValue,
    DuplicateId,
    UnknownEnd,
    WrongEnd,
    ReferenceCycle,
    UnknownSort,
    SortCycle,
    SortTooBig,
    EmptyRange,
    BadPartition,
    UnknownVariable,
    UnknownOperator,
    UnknownPartition,
    BadConstant,
    AllTooLarge,
    WrongSort,
    LabelSort,
    NotGround,
    NoValue,
}

impl Reason {
    /// The words that name the reason. Takes no memory.
    pub fn words(&self) -> &'static str
        ensures { result.now ≡ words_of self.now }
    {
        match self {
            Reason::UnknownElement => "unknown element",
            Reason::SecondNet => "second net",
            Reason::RepeatedElement => "repeated element",
            Reason::MissingElement => "missing element",
            Reason::WrongNamespace => "wrong namespace",
            Reason::UnknownAttribute => "unknown attribute",
            Reason::MissingAttribute => "missing attribute",
            Reason::StrayText => "stray text",
            Reason::WrongNetType => "wrong net type",
            Reason::BadId => "bad id",
            Reason::BadNumber => "bad number",
            Reason::BadValue => "bad value",
            Reason::DuplicateId => "duplicate id",
            Reason::UnknownEnd => "unknown end",
            Reason::WrongEnd => "wrong end",
            Reason::ReferenceCycle => "reference cycle",
            Reason::UnknownSort => "unknown sort",
            Reason::SortCycle => "sort cycle",
            Reason::SortTooBig => "sort too big",
            Reason::EmptyRange => "empty range",
            Reason::BadPartition => "bad partition",
            Reason::UnknownVariable => "unknown variable",
            Reason::UnknownOperator => "unknown operator",
            Reason::UnknownPartition => "unknown partition",
            Reason::BadConstant => "bad constant",
            Reason::AllTooLarge => "all too large",
            Reason::WrongSort => "wrong sort",
            Reason::LabelSort => "label sort",
            Reason::NotGround => "not ground",
            Reason::NoValue => "no value",
        }
    }

    /// The place of the reason among all, from 1 to 30.
    pub fn number(&self) -> u8
        ensures { result ≡ number_of self.now }
    {
        *self as u8 + 1
    }

    /// The phase in which the reason is looked for: 1 is the shape, 2 ids and links, 3 sorts and 4
    /// typing.
    pub fn phase(&self) -> u8
        ensures { result ≡ phase_of self.now }
    {
        match self.number() {
            0..=12 => 1,
            13..=16 => 2,
            17..=21 => 3,
            _ => 4,
        }
    }
}
