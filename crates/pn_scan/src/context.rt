//! What is under way between two bytes.

ghost use Rattle.std.specs.Prelude.{◌≡◌, ◌+◌, ◌≤◌, length, drop};
ghost use Rattle.pn_scan.specs.Contexts.{bytes_of};

use std::alloc::Global;

/// How many brackets a run ends in, two at most.
#[derive(Clone, Copy)]
pub(crate) enum Brackets {
    Zero,
    One,
    Two,
}

/// A part of an XML declaration.
#[derive(Clone, Copy)]
pub(crate) enum Part {
    Version,
    Encoding,
    Standalone,
}

/// Which parts of an XML declaration may still come: all from the version on, those behind the
/// version, the last, none.
#[derive(Clone, Copy)]
pub(crate) enum Stage {
    All,
    FromEncoding,
    FromStandalone,
    Nothing,
}

/// What a reference stands in: content, or the value of an attribute in these quotes.
#[derive(Clone, Copy)]
pub(crate) enum Holder {
    Content,
    Value { quote: u8 },
}

/// The bytes that have to follow one that tells which they are.
#[derive(Clone, Copy)]
pub(crate) enum Word {
    /// The `>` that ends a tag, a comment, an instruction or the declaration.
    End,
    /// The second `-` of `<!--`.
    Dash,
    /// A byte order mark behind its first byte.
    Mark,
    /// `CDATA[`.
    Section,
    /// `version` behind its first byte.
    Version,
    /// `encoding` behind its first byte.
    Encoding,
    /// `standalone` behind its first byte.
    Standalone,
}

impl Word {
    fn bytes(self) -> &'static [u8]
        ensures { result.now ≡ bytes_of self }
    {
        match self {
            Word::End => b">",
            Word::Dash => b"-",
            Word::Mark => b"\xBB\xBF",
            Word::Section => b"CDATA[",
            Word::Version => b"ersion",
            Word::Encoding => b"ncoding",
            Word::Standalone => b"tandalone",
        }
    }

    /// Its bytes behind so many of them.
    pub(crate) fn left(self, read: usize) -> &'static [u8]
        ensures left { result.now ≡ drop read (bytes_of self) }
        ensures fits { read + length result.now ≤ usize.MAX }
    {
        let bytes = self.bytes();
        if bytes.len() <= read {
            return b"";
        }
        &bytes[read..]
    }
}

/// What follows bytes that are due.
#[derive(Clone, Copy)]
pub(crate) enum Then {
    /// The document begins, behind a byte order mark.
    First,
    /// The next piece of content.
    Between,
    /// The text of a CDATA section.
    Section,
    /// The text of a comment.
    Comment,
    /// The `=` of a part of the declaration.
    BeforeEquals(Part),
}

/// What is under way. What was read of it stands in `Kept`.
#[derive(Clone, Copy)]
pub(crate) enum Context {
    /// Nothing was read.
    Start,
    /// A byte order mark was read.
    First,
    /// Between two pieces of content.
    Between,
    /// A run of characters: the brackets that it ends in, whether in CR.
    Run {
        brackets: Brackets,
        cr: bool,
    },
    /// Behind a `<` at this offset; `first` where it may begin a declaration.
    Markup {
        first: bool,
        begin: u64,
    },
    /// Behind `<!`.
    Bang,
    /// A comment; whether behind a `-`.
    Comment {
        dash: bool,
    },
    /// The name of a processing instruction, or of what may be a declaration.
    Target {
        first: bool,
    },
    /// The text of a processing instruction; whether behind a `?`.
    Instruction {
        question: bool,
    },
    /// A CDATA section: the brackets that it ends in, which its text is without, whether in CR.
    Section {
        brackets: Brackets,
        cr: bool,
    },
    /// The name of a tag, whose `<` has this offset.
    Name {
        begin: u64,
    },
    /// A tag behind its name or an attribute; whether behind white space.
    Tag {
        spaced: bool,
    },
    /// The name of an attribute.
    Attribute,
    /// Behind the name of an attribute.
    BeforeEquals,
    /// Behind the `=` of an attribute.
    BehindEquals,
    /// The value of an attribute in these quotes, and whether it ends in CR.
    Value {
        quote: u8,
        cr: bool,
    },
    /// Behind `&`.
    Reference {
        holder: Holder,
    },
    /// The name of an entity.
    Entity {
        holder: Holder,
    },
    /// Behind `&#`.
    NumberSign {
        holder: Holder,
    },
    /// A number to a base; `any` where a digit was read.
    Number {
        holder: Holder,
        base: u32,
        number: u32,
        any: bool,
    },
    /// A word is due, behind so many bytes of it.
    Due {
        word: Word,
        read: usize,
        then: Then,
    },
    /// In an end tag, behind so many bytes of its name.
    EndName {
        read: usize,
    },
    /// The declaration; whether behind white space.
    Declaration {
        stage: Stage,
        spaced: bool,
    },
    /// Behind the word of a part.
    BeforePartEquals {
        part: Part,
    },
    /// Behind the `=` of a part.
    BehindPartEquals {
        part: Part,
    },
    /// The value of a part in these quotes.
    PartValue {
        part: Part,
        quote: u8,
    },
}

/// What was read of what is under way, in buffers that are used again: the name of a tag, an
/// attribute or an instruction, what a text or a value stands for so far, and the name of an
/// entity.
#[derive(Drop)]
pub(crate) struct Kept {
    pub(crate) name: Vec<u8>,
    pub(crate) text: Vec<u8>,
    pub(crate) entity: Vec<u8>,
}

impl Kept {
    /// Nothing was read yet. Takes no memory.
    pub(crate) fn new(alloc: Global) -> Kept {
        Kept {
            name: Vec::new(alloc),
            text: Vec::new(alloc),
            entity: Vec::new(alloc),
        }
    }
}
