//! Names that are kept one behind the other, in one buffer.

ghost use Rattle.std.specs.Prelude.{◌≡◌, ◌∷◌, ◌++◌, ◌<◌, ◌≤◌, ◌-◌, ℕ, List, [], true, false, length, take, drop, is_some, slice_get, OnOk, IfSome, if◌then◌else◌};
ghost use Rattle.std.specs.List.{list_any};
ghost use Rattle.std.specs.Option.{option_map, unwrap_or};
ghost use Rattle.pn_text.specs.Characters.{is_text};
ghost use Rattle.std.specs.Str.{bytes_eq};
ghost use Rattle.indexmap.specs.IndexSet.{contains_text};
ghost use Rattle.pn_tree.specs.Elements.{attr_value};
ghost use Rattle.pn_tree.specs.Building.{with_attr};
ghost use Rattle.pn_tree.specs.declared.element.Attr.{Attr};
ghost use Rattle.pn_tree.specs.declared.element.Element.{Element};
ghost use Rattle.pn_scan.specs.Names.{AreNames, Holds, AreNoted};

use crate::open_tree::as_text;
use indexmap::IndexSet;
use std::alloc::{AllocError, Global};

/// Where a name stands in the buffer.
#[derive(Clone, Copy)]
pub(crate) struct Span {
    pub(crate) start: usize,
    pub(crate) end: usize,
}

/// Names in one buffer. Contracts see their list.
#[derive(Drop)]
pub(crate) struct Names {
    bytes: Vec<u8>,
    spans: Vec<Span>,
}

fn span_at(spans: &[Span], index: usize) -> Option<Span>
    ensures value { result ≡ slice_get spans.now index }
    ensures within { IfSome result (λ _. index < usize.MAX) }
{
    if index < spans.len() {
        return Some(spans[index]);
    }
    None
}

/// Whether this name stands here.
fn is_here(bytes: &[u8], span: Span, name: &[u8]) -> bool
    requires ordered { span.start ≤ span.end }
    requires within { span.end ≤ length bytes.now }
    ensures { result ≡ bytes_eq (take (span.end - span.start) (drop span.start bytes.now)) name.now }
{
    &bytes[span.start..span.end] == name
}

/// Whether this name is one of those in a buffer.
fn is_among(bytes: &[u8], spans: &[Span], name: &[u8]) -> bool
    requires { (names : List (List ℕ)) × AreNames names bytes.now spans.now }
    ensures { (names : List (List ℕ)) → AreNames names bytes.now spans.now → result ≡ list_any (λ n. bytes_eq n name.now) names }
{
    let mut index = 0;
    while let Some(span) = span_at(spans, index) {
        if is_here(bytes, span, name) {
            return true;
        }
        index += 1;
    }
    false
}

impl Names {
    /// No names. Takes no memory.
    pub(crate) fn new(alloc: Global) -> Names
        ensures { Holds [] result }
    {
        Names {
            bytes: Vec::new(alloc),
            spans: Vec::new(alloc),
        }
    }

    pub(crate) fn len(&self) -> usize
        ensures { (names : List (List ℕ)) → Holds names self.now → result ≡ length names }
    {
        self.spans.len()
    }

    /// Drops all names, and keeps the memory.
    pub(crate) fn clear(&mut self)
        ensures { Holds [] self.new }
    {
        self.bytes.clear();
        self.spans.clear();
    }

    /// Puts a name behind the others.
    pub(crate) fn push(&mut self, name: &[u8]) -> Result<(), AllocError>
        ensures { OnOk result ((names : List (List ℕ)) → Holds names self.old → Holds (names ++ name.now ∷ []) self.new) }
    {
        let start = self.bytes.len();
        self.bytes.extend_from_slice(name)?;
        let end = self.bytes.len();
        self.spans.push(Span { start, end })?;
        Ok(())
    }

    /// Drops the last name.
    pub(crate) fn pop(&mut self)
        ensures { (names : List (List ℕ)) (last : List ℕ) → Holds (names ++ last ∷ []) self.old → Holds names self.new }
    {
        if let Some(last) = self.spans.pop() {
            self.bytes.truncate(last.start);
        }
    }

    /// The last name.
    pub(crate) fn last(&self) -> &[u8]
        requires { (names : List (List ℕ)) × (last : List ℕ) × Holds (names ++ last ∷ []) self.now }
        ensures { (names : List (List ℕ)) (last : List ℕ) → Holds (names ++ last ∷ []) self.now → result.now ≡ last }
    {
        match self.spans.last() {
            Some(last) => &self.bytes[last.start..],
            None => unreachable!(),
        }
    }

    /// Whether this name is one of them. Compares it with each.
    pub(crate) fn contains(&self, name: &[u8]) -> bool
        requires { (names : List (List ℕ)) × Holds names self.now }
        ensures { (names : List (List ℕ)) → Holds names self.now → result ≡ list_any (λ n. bytes_eq n name.now) names }
    {
        is_among(&self.bytes, &self.spans, name)
    }
}

/// Puts a name into a set.
fn put_name(alloc: Global, names: &mut IndexSet<String>, name: &str) -> Result<(), AllocError>
    ensures { OnOk result ((q : List ℕ)
        → contains_text names.new q ≡ (if bytes_eq name.now q then true else contains_text names.old q)) }
{
    names.insert(String::from_str(alloc, name)?)?;
    Ok(())
}

/// Puts a name into a set, which is made where there is none yet.
fn note_name(
    alloc: Global,
    names: &mut Option<IndexSet<String>>,
    name: &str,
) -> Result<(), AllocError>
    ensures { OnOk result ((q : List ℕ)
        → unwrap_or (option_map (λ s. contains_text s q) names.new) false
        ≡ (if bytes_eq name.now q then true else unwrap_or (option_map (λ s. contains_text s q) names.old) false)) }
{
    let mut set = match names.take() {
        Some(set) => set,
        None => IndexSet::new(alloc),
    };
    put_name(alloc, &mut set, name)?;
    *names = Some(set);
    Ok(())
}

/// The names of the attributes of one element: the first dozen in a list, and only where there are
/// more the others in a set.
#[derive(Drop)]
pub(crate) struct AttributeNames {
    alloc: Global,
    first: Names,
    others: Option<IndexSet<String>>,
}

impl AttributeNames {
    /// Those of an element without attributes. Takes no memory.
    pub(crate) fn new(alloc: Global) -> AttributeNames
        ensures { AreNoted result [] }
    {
        AttributeNames {
            alloc,
            first: Names::new(alloc),
            others: None,
        }
    }

    /// Those of the next element. Takes no memory.
    pub(crate) fn clear(&mut self)
        ensures { AreNoted self.new [] }
    {
        self.first.clear();
        self.others = None;
    }

    /// Notes the name of one more attribute.
    pub(crate) fn insert(&mut self, name: &str) -> Result<(), AllocError>
        ensures { OnOk result ((e : Element) (value : List ℕ)
            → AreNoted self.old e.attrs → AreNoted self.new (with_attr name.now value e).attrs) }
    {
        if self.first.len() < 12 {
            return self.first.push(name.as_bytes());
        }
        note_name(self.alloc, &mut self.others, name)
    }

    /// Whether an attribute has this name.
    pub(crate) fn contains(&self, name: &[u8]) -> bool
        requires noted { (given : List Attr) × AreNoted self.now given }
        requires text { is_text name.now ≡ true }
        ensures { (given : List Attr) → AreNoted self.now given → result ≡ is_some (attr_value name.now given) }
    {
        if self.first.contains(name) {
            return true;
        }
        match &self.others {
            Some(others) => others.contains(as_text(name)),
            None => false,
        }
    }
}
