ghost use Rattle.std.specs.Prelude.{◌≡◌, ◌<◌, ◌+◌, ◌-◌, ◌≤◌, ◌^◌, length, IfOk};
ghost use Rattle.pn_tree.specs.Tables.{cut, HasGrown, IsTextIn, IsPut};

use crate::nodes::Nodes;
use crate::slots::Slots;
use std::alloc::AllocError;

/// A part of a table: from the place `start` on, up to the place `end` and without it.
#[derive(Clone, Copy, Debug)]
pub(crate) struct Span {
    pub(crate) start: u32,
    pub(crate) end: u32,
}

impl Span {
    /// The number of places.
    pub(crate) fn len(self) -> usize
        requires { self.start ≤ self.end }
        ensures { result ≡ self.end - self.start }
    {
        (self.end - self.start) as usize
    }

    /// The place with this number.
    pub(crate) fn place(self, i: usize) -> usize
        requires { self.start + i < self.end }
        ensures { result ≡ self.start + i }
    {
        self.start as usize + i
    }
}

/// Where the bytes of an attribute stand.
#[derive(Clone, Copy, Debug)]
pub(crate) struct Pair {
    pub(crate) name: Span,
    pub(crate) value: Span,
}

/// A kid: the place of an element's node, or where the bytes of a text stand.
#[derive(Clone, Copy, Debug)]
pub(crate) enum Slot {
    Element(u32),
    Text(Span),
}

/// An element: where its name, its attributes and its kids stand, and the offset of its start tag.
#[derive(Clone, Copy, Debug)]
pub(crate) struct Node {
    pub(crate) name: Span,
    pub(crate) at: u32,
    pub(crate) attrs: Span,
    pub(crate) kids: Span,
}

/// What the elements of a tree are made of, each kind in one table. An element's node comes behind
/// the nodes of its kids, and its kids stand side by side.
#[derive(Debug, Drop)]
pub(crate) struct Tables {
    pub(crate) bytes: Vec<u8>,
    pub(crate) attrs: Vec<Pair>,
    pub(crate) kids: Slots,
    pub(crate) nodes: Nodes,
}

/// A length as a place in a table.
pub(crate) fn fit(len: usize) -> Result<u32, AllocError>
    ensures { IfOk result (λ n. n ≡ len) }
{
    match u32::try_from(len) {
        Ok(place) => Ok(place),
        Err(_) => Err(AllocError),
    }
}

/// An offset as a node keeps it.
pub(crate) fn fit_offset(at: u64) -> Result<u32, AllocError>
    ensures { IfOk result (λ n. n ≡ at) }
{
    match u32::try_from(at) {
        Ok(offset) => Ok(offset),
        Err(_) => Err(AllocError),
    }
}

/// The sum of two lengths, where a table can have so many places.
pub(crate) fn fit_both(first: usize, second: usize) -> Result<usize, AllocError>
    ensures { IfOk result (λ n. (n ≡ first + second) × (n < 2 ^ 32)) }
{
    let sum = fit(first)? as usize + fit(second)? as usize;
    fit(sum)?;
    Ok(sum)
}

/// Puts a text behind the bytes.
pub(crate) fn put_text(bytes: &mut Vec<u8>, text: &str) -> Result<Span, AllocError>
    ensures grown { HasGrown bytes.old.items bytes.new.items }
    ensures put { IfOk result (IsPut bytes.old.items bytes.new.items text.now) }
{
    let start = fit(bytes.len())?;
    bytes.extend_from_slice(text.as_bytes())?;
    let end = fit(bytes.len())?;
    Ok(Span { start, end })
}

/// The text that stands there.
pub(crate) fn text_at(bytes: &[u8], span: Span) -> &str
    requires { IsTextIn bytes.now span }
    ensures { result.now ≡ cut span bytes.now }
{
    let text = &bytes[span.start as usize..span.end as usize];
    // The condition says that these bytes are UTF-8.
    unsafe { str::from_utf8_unchecked(text) }
}
