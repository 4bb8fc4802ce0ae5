ghost use Rattle.std.specs.Prelude.{◌≡◌, suc, ◌+◌, ◌^◌, ◌<◌, ◌≤◌, ◌++◌, ◌∷◌, [], length, true, None, Some, IfOk, OnOk, OnErr, IsSome, IfSome, MatchOption, vec_len};
ghost use Rattle.pn_text.specs.Characters.{is_name, is_text};
ghost use Rattle.pn_tree.specs.Elements.{attr_value};
ghost use Rattle.pn_tree.specs.Building.{nothing_built, innermost, begun, at_innermost, with_attr, with_text, ended};
ghost use Rattle.pn_tree.specs.Tables.{cut, content, AreWithin, HasGrown, IsTextIn, IsPut};
ghost use Rattle.pn_tree.specs.Frames.{AreSideBySide, HasSpare, IsSite, built};
ghost use Rattle.pn_tree.specs.Changes.{IsNewNode, HasBytes, IsEnclosed, IsPairPut, HasAttr, IsTextAdded, joined_span, IsTextPlaced, IsClosed};
ghost use Rattle.pn_tree.specs.declared.tables.Slot.TheVariants as slots;

use crate::Tree;
use crate::nodes::Nodes;
use crate::slots::Slots;
use crate::store::Store;
use crate::tables::{Node, Pair, Slot, Span, Tables, fit, fit_both, fit_offset, put_text, text_at};
use std::alloc::{AllocError, Global};

/// A tree that is being made: its tables so far, the kids of open elements that are still to be
/// placed, and the open elements, the innermost one apart from those around it. An open element is
/// kept as a node whose kids are among those still to be placed.
#[derive(Debug, Drop)]
pub(crate) struct Site {
    tables: Tables,
    pending: Slots,
    outer: Vec<Node>,
    inner: Option<Node>,
    root: Option<u32>,
}

fn empty_at(place: usize) -> Result<Span, AllocError>
    ensures { IfOk result (λ s. s ≡ record { start = place; end = place }) }
{
    let place = fit(place)?;
    Ok(Span {
        start: place,
        end: place,
    })
}

/// Where the name stands: there already where the last node has the same, or behind the bytes.
fn put_name(tables: &mut Tables, name: &str) -> Result<Span, AllocError>
    requires within { AreWithin (content tables.old) }
    ensures grown { HasBytes (content tables.old) (content tables.new) }
    ensures kids { tables.new.kids ≡ tables.old.kids }
    ensures nodes { tables.new.nodes ≡ tables.old.nodes }
    ensures named { IfOk result (λ s. IsTextIn tables.new.bytes.items s × (cut s tables.new.bytes.items ≡ name.now)) }
{
    if let Some(last) = tables.nodes.last() {
        if text_at(tables.bytes.as_slice(), last.name) == name {
            return Ok(last.name);
        }
    }
    put_text(&mut tables.bytes, name)
}

/// An element that was given nothing yet, where there are so many kids.
fn new_node(tables: &mut Tables, name: &str, at: u64, kids: usize) -> Result<Node, AllocError>
    requires within { AreWithin (content tables.old) }
    ensures grown { HasBytes (content tables.old) (content tables.new) }
    ensures kids { tables.new.kids ≡ tables.old.kids }
    ensures nodes { tables.new.nodes ≡ tables.old.nodes }
    ensures begun { IfOk result (IsNewNode tables.new.bytes.items name.now at (length tables.old.attrs.items) kids) }
{
    let attrs = tables.attrs.len();
    Ok(Node {
        name: put_name(tables, name)?,
        at: fit_offset(at)?,
        attrs: empty_at(attrs)?,
        kids: empty_at(kids)?,
    })
}

/// Puts the innermost open element with those around it, so that a kid of it can be begun.
fn enclose(
    outer: &mut Vec<Node>,
    pending: &mut Slots,
    inner: Option<Node>,
) -> Result<(), AllocError>
    ensures { OnOk result
        (IsEnclosed inner outer.old.items pending.old.items outer.new.items pending.new.items) }
{
    match inner {
        None => {
            outer.clear();
            pending.clear();
        }
        Some(frame) => outer.push(frame)?,
    }
    Ok(())
}

/// Reserves what the ends of two elements more than those in `outer` need.
fn make_room(tables: &mut Tables, pending: &mut Slots, outer: usize) -> Result<(), AllocError>
    ensures tables { content tables.new ≡ content tables.old }
    ensures pending { pending.new.items ≡ pending.old.items }
    ensures room { OnOk result (HasSpare (outer + 2) (outer + 2) tables.new pending.new) }
{
    let more = fit_both(outer, 2)?;
    let places = fit_both(pending.len(), more)?;
    fit_both(tables.kids.len(), places)?;
    fit_both(tables.nodes.len(), more)?;
    pending.reserve(more)?;
    tables.kids.reserve(places)?;
    tables.nodes.reserve(more)
}

/// Puts the bytes of an attribute behind the others.
fn put_pair(bytes: &mut Vec<u8>, name: &str, value: &str) -> Result<Pair, AllocError>
    ensures grown { HasGrown bytes.old.items bytes.new.items }
    ensures put { IfOk result (IsPairPut bytes.old.items bytes.new.items name.now value.now) }
{
    Ok(Pair {
        name: put_text(bytes, name)?,
        value: put_text(bytes, value)?,
    })
}

/// Puts an attribute behind the others, and says how many there are then.
fn put_attr(tables: &mut Tables, name: &str, value: &str) -> Result<u32, AllocError>
    ensures kids { tables.new.kids ≡ tables.old.kids }
    ensures nodes { tables.new.nodes ≡ tables.old.nodes }
    ensures err { OnErr result (HasBytes (content tables.old) (content tables.new)) }
    ensures ok { OnOk result (HasAttr (content tables.old) (content tables.new) name.now value.now) }
    ensures count { IfOk result (λ n. n ≡ length tables.old.attrs.items + 1) }
{
    let count = fit_both(tables.attrs.len(), 1)?;
    let pair = put_pair(&mut tables.bytes, name, value)?;
    tables.attrs.push(pair)?;
    Ok(count as u32)
}

/// The text, from where a text before it begins.
fn joined(last: Option<Span>, text: Span) -> Span
    ensures { result ≡ joined_span last text }
{
    match last {
        Some(last) => Span {
            start: last.start,
            end: text.end,
        },
        None => text,
    }
}

/// Puts a text behind the kids from `start` on, and says how many kids there are then. A text that
/// stands last there goes up to the new one's end, since its bytes are the last ones before it.
fn place_text(pending: &mut Slots, start: u32, text: Span) -> Result<u32, AllocError>
    requires filled { 0 < text.end }
    ensures placed { OnOk result (IsTextPlaced start text pending.old.items pending.new.items) }
    ensures count { IfOk result (λ n. n ≡ length pending.new.items) }
    ensures len { OnOk result (length pending.new.items ≤ length pending.old.items + 1) }
    ensures room { pending.old.capacity ≤ pending.new.capacity }
{
    let last = pending.take_text(start);
    pending.push(Slot::Text(joined(last, text)))?;
    fit(pending.len())
}

/// Puts a text that is not empty behind the kids from `start` on, and says how many kids there are then.
fn add_text(
    tables: &mut Tables,
    pending: &mut Slots,
    outer: usize,
    start: u32,
    text: &str,
) -> Result<u32, AllocError>
    requires some { 0 < length text.now }
    ensures grown { HasBytes (content tables.old) (content tables.new) }
    ensures added { OnOk result (IsTextAdded start (content tables.old) (content tables.new)
        pending.old.items pending.new.items text.now) }
    ensures count { IfOk result (λ n. n ≡ length pending.new.items) }
    ensures room { OnOk result (HasSpare (suc outer) (suc outer) tables.new pending.new) }
{
    let span = put_text(&mut tables.bytes, text)?;
    make_room(tables, pending, outer)?;
    place_text(pending, start, span)
}

/// Begins an element within the innermost one, with room for its end.
fn begin_node(
    tables: &mut Tables,
    pending: &mut Slots,
    outer: &mut Vec<Node>,
    inner: Option<Node>,
    name: &str,
    at: u64,
) -> Result<Node, AllocError>
    requires within { AreWithin (content tables.old) }
    ensures grown { HasBytes (content tables.old) (content tables.new) }
    ensures enclosed { OnOk result
        (IsEnclosed inner outer.old.items pending.old.items outer.new.items pending.new.items) }
    ensures begun { IfOk result (IsNewNode tables.new.bytes.items name.now at
        (length tables.old.attrs.items) (length pending.new.items)) }
    ensures room { OnOk result (HasSpare (suc (vec_len outer.new)) (suc (vec_len outer.new)) tables.new pending.new) }
{
    enclose(outer, pending, inner)?;
    make_room(tables, pending, outer.len())?;
    new_node(tables, name, at, pending.len())
}

/// Moves the kids of an element into the tables, and puts its node behind the others. Takes no memory.
fn close(tables: &mut Tables, pending: &mut Slots, inner: Node, outer: usize) -> u32
    requires ordered { inner.kids.start ≤ length pending.old.items }
    requires room { HasSpare (suc outer) (suc outer) tables.old pending.old }
    ensures closed { IsClosed (content tables.old) (content tables.new) pending.old.items pending.new.items inner }
    ensures place { result ≡ length tables.old.nodes.items }
    ensures room { HasSpare outer (suc outer) tables.new pending.new }
    ensures kid { length pending.new.items < pending.new.capacity }
    ensures fit { length pending.new.items + 1 < 2 ^ 32 }
{
    let start = tables.kids.len() as u32;
    let place = tables.nodes.len() as u32;
    tables.kids.take_from(pending, inner.kids.start as usize);
    let end = tables.kids.len() as u32;
    let kids = Span { start, end };
    tables.nodes.push(Node { kids, ..inner });
    place
}

/// Puts an ended element behind the kids of the one around it. Takes no memory.
fn with_kid(pending: &mut Slots, around: Node, kid: u32) -> Node
    requires room { length pending.old.items < pending.old.capacity }
    requires fit { length pending.old.items + 1 < 2 ^ 32 }
    ensures pending { pending.new.items ≡ pending.old.items ++ (slots.Element kid ∷ []) }
    ensures len { length pending.new.items ≡ length pending.old.items + 1 }
    ensures capacity { pending.old.capacity ≤ pending.new.capacity }
    ensures node { result ≡ record around { kids = record { start = around.kids.start; end = length pending.new.items } } }
{
    if pending.push(Slot::Element(kid)).is_err() {
        unreachable!()
    }
    let kids = Span {
        start: around.kids.start,
        end: pending.len() as u32,
    };
    Node { kids, ..around }
}

impl Site {
    /// Nothing was given yet. Takes no memory.
    pub(crate) fn new(alloc: Global) -> Site
        ensures kept { IsSite result }
        ensures built { built result ≡ nothing_built }
    {
        Site {
            tables: Tables {
                bytes: Vec::new(alloc),
                attrs: Vec::new(alloc),
                kids: Slots::new(alloc),
                nodes: Nodes::new(alloc),
            },
            pending: Slots::new(alloc),
            outer: Vec::new(alloc),
            inner: None,
            root: None,
        }
    }

    /// Begins an element.
    pub(crate) fn begin(&mut self, name: &str, at: u64) -> Result<(), AllocError>
        requires kept { IsSite self.old }
        requires name { is_name name.now ≡ true }
        requires depth { length (built self.old).open_elements < 256 }
        ensures kept { IsSite self.new }
        ensures begun { OnOk result (built self.new ≡ begun name.now at (built self.old)) }
    {
        let inner = self.inner.take();
        let node = begin_node(
            &mut self.tables,
            &mut self.pending,
            &mut self.outer,
            inner,
            name,
            at,
        )?;
        self.inner = Some(node);
        Ok(())
    }

    /// Gives the innermost element an attribute.
    pub(crate) fn attr(&mut self, name: &str, value: &str) -> Result<(), AllocError>
        requires kept { IsSite self.old }
        requires name { is_name name.now ≡ true }
        requires value { is_text value.now ≡ true }
        requires is_open { IsSome (innermost (built self.old)) }
        requires before_kids { IfSome (innermost (built self.old)) (λ e. e.kids ≡ []) }
        requires is_new { IfSome (innermost (built self.old)) (λ e. attr_value name.now e.attrs ≡ None) }
        ensures kept { IsSite self.new }
        ensures given { OnOk result
            (built self.new ≡ at_innermost (with_attr name.now value.now) (built self.old)) }
    {
        if let Some(node) = self.inner.take() {
            let end = put_attr(&mut self.tables, name, value)?;
            let start = node.attrs.start;
            self.inner = Some(Node {
                attrs: Span { start, end },
                ..node
            });
        }
        Ok(())
    }

    /// Gives the innermost element a text.
    pub(crate) fn text(&mut self, text: &str) -> Result<(), AllocError>
        requires kept { IsSite self.old }
        requires text { is_text text.now ≡ true }
        requires is_open { IsSome (innermost (built self.old)) }
        ensures kept { IsSite self.new }
        ensures given { OnOk result
            (built self.new ≡ at_innermost (with_text text.now) (built self.old)) }
    {
        if text.is_empty() {
            return Ok(());
        }
        if let Some(node) = self.inner.take() {
            let start = node.kids.start;
            let outer = self.outer.len();
            let end = add_text(&mut self.tables, &mut self.pending, outer, start, text)?;
            self.inner = Some(Node {
                kids: Span { start, end },
                ..node
            });
        }
        Ok(())
    }

    /// Ends the innermost element. Takes no memory.
    pub(crate) fn end(&mut self)
        requires kept { IsSite self.old }
        requires is_open { IsSome (innermost (built self.old)) }
        ensures kept { IsSite self.new }
        ensures ended { built self.new ≡ ended (built self.old) }
    {
        if let Some(node) = self.inner.take() {
            let place = close(&mut self.tables, &mut self.pending, node, self.outer.len());
            match self.outer.pop() {
                None => self.root = Some(place),
                Some(around) => self.inner = Some(with_kid(&mut self.pending, around, place)),
            }
        }
    }

    /// The tree, once its root is ended. Takes no memory.
    pub(crate) fn into_tree(self) -> Tree
        requires kept { IsSite self }
        requires root { IsSome (built self).root }
        ensures { (built self).root ≡ Some result }
    {
        let Site {
            tables,
            pending: _,
            outer: _,
            inner: _,
            root,
        } = self;
        match root {
            Some(root) => Tree::new(Store::new(tables), root),
            None => unreachable!(),
        }
    }
}
