//! The ids of a document, and what each of them names.

ghost use Rattle.std.specs.Prelude.{◌≡◌, ℕ, ◌++◌, ◌∷◌, [], List, OnOk, Some, Option, IfOk, if◌then◌else◌};
ghost use Rattle.std.specs.Str.{bytes_eq};
ghost use Rattle.pn_faults.specs.declared.fault.Fault.{Fault};
ghost use Rattle.pn_net.specs.Ids.{IdHolder};
ghost use Rattle.pn_pages.specs.Naming.{AreNamed, FindsNode, Shows, told_by, comes_earlier, earlier, is_no_node};
ghost use Rattle.pn_pages.specs.declared.numbered.Objects.{Objects};

use indexmap::IndexMap;
use pn_faults::{Fault, Reason, keep_least_at};
use std::alloc::{AllocError, Global};

/// What has an id: a node by its number, or something that is none.
#[derive(Clone, Copy)]
pub(crate) enum Node {
    Place(usize),
    Transition(usize),
    Reference(usize),
    Other,
}

/// The first element that has an id.
#[derive(Clone, Copy)]
pub(crate) struct First {
    pub(crate) at: u64,
    pub(crate) node: Node,
}

/// What each id names: the first that has it, by the offsets. Of two at one offset, which no
/// document has, it is a node where one of them is. The ids are borrowed.
#[derive(Drop)]
pub(crate) struct Names<'a> {
    pub(crate) index: IndexMap<&'a str, First>,
}

impl<'a> Names<'a> {
    /// What an id names. It takes no memory.
    pub(crate) fn find(&self, id: &str) -> Option<Node>
        ensures { (o : Objects) (hs : List IdHolder) (least : Option Fault) → AreNamed o hs (told_by self.now) least → FindsNode o hs id.now result }
    {
        match self.first(id) {
            Some(first) => Some(first.node),
            None => None,
        }
    }

    /// Notes one more that has an id, and the fault where another has it.
    pub(crate) fn note(
        &mut self,
        alloc: Global,
        id: &'a str,
        at: u64,
        node: Node,
        least: &mut Option<Fault>,
    ) -> Result<(), AllocError>
        ensures { OnOk result ((o : Objects) (hs : List IdHolder) (h : IdHolder) → h.id ≡ id.now → h.at ≡ at → Shows o node h
            → AreNamed o hs (told_by self.old) least.old → AreNamed o (hs ++ h ∷ []) (told_by self.new) least.new) }
    {
        match self.put(id, First { at, node })? {
            Some(kept) => {
                self.keep_earlier(id, First { at, node }, kept)?;
                keep_least_at(least, alloc, Reason::DuplicateId, at.max(kept.at), id)
            }
            None => Ok(()),
        }
    }

    /// Keeps the earlier of the one that was noted last and of what the id named before.
    fn keep_earlier(&mut self, id: &'a str, one: First, kept: First) -> Result<(), AllocError>
        requires { told_by self.old id.now ≡ Some one }
        ensures { OnOk result ((q : List ℕ) → told_by self.new q ≡ (if bytes_eq id.now q then Some (earlier one kept) else told_by self.old q)) }
    {
        if !is_earlier(one, kept) {
            self.put(id, kept)?;
        }
        Ok(())
    }

    /// The first that has an id, where there is one.
    fn first(&self, id: &str) -> Option<First>
        ensures { result ≡ told_by self.now id.now }
    {
        self.index.get(id).copied()
    }

    /// Notes what an id names, and answers what it named before.
    fn put(&mut self, id: &'a str, first: First) -> Result<Option<First>, AllocError>
        ensures put { OnOk result ((q : List ℕ) → told_by self.new q ≡ (if bytes_eq id.now q then Some first else told_by self.old q)) }
        ensures before { IfOk result (λ before. before ≡ told_by self.old id.now) }
    {
        Ok(self.index.insert(id, first)?)
    }
}

/// Whether the one stands before the other: at a lower offset, or as a node at the same.
fn is_earlier(one: First, kept: First) -> bool
    ensures { result ≡ comes_earlier one kept }
{
    one.at < kept.at || (one.at == kept.at && is_other(kept.node))
}

/// Whether it is no node.
fn is_other(node: Node) -> bool
    ensures { result ≡ is_no_node node }
{
    match node {
        Node::Other => true,
        _ => false,
    }
}
