ghost use Rattle.std.specs.Prelude.{◌≡◌, IfOk};

use crate::SortExpr;
use pn_operators::Op;
use pn_text::Text;
use sqlite_items::{Boxed, Items};
use std::alloc::{AllocError, Global};

/// The sort that a number constant names.
#[derive(Clone, Copy, Debug, PartialEq, Eq)]
pub enum NumberSort {
    Integer,
    Natural,
    Positive,
}

/// A term as a document writes it (ISO/IEC 15909-2, terms).
#[derive(Debug, Drop)]
#[cycle(term)]
pub struct Term {
    /// The offset of the start tag of its element.
    pub at: u64,
    pub node: TermNode,
}

/// What a term says. `Variable` names a variable, `UserOp` a constant or an element of a
/// partition. `Text` is a constant of texts. `All` and `Empty` have the sort whose multisets they
/// are of, `EmptyList` the sort of the items that it might have.
#[derive(Debug, Drop)]
#[cycle(term)]
pub enum TermNode {
    Variable(Text),
    UserOp(Text),
    Bool(bool),
    Number { value: i64, sort: NumberSort },
    RangeConst { value: i64, start: i64, end: i64 },
    Text(Text),
    All(SortExpr),
    Empty(SortExpr),
    EmptyList(SortExpr),
    PartitionOf { partition: Text, arg: Boxed<Term> },
    Apply { op: Op, args: Items<Term> },
}

impl Term {
    /// The same term, in memory of its own. The recursion goes by the height of the term.
    #[cycle(copy)]
    pub fn copy(&self, alloc: Global) -> Result<Term, AllocError>
        ensures { IfOk result (λ term. term ≡ self.now) }
    {
        Ok(Term {
            at: self.at,
            node: self.node.copy(alloc)?,
        })
    }
}

impl TermNode {
    /// The same, in memory of its own.
    #[cycle(copy)]
    pub fn copy(&self, alloc: Global) -> Result<TermNode, AllocError>
        ensures { IfOk result (λ node. node ≡ self.now) }
    {
        match self {
            TermNode::Variable(name) => Ok(TermNode::Variable(name.copy(alloc)?)),
            TermNode::UserOp(name) => Ok(TermNode::UserOp(name.copy(alloc)?)),
            TermNode::Bool(truth) => Ok(TermNode::Bool(*truth)),
            TermNode::Number { value, sort } => Ok(TermNode::Number {
                value: *value,
                sort: *sort,
            }),
            TermNode::RangeConst { value, start, end } => Ok(TermNode::RangeConst {
                value: *value,
                start: *start,
                end: *end,
            }),
            TermNode::Text(text) => Ok(TermNode::Text(text.copy(alloc)?)),
            TermNode::All(sort) => Ok(TermNode::All(sort.copy(alloc)?)),
            TermNode::Empty(sort) => Ok(TermNode::Empty(sort.copy(alloc)?)),
            TermNode::EmptyList(sort) => Ok(TermNode::EmptyList(sort.copy(alloc)?)),
            TermNode::PartitionOf { partition, arg } => Ok(TermNode::PartitionOf {
                partition: partition.copy(alloc)?,
                arg: Boxed::new(alloc, arg.get().copy(alloc)?)?,
            }),
            TermNode::Apply { op, args } => Ok(TermNode::Apply {
                op: *op,
                args: copy_all(alloc, args.as_slice())?,
            }),
        }
    }
}

#[cycle(copy)]
fn copy_all(alloc: Global, terms: &[Term]) -> Result<Items<Term>, AllocError>
    ensures { IfOk result (λ all. all ≡ terms.now) }
{
    let mut all = Items::new(alloc);
    for term in terms {
        all.push(term.copy(alloc)?)?;
    }
    Ok(all)
}
