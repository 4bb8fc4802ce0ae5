ghost use Rattle.std.specs.Prelude.{◌≡◌, IfOk};

use pn_text::Text;
use sqlite_items::{Boxed, Items};
use std::alloc::{AllocError, Global};

/// A sort as a document writes it.
#[derive(Debug, Drop)]
#[cycle(sort_expr)]
pub struct SortExpr {
    /// The offset of the start tag of its element.
    pub at: u64,
    pub node: SortNode,
}

/// What a sort element says. `User` names a `namedsort` or a `partition`.
#[derive(Debug, Drop)]
#[cycle(sort_expr)]
pub enum SortNode {
    Dot,
    Bool,
    Range { start: i64, end: i64 },
    Product(Items<SortExpr>),
    User(Text),
    Integer,
    Natural,
    Positive,
    Text,
    List(Boxed<SortExpr>),
}

impl SortExpr {
    /// The same expression, in memory of its own. The recursion goes by the depth of the expression.
    #[cycle(copy)]
    pub fn copy(&self, alloc: Global) -> Result<SortExpr, AllocError>
        ensures { IfOk result (λ expr. expr ≡ self.now) }
    {
        Ok(SortExpr {
            at: self.at,
            node: self.node.copy(alloc)?,
        })
    }
}

impl SortNode {
    /// The same, in memory of its own.
    #[cycle(copy)]
    pub fn copy(&self, alloc: Global) -> Result<SortNode, AllocError>
        ensures { IfOk result (λ node. node ≡ self.now) }
    {
        match self {
            SortNode::Dot => Ok(SortNode::Dot),
            SortNode::Bool => Ok(SortNode::Bool),
            SortNode::Range { start, end } => Ok(SortNode::Range {
                start: *start,
                end: *end,
            }),
            SortNode::Product(parts) => Ok(SortNode::Product(copy_all(alloc, parts.as_slice())?)),
            SortNode::User(name) => Ok(SortNode::User(name.copy(alloc)?)),
            SortNode::Integer => Ok(SortNode::Integer),
            SortNode::Natural => Ok(SortNode::Natural),
            SortNode::Positive => Ok(SortNode::Positive),
            SortNode::Text => Ok(SortNode::Text),
            SortNode::List(item) => Ok(SortNode::List(Boxed::new(alloc, item.get().copy(alloc)?)?)),
        }
    }
}

#[cycle(copy)]
fn copy_all(alloc: Global, exprs: &[SortExpr]) -> Result<Items<SortExpr>, AllocError>
    ensures { IfOk result (λ all. all ≡ exprs.now) }
{
    let mut all = Items::new(alloc);
    for expr in exprs {
        all.push(expr.copy(alloc)?)?;
    }
    Ok(all)
}
