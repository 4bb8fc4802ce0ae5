//! How a sort is written.

ghost use Rattle.std.specs.Prelude.{◌≡◌, ◌<◌, length, map, true, IfOk};
ghost use Rattle.std.specs.List.{list_all};
ghost use Rattle.pn_resolve.specs.Naming.{NamesDeclared, names_declared};
ghost use Rattle.pn_syntax.specs.declared.sort_expr.SortNode.TheVariants as written;
ghost use Rattle.pn_marked.specs.Ground.{declared_id, sort_of_node, sort_written};

use pn_sorts::{Decls, Sort, SortExpr, SortNode};
use pn_text::Text;
use sqlite_items::{Boxed, Items};
use std::alloc::{AllocError, Global};

/// What is written of a sort; an enumeration or a partition is named by its declaration. The
/// recursion goes by the depth of the sort.
#[cycle(node_written)]
pub(crate) fn node_written(
    alloc: Global,
    decls: &Decls,
    sort: &Sort,
) -> Result<SortNode, AllocError>
    requires { NamesDeclared decls.now sort.now }
    ensures { IfOk result (λ node. sort_of_node node ≡ sort_written decls.now sort.now) }
{
    match sort {
        Sort::Dot => Ok(SortNode::Dot),
        Sort::Bool => Ok(SortNode::Bool),
        Sort::Enumeration(place) => name_of(alloc, decls, *place),
        Sort::Partition(place) => name_of(alloc, decls, *place),
        Sort::Range { start, end } => Ok(SortNode::Range {
            start: *start,
            end: *end,
        }),
        Sort::Product(parts) => Ok(SortNode::Product(all_written(alloc, decls, parts.as_slice())?)),
        Sort::Integer => Ok(SortNode::Integer),
        Sort::Natural => Ok(SortNode::Natural),
        Sort::Positive => Ok(SortNode::Positive),
        Sort::Text => Ok(SortNode::Text),
        Sort::List(item) => {
            let node = node_written(alloc, decls, item.get())?;
            Ok(SortNode::List(Boxed::new(alloc, SortExpr { at: 0, node })?))
        }
    }
}

/// The name of a declaration, as a sort.
fn name_of(alloc: Global, decls: &Decls, place: u32) -> Result<SortNode, AllocError>
    requires { place < length decls.now }
    ensures { IfOk result (λ node. node ≡ written.User (declared_id decls.now place)) }
{
    Ok(SortNode::User(Text::from_str(alloc, decls.declaration_id(place))?))
}

#[cycle(node_written)]
fn all_written(alloc: Global, decls: &Decls, sorts: &[Sort]) -> Result<Items<SortExpr>, AllocError>
    requires { list_all (names_declared decls.now) sorts.now ≡ true }
    ensures { IfOk result (λ all. all ≡ map (sort_written decls.now) sorts.now) }
{
    let mut all = Items::new(alloc);
    for sort in sorts {
        let node = node_written(alloc, decls, sort)?;
        all.push(SortExpr { at: 0, node })?;
    }
    Ok(all)
}
