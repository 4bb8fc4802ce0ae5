//! The elements of sorts.

ghost use Rattle.std.specs.Prelude.{◌≡◌, OnOk};
ghost use Rattle.pn_tree.specs.Building.{at_innermost, with_kid};
ghost use Rattle.pn_tree.specs.Copies.{with_kids};
ghost use Rattle.pn_tree.specs.declared.element.Child.TheVariants as children;
ghost use Rattle.pn_spelling.specs.Writing.{enclosing, all_kids};
ghost use Rattle.pn_spelling.specs.WriteSorts.{range_element, sort_element};
ghost use Rattle.pn_writer.specs.Giving.{MayTake, MayTakeElement, opened};

use crate::giving::{add_attributed, add_leaf, add_number_attr, begin_number};
use pn_syntax::{SortExpr, SortNode};
use pn_tree::Builder;
use std::alloc::{AllocError, Global};

/// Adds the element of a sort, within the innermost open one, each offset in it 0. The builder takes
/// the memory that is wanted. The recursion goes by the depth of the sort.
pub fn sort_tree(_alloc: Global, expr: &SortExpr, into: &mut Builder) -> Result<(), AllocError>
    requires { MayTakeElement (sort_element expr.now) into.old }
    ensures { OnOk result (into.new ≡ at_innermost (with_kid (children.Element (sort_element expr.now))) into.old) }
{
    add_sort(into, expr)
}

/// Adds the element of a sort.
#[cycle(add_sort)]
pub(crate) fn add_sort(into: &mut Builder, expr: &SortExpr) -> Result<(), AllocError>
    requires { MayTakeElement (sort_element expr.now) into.old }
    ensures { OnOk result (into.new ≡ at_innermost (with_kid (children.Element (sort_element expr.now))) into.old) }
{
    match &expr.node {
        SortNode::Dot => add_leaf(into, "dot"),
        SortNode::Bool => add_leaf(into, "bool"),
        SortNode::Range { start, end } => add_range(into, start, end),
        SortNode::Product(parts) => {
            into.begin("productsort", 0)?;
            add_sorts(into, parts.as_slice())?;
            into.end();
            Ok(())
        }
        SortNode::User(name) => add_attributed(into, "usersort", "declaration", name.as_str()),
        SortNode::Integer => add_leaf(into, "integer"),
        SortNode::Natural => add_leaf(into, "natural"),
        SortNode::Positive => add_leaf(into, "positive"),
        SortNode::Text => add_leaf(into, "string"),
        SortNode::List(item) => {
            into.begin("list", 0)?;
            add_sort(into, item.get())?;
            into.end();
            Ok(())
        }
    }
}

/// Adds the elements of sorts in their order.
#[cycle(add_sort)]
fn add_sorts(into: &mut Builder, parts: &[SortExpr]) -> Result<(), AllocError>
    requires { MayTake (all_kids sort_element parts.now) into.old }
    ensures { OnOk result (into.new ≡ at_innermost (with_kids (all_kids sort_element parts.now)) into.old) }
{
    for part in parts {
        add_sort(into, part)?;
    }
    Ok(())
}

/// Adds an element that has one sort in it.
pub(crate) fn add_sort_in(into: &mut Builder, name: &str, expr: &SortExpr) -> Result<(), AllocError>
    requires { MayTakeElement (enclosing name.now (sort_element expr.now)) into.old }
    ensures { OnOk result
        (into.new ≡ at_innermost (with_kid (children.Element (enclosing name.now (sort_element expr.now)))) into.old) }
{
    into.begin(name, 0)?;
    add_sort(into, expr)?;
    into.end();
    Ok(())
}

/// Adds a range of whole numbers.
pub(crate) fn add_range(into: &mut Builder, start: &i64, end: &i64) -> Result<(), AllocError>
    requires { MayTakeElement (range_element start.now end.now) into.old }
    ensures { OnOk result (into.new ≡ at_innermost (with_kid (children.Element (range_element start.now end.now))) into.old) }
{
    begin_number(into, "finiteintrange", "start", start)?;
    add_number_attr(into, "end", end)?;
    into.end();
    Ok(())
}
