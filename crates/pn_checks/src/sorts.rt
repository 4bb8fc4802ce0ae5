//! The least fault of sorts in the types of places and in terms.

ghost use Rattle.std.specs.Prelude.{OnOk};
ghost use Rattle.pn_checks.specs.Sorts.{IsEmptyRangeAt, KnowsDeclared, SortsStandIn};
ghost use Rattle.pn_faults.specs.Walks.{KeepsLeast, StandsInSome};
ghost use Rattle.pn_resolve.specs.Standing.{StandsInSort};

use pn_faults::{Fault, Reason, Refusal, keep_least, keep_least_at};
use pn_sorts::Decls;
use pn_syntax::{SortExpr, Term, TermNode};
use std::alloc::{AllocError, Global};

/// Keeps the least fault of the one so far and those of the sorts and of the ranges of constants that
/// a term writes. The recursion goes by the height of the term.
#[cycle(sorts)]
pub(crate) fn keep_sorts(
    alloc: Global,
    decls: &Decls,
    term: &Term,
    least: &mut Option<Fault>,
) -> Result<(), AllocError>
    requires { KnowsDeclared decls.now least.old }
    ensures { OnOk result (KeepsLeast (SortsStandIn decls.now term.now) least.old least.new) }
{
    let at = term.at;
    match &term.node {
        TermNode::RangeConst { start, end, .. } => keep_range(alloc, at, start, end, least),
        TermNode::All(expr) => keep_sort(alloc, decls, expr, least),
        TermNode::Empty(expr) => keep_sort(alloc, decls, expr, least),
        TermNode::EmptyList(expr) => keep_sort(alloc, decls, expr, least),
        TermNode::PartitionOf { arg, .. } => keep_sorts(alloc, decls, arg.get(), least),
        TermNode::Apply { args, .. } => keep_all_sorts(alloc, decls, args.as_slice(), least),
        _ => Ok(()),
    }
}

/// The same of several terms.
#[cycle(sorts)]
fn keep_all_sorts(
    alloc: Global,
    decls: &Decls,
    terms: &[Term],
    least: &mut Option<Fault>,
) -> Result<(), AllocError>
    requires { KnowsDeclared decls.now least.old }
    ensures { OnOk result (KeepsLeast (StandsInSome (SortsStandIn decls.now) terms.now) least.old least.new) }
{
    for term in terms {
        keep_sorts(alloc, decls, term, least)?;
    }
    Ok(())
}

/// The same of one expression.
pub(crate) fn keep_sort(
    alloc: Global,
    decls: &Decls,
    expr: &SortExpr,
    least: &mut Option<Fault>,
) -> Result<(), AllocError>
    requires { KnowsDeclared decls.now least.old }
    ensures { OnOk result (KeepsLeast (StandsInSort decls.now expr.now) least.old least.new) }
{
    match decls.resolve(alloc, expr) {
        Ok(_) => Ok(()),
        Err(Refusal::Memory(error)) => Err(error),
        Err(Refusal::Fault(fault)) => {
            keep_least(least, fault);
            Ok(())
        }
    }
}

/// The same of the range of a constant at this offset.
fn keep_range(
    alloc: Global,
    at: u64,
    start: &i64,
    end: &i64,
    least: &mut Option<Fault>,
) -> Result<(), AllocError>
    ensures { OnOk result (KeepsLeast (IsEmptyRangeAt start.now end.now at) least.old least.new) }
{
    if end < start {
        return keep_least_at(least, alloc, Reason::EmptyRange, at, "finiteintrange");
    }
    Ok(())
}
