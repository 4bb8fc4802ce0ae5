//! The least fault in the sorts that a term writes.

ghost use Rattle.std.specs.Prelude.{◌≡◌, IfOk, OnOk};
ghost use Rattle.pn_faults.specs.Standing.{IsLeastOf};
ghost use Rattle.pn_faults.specs.Walks.{KeepsLeast, StandsInSome};
ghost use Rattle.pn_resolve.specs.Standing.{StandsInSort};
ghost use Rattle.pn_sorts.specs.Standing.{IsFaultless};
ghost use Rattle.pn_terms.specs.Standing.{SortStandsIn};

use crate::{Term, TermNode};
use pn_faults::keep_least;
use pn_sorts::{Decls, Fault, Refusal};
use pn_syntax::SortExpr;
use std::alloc::{AllocError, Global};

/// The least fault in the sorts that a term writes, those of `all`, of `empty` and of `emptylist`: an
/// unknown sort, a sort that is too big or an empty range. Where there is none, `sort_of` can be
/// asked. The recursion goes by the height of the term.
pub fn sort_fault(alloc: Global, decls: &Decls, term: &Term) -> Result<Option<Fault>, AllocError>
    requires { IsFaultless decls.now }
    ensures { IfOk result (IsLeastOf (SortStandsIn decls.now term.now)) }
{
    let mut least = None;
    keep_sorts(alloc, decls, term, &mut least)?;
    Ok(least)
}

/// Keeps the least fault of the one so far and those in the sorts that a term writes.
#[cycle(sound)]
fn keep_sorts(
    alloc: Global,
    decls: &Decls,
    term: &Term,
    least: &mut Option<Fault>,
) -> Result<(), AllocError>
    requires { IsFaultless decls.now }
    ensures { OnOk result (KeepsLeast (SortStandsIn decls.now term.now) least.old least.new) }
{
    match &term.node {
        TermNode::All(expr) => keep_sort(alloc, decls, expr, least),
        TermNode::Empty(expr) => keep_sort(alloc, decls, expr, least),
        TermNode::EmptyList(expr) => keep_sort(alloc, decls, expr, least),
        TermNode::PartitionOf { arg, .. } => keep_sorts(alloc, decls, arg.get(), least),
        TermNode::Apply { args, .. } => keep_all_sorts(alloc, decls, args.as_slice(), least),
        _ => Ok(()),
    }
}

/// The same of several terms.
#[cycle(sound)]
fn keep_all_sorts(
    alloc: Global,
    decls: &Decls,
    terms: &[Term],
    least: &mut Option<Fault>,
) -> Result<(), AllocError>
    requires { IsFaultless decls.now }
    ensures { OnOk result (KeepsLeast (StandsInSome (SortStandsIn decls.now) terms.now) least.old least.new) }
{
    for term in terms {
        keep_sorts(alloc, decls, term, least)?;
    }
    Ok(())
}

/// The same of one expression.
fn keep_sort(
    alloc: Global,
    decls: &Decls,
    expr: &SortExpr,
    least: &mut Option<Fault>,
) -> Result<(), AllocError>
    requires { IsFaultless decls.now }
    ensures { OnOk result (KeepsLeast (StandsInSort decls.now expr.now) least.old least.new) }
{
    match decls.resolve(alloc, expr) {
        Ok(_) => Ok(()),
        Err(Refusal::Memory(error)) => Err(error),
        Err(Refusal::Fault(fault)) => {
            keep_least(least, fault);
            Ok(())
        }
    }
}
