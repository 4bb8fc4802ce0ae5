//! The sort of a term, or its least fault.

ghost use Rattle.std.specs.Prelude.{◌≡◌, None, Some, Err, IfOk};
ghost use Rattle.std.specs.List.{Contains};
ghost use Rattle.pn_faults.specs.declared.fault.Fault.{Fault};
ghost use Rattle.pn_faults.specs.declared.fault.Refusal.{Refusal};
ghost use Rattle.pn_faults.specs.Standing.{IsLeastOf};
ghost use Rattle.pn_faults.specs.Walks.{IsWalked, StandsInSome};
ghost use Rattle.pn_sorts.specs.Standing.{IsFaultless};
ghost use Rattle.pn_terms.specs.Sorts.{HasSort, HaveSorts};
ghost use Rattle.pn_terms.specs.Standing.{HasSoundSorts, StandsIn};
ghost use Rattle.pn_syntax.specs.declared.term.Term.{Term};

use crate::nodes::{
    all, applied, constant, element, empty, empty_list, keep_partition, number, range, text,
    variable,
};
use crate::{Term, TermNode, TermSort};
use pn_sorts::{Decls, Fault, Refusal, Sort};
use sqlite_items::Items;
use std::alloc::{AllocError, Global};

/// The sort of a term (ISO/IEC 15909-2, terms), in which natural and positive numbers are integers.
///
/// Else the answer is the least fault in it: an unknown variable, operator or partition, a bad
/// constant, an `all` that is too large, or a wrong sort. A term with a wrong number of arguments has
/// a wrong sort. The recursion goes by the height of the term, and the time is linear in the nodes of
/// the term and of the sorts of all terms in it.
pub fn sort_of(alloc: Global, decls: &Decls, term: &Term) -> Result<TermSort, Refusal>
    requires faultless { IsFaultless decls.now }
    requires sound { HasSoundSorts decls.now term.now }
    ensures sort { IfOk result (HasSort decls.now term.now) }
    ensures clean { IfOk result (λ s. IsLeastOf (StandsIn decls.now term.now) None) }
    ensures fault { (f : Fault) → result ≡ Err (Refusal.Fault f) → IsLeastOf (StandsIn decls.now term.now) (Some f) }
{
    let mut least = None;
    let sort = match walk(alloc, decls, term, &mut least) {
        Ok(sort) => sort,
        Err(error) => return Err(Refusal::Memory(error)),
    };
    if let Some(fault) = least {
        return Err(Refusal::Fault(fault));
    }
    match sort {
        Some(sort) => Ok(sort),
        None => unreachable!(),
    }
}

/// The sort of a term, none where a fault stands in it. Keeps the least of its faults and the one so
/// far.
#[cycle(walk)]
fn walk(
    alloc: Global,
    decls: &Decls,
    term: &Term,
    least: &mut Option<Fault>,
) -> Result<Option<TermSort>, AllocError>
    requires faultless { IsFaultless decls.now }
    requires sound { HasSoundSorts decls.now term.now }
    ensures { IfOk result (λ sort. IsWalked (HasSort decls.now term.now) (StandsIn decls.now term.now) sort least.old least.new) }
{
    let at = term.at;
    match &term.node {
        TermNode::Variable(name) => variable(alloc, decls, at, name.as_str(), least),
        TermNode::UserOp(name) => constant(alloc, decls, at, name.as_str(), least),
        TermNode::Bool(_) => Ok(Some(TermSort::Basis(Sort::Bool))),
        TermNode::Number { value, sort } => number(alloc, decls, at, value, *sort, least),
        TermNode::RangeConst { value, start, end } => {
            range(alloc, decls, at, value, start, end, least)
        }
        TermNode::Text(value) => text(alloc, decls, at, value, least),
        TermNode::All(sort) => all(alloc, decls, at, sort, least),
        TermNode::Empty(sort) => Ok(Some(empty(alloc, decls, sort)?)),
        TermNode::EmptyList(sort) => Ok(Some(empty_list(alloc, decls, sort)?)),
        TermNode::PartitionOf { partition, arg } => {
            match walk(alloc, decls, arg.get(), least)? {
                Some(sort) => element(alloc, decls, at, partition.as_str(), &sort, least),
                None => {
                    keep_partition(alloc, decls, at, partition.as_str(), least)?;
                    Ok(None)
                }
            }
        }
        TermNode::Apply { op, args } => {
            match walk_all(alloc, decls, args.as_slice(), least)? {
                Some(sorts) => applied(alloc, decls, at, *op, sorts.as_slice(), least),
                None => Ok(None),
            }
        }
    }
}

/// The sorts of terms, none where a fault stands in one.
#[cycle(walk)]
fn walk_all(
    alloc: Global,
    decls: &Decls,
    terms: &[Term],
    least: &mut Option<Fault>,
) -> Result<Option<Items<TermSort>>, AllocError>
    requires faultless { IsFaultless decls.now }
    requires sound { (e : Term) → Contains terms.now e → HasSoundSorts decls.now e }
    ensures { IfOk result (λ sorts. IsWalked (HaveSorts decls.now terms.now) (StandsInSome (StandsIn decls.now) terms.now) sorts least.old least.new) }
{
    let mut sorts = Items::new(alloc);
    let mut is_whole = true;
    for term in terms {
        match walk(alloc, decls, term, least)? {
            Some(sort) => sorts.push(sort)?,
            None => is_whole = false,
        }
    }
    if is_whole {
        return Ok(Some(sorts));
    }
    Ok(None)
}
