//! The least fault of typing in the term of a label.

ghost use Rattle.std.specs.Prelude.{◌≡◌, ◌↔◌, List, None, Some, IfOk, IsTrue, OnOk, codes, true, false};
ghost use Rattle.std.specs.List.{Contains};
ghost use Rattle.pn_checks.specs.LabelFaults.{IsExamined, IsTruth, IsVariableIn, LabelStands};
ghost use Rattle.pn_checks.specs.NoValue.{HasNoVariable};
ghost use Rattle.pn_faults.specs.Least.{lower};
ghost use Rattle.pn_faults.specs.Order.{fault_at};
ghost use Rattle.pn_faults.specs.declared.reason.Reason.TheVariants as reasons;
ghost use Rattle.pn_faults.specs.Walks.{IsWalked, KeepsLeast, StandsInSome};
ghost use Rattle.pn_net.specs.Typing.{IsTermOver};
ghost use Rattle.pn_sorts.specs.Standing.{IsFaultless};
ghost use Rattle.pn_syntax.specs.declared.term.Term.{Term};
ghost use Rattle.pn_terms.specs.Sorts.{HasSort};
ghost use Rattle.pn_terms.specs.Standing.{HasSoundSorts, StandsIn};
ghost use Rattle.pn_terms.specs.declared.term_sort.TermSort.{TermSort};

use pn_faults::{Fault, Reason, Refusal, keep_least, keep_least_at};
use pn_sorts::{Decls, Sort};
use pn_syntax::{Term, TermNode};
use pn_terms::{TermSort, sort_of};
use std::alloc::{AllocError, Global};

/// Keeps the least fault of the one so far and those of a condition: its own, and that it has
/// another sort than truth values.
pub(crate) fn keep_condition(
    alloc: Global,
    decls: &Decls,
    term: &Term,
    least: &mut Option<Fault>,
) -> Result<(), AllocError>
    requires faultless { IsFaultless decls.now }
    requires sound { HasSoundSorts decls.now term.now }
    ensures least { OnOk result (KeepsLeast (LabelStands decls.now IsTruth (codes "condition") term.now) least.old least.new) }
    ensures sorted { OnOk result (least.new ≡ None → (s : TermSort) × HasSort decls.now term.now s) }
{
    match keep_term(alloc, decls, term, least)? {
        Some(sort) => keep_unless(alloc, is_truth(&sort), term.at, "condition", least),
        None => Ok(()),
    }
}

/// The same of a term at a place of this sort, in a label of this name: its own, and that it is
/// neither a value of the place's kin nor a multiset of such. Says whether it is.
pub(crate) fn keep_at_place(
    alloc: Global,
    decls: &Decls,
    sort: &Sort,
    label: &str,
    term: &Term,
    least: &mut Option<Fault>,
) -> Result<bool, AllocError>
    requires faultless { IsFaultless decls.now }
    requires sound { HasSoundSorts decls.now term.now }
    ensures { IfOk result (λ is_right. IsExamined ((s : TermSort) × HasSort decls.now term.now s × IsTermOver sort.now s)
        (LabelStands decls.now (IsTermOver sort.now) label.now term.now) is_right least.old least.new) }
{
    match keep_term(alloc, decls, term, least)? {
        Some(given) => {
            let is_right = is_over(alloc, sort, &given)?;
            keep_unless(alloc, is_right, term.at, label, least)?;
            Ok(is_right)
        }
        None => Ok(false),
    }
}

/// The sort of a term, none where a fault stands in it. Keeps the least of its faults and the one so
/// far.
fn keep_term(
    alloc: Global,
    decls: &Decls,
    term: &Term,
    least: &mut Option<Fault>,
) -> Result<Option<TermSort>, AllocError>
    requires faultless { IsFaultless decls.now }
    requires sound { HasSoundSorts decls.now term.now }
    ensures { IfOk result (λ sort. IsWalked (HasSort decls.now term.now) (StandsIn decls.now term.now) sort least.old least.new) }
{
    match sort_of(alloc, decls, term) {
        Ok(sort) => Ok(Some(sort)),
        Err(Refusal::Memory(error)) => Err(error),
        Err(Refusal::Fault(fault)) => {
            keep_least(least, fault);
            Ok(None)
        }
    }
}

/// Keeps that the term at this offset has another sort than its label wants, unless it is right.
fn keep_unless(
    alloc: Global,
    is_right: bool,
    at: u64,
    label: &str,
    least: &mut Option<Fault>,
) -> Result<(), AllocError>
    ensures right { OnOk result (is_right ≡ true → least.new ≡ least.old) }
    ensures wrong { OnOk result (is_right ≡ false → least.new ≡ lower least.old (Some (fault_at reasons.LabelSort at label.now))) }
{
    if is_right {
        return Ok(());
    }
    keep_least_at(least, alloc, Reason::LabelSort, at, label)
}

/// Whether it is the sort of truth values.
fn is_truth(sort: &TermSort) -> bool
    ensures { IsTrue result ↔ IsTruth sort.now }
{
    sort.is_same(&TermSort::Basis(Sort::Bool))
}

/// Whether a sort of a term is the kin of a place's sort, or the multisets over it.
fn is_over(alloc: Global, sort: &Sort, given: &TermSort) -> Result<bool, AllocError>
    ensures { IfOk result (λ is. IsTrue is ↔ IsTermOver sort.now given.now) }
{
    let kin = sort.kin(alloc)?;
    match given {
        TermSort::Basis(own) => Ok(own.is_same(&kin)),
        TermSort::Bag(own) => Ok(own.is_same(&kin)),
    }
}

/// Keeps the least fault of the one so far and that each variable in an initial marking is. Says
/// whether there is none. The recursion goes by the height of the term.
#[cycle(variables)]
pub(crate) fn keep_variables(
    alloc: Global,
    term: &Term,
    least: &mut Option<Fault>,
) -> Result<bool, AllocError>
    ensures { IfOk result (λ is_ground. IsExamined (HasNoVariable term.now) (IsVariableIn term.now) is_ground least.old least.new) }
{
    match &term.node {
        TermNode::Variable(name) => {
            keep_least_at(least, alloc, Reason::NotGround, term.at, name.as_str())?;
            Ok(false)
        }
        TermNode::PartitionOf { arg, .. } => keep_variables(alloc, arg.get(), least),
        TermNode::Apply { args, .. } => keep_all_variables(alloc, args.as_slice(), least),
        _ => Ok(true),
    }
}

/// The same of several terms.
#[cycle(variables)]
fn keep_all_variables(
    alloc: Global,
    terms: &[Term],
    least: &mut Option<Fault>,
) -> Result<bool, AllocError>
    ensures { IfOk result (λ are_ground. IsExamined ((e : Term) → Contains terms.now e → HasNoVariable e) (StandsInSome IsVariableIn terms.now) are_ground least.old least.new) }
{
    let mut are_ground = true;
    for term in terms {
        let is_ground = keep_variables(alloc, term, least)?;
        if !is_ground {
            are_ground = false;
        }
    }
    Ok(are_ground)
}
