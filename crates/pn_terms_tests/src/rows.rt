//! Asks of the term of a row what the row tells.
//!
//! A row is a term in words, and behind ` is ` its sort, or behind ` has ` its fault, as in
//! `wrong sort at 1 of successor`, or behind ` names ` the numbers of the variables in it. A row that
//! is a term alone has a wrong sort at its first operator.

ghost use Rattle.pn_sorts.specs.Standing.{IsFaultless};

use pn_samples::term;
use pn_sorts::{Decls, Fault, Refusal};
use pn_terms::{Term, TermSort, sort_fault, sort_of, variables};
use std::alloc::{AllocError, Global};
use std::process::Abort;

/// What a row tells of its term.
#[derive(Clone, Copy)]
enum Asked {
    Sort,
    Fault,
    Variables,
    WrongSort,
}

/// The sort of terms of these words: a sort, or a `Bag` over one.
fn term_sort(alloc: Global, words: &str) -> Result<TermSort, AllocError> {
    match words.strip_prefix("Bag ") {
        Some(of) => Ok(TermSort::Bag(pn_samples::sort_of(alloc, of)?)),
        None => Ok(TermSort::Basis(pn_samples::sort_of(alloc, words)?)),
    }
}

/// The sort of a term, or the least fault of the sorts in it, or its own.
fn sort_in(alloc: Global, decls: &Decls, term: &Term) -> Result<TermSort, Refusal>
    requires { IsFaultless decls.now }
{
    match sort_fault(alloc, decls, term)? {
        None => sort_of(alloc, decls, term),
        Some(fault) => Err(Refusal::Fault(fault)),
    }
}

fn is_of(alloc: Global, decls: &Decls, term: &Term, sort: &TermSort) -> bool
    requires { IsFaultless decls.now }
{
    match sort_in(alloc, decls, term) {
        Ok(found) => found.is_same(sort),
        Err(_) => false,
    }
}

/// Whether the term has the sort of these words.
fn has_sort(alloc: Global, decls: &Decls, term: &Term, of: &str) -> Result<bool, AllocError>
    requires { IsFaultless decls.now }
{
    let sort = term_sort(alloc, of)?;
    Ok(is_of(alloc, decls, term, &sort))
}

/// Whether a fault has this offset and this detail.
fn is_at(fault: &Fault, place: &str) -> bool {
    match place.split_once(" of ") {
        Some((at, detail)) => at.parse() == Ok(fault.at) && fault.detail.as_str() == detail,
        None => false,
    }
}

/// Whether a fault is the one that is told, whole.
fn is_told(fault: &Fault, told: &str) -> bool {
    match told.split_once(" at ") {
        Some((reason, place)) => fault.reason.words() == reason && is_at(fault, place),
        None => false,
    }
}

/// Whether a fault is a wrong sort at the first word, whole.
fn is_wrong(fault: &Fault, name: &str) -> bool {
    fault.reason.words() == "wrong sort" && fault.at == 0 && fault.detail.as_str() == name
}

/// Whether the term is refused for the fault that is told.
fn is_refused(alloc: Global, decls: &Decls, term: &Term, asked: Asked, told: &str) -> bool
    requires { IsFaultless decls.now }
{
    match sort_in(alloc, decls, term) {
        Err(Refusal::Fault(fault)) => match asked {
            Asked::WrongSort => is_wrong(&fault, told),
            _ => is_told(&fault, told),
        },
        _ => false,
    }
}

fn are_numbers(found: &[u32], numbers: &str) -> bool {
    let mut words = numbers.split(' ');
    for number in found {
        if words.next().and_then(|word| word.parse().ok()) != Some(*number) {
            return false;
        }
    }
    words.next().is_none()
}

/// Whether these are the variables of the term.
fn are_in(alloc: Global, decls: &Decls, term: &Term, numbers: &str) -> Result<bool, AllocError> {
    let found = variables(alloc, decls, term)?;
    Ok(are_numbers(found.as_slice(), numbers))
}

/// Whether these are the variables of a copy of the term.
fn are_in_copy(
    alloc: Global,
    decls: &Decls,
    term: &Term,
    numbers: &str,
) -> Result<bool, AllocError> {
    let copy = term.copy(alloc)?;
    are_in(alloc, decls, &copy, numbers)
}

fn holds(
    alloc: Global,
    decls: &Decls,
    term: &Term,
    asked: Asked,
    told: &str,
) -> Result<bool, AllocError>
    requires { IsFaultless decls.now }
{
    match asked {
        Asked::Sort => has_sort(alloc, decls, term, told),
        Asked::Variables => are_in_copy(alloc, decls, term, told),
        _ => Ok(is_refused(alloc, decls, term, asked, told)),
    }
}

/// Whether of the term of these words holds what is told. No other function owns it.
fn answer(
    alloc: Global,
    decls: &Decls,
    words: &str,
    asked: Asked,
    told: &str,
) -> Result<bool, AllocError>
    requires { IsFaultless decls.now }
{
    let term = term(alloc, words)?;
    holds(alloc, decls, &term, asked, told)
}

/// Whether a row is right.
fn is_right(alloc: Global, decls: &Decls, row: &str) -> Result<bool, AllocError>
    requires { IsFaultless decls.now }
{
    if let Some((words, of)) = row.split_once(" is ") {
        return answer(alloc, decls, words, Asked::Sort, of);
    }
    if let Some((words, fault)) = row.split_once(" has ") {
        return answer(alloc, decls, words, Asked::Fault, fault);
    }
    if let Some((words, numbers)) = row.split_once(" names ") {
        return answer(alloc, decls, words, Asked::Variables, numbers);
    }
    match row.split_once('/') {
        Some((name, _)) => answer(alloc, decls, row, Asked::WrongSort, name),
        None => Ok(false),
    }
}

/// Each of the rows is right.
pub(crate) fn are_right(
    rt: &impl Abort,
    alloc: Global,
    decls: &Decls,
    rows: &str,
) -> Result<(), AllocError>
    requires { IsFaultless decls.now }
{
    for row in rows.lines() {
        assert!(rt; is_right(alloc, decls, row)?);
    }
    Ok(())
}
