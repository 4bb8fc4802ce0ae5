//! The sort of one node of a term, where those of its parts are known. Each function keeps the fault
//! of the node, where it has one, if it is less than the one so far.

ghost use Rattle.std.specs.Prelude.{◌≡◌, ◌↔◌, ◌⊎◌, ◌∷◌, [], true, IfOk, OnOk, IsSome, IsTrue};
ghost use Rattle.pn_faults.specs.declared.fault.Fault.{Fault};
ghost use Rattle.pn_faults.specs.Walks.{IsTold, KeepsLeast};
ghost use Rattle.pn_resolve.specs.Meaning.{Resolves};
ghost use Rattle.pn_resolve.specs.Standing.{StandsInSort};
ghost use Rattle.pn_sorts.specs.Standing.{IsFaultless};
ghost use Rattle.pn_sorts.specs.Lookups.{IsBaseSort, base_expr};
ghost use Rattle.pn_terms.specs.Sorts.{IsOfAll, IsOfConstant, IsOfElement, IsOfEmpty, IsOfEmptyList, IsOfOperator, IsOfVariable, is_good_number, is_good_text, is_in_range, is_small, number_sort};
ghost use Rattle.pn_terms.specs.Standing.{IsBadNumber, IsBadText, IsOutside, IsTooLarge, IsUnknownOperator, IsUnknownPartition, IsUnknownVariable, IsWrongElement, IsWrongFor};
ghost use Rattle.pn_terms.specs.declared.term_sort.TermSort.{TermSort};
ghost use Rattle.pn_values.specs.declared.sort.Sort.{Sort};

use crate::rules::row_sort;
use crate::{MAX_ALL, NumberSort, TermSort};
use pn_faults::keep_least_at;
use pn_operators::{Op, op_name};
use pn_sorts::{Decls, Fault, Reason, Refusal, Size, Sort, Value};
use pn_syntax::SortExpr;
use pn_text::Text;
use sqlite_items::Boxed;
use std::alloc::{AllocError, Global};

/// A variable has the kin of its sort.
pub(crate) fn variable(
    alloc: Global,
    decls: &Decls,
    at: u64,
    name: &str,
    least: &mut Option<Fault>,
) -> Result<Option<TermSort>, AllocError>
    requires { IsFaultless decls.now }
    ensures { IfOk result (λ o. IsTold (IsOfVariable decls.now name.now) (IsUnknownVariable decls.now name.now at) o least.old least.new) }
{
    match decls.variable(name) {
        Some(v) => Ok(Some(TermSort::Basis(decls.variable_sort(v).kin(alloc)?))),
        None => {
            keep_least_at(least, alloc, Reason::UnknownVariable, at, name)?;
            Ok(None)
        }
    }
}

/// A constant has the enumeration or partition that declares it.
pub(crate) fn constant(
    alloc: Global,
    decls: &Decls,
    at: u64,
    name: &str,
    least: &mut Option<Fault>,
) -> Result<Option<TermSort>, AllocError>
    ensures { IfOk result (λ o. IsTold (IsOfConstant decls.now name.now) (IsUnknownOperator decls.now name.now at) o least.old least.new) }
{
    match decls.constant(name) {
        Some(c) => Ok(Some(TermSort::Basis(decls.constant_sort(c)))),
        None => {
            keep_least_at(least, alloc, Reason::UnknownOperator, at, name)?;
            Ok(None)
        }
    }
}

fn number_sort(sort: NumberSort) -> Sort
    ensures { result ≡ number_sort sort }
{
    match sort {
        NumberSort::Integer => Sort::Integer,
        NumberSort::Natural => Sort::Natural,
        NumberSort::Positive => Sort::Positive,
    }
}

/// A number that is of the sort that it names is an integer.
pub(crate) fn number(
    alloc: Global,
    decls: &Decls,
    at: u64,
    value: &i64,
    sort: NumberSort,
    least: &mut Option<Fault>,
) -> Result<Option<TermSort>, AllocError>
    ensures { IfOk result (λ o. IsTold (λ s. (is_good_number decls.now value.now sort ≡ true) × (s ≡ TermSort.Basis Sort.Integer))
        (IsBadNumber decls.now value.now sort at) o least.old least.new) }
{
    if decls.has_value(&number_sort(sort), &Value::Int(*value)) {
        return Ok(Some(TermSort::Basis(Sort::Integer)));
    }
    keep_least_at(least, alloc, Reason::BadConstant, at, "numberconstant")?;
    Ok(None)
}

/// A number that is in the range that it names has that range.
pub(crate) fn range(
    alloc: Global,
    decls: &Decls,
    at: u64,
    value: &i64,
    start: &i64,
    end: &i64,
    least: &mut Option<Fault>,
) -> Result<Option<TermSort>, AllocError>
    ensures { IfOk result (λ o. IsTold (λ s. (is_in_range decls.now value.now start.now end.now ≡ true) × (s ≡ TermSort.Basis (Sort.Range start.now end.now)))
        (IsOutside decls.now value.now start.now end.now at) o least.old least.new) }
{
    let sort = Sort::Range {
        start: *start,
        end: *end,
    };
    if decls.has_value(&sort, &Value::Int(*value)) {
        return Ok(Some(TermSort::Basis(sort)));
    }
    keep_least_at(
        least,
        alloc,
        Reason::BadConstant,
        at,
        "finiteintrangeconstant",
    )?;
    Ok(None)
}

/// A text of characters that a document may have has the sort of texts.
pub(crate) fn text(
    alloc: Global,
    decls: &Decls,
    at: u64,
    text: &Text,
    least: &mut Option<Fault>,
) -> Result<Option<TermSort>, AllocError>
    ensures { IfOk result (λ o. IsTold (λ s. (is_good_text decls.now text.now ≡ true) × (s ≡ TermSort.Basis Sort.Text))
        (IsBadText decls.now text.now at) o least.old least.new) }
{
    if decls.has_text(text.as_str()) {
        return Ok(Some(TermSort::Basis(Sort::Text)));
    }
    keep_least_at(least, alloc, Reason::BadConstant, at, "stringconstant")?;
    Ok(None)
}

/// The sort of an expression without a fault.
fn resolved(alloc: Global, decls: &Decls, expr: &SortExpr) -> Result<Sort, AllocError>
    requires faultless { IsFaultless decls.now }
    requires sound { (f : Fault) → StandsInSort decls.now expr.now f → ⊥ }
    ensures { IfOk result (Resolves decls.now expr.now) }
{
    match decls.resolve(alloc, expr) {
        Ok(sort) => Ok(sort),
        Err(Refusal::Memory(error)) => Err(error),
        Err(Refusal::Fault(_)) => unreachable!(),
    }
}

/// Whether a sort is finite and has no more values than `all` may take.
fn is_small(decls: &Decls, sort: &Sort) -> bool
    ensures { result ≡ is_small decls.now sort.now }
{
    match decls.size(sort) {
        Size::Finite(size) => size <= MAX_ALL,
        Size::Infinite => false,
    }
}

/// All values of a small sort are a multiset over its kin.
pub(crate) fn all(
    alloc: Global,
    decls: &Decls,
    at: u64,
    expr: &SortExpr,
    least: &mut Option<Fault>,
) -> Result<Option<TermSort>, AllocError>
    requires faultless { IsFaultless decls.now }
    requires sound { (f : Fault) → StandsInSort decls.now expr.now f → ⊥ }
    ensures { IfOk result (λ o. IsTold (IsOfAll decls.now expr.now) (IsTooLarge decls.now expr.now at) o least.old least.new) }
{
    let sort = resolved(alloc, decls, expr)?;
    if is_small(decls, &sort) {
        return Ok(Some(TermSort::Bag(sort.kin(alloc)?)));
    }
    keep_least_at(least, alloc, Reason::AllTooLarge, at, "all")?;
    Ok(None)
}

/// The empty multiset over a sort is one over its kin.
pub(crate) fn empty(alloc: Global, decls: &Decls, expr: &SortExpr) -> Result<TermSort, AllocError>
    requires faultless { IsFaultless decls.now }
    requires sound { (f : Fault) → StandsInSort decls.now expr.now f → ⊥ }
    ensures { IfOk result (IsOfEmpty decls.now expr.now) }
{
    let sort = resolved(alloc, decls, expr)?;
    Ok(TermSort::Bag(sort.kin(alloc)?))
}

/// The empty list of a sort is one of its kin.
pub(crate) fn empty_list(
    alloc: Global,
    decls: &Decls,
    expr: &SortExpr,
) -> Result<TermSort, AllocError>
    requires faultless { IsFaultless decls.now }
    requires sound { (f : Fault) → StandsInSort decls.now expr.now f → ⊥ }
    ensures { IfOk result (IsOfEmptyList decls.now expr.now) }
{
    let sort = resolved(alloc, decls, expr)?;
    let item = sort.kin(alloc)?;
    Ok(TermSort::Basis(Sort::List(Boxed::new(alloc, item)?)))
}

/// Whether a sort is the base sort of the partition at this place.
fn is_base(decls: &Decls, partition: u32, sort: &TermSort) -> bool
    requires faultless { IsFaultless decls.now }
    requires partition { IsSome (base_expr decls.now partition) }
    ensures { (base : Sort) × IsBaseSort decls.now partition base × (IsTrue result ↔ (sort.now ≡ TermSort.Basis base)) }
{
    let base = decls.base_sort(partition);
    match sort {
        TermSort::Basis(sort) => sort.is_same(base),
        TermSort::Bag(_) => false,
    }
}

/// What is of the base sort of a partition gives an element of it.
pub(crate) fn element(
    alloc: Global,
    decls: &Decls,
    at: u64,
    name: &str,
    sort: &TermSort,
    least: &mut Option<Fault>,
) -> Result<Option<TermSort>, AllocError>
    requires { IsFaultless decls.now }
    ensures { IfOk result (λ o. IsTold (IsOfElement decls.now name.now (sort.now ∷ []))
        (λ f. IsUnknownPartition decls.now name.now at f ⊎ IsWrongElement decls.now name.now (sort.now ∷ []) at f) o least.old least.new) }
{
    match decls.partition(name) {
        None => {
            keep_least_at(least, alloc, Reason::UnknownPartition, at, name)?;
            Ok(None)
        }
        Some(partition) => {
            if is_base(decls, partition, sort) {
                return Ok(Some(TermSort::Basis(Sort::Partition(partition))));
            }
            keep_least_at(least, alloc, Reason::WrongSort, at, "partitionelementof")?;
            Ok(None)
        }
    }
}

/// Keeps the fault of a partition that is not there.
pub(crate) fn keep_partition(
    alloc: Global,
    decls: &Decls,
    at: u64,
    name: &str,
    least: &mut Option<Fault>,
) -> Result<(), AllocError>
    ensures { OnOk result (KeepsLeast (IsUnknownPartition decls.now name.now at) least.old least.new) }
{
    if decls.partition(name).is_none() {
        keep_least_at(least, alloc, Reason::UnknownPartition, at, name)?;
    }
    Ok(())
}

/// An operator whose arguments have these sorts gives its own.
pub(crate) fn applied(
    alloc: Global,
    decls: &Decls,
    at: u64,
    op: Op,
    sorts: &[TermSort],
    least: &mut Option<Fault>,
) -> Result<Option<TermSort>, AllocError>
    ensures { IfOk result (λ o. IsTold (IsOfOperator decls.now op sorts.now) (IsWrongFor decls.now op sorts.now at) o least.old least.new) }
{
    match row_sort(alloc, decls, op, sorts)? {
        Some(sort) => Ok(Some(sort)),
        None => {
            keep_least_at(least, alloc, Reason::WrongSort, at, op_name(op))?;
            Ok(None)
        }
    }
}
