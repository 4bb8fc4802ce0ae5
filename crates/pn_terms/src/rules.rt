//! The rules by which operators give a sort for those of their arguments: each row of the table of
//! operators names one.

ghost use Rattle.std.specs.Prelude.{◌≡◌, ◌↔◌, ◌<◌, ◌-◌, true, length, map, IfOk, IsTrue};
ghost use Rattle.pn_operators.specs.declared.op.Op.{Op};
ghost use Rattle.pn_terms.specs.Rows.{AreAlike, AreIn, Fits, HasCountIn, IsGivenWhere, Suit, basis_of, first_of, given_by, is_counted, is_indexed, is_scaled, item_of, last_of, takes};
ghost use Rattle.pn_terms.specs.declared.family.Family.{Family};
ghost use Rattle.pn_terms.specs.declared.term_sort.TermSort.{TermSort};
ghost use Rattle.pn_values.specs.declared.sort.Sort.{Sort};

use crate::TermSort;
use crate::family::{Family, are_alike, are_in, is_in, sort_at};
use pn_operators::{Op, row_of, with_rows};
use pn_sorts::{Decls, Sort};
use sqlite_items::{Boxed, Items};
use std::alloc::{AllocError, Global};

macro_rules! by_rule {
    ($op:expr, $alloc:expr, $decls:expr, $sorts:expr; $($name:ident $text:literal $from:ident $least:literal $most:tt $rule:ident($($family:ident)?)),*) => {
        match $op { $(Op::$name => $rule($alloc, $decls, $sorts $(, Family::$family)?)),* }
    };
}

/// The sort that an operator gives for arguments of these sorts, where they fit it.
pub(crate) fn row_sort(
    alloc: Global,
    decls: &Decls,
    op: Op,
    sorts: &[TermSort],
) -> Result<Option<TermSort>, AllocError>
    ensures { IfOk result (IsGivenWhere (Fits decls.now op sorts.now) (given_by op sorts.now)) }
{
    if !takes(op, sorts.len()) {
        return Ok(None);
    }
    suited(alloc, decls, op, sorts)
}

/// Whether the operator takes so many arguments.
fn takes(op: Op, count: usize) -> bool
    ensures { result ≡ takes op count }
{
    let row = row_of(op);
    match row.most {
        Some(most) => row.least <= count && count <= most,
        None => row.least <= count,
    }
}

/// The sort that an operator gives for arguments of these sorts, where they suit it and are as many
/// as it takes.
fn suited(
    alloc: Global,
    decls: &Decls,
    op: Op,
    sorts: &[TermSort],
) -> Result<Option<TermSort>, AllocError>
    requires { takes op (length sorts.now) ≡ true }
    ensures { IfOk result (IsGivenWhere (Suit decls.now op sorts.now) (given_by op sorts.now)) }
{
    with_rows!(by_rule, op, alloc, decls, sorts)
}

/// No argument gives Dot.
fn dot(_alloc: Global, _decls: &Decls, _sorts: &[TermSort]) -> Result<Option<TermSort>, AllocError>
    ensures { IfOk result (IsGivenWhere (Unit {0}) (TermSort.Basis Sort.Dot)) }
{
    Ok(Some(TermSort::Basis(Sort::Dot)))
}

/// What is of this family gives the sort, if all are of the family.
fn given(decls: &Decls, sorts: &[TermSort], family: Family, sort: Sort) -> Option<TermSort>
    ensures { IsGivenWhere (AreIn decls.now family sorts.now) (TermSort.Basis sort) result }
{
    if are_in(decls, family, sorts) {
        return Some(TermSort::Basis(sort));
    }
    None
}

/// What is of this family gives a truth value.
fn to_truth(
    _alloc: Global,
    decls: &Decls,
    sorts: &[TermSort],
    family: Family,
) -> Result<Option<TermSort>, AllocError>
    ensures { IfOk result (IsGivenWhere (AreIn decls.now family sorts.now) (TermSort.Basis Sort.Bool)) }
{
    Ok(given(decls, sorts, family, Sort::Bool))
}

/// What is of this family gives a number.
fn to_number(
    _alloc: Global,
    decls: &Decls,
    sorts: &[TermSort],
    family: Family,
) -> Result<Option<TermSort>, AllocError>
    ensures { IfOk result (IsGivenWhere (AreIn decls.now family sorts.now) (TermSort.Basis Sort.Integer)) }
{
    Ok(given(decls, sorts, family, Sort::Integer))
}

/// What is of this family gives a text.
fn to_text(
    _alloc: Global,
    decls: &Decls,
    sorts: &[TermSort],
    family: Family,
) -> Result<Option<TermSort>, AllocError>
    ensures { IfOk result (IsGivenWhere (AreIn decls.now family sorts.now) (TermSort.Basis Sort.Text)) }
{
    Ok(given(decls, sorts, family, Sort::Text))
}

/// What is of one sort is compared.
fn alike(_alloc: Global, _decls: &Decls, sorts: &[TermSort]) -> Result<Option<TermSort>, AllocError>
    ensures { IfOk result (IsGivenWhere (AreAlike sorts.now) (TermSort.Basis Sort.Bool)) }
{
    if !are_alike(sorts) {
        return Ok(None);
    }
    Ok(Some(TermSort::Basis(Sort::Bool)))
}

/// What is of one sort of this family is compared.
fn compared(
    _alloc: Global,
    decls: &Decls,
    sorts: &[TermSort],
    family: Family,
) -> Result<Option<TermSort>, AllocError>
    ensures { IfOk result (IsGivenWhere (AreIn decls.now family sorts.now × AreAlike sorts.now) (TermSort.Basis Sort.Bool)) }
{
    if !are_in(decls, family, sorts) || !are_alike(sorts) {
        return Ok(None);
    }
    Ok(Some(TermSort::Basis(Sort::Bool)))
}

/// What is of one sort of this family gives the same sort.
fn same(
    alloc: Global,
    decls: &Decls,
    sorts: &[TermSort],
    family: Family,
) -> Result<Option<TermSort>, AllocError>
    requires { 0 < length sorts.now }
    ensures { IfOk result (IsGivenWhere (AreIn decls.now family sorts.now × AreAlike sorts.now) (first_of sorts.now)) }
{
    if are_in(decls, family, sorts) && are_alike(sorts) {
        return Ok(Some(sort_at(sorts, 0).copy(alloc)?));
    }
    Ok(None)
}

/// What is of a cyclic enumeration gives the same sort.
fn round(alloc: Global, decls: &Decls, sorts: &[TermSort]) -> Result<Option<TermSort>, AllocError>
    requires { 0 < length sorts.now }
    ensures { IfOk result (IsGivenWhere (AreIn decls.now Family.Rounds sorts.now) (first_of sorts.now)) }
{
    if !are_in(decls, Family::Rounds, sorts) {
        return Ok(None);
    }
    Ok(Some(sort_at(sorts, 0).copy(alloc)?))
}

/// A sort, or the one over which these are the multisets.
fn basis(sort: &TermSort) -> &Sort
    ensures { result.now ≡ basis_of sort.now }
{
    match sort {
        TermSort::Basis(sort) => sort,
        TermSort::Bag(sort) => sort,
    }
}

/// The basis sorts of all.
fn bases(alloc: Global, sorts: &[TermSort]) -> Result<Items<Sort>, AllocError>
    ensures { IfOk result (λ all. all ≡ map basis_of sorts.now) }
{
    let mut all = Items::new(alloc);
    for sort in sorts {
        all.push(basis(sort).copy(alloc)?)?;
    }
    Ok(all)
}

/// Basis sorts give their product.
fn tuple(alloc: Global, decls: &Decls, sorts: &[TermSort]) -> Result<Option<TermSort>, AllocError>
    ensures { IfOk result (IsGivenWhere (AreIn decls.now Family.Basis sorts.now) (TermSort.Basis (Sort.Product (map basis_of sorts.now)))) }
{
    if !are_in(decls, Family::Basis, sorts) {
        return Ok(None);
    }
    Ok(Some(TermSort::Basis(Sort::Product(bases(alloc, sorts)?))))
}

/// A basis sort, behind a number or alone, gives its multisets.
fn counted(alloc: Global, decls: &Decls, sorts: &[TermSort]) -> Result<Option<TermSort>, AllocError>
    requires { 0 < length sorts.now }
    ensures { IfOk result (IsGivenWhere (is_counted decls.now sorts.now ≡ true) (TermSort.Bag (basis_of (last_of sorts.now)))) }
{
    let last = sort_at(sorts, sorts.len() - 1);
    let is_alone = sorts.len() == 1;
    if is_in(decls, Family::Basis, last)
        && (is_alone || is_in(decls, Family::Integers, sort_at(sorts, 0)))
    {
        return Ok(Some(TermSort::Bag(basis(last).copy(alloc)?)));
    }
    Ok(None)
}

/// A number and a multiset give the multiset's sort.
fn scaled(alloc: Global, decls: &Decls, sorts: &[TermSort]) -> Result<Option<TermSort>, AllocError>
    requires { 0 < length sorts.now }
    ensures { IfOk result (IsGivenWhere (is_scaled decls.now sorts.now ≡ true) (last_of sorts.now)) }
{
    let last = sort_at(sorts, sorts.len() - 1);
    if is_in(decls, Family::Integers, sort_at(sorts, 0)) && is_in(decls, Family::Bags, last) {
        return Ok(Some(last.copy(alloc)?));
    }
    Ok(None)
}

/// Whether the first are the multisets over a sort, and the second is that sort.
fn has_count_in(first: &TermSort, last: &TermSort) -> bool
    ensures { IsTrue result ↔ ((s : Sort) × (first.now ≡ TermSort.Bag s) × (last.now ≡ TermSort.Basis s)) }
{
    match (first, last) {
        (TermSort::Bag(one), TermSort::Basis(two)) => one.is_same(two),
        _ => false,
    }
}

/// A multiset and a value of its sort give a number.
fn count(_alloc: Global, _decls: &Decls, sorts: &[TermSort]) -> Result<Option<TermSort>, AllocError>
    requires { 0 < length sorts.now }
    ensures { IfOk result (IsGivenWhere (HasCountIn sorts.now) (TermSort.Basis Sort.Integer)) }
{
    if has_count_in(sort_at(sorts, 0), sort_at(sorts, sorts.len() - 1)) {
        return Ok(Some(TermSort::Basis(Sort::Integer)));
    }
    Ok(None)
}

/// The sort of the lists of a sort.
fn list_of(alloc: Global, item: &Sort) -> Result<Sort, AllocError>
    ensures { IfOk result (λ s. s ≡ Sort.List item.now) }
{
    let item = item.copy(alloc)?;
    Ok(Sort::List(Boxed::new(alloc, item)?))
}

/// What is of one basis sort gives its lists.
fn list(alloc: Global, decls: &Decls, sorts: &[TermSort]) -> Result<Option<TermSort>, AllocError>
    requires { 0 < length sorts.now }
    ensures { IfOk result (IsGivenWhere (AreIn decls.now Family.Basis sorts.now × AreAlike sorts.now) (TermSort.Basis (Sort.List (basis_of (first_of sorts.now))))) }
{
    if are_in(decls, Family::Basis, sorts) && are_alike(sorts) {
        return Ok(Some(TermSort::Basis(list_of(alloc, basis(sort_at(sorts, 0)))?)));
    }
    Ok(None)
}

/// The sort of the items, where this is the sort of their lists.
fn item_of(sort: &Sort) -> &Sort
    ensures { result.now ≡ item_of sort.now }
{
    match sort {
        Sort::List(item) => item.get(),
        _ => sort,
    }
}

/// A list and a number give the sort of the list's items.
fn item(alloc: Global, decls: &Decls, sorts: &[TermSort]) -> Result<Option<TermSort>, AllocError>
    requires { 0 < length sorts.now }
    ensures { IfOk result (IsGivenWhere (is_indexed decls.now sorts.now ≡ true) (TermSort.Basis (item_of (basis_of (first_of sorts.now))))) }
{
    let first = sort_at(sorts, 0);
    let last = sort_at(sorts, sorts.len() - 1);
    if is_in(decls, Family::Lists, first) && is_in(decls, Family::Integers, last) {
        return Ok(Some(TermSort::Basis(item_of(basis(first)).copy(alloc)?)));
    }
    Ok(None)
}
