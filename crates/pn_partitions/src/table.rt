//! The tables of partitions.

ghost use Rattle.std.specs.Prelude.{◌≡◌, ◌↔◌, ◌<◌, ◌≤◌, ◌-◌, ◌^◌, ◌++◌, [], List, ℕ, nat_le, Option, map, length, IfOk, IfSome, IfNone, IsSome, IsTrue, MatchOption, Some, None, true, false, is_some, slice_get, slice_index_or, Contains, sum};
ghost use Rattle.std.specs.List.{flat_map};
ghost use Rattle.pn_syntax.specs.declared.declaration.ConstExpr.{ConstExpr};
ghost use Rattle.pn_carriers.specs.Carriers.{carrier, count_between};
ghost use Rattle.pn_names.specs.Names.{names_of, widths_of};
ghost use Rattle.pn_partitions.specs.Partitions.{is_splittable, Splits, IsPartTable};
ghost use Rattle.pn_partitions.specs.Tables.{enumeration_place, range_place, place_of, places_in, values_listed, AreEachOnce, IsFilled, IsSpoilt};

use pn_carriers::count_between;
use pn_names::{Index, constant_count};
use pn_syntax::{ConstExpr, Declaration, PartElement};
use pn_values::Sort;
use std::alloc::{AllocError, Global};

/// The most values that a range may have to be split.
const MOST_VALUES: u128 = 1048576;

/// How many whole numbers there are from `start` to `end`, where these are not too many to be split.
fn range_size(start: i64, end: i64) -> Option<usize>
    ensures sized { IfSome result (λ n. n ≡ count_between start end) }
    ensures few { is_some result ≡ nat_le (count_between start end) 1048576 }
{
    let count = count_between(start, end);
    if count <= MOST_VALUES {
        Some(count as usize)
    } else {
        None
    }
}

/// How many values a sort has, where it can be split.
fn base_size(items: &[Declaration], base: &Sort) -> Option<usize>
    ensures sized { IfSome result (λ n. n ≡ length (carrier (widths_of items.now) base.now)) }
    ensures splittable { is_some result ≡ is_splittable base.now }
{
    match base {
        Sort::Enumeration(place) => match items.get(*place as usize) {
            Some(item) => Some(constant_count(item)),
            None => Some(0),
        },
        Sort::Range { start, end } => range_size(*start, *end),
        _ => None,
    }
}

/// The place of a constant in the enumeration that this declaration declares.
fn enumeration_place(index: &Index, declaration: u32, value: &ConstExpr) -> Option<usize>
    ensures { result ≡ enumeration_place index.now declaration value.now }
{
    let ConstExpr::Named { id, .. } = value else {
        return None;
    };
    let constant = index.constant(id.as_str())?;
    if constant.declaration == declaration {
        Some(constant.index as usize)
    } else {
        None
    }
}

/// The place of a constant in a range.
fn range_place(first: i64, last: i64, value: &ConstExpr) -> Option<usize>
    ensures { result ≡ range_place first last value.now }
{
    match value {
        ConstExpr::Named { .. } => None,
        ConstExpr::Range {
            value,
            start,
            end,
            ..
        } => {
            if *start == first && *end == last && first <= *value && *value <= last {
                Some(value.abs_diff(first) as usize)
            } else {
                None
            }
        }
    }
}

/// The place of a listed value among those of the base sort.
fn place_of(index: &Index, base: &Sort, value: &ConstExpr) -> Option<usize>
    requires { is_splittable base.now ≡ true }
    ensures { result ≡ place_of index.now base.now value.now }
{
    match base {
        Sort::Enumeration(declaration) => enumeration_place(index, *declaration, value),
        Sort::Range { start, end } => range_place(*start, *end, value),
        _ => None,
    }
}

/// Whether the elements list at least so many values.
fn list_enough(elements: &[PartElement], size: usize) -> bool
    ensures { IsTrue result ↔ (size ≤ sum (map values_listed elements.now)) }
{
    let mut left = size;
    for element in elements {
        left = left.saturating_sub(element.values.len());
    }
    left == 0
}

/// Enters the number of an element for each value that it lists; says whether each is a value of
/// the base sort that was not listed before.
fn enter_values(
    index: &Index,
    base: &Sort,
    values: &[ConstExpr],
    number: u32,
    table: &mut [Option<u32>],
) -> bool
    requires splittable { is_splittable base.now ≡ true }
    requires within { (c : ConstExpr) → IfSome (place_of index.now base.now c) (λ k. k < length table.old) }
    ensures entered { IsTrue result → (lists : List (List (Option ℕ))) (listed : List (Option ℕ)) → slice_get lists number ≡ Some (map (place_of index.now base.now) values.now)
        → IsFilled lists listed table.old → IsFilled lists (listed ++ map (place_of index.now base.now) values.now) table.new }
    ensures refused { result ≡ false → (lists : List (List (Option ℕ))) (listed : List (Option ℕ)) → slice_get lists number ≡ Some (map (place_of index.now base.now) values.now)
        → IsFilled lists listed table.old → IsSpoilt (length table.old) (listed ++ map (place_of index.now base.now) values.now) }
{
    for value in values {
        let Some(place) = place_of(index, base, value) else {
            return false;
        };
        if table[place].is_some() {
            return false;
        }
        table[place] = Some(number);
    }
    true
}

/// Enters the number of each element for the values that it lists; says whether each is a value of
/// the base sort that was not listed before.
fn enter_elements(
    index: &Index,
    base: &Sort,
    elements: &[PartElement],
    table: &mut [Option<u32>],
) -> bool
    requires splittable { is_splittable base.now ≡ true }
    requires within { (c : ConstExpr) → IfSome (place_of index.now base.now c) (λ k. k < length table.old) }
    requires few { length elements.now < 2 ^ 32 }
    requires empty { IsFilled (map (places_in index.now base.now) elements.now) [] table.old }
    ensures entered { IsTrue result → IsFilled (map (places_in index.now base.now) elements.now) (flat_map (places_in index.now base.now) elements.now) table.new }
    ensures refused { result ≡ false → IsSpoilt (length table.old) (flat_map (places_in index.now base.now) elements.now) }
{
    let mut number: u32 = 0;
    for element in elements {
        if !enter_values(index, base, element.values.as_slice(), number, table) {
            return false;
        }
        number += 1;
    }
    true
}

/// The entries of a table, where none is missing.
fn all_entries(alloc: Global, table: &[Option<u32>]) -> Result<Option<Vec<u32>>, AllocError>
    ensures { IfOk result (λ entries. MatchOption entries (Contains table.now None) (λ v. map Some v.items ≡ table.now)) }
{
    let mut entries = Vec::new(alloc);
    for entry in table {
        let Some(number) = *entry else {
            return Ok(None);
        };
        entries.push(number)?;
    }
    Ok(Some(entries))
}

/// The numbers of the elements that list each value, in the order of the values, where each value
/// is listed once and nothing else is. The table has a place for each value.
fn filled(
    alloc: Global,
    index: &Index,
    base: &Sort,
    elements: &[PartElement],
    table: &mut [Option<u32>],
) -> Result<Option<Vec<u32>>, AllocError>
    requires splittable { is_splittable base.now ≡ true }
    requires within { (c : ConstExpr) → IfSome (place_of index.now base.now c) (λ k. k < length table.old) }
    requires few { length elements.now < 2 ^ 32 }
    requires empty { IsFilled (map (places_in index.now base.now) elements.now) [] table.old }
    ensures refused { IfOk result (λ entries. IfNone entries (AreEachOnce (length table.old) (flat_map (places_in index.now base.now) elements.now) → ⊥)) }
    ensures length { IfOk result (λ entries. IfSome entries (λ v. length v.items ≡ length table.old)) }
    ensures filled { IfOk result (λ entries. IfSome entries (λ v. IsFilled (map (places_in index.now base.now) elements.now) (flat_map (places_in index.now base.now) elements.now) (map Some v.items))) }
{
    if enter_elements(index, base, elements, table) {
        all_entries(alloc, table)
    } else {
        Ok(None)
    }
}

/// Which element of a partition lists each value of the base sort: the numbers of the elements, in
/// the order of the values. None where the elements do not split the base sort.
pub fn part_table(
    alloc: Global,
    index: &Index,
    items: &[Declaration],
    base: &Sort,
    elements: &[PartElement],
) -> Result<Option<Vec<u32>>, AllocError>
    requires names { index.now ≡ names_of items.now }
    requires few { length elements.now < 2 ^ 32 }
    ensures splits { IfOk result (λ table. IsSome table ↔ Splits items.now base.now elements.now) }
    ensures table { IfOk result (λ table. IfSome table (λ t. IsPartTable items.now base.now elements.now t.items)) }
{
    let Some(size) = base_size(items, base) else {
        return Ok(None);
    };
    if !list_enough(elements, size) {
        return Ok(None);
    }
    let mut table: Vec<Option<u32>> = vec![in alloc; None; size]?;
    filled(alloc, index, base, elements, &mut table)
}
