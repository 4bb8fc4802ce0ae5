//! The sorts of all declarations, the tables of partitions, and the least fault.

ghost use Rattle.std.specs.Prelude.{◌≡◌, ◌↔◌, ◌<◌, ◌^◌, List, Contains, IfOk, IsOk, IsTrue, OnOk, length, Some};
ghost use Rattle.pn_faults.specs.Standing.{IsLeastOf};
ghost use Rattle.pn_names.specs.Names.{AreNumbered, names_of};
ghost use Rattle.pn_resolve.specs.Standing.{HasEmptyRange, base_of, elements_of};
ghost use Rattle.pn_faults.specs.Walks.{KeepsLeast};
ghost use Rattle.pn_resolve.specs.Tables.{IsTable};
ghost use Rattle.pn_sorts.specs.Kept.{asked_of, sort_of_kept};
ghost use Rattle.pn_sorts.specs.Settling.{AreSettled, IsBadFault, IsBadIn, IsSortEntry, IsSortEntryIn, IsKnown, IsParting, IsPartingTable, IsTableEntry, ListEmptyRange};
ghost use Rattle.pn_syntax.specs.declared.declaration.ConstExpr.{ConstExpr};
ghost use Rattle.pn_syntax.specs.declared.declaration.Declaration.{Declaration};
ghost use Rattle.pn_syntax.specs.declared.sort_expr.SortExpr.{SortExpr};
ghost use Rattle.pn_syntax.specs.declared.sort_expr.SortNode.TheVariants as nodes;

use crate::kept::Kept;
use pn_faults::{Fault, Reason, keep_least_at};
use pn_names::Index;
use pn_partitions::part_table;
use pn_resolve::{Extent, ResolveFault, Table, least_fault_of};
use pn_syntax::{ConstExpr, Declaration, PartElement, SortExpr, SortNode};
use sqlite_items::Items;
use std::alloc::{AllocError, Global};

/// What the elements of a partition do to its base sort.
pub(crate) enum Parting {
    /// It has no base sort, or an empty range among its constants.
    Unasked,
    Bad,
    Splits(Items<u32>),
}

/// Whether the range of a constant is empty.
fn has_empty_range(value: &ConstExpr) -> bool
    ensures { IsTrue result ↔ HasEmptyRange value.now }
{
    match value {
        ConstExpr::Named { .. } => false,
        ConstExpr::Range { start, end, .. } => end < start,
    }
}

/// Whether the range of some of these constants is empty.
fn have_empty_range(values: &[ConstExpr]) -> bool
    ensures { IsTrue result ↔ ((c : ConstExpr) × Contains values.now c × HasEmptyRange c) }
{
    for value in values {
        if has_empty_range(value) {
            return true;
        }
    }
    false
}

/// Whether the range of some constant that the elements list is empty.
fn list_empty_range(elements: &[PartElement]) -> bool
    ensures { IsTrue result ↔ ListEmptyRange elements.now }
{
    for element in elements {
        if have_empty_range(element.values.as_slice()) {
            return true;
        }
    }
    false
}

/// What the elements of a partition do to its base sort.
fn divided(
    alloc: Global,
    index: &Index,
    items: &[Declaration],
    table: &Table,
    sort: &SortExpr,
    elements: &[PartElement],
) -> Result<Parting, AllocError>
    requires table { IsTable items.now index.now table.now }
    requires few { length elements.now < 2 ^ 32 }
    ensures { IfOk result (IsParting items.now sort.now elements.now) }
{
    if list_empty_range(elements) {
        return Ok(Parting::Unasked);
    }
    match table.sort(alloc, index, sort)? {
        Some(base) => match part_table(alloc, index, items, &base, elements)? {
            Some(parts) => Ok(Parting::Splits(Items::from_vec(parts))),
            None => Ok(Parting::Bad),
        },
        None => match table.walk(alloc, index, sort, &mut None)? {
            Extent::NoSort => Ok(Parting::Unasked),
            _ => Ok(Parting::Bad),
        },
    }
}

/// Where the sort of a name is kept, nowhere where the declarations have a fault for which there is
/// none.
fn named_entry(index: &Index, table: &Table, name: &str) -> Kept
    ensures { (items : List Declaration) (e : SortExpr) → IsTable items index.now table.now → e.node ≡ nodes.User name.now → IsSortEntryIn items e (sort_of_kept table.now.sorts result) }
{
    match index.sort_place(name) {
        Some(place) => match table.named(place) {
            Some(_) => Kept::Named(place),
            None => Kept::Nowhere,
        },
        None => Kept::Nowhere,
    }
}

/// The sort of an expression, nowhere where the declarations have a fault for which there is none.
fn own_entry(
    alloc: Global,
    index: &Index,
    table: &Table,
    expr: &SortExpr,
) -> Result<Kept, AllocError>
    ensures { IfOk result (λ k. (items : List Declaration) → IsTable items index.now table.now → IsSortEntryIn items expr.now (sort_of_kept table.now.sorts k)) }
{
    match table.resolve(alloc, index, expr) {
        Ok(sort) => Ok(Kept::Here(sort)),
        Err(ResolveFault::Memory(error)) => Err(error),
        Err(ResolveFault::Fault(_)) => Ok(Kept::Nowhere),
        Err(ResolveFault::Elsewhere) => Ok(Kept::Nowhere),
    }
}

/// Where the sort of an expression is kept: that of a name isn't built anew.
fn entry(alloc: Global, index: &Index, table: &Table, expr: &SortExpr) -> Result<Kept, AllocError>
    ensures { IfOk result (λ k. (items : List Declaration) → IsTable items index.now table.now → IsSortEntryIn items expr.now (sort_of_kept table.now.sorts k)) }
{
    match &expr.node {
        SortNode::User(name) => Ok(named_entry(index, table, name.as_str())),
        _ => own_entry(alloc, index, table, expr),
    }
}

/// The table of a partition, none where the declarations have a fault for which there is none.
/// Keeps the least fault.
fn settle_partition(
    alloc: Global,
    index: &Index,
    items: &[Declaration],
    table: &Table,
    sort: &SortExpr,
    elements: &[PartElement],
    id: &str,
    at: u64,
    least: &mut Option<Fault>,
) -> Result<Option<Items<u32>>, AllocError>
    requires table { IsTable items.now index.now table.now }
    requires few { length elements.now < 2 ^ 32 }
    ensures table { IfOk result (IsPartingTable items.now sort.now elements.now) }
    ensures least { IsOk result → KeepsLeast (IsBadFault items.now sort.now elements.now id.now at) least.old least.new }
{
    match divided(alloc, index, items, table, sort, elements)? {
        Parting::Unasked => Ok(None),
        Parting::Bad => {
            keep_least_at(least, alloc, Reason::BadPartition, at, id)?;
            Ok(None)
        }
        Parting::Splits(parts) => Ok(Some(parts)),
    }
}

/// Where the sort of a variable or the base sort of a partition is kept, and the table of a
/// partition, none where the declarations have a fault for which there is none. Keeps the least
/// fault.
fn settle_item(
    alloc: Global,
    index: &Index,
    items: &[Declaration],
    table: &Table,
    item: &Declaration,
    least: &mut Option<Fault>,
) -> Result<(Kept, Option<Items<u32>>), AllocError>
    requires table { IsTable items.now index.now table.now }
    requires few { length (elements_of item.now) < 2 ^ 32 }
    requires there { Contains items.now item.now }
    ensures sort { IfOk result (λ r. (e : SortExpr) → asked_of item.now ≡ Some e → IsSortEntry items.now e (sort_of_kept table.now.sorts r.0)) }
    ensures table { IfOk result (λ r. (e : SortExpr) → base_of item.now ≡ Some e → IsTableEntry items.now e (elements_of item.now) r.1) }
    ensures least { IsOk result → KeepsLeast (IsBadIn items.now item.now) least.old least.new }
{
    match item {
        Declaration::Named { .. } => Ok((Kept::Nowhere, None)),
        Declaration::Variable { sort, .. } => Ok((entry(alloc, index, table, sort)?, None)),
        Declaration::Partition {
            id,
            sort,
            elements,
            at,
            ..
        } => {
            let base = entry(alloc, index, table, sort)?;
            let parts = settle_partition(
                alloc,
                index,
                items,
                table,
                sort,
                elements.as_slice(),
                id.as_str(),
                *at,
                least,
            )?;
            Ok((base, parts))
        }
    }
}

/// The sorts and tables of all declarations in order, and the least fault.
#[derive(Drop)]
pub(crate) struct Settled {
    pub(crate) table: Table,
    pub(crate) sorts: Vec<Kept>,
    pub(crate) tables: Vec<Option<Items<u32>>>,
    pub(crate) fault: Option<Fault>,
}

/// Settles one declaration after another.
fn settle_each(
    alloc: Global,
    index: &Index,
    items: &[Declaration],
    table: &Table,
    sorts: &mut Vec<Kept>,
    tables: &mut Vec<Option<Items<u32>>>,
    least: &mut Option<Fault>,
) -> Result<(), AllocError>
    requires table { IsTable items.now index.now table.now }
    requires numbered { AreNumbered items.now }
    requires settled { AreSettled items.now table.now.sorts 0 sorts.old.items tables.old.items }
    requires least { IsLeastOf (IsKnown items.now 0) least.old }
    ensures settled { OnOk result (AreSettled items.now table.now.sorts (length items.now) sorts.new.items tables.new.items) }
    ensures least { OnOk result (IsLeastOf (IsKnown items.now (length items.now)) least.new) }
{
    for item in items {
        let (sort, parts) = settle_item(alloc, index, items, table, item, least)?;
        sorts.push(sort)?;
        tables.push(parts)?;
    }
    Ok(())
}

/// Settles all declarations.
pub(crate) fn settle(
    alloc: Global,
    index: &Index,
    items: &[Declaration],
) -> Result<Settled, AllocError>
    requires names { index.now ≡ names_of items.now }
    requires numbered { AreNumbered items.now }
    ensures table { IfOk result (λ s. IsTable items.now index.now s.table) }
    ensures settled { IfOk result (λ s. AreSettled items.now s.table.sorts (length items.now) s.sorts.items s.tables.items) }
    ensures least { IfOk result (λ s. IsLeastOf (IsKnown items.now (length items.now)) s.fault) }
{
    let table = Table::of(alloc, items, index)?;
    let mut fault = least_fault_of(alloc, items, index, &table)?;
    let mut sorts = Vec::new(alloc);
    let mut tables = Vec::new(alloc);
    settle_each(
        alloc,
        index,
        items,
        &table,
        &mut sorts,
        &mut tables,
        &mut fault,
    )?;
    Ok(Settled {
        table,
        sorts,
        tables,
        fault,
    })
}
