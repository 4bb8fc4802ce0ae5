//! The least fault of the declarations.

ghost use Rattle.std.specs.Prelude.{◌≡◌, ◌<◌, length, false, slice_index_or, IfOk, OnOk};
ghost use Rattle.std.specs.List.{flat_map};
ghost use Rattle.pn_faults.specs.Least.{least_fault, lower};
ghost use Rattle.pn_faults.specs.Standing.{IsLeastOf};
ghost use Rattle.pn_resolve.specs.Standing.{StandsBesides};
ghost use Rattle.pn_resolve.specs.Tables.{IsTable};
ghost use Rattle.pn_resolve.specs.Telling.{known_by};
ghost use Rattle.pn_resolve.specs.Listing.{faults_of, cycle_faults, sort_faults, range_faults, value_faults, empty_range_faults, element_faults};

use crate::cycles::sort_cycles;
use crate::links::sort_of;
use crate::walk::walk;
use crate::{Extent, Table};
use pn_faults::{Fault, Reason, keep_least_at};
use pn_names::Index;
use pn_syntax::{ConstExpr, Declaration, PartElement};
use std::alloc::{AllocError, Global};

/// The least of the faults of sorts in the declarations, but for partitions that do not split their
/// base sorts.
pub fn least_fault_of(
    alloc: Global,
    items: &[Declaration],
    index: &Index,
    table: &Table,
) -> Result<Option<Fault>, AllocError>
    requires { IsTable items.now index.now table.now }
    ensures { IfOk result (IsLeastOf (StandsBesides items.now)) }
{
    let cycles = sort_cycles(alloc, items, index)?;
    let mut least = None;
    for place in 0..items.len() {
        let is_cyclic = told_at(&cycles, place);
        keep_declaration(
            alloc,
            index,
            &table.extents,
            &items[place],
            is_cyclic,
            &mut least,
        )?;
    }
    Ok(least)
}

fn told_at(told: &[bool], place: usize) -> bool
    requires { place < length told.now }
    ensures { result ≡ slice_index_or told.now place false }
{
    told[place]
}

/// Keeps the least of the faults of one declaration.
fn keep_declaration(
    alloc: Global,
    index: &Index,
    extents: &[Extent],
    declaration: &Declaration,
    is_cyclic: bool,
    least: &mut Option<Fault>,
) -> Result<(), AllocError>
    ensures { OnOk result (least.new ≡ lower least.old (least_fault (faults_of (known_by index.now extents.now) is_cyclic declaration.now))) }
{
    keep_cycle(alloc, declaration, is_cyclic, least)?;
    keep_sort(alloc, index, extents, declaration, least)?;
    keep_ranges(alloc, declaration, least)
}

fn keep_cycle(
    alloc: Global,
    declaration: &Declaration,
    is_cyclic: bool,
    least: &mut Option<Fault>,
) -> Result<(), AllocError>
    ensures { OnOk result (least.new ≡ lower least.old (least_fault (cycle_faults is_cyclic declaration.now))) }
{
    if !is_cyclic {
        return Ok(());
    }
    match declaration {
        Declaration::Named { id, at, .. }
        | Declaration::Variable { id, at, .. }
        | Declaration::Partition { id, at, .. } => {
            keep_least_at(least, alloc, Reason::SortCycle, *at, id.as_str())
        }
    }
}

fn keep_sort(
    alloc: Global,
    index: &Index,
    extents: &[Extent],
    declaration: &Declaration,
    least: &mut Option<Fault>,
) -> Result<(), AllocError>
    ensures { OnOk result (least.new ≡ lower least.old (least_fault (sort_faults (known_by index.now extents.now) declaration.now))) }
{
    match sort_of(declaration) {
        Some(expr) => {
            walk(alloc, index, extents, expr, least)?;
            Ok(())
        }
        None => Ok(()),
    }
}

fn keep_ranges(
    alloc: Global,
    declaration: &Declaration,
    least: &mut Option<Fault>,
) -> Result<(), AllocError>
    ensures { OnOk result (least.new ≡ lower least.old (least_fault (range_faults declaration.now))) }
{
    match declaration {
        Declaration::Partition { elements, .. } => {
            keep_elements(alloc, elements.as_slice(), least)
        }
        _ => Ok(()),
    }
}

fn keep_elements(
    alloc: Global,
    elements: &[PartElement],
    least: &mut Option<Fault>,
) -> Result<(), AllocError>
    ensures { OnOk result (least.new ≡ lower least.old (least_fault (flat_map element_faults elements.now))) }
{
    for element in elements {
        keep_values(alloc, element.values.as_slice(), least)?;
    }
    Ok(())
}

fn keep_values(
    alloc: Global,
    values: &[ConstExpr],
    least: &mut Option<Fault>,
) -> Result<(), AllocError>
    ensures { OnOk result (least.new ≡ lower least.old (least_fault (flat_map value_faults values.now))) }
{
    for value in values {
        keep_value(alloc, value, least)?;
    }
    Ok(())
}

fn keep_value(alloc: Global, value: &ConstExpr, least: &mut Option<Fault>) -> Result<(), AllocError>
    ensures { OnOk result (least.new ≡ lower least.old (least_fault (value_faults value.now))) }
{
    match value {
        ConstExpr::Range { start, end, at, .. } => keep_range(alloc, *at, *start, *end, least),
        ConstExpr::Named { .. } => Ok(()),
    }
}

fn keep_range(
    alloc: Global,
    at: u64,
    start: i64,
    end: i64,
    least: &mut Option<Fault>,
) -> Result<(), AllocError>
    ensures { OnOk result (least.new ≡ lower least.old (least_fault (empty_range_faults at start end))) }
{
    if end < start {
        return keep_least_at(least, alloc, Reason::EmptyRange, at, "finiteintrange");
    }
    Ok(())
}
