//! The sorts of the declarations.

ghost use Rattle.std.specs.Prelude.{◌≡◌, ◌<◌, ◌^◌, ℕ, length, slice_set, Some, None, IfOk, OnOk};
ghost use Rattle.std.specs.List.{slice_get};
ghost use Rattle.std.specs.Option.{option_copied};
ghost use Rattle.pn_syntax.specs.declared.declaration.Declaration.{Declaration};
ghost use Rattle.pn_names.specs.Names.{names_of, AreNumbered};
ghost use Rattle.pn_resolve.specs.Meaning.{sort_with};
ghost use Rattle.pn_resolve.specs.Tables.{own_sort, own_extent, plain_expr, extents_with, sorts_with, extent_in, sort_in, IsTable, kept_by, within};

use crate::Extent;
use crate::build::build_within;
use crate::links::{Sources, graph_of};
use crate::named_sorts::NamedSorts;
use crate::walk::walk;
use pn_cycles::order_of;
use pn_names::Index;
use pn_syntax::{Declaration, SortBody, SortExpr, SortNode};
use pn_values::Sort;
use std::alloc::{AllocError, Global};
use std::marker::Model;

/// For each declaration the extent of the sort of its name, and that sort where it keeps within the
/// limits.
#[derive(Debug, Drop)]
pub struct Table {
    pub(crate) extents: Vec<Extent>,
    pub(crate) sorts: NamedSorts,
}

impl Model for Table {
    ghost use Rattle.std.specs.Coded.{codes};
    ghost use Rattle.pn_values.specs.contracts.sort.Sort as sort;
    ghost use Rattle.pn_resolve.specs.Tables.{Entries};

    ghost Value = { Entries };

    ghost coded = { Prim.hlevel (codes, sort.the_row.coded) };

    ghost view = { λ table. record { extents = table.extents.items; sorts = table.sorts } };
}

impl Table {
    ghost use Rattle.std.specs.Prelude.{◌⊎◌, List};
    ghost use Rattle.pn_faults.specs.declared.fault.Fault.{Fault};
    ghost use Rattle.pn_names.specs.declared.Declared.{Declared};
    ghost use Rattle.pn_resolve.specs.Meaning.{Resolves};
    ghost use Rattle.pn_resolve.specs.Standing.{IsNameOf, StandsBesides, StandsInSort};
    ghost use Rattle.pn_syntax.specs.declared.sort_expr.SortExpr.{SortExpr};
    ghost use Rattle.pn_values.specs.declared.sort.Sort.{Sort};

    /// The table of these declarations. Each `namedsort` is resolved once, behind those that it
    /// names, so the time is linear in the declarations and in the nodes of the sorts that keep
    /// within the limits.
    pub fn of(alloc: Global, items: &[Declaration], index: &Index) -> Result<Table, AllocError>
        requires index { index.now ≡ names_of items.now }
        requires numbered { AreNumbered items.now }
        ensures { IfOk result (IsTable items.now index.now) }
    {
        let graph = graph_of(alloc, index, items, Sources::Named)?;
        let order = order_of(alloc, &graph)?;
        let mut extents = own_extents(alloc, items)?;
        let mut sorts = own_sorts(alloc, items)?;
        for place in order.nodes() {
            settle(
                alloc,
                index,
                &items[*place],
                order.is_on_cycle(*place),
                *place,
                &mut extents,
                &mut sorts,
            )?;
        }
        Ok(Table { extents, sorts })
    }

    /// The sort that the declaration at this place gives its name, where that sort keeps within the
    /// limits. An expression that is this name has it; where there is none, the expression or the
    /// declarations have a fault.
    pub fn named(&self, place: u32) -> Option<&Sort>
        ensures kept { option_copied result ≡ sort_in self.now.sorts place }
        ensures some { (sort : Sort) → option_copied result ≡ Some sort → (items : List Declaration) (names : List (List ℕ × Declared)) → IsTable items names self.now
            → (e : SortExpr) → IsNameOf items place e → Resolves items e sort }
        ensures none { option_copied result ≡ None → (items : List Declaration) (names : List (List ℕ × Declared)) → IsTable items names self.now
            → (e : SortExpr) → IsNameOf items place e → (f : Fault) × (StandsInSort items e f ⊎ StandsBesides items f) }
    {
        self.sorts.get(place)
    }
}

/// The extents of the sorts that are there by their places alone.
fn own_extents(alloc: Global, items: &[Declaration]) -> Result<Vec<Extent>, AllocError>
    requires { length items.now < 2 ^ 32 }
    ensures sized { IfOk result (λ extents. length extents.items ≡ length items.now) }
    ensures own { IfOk result (λ extents. (place : ℕ) (d : Declaration) → slice_get items.now place ≡ Some d → extent_in extents.items place ≡ own_extent place d) }
{
    let mut extents = Vec::new(alloc);
    for place in 0..items.len() {
        extents.push(own_extent(place as u32, &items[place]))?;
    }
    Ok(extents)
}

fn own_extent(place: u32, declaration: &Declaration) -> Extent
    ensures { result ≡ own_extent place declaration.now }
{
    match own_sort(place, declaration) {
        Some(_) => Extent::Fits { depth: 1, nodes: 1 },
        None => Extent::NoSort,
    }
}

/// The sorts that are there by their places alone.
fn own_sorts(alloc: Global, items: &[Declaration]) -> Result<NamedSorts, AllocError>
    requires { length items.now < 2 ^ 32 }
    ensures sized { IfOk result (λ sorts. length sorts ≡ length items.now) }
    ensures own { IfOk result (λ sorts. (place : ℕ) (d : Declaration) → slice_get items.now place ≡ Some d → sort_in sorts place ≡ own_sort place d) }
{
    let mut sorts = NamedSorts::new(alloc);
    for place in 0..items.len() {
        sorts.push(own_sort(place as u32, &items[place]))?;
    }
    Ok(sorts)
}

/// The sort of an enumeration or a partition.
fn own_sort(place: u32, declaration: &Declaration) -> Option<Sort>
    ensures { result ≡ own_sort place declaration.now }
{
    match declaration {
        Declaration::Named { body, .. } => match body {
            SortBody::Plain(_) => None,
            _ => Some(Sort::Enumeration(place)),
        },
        Declaration::Variable { .. } => None,
        Declaration::Partition { .. } => Some(Sort::Partition(place)),
    }
}

/// Settles the sort of a `namedsort` whose expression names only declarations that are settled, or
/// which is on a cycle.
fn settle(
    alloc: Global,
    index: &Index,
    declaration: &Declaration,
    is_cyclic: bool,
    place: usize,
    extents: &mut [Extent],
    sorts: &mut NamedSorts,
) -> Result<(), AllocError>
    requires extents { place < length extents.old }
    requires sorts { place < length sorts.old }
    ensures extents { OnOk result (extents.new ≡ extents_with index.now is_cyclic place (plain_expr declaration.now) extents.old) }
    ensures sorts { OnOk result (sorts.new ≡ sorts_with index.now is_cyclic place (plain_expr declaration.now) extents.old sorts.old) }
{
    match plain_of(declaration) {
        None => Ok(()),
        Some(expr) => {
            if is_cyclic {
                extents[place] = Extent::NoSort;
                sorts.clear(place);
                return Ok(());
            }
            let mut least = None;
            let extent = walk(alloc, index, extents, expr, &mut least)?;
            settle_sort(alloc, index, expr, extent, place, sorts)?;
            extents[place] = extent;
            Ok(())
        }
    }
}

/// Settles the sort of an expression of this extent. That of a name isn't built anew.
fn settle_sort(
    alloc: Global,
    index: &Index,
    expr: &SortExpr,
    extent: Extent,
    place: usize,
    sorts: &mut NamedSorts,
) -> Result<(), AllocError>
    requires { place < length sorts.old }
    ensures { OnOk result (sorts.new ≡ slice_set sorts.old place (within extent (sort_with (kept_by index.now sorts.old) expr.now))) }
{
    if let SortNode::User(name) = &expr.node {
        settle_name(index, name.as_str(), extent, place, sorts);
        return Ok(());
    }
    let sort = build_within(alloc, index, sorts, expr, extent)?;
    sorts.set(place, sort)
}

/// Gives a place the sort of what a name means, where its extent keeps within the limits.
fn settle_name(index: &Index, name: &str, extent: Extent, place: usize, sorts: &mut NamedSorts)
    requires { place < length sorts.old }
    ensures { sorts.new ≡ slice_set sorts.old place (within extent (kept_by index.now sorts.old name.now)) }
{
    match extent {
        Extent::Fits { .. } => match index.sort_place(name) {
            Some(other) => sorts.share(place, other),
            None => sorts.clear(place),
        },
        _ => sorts.clear(place),
    }
}

/// The sort expression of a `namedsort` that declares no enumeration.
fn plain_of(declaration: &Declaration) -> Option<&SortExpr>
    ensures { option_copied result ≡ plain_expr declaration.now }
{
    match declaration {
        Declaration::Named { body, .. } => match body {
            SortBody::Plain(expr) => Some(expr),
            _ => None,
        },
        _ => None,
    }
}
