//! What single declarations say.

ghost use Rattle.std.specs.Prelude.{◌≡◌, ◌<◌, ℕ, List, IsSome, Some, length, slice_get};
ghost use Rattle.std.specs.Option.{option_and_then};
ghost use Rattle.pn_sorts.specs.Lookups.{is_cyclic, is_cyclic_declaration, sort_at, sort_of_constant};

use pn_syntax::{Declaration, SortBody};
use pn_values::{ConstantRef, Sort};
use sqlite_items::Items;

/// Whether a declaration is a cyclic enumeration.
fn is_cyclic_declaration(item: &Declaration) -> bool
    ensures { result ≡ is_cyclic_declaration item.now }
{
    match item {
        Declaration::Named { body, .. } => match body {
            SortBody::Plain(_) => false,
            SortBody::Finite(_) => false,
            SortBody::Cyclic(_) => true,
        },
        Declaration::Variable { .. } => false,
        Declaration::Partition { .. } => false,
    }
}

/// Whether the declaration at this place is a cyclic enumeration.
pub(crate) fn is_cyclic(items: &[Declaration], place: u32) -> bool
    ensures { result ≡ is_cyclic items.now place }
{
    match items.get(place as usize) {
        Some(item) => is_cyclic_declaration(item),
        None => false,
    }
}

/// The sort that the declaration at this place declares.
fn declared_sort(item: &Declaration, place: u32) -> Sort
    requires { IsSome (sort_at place item.now) }
    ensures { sort_at place item.now ≡ Some result }
{
    match item {
        Declaration::Named { body, .. } => match body {
            SortBody::Plain(_) => unreachable!(),
            SortBody::Finite(_) => Sort::Enumeration(place),
            SortBody::Cyclic(_) => Sort::Enumeration(place),
        },
        Declaration::Variable { .. } => unreachable!(),
        Declaration::Partition { .. } => Sort::Partition(place),
    }
}

/// The enumeration or partition of a constant.
pub(crate) fn constant_sort(items: &[Declaration], c: ConstantRef) -> Sort
    requires { IsSome (sort_of_constant items.now c) }
    ensures { sort_of_constant items.now c ≡ Some result }
{
    declared_sort(&items[c.declaration as usize], c.declaration)
}

/// The place of a variable's declaration.
pub(crate) fn place_of(variables: &[u32], v: u32) -> u32
    requires { v < length variables.now }
    ensures { slice_get variables.now v ≡ Some result }
{
    variables[v as usize]
}

/// The entry of the table at a place.
pub(crate) fn entry(tables: &[Option<Items<u32>>], place: u32, k: u64) -> u32
    requires { (table : List ℕ) × (slice_get tables.now place ≡ Some (Some table)) × (k < length table) }
    ensures { option_and_then (λ t. option_and_then (λ table. slice_get table k) t) (slice_get tables.now place) ≡ Some result }
{
    match &tables[place as usize] {
        Some(table) => table.as_slice()[k as usize],
        None => unreachable!(),
    }
}
