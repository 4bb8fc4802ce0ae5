//! What declarations say of their own.

ghost use Rattle.std.specs.Prelude.{◌≡◌, ◌<◌, ◌^◌, length, IfOk, IsTrue, ◌↔◌, slice_get, Some};
ghost use Rattle.std.specs.Option.{option_map};
ghost use Rattle.pn_names.specs.Names.{id_of, constant_ids, id_of_constant, widths_of, variables_of, variable_name, variable_places_of, IsConstant, AreNumbered};

use pn_syntax::{Declaration, SortBody};
use pn_values::ConstantRef;
use std::alloc::{AllocError, Global};

/// The id of a declaration.
pub(crate) fn id_of(item: &Declaration) -> &str
    ensures { result.now ≡ id_of item.now }
{
    match item {
        Declaration::Named { id, .. } => id.as_str(),
        Declaration::Variable { id, .. } => id.as_str(),
        Declaration::Partition { id, .. } => id.as_str(),
    }
}

/// The id of the declaration at this place.
pub fn declaration_id(items: &[Declaration], place: u32) -> &str
    requires { place < length items.now }
    ensures { option_map id_of (slice_get items.now place) ≡ Some result.now }
{
    id_of(&items[place as usize])
}

/// How many constants or elements a declaration has.
pub fn constant_count(item: &Declaration) -> usize
    ensures { result ≡ length (constant_ids item.now) }
{
    match item {
        Declaration::Named { body, .. } => match body {
            SortBody::Plain(_) => 0,
            SortBody::Finite(constants) => constants.len(),
            SortBody::Cyclic(constants) => constants.len(),
        },
        Declaration::Variable { .. } => 0,
        Declaration::Partition { elements, .. } => elements.len(),
    }
}

/// The id of a constant or element of a declaration.
pub(crate) fn id_within(item: &Declaration, index: usize) -> &str
    requires { index < length (constant_ids item.now) }
    ensures { slice_get (constant_ids item.now) index ≡ Some result.now }
{
    match item {
        Declaration::Named { body, .. } => match body {
            SortBody::Plain(_) => unreachable!(),
            SortBody::Finite(constants) => constants.as_slice()[index].id.as_str(),
            SortBody::Cyclic(constants) => constants.as_slice()[index].id.as_str(),
        },
        Declaration::Variable { .. } => unreachable!(),
        Declaration::Partition { elements, .. } => elements.as_slice()[index].id.as_str(),
    }
}

/// The id of a constant or partition element.
pub fn constant_id(items: &[Declaration], c: ConstantRef) -> &str
    requires { IsConstant items.now c }
    ensures { id_of_constant items.now c ≡ Some result.now }
{
    id_within(&items[c.declaration as usize], c.index as usize)
}

/// Whether places and numbers fit in 32 bits.
pub fn are_numbered(items: &[Declaration]) -> bool
    ensures { IsTrue result ↔ AreNumbered items.now }
{
    if items.len() > u32::MAX as usize {
        return false;
    }
    items
        .iter()
        .all(|item| constant_count(item) <= u32::MAX as usize)
}

/// How many constants or elements each declaration has.
pub fn widths(alloc: Global, items: &[Declaration]) -> Result<Vec<u32>, AllocError>
    requires { AreNumbered items.now }
    ensures { IfOk result (λ v. v.items ≡ widths_of items.now) }
{
    let mut widths = Vec::new(alloc);
    for item in items {
        let count = constant_count(item);
        widths.push(count as u32)?;
    }
    Ok(widths)
}

/// The id of a variable. The places are those of the variables' declarations.
pub fn variable_id<'a>(items: &'a [Declaration], places: &[u32], variable: u32) -> &'a str
    requires places { places.now ≡ variable_places_of items.now }
    requires within { variable < length (variables_of items.now) }
    ensures { option_map variable_name (slice_get (variables_of items.now) variable) ≡ Some result.now }
{
    declaration_id(items, places[variable as usize])
}

/// The places of the variables' declarations, in order.
pub fn variable_places(alloc: Global, items: &[Declaration]) -> Result<Vec<u32>, AllocError>
    requires { length items.now < 2 ^ 32 }
    ensures { IfOk result (λ v. v.items ≡ variable_places_of items.now) }
{
    let mut places = Vec::new(alloc);
    let mut place: u32 = 0;
    for item in items {
        if let Declaration::Variable { .. } = item {
            places.push(place)?;
        }
        place += 1;
    }
    Ok(places)
}
