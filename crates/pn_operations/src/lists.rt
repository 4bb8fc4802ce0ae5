//! Lists of values.

ghost use Rattle.std.specs.Prelude.{◌≡◌, IfOk};
ghost use Rattle.pn_operations.specs.Lists.{list_concatenation, list_length, list_member};
ghost use Rattle.pn_values.specs.declared.value.Value.TheVariants as values;

use pn_values::Value;
use sqlite_items::Items;
use std::alloc::AllocError;

/// The greatest number of items of a list that `listconcatenation` gives.
const MOST_ITEMS: usize = 1048576;

/// `makelist`: the list of the items. It takes no memory.
pub fn list_of(items: Vec<Value>) -> Value
    ensures { result ≡ values.List items.items }
{
    Value::List(Items::from_vec(items))
}

/// `listconcatenation`, in the memory of the first: `None` where there are more than 1048576
/// items.
pub fn concatenation(
    one: Items<Value>,
    other: Items<Value>,
) -> Result<Option<Items<Value>>, AllocError>
    ensures { IfOk result (λ list. list ≡ list_concatenation one other) }
{
    if one.len() > MOST_ITEMS || other.len() > MOST_ITEMS - one.len() {
        return Ok(None);
    }
    let mut list = one;
    list.append(other)?;
    Ok(Some(list))
}

/// `listlength`: the number of items.
pub fn length(items: &Items<Value>) -> Option<i64>
    ensures { result ≡ list_length items.now }
{
    i64::try_from(items.len()).ok()
}

/// `memberatindex`: the item at the place, counted from 0, and `None` outside.
pub fn member(items: Items<Value>, place: &i64) -> Option<Value>
    ensures { result ≡ list_member items place.now }
{
    let place = usize::try_from(*place).ok()?;
    if place >= items.len() {
        return None;
    }
    let mut list = items;
    Some(list.remove(place))
}
