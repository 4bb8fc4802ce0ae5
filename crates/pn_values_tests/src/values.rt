//! What no clause says of sorts and values: that calls succeed while there is memory, and the order
//! by its bound.

use pn_samples::sort_of;
use pn_text::Text;
use pn_values::{Sort, Value, laws};
use sqlite_items::Items;
use std::alloc::{AllocError, Global};
use std::test::Fail;

fn text(alloc: Global, bytes: &str) -> Result<Value, AllocError> {
    Ok(Value::Text(Text::from_str(alloc, bytes)?))
}

fn put(items: &mut Items<Value>, first: Value, second: Value) -> Result<(), AllocError> {
    items.push(first)?;
    items.push(second)
}

fn pair(alloc: Global, first: Value, second: Value) -> Result<Items<Value>, AllocError> {
    let mut items = Items::new(alloc);
    put(&mut items, first, second)?;
    Ok(items)
}

fn single(alloc: Global, item: Value) -> Result<Items<Value>, AllocError> {
    let mut items = Items::new(alloc);
    items.push(item)?;
    Ok(items)
}

/// Values without parts, from the least to the greatest.
fn put_plain(alloc: Global, values: &mut Vec<Value>) -> Result<(), AllocError> {
    values.push(Value::Dot)?;
    values.push(Value::Bool(false))?;
    values.push(Value::Bool(true))?;
    values.push(Value::Const(9))?;
    values.push(Value::Int(-7))?;
    values.push(Value::Int(3))?;
    values.push(text(alloc, "ab")?)?;
    values.push(text(alloc, "b")?)?;
    Ok(())
}

/// Values with parts, from the least to the greatest.
fn put_parted(alloc: Global, values: &mut Vec<Value>) -> Result<(), AllocError> {
    values.push(Value::Tuple(single(alloc, Value::Int(1))?))?;
    values.push(Value::Tuple(pair(alloc, Value::Int(1), Value::Dot)?))?;
    values.push(Value::Tuple(single(alloc, Value::Int(2))?))?;
    values.push(nested(alloc)?)?;
    values.push(Value::List(Items::new(alloc)))?;
    values.push(Value::List(single(alloc, Value::List(Items::new(alloc)))?))?;
    Ok(())
}

fn put_all(alloc: Global, values: &mut Vec<Value>) -> Result<(), AllocError> {
    put_plain(alloc, values)?;
    put_parted(alloc, values)
}

/// Whether each compares with each as their places do.
fn is_rising<T: Ord>(items: &[T]) -> bool {
    for i in 0..items.len() {
        for j in 0..items.len() {
            if items[i].cmp(&items[j]) != i.cmp(&j) {
                return false;
            }
        }
    }
    true
}

/// A tuple of a text and an empty list.
fn nested(alloc: Global) -> Result<Value, AllocError> {
    let last = Value::List(Items::new(alloc));
    Ok(Value::Tuple(pair(alloc, text(alloc, "x")?, last)?))
}

fn is_copied(alloc: Global, value: &Value) -> Result<bool, AllocError> {
    let twin = value.copy(alloc)?;
    Ok(twin == *value)
}

fn are_copied(alloc: Global, values: &[Value]) -> Result<bool, AllocError> {
    for value in values {
        if !is_copied(alloc, value)? {
            return Ok(false);
        }
    }
    Ok(true)
}

#[test]
fn order_and_copies_of_values(rt: HostRuntime) -> Result<(), Fail> {
    let mut values = Vec::new(rt.alloc());
    put_all(rt.alloc(), &mut values)?;
    assert!(rt; is_rising(values.as_slice()) && are_copied(rt.alloc(), values.as_slice())?);
    laws::order_by_levels();
    Ok(())
}

fn is_copied_sort(alloc: Global, sort: &Sort) -> Result<bool, AllocError> {
    let twin = sort.copy(alloc)?;
    Ok(twin.is_same(sort))
}

fn is_kin(alloc: Global, sort: &Sort, kin: &Sort) -> Result<bool, AllocError> {
    let found = sort.kin(alloc)?;
    Ok(found.is_same(kin))
}

/// Whether a product of the lists of a sort and a range is another sort than its kin.
fn differs_from_its_kin(alloc: Global, sort: &Sort) -> Result<bool, AllocError> {
    let kin = sort_of(alloc, "Product/2 List Integer Range/-1/2")?;
    Ok(!sort.is_same(&kin) && is_kin(alloc, sort, &kin)?)
}

fn is_copied_and_differs(alloc: Global, sort: &Sort) -> Result<bool, AllocError> {
    Ok(is_copied_sort(alloc, sort)? && differs_from_its_kin(alloc, sort)?)
}

#[test]
fn sorts(rt: HostRuntime) -> Result<(), Fail> {
    let sort = sort_of(rt.alloc(), "Product/2 List Natural Range/-1/2")?;
    assert!(rt; is_copied_and_differs(rt.alloc(), &sort)?);
    Ok(())
}

#[test]
fn kin_of_positive(rt: HostRuntime) -> Result<(), Fail> {
    assert!(rt; is_kin(rt.alloc(), &Sort::Positive, &Sort::Integer)?);
    Ok(())
}
