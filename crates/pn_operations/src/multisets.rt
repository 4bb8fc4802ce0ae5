//! Multisets of values, whose counts are from 1 to 2^63 - 1.

ghost use Rattle.std.specs.Prelude.{◌≡◌, ◌-◌, ◌<◌, ◌≤◌, [], ◌∷◌, ◌++◌, ◌↔◌, length, take, drop, IfOk, OnOk, IsTrue};
ghost use Rattle.pn_bag.specs.Algebra.{scaled};
ghost use Rattle.pn_bag.specs.Bag.{IsBag};
ghost use Rattle.pn_operations.specs.Multisets.{bag_of_value, bag_sum, bag_difference, bag_without, bag_multiple, within_counts, bag_size, value_count, does_include, is_same_bag};
ghost use Rattle.pn_operations.specs.Halves.{sum_of_two, sum_of_both};
ghost use Rattle.pn_values.specs.Order.{value_cmp};

use pn_bag::{Bag, BagFault};
use pn_values::Value;
use std::alloc::{AllocError, Global};

/// A value once.
pub fn once(alloc: Global, value: Value) -> Result<Bag<Value>, AllocError>
    ensures { IfOk result (λ bag. bag ≡ (value, 1) ∷ []) }
{
    let mut bag = Bag::new(alloc);
    if bag.add(value, 1).is_err() {
        return Err(AllocError);
    }
    Ok(bag)
}

/// `numberof`: the value that often, and `None` where the number is below 0.
pub fn of_value(alloc: Global, number: &i64, value: Value) -> Result<Option<Bag<Value>>, AllocError>
    ensures { IfOk result (λ bag. bag ≡ bag_of_value number.now value) }
{
    let Ok(count) = u64::try_from(*number) else {
        return Ok(None);
    };
    let mut bag = Bag::new(alloc);
    if bag.add(value, count).is_err() {
        return Err(AllocError);
    }
    Ok(Some(bag))
}

/// `add`: `None` where a count of the sum passes 2^63 - 1. Halves are joined, so an entry moves
/// once for each time that the number of multisets can be halved.
pub fn sum(bags: Vec<Bag<Value>>) -> Result<Option<Bag<Value>>, AllocError>
    ensures { IfOk result (λ bag. bag ≡ bag_sum bags.items) }
{
    if bags.is_empty() {
        return Ok(Some(Bag::new(*bags.allocator())));
    }
    let mut rest = bags;
    let count = rest.len();
    sum_last(&mut rest, count)
}

/// Takes the last multisets out, and gives their sum.
fn sum_last(bags: &mut Vec<Bag<Value>>, count: usize) -> Result<Option<Bag<Value>>, AllocError>
    requires some { 0 < count }
    requires within { count ≤ length bags.old.items }
    ensures rest { OnOk result (bags.new.items
        ≡ take (length bags.old.items - count) bags.old.items) }
    ensures sum { IfOk result (λ bag. bag
        ≡ bag_sum (drop (length bags.old.items - count) bags.old.items)) }
{
    if count == 1 {
        return Ok(Some(take_last(bags)));
    }
    let half = count / 2;
    let right = sum_last(bags, half)?;
    let left = sum_last(bags, count - half)?;
    join_both(left, right)
}

/// Takes the last multiset out. It is a sum by itself.
fn take_last(bags: &mut Vec<Bag<Value>>) -> Bag<Value>
    requires { 0 < length bags.old.items }
    ensures rest { bags.old.items ≡ bags.new.items ++ result ∷ [] }
    ensures order { IsBag value_cmp result }
{
    let bag = bags.pop().unwrap();
    in_order(&bag);
    bag
}

/// The sum of two sums.
fn join_both(
    left: Option<Bag<Value>>,
    right: Option<Bag<Value>>,
) -> Result<Option<Bag<Value>>, AllocError>
    ensures { IfOk result (λ bag. bag ≡ sum_of_both left right) }
{
    match (left, right) {
        (Some(one), Some(other)) => join(one, other),
        _ => Ok(None),
    }
}

/// The sum of two multisets.
fn join(one: Bag<Value>, other: Bag<Value>) -> Result<Option<Bag<Value>>, AllocError>
    ensures { IfOk result (λ bag. bag ≡ sum_of_two one other) }
{
    in_order(&one);
    let mut sum = one;
    match sum.join(other) {
        Ok(()) => {
            in_order(&sum);
            Ok(Some(sum))
        }
        Err(BagFault::TooLarge) => Ok(None),
        Err(BagFault::Memory(fault)) => Err(fault),
    }
}

/// Says that the entries of a multiset are in order, and that each count is from 1 to 2^63 - 1.
fn in_order(bag: &Bag<Value>)
    ensures { IsBag value_cmp bag.now }
{
    let _entries = bag.iter();
}

/// `subtract`: the parts are taken away from the whole, one after another, and `None` where one is
/// not included in what is left. Their sum is taken away at once.
pub fn without(whole: Bag<Value>, parts: Vec<Bag<Value>>) -> Result<Option<Bag<Value>>, AllocError>
    ensures { IfOk result (λ bag. bag ≡ bag_without whole parts.items) }
{
    in_order(&whole);
    match sum(parts)? {
        Some(part) => Ok(difference(whole, &part)),
        None => Ok(None),
    }
}

/// What is left of the whole without the part, and `None` where it is not included. It takes no
/// memory.
fn difference(whole: Bag<Value>, part: &Bag<Value>) -> Option<Bag<Value>>
    ensures { result ≡ bag_difference whole part.now }
{
    in_order(&whole);
    let mut rest = whole;
    match rest.less(part) {
        Ok(()) => {
            in_order(&rest);
            Some(rest)
        }
        Err(_short) => None,
    }
}

/// `scalarproduct`: `None` where the number is below 0 or a count passes 2^63 - 1. It takes no
/// memory.
pub fn multiple(number: &i64, bag: Bag<Value>) -> Option<Bag<Value>>
    ensures { result ≡ bag_multiple number.now bag }
{
    match u64::try_from(*number) {
        Ok(by) => scaled_by(by, bag),
        Err(_) => None,
    }
}

/// Each count multiplied, and `None` where one passes 2^63 - 1.
fn scaled_by(by: u64, bag: Bag<Value>) -> Option<Bag<Value>>
    ensures { result ≡ within_counts (scaled by bag) }
{
    in_order(&bag);
    let mut multiple = bag;
    match multiple.scale(by) {
        Ok(()) => {
            in_order(&multiple);
            Some(multiple)
        }
        Err(_too_large) => None,
    }
}

/// `cardinality`: the sum of counts, and `None` past 2^63 - 1.
pub fn size(bag: &Bag<Value>) -> Option<i64>
    ensures { result ≡ bag_size bag.now }
{
    i64::try_from(bag.cardinality()).ok()
}

/// `cardinalityof`: the count of the value.
pub fn count(bag: &Bag<Value>, value: &Value) -> i64
    ensures { result ≡ value_count bag.now value.now }
{
    bag.count(value) as i64
}

/// `contains`: whether the first includes the second.
pub fn includes(whole: &Bag<Value>, part: &Bag<Value>) -> bool
    ensures { result ≡ does_include whole.now part.now }
{
    whole.includes(part)
}

/// `equality` of multisets, in one walk over both.
pub fn is_same(one: &Bag<Value>, other: &Bag<Value>) -> bool
    ensures value { result ≡ is_same_bag one.now other.now }
    ensures same { IsTrue result ↔ (one.now ≡ other.now) }
{
    in_order(one);
    in_order(other);
    has_same_entries(one, other)
}

/// Whether both have the same entries, one after another.
fn has_same_entries(one: &Bag<Value>, other: &Bag<Value>) -> bool
    ensures { IsTrue result ↔ (one.now ≡ other.now) }
{
    let mut others = other.iter();
    for (value, count) in one.iter() {
        let Some((another, number)) = others.next() else {
            return false;
        };
        if !is_same_entry(value, count, another, number) {
            return false;
        }
    }
    others.next().is_none()
}

/// Whether both the values and their counts are the same.
fn is_same_entry(value: &Value, count: u64, another: &Value, number: u64) -> bool
    ensures { IsTrue result ↔ ((value.now ≡ another.now) × (count ≡ number)) }
{
    count == number && value == another
}
