//! What single rows of the table of operators give. Each takes its arguments out of their list.

ghost use Rattle.std.specs.Prelude.{◌≡◌, not, ◌||◌, length, map, drop, pos, ◌==◌, if◌then◌else◌, IfOk};
ghost use Rattle.pn_operations.specs.Lists.{list_concatenation, list_length, list_member};
ghost use Rattle.pn_operations.specs.Multisets.{bag_multiple, bag_of_value, bag_size, bag_sum, bag_without, does_include, value_count};
ghost use Rattle.pn_operations.specs.Outcomes.{bag_in, bag_where, first_of, items_in, list_where, number_in, number_where, second_of, text_in, text_where, truth, value_in, value_where};
ghost use Rattle.pn_operations.specs.Rows.{are_equal, next_place, previous_place};
ghost use Rattle.pn_operations.specs.Texts.{text_cmp, text_concatenation, text_length};
ghost use Rattle.pn_values.specs.Order.{value_cmp};
ghost use Rattle.pn_values.specs.declared.value.Value.TheVariants as values;

use crate::arguments::{number_at, take_bags, take_first, take_two, take_values};
use crate::outcome::Outcome;
use crate::readings::{into_bag, into_items, into_text, into_value};
use crate::{lists, multisets, texts};
use pn_bag::Bag;
use pn_text::Text;
use pn_values::Value;
use sqlite_items::Items;
use std::alloc::{AllocError, Global};
use std::cmp::Ordering;

// ---- outcomes

pub(crate) fn truth(holds: bool) -> Outcome
    ensures { result ≡ truth holds }
{
    Outcome::Value(Value::Bool(holds))
}

pub(crate) fn constant(place: u32) -> Outcome
    ensures { result ≡ Outcome.Value (values.Const place) }
{
    Outcome::Value(Value::Const(place))
}

pub(crate) fn number_where(number: Option<i64>) -> Outcome
    ensures { result ≡ number_where number }
{
    match number {
        Some(number) => Outcome::Value(Value::Int(number)),
        None => Outcome::NoValue,
    }
}

fn text_where(text: Option<Text>) -> Outcome
    ensures { result ≡ text_where text }
{
    match text {
        Some(text) => Outcome::Value(Value::Text(text)),
        None => Outcome::NoValue,
    }
}

fn list_where(items: Option<Items<Value>>) -> Outcome
    ensures { result ≡ list_where items }
{
    match items {
        Some(items) => Outcome::Value(Value::List(items)),
        None => Outcome::NoValue,
    }
}

fn value_where(value: Option<Value>) -> Outcome
    ensures { result ≡ value_where value }
{
    match value {
        Some(value) => Outcome::Value(value),
        None => Outcome::NoValue,
    }
}

fn bag_where(bag: Option<Bag<Value>>) -> Outcome
    ensures { result ≡ bag_where bag }
{
    match bag {
        Some(bag) => Outcome::Bag(bag),
        None => Outcome::NoValue,
    }
}

// ---- truth values, equality and order

/// `imply`
pub(crate) fn implies(one: bool, other: bool) -> bool
    ensures { result ≡ (not one || other) }
{
    !one || other
}

/// `equality`: values in one comparison, multisets in one walk over both.
pub(crate) fn are_equal(args: &mut Vec<Outcome>) -> bool
    ensures { result ≡ are_equal (first_of args.old.items) (second_of args.old.items) }
{
    let (one, other) = take_two(args);
    are_both_equal(one, other)
}

fn are_both_equal(one: Outcome, other: Outcome) -> bool
    ensures { result ≡ are_equal one other }
{
    match (one, other) {
        (Outcome::Bag(one), Outcome::Bag(other)) => multisets::is_same(&one, &other),
        (one, other) => into_value(one).cmp(&into_value(other)).is_eq(),
    }
}

/// How the first value compares with the second.
pub(crate) fn order(args: &mut Vec<Outcome>) -> Ordering
    ensures { result ≡ value_cmp (value_in (first_of args.old.items)) (value_in (second_of args.old.items)) }
{
    let (one, other) = take_two(args);
    into_value(one).cmp(&into_value(other))
}

// ---- constants and tuples

/// `successor`: the first comes behind the last.
pub(crate) fn next_place(round: u32, place: u32) -> u32
    ensures { result ≡ next_place round place }
{
    if place < round.saturating_sub(1) {
        return place + 1;
    }
    0
}

/// `predecessor`: the last comes before the first.
pub(crate) fn previous_place(round: u32, place: u32) -> u32
    ensures { result ≡ previous_place round place }
{
    if place == 0 {
        return round.saturating_sub(1);
    }
    place - 1
}

/// `tuple`
pub(crate) fn tuple(alloc: Global, args: &mut Vec<Outcome>) -> Result<Outcome, AllocError>
    ensures { IfOk result (λ outcome. outcome ≡ Outcome.Value (values.Tuple (map value_in args.old.items))) }
{
    let parts = take_values(alloc, args)?;
    Ok(Outcome::Value(Value::Tuple(Items::from_vec(parts))))
}

// ---- multisets

/// `numberof`
pub(crate) fn number_of(alloc: Global, args: &mut Vec<Outcome>) -> Result<Outcome, AllocError>
    ensures { IfOk result (λ outcome. outcome ≡ bag_where (if length args.old.items == 1
        then bag_of_value (pos 1) (value_in (first_of args.old.items))
        else bag_of_value (number_in (first_of args.old.items)) (value_in (second_of args.old.items)))) }
{
    if args.len() == 1 {
        return once(alloc, into_value(take_first(args)));
    }
    let number = number_at(args, 0);
    let (_number, value) = take_two(args);
    let bag = multisets::of_value(alloc, &number, into_value(value))?;
    Ok(bag_where(bag))
}

fn once(alloc: Global, value: Value) -> Result<Outcome, AllocError>
    ensures { IfOk result (λ outcome. outcome ≡ bag_where (bag_of_value (pos 1) value)) }
{
    let bag = multisets::once(alloc, value)?;
    Ok(Outcome::Bag(bag))
}

/// `add`
pub(crate) fn sum(alloc: Global, args: &mut Vec<Outcome>) -> Result<Outcome, AllocError>
    ensures { IfOk result (λ outcome. outcome ≡ bag_where (bag_sum (map bag_in args.old.items))) }
{
    let bags = take_bags(alloc, args)?;
    let sum = multisets::sum(bags)?;
    Ok(bag_where(sum))
}

/// `subtract`
pub(crate) fn difference(alloc: Global, args: &mut Vec<Outcome>) -> Result<Outcome, AllocError>
    ensures { IfOk result (λ outcome. outcome ≡ bag_where (bag_without
        (bag_in (first_of args.old.items)) (map bag_in (drop 1 args.old.items)))) }
{
    let whole = take_first(args);
    let parts = take_bags(alloc, args)?;
    let rest = multisets::without(into_bag(alloc, whole), parts)?;
    Ok(bag_where(rest))
}

/// `scalarproduct`
pub(crate) fn multiple(alloc: Global, args: &mut Vec<Outcome>) -> Outcome
    ensures { result ≡ bag_where (bag_multiple (number_in (first_of args.old.items)) (bag_in (second_of args.old.items))) }
{
    let number = number_at(args, 0);
    let (_number, bag) = take_two(args);
    bag_where(multisets::multiple(&number, into_bag(alloc, bag)))
}

/// `cardinality`
pub(crate) fn size(alloc: Global, args: &mut Vec<Outcome>) -> Outcome
    ensures { result ≡ number_where (bag_size (bag_in (first_of args.old.items))) }
{
    let bag = into_bag(alloc, take_first(args));
    number_where(multisets::size(&bag))
}

/// `cardinalityof`
pub(crate) fn count(alloc: Global, args: &mut Vec<Outcome>) -> Outcome
    ensures { result ≡ Outcome.Value (values.Int (value_count (bag_in (first_of args.old.items)) (value_in (second_of args.old.items)))) }
{
    let (bag, value) = take_two(args);
    let count = multisets::count(&into_bag(alloc, bag), &into_value(value));
    Outcome::Value(Value::Int(count))
}

/// `contains`
pub(crate) fn includes(alloc: Global, args: &mut Vec<Outcome>) -> bool
    ensures { result ≡ does_include (bag_in (first_of args.old.items)) (bag_in (second_of args.old.items)) }
{
    let (whole, part) = take_two(args);
    multisets::includes(&into_bag(alloc, whole), &into_bag(alloc, part))
}

// ---- texts

/// `stringconcatenation`
pub(crate) fn joined_texts(alloc: Global, args: &mut Vec<Outcome>) -> Result<Outcome, AllocError>
    ensures { IfOk result (λ outcome. outcome ≡ text_where (text_concatenation
        (text_in (first_of args.old.items)) (text_in (second_of args.old.items)))) }
{
    let (one, other) = take_two(args);
    let other = into_text(alloc, other);
    let text = texts::concatenation(into_text(alloc, one), &other)?;
    Ok(text_where(text))
}

/// `stringlength`
pub(crate) fn text_length(alloc: Global, args: &mut Vec<Outcome>) -> Outcome
    ensures { result ≡ number_where (text_length (text_in (first_of args.old.items))) }
{
    let text = into_text(alloc, take_first(args));
    number_where(texts::length(&text))
}

/// How the first text compares with the second.
pub(crate) fn text_order(alloc: Global, args: &mut Vec<Outcome>) -> Ordering
    ensures { result ≡ text_cmp (text_in (first_of args.old.items)) (text_in (second_of args.old.items)) }
{
    let (one, other) = take_two(args);
    texts::order(&into_text(alloc, one), &into_text(alloc, other))
}

// ---- lists

/// `makelist`
pub(crate) fn list(alloc: Global, args: &mut Vec<Outcome>) -> Result<Outcome, AllocError>
    ensures { IfOk result (λ outcome. outcome ≡ Outcome.Value (values.List (map value_in args.old.items))) }
{
    let items = take_values(alloc, args)?;
    Ok(Outcome::Value(lists::list_of(items)))
}

/// `listconcatenation`
pub(crate) fn joined_lists(alloc: Global, args: &mut Vec<Outcome>) -> Result<Outcome, AllocError>
    ensures { IfOk result (λ outcome. outcome ≡ list_where (list_concatenation
        (items_in (first_of args.old.items)) (items_in (second_of args.old.items)))) }
{
    let (one, other) = take_two(args);
    let items = lists::concatenation(into_items(alloc, one), into_items(alloc, other))?;
    Ok(list_where(items))
}

/// `listlength`
pub(crate) fn list_length(alloc: Global, args: &mut Vec<Outcome>) -> Outcome
    ensures { result ≡ number_where (list_length (items_in (first_of args.old.items))) }
{
    let items = into_items(alloc, take_first(args));
    number_where(lists::length(&items))
}

/// `memberatindex`
pub(crate) fn member(alloc: Global, args: &mut Vec<Outcome>) -> Outcome
    ensures { result ≡ value_where (list_member (items_in (first_of args.old.items)) (number_in (second_of args.old.items))) }
{
    let place = number_at(args, 1);
    let items = into_items(alloc, take_first(args));
    value_where(lists::member(items, &place))
}
