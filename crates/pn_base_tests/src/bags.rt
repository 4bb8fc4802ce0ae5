//! What no clause says: that calls succeed while there is memory, and the worked examples.

ghost use Rattle.std.specs.Prelude.{◌≡◌, ℕ, List, Ok, IfOk};
ghost use Rattle.std.specs.Fn.{FnReturnsAt};
ghost use Rattle.std.specs.String.{string_cmp};
ghost use Rattle.std.specs.declared.cmp.Ordering.TheVariants.{Equal};
ghost use Rattle.pn_bag.specs.Algebra.{joined, image_of};
ghost use Rattle.pn_bag.specs.Counts.{IsSame};
ghost use Rattle.pn_base_tests.specs.declared.bags.Token.{Token};

use pn_bag::{Bag, BagFault, Short, laws};
use std::alloc::{AllocError, Global};
use std::process::Abort;
use std::test::Fail;

/// The greatest count that a bag may have.
const GREATEST: u64 = 9223372036854775807;

/// Two keys.
const A: u64 = 1;

const B: u64 = 2;

/// A key whose order is derived: a place, and a colour there.
#[derive(Clone, Copy, PartialEq, Eq, PartialOrd, Ord)]
struct Token {
    place: u32,
    colour: u64,
}

/// Adds these counts of A and B.
fn add_counts(bag: &mut Bag<u64>, a: u64, b: u64) -> Result<(), BagFault> {
    bag.add(B, b)?;
    bag.add(A, a)
}

/// A bag with these counts of A and B.
fn bag_of(alloc: Global, a: u64, b: u64) -> Result<Bag<u64>, BagFault> {
    let mut bag = Bag::new(alloc);
    add_counts(&mut bag, a, b)?;
    Ok(bag)
}

fn has_counts(bag: &Bag<u64>, a: u64, b: u64) -> bool {
    bag.count(&A) == a && bag.count(&B) == b
}

fn refuses_two(rt: &impl Abort, alloc: Global, bag: &mut Bag<u64>) -> Result<(), Fail> {
    let two = bag_of(alloc, 1, 2)?;
    let short = Short {
        position: 1,
        need: 2,
        has: 1,
    };
    assert!(rt; bag.less(&two) == Err(short));
    assert!(rt; has_counts(bag, 2, 1));
    assert!(rt; bag.cardinality() == 3);
    Ok(())
}

fn is_copied(rt: &impl Abort, bag: &Bag<u64>) -> Result<(), Fail> {
    let twin = bag.try_clone(|key| Ok(*key))?;
    assert!(rt; has_counts(&twin, 2, 1));
    Ok(())
}

fn gives_two(rt: &impl Abort, alloc: Global, bag: &mut Bag<u64>) -> Result<(), Fail> {
    let two = bag_of(alloc, 2, 0)?;
    assert!(rt; bag.less(&two) == Ok(()));
    assert!(rt; has_counts(bag, 0, 1));
    Ok(())
}

fn takes_away(rt: &impl Abort, alloc: Global, bag: &mut Bag<u64>) -> Result<(), Fail> {
    refuses_two(rt, alloc, bag)?;
    is_copied(rt, bag)?;
    gives_two(rt, alloc, bag)
}

fn adds_no_more(rt: &impl Abort, bag: &mut Bag<u64>) -> Result<(), Fail> {
    assert!(rt; matches!(bag.add(A, 1), Err(BagFault::TooLarge)));
    assert!(rt; has_counts(bag, GREATEST, 0));
    bag.add(B, 0)?;
    assert!(rt; has_counts(bag, GREATEST, 0));
    Ok(())
}

fn scales_no_more(rt: &impl Abort, bag: &mut Bag<u64>) -> Result<(), Fail> {
    assert!(rt; matches!(bag.scale(4611686018427387904), Err(BagFault::TooLarge)));
    bag.scale(0)?;
    assert!(rt; bag.cardinality() == 0);
    Ok(())
}

fn joins_no_more(rt: &impl Abort, alloc: Global, bag: &mut Bag<u64>) -> Result<(), Fail> {
    bag.scale(GREATEST)?;
    assert!(rt; has_counts(bag, GREATEST, 0));
    let more = bag_of(alloc, 1, 0)?;
    assert!(rt; matches!(bag.join(more), Err(BagFault::TooLarge)));
    Ok(())
}

fn joins(rt: &impl Abort, alloc: Global, bag: &mut Bag<u64>) -> Result<(), Fail> {
    let more = bag_of(alloc, 1, 1)?;
    bag.join(more)?;
    assert!(rt; has_counts(bag, 2, 1));
    Ok(())
}

/// What a test asks of a bag.
#[derive(Clone, Copy)]
enum Asked {
    TakesAway,
    AddsNoMore,
    ScalesNoMore,
    JoinsNoMore,
    Joins,
}

fn holds(rt: &impl Abort, alloc: Global, bag: &mut Bag<u64>, asked: Asked) -> Result<(), Fail> {
    match asked {
        Asked::TakesAway => takes_away(rt, alloc, bag),
        Asked::AddsNoMore => adds_no_more(rt, bag),
        Asked::ScalesNoMore => scales_no_more(rt, bag),
        Asked::JoinsNoMore => joins_no_more(rt, alloc, bag),
        Asked::Joins => joins(rt, alloc, bag),
    }
}

/// Asks this of a bag with these counts of A and B. No other function owns it.
fn answer(rt: &impl Abort, alloc: Global, a: u64, b: u64, asked: Asked) -> Result<(), Fail> {
    let mut bag = bag_of(alloc, a, b)?;
    holds(rt, alloc, &mut bag, asked)
}

#[test]
fn counts_and_the_greatest_of_them(rt: HostRuntime) -> Result<(), Fail> {
    answer(&rt, rt.alloc(), 2, 1, Asked::TakesAway)?;
    answer(&rt, rt.alloc(), GREATEST, 0, Asked::AddsNoMore)?;
    answer(&rt, rt.alloc(), 2, 0, Asked::ScalesNoMore)?;
    answer(&rt, rt.alloc(), 1, 0, Asked::JoinsNoMore)?;
    answer(&rt, rt.alloc(), 1, 0, Asked::Joins)
}

/// A bag with these keys and counts, the second key first.
fn pair<K: Ord + Drop>(alloc: Global, low: (K, u64), high: (K, u64)) -> Result<Bag<K>, BagFault> {
    let mut bag = Bag::new(alloc);
    add_pair(&mut bag, low, high)?;
    Ok(bag)
}

fn add_pair<K: Ord + Drop>(
    bag: &mut Bag<K>,
    low: (K, u64),
    high: (K, u64),
) -> Result<(), BagFault> {
    bag.add(high.0, high.1)?;
    bag.add(low.0, low.1)
}

/// The smaller of two keys twice and the greater one once, beside the smaller once and the greater
/// four times.
fn compares<K: Ord + Drop>(rt: &impl Abort, bag: &Bag<K>, more: &Bag<K>, low: &K, high: &K) {
    assert!(rt; bag.count(low) == 2 && bag.count(high) == 1 && !bag.includes(more));
    let short = Short {
        position: 1,
        need: 4,
        has: 1,
    };
    assert!(rt; bag.first_short(more) == Some(short));
}

fn is_entry<K: Ord + Drop>(entry: Option<(&K, u64)>, key: &K, count: u64) -> bool {
    match entry {
        Some((found, number)) => found == key && number == count,
        None => false,
    }
}

/// Whether a bag has three of the smaller key and twelve of the greater one, in this order.
fn has_three_and_twelve<K: Ord + Drop>(bag: &Bag<K>, low: &K, high: &K) -> bool {
    let mut entries = bag.iter();
    is_entry(entries.next(), low, 3)
        && is_entry(entries.next(), high, 12)
        && entries.next().is_none()
}

/// Joins the other bag, takes away what the bag had before, and takes the rest three times.
fn grows<K: Ord + Drop>(
    rt: &impl Abort,
    bag: &mut Bag<K>,
    more: Bag<K>,
    before: &Bag<K>,
) -> Result<(), Fail> {
    bag.join(more)?;
    assert!(rt; bag.includes(before) && bag.cardinality() == 8);
    bag.less(before).map_err(|_| "not included")?;
    bag.scale(3)?;
    Ok(())
}

/// Each call once, over two keys of which the first is the smaller.
fn calls<K: Ord + Drop>(
    rt: &impl Abort,
    bag: &mut Bag<K>,
    more: Bag<K>,
    before: &Bag<K>,
    low: &K,
    high: &K,
) -> Result<(), Fail> {
    compares(rt, bag, &more, low, high);
    grows(rt, bag, more, before)?;
    assert!(rt; has_three_and_twelve(bag, low, high));
    Ok(())
}

fn copied_calls<K: Ord + Drop, F: Fn(&K) -> Result<K, AllocError>>(
    rt: &impl Abort,
    bag: &mut Bag<K>,
    more: Bag<K>,
    low: &K,
    high: &K,
    copy: F,
) -> Result<(), Fail>
    requires callable { F.IsAlwaysCallable copy }
    requires same { (key again : K) → FnReturnsAt F.Fn copy key (Ok again)
        → K.cmp again key ≡ Equal }
{
    let before = bag.try_clone(copy)?;
    calls(rt, bag, more, &before, low, high)
}

#[test]
fn calls_with_numbers(rt: HostRuntime) -> Result<(), Fail> {
    let more = pair(rt.alloc(), (3u64, 1), (7, 4))?;
    let mut bag = pair(rt.alloc(), (3u64, 2), (7, 1))?;
    copied_calls(&rt, &mut bag, more, &3, &7, |key| Ok(*key))
}

#[test]
fn calls_with_tokens(rt: HostRuntime) -> Result<(), Fail> {
    let low = Token {
        place: 0,
        colour: 9,
    };
    let high = Token {
        place: 1,
        colour: 2,
    };
    let more = pair(rt.alloc(), (low, 1), (high, 4))?;
    let mut bag = pair(rt.alloc(), (low, 2), (high, 1))?;
    copied_calls(&rt, &mut bag, more, &low, &high, |key| Ok(*key))
}

/// A copy of a text, which compares Equal to it.
fn copy_text(text: &String) -> Result<String, AllocError>
    ensures { IfOk result (λ again. string_cmp again text.now ≡ Equal) }
{
    text.clone()
}

/// A bag of these texts, which are copied.
fn texts(alloc: Global, low: (&String, u64), high: (&String, u64)) -> Result<Bag<String>, Fail> {
    let first = copy_text(low.0)?;
    let second = copy_text(high.0)?;
    Ok(pair(alloc, (first, low.1), (second, high.1))?)
}

fn calls_of_texts(rt: &impl Abort, alloc: Global, low: &String, high: &String) -> Result<(), Fail> {
    let more = texts(alloc, (low, 1), (high, 4))?;
    let mut bag = texts(alloc, (low, 2), (high, 1))?;
    copied_calls(rt, &mut bag, more, low, high, copy_text)
}

#[test]
fn calls_with_texts(rt: HostRuntime) -> Result<(), Fail> {
    let low = String::from_str(rt.alloc(), "fork")?;
    let high = String::from_str(rt.alloc(), "think")?;
    calls_of_texts(&rt, rt.alloc(), &low, &high)
}

/// A loop over a bag sees its entries.
fn listed(alloc: Global, bag: &Bag<u64>) -> Result<Vec<(u64, u64)>, AllocError>
    ensures { IfOk result (λ list. list.items ≡ bag.now) }
{
    let mut list = Vec::new(alloc);
    for (key, count) in bag.iter() {
        list.push((*key, count))?;
    }
    Ok(list)
}

/// A step between markings of tokens is, along a map of tokens to numbers, a step between their
/// images: two key types, and the laws on images and sums.
fn image_steps()
    ensures { let token = ⟦<Token as Ord>⟧.cmp in let number = ⟦<u64 as Ord>⟧.cmp in
        (pairs : List (Token × ℕ)) (before input output after : List (Token × ℕ))
        → IsSame token (joined token after input) (joined token before output)
        → let image = image_of token number pairs in
        IsSame number (joined number (image after) (image input))
        (joined number (image before) (image output)) }
{
    laws::image_of_join::<Token, u64>();
    laws::same_has_same_results::<Token, u64>();
}

fn is_listed(rt: &impl Abort, alloc: Global, bag: &Bag<u64>) -> Result<(), Fail> {
    let list = listed(alloc, bag)?;
    assert!(rt; list.as_slice() == [(1, 7), (5, 2)].as_slice());
    Ok(())
}

#[test]
fn loops_and_laws_apply(rt: HostRuntime) -> Result<(), Fail> {
    image_steps();
    laws::greatest_count();
    let bag = pair(rt.alloc(), (1u64, 7), (5, 2))?;
    is_listed(&rt, rt.alloc(), &bag)
}
