//! The tokens of one place.

ghost use Rattle.std.specs.Prelude.{◌≡◌, ◌+◌, ◌<◌, ◌≤◌, None, Some, IfOk, IfSome, IsTrue, OnOk, false, length};
ghost use Rattle.pn_bag.specs.Bag.{IsBag};
ghost use Rattle.pn_bag.specs.Counts.{Every, count_in, count_of};
ghost use Rattle.pn_bag.specs.declared.TheConstants.{MAX_COUNT};
ghost use Rattle.pn_marking.specs.Totals.{IsValueOn, count_at};
ghost use Rattle.pn_net.specs.Orders.{token_cmp};
ghost use Rattle.pn_net.specs.declared.token.Token.{Token};
ghost use Rattle.pn_values.specs.Order.{value_cmp};
ghost use Rattle.pn_values.specs.declared.value.Value.{Value};

use pn_bag::{Bag, BagFault};
use pn_net::{Marking, Token, Typed};
use pn_values::Value;
use std::alloc::{AllocError, Global};

/// Whether all values of a multiset are of the sort of a place.
pub(crate) fn are_on(net: &Typed, place: u32, bag: &Bag<Value>) -> bool
    requires { place < length net.now.places }
    ensures yes { IsTrue result → Every (λ entry. IsValueOn net.now place entry.0) bag.now }
    ensures no { result ≡ false → (v : Value) × (0 < count_of value_cmp bag.now v) × (IsValueOn net.now place v → ⊥) }
{
    for (value, _count) in bag.iter() {
        if !is_on(net, place, value) {
            return false;
        }
    }
    true
}

/// Whether a value is of the sort of a place.
fn is_on(net: &Typed, place: u32, value: &Value) -> bool
    requires { place < length net.now.places }
    ensures yes { IsTrue result → IsValueOn net.now place value.now }
    ensures no { result ≡ false → IsValueOn net.now place value.now → ⊥ }
{
    net.decls().has_value(net.place_sort(place), value)
}

/// The values of a multiset as tokens of a place. The time is linear in the multiset.
pub(crate) fn put_on(alloc: Global, place: u32, bag: &Bag<Value>) -> Result<Marking, AllocError>
    ensures bag { IfOk result (IsBag token_cmp) }
    ensures counts { IfOk result (λ m. (k : Token) → count_of token_cmp m k ≡ count_at place bag.now k) }
{
    let mut marking = Bag::new(alloc);
    put_all(alloc, &mut marking, place, bag)?;
    is_bag(&marking);
    Ok(marking)
}

/// A marking is a multiset.
pub(crate) fn is_bag(marking: &Marking)
    ensures { IsBag token_cmp marking.now }
{
    let _entries = marking.iter();
}

/// Puts the values of a multiset on a place of an empty marking.
fn put_all(
    alloc: Global,
    marking: &mut Marking,
    place: u32,
    bag: &Bag<Value>,
) -> Result<(), AllocError>
    requires { (k : Token) → count_of token_cmp marking.old k ≡ 0 }
    ensures { OnOk result ((k : Token) → count_of token_cmp marking.new k ≡ count_at place bag.now k) }
{
    for (value, count) in bag.iter() {
        put(marking, place, value.copy(alloc)?, count)?;
    }
    Ok(())
}

/// Puts a value on a place, so many times.
fn put(marking: &mut Marking, place: u32, value: Value, count: u64) -> Result<(), AllocError>
    requires { count_of token_cmp marking.old (record { place = place; value = value }) + count ≤ MAX_COUNT }
    ensures { OnOk result ((k : Token) → count_of token_cmp marking.new k
        ≡ count_of token_cmp marking.old k + count_in token_cmp (record { place = place; value = value }, count) k) }
{
    match marking.add(Token { place, value }, count) {
        Ok(()) => Ok(()),
        Err(BagFault::Memory(error)) => Err(error),
        Err(BagFault::TooLarge) => unreachable!(),
    }
}
