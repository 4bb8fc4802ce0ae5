//! The multiset of all values of a sort.

ghost use Rattle.std.specs.Prelude.{◌≡◌, ◌+◌, ◌<◌, length, map, take, true, IfOk, OnOk};
ghost use Rattle.pn_carriers.specs.Carriers.{carrier, is_finite};
ghost use Rattle.pn_names.specs.Names.{widths_of};
ghost use Rattle.pn_terms.specs.Sorts.{is_small};

use pn_bag::Bag;
use pn_sorts::{Decls, Size, Sort, Value};
use std::alloc::{AllocError, Global};

/// The multiset that has each value of a sort once. The values rise, so each is added at the end.
pub(crate) fn each_once(alloc: Global, decls: &Decls, sort: &Sort) -> Result<Bag<Value>, AllocError>
    requires { is_small decls.now sort.now ≡ true }
    ensures { IfOk result (λ bag. bag ≡ map (λ value. (value, 1)) (carrier (widths_of decls.now) sort.now)) }
{
    let mut bag = Bag::new(alloc);
    for place in 0..count(decls, sort) {
        add_value(alloc, decls, sort, place, &mut bag)?;
    }
    Ok(bag)
}

/// How many values a sort has.
fn count(decls: &Decls, sort: &Sort) -> u64
    requires { is_small decls.now sort.now ≡ true }
    ensures { result ≡ length (carrier (widths_of decls.now) sort.now) }
{
    match decls.size(sort) {
        Size::Finite(size) => size as u64,
        Size::Infinite => unreachable!(),
    }
}

/// Adds the value at a place to the multiset of those before it.
fn add_value(
    alloc: Global,
    decls: &Decls,
    sort: &Sort,
    place: u64,
    bag: &mut Bag<Value>,
) -> Result<(), AllocError>
    requires finite { is_finite sort.now ≡ true }
    requires within { place < length (carrier (widths_of decls.now) sort.now) }
    requires before { bag.old ≡ map (λ value. (value, 1)) (take place (carrier (widths_of decls.now) sort.now)) }
    ensures { OnOk result (bag.new ≡ map (λ value. (value, 1)) (take (place + 1) (carrier (widths_of decls.now) sort.now))) }
{
    let value = decls.nth(alloc, sort, place)?;
    match bag.add(value, 1) {
        Ok(()) => Ok(()),
        Err(_) => Err(AllocError),
    }
}
