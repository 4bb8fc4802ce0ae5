//! What is read of entries whose keys rise, in one walk over them.

ghost use Rattle.std.specs.Prelude.{◌≡◌, ℕ, ◌+◌, ◌≤◌, ◌↔◌, ◌<◌, length, IfSome, IsNone, IsTrue, false};
ghost use Rattle.pn_bag.specs.Bag.{IsBag};
ghost use Rattle.pn_bag.specs.Copies.{total_of};
ghost use Rattle.pn_bag.specs.Counts.{count_of, Includes, IsRising};
ghost use Rattle.pn_bag.specs.Places.{IsBefore};
ghost use Rattle.pn_bag.specs.Short.{IsFirstShort};

use crate::MAX_COUNT;
use crate::faults::Short;
use crate::places::{find_place, place_from};

/// The count of a key, by a binary search.
pub(crate) fn count_by_search<K: Ord>(entries: &[(K, u64)], key: &K) -> u64
    requires { IsRising K.cmp entries.now }
    ensures { result ≡ count_of K.cmp entries.now key.now }
{
    match find_place(entries, key) {
        Ok(at) => entries[at].1,
        Err(_) => 0,
    }
}

/// The place and the count of a key, looked for step by step from a place before which all keys
/// are smaller.
pub(crate) fn count_from<K: Ord>(entries: &[(K, u64)], from: usize, key: &K) -> (usize, u64)
    requires rising { IsRising K.cmp entries.now }
    requires within { from ≤ length entries.now }
    requires before { IsBefore K.cmp entries.now key.now from }
    ensures within { result.0 ≤ length entries.now }
    ensures before { IsBefore K.cmp entries.now key.now result.0 }
    ensures count { result.1 ≡ count_of K.cmp entries.now key.now }
{
    match place_from(entries, from, key) {
        Ok(at) => (at, entries[at].1),
        Err(at) => (at, 0),
    }
}

/// The first entry of `needs` whose key `has` has fewer times.
pub(crate) fn find_short<K: Ord>(has: &[(K, u64)], needs: &[(K, u64)]) -> Option<Short>
    requires has { IsRising K.cmp has.now }
    requires needs { IsRising K.cmp needs.now }
    ensures some { IfSome result (IsFirstShort K.cmp has.now needs.now) }
    ensures none { IsNone result ↔ Includes K.cmp has.now needs.now }
{
    let mut from = 0;
    for position in 0..needs.len() {
        let entry = &needs[position];
        let (place, count) = count_from(has, from, &entry.0);
        if count < entry.1 {
            return Some(Short {
                position,
                need: entry.1,
                has: count,
            });
        }
        from = place;
    }
    None
}

/// Whether some count of the sum passes `MAX_COUNT`.
pub(crate) fn sum_passes<K: Ord>(left: &[(K, u64)], right: &[(K, u64)]) -> bool
    requires left { IsBag K.cmp left.now }
    requires right { IsBag K.cmp right.now }
    ensures passes { IsTrue result → (key : K)
        × (MAX_COUNT < count_of K.cmp left.now key + count_of K.cmp right.now key) }
    ensures fits { result ≡ false → (key : K) → count_of K.cmp left.now key
        + count_of K.cmp right.now key ≤ MAX_COUNT }
{
    let mut from = 0;
    for position in 0..right.len() {
        let entry = &right[position];
        let (place, count) = count_from(left, from, &entry.0);
        if count > MAX_COUNT - entry.1 {
            return true;
        }
        from = place;
    }
    false
}

/// The sum of all counts.
pub(crate) fn total<K: Ord>(entries: &[(K, u64)]) -> u128
    requires { IsBag K.cmp entries.now }
    ensures { result ≡ total_of entries.now }
{
    let mut sum = 0;
    for entry in entries {
        sum += u128::from(entry.1);
    }
    sum
}
