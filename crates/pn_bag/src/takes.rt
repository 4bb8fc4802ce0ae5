//! What is taken away from entries whose keys rise.

ghost use Rattle.std.specs.Prelude.{◌≡◌, ℕ, ◌+◌, ◌<◌, ◌≤◌, ◌↔◌, filter, length, nat_lt, OnOk, OnErr, IfErr, IsOk};
ghost use Rattle.pn_bag.specs.Bag.{IsBag};
ghost use Rattle.pn_bag.specs.Counts.{count_in, count_of, Every, Includes, IsRising};
ghost use Rattle.pn_bag.specs.Places.{IsBefore};
ghost use Rattle.pn_bag.specs.Short.{IsFirstShort};

use crate::MAX_COUNT;
use crate::faults::Short;
use crate::places::place_from;
use crate::reads::find_short;

/// Takes the counts of `other` away, if they are all there.
pub(crate) fn less_entries<K: Ord + Drop>(
    entries: &mut Vec<(K, u64)>,
    other: &[(K, u64)],
) -> Result<(), Short>
    requires entries { IsBag K.cmp entries.old.items }
    requires other { IsBag K.cmp other.now }
    ensures counts { OnOk result ((key : K) → count_of K.cmp entries.new.items key
        + count_of K.cmp other.now key ≡ count_of K.cmp entries.old.items key) }
    ensures exact { IsOk result ↔ Includes K.cmp entries.old.items other.now }
    ensures short { IfErr result (IsFirstShort K.cmp entries.old.items other.now) }
    ensures err { OnErr result (entries.new.items ≡ entries.old.items) }
    ensures bag { IsBag K.cmp entries.new.items }
{
    if let Some(short) = find_short(entries, other) {
        return Err(short);
    }
    take_away(entries, other);
    drop_empty(entries);
    Ok(())
}

/// Takes the counts of `other` away, and leaves entries whose count is 0.
fn take_away<K: Ord + Drop>(entries: &mut Vec<(K, u64)>, other: &[(K, u64)])
    requires entries { IsRising K.cmp entries.old.items }
    requires most { Every (λ entry. entry.1 ≤ MAX_COUNT) entries.old.items }
    requires other { IsRising K.cmp other.now }
    requires includes { Includes K.cmp entries.old.items other.now }
    ensures counts { (key : K) → count_of K.cmp entries.new.items key
        + count_of K.cmp other.now key ≡ count_of K.cmp entries.old.items key }
    ensures rising { IsRising K.cmp entries.new.items }
    ensures most { Every (λ entry. entry.1 ≤ MAX_COUNT) entries.new.items }
{
    let mut from = 0;
    for position in 0..other.len() {
        let entry = &other[position];
        from = take_entry(entries, from, &entry.0, entry.1);
    }
}

/// Takes a count of one key away, and gives the key's place. The key is looked for step by step
/// from a place before which all keys are smaller.
fn take_entry<K: Ord + Drop>(entries: &mut Vec<(K, u64)>, from: usize, key: &K, count: u64) -> usize
    requires rising { IsRising K.cmp entries.old.items }
    requires within { from ≤ length entries.old.items }
    requires before { IsBefore K.cmp entries.old.items key.now from }
    requires most { Every (λ entry. entry.1 ≤ MAX_COUNT) entries.old.items }
    requires enough { count ≤ count_of K.cmp entries.old.items key.now }
    ensures within { result ≤ length entries.new.items }
    ensures before { IsBefore K.cmp entries.new.items key.now result }
    ensures rising { IsRising K.cmp entries.new.items }
    ensures most { Every (λ entry. entry.1 ≤ MAX_COUNT) entries.new.items }
    ensures counts { (other : K) → count_of K.cmp entries.new.items other
        + count_in K.cmp (key.now, count) other ≡ count_of K.cmp entries.old.items other }
{
    match place_from(entries, from, key) {
        Ok(at) => {
            entries[at].1 -= count;
            at
        }
        Err(at) => at,
    }
}

/// Drops the entries whose count is 0.
fn drop_empty<K: Drop>(entries: &mut Vec<(K, u64)>)
    ensures { entries.new.items ≡ filter (λ entry. nat_lt 0 entry.1) entries.old.items }
{
    entries.retain(|entry| entry.1 > 0);
}
