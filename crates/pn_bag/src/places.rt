//! Where a key stands among entries whose keys rise, or would go.

ghost use Rattle.std.specs.Prelude.{◌≡◌, ◌≤◌, length, take, IfOk, IfErr};
ghost use Rattle.pn_bag.specs.Counts.{count_of, IsRising};
ghost use Rattle.pn_bag.specs.Places.{IsAt, IsGapFor, IsBefore};

use std::cmp::Ordering;

/// The place of the key, or the place where it would go, by a binary search. The last key is
/// tried first, so that a key above all others is placed at once.
pub(crate) fn find_place<K: Ord>(entries: &[(K, u64)], key: &K) -> Result<usize, usize>
    requires rising { IsRising K.cmp entries.now }
    ensures found { IfOk result (IsAt K.cmp entries.now key.now) }
    ensures absent { IfErr result (IsGapFor K.cmp entries.now key.now) }
{
    let count = entries.len();
    if count > 0 && entries[count - 1].0.cmp(key) == Ordering::Less {
        return Err(count);
    }
    search(entries, key)
}

/// The place of the key, or the place where it would go, by halves.
fn search<K: Ord>(entries: &[(K, u64)], key: &K) -> Result<usize, usize>
    requires rising { IsRising K.cmp entries.now }
    ensures found { IfOk result (IsAt K.cmp entries.now key.now) }
    ensures absent { IfErr result (IsGapFor K.cmp entries.now key.now) }
{
    let mut low = 0;
    let mut high = entries.len();
    while low < high {
        let middle = low + (high - low) / 2;
        match entries[middle].0.cmp(key) {
            Ordering::Less => low = middle + 1,
            Ordering::Equal => return Ok(middle),
            Ordering::Greater => high = middle,
        }
    }
    Err(low)
}

/// The same, step by step from a place before which all keys are smaller. Calls for keys that
/// rise, each from the place that the last one gave, go over the entries once.
pub(crate) fn place_from<K: Ord>(entries: &[(K, u64)], from: usize, key: &K) -> Result<usize, usize>
    requires rising { IsRising K.cmp entries.now }
    requires within { from ≤ length entries.now }
    requires before { IsBefore K.cmp entries.now key.now from }
    ensures found { IfOk result (IsAt K.cmp entries.now key.now) }
    ensures absent { IfErr result (IsGapFor K.cmp entries.now key.now) }
{
    for at in from..entries.len() {
        match entries[at].0.cmp(key) {
            Ordering::Less => {}
            Ordering::Equal => return Ok(at),
            Ordering::Greater => return Err(at),
        }
    }
    Err(entries.len())
}
