//! The sum of two lists of entries whose keys rise, in one merge.

ghost use Rattle.std.specs.Prelude.{◌≡◌, ℕ, ◌+◌, ◌<◌, ◌≤◌, ◌↔◌, List, [], ◌∷◌, ◌++◌, Err, IfOk, OnOk, OnErr, IfSome, IfNone, IsTrue, false, vec_len, vec_capacity};
ghost use Rattle.pn_bag.specs.Algebra.{joined};
ghost use Rattle.pn_bag.specs.Bag.{IsBag};
ghost use Rattle.pn_bag.specs.Counts.{count_of};

use crate::MAX_COUNT;
use crate::faults::BagFault;
use crate::reads::sum_passes;
use std::alloc::AllocError;
use std::cmp::Ordering;
use std::mem;

/// Adds the counts of `other`. All memory is taken before anything changes.
pub(crate) fn join_entries<K: Ord + Drop>(
    entries: &mut Vec<(K, u64)>,
    other: Vec<(K, u64)>,
) -> Result<(), BagFault>
    requires entries { IsBag K.cmp entries.old.items }
    requires other { IsBag K.cmp other.items }
    ensures entries { OnOk result (entries.new.items
        ≡ joined K.cmp entries.old.items other.items) }
    ensures too_large { (result ≡ Err BagFault.TooLarge) ↔ ((key : K) × (MAX_COUNT
        < count_of K.cmp entries.old.items key + count_of K.cmp other.items key)) }
    ensures err { OnErr result (entries.new.items ≡ entries.old.items) }
    ensures bag { IsBag K.cmp entries.new.items }
{
    if sum_passes(entries, &other) {
        return Err(BagFault::TooLarge);
    }
    let Ok(merged) = room_for(entries, &other) else {
        return Err(BagFault::Memory(AllocError));
    };
    let own = mem::replace(entries, Vec::new(*merged.allocator()));
    *entries = merge(own, other, merged);
    Ok(())
}

/// Room for all entries of both lists.
fn room_for<K: Drop>(
    left: &Vec<(K, u64)>,
    right: &Vec<(K, u64)>,
) -> Result<Vec<(K, u64)>, AllocError>
    ensures empty { IfOk result (λ room. room.items ≡ []) }
    ensures room { IfOk result (λ room. vec_len left.now + vec_len right.now
        ≤ vec_capacity room) }
{
    let size = left.len().checked_add(right.len()).ok_or(AllocError)?;
    Vec::with_capacity(*left.allocator(), size)
}

/// Moves the entries of both lists into `merged`, which is empty and has room for all.
fn merge<K: Ord + Drop>(
    mut left: Vec<(K, u64)>,
    mut right: Vec<(K, u64)>,
    mut merged: Vec<(K, u64)>,
) -> Vec<(K, u64)>
    requires left { IsBag K.cmp left.items }
    requires right { IsBag K.cmp right.items }
    requires fits { (key : K) → count_of K.cmp left.items key + count_of K.cmp right.items key
        ≤ MAX_COUNT }
    requires empty { merged.items ≡ [] }
    requires room { vec_len left + vec_len right ≤ vec_capacity merged }
    ensures { result.items ≡ joined K.cmp left.items right.items }
{
    while let Some(entry) = take_greatest(&mut left, &mut right) {
        if merged.push(entry).is_err() {
            unreachable!()
        }
    }
    merged.reverse();
    merged
}

/// Takes the entry of the greatest key out of both lists, with the sum of its counts.
fn take_greatest<K: Ord + Drop>(
    left: &mut Vec<(K, u64)>,
    right: &mut Vec<(K, u64)>,
) -> Option<(K, u64)>
    requires left { IsBag K.cmp left.old.items }
    requires right { IsBag K.cmp right.old.items }
    requires fits { (key : K) → count_of K.cmp left.old.items key
        + count_of K.cmp right.old.items key ≤ MAX_COUNT }
    ensures left { IsBag K.cmp left.new.items }
    ensures right { IsBag K.cmp right.new.items }
    ensures some { IfSome result (λ entry. joined K.cmp left.old.items right.old.items
        ≡ joined K.cmp left.new.items right.new.items ++ entry ∷ []) }
    ensures none { IfNone result ((left.old.items ≡ []) × (right.old.items ≡ [])) }
    ensures shorter { IfSome result (λ _. vec_len left.new + vec_len right.new
        < vec_len left.old + vec_len right.old) }
{
    if left.is_empty() && right.is_empty() {
        return None;
    }
    if left.is_empty() {
        return Some(take_last(right));
    }
    if right.is_empty() {
        return Some(take_last(left));
    }
    match left[left.len() - 1].0.cmp(&right[right.len() - 1].0) {
        Ordering::Less => Some(take_last(right)),
        Ordering::Greater => Some(take_last(left)),
        Ordering::Equal => {
            let (key, count) = take_last(left);
            let (_, more) = take_last(right);
            Some((key, count + more))
        }
    }
}

/// Takes the last entry.
fn take_last<K: Drop>(entries: &mut Vec<(K, u64)>) -> (K, u64)
    requires { 0 < vec_len entries.old }
    ensures items { entries.old.items ≡ entries.new.items ++ result ∷ [] }
    ensures shorter { vec_len entries.new + 1 ≡ vec_len entries.old }
{
    entries.pop().unwrap()
}
