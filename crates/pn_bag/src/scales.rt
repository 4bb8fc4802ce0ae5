//! What multiplies each count.

ghost use Rattle.std.specs.Prelude.{◌≡◌, ℕ, ◌*◌, ◌<◌, ◌≤◌, ◌↔◌, map, Err, OnOk, OnErr, IsErr, IsTrue, false};
ghost use Rattle.pn_bag.specs.Algebra.{scaled};
ghost use Rattle.pn_bag.specs.Bag.{IsBag};
ghost use Rattle.pn_bag.specs.Counts.{count_of, Every, IsRising};

use crate::MAX_COUNT;
use crate::faults::BagFault;

/// Multiplies each count. No entry stays at 0.
pub(crate) fn scale_entries<K: Ord + Drop>(
    entries: &mut Vec<(K, u64)>,
    by: u64,
) -> Result<(), BagFault>
    requires { IsBag K.cmp entries.old.items }
    ensures ok { OnOk result (entries.new.items ≡ scaled by entries.old.items) }
    ensures too_large { (result ≡ Err BagFault.TooLarge)
        ↔ ((key : K) × (MAX_COUNT < by * count_of K.cmp entries.old.items key)) }
    ensures only { IsErr result → result ≡ Err BagFault.TooLarge }
    ensures err { OnErr result (entries.new.items ≡ entries.old.items) }
    ensures bag { IsBag K.cmp entries.new.items }
{
    if by == 0 {
        entries.clear();
        return Ok(());
    }
    if has_above(entries, MAX_COUNT / by) {
        return Err(BagFault::TooLarge);
    }
    multiply(entries, by);
    Ok(())
}

/// Whether some count passes `most`.
fn has_above<K: Ord>(entries: &[(K, u64)], most: u64) -> bool
    requires { IsRising K.cmp entries.now }
    ensures above { IsTrue result ↔ ((key : K) × (most < count_of K.cmp entries.now key)) }
    ensures within { result ≡ false → Every (λ entry. entry.1 ≤ most) entries.now }
{
    for entry in entries {
        if entry.1 > most {
            return true;
        }
    }
    false
}

/// Multiplies the counts, one after another.
fn multiply<K: Ord + Drop>(entries: &mut Vec<(K, u64)>, by: u64)
    requires { Every (λ entry. by * entry.1 ≤ MAX_COUNT) entries.old.items }
    ensures { entries.new.items ≡ map (λ entry. (entry.0, entry.1 * by)) entries.old.items }
{
    for index in 0..entries.len() {
        entries[index].1 *= by;
    }
}
