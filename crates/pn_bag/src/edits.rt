//! A key that is added to entries whose keys rise.

ghost use Rattle.std.specs.Prelude.{◌≡◌, ◌+◌, ◌<◌, ◌↔◌, Ok, Err, OnOk, OnErr, IsErr};
ghost use Rattle.pn_bag.specs.Algebra.{added};
ghost use Rattle.pn_bag.specs.Bag.{IsBag};
ghost use Rattle.pn_bag.specs.Counts.{count_of};

use crate::MAX_COUNT;
use crate::faults::BagFault;
use crate::places::find_place;
use std::alloc::AllocError;

/// Adds a key some number of times. A count that is there is raised in place.
pub(crate) fn add_entry<K: Ord + Drop>(
    entries: &mut Vec<(K, u64)>,
    key: K,
    count: u64,
) -> Result<(), BagFault>
    requires { IsBag K.cmp entries.old.items }
    ensures entries { OnOk result (entries.new.items ≡ added K.cmp entries.old.items key count) }
    ensures none { count ≡ 0 → (result ≡ Ok tt) × (entries.new.items ≡ entries.old.items) }
    ensures too_large { (result ≡ Err BagFault.TooLarge)
        ↔ (MAX_COUNT < count_of K.cmp entries.old.items key + count) }
    ensures in_place { 0 < count_of K.cmp entries.old.items key → IsErr result
        → result ≡ Err BagFault.TooLarge }
    ensures err { OnErr result (entries.new.items ≡ entries.old.items) }
    ensures bag { IsBag K.cmp entries.new.items }
{
    if count == 0 {
        return Ok(());
    }
    match find_place(entries, &key) {
        Ok(at) => {
            let has = entries[at].1;
            if count > MAX_COUNT - has {
                return Err(BagFault::TooLarge);
            }
            entries[at].1 = has + count;
        }
        Err(at) => {
            if count > MAX_COUNT {
                return Err(BagFault::TooLarge);
            }
            if entries.insert(at, (key, count)).is_err() {
                return Err(BagFault::Memory(AllocError));
            }
        }
    }
    Ok(())
}
