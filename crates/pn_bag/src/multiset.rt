//! The multiset: a list of entries whose keys rise.

ghost use Rattle.std.specs.Prelude.{◌≡◌, ℕ, ◌+◌, ◌*◌, ◌<◌, ◌≤◌, ◌↔◌, [], Ok, Err, IfOk, OnOk, OnErr, IfErr, IfSome, IsErr, IsNone, IsOk, IsTrue};
ghost use Rattle.std.specs.Fn.{FnReturnsAt};
ghost use Rattle.std.specs.declared.cmp.Ordering.TheVariants.{Equal};
ghost use Rattle.pn_bag.specs.Algebra.{added, joined, scaled};
ghost use Rattle.pn_bag.specs.Bag.{IsBag};
ghost use Rattle.pn_bag.specs.Copies.{IsCopy, total_of};
ghost use Rattle.pn_bag.specs.Counts.{count_in, count_of, Every, Includes, IsRising, IsSame};

use crate::MAX_COUNT;
use crate::copies::copy_entries;
use crate::edits::add_entry;
use crate::faults::{BagFault, Short};
use crate::items::BagIter;
use crate::merges::join_entries;
use crate::reads::{count_by_search, find_short, total};
use crate::scales::scale_entries;
use crate::takes::less_entries;
use std::alloc::{AllocError, Global};
use std::marker::Model;

/// A finite multiset. Two keys that compare Equal are one key, and each key has a count from 1 to
/// `MAX_COUNT`.
///
/// A sum of many bags is cheap as a tree: join pairs, then pairs of the sums, and so on, so that
/// each entry moves once for each level, and not once for each bag.
#[derive(Debug, Drop)]
pub struct Bag<K: Ord + Drop> {
    entries: Vec<(K, u64)>,
}

impl<K: Ord + Drop> Model for Bag<K> {
    ghost use Rattle.std.specs.Prelude.{ℕ, List};
    ghost use Rattle.pn_bag.specs.Bag.{IsBag};

    ghost Value = { List (K × ℕ) };

    ghost view = { λ bag. bag.entries.items };

    ghost invariant = { λ bag. IsBag K.cmp bag.entries.items };
}

impl<K: Ord + Drop> Bag<K> {
    ghost use Rattle.pn_bag.specs.Short.{IsFirstShort};

    /// The empty bag. It takes no memory.
    pub fn new(alloc: Global) -> Bag<K>
        ensures { result ≡ [] }
    {
        Bag {
            entries: Vec::new(alloc),
        }
    }

    /// How often the bag has the key. It takes the logarithm of the number of keys, and no memory.
    pub fn count(&self, key: &K) -> u64
        ensures count { result ≡ count_of K.cmp self.now key.now }
        ensures within { result ≤ MAX_COUNT }
    {
        count_by_search(&self.entries, key)
    }

    /// Whether each key of `other` has at most the count that it has here. It takes one walk over
    /// both bags, and no memory.
    pub fn includes(&self, other: &Bag<K>) -> bool
        ensures { IsTrue result ↔ Includes K.cmp self.now other.now }
    {
        self.first_short(other).is_none()
    }

    /// The sum of all counts. It takes no memory.
    pub fn cardinality(&self) -> u128
        ensures { result ≡ total_of self.now }
    {
        total(&self.entries)
    }

    /// The keys with their counts, ascending. It takes no memory.
    pub fn iter(&self) -> BagIter<'_, K>
        ensures items { result ≡ self.now }
        ensures counts { Every (λ item. count_of K.cmp self.now item.0 ≡ item.1) self.now }
        ensures bag { IsBag K.cmp self.now }
    {
        BagIter::new(&self.entries)
    }

    /// The first key of `other`, in order, of which this bag has fewer. It takes one walk over
    /// both bags, and no memory.
    pub fn first_short(&self, other: &Bag<K>) -> Option<Short>
        ensures some { IfSome result (IsFirstShort K.cmp self.now other.now) }
        ensures none { IsNone result ↔ Includes K.cmp self.now other.now }
    {
        find_short(&self.entries, &other.entries)
    }

    /// Takes `other` away, or names the first key of which there are too few. It takes one walk
    /// over both bags, and no memory.
    pub fn less(&mut self, other: &Bag<K>) -> Result<(), Short>
        ensures ok { OnOk result (IsSame K.cmp (joined K.cmp self.new other.now) self.old) }
        ensures counts { OnOk result ((key : K) → count_of K.cmp self.new key
            + count_of K.cmp other.now key ≡ count_of K.cmp self.old key) }
        ensures exact { IsOk result ↔ Includes K.cmp self.old other.now }
        ensures short { IfErr result (IsFirstShort K.cmp self.old other.now) }
        ensures err { OnErr result (self.new ≡ self.old) }
    {
        less_entries(&mut self.entries, &other.entries)
    }

    /// Adds a key some number of times; 0 times changes nothing. A key that is there stays, and
    /// the one that compares Equal to it goes. A key above all others takes amortised constant
    /// time, and a key that is there takes no memory.
    pub fn add(&mut self, key: K, count: u64) -> Result<(), BagFault>
        ensures entries { OnOk result (self.new ≡ added K.cmp self.old key count) }
        ensures ok { OnOk result (IsSame K.cmp self.new (added K.cmp self.old key count)) }
        ensures counts { OnOk result ((other : K) → count_of K.cmp self.new other
            ≡ count_of K.cmp self.old other + count_in K.cmp (key, count) other) }
        ensures none { count ≡ 0 → (result ≡ Ok tt) × (self.new ≡ self.old) }
        ensures too_large { (result ≡ Err BagFault.TooLarge)
            ↔ (MAX_COUNT < count_of K.cmp self.old key + count) }
        ensures in_place { 0 < count_of K.cmp self.old key → IsErr result
            → result ≡ Err BagFault.TooLarge }
        ensures err { OnErr result (self.new ≡ self.old) }
    {
        add_entry(&mut self.entries, key, count)
    }

    /// Adds the counts of `other`, in one walk over both bags. Of two keys that compare Equal the
    /// one of this bag stays. All memory is taken before anything changes.
    pub fn join(&mut self, other: Bag<K>) -> Result<(), BagFault>
        ensures entries { OnOk result (self.new ≡ joined K.cmp self.old other) }
        ensures ok { OnOk result (IsSame K.cmp self.new (joined K.cmp self.old other)) }
        ensures counts { OnOk result ((key : K) → count_of K.cmp self.new key
            ≡ count_of K.cmp self.old key + count_of K.cmp other key) }
        ensures too_large { (result ≡ Err BagFault.TooLarge)
            ↔ ((key : K) × (MAX_COUNT < count_of K.cmp self.old key + count_of K.cmp other key)) }
        ensures err { OnErr result (self.new ≡ self.old) }
    {
        join_entries(&mut self.entries, other.entries)
    }

    /// Multiplies each count; by 0 the bag is empty. It takes no memory.
    pub fn scale(&mut self, by: u64) -> Result<(), BagFault>
        ensures ok { OnOk result (self.new ≡ scaled by self.old) }
        ensures counts { OnOk result ((key : K) → count_of K.cmp self.new key
            ≡ by * count_of K.cmp self.old key) }
        ensures too_large { (result ≡ Err BagFault.TooLarge)
            ↔ ((key : K) × (MAX_COUNT < by * count_of K.cmp self.old key)) }
        ensures only { IsErr result → result ≡ Err BagFault.TooLarge }
        ensures err { OnErr result (self.new ≡ self.old) }
    {
        scale_entries(&mut self.entries, by)
    }

    /// The same bag once more, each key by a call of `copy`.
    pub fn try_clone<F: Fn(&K) -> Result<K, AllocError>>(
        &self,
        copy: F,
    ) -> Result<Bag<K>, AllocError>
        requires callable { F.IsAlwaysCallable copy }
        requires same { (key again : K) → FnReturnsAt F.Fn copy key (Ok again)
            → K.cmp again key ≡ Equal }
        ensures copy { IfOk result (IsCopy K.cmp self.now) }
        ensures counts { IfOk result (IsSame K.cmp self.now) }
        ensures equal { ((key again : K) → FnReturnsAt F.Fn copy key (Ok again) → again ≡ key)
            → IfOk result (λ bag. bag ≡ self.now) }
    {
        let alloc = *self.entries.allocator();
        let entries = copy_entries(alloc, &self.entries, copy)?;
        Ok(Bag { entries })
    }
}
