//! The laws of multisets. Each function does nothing; its contract is the law.
//!
//! A list of entries stands for the finite map from keys to counts that `count_of` reads in it, and
//! `IsSame` says that two lists stand for the same map. The laws hold for counts of any size, and
//! for entries in any order where they do not say otherwise. `IsMultiset` says that there is one
//! entry for each key that has a count, in the order of the keys, as in a bag.

ghost use Rattle.std.specs.Prelude.{◌≡◌, ℕ, ◌+◌, ◌*◌, ◌<◌, ◌≤◌, List, []};
ghost use Rattle.std.specs.declared.cmp.Ordering.TheVariants.{Equal};
ghost use Rattle.pn_bag.specs.Algebra.{joined, scaled, image_of, image_count, IsOneToOne, HasKey, HasEachKey};
ghost use Rattle.pn_bag.specs.Counts.{count_of, Every, Includes, IsMultiset, IsRising, IsSame};
ghost use Rattle.pn_bag.specs.Short.{IsFirstShort};
ghost use Rattle.pn_bag.specs.declared.faults.Short.{Short};

use crate::MAX_COUNT;

/// The greatest count, as a number.
pub fn greatest_count()
    ensures { MAX_COUNT ≡ 9223372036854775807 }
{}

/// Where keys rise, each entry has the count of its key, and each key that has a count has an entry.
pub fn entries_have_counts<K: Ord>()
    ensures counts { (xs : List (K × ℕ)) → IsRising K.cmp xs
        → Every (λ entry. count_of K.cmp xs entry.0 ≡ entry.1) xs }
    ensures keys { (xs : List (K × ℕ)) (key : K) → 0 < count_of K.cmp xs key
        → HasKey K.cmp xs key }
{}

/// In a sum each key has the sum of its counts.
pub fn join_counts<K: Ord>()
    ensures { (xs ys : List (K × ℕ)) (key : K) → count_of K.cmp (joined K.cmp xs ys) key
        ≡ count_of K.cmp xs key + count_of K.cmp ys key }
{}

/// The order of two bags does not matter.
pub fn join_commutes<K: Ord>()
    ensures { (xs ys : List (K × ℕ)) → IsSame K.cmp (joined K.cmp xs ys) (joined K.cmp ys xs) }
{}

/// Nor does it matter which of three bags are joined first.
pub fn join_associates<K: Ord>()
    ensures { (xs ys zs : List (K × ℕ)) → IsSame K.cmp (joined K.cmp (joined K.cmp xs ys) zs)
        (joined K.cmp xs (joined K.cmp ys zs)) }
{}

/// The empty bag changes nothing, on either side.
pub fn join_empty<K: Ord>()
    ensures right { (xs : List (K × ℕ)) → IsSame K.cmp (joined K.cmp xs []) xs }
    ensures left { (xs : List (K × ℕ)) → IsSame K.cmp (joined K.cmp [] xs) xs }
{}

/// What is joined to two bags can be taken away from both.
pub fn join_cancels<K: Ord>()
    ensures { (xs ys zs : List (K × ℕ)) → IsSame K.cmp (joined K.cmp xs zs) (joined K.cmp ys zs)
        → IsSame K.cmp xs ys }
{}

/// Inclusion is an order.
pub fn includes_orders<K: Ord>()
    ensures reflexive { (xs : List (K × ℕ)) → Includes K.cmp xs xs }
    ensures transitive { (xs ys zs : List (K × ℕ)) → Includes K.cmp xs ys → Includes K.cmp ys zs
        → Includes K.cmp xs zs }
    ensures antisymmetric { (xs ys : List (K × ℕ)) → Includes K.cmp xs ys → Includes K.cmp ys xs
        → IsSame K.cmp xs ys }
{}

/// Only one answer is the first short, so a refusal of `less` is the answer of `first_short`.
pub fn first_short_is_one<K: Ord>()
    ensures { (has needs : List (K × ℕ)) (one other : Short) → IsFirstShort K.cmp has needs one
        → IsFirstShort K.cmp has needs other → one ≡ other }
{}

/// A sum includes the sum of what its parts include.
pub fn join_keeps_inclusion<K: Ord>()
    ensures { (xs ys more less : List (K × ℕ)) → Includes K.cmp xs ys → Includes K.cmp more less
        → Includes K.cmp (joined K.cmp xs more) (joined K.cmp ys less) }
{}

/// In a multiple each key has the multiple of its count.
pub fn scale_counts<K: Ord>()
    ensures { (n : ℕ) (xs : List (K × ℕ)) (key : K) → count_of K.cmp (scaled n xs) key
        ≡ n * count_of K.cmp xs key }
{}

/// The multiple of a sum is the sum of the multiples.
pub fn scale_over_join<K: Ord>()
    ensures { (n : ℕ) (xs ys : List (K × ℕ)) → IsSame K.cmp (scaled n (joined K.cmp xs ys))
        (joined K.cmp (scaled n xs) (scaled n ys)) }
{}

/// In an image each new key has the sum of the counts of the keys that go there.
pub fn image_counts<K: Ord, L: Ord>()
    ensures { (pairs : List (K × L)) (xs : List (K × ℕ)) (key : L)
        → count_of L.cmp (image_of K.cmp L.cmp pairs xs) key
        ≡ image_count K.cmp L.cmp pairs xs key }
{}

/// The image of a sum is the sum of the images.
pub fn image_of_join<K: Ord, L: Ord>()
    ensures { (pairs : List (K × L)) (xs ys : List (K × ℕ))
        → IsSame L.cmp (image_of K.cmp L.cmp pairs (joined K.cmp xs ys))
        (joined L.cmp (image_of K.cmp L.cmp pairs xs) (image_of K.cmp L.cmp pairs ys)) }
{}

/// The image of a multiple is the multiple of the image.
pub fn image_of_scale<K: Ord, L: Ord>()
    ensures { (pairs : List (K × L)) (n : ℕ) (xs : List (K × ℕ))
        → IsSame L.cmp (image_of K.cmp L.cmp pairs (scaled n xs))
        (scaled n (image_of K.cmp L.cmp pairs xs)) }
{}

/// The image of a bag includes the image of what the bag includes.
pub fn image_keeps_inclusion<K: Ord, L: Ord>()
    ensures { (pairs : List (K × L)) (xs ys : List (K × ℕ)) → Includes K.cmp xs ys
        → Includes L.cmp (image_of K.cmp L.cmp pairs xs) (image_of K.cmp L.cmp pairs ys) }
{}

/// Inclusion of images is inclusion, where the map is one to one and has each key of the bag that
/// is then included.
pub fn image_reflects_inclusion<K: Ord, L: Ord>()
    ensures { (pairs : List (K × L)) (xs ys : List (K × ℕ)) → IsOneToOne L.cmp pairs
        → HasEachKey K.cmp pairs ys
        → Includes L.cmp (image_of K.cmp L.cmp pairs xs) (image_of K.cmp L.cmp pairs ys)
        → Includes K.cmp xs ys }
{}

/// The sum, the multiple and the image of multisets are multisets.
pub fn results_are_multisets<K: Ord, L: Ord>()
    ensures join { (xs ys : List (K × ℕ)) → IsMultiset K.cmp xs → IsMultiset K.cmp ys
        → IsMultiset K.cmp (joined K.cmp xs ys) }
    ensures scale { (n : ℕ) (xs : List (K × ℕ)) → IsMultiset K.cmp xs
        → IsMultiset K.cmp (scaled n xs) }
    ensures image { (pairs : List (K × L)) (xs : List (K × ℕ))
        → IsMultiset L.cmp (image_of K.cmp L.cmp pairs xs) }
{}

/// Where keys that compare Equal are the same, two multisets with the same counts are the same.
pub fn same_counts_same_entries<K: Ord>()
    ensures { ((a b : K) → K.cmp a b ≡ Equal → a ≡ b) → (xs ys : List (K × ℕ))
        → IsMultiset K.cmp xs → IsMultiset K.cmp ys → IsSame K.cmp xs ys → xs ≡ ys }
{}

/// The sums, the multiples and the images of the same multisets are the same.
pub fn same_has_same_results<K: Ord, L: Ord>()
    ensures join { (xs ys more others : List (K × ℕ)) → IsSame K.cmp xs ys
        → IsSame K.cmp more others
        → IsSame K.cmp (joined K.cmp xs more) (joined K.cmp ys others) }
    ensures scale { (n : ℕ) (xs ys : List (K × ℕ)) → IsSame K.cmp xs ys
        → IsSame K.cmp (scaled n xs) (scaled n ys) }
    ensures image { (pairs : List (K × L)) (xs ys : List (K × ℕ)) → IsSame K.cmp xs ys
        → IsSame L.cmp (image_of K.cmp L.cmp pairs xs) (image_of K.cmp L.cmp pairs ys) }
{}
