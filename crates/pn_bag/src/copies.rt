//! A copy of entries, key by key.

ghost use Rattle.std.specs.Prelude.{◌≡◌, ℕ, [], Ok, IfOk, OnOk};
ghost use Rattle.std.specs.Fn.{FnReturnsAt};
ghost use Rattle.std.specs.declared.cmp.Ordering.TheVariants.{Equal};
ghost use Rattle.pn_bag.specs.Copies.{IsCopy};

use std::alloc::{AllocError, Global};

/// Copies each key by a call of `copy`.
pub(crate) fn copy_entries<K: Ord + Drop, F: Fn(&K) -> Result<K, AllocError>>(
    alloc: Global,
    entries: &[(K, u64)],
    copy: F,
) -> Result<Vec<(K, u64)>, AllocError>
    requires callable { F.IsAlwaysCallable copy }
    requires same { (key again : K) → FnReturnsAt F.Fn copy key (Ok again)
        → K.cmp again key ≡ Equal }
    ensures copy { IfOk result (λ copied. IsCopy K.cmp entries.now copied.items) }
    ensures equal { ((key again : K) → FnReturnsAt F.Fn copy key (Ok again) → again ≡ key)
        → IfOk result (λ copied. copied.items ≡ entries.now) }
{
    let mut copied = Vec::with_capacity(alloc, entries.len())?;
    copy_into(&mut copied, entries, copy)?;
    Ok(copied)
}

/// Puts a copy of each entry into a list that is empty.
fn copy_into<K: Ord + Drop, F: Fn(&K) -> Result<K, AllocError>>(
    copied: &mut Vec<(K, u64)>,
    entries: &[(K, u64)],
    copy: F,
) -> Result<(), AllocError>
    requires callable { F.IsAlwaysCallable copy }
    requires same { (key again : K) → FnReturnsAt F.Fn copy key (Ok again)
        → K.cmp again key ≡ Equal }
    requires empty { copied.old.items ≡ [] }
    ensures copy { OnOk result (IsCopy K.cmp entries.now copied.new.items) }
    ensures equal { ((key again : K) → FnReturnsAt F.Fn copy key (Ok again) → again ≡ key)
        → OnOk result (copied.new.items ≡ entries.now) }
{
    for entry in entries {
        let key = copy(&entry.0)?;
        copied.push((key, entry.1))?;
    }
    Ok(())
}
