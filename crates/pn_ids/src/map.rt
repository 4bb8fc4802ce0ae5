//! The map beneath: ids as keys, in the order of their noting.

ghost use Rattle.std.specs.Prelude.{◌≡◌, ◌∷◌, ◌++◌, [], is_none, not, IfOk, OnErr, IsTrue};
ghost use Rattle.indexmap.specs.IndexMap.{get_by_text};
ghost use Rattle.pn_ids.specs.Entries.{entry_names};

use indexmap::IndexMap;
use std::alloc::{AllocError, Global};

/// What an id names.
pub(crate) fn entry_at<A: Copy>(index: &IndexMap<String, A>, id: &str) -> Option<A>
    ensures { result ≡ get_by_text index.now id.now }
{
    index.get(id).copied()
}

/// Puts an id at the end, where it is new; says whether it is.
pub(crate) fn put_new<A: Copy + Drop>(
    alloc: Global,
    index: &mut IndexMap<String, A>,
    id: &str,
    named: A,
) -> Result<bool, AllocError>
    ensures fresh { IfOk result (λ b. b ≡ is_none (get_by_text index.old id.now)) }
    ensures put { IfOk result (λ b. IsTrue b → entry_names index.new ≡ entry_names index.old ++ (id.now, named) ∷ []) }
    ensures kept { IfOk result (λ b. IsTrue (not b) → entry_names index.new ≡ entry_names index.old) }
    ensures err { OnErr result (entry_names index.new ≡ entry_names index.old) }
{
    if entry_at(index, id).is_some() {
        return Ok(false);
    }
    let key = String::from_str(alloc, id)?;
    index.insert(key, named)?;
    Ok(true)
}
