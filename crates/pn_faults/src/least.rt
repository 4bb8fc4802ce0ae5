//! The least fault so far, as a walk over a document keeps it.

ghost use Rattle.std.specs.Prelude.{◌≡◌, ◌∷◌, ◌++◌, [], ℕ, List, Some, OnOk, OnErr, if◌then◌else◌};
ghost use Rattle.pn_faults.specs.Order.{fault_at};
ghost use Rattle.pn_faults.specs.Least.{least_fault, lower};
ghost use Rattle.pn_faults.specs.declared.fault.Fault.{Fault};

use crate::fault::precedes;
use crate::{Fault, Reason};
use pn_text::Text;
use std::alloc::{AllocError, Global};

/// Keeps the least fault of those so far and one more. Where neither comes before the other, the
/// one so far stays.
pub fn keep_least(least: &mut Option<Fault>, fault: Fault)
    ensures lower { least.new ≡ lower least.old (Some fault) }
    // of any faults whose least was kept, and this one after them
    ensures so_far { (faults : List Fault) → least.old ≡ least_fault faults
        → least.new ≡ least_fault (faults ++ fault ∷ []) }
{
    if is_lower(least, fault.reason, fault.at) {
        *least = Some(fault);
    }
}

/// The same with the least fault of a further part of the document, if it has one.
pub fn keep_least_of(least: &mut Option<Fault>, part: Option<Fault>)
    ensures lower { least.new ≡ lower least.old part }
    // of any faults whose least was kept, and those of the part after them
    ensures so_far { (faults more : List Fault) → least.old ≡ least_fault faults
        → part ≡ least_fault more → least.new ≡ least_fault (faults ++ more) }
{
    if let Some(fault) = part {
        keep_least(least, fault);
    }
}

/// The same with a fault that is made, and its detail copied, only where it is kept. After an error
/// the least so far stands as it was.
pub fn keep_least_at(
    least: &mut Option<Fault>,
    alloc: Global,
    reason: Reason,
    at: u64,
    detail: &str,
) -> Result<(), AllocError>
    ensures lower { OnOk result (least.new ≡ lower least.old (Some (fault_at reason at detail.now))) }
    ensures so_far { OnOk result ((faults : List Fault) → least.old ≡ least_fault faults
        → least.new ≡ least_fault (faults ++ fault_at reason at detail.now ∷ [])) }
    ensures err { OnErr result (least.new ≡ least.old) }
{
    if is_lower(least, reason, at) {
        let detail = Text::from_str(alloc, detail)?;
        *least = Some(Fault { reason, at, detail });
    }
    Ok(())
}

/// Whether a fault with this reason and this offset is lower than the least so far, if there is one.
fn is_lower(least: &Option<Fault>, reason: Reason, at: u64) -> bool
    ensures { (detail : List ℕ) → lower least.now (Some (fault_at reason at detail))
        ≡ (if result then Some (fault_at reason at detail) else least.now) }
{
    match least {
        Some(kept) => precedes(reason, at, kept),
        None => true,
    }
}
