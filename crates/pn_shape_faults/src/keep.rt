ghost use Rattle.std.specs.Prelude.{OnOk};
ghost use Rattle.pn_shape.specs.Faults.{told};
ghost use Rattle.pn_shape_faults.specs.Keeping.{KeepsLower};

use pn_faults::{Fault, Reason, keep_least_at};
use std::alloc::{AllocError, Global};

/// Keeps the least of the faults so far and the one of this reason, if there is one.
pub(crate) fn keep(
    least: &mut Option<Fault>,
    alloc: Global,
    reason: Option<Reason>,
    at: u64,
    detail: &str,
) -> Result<(), AllocError>
    ensures { OnOk result (KeepsLower least.old least.new (told at detail.now reason)) }
{
    match reason {
        Some(reason) => keep_least_at(least, alloc, reason, at, detail),
        None => Ok(()),
    }
}
