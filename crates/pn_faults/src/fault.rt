ghost use Rattle.std.specs.Prelude.{◌≡◌, ℕ, List, IfOk};
ghost use Rattle.pn_faults.specs.Order.{comes_before, fault_at};

use crate::Reason;
use pn_text::Text;
use std::alloc::{AllocError, Global};
use thiserror::Error;

/// A fault of a document.
#[derive(Debug, Drop)]
pub struct Fault {
    pub reason: Reason,
    /// The offset of the start tag of the element at which it stands.
    pub at: u64,
    /// What it is about: a name, an id or a value.
    pub detail: Text,
}

/// Why a call that looks for faults gave nothing.
#[derive(Debug, Drop, Error)]
pub enum Refusal {
    #[error(transparent)]
    Memory(#[from(alloc)] AllocError),
    #[error("the document has a fault")]
    Fault(Fault),
}

impl Fault {
    /// Whether this fault comes before the other: by phase, then by offset, then by number.
    pub fn is_before(&self, other: &Fault) -> bool
        ensures { result ≡ comes_before self.now other.now }
    {
        precedes(self.reason, self.at, other)
    }

    /// The same fault, in memory of its own.
    pub fn copy(&self, alloc: Global) -> Result<Fault, AllocError>
        ensures { IfOk result (λ fault. fault ≡ self.now) }
    {
        Ok(Fault {
            reason: self.reason,
            at: self.at,
            detail: self.detail.copy(alloc)?,
        })
    }
}

/// Whether a fault with this reason and this offset comes before the other, whatever its detail.
pub(crate) fn precedes(reason: Reason, at: u64, other: &Fault) -> bool
    ensures { (detail : List ℕ) → result ≡ comes_before (fault_at reason at detail) other.now }
{
    let phases = reason.phase().cmp(&other.reason.phase());
    let offsets = at.cmp(&other.at);
    let numbers = reason.number().cmp(&other.reason.number());
    phases.then(offsets.then(numbers)).is_lt()
}
