//! What comes of a document.

ghost use Rattle.std.specs.Prelude.{IfOk};
ghost use Rattle.pn_command.specs.Verdict.{IsVerdict};

use crate::lines::Refusal;
use pn_checks::{Checked, verdict};
use pn_tree::Tree;
use std::alloc::{AllocError, Global};

/// What comes of a document.
#[derive(Drop)]
pub(crate) enum Verdict {
    /// It spells a net in which no fault stands.
    Accepted(Checked),
    /// It is refused.
    Refused(Refusal),
}

/// What comes of a document, by its tree.
pub(crate) fn find_verdict(alloc: Global, tree: &Tree) -> Result<Verdict, AllocError>
    ensures verdict { IfOk result (IsVerdict tree.now) }
{
    match verdict(alloc, tree) {
        Ok(checked) => Ok(Verdict::Accepted(checked)),
        Err(pn_faults::Refusal::Fault(fault)) => Ok(Verdict::Refused(Refusal::Fault(fault))),
        Err(pn_faults::Refusal::Memory(error)) => Err(error),
    }
}
