//! What `modes` gives.

ghost use Rattle.std.specs.Prelude.{◌≡◌, IfOk, Some};
ghost use Rattle.pn_firing.specs.Listing.{IsUnlisted};
ghost use Rattle.pn_net.specs.declared.flat.Flat.{Flat};
ghost use Rattle.pn_command.specs.Answer.{IsModesDue};
ghost use Rattle.pn_command.specs.Outputs.{line_of_unlisted};

use crate::due::Due;
use crate::lines::{Limit, Line, Refusal};
use crate::mode_list::ModeList;
use crate::outputs::{Output, discard_net};
use pn_checks::Checked;
use pn_firing::{ListFault, list_enabled};
use pn_text::Text;
use std::alloc::{AllocError, Global};

/// The enabled modes of the transition of this id, or the line that tells why they are not listed.
pub(crate) fn list_modes(alloc: Global, checked: Checked, id: &str) -> Result<Due, AllocError>
    ensures { IfOk result (IsModesDue checked id.now) }
{
    match list_enabled(alloc, &checked, id) {
        Ok(modes) => Ok(Due::Output(Output::Modes(ModeList::new(checked, modes)))),
        Err(fault) => {
            discard_net(checked);
            unlisted_due(alloc, id, fault)
        }
    }
}

/// Why the modes of the transition of this id are not listed, as what is due.
fn unlisted_due(alloc: Global, id: &str, fault: ListFault) -> Result<Due, AllocError>
    ensures { (f : Flat) → IsUnlisted f id.now fault → IfOk result (IsModesDue f id.now) }
{
    Ok(Due::Line(unlisted_line(alloc, id, fault)?))
}

/// The line that tells why the modes of the transition of this id are not listed.
fn unlisted_line(alloc: Global, id: &str, fault: ListFault) -> Result<Line, AllocError>
    ensures { IfOk result (λ line. line_of_unlisted id.now fault ≡ Some line) }
{
    match fault {
        ListFault::Memory(error) => Err(error),
        ListFault::UnknownTransition => {
            Ok(Line::Refusal(Refusal::UnknownTransition(Text::from_str(alloc, id)?)))
        }
        ListFault::InfiniteSort(variable) => Ok(Line::Refusal(Refusal::InfiniteSort(variable))),
        ListFault::TooManyAssignments(count) => Ok(Line::Limit(Limit::Assignments(count))),
    }
}
