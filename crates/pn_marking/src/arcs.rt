//! What one arc moves.

ghost use Rattle.std.specs.Prelude.{◌≡◌, ◌<◌, ◌∷◌, [], None, Some, IfOk, IfSome, length};
ghost use Rattle.std.specs.List.{slice_get};
ghost use Rattle.pn_eval.specs.Assignments.{IsAssignment};
ghost use Rattle.pn_marking.specs.Known.{IsKnownArc};
ghost use Rattle.pn_marking.specs.Totals.{HasTotals, IsMovedBy};
ghost use Rattle.pn_net.specs.Labels.{said};
ghost use Rattle.pn_net.specs.Typed.{IsTypedTerm};
ghost use Rattle.pn_net.specs.declared.flat.FlatArc.{FlatArc};

use crate::terms::{arc_bag, gives_one};
use crate::tokens::{are_on, put_on};
use pn_net::{FlatArc, Marking, Typed};
use pn_values::Value;
use std::alloc::{AllocError, Global};

/// The tokens that one arc moves, where these variables have these values, which are all that stand
/// in its inscription (ISO/IEC 15909-1, arc annotations).
///
/// The answer is none where the inscription has no value, where a count is too large, or where a
/// value is not of the sort of the arc's place. The time is linear in what it moves, but for what
/// the terms in the inscription take.
pub fn arc_tokens(
    alloc: Global,
    net: &Typed,
    number: u32,
    vars: &[u32],
    values: &[Value],
) -> Result<Option<Marking>, AllocError>
    requires known { IsKnownArc net.now vars.now number }
    requires assignment { IsAssignment net.now.declarations vars.now values.now }
    ensures some { IfOk result (λ o. IfSome o (λ m. (a : FlatArc) → slice_get net.now.arcs number ≡ Some a
        → IsMovedBy net.now vars.now values.now (a ∷ []) m)) }
    ensures none { IfOk result (λ o. o ≡ None → (a : FlatArc) → slice_get net.now.arcs number ≡ Some a
        → HasTotals net.now vars.now values.now (a ∷ []) → ⊥) }
{
    gives_one(net);
    let arc = arc_at(net, number);
    match arc_bag(alloc, net, arc, vars, values)? {
        Some(bag) => {
            if are_on(net, arc.place, &bag) {
                return Ok(Some(put_on(alloc, arc.place, &bag)?));
            }
            Ok(None)
        }
        None => Ok(None),
    }
}

/// The arc of a number.
pub(crate) fn arc_at(net: &Typed, number: u32) -> &FlatArc
    requires { number < length net.now.arcs }
    ensures arc { slice_get net.now.arcs number ≡ Some result.now }
    ensures place { result.now.place < length net.now.places }
    ensures typed { IfSome (said result.now.arc.inscription) (IsTypedTerm net.now.declarations) }
{
    &net.flat().arcs.as_slice()[number as usize]
}
