//! Transitions with values for their variables, read.

ghost use Rattle.std.specs.Prelude.{◌≡◌, ◌<◌, List, [], length};
ghost use Rattle.pn_mode_text.specs.ModeReadings.{AreTypedAt, IsAssignedText, IsBracketText, IsReadable, IsTailText};
ghost use Rattle.pn_mode_text.specs.Readings.{ReadsOr};
ghost use Rattle.pn_mode_text.specs.Texts.{TypedVariable};

use crate::givens::bracket;
use crate::modes::have_sorts;
use crate::reading::ReadFault;
use crate::transitions::{have_all_typed, transition};
use pn_net::{Mode, Typed};
use pn_sorts::Value;
use sqlite_items::Items;
use std::alloc::Global;

/// Reads what stands behind `[` of this transition: its variables with their values, and `]`.
fn values_at<'a>(
    alloc: Global,
    net: &Typed,
    transition: u32,
    values: &mut Items<Value>,
    bytes: &'a [u8],
) -> Result<&'a [u8], ReadFault>
    requires readable { IsReadable net.now }
    requires within { transition < length net.now.transitions }
    requires none { values.old ≡ [] }
    ensures values { ReadsOr (IsBracketText net.now transition) bytes.now (λ x. values.new) (λ x. x.now) result }
    ensures typed { (typed : List TypedVariable) × AreTypedAt net.now transition typed }
{
    let decls = net.decls();
    let vars = net.variables(transition);
    have_sorts(decls, vars);
    bracket(alloc, decls, vars, values, bytes)
}

/// Reads what stands behind `[` of this transition, and answers it with its values.
fn tail<'a>(
    alloc: Global,
    net: &Typed,
    transition: u32,
    bytes: &'a [u8],
) -> Result<(Mode, &'a [u8]), ReadFault>
    requires readable { IsReadable net.now }
    requires within { transition < length net.now.transitions }
    ensures mode { ReadsOr (IsTailText net.now transition) bytes.now (λ x. x.0) (λ x. x.1.now) result }
    ensures typed { (typed : List TypedVariable) × AreTypedAt net.now transition typed }
{
    let mut values = Items::new(alloc);
    match values_at(alloc, net, transition, &mut values, bytes) {
        Ok(rest) => Ok((Mode { transition, values }, rest)),
        Err(fault) => Err(fault),
    }
}

/// Reads a transition with values for its variables.
pub(crate) fn assigned<'a>(
    alloc: Global,
    net: &Typed,
    bytes: &'a [u8],
) -> Result<(Mode, &'a [u8]), ReadFault>
    requires { IsReadable net.now }
    ensures { ReadsOr (IsAssignedText net.now) bytes.now (λ x. x.0) (λ x. x.1.now) result }
{
    match transition(alloc, net, bytes) {
        Ok((number, rest)) => tail(alloc, net, number, rest),
        Err(fault) => match have_all_typed(net) {
            Ok(()) => Err(fault),
            Err(error) => Err(ReadFault::Memory(error)),
        },
    }
}
