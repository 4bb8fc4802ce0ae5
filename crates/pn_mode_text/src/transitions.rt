//! Escaped ids of transitions, read.

ghost use Rattle.std.specs.Prelude.{◌≡◌, ◌<◌, ℕ, List, [], ◌∷◌, IfOk, IfSome, length};
ghost use Rattle.pn_mode_text.specs.ModeReadings.{AreTypedAt, IsTransitionText, transition_ids};
ghost use Rattle.pn_mode_text.specs.Readings.{StandOnce, ReadsOr};
ghost use Rattle.pn_mode_text.specs.Texts.{TypedVariable};
ghost use Rattle.pn_words.specs.Languages.{Closed, IsRead};

use crate::escapes::unescaped;
use crate::ids::closed_escaped;
use crate::modes::have_sorts;
use crate::reading::ReadFault;
use pn_net::Typed;
use std::alloc::{AllocError, Global};

/// The variables of a transition have sorts: asked for what it ensures alone.
pub(crate) fn have_typed(net: &Typed, transition: u32)
    requires { transition < length net.now.transitions }
    ensures { (typed : List TypedVariable) × AreTypedAt net.now transition typed }
{
    have_sorts(net.decls(), net.variables(transition));
}

/// The number of transitions.
fn transitions(net: &Typed) -> Result<u32, AllocError>
    ensures { IfOk result (λ n. n ≡ length net.now.transitions) }
{
    let number = net.flat().transitions.len();
    if number > u32::MAX as usize {
        return Err(AllocError);
    }
    Ok(number as u32)
}

/// The variables of all transitions have sorts: asked for what it ensures alone.
pub(crate) fn have_all_typed(net: &Typed) -> Result<(), AllocError>
    ensures { IfOk result (λ x. (t : ℕ) → t < length net.now.transitions → (typed : List TypedVariable) × AreTypedAt net.now t typed) }
{
    let number = transitions(net)?;
    for transition in 0..number {
        have_typed(net, transition);
    }
    Ok(())
}

/// Looks the front of the bytes up: an escaped id with `[` behind it, where a transition has the id.
fn look_up<'a>(
    alloc: Global,
    net: &Typed,
    bytes: &'a [u8],
) -> Result<Option<(u32, &'a [u8])>, AllocError>
    requires { StandOnce (transition_ids net.now) }
    ensures { IfOk result (λ o. IfSome o (λ x. IsRead (Closed (IsTransitionText net.now) (91 ∷ [])) bytes.now (x.0, 91) x.1.now)) }
{
    let Some(read) = unescaped(alloc, b"[", bytes)? else {
        return Ok(None);
    };
    match net.find_transition(read.0.0.as_str()) {
        Some(number) => Ok(Some((number, read.1))),
        None => Ok(None),
    }
}

/// Compares the front of the bytes with the escaped ids of all transitions. The time is linear in the
/// number of transitions and in what the bytes share with their ids.
fn compare<'a>(net: &Typed, bytes: &'a [u8]) -> Result<(u32, &'a [u8]), ReadFault>
    requires { StandOnce (transition_ids net.now) }
    ensures { ReadsOr (Closed (IsTransitionText net.now) (91 ∷ [])) bytes.now (λ x. (x.0, 91)) (λ x. x.1.now) result }
{
    let number = match transitions(net) {
        Ok(number) => number,
        Err(error) => return Err(ReadFault::Memory(error)),
    };
    let all = net.flat().transitions.as_slice();
    let mut left = bytes.len();
    for place in 0..number {
        let id = all[place as usize].id.as_str();
        match closed_escaped(id.as_bytes(), b"[", bytes) {
            Ok((_, rest)) => return Ok((place, rest)),
            Err(less) => left = left.min(less),
        }
    }
    Err(ReadFault::Broken(left))
}

/// Reads the escaped id of a transition and `[` behind it. The time is linear in the id; where there
/// is none, it is also linear in the number of transitions.
pub(crate) fn transition<'a>(
    alloc: Global,
    net: &Typed,
    bytes: &'a [u8],
) -> Result<(u32, &'a [u8]), ReadFault>
    requires { StandOnce (transition_ids net.now) }
    ensures { ReadsOr (Closed (IsTransitionText net.now) (91 ∷ [])) bytes.now (λ x. (x.0, 91)) (λ x. x.1.now) result }
{
    match look_up(alloc, net, bytes) {
        Ok(Some(read)) => Ok(read),
        Ok(None) => compare(net, bytes),
        Err(error) => Err(ReadFault::Memory(error)),
    }
}
