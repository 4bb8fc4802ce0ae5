//! Steps whose refusals are told with the texts of tokens and modes.

ghost use Rattle.std.specs.Prelude.{ℕ, List, map, string_bytes, IfErr, IfOk};
ghost use Rattle.pn_checks.specs.Initial.{IsInitial};
ghost use Rattle.pn_marking.specs.Totals.{AreTokensOf};
ghost use Rattle.pn_net.specs.declared.token.Token.{Token};
ghost use Rattle.pn_stepping.specs.Refusing.{IsRefusedStep, IsTellable, IsToldBy};
ghost use Rattle.pn_stepping.specs.Stepping.{LeadTo};

use crate::stepping::{StepFault, step};
use crate::texts::{mode_bytes, token_bytes};
use pn_checks::Checked;
use pn_net::{Marking, Typed};
use sqlite_items::Items;
use std::alloc::{AllocError, Global};

/// Why the modes of some words do not fire, with the texts of tokens and modes.
#[derive(Debug, Drop)]
pub enum StepRefusal {
    Memory(AllocError),
    /// The first word that is no mode word, by its place, and how many bytes its longest front has with
    /// which one begins.
    BadMode(usize, usize),
    /// The first word whose transition with these values is no mode, by its place.
    NotAMode(usize),
    /// The text of the mode of the first word with which the count of its mode in the words so far
    /// passes 2^63 - 1.
    ModeTooLarge(Items<u8>),
    /// The text of the least token that the modes together take more often than it is there, how often
    /// they take it, 2^63 where it is more often, and how often it is there.
    NotEnabled {
        token: Items<u8>,
        need: u64,
        has: u64,
    },
    /// The text of the least token whose count in the new marking would pass 2^63 - 1.
    TokenTooLarge(Items<u8>),
}

/// As `step`, with the texts of tokens and modes where the modes do not fire (ISO/IEC 15909-1,
/// transition rule).
pub fn step_told(alloc: Global, net: &Checked, words: &[String]) -> Result<Marking, StepRefusal>
    requires initial { (m : List (Token × ℕ)) → IsInitial net.now m → AreTokensOf net.now m }
    ensures led { IfOk result (LeadTo net.now (map string_bytes words.now)) }
    ensures refused { IfErr result (IsRefusedStep net.now (map string_bytes words.now)) }
{
    match step(alloc, net, words) {
        Ok(marking) => Ok(marking),
        Err(fault) => Err(tell_fault(alloc, net.typed(), fault)),
    }
}

/// The refusal with the texts of a fault.
fn tell_fault(alloc: Global, net: &Typed, fault: StepFault) -> StepRefusal
    requires { IsTellable net.now fault }
    ensures { IsToldBy net.now fault result }
{
    match fault {
        StepFault::Memory(error) => StepRefusal::Memory(error),
        StepFault::BadMode(place, length) => StepRefusal::BadMode(place, length),
        StepFault::NotAMode(place) => StepRefusal::NotAMode(place),
        StepFault::ModeTooLarge(mode) => match mode_bytes(alloc, net, &mode) {
            Ok(text) => StepRefusal::ModeTooLarge(Items::from_vec(text)),
            Err(error) => StepRefusal::Memory(error),
        },
        StepFault::NotEnabled { token, need, has } => match token_bytes(alloc, net, &token) {
            Ok(text) => StepRefusal::NotEnabled {
                token: Items::from_vec(text),
                need,
                has,
            },
            Err(error) => StepRefusal::Memory(error),
        },
        StepFault::TokenTooLarge(token) => match token_bytes(alloc, net, &token) {
            Ok(text) => StepRefusal::TokenTooLarge(Items::from_vec(text)),
            Err(error) => StepRefusal::Memory(error),
        },
    }
}
