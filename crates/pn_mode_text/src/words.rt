//! Mode words, read.

ghost use Rattle.std.specs.Prelude.{◌≡◌, Err, ℕ, IfOk};
ghost use Rattle.pn_mode_text.specs.ModeReadings.{IsNearer, IsReadable, IsToldBreak, IsWord};
ghost use Rattle.pn_mode_text.specs.Readings.{ReadsOr};
ghost use Rattle.pn_mode_text.specs.Words.{IsModeWord};
ghost use Rattle.pn_net.specs.declared.mode.Mode.{Mode};
ghost use Rattle.pn_mode_text.specs.declared.words.ModeTextFault.TheVariants as ModeTextFault;
ghost use Rattle.pn_words.specs.Languages.{IsBadPlace};

use crate::read_modes::assigned;
use crate::reading::ReadFault;
use crate::transitions::have_typed;
use pn_net::{Mode, Typed};
use pn_words::number;
use std::alloc::{AllocError, Global};
use thiserror::Error;

/// A number of times, and a transition with values for its variables.
#[derive(Debug, Drop)]
pub struct Counted {
    pub count: u64,
    pub mode: Mode,
}

/// Why a mode word was not read.
#[derive(Debug, Drop, Error)]
pub enum ModeTextFault {
    #[error(transparent)]
    Memory(#[from(alloc)] AllocError),
    /// It is no mode word of the net. The number is how many bytes its longest front has that begins
    /// one.
    #[error("no mode word of the net")]
    BadMode(usize),
}

/// The fault of bytes that are broken for two languages: fewer are left.
fn nearer(fault: ReadFault, less: usize) -> ReadFault
    ensures { IsNearer fault less result }
{
    match fault {
        ReadFault::Memory(error) => ReadFault::Memory(error),
        ReadFault::Broken(left) => ReadFault::Broken(left.min(less)),
    }
}

/// Reads a mode word from the front of bytes.
fn counted_mode<'a>(
    alloc: Global,
    net: &Typed,
    bytes: &'a [u8],
) -> Result<((u64, Mode), &'a [u8]), ReadFault>
    requires { IsReadable net.now }
    ensures { ReadsOr (IsWord net.now) bytes.now (λ x. x.0) (λ x. x.1.now) result }
{
    if net.flat().transitions.is_empty() {
        return Err(ReadFault::Broken(bytes.len()));
    }
    have_typed(net, 0);
    match number(1, 9223372036854775807, b"*", bytes) {
        Ok(((count, _), rest)) => match assigned(alloc, net, rest) {
            Ok((mode, rest)) => Ok(((count, mode), rest)),
            Err(fault) => Err(fault),
        },
        Err(less) => match assigned(alloc, net, bytes) {
            Ok((mode, rest)) => Ok(((1, mode), rest)),
            Err(fault) => Err(nearer(fault, less)),
        },
    }
}

/// The fault of a word of so many bytes.
fn told(fault: ReadFault, length: usize) -> ModeTextFault
    ensures { IsToldBreak fault length result }
{
    match fault {
        ReadFault::Memory(error) => ModeTextFault::Memory(error),
        ReadFault::Broken(left) => ModeTextFault::BadMode(length - left.min(length)),
    }
}

/// No id of a typed net stands twice, and its sorts have values: asked for what it ensures alone.
fn is_readable(net: &Typed)
    ensures { IsReadable net.now }
{
    let _flat = net.flat();
}

/// Reads a mode word: a number from 1 to 2^63 - 1 and `*`, or neither; the escaped id of a transition;
/// and in brackets its variables with values of their sorts (ISO/IEC 15909-1, modes). Whether the
/// condition holds is not asked.
///
/// A word that is none is told by how many bytes its longest front has with which a mode word of the
/// net begins.
pub fn read_mode(alloc: Global, net: &Typed, word: &str) -> Result<Counted, ModeTextFault>
    ensures word { IfOk result (λ counted. IsModeWord net.now word.now counted.count counted.mode) }
    ensures only { IfOk result (λ counted. (q : ℕ) (m : Mode) → IsModeWord net.now word.now q m → (q ≡ counted.count) × (m ≡ counted.mode)) }
    ensures place { (k : ℕ) → result ≡ Err (ModeTextFault.BadMode k) → IsBadPlace (IsWord net.now) word.now k }
    ensures none { (k : ℕ) → result ≡ Err (ModeTextFault.BadMode k) → (q : ℕ) (m : Mode) → IsModeWord net.now word.now q m → ⊥ }
{
    is_readable(net);
    let bytes = word.as_bytes();
    let read = match counted_mode(alloc, net, bytes) {
        Ok(read) => read,
        Err(fault) => return Err(told(fault, bytes.len())),
    };
    if !read.1.is_empty() {
        return Err(ModeTextFault::BadMode(bytes.len() - read.1.len()));
    }
    Ok(Counted {
        count: read.0.0,
        mode: read.0.1,
    })
}
