ghost use Rattle.std.specs.Prelude.{◌≡◌, ℕ, ◌+◌, ◌<◌, ◌≤◌, min, List, [], ◌++◌, length, take, drop, Option, None, Some, IfOk, OnOk, ⊤};
ghost use Rattle.std.specs.Io.{ReadsAtMost, WritesAtMost};
ghost use Rattle.std.specs.Io.KnownBytes.{ReadConsumes};
ghost use Rattle.pn_outside.specs.Cause.{capped, CountsFault, HasCause};
ghost use Rattle.pn_outside.specs.Taking.{Takes, WriteTakes};

use crate::{Failed, Sink, Source};
use std::marker::Model;

/// Copies the front of `from` to the front of `into`, at most `most` bytes, and says how many.
pub(crate) fn copy_front(from: &[u8], most: usize, into: &mut [u8]) -> usize
    ensures size { result ≡ min most (min (length from.now) (length into.old)) }
    ensures copied { from.now ≡ take result into.new ++ drop result from.now }
    ensures ended { result ≡ 0 → 0 < most → 0 < length into.new → from.now ≡ [] }
{
    let size = most.min(from.len()).min(into.len());
    into[..size].copy_from_slice(&from[..size]);
    size
}

/// A source over memory that never fails and gives as much as there is room for. Contracts see it
/// as the bytes left.
#[derive(Debug, Drop)]
pub struct PlainSource {
    bytes: Vec<u8>,
    at: usize,
}

impl Model for PlainSource {
    ghost Value = { List ℕ };

    ghost view = { λ s. drop s.at s.bytes.items };

    ghost invariant = { λ s. s.at ≤ length s.bytes.items };
}

impl PlainSource {
    /// A source of these bytes. Takes no memory.
    pub fn new(bytes: Vec<u8>) -> PlainSource
        ensures { result ≡ bytes.items }
    {
        PlainSource { bytes, at: 0 }
    }
}

impl Source for PlainSource {
    ghost left = { λ s. Some s };

    ghost faults = { λ _. 0 };

    fn read(&mut self, into: &mut [u8]) -> Result<usize, Failed>
        ensures bound { ReadsAtMost result into.new }
        ensures reads { ReadConsumes (Some self.old) (Some self.new) result into.new }
        ensures cause { HasCause 0 0 result }
        ensures unfailed { CountsFault 0 0 result }
        ensures size { result ≡ Ok (min (length into.new) (length self.old)) }
    {
        let most = into.len();
        let size = copy_front(&self.bytes[self.at..], most, into);
        self.at += size;
        Ok(size)
    }
}

/// A sink that keeps the number of bytes alone, and never fails. Contracts see it as that number,
/// which stands still at 2^64 - 1.
#[derive(Debug, Drop)]
pub struct CountSink {
    count: u64,
}

impl Model for CountSink {
    ghost Value = { ℕ };

    ghost view = { λ s. s.count };
}

impl CountSink {
    /// A sink that took nothing yet. Takes no memory.
    pub fn new() -> CountSink
        ensures { result ≡ 0 }
    {
        CountSink { count: 0 }
    }

    /// The number of bytes taken, capped at 2^64 - 1.
    pub fn count(&self) -> u64
        ensures { result ≡ self.now }
    {
        self.count
    }
}

impl Sink for CountSink {
    ghost taken = { λ _. None };

    ghost number = { λ s. Some s };

    ghost faults = { λ _. 0 };

    ghost settled = { λ _. ⊤ };

    ghost told = { λ _. tt };

    fn write(&mut self, piece: &[u8]) -> Result<usize, Failed>
        ensures bound { WritesAtMost result piece.now }
        ensures some { IfOk result (λ n. 0 < length piece.now → 0 < n) }
        ensures takes { WriteTakes (λ _. None) (λ s. Some s) self.old self.new result piece.now }
        ensures cause { HasCause 0 0 result }
        ensures unfailed { CountsFault 0 0 result }
        ensures whole { result ≡ Ok (length piece.now) }
        ensures counted { self.new ≡ capped (self.old + length piece.now) }
    {
        self.count = self.count.saturating_add(piece.len() as u64);
        Ok(piece.len())
    }

    fn done(&mut self) -> Result<(), Failed>
        ensures settled { OnOk result ⊤ }
        ensures takes { Takes (λ _. None) (λ s. Some s) self.old self.new [] }
        ensures cause { HasCause 0 0 result }
        ensures unfailed { CountsFault 0 0 result }
        ensures unchanged { self.new ≡ self.old }
    {
        Ok(())
    }
}
