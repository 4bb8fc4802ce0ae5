ghost use Rattle.std.specs.Prelude.{◌≡◌, ◌<◌, ℕ, [], IfOk, OnOk, length, true, refl};
ghost use Rattle.std.specs.Io.{WritesAtMost};
ghost use Rattle.pn_outside.specs.Cause.{CountsFault, HasCause};
ghost use Rattle.pn_outside.specs.Taking.{Takes, WriteTakes};
ghost use Rattle.pn_outside.specs.Memory.{Kept, IsMemoryWrite};
ghost use Rattle.pn_outside.specs.MemoryTelling.{kept_bytes, kept_number};

use crate::{Failed, Sink};
use std::alloc::{AllocError, Global};
use std::marker::Model;

/// A sink over memory with room for so many bytes, whose writes fail as a test wants it.
#[derive(Debug, Drop)]
pub struct MemorySink {
    bytes: Vec<u8>,
    room: usize,
    failing: Vec<u64>,
    writes: u64,
    faults: u64,
    settled: bool,
}

impl Model for MemorySink {
    ghost use Rattle.std.specs.Prelude.{◌≤◌, length, vec_capacity};
    ghost use Rattle.pn_outside.specs.Memory.{Kept};

    ghost Value = { Kept };

    ghost view = { λ s. record {
      bytes = s.bytes.items;
      room = s.room;
      failing = s.failing.items;
      writes = s.writes;
      faults = s.faults;
      settled = s.settled;
    } };

    ghost invariant = { λ s. (length s.bytes.items ≤ s.room) × (s.room ≤ vec_capacity s.bytes) };
}

impl MemorySink {
    /// A sink with room for `room` bytes, which is reserved once. Write number n, from 1, fails
    /// where n is in `failing`, or where the piece is not empty and no room is left.
    pub fn new(alloc: Global, room: usize, failing: Vec<u64>) -> Result<MemorySink, AllocError>
        ensures empty { IfOk result (λ s. s.bytes ≡ []) }
        ensures room { IfOk result (λ s. s.room ≡ room) }
        ensures failing { IfOk result (λ s. s.failing ≡ failing.items) }
        ensures unused { IfOk result (λ s. (s.writes ≡ 0) × (s.faults ≡ 0)) }
        ensures settled { IfOk result (λ s. s.settled ≡ true) }
    {
        let bytes = Vec::with_capacity(alloc, room)?;
        Ok(MemorySink {
            bytes,
            room,
            failing,
            writes: 0,
            faults: 0,
            settled: true,
        })
    }

    /// What was taken.
    pub fn bytes(&self) -> &[u8]
        ensures { result.now ≡ self.now.bytes }
    {
        self.bytes.as_slice()
    }
}

impl Sink for MemorySink {
    ghost taken = { kept_bytes };

    ghost number = { kept_number };

    ghost faults = { λ s. s.faults };

    ghost settled = { λ s. s.settled ≡ true };

    ghost told = { λ _. refl };

    fn write(&mut self, piece: &[u8]) -> Result<usize, Failed>
        ensures bound { WritesAtMost result piece.now }
        ensures some { IfOk result (λ n. 0 < length piece.now → 0 < n) }
        ensures takes { WriteTakes kept_bytes kept_number self.old self.new result piece.now }
        ensures cause { HasCause self.old.faults self.new.faults result }
        ensures counted { CountsFault self.old.faults self.new.faults result }
        ensures exact { IsMemoryWrite self.old self.new result piece.now }
    {
        self.writes = self.writes.saturating_add(1);
        let left = self.room - self.bytes.len();
        let is_full = left == 0 && !piece.is_empty();
        if is_full || self.failing.contains(&self.writes) {
            self.faults = self.faults.saturating_add(1);
            return Err(Failed);
        }
        let size = left.min(piece.len());
        if self.bytes.extend_from_slice(&piece[..size]).is_err() {
            unreachable!()
        }
        self.settled = self.settled && size == 0;
        Ok(size)
    }

    fn done(&mut self) -> Result<(), Failed>
        ensures settled { OnOk result (self.new.settled ≡ true) }
        ensures takes { Takes kept_bytes kept_number self.old self.new [] }
        ensures cause { HasCause self.old.faults self.new.faults result }
        ensures counted { CountsFault self.old.faults self.new.faults result }
        ensures never_fails { result ≡ Ok tt }
        ensures unchanged { self.new ≡ record self.old { settled = true } }
    {
        self.settled = true;
        Ok(())
    }
}
