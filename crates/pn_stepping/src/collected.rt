//! A sink over memory that grows.

ghost use Rattle.std.specs.Prelude.{◌≡◌, ◌<◌, [], IfOk, OnOk, length, ⊤, refl};
ghost use Rattle.std.specs.Io.{WritesAtMost};
ghost use Rattle.pn_outside.specs.Cause.{CountsFault, HasCause};
ghost use Rattle.pn_outside.specs.Taking.{Takes, WriteTakes};
ghost use Rattle.pn_stepping.specs.Collecting.{collected_bytes, collected_number};

use pn_outside::{Failed, Sink};
use std::alloc::Global;

/// A sink over memory that grows, whose writes fail for want of memory alone.
#[derive(Debug, Drop)]
pub(crate) struct Collected {
    pub(crate) bytes: Vec<u8>,
    pub(crate) faults: u64,
}

impl Collected {
    /// A sink that took nothing yet. Takes no memory.
    pub(crate) fn new(alloc: Global) -> Collected
        ensures { result.bytes.items ≡ [] }
    {
        Collected {
            bytes: Vec::new(alloc),
            faults: 0,
        }
    }

    /// What was taken.
    pub(crate) fn into_bytes(self) -> Vec<u8>
        ensures { result.items ≡ self.bytes.items }
    {
        self.bytes
    }
}

impl Sink for Collected {
    ghost taken = { collected_bytes };

    ghost number = { collected_number };

    ghost faults = { λ s. s.faults };

    ghost settled = { λ _. ⊤ };

    ghost told = { λ _. refl };

    fn write(&mut self, piece: &[u8]) -> Result<usize, Failed>
        ensures bound { WritesAtMost result piece.now }
        ensures some { IfOk result (λ n. 0 < length piece.now → 0 < n) }
        ensures takes { WriteTakes collected_bytes collected_number self.old self.new result piece.now }
        ensures cause { HasCause self.old.faults self.new.faults result }
        ensures counted { CountsFault self.old.faults self.new.faults result }
    {
        match self.bytes.extend_from_slice(piece) {
            Ok(()) => Ok(piece.len()),
            Err(_) => {
                self.faults = self.faults.saturating_add(1);
                Err(Failed)
            }
        }
    }

    fn done(&mut self) -> Result<(), Failed>
        ensures settled { OnOk result ⊤ }
        ensures takes { Takes collected_bytes collected_number self.old self.new [] }
        ensures cause { HasCause self.old.faults self.new.faults result }
        ensures counted { CountsFault self.old.faults self.new.faults result }
    {
        Ok(())
    }
}
