ghost use Rattle.std.specs.Prelude.{◌≡◌, ℕ, List, [], ◌<◌, length, Option, None, Some, IfOk, OnOk};
ghost use Rattle.std.specs.Io.{ReadsAtMost, WritesAtMost};
ghost use Rattle.std.specs.Io.KnownBytes.{ReadConsumes};
ghost use Rattle.pn_outside.specs.Cause.{CountsFault, HasCause};
ghost use Rattle.pn_outside.specs.Taking.{Tells, Takes, WriteTakes};

use thiserror::Error;

/// A read or a write failed. Nothing more is known of why.
#[derive(Clone, Copy, Debug, PartialEq, Eq, Error)]
#[error("the source or the sink failed")]
pub struct Failed;

/// Where bytes come from.
pub trait Source {
    // The bytes that are left, where the source tells them.
    ghost left: { Self → Option (List ℕ) };

    // The count of faults, which stands still at 2^64 - 1.
    ghost faults: { Self → ℕ };

    /// Reads into the front of `into`. `Ok(n)` gives n bytes; for a buffer that is not empty it is
    /// `Ok(0)` exactly where none is left. A read that failed took nothing.
    fn read(&mut self, into: &mut [u8]) -> Result<usize, Failed>
        ensures bound { ReadsAtMost result into.new }
        ensures reads { ReadConsumes (left self.old) (left self.new) result into.new }
        ensures cause { HasCause (faults self.old) (faults self.new) result }
        ensures counted { CountsFault (faults self.old) (faults self.new) result };
}

/// Where bytes go.
pub trait Sink {
    // The bytes taken so far, where the sink tells them.
    ghost taken: { Self → Option (List ℕ) };

    // The number of bytes taken so far, capped at 2^64 - 1, where the sink tells it.
    ghost number: { Self → Option ℕ };

    // The count of faults, which stands still at 2^64 - 1.
    ghost faults: { Self → ℕ };

    // All that was taken was passed on.
    ghost settled: { Self → Type 0 };

    /// Takes a front of `piece` and says how long it was: at least one byte, where there is one.
    /// A write that failed took nothing.
    fn write(&mut self, piece: &[u8]) -> Result<usize, Failed>
        ensures bound { WritesAtMost result piece.now }
        ensures some { IfOk result (λ n. 0 < length piece.now → 0 < n) }
        ensures takes { WriteTakes taken number self.old self.new result piece.now }
        ensures cause { HasCause (faults self.old) (faults self.new) result }
        ensures counted { CountsFault (faults self.old) (faults self.new) result };

    /// Passes on what was taken, and takes nothing itself.
    fn done(&mut self) -> Result<(), Failed>
        ensures settled { OnOk result (settled self.new) }
        ensures takes { Takes taken number self.old self.new [] }
        ensures cause { HasCause (faults self.old) (faults self.new) result }
        ensures counted { CountsFault (faults self.old) (faults self.new) result };

    ghost told: { (s : Self) → Tells (taken s) (number s) };
}
