ghost use Rattle.std.specs.Prelude.{◌≡◌, ◌<◌, ◌≤◌, ℕ, Some};
ghost use Rattle.std.specs.Io.{ReadsAtMost};
ghost use Rattle.std.specs.Io.KnownBytes.{ReadConsumes};
ghost use Rattle.pn_outside.specs.Cause.{CountsFault, HasCause};
ghost use Rattle.pn_outside.specs.Memory.{Given, IsMemoryRead, cut_of, next_turn};

use crate::plain::copy_front;
use crate::{Failed, Source};
use std::marker::Model;

/// A source over memory whose reads are cut and fail as a test wants it.
#[derive(Debug, Drop)]
pub struct MemorySource {
    bytes: Vec<u8>,
    at: usize,
    cuts: Vec<usize>,
    turn: usize,
    failing: Vec<u64>,
    calls: u64,
    faults: u64,
}

impl Model for MemorySource {
    ghost use Rattle.std.specs.Prelude.{◌≤◌, drop, length};
    ghost use Rattle.pn_outside.specs.Memory.{Given};

    ghost Value = { Given };

    ghost view = { λ s. record {
      left = drop s.at s.bytes.items;
      cuts = s.cuts.items;
      turn = s.turn;
      failing = s.failing.items;
      calls = s.calls;
      faults = s.faults;
    } };

    ghost invariant = { λ s. (s.at ≤ length s.bytes.items) × (s.turn ≤ length s.cuts.items) };
}

/// How many of `most` bytes the cut at `turn` lets through.
fn cut_size(cuts: &[usize], turn: usize, most: usize) -> usize
    ensures size { result ≡ cut_of cuts.now turn most }
    ensures some { 0 < most → 0 < result }
{
    if cuts.is_empty() {
        return most;
    }
    let cut = if turn < cuts.len() { cuts[turn] } else { 0 };
    cut.max(1).min(most)
}

/// The place after `turn` in a ring of `size` cuts.
fn turn_after(size: usize, turn: usize) -> usize
    requires { turn ≤ size }
    ensures { result ≡ next_turn size turn }
{
    if size - turn > 1 { turn + 1 } else { 0 }
}

impl MemorySource {
    /// A source of these bytes. Call number n of `read`, from 1, fails where n is in `failing`.
    /// Any other call gives as many bytes as the least of the next of `cuts`, the length of the
    /// buffer and the number of bytes left. The cuts are used in a ring, and a call that fails
    /// uses none; a cut of 0 counts as 1, and no cuts mean no cutting. Takes no memory.
    pub fn new(bytes: Vec<u8>, cuts: Vec<usize>, failing: Vec<u64>) -> MemorySource
        ensures left { result.left ≡ bytes.items }
        ensures cuts { result.cuts ≡ cuts.items }
        ensures first { result.turn ≡ 0 }
        ensures failing { result.failing ≡ failing.items }
        ensures unused { (result.calls ≡ 0) × (result.faults ≡ 0) }
    {
        MemorySource {
            bytes,
            at: 0,
            cuts,
            turn: 0,
            failing,
            calls: 0,
            faults: 0,
        }
    }
}

impl Source for MemorySource {
    ghost left = { λ s. Some s.left };

    ghost faults = { λ s. s.faults };

    fn read(&mut self, into: &mut [u8]) -> Result<usize, Failed>
        ensures bound { ReadsAtMost result into.new }
        ensures reads { ReadConsumes (Some self.old.left) (Some self.new.left) result into.new }
        ensures cause { HasCause self.old.faults self.new.faults result }
        ensures counted { CountsFault self.old.faults self.new.faults result }
        ensures exact { IsMemoryRead self.old self.new result into.new }
    {
        self.calls = self.calls.saturating_add(1);
        if self.failing.contains(&self.calls) {
            self.faults = self.faults.saturating_add(1);
            return Err(Failed);
        }
        let most = cut_size(self.cuts.as_slice(), self.turn, into.len());
        self.turn = turn_after(self.cuts.len(), self.turn);
        let size = copy_front(&self.bytes[self.at..], most, into);
        self.at += size;
        Ok(size)
    }
}
