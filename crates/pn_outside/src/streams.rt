ghost use Rattle.std.specs.Prelude.{◌≡◌, ◌<◌, ◌↔◌, [], IfOk, IsOk, length};
ghost use Rattle.std.specs.Io.{ReadsAtMost, WritesAtMost};
ghost use Rattle.std.specs.Io.KnownBytes.{ReadConsumes};
ghost use Rattle.std.proofs.Common.{rules};
ghost use Rattle.pn_outside.specs.Cause.{CountsFault, HasCause};
ghost use Rattle.pn_outside.specs.Streams.{unread, read_faults, written, written_number, write_faults, IsFlushed};
ghost use Rattle.pn_outside.specs.Taking.{Takes, WriteTakes};

use crate::{Failed, Sink, Source};
use std::io::{Read, Write};

/// A reader as a source.
#[derive(Drop)]
pub struct StdSource<R> {
    reader: R,
    faults: u64,
}

impl<R: Read> StdSource<R> {
    /// A source over this reader. Takes no memory.
    pub fn new(reader: R) -> StdSource<R>
        ensures left { unread R.remaining result ≡ R.remaining reader }
        ensures faults { read_faults result ≡ 0 }
    {
        StdSource { reader, faults: 0 }
    }
}

impl<R: Read> Source for StdSource<R> {
    ghost left = { unread R.remaining };

    ghost faults = { read_faults };

    /// One read of the reader; any `Err` of it is a fault.
    fn read(&mut self, into: &mut [u8]) -> Result<usize, Failed>
        ensures bound { ReadsAtMost result into.new }
        ensures reads { ReadConsumes (unread R.remaining self.old) (unread R.remaining self.new) result into.new }
        ensures cause { HasCause (read_faults self.old) (read_faults self.new) result }
        ensures counted { CountsFault (read_faults self.old) (read_faults self.new) result }
    {
        match self.reader.read(into) {
            Ok(size) => Ok(size),
            Err(_) => {
                self.faults = self.faults.saturating_add(1);
                Err(Failed)
            }
        }
    }
}

/// A writer as a sink.
#[derive(Drop)]
pub struct StdSink<W> {
    writer: W,
    faults: u64,
    is_flushed: bool,
}

impl<W: Write> StdSink<W> {
    /// A sink over this writer, not settled yet. Takes no memory.
    pub fn new(writer: W) -> StdSink<W>
        ensures taken { written W.contents result ≡ W.contents writer }
        ensures faults { write_faults result ≡ 0 }
        ensures unsettled { ¬ IsFlushed result }
    {
        StdSink {
            writer,
            faults: 0,
            is_flushed: false,
        }
    }
}

impl<W: Write> Sink for StdSink<W> {
    ghost taken = { written W.contents };

    ghost number = { written_number W.contents };

    ghost faults = { write_faults };

    ghost settled = { IsFlushed };

    ghost told = { λ s. Prim.search rules };

    /// One write of the writer. Any `Err` of it is a fault, and so is a write that takes nothing
    /// of a piece that is not empty.
    fn write(&mut self, piece: &[u8]) -> Result<usize, Failed>
        ensures bound { WritesAtMost result piece.now }
        ensures some { IfOk result (λ n. 0 < length piece.now → 0 < n) }
        ensures takes { WriteTakes (written W.contents) (written_number W.contents) self.old self.new result piece.now }
        ensures cause { HasCause (write_faults self.old) (write_faults self.new) result }
        ensures counted { CountsFault (write_faults self.old) (write_faults self.new) result }
        ensures unsettled { ¬ IsFlushed self.new }
    {
        self.is_flushed = false;
        match self.writer.write(piece) {
            Ok(size) if size > 0 || piece.is_empty() => Ok(size),
            _ => {
                self.faults = self.faults.saturating_add(1);
                Err(Failed)
            }
        }
    }

    /// Flushes the writer. The sink is settled exactly where its last call was a `done` that
    /// answered `Ok`.
    fn done(&mut self) -> Result<(), Failed>
        ensures settled { IsFlushed self.new ↔ IsOk result }
        ensures takes { Takes (written W.contents) (written_number W.contents) self.old self.new [] }
        ensures cause { HasCause (write_faults self.old) (write_faults self.new) result }
        ensures counted { CountsFault (write_faults self.old) (write_faults self.new) result }
    {
        match self.writer.flush() {
            Ok(()) => {
                self.is_flushed = true;
                Ok(())
            }
            Err(_) => {
                self.is_flushed = false;
                self.faults = self.faults.saturating_add(1);
                Err(Failed)
            }
        }
    }
}
