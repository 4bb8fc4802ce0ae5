ghost use Rattle.std.specs.Prelude.{◌≡◌, ◌<◌, ◌↔◌, [], IfOk, OnOk, length};
ghost use Rattle.std.specs.Io.{WritesAtMost};
ghost use Rattle.std.specs.Io.Buffered.{writer_buffer, writer_contents};
ghost use Rattle.std.proofs.Common.{rules};
ghost use Rattle.pn_outside.specs.Buffered.{buffered, buffered_number, buffered_faults, IsPassedOn};
ghost use Rattle.pn_outside.specs.Cause.{CountsFault, HasCause};
ghost use Rattle.pn_outside.specs.Taking.{Takes, WriteTakes};

use crate::{Failed, Sink};
use std::io::{BufWriter, Write};

/// A buffered writer as a sink, which is settled exactly where the buffer is empty.
#[derive(Drop)]
pub struct BufferedSink<W: Write + Drop> {
    writer: BufWriter<W>,
    faults: u64,
}

impl<W: Write + Drop> BufferedSink<W> {
    /// A sink over this writer. Takes no memory.
    pub fn new(writer: BufWriter<W>) -> BufferedSink<W>
        ensures taken { buffered W.contents result ≡ writer_contents W.contents writer }
        ensures faults { buffered_faults result ≡ 0 }
        ensures settled { IsPassedOn result ↔ (writer_buffer writer ≡ []) }
    {
        BufferedSink { writer, faults: 0 }
    }
}

impl<W: Write + Drop> Sink for BufferedSink<W> {
    ghost taken = { buffered W.contents };

    ghost number = { buffered_number W.contents };

    ghost faults = { buffered_faults };

    ghost settled = { IsPassedOn };

    ghost told = { λ s. Prim.search rules };

    /// One write of the writer. Any `Err` of it is a fault, and so is a write that takes nothing
    /// of a piece that is not empty.
    fn write(&mut self, piece: &[u8]) -> Result<usize, Failed>
        ensures bound { WritesAtMost result piece.now }
        ensures some { IfOk result (λ n. 0 < length piece.now → 0 < n) }
        ensures takes { WriteTakes (buffered W.contents) (buffered_number W.contents) self.old self.new result piece.now }
        ensures cause { HasCause (buffered_faults self.old) (buffered_faults self.new) result }
        ensures counted { CountsFault (buffered_faults self.old) (buffered_faults self.new) result }
    {
        match self.writer.write(piece) {
            Ok(size) if size > 0 || piece.is_empty() => Ok(size),
            _ => {
                self.faults = self.faults.saturating_add(1);
                Err(Failed)
            }
        }
    }

    /// Flushes the buffer into the writer behind it, and that writer.
    fn done(&mut self) -> Result<(), Failed>
        ensures settled { OnOk result (IsPassedOn self.new) }
        ensures takes { Takes (buffered W.contents) (buffered_number W.contents) self.old self.new [] }
        ensures cause { HasCause (buffered_faults self.old) (buffered_faults self.new) result }
        ensures counted { CountsFault (buffered_faults self.old) (buffered_faults self.new) result }
    {
        let has_failed = self.writer.flush().is_err();
        if has_failed {
            self.faults = self.faults.saturating_add(1);
            return Err(Failed);
        }
        Ok(())
    }
}
