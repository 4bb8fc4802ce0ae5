use pn_outside::limits::limits_as_numbers;
use pn_outside::{
    BufferedSink, CountSink, Failed, MemorySink, MemorySource, PlainSource, Sink, Source, StdSink,
    StdSource, put_all,
};
use std::alloc::Global;
use std::io;
use std::io::{BufWriter, ErrorKind, Read, Write};
use std::process::Abort;
use std::test::Fail;

/// A reader and writer of which one call of each kind fails.
#[derive(Drop)]
struct Flaky {
    reads: u8,
    writes: u8,
    flushes: u8,
}

fn make_flaky() -> Flaky {
    Flaky {
        reads: 0,
        writes: 0,
        flushes: 0,
    }
}

fn broken_pipe() -> io::Error {
    io::Error::from(ErrorKind::BrokenPipe)
}

impl Read for Flaky {
    fn read(&mut self, buf: &mut [u8]) -> io::Result<usize> {
        self.reads = self.reads.saturating_add(1);
        if self.reads == 2 {
            return Err(broken_pipe());
        }
        Ok(buf.len().min(1))
    }
}

impl Write for Flaky {
    fn write(&mut self, buf: &[u8]) -> io::Result<usize> {
        self.writes = self.writes.saturating_add(1);
        match self.writes {
            2 => Ok(0),
            3 => Err(broken_pipe()),
            _ => Ok(buf.len().min(2)),
        }
    }

    fn flush(&mut self) -> io::Result<()> {
        self.flushes = self.flushes.saturating_add(1);
        if self.flushes == 1 {
            return Err(broken_pipe());
        }
        Ok(())
    }
}

/// The next reads into four bytes answer this, one after the other.
fn reads<S: Source>(rt: &impl Abort, source: &mut S, sizes: &[Result<usize, Failed>]) {
    let mut buffer = [0; 4];
    for size in sizes {
        assert!(rt; source.read(&mut buffer) == *size);
    }
}

#[test]
fn a_failing_reader_is_a_fault_once(rt: HostRuntime) {
    let mut source = StdSource::new(make_flaky());
    reads(&rt, &mut source, &[Ok(1), Err(Failed), Ok(1)]);
}

/// A write takes two bytes, the next none, and the next fails; so does `done`.
fn writes_fail(rt: &impl Abort, sink: &mut StdSink<Flaky>) {
    assert!(rt; sink.write(b"abc") == Ok(2));
    assert!(rt; sink.write(b"c") == Err(Failed), "nothing taken");
    assert!(rt; sink.write(b"c") == Err(Failed));
    assert!(rt; sink.done() == Err(Failed));
}

fn writes_again(rt: &impl Abort, sink: &mut StdSink<Flaky>) {
    assert!(rt; put_all(sink, b"cdefg") == Ok(()));
    assert!(rt; sink.done() == Ok(()));
}

#[test]
fn a_failing_writer_is_a_fault_each_time(rt: HostRuntime) {
    let mut sink = StdSink::new(make_flaky());
    writes_fail(&rt, &mut sink);
    writes_again(&rt, &mut sink);
}

/// The next calls of `done` answer this, one after the other.
fn ends<K: Sink>(rt: &impl Abort, sink: &mut K, answers: &[Result<(), Failed>]) {
    for answer in answers {
        assert!(rt; sink.done() == *answer);
    }
}

#[test]
fn a_buffer_is_emptied_by_done(rt: HostRuntime) -> Result<(), Fail> {
    limits_as_numbers();
    let writer = BufWriter::new(rt.alloc(), make_flaky()).map_err(|_| "no buffer")?;
    let mut sink = BufferedSink::new(writer);
    assert!(rt; put_all(&mut sink, b"abc") == Ok(()));
    // nothing taken of the last byte, a broken pipe, a flush that fails, and all is out
    ends(
        &rt,
        &mut sink,
        &[Err(Failed), Err(Failed), Err(Failed), Ok(())],
    );
    Ok(())
}

/// A source of eight bytes that is cut at 3 and at 0 bytes, and whose second read fails.
fn cut_source(alloc: Global) -> Result<MemorySource, Fail> {
    let bytes = Vec::from_slice(alloc, b"abcdefgh")?;
    let cuts = Vec::from_slice(alloc, &[3, 0])?;
    let failing = Vec::from_slice(alloc, &[2])?;
    Ok(MemorySource::new(bytes, cuts, failing))
}

#[test]
fn cuts_go_round_and_listed_reads_fail(rt: HostRuntime) -> Result<(), Fail> {
    let mut source = cut_source(rt.alloc())?;
    let sizes = [Ok(3), Err(Failed), Ok(1), Ok(3), Ok(1), Ok(0), Ok(0)];
    reads(&rt, &mut source, &sizes);
    Ok(())
}

#[test]
fn a_plain_source_gives_all(rt: HostRuntime) -> Result<(), Fail> {
    let mut whole = PlainSource::new(Vec::from_slice(rt.alloc(), b"abcdef")?);
    reads(&rt, &mut whole, &[Ok(4), Ok(2), Ok(0)]);
    Ok(())
}

/// A sink with room for five bytes, whose second write fails.
fn small_sink(alloc: Global) -> Result<MemorySink, Fail> {
    let failing = Vec::from_slice(alloc, &[2])?;
    Ok(MemorySink::new(alloc, 5, failing)?)
}

/// What has room is taken, around a write that fails.
fn takes_what_has_room(rt: &impl Abort, sink: &mut MemorySink) {
    assert!(rt; put_all(sink, b"abc") == Ok(()));
    assert!(rt; sink.write(b"de") == Err(Failed));
    assert!(rt; put_all(sink, b"defg") == Err(Failed));
}

fn keeps_what_was_taken(rt: &impl Abort, sink: &mut MemorySink) {
    assert!(rt; sink.write(b"") == Ok(0));
    assert!(rt; sink.done() == Ok(()));
    assert!(rt; sink.bytes() == b"abcde".as_slice());
}

#[test]
fn sinks_keep_what_was_taken(rt: HostRuntime) -> Result<(), Fail> {
    let mut sink = small_sink(rt.alloc())?;
    takes_what_has_room(&rt, &mut sink);
    keeps_what_was_taken(&rt, &mut sink);
    Ok(())
}

#[test]
fn a_count_is_kept(rt: HostRuntime) {
    let mut count = CountSink::new();
    assert!(rt; put_all(&mut count, b"abc") == Ok(()));
    assert!(rt; put_all(&mut count, b"de") == Ok(()));
    assert!(rt; count.count() == 5);
}
