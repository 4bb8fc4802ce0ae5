//! The lines of faults: the words of each reason, worked examples, and sinks that fail.

ghost use Rattle.std.specs.Prelude.{◌≤◌, length};

use pn_faults::{Fault, Reason};
use pn_outside::{CountSink, Failed, MemorySink};
use pn_report::put_fault;
use pn_text::Text;
use std::alloc::{AllocError, Global};
use std::process::Abort;
use std::test::Fail;

fn fault(alloc: Global, reason: Reason, at: u64, detail: &str) -> Result<Fault, AllocError> {
    let detail = Text::from_str(alloc, detail)?;
    Ok(Fault { reason, at, detail })
}

const REASONS: &[Reason] = &[
    Reason::UnknownElement,
    Reason::SecondNet,
    Reason::RepeatedElement,
    Reason::MissingElement,
    Reason::WrongNamespace,
    Reason::UnknownAttribute,
    Reason::MissingAttribute,
    Reason::StrayText,
    Reason::WrongNetType,
    Reason::BadId,
    Reason::BadNumber,
    Reason::BadValue,
    Reason::DuplicateId,
    Reason::UnknownEnd,
    Reason::WrongEnd,
    Reason::ReferenceCycle,
    Reason::UnknownSort,
    Reason::SortCycle,
    Reason::SortTooBig,
    Reason::EmptyRange,
    Reason::BadPartition,
    Reason::UnknownVariable,
    Reason::UnknownOperator,
    Reason::UnknownPartition,
    Reason::BadConstant,
    Reason::AllTooLarge,
    Reason::WrongSort,
    Reason::LabelSort,
    Reason::NotGround,
    Reason::NoValue,
];

/// Each reason at its place among all, from 0.
const LINES: &str = "\
pnml: byte 0: unknown element: a%20b
pnml: byte 1: second net: a%20b
pnml: byte 2: repeated element: a%20b
pnml: byte 3: missing element: a%20b
pnml: byte 4: wrong namespace: a%20b
pnml: byte 5: unknown attribute: a%20b
pnml: byte 6: missing attribute: a%20b
pnml: byte 7: stray text: a%20b
pnml: byte 8: wrong net type: a%20b
pnml: byte 9: bad id: a%20b
pnml: byte 10: bad number: a%20b
pnml: byte 11: bad value: a%20b
pnml: byte 12: duplicate id: a%20b
pnml: byte 13: unknown end: a%20b
pnml: byte 14: wrong end: a%20b
pnml: byte 15: reference cycle: a%20b
pnml: byte 16: unknown sort: a%20b
pnml: byte 17: sort cycle: a%20b
pnml: byte 18: sort too big: a%20b
pnml: byte 19: empty range: a%20b
pnml: byte 20: bad partition: a%20b
pnml: byte 21: unknown variable: a%20b
pnml: byte 22: unknown operator: a%20b
pnml: byte 23: unknown partition: a%20b
pnml: byte 24: bad constant: a%20b
pnml: byte 25: all too large: a%20b
pnml: byte 26: wrong sort: a%20b
pnml: byte 27: label sort: a%20b
pnml: byte 28: not ground: a%20b
pnml: byte 29: no value: a%20b
";

/// A fault of a reason is put.
fn puts_one(
    rt: &impl Abort,
    alloc: Global,
    sink: &mut MemorySink,
    reason: Reason,
    at: u64,
) -> Result<(), Fail> {
    let fault = fault(alloc, reason, at, "a b")?;
    assert!(rt; put_fault(&fault, sink) == Ok(()));
    Ok(())
}

fn puts_each(
    rt: &impl Abort,
    alloc: Global,
    sink: &mut MemorySink,
    reasons: &[Reason],
) -> Result<(), Fail> {
    for i in 0..reasons.len() {
        puts_one(rt, alloc, sink, reasons[i], i as u64)?;
    }
    assert!(rt; sink.bytes() == LINES.as_bytes());
    Ok(())
}

#[test]
fn words_of_each_reason(rt: HostRuntime) -> Result<(), Fail> {
    let mut sink = MemorySink::new(rt.alloc(), LINES.len(), Vec::new(rt.alloc()))?;
    puts_each(&rt, rt.alloc(), &mut sink, REASONS)
}

/// The sink is put the line of a fault.
fn puts(rt: &impl Abort, sink: &mut MemorySink, fault: &Fault, line: &str) {
    assert!(rt; put_fault(fault, sink) == Ok(()));
    assert!(rt; sink.bytes() == line.as_bytes());
}

/// So many bytes are put of a fault.
fn puts_bytes(rt: &impl Abort, fault: &Fault, line: &str) {
    let mut sink = CountSink::new();
    assert!(rt; put_fault(fault, &mut sink) == Ok(()));
    assert!(rt; sink.count() == line.len() as u64);
}

/// A fault has this line.
fn has_line(rt: &impl Abort, alloc: Global, fault: &Fault, line: &str) -> Result<(), Fail> {
    let mut sink = MemorySink::new(alloc, line.len(), Vec::new(alloc))?;
    puts(rt, &mut sink, fault, line);
    puts_bytes(rt, fault, line);
    Ok(())
}

/// The fault by these parts was made, and has this line.
fn row(
    rt: &impl Abort,
    alloc: Global,
    made: Result<Fault, AllocError>,
    line: &str,
) -> Result<(), Fail> {
    let fault = made?;
    has_line(rt, alloc, &fault, line)
}

fn shapes(rt: &impl Abort, alloc: Global) -> Result<(), Fail> {
    let number = fault(alloc, Reason::BadNumber, 169, "text");
    row(rt, alloc, number, "pnml: byte 169: bad number: text\n")?;
    let element = fault(alloc, Reason::UnknownElement, 153, "arctype");
    row(
        rt,
        alloc,
        element,
        "pnml: byte 153: unknown element: arctype\n",
    )
}

fn links(rt: &impl Abort, alloc: Global) -> Result<(), Fail> {
    let end = fault(alloc, Reason::WrongEnd, 201, "u");
    row(rt, alloc, end, "pnml: byte 201: wrong end: u\n")?;
    let cycle = fault(alloc, Reason::ReferenceCycle, 139, "r");
    row(rt, alloc, cycle, "pnml: byte 139: reference cycle: r\n")?;
    let id = fault(alloc, Reason::DuplicateId, 208, "a");
    row(rt, alloc, id, "pnml: byte 208: duplicate id: a\n")
}

fn terms(rt: &impl Abort, alloc: Global) -> Result<(), Fail> {
    let cycle = fault(alloc, Reason::SortCycle, 171, "s");
    row(rt, alloc, cycle, "pnml: byte 171: sort cycle: s\n")?;
    let sort = fault(alloc, Reason::WrongSort, 465, "successor");
    row(rt, alloc, sort, "pnml: byte 465: wrong sort: successor\n")
}

#[test]
fn worked_examples(rt: HostRuntime) -> Result<(), Fail> {
    shapes(&rt, rt.alloc())?;
    links(&rt, rt.alloc())?;
    terms(&rt, rt.alloc())
}

/// An empty detail leaves the space at the end; the greatest offset; an id of two lines, one of
/// which looks like a line of the program's own.
#[test]
fn strange_faults(rt: HostRuntime) -> Result<(), Fail> {
    let empty = fault(rt.alloc(), Reason::UnknownEnd, 0, "");
    row(&rt, rt.alloc(), empty, "pnml: byte 0: unknown end: \n")?;
    let last = fault(rt.alloc(), Reason::DuplicateId, u64::MAX, "é");
    row(
        &rt,
        rt.alloc(),
        last,
        "pnml: byte 18446744073709551615: duplicate id: é\n",
    )?;
    let lines = fault(rt.alloc(), Reason::WrongEnd, 7, "u\npnml: not yet");
    row(
        &rt,
        rt.alloc(),
        lines,
        "pnml: byte 7: wrong end: u%0Apnml%3A%20not%20yet\n",
    )
}

/// What has room of the line is out.
fn stops(rt: &impl Abort, sink: &mut MemorySink, fault: &Fault, front: &[u8]) {
    assert!(rt; put_fault(fault, sink) == Err(Failed));
    assert!(rt; sink.bytes() == front);
}

/// A sink with this much room takes that much of the line.
fn stops_at(
    rt: &impl Abort,
    alloc: Global,
    fault: &Fault,
    room: usize,
    line: &str,
) -> Result<(), Fail>
    requires { room ≤ length line.now }
{
    let mut sink = MemorySink::new(alloc, room, Vec::new(alloc))?;
    stops(rt, &mut sink, fault, &line.as_bytes()[..room]);
    Ok(())
}

fn stops_anywhere(rt: &impl Abort, alloc: Global, fault: &Fault, line: &str) -> Result<(), Fail> {
    for room in 0..line.len() {
        stops_at(rt, alloc, fault, room, line)?;
    }
    has_line(rt, alloc, fault, line)
}

#[test]
fn no_room_for_a_line(rt: HostRuntime) -> Result<(), Fail> {
    let fault = fault(rt.alloc(), Reason::WrongEnd, 201, "a b")?;
    stops_anywhere(
        &rt,
        rt.alloc(),
        &fault,
        "pnml: byte 201: wrong end: a%20b\n",
    )
}

/// One write fails in the middle, and no more is written; the next call is put whole.
fn fails_once(rt: &impl Abort, sink: &mut MemorySink, fault: &Fault) {
    stops(rt, sink, fault, b"pnml: byte 201");
    assert!(rt; put_fault(fault, sink) == Ok(()));
    assert!(rt; sink.bytes() == b"pnml: byte 201pnml: byte 201: wrong end: u\n".as_slice());
}

fn fails_between(rt: &impl Abort, alloc: Global, fault: &Fault) -> Result<(), Fail> {
    let failing = Vec::from_slice(alloc, &[3])?;
    let mut sink = MemorySink::new(alloc, 100, failing)?;
    fails_once(rt, &mut sink, fault);
    Ok(())
}

#[test]
fn a_write_that_fails(rt: HostRuntime) -> Result<(), Fail> {
    let fault = fault(rt.alloc(), Reason::WrongEnd, 201, "u")?;
    fails_between(&rt, rt.alloc(), &fault)
}
