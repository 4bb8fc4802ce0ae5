ghost use Rattle.std.specs.Prelude.{ℕ, List, Option, None};

use pn_command::{Status, run};
use pn_outside::limits::BYTES;
use pn_outside::{Failed, MemorySink, MemorySource, PlainSource, Source};
use std::alloc::{AllocError, Global};
use std::process::Abort;
use std::test::Fail;

const TRANSFER: &str =
    "<pnml xmlns=\"http://www.pnml.org/version-2009/grammar/pnml\"><net id=\"n\" type=\"http://www.pnml.org/version-2009/grammar/ptnet\"><page id=\"g\"><place id=\"a\"><initialMarking><text>3</text></initialMarking></place><place id=\"b\"/><transition id=\"t\"/><arc id=\"u\" source=\"a\" target=\"t\"/><arc id=\"v\" source=\"t\" target=\"b\"/></page></net></pnml>";

const DECLARATION: &str = "<?xml version=\"1.0\" encoding=\"UTF-8\"?>\n";

const USAGE: &str =
    "pnml: usage: check, flatten, step MODE (one or more), modes T, unfold, trial N\n";

/// A call: its words, a document that comes in pieces of `cut` bytes and whose read number
/// `failing` fails, and so much room on the standard output; then how it ends, and what it writes.
#[derive(Clone, Copy)]
struct Case<'a> {
    words: &'a [&'a str],
    document: &'a [u8],
    cut: usize,
    failing: u64,
    room: usize,
    status: Status,
    out: &'a str,
    err: &'a str,
}

fn words_of(alloc: Global, case: Case<'_>) -> Result<Vec<String>, AllocError> {
    let mut words = Vec::new(alloc);
    for word in case.words {
        words.push(String::from_str(alloc, word)?)?;
    }
    Ok(words)
}

fn source_of(alloc: Global, case: Case<'_>) -> Result<MemorySource, AllocError> {
    let bytes = Vec::from_slice(alloc, case.document)?;
    let cuts = Vec::from_slice(alloc, &[case.cut])?;
    let failing = Vec::from_slice(alloc, &[case.failing])?;
    Ok(MemorySource::new(bytes, cuts, failing))
}

/// Runs the program over these streams.
fn run_on(
    alloc: Global,
    words: &[String],
    source: &mut MemorySource,
    out: &mut MemorySink,
    err: &mut MemorySink,
) -> Status {
    let mut side = PlainSource::new(Vec::new(alloc));
    run(alloc, words, source, &mut side, out, err)
}

/// Asserts how a call ended, and what it wrote.
fn expect_ended(
    rt: &impl Abort,
    case: Case<'_>,
    status: Status,
    out: &MemorySink,
    err: &MemorySink,
) {
    assert!(rt; status == case.status);
    assert!(rt; out.bytes() == case.out.as_bytes());
    assert!(rt; err.bytes() == case.err.as_bytes());
}

fn expect_with_out(
    rt: &impl Abort,
    alloc: Global,
    case: Case<'_>,
    words: &[String],
    source: &mut MemorySource,
    out: &mut MemorySink,
) -> Result<(), AllocError> {
    let mut err = MemorySink::new(alloc, 1000, Vec::new(alloc))?;
    let status = run_on(alloc, words, source, out, &mut err);
    expect_ended(rt, case, status, out, &err);
    Ok(())
}

fn expect_with_source(
    rt: &impl Abort,
    alloc: Global,
    case: Case<'_>,
    words: &[String],
    source: &mut MemorySource,
) -> Result<(), AllocError> {
    let mut out = MemorySink::new(alloc, case.room, Vec::new(alloc))?;
    expect_with_out(rt, alloc, case, words, source, &mut out)
}

fn expect_with_words(
    rt: &impl Abort,
    alloc: Global,
    case: Case<'_>,
    words: &[String],
) -> Result<(), AllocError> {
    let mut source = source_of(alloc, case)?;
    expect_with_source(rt, alloc, case, words, &mut source)
}

/// Asserts how a call ends.
fn expect_case(rt: &impl Abort, alloc: Global, case: Case<'_>) -> Result<(), AllocError> {
    let words = words_of(alloc, case)?;
    expect_with_words(rt, alloc, case, &words)
}

/// Asserts how the program ends on a document, given whole and byte by byte.
pub(crate) fn expect(
    rt: &impl Abort,
    alloc: Global,
    words: &[&str],
    document: &[u8],
    status: Status,
    out: &str,
    err: &str,
) -> Result<(), AllocError> {
    let whole = Case {
        words,
        document,
        cut: 1000000,
        failing: 0,
        room: 10000,
        status,
        out,
        err,
    };
    expect_case(rt, alloc, whole)?;
    expect_case(rt, alloc, Case { cut: 1, ..whole })
}

/// Asserts that `check` writes this line for a document.
pub(crate) fn expect_checked(
    rt: &impl Abort,
    alloc: Global,
    document: &str,
    line: &str,
) -> Result<(), AllocError> {
    expect(
        rt,
        alloc,
        &["check"],
        document.as_bytes(),
        Status::Done,
        line,
        "",
    )
}

/// Asserts that `flatten` writes this text for a document.
pub(crate) fn expect_text(
    rt: &impl Abort,
    alloc: Global,
    document: &str,
    text: &str,
) -> Result<(), AllocError> {
    expect(
        rt,
        alloc,
        &["flatten"],
        document.as_bytes(),
        Status::Done,
        text,
        "",
    )
}

/// Asserts that a document is refused with this line.
pub(crate) fn expect_refused(
    rt: &impl Abort,
    alloc: Global,
    document: &[u8],
    line: &str,
) -> Result<(), AllocError> {
    expect(rt, alloc, &["check"], document, Status::Refused, "", line)
}

/// Asserts that a document is refused as broken at this byte, given whole and byte by byte.
fn expect_broken(
    rt: &impl Abort,
    alloc: Global,
    document: &[u8],
    at: usize,
) -> Result<(), AllocError> {
    let line = format!(in alloc; "pnml: byte {at}: broken\n")?;
    expect_refused(rt, alloc, document, line.as_str())
}

/// A document with one part in the place of another.
fn with(alloc: Global, part: &str, other: &str) -> Result<String, Fail> {
    let (before, after) = TRANSFER.split_once(part).ok_or("no such part")?;
    let mut text = String::from_str(alloc, before)?;
    text.push_str(other)?;
    text.push_str(after)?;
    Ok(text)
}

const SUMMARY: &str = "ptnet places 2 transitions 1 arcs 2 tokens 3\n";

#[test]
fn check_sums_a_plain_net_up(rt: HostRuntime) -> Result<(), Fail> {
    let alloc = rt.alloc();
    expect_checked(&rt, alloc, TRANSFER, SUMMARY)?;
    let greatest = with(alloc, ">3<", ">9223372036854775807<")?;
    let line = "ptnet places 2 transitions 1 arcs 2 tokens 9223372036854775807\n";
    expect_checked(&rt, alloc, greatest.as_str(), line)?;
    Ok(())
}

/// The net with one part in the place of another, as a row tells.
fn changed(alloc: Global, row: &str) -> Result<String, Fail> {
    let (part, other) = row.split_once(" => ").ok_or("no such row")?;
    with(alloc, part, other)
}

/// That the net, changed as the row tells, is refused with the line that the row begins with.
fn is_refused(rt: &impl Abort, alloc: Global, row: &str) -> Result<(), Fail> {
    let (told, change) = row.split_once(" | ").ok_or("no such row")?;
    let document = changed(alloc, change)?;
    let line = format!(in alloc; "pnml: byte {told}\n")?;
    Ok(expect_refused(rt, alloc, document.as_str().as_bytes(), line.as_str())?)
}

/// That the net is refused where it is changed, for each row.
fn expect_each_refused(rt: &impl Abort, alloc: Global, rows: &str) -> Result<(), Fail> {
    for row in rows.lines() {
        is_refused(rt, alloc, row)?;
    }
    Ok(())
}

/// What is told of parts of the net with other ids and ends in their place.
const OTHER_IDS: &str = "\
208: duplicate id: a | <place id=\"b\" => <place id=\"a\"
126: duplicate id: n | <page id=\"g\" => <page id=\"n\"
278: duplicate id: t | <arc id=\"v\" => <arc id=\"t\"
243: wrong end: u | source=\"a\" target=\"t\" => source=\"a\" target=\"b\"
243: unknown end: c | source=\"a\" target=\"t\" => source=\"c\" target=\"t\"
243: unknown end: c | source=\"a\" target=\"t\" => target=\"d\" source=\"c\"
243: unknown end: g | source=\"a\" target=\"t\" => source=\"g\" target=\"t\"
244: unknown end: t | <transition id=\"t\" => <transition id=\"t.\"
60: bad id: id | <net id=\"n\" => <net id=\"\"
0: wrong namespace: xmlns | grammar/pnml => grammar/pnml\u{20}";

#[test]
fn other_ids_and_ends_are_told(rt: HostRuntime) -> Result<(), Fail> {
    expect_each_refused(&rt, rt.alloc(), OTHER_IDS)
}

/// What is told of parts of the net with other labels and elements in their place.
const OTHER_LABELS: &str = "\
169: bad number: text | >3< => ><
169: bad number: text | >3< => >three<
169: bad number: text | >3< => >9223372036854775808<
153: stray text: initialMarking | <text>3 =>  3<text>3
183: repeated element: text | <text>3</text> => <text>3</text><text>3</text>
169: unknown attribute: x | <text>3 => <text x=\"y\">3
126: stray text: page | /><transition => />.<transition
60: stray text: net | <page => <!-- no text -->text<page
153: unknown element: arctype | <place id=\"a\"> => <place id=\"a\"><arctype/>
290: bad number: text | target=\"t\"/> => target=\"t\"><inscription><text>0</text></inscription></arc>";

#[test]
fn other_labels_and_elements_are_told(rt: HostRuntime) -> Result<(), Fail> {
    expect_each_refused(&rt, rt.alloc(), OTHER_LABELS)
}

/// What `flatten` writes for the plain net, in whatever layout it is.
fn flattened(alloc: Global) -> Result<String, AllocError> {
    let mut text = String::from_str(alloc, DECLARATION)?;
    text.push_str(TRANSFER)?;
    text.push_str("\n")?;
    Ok(text)
}

/// That this document is the plain net.
fn expect_flattened(rt: &impl Abort, alloc: Global, document: &str) -> Result<(), AllocError> {
    let text = flattened(alloc)?;
    expect_text(rt, alloc, document, text.as_str())
}

#[test]
fn flatten_writes_the_canonical_text(rt: HostRuntime) -> Result<(), Fail> {
    let alloc = rt.alloc();
    let text = flattened(alloc)?;
    assert!(rt; text.len() == 373);
    expect_flattened(&rt, alloc, TRANSFER)?;
    expect_flattened(&rt, alloc, text.as_str())?;
    expect_checked(&rt, alloc, text.as_str(), SUMMARY)?;
    Ok(())
}

const EMPTY_PAGE: &str =
    "<pnml xmlns=\"http://www.pnml.org/version-2009/grammar/pnml\"><net id=\"n\" type=\"http://www.pnml.org/version-2009/grammar/ptnet\"><page id=\"g\"></page></net></pnml>";

const EMPTY_PAGE_TEXT: &str =
    "<?xml version=\"1.0\" encoding=\"UTF-8\"?>\n<pnml xmlns=\"http://www.pnml.org/version-2009/grammar/pnml\"><net id=\"n\" type=\"http://www.pnml.org/version-2009/grammar/ptnet\"><page id=\"g\"/></net></pnml>\n";

#[test]
fn a_page_without_parts_is_an_empty_element(rt: HostRuntime) -> Result<(), Fail> {
    let alloc = rt.alloc();
    expect_text(&rt, alloc, EMPTY_PAGE, EMPTY_PAGE_TEXT)?;
    expect_text(&rt, alloc, EMPTY_PAGE_TEXT, EMPTY_PAGE_TEXT)?;
    Ok(())
}

/// That a document in one line is what `flatten` writes for it, but for the declaration.
pub(crate) fn expect_kept(
    rt: &impl Abort,
    alloc: Global,
    document: &str,
) -> Result<(), AllocError> {
    let mut text = String::from_str(alloc, DECLARATION)?;
    text.push_str(document)?;
    text.push_str("\n")?;
    expect_text(rt, alloc, document, text.as_str())
}

#[test]
fn an_inscription_is_kept(rt: HostRuntime) -> Result<(), Fail> {
    let alloc = rt.alloc();
    let inscribed = "target=\"t\"><inscription><text>2</text></inscription></arc>";
    let document = with(alloc, "target=\"t\"/>", inscribed)?;
    expect_checked(&rt, alloc, document.as_str(), SUMMARY)?;
    expect_kept(&rt, alloc, document.as_str())?;
    Ok(())
}

/// A source of so many spaces.
#[derive(Drop)]
struct Spaces {
    left: u64,
}

impl Source for Spaces {
    ghost left = { λ _. None };

    ghost faults = { λ _. 0 };

    fn read(&mut self, into: &mut [u8]) -> Result<usize, Failed> {
        let size = self.left.min(into.len() as u64);
        into[..size as usize].fill(b' ');
        self.left -= size;
        Ok(size as usize)
    }
}

/// Runs `check` on one byte more than an input may have.
fn run_on_longer(
    alloc: Global,
    words: &[String],
    err: &mut MemorySink,
) -> Result<Status, AllocError> {
    let mut source = Spaces { left: BYTES + 1 };
    let mut side = PlainSource::new(Vec::new(alloc));
    let mut out = MemorySink::new(alloc, 0, Vec::new(alloc))?;
    Ok(run(alloc, words, &mut source, &mut side, &mut out, err))
}

fn expect_longer(rt: &impl Abort, alloc: Global, words: &[String]) -> Result<(), AllocError> {
    let mut err = MemorySink::new(alloc, 100, Vec::new(alloc))?;
    let status = run_on_longer(alloc, words, &mut err)?;
    let line = b"pnml: limit: input longer than 67108864 bytes\n".as_slice();
    assert!(rt; status == Status::Limit && err.bytes() == line);
    Ok(())
}

#[test]
fn a_longer_input_passes_the_limit(rt: HostRuntime) -> Result<(), Fail> {
    let alloc = rt.alloc();
    let mut words = Vec::new(alloc);
    words.push(String::from_str(alloc, "check")?)?;
    expect_longer(&rt, alloc, &words)?;
    Ok(())
}

#[test]
fn a_front_of_a_document_is_broken_at_its_end(rt: HostRuntime) -> Result<(), Fail> {
    let bytes = TRANSFER.as_bytes();
    assert!(rt; bytes.len() == 333);
    for end in 0..bytes.len() {
        expect_broken(&rt, rt.alloc(), &bytes[..end], end)?;
    }
    Ok(())
}

/// That the document of a row is broken at the byte before it.
fn is_broken_there(rt: &impl Abort, alloc: Global, row: &str) -> Result<(), Fail> {
    let (at, document) = row.split_once(' ').ok_or("no such row")?;
    Ok(expect_broken(
        rt,
        alloc,
        document.as_bytes(),
        at.parse().unwrap_or(1000000),
    )?)
}

const BROKEN: &str = "\
16 <place id=\"a\" id=\"b\"/>
11 <a>&#x110000;</a>
6 <a>&#0;</a>
5 <a>]]></a>
2 <!DOCTYPE a><a/>
10 <a><!-- -- --></a>
5 <a></b>
5 <a/><a/>
4 <a/>x
34 <?xml version=\"1.0\" encoding=\"UTF-16\"?><a/>
6  <?xml version=\"1.0\"?><a/>";

#[test]
fn what_is_no_document_is_broken_at_its_break(rt: HostRuntime) -> Result<(), Fail> {
    for row in BROKEN.lines() {
        is_broken_there(&rt, rt.alloc(), row)?;
    }
    expect_broken(&rt, rt.alloc(), b"<a>\xEF\xBF\xBE", 5)?;
    Ok(())
}

#[test]
fn a_deeper_element_is_broken(rt: HostRuntime) -> Result<(), Fail> {
    let deep = "<a>".repeat(rt.alloc(), 257)?;
    expect_broken(&rt, rt.alloc(), deep.as_bytes(), 769)?;
    Ok(())
}

/// The plain net behind a byte order mark, with a comment between its two places and a line end
/// behind each tag but `<text>`.
fn spread(alloc: Global) -> Result<String, Fail> {
    let commented = with(
        alloc,
        "<place id=\"b\"/>",
        "<!-- the second --><place id=\"b\"/>",
    )?;
    let mut spread = String::from_str(alloc, "\u{FEFF}")?;
    for letter in commented.chars() {
        spread.push(letter)?;
        if letter == '>' && !spread.as_str().ends_with("<text>") {
            spread.push('\n')?;
        }
    }
    Ok(spread)
}

#[test]
fn layout_is_left_out(rt: HostRuntime) -> Result<(), Fail> {
    let alloc = rt.alloc();
    let spread = spread(alloc)?;
    expect_checked(&rt, alloc, spread.as_str(), SUMMARY)?;
    expect_flattened(&rt, alloc, spread.as_str())?;
    Ok(())
}

/// That the plain net, changed as the row tells, is the same net.
fn is_same_net(rt: &impl Abort, alloc: Global, row: &str) -> Result<(), Fail> {
    let document = changed(alloc, row)?;
    Ok(expect_flattened(rt, alloc, document.as_str())?)
}

/// That the plain net is the same net where it is changed, for each row.
fn expect_same_net(rt: &impl Abort, alloc: Global, rows: &str) -> Result<(), Fail> {
    for row in rows.split('|') {
        is_same_net(rt, alloc, row)?;
    }
    Ok(())
}

/// Parts of the plain net, and other spellings of them.
const OTHER_SPELLINGS: &str = "\
<text>3< => <text>&#51;<|\
<text>3< => <text><![CDATA[3]]><|\
<text>3< => <text><!-- three -->3<|\
>3< => >03<|\
>3< => > 3\n<|\
source=\"a\" target=\"t\" => target=\"t\" source=\"a\"|\
<place id=\"b\"/><transition id=\"t\"/> => <transition id=\"t\"/><place id=\"b\"/>|\
</page> => </page><page id=\"h\"></page>|\
id=\"b\"/> => id = 'b' ></place>|\
<pnml  => <?xml version='1.1' standalone='yes'?><?a b?>\n<pnml\u{20}|\
</pnml> => </pnml>\n<!-- the end -->";

#[test]
fn other_spellings_are_the_same_net(rt: HostRuntime) -> Result<(), Fail> {
    expect_same_net(&rt, rt.alloc(), OTHER_SPELLINGS)
}

/// A document of a net of this kind, with this in it before its page ends.
pub(crate) fn net_of(alloc: Global, kind: &str, inside: &str) -> Result<String, AllocError> {
    format!(in alloc;
        "<pnml xmlns=\"http://www.pnml.org/version-2009/grammar/pnml\"><net id=\"n\" type=\"http://www.pnml.org/version-2009/grammar/{kind}\">{inside}</page></net></pnml>"
    )
}

#[test]
fn a_name_is_taken(rt: HostRuntime) -> Result<(), Fail> {
    let inside =
        "<page id=\"g\"><place id=\"a\"><name><text>\u{E9}&#x10FFFF;</text></name></place>";
    let named = net_of(rt.alloc(), "ptnet", inside)?;
    let line = "ptnet places 1 transitions 0 arcs 0 tokens 0\n";
    expect_checked(&rt, rt.alloc(), named.as_str(), line)?;
    Ok(())
}

#[test]
fn the_deepest_document_has_an_unknown_element(rt: HostRuntime) -> Result<(), Fail> {
    let alloc = rt.alloc();
    let mut deep = "<a>".repeat(alloc, 256)?;
    deep.push_str("</a>".repeat(alloc, 256)?.as_str())?;
    let line = "pnml: byte 0: unknown element: a\n";
    expect_refused(&rt, alloc, deep.as_str().as_bytes(), line)?;
    Ok(())
}

#[test]
fn an_input_without_its_end_is_broken(rt: HostRuntime) -> Result<(), Fail> {
    expect_broken(&rt, rt.alloc(), b"", 0)?;
    expect_broken(&rt, rt.alloc(), &TRANSFER.as_bytes()[..332], 332)?;
    Ok(())
}

/// A net of two pages, with a chain of references and a part that a tool added.
const PAGED: &str =
    "<pnml xmlns=\"http://www.pnml.org/version-2009/grammar/pnml\" xmlns:x=\"urn:x\"><net id=\"n\" type=\"http://www.pnml.org/version-2009/grammar/ptnet\"><page id=\"g\"><page id=\"h\"><place id=\"a\"><toolspecific tool=\"d\" version=\"1\"><x:k v='1&lt;2'></x:k> </toolspecific></place></page><referencePlace id=\"r\" ref=\"s\"/><referencePlace id=\"s\" ref=\"a\"/><transition id=\"t\"/><arc id=\"u\" source=\"r\" target=\"t\"/></page></net></pnml>";

/// Its flat net.
const FLAT: &str =
    "<?xml version=\"1.0\" encoding=\"UTF-8\"?>\n<pnml xmlns=\"http://www.pnml.org/version-2009/grammar/pnml\" xmlns:x=\"urn:x\"><net id=\"n\" type=\"http://www.pnml.org/version-2009/grammar/ptnet\"><page id=\"g\"><place id=\"a\"><toolspecific tool=\"d\" version=\"1\"><x:k v=\"1&lt;2\"/> </toolspecific></place><transition id=\"t\"/><arc id=\"u\" source=\"a\" target=\"t\"/></page></net></pnml>\n";

#[test]
fn references_are_followed_and_pages_are_joined(rt: HostRuntime) -> Result<(), Fail> {
    let line = "ptnet places 1 transitions 1 arcs 1 tokens 0\n";
    expect_text(&rt, rt.alloc(), PAGED, FLAT)?;
    expect_text(&rt, rt.alloc(), FLAT, FLAT)?;
    expect_checked(&rt, rt.alloc(), PAGED, line)?;
    Ok(())
}

#[test]
fn reading_stops_at_a_break(rt: HostRuntime) -> Result<(), Fail> {
    let case = Case {
        words: &["check"],
        document: b"<a/>xyz",
        cut: 1,
        failing: 6,
        room: 100,
        status: Status::Refused,
        out: "",
        err: "pnml: byte 4: broken\n",
    };
    expect_case(&rt, rt.alloc(), case)?;
    Ok(())
}

/// That these words ask for nothing.
fn expect_misused(rt: &impl Abort, alloc: Global, words: &[&str]) -> Result<(), AllocError> {
    expect(
        rt,
        alloc,
        words,
        TRANSFER.as_bytes(),
        Status::Usage,
        "",
        USAGE,
    )
}

#[test]
fn other_words_are_misused(rt: HostRuntime) -> Result<(), Fail> {
    let alloc = rt.alloc();
    expect_misused(&rt, alloc, &[])?;
    expect_misused(&rt, alloc, &["Check"])?;
    expect_misused(&rt, alloc, &["check", "check"])?;
    expect_misused(&rt, alloc, &["modes"])?;
    expect_misused(&rt, alloc, &["modes", "t", "t"])?;
    Ok(())
}

/// That the third read of the plain net, in pieces of this size, fails.
fn expect_read_fault(rt: &impl Abort, alloc: Global, cut: usize) -> Result<(), AllocError> {
    let case = Case {
        words: &["check"],
        document: TRANSFER.as_bytes(),
        cut,
        failing: 3,
        room: 1000,
        status: Status::ReadFault,
        out: "",
        err: "",
    };
    expect_case(rt, alloc, case)
}

#[test]
fn a_read_fault_is_told(rt: HostRuntime) -> Result<(), Fail> {
    expect_read_fault(&rt, rt.alloc(), 100)?;
    expect_read_fault(&rt, rt.alloc(), 1)?;
    Ok(())
}

/// That there is room for ten bytes of what is written of the plain net, in pieces of this size.
fn expect_write_fault(rt: &impl Abort, alloc: Global, cut: usize) -> Result<(), AllocError> {
    let case = Case {
        words: &["check"],
        document: TRANSFER.as_bytes(),
        cut,
        failing: 0,
        room: 10,
        status: Status::WriteFault,
        out: "ptnet plac",
        err: "",
    };
    expect_case(rt, alloc, case)
}

#[test]
fn a_write_fault_is_told(rt: HostRuntime) -> Result<(), Fail> {
    expect_write_fault(&rt, rt.alloc(), 1000000)?;
    expect_write_fault(&rt, rt.alloc(), 1)?;
    Ok(())
}
