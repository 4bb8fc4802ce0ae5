//! How ids and details stand in a line: each character of ASCII, and some past it.

use pn_lines::{laws, put_count, put_escaped};
use pn_outside::{CountSink, Failed, MemorySink};
use std::alloc::{AllocError, Global};
use std::process::Abort;
use std::test::Fail;

/// The control characters of ASCII.
const CONTROLS: &str =
    "\u{0}\u{1}\u{2}\u{3}\u{4}\u{5}\u{6}\u{7}\u{8}\u{9}\u{a}\u{b}\u{c}\u{d}\u{e}\u{f}\u{10}\u{11}\u{12}\u{13}\u{14}\u{15}\u{16}\u{17}\u{18}\u{19}\u{1a}\u{1b}\u{1c}\u{1d}\u{1e}\u{1f}\u{7f}";

const ESCAPED_CONTROLS: &str =
    "%00%01%02%03%04%05%06%07%08%09%0A%0B%0C%0D%0E%0F%10%11%12%13%14%15%16%17%18%19%1A%1B%1C%1D%1E%1F%7F";

/// The other characters of ASCII.
const GRAPHIC: &str =
    " !\"#$%&'()*+,-./0123456789:;<=>?@ABCDEFGHIJKLMNOPQRSTUVWXYZ[\\]^_`abcdefghijklmnopqrstuvwxyz{|}~";

const ESCAPED_GRAPHIC: &str =
    "%20%21%22%23%24%25%26%27%28%29%2A%2B%2C-.%2F0123456789%3A%3B%3C%3D%3E%3F%40ABCDEFGHIJKLMNOPQRSTUVWXYZ%5B%5C%5D%5E_%60abcdefghijklmnopqrstuvwxyz%7B%7C%7D%7E";

/// The sink is put a text, and then has this.
fn puts(rt: &impl Abort, sink: &mut MemorySink, text: &str, want: &str) {
    assert!(rt; put_escaped(sink, text) == Ok(()));
    assert!(rt; sink.bytes() == want.as_bytes());
}

/// So many bytes are put of a text.
fn puts_bytes(rt: &impl Abort, text: &str, want: &str) {
    let mut sink = CountSink::new();
    assert!(rt; put_escaped(&mut sink, text) == Ok(()));
    assert!(rt; sink.count() == want.len() as u64);
}

/// A text stands in a line as this.
fn stands_as(rt: &impl Abort, alloc: Global, text: &str, want: &str) -> Result<(), Fail> {
    let mut sink = MemorySink::new(alloc, want.len(), Vec::new(alloc))?;
    puts(rt, &mut sink, text, want);
    puts_bytes(rt, text, want);
    Ok(())
}

/// Each line has a text, and what it stands as, behind a space.
fn stand_as(rt: &impl Abort, alloc: Global, rows: &str) -> Result<(), Fail> {
    for row in rows.lines() {
        match row.split_once(' ') {
            Some((text, want)) => stands_as(rt, alloc, text, want)?,
            None => assert!(rt; false),
        }
    }
    Ok(())
}

const ROWS: &str = "\
a a
a1_-. a1_-.
% %25
%41 %2541
a%b a%25b
%% %25%25
é é
é%€ é%25€
%\u{10FFFF}% %25\u{10FFFF}%25
\u{80}\u{7ff}\u{ffff} \u{80}\u{7ff}\u{ffff}
a/b:c a%2Fb%3Ac
@[`{ %40%5B%60%7B";

#[test]
fn texts_in_a_line(rt: HostRuntime) -> Result<(), Fail> {
    stand_as(&rt, rt.alloc(), ROWS)?;
    stands_as(&rt, rt.alloc(), "", "")
}

#[test]
fn characters_of_ascii(rt: HostRuntime) -> Result<(), Fail> {
    laws::escaped_texts_are_clean();
    laws::plain_texts_stay();
    laws::escaped_texts_tell_apart();
    stands_as(&rt, rt.alloc(), CONTROLS, ESCAPED_CONTROLS)?;
    stands_as(&rt, rt.alloc(), GRAPHIC, ESCAPED_GRAPHIC)
}

/// Puts letters, and a space behind each thousand.
fn push_long(text: &mut String, space: &str) -> Result<(), AllocError> {
    for _ in 0..40u32 {
        push_letters(text)?;
        text.push_str(space)?;
    }
    Ok(())
}

fn push_letters(text: &mut String) -> Result<(), AllocError> {
    for _ in 0..100u32 {
        text.push_str("abcdefghij")?;
    }
    Ok(())
}

/// Letters by the thousand, with this behind each thousand.
fn long(alloc: Global, space: &str) -> Result<String, AllocError> {
    let mut text = String::new(alloc);
    push_long(&mut text, space)?;
    Ok(text)
}

#[test]
fn a_long_text(rt: HostRuntime) -> Result<(), Fail> {
    let text = long(rt.alloc(), " ")?;
    let want = long(rt.alloc(), "%20")?;
    stands_as(&rt, rt.alloc(), text.as_str(), want.as_str())
}

/// What has room is out.
fn stops(rt: &impl Abort, sink: &mut MemorySink, text: &str, want: &str) {
    assert!(rt; put_escaped(sink, text) == Err(Failed));
    assert!(rt; sink.bytes() == want.as_bytes());
}

/// A sink with this much room takes this front of a text.
fn stops_behind(rt: &impl Abort, alloc: Global, text: &str, want: &str) -> Result<(), Fail> {
    let mut sink = MemorySink::new(alloc, want.len(), Vec::new(alloc))?;
    stops(rt, &mut sink, text, want);
    Ok(())
}

#[test]
fn texts_that_are_cut(rt: HostRuntime) -> Result<(), Fail> {
    stops_behind(&rt, rt.alloc(), "a b", "a%2")?;
    stops_behind(&rt, rt.alloc(), "a b", "")?;
    stops_behind(&rt, rt.alloc(), "a b", "a%20")
}

/// Numbers at the ends of their types are put behind a label.
fn counts(rt: &impl Abort, sink: &mut MemorySink) {
    assert!(rt; put_count(sink, "a ", 0u8) == Ok(()));
    assert!(rt; put_count(sink, " ", u64::MAX) == Ok(()));
    assert!(rt; put_count(sink, " ", u128::MAX) == Ok(()));
    assert!(rt; put_count(sink, "", i64::MIN) == Ok(()));
}

const COUNTS: &str =
    "a 0 18446744073709551615 340282366920938463463374607431768211455-9223372036854775808";

#[test]
fn numbers_behind_labels(rt: HostRuntime) -> Result<(), Fail> {
    let mut sink = MemorySink::new(rt.alloc(), COUNTS.len(), Vec::new(rt.alloc()))?;
    counts(&rt, &mut sink);
    assert!(&rt; sink.bytes() == COUNTS.as_bytes());
    Ok(())
}
