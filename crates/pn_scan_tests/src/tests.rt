ghost use Rattle.std.specs.Prelude.{◌<◌, ℕ, List};
ghost use Rattle.pn_scan.specs.Reading.{HasRead};

use pn_outside::MemorySink;
use pn_scan::{ScanFault, Scanner};
use pn_tree::{Tree, put_tree, text_length};
use std::alloc::{AllocError, Global};
use std::process::Abort;
use std::test::Fail;

/// Feeds bytes in pieces of this size.
fn feed_all(scanner: &mut Scanner, bytes: &[u8], size: usize) -> Result<(), ScanFault>
    requires size { 0 < size }
    requires read { (b : List ℕ) × HasRead scanner.old b }
    ensures { (b : List ℕ) × HasRead scanner.new b }
{
    for piece in bytes.chunks(size) {
        scanner.feed(piece)?;
    }
    Ok(())
}

/// Reads bytes in pieces of this size.
fn read(alloc: Global, bytes: &[u8], size: usize) -> Result<Tree, ScanFault>
    requires { 0 < size }
{
    let mut scanner = Scanner::new(alloc);
    match feed_all(&mut scanner, bytes, size) {
        Ok(()) => scanner.finish(),
        Err(fault) => {
            drop(scanner);
            Err(fault)
        }
    }
}

/// The offset at which bytes break in pieces of this size, or `None` where they are a document.
fn break_of(alloc: Global, bytes: &[u8], size: usize) -> Result<Option<u64>, AllocError>
    requires { 0 < size }
{
    match read(alloc, bytes, size) {
        Ok(_) => Ok(None),
        Err(ScanFault::Broken(at)) => Ok(Some(at)),
        Err(ScanFault::TooLong) => Ok(Some(u64::MAX)),
        Err(ScanFault::Memory(error)) => Err(error),
    }
}

/// Bytes break at this offset, whole and in small pieces.
fn breaks_at(rt: &impl Abort, alloc: Global, bytes: &[u8], at: u64) -> Result<(), Fail> {
    for size in [1usize, 2, 3, 7, 1000] {
        assert!(rt; break_of(alloc, bytes, size)? == Some(at));
    }
    Ok(())
}

/// Each line has the offset at which its text breaks.
fn all_break(rt: &impl Abort, alloc: Global, rows: &str) -> Result<(), Fail> {
    for row in rows.lines() {
        let (at, text) = row.split_once(' ').ok_or("no offset")?;
        breaks_at(rt, alloc, text.as_bytes(), at.parse().unwrap_or(1000000))?;
    }
    Ok(())
}

/// Each line has the offset, one digit, at which the bytes behind it break.
fn all_bytes_break(rt: &impl Abort, alloc: Global, rows: &[u8]) -> Result<(), Fail> {
    for row in rows.split(|byte| *byte == b'\n') {
        let (at, bytes) = row.split_first().ok_or("no offset")?;
        breaks_at(rt, alloc, bytes, u64::from(at.saturating_sub(b'0')))?;
    }
    Ok(())
}

/// Whether what is written of a tree are these bytes.
fn is_written(sink: &mut MemorySink, tree: &Tree, want: &[u8]) -> bool {
    put_tree(tree, sink).is_ok() && sink.bytes() == want
}

/// The canonical text of a tree is this one.
fn has_text(rt: &impl Abort, alloc: Global, tree: &Tree, want: &str) -> Result<(), Fail> {
    let mut sink = MemorySink::new(alloc, want.len(), Vec::new(alloc))?;
    let same = is_written(&mut sink, tree, want.as_bytes());
    assert!(rt; same);
    Ok(())
}

/// The canonical text of the tree that bytes spell, in pieces of this size.
fn spells(rt: &impl Abort, alloc: Global, bytes: &[u8], size: usize, want: &str) -> Result<(), Fail>
    requires { 0 < size }
{
    match read(alloc, bytes, size) {
        Ok(tree) => has_text(rt, alloc, &tree, want),
        Err(_) => {
            assert!(rt; false);
            Ok(())
        }
    }
}

fn all_spell_so(rt: &impl Abort, alloc: Global, bytes: &[u8], want: &str) -> Result<(), Fail> {
    for size in [1usize, 2, 3, 7, 1000] {
        spells(rt, alloc, bytes, size, want)?;
    }
    Ok(())
}

/// The canonical text of a document with this root.
fn canonical(alloc: Global, root: &str) -> Result<String, AllocError> {
    let mut text = String::from_str(alloc, "<?xml version=\"1.0\" encoding=\"UTF-8\"?>\n")?;
    text.push_str(root)?;
    text.push_str("\n")?;
    Ok(text)
}

/// Bytes spell the tree of this canonical text of a root, whole and in small pieces.
fn spell(rt: &impl Abort, alloc: Global, bytes: &[u8], root: &str) -> Result<(), Fail> {
    let want = canonical(alloc, root)?;
    all_spell_so(rt, alloc, bytes, want.as_str())
}

/// Texts stand each before the canonical text of its root.
fn all_spell(rt: &impl Abort, alloc: Global, rows: &str) -> Result<(), Fail> {
    let mut texts = rows.split('|');
    while let Some(text) = texts.next() {
        let root = texts.next().ok_or("no root")?;
        spell(rt, alloc, text.as_bytes(), root)?;
    }
    Ok(())
}

/// Each front of a document that is none breaks at its end.
fn fronts_break(rt: &impl Abort, alloc: Global, text: &str) -> Result<(), Fail> {
    let bytes = text.as_bytes();
    for length in 0..bytes.len() {
        assert!(rt; break_of(alloc, &bytes[..length], 1000)? == Some(length as u64));
    }
    Ok(())
}

// Every class of error in UTF-8, and the characters that no document has, each behind the offset of
// its break.
const CHARACTERS: &[u8] = b"\
3<a>\xC0\x80</a>
3<a>\xC1\xBF</a>
4<a>\xE0\x80\x80</a>
4<a>\xF0\x80\x80\x80</a>
4<a>\xED\xA0\x80</a>
4<a>\xF4\x90\x80\x80</a>
3<a>\xF5\x80\x80\x80</a>
5<a>\xEF\xBF\xBE</a>
5<a>\xEF\xBF\xBF</a>
3<a>\x80</a>
4<a>\xC3</a>
5<a>\xE2\x82</a>
6<a>\xF0\x9F\x98</a>
5<a>\xE2\x82
9<a>\xC3\xA9\xC3\xA9\xE2\x82</a>
8<a b=\"\xEF\xBF\xBF\"/>
4<\xC3\xA9\xC3(/>
5<!--\xED\xA0\x80--><a/>
7<\xC3\xA9></\xC3\xA8>
3<a>\0</a>
3<a>\x1F</a>
2\xEF\xBB<a/>
3\xEF\xBB\xBF\xEF\xBB\xBF<a/>";

const DECLARATIONS: &str = "\
6 <?xml encoding=\"UTF-8\"?><a/>
17 <?xml version=\"1.\"?><a/>
15 <?xml version=\"2.0\"?><a/>
19 <?xml version=\"1.0\"encoding=\"UTF-8\"?><a/>
36 <?xml version=\"1.0\" standalone=\"no\" encoding=\"UTF-8\"?><a/>
32 <?xml version=\"1.0\" standalone=\"maybe\"?><a/>
34 <?xml version=\"1.0\" encoding=\"UTF-16\"?><a/>
6  <?xml version=\"1.0\"?><a/>
26 <?xml version=\"1.0\"?><?xml version=\"1.0\"?><a/>
5 <?xml?><a/>
5 <?XML version=\"1.0\"?><a/>
20 <?xml version=\"1.0\"? ><a/>
13 <!-- --><?xml version=\"1.0\"?><a/>
18 <?xml version='1.0\"?><a/>
14 <?xml version=1.0?><a/>
14 <?xml version \"1.0\"?><a/>";

const MARKUP: &str = "0 \n\
0 x<a/>
2 <!DOCTYPE a><a/>
10 <a><!-- -- --></a>
10 <a><!-- --->
2 <!x
3 <!-x
2 <? a?><a/>
4 <?a?x?><a/>
8 <a><?xml ?></a>
5 <a>]]></a>
6 <a>]]]></a>
17 <a><![CDATA[]]>]]></a>
10 <a><![CDAT [
5 <a/><a/>
4 <a/>x
4 <a/>&#32;
6 <a/><![CDATA[]]>
9 <a/><?xml version=\"1.0\"?>
5 <a></b>
7 <ab></a>
6 <a></ab>
5 <a></ a>
5 <a/></a>";

const TAGS: &str = "\
1 < a/>
1 <1/>
4 <a /b>
4 <a b/>
5 <a b=x>
6 <a b=\"<\"/>
8 <a b=\"1\"c=\"2\"/>
17 <a b=\"1\" bb=\"2\" b = \"3\"/>
16 <place id=\"a\" id=\"b\"/>
4 <a>&;</a>
4 <a>&foo;</a>
6 <a>&ltx;</a>
7 <a>&quo;</a>
9 <a b=\"&lt\"/>";

const NUMBERS: &str = "\
5 <a>&#;</a>
6 <a>&#x;</a>
6 <a>&#xg;</a>
5 <a>&#X41;</a>
5 <a>&#a;</a>
6 <a>&#0;</a>
10 <a>&#xD800;</a>
10 <a>&#xD83D;&#xDE00;</a>
10 <a>&#xFFFE;</a>
11 <a>&#x110000;</a>
11 <a>&#1114112;</a>";

/// Documents, each with the canonical text of its root.
const TREES: &str = "\
<place id=\"a\"><toolspecific tool=\"d\" version=\"1\"><x:k v='1&lt;2'></x:k> </toolspecific></place>|\
<place id=\"a\"><toolspecific tool=\"d\" version=\"1\"><x:k v=\"1&lt;2\"/> </toolspecific></place>|\
<a></a>|\
<a/>|\
\u{FEFF}<a  />\n<!-- -><?p ? >?>-->|\
<a/>|\
<?xml version='1.0'?>\r\n<?p?><a b='1' c=\"&#x9;&quot;x\ty\r\nz'\"\n/>|\
<a b=\"1\" c=\"&#9;&quot;x y z'\"/>|\
<?xml\tversion=\"1.10\" encoding = 'us-ASCII' standalone='yes' ?><a/>|\
<a/>|\
<?xml-x y?><a/>|\
<a/>|\
<a>x\r\ny\rz\n\r\r\n</a>|\
<a>x\ny\nz\n\n\n</a>|\
<a>&#13;&#xD;\n</a>|\
<a>&#13;&#13;\n</a>|\
<a>x\r<![CDATA[\n]]></a>|\
<a>x\n\n</a>|\
<a>x<!-- -->y<![CDATA[<z>]]>&amp;<?p?>w</a>|\
<a>xy&lt;z&gt;&amp;w</a>|\
<a><![CDATA[]]]]]></a>|\
<a>]]]</a>|\
<a>]]<!---->&gt;]]<![CDATA[>]]></a>|\
<a>]]&gt;]]&gt;</a>|\
<a>é&#x10FFFF;&#128512;<é _1='&apos;é'/></a>|\
<a>é\u{10FFFF}\u{1F600}<é _1=\"'é\"/></a>|\
<αβ γ='δ ε€'><!--ζη--><?ι κ?>λμ 😀x<![CDATA[νξ]]></αβ>|\
<αβ γ=\"δ ε€\">λμ 😀xνξ</αβ>|\
<x:k v='1&lt;2'></x:k > |\
<x:k v=\"1&lt;2\"/>|\
<a><b i='1'>t</b>\n<b i='2'><c/></b></a>|\
<a><b i=\"1\">t</b>\n<b i=\"2\"><c/></b></a>";

#[test]
fn characters_break_where_no_document_goes_on(rt: HostRuntime) -> Result<(), Fail> {
    all_bytes_break(&rt, rt.alloc(), CHARACTERS)
}

#[test]
fn declarations_break_where_no_document_goes_on(rt: HostRuntime) -> Result<(), Fail> {
    all_break(&rt, rt.alloc(), DECLARATIONS)
}

#[test]
fn markup_breaks_where_no_document_goes_on(rt: HostRuntime) -> Result<(), Fail> {
    all_break(&rt, rt.alloc(), MARKUP)?;
    all_break(&rt, rt.alloc(), TAGS)?;
    all_break(&rt, rt.alloc(), NUMBERS)
}

#[test]
fn documents_spell_their_trees(rt: HostRuntime) -> Result<(), Fail> {
    all_spell(&rt, rt.alloc(), TREES)
}

#[test]
fn fronts_of_documents_break_at_their_ends(rt: HostRuntime) -> Result<(), Fail> {
    let alloc = rt.alloc();
    fronts_break(
        &rt,
        alloc,
        "\u{FEFF}<?xml version=\"1.0\" encoding='UTF-8'?><!-- é --><?p q?><a/>",
    )?;
    fronts_break(
        &rt,
        alloc,
        "<a é=\"1&#xA;&lt;\" b=''>t<b>]]</b><![CDATA[]>]]>&amp;</a>",
    )
}

/// As many start tags as this, one in another, and what follows them.
fn nested(alloc: Global, levels: usize, last: &str) -> Result<String, AllocError> {
    let mut text = String::new(alloc);
    for _level in 0..levels {
        text.push_str("<a>")?;
    }
    text.push_str(last)?;
    Ok(text)
}

/// As many start tags as this around an empty element break at this offset.
fn deep_breaks_at(rt: &impl Abort, alloc: Global, levels: usize, at: u64) -> Result<(), Fail> {
    let text = nested(alloc, levels, "<b/>")?;
    breaks_at(rt, alloc, text.as_bytes(), at)
}

#[test]
fn at_most_256_elements_are_open(rt: HostRuntime) -> Result<(), Fail> {
    deep_breaks_at(&rt, rt.alloc(), 255, 769)?;
    deep_breaks_at(&rt, rt.alloc(), 256, 769)
}

/// An element with so many empty ones in it.
fn siblings(alloc: Global, times: usize) -> Result<String, AllocError> {
    let mut text = String::from_str(alloc, "<a>")?;
    for _kid in 0..times {
        text.push_str("<b/>")?;
    }
    text.push_str("</a>")?;
    Ok(text)
}

/// The number of the root's kids and the length of the canonical text, of the tree that bytes spell
/// in pieces of 4096.
fn sizes(alloc: Global, bytes: &[u8]) -> Option<(usize, u64)> {
    match read(alloc, bytes, 4096) {
        Ok(tree) => Some((tree.root().kid_count(), text_length(&tree))),
        Err(_) => None,
    }
}

#[test]
fn a_million_elements_stand_in_one(rt: HostRuntime) -> Result<(), Fail> {
    let text = siblings(rt.alloc(), 1000000)?;
    let found = sizes(rt.alloc(), text.as_bytes());
    assert!(&rt; found == Some((1000000, 4000047)));
    Ok(())
}

/// The offset of the root that bytes spell, read in pieces of seven.
fn root_offset(alloc: Global, bytes: &[u8]) -> Option<u64> {
    match read(alloc, bytes, 7) {
        Ok(tree) => Some(tree.root().at()),
        Err(_) => None,
    }
}

#[test]
fn the_offset_counts_a_byte_order_mark(rt: HostRuntime) -> Result<(), Fail> {
    assert!(&rt; root_offset(rt.alloc(), "\u{FEFF} <a/>".as_bytes()) == Some(4));
    Ok(())
}

fn is_break_at_five(answer: Result<(), ScanFault>) -> bool {
    matches!(answer, Err(ScanFault::Broken(5)))
}

/// Whether a piece is answered by a break at 5.
fn breaks_at_five(scanner: &mut Scanner, piece: &[u8]) -> bool
    requires { (b : List ℕ) × HasRead scanner.old b }
    ensures { (b : List ℕ) × HasRead scanner.new b }
{
    is_break_at_five(scanner.feed(piece))
}

#[test]
fn a_fault_is_answered_again(rt: HostRuntime) -> Result<(), Fail> {
    let mut scanner = Scanner::new(rt.alloc());
    let found = breaks_at_five(&mut scanner, b"<a></b>");
    let again = breaks_at_five(&mut scanner, b"");
    let later = breaks_at_five(&mut scanner, b"<a/>");
    let ended = matches!(scanner.finish(), Err(ScanFault::Broken(5)));
    assert!(&rt; found && again && later && ended);
    Ok(())
}
