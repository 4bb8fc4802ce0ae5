ghost use Rattle.std.specs.Prelude.{◌≡◌, ◌<◌, ◌≤◌, IsSome, OnOk};
ghost use Rattle.pn_tree.specs.Building.{nothing_built};
ghost use Rattle.pn_tree.specs.Depth.{depth_of};
ghost use Rattle.pn_tree.specs.Views.{element_of, IsShallower};

use pn_outside::MemorySink;
use pn_tree::{Builder, Kid, Tree, View, put_tree, text_length};
use std::alloc::{AllocError, Global};
use std::process::Abort;
use std::test::Fail;

fn push_document(text: &mut String, root: &str) -> Result<(), AllocError> {
    text.push_str("<?xml version=\"1.0\" encoding=\"UTF-8\"?>\n")?;
    text.push_str(root)?;
    text.push_str("\n")
}

/// The declaration, this text of a root, and LF.
fn document(alloc: Global, root: &str) -> Result<String, AllocError> {
    let mut text = String::new(alloc);
    push_document(&mut text, root)?;
    Ok(text)
}

/// The text of a tree is this; so is that of its copy.
fn is_written(rt: &impl Abort, alloc: Global, tree: &Tree, want: &str) -> Result<(), Fail> {
    has_text(rt, alloc, tree, want)?;
    let copied = tree.root().copy(alloc)?;
    is_the_same(rt, alloc, tree, &copied, want)
}

/// A copy begins where its tree does, and has this text.
fn is_the_same(
    rt: &impl Abort,
    alloc: Global,
    tree: &Tree,
    copied: &Tree,
    want: &str,
) -> Result<(), Fail> {
    assert!(rt; copied.root().at() == tree.root().at());
    has_text(rt, alloc, copied, want)
}

fn has_text(rt: &impl Abort, alloc: Global, tree: &Tree, want: &str) -> Result<(), Fail> {
    let mut sink = MemorySink::new(alloc, want.len(), Vec::new(alloc))?;
    puts(rt, tree, &mut sink, want);
    Ok(())
}

/// The sink is put this text of a tree.
fn puts(rt: &impl Abort, tree: &Tree, sink: &mut MemorySink, want: &str) {
    assert!(rt; put_tree(tree, sink).is_ok());
    assert!(rt; sink.bytes() == want.as_bytes());
    assert!(rt; text_length(tree) == want.len() as u64);
}

fn build_empty(builder: &mut Builder) -> Result<(), AllocError>
    requires { builder.old ≡ nothing_built }
    ensures { OnOk result (IsSome builder.new.root) }
{
    builder.begin("a", 0)?;
    builder.end();
    Ok(())
}

fn empty(alloc: Global) -> Result<Tree, AllocError> {
    let mut builder = Builder::new(alloc);
    build_empty(&mut builder)?;
    Ok(builder.finish())
}

fn build_text_escapes(builder: &mut Builder) -> Result<(), AllocError>
    requires { builder.old ≡ nothing_built }
    ensures { OnOk result (IsSome builder.new.root) }
{
    builder.begin("a", 1)?;
    builder.text("&b<\r\n\t>\"'")?;
    builder.end();
    Ok(())
}

fn text_escapes(alloc: Global) -> Result<Tree, AllocError> {
    let mut builder = Builder::new(alloc);
    build_text_escapes(&mut builder)?;
    Ok(builder.finish())
}

fn build_value_escapes(builder: &mut Builder) -> Result<(), AllocError>
    requires { builder.old ≡ nothing_built }
    ensures { OnOk result (IsSome builder.new.root) }
{
    builder.begin("x:k", 2)?;
    builder.attr("v", "1<2&\r\n\t>\"'")?;
    builder.attr("a", "")?;
    builder.end();
    Ok(())
}

fn value_escapes(alloc: Global) -> Result<Tree, AllocError> {
    let mut builder = Builder::new(alloc);
    build_value_escapes(&mut builder)?;
    Ok(builder.finish())
}

fn build_past_ascii(builder: &mut Builder) -> Result<(), AllocError>
    requires { builder.old ≡ nothing_built }
    ensures { OnOk result (IsSome builder.new.root) }
{
    builder.begin("é", 3)?;
    builder.attr("_1", "\u{10FFFF}")?;
    builder.text("€")?;
    builder.end();
    Ok(())
}

fn past_ascii(alloc: Global) -> Result<Tree, AllocError> {
    let mut builder = Builder::new(alloc);
    build_past_ascii(&mut builder)?;
    Ok(builder.finish())
}

fn build_nested(builder: &mut Builder) -> Result<(), AllocError>
    requires { builder.old ≡ nothing_built }
    ensures { OnOk result (IsSome builder.new.root) }
{
    builder.begin("a", 4)?;
    builder.attr("one", "1")?;
    builder.attr("two", "2")?;
    builder.text("t")?;
    builder.text("")?;
    builder.text("u")?;
    builder.begin("b", 17)?;
    builder.begin("c", 20)?;
    builder.end();
    builder.end();
    builder.text("v")?;
    builder.end();
    Ok(())
}

fn nested(alloc: Global) -> Result<Tree, AllocError> {
    let mut builder = Builder::new(alloc);
    build_nested(&mut builder)?;
    Ok(builder.finish())
}

/// The tree's root is written as this text.
fn is_root(rt: &impl Abort, alloc: Global, tree: &Tree, root: &str) -> Result<(), Fail> {
    let want = document(alloc, root)?;
    is_written(rt, alloc, tree, want.as_str())
}

/// The tree was made, and its root is written as this text.
fn row(
    rt: &impl Abort,
    alloc: Global,
    made: Result<Tree, AllocError>,
    root: &str,
) -> Result<(), Fail> {
    let tree = made?;
    is_root(rt, alloc, &tree, root)
}

fn escapes(rt: &impl Abort, alloc: Global) -> Result<(), Fail> {
    row(
        rt,
        alloc,
        text_escapes(alloc),
        "<a>&amp;b&lt;&#13;\n\t&gt;\"'</a>",
    )?;
    let values = "<x:k v=\"1&lt;2&amp;&#13;&#10;&#9;&gt;&quot;'\" a=\"\"/>";
    row(rt, alloc, value_escapes(alloc), values)
}

fn shapes(rt: &impl Abort, alloc: Global) -> Result<(), Fail> {
    row(rt, alloc, empty(alloc), "<a/>")?;
    row(rt, alloc, past_ascii(alloc), "<é _1=\"\u{10FFFF}\">€</é>")?;
    row(
        rt,
        alloc,
        nested(alloc),
        "<a one=\"1\" two=\"2\">tu<b><c/></b>v</a>",
    )
}

#[test]
fn small_trees_have_their_text(rt: HostRuntime) -> Result<(), Fail> {
    escapes(&rt, rt.alloc())?;
    shapes(&rt, rt.alloc())
}

fn build_around(builder: &mut Builder, part: View<'_>) -> Result<(), AllocError>
    requires start { builder.old ≡ nothing_built }
    requires depth { depth_of (element_of part) < 256 }
    ensures { OnOk result (IsSome builder.new.root) }
{
    builder.begin("r", 0)?;
    builder.place(part)?;
    builder.end();
    Ok(())
}

/// A tree of this element alone, inside another.
fn placed(alloc: Global, part: View<'_>) -> Result<Tree, AllocError>
    requires { depth_of (element_of part) < 256 }
{
    let mut builder = Builder::new(alloc);
    build_around(&mut builder, part)?;
    Ok(builder.finish())
}

fn shows_names(rt: &impl Abort, root: View<'_>) {
    assert!(rt; root.name() == "a");
    assert!(rt; root.at() == 4);
}

fn shows_attrs(rt: &impl Abort, root: View<'_>) {
    assert!(rt; root.attr_count() == 2);
    let (name, value) = root.attr(1);
    assert!(rt; name == "two");
    assert!(rt; value == "2");
}

fn finds_attrs(rt: &impl Abort, root: View<'_>) {
    assert!(rt; root.find_attr("two") == Some("2"));
    assert!(rt; root.find_attr("three").is_none());
}

fn shows_text(rt: &impl Abort, kid: Kid<'_>) {
    match kid {
        Kid::Text(text) => assert!(rt; text == "tu"),
        Kid::Element(_) => assert!(rt; false),
    }
}

fn shows_element(rt: &impl Abort, alloc: Global, kid: Kid<'_>) -> Result<(), Fail>
    requires { IsShallower kid 256 }
{
    match kid {
        Kid::Element(part) => row(rt, alloc, placed(alloc, part), "<r><b><c/></b></r>"),
        Kid::Text(_) => row(rt, alloc, empty(alloc), "<b/>"),
    }
}

fn shows_kids(rt: &impl Abort, alloc: Global, root: View<'_>) -> Result<(), Fail>
    requires { depth_of (element_of root) ≤ 256 }
{
    assert!(rt; root.kid_count() == 3);
    shows_text(rt, root.kid(0));
    shows_element(rt, alloc, root.kid(1))
}

fn shows_all(rt: &impl Abort, alloc: Global, tree: &Tree) -> Result<(), Fail> {
    let root = tree.root();
    shows_names(rt, root);
    shows_attrs(rt, root);
    finds_attrs(rt, root);
    shows_kids(rt, alloc, root)
}

#[test]
fn a_view_shows_its_element(rt: HostRuntime) -> Result<(), Fail> {
    let tree = nested(rt.alloc())?;
    shows_all(&rt, rt.alloc(), &tree)
}

fn build_deepest(builder: &mut Builder) -> Result<(), AllocError>
    requires { builder.old ≡ nothing_built }
    ensures { OnOk result (IsSome builder.new.root) }
{
    for offset in 0..256u64 {
        builder.begin("a", offset)?;
    }
    for _ended in 0..256u64 {
        builder.end();
    }
    Ok(())
}

/// As many elements in one another as a tree may have.
fn deepest(alloc: Global) -> Result<Tree, AllocError> {
    let mut builder = Builder::new(alloc);
    build_deepest(&mut builder)?;
    Ok(builder.finish())
}

fn push_times(text: &mut String, count: u32, piece: &str) -> Result<(), AllocError> {
    for _ in 0..count {
        text.push_str(piece)?;
    }
    Ok(())
}

fn push_deepest(text: &mut String) -> Result<(), AllocError> {
    push_times(text, 255, "<a>")?;
    text.push_str("<a/>")?;
    push_times(text, 255, "</a>")
}

fn deepest_text(alloc: Global) -> Result<String, AllocError> {
    let mut root = String::new(alloc);
    push_deepest(&mut root)?;
    Ok(root)
}

#[test]
fn the_deepest_tree_has_its_text(rt: HostRuntime) -> Result<(), Fail> {
    let root = deepest_text(rt.alloc())?;
    row(&rt, rt.alloc(), deepest(rt.alloc()), root.as_str())
}
