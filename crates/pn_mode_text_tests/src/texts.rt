//! The texts of values of each sort.

use pn_mode_text::put_value;
use pn_outside::{Failed, MemorySink};
use pn_samples::{add_cyclic, add_finite, add_partition, elements, sort_of, user};
use pn_sorts::{Declaration, Decls, Sort, Value, are_distinct, are_numbered};
use pn_text::Text;
use sqlite_items::Items;
use std::alloc::{AllocError, Global};
use std::process::Abort;
use std::test::Fail;

/// A finite enumeration, a cyclic one, and a partition of the first, in this order. Their ids have
/// characters that are escaped, and some past ASCII.
fn put_declarations(alloc: Global, items: &mut Vec<Declaration>) -> Result<(), AllocError> {
    add_finite(alloc, items, "finite", 0, &["red", "a,b", "50%", "grün"])?;
    add_cyclic(alloc, items, "cyclic", 0, &["c-1", "(c.2)"])?;
    let base = user(alloc, 0, "finite")?;
    let parts = elements(alloc, 0, &[("warm{}", "red 50%"), ("_cold_", "a,b grün")])?;
    add_partition(alloc, items, "parts", 0, base, parts)
}

fn declared(rt: &impl Abort, alloc: Global) -> Result<Decls, AllocError> {
    let mut items = Vec::new(alloc);
    put_declarations(alloc, &mut items)?;
    built(rt, alloc, &items)
}

fn built(rt: &impl Abort, alloc: Global, items: &[Declaration]) -> Result<Decls, AllocError> {
    assert!(rt; are_numbered(items));
    assert!(rt; are_distinct(alloc, items)?);
    Decls::build(alloc, items)
}

/// The last value of the stack.
fn top(stack: &mut Vec<Value>) -> Value {
    match stack.pop() {
        Some(value) => value,
        None => Value::Dot,
    }
}

fn pop_into(
    stack: &mut Vec<Value>,
    count: usize,
    values: &mut Items<Value>,
) -> Result<(), AllocError> {
    for _ in 0..count {
        values.push(top(stack))?;
    }
    Ok(())
}

/// The last values of the stack, the last one first.
fn values(alloc: Global, count: &str, stack: &mut Vec<Value>) -> Result<Items<Value>, AllocError> {
    let mut values = Items::new(alloc);
    pop_into(stack, count.parse().unwrap_or(0), &mut values)?;
    Ok(values)
}

/// The value of a word with a part behind `/`.
fn parted(
    alloc: Global,
    word: &str,
    part: &str,
    stack: &mut Vec<Value>,
) -> Result<Value, AllocError> {
    match word {
        "const" => Ok(Value::Const(part.parse().unwrap_or(0))),
        "text" => Ok(Value::Text(Text::from_str(alloc, part)?)),
        "tuple" => Ok(Value::Tuple(values(alloc, part, stack)?)),
        _ => Ok(Value::List(values(alloc, part, stack)?)),
    }
}

fn plain(word: &str) -> Value {
    match word {
        "dot" => Value::Dot,
        "true" => Value::Bool(true),
        "false" => Value::Bool(false),
        _ => Value::Int(word.parse().unwrap_or(0)),
    }
}

fn push_value(alloc: Global, word: &str, stack: &mut Vec<Value>) -> Result<(), AllocError> {
    let value = match word.split_once('/') {
        Some((word, part)) => parted(alloc, word, part, stack)?,
        None => plain(word),
    };
    stack.push(value)?;
    Ok(())
}

fn push_values(alloc: Global, words: &str, stack: &mut Vec<Value>) -> Result<(), AllocError> {
    for word in words.rsplit(' ') {
        push_value(alloc, word, stack)?;
    }
    Ok(())
}

/// The value of these words, each before its parts: `dot`, `true`, `-4`, `const/1`, `text/a`,
/// `tuple/2`, `list/0`.
fn value_of(alloc: Global, words: &str) -> Result<Value, AllocError> {
    let mut stack = Vec::new(alloc);
    push_values(alloc, words, &mut stack)?;
    Ok(top(&mut stack))
}

/// The value is of the sort, and has this text.
fn puts(
    rt: &impl Abort,
    decls: &Decls,
    sort: &Sort,
    value: &Value,
    sink: &mut MemorySink,
    want: &str,
) {
    if decls.has_value(sort, value) {
        assert!(rt; put_value(decls, sort, value, sink) == Ok(()));
        assert!(rt; sink.bytes() == want.as_bytes());
    } else {
        panic!(rt; "the value is of another sort");
    }
}

fn has_text(
    rt: &impl Abort,
    alloc: Global,
    decls: &Decls,
    sort: &Sort,
    value: &Value,
    want: &str,
) -> Result<(), Fail> {
    let mut sink = MemorySink::new(alloc, want.len(), Vec::new(alloc))?;
    puts(rt, decls, sort, value, &mut sink, want);
    Ok(())
}

/// Each line has a sort, a value and the value's text.
const ROWS: &str = "\
Dot|dot|dot
Bool|true|true
Bool|false|false
Enumeration/0|const/0|red
Enumeration/0|const/1|a%2Cb
Enumeration/0|const/2|50%25
Enumeration/0|const/3|grün
Enumeration/1|const/1|%28c.2%29
Partition/2|const/0|warm%7B%7D
Partition/2|const/1|_cold_
Range/-7/7|-7|-7
Range/-7/7|7|7
Integer|0|0
Integer|-9223372036854775808|-9223372036854775808
Integer|9223372036854775807|9223372036854775807
Natural|10|10
Positive|1|1
Text|text/|\"\"
Text|text/az_-.09AZ|\"az_-.09AZ\"
Text|text/é€\u{10FFFF}|\"é€\u{10FFFF}\"
List Bool|list/0|[]
List Dot|list/1 dot|[dot]
List Integer|list/3 -1 0 12|[-1,0,12]
List Text|list/2 text/, text/]|[\"%2C\",\"%5D\"]
Product/1 Bool|tuple/1 true|(true)
Product/2 Enumeration/1 Range/1/3|tuple/2 const/0 3|(c-1,3)
Product/3 Dot Enumeration/0 Enumeration/1|tuple/3 dot const/1 const/1|(dot,a%2Cb,%28c.2%29)
Product/2 List Product/2 Bool Integer Dot|tuple/2 list/2 tuple/2 true -1 tuple/2 false 2 dot|([(true,-1),(false,2)],dot)
List List Positive|list/2 list/2 1 2 list/0|[[1,2],[]]";

fn row_is_right(rt: &impl Abort, alloc: Global, decls: &Decls, row: &str) -> Result<bool, Fail> {
    let Some((sort, rest)) = row.split_once('|') else {
        return Ok(false);
    };
    let Some((value, want)) = rest.split_once('|') else {
        return Ok(false);
    };
    row_has_text(rt, alloc, decls, sort, value, want)?;
    Ok(true)
}

fn row_has_text(
    rt: &impl Abort,
    alloc: Global,
    decls: &Decls,
    sort: &str,
    value: &str,
    want: &str,
) -> Result<(), Fail> {
    let sort = sort_of(alloc, sort)?;
    value_has_text(rt, alloc, decls, &sort, value, want)
}

fn value_has_text(
    rt: &impl Abort,
    alloc: Global,
    decls: &Decls,
    sort: &Sort,
    value: &str,
    want: &str,
) -> Result<(), Fail> {
    let value = value_of(alloc, value)?;
    has_text(rt, alloc, decls, sort, &value, want)
}

fn rows_are_right(rt: &impl Abort, alloc: Global, decls: &Decls) -> Result<(), Fail> {
    for row in ROWS.lines() {
        assert!(rt; row_is_right(rt, alloc, decls, row)?);
    }
    Ok(())
}

#[test]
fn values_of_each_sort(rt: HostRuntime) -> Result<(), Fail> {
    let decls = declared(&rt, rt.alloc())?;
    rows_are_right(&rt, rt.alloc(), &decls)
}

/// The characters of ASCII that a text may have.
const CHARACTERS: &str =
    "\t\n\r !\"#$%&'()*+,-./0123456789:;<=>?@ABCDEFGHIJKLMNOPQRSTUVWXYZ[\\]^_`abcdefghijklmnopqrstuvwxyz{|}~\u{7f}";

const ESCAPED_CHARACTERS: &str =
    "\"%09%0A%0D%20%21%22%23%24%25%26%27%28%29%2A%2B%2C-.%2F0123456789%3A%3B%3C%3D%3E%3F%40ABCDEFGHIJKLMNOPQRSTUVWXYZ%5B%5C%5D%5E_%60abcdefghijklmnopqrstuvwxyz%7B%7C%7D%7E%7F\"";

fn characters_have_their_text(rt: &impl Abort, alloc: Global, decls: &Decls) -> Result<(), Fail> {
    let value = Value::Text(Text::from_str(alloc, CHARACTERS)?);
    has_text(rt, alloc, decls, &Sort::Text, &value, ESCAPED_CHARACTERS)
}

#[test]
fn characters_of_ascii(rt: HostRuntime) -> Result<(), Fail> {
    let decls = declared(&rt, rt.alloc())?;
    characters_have_their_text(&rt, rt.alloc(), &decls)
}

/// A sink with this much room takes this front of the text.
fn stops(
    rt: &impl Abort,
    decls: &Decls,
    sort: &Sort,
    value: &Value,
    sink: &mut MemorySink,
    want: &str,
) {
    if decls.has_value(sort, value) {
        assert!(rt; put_value(decls, sort, value, sink) == Err(Failed));
        assert!(rt; sink.bytes() == want.as_bytes());
    } else {
        panic!(rt; "the value is of another sort");
    }
}

fn stops_behind(
    rt: &impl Abort,
    alloc: Global,
    decls: &Decls,
    sort: &Sort,
    value: &Value,
    want: &str,
) -> Result<(), Fail> {
    let mut sink = MemorySink::new(alloc, want.len(), Vec::new(alloc))?;
    stops(rt, decls, sort, value, &mut sink, want);
    Ok(())
}

fn list_is_cut(
    rt: &impl Abort,
    alloc: Global,
    decls: &Decls,
    sort: &Sort,
    value: &Value,
) -> Result<(), Fail> {
    stops_behind(rt, alloc, decls, sort, value, "")?;
    stops_behind(rt, alloc, decls, sort, value, "[1,2")?;
    stops_behind(rt, alloc, decls, sort, value, "[1,23")
}

fn lists_are_cut(rt: &impl Abort, alloc: Global, decls: &Decls, sort: &Sort) -> Result<(), Fail> {
    let value = value_of(alloc, "list/2 1 23")?;
    list_is_cut(rt, alloc, decls, sort, &value)
}

fn texts_are_cut(rt: &impl Abort, alloc: Global, decls: &Decls) -> Result<(), Fail> {
    let sort = sort_of(alloc, "List Natural")?;
    lists_are_cut(rt, alloc, decls, &sort)
}

#[test]
fn texts_that_are_cut(rt: HostRuntime) -> Result<(), Fail> {
    let decls = declared(&rt, rt.alloc())?;
    texts_are_cut(&rt, rt.alloc(), &decls)
}
