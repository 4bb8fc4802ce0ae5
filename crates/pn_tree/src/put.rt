ghost use Rattle.std.specs.Prelude.{◌≡◌, ◌-◌, ◌^◌, ◌++◌, ◌∷◌, [], codes, length, map, min, MatchOption};
ghost use Rattle.std.specs.List.{flat_map};
ghost use Rattle.pn_outside.specs.Cause.{CountsFault, HasCause};
ghost use Rattle.pn_outside.specs.Taking.{Puts};
ghost use Rattle.pn_tree.specs.Canonical.{text_escape, value_escape, attr_text, child_text, content_text, element_text, canonical_text};
ghost use Rattle.pn_tree.specs.Places.{escape_in};
ghost use Rattle.pn_tree.specs.Views.{element_of, child_of};

use crate::{Kid, Tree, View};
use pn_outside::{CountSink, Failed, Sink, put_all, put_text};

/// Where a text stands.
#[derive(Clone, Copy)]
enum Place {
    Content,
    Value,
}

/// The reference that is written for a byte of a text, if it is not written as it is.
fn text_reference(byte: u8) -> Option<&'static str>
    ensures { MatchOption result (text_escape byte ≡ byte ∷ []) (λ r. text_escape byte ≡ r.now) }
{
    match byte {
        b'&' => Some("&amp;"),
        b'<' => Some("&lt;"),
        b'>' => Some("&gt;"),
        b'\r' => Some("&#13;"),
        _ => None,
    }
}

/// The reference that is written for a byte of an attribute's value, if it is not written as it is.
fn value_reference(byte: u8) -> Option<&'static str>
    ensures { MatchOption result (value_escape byte ≡ byte ∷ []) (λ r. value_escape byte ≡ r.now) }
{
    match byte {
        b'"' => Some("&quot;"),
        b'\t' => Some("&#9;"),
        b'\n' => Some("&#10;"),
        _ => text_reference(byte),
    }
}

fn reference_in(place: Place, byte: u8) -> Option<&'static str>
    ensures { MatchOption result (escape_in place byte ≡ byte ∷ []) (λ r. escape_in place byte ≡ r.now) }
{
    match place {
        Place::Content => text_reference(byte),
        Place::Value => value_reference(byte),
    }
}

/// Writes a text with references in it, in runs of bytes that are written as they are.
fn put_escaped<K: Sink>(sink: &mut K, place: Place, text: &str) -> Result<(), Failed>
    ensures puts { Puts K.taken K.number result sink.old sink.new (flat_map (escape_in place) text.now) }
    ensures cause { HasCause (K.faults sink.old) (K.faults sink.new) result }
    ensures counted { CountsFault (K.faults sink.old) (K.faults sink.new) result }
{
    let bytes = text.as_bytes();
    let mut start = 0;
    for at in 0..bytes.len() {
        if let Some(reference) = reference_in(place, bytes[at]) {
            put_run(sink, &bytes[start..at], reference)?;
            start = at + 1;
        }
    }
    put_all(sink, &bytes[start..])
}

/// Writes a run of bytes and the reference after it.
fn put_run<K: Sink>(sink: &mut K, run: &[u8], reference: &str) -> Result<(), Failed>
    ensures puts { Puts K.taken K.number result sink.old sink.new (run.now ++ reference.now) }
    ensures cause { HasCause (K.faults sink.old) (K.faults sink.new) result }
    ensures counted { CountsFault (K.faults sink.old) (K.faults sink.new) result }
{
    put_all(sink, run)?;
    put_text(sink, reference)
}

/// Writes a name between two texts.
fn put_name<K: Sink>(sink: &mut K, before: &str, name: &str, after: &str) -> Result<(), Failed>
    ensures puts { Puts K.taken K.number result sink.old sink.new (before.now ++ (name.now ++ after.now)) }
    ensures cause { HasCause (K.faults sink.old) (K.faults sink.new) result }
    ensures counted { CountsFault (K.faults sink.old) (K.faults sink.new) result }
{
    put_text(sink, before)?;
    put_text(sink, name)?;
    put_text(sink, after)
}

fn put_attr<K: Sink>(sink: &mut K, name: &str, value: &str) -> Result<(), Failed>
    ensures puts { Puts K.taken K.number result sink.old sink.new
        (attr_text (record { name = name.now; value = value.now })) }
    ensures cause { HasCause (K.faults sink.old) (K.faults sink.new) result }
    ensures counted { CountsFault (K.faults sink.old) (K.faults sink.new) result }
{
    put_name(sink, " ", name, "=\"")?;
    put_escaped(sink, Place::Value, value)?;
    put_text(sink, "\"")
}

fn put_attrs<K: Sink>(sink: &mut K, part: View<'_>) -> Result<(), Failed>
    ensures puts { Puts K.taken K.number result sink.old sink.new (flat_map attr_text (element_of part.entry).attrs) }
    ensures cause { HasCause (K.faults sink.old) (K.faults sink.new) result }
    ensures counted { CountsFault (K.faults sink.old) (K.faults sink.new) result }
{
    for i in 0..part.attr_count() {
        let (name, value) = part.attr(i);
        put_attr(sink, name, value)?;
    }
    Ok(())
}

fn put_start<K: Sink>(sink: &mut K, part: View<'_>) -> Result<(), Failed>
    ensures puts { Puts K.taken K.number result sink.old sink.new
        (codes "<" ++ ((element_of part.entry).name ++ flat_map attr_text (element_of part.entry).attrs)) }
    ensures cause { HasCause (K.faults sink.old) (K.faults sink.new) result }
    ensures counted { CountsFault (K.faults sink.old) (K.faults sink.new) result }
{
    put_name(sink, "<", part.name(), "")?;
    put_attrs(sink, part)
}

/// Writes an element. The recursion goes by the depth of the elements, which is at most 256.
#[cycle(put)]
fn put_element<K: Sink>(sink: &mut K, part: View<'_>) -> Result<(), Failed>
    ensures puts { Puts K.taken K.number result sink.old sink.new (element_text (element_of part.entry)) }
    ensures cause { HasCause (K.faults sink.old) (K.faults sink.new) result }
    ensures counted { CountsFault (K.faults sink.old) (K.faults sink.new) result }
{
    put_start(sink, part)?;
    if part.is_empty() {
        return put_text(sink, "/>");
    }
    put_text(sink, ">")?;
    put_kids(sink, part)?;
    put_name(sink, "</", part.name(), ">")
}

#[cycle(put)]
fn put_kids<K: Sink>(sink: &mut K, part: View<'_>) -> Result<(), Failed>
    ensures puts { Puts K.taken K.number result sink.old sink.new (flat_map child_text (element_of part.entry).kids) }
    ensures cause { HasCause (K.faults sink.old) (K.faults sink.new) result }
    ensures counted { CountsFault (K.faults sink.old) (K.faults sink.new) result }
{
    for i in 0..part.kid_count() {
        put_child(sink, part.kid(i))?;
    }
    Ok(())
}

#[cycle(put)]
fn put_child<K: Sink>(sink: &mut K, kid: Kid<'_>) -> Result<(), Failed>
    ensures puts { Puts K.taken K.number result sink.old sink.new (child_text (child_of kid.entry)) }
    ensures cause { HasCause (K.faults sink.old) (K.faults sink.new) result }
    ensures counted { CountsFault (K.faults sink.old) (K.faults sink.new) result }
{
    match kid {
        Kid::Element(part) => put_element(sink, part),
        Kid::Text(text) => put_escaped(sink, Place::Content, text),
    }
}

/// Writes the canonical text of a tree: the XML declaration (XML 1.0, 2.8), a line end, the root and
/// a line end. `Failed` comes only from the sink. After `Failed` a front of it is out. Takes no memory.
pub fn put_tree<K: Sink>(tree: &Tree, sink: &mut K) -> Result<(), Failed>
    ensures puts { Puts K.taken K.number result sink.old sink.new (canonical_text tree.now) }
    ensures cause { HasCause (K.faults sink.old) (K.faults sink.new) result }
    ensures counted { CountsFault (K.faults sink.old) (K.faults sink.new) result }
{
    put_text(sink, "<?xml version=\"1.0\" encoding=\"UTF-8\"?>\n")?;
    put_element(sink, tree.root())?;
    put_text(sink, "\n")
}

/// The length of the canonical text of a tree, capped at 2^64 - 1. Takes no memory.
pub fn text_length(tree: &Tree) -> u64
    ensures { result ≡ min (length (canonical_text tree.now)) (2 ^ 64 - 1) }
{
    let mut sink = CountSink::new();
    if put_tree(tree, &mut sink).is_err() {
        unreachable!()
    }
    sink.count()
}
