//! Worked examples of ids and links: pages, references, and the faults of both.

use crate::tests::{expect_checked, expect_refused, expect_text};
use std::alloc::{AllocError, Global};
use std::process::Abort;
use std::test::Fail;

/// A document of a place/transition net in which this stands.
fn document(alloc: Global, inside: &str) -> Result<String, AllocError> {
    let mut text = String::from_str(
        alloc,
        "<pnml xmlns='http://www.pnml.org/version-2009/grammar/pnml'><net id='n' type='http://www.pnml.org/version-2009/grammar/ptnet'>",
    )?;
    text.push_str(inside)?;
    text.push_str("</net></pnml>")?;
    Ok(text)
}

/// What is written of such a net.
fn written(alloc: Global, inside: &str) -> Result<String, AllocError> {
    let mut text = String::from_str(alloc, "<?xml version=\"1.0\" encoding=\"UTF-8\"?>\n")?;
    push_quoted(
        &mut text,
        "<pnml xmlns='http://www.pnml.org/version-2009/grammar/pnml'><net id='n' type='http://www.pnml.org/version-2009/grammar/ptnet'>",
    )?;
    push_quoted(&mut text, inside)?;
    text.push_str("</net></pnml>\n")?;
    Ok(text)
}

/// Puts a text behind another, with double quotes for single ones.
fn push_quoted(text: &mut String, part: &str) -> Result<(), AllocError> {
    for c in part.chars() {
        text.push(if c == '\'' { '"' } else { c })?;
    }
    Ok(())
}

/// The two parts of a row.
fn halves(row: &str) -> Result<(&str, &str), Fail> {
    Ok(row.split_once(" is ").ok_or("no such row")?)
}

/// A line of the program.
fn line(alloc: Global, before: &str, told: &str) -> Result<String, AllocError> {
    let mut text = String::from_str(alloc, before)?;
    text.push_str(told)?;
    text.push_str("\n")?;
    Ok(text)
}

/// What may not stand in a net, with the least fault of its document.
const FAULTS: &str = "\
<page id='g'><place id='a'/><transition id='a'/></page> is byte 154: duplicate id: a
<page id='g'><place id='a'/><place id='a'/><place id='a'/></page> is byte 154: duplicate id: a
<page id='g'><place id='a'/><place id='b'/><place id='b'/><place id='a'/></page> is byte 169: duplicate id: b
<page id='g'><place id='a'/><transition id='t'/><arc id='g' source='a' target='t'/></page> is byte 174: duplicate id: g
<page id='n'/> is byte 126: duplicate id: n
<page id='g'><page id='h'><place id='a'/></page><place id='a'/></page> is byte 174: duplicate id: a
<page id='g'><page id='h'><page id='g'/></page></page> is byte 152: duplicate id: g
<page id='g'><place id='a'/><referencePlace id='r' ref='a'/><referenceTransition id='r' ref='t'/><transition id='t'/></page> is byte 186: duplicate id: r
<page id='g'><place id='a'/></page><page id='g'><place id='b'/></page> is byte 161: duplicate id: g
<page id='g'><place id='a'/><transition id='t'/><arc id='u' source='x' target='t'/></page> is byte 174: unknown end: x
<page id='g'><place id='a'/><transition id='t'/><arc id='u' source='a' target='y'/></page> is byte 174: unknown end: y
<page id='g'><place id='a'/><transition id='t'/><arc id='u' source='x' target='y'/></page> is byte 174: unknown end: x
<page id='g'><place id='a'/><transition id='t'/><arc target='y' id='u' source='x'/></page> is byte 174: unknown end: x
<page id='g'><place id='a'/><transition id='t'/><arc id='u' source='g' target='t'/></page> is byte 174: unknown end: g
<page id='g'><place id='a'/><transition id='t'/><arc id='u' source='a' target='n'/></page> is byte 174: unknown end: n
<page id='g'><place id='a'/><transition id='t'/><arc id='u' source='v' target='t'/><arc id='v' source='a' target='t'/></page> is byte 174: unknown end: v
<page id='g'><referencePlace id='r' ref='x'/></page> is byte 139: unknown end: x
<page id='g'><referencePlace id='r' ref='g'/></page> is byte 139: unknown end: g
<page id='g'><referenceTransition id='r' ref='u'/><place id='a'/><transition id='t'/><arc id='u' source='a' target='t'/></page> is byte 139: unknown end: u
<page id='g'><referenceTransition id='r' ref='n'/></page> is byte 139: unknown end: n
<page id='g'><place id='a'/><place id='b'/><arc id='u' source='a' target='b'/></page> is byte 169: wrong end: u
<page id='g'><place id='a'/><arc id='u' source='a' target='a'/></page> is byte 154: wrong end: u
<page id='g'><transition id='t'/><transition id='s'/><arc id='u' source='t' target='s'/></page> is byte 179: wrong end: u
<page id='g'><place id='a'/><place id='b'/><referencePlace id='r' ref='b'/><arc id='u' source='a' target='r'/></page> is byte 201: wrong end: u
<page id='g'><transition id='t'/><referenceTransition id='r' ref='t'/><arc id='u' source='r' target='t'/></page> is byte 196: wrong end: u
<page id='g'><place id='a'/><referencePlace id='r' ref='a'/><page id='h'><place id='b'/><referencePlace id='q' ref='b'/><arc id='u' source='r' target='q'/></page></page> is byte 246: wrong end: u
<page id='g'><transition id='t'/><referencePlace id='r' ref='t'/></page> is byte 159: wrong end: r
<page id='g'><referenceTransition id='r' ref='a'/><place id='a'/></page> is byte 139: wrong end: r
<page id='g'><transition id='t'/><referencePlace id='r' ref='q'/><referenceTransition id='q' ref='t'/></page> is byte 159: wrong end: r
<page id='g'><referencePlace id='r' ref='r'/></page> is byte 139: reference cycle: r
<page id='g'><referencePlace id='r' ref='s'/><referencePlace id='s' ref='r'/></page> is byte 139: reference cycle: r
<page id='g'><transition id='t'/><referenceTransition id='r' ref='s'/><referenceTransition id='s' ref='r'/></page> is byte 159: reference cycle: r
<page id='g'><referencePlace id='p' ref='q'/><referencePlace id='q' ref='r'/><referencePlace id='r' ref='p'/></page> is byte 139: reference cycle: p
<page id='g'><referencePlace id='p' ref='q'/><referencePlace id='q' ref='r'/><referencePlace id='r' ref='q'/></page> is byte 139: reference cycle: p
<page id='g'><place id='a'/><referencePlace id='o' ref='a'/><referencePlace id='q' ref='r'/><referencePlace id='r' ref='q'/><referencePlace id='p' ref='q'/></page> is byte 186: reference cycle: q
<page id='g'><page id='h'><referencePlace id='r' ref='s'/></page><referencePlace id='s' ref='r'/></page> is byte 152: reference cycle: r
<page id='g'><arc id='u' source='x' target='t'/><transition id='t'/><place id='t'/></page> is byte 139: unknown end: x
<page id='g'><transition id='t'/><arc id='t' source='x' target='y'/></page> is byte 159: duplicate id: t
<page id='g'><place id='a'/><place id='b'/><arc id='a' source='a' target='b'/></page> is byte 169: duplicate id: a
<page id='g'><place id='a'/><place id='b'/><arc id='u' source='a' target='b'/><transition id='a'/></page> is byte 169: wrong end: u
<page id='g'><transition id='a'/><place id='b'/><arc id='u' source='a' target='b'/><place id='a'/></page> is byte 209: duplicate id: a
<page id='g'><referencePlace id='r' ref='s'/><referenceTransition id='s' ref='r'/></page> is byte 139: wrong end: r
<page id='g'><referencePlace id='q' ref='s'/><referencePlace id='s' ref='s'/><referencePlace id='r' ref='x'/></page> is byte 139: reference cycle: q
<page id='g'><place id='a'/><arc id='u' source='r' target='a'/><referencePlace id='r' ref='r'/></page> is byte 154: wrong end: u
<page id='g'><transition id='t'/><arc id='u' source='r' target='t'/><referencePlace id='r' ref='r'/></page> is byte 194: reference cycle: r
<page id='g'><place id='a'/><arc id='u' source='x' target='a'/><referencePlace id='r' ref='y'/></page> is byte 154: unknown end: x";

fn is_refused(rt: &impl Abort, alloc: Global, row: &str) -> Result<(), Fail> {
    let (inside, told) = halves(row)?;
    let document = document(alloc, inside)?;
    let line = line(alloc, "pnml: ", told)?;
    expect_refused(rt, alloc, document.as_str().as_bytes(), line.as_str())?;
    Ok(())
}

#[test]
fn the_least_fault_of_ids_and_links_is_told(rt: HostRuntime) -> Result<(), Fail> {
    for row in FAULTS.lines() {
        is_refused(&rt, rt.alloc(), row)?;
    }
    Ok(())
}

/// What may stand in a net, with what is told of it.
const NETS: &str = "\
<page id='g'><place id='a'/><transition id='t'/><page id='h'><place id='b'/><referencePlace id='r' ref='a'/><arc id='u' source='r' target='t'/><arc id='v' source='t' target='b'/></page></page> is ptnet places 2 transitions 1 arcs 2 tokens 0
<page id='g'><arc id='u' source='r' target='q'/><referencePlace id='r' ref='p'/><referencePlace id='p' ref='a'/><referenceTransition id='q' ref='t'/><page id='h'><page id='i'><place id='a'/><transition id='t'/></page></page></page> is ptnet places 1 transitions 1 arcs 1 tokens 0
<page id='g'></page><page id='h'><arc id='u' source='a' target='t'/><arc id='v' source='t' target='a'/></page><page id='i'><transition id='t'/><place id='a'><initialMarking><text>7</text></initialMarking></place></page> is ptnet places 1 transitions 1 arcs 2 tokens 7
<name><text>two</text></name><page id='g'><graphics/><place id='a'><name><text>a</text><graphics><offset x='1' y='2'/></graphics></name><initialMarking><graphics/><text> 007 </text></initialMarking></place><transition id='t'/><arc id='u' source='a' target='t'><inscription><text>2</text></inscription><toolspecific tool='d' version='1'>free text</toolspecific></arc></page> is ptnet places 1 transitions 1 arcs 1 tokens 7
<page id='g'/> is ptnet places 0 transitions 0 arcs 0 tokens 0";

fn is_summed_up(rt: &impl Abort, alloc: Global, row: &str) -> Result<(), Fail> {
    let (inside, told) = halves(row)?;
    let document = document(alloc, inside)?;
    let line = line(alloc, "", told)?;
    expect_checked(rt, alloc, document.as_str(), line.as_str())?;
    Ok(())
}

#[test]
fn nets_of_pages_are_summed_up(rt: HostRuntime) -> Result<(), Fail> {
    for row in NETS.lines() {
        is_summed_up(&rt, rt.alloc(), row)?;
    }
    Ok(())
}

/// What stands in a net, with what is written there.
const FLATTENED: &str = "\
<page id='g'><name><text>first</text></name><page id='h'><graphics/><toolspecific tool='d' version='1'/><place id='b'/><page id='i'><place id='c'/></page><arc id='v' source='t' target='r'/></page><place id='a'/><referencePlace id='r' ref='b'/><transition id='t'/><arc id='u' source='r' target='t'/></page><page id='j'><name/><place id='d'/><transition id='s'/><arc id='w' source='s' target='a'/></page> is <page id='g'><name><text>first</text></name><place id='a'/><place id='b'/><place id='c'/><place id='d'/><transition id='t'/><transition id='s'/><arc id='u' source='b' target='t'/><arc id='v' source='t' target='b'/><arc id='w' source='s' target='a'/></page>
<page id='g'><arc id='u' source='r' target='q'/><referencePlace id='r' ref='p'/><referencePlace id='p' ref='a'/><referenceTransition id='q' ref='t'/><page id='h'><page id='i'><place id='a'/><transition id='t'/></page></page></page> is <page id='g'><place id='a'/><transition id='t'/><arc id='u' source='a' target='t'/></page>
<page id='g'><toolspecific tool='d' version='1'><x> 1 </x></toolspecific><graphics/><place id='a'><graphics><position x='1' y='2'/></graphics><name><graphics/><text>a</text></name><initialMarking><text>0</text></initialMarking></place><transition id='t'/><arc id='u' source='t' target='a'><inscription><text>1</text></inscription></arc></page> is <page id='g'><toolspecific tool='d' version='1'><x> 1 </x></toolspecific><graphics/><place id='a'><name><text>a</text><graphics/></name><graphics><position x='1' y='2'/></graphics><initialMarking><text>0</text></initialMarking></place><transition id='t'/><arc id='u' source='t' target='a'><inscription><text>1</text></inscription></arc></page>";

fn is_flattened(rt: &impl Abort, alloc: Global, row: &str) -> Result<(), Fail> {
    let (inside, flat) = halves(row)?;
    let document = document(alloc, inside)?;
    let text = written(alloc, flat)?;
    expect_text(rt, alloc, document.as_str(), text.as_str())?;
    Ok(())
}

#[test]
fn nets_of_pages_are_flattened(rt: HostRuntime) -> Result<(), Fail> {
    for row in FLATTENED.lines() {
        is_flattened(&rt, rt.alloc(), row)?;
    }
    Ok(())
}

/// Puts so many references behind a text, each to the next.
fn push_chain(alloc: Global, text: &mut String, length: u32) -> Result<(), AllocError> {
    for k in 0..length {
        let next = k + 1;
        let reference = format!(in alloc; "<referencePlace id='r{k}' ref='r{next}'/>")?;
        text.push_str(reference.as_str())?;
    }
    Ok(())
}

/// A page with a chain of 20,000 references, and with this at its end.
fn chain(alloc: Global, end: &str) -> Result<String, AllocError> {
    let mut text = String::from_str(alloc, "<page id='g'>")?;
    push_chain(alloc, &mut text, 20000)?;
    text.push_str(end)?;
    text.push_str("</page>")?;
    document(alloc, text.as_str())
}

#[test]
fn a_long_chain_of_references_is_followed(rt: HostRuntime) -> Result<(), Fail> {
    let alloc = rt.alloc();
    let ended = chain(
        alloc,
        "<place id='r20000'/><transition id='t'/><arc id='u' source='r0' target='t'/>",
    )?;
    expect_checked(
        &rt,
        alloc,
        ended.as_str(),
        "ptnet places 1 transitions 1 arcs 1 tokens 0\n",
    )?;
    let round = chain(alloc, "<referencePlace id='r20000' ref='r7'/>")?;
    expect_refused(
        &rt,
        alloc,
        round.as_str().as_bytes(),
        "pnml: byte 139: reference cycle: r0\n",
    )?;
    Ok(())
}
