//! Documents for tests, and what is asked of them.

use pn_faults::Fault;
use pn_scan::{ScanFault, Scanner};
use pn_shape_faults::shape_fault;
use pn_tree::Tree;
use std::alloc::{AllocError, Global};
use std::process::Abort;
use std::test::Fail;

pub(crate) const ROOT: &str = "<pnml xmlns='http://www.pnml.org/version-2009/grammar/pnml'>";

pub(crate) const PLAIN: &str =
    "<pnml xmlns='http://www.pnml.org/version-2009/grammar/pnml'><net id='n' type='http://www.pnml.org/version-2009/grammar/ptnet'>";

pub(crate) const SYMMETRIC: &str =
    "<pnml xmlns='http://www.pnml.org/version-2009/grammar/pnml'><net id='n' type='http://www.pnml.org/version-2009/grammar/symmetricnet'>";

pub(crate) const HIGH_LEVEL: &str =
    "<pnml xmlns='http://www.pnml.org/version-2009/grammar/pnml'><net id='n' type='http://www.pnml.org/version-2009/grammar/highlevelnet'>";

/// What stands around the rows of a table: the root and the net of a kind, what is in it before a
/// row, and what ends the document.
#[derive(Clone, Copy)]
pub(crate) struct Frame<'a> {
    pub kind: &'a str,
    pub head: &'a str,
    pub tail: &'a str,
}

fn scan(alloc: Global, text: &str) -> Result<Tree, ScanFault> {
    let mut scanner = Scanner::new(alloc);
    match scanner.feed(text.as_bytes()) {
        Ok(()) => scanner.finish(),
        Err(fault) => {
            drop(scanner);
            Err(fault)
        }
    }
}

/// The least fault of shape of a document.
fn fault_of(alloc: Global, text: &str) -> Result<Option<Fault>, Fail> {
    match scan(alloc, text) {
        Ok(tree) => Ok(shape_fault(alloc, &tree)?),
        Err(_) => Err("no document".into()),
    }
}

/// A row in its frame.
fn framed(alloc: Global, frame: Frame<'_>, parts: &[&str]) -> Result<String, AllocError> {
    let mut text = String::from_str(alloc, frame.kind)?;
    text.push_str(frame.head)?;
    for part in parts {
        text.push_str(part)?;
    }
    text.push_str(frame.tail)?;
    Ok(text)
}

/// The fault is this one, as a line tells it.
fn is_told(fault: &Option<Fault>, at: usize, words: &str, detail: &str) -> bool {
    match fault {
        Some(fault) => {
            fault.at == at as u64
                && fault.reason.words() == words
                && fault.detail.as_str() == detail
        }
        None => false,
    }
}

/// A document has this fault.
pub(crate) fn expect_fault(
    rt: &impl Abort,
    alloc: Global,
    text: &str,
    at: usize,
    words: &str,
    detail: &str,
) -> Result<(), Fail> {
    let fault = fault_of(alloc, text)?;
    assert!(rt; is_told(&fault, at, words, detail), "{text}");
    Ok(())
}

/// A row has its fault where `^` stands in it.
fn expect_row(rt: &impl Abort, alloc: Global, frame: Frame<'_>, row: &str) -> Result<(), Fail> {
    let (body, told) = row.split_once(" => ").ok_or("no fault is told")?;
    let (before, after) = body.split_once("^").ok_or("no place is marked")?;
    let (words, detail) = told.split_once(": ").ok_or("no detail")?;
    let text = framed(alloc, frame, &[before, after])?;
    let inside = frame.head.len().saturating_add(before.len());
    let at = frame.kind.len().saturating_add(inside);
    expect_fault(rt, alloc, text.as_str(), at, words, detail)
}

/// Each row of a table, one a line, has its fault.
pub(crate) fn expect_faults(
    rt: &impl Abort,
    alloc: Global,
    frame: Frame<'_>,
    rows: &str,
) -> Result<(), Fail> {
    for row in rows.split('\n') {
        expect_row(rt, alloc, frame, row)?;
    }
    Ok(())
}

/// The document of a row has no fault.
fn expect_whole(rt: &impl Abort, alloc: Global, frame: Frame<'_>, row: &str) -> Result<(), Fail> {
    let text = framed(alloc, frame, &[row])?;
    let fault = fault_of(alloc, text.as_str())?;
    assert!(rt; fault.is_none(), "{row}");
    Ok(())
}

/// The documents of a table, one a line, have no fault.
pub(crate) fn expect_faultless(
    rt: &impl Abort,
    alloc: Global,
    frame: Frame<'_>,
    rows: &str,
) -> Result<(), Fail> {
    for row in rows.split('\n') {
        expect_whole(rt, alloc, frame, row)?;
    }
    Ok(())
}
