//! Nets for tests, from their documents. No clause says what they are: a test looks at what comes of
//! them.
#![tactic(auto)]

mod modes;
mod nets;

pub use modes::is_sound_mode;
pub use nets::{CHAIN, FORKS, FULL, SQUARE};
use pn_checks::{Checked, verdict};
use pn_scan::{ScanFault, Scanner};
use pn_sorts::Value;
use pn_tree::Tree;
use std::alloc::{AllocError, Global};

/// The value of a word: `dot` is the one value, `c2` the second constant, other words are numbers.
pub fn value_of(word: &str) -> Value {
    if word == "dot" {
        return Value::Dot;
    }
    match word.strip_prefix("c") {
        Some(rest) => Value::Const(rest.parse::<u32>().unwrap_or(0).saturating_sub(1)),
        None => Value::Int(word.parse().unwrap_or(0)),
    }
}

fn read(alloc: Global, text: &str) -> Result<Tree, ScanFault> {
    let mut scanner = Scanner::new(alloc);
    match scanner.feed(text.as_bytes()) {
        Ok(()) => scanner.finish(),
        Err(fault) => {
            drop(scanner);
            Err(fault)
        }
    }
}

/// The net of a document with its initial marking, where it has no fault.
pub fn net_of(alloc: Global, text: &str) -> Option<Checked> {
    match read(alloc, text) {
        Ok(tree) => verdict(alloc, &tree).ok(),
        Err(_) => None,
    }
}

/// A document with a net of this kind, these declarations, where there are some, and one page.
fn document(
    alloc: Global,
    kind: &str,
    declarations: &str,
    page: &str,
) -> Result<String, AllocError> {
    let mut text = String::from_str(
        alloc,
        r#"<pnml xmlns="http://www.pnml.org/version-2009/grammar/pnml"><net id="n" type="http://www.pnml.org/version-2009/grammar/"#,
    )?;
    text.push_str(kind)?;
    text.push_str(r#"">"#)?;
    if !declarations.is_empty() {
        text.push_str("<declaration><structure><declarations>")?;
        text.push_str(declarations)?;
        text.push_str("</declarations></structure></declaration>")?;
    }
    text.push_str(r#"<page id="g">"#)?;
    text.push_str(page)?;
    text.push_str("</page></net></pnml>")?;
    Ok(text)
}

/// A net of this kind, with these declarations and one page, where it has no fault.
pub fn net_with(alloc: Global, kind: &str, declarations: &str, page: &str) -> Option<Checked> {
    match document(alloc, kind, declarations, page) {
        Ok(text) => net_of(alloc, text.as_str()),
        Err(_) => None,
    }
}
