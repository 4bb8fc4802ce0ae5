//! The modes of a transition one at a time, where there are 2^64 assignments.

use crate::listing::has_values;
use pn_checks::Checked;
use pn_modes::{ModeSearch, SearchFault, search};
use pn_net::Mode;
use pn_net_samples::net_with;
use std::alloc::{AllocError, Global};
use std::process::Abort;
use std::test::Fail;

/// Eight variables of 256 values.
const EIGHT: &str =
    r#"<variabledecl id="x1"><finiteintrange start="0" end="255"/></variabledecl><variabledecl id="x2"><finiteintrange start="0" end="255"/></variabledecl><variabledecl id="x3"><finiteintrange start="0" end="255"/></variabledecl><variabledecl id="x4"><finiteintrange start="0" end="255"/></variabledecl><variabledecl id="x5"><finiteintrange start="0" end="255"/></variabledecl><variabledecl id="x6"><finiteintrange start="0" end="255"/></variabledecl><variabledecl id="x7"><finiteintrange start="0" end="255"/></variabledecl><variabledecl id="x8"><finiteintrange start="0" end="255"/></variabledecl>"#;

/// A condition that is false, and names each of them.
const NEVER: &str =
    r#"<transition id="t"><condition><structure><and><subterm><booleanconstant value="false"/></subterm><subterm><equality><subterm><variable refvariable="x1"/></subterm><subterm><variable refvariable="x1"/></subterm></equality></subterm><subterm><equality><subterm><variable refvariable="x2"/></subterm><subterm><variable refvariable="x2"/></subterm></equality></subterm><subterm><equality><subterm><variable refvariable="x3"/></subterm><subterm><variable refvariable="x3"/></subterm></equality></subterm><subterm><equality><subterm><variable refvariable="x4"/></subterm><subterm><variable refvariable="x4"/></subterm></equality></subterm><subterm><equality><subterm><variable refvariable="x5"/></subterm><subterm><variable refvariable="x5"/></subterm></equality></subterm><subterm><equality><subterm><variable refvariable="x6"/></subterm><subterm><variable refvariable="x6"/></subterm></equality></subterm><subterm><equality><subterm><variable refvariable="x7"/></subterm><subterm><variable refvariable="x7"/></subterm></equality></subterm><subterm><equality><subterm><variable refvariable="x8"/></subterm><subterm><variable refvariable="x8"/></subterm></equality></subterm></and></structure></condition></transition>"#;

/// A condition that each of them is 0.
const ZEROS: &str =
    r#"<transition id="t"><condition><structure><and><subterm><equality><subterm><variable refvariable="x1"/></subterm><subterm><finiteintrangeconstant value="0"><finiteintrange start="0" end="255"/></finiteintrangeconstant></subterm></equality></subterm><subterm><equality><subterm><variable refvariable="x2"/></subterm><subterm><finiteintrangeconstant value="0"><finiteintrange start="0" end="255"/></finiteintrangeconstant></subterm></equality></subterm><subterm><equality><subterm><variable refvariable="x3"/></subterm><subterm><finiteintrangeconstant value="0"><finiteintrange start="0" end="255"/></finiteintrangeconstant></subterm></equality></subterm><subterm><equality><subterm><variable refvariable="x4"/></subterm><subterm><finiteintrangeconstant value="0"><finiteintrange start="0" end="255"/></finiteintrangeconstant></subterm></equality></subterm><subterm><equality><subterm><variable refvariable="x5"/></subterm><subterm><finiteintrangeconstant value="0"><finiteintrange start="0" end="255"/></finiteintrangeconstant></subterm></equality></subterm><subterm><equality><subterm><variable refvariable="x6"/></subterm><subterm><finiteintrangeconstant value="0"><finiteintrange start="0" end="255"/></finiteintrangeconstant></subterm></equality></subterm><subterm><equality><subterm><variable refvariable="x7"/></subterm><subterm><finiteintrangeconstant value="0"><finiteintrange start="0" end="255"/></finiteintrangeconstant></subterm></equality></subterm><subterm><equality><subterm><variable refvariable="x8"/></subterm><subterm><finiteintrangeconstant value="0"><finiteintrange start="0" end="255"/></finiteintrangeconstant></subterm></equality></subterm></and></structure></condition></transition>"#;

/// The first two modes of a search.
fn first_two(search: &mut ModeSearch<'_>) -> Result<(Option<Mode>, Option<Mode>), AllocError> {
    let one = search.next()?;
    let two = search.next()?;
    Ok((one, two))
}

/// The first two modes of `t`.
fn first_modes(alloc: Global, net: &Checked) -> Result<(Option<Mode>, Option<Mode>), SearchFault> {
    match net.typed().find_transition("t") {
        Some(transition) => {
            let mut modes = search(alloc, net.typed(), transition)?;
            Ok(first_two(&mut modes)?)
        }
        None => Ok((None, None)),
    }
}

/// What is asked of a net.
#[derive(Clone, Copy)]
enum Asked {
    None,
    Zeros,
    TooLarge,
}

/// There is no mode.
fn finds_none(rt: &impl Abort, alloc: Global, net: &Checked) -> Result<(), Fail> {
    match first_modes(alloc, net) {
        Ok(found) => {
            assert!(rt; found.0.is_none());
            Ok(())
        }
        Err(_) => Err(Fail::from("a fault")),
    }
}

fn finds_zeros(rt: &impl Abort, alloc: Global, net: &Checked) -> Result<(), Fail> {
    match first_modes(alloc, net) {
        Ok(found) => is_all_zeros(rt, found),
        Err(_) => Err(Fail::from("a fault")),
    }
}

/// The sort of the first variable is too large.
fn is_too_large(rt: &impl Abort, alloc: Global, net: &Checked) -> Result<(), Fail> {
    match first_modes(alloc, net) {
        Err(SearchFault::SortTooLarge(v)) => {
            assert!(rt; v == 0);
            Ok(())
        }
        _ => Err(Fail::from("not too large")),
    }
}

fn answer(rt: &impl Abort, alloc: Global, net: &Checked, asked: Asked) -> Result<(), Fail> {
    match asked {
        Asked::None => finds_none(rt, alloc, net),
        Asked::Zeros => finds_zeros(rt, alloc, net),
        Asked::TooLarge => is_too_large(rt, alloc, net),
    }
}

/// Asks this of a net, which is there.
fn ask(rt: &impl Abort, alloc: Global, net: Option<Checked>, asked: Asked) -> Result<(), Fail> {
    match net {
        Some(net) => answer(rt, alloc, &net, asked),
        None => Err(Fail::from("a fault")),
    }
}

/// A mode with eight zeros.
fn has_zeros(rt: &impl Abort, found: Option<Mode>) -> Result<(), Fail> {
    match found {
        Some(mode) => {
            assert!(rt; has_values(&mode, &["0", "0", "0", "0", "0", "0", "0", "0"]));
            Ok(())
        }
        None => Err(Fail::from("no mode")),
    }
}

/// The first mode has eight zeros, and there is no second.
fn is_all_zeros(rt: &impl Abort, found: (Option<Mode>, Option<Mode>)) -> Result<(), Fail> {
    let (first, second) = found;
    if second.is_some() {
        return Err(Fail::from("a second mode"));
    }
    has_zeros(rt, first)
}

/// A variable of more values than are searched, and a condition that names it.
const LARGE: &str =
    r#"<variabledecl id="x1"><finiteintrange start="0" end="16777216"/></variabledecl>"#;

const USED: &str =
    r#"<transition id="t"><condition><structure><equality><subterm><variable refvariable="x1"/></subterm><subterm><variable refvariable="x1"/></subterm></equality></structure></condition></transition>"#;

#[test]
fn a_false_condition_ends_the_search(rt: HostRuntime) -> Result<(), Fail> {
    let net = net_with(rt.alloc(), "symmetricnet", EIGHT, NEVER);
    ask(&rt, rt.alloc(), net, Asked::None)
}

#[test]
fn one_mode_of_many_assignments_is_found(rt: HostRuntime) -> Result<(), Fail> {
    let net = net_with(rt.alloc(), "symmetricnet", EIGHT, ZEROS);
    ask(&rt, rt.alloc(), net, Asked::Zeros)
}

#[test]
fn a_sort_may_have_too_many_values(rt: HostRuntime) -> Result<(), Fail> {
    let net = net_with(rt.alloc(), "symmetricnet", LARGE, USED);
    ask(&rt, rt.alloc(), net, Asked::TooLarge)
}
