//! All modes of a transition at once, on worked nets.

use pn_checks::Checked;
use pn_modes::{ModesFault, enabled, modes_of};
use pn_net::Mode;
use pn_net_samples::{CHAIN, SQUARE, is_sound_mode, net_of, net_with, value_of};
use sqlite_items::Items;
use std::alloc::{AllocError, Global};
use std::process::Abort;
use std::test::Fail;

/// All modes of a transition, or those that are enabled at the initial marking.
fn listed(
    alloc: Global,
    net: &Checked,
    id: &str,
    is_enabled: bool,
) -> Option<Result<Vec<Mode>, ModesFault>> {
    let transition = net.typed().find_transition(id)?;
    if is_enabled {
        Some(enabled(alloc, net.typed(), transition, net.initial()))
    } else {
        Some(modes_of(alloc, net.typed(), transition))
    }
}

/// Whether a mode has these values.
pub(crate) fn has_values(mode: &Mode, words: &[&str]) -> bool {
    let values = mode.values.as_slice();
    if values.len() != words.len() {
        return false;
    }
    for i in 0..words.len() {
        if values[i] != value_of(words[i]) {
            return false;
        }
    }
    true
}

/// Whether these modes have the values of these rows, one by one.
fn are_rows(modes: &[Mode], rows: &[&[&str]]) -> bool {
    if modes.len() != rows.len() {
        return false;
    }
    for i in 0..rows.len() {
        if !has_values(&modes[i], rows[i]) {
            return false;
        }
    }
    true
}

/// All modes of a transition have the values of these rows.
fn lists(
    rt: &impl Abort,
    alloc: Global,
    net: &Checked,
    id: &str,
    rows: &[&[&str]],
) -> Result<(), Fail> {
    match listed(alloc, net, id, false) {
        Some(Ok(modes)) => {
            assert!(rt; are_rows(&modes, rows));
            Ok(())
        }
        _ => Err(Fail::from("no list")),
    }
}

/// The modes of a transition that are enabled at the initial marking have the values of these rows.
fn enables(
    rt: &impl Abort,
    alloc: Global,
    net: &Checked,
    id: &str,
    rows: &[&[&str]],
) -> Result<(), Fail> {
    match listed(alloc, net, id, true) {
        Some(Ok(modes)) => {
            assert!(rt; are_rows(&modes, rows));
            Ok(())
        }
        _ => Err(Fail::from("no list")),
    }
}

/// A transition has too many assignments: so many.
fn has_many(
    rt: &impl Abort,
    alloc: Global,
    net: &Checked,
    id: &str,
    is_enabled: bool,
    count: u128,
) -> Result<(), Fail> {
    match listed(alloc, net, id, is_enabled) {
        Some(Err(ModesFault::TooManyAssignments(n))) => {
            assert!(rt; n == count);
            Ok(())
        }
        _ => Err(Fail::from("not too many")),
    }
}

/// The first variable of a transition with an infinite sort is that of this number.
fn is_infinite(
    rt: &impl Abort,
    alloc: Global,
    net: &Checked,
    id: &str,
    number: u32,
) -> Result<(), Fail> {
    match listed(alloc, net, id, false) {
        Some(Err(ModesFault::InfiniteSort(v))) => {
            assert!(rt; v == number);
            Ok(())
        }
        _ => Err(Fail::from("not infinite")),
    }
}

/// What is asked of a net.
#[derive(Clone, Copy)]
enum Asked {
    Plain,
    Table,
    Integers,
    Arcs,
    Either,
    Never,
    TooMany,
    Tried,
}

fn one_mode(rt: &impl Abort, alloc: Global, net: &Checked) -> Result<(), Fail> {
    lists(rt, alloc, net, "t", &[&[]])?;
    enables(rt, alloc, net, "t", &[&[]])
}

fn one_is_zero(rt: &impl Abort, alloc: Global, net: &Checked) -> Result<(), Fail> {
    lists(
        rt,
        alloc,
        net,
        "o",
        &[&["0", "0"], &["0", "1"], &["1", "0"]],
    )
}

fn too_many(rt: &impl Abort, alloc: Global, net: &Checked) -> Result<(), Fail> {
    has_many(rt, alloc, net, "t", false, 16842752)?;
    has_many(rt, alloc, net, "t", true, 16842752)
}

fn all_tried(rt: &impl Abort, alloc: Global, net: &Checked) -> Result<(), Fail> {
    agrees(rt, alloc, net, "w", &["c1", "c2"])?;
    agrees(rt, alloc, net, "s", &["c1", "c2"])
}

fn answer(rt: &impl Abort, alloc: Global, net: &Checked, asked: Asked) -> Result<(), Fail> {
    match asked {
        Asked::Plain => one_mode(rt, alloc, net),
        Asked::Table => modes_at_a_table(rt, alloc, net),
        Asked::Integers => is_infinite(rt, alloc, net, "t", 0),
        Asked::Arcs => modes_by_arcs(rt, alloc, net),
        Asked::Either => one_is_zero(rt, alloc, net),
        Asked::Never => lists(rt, alloc, net, "t", &[]),
        Asked::TooMany => too_many(rt, alloc, net),
        Asked::Tried => all_tried(rt, alloc, net),
    }
}

/// Asks this of a net, which is there.
fn ask(rt: &impl Abort, alloc: Global, net: Option<Checked>, asked: Asked) -> Result<(), Fail> {
    match net {
        Some(net) => answer(rt, alloc, &net, asked),
        None => Err(Fail::from("a fault")),
    }
}

#[test]
fn a_transition_without_variables_has_one_mode(rt: HostRuntime) -> Result<(), Fail> {
    ask(&rt, rt.alloc(), net_of(rt.alloc(), CHAIN), Asked::Plain)
}

/// Five philosophers, the sort of their constants, and a variable of it.
const PHILOSOPHERS: &str =
    r#"<namedsort id="P"><cyclicenumeration><feconstant id="c1"/><feconstant id="c2"/><feconstant id="c3"/><feconstant id="c4"/><feconstant id="c5"/></cyclicenumeration></namedsort><variabledecl id="x"><usersort declaration="P"/></variabledecl>"#;

/// Who eats has two forks: `take` takes x and the one behind it from `fork`, `release` gives them back.
const TABLE: &str =
    r#"<place id="fork"><type><structure><usersort declaration="P"/></structure></type><hlinitialMarking><structure><all><usersort declaration="P"/></all></structure></hlinitialMarking></place><place id="eat"><type><structure><usersort declaration="P"/></structure></type></place><transition id="take"/><transition id="release"/><arc id="a" source="fork" target="take"><hlinscription><structure><add><subterm><numberof><subterm><variable refvariable="x"/></subterm></numberof></subterm><subterm><numberof><subterm><successor><subterm><variable refvariable="x"/></subterm></successor></subterm></numberof></subterm></add></structure></hlinscription></arc><arc id="b" source="take" target="eat"><hlinscription><structure><variable refvariable="x"/></structure></hlinscription></arc><arc id="c" source="eat" target="release"><hlinscription><structure><variable refvariable="x"/></structure></hlinscription></arc>"#;

fn modes_at_a_table(rt: &impl Abort, alloc: Global, net: &Checked) -> Result<(), Fail> {
    let all: &[&[&str]] = &[&["c1"], &["c2"], &["c3"], &["c4"], &["c5"]];
    enables(rt, alloc, net, "take", all)?;
    enables(rt, alloc, net, "release", &[])?;
    lists(rt, alloc, net, "release", all)
}

#[test]
fn enabled_modes_ascend(rt: HostRuntime) -> Result<(), Fail> {
    let net = net_with(rt.alloc(), "symmetricnet", PHILOSOPHERS, TABLE);
    ask(&rt, rt.alloc(), net, Asked::Table)
}

#[test]
fn integers_are_not_listed(rt: HostRuntime) -> Result<(), Fail> {
    ask(&rt, rt.alloc(), net_of(rt.alloc(), SQUARE), Asked::Integers)
}

/// Two constants and a variable.
const PAIR: &str =
    r#"<namedsort id="e"><finiteenumeration><feconstant id="c1"/><feconstant id="c2"/></finiteenumeration></namedsort><variabledecl id="x"><usersort declaration="e"/></variabledecl>"#;

/// `k` takes the first constant, `f` has a false condition, `w` takes x twice, `s` takes all less two x.
const MARKED: &str =
    r#"<place id="p"><type><structure><usersort declaration="e"/></structure></type><hlinitialMarking><structure><add><subterm><all><usersort declaration="e"/></all></subterm><subterm><numberof><subterm><useroperator declaration="c2"/></subterm></numberof></subterm></add></structure></hlinitialMarking></place><transition id="k"/><transition id="f"><condition><structure><booleanconstant value="false"/></structure></condition></transition><transition id="w"/><transition id="s"/><arc id="1" source="p" target="k"><hlinscription><structure><useroperator declaration="c1"/></structure></hlinscription></arc><arc id="2" source="p" target="w"><hlinscription><structure><variable refvariable="x"/></structure></hlinscription></arc><arc id="3" source="p" target="w"><hlinscription><structure><variable refvariable="x"/></structure></hlinscription></arc><arc id="4" source="p" target="s"><hlinscription><structure><subtract><subterm><all><usersort declaration="e"/></all></subterm><subterm><numberof><subterm><variable refvariable="x"/></subterm></numberof></subterm><subterm><numberof><subterm><variable refvariable="x"/></subterm></numberof></subterm></subtract></structure></hlinscription></arc>"#;

fn modes_by_arcs(rt: &impl Abort, alloc: Global, net: &Checked) -> Result<(), Fail> {
    lists(rt, alloc, net, "k", &[&[]])?;
    lists(rt, alloc, net, "f", &[])?;
    lists(rt, alloc, net, "w", &[&["c1"], &["c2"]])?;
    enables(rt, alloc, net, "w", &[&["c2"]])?;
    lists(rt, alloc, net, "s", &[])
}

#[test]
fn totals_decide_what_is_a_mode(rt: HostRuntime) -> Result<(), Fail> {
    let net = net_with(rt.alloc(), "symmetricnet", PAIR, MARKED);
    ask(&rt, rt.alloc(), net, Asked::Arcs)
}

/// Two variables of two numbers.
const TWO: &str =
    r#"<variabledecl id="x"><finiteintrange start="0" end="1"/></variabledecl><variabledecl id="y"><finiteintrange start="0" end="1"/></variabledecl>"#;

/// `o` wants one of both to be 0.
const EITHER: &str =
    r#"<transition id="o"><condition><structure><or><subterm><equality><subterm><variable refvariable="x"/></subterm><subterm><finiteintrangeconstant value="0"><finiteintrange start="0" end="1"/></finiteintrangeconstant></subterm></equality></subterm><subterm><equality><subterm><variable refvariable="y"/></subterm><subterm><finiteintrangeconstant value="0"><finiteintrange start="0" end="1"/></finiteintrangeconstant></subterm></equality></subterm></or></structure></condition></transition>"#;

#[test]
fn a_part_of_an_or_leaves_nothing_out(rt: HostRuntime) -> Result<(), Fail> {
    let net = net_with(rt.alloc(), "symmetricnet", TWO, EITHER);
    ask(&rt, rt.alloc(), net, Asked::Either)
}

/// Three variables of 256, 256 and 256 or 257 values.
const MANY: &str =
    r#"<variabledecl id="x"><finiteintrange start="0" end="255"/></variabledecl><variabledecl id="y"><finiteintrange start="0" end="255"/></variabledecl><variabledecl id="z"><finiteintrange start="0" end="255"/></variabledecl>"#;

const MORE: &str =
    r#"<variabledecl id="x"><finiteintrange start="0" end="255"/></variabledecl><variabledecl id="y"><finiteintrange start="0" end="255"/></variabledecl><variabledecl id="z"><finiteintrange start="0" end="256"/></variabledecl>"#;

/// A condition that is false, and names each of them.
const NEVER: &str =
    r#"<transition id="t"><condition><structure><and><subterm><booleanconstant value="false"/></subterm><subterm><equality><subterm><variable refvariable="x"/></subterm><subterm><variable refvariable="x"/></subterm></equality></subterm><subterm><equality><subterm><variable refvariable="y"/></subterm><subterm><variable refvariable="y"/></subterm></equality></subterm><subterm><equality><subterm><variable refvariable="z"/></subterm><subterm><variable refvariable="z"/></subterm></equality></subterm></and></structure></condition></transition>"#;

#[test]
fn assignments_have_a_greatest_number(rt: HostRuntime) -> Result<(), Fail> {
    let net = net_with(rt.alloc(), "symmetricnet", MANY, NEVER);
    ask(&rt, rt.alloc(), net, Asked::Never)
}

#[test]
fn one_assignment_more_is_too_many(rt: HostRuntime) -> Result<(), Fail> {
    let net = net_with(rt.alloc(), "symmetricnet", MORE, NEVER);
    ask(&rt, rt.alloc(), net, Asked::TooMany)
}

/// Those of these values of `x` with which a transition is a mode: all assignments are tried, and none
/// is left out.
fn plain_modes(
    alloc: Global,
    net: &Checked,
    id: &str,
    words: &[&str],
) -> Result<Vec<Mode>, AllocError> {
    let mut modes = Vec::new(alloc);
    let Some(transition) = net.typed().find_transition(id) else {
        return Ok(modes);
    };
    for word in words {
        let mut values = Items::new(alloc);
        values.push(value_of(word))?;
        let mode = Mode { transition, values };
        if is_sound_mode(alloc, net.typed(), &mode)? {
            modes.push(mode)?;
        }
    }
    Ok(modes)
}

/// The modes of a transition are those that are found where all assignments are tried.
fn agrees(
    rt: &impl Abort,
    alloc: Global,
    net: &Checked,
    id: &str,
    words: &[&str],
) -> Result<(), Fail> {
    let plain = plain_modes(alloc, net, id, words)?;
    match listed(alloc, net, id, false) {
        Some(Ok(modes)) => {
            assert!(rt; modes.as_slice() == plain.as_slice());
            Ok(())
        }
        _ => Err(Fail::from("no list")),
    }
}

#[test]
fn lists_are_what_all_assignments_give(rt: HostRuntime) -> Result<(), Fail> {
    let net = net_with(rt.alloc(), "symmetricnet", PAIR, MARKED);
    ask(&rt, rt.alloc(), net, Asked::Tried)
}
