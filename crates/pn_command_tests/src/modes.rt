//! Lists of enabled modes, whole and byte by byte.

use crate::coloured::PHILOSOPHERS;
use crate::tests::{expect, net_of};
use pn_command::Status;
use std::alloc::{AllocError, Global};
use std::process::Abort;
use std::test::Fail;

/// That `modes` lists these of the transition.
fn expect_listed(
    rt: &impl Abort,
    alloc: Global,
    document: &str,
    id: &str,
    lines: &str,
) -> Result<(), AllocError> {
    let bytes = document.as_bytes();
    expect(rt, alloc, &["modes", id], bytes, Status::Done, lines, "")
}

/// That `modes` lists none, and says this.
fn expect_unlisted(
    rt: &impl Abort,
    alloc: Global,
    document: &str,
    id: &str,
    status: Status,
    line: &str,
) -> Result<(), AllocError> {
    let bytes = document.as_bytes();
    expect(rt, alloc, &["modes", id], bytes, status, "", line)
}

#[test]
fn enabled_modes_of_philosophers_are_listed(rt: HostRuntime) -> Result<(), Fail> {
    let alloc = rt.alloc();
    let lines = "take[x=c1]\ntake[x=c2]\ntake[x=c3]\ntake[x=c4]\ntake[x=c5]\n";
    expect_listed(&rt, alloc, PHILOSOPHERS, "take", lines)?;
    expect_listed(&rt, alloc, PHILOSOPHERS, "release", "")?;
    Ok(())
}

#[test]
fn unknown_transitions_are_told(rt: HostRuntime) -> Result<(), Fail> {
    let alloc = rt.alloc();
    let refused = Status::Refused;
    let told = "pnml: unknown transition: eat\n";
    expect_unlisted(&rt, alloc, PHILOSOPHERS, "eat", refused, told)?;
    let told = "pnml: unknown transition: take%5Bx%3Dc1%5D\n";
    expect_unlisted(&rt, alloc, PHILOSOPHERS, "take[x=c1]", refused, told)?;
    let told = "pnml: unknown transition: \n";
    expect_unlisted(&rt, alloc, PHILOSOPHERS, "", refused, told)?;
    Ok(())
}

/// What a row tells of `modes t` on a net of the kind, with this in it: kind, status, what is written,
/// with `;` for each line end, what is in it.
fn is_row(rt: &impl Abort, alloc: Global, row: &str) -> Result<(), Fail> {
    let (kind, rest) = row.split_once(" | ").ok_or("no kind")?;
    let (status, rest) = rest.split_once(" | ").ok_or("no status")?;
    let (told, inside) = rest.split_once(" | ").ok_or("no line")?;
    let document = net_of(alloc, kind, inside)?;
    let text = told.replace(alloc, ";", "\n")?;
    let line = text.as_str();
    match status {
        "done" => expect_listed(rt, alloc, document.as_str(), "t", line)?,
        "limit" => expect_unlisted(rt, alloc, document.as_str(), "t", Status::Limit, line)?,
        _ => expect_unlisted(rt, alloc, document.as_str(), "t", Status::Refused, line)?,
    }
    Ok(())
}

/// A variable with an infinite sort; more assignments than are listed; a fault, and no document, which
/// come before; ids and texts with escapes; a condition that no assignment meets.
const ROWS: &str = "\
highlevelnet | refused | pnml: infinite sort: x; | <declaration><structure><declarations><variabledecl id=\"x\"><integer/></variabledecl></declarations></structure></declaration><page id=\"g\"><place id=\"p\"><type><structure><integer/></structure></type><hlinitialMarking><structure><numberconstant value=\"5\"><integer/></numberconstant></structure></hlinitialMarking></place><transition id=\"t\"/><arc id=\"u\" source=\"p\" target=\"t\"><hlinscription><structure><variable refvariable=\"x\"/></structure></hlinscription></arc>
symmetricnet | limit | pnml: limit: 16842752 assignments; | <declaration><structure><declarations><variabledecl id=\"x\"><finiteintrange start=\"0\" end=\"255\"/></variabledecl><variabledecl id=\"y\"><finiteintrange start=\"0\" end=\"255\"/></variabledecl><variabledecl id=\"z\"><finiteintrange start=\"0\" end=\"256\"/></variabledecl></declarations></structure></declaration><page id=\"g\"><transition id=\"t\"><condition><structure><and><subterm><equality><subterm><variable refvariable=\"x\"/></subterm><subterm><variable refvariable=\"y\"/></subterm></equality></subterm><subterm><equality><subterm><variable refvariable=\"z\"/></subterm><subterm><variable refvariable=\"z\"/></subterm></equality></subterm></and></structure></condition></transition>
symmetricnet | done |  | <declaration><structure><declarations><variabledecl id=\"x\"><bool/></variabledecl></declarations></structure></declaration><page id=\"g\"><transition id=\"t\"><condition><structure><inequality><subterm><variable refvariable=\"x\"/></subterm><subterm><variable refvariable=\"x\"/></subterm></inequality></structure></condition></transition>
symmetricnet | done | t[x=-1]; | <declaration><structure><declarations><variabledecl id=\"x\"><finiteintrange start=\"-2\" end=\"2\"/></variabledecl></declarations></structure></declaration><page id=\"g\"><place id=\"p\"><type><structure><finiteintrange start=\"-2\" end=\"2\"/></structure></type><hlinitialMarking><structure><finiteintrangeconstant value=\"-1\"><finiteintrange start=\"-2\" end=\"2\"/></finiteintrangeconstant></structure></hlinitialMarking></place><transition id=\"t\"/><arc id=\"u\" source=\"p\" target=\"t\"><hlinscription><structure><variable refvariable=\"x\"/></structure></hlinscription></arc>
ptnet | done | t[]; | <page id=\"g\"><transition id=\"t\"/>
ptnet | done |  | <page id=\"g\"><place id=\"p\"/><transition id=\"t\"/><arc id=\"u\" source=\"p\" target=\"t\"/>
ptnet | refused | pnml: byte 139: unknown element: x; | <page id=\"g\"><x/>
ptnet | refused | pnml: unknown transition: t; | <page id=\"g\"><transition id=\"s\"/>";

#[test]
fn modes_are_listed_or_refused(rt: HostRuntime) -> Result<(), Fail> {
    for row in ROWS.lines() {
        is_row(&rt, rt.alloc(), row)?;
    }
    Ok(())
}
