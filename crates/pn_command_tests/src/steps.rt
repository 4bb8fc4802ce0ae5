//! Steps by words, whole and byte by byte.

use crate::coloured::PHILOSOPHERS;
use crate::tests::{expect, expect_checked, expect_text, net_of};
use pn_command::Status;
use std::alloc::{AllocError, Global};
use std::process::Abort;
use std::test::Fail;

/// The command with these modes behind it, of which each ends at a space.
fn words_of<'a>(alloc: Global, modes: &'a str) -> Result<Vec<&'a str>, AllocError> {
    let mut words = Vec::new(alloc);
    words.push("step")?;
    for word in modes.split(' ') {
        words.push(word)?;
    }
    Ok(words)
}

/// That `step` ends so with these modes.
fn expect_step(
    rt: &impl Abort,
    alloc: Global,
    modes: &str,
    document: &str,
    status: Status,
    out: &str,
    err: &str,
) -> Result<(), AllocError> {
    let words = words_of(alloc, modes)?;
    let bytes = document.as_bytes();
    expect(rt, alloc, &words, bytes, status, out, err)
}

/// That these modes lead to this text.
fn expect_led(
    rt: &impl Abort,
    alloc: Global,
    modes: &str,
    document: &str,
    text: &str,
) -> Result<(), AllocError> {
    expect_step(rt, alloc, modes, document, Status::Done, text, "")
}

/// That these modes do not fire, and that this is told.
fn expect_unled(
    rt: &impl Abort,
    alloc: Global,
    modes: &str,
    document: &str,
    told: &str,
) -> Result<(), AllocError> {
    let status = if told.starts_with("limit") {
        Status::Limit
    } else {
        Status::Refused
    };
    let line = format!(in alloc; "pnml: {told}\n")?;
    expect_step(rt, alloc, modes, document, status, "", line.as_str())
}

/// What is told of the modes of each row: modes, line.
fn expect_each_unled(
    rt: &impl Abort,
    alloc: Global,
    document: &str,
    rows: &str,
) -> Result<(), Fail> {
    for row in rows.lines() {
        let (modes, told) = row.split_once(" | ").ok_or("no line")?;
        expect_unled(rt, alloc, modes, document, told)?;
    }
    Ok(())
}

/// That the rows are told of a net of this kind, with this in it.
fn expect_unled_in(
    rt: &impl Abort,
    alloc: Global,
    kind: &str,
    inside: &str,
    rows: &str,
) -> Result<(), Fail> {
    let document = net_of(alloc, kind, inside)?;
    expect_each_unled(rt, alloc, document.as_str(), rows)
}

/// What `step take[x=c1] take[x=c3]` writes for the philosophers.
const FED: &str =
    "<?xml version=\"1.0\" encoding=\"UTF-8\"?>\n<pnml xmlns=\"http://www.pnml.org/version-2009/grammar/pnml\"><net id=\"philosophers\" type=\"http://www.pnml.org/version-2009/grammar/symmetricnet\"><declaration><structure><declarations><namedsort id=\"P\" name=\"P\"><cyclicenumeration><feconstant id=\"c1\" name=\"c1\"/><feconstant id=\"c2\" name=\"c2\"/><feconstant id=\"c3\" name=\"c3\"/><feconstant id=\"c4\" name=\"c4\"/><feconstant id=\"c5\" name=\"c5\"/></cyclicenumeration></namedsort><variabledecl id=\"x\" name=\"x\"><usersort declaration=\"P\"/></variabledecl></declarations></structure></declaration><page id=\"page\"><place id=\"think\"><type><structure><usersort declaration=\"P\"/></structure></type><hlinitialMarking><structure><add><subterm><numberof><subterm><numberconstant value=\"1\"><positive/></numberconstant></subterm><subterm><useroperator declaration=\"c2\"/></subterm></numberof></subterm><subterm><numberof><subterm><numberconstant value=\"1\"><positive/></numberconstant></subterm><subterm><useroperator declaration=\"c4\"/></subterm></numberof></subterm><subterm><numberof><subterm><numberconstant value=\"1\"><positive/></numberconstant></subterm><subterm><useroperator declaration=\"c5\"/></subterm></numberof></subterm></add></structure></hlinitialMarking></place><place id=\"eat\"><type><structure><usersort declaration=\"P\"/></structure></type><hlinitialMarking><structure><add><subterm><numberof><subterm><numberconstant value=\"1\"><positive/></numberconstant></subterm><subterm><useroperator declaration=\"c1\"/></subterm></numberof></subterm><subterm><numberof><subterm><numberconstant value=\"1\"><positive/></numberconstant></subterm><subterm><useroperator declaration=\"c3\"/></subterm></numberof></subterm></add></structure></hlinitialMarking></place><place id=\"fork\"><type><structure><usersort declaration=\"P\"/></structure></type><hlinitialMarking><structure><numberof><subterm><numberconstant value=\"1\"><positive/></numberconstant></subterm><subterm><useroperator declaration=\"c5\"/></subterm></numberof></structure></hlinitialMarking></place><transition id=\"take\"/><transition id=\"release\"/><arc id=\"a1\" source=\"think\" target=\"take\"><hlinscription><structure><numberof><subterm><numberconstant value=\"1\"><positive/></numberconstant></subterm><subterm><variable refvariable=\"x\"/></subterm></numberof></structure></hlinscription></arc><arc id=\"a2\" source=\"fork\" target=\"take\"><hlinscription><structure><add><subterm><numberof><subterm><numberconstant value=\"1\"><positive/></numberconstant></subterm><subterm><variable refvariable=\"x\"/></subterm></numberof></subterm><subterm><numberof><subterm><numberconstant value=\"1\"><positive/></numberconstant></subterm><subterm><successor><subterm><variable refvariable=\"x\"/></subterm></successor></subterm></numberof></subterm></add></structure></hlinscription></arc><arc id=\"a3\" source=\"take\" target=\"eat\"><hlinscription><structure><numberof><subterm><numberconstant value=\"1\"><positive/></numberconstant></subterm><subterm><variable refvariable=\"x\"/></subterm></numberof></structure></hlinscription></arc><arc id=\"a4\" source=\"eat\" target=\"release\"><hlinscription><structure><numberof><subterm><numberconstant value=\"1\"><positive/></numberconstant></subterm><subterm><variable refvariable=\"x\"/></subterm></numberof></structure></hlinscription></arc><arc id=\"a5\" source=\"release\" target=\"think\"><hlinscription><structure><numberof><subterm><numberconstant value=\"1\"><positive/></numberconstant></subterm><subterm><variable refvariable=\"x\"/></subterm></numberof></structure></hlinscription></arc><arc id=\"a6\" source=\"release\" target=\"fork\"><hlinscription><structure><add><subterm><numberof><subterm><numberconstant value=\"1\"><positive/></numberconstant></subterm><subterm><variable refvariable=\"x\"/></subterm></numberof></subterm><subterm><numberof><subterm><numberconstant value=\"1\"><positive/></numberconstant></subterm><subterm><successor><subterm><variable refvariable=\"x\"/></subterm></successor></subterm></numberof></subterm></add></structure></hlinscription></arc></page></net></pnml>\n";

#[test]
fn what_a_step_writes_reads_back(rt: HostRuntime) -> Result<(), Fail> {
    let alloc = rt.alloc();
    expect_led(&rt, alloc, "take[x=c1] take[x=c3]", PHILOSOPHERS, FED)?;
    let line = "symmetricnet places 3 transitions 2 arcs 6 tokens 6\n";
    expect_checked(&rt, alloc, FED, line)?;
    expect_text(&rt, alloc, FED, FED)?;
    expect_modes(&rt, alloc, "take", "")?;
    expect_modes(&rt, alloc, "release", "release[x=c1]\nrelease[x=c3]\n")?;
    Ok(())
}

/// That these modes of the transition are enabled behind that step.
fn expect_modes(rt: &impl Abort, alloc: Global, id: &str, lines: &str) -> Result<(), AllocError> {
    let bytes = FED.as_bytes();
    expect(rt, alloc, &["modes", id], bytes, Status::Done, lines, "")
}

/// Puts a constant once, as a multiset.
fn push_once(text: &mut String, constant: &str) -> Result<(), AllocError> {
    text.push_str(
        "<numberof><subterm><numberconstant value=\"1\"><positive/></numberconstant></subterm><subterm><useroperator declaration=\"",
    )?;
    text.push_str(constant)?;
    text.push_str("\"/></subterm></numberof>")
}

/// Puts several constants once each, as a multiset.
fn push_each(text: &mut String, constants: &str) -> Result<(), AllocError> {
    text.push_str("<add>")?;
    for constant in constants.split(' ') {
        text.push_str("<subterm>")?;
        push_once(text, constant)?;
        text.push_str("</subterm>")?;
    }
    text.push_str("</add>")
}

/// Puts a place of the philosophers' net with these constants on it.
fn push_place(text: &mut String, id: &str, constants: &str) -> Result<(), AllocError> {
    text.push_str("<place id=\"")?;
    text.push_str(id)?;
    text.push_str(
        "\"><type><structure><usersort declaration=\"P\"/></structure></type><hlinitialMarking><structure>",
    )?;
    if constants.contains(' ') {
        push_each(text, constants)?;
    } else {
        push_once(text, constants)?;
    }
    text.push_str("</structure></hlinitialMarking></place>")
}

/// The text of the philosophers' net with these constants on its places.
fn laid(alloc: Global, think: &str, eat: &str, fork: &str) -> Result<String, Fail> {
    let (front, _) = PHILOSOPHERS.split_once("<place ").ok_or("no place")?;
    let (_, back) = PHILOSOPHERS
        .split_once("<transition ")
        .ok_or("no transition")?;
    let mut text = format!(in alloc; "<?xml version=\"1.0\" encoding=\"UTF-8\"?>\n{front}")?;
    push_place(&mut text, "think", think)?;
    push_place(&mut text, "eat", eat)?;
    push_place(&mut text, "fork", fork)?;
    text.push_str("<transition ")?;
    text.push_str(back)?;
    text.push('\n')?;
    Ok(text)
}

/// What each mode of `take` leads to: mode, who thinks, who eats, which forks lie there.
const MEALS: &str = "\
take[x=c1] | c2 c3 c4 c5 | c1 | c3 c4 c5
take[x=c2] | c1 c3 c4 c5 | c2 | c1 c4 c5
take[x=c3] | c1 c2 c4 c5 | c3 | c1 c2 c5
take[x=c4] | c1 c2 c3 c5 | c4 | c1 c2 c3
take[x=c5] | c1 c2 c3 c4 | c5 | c2 c3 c4";

/// That the mode of a row leads to the marking of the row.
fn is_meal(rt: &impl Abort, alloc: Global, row: &str) -> Result<(), Fail> {
    let (mode, rest) = row.split_once(" | ").ok_or("no mode")?;
    let (think, rest) = rest.split_once(" | ").ok_or("nobody thinks")?;
    let (eat, fork) = rest.split_once(" | ").ok_or("nobody eats")?;
    let text = laid(alloc, think, eat, fork)?;
    expect_led(rt, alloc, mode, PHILOSOPHERS, text.as_str())?;
    Ok(())
}

#[test]
fn each_listed_mode_fires_alone(rt: HostRuntime) -> Result<(), Fail> {
    for row in MEALS.lines() {
        is_meal(&rt, rt.alloc(), row)?;
    }
    Ok(())
}

/// Steps of philosophers that do not fire, and words that are no mode words: counts of 0 or with a
/// leading zero, unknown transitions, other variables, more and less than a mode; which word is told.
const HUNGRY: &str = "\
take[x=c1] take[x=c2] | not enabled: fork{c2} needs 2 has 1
2*take[x=c1] | not enabled: think{c1} needs 2 has 1
take[x=c3] 1*take[x=c3] | not enabled: think{c3} needs 2 has 1
release[x=c1] | not enabled: eat{c1} needs 1 has 0
take[x=c5] take[x=c4] | not enabled: fork{c5} needs 2 has 1
 | word 2: bad mode at byte 0
eat[] | word 2: bad mode at byte 0
tale | word 2: bad mode at byte 2
take | word 2: bad mode at byte 4
take[] | word 2: bad mode at byte 5
take[x=c6] | word 2: bad mode at byte 8
take[x=c1 | word 2: bad mode at byte 9
take[x=c1]] | word 2: bad mode at byte 10
retake[x=c1] | word 2: bad mode at byte 2
release[y=c1] | word 2: bad mode at byte 8
take[x=c1,x=c2] | word 2: bad mode at byte 9
0*take[x=c1] | word 2: bad mode at byte 0
02*take[x=c1] | word 2: bad mode at byte 0
-1*take[x=c1] | word 2: bad mode at byte 0
*take[x=c1] | word 2: bad mode at byte 0
2take[x=c1] | word 2: bad mode at byte 1
2* | word 2: bad mode at byte 2
2*2*take[x=c1] | word 2: bad mode at byte 2
10*take[x=c7] | word 2: bad mode at byte 11
take[x=c1] take[x=c0] | word 3: bad mode at byte 8
take[x=c1] take[x=c2] take | word 4: bad mode at byte 4
take[x=c1] 2* tale | word 3: bad mode at byte 2
take[x=c1] take[x=c2]  | word 4: bad mode at byte 0";

#[test]
fn modes_of_philosophers_are_told(rt: HostRuntime) -> Result<(), Fail> {
    expect_each_unled(&rt, rt.alloc(), PHILOSOPHERS, HUNGRY)
}

/// That the words of a row lead from one net to another: kind, modes, what is in the one, what is
/// in the other.
fn is_led(rt: &impl Abort, alloc: Global, row: &str) -> Result<(), Fail> {
    let (kind, rest) = row.split_once(" | ").ok_or("no kind")?;
    let (modes, rest) = rest.split_once(" | ").ok_or("no modes")?;
    let (before, after) = rest.split_once(" => ").ok_or("no second net")?;
    let document = net_of(alloc, kind, before)?;
    let other = net_of(alloc, kind, after)?;
    let text = format!(in alloc; "<?xml version=\"1.0\" encoding=\"UTF-8\"?>\n{other}\n")?;
    expect_led(rt, alloc, modes, document.as_str(), text.as_str())?;
    Ok(())
}

/// Counts that add up; a mode that moves nothing; values past a range of numbers; markings written
/// anew, without what else stood in them; arcs that add up; references; ids with escapes; a term of
/// each sort of value.
const LED: &str = "\
ptnet | 3*t[] | <page id=\"g\"><place id=\"a\"><initialMarking><text>3</text></initialMarking></place><place id=\"b\"/><transition id=\"t\"/><arc id=\"u\" source=\"a\" target=\"t\"/><arc id=\"v\" source=\"t\" target=\"b\"/> => <page id=\"g\"><place id=\"a\"/><place id=\"b\"><initialMarking><text>3</text></initialMarking></place><transition id=\"t\"/><arc id=\"u\" source=\"a\" target=\"t\"/><arc id=\"v\" source=\"t\" target=\"b\"/>
ptnet | t[] 1*t[] | <page id=\"g\"><place id=\"a\"><initialMarking><text>3</text></initialMarking></place><place id=\"b\"/><transition id=\"t\"/><arc id=\"u\" source=\"a\" target=\"t\"/><arc id=\"v\" source=\"t\" target=\"b\"/> => <page id=\"g\"><place id=\"a\"><initialMarking><text>1</text></initialMarking></place><place id=\"b\"><initialMarking><text>2</text></initialMarking></place><transition id=\"t\"/><arc id=\"u\" source=\"a\" target=\"t\"/><arc id=\"v\" source=\"t\" target=\"b\"/>
ptnet | 9223372036854775807*o[] | <page id=\"g\"><place id=\"b\"><initialMarking><text>9223372036854775807</text></initialMarking></place><transition id=\"t\"/><transition id=\"o\"/><arc id=\"v\" source=\"t\" target=\"b\"/> => <page id=\"g\"><place id=\"b\"><initialMarking><text>9223372036854775807</text></initialMarking></place><transition id=\"t\"/><transition id=\"o\"/><arc id=\"v\" source=\"t\" target=\"b\"/>
highlevelnet | t[x=5] | <declaration><structure><declarations><variabledecl id=\"x\"><integer/></variabledecl></declarations></structure></declaration><page id=\"g\"><place id=\"p\"><type><structure><integer/></structure></type><hlinitialMarking><structure><numberconstant value=\"5\"><integer/></numberconstant></structure></hlinitialMarking></place><transition id=\"t\"/><arc id=\"u\" source=\"p\" target=\"t\"><hlinscription><structure><variable refvariable=\"x\"/></structure></hlinscription></arc><arc id=\"v\" source=\"t\" target=\"p\"><hlinscription><structure><mult><subterm><variable refvariable=\"x\"/></subterm><subterm><variable refvariable=\"x\"/></subterm></mult></structure></hlinscription></arc> => <declaration><structure><declarations><variabledecl id=\"x\"><integer/></variabledecl></declarations></structure></declaration><page id=\"g\"><place id=\"p\"><type><structure><integer/></structure></type><hlinitialMarking><structure><numberof><subterm><numberconstant value=\"1\"><positive/></numberconstant></subterm><subterm><numberconstant value=\"25\"><integer/></numberconstant></subterm></numberof></structure></hlinitialMarking></place><transition id=\"t\"/><arc id=\"u\" source=\"p\" target=\"t\"><hlinscription><structure><variable refvariable=\"x\"/></structure></hlinscription></arc><arc id=\"v\" source=\"t\" target=\"p\"><hlinscription><structure><mult><subterm><variable refvariable=\"x\"/></subterm><subterm><variable refvariable=\"x\"/></subterm></mult></structure></hlinscription></arc>
ptnet | t[] | <page id=\"g\"><place id=\"a\"><name><text>A</text></name><initialMarking><text>03</text><toolspecific tool=\"d\" version=\"1\"/></initialMarking></place><place id=\"c\"><initialMarking><text>1</text><toolspecific tool=\"d\" version=\"1\"/></initialMarking><toolspecific tool=\"d\" version=\"1\"/></place><transition id=\"t\"/><arc id=\"u\" source=\"a\" target=\"t\"/> => <page id=\"g\"><place id=\"a\"><name><text>A</text></name><initialMarking><text>2</text></initialMarking></place><place id=\"c\"><toolspecific tool=\"d\" version=\"1\"/><initialMarking><text>1</text></initialMarking></place><transition id=\"t\"/><arc id=\"u\" source=\"a\" target=\"t\"/>
ptnet | t[] | <page id=\"g\"><place id=\"a\"><initialMarking><text>4</text></initialMarking></place><transition id=\"t\"/><arc id=\"u\" source=\"a\" target=\"t\"><inscription><text>2</text></inscription></arc><arc id=\"v\" source=\"a\" target=\"t\"/> => <page id=\"g\"><place id=\"a\"><initialMarking><text>1</text></initialMarking></place><transition id=\"t\"/><arc id=\"u\" source=\"a\" target=\"t\"><inscription><text>2</text></inscription></arc><arc id=\"v\" source=\"a\" target=\"t\"/>
ptnet | t[] | <page id=\"g\"><referencePlace id=\"r\" ref=\"a\"/><transition id=\"t\"/><arc id=\"u\" source=\"r\" target=\"t\"/><page id=\"h\"><place id=\"a\"><initialMarking><text>1</text></initialMarking></place></page> => <page id=\"g\"><place id=\"a\"/><transition id=\"t\"/><arc id=\"u\" source=\"a\" target=\"t\"/>
ptnet | t%2A2[] | <page id=\"g\"><place id=\"a{\"><initialMarking><text>1</text></initialMarking></place><transition id=\"t*2\"/><arc id=\"u\" source=\"a{\" target=\"t*2\"/> => <page id=\"g\"><place id=\"a{\"/><transition id=\"t*2\"/><arc id=\"u\" source=\"a{\" target=\"t*2\"/>
symmetricnet | 2*t[] | <page id=\"g\"><place id=\"p\"><type><structure><dot/></structure></type></place><transition id=\"t\"/><arc id=\"u\" source=\"t\" target=\"p\"><hlinscription><structure><numberof><subterm><numberconstant value=\"3\"><integer/></numberconstant></subterm><subterm><dotconstant/></subterm></numberof></structure></hlinscription></arc> => <page id=\"g\"><place id=\"p\"><type><structure><dot/></structure></type><hlinitialMarking><structure><numberof><subterm><numberconstant value=\"6\"><positive/></numberconstant></subterm><subterm><dotconstant/></subterm></numberof></structure></hlinitialMarking></place><transition id=\"t\"/><arc id=\"u\" source=\"t\" target=\"p\"><hlinscription><structure><numberof><subterm><numberconstant value=\"3\"><integer/></numberconstant></subterm><subterm><dotconstant/></subterm></numberof></structure></hlinscription></arc>
symmetricnet | t[x=(true,-1)] | <declaration><structure><declarations><variabledecl id=\"x\"><productsort><bool/><finiteintrange start=\"-2\" end=\"2\"/></productsort></variabledecl></declarations></structure></declaration><page id=\"g\"><place id=\"p\"><type><structure><productsort><bool/><finiteintrange start=\"-2\" end=\"2\"/></productsort></structure></type><hlinitialMarking><structure><add><subterm><numberof><subterm><numberconstant value=\"1\"><positive/></numberconstant></subterm><subterm><tuple><subterm><booleanconstant value=\"true\"/></subterm><subterm><finiteintrangeconstant value=\"-1\"><finiteintrange start=\"-2\" end=\"2\"/></finiteintrangeconstant></subterm></tuple></subterm></numberof></subterm><subterm><numberof><subterm><numberconstant value=\"2\"><positive/></numberconstant></subterm><subterm><tuple><subterm><booleanconstant value=\"false\"/></subterm><subterm><finiteintrangeconstant value=\"2\"><finiteintrange start=\"-2\" end=\"2\"/></finiteintrangeconstant></subterm></tuple></subterm></numberof></subterm></add></structure></hlinitialMarking></place><place id=\"q\"><type><structure><productsort><bool/><finiteintrange start=\"-2\" end=\"2\"/></productsort></structure></type><hlinitialMarking><structure><tuple><subterm><booleanconstant value=\"false\"/></subterm><subterm><finiteintrangeconstant value=\"0\"><finiteintrange start=\"-2\" end=\"2\"/></finiteintrangeconstant></subterm></tuple></structure></hlinitialMarking></place><transition id=\"t\"/><arc id=\"u\" source=\"p\" target=\"t\"><hlinscription><structure><variable refvariable=\"x\"/></structure></hlinscription></arc><arc id=\"v\" source=\"t\" target=\"q\"><hlinscription><structure><variable refvariable=\"x\"/></structure></hlinscription></arc> => <declaration><structure><declarations><variabledecl id=\"x\"><productsort><bool/><finiteintrange start=\"-2\" end=\"2\"/></productsort></variabledecl></declarations></structure></declaration><page id=\"g\"><place id=\"p\"><type><structure><productsort><bool/><finiteintrange start=\"-2\" end=\"2\"/></productsort></structure></type><hlinitialMarking><structure><numberof><subterm><numberconstant value=\"2\"><positive/></numberconstant></subterm><subterm><tuple><subterm><booleanconstant value=\"false\"/></subterm><subterm><finiteintrangeconstant value=\"2\"><finiteintrange start=\"-2\" end=\"2\"/></finiteintrangeconstant></subterm></tuple></subterm></numberof></structure></hlinitialMarking></place><place id=\"q\"><type><structure><productsort><bool/><finiteintrange start=\"-2\" end=\"2\"/></productsort></structure></type><hlinitialMarking><structure><add><subterm><numberof><subterm><numberconstant value=\"1\"><positive/></numberconstant></subterm><subterm><tuple><subterm><booleanconstant value=\"false\"/></subterm><subterm><finiteintrangeconstant value=\"0\"><finiteintrange start=\"-2\" end=\"2\"/></finiteintrangeconstant></subterm></tuple></subterm></numberof></subterm><subterm><numberof><subterm><numberconstant value=\"1\"><positive/></numberconstant></subterm><subterm><tuple><subterm><booleanconstant value=\"true\"/></subterm><subterm><finiteintrangeconstant value=\"-1\"><finiteintrange start=\"-2\" end=\"2\"/></finiteintrangeconstant></subterm></tuple></subterm></numberof></subterm></add></structure></hlinitialMarking></place><transition id=\"t\"/><arc id=\"u\" source=\"p\" target=\"t\"><hlinscription><structure><variable refvariable=\"x\"/></structure></hlinscription></arc><arc id=\"v\" source=\"t\" target=\"q\"><hlinscription><structure><variable refvariable=\"x\"/></structure></hlinscription></arc>
highlevelnet | t[x=[\"a%20b\",\"%22\"]] | <declaration><structure><declarations><variabledecl id=\"x\"><list><string/></list></variabledecl></declarations></structure></declaration><page id=\"g\"><place id=\"p\"><type><structure><list><string/></list></structure></type><hlinitialMarking><structure><add><subterm><numberof><subterm><numberconstant value=\"1\"><positive/></numberconstant></subterm><subterm><makelist><subterm><stringconstant value=\"a b\"/></subterm><subterm><stringconstant value=\"&quot;\"/></subterm></makelist></subterm></numberof></subterm><subterm><numberof><subterm><numberconstant value=\"1\"><positive/></numberconstant></subterm><subterm><makelist><subterm><stringconstant value=\"c\"/></subterm></makelist></subterm></numberof></subterm></add></structure></hlinitialMarking></place><transition id=\"t\"/><arc id=\"u\" source=\"p\" target=\"t\"><hlinscription><structure><variable refvariable=\"x\"/></structure></hlinscription></arc><arc id=\"v\" source=\"t\" target=\"p\"><hlinscription><structure><emptylist><string/></emptylist></structure></hlinscription></arc> => <declaration><structure><declarations><variabledecl id=\"x\"><list><string/></list></variabledecl></declarations></structure></declaration><page id=\"g\"><place id=\"p\"><type><structure><list><string/></list></structure></type><hlinitialMarking><structure><add><subterm><numberof><subterm><numberconstant value=\"1\"><positive/></numberconstant></subterm><subterm><emptylist><string/></emptylist></subterm></numberof></subterm><subterm><numberof><subterm><numberconstant value=\"1\"><positive/></numberconstant></subterm><subterm><makelist><subterm><stringconstant value=\"c\"/></subterm></makelist></subterm></numberof></subterm></add></structure></hlinitialMarking></place><transition id=\"t\"/><arc id=\"u\" source=\"p\" target=\"t\"><hlinscription><structure><variable refvariable=\"x\"/></structure></hlinscription></arc><arc id=\"v\" source=\"t\" target=\"p\"><hlinscription><structure><emptylist><string/></emptylist></structure></hlinscription></arc>";

#[test]
fn steps_lead_to_other_markings(rt: HostRuntime) -> Result<(), Fail> {
    for row in LED.lines() {
        is_led(&rt, rt.alloc(), row)?;
    }
    Ok(())
}

/// Three tokens, of which each transition takes one.
const TRANSFER: &str =
    "<page id=\"g\"><place id=\"a\"><initialMarking><text>3</text></initialMarking></place><place id=\"b\"/><transition id=\"t\"/><arc id=\"u\" source=\"a\" target=\"t\"/><arc id=\"v\" source=\"t\" target=\"b\"/>";

/// What is told of it.
const SHORT: &str = "\
t[] 3*t[] | not enabled: a{dot} needs 4 has 3
2*t[] t[] t[] | not enabled: a{dot} needs 4 has 3
9223372036854775807*t[] | not enabled: a{dot} needs 9223372036854775807 has 3
9223372036854775807*t[] t[] | limit: count of t[]
t[] t[]] | word 3: bad mode at byte 3";

/// As many tokens as there may be, and a transition that puts one more.
const FULL: &str =
    "<page id=\"g\"><place id=\"b\"><initialMarking><text>9223372036854775807</text></initialMarking></place><transition id=\"t\"/><transition id=\"o\"/><arc id=\"v\" source=\"t\" target=\"b\"/>";

/// What is told of it: counts of tokens, and of one mode in all words together.
const OVERFLOWING: &str = "\
t[] | limit: count of b{dot}
9223372036854775807*o[] o[] | limit: count of o[]
9223372036854775808*o[] | word 2: bad mode at byte 18
o[] 9223372036854775806*o[] t[] | limit: count of b{dot}
9223372036854775807*o[] 9223372036854775807*t[] t[] o[] | limit: count of t[]
9223372036854775807*o[] o[] 10000000000000000000*o[] | word 4: bad mode at byte 19";

/// A number that is squared.
const SQUARES: &str =
    "<declaration><structure><declarations><variabledecl id=\"x\"><integer/></variabledecl></declarations></structure></declaration><page id=\"g\"><place id=\"p\"><type><structure><integer/></structure></type><hlinitialMarking><structure><numberconstant value=\"5\"><integer/></numberconstant></structure></hlinitialMarking></place><transition id=\"t\"/><arc id=\"u\" source=\"p\" target=\"t\"><hlinscription><structure><variable refvariable=\"x\"/></structure></hlinscription></arc><arc id=\"v\" source=\"t\" target=\"p\"><hlinscription><structure><mult><subterm><variable refvariable=\"x\"/></subterm><subterm><variable refvariable=\"x\"/></subterm></mult></structure></hlinscription></arc>";

/// What is told of it: a bad word before a word that is no mode, that before a count, that before what
/// is not there; each the first of its kind.
const UNSQUARED: &str = "\
t[x=-3] | not enabled: p{-3} needs 1 has 0
t[x=3037000500] | word 2: not a mode
t[x=5] t[x=3037000500] t[x=-3037000500] | word 3: not a mode
t[x=3037000500] t[x=a] | word 3: bad mode at byte 4
t[x=5] t[y] t[ | word 3: bad mode at byte 2
t[x=3037000500] 0*t[x=3037000500] | word 3: bad mode at byte 0
9223372036854775807*t[x=5] t[x=5] t[x=3037000500] | word 4: not a mode
9223372036854775807*t[x=-3] t[x=-3] | limit: count of t[x=-3]
t[x=-3] t[x=-4] | not enabled: p{-4} needs 1 has 0
t[x=5] t[x=-0] | word 3: bad mode at byte 5
t[x=05] | word 2: bad mode at byte 5
t[x=9223372036854775808] | word 2: bad mode at byte 22";

/// Transitions of which some have no mode.
const IDLE: &str =
    "<declaration><structure><declarations><namedsort id=\"e\"><finiteenumeration><feconstant id=\"e1\"/><feconstant id=\"e2\"/></finiteenumeration></namedsort><variabledecl id=\"x\"><usersort declaration=\"e\"/></variabledecl></declarations></structure></declaration><page id=\"g\"><place id=\"p\"><type><structure><usersort declaration=\"e\"/></structure></type></place><transition id=\"k\"/><transition id=\"f\"><condition><structure><booleanconstant value=\"false\"/></structure></condition></transition><transition id=\"w\"/><transition id=\"s\"/><arc id=\"1\" source=\"p\" target=\"k\"><hlinscription><structure><useroperator declaration=\"e1\"/></structure></hlinscription></arc><arc id=\"2\" source=\"p\" target=\"w\"><hlinscription><structure><variable refvariable=\"x\"/></structure></hlinscription></arc><arc id=\"3\" source=\"p\" target=\"w\"><hlinscription><structure><variable refvariable=\"x\"/></structure></hlinscription></arc><arc id=\"4\" source=\"p\" target=\"s\"><hlinscription><structure><subtract><subterm><all><usersort declaration=\"e\"/></all></subterm><subterm><numberof><subterm><variable refvariable=\"x\"/></subterm></numberof></subterm><subterm><numberof><subterm><variable refvariable=\"x\"/></subterm></numberof></subterm></subtract></structure></hlinscription></arc>";

/// What is told of it.
const RESTING: &str = "\
k[] | not enabled: p{e1} needs 1 has 0
w[x=e2] | not enabled: p{e2} needs 2 has 0
f[] | word 2: not a mode
s[x=e1] | word 2: not a mode
k[] s[x=e2] f[] | word 3: not a mode
w[x=e1] w[x=e3] | word 3: bad mode at byte 5
k[x=e1] | word 2: bad mode at byte 2";

#[test]
fn the_first_reason_is_told(rt: HostRuntime) -> Result<(), Fail> {
    let alloc = rt.alloc();
    expect_unled_in(&rt, alloc, "ptnet", TRANSFER, SHORT)?;
    expect_unled_in(&rt, alloc, "ptnet", FULL, OVERFLOWING)?;
    expect_unled_in(&rt, alloc, "highlevelnet", SQUARES, UNSQUARED)?;
    expect_unled_in(&rt, alloc, "symmetricnet", IDLE, RESTING)
}

/// What is told of the modes of a row: kind, modes, line, what is in the net.
fn is_unled(rt: &impl Abort, alloc: Global, row: &str) -> Result<(), Fail> {
    let (kind, rest) = row.split_once(" | ").ok_or("no kind")?;
    let (modes, rest) = rest.split_once(" | ").ok_or("no modes")?;
    let (told, inside) = rest.split_once(" | ").ok_or("no line")?;
    let document = net_of(alloc, kind, inside)?;
    expect_unled(rt, alloc, modes, document.as_str(), told)?;
    Ok(())
}

/// A fault, and no document, which come before bad words; nets without a transition; what is not
/// there before what there is too much of; how often a token is taken, up to one more than it may
/// be there; ids with escapes.
const UNLED: &str = "\
ptnet | tale | byte 139: unknown element: x | <page id=\"g\"><x/>
ptnet | 0*t[] t[] | byte 141: broken | <page id=\"g\"><x
ptnet | t[] | word 2: bad mode at byte 0 | <page id=\"g\">
ptnet | 3*t[] | word 2: bad mode at byte 0 | <page id=\"g\"><place id=\"a\"><initialMarking><text>3</text></initialMarking></place>
ptnet | 4*t[] | not enabled: a{dot} needs 4 has 3 | <page id=\"g\"><place id=\"a\"><initialMarking><text>3</text></initialMarking></place><place id=\"b\"><initialMarking><text>9223372036854775807</text></initialMarking></place><transition id=\"t\"/><arc id=\"u\" source=\"a\" target=\"t\"/><arc id=\"v\" source=\"t\" target=\"b\"/>
ptnet | 3*t[] | limit: count of b{dot} | <page id=\"g\"><place id=\"a\"><initialMarking><text>3</text></initialMarking></place><place id=\"b\"><initialMarking><text>9223372036854775805</text></initialMarking></place><transition id=\"t\"/><arc id=\"u\" source=\"a\" target=\"t\"/><arc id=\"v\" source=\"t\" target=\"b\"/>
ptnet | 9223372036854775807*t[] | not enabled: a{dot} needs 9223372036854775808 has 3 | <page id=\"g\"><place id=\"a\"><initialMarking><text>3</text></initialMarking></place><transition id=\"t\"/><arc id=\"u\" source=\"a\" target=\"t\"><inscription><text>2</text></inscription></arc>
ptnet | t*2[] | word 2: bad mode at byte 1 | <page id=\"g\"><place id=\"a{\"><initialMarking><text>1</text></initialMarking></place><transition id=\"t*2\"/><arc id=\"u\" source=\"a{\" target=\"t*2\"/>
ptnet | 2*t%2A2[] | not enabled: a%7B{dot} needs 2 has 1 | <page id=\"g\"><place id=\"a{\"><initialMarking><text>1</text></initialMarking></place><transition id=\"t*2\"/><arc id=\"u\" source=\"a{\" target=\"t*2\"/>
ptnet | 9223372036854775807*t%2A2[] t%2A2[] | limit: count of t%2A2[] | <page id=\"g\"><place id=\"a{\"><initialMarking><text>1</text></initialMarking></place><transition id=\"t*2\"/><arc id=\"u\" source=\"a{\" target=\"t*2\"/>";

#[test]
fn documents_come_before_words(rt: HostRuntime) -> Result<(), Fail> {
    for row in UNLED.lines() {
        is_unled(&rt, rt.alloc(), row)?;
    }
    Ok(())
}

#[test]
fn a_step_has_modes(rt: HostRuntime) -> Result<(), Fail> {
    let alloc = rt.alloc();
    let line = "pnml: usage: check, flatten, step MODE (one or more), modes T, unfold, trial N\n";
    let bytes = PHILOSOPHERS.as_bytes();
    expect(&rt, alloc, &["step"], bytes, Status::Usage, "", line)?;
    expect(&rt, alloc, &["Step", "tale"], b"", Status::Usage, "", line)?;
    Ok(())
}
