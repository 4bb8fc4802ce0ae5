//! Steps, on worked nets.

ghost use Rattle.std.specs.Prelude.{OnOk};
ghost use Rattle.pn_marking.specs.Steps.{AreModes};

use crate::modes::add_mode;
use pn_bag::Bag;
use pn_checks::Checked;
use pn_marking::{FireFault, fire};
use pn_net::{Marking, Mode, Token, Typed};
use pn_net_samples::{CHAIN, FORKS, FULL, SQUARE, net_of, net_with, value_of};
use pn_sorts::Value;
use sqlite_items::Items;
use std::alloc::{AllocError, Global};
use std::process::Abort;
use std::test::Fail;

/// No value, or that of the word.
fn values_of(alloc: Global, word: &str) -> Result<Items<Value>, AllocError> {
    let mut values = Items::new(alloc);
    if !word.is_empty() {
        values.push(value_of(word))?;
    }
    Ok(values)
}

/// Adds modes, each a transition, the value of `x`, and how often; whether all are modes.
fn add_all(
    alloc: Global,
    net: &Typed,
    modes: &mut Bag<Mode>,
    words: &[(&str, &str, u64)],
) -> Result<bool, AllocError>
    requires { AreModes net.now modes.old }
    ensures { OnOk result (AreModes net.now modes.new) }
{
    for (id, value, count) in words {
        let Some(transition) = net.find_transition(id) else {
            return Ok(false);
        };
        let values = values_of(alloc, value)?;
        if !add_mode(alloc, net, modes, Mode { transition, values }, *count)? {
            return Ok(false);
        }
    }
    Ok(true)
}

/// What these modes together lead to from a marking; `None` where one is no mode.
fn step(
    alloc: Global,
    net: &Typed,
    marking: &Marking,
    words: &[(&str, &str, u64)],
) -> Result<Option<Result<Marking, FireFault>>, AllocError> {
    let mut modes = Bag::new(alloc);
    if !add_all(alloc, net, &mut modes, words)? {
        return Ok(None);
    }
    Ok(Some(fire(alloc, net, marking, &modes)))
}

/// The modes lead from the initial marking to one with these tokens, each a place, a value and a count.
fn leads(
    rt: &impl Abort,
    alloc: Global,
    checked: &Checked,
    words: &[(&str, &str, u64)],
    tokens: &[(u32, &str, u64)],
) -> Result<(), Fail> {
    match step(alloc, checked.typed(), checked.initial(), words)? {
        Some(Ok(marking)) => has_tokens(rt, &marking, tokens),
        _ => Err(Fail::from("no step")),
    }
}

fn has_tokens(rt: &impl Abort, marking: &Marking, tokens: &[(u32, &str, u64)]) -> Result<(), Fail> {
    let mut total: u128 = 0;
    for (place, value, count) in tokens {
        let token = Token {
            place: *place,
            value: value_of(value),
        };
        assert!(rt; marking.count(&token) == *count);
        total = total.saturating_add(u128::from(*count));
    }
    assert!(rt; marking.cardinality() == total);
    Ok(())
}

fn is_token(token: &Token, place: u32, value: &str) -> bool {
    token.place == place && token.value == value_of(value)
}

/// A token is missing: the first with this place and value is needed so often and is there so often.
fn lacks(
    rt: &impl Abort,
    alloc: Global,
    checked: &Checked,
    words: &[(&str, &str, u64)],
    row: (u32, &str, u64, u64),
) -> Result<(), Fail> {
    match step(alloc, checked.typed(), checked.initial(), words)? {
        Some(Err(FireFault::NotEnabled { token, need, has })) => {
            assert!(rt; is_token(&token, row.0, row.1) && need == row.2 && has == row.3);
            Ok(())
        }
        _ => Err(Fail::from("no token is missing")),
    }
}

/// The count of this token would be too large.
fn overflows(
    rt: &impl Abort,
    alloc: Global,
    checked: &Checked,
    words: &[(&str, &str, u64)],
    row: (u32, &str),
) -> Result<(), Fail> {
    match step(alloc, checked.typed(), checked.initial(), words)? {
        Some(Err(FireFault::CountTooLarge(token))) => {
            assert!(rt; is_token(&token, row.0, row.1));
            Ok(())
        }
        _ => Err(Fail::from("no count is too large")),
    }
}

/// The words are no multiset of modes.
fn are_no_modes(
    rt: &impl Abort,
    alloc: Global,
    checked: &Checked,
    words: &[(&str, &str, u64)],
) -> Result<(), Fail> {
    assert!(rt; step(alloc, checked.typed(), checked.initial(), words)?.is_none());
    Ok(())
}

fn steps_of_a_chain(rt: &impl Abort, alloc: Global, net: &Checked) -> Result<(), Fail> {
    leads(rt, alloc, net, &[], &[(0, "dot", 3)])?;
    leads(rt, alloc, net, &[("t", "", 3)], &[(1, "dot", 3)])?;
    leads(
        rt,
        alloc,
        net,
        &[("t", "", 1), ("t", "", 1)],
        &[(0, "dot", 1), (1, "dot", 2)],
    )?;
    lacks(
        rt,
        alloc,
        net,
        &[("t", "", 1), ("t", "", 3)],
        (0, "dot", 4, 3),
    )
}

#[test]
fn a_step_takes_and_puts_all_at_once(rt: HostRuntime) -> Result<(), Fail> {
    let net = net_of(rt.alloc(), CHAIN).ok_or("a fault")?;
    steps_of_a_chain(&rt, rt.alloc(), &net)
}

fn steps_of_a_ring(rt: &impl Abort, alloc: Global, net: &Checked) -> Result<(), Fail> {
    const MOST: u64 = 9223372036854775807;
    lacks(
        rt,
        alloc,
        net,
        &[("take", "c1", 1), ("take", "c2", 1)],
        (0, "c2", 2, 1),
    )?;
    leads(
        rt,
        alloc,
        net,
        &[("take", "c1", 1), ("take", "c3", 1)],
        &[(0, "c5", 1)],
    )?;
    lacks(
        rt,
        alloc,
        net,
        &[("take", "c5", MOST), ("take", "c1", MOST)],
        (0, "c1", 9223372036854775808, 1),
    )
}

#[test]
fn neighbours_share_a_fork(rt: HostRuntime) -> Result<(), Fail> {
    let net = net_of(rt.alloc(), FORKS).ok_or("a fault")?;
    steps_of_a_ring(&rt, rt.alloc(), &net)
}

fn steps_of_a_full_place(rt: &impl Abort, alloc: Global, net: &Checked) -> Result<(), Fail> {
    overflows(rt, alloc, net, &[("t", "", 1)], (0, "dot"))?;
    leads(
        rt,
        alloc,
        net,
        &[("o", "", 9223372036854775807)],
        &[(0, "dot", 9223372036854775807)],
    )?;
    are_no_modes(
        rt,
        alloc,
        net,
        &[("o", "", 9223372036854775807), ("o", "", 1)],
    )
}

#[test]
fn counts_have_a_greatest_one(rt: HostRuntime) -> Result<(), Fail> {
    let net = net_of(rt.alloc(), FULL).ok_or("a fault")?;
    steps_of_a_full_place(&rt, rt.alloc(), &net)
}

fn steps_of_squares(rt: &impl Abort, alloc: Global, net: &Checked) -> Result<(), Fail> {
    leads(rt, alloc, net, &[("t", "5", 1)], &[(0, "25", 1)])?;
    lacks(rt, alloc, net, &[("t", "-3", 1)], (0, "-3", 1, 0))?;
    are_no_modes(rt, alloc, net, &[("t", "3037000500", 1)])
}

#[test]
fn values_are_computed(rt: HostRuntime) -> Result<(), Fail> {
    let net = net_of(rt.alloc(), SQUARE).ok_or("a fault")?;
    steps_of_squares(&rt, rt.alloc(), &net)
}

/// Two constants, a variable of their sort, and a place `p` with each of them once, which `r` refers to.
const ENUMERATION: &str =
    r#"<namedsort id="e"><finiteenumeration><feconstant id="c1"/><feconstant id="c2"/></finiteenumeration></namedsort><variabledecl id="x"><usersort declaration="e"/></variabledecl>"#;

/// `w` takes x by two arcs, `v` by two of which one is from the reference, `s` takes all less two x, `k`
/// has the condition that x is the first constant and no arc, `b` takes x and puts it twice on `q`.
const ARCS: &str =
    r#"<place id="p"><type><structure><usersort declaration="e"/></structure></type><hlinitialMarking><structure><all><usersort declaration="e"/></all></structure></hlinitialMarking></place><place id="q"><type><structure><usersort declaration="e"/></structure></type></place><referencePlace id="r" ref="p"/><transition id="w"/><transition id="v"/><transition id="s"/><transition id="k"><condition><structure><equality><subterm><variable refvariable="x"/></subterm><subterm><useroperator declaration="c1"/></subterm></equality></structure></condition></transition><transition id="b"/><arc id="a1" source="p" target="w"><hlinscription><structure><variable refvariable="x"/></structure></hlinscription></arc><arc id="a2" source="p" target="w"><hlinscription><structure><variable refvariable="x"/></structure></hlinscription></arc><arc id="a3" source="r" target="v"><hlinscription><structure><variable refvariable="x"/></structure></hlinscription></arc><arc id="a4" source="p" target="v"><hlinscription><structure><variable refvariable="x"/></structure></hlinscription></arc><arc id="a5" source="p" target="s"><hlinscription><structure><subtract><subterm><all><usersort declaration="e"/></all></subterm><subterm><numberof><subterm><variable refvariable="x"/></subterm></numberof></subterm><subterm><numberof><subterm><variable refvariable="x"/></subterm></numberof></subterm></subtract></structure></hlinscription></arc><arc id="a6" source="p" target="b"><hlinscription><structure><variable refvariable="x"/></structure></hlinscription></arc><arc id="a7" source="b" target="q"><hlinscription><structure><numberof><subterm><numberconstant value="2"><positive/></numberconstant></subterm><subterm><variable refvariable="x"/></subterm></numberof></structure></hlinscription></arc>"#;

fn steps_by_several_arcs(rt: &impl Abort, alloc: Global, net: &Checked) -> Result<(), Fail> {
    lacks(rt, alloc, net, &[("w", "c1", 1)], (0, "c1", 2, 1))?;
    lacks(rt, alloc, net, &[("v", "c2", 1)], (0, "c2", 2, 1))?;
    are_no_modes(rt, alloc, net, &[("s", "c1", 1)])
}

#[test]
fn totals_are_sums_over_all_arcs(rt: HostRuntime) -> Result<(), Fail> {
    let net = net_with(rt.alloc(), "symmetricnet", ENUMERATION, ARCS).ok_or("a fault")?;
    steps_by_several_arcs(&rt, rt.alloc(), &net)
}

fn steps_of_one_variable(rt: &impl Abort, alloc: Global, net: &Checked) -> Result<(), Fail> {
    let all = &[(0, "c1", 1), (0, "c2", 1)];
    leads(rt, alloc, net, &[("k", "c1", 7)], all)?;
    are_no_modes(rt, alloc, net, &[("k", "c2", 1)])?;
    let one = &[(0, "c1", 1), (1, "c2", 2)];
    leads(rt, alloc, net, &[("b", "c2", 1)], one)
}

#[test]
fn a_condition_has_a_variable_of_its_own(rt: HostRuntime) -> Result<(), Fail> {
    let net = net_with(rt.alloc(), "symmetricnet", ENUMERATION, ARCS).ok_or("a fault")?;
    steps_of_one_variable(&rt, rt.alloc(), &net)
}

/// `t` puts x on a place of natural numbers, `o` wants the quotient of 6 and x to be 3.
const NUMBERS: &str =
    r#"<place id="p"><type><structure><natural/></structure></type></place><transition id="t"/><transition id="o"><condition><structure><equality><subterm><div><subterm><numberconstant value="6"><integer/></numberconstant></subterm><subterm><variable refvariable="x"/></subterm></div></subterm><subterm><numberconstant value="3"><integer/></numberconstant></subterm></equality></structure></condition></transition><arc id="u" source="t" target="p"><hlinscription><structure><variable refvariable="x"/></structure></hlinscription></arc>"#;

fn steps_without_values(rt: &impl Abort, alloc: Global, net: &Checked) -> Result<(), Fail> {
    are_no_modes(rt, alloc, net, &[("t", "-1", 1)])?;
    leads(rt, alloc, net, &[("t", "0", 1)], &[(0, "0", 1)])?;
    are_no_modes(rt, alloc, net, &[("o", "0", 1)])?;
    leads(rt, alloc, net, &[("o", "2", 1)], &[])
}

#[test]
fn what_has_no_value_is_no_mode(rt: HostRuntime) -> Result<(), Fail> {
    const X: &str =
        r#"<variabledecl id="x"><integer/></variabledecl><variabledecl id="y"><integer/></variabledecl>"#;
    let net = net_with(rt.alloc(), "highlevelnet", X, NUMBERS).ok_or("a fault")?;
    steps_without_values(&rt, rt.alloc(), &net)
}

#[test]
fn totals_have_a_greatest_count(rt: HostRuntime) -> Result<(), Fail> {
    const HEAVY: &str =
        r#"<place id="p"/><transition id="t"/><arc id="u" source="t" target="p"><inscription><text>9223372036854775807</text></inscription></arc><arc id="v" source="t" target="p"/>"#;
    let net = net_with(rt.alloc(), "ptnet", "", HEAVY).ok_or("a fault")?;
    are_no_modes(&rt, rt.alloc(), &net, &[("t", "", 1)])
}
