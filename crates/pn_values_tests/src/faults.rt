//! What no clause says of faults: that calls succeed while there is memory, and the table of words.

use pn_faults::{Fault, Reason, Refusal, keep_least, keep_least_at, keep_least_of, laws};
use pn_text::Text;
use std::alloc::{AllocError, Global};
use std::process::Abort;
use std::test::Fail;

fn fault(alloc: Global, reason: Reason, at: u64, detail: &str) -> Result<Fault, AllocError> {
    Ok(Fault {
        reason,
        at,
        detail: Text::from_str(alloc, detail)?,
    })
}

fn is(fault: &Fault, reason: Reason, at: u64, detail: &str) -> bool {
    fault.reason == reason && fault.at == at && fault.detail.as_str() == detail
}

fn is_kept(least: &Option<Fault>, reason: Reason, at: u64, detail: &str) -> bool {
    match least {
        Some(kept) => is(kept, reason, at, detail),
        None => false,
    }
}

fn keep_made(rt: &impl Abort, alloc: Global, least: &mut Option<Fault>) -> Result<(), AllocError> {
    keep_least(least, fault(alloc, Reason::WrongSort, 5, "add")?);
    keep_least(least, fault(alloc, Reason::SortCycle, 90, "s")?);
    assert!(rt; is_kept(least, Reason::SortCycle, 90, "s"));
    Ok(())
}

fn keep_at(rt: &impl Abort, alloc: Global, least: &mut Option<Fault>) -> Result<(), AllocError> {
    keep_least_at(least, alloc, Reason::SortTooBig, 80, "list")?;
    keep_least_at(least, alloc, Reason::UnknownSort, 80, "t")?;
    keep_least_at(least, alloc, Reason::UnknownSort, 80, "u")?;
    assert!(rt; is_kept(least, Reason::UnknownSort, 80, "t"));
    Ok(())
}

fn keep_parts(rt: &impl Abort, alloc: Global, least: &mut Option<Fault>) -> Result<(), AllocError> {
    let part = Some(fault(alloc, Reason::BadValue, 200, "value")?);
    keep_least_of(least, None);
    keep_least_of(least, part);
    assert!(rt; is_kept(least, Reason::BadValue, 200, "value"));
    Ok(())
}

fn keep_all(rt: &impl Abort, alloc: Global, least: &mut Option<Fault>) -> Result<(), AllocError> {
    keep_made(rt, alloc, least)?;
    keep_at(rt, alloc, least)?;
    keep_parts(rt, alloc, least)
}

#[test]
fn by_phase_then_offset_then_number(rt: HostRuntime) -> Result<(), Fail> {
    let mut least = None;
    keep_all(&rt, rt.alloc(), &mut least)?;
    Ok(())
}

/// Whether a fault and its copy are alike, and neither comes before the other.
fn is_copied(one: &Fault, twin: &Fault) -> bool {
    !one.is_before(twin) && !twin.is_before(one) && is(twin, Reason::NoValue, 7, "inscription")
}

fn copies(rt: &impl Abort, alloc: Global, one: &Fault) -> Result<(), AllocError> {
    let twin = one.copy(alloc)?;
    assert!(rt; is_copied(one, &twin));
    Ok(())
}

#[test]
fn copied(rt: HostRuntime) -> Result<(), Fail> {
    let one = fault(rt.alloc(), Reason::NoValue, 7, "inscription")?;
    copies(&rt, rt.alloc(), &one)?;
    Ok(())
}

#[test]
fn words_and_places(rt: HostRuntime) -> Result<(), Fail> {
    assert!(rt; Reason::NoValue.words() == "no value");
    assert!(rt; Reason::NoValue.number() == 30 && Reason::NoValue.phase() == 4);
    laws::least_of_each::<Reason>();
    Ok(())
}

fn refused(fault: Fault) -> Result<(), Refusal> {
    Err(Refusal::Fault(fault))
}

fn out_of_memory() -> Result<(), Refusal> {
    let none: Result<(), AllocError> = Err(AllocError);
    none?;
    Ok(())
}

#[test]
fn refusals(rt: HostRuntime) -> Result<(), Fail> {
    let one = fault(rt.alloc(), Reason::NoValue, 7, "inscription")?;
    assert!(rt; matches!(refused(one), Err(Refusal::Fault(_))));
    assert!(rt; matches!(out_of_memory(), Err(Refusal::Memory(_))));
    Ok(())
}
