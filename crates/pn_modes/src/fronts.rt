//! The test of a front of an assignment: the values of the first variables of a transition.

ghost use Rattle.std.specs.Prelude.{◌≡◌, ◌↔◌, ◌<◌, ◌^◌, ℕ, List, true, false, length, Some, IfOk, IsTrue, option_copied};
ghost use Rattle.std.specs.List.{Contains};
ghost use Rattle.pn_bag.specs.Counts.{Includes};
ghost use Rattle.pn_carriers.specs.Carriers.{carrier, is_finite};
ghost use Rattle.pn_eval.specs.Assignments.{Covers, IsAssignment};
ghost use Rattle.pn_eval.specs.Values.{HasValue};
ghost use Rattle.pn_marking.specs.Known.{AreKnown};
ghost use Rattle.pn_marking.specs.Modes.{IsAssigned};
ghost use Rattle.pn_modes.specs.Carriers.{IsFrontOf};
ghost use Rattle.pn_modes.specs.Parts.{AreSearchable, AreUnfit, IsCut, IsPlan, IsWanted, carriers_of, mode_of, ready_numbers};
ghost use Rattle.pn_modes.specs.Sizes.{HaveSortsAt};
ghost use Rattle.pn_modes.specs.declared.parts.Part.{Part};
ghost use Rattle.pn_names.specs.Names.{widths_of};
ghost use Rattle.pn_net.specs.Orders.{token_cmp};
ghost use Rattle.pn_net.specs.Typed.{IsTypedTerm};
ghost use Rattle.pn_net.specs.declared.token.Token.{Token};
ghost use Rattle.pn_operations.specs.Outcomes.{truth};

use crate::parts::{ArcPart, Part};
use crate::plan::{arc_parts, condition_parts};
use crate::pruning::Pruning;
use pn_marking::{is_mode, is_true, pre, total};
use pn_net::{Marking, Mode, Typed};
use pn_sorts::{Size, Sort};
use pn_values::Value;
use sqlite_items::Items;
use std::alloc::{AllocError, Global};

/// A transition with what is asked of its modes, part by part.
#[derive(Drop)]
pub struct Fronts<'a> {
    pub net: &'a Typed,
    pub transition: u32,
    pub variables: &'a [u32],
    pub sorts: Items<Sort>,
    pub parts: Vec<Part<'a>>,
    pub arcs: Vec<ArcPart>,
    /// Where modes shall be enabled, the marking.
    pub marking: Option<&'a Marking>,
}

/// What is asked of the modes of a transition, part by part, with these sorts of its variables. Where
/// a marking is given, modes shall be enabled there.
pub fn plan_fronts<'a>(
    alloc: Global,
    net: &'a Typed,
    transition: u32,
    sorts: Items<Sort>,
    marking: Option<&'a Marking>,
) -> Result<Fronts<'a>, AllocError>
    requires within { transition < length net.now.transitions }
    requires sorts { (vars : List ℕ) × HaveSortsAt net.now transition vars sorts }
    ensures plan { IfOk result (λ fronts. IsPlan fronts.net.now fronts.transition fronts.variables.now fronts.sorts fronts.parts.items fronts.arcs.items) }
    ensures net { IfOk result (λ fronts. fronts.net.now ≡ net.now) }
    ensures transition { IfOk result (λ fronts. fronts.transition ≡ transition) }
    ensures sorts { IfOk result (λ fronts. fronts.sorts ≡ sorts) }
    ensures marking { IfOk result (λ fronts. option_copied fronts.marking ≡ option_copied marking.entry) }
{
    let variables = net.variables(transition);
    let parts = condition_parts(alloc, net, transition, variables)?;
    let arcs = arc_parts(alloc, net, net.arcs_of(transition), variables)?;
    Ok(Fronts {
        net,
        transition,
        variables,
        sorts,
        parts,
        arcs,
        marking,
    })
}

/// Whether each part of the condition is true that needs all of these variables.
fn parts_hold(
    alloc: Global,
    net: &Typed,
    parts: &[Part],
    vars: &[u32],
    front: &[Value],
) -> Result<bool, AllocError>
    requires typed { (part : Part) → Contains parts.now part → IsTypedTerm net.now.declarations part.term.now }
    requires covers { (part : Part) → Contains parts.now part → part.need ≡ length front.now → Covers net.now.declarations vars.now part.term.now }
    requires assignment { IsAssignment net.now.declarations vars.now front.now }
    ensures { IfOk result (λ hold. hold ≡ false → (part : Part) × Contains parts.now part × (part.need ≡ length front.now)
        × (HasValue net.now.declarations vars.now front.now part.term.now (truth true) → ⊥)) }
{
    for part in parts {
        if part.need == front.len() && !is_true(alloc, net, part.term, vars, front)? {
            return Ok(false);
        }
    }
    Ok(true)
}

/// Whether an arc needs so many variables.
fn is_due(arcs: &[ArcPart], count: usize) -> bool {
    for arc in arcs {
        if arc.need == count {
            return true;
        }
    }
    false
}

/// The numbers of the arcs that need no more variables than these.
fn ready(alloc: Global, arcs: &[ArcPart], count: usize) -> Result<Vec<u32>, AllocError>
    ensures { IfOk result (λ numbers. numbers.items ≡ ready_numbers count arcs.now) }
{
    let mut numbers = Vec::new(alloc);
    for arc in arcs {
        if arc.need <= count {
            numbers.push(arc.number)?;
        }
    }
    Ok(numbers)
}

/// A transition with these values.
fn mode_with(alloc: Global, transition: u32, front: &[Value]) -> Result<Mode, AllocError>
    ensures { IfOk result (λ mode. mode ≡ mode_of transition front.now) }
{
    let mut values = Items::new(alloc);
    for value in front {
        values.push(value.copy(alloc)?)?;
    }
    Ok(Mode { transition, values })
}

/// Whether a transition with a value for each of its variables is a mode, and enabled where a
/// marking is given.
fn is_wanted(
    alloc: Global,
    net: &Typed,
    mode: &Mode,
    marking: Option<&Marking>,
) -> Result<bool, AllocError>
    requires { (vars : List ℕ) × IsAssigned net.now mode.now vars }
    ensures yes { IfOk result (λ is. IsTrue is → IsWanted net.now (option_copied marking.entry) mode.now) }
    ensures no { IfOk result (λ is. is ≡ false → IsWanted net.now (option_copied marking.entry) mode.now → ⊥) }
{
    let _decls = net.decls();
    if !is_mode(alloc, net, mode)? {
        return Ok(false);
    }
    match marking {
        Some(marking) => Ok(has_all(marking, &pre(alloc, net, mode)?)),
        None => Ok(true),
    }
}

/// Whether the totals of these arcs have values, and what they take is there where a marking is
/// given.
fn totals_fit(
    alloc: Global,
    net: &Typed,
    numbers: &[u32],
    vars: &[u32],
    front: &[Value],
    marking: Option<&Marking>,
) -> Result<bool, AllocError>
    requires known { AreKnown net.now vars.now numbers.now }
    requires assignment { IsAssignment net.now.declarations vars.now front.now }
    ensures { IfOk result (λ fit. fit ≡ false → AreUnfit net.now vars.now front.now numbers.now (option_copied marking.entry)) }
{
    if total(alloc, net, numbers, true, vars, front)?.is_none() {
        return Ok(false);
    }
    match total(alloc, net, numbers, false, vars, front)? {
        Some(taken) => Ok(is_there(&taken, marking)),
        None => Ok(false),
    }
}

/// Whether a marking, where one is given, has all of these tokens.
fn is_there(taken: &Marking, marking: Option<&Marking>) -> bool
    ensures { result ≡ false → (m : List (Token × ℕ)) × (option_copied marking.entry ≡ Some m) × (Includes token_cmp m taken.now → ⊥) }
{
    match marking {
        Some(marking) => has_all(marking, taken),
        None => true,
    }
}

/// Whether a marking has all of these tokens. Each takes the logarithm of the marking, so that a
/// front costs what it takes, and not a walk over the marking.
fn has_all(marking: &Marking, tokens: &Marking) -> bool
    ensures { IsTrue result ↔ Includes token_cmp marking.now tokens.now }
{
    for (token, count) in tokens.iter() {
        if marking.count(token) < count {
            return false;
        }
    }
    true
}

/// Whether an assignment that begins with the front may be wanted, by what needs all of the
/// variables that have values.
fn fits(alloc: Global, fronts: &Fronts, front: &[Value]) -> Result<bool, AllocError>
    requires plan { IsPlan fronts.now.net.now fronts.now.transition fronts.now.variables.now fronts.now.sorts fronts.now.parts.items fronts.now.arcs.items }
    requires front { IsFrontOf (carriers_of fronts.now.net.now fronts.now.sorts) front.now }
    ensures { IfOk result (λ fits. fits ≡ false → IsCut fronts.now.net.now fronts.now.transition (option_copied fronts.now.marking) front.now) }
{
    let _flat = fronts.net.flat();
    let _decls = fronts.net.decls();
    let count = front.len();
    let vars = &fronts.variables[..count];
    if !parts_hold(alloc, fronts.net, &fronts.parts, vars, front)? {
        return Ok(false);
    }
    if !is_due(&fronts.arcs, count) {
        return Ok(true);
    }
    let numbers = ready(alloc, &fronts.arcs, count)?;
    totals_fit(alloc, fronts.net, &numbers, vars, front, fronts.marking)
}

impl<'a> Pruning for Fronts<'a> {
    ghost is_sound = { λ s. IsPlan s.net.now s.transition s.variables.now s.sorts s.parts.items s.arcs.items × AreSearchable s.net.now s.sorts };

    ghost carriers = { λ s. carriers_of s.net.now s.sorts };

    ghost wanted = { λ s given. IsWanted s.net.now (option_copied s.marking) (mode_of s.transition given) };

    fn variables(&self) -> usize {
        self.sorts.len()
    }

    fn size(&self, variable: usize) -> u64 {
        size_of(self.net, &self.sorts.as_slice()[variable])
    }

    fn nth(&self, alloc: Global, variable: usize, place: u64) -> Result<Value, AllocError> {
        let sort = &self.sorts.as_slice()[variable];
        self.net.decls().nth(alloc, sort, place)
    }

    fn goes_on(&self, alloc: Global, front: &[Value]) -> Result<bool, AllocError> {
        if !fits(alloc, self, front)? {
            return Ok(false);
        }
        if front.len() < self.variables.len() {
            return Ok(true);
        }
        let mode = mode_with(alloc, self.transition, front)?;
        is_wanted(alloc, self.net, &mode, self.marking)
    }
}

/// How many values a sort has that is searched.
fn size_of(net: &Typed, sort: &Sort) -> u64
    requires finite { is_finite sort.now ≡ true }
    requires few { length (carrier (widths_of net.now.declarations) sort.now) < 2 ^ 64 }
    ensures { result ≡ length (carrier (widths_of net.now.declarations) sort.now) }
{
    match net.decls().size(sort) {
        Size::Finite(size) => size as u64,
        Size::Infinite => unreachable!(),
    }
}
