//! What is asked of the modes of a transition, part by part, and how many variables each part needs.

ghost use Rattle.std.specs.Prelude.{◌≡◌, ◌<◌, ◌≤◌, ◌⊎◌, ◌∷◌, [], ℕ, IfSome, MatchOption, Some, length, map, take, IfOk, OnOk};
ghost use Rattle.std.specs.List.{Contains, slice_get};
ghost use Rattle.std.specs.List.Sorted.{IsStrictlyIncreasing};
ghost use Rattle.pn_eval.specs.Assignments.{Covers};
ghost use Rattle.pn_eval.specs.Ready.{IsReady};
ghost use Rattle.pn_marking.specs.Known.{AreKnown, IsKnownArc};
ghost use Rattle.pn_modes.specs.Parts.{IsArcWith, IsConditionPart, parts_of_condition};
ghost use Rattle.pn_modes.specs.declared.parts.ArcPart.{ArcPart};
ghost use Rattle.pn_modes.specs.declared.parts.Part.{Part};
ghost use Rattle.pn_net.specs.Labels.{said};
ghost use Rattle.pn_net.specs.Typed.{AreVariablesAt, IsTypedTerm, condition_at};
ghost use Rattle.pn_syntax.specs.declared.term.Term.{Term};
ghost use Rattle.pn_terms.specs.Terms.{parts_of};

use crate::parts::{ArcPart, Part};
use pn_net::{FlatArc, Typed};
use pn_objects::Transition;
use pn_operators::Op;
use pn_sorts::Decls;
use pn_terms::{Term, TermNode, variables};
use std::alloc::{AllocError, Global};

/// One more than the place of a variable; where it is none of them, how many there are.
fn behind(vars: &[u32], v: u32) -> usize
    requires { IsStrictlyIncreasing vars.now }
    ensures { Contains vars.now v → Contains (take result vars.now) v }
{
    match vars.binary_search(&v) {
        Ok(place) => place + 1,
        Err(_) => vars.len(),
    }
}

/// The greater of two numbers.
fn greater(one: usize, two: usize) -> usize
    ensures one { one ≤ result }
    ensures two { two ≤ result }
{
    if one < two { two } else { one }
}

/// How many of the variables, the first ones, hold all that were found.
fn needed(found: &[u32], vars: &[u32]) -> usize
    requires ascending { IsStrictlyIncreasing vars.now }
    requires covered { (v : ℕ) → Contains found.now v → Contains vars.now v }
    ensures { (v : ℕ) → Contains found.now v → Contains (take result vars.now) v }
{
    let mut need = 0;
    for v in found {
        need = greater(need, behind(vars, *v));
    }
    need
}

/// How many of the variables, the first ones, a term needs. The time is linear in the term, but for
/// sorting its variables and finding each.
fn need(alloc: Global, decls: &Decls, term: &Term, vars: &[u32]) -> Result<usize, AllocError>
    requires ascending { IsStrictlyIncreasing vars.now }
    requires covers { Covers decls.now vars.now term.now }
    ensures { IfOk result (λ n. Covers decls.now (take n vars.now) term.now) }
{
    let found = variables(alloc, decls, term)?;
    Ok(needed(&found, vars))
}

/// The arguments of an `and`, where a term is one.
fn conjuncts(term: &Term) -> Option<&[Term]>
    ensures { MatchOption result (parts_of_condition term.now ≡ term.now ∷ []) (λ args. (parts_of_condition term.now ≡ args.now) × (parts_of term.now ≡ args.now)) }
{
    match &term.node {
        TermNode::Apply { op, args } => match op {
            Op::And => Some(args.as_slice()),
            _ => None,
        },
        _ => None,
    }
}

/// Puts a part of a condition behind those that are there.
fn add_part<'a>(
    alloc: Global,
    decls: &Decls,
    vars: &[u32],
    term: &'a Term,
    parts: &mut Vec<Part<'a>>,
) -> Result<(), AllocError>
    requires ascending { IsStrictlyIncreasing vars.now }
    requires covers { Covers decls.now vars.now term.now }
    ensures { OnOk result ((part : Part) → Contains parts.new.items part → Contains parts.old.items part
        ⊎ ((part.term.now ≡ term.now) × Covers decls.now (take part.need vars.now) term.now)) }
{
    let need = need(alloc, decls, term, vars)?;
    parts.push(Part { term, need })?;
    Ok(())
}

/// Puts parts of a condition behind those that are there.
fn add_parts<'a>(
    alloc: Global,
    decls: &Decls,
    vars: &[u32],
    terms: &'a [Term],
    parts: &mut Vec<Part<'a>>,
) -> Result<(), AllocError>
    requires ascending { IsStrictlyIncreasing vars.now }
    requires covers { (e : Term) → Contains terms.now e → Covers decls.now vars.now e }
    ensures { OnOk result ((part : Part) → Contains parts.new.items part → Contains parts.old.items part
        ⊎ (Contains terms.now part.term.now × Covers decls.now (take part.need vars.now) part.term.now)) }
{
    for term in terms {
        add_part(alloc, decls, vars, term, parts)?;
    }
    Ok(())
}

/// The parts of a condition.
fn parts_in<'a>(
    alloc: Global,
    decls: &Decls,
    vars: &[u32],
    condition: &'a Term,
) -> Result<Vec<Part<'a>>, AllocError>
    requires ascending { IsStrictlyIncreasing vars.now }
    requires ready { IsReady decls.now vars.now condition.now }
    ensures { IfOk result (λ parts. (part : Part) → Contains parts.items part
        → Contains (parts_of_condition condition.now) part.term.now × Covers decls.now (take part.need vars.now) part.term.now) }
{
    let mut parts = Vec::new(alloc);
    if let Some(args) = conjuncts(condition) {
        add_parts(alloc, decls, vars, args, &mut parts)?;
        return Ok(parts);
    }
    add_part(alloc, decls, vars, condition, &mut parts)?;
    Ok(parts)
}

/// The arc of a number.
fn arc_at(net: &Typed, number: u32) -> &FlatArc
    requires { number < length net.now.arcs }
    ensures { slice_get net.now.arcs number ≡ Some result.now }
{
    &net.flat().arcs.as_slice()[number as usize]
}

/// How many of the variables the inscription of an arc needs.
fn arc_need(alloc: Global, net: &Typed, number: u32, vars: &[u32]) -> Result<usize, AllocError>
    requires ascending { IsStrictlyIncreasing vars.now }
    requires known { IsKnownArc net.now vars.now number }
    ensures { IfOk result (λ n. IsKnownArc net.now (take n vars.now) number) }
{
    let arc = arc_at(net, number);
    match &arc.arc.inscription {
        Some(label) => need(alloc, net.decls(), &label.get().value, vars),
        None => Ok(0),
    }
}

/// Arcs, and how many of the variables each needs.
pub fn arc_parts(
    alloc: Global,
    net: &Typed,
    numbers: &[u32],
    vars: &[u32],
) -> Result<Vec<ArcPart>, AllocError>
    requires ascending { IsStrictlyIncreasing vars.now }
    requires known { AreKnown net.now vars.now numbers.now }
    ensures numbers { IfOk result (λ arcs. map (λ arc. arc.number) arcs.items ≡ numbers.now) }
    ensures known { IfOk result (λ arcs. (arc : ArcPart) → Contains arcs.items arc → IsArcWith net.now vars.now arc) }
{
    let mut arcs = Vec::with_capacity(alloc, numbers.len())?;
    for number in numbers {
        let need = arc_need(alloc, net, *number, vars)?;
        arcs.push(ArcPart {
            number: *number,
            need,
        })?;
    }
    Ok(arcs)
}

/// The transition of a number.
fn transition_at(net: &Typed, number: u32) -> &Transition
    requires { number < length net.now.transitions }
    ensures condition { condition_at net.now number ≡ said result.now.condition }
    ensures typed { IfSome (said result.now.condition) (IsTypedTerm net.now.declarations) }
{
    &net.flat().transitions.as_slice()[number as usize]
}

/// The parts of the condition of a transition, where it has one: the arguments of its outermost
/// `and`, or the condition itself, each with how many of the transition's variables, the first ones,
/// it needs.
pub fn condition_parts<'a>(
    alloc: Global,
    net: &'a Typed,
    number: u32,
    vars: &[u32],
) -> Result<Vec<Part<'a>>, AllocError>
    requires within { number < length net.now.transitions }
    requires variables { AreVariablesAt net.now number vars.now }
    ensures { IfOk result (λ parts. (part : Part) → Contains parts.items part → IsConditionPart net.now number vars.now part) }
{
    let transition = transition_at(net, number);
    match &transition.condition {
        Some(label) => parts_in(alloc, net.decls(), vars, &label.get().value),
        None => Ok(Vec::new(alloc)),
    }
}
