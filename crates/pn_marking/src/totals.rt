//! What the arcs of a transition move.

ghost use Rattle.std.specs.Prelude.{◌≡◌, ◌+◌, ◌<◌, ◌∷◌, [], ℕ, List, None, Some, IfOk, IfSome, length};
ghost use Rattle.pn_bag.specs.Bag.{IsBag};
ghost use Rattle.pn_bag.specs.Counts.{count_of};
ghost use Rattle.pn_bag.specs.declared.TheConstants.{MAX_COUNT};
ghost use Rattle.pn_eval.specs.Assignments.{IsAssignment};
ghost use Rattle.pn_marking.specs.Known.{AreKnown, IsKnownArc, arcs_with};
ghost use Rattle.pn_marking.specs.Totals.{HasTotals, IsMoved, IsMovedBy, arcs_at, leads};
ghost use Rattle.pn_net.specs.Orders.{token_cmp};
ghost use Rattle.pn_net.specs.Typed.{AreVariablesAt};
ghost use Rattle.pn_net.specs.declared.token.Token.{Token};

use crate::arcs::{arc_at, arc_tokens};
use crate::terms::gives_one;
use crate::tokens::is_bag;
use pn_bag::{Bag, BagFault};
use pn_net::{FlatArc, Marking, Typed};
use pn_values::Value;
use std::alloc::{AllocError, Global};

/// What a transition moves in one direction, where its variables have these values; none where a
/// total has no value. Sums are made in a tree, so that each token moves once for each level.
pub(crate) fn moved(
    alloc: Global,
    net: &Typed,
    transition: u32,
    into: bool,
    vars: &[u32],
    values: &[Value],
) -> Result<Option<Marking>, AllocError>
    requires within { transition < length net.now.transitions }
    requires variables { AreVariablesAt net.now transition vars.now }
    requires assignment { IsAssignment net.now.declarations vars.now values.now }
    ensures some { IfOk result (λ o. IfSome o (IsMoved net.now transition into vars.now values.now)) }
    ensures none { IfOk result (λ o. o ≡ None → HasTotals net.now vars.now values.now (arcs_at net.now transition into) → ⊥) }
{
    total(alloc, net, net.arcs_of(transition), into, vars, values)
}

/// What those of some arcs move that lead in one direction, where these variables have these values,
/// which are all that stand in their inscriptions; none where a total has no value (ISO/IEC 15909-1,
/// transition rule).
///
/// The recursion halves the number of arcs, so each token moves once for each level. The time is
/// linear in what the arcs move, times the logarithm of their number, but for what the terms in their
/// inscriptions take.
pub fn total(
    alloc: Global,
    net: &Typed,
    numbers: &[u32],
    into: bool,
    vars: &[u32],
    values: &[Value],
) -> Result<Option<Marking>, AllocError>
    requires known { AreKnown net.now vars.now numbers.now }
    requires assignment { IsAssignment net.now.declarations vars.now values.now }
    ensures some { IfOk result (λ o. IfSome o (IsMovedBy net.now vars.now values.now (arcs_with net.now into numbers.now))) }
    ensures none { IfOk result (λ o. o ≡ None → HasTotals net.now vars.now values.now (arcs_with net.now into numbers.now) → ⊥) }
{
    let count = numbers.len();
    if count == 0 {
        return Ok(Some(nothing(alloc)));
    }
    if count == 1 {
        return one(alloc, net, numbers[0], into, vars, values);
    }
    let half = count / 2;
    let left = total(alloc, net, &numbers[..half], into, vars, values)?;
    let right = total(alloc, net, &numbers[half..], into, vars, values)?;
    gives_one(net);
    both(left, right)
}

/// No tokens.
fn nothing(alloc: Global) -> Marking
    ensures empty { result ≡ [] }
    ensures bag { IsBag token_cmp result }
{
    let marking = Bag::new(alloc);
    is_bag(&marking);
    marking
}

/// What an arc moves, if it leads in this direction.
fn one(
    alloc: Global,
    net: &Typed,
    number: u32,
    into: bool,
    vars: &[u32],
    values: &[Value],
) -> Result<Option<Marking>, AllocError>
    requires known { IsKnownArc net.now vars.now number }
    requires assignment { IsAssignment net.now.declarations vars.now values.now }
    ensures some { IfOk result (λ o. IfSome o (IsMovedBy net.now vars.now values.now (arcs_with net.now into (number ∷ [])))) }
    ensures none { IfOk result (λ o. o ≡ None → HasTotals net.now vars.now values.now (arcs_with net.now into (number ∷ [])) → ⊥) }
{
    if leads_there(arc_at(net, number), into) {
        return arc_tokens(alloc, net, number, vars, values);
    }
    Ok(Some(nothing(alloc)))
}

/// Whether an arc leads in this direction.
fn leads_there(arc: &FlatArc, into: bool) -> bool
    ensures { result ≡ leads into arc.now }
{
    if into {
        arc.into_place
    } else {
        !arc.into_place
    }
}

/// The sum of tokens, where both are there and no count is too large.
fn both(left: Option<Marking>, right: Option<Marking>) -> Result<Option<Marking>, AllocError>
    ensures some { IfOk result (λ o. IfSome o (λ m. (a b : List (Token × ℕ)) × (left ≡ Some a) × (right ≡ Some b)
        × IsBag token_cmp m × ((k : Token) → count_of token_cmp m k ≡ count_of token_cmp a k + count_of token_cmp b k))) }
    ensures none { IfOk result (λ o. o ≡ None → (a b : List (Token × ℕ)) → left ≡ Some a → right ≡ Some b
        → (k : Token) × (MAX_COUNT < count_of token_cmp a k + count_of token_cmp b k)) }
{
    match (left, right) {
        (Some(sum), Some(rest)) => joined(sum, rest),
        _ => Ok(None),
    }
}

/// The sum of tokens, where no count is too large.
fn joined(sum: Marking, rest: Marking) -> Result<Option<Marking>, AllocError>
    ensures bag { IfOk result (λ o. IfSome o (IsBag token_cmp)) }
    ensures counts { IfOk result (λ o. IfSome o (λ m. (k : Token) → count_of token_cmp m k ≡ count_of token_cmp sum k + count_of token_cmp rest k)) }
    ensures none { IfOk result (λ o. o ≡ None → (k : Token) × (MAX_COUNT < count_of token_cmp sum k + count_of token_cmp rest k)) }
{
    let mut all = sum;
    match all.join(rest) {
        Ok(()) => {
            is_bag(&all);
            Ok(Some(all))
        }
        Err(BagFault::Memory(error)) => Err(error),
        Err(BagFault::TooLarge) => Ok(None),
    }
}
