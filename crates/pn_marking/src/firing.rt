//! Steps: multisets of modes that fire at once.

ghost use Rattle.std.specs.Prelude.{◌≡◌, ◌+◌, ◌≤◌, ◌<◌, ◌-◌, ℕ, Err, IfErr, IfOk, IfSome, IsNone, List, OnOk};
ghost use Rattle.pn_bag.specs.Bag.{IsBag};
ghost use Rattle.pn_bag.specs.Counts.{Every, count_in, count_of};
ghost use Rattle.pn_bag.specs.declared.TheConstants.{MAX_COUNT};
ghost use Rattle.pn_net.specs.Orders.{token_cmp};
ghost use Rattle.pn_net.specs.declared.token.Token.{Token};
ghost use Rattle.pn_marking.specs.Firing.{IsLeastLarge, IsLeastShort};
ghost use Rattle.pn_marking.specs.Flows.{AreInOrder, AreLeft, IsSmallEnough, IsEnough, IsFirstBut, IsLargeIn, IsShortIn, capped, saturated};
ghost use Rattle.pn_marking.specs.Moves.{AreStepFlows};
ghost use Rattle.pn_marking.specs.Steps.{AreModes, IsStep};
ghost use Rattle.pn_marking.specs.Totals.{AreTokensOf};

use crate::flows::{Flow, Side, flows_of, merge};
use crate::sums::moves_of;
use pn_bag::{Bag, BagFault, MAX_COUNT};
use pn_net::{Marking, Mode, Token, Typed};
use std::alloc::{AllocError, Global};
use thiserror::Error;

/// Why a multiset of modes did not fire.
#[derive(Debug, Drop, Error)]
pub enum FireFault {
    #[error(transparent)]
    Memory(#[from(alloc)] AllocError),
    /// The modes take this token more often than the marking has it: the least such token, how
    /// often they take it, as 2^63 where it is more often, and how often it is there.
    #[error("a token is missing")]
    NotEnabled { token: Token, need: u64, has: u64 },
    /// The modes can fire, and this token's count would pass 2^63 - 1: the least such token.
    #[error("a count is too large")]
    CountTooLarge(Token),
}

/// The marking that a multiset of modes leads to: the marking less all that the modes take, joined
/// with all that they put (ISO/IEC 15909-1, transition rule). The empty multiset leads to the same
/// marking.
///
/// It answers `NotEnabled` exactly where the modes together take more than is there, though each of
/// them alone may have enough; and `CountTooLarge` exactly where they do not, and a count of the new
/// marking would pass 2^63 - 1.
///
/// It is linear in the marking, once, and, times the logarithm of the number of modes, in what they
/// take and put.
pub fn fire(
    alloc: Global,
    net: &Typed,
    marking: &Marking,
    modes: &Bag<Mode>,
) -> Result<Marking, FireFault>
    requires { AreModes net.now modes.now }
    ensures step { IfOk result (IsStep net.now marking.now modes.now) }
    ensures short { (token : Token) (need has : ℕ) → result ≡ Err (FireFault.NotEnabled token need has)
        → IsLeastShort net.now marking.now modes.now token need has }
    ensures large { (token : Token) → result ≡ Err (FireFault.CountTooLarge token)
        → IsLeastLarge net.now marking.now modes.now token }
    ensures tokens { AreTokensOf net.now marking.now → IfOk result (AreTokensOf net.now) }
{
    match step_flows(alloc, net, marking, modes) {
        Ok(flows) => settle(alloc, &flows),
        Err(error) => Err(FireFault::Memory(error)),
    }
}

/// What the marking has, and what the modes take and put.
fn step_flows(
    alloc: Global,
    net: &Typed,
    marking: &Marking,
    modes: &Bag<Mode>,
) -> Result<Vec<Flow>, AllocError>
    requires { AreModes net.now modes.now }
    ensures { IfOk result (λ flows. AreStepFlows net.now marking.now modes.now flows.items) }
{
    let has = flows_of(alloc, Side::Has, 1, marking)?;
    let moves = moves_of(alloc, net, modes)?;
    merge(alloc, has, moves)
}

/// What is left of each token, or the least token of which too few are there, or else too many left.
fn settle(alloc: Global, flows: &[Flow]) -> Result<Marking, FireFault>
    requires { AreInOrder flows.now }
    ensures enough { IfOk result (λ _. Every IsEnough flows.now) }
    ensures left { IfOk result (AreLeft flows.now) }
    ensures bag { IfOk result (IsBag token_cmp) }
    ensures short { (token : Token) (need has : ℕ) → result ≡ Err (FireFault.NotEnabled token need has)
        → IsShortIn flows.now token need has }
    ensures large { (token : Token) → result ≡ Err (FireFault.CountTooLarge token)
        → Every IsEnough flows.now × IsLargeIn flows.now token }
{
    if let Some(flow) = first_short(flows) {
        return Err(not_enabled(alloc, flow));
    }
    if let Some(flow) = first_large(flows) {
        return Err(too_large(alloc, flow));
    }
    match new_marking(alloc, flows) {
        Ok(marking) => Ok(marking),
        Err(error) => Err(FireFault::Memory(error)),
    }
}

/// The first flow of which too few are there.
fn first_short<'a>(flows: &'a [Flow]) -> Option<&'a Flow>
    ensures some { IfSome result (λ flow. IsFirstBut IsEnough flows.now flow.now) }
    ensures short { IfSome result (λ flow. flow.now.has < flow.now.taken) }
    ensures none { IsNone result → Every IsEnough flows.now }
{
    for flow in flows {
        if flow.taken > flow.has {
            return Some(flow);
        }
    }
    None
}

/// The first flow of which too many are left.
fn first_large<'a>(flows: &'a [Flow]) -> Option<&'a Flow>
    requires { Every IsEnough flows.now }
    ensures some { IfSome result (λ flow. IsFirstBut IsSmallEnough flows.now flow.now) }
    ensures large { IfSome result (λ flow. MAX_COUNT + flow.now.taken < flow.now.has + flow.now.put) }
    ensures none { IsNone result → Every IsSmallEnough flows.now }
{
    for flow in flows {
        if left_of(flow) > MAX_COUNT {
            return Some(flow);
        }
    }
    None
}

/// How many are left of a token.
fn left_of(flow: &Flow) -> u64
    requires { IsEnough flow.now }
    ensures { result ≡ saturated (flow.now.has - flow.now.taken + flow.now.put) }
{
    (flow.has - flow.taken).saturating_add(flow.put)
}

/// The fault of a token of which there are too few.
fn not_enabled(alloc: Global, flow: &Flow) -> FireFault
    ensures short { (token : Token) (need has : ℕ) → result ≡ FireFault.NotEnabled token need has
        → (token ≡ flow.now.token) × (need ≡ capped flow.now.taken) × (has ≡ flow.now.has) }
    ensures large { (token : Token) → result ≡ FireFault.CountTooLarge token → ⊥ }
{
    match flow.token.copy(alloc) {
        Ok(token) => FireFault::NotEnabled {
            token,
            need: flow.taken.min(MAX_COUNT + 1),
            has: flow.has,
        },
        Err(error) => FireFault::Memory(error),
    }
}

/// The fault of a token of which too many would be left.
fn too_large(alloc: Global, flow: &Flow) -> FireFault
    ensures large { (token : Token) → result ≡ FireFault.CountTooLarge token → token ≡ flow.now.token }
    ensures short { (token : Token) (need has : ℕ) → result ≡ FireFault.NotEnabled token need has → ⊥ }
{
    match flow.token.copy(alloc) {
        Ok(token) => FireFault::CountTooLarge(token),
        Err(error) => FireFault::Memory(error),
    }
}

/// What is left of each token, as a marking.
fn new_marking(alloc: Global, flows: &[Flow]) -> Result<Marking, AllocError>
    requires order { AreInOrder flows.now }
    requires enough { Every IsEnough flows.now }
    requires room { Every IsSmallEnough flows.now }
    ensures left { IfOk result (AreLeft flows.now) }
    ensures bag { IfOk result (IsBag token_cmp) }
{
    let mut marking = Bag::new(alloc);
    for flow in flows {
        put(&mut marking, flow.token.copy(alloc)?, left_of(flow))?;
    }
    is_bag(&marking);
    Ok(marking)
}

/// A marking is a multiset.
fn is_bag(marking: &Marking)
    ensures { IsBag token_cmp marking.now }
{
    let _entries = marking.iter();
}

/// Puts a token so many times.
fn put(marking: &mut Marking, token: Token, count: u64) -> Result<(), AllocError>
    requires { count_of token_cmp marking.old token + count ≤ MAX_COUNT }
    ensures { OnOk result ((other : Token) → count_of token_cmp marking.new other
        ≡ count_of token_cmp marking.old other + count_in token_cmp (token, count) other) }
{
    match marking.add(token, count) {
        Ok(()) => Ok(()),
        Err(BagFault::Memory(error)) => Err(error),
        Err(BagFault::TooLarge) => unreachable!(),
    }
}
