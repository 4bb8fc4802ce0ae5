//! What becomes of each token in a step.

ghost use Rattle.std.specs.Prelude.{◌≡◌, ◌+◌, ◌++◌, ◌∷◌, ◌<◌, [], length, IfNone, IfOk, IfSome, vec_len};
ghost use Rattle.std.specs.declared.cmp.Ordering.TheVariants.{Less, Equal, Greater};
ghost use Rattle.pn_bag.specs.Bag.{IsBag};
ghost use Rattle.pn_net.specs.Orders.{token_cmp};
ghost use Rattle.pn_marking.specs.Flows.{AreInOrder, AreLastsOfOne, AreMerged, AreTokens, IsGreatestOf, IsLastAbove, flow_of, join_of};

use pn_net::{Marking, Token};
use std::alloc::{AllocError, Global};
use std::cmp::Ordering;

/// How often a marking has a token, and how often the modes of a step take it and put it.
#[derive(Debug, Drop)]
pub(crate) struct Flow {
    pub(crate) token: Token,
    pub(crate) has: u64,
    pub(crate) taken: u64,
    pub(crate) put: u64,
}

/// One of the three counts of a flow.
#[derive(Clone, Copy, Debug)]
pub(crate) enum Side {
    Has,
    Taken,
    Put,
}

/// The flow of a token that is on one side alone.
fn one_sided(side: Side, token: Token, count: u64) -> Flow
    ensures { result ≡ flow_of side token count }
{
    match side {
        Side::Has => Flow {
            token,
            has: count,
            taken: 0,
            put: 0,
        },
        Side::Taken => Flow {
            token,
            has: 0,
            taken: count,
            put: 0,
        },
        Side::Put => Flow {
            token,
            has: 0,
            taken: 0,
            put: count,
        },
    }
}

/// The tokens of a multiset on one side, so many times.
pub(crate) fn flows_of(
    alloc: Global,
    side: Side,
    times: u64,
    tokens: &Marking,
) -> Result<Vec<Flow>, AllocError>
    ensures tokens { IfOk result (λ flows. AreTokens side times tokens.now flows.items) }
    ensures order { IfOk result (λ flows. AreInOrder flows.items) }
    ensures bag { IsBag token_cmp tokens.now }
{
    let mut flows = Vec::new(alloc);
    for (token, count) in tokens.iter() {
        flows.push(one_sided(side, token.copy(alloc)?, times.saturating_mul(count)))?;
    }
    Ok(flows)
}

/// The flows of both lists, token by token, in one walk over both. Counts past 2^64 - 1 stay there.
pub(crate) fn merge(
    alloc: Global,
    mut left: Vec<Flow>,
    mut right: Vec<Flow>,
) -> Result<Vec<Flow>, AllocError>
    requires left { AreInOrder left.items }
    requires right { AreInOrder right.items }
    ensures { IfOk result (λ all. AreMerged left.items right.items all.items) }
{
    let mut all = Vec::new(alloc);
    while let Some(flow) = take_greatest(&mut left, &mut right) {
        all.push(flow)?;
    }
    all.reverse();
    Ok(all)
}

/// Takes the flow of the greatest token out of both lists.
fn take_greatest(left: &mut Vec<Flow>, right: &mut Vec<Flow>) -> Option<Flow>
    requires left { AreInOrder left.old.items }
    requires right { AreInOrder right.old.items }
    ensures some { IfSome result (IsGreatestOf left.old.items right.old.items left.new.items right.new.items) }
    ensures none { IfNone result ((left.old.items ≡ []) × (right.old.items ≡ [])) }
    ensures shorter { IfSome result (λ _. vec_len left.new + vec_len right.new
        < vec_len left.old + vec_len right.old) }
{
    if left.is_empty() && right.is_empty() {
        return None;
    }
    match compare_lasts(left, right) {
        Ordering::Less => Some(take_last(right)),
        Ordering::Greater => Some(take_last(left)),
        Ordering::Equal => Some(join(take_last(left), take_last(right))),
    }
}

/// How the last tokens of two lists compare, of which one has some. A list that has none is below
/// the other.
fn compare_lasts(left: &[Flow], right: &[Flow]) -> Ordering
    requires left { AreInOrder left.now }
    requires right { AreInOrder right.now }
    requires some { 0 < length left.now + length right.now }
    ensures less { result ≡ Less → IsLastAbove right.now left.now }
    ensures greater { result ≡ Greater → IsLastAbove left.now right.now }
    ensures equal { result ≡ Equal → AreLastsOfOne left.now right.now }
{
    if left.is_empty() {
        return Ordering::Less;
    }
    if right.is_empty() {
        return Ordering::Greater;
    }
    let last = &left[left.len() - 1];
    last.token.cmp(&right[right.len() - 1].token)
}

/// Takes the last flow.
fn take_last(flows: &mut Vec<Flow>) -> Flow
    requires { 0 < vec_len flows.old }
    ensures items { flows.old.items ≡ flows.new.items ++ result ∷ [] }
    ensures shorter { vec_len flows.new + 1 ≡ vec_len flows.old }
{
    flows.pop().unwrap()
}

/// The two flows of one token as one.
fn join(left: Flow, right: Flow) -> Flow
    ensures { result ≡ join_of left right }
{
    Flow {
        token: left.token,
        has: left.has.saturating_add(right.has),
        taken: left.taken.saturating_add(right.taken),
        put: left.put.saturating_add(right.put),
    }
}
