//! Where references lead: to a reference, a place or a transition, to nothing, or round for ever.

ghost use Rattle.std.specs.Prelude.{◌≡◌, ◌<◌, List, [], ◌∷◌, ◌++◌, length, Option, Some, false, IfOk, OnOk, if◌then◌else◌};
ghost use Rattle.std.specs.List.{AllZip, slice_get};
ghost use Rattle.pn_cycles.specs.Graphs.{IsWhole};
ghost use Rattle.pn_cycles.specs.Orders.{ListsEachOnce, StandBehindOffCycles, TellsCycles};
ghost use Rattle.pn_faults.specs.declared.fault.Fault.{Fault};
ghost use Rattle.pn_net.specs.Ids.{IdHolder};
ghost use Rattle.pn_pages.specs.Following.{AreGoals, HaveGoals, IsTarget, goal_at, goal_through, lost, of_one_side, rows_of_targets, settled_goal, targets_row};
ghost use Rattle.pn_pages.specs.Naming.{AreNamed, told_by};
ghost use Rattle.pn_pages.specs.declared.names.Node.{Node};
ghost use Rattle.pn_pages.specs.declared.numbered.Objects.{Objects};

use crate::names::{Names, Node};
use pn_cycles::{Graph, Order, order_of};
use pn_objects::Reference;
use std::alloc::{AllocError, Global};

/// What each reference refers to.
pub(crate) fn targets(
    alloc: Global,
    names: &Names<'_>,
    references: &[Reference],
) -> Result<Vec<Option<Node>>, AllocError>
    ensures { IfOk result (λ targets. (o : Objects) (hs : List IdHolder) (least : Option Fault) → AreNamed o hs (told_by names.now) least → AllZip (IsTarget o hs) references.now targets.items) }
{
    let mut targets = Vec::new(alloc);
    for reference in references {
        targets.push(names.find(reference.refers.as_str()))?;
    }
    Ok(targets)
}

/// The graph of references: each leads to the reference that it refers to, if it refers to one.
pub(crate) fn graph_of(alloc: Global, targets: &[Option<Node>]) -> Result<Graph, AllocError>
    ensures { IfOk result (λ graph. graph ≡ rows_of_targets targets.now) }
{
    let mut graph = Graph::new(alloc);
    for target in targets {
        add_target(&mut graph, *target)?;
    }
    Ok(graph)
}

fn add_target(graph: &mut Graph, target: Option<Node>) -> Result<(), AllocError>
    ensures { OnOk result (graph.new ≡ graph.old ++ targets_row target ∷ []) }
{
    graph.node()?;
    if let Some(Node::Reference(k)) = target {
        graph.edge(k)?;
    }
    Ok(())
}

/// Where a reference leads.
#[derive(Clone, Copy)]
pub(crate) struct Goal {
    /// The number of the place, or of the transition where it is a reference to one, that it leads
    /// to over references of its own side.
    pub(crate) end: Option<usize>,
    /// Following references from it never ends.
    pub(crate) endless: bool,
}

/// Where a reference leads that is on no cycle, by where the others lead. The first references, so
/// many, are to places.
fn goal_by(place_refs: usize, node: usize, target: Option<Node>, goals: &[Goal]) -> Goal
    ensures { result ≡ goal_at place_refs node target goals.now }
{
    match target {
        Some(Node::Place(i)) => goal_within(node < place_refs, i),
        Some(Node::Transition(i)) => goal_within(place_refs <= node, i),
        Some(Node::Reference(k)) => goal_behind(is_same_side(place_refs, node, k), goals, k),
        _ => no_goal(),
    }
}

/// A place or transition where the side is right.
fn goal_within(right: bool, end: usize) -> Goal
    ensures { result ≡ (if right then (record { end = Some end; endless = false }) else lost) }
{
    if right {
        return Goal {
            end: Some(end),
            endless: false,
        };
    }
    no_goal()
}

/// What the reference of this number leads to, where the side is right.
fn goal_behind(right: bool, goals: &[Goal], k: usize) -> Goal
    ensures { result ≡ goal_through right (slice_get goals.now k) }
{
    match goals.get(k) {
        Some(goal) => {
            if right {
                return *goal;
            }
            Goal {
                end: None,
                endless: goal.endless,
            }
        }
        None => no_goal(),
    }
}

fn no_goal() -> Goal
    ensures { result ≡ lost }
{
    Goal {
        end: None,
        endless: false,
    }
}

/// Whether two references are of one side.
fn is_same_side(place_refs: usize, one: usize, other: usize) -> bool
    ensures { result ≡ of_one_side place_refs one other }
{
    if one < place_refs {
        other < place_refs
    } else {
        place_refs <= other
    }
}

/// Where each reference leads. The first references, so many, are to places. Time and memory are
/// linear in the references.
pub(crate) fn goals(
    alloc: Global,
    targets: &[Option<Node>],
    place_refs: usize,
) -> Result<Vec<Goal>, AllocError>
    requires { IsWhole (rows_of_targets targets.now) }
    ensures { IfOk result (λ goals. HaveGoals place_refs targets.now goals.items) }
{
    let graph = graph_of(alloc, targets)?;
    let order = order_of(alloc, &graph)?;
    let mut goals = vec![in alloc; no_goal(); targets.len()]?;
    settle(&order, targets, place_refs, &mut goals);
    Ok(goals)
}

/// Tells where each reference leads, in an order in which each that is on no cycle stands behind the
/// one that it refers to.
fn settle(order: &Order, targets: &[Option<Node>], place_refs: usize, goals: &mut [Goal])
    requires size { length goals.old ≡ length targets.now }
    requires cycles { length order.now.on_cycle ≡ length targets.now }
    requires tells { TellsCycles (rows_of_targets targets.now) order.now.on_cycle }
    requires each { ListsEachOnce (length (rows_of_targets targets.now)) order.now.nodes }
    requires behind { StandBehindOffCycles (rows_of_targets targets.now) order.now.nodes }
    ensures { AreGoals place_refs targets.now order.now.on_cycle goals.new }
{
    let nodes = order.nodes();
    for i in 0..nodes.len() {
        let node = nodes[i];
        let target = targets[node];
        goals[node] = settled(order, place_refs, node, target, goals);
    }
}

/// Where a reference leads.
fn settled(
    order: &Order,
    place_refs: usize,
    node: usize,
    target: Option<Node>,
    goals: &[Goal],
) -> Goal
    requires { node < length order.now.on_cycle }
    ensures { result ≡ settled_goal place_refs order.now.on_cycle node target goals.now }
{
    if order.is_on_cycle(node) {
        return Goal {
            end: None,
            endless: true,
        };
    }
    goal_by(place_refs, node, target, goals)
}
