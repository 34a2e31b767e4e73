// The stages of a blueprint that choose, and the moves that each node follows.
ghost use Rattle.std.specs.Prelude.{◌≡◌, ◌<◌, ◌^◌, ◌++◌, [], IfOk, length, map, replicate, true, None, List, ℕ};
ghost use Rattle.stream_model.specs.declared.blueprint.Node as blue;
ghost use Rattle.blue_names.specs.Picks.{picks};
ghost use Rattle.plan_reader.specs.Plans.{SaysPlans};
ghost use Rattle.materializer.specs.Choosers.{drop_shape, joined_shape, chooser_shape, with_chooser, choosers_in, plans_in, first_moves, moves_behind, moves_of, PlansFit};
ghost use Rattle.std.specs.Vec.Iter.{into_iter_items, into_iter_len};

use crate::seats::take_next;
use blue_check::picks::picks;
use elem_core::why::NoMemory;
use plan_reader::plans::{Chooser, Shape};
use std::alloc::Global;
use std::vec::IntoIter;
use stream_model::blueprint::Node;
use stream_model::kind::{Joining, Kind, Policy};

/// Which moves a buffer may make.
fn drop_shape(policy: Policy) -> Option<Shape>
    ensures { result ≡ drop_shape policy }
{
    match policy {
        Policy::Backpressure => None,
        _ => Some(Shape::Below(2)),
    }
}

/// Which moves substreams may make.
fn joined_shape(joining: Joining) -> Option<Shape>
    ensures { result ≡ joined_shape joining }
{
    match joining {
        Joining::Merge => Some(Shape::Any),
        Joining::Concat => None,
    }
}

/// Which moves a stage of this kind may make, where it chooses.
pub fn chooser_shape(alloc: Global, kind: &Kind) -> Result<Option<Shape>, NoMemory>
    ensures { IfOk result (λ shape. shape ≡ chooser_shape kind.now) }
{
    Ok(match kind {
        Kind::Merge(inputs) | Kind::MergeHub(_, inputs) => Some(Shape::Below(*inputs)),
        Kind::Balance(outputs) => Some(Shape::Below(*outputs)),
        Kind::Buffer(_, policy) => drop_shape(*policy),
        Kind::Valve(switch) => Some(Shape::OrderOf(switch.copy(alloc)?)),
        Kind::RecoverNum(_) | Kind::RecoverText(_) => Some(Shape::AtMostOne),
        Kind::GroupBy(_, _, _) => Some(Shape::Any),
        Kind::SplitWhen(_, _, joining) | Kind::SplitAfter(_, _, joining) => joined_shape(*joining),
        _ => None,
    })
}

/// One more stage that chooses, where this node does.
fn add_chooser(alloc: Global, node: &Node, choosers: &mut Vec<Chooser>) -> Result<(), NoMemory>
    ensures { IfOk result (λ u. choosers.new.items ≡ choosers.old.items ++ with_chooser node.now.name (chooser_shape node.now.kind) []) }
{
    let Some(shape) = chooser_shape(alloc, &node.kind)? else {
        return Ok(());
    };
    let name = node.name.copy(alloc)?;
    choosers.push(Chooser { name, shape })?;
    Ok(())
}

/// The stages among these nodes that choose, in their order, each with the moves that it may make.
pub fn choosers_of(alloc: Global, nodes: &[Node]) -> Result<Vec<Chooser>, NoMemory>
    ensures { IfOk result (λ choosers. choosers.items ≡ choosers_in nodes.now) }
{
    let mut choosers = Vec::new(alloc);
    for node in nodes {
        add_chooser(alloc, node, &mut choosers)?;
    }
    Ok(choosers)
}

/// The moves of a node of this kind out of those that are left: the next ones where it chooses.
fn next_moves(kind: &Kind, left: &mut IntoIter<Vec<u32>, Global>) -> Option<Vec<u32>>
    requires { picks kind.now ≡ true → 0 < into_iter_len left.old }
    ensures moves { moves_of result ≡ first_moves kind.now (map (λ p. p.items) (into_iter_items left.old)) }
    ensures left { map (λ p. p.items) (into_iter_items left.new) ≡ moves_behind kind.now (map (λ p. p.items) (into_iter_items left.old)) }
    ensures each { into_iter_len left.old ≡ length (into_iter_items left.old) → into_iter_len left.new ≡ length (into_iter_items left.new) }
{
    if picks(kind) {
        Some(take_next(left))
    } else {
        None
    }
}

/// The moves that each node follows, where these are those of the stages that choose, in the order of nodes.
pub fn plans_by_node(
    alloc: Global,
    nodes: &[Node],
    plans: Vec<Vec<u32>>,
) -> Result<Vec<Option<Vec<u32>>>, NoMemory>
    requires { (text : List ℕ) × ((length text < 2 ^ 32) × SaysPlans (choosers_in nodes.now) text (map (λ p. p.items) plans.items)) }
    ensures plans { IfOk result (λ by_node. map moves_of by_node.items ≡ plans_in nodes.now (map (λ p. p.items) plans.items)) }
    ensures fit { IfOk result (λ by_node. PlansFit (map (λ n. n.kind) nodes.now) (map moves_of by_node.items)) }
{
    let mut left = plans.into_iter();
    let mut by_node = Vec::with_capacity(alloc, nodes.len())?;
    for node in nodes {
        by_node.push_reserved(next_moves(&node.kind, &mut left));
    }
    Ok(by_node)
}

/// So many nodes that follow no moves.
pub fn no_plans(alloc: Global, nodes: usize) -> Result<Vec<Option<Vec<u32>>>, NoMemory>
    ensures plans { IfOk result (λ by_node. map moves_of by_node.items ≡ replicate nodes None) }
    ensures fit { IfOk result (λ by_node. (all : List blue.Node) → length all ≡ nodes → PlansFit (map (λ n. n.kind) all) (map moves_of by_node.items)) }
{
    let mut by_node = Vec::with_capacity(alloc, nodes)?;
    for _ in 0..nodes {
        by_node.push_reserved(None);
    }
    Ok(by_node)
}
