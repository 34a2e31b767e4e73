// The wires of hubs: their lanes, and the rule on them.
ghost use Rattle.std.specs.Prelude.{◌≡◌, ◌||◌, is_some, IfOk, map, slice_get};
ghost use Rattle.std.specs.List.{list_any};
ghost use Rattle.blue_names.specs.Hubs.{size_into, size_out_of, size_into_node, size_out_of_node, hub_size, hub_of, where_lanes, is_hub_fault};
ghost use Rattle.blue_names.specs.RuleLinks.{hub_wrong, is_faulty_wire};
ghost use Rattle.blue_names.specs.Table.{Numbers};

use crate::links::node_number;
use crate::table::{NameTable, table_of};
use elem_core::why::NoMemory;
use std::alloc::Global;
use stream_model::blueprint::{Node, WireDecl};
use stream_model::kind::Kind;

/// The size of the lanes into a kind, where it is a merge hub.
fn size_into(kind: &Kind) -> Option<u32>
    ensures { result ≡ size_into kind.now }
{
    match kind {
        Kind::MergeHub(size, _) => Some(*size),
        _ => None,
    }
}

/// The size of the lanes out of a kind, where it is a broadcast hub.
fn size_out_of(kind: &Kind) -> Option<u32>
    ensures { result ≡ size_out_of kind.now }
{
    match kind {
        Kind::BroadcastHub(size, _) => Some(*size),
        _ => None,
    }
}

/// The size of the lanes into a node.
fn size_into_node(nodes: &[Node], node: usize) -> Option<u32>
    ensures { result ≡ size_into_node (slice_get nodes.now node) }
{
    match nodes.get(node) {
        None => None,
        Some(node) => size_into(&node.kind),
    }
}

/// The size of the lanes out of a node.
fn size_out_of_node(nodes: &[Node], node: usize) -> Option<u32>
    ensures { result ≡ size_out_of_node (slice_get nodes.now node) }
{
    match nodes.get(node) {
        None => None,
        Some(node) => size_out_of(&node.kind),
    }
}

/// The size that a hub gives a wire from one node to another, where the wire belongs to one.
pub fn hub_size(nodes: &[Node], from: usize, to: usize) -> Option<u32>
    ensures { result ≡ hub_size nodes.now from to }
{
    match size_out_of_node(nodes, from) {
        Some(size) => Some(size),
        None => size_into_node(nodes, to),
    }
}

/// The number of a node where lanes of a hub are there.
fn where_lanes(size: Option<u32>, node: usize) -> Option<usize>
    ensures { result ≡ where_lanes size node }
{
    match size {
        Some(_) => Some(node),
        None => None,
    }
}

/// The number of the hub that a wire from one node to another belongs to, where it belongs to one.
pub(crate) fn hub_of(nodes: &[Node], from: usize, to: usize) -> Option<usize>
    ensures { result ≡ hub_of nodes.now from to }
{
    match where_lanes(size_out_of_node(nodes, from), from) {
        Some(hub) => Some(hub),
        None => where_lanes(size_into_node(nodes, to), to),
    }
}

/// Whether a wire of a hub is marked as a lane itself, or goes from a broadcast hub to a merge hub.
fn is_hub_fault(nodes: &[Node], from: usize, to: usize, marked: bool) -> bool
    ensures { result ≡ is_hub_fault nodes.now from to marked }
{
    (marked && hub_size(nodes, from, to).is_some())
        || (size_out_of_node(nodes, from).is_some() && size_into_node(nodes, to).is_some())
}

/// Whether a kind is a hub.
fn is_hub(kind: &Kind) -> bool
    ensures { result ≡ (is_some (size_out_of kind.now) || is_some (size_into kind.now)) }
{
    size_out_of(kind).is_some() || size_into(kind).is_some()
}

/// Whether some node is a hub.
fn has_hub(nodes: &[Node]) -> bool
    ensures { result ≡ list_any (λ n. is_some (size_out_of n.kind) || is_some (size_into n.kind)) nodes.now }
{
    nodes.iter().any(|node| is_hub(&node.kind))
}

/// The same of a wire by the names of its nodes.
fn is_faulty_wire(table: &NameTable<'_>, nodes: &[Node], wire: &WireDecl) -> bool
    requires { Numbers table.now (map (λ n. n.name) nodes.now) }
    ensures { result ≡ is_faulty_wire nodes.now wire.now }
{
    let from = node_number(table, &wire.from);
    let to = node_number(table, &wire.to);
    is_hub_fault(nodes, from, to, wire.lane.is_some())
}

/// The first such wire.
pub fn hub_wrong(
    alloc: Global,
    nodes: &[Node],
    wires: &[WireDecl],
) -> Result<Option<usize>, NoMemory>
    ensures { IfOk result (λ i. i ≡ hub_wrong nodes.now wires.now) }
{
    // Most blueprints have no hub, and no name needs to be looked up.
    if !has_hub(nodes) {
        return Ok(None);
    }
    let table = table_of(alloc, nodes)?;
    for (i, wire) in wires.iter().enumerate() {
        if is_faulty_wire(&table, nodes, wire) {
            return Ok(Some(i));
        }
    }
    Ok(None)
}
