// Sizes that are out of their limits.
ghost use Rattle.std.specs.Prelude.{◌≡◌, ℕ, ◌≤◌, ◌^◌, ◌<◌, List, IfOk, map, not, length, OnOk, MatchOption, true};
ghost use Rattle.std.specs.List.{list_all};
ghost use Rattle.std.specs.Option.{option_map, option_or};
ghost use Rattle.blue_names.specs.First.{first_from, when};
ghost use Rattle.blue_names.specs.Sizes.{is_within, sizes_fit, node_fits, lane_fits, chain_wrong, node_wrong, wire_wrong};
ghost use Rattle.blue_names.specs.declared.spot.Spot.TheVariants as at;

use crate::custom_ports::{custom_head, head_fits};
use elem_core::why::NoMemory;
use stream_model::blueprint::{ChainDecl, Node, Step, WireDecl};
use stream_model::kind::{Kind, MAX_FAN};
use stream_model::known::Heads;
use stream_model::limit::{MAX_COUNT, MAX_HELD, MAX_KEYS, MAX_LANE};

/// Whether a size is within its limits.
fn is_within(least: u32, most: u32, size: u32) -> bool
    ensures { result ≡ is_within least most size }
{
    least <= size && size <= most
}

/// Whether the sizes of a kind are within their limits.
pub fn sizes_fit(kind: &Kind) -> bool
    ensures { result ≡ sizes_fit kind.now }
{
    match kind {
        Kind::Grouped(n) => is_within(1, MAX_HELD, *n),
        Kind::Buffer(n, _) => is_within(1, MAX_HELD, *n),
        Kind::TripShutdown(_, n) => is_within(1, MAX_COUNT, *n),
        Kind::TripAbort(_, n) => is_within(1, MAX_COUNT, *n),
        Kind::GroupBy(n, _, _) => is_within(1, MAX_KEYS, *n),
        Kind::Merge(n) => is_within(2, MAX_FAN, *n),
        Kind::MergeHub(size, n) => is_within(1, MAX_LANE, *size) && is_within(1, MAX_FAN, *n),
        Kind::Concat(n) => is_within(2, MAX_FAN, *n),
        Kind::Interleave(n, segment) => is_within(2, MAX_FAN, *n)
            && is_within(1, MAX_COUNT, *segment),
        Kind::Broadcast(n) => is_within(2, MAX_FAN, *n),
        Kind::BroadcastHub(size, n) => is_within(1, MAX_LANE, *size) && is_within(1, MAX_FAN, *n),
        Kind::Balance(n) => is_within(2, MAX_FAN, *n),
        Kind::Partition(n, _) => is_within(2, MAX_FAN, *n),
        _ => true,
    }
}

/// Whether the sizes of the steps of a chain are.
fn steps_fit(steps: &[Step]) -> bool
    ensures { result ≡ list_all (λ s. sizes_fit s.kind) steps.now }
{
    for step in steps {
        if !sizes_fit(&step.kind) {
            return false;
        }
    }
    true
}

/// Whether the size of a lane is a power of two within its limits.
fn lane_fits(lane: Option<u32>) -> bool
    ensures { result ≡ lane_fits lane }
{
    match lane {
        None => true,
        Some(size) => is_within(1, MAX_LANE, size) && size.is_power_of_two(),
    }
}

/// The first chain with a size that is out of its limits.
pub fn chain_wrong(chains: &[ChainDecl]) -> Option<usize>
    ensures { result ≡ chain_wrong chains.now }
{
    for (i, chain) in chains.iter().enumerate() {
        if !steps_fit(&chain.steps) {
            return Some(i);
        }
    }
    None
}

/// Whether the sizes of a node of this kind are, and those of its head where it is a custom stage.
fn node_fits(heads: &Heads<'_>, kind: &Kind) -> bool
    ensures { result ≡ node_fits heads.now kind.now }
{
    sizes_fit(kind) && head_fits(custom_head(heads, kind))
}

/// The first node with such a size.
pub fn node_wrong(heads: &Heads<'_>, nodes: &[Node]) -> Option<usize>
    ensures { result ≡ node_wrong heads.now nodes.now }
{
    for (i, node) in nodes.iter().enumerate() {
        if !node_fits(heads, &node.kind) {
            return Some(i);
        }
    }
    None
}

/// The first wire with such a lane.
pub fn wire_wrong(wires: &[WireDecl]) -> Option<usize>
    ensures { result ≡ wire_wrong wires.now }
{
    for (i, wire) in wires.iter().enumerate() {
        if !lane_fits(wire.lane) {
            return Some(i);
        }
    }
    None
}
