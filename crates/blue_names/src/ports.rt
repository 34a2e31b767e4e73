// Ports that are missing, used twice or open.
ghost use Rattle.std.specs.Prelude.{◌≡◌, ℕ, ◌<◌, ◌≤◌, List, IfOk, OnOk, map, length, slice_get, Some, Option, ◌==◌, ◌&&◌, ◌||◌, not, is_none, IfNone};
ghost use Rattle.stream_model.specs.Composed.{inputs_by, count_from};
ghost use Rattle.stream_model.specs.Graph.{Edge, find_wire, find_source};
ghost use Rattle.stream_model.specs.View.{outputs_by};
ghost use Rattle.blue_names.specs.CustomPorts.{is_headless};
ghost use Rattle.blue_names.specs.First.{first_from, when};
ghost use Rattle.std.specs.Option.{option_or, option_map};
ghost use Rattle.stream_model.specs.declared.blueprint.Node.{Node as Declared};
ghost use Rattle.blue_names.specs.Ports.{port_missing, port_twice, port_open, is_port_number, open_input, open_output, lacks_input, lacks_output, lacks_guest};
ghost use Rattle.blue_names.specs.Links.{AreInRange, wires_of_links};
ghost use Rattle.blue_names.specs.Wiring.{found_in, FindsWires, FindsSources, port_of};

use crate::custom_ports::{is_headless, kind_inputs, kind_outputs};
use crate::links::NumberedWire;
use elem_core::why::NoMemory;
use std::alloc::Global;
use std::collections::HashMap;
use stream_model::blueprint::Node;
use stream_model::kind::Kind;
use stream_model::known::Heads;

/// The number of the wire at each port: a port is the number of its node, and its own.
pub type PortTable = HashMap<(usize, u32), usize>;

/// How many inputs a kind has, where a custom stage has so many inputs and outputs.
pub fn input_ports(custom: (u32, u32), kind: &Kind) -> u32
    ensures { result ≡ inputs_by custom kind.now }
{
    match kind {
        Kind::Lines(_) | Kind::Range(_, _) | Kind::Empty(_) | Kind::Failed(_) => 0,
        Kind::Merge(n) => *n,
        Kind::MergeHub(_, n) => *n,
        Kind::Concat(n) => *n,
        Kind::Interleave(n, _) => *n,
        Kind::MergeSorted | Kind::Zip => 2,
        Kind::Custom(_) => custom.0,
        _ => 1,
    }
}

/// How many outputs a kind has, where a custom stage has so many inputs and outputs.
pub fn output_ports(custom: (u32, u32), kind: &Kind) -> u32
    ensures { result ≡ outputs_by custom kind.now }
{
    match kind {
        Kind::Broadcast(n) => *n,
        Kind::BroadcastHub(_, n) => *n,
        Kind::Balance(n) => *n,
        Kind::Partition(n, _) => *n,
        Kind::Unzip => 2,
        Kind::Custom(_) => custom.1,
        Kind::ToLines(_) | Kind::Head(_) | Kind::Last(_) | Kind::Ignore => 0,
        _ => 1,
    }
}

/// The wire at a port.
pub fn wire_at(table: &PortTable, node: usize, port: u32) -> Option<usize>
    ensures { result ≡ found_in table.now node port }
{
    table.get(&(node, port)).copied()
}

/// Notes the wire of a port that has none yet.
fn note_port(table: &mut PortTable, node: usize, port: u32, wire: usize) -> Result<(), NoMemory>
    ensures { OnOk result ((n p : ℕ) → found_in table.new n p ≡ option_or (found_in table.old n p) (when ((node == n) && (port == p)) wire)) }
{
    if let Some(first) = table.insert((node, port), wire)? {
        // It keeps the wire that it had.
        table.insert((node, port), first)?;
    }
    Ok(())
}

/// The wire into each input.
pub fn targets_of(alloc: Global, links: &[NumberedWire]) -> Result<PortTable, NoMemory>
    ensures { IfOk result (λ table. FindsWires table (wires_of_links links.now)) }
{
    let mut table = HashMap::with_capacity(alloc, links.len())?;
    for (i, link) in links.iter().enumerate() {
        note_port(&mut table, link.to, link.input, i)?;
    }
    Ok(table)
}

/// The wire out of each output.
pub fn sources_of(alloc: Global, links: &[NumberedWire]) -> Result<PortTable, NoMemory>
    ensures { IfOk result (λ table. FindsSources table (wires_of_links links.now)) }
{
    let mut table = HashMap::with_capacity(alloc, links.len())?;
    for (i, link) in links.iter().enumerate() {
        note_port(&mut table, link.from, link.output, i)?;
    }
    Ok(table)
}

/// Whether a node has no such output, or is not there.
fn lacks_output(heads: &Heads<'_>, nodes: &[Node], node: usize, port: u32) -> bool
    ensures { result ≡ lacks_output heads.now (slice_get nodes.now node) port }
{
    match nodes.get(node) {
        None => true,
        Some(node) => !is_headless(heads, &node.kind) && kind_outputs(heads, &node.kind) <= port,
    }
}

/// Whether a node has no such input, or is not there.
fn lacks_input(heads: &Heads<'_>, nodes: &[Node], node: usize, port: u32) -> bool
    ensures { result ≡ lacks_input heads.now (slice_get nodes.now node) port }
{
    match nodes.get(node) {
        None => true,
        Some(node) => !is_headless(heads, &node.kind) && kind_inputs(heads, &node.kind) <= port,
    }
}

/// The first wire that uses a port that its node does not have.
pub fn port_missing(heads: &Heads<'_>, nodes: &[Node], links: &[NumberedWire]) -> Option<usize>
    ensures first { result ≡ port_missing heads.now nodes.now (wires_of_links links.now) }
    // Where there is none, each end of a wire is a node.
    ensures in_range { IfNone result (AreInRange (length nodes.now) links.now) }
{
    for (i, link) in links.iter().enumerate() {
        if lacks_output(heads, nodes, link.from, link.output)
            || lacks_input(heads, nodes, link.to, link.input)
        {
            return Some(i);
        }
    }
    None
}

/// Whether a node is there and names a custom stage that is not handed in.
fn lacks_guest(heads: &Heads<'_>, nodes: &[Node], node: usize) -> bool
    ensures { result ≡ lacks_guest heads.now (slice_get nodes.now node) }
{
    match nodes.get(node) {
        None => false,
        Some(node) => is_headless(heads, &node.kind),
    }
}

/// Whether a wire uses an output that an earlier wire uses.
fn gives_again(
    heads: &Heads<'_>,
    nodes: &[Node],
    sources: &PortTable,
    i: usize,
    link: &NumberedWire,
) -> bool
    ensures { (ws : List Edge) → FindsSources sources.now ws
        → result ≡ (not (lacks_guest heads.now (slice_get nodes.now link.now.from)) && not (is_port_number i (find_source link.now.from link.now.output ws))) }
{
    !lacks_guest(heads, nodes, link.from)
        && !is_port_number(i, wire_at(sources, link.from, link.output))
}

/// Whether a wire uses an input that an earlier wire uses.
fn takes_again(
    heads: &Heads<'_>,
    nodes: &[Node],
    targets: &PortTable,
    i: usize,
    link: &NumberedWire,
) -> bool
    ensures { (ws : List Edge) → FindsWires targets.now ws
        → result ≡ (not (lacks_guest heads.now (slice_get nodes.now link.now.to)) && not (is_port_number i (find_wire link.now.to link.now.input ws))) }
{
    !lacks_guest(heads, nodes, link.to) && !is_port_number(i, wire_at(targets, link.to, link.input))
}

// Choice: docs/DECISIONS.md#port-used-twice
/// The first wire that uses a port that an earlier wire uses, but for those of a custom stage that is not handed in.
pub fn port_twice(
    heads: &Heads<'_>,
    nodes: &[Node],
    targets: &PortTable,
    sources: &PortTable,
    links: &[NumberedWire],
) -> Option<usize>
    requires targets { FindsWires targets.now (wires_of_links links.now) }
    requires sources { FindsSources sources.now (wires_of_links links.now) }
    ensures { result ≡ port_twice heads.now nodes.now (wires_of_links links.now) }
{
    for (i, link) in links.iter().enumerate() {
        if gives_again(heads, nodes, sources, i, link)
            || takes_again(heads, nodes, targets, i, link)
        {
            return Some(i);
        }
    }
    None
}

/// Whether it is that number.
fn is_port_number(i: usize, found: Option<usize>) -> bool
    ensures { result ≡ is_port_number i found }
{
    match found {
        None => true,
        Some(k) => k == i,
    }
}

/// A port without a wire.
#[derive(Clone, Copy)]
pub struct OpenPort {
    /// The number of its node.
    pub node: usize,
    /// Whether it is an output.
    pub output: bool,
    /// Which of the node's outputs or inputs.
    pub port: u32,
}

/// The first of so many ports of a node that has no wire.
fn open_among(table: &PortTable, node: usize, count: u32) -> Option<u32>
    ensures { result ≡ first_from (λ _ p. when (is_none (found_in table.now node p)) p) 0 (count_from 0 count) }
{
    for port in 0..count {
        if wire_at(table, node, port).is_none() {
            return Some(port);
        }
    }
    None
}

/// The first input of a node that has no wire.
fn open_input(heads: &Heads<'_>, targets: &PortTable, i: usize, kind: &Kind) -> Option<OpenPort>
    ensures { (n : Declared) (ws : List Edge) → n.kind ≡ kind.now → FindsWires targets.now ws → option_map port_of result ≡ open_input heads.now i n ws }
{
    match open_among(targets, i, kind_inputs(heads, kind)) {
        Some(port) => Some(OpenPort {
            node: i,
            output: false,
            port,
        }),
        None => None,
    }
}

/// The first output of a node that has no wire.
fn open_output(heads: &Heads<'_>, sources: &PortTable, i: usize, kind: &Kind) -> Option<OpenPort>
    ensures { (n : Declared) (ws : List Edge) → n.kind ≡ kind.now → FindsSources sources.now ws → option_map port_of result ≡ open_output heads.now i n ws }
{
    match open_among(sources, i, kind_outputs(heads, kind)) {
        Some(port) => Some(OpenPort {
            node: i,
            output: true,
            port,
        }),
        None => None,
    }
}

/// The first port of a node that has no wire: its inputs come first.
fn open_at(
    heads: &Heads<'_>,
    targets: &PortTable,
    sources: &PortTable,
    i: usize,
    kind: &Kind,
) -> Option<OpenPort>
    ensures { (n : Declared) (ws : List Edge) → n.kind ≡ kind.now → FindsWires targets.now ws → FindsSources sources.now ws
        → option_map port_of result ≡ option_or (open_input heads.now i n ws) (open_output heads.now i n ws) }
{
    match open_input(heads, targets, i, kind) {
        Some(port) => Some(port),
        None => open_output(heads, sources, i, kind),
    }
}

/// The first port of all that has no wire.
pub fn port_open(
    heads: &Heads<'_>,
    targets: &PortTable,
    sources: &PortTable,
    nodes: &[Node],
) -> Option<OpenPort>
    ensures { (ws : List Edge) → FindsWires targets.now ws → FindsSources sources.now ws → option_map port_of result ≡ port_open heads.now nodes.now ws }
{
    for (i, node) in nodes.iter().enumerate() {
        if let Some(port) = open_at(heads, targets, sources, i, &node.kind) {
            return Some(port);
        }
    }
    None
}
