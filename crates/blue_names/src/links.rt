// Wires by the numbers of their nodes.
ghost use Rattle.std.specs.Prelude.{◌≡◌, ℕ, ◌<◌, ◌≤◌, List, IfOk, IfErr, MatchResult, map, length, slice_get, Some, None, Option};
ghost use Rattle.std.specs.Option.{option_map};
ghost use Rattle.blue_names.specs.RuleLinks.{node_number, wire_of, wires_of};
ghost use Rattle.blue_names.specs.Names.{unknown_end, unknown_node};
ghost use Rattle.blue_names.specs.Table.{Numbers};
ghost use Rattle.blue_names.specs.Hubs.{lane_by, keep_by};
ghost use Rattle.blue_names.specs.Links.{wire_of_link, wires_of_links};

use crate::hubs::{hub_of, hub_size};
use crate::table::{NameTable, find, table_of};
use elem_core::line::Line;
use elem_core::why::NoMemory;
use std::alloc::Global;
use stream_model::blueprint::{Node, WireDecl};

/// A wire by the numbers of its nodes.
#[derive(Clone, Copy)]
pub struct NumberedWire {
    /// The number of the node whose output it is.
    pub from: usize,
    /// Which of that node's outputs.
    pub output: u32,
    /// The number of the node whose input it is.
    pub to: usize,
    /// Which of that node's inputs.
    pub input: u32,
    /// The size of its lane, where it is one. A wire of a hub is one of the hub's size.
    pub lane: Option<u32>,
    /// Whether a failure on that lane waits behind the elements that came before it.
    pub keep: bool,
    /// The number of the hub that it belongs to.
    pub hub: Option<usize>,
}

/// The number of the node of that name, or 0 where there is none.
pub(crate) fn node_number(table: &NameTable<'_>, name: &Line) -> usize
    ensures { (nodes : List Node) → Numbers table.now (map (λ n. n.name) nodes) → result ≡ node_number name.now nodes }
{
    find(table, name).unwrap_or(0)
}

/// A wire between the nodes of these numbers; one that belongs to a hub is a lane of the hub's size, which keeps.
fn link_between(nodes: &[Node], from: usize, to: usize, wire: &WireDecl) -> NumberedWire
    ensures { from ≡ node_number wire.now.from nodes.now → to ≡ node_number wire.now.to nodes.now → wire_of_link result ≡ wire_of nodes.now wire.now }
{
    let (lane, keep) = lane_of(hub_size(nodes, from, to), wire);
    NumberedWire {
        from,
        output: wire.output,
        to,
        input: wire.input,
        lane,
        keep,
        hub: hub_of(nodes, from, to),
    }
}

/// A wire by the numbers of its nodes.
fn link_of(table: &NameTable<'_>, nodes: &[Node], wire: &WireDecl) -> NumberedWire
    requires { Numbers table.now (map (λ n. n.name) nodes.now) }
    ensures { wire_of_link result ≡ wire_of nodes.now wire.now }
{
    let from = node_number(table, &wire.from);
    let to = node_number(table, &wire.to);
    link_between(nodes, from, to, wire)
}

/// The same, or the first name of a node that it uses and that is not declared.
fn link_or_unknown<'a>(
    table: &NameTable<'_>,
    nodes: &[Node],
    wire: &'a WireDecl,
) -> Result<NumberedWire, &'a Line>
    requires { Numbers table.now (map (λ n. n.name) nodes.now) }
    ensures link { IfOk result (λ l. wire_of_link l ≡ wire_of nodes.now wire.now) }
    ensures none { IfOk result (λ l. unknown_end (map (λ n. n.name) nodes.now) wire.now ≡ None) }
    ensures unknown { IfErr result (λ name. unknown_end (map (λ n. n.name) nodes.now) wire.now ≡ Some name.now) }
{
    match find(table, &wire.from) {
        None => Err(&wire.from),
        Some(from) => match find(table, &wire.to) {
            None => Err(&wire.to),
            Some(to) => Ok(link_between(nodes, from, to, wire)),
        },
    }
}

/// The lane that a hub gives a wire, and else its own.
fn lane_of(hub: Option<u32>, wire: &WireDecl) -> (Option<u32>, bool)
    ensures { (result.0 ≡ lane_by hub wire.now.lane) × (result.1 ≡ keep_by hub wire.now.keep) }
{
    match hub {
        Some(size) => (Some(size), true),
        None => (wire.lane, wire.keep),
    }
}

/// The wires by the numbers of their nodes.
pub fn links_of(
    alloc: Global,
    nodes: &[Node],
    wires: &[WireDecl],
) -> Result<Vec<NumberedWire>, NoMemory>
    ensures { IfOk result (λ links. wires_of_links links.items ≡ wires_of nodes.now wires.now) }
{
    let table = table_of(alloc, nodes)?;
    let mut links = Vec::new(alloc);
    for wire in wires {
        links.push(link_of(&table, nodes, wire))?;
    }
    Ok(links)
}

/// The wires by the numbers of their nodes, or the first name of a node that a wire uses and that is not declared.
pub fn links_or_unknown<'a>(
    alloc: Global,
    nodes: &[Node],
    wires: &'a [WireDecl],
) -> Result<Result<Vec<NumberedWire>, &'a Line>, NoMemory>
    ensures { IfOk result (λ r. MatchResult r (λ links. (unknown_node nodes.now wires.now ≡ None) × (wires_of_links links.items ≡ wires_of nodes.now wires.now))
        (λ name. unknown_node nodes.now wires.now ≡ Some name.now)) }
{
    let table = table_of(alloc, nodes)?;
    let mut links = Vec::new(alloc);
    for wire in wires {
        match link_or_unknown(&table, nodes, wire) {
            Ok(link) => links.push(link)?,
            Err(name) => return Ok(Err(name)),
        }
    }
    Ok(Ok(links))
}

/// The wire of that number.
pub fn link_at(links: &[NumberedWire], i: usize) -> Option<NumberedWire>
    ensures { option_map wire_of_link result ≡ slice_get (wires_of_links links.now) i }
{
    links.get(i).copied()
}
