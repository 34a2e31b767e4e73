// The rules, some at a time: each answers the fault of the first that is broken.
ghost use Rattle.std.specs.Prelude.{◌≡◌, ℕ, IfOk, List, None, length};
ghost use Rattle.std.specs.Option.{option_map, option_or};
ghost use Rattle.blue_names.specs.Names.{taken_twice, unknown_mention};
ghost use Rattle.blue_names.specs.Rounds.{type_clash, too_deep, settled};
ghost use Rattle.blue_names.specs.Links.{AreInRange, wires_of_links};
ghost use Rattle.blue_names.specs.Outs.{IsOuts};
ghost use Rattle.blue_names.specs.Wiring.{FindsWires, port_of};
ghost use Rattle.blue_types.specs.Library.{IsKnown};
ghost use Rattle.blue_types.specs.Net.{HasFirstWires, type_at};
ghost use Rattle.blue_check.specs.Fitness.{name_at, open_fault, clash_fault, ports_fault, guests_fault, sizes_fault, types_fault};

use crate::fault::CheckFault;
use blue_names::claims::{guest_twice, taken_twice};
use blue_names::hubs::hub_wrong;
use blue_names::links::NumberedWire;
use blue_names::names::{unknown_guest, unknown_mention};
use blue_names::ports::{
    OpenPort, PortTable, port_missing, port_open, port_twice, sources_of, targets_of,
};
use blue_names::sizes::{chain_wrong, node_wrong, wire_wrong};
use blue_names::spot::Spot;
use blue_names::typed::Clash;
use blue_types::clashes::{too_deep, type_clash};
use blue_types::library::Library;
use blue_types::net::{Net, node_at};
use blue_types::rounds::settle_types;
use elem_core::count::numbered;
use elem_core::elem_type::ElemType;
use elem_core::line::Line;
use elem_core::why::NoMemory;
use std::alloc::Global;
use stream_model::blueprint::{ChainDecl, Node, WireDecl};
use stream_model::known::Heads;

/// The first fault of a name or a file, but for the names of nodes that wires use.
pub fn names_fault(
    alloc: Global,
    switches: &[Line],
    chains: &[ChainDecl],
    nodes: &[Node],
    taken: &[Line],
) -> Result<Option<CheckFault>, NoMemory>
    ensures { IfOk result (λ f. f ≡ option_or (option_map CheckFault.TwoNames (taken_twice switches.now chains.now nodes.now taken.now))
        (option_map CheckFault.NoSuchName (unknown_mention switches.now chains.now nodes.now))) }
{
    if let Some(name) = taken_twice(alloc, switches, chains, nodes, taken)? {
        return Ok(Some(CheckFault::TwoNames(name.copy(alloc)?)));
    }
    match unknown_mention(alloc, switches, chains, nodes)? {
        Some(name) => Ok(Some(CheckFault::NoSuchName(name.copy(alloc)?))),
        None => Ok(None),
    }
}

/// The name of a node; an empty one where there is no such node.
fn name_at(alloc: Global, nodes: &[Node], i: usize) -> Result<Line, NoMemory>
    ensures { IfOk result (λ l. l ≡ name_at nodes.now i) }
{
    match node_at(nodes, i) {
        Some(node) => node.name.copy(alloc),
        None => Ok(Line::of(Vec::new(alloc))),
    }
}

/// The fault of an open port.
fn open_fault(alloc: Global, nodes: &[Node], port: OpenPort) -> Result<CheckFault, NoMemory>
    ensures { IfOk result (λ f. f ≡ open_fault nodes.now (port_of port)) }
{
    Ok(CheckFault::PortOpen(name_at(alloc, nodes, port.node)?, port.output, port.port))
}

/// The first fault of a port.
pub fn ports_fault(
    alloc: Global,
    heads: &Heads<'_>,
    nodes: &[Node],
    links: &[NumberedWire],
    targets: &PortTable,
) -> Result<Option<CheckFault>, NoMemory>
    requires { FindsWires targets.now (wires_of_links links.now) }
    ensures fault { IfOk result (λ f. f ≡ ports_fault heads.now nodes.now (wires_of_links links.now)) }
    ensures in_range { IfOk result (λ f. f ≡ None → AreInRange (length nodes.now) links.now) }
{
    if let Some(i) = port_missing(heads, nodes, links) {
        return Ok(Some(CheckFault::NoSuchPort(numbered(i)?)));
    }
    let sources = sources_of(alloc, links)?;
    if let Some(i) = port_twice(heads, nodes, targets, &sources, links) {
        return Ok(Some(CheckFault::PortTwice(numbered(i)?)));
    }
    match port_open(heads, targets, &sources, nodes) {
        Some(port) => Ok(Some(open_fault(alloc, nodes, port)?)),
        None => Ok(None),
    }
}

/// The first fault of a plug or of a custom stage.
pub fn guests_fault(
    alloc: Global,
    heads: &Heads<'_>,
    chains: &[ChainDecl],
    nodes: &[Node],
) -> Result<Option<CheckFault>, NoMemory>
    ensures { IfOk result (λ f. f ≡ guests_fault heads.now chains.now nodes.now) }
{
    if let Some(name) = unknown_guest(alloc, heads, chains, nodes)? {
        return Ok(Some(CheckFault::NoSuchPlug(name.copy(alloc)?)));
    }
    match guest_twice(alloc, heads, nodes)? {
        Some(name) => Ok(Some(CheckFault::PlugTwice(name.copy(alloc)?))),
        None => Ok(None),
    }
}

/// The first fault of a size, and then of a wire of a hub.
pub fn sizes_fault(
    alloc: Global,
    heads: &Heads<'_>,
    chains: &[ChainDecl],
    nodes: &[Node],
    wires: &[WireDecl],
) -> Result<Option<CheckFault>, NoMemory>
    ensures { IfOk result (λ f. f ≡ sizes_fault heads.now chains.now nodes.now wires.now) }
{
    if let Some(i) = chain_wrong(chains) {
        return Ok(Some(CheckFault::BadSize(Spot::Chain(numbered(i)?))));
    }
    if let Some(i) = node_wrong(heads, nodes) {
        return Ok(Some(CheckFault::BadSize(Spot::Node(numbered(i)?))));
    }
    if let Some(i) = wire_wrong(wires) {
        return Ok(Some(CheckFault::BadSize(Spot::Wire(numbered(i)?))));
    }
    match hub_wrong(alloc, nodes, wires)? {
        Some(i) => Ok(Some(CheckFault::HubWire(numbered(i)?))),
        None => Ok(None),
    }
}

/// The first fault of a type, where the types of nodes have settled.
fn settled_fault(
    alloc: Global,
    library: &Library<'_>,
    net: &Net<'_>,
    types: &[Option<ElemType>],
) -> Result<Option<CheckFault>, NoMemory>
    requires known { IsKnown library.now }
    requires wired { HasFirstWires net.now }
    requires settled { (i : ℕ) → type_at types.now i ≡ settled library.now.heads.now library.now.chains.now net.now.nodes.now
        (wires_of_links net.now.links.now) i }
    ensures { IfOk result (λ f. f ≡ types_fault library.now.heads.now library.now.chains.now net.now.nodes.now (wires_of_links net.now.links.now)) }
{
    match type_clash(alloc, library, net, types)? {
        Some(clash) => Ok(Some(clash_fault(clash)?)),
        None => deep_fault(alloc, net.nodes, too_deep(alloc, library, net, types)?),
    }
}

/// The fault of a node at which a type would nest too deep, where there is one.
fn deep_fault(
    alloc: Global,
    nodes: &[Node],
    node: Option<usize>,
) -> Result<Option<CheckFault>, NoMemory>
    ensures { IfOk result (λ f. f ≡ option_map (λ i. CheckFault.TooDeep (name_at nodes.now i)) node) }
{
    match node {
        Some(i) => Ok(Some(CheckFault::TooDeep(name_at(alloc, nodes, i)?))),
        None => Ok(None),
    }
}

/// The first fault of a type in a net.
fn net_fault(
    alloc: Global,
    library: &Library<'_>,
    net: &Net<'_>,
    outs: &[Vec<usize>],
) -> Result<Option<CheckFault>, NoMemory>
    requires known { IsKnown library.now }
    requires wired { HasFirstWires net.now }
    requires outs { IsOuts outs.now (wires_of_links net.now.links.now) }
    ensures { IfOk result (λ f. f ≡ types_fault library.now.heads.now library.now.chains.now net.now.nodes.now (wires_of_links net.now.links.now)) }
{
    let types = settle_types(alloc, library, net, outs)?;
    settled_fault(alloc, library, net, &types)
}

/// The first fault of a type.
pub fn types_fault(
    alloc: Global,
    heads: &Heads<'_>,
    chains: &[ChainDecl],
    nodes: &[Node],
    links: &[NumberedWire],
    targets: &PortTable,
    outs: &[Vec<usize>],
) -> Result<Option<CheckFault>, NoMemory>
    requires targets { FindsWires targets.now (wires_of_links links.now) }
    requires outs { IsOuts outs.now (wires_of_links links.now) }
    ensures { IfOk result (λ f. f ≡ types_fault heads.now chains.now nodes.now (wires_of_links links.now)) }
{
    let library = Library::new(alloc, heads, chains)?;
    let net = Net {
        nodes,
        links,
        targets,
    };
    net_fault(alloc, &library, &net, outs)
}

/// The fault of a clash.
fn clash_fault(clash: Clash) -> Result<CheckFault, NoMemory>
    ensures { IfOk result (λ f. f ≡ clash_fault clash) }
{
    let Clash { wire, left, want } = clash;
    Ok(CheckFault::TypeClash(numbered(wire)?, left, want))
}
