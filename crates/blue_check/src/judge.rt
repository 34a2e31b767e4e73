// What is found of a blueprint, group of rules by group of rules.
ghost use Rattle.std.specs.Prelude.{◌≡◌, ℕ, IfOk, List, None, Some, length};
ghost use Rattle.std.specs.Option.{option_map, option_or};
ghost use Rattle.blue_names.specs.Names.{unknown_node};
ghost use Rattle.blue_names.specs.RuleLinks.{wires_of};
ghost use Rattle.blue_names.specs.Links.{AreInRange, wires_of_links};
ghost use Rattle.blue_names.specs.Outs.{IsOuts};
ghost use Rattle.blue_names.specs.Wiring.{FindsWires};
ghost use Rattle.blue_check.specs.Fitness.{ports_fault, guests_fault, sizes_fault, types_fault, early_of, early_fault};
ghost use Rattle.blue_check.specs.Wires.{blueprint_wires};
ghost use Rattle.blue_check.specs.Judging.{IsJudged};

use crate::closed::first_closed;
use crate::fault::CheckFault;
use crate::forest::is_polytree;
use crate::rules::{guests_fault, names_fault, ports_fault, sizes_fault, types_fault};
use blue_names::links::{NumberedWire, links_or_unknown};
use blue_names::outs::outs_of;
use blue_names::ports::{PortTable, targets_of};
use elem_core::count::numbered;
use elem_core::line::Line;
use elem_core::why::NoMemory;
use std::alloc::Global;
use stream_model::blueprint::{Blueprint, ChainDecl, Node, WireDecl};
use stream_model::known::Heads;

/// What is found of a blueprint.
#[derive(Drop)]
pub enum Judged {
    /// The first rule that it breaks.
    Unfit(CheckFault),
    /// It breaks none; whether no walk is closed when directions are ignored.
    Fit(bool),
}

/// By closed walks alone.
fn by_walks(
    alloc: Global,
    count: usize,
    links: &[NumberedWire],
    outs: &[Vec<usize>],
) -> Result<Judged, NoMemory>
    requires outs { IsOuts outs.now (wires_of_links links.now) }
    requires in_range { AreInRange count links.now }
    ensures { IfOk result (IsJudged None (wires_of_links links.now)) }
{
    match first_closed(alloc, count, links, outs)? {
        Some(i) => Ok(Judged::Unfit(CheckFault::ClosedWalk(numbered(i)?))),
        None => Ok(Judged::Fit(is_polytree(alloc, count, links)?)),
    }
}

/// By types, and then by closed walks.
fn by_types(
    alloc: Global,
    heads: &Heads<'_>,
    chains: &[ChainDecl],
    nodes: &[Node],
    links: &[NumberedWire],
    targets: &PortTable,
) -> Result<Judged, NoMemory>
    requires targets { FindsWires targets.now (wires_of_links links.now) }
    requires in_range { AreInRange (length nodes.now) links.now }
    ensures { IfOk result (IsJudged (types_fault heads.now chains.now nodes.now (wires_of_links links.now)) (wires_of_links links.now)) }
{
    let outs = outs_of(alloc, nodes.len(), links)?;
    match types_fault(alloc, heads, chains, nodes, links, targets, &outs)? {
        Some(fault) => Ok(Judged::Unfit(fault)),
        None => by_walks(alloc, nodes.len(), links, &outs),
    }
}

/// By sizes, and then by types and closed walks.
fn by_sizes(
    alloc: Global,
    heads: &Heads<'_>,
    chains: &[ChainDecl],
    nodes: &[Node],
    wires: &[WireDecl],
    links: &[NumberedWire],
    targets: &PortTable,
) -> Result<Judged, NoMemory>
    requires targets { FindsWires targets.now (wires_of_links links.now) }
    requires in_range { AreInRange (length nodes.now) links.now }
    ensures { IfOk result (IsJudged (option_or (sizes_fault heads.now chains.now nodes.now wires.now)
        (types_fault heads.now chains.now nodes.now (wires_of_links links.now))) (wires_of_links links.now)) }
{
    match sizes_fault(alloc, heads, chains, nodes, wires)? {
        Some(fault) => Ok(Judged::Unfit(fault)),
        None => by_types(alloc, heads, chains, nodes, links, targets),
    }
}

/// By plugs and custom stages, and then by sizes and what comes behind them.
fn by_guests(
    alloc: Global,
    heads: &Heads<'_>,
    chains: &[ChainDecl],
    nodes: &[Node],
    wires: &[WireDecl],
    links: &[NumberedWire],
    targets: &PortTable,
) -> Result<Judged, NoMemory>
    requires targets { FindsWires targets.now (wires_of_links links.now) }
    requires in_range { AreInRange (length nodes.now) links.now }
    ensures { IfOk result (IsJudged (option_or (guests_fault heads.now chains.now nodes.now)
        (option_or (sizes_fault heads.now chains.now nodes.now wires.now) (types_fault heads.now chains.now nodes.now (wires_of_links links.now))))
        (wires_of_links links.now)) }
{
    match guests_fault(alloc, heads, chains, nodes)? {
        Some(fault) => Ok(Judged::Unfit(fault)),
        None => by_sizes(alloc, heads, chains, nodes, wires, links, targets),
    }
}

/// By ports, and then by plugs, custom stages and what comes behind them.
fn by_ports(
    alloc: Global,
    heads: &Heads<'_>,
    chains: &[ChainDecl],
    nodes: &[Node],
    wires: &[WireDecl],
    links: &[NumberedWire],
) -> Result<Judged, NoMemory>
    ensures { IfOk result (IsJudged (option_or (ports_fault heads.now nodes.now (wires_of_links links.now))
        (option_or (guests_fault heads.now chains.now nodes.now)
        (option_or (sizes_fault heads.now chains.now nodes.now wires.now) (types_fault heads.now chains.now nodes.now (wires_of_links links.now)))))
        (wires_of_links links.now)) }
{
    let targets = targets_of(alloc, links)?;
    match ports_fault(alloc, heads, nodes, links, &targets)? {
        Some(fault) => Ok(Judged::Unfit(fault)),
        None => by_guests(alloc, heads, chains, nodes, wires, links, &targets),
    }
}

/// By the names of nodes that wires use, and then by ports and what comes behind them.
fn by_wires(
    alloc: Global,
    heads: &Heads<'_>,
    chains: &[ChainDecl],
    nodes: &[Node],
    wires: &[WireDecl],
) -> Result<Judged, NoMemory>
    ensures { IfOk result (IsJudged (option_or (option_map CheckFault.NoSuchName (unknown_node nodes.now wires.now))
        (option_or (ports_fault heads.now nodes.now (wires_of nodes.now wires.now)) (option_or (guests_fault heads.now chains.now nodes.now)
        (option_or (sizes_fault heads.now chains.now nodes.now wires.now) (types_fault heads.now chains.now nodes.now (wires_of nodes.now wires.now))))))
        (wires_of nodes.now wires.now)) }
{
    let found = links_or_unknown(alloc, nodes, wires)?;
    match found {
        Ok(links) => by_ports(alloc, heads, chains, nodes, wires, &links),
        Err(name) => Ok(Judged::Unfit(CheckFault::NoSuchName(name.copy(alloc)?))),
    }
}

/// What is found of the parts of a blueprint.
fn by_parts(
    alloc: Global,
    switches: &[Line],
    chains: &[ChainDecl],
    nodes: &[Node],
    wires: &[WireDecl],
    heads: &Heads<'_>,
    taken: &[Line],
) -> Result<Judged, NoMemory>
    ensures { IfOk result (IsJudged (early_of switches.now chains.now nodes.now wires.now heads.now taken.now) (wires_of nodes.now wires.now)) }
{
    match names_fault(alloc, switches, chains, nodes, taken)? {
        Some(fault) => Ok(Judged::Unfit(fault)),
        None => by_wires(alloc, heads, chains, nodes, wires),
    }
}

/// What is found of a blueprint.
pub fn judge(
    alloc: Global,
    b: &Blueprint,
    heads: &Heads<'_>,
    taken: &[Line],
) -> Result<Judged, NoMemory>
    ensures { IfOk result (IsJudged (early_fault b.now heads.now taken.now) (blueprint_wires b.now)) }
{
    by_parts(
        alloc,
        &b.switches,
        &b.chains,
        &b.nodes,
        &b.wires,
        heads,
        taken,
    )
}
