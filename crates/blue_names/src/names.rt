// Names that are used and not declared.
ghost use Rattle.std.specs.Prelude.{◌≡◌, ℕ, List, IfOk, map};
ghost use Rattle.std.specs.Option.{option_map};
ghost use Rattle.blue_names.specs.First.{first_from};
ghost use Rattle.blue_names.specs.Names.{missing, unknown_at, unknown_mention, unknown_plug_at, unknown_guest_at, unknown_in_steps, unknown_in_chains, unknown_in_nodes, unknown_guest};
ghost use Rattle.blue_names.specs.Table.{Numbers};

use crate::claims::plug_of;
use crate::custom_ports::custom_of;
use crate::table::{NameTable, find, table_of};
use elem_core::line::Line;
use elem_core::why::NoMemory;
use std::alloc::Global;
use stream_model::blueprint::{ChainDecl, Node, Step};
use stream_model::kind::Kind;
use stream_model::known::Heads;

/// The name, where a table has none of it.
fn missing<'a>(table: &NameTable<'_>, name: &'a Line) -> Option<&'a Line>
    ensures { (names : List (List ℕ)) → Numbers table.now names → option_map (λ l. l.now) result ≡ missing name.now names }
{
    if find(table, name).is_some() {
        None
    } else {
        Some(name)
    }
}

/// A switch or a chain that a node names and that is not declared.
fn unknown_at<'a>(
    switches: &NameTable<'_>,
    chains: &NameTable<'_>,
    kind: &'a Kind,
) -> Option<&'a Line>
    ensures { (ss cs : List (List ℕ)) → Numbers switches.now ss → Numbers chains.now cs → option_map (λ l. l.now) result ≡ unknown_at ss cs kind.now }
{
    match kind {
        Kind::Valve(name) => missing(switches, name),
        Kind::TripShutdown(name, _) => missing(switches, name),
        Kind::TripAbort(name, _) => missing(switches, name),
        Kind::GroupBy(_, _, name) => missing(chains, name),
        Kind::SplitWhen(_, name, _) => missing(chains, name),
        Kind::SplitAfter(_, name, _) => missing(chains, name),
        _ => None,
    }
}

/// The first of them among the nodes.
fn unknown_in_nodes<'a>(
    switches: &NameTable<'_>,
    chains: &NameTable<'_>,
    nodes: &'a [Node],
) -> Option<&'a Line>
    ensures { (ss cs : List (List ℕ)) → Numbers switches.now ss → Numbers chains.now cs
        → option_map (λ l. l.now) result ≡ first_from (λ _ n. unknown_at ss cs n.kind) 0 nodes.now }
{
    for node in nodes {
        if let Some(name) = unknown_at(switches, chains, &node.kind) {
            return Some(name);
        }
    }
    None
}

/// The first switch or chain that a node names and that is not declared.
pub fn unknown_mention<'a>(
    alloc: Global,
    switches: &[Line],
    chains: &[ChainDecl],
    nodes: &'a [Node],
) -> Result<Option<&'a Line>, NoMemory>
    ensures { IfOk result (λ name. option_map (λ l. l.now) name ≡ unknown_mention switches.now chains.now nodes.now) }
{
    let switches = table_of(alloc, switches)?;
    let chains = table_of(alloc, chains)?;
    Ok(unknown_in_nodes(&switches, &chains, nodes))
}

/// The plug that a node names, where it is not handed in.
fn unknown_plug_at<'a>(plugs: &NameTable<'_>, plug: Option<&'a Line>) -> Option<&'a Line>
    ensures { (ps : List (List ℕ)) → Numbers plugs.now ps → option_map (λ l. l.now) result ≡ unknown_plug_at ps (option_map (λ l. l.now) plug.entry) }
{
    match plug {
        Some(name) => missing(plugs, name),
        None => None,
    }
}

/// The plug or the custom stage that a node names, where it is not handed in.
fn unknown_guest_at<'a>(
    plugs: &NameTable<'_>,
    customs: &NameTable<'_>,
    kind: &'a Kind,
) -> Option<&'a Line>
    ensures { (ps cs : List (List ℕ)) → Numbers plugs.now ps → Numbers customs.now cs → option_map (λ l. l.now) result ≡ unknown_guest_at ps cs kind.now }
{
    match unknown_plug_at(plugs, plug_of(kind)) {
        Some(name) => Some(name),
        None => unknown_plug_at(customs, custom_of(kind)),
    }
}

/// The first of them that a step names.
fn unknown_guest_in_steps<'a>(
    plugs: &NameTable<'_>,
    customs: &NameTable<'_>,
    steps: &'a [Step],
) -> Option<&'a Line>
    ensures { (ps cs : List (List ℕ)) → Numbers plugs.now ps → Numbers customs.now cs → option_map (λ l. l.now) result ≡ unknown_in_steps ps cs steps.now }
{
    for step in steps {
        if let Some(name) = unknown_guest_at(plugs, customs, &step.kind) {
            return Some(name);
        }
    }
    None
}

/// The first of them among the steps of the chains.
fn unknown_guest_in_chains<'a>(
    plugs: &NameTable<'_>,
    customs: &NameTable<'_>,
    chains: &'a [ChainDecl],
) -> Option<&'a Line>
    ensures { (ps cs : List (List ℕ)) → Numbers plugs.now ps → Numbers customs.now cs → option_map (λ l. l.now) result ≡ unknown_in_chains ps cs chains.now }
{
    for chain in chains {
        if let Some(name) = unknown_guest_in_steps(plugs, customs, &chain.steps) {
            return Some(name);
        }
    }
    None
}

/// The first of them among the nodes.
fn unknown_guest_in<'a>(
    plugs: &NameTable<'_>,
    customs: &NameTable<'_>,
    nodes: &'a [Node],
) -> Option<&'a Line>
    ensures { (ps cs : List (List ℕ)) → Numbers plugs.now ps → Numbers customs.now cs → option_map (λ l. l.now) result ≡ unknown_in_nodes ps cs nodes.now }
{
    for node in nodes {
        if let Some(name) = unknown_guest_at(plugs, customs, &node.kind) {
            return Some(name);
        }
    }
    None
}

// Choice: docs/DECISIONS.md#plugs-of-steps
/// The first plug or custom stage that a step of a chain or a node names and that is not handed in: chains come before nodes.
pub fn unknown_guest<'a>(
    alloc: Global,
    heads: &Heads<'_>,
    chains: &'a [ChainDecl],
    nodes: &'a [Node],
) -> Result<Option<&'a Line>, NoMemory>
    ensures { IfOk result (λ name. option_map (λ l. l.now) name ≡ unknown_guest heads.now chains.now nodes.now) }
{
    let plugs = table_of(alloc, heads.plugs())?;
    let customs = table_of(alloc, heads.customs())?;
    match unknown_guest_in_chains(&plugs, &customs, chains) {
        Some(name) => Ok(Some(name)),
        None => Ok(unknown_guest_in(&plugs, &customs, nodes)),
    }
}
