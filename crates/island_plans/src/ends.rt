// Which island's end has what nodes and wires leave.
ghost use Rattle.std.specs.Prelude.{◌≡◌, ◌++◌, IfOk, OnOk, length, map};
ghost use Rattle.blue_names.specs.Links.{wires_of_links};
ghost use Rattle.island_plans.specs.Ends.{leaves_in, own_home, homes_in, wire_home, AreEndHomes};

use blue_check::picks::picks;
use blue_check::ranks::rank_of;
use blue_names::links::NumberedWire;
use elem_core::why::NoMemory;
use island_parts::room::EndHomes;
use materializer::names::{is_sink, output_of, source_file};
use materializer::switch_names::switch_of;
use std::alloc::Global;
use stream_model::blueprint::Node;

/// A list of an island's end in which some of its nodes leave one item each, in order.
#[derive(Clone, Copy)]
pub enum EndList {
    /// How its sinks stand.
    Sinks,
    /// The moves of its stages whose kinds choose.
    Picks,
    /// The seats of its valves and trips.
    Seats,
    /// The sources of bytes that its sources of lines read.
    Readers,
    /// The drains that its sinks with a file wrote.
    Writers,
}

/// Whether a node leaves an item in this list of its island's end. It takes no memory.
pub fn leaves_in(list: EndList, node: &Node) -> bool
    ensures { result ≡ leaves_in list node.now }
{
    match list {
        EndList::Sinks => is_sink(node),
        EndList::Picks => picks(&node.kind),
        EndList::Seats => switch_of(&node.kind).is_some(),
        EndList::Readers => source_file(&node.kind).is_some(),
        EndList::Writers => output_of(&node.kind).is_some(),
    }
}

/// Puts the island of a node last, where it leaves an item in this list.
fn put_home(all: &mut Vec<usize>, list: EndList, node: &Node, home: usize) -> Result<(), NoMemory>
    ensures { OnOk result (all.new.items ≡ all.old.items ++ own_home list node.now home) }
{
    if leaves_in(list, node) {
        all.push(home)?;
    }
    Ok(())
}

/// The islands of the nodes that leave an item in this list.
fn homes_in(
    alloc: Global,
    list: EndList,
    nodes: &[Node],
    homes: &[usize],
) -> Result<Vec<usize>, NoMemory>
    requires { length homes.now ≡ length nodes.now }
    ensures { IfOk result (λ all. all.items ≡ homes_in list nodes.now homes.now) }
{
    let mut all = Vec::new(alloc);
    for (i, node) in nodes.iter().enumerate() {
        put_home(&mut all, list, node, homes[i])?;
    }
    Ok(all)
}

/// The islands in which wires begin.
fn wire_homes(
    alloc: Global,
    links: &[NumberedWire],
    homes: &[usize],
) -> Result<Vec<usize>, NoMemory>
    ensures { IfOk result (λ all. all.items ≡ map (wire_home homes.now) (wires_of_links links.now)) }
{
    let mut all = Vec::new(alloc);
    for link in links {
        all.push(rank_of(homes, link.from))?;
    }
    Ok(all)
}

/// The islands whose ends list what these nodes and wires leave, where the nodes have these islands. It takes memory for a number
/// of each.
pub fn end_homes(
    alloc: Global,
    nodes: &[Node],
    links: &[NumberedWire],
    homes: &[usize],
) -> Result<EndHomes, NoMemory>
    requires { length homes.now ≡ length nodes.now }
    ensures { IfOk result (AreEndHomes homes.now nodes.now (wires_of_links links.now)) }
{
    Ok(EndHomes {
        sinks: homes_in(alloc, EndList::Sinks, nodes, homes)?,
        picks: homes_in(alloc, EndList::Picks, nodes, homes)?,
        seats: homes_in(alloc, EndList::Seats, nodes, homes)?,
        readers: homes_in(alloc, EndList::Readers, nodes, homes)?,
        writers: homes_in(alloc, EndList::Writers, nodes, homes)?,
        wires: wire_homes(alloc, links, homes)?,
    })
}
