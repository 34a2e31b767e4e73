// How many events of an island are chased for one that waited for its turn.
ghost use Rattle.std.specs.Prelude.{◌≤◌};

use crate::blueprints::{node, wire};
use blue_check::check::check;
use elem_core::function::MapFn;
use elem_core::why::NoMemory;
use graph_stage::rude::Rude;
use interpreter::island::Island;
use island_plans::plans::plans_of;
use materializer::choosers::no_plans;
use materializer::names::{input_names, output_names};
use plug_logic::book::Shipped;
use plug_logic::dedup::Dedup;
use std::alloc::Global;
use std::test::Fail;
use stream_io::mem_drain::MemDrain;
use stream_io::mem_folder::MemSource;
use stream_model::blueprint::Blueprint;
use stream_model::kind::{Base, Kind};

/// The name of the node at a place.
fn letter(place: u8) -> u8
    requires { place ≤ 100 }
{
    b'A' + place
}

/// A source, so many stages that add nothing, and a sink.
fn chain(alloc: Global, source: Kind, stages: u8) -> Result<Blueprint, NoMemory>
    requires { stages ≤ 99 }
{
    let mut nodes = Vec::new(alloc);
    let mut wires = Vec::new(alloc);
    nodes.push(node(alloc, letter(0), source)?)?;
    for place in 0..stages {
        wires.push(wire(alloc, letter(place), letter(place + 1), None)?)?;
        nodes.push(node(alloc, letter(place + 1), Kind::Map(MapFn::Add(0)))?)?;
    }
    wires.push(wire(alloc, letter(stages), letter(stages + 1), None)?)?;
    nodes.push(node(alloc, letter(stages + 1), Kind::Ignore)?)?;
    Ok(Blueprint {
        switches: Vec::new(alloc),
        chains: Vec::new(alloc),
        nodes,
        wires,
    })
}

/// The most events that were chased for one in the island of this chain, once it rests.
fn longest_chase(alloc: Global, source: Kind, stages: u8) -> Result<Option<u32>, NoMemory>
    requires { stages ≤ 99 }
{
    let Ok(checked) = check(alloc, chain(alloc, source, stages)?, &[], &[], &[]) else {
        return Ok(None);
    };
    let b = checked.into_blueprint();
    let inputs = input_names(alloc, &b)?;
    let outputs = output_names(alloc, &b)?;
    if inputs.len() > 0 || outputs.len() > 0 {
        return Ok(None);
    }
    let free = no_plans(alloc, b.nodes.len())?;
    let plans = plans_of::<MemSource, MemDrain, Dedup, Rude, Shipped>(
        alloc,
        b,
        Vec::new(alloc),
        Vec::new(alloc),
        free,
    )?;
    let filled = plans.fill(alloc, Vec::new(alloc), Vec::new(alloc));
    let mut islands = filled.islands;
    let Some((parts, room)) = islands.pop() else {
        return Ok(None);
    };
    let Ok(mut island) = Island::start(alloc, parts, room) else {
        return Ok(None);
    };
    island.execute(alloc, 1000000)?;
    if island.at_rest() {
        Ok(Some(island.longest_chase()))
    } else {
        Ok(None)
    }
}

#[test]
fn events_are_chased_to_a_limit(rt: HostRuntime) -> Result<(), Fail> {
    let chased = longest_chase(rt.alloc(), Kind::Range(1, 3), 40)?;
    assert!(rt; chased == Some(16));
    Ok(())
}

/// Behind the sink's first pull, which waits for its turn, a pull, two pushes and two pulls are chased. The two completions wait.
#[test]
fn a_completion_is_not_chased(rt: HostRuntime) -> Result<(), Fail> {
    let chased = longest_chase(rt.alloc(), Kind::Range(1, 1), 1)?;
    assert!(rt; chased == Some(5));
    Ok(())
}

#[test]
fn an_event_without_consequence_chases_none(rt: HostRuntime) -> Result<(), Fail> {
    let chased = longest_chase(rt.alloc(), Kind::Empty(Base::Num), 0)?;
    assert!(rt; chased == Some(0));
    Ok(())
}
