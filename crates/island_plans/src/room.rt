// What the bodies of islands take of memory before they are made.
ghost use Rattle.std.specs.Prelude.{◌≡◌, ◌<◌, IfOk, All};
ghost use Rattle.island_plans.specs.LaneEnds.{CanAllBeMade};
ghost use Rattle.island_plans.specs.Making.{way_homes, AreTables, IsRoomForBodies};

use crate::peers::peers_of;
use blue_check::plan::LanePlan;
use elem_core::why::NoMemory;
use graph_stage::handlers::Handlers;
use interpreter::island::IslandEnd;
use island_body::body::Body;
use island_body::peers::Peers;
use island_body::table::blank_ways;
use island_body::way::Way;
use plug_logic::book::PlugBook;
use plug_logic::logic::Logic;
use scatter::ranks::ranks_of;
use std::alloc::Global;
use stream_io::outside::{Drain, Source};

/// All that the bodies of islands, and their ends, take of memory.
#[derive(Drop)]
pub struct BodyRoom<S: Source, D: Drain, L: Logic, H: Handlers, B: PlugBook> {
    /// Of each island a blank table, with a row for each of its connections.
    pub tables: Vec<Vec<Way>>,
    /// Of each the islands at the other ends of its lanes.
    pub peers: Vec<Peers>,
    /// Empty, with room for the body of each.
    pub bodies: Vec<Body<S, D, L, H, B>>,
    /// Empty, with room for the end of each.
    pub ends: Vec<IslandEnd<S, D>>,
}

impl<S: Source, D: Drain, L: Logic, H: Handlers, B: PlugBook> BodyRoom<S, D, L, H, B> {
    /// The room for the bodies of so many islands, and for their ends. `wires` is of each wire the island in which it begins: there is
    /// one connection for each wire, and one more for each lane, in the island that it leads to.
    pub fn of(
        alloc: Global,
        wires: &[usize],
        lanes: &[LanePlan],
        count: usize,
    ) -> Result<BodyRoom<S, D, L, H, B>, NoMemory>
        requires wires { All (λ h. h < count) wires.now }
        requires lanes { CanAllBeMade count lanes.now }
        ensures { IfOk result (IsRoomForBodies wires.now lanes.now count) }
    {
        let homes = way_homes(alloc, wires, lanes)?;
        let counts = ranks_of(alloc, &homes, count)?.counts;
        Ok(BodyRoom {
            tables: blank_tables(alloc, &counts)?,
            peers: peers_of(alloc, lanes, count)?,
            bodies: Vec::with_capacity(alloc, count)?,
            ends: Vec::with_capacity(alloc, count)?,
        })
    }
}

// The islands of all connections: of each wire, and then of the input end of each lane.
fn way_homes(alloc: Global, wires: &[usize], lanes: &[LanePlan]) -> Result<Vec<usize>, NoMemory>
    ensures { IfOk result (λ homes. homes.items ≡ way_homes wires.now lanes.now) }
{
    let mut homes = Vec::new(alloc);
    homes.extend_from_slice(wires)?;
    for lane in lanes {
        homes.push(lane.to as usize)?;
    }
    Ok(homes)
}

// Of each island a blank table, with so many rows.
fn blank_tables(alloc: Global, counts: &[usize]) -> Result<Vec<Vec<Way>>, NoMemory>
    ensures { IfOk result (λ tables. AreTables counts.now tables.items) }
{
    let mut tables = Vec::new(alloc);
    for count in counts {
        tables.push(blank_ways(alloc, *count)?)?;
    }
    Ok(tables)
}
