// The ends of lanes, by islands.
ghost use Rattle.std.specs.Prelude.{◌≡◌, ◌<◌, ℕ, IfOk, length, map};
ghost use Rattle.blue_check.specs.declared.plan.LanePlan.{LanePlan};
ghost use Rattle.island_plans.specs.LaneEnds.{CanAllBeMade, AreRising, AreAllEnds, AreCrossingsOf};

use crate::lane_make::{Made, make_lanes};
use crate::share::{Shared, share};
use blue_check::plan::LanePlan;
use elem_core::count::numbered;
use elem_core::why::NoMemory;
use island_body::input::IslandInput;
use island_body::output::OutputBoundary;
use lane_core::crossing::Crossing;
use std::alloc::Global;

/// Both ends of every lane of a blueprint.
#[derive(Drop)]
pub struct AllEnds {
    /// Of each island the ends that take, in the order of lanes.
    pub ins: Vec<Vec<IslandInput>>,
    /// Of each island the ends that send, in the order of lanes.
    pub outs: Vec<Vec<OutputBoundary>>,
    /// Of each lane where its two ends lie.
    pub crossings: Vec<Crossing>,
}

/// Makes both ends of every lane of a blueprint of so many islands, and the boundaries there. Each takes its memory here; nothing has
/// passed, and each input has asked for as many elements as its lane has places. It takes time n + count for n lanes.
pub fn ends_of(alloc: Global, lanes: &[LanePlan], count: usize) -> Result<AllEnds, NoMemory>
    requires can { CanAllBeMade count lanes.now }
    requires order { AreRising lanes.now }
    ensures { IfOk result (AreAllEnds lanes.now count) }
{
    let Made { outs, ins } = make_lanes(alloc, lanes)?;
    let senders = senders(alloc, lanes)?;
    let takers = takers(alloc, lanes)?;
    let outs = share(alloc, &senders, outs, count)?;
    let ins = share(alloc, &takers, ins, count)?;
    let crossings = crossings_of(alloc, lanes, &outs.ranks, &ins.ranks)?;
    Ok(AllEnds {
        ins: ins.lists,
        outs: outs.lists,
        crossings,
    })
}

// The island that sends on each lane.
fn senders(alloc: Global, lanes: &[LanePlan]) -> Result<Vec<usize>, NoMemory>
    ensures { IfOk result (λ homes. homes.items ≡ map (λ (l : LanePlan). l.from) lanes.now) }
{
    let mut homes = Vec::new(alloc);
    for lane in lanes {
        homes.push(lane.from as usize)?;
    }
    Ok(homes)
}

// The island that takes from each lane.
fn takers(alloc: Global, lanes: &[LanePlan]) -> Result<Vec<usize>, NoMemory>
    ensures { IfOk result (λ homes. homes.items ≡ map (λ (l : LanePlan). l.to) lanes.now) }
{
    let mut homes = Vec::new(alloc);
    for lane in lanes {
        homes.push(lane.to as usize)?;
    }
    Ok(homes)
}

// Where the ends of each lane lie, by their places among those of their islands.
fn crossings_of(
    alloc: Global,
    lanes: &[LanePlan],
    outs: &[usize],
    ins: &[usize],
) -> Result<Vec<Crossing>, NoMemory>
    requires outs { length outs.now ≡ length lanes.now }
    requires ins { length ins.now ≡ length lanes.now }
    ensures { IfOk result (λ all. AreCrossingsOf lanes.now outs.now ins.now all.items) }
{
    let mut crossings = Vec::new(alloc);
    for (n, lane) in lanes.iter().enumerate() {
        crossings.push(Crossing {
            from: lane.from,
            out: numbered(outs[n])?,
            to: lane.to,
            inp: numbered(ins[n])?,
        })?;
    }
    Ok(crossings)
}
