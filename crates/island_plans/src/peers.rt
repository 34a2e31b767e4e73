// The islands at the other ends of lanes, by islands.
ghost use Rattle.std.specs.Prelude.{◌≡◌, ◌<◌, IfOk, All, length, map};
ghost use Rattle.scatter.specs.Shares.{AreShares};
ghost use Rattle.island_plans.specs.LaneEnds.{CanAllBeMade};
ghost use Rattle.blue_check.specs.declared.plan.LanePlan.{LanePlan};
ghost use Rattle.island_plans.specs.Peers.{ArePeers, ArePaired};

use blue_check::plan::LanePlan;
use elem_core::why::NoMemory;
use island_body::peers::Peers;
use scatter::ranks::ranks_of;
use scatter::shares::{rooms, scatter};
use std::alloc::Global;

/// Of each of so many islands those at the other ends of its lanes, in the order of lanes. It takes time n + count for n lanes.
pub fn peers_of(alloc: Global, lanes: &[LanePlan], count: usize) -> Result<Vec<Peers>, NoMemory>
    requires { CanAllBeMade count lanes.now }
    ensures { IfOk result (λ peers. ArePeers lanes.now count peers.items) }
{
    let senders = senders(alloc, lanes)?;
    let takers = takers(alloc, lanes)?;
    let ins = others(alloc, &takers, &senders, count)?;
    let outs = others(alloc, &senders, &takers, count)?;
    let peers = paired(alloc, &ins, &outs)?;
    Ok(peers)
}

// The island that sends on each lane.
fn senders(alloc: Global, lanes: &[LanePlan]) -> Result<Vec<u32>, NoMemory>
    ensures { IfOk result (λ all. all.items ≡ map (λ (l : LanePlan). l.from) lanes.now) }
{
    let mut all = Vec::new(alloc);
    for lane in lanes {
        all.push(lane.from)?;
    }
    Ok(all)
}

// The island that takes from each lane.
fn takers(alloc: Global, lanes: &[LanePlan]) -> Result<Vec<u32>, NoMemory>
    ensures { IfOk result (λ all. all.items ≡ map (λ (l : LanePlan). l.to) lanes.now) }
{
    let mut all = Vec::new(alloc);
    for lane in lanes {
        all.push(lane.to)?;
    }
    Ok(all)
}

// The numbers of homes as places.
fn places(alloc: Global, homes: &[u32]) -> Result<Vec<usize>, NoMemory>
    ensures { IfOk result (λ all. all.items ≡ homes.now) }
{
    let mut all = Vec::new(alloc);
    for home in homes {
        all.push(*home as usize)?;
    }
    Ok(all)
}

// Of each of so many homes the others of those that stand there, in order.
fn others(
    alloc: Global,
    homes: &[u32],
    all: &[u32],
    count: usize,
) -> Result<Vec<Vec<u32>>, NoMemory>
    requires below { All (λ h. h < count) homes.now }
    requires each { length all.now ≡ length homes.now }
    ensures shares { IfOk result (λ lists. AreShares homes.now all.now lists.items) }
    ensures count { IfOk result (λ lists. length lists.items ≡ count) }
{
    let places = places(alloc, homes)?;
    let counts = ranks_of(alloc, &places, count)?.counts;
    let mut items = Vec::new(alloc);
    items.extend_from_slice(all)?;
    Ok(scatter(&places, items, rooms(alloc, &counts)?))
}

// The peers of each island, by those that it takes from and those that it sends on.
fn paired(alloc: Global, ins: &[Vec<u32>], outs: &[Vec<u32>]) -> Result<Vec<Peers>, NoMemory>
    requires { length outs.now ≡ length ins.now }
    ensures { IfOk result (λ peers. ArePaired ins.now outs.now peers.items) }
{
    let mut all = Vec::new(alloc);
    for k in 0..ins.len() {
        all.push(Peers::of(alloc, &ins[k], &outs[k])?)?;
    }
    Ok(all)
}
