// What the lanes between bodies are asked for.
ghost use Rattle.std.specs.Prelude.{◌≡◌, ◌≤◌, [], length, slice_get, Some, vec_capacity};
ghost use Rattle.lane_core.specs.Ends.{asked_in_all};
ghost use Rattle.island_plans.specs.LaneEnds.{AreRising};
ghost use Rattle.island_body.specs.declared.body.Body as island;
ghost use Rattle.island_body.specs.declared.input.IslandInput as inputs;
ghost use Rattle.island_plans.specs.Asked.{LiesThere, LieThere, AreWithin, AreAsked, AreNoted, with_demand};

use blue_check::plan::LanePlan;
use graph_stage::handlers::Handlers;
use island_body::body::Body;
use lane_core::crossing::Crossing;
use plug_logic::book::PlugBook;
use plug_logic::logic::Logic;
use stream_io::outside::{Drain, Source};
use stream_model::outcome::WireCount;

/// Of each lane how many elements its input end has asked for in all: `crossings` says where its two ends lie. `all` is empty and has
/// room for each: it takes no memory.
pub fn asked_of<S: Source, D: Drain, L: Logic, H: Handlers, B: PlugBook>(
    bodies: &[Body<S, D, L, H, B>],
    crossings: &[Crossing],
    all: Vec<u64>,
) -> Vec<u64>
    requires lie { LieThere bodies.now crossings.now }
    requires none { all.items ≡ [] }
    requires room { length crossings.now ≤ vec_capacity all }
    ensures { AreAsked bodies.now crossings.now result.items }
{
    let mut all = all;
    for crossing in crossings {
        all.push_reserved(asked_at(bodies, crossing));
    }
    all
}

// How many elements the input end at a crossing has asked for in all.
fn asked_at<S: Source, D: Drain, L: Logic, H: Handlers, B: PlugBook>(
    bodies: &[Body<S, D, L, H, B>],
    crossing: &Crossing,
) -> u64
    requires { LiesThere bodies.now crossing.now }
    ensures { (b : island.Body S D L H B) (x : inputs.IslandInput) → slice_get bodies.now crossing.now.to ≡ Some b
        → slice_get b.ins.items crossing.now.inp ≡ Some x → result ≡ asked_in_all x.boundary.lane }
{
    bodies[crossing.to as usize].asked(crossing.inp as usize)
}

/// Notes of each lane, at the count of its wire, whether more elements were asked for in all than were sent: `all` says how many were.
/// The counts of other wires stay. It takes no memory.
pub fn note_asked(all: &[u64], lanes: &[LanePlan], counts: &mut [WireCount])
    requires many { length all.now ≡ length lanes.now }
    requires within { AreWithin (length counts.old) lanes.now }
    requires order { AreRising lanes.now }
    ensures { AreNoted all.now lanes.now counts.old counts.new }
{
    for n in 0..lanes.len() {
        note(&mut counts[lanes[n].wire as usize], all[n]);
    }
}

// The count of a lane of which so much was asked in all.
fn note(count: &mut WireCount, all: u64)
    ensures { count.new ≡ with_demand count.old all }
{
    count.asked = all > count.sent;
}
