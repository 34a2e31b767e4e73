// Which links of an island are at the ends of lanes.
ghost use Rattle.std.specs.Prelude.{◌≡◌, ◌≤◌, ◌^◌, ◌<◌, ◌∷◌, ◌++◌, [], if◌then◌else◌, IfOk, length, vec_len, vec_capacity};
ghost use Rattle.interpreter.specs.Ways.{HasLaneRoom, ListsIns, ListsOuts, ListsLaneEnds, IsOnce, comes_in, goes_out};

use crate::parts::{Link, Seated, Work};
use crate::ways::{LanePlace, Ways};
use elem_core::why::NoMemory;
use graph_stage::handlers::Handlers;
use plug_logic::book::PlugBook;
use plug_logic::logic::Logic;
use std::alloc::Global;
use stream_io::outside::{Drain, Source};

// Whether a lane comes in at a place.
fn comes_in<S: Source, D: Drain, L: Logic, H: Handlers, B: PlugBook>(
    works: &[Seated<S, D, L, H, B>],
    place: u32,
) -> bool
    ensures { result ≡ comes_in works.now place }
{
    match works.get(place as usize) {
        Some(seated) => matches!(seated.work, Work::LaneIn(_)),
        None => false,
    }
}

// Whether a lane goes out at a place.
fn goes_out<S: Source, D: Drain, L: Logic, H: Handlers, B: PlugBook>(
    works: &[Seated<S, D, L, H, B>],
    place: u32,
) -> bool
    ensures { result ≡ goes_out works.now place }
{
    match works.get(place as usize) {
        Some(seated) => matches!(seated.work, Work::LaneOut(_)),
        None => false,
    }
}

// Puts a lane last into a list that has room for it, where it is one.
fn list_one(lanes: &mut Vec<LanePlace>, lane: LanePlace, is_lane: bool)
    requires { vec_len lanes.old < vec_capacity lanes.old }
    ensures items { lanes.new.items ≡ (if is_lane then lanes.old.items ++ lane ∷ [] else lanes.old.items) }
    ensures stay { vec_capacity lanes.new ≡ vec_capacity lanes.old }
{
    if is_lane {
        lanes.push_reserved(lane);
    }
}

// The lanes that come in, into an empty list that has room for them.
fn list_ins<S: Source, D: Drain, L: Logic, H: Handlers, B: PlugBook>(
    works: &[Seated<S, D, L, H, B>],
    links: &[Link],
    lanes: Vec<LanePlace>,
) -> Vec<LanePlace>
    requires empty { lanes.items ≡ [] }
    requires room { length links.now ≤ vec_capacity lanes }
    requires few { length links.now < 2 ^ 32 }
    requires once { IsOnce works.now links.now }
    ensures { ListsIns works.now links.now result.items }
{
    let mut lanes = lanes;
    for q in 0..links.len() {
        let lane = LanePlace {
            wire: links[q].wire,
            place: q as u32,
        };
        list_one(&mut lanes, lane, comes_in(works, links[q].from));
    }
    lanes
}

// The lanes that go out, into an empty list that has room for them.
fn list_outs<S: Source, D: Drain, L: Logic, H: Handlers, B: PlugBook>(
    works: &[Seated<S, D, L, H, B>],
    links: &[Link],
    lanes: Vec<LanePlace>,
) -> Vec<LanePlace>
    requires empty { lanes.items ≡ [] }
    requires room { length links.now ≤ vec_capacity lanes }
    requires few { length links.now < 2 ^ 32 }
    requires once { IsOnce works.now links.now }
    ensures { ListsOuts works.now links.now result.items }
{
    let mut lanes = lanes;
    for q in 0..links.len() {
        let lane = LanePlace {
            wire: links[q].wire,
            place: q as u32,
        };
        list_one(&mut lanes, lane, goes_out(works, links[q].to));
    }
    lanes
}

// No lane, with room for each link.
pub(crate) fn no_lanes(alloc: Global, links: &[Link]) -> Result<Ways, NoMemory>
    ensures { IfOk result (λ ways. HasLaneRoom ways links.now) }
{
    Ok(Ways {
        ins: Vec::with_capacity(alloc, links.len())?,
        outs: Vec::with_capacity(alloc, links.len())?,
    })
}

// The lanes of these links, into lists that are empty and have room for them. It takes no memory.
pub(crate) fn list_lanes<S: Source, D: Drain, L: Logic, H: Handlers, B: PlugBook>(
    ways: Ways,
    works: &[Seated<S, D, L, H, B>],
    links: &[Link],
) -> Ways
    requires room { HasLaneRoom ways links.now }
    requires few { length links.now < 2 ^ 32 }
    requires once { IsOnce works.now links.now }
    ensures { ListsLaneEnds works.now links.now result.ins.items result.outs.items }
{
    let Ways { ins, outs } = ways;
    Ways {
        ins: list_ins(works, links, ins),
        outs: list_outs(works, links, outs),
    }
}
