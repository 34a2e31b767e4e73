// The homes and the places of all islands in one list each.
ghost use Rattle.std.specs.Prelude.{◌≡◌, ◌+◌, ◌≤◌, IfOk, length, vec_len, vec_capacity};
ghost use Rattle.island_parts.specs.Whole.{in_place, out_place, whole_homes, whole_places, whole_seats};

use blue_check::plan::LanePlan;
use elem_core::why::NoMemory;
use graph_stage::handlers::Handlers;
use interpreter::parts::{Place, Seated, Work};
use plug_logic::book::PlugBook;
use plug_logic::logic::Logic;
use stream_io::outside::{Drain, Source};

/// The islands of all places: behind those of nodes, those at which lanes come in, and those at which they go out.
pub fn whole_homes(homes: Vec<usize>, lanes: &[LanePlan]) -> Result<Vec<usize>, NoMemory>
    ensures { IfOk result (λ all. all.items ≡ whole_homes homes.items lanes.now) }
{
    let mut all = homes;
    'entries: for lane in lanes {
        all.push(lane.to as usize)?;
    }
    'exits: for lane in lanes {
        all.push(lane.from as usize)?;
    }
    Ok(all)
}

/// The place at which a lane comes in.
fn entry(_lane: &LanePlan) -> Place
    ensures { result ≡ in_place _lane.now }
{
    Place {
        node: 0,
        inputs: 0,
        outputs: 1,
    }
}

/// The place at which a lane goes out.
fn exit(_lane: &LanePlan) -> Place
    ensures { result ≡ out_place _lane.now }
{
    Place {
        node: 0,
        inputs: 1,
        outputs: 0,
    }
}

/// All places: behind those of nodes, those at which lanes come in, and those at which they go out.
pub fn whole_places(nodes: Vec<Place>, lanes: &[LanePlan]) -> Result<Vec<Place>, NoMemory>
    ensures { IfOk result (λ all. all.items ≡ whole_places nodes.items lanes.now) }
{
    let mut all = nodes;
    'entries: for lane in lanes {
        all.push(entry(lane))?;
    }
    'exits: for lane in lanes {
        all.push(exit(lane))?;
    }
    Ok(all)
}

/// The same with what stands there, in a list that has room for them. It takes no memory.
pub fn whole_seats<S: Source, D: Drain, L: Logic, H: Handlers, B: PlugBook>(
    nodes: Vec<Seated<S, D, L, H, B>>,
    lanes: &[LanePlan],
) -> Vec<Seated<S, D, L, H, B>>
    requires room { vec_len nodes + length lanes.now + length lanes.now ≤ vec_capacity nodes }
    ensures { result.items ≡ whole_seats nodes.items lanes.now }
{
    let mut all = nodes;
    'entries: for lane in lanes {
        all.push_reserved(Seated {
            node: 0,
            room: 1,
            work: Work::LaneIn(lane.wire),
        });
    }
    'exits: for lane in lanes {
        all.push_reserved(Seated {
            node: 0,
            room: 1,
            work: Work::LaneOut(lane.wire),
        });
    }
    all
}
