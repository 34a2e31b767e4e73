// What the run of a blueprint's islands takes of memory before its files are opened.
ghost use Rattle.std.specs.List.{All};
ghost use Rattle.std.specs.Prelude.{◌≡◌, IfOk, map};
ghost use Rattle.materializer.specs.Choosers.{PlansFit, moves_of};
ghost use Rattle.materializer.specs.Fit.{CanRun};
ghost use Rattle.island_plans.specs.Plans.{led_plans, made_types};
ghost use Rattle.island_runs.specs.Prepared.{IsPrepared};
ghost use Rattle.materializer.specs.HandedCustoms.{handed_heads, HasGuests, TellsAsListed, types_by_heads};
ghost use Rattle.materializer.specs.HandedPlugs.{GivesAsListed};

use crate::begin_laws::filled_islands_are_seated;
use elem_core::why::NoMemory;
use graph_stage::custom::Custom;
use graph_stage::handlers::Handlers;
use interpreter::island::{Island, IslandEnd};
use island_parts::room::EndRoom;
use island_plans::lane_ends::{AllEnds, ends_of};
use island_plans::plans::{Plans, plans_of};
use island_plans::room::BodyRoom;
use plug_logic::book::PlugBook;
use plug_logic::logic::Logic;
use plug_logic::plug::Plug;
use std::alloc::Global;
use stream_io::outside::{Drain, Source};
use stream_model::blueprint::Blueprint;
use stream_model::outcome::WireCount;

// Choice: docs/DECISIONS.md#memory-before-files
/// The islands of a blueprint, before its files are opened, with all that their run takes of memory but what their nodes want as they
/// start and run.
#[derive(Drop)]
pub struct Prepared<S: Source, D: Drain, L: Logic, H: Handlers, B: PlugBook> {
    pub(crate) plans: Plans<S, D, L, H, B>,
    pub(crate) ends: AllEnds,
    // Empty, with room for all islands.
    pub(crate) started: Vec<Island<S, D, L, H, B>>,
    // Empty, with room for the ends of all, where one does not start.
    pub(crate) unmade: Vec<IslandEnd<S, D>>,
    pub(crate) bodies: BodyRoom<S, D, L, H, B>,
    pub(crate) room: EndRoom<S, D>,
    // Empty, with room for the asks of all lanes.
    pub(crate) asked: Vec<u64>,
    // Empty, with room for the counts of all wires.
    pub(crate) counts: Vec<WireCount>,
}

/// Takes all memory that the run of a blueprint's islands wants before its files are opened, and hands each node that names a plug or a custom
/// stage its own of `plugs` and `customs`, and each that chooses its moves of `plans`, where there are some. A number that is out of 32 bits is
/// want of memory.
pub fn prepare<S: Source, D: Drain, L: Logic, H: Handlers, B: PlugBook>(
    alloc: Global,
    b: Blueprint,
    plugs: Vec<Plug<L>>,
    customs: Vec<Custom<H>>,
    plans: Vec<Option<Vec<u32>>>,
) -> Result<Prepared<S, D, L, H, B>, NoMemory>
    requires runs { CanRun b }
    requires has { HasGuests (handed_heads plugs.items customs.items) b.wires.items b.nodes.items }
    requires listed { All (GivesAsListed L.gives B.lists) plugs.items }
    requires customs { All (TellsAsListed H.tells B.lists) customs.items }
    requires follow { PlansFit (map (λ n. n.kind) b.nodes.items) (map moves_of plans.items) }
    ensures blueprint { IfOk result (λ p. p.plans.blueprint.value ≡ b) }
    ensures prepared { IfOk result IsPrepared }
    ensures led { IfOk result (λ p. led_plans p.plans ≡ map moves_of plans.items) }
    ensures types { IfOk result (λ p. made_types p.plans ≡ types_by_heads (handed_heads plugs.items customs.items) b.nodes.items) }
{
    filled_islands_are_seated::<S, D, L, H, B>();
    let plans = plans_of(alloc, b, plugs, customs, plans)?;
    let count = plans.count;
    let ends = ends_of(alloc, &plans.lanes, count)?;
    let bodies = BodyRoom::of(alloc, &plans.ends.wires, &plans.lanes, count)?;
    let room = EndRoom::of(alloc, &plans.ends, count)?;
    let asked = Vec::with_capacity(alloc, plans.lanes.len())?;
    let counts = Vec::with_capacity(alloc, plans.ends.wires.len())?;
    Ok(Prepared {
        plans,
        ends,
        started: Vec::with_capacity(alloc, count)?,
        unmade: Vec::with_capacity(alloc, count)?,
        bodies,
        room,
        asked,
        counts,
    })
}
