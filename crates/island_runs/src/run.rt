// The run of a blueprint's islands, by workers.
ghost use Rattle.std.specs.Prelude.{◌≡◌, ◌<◌, ◌≤◌, [], ℕ, List, IfOk, IfErr, All, length, map, vec_len, vec_capacity};
ghost use Rattle.elem_core.specs.declared.count.TheConstants.{MOST_COUNT};
ghost use Rattle.stream_model.specs.declared.blueprint.Blueprint as plan;
ghost use Rattle.island_body.specs.declared.body.Body as island;
ghost use Rattle.materializer.specs.Files.{inputs_of_nodes, outputs_of_nodes};
ghost use Rattle.materializer.specs.Seats.{place_plan, place_types};
ghost use Rattle.island_plans.specs.Plans.{led_plans, made_types};
ghost use Rattle.island_runs.specs.Begun.{HaveBegun, HaveRun, HaveBroken};
ghost use Rattle.island_runs.specs.Leaving.{HasHandles, RunLeaves, LeavesBroken, LeavesBrokenAs};
ghost use Rattle.island_runs.specs.Prepared.{IsPrepared};
ghost use Rattle.island_runs.specs.Receipt.{HasIslands, IsReceipt};

use crate::begin_laws::{
    ends_stay_at_their_crossings, filled_islands_are_seated, made_bodies_begin_their_blueprint,
    started_islands_begin_bodies,
};
use crate::leave_laws::{
    bodies_leave_what_their_nodes_do, bodies_spent_what_was_sent,
    broken_bodies_leave_their_handles, noted_counts_are_the_picture, told_asks_are_those_of_lanes,
    unmade_islands_hand_back,
};
use crate::prepare::Prepared;
use crate::ran::Ran;
use blue_check::plan::LanePlan;
use bodies_run::laws::{
    bodies_leave_a_run, broken_bodies_cover, broken_bodies_leave_a_run, nodes_alone_are_a_run,
};
use dispatcher::finish::Finish;
use graph_stage::handlers::Handlers;
use interpreter::island::IslandEnd;
use island_body::body::Body;
use island_parts::join::{join_ends, join_handles};
use island_parts::room::{EndHomes, EndRoom};
use island_parts::start::start_all;
use island_plans::asked::{asked_of, note_asked};
use island_plans::body_make::{finish_all, make_all};
use lane_core::crossing::Crossing;
use materializer::switch_board::Board;
use plug_logic::book::PlugBook;
use plug_logic::logic::Logic;
use std::alloc::Global;
use std::sync::Wait;
use std::thread::Threads;
use stream_io::outside::{Drain, Source};
use stream_model::outcome::WireCount;

/// A run that was taken apart: what its nodes left, in order of nodes, but for the seats at its kill switches, which were settled; what
/// each wire carried, how many units were used, whether no event was left, and the receipt of the run.
#[derive(Drop)]
pub struct Stopped<S: Source, D: Drain> {
    pub end: IslandEnd<S, D>,
    pub wires: Vec<WireCount>,
    pub used: u32,
    pub at_rest: bool,
    pub ran: Ran,
}

/// Where memory was wanting. What was taken apart lists its handles alone.
#[derive(Drop)]
pub enum Broken<S: Source, D: Drain> {
    /// As an island started: nothing was read or written, and the handles are as they were handed in.
    Unmade(IslandEnd<S, D>),
    /// In the run: it was taken apart.
    Within(IslandEnd<S, D>),
}

// Choice: docs/DECISIONS.md#broken-runs-close
/// What the bodies of a blueprint go back into.
#[derive(Drop)]
struct Remains<S: Source, D: Drain> {
    lanes: Vec<LanePlan>,
    homes: EndHomes,
    room: EndRoom<S, D>,
    // Empty, with room for the end of each island.
    ends: Vec<IslandEnd<S, D>>,
    // Empty, with room for the asks of each lane.
    asked: Vec<u64>,
    // Empty, with room for the count of each wire.
    counts: Vec<WireCount>,
    // The kill switches at which its nodes have their seats.
    board: Board,
}

/// The bodies of a blueprint that were made, and the crossings of its lanes.
#[derive(Drop)]
struct Begun<S: Source, D: Drain, L: Logic, H: Handlers, B: PlugBook> {
    bodies: Vec<Body<S, D, L, H, B>>,
    crossings: Vec<Crossing>,
    remains: Remains<S, D>,
}

/// Starts all islands, and makes their bodies.
fn begin<S: Source, D: Drain, L: Logic, H: Handlers, B: PlugBook>(
    alloc: Global,
    prepared: Prepared<S, D, L, H, B>,
    sources: Vec<S>,
    drains: Vec<D>,
) -> Result<Begun<S, D, L, H, B>, IslandEnd<S, D>>
    requires prepared { IsPrepared prepared }
    requires sources { vec_len sources ≡ length (inputs_of_nodes prepared.plans.blueprint.value.nodes.items) }
    requires drains { vec_len drains ≡ length (outputs_of_nodes prepared.plans.blueprint.value.nodes.items) }
    requires unread { All (λ s. (S.state s).given ≡ 0) sources.items }
    ensures begun { IfOk result
        (λ begun. (h : HaveBegun S.state D.state B.lists prepared.plans.blueprint.value sources.items drains.items
        begun.bodies.items begun.crossings.items begun.remains)
        × (map place_plan h.nodes ≡ led_plans prepared.plans) × (map place_types h.nodes ≡ made_types prepared.plans)) }
    ensures unmade { IfErr result (HasHandles S.state D.state sources.items drains.items) }
{
    filled_islands_are_seated::<S, D, L, H, B>();
    started_islands_begin_bodies::<S, D, L, H, B>();
    made_bodies_begin_their_blueprint::<S, D, L, H, B>();
    unmade_islands_hand_back::<S, D, L, H, B>();
    let Prepared {
        plans,
        ends: lane_ends,
        started,
        unmade,
        bodies,
        room,
        asked,
        counts,
    } = prepared;
    let filled = plans.fill(alloc, sources, drains);
    let islands = match start_all(alloc, filled.islands, started, unmade) {
        Ok(islands) => islands,
        Err(ends) => return Err(join_handles(ends, &filled.ends, room)),
    };
    let bodies_made = make_all(
        islands,
        lane_ends.ins,
        lane_ends.outs,
        bodies.tables,
        bodies.peers,
        bodies.bodies,
    );
    Ok(Begun {
        bodies: bodies_made,
        crossings: lane_ends.crossings,
        remains: Remains {
            lanes: filled.lanes,
            homes: filled.ends,
            room,
            ends: bodies.ends,
            asked,
            counts,
            board: filled.board,
        },
    })
}

/// What each wire carried, without its number.
fn counts_of(wires: &[(u32, WireCount)], counts: Vec<WireCount>) -> Vec<WireCount>
    requires none { counts.items ≡ [] }
    requires room { length wires.now ≤ vec_capacity counts }
    ensures { result.items ≡ map (λ wire. wire.1) wires.now }
{
    let mut counts = counts;
    for wire in wires {
        counts.push_reserved(wire.1);
    }
    counts
}

// Choice: docs/DECISIONS.md#switches-are-settled-here
/// Takes bodies apart that ran, and settles the seats of their kill switches.
fn stop<S: Source, D: Drain, L: Logic, H: Handlers, B: PlugBook>(
    alloc: Global,
    bodies: Vec<Body<S, D, L, H, B>>,
    crossings: &[Crossing],
    remains: Remains<S, D>,
    used: u32,
    at_rest: bool,
    ran: Ran,
) -> Stopped<S, D>
    requires { (b : plan.Blueprint) × ((ss : List S) × ((ds : List D) × ((begun : List (island.Body S D L H B))
        × ((budget : ℕ) × HaveRun S.state D.state B.lists b ss ds begun bodies.items crossings.now remains budget used at_rest)))) }
    ensures leaves { (b : plan.Blueprint) (ss : List S) (ds : List D) (begun : List (island.Body S D L H B)) (budget : ℕ)
        → (run : HaveRun S.state D.state B.lists b ss ds begun bodies.items crossings.now remains budget used at_rest)
        → (l : RunLeaves L H B S.state D.state B.lists b ss ds budget result) × (l.moment.places ≡ run.began.nodes) }
    ensures same { (result.used ≡ used) × (result.at_rest ≡ at_rest) × (result.ran ≡ ran) }
{
    ends_stay_at_their_crossings::<S, D, L, H, B>();
    bodies_leave_a_run::<S, D, L, H, B>();
    nodes_alone_are_a_run::<S, D, L, H, B>();
    bodies_leave_what_their_nodes_do::<S, D, L, H, B>();
    told_asks_are_those_of_lanes::<S, D, L, H, B>();
    noted_counts_are_the_picture::<S, D, L, H, B>();
    bodies_spent_what_was_sent::<S, D, L, H, B>();
    let Remains {
        lanes,
        homes,
        room,
        ends,
        asked,
        counts,
        board,
    } = remains;
    let all = asked_of(&bodies, crossings, asked);
    let ends = finish_all(bodies, ends);
    let end = join_ends::<S, D, L, H, B>(ends, &homes, room);
    let mut wires = counts_of(&end.wires, counts);
    note_asked(&all, &lanes, &mut wires);
    let IslandEnd {
        sinks,
        wires: told,
        picks,
        misfit,
        seats,
        readers,
        writers,
    } = end;
    board.settle(seats);
    Stopped {
        end: IslandEnd {
            sinks,
            wires: told,
            picks,
            misfit,
            seats: Vec::new(alloc),
            readers,
            writers,
        },
        wires,
        used,
        at_rest,
        ran,
    }
}

// Choice: docs/DECISIONS.md#seats-are-dropped
/// Takes bodies apart of which some may have broken off.
fn give_up<S: Source, D: Drain, L: Logic, H: Handlers, B: PlugBook>(
    bodies: Vec<Body<S, D, L, H, B>>,
    crossings: &[Crossing],
    remains: Remains<S, D>,
) -> IslandEnd<S, D>
    requires { (b : plan.Blueprint) × ((ss : List S) × ((ds : List D) × ((begun : List (island.Body S D L H B))
        × HaveBroken S.state D.state B.lists b ss ds begun bodies.items crossings.now remains))) }
    ensures { (b : plan.Blueprint) (ss : List S) (ds : List D) (begun : List (island.Body S D L H B))
        → HaveBroken S.state D.state B.lists b ss ds begun bodies.items crossings.now remains → LeavesBroken L H B S.state D.state B.lists b ss ds result }
{
    ends_stay_at_their_crossings::<S, D, L, H, B>();
    broken_bodies_cover::<S, D, L, H, B>();
    broken_bodies_leave_a_run::<S, D, L, H, B>();
    nodes_alone_are_a_run::<S, D, L, H, B>();
    broken_bodies_leave_their_handles::<S, D, L, H, B>();
    told_asks_are_those_of_lanes::<S, D, L, H, B>();
    let Remains {
        lanes: _,
        homes,
        room,
        ends,
        asked: _,
        counts: _,
        board: _,
    } = remains;
    let ends = finish_all(bodies, ends);
    join_handles(ends, &homes, room)
}

/// Lets so many workers run bodies that were made, by at most `budget` units, and takes them apart.
fn run_bodies<
    S: Source + Send,
    D: Drain + Send,
    L: Logic + Send,
    H: Handlers + Send,
    B: PlugBook + Send,
    R: Threads + Wait + Sync,
>(
    rt: &R,
    alloc: Global,
    begun: Begun<S, D, L, H, B>,
    workers: u32,
    budget: u32,
) -> Result<Stopped<S, D>, IslandEnd<S, D>>
    requires workers { (0 < workers) × (workers ≤ 64) }
    requires budget { budget ≤ MOST_COUNT }
    requires begun { (b : plan.Blueprint)
        × ((ss : List S) × ((ds : List D) × HaveBegun S.state D.state B.lists b ss ds begun.bodies.items begun.crossings.items begun.remains)) }
    ensures leaves { (b : plan.Blueprint) (ss : List S) (ds : List D)
        → (h : HaveBegun S.state D.state B.lists b ss ds begun.bodies.items begun.crossings.items begun.remains)
        → IfOk result (λ stopped. (l : RunLeaves L H B S.state D.state B.lists b ss ds budget stopped) × (l.moment.places ≡ h.nodes)) }
    ensures receipt { (b : plan.Blueprint) (ss : List S) (ds : List D)
        → HaveBegun S.state D.state B.lists b ss ds begun.bodies.items begun.crossings.items begun.remains
        → IfOk result (λ stopped. IsReceipt b workers stopped.used stopped.at_rest stopped.ran) }
    ensures breaks { (b : plan.Blueprint) (ss : List S) (ds : List D)
        → HaveBegun S.state D.state B.lists b ss ds begun.bodies.items begun.crossings.items begun.remains
        → IfErr result (LeavesBroken L H B S.state D.state B.lists b ss ds) }
{
    let Begun {
        bodies,
        crossings,
        remains,
    } = begun;
    let islands = bodies.len();
    match dispatcher::run::run(rt, alloc, bodies, &crossings, workers, budget) {
        Ok(finish) => {
            let Finish { bodies, used, more } = finish;
            let ran = Ran {
                workers,
                islands: islands as u32,
                used,
                more,
            };
            Ok(stop(alloc, bodies, &crossings, remains, used, !more, ran))
        }
        Err(bodies) => Err(give_up(bodies, &crossings, remains)),
    }
}

// Choice: docs/DECISIONS.md#one-island-too
/// Lets so many workers, 1 to 64, run the islands of a blueprint over its open files, of which nothing was read, by at most `budget` units:
/// turns of at most 1000 units, until no island has an event or all units are used. It is taken apart then. In the order of nodes, each
/// source of lines reads the next of `sources`, and each sink with a file writes the next of `drains`.
pub fn run<
    S: Source + Send,
    D: Drain + Send,
    L: Logic + Send,
    H: Handlers + Send,
    B: PlugBook + Send,
    R: Threads + Wait + Sync,
>(
    rt: &R,
    alloc: Global,
    prepared: Prepared<S, D, L, H, B>,
    sources: Vec<S>,
    drains: Vec<D>,
    workers: u32,
    budget: u32,
) -> Result<Stopped<S, D>, Broken<S, D>>
    requires prepared { IsPrepared prepared }
    requires workers { (0 < workers) × (workers ≤ 64) }
    requires budget { budget ≤ MOST_COUNT }
    requires sources { vec_len sources ≡ length (inputs_of_nodes prepared.plans.blueprint.value.nodes.items) }
    requires drains { vec_len drains ≡ length (outputs_of_nodes prepared.plans.blueprint.value.nodes.items) }
    requires unread { All (λ s. (S.state s).given ≡ 0) sources.items }
    ensures leaves { IfOk result
        (λ stopped. (l : RunLeaves L H B S.state D.state B.lists prepared.plans.blueprint.value
        sources.items drains.items budget stopped)
        × (map place_plan l.moment.places ≡ led_plans prepared.plans) × (map place_types l.moment.places ≡ made_types prepared.plans)) }
    ensures receipt { IfOk result (λ stopped. IsReceipt prepared.plans.blueprint.value workers stopped.used stopped.at_rest stopped.ran) }
    ensures breaks { IfErr result (λ broken. LeavesBrokenAs L H B S.state D.state B.lists prepared.plans.blueprint.value sources.items drains.items broken) }
{
    match begin(alloc, prepared, sources, drains) {
        Ok(begun) => match run_bodies(rt, alloc, begun, workers, budget) {
            Ok(stopped) => Ok(stopped),
            Err(end) => Err(Broken::Within(end)),
        },
        Err(end) => Err(Broken::Unmade(end)),
    }
}
