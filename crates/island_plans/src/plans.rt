// The plans of a blueprint's islands, and their parts.
ghost use Rattle.std.specs.List.{All};
ghost use Rattle.std.specs.Prelude.{◌≡◌, ◌+◌, IfOk, length, map, vec_len};
ghost use Rattle.materializer.specs.Choosers.{PlansFit, moves_of};
ghost use Rattle.materializer.specs.Fit.{CanRun};
ghost use Rattle.materializer.specs.Files.{inputs_of_nodes, outputs_of_nodes};
ghost use Rattle.materializer.specs.Seats.{place_plan, place_types};
ghost use Rattle.island_plans.specs.Plans.{IsPlans, IsFilled, led_plans, made_types};
ghost use Rattle.materializer.specs.HandedCustoms.{handed_heads, HasGuests, TellsAsListed, types_by_heads};
ghost use Rattle.materializer.specs.HandedPlugs.{GivesAsListed};

use crate::ends::end_homes;
use crate::homes::{copy_of, homes_of_links};
use crate::rooms::rooms_of;
use blue_check::lanes::lanes_of;
use blue_check::plan::LanePlan;
use blue_names::links::links_of;
use elem_core::why::NoMemory;
use graph_stage::custom::Custom;
use graph_stage::handlers::Handlers;
use interpreter::parts::{Parts, Seated};
use interpreter::room::IslandRoom;
use island_parts::laws::islands_have_parts;
use island_parts::room::EndHomes;
use island_parts::split::{Split, split_of};
use island_parts::whole::whole_seats;
use materializer::parts::places_of;
use materializer::plug_board::hand_out;
use materializer::seats::{Seat, fill_all, seat_all};
use materializer::switch_board::Board;
use plug_logic::book::PlugBook;
use plug_logic::logic::Logic;
use plug_logic::plug::Plug;
use std::alloc::{AllocError, Global};
use std::snapshot::Snapshot;
use stream_io::outside::{Drain, Source};
use stream_model::blueprint::Blueprint;

/// The islands of a blueprint, but for their handles: all that they take of memory before its files are opened.
pub struct Plans<S: Source, D: Drain, L: Logic, H: Handlers, B: PlugBook> {
    seats: Vec<Seat<S, D, L, H, B>>,
    // It is empty, and has room for what stands at all places: the nodes, and both ends of each lane.
    places: Vec<Seated<S, D, L, H, B>>,
    split: Split<S, D, L, H, B>,
    blueprint: Snapshot<Blueprint>,
    /// The wires that have a lane, in order.
    pub lanes: Vec<LanePlan>,
    /// The island of each node.
    pub homes: Vec<usize>,
    /// How many islands there are.
    pub count: usize,
    /// The islands of what their ends list.
    pub ends: EndHomes,
    /// The kill switches.
    pub board: Board,
}

// Dropped by a call, wherever it is dropped: else each crate above proves the drop of each of its parts again.
impl<S: Source, D: Drain, L: Logic, H: Handlers, B: PlugBook> Drop for Plans<S, D, L, H, B> {
    fn drop(self) {
        let Plans {
            seats: _,
            places: _,
            split: _,
            blueprint: _,
            lanes: _,
            homes: _,
            count: _,
            ends: _,
            board: _,
        } = self;
    }
}

/// The islands of a blueprint, whose nodes hold their handles.
#[derive(Drop)]
pub struct Filled<S: Source, D: Drain, L: Logic, H: Handlers, B: PlugBook> {
    /// The parts of each island, and the room that it takes.
    pub islands: Vec<(Parts<S, D, L, H, B>, IslandRoom<S, D, L, H, B>)>,
    /// The wires that have a lane, in order.
    pub lanes: Vec<LanePlan>,
    /// The island of each node.
    pub homes: Vec<usize>,
    /// How many islands there are.
    pub count: usize,
    /// The islands of what their ends list.
    pub ends: EndHomes,
    /// The kill switches.
    pub board: Board,
}

/// How many places so many nodes and lanes take; a number that is out of range is want of memory.
fn all_places(nodes: usize, lanes: usize) -> Result<usize, NoMemory>
    ensures { IfOk result (λ n. n ≡ nodes + lanes + lanes) }
{
    match nodes.checked_add(lanes) {
        Some(entries) => match entries.checked_add(lanes) {
            Some(all) => Ok(all),
            None => Err(AllocError),
        },
        None => Err(AllocError),
    }
}

/// The plans of the islands of a blueprint. They take all memory that islands want before their nodes hold their handles; a number
/// that is out of 32 bits is want of memory. Each node that chooses follows its moves of `plans`, where there are some.
pub fn plans_of<S: Source, D: Drain, L: Logic, H: Handlers, B: PlugBook>(
    alloc: Global,
    b: Blueprint,
    plugs: Vec<Plug<L>>,
    customs: Vec<Custom<H>>,
    plans: Vec<Option<Vec<u32>>>,
) -> Result<Plans<S, D, L, H, B>, NoMemory>
    requires runs { CanRun b }
    requires has { HasGuests (handed_heads plugs.items customs.items) b.wires.items b.nodes.items }
    requires listed { All (GivesAsListed L.gives B.lists) plugs.items }
    requires customs { All (TellsAsListed H.tells B.lists) customs.items }
    requires follow { PlansFit (map (λ n. n.kind) b.nodes.items) (map moves_of plans.items) }
    ensures blueprint { IfOk result (λ plans. plans.blueprint.value ≡ b) }
    ensures plans { IfOk result IsPlans }
    ensures led { IfOk result (λ made. led_plans made ≡ map moves_of plans.items) }
    ensures types { IfOk result (λ made. made_types made ≡ types_by_heads (handed_heads plugs.items customs.items) b.nodes.items) }
{
    let blueprint = Snapshot::of(&b);
    let wires = links_of(alloc, &b.nodes, &b.wires)?;
    let found = homes_of_links(alloc, b.nodes.len(), &wires)?;
    let count = found.firsts.len();
    let homes = found.homes;
    let lanes = lanes_of(alloc, &wires, &homes)?;
    let ends = end_homes(alloc, &b.nodes, &wires, &homes)?;
    let nodes = places_of(alloc, &b.nodes, &b.wires)?;
    let own = copy_of(alloc, &homes)?;
    let split = split_of(alloc, nodes, &wires, own, count, &lanes)?;
    let (board, switches) = Board::of(alloc, &b.nodes)?;
    let handed = hand_out::<L, H, B>(alloc, &b.nodes, plugs, customs)?;
    let many = b.nodes.len();
    let rooms = rooms_of(alloc, many, &wires)?;
    let unseated = b.nodes;
    let seats = seat_all(alloc, &b.chains, unseated, rooms, switches, handed, plans)?;
    let places = Vec::with_capacity(alloc, all_places(seats.len(), lanes.len())?)?;
    Ok(Plans {
        seats,
        places,
        split,
        blueprint,
        lanes,
        homes,
        count,
        ends,
        board,
    })
}

impl<S: Source, D: Drain, L: Logic, H: Handlers, B: PlugBook> Plans<S, D, L, H, B> {
    /// The parts and the room of each island: the nodes at their places, the ends of lanes at the places behind them, and the links
    /// of the wires, where each lane is cut. In the order of nodes, each source of lines reads the next of `sources`, and each sink
    /// with a file writes the next of `drains`. It takes no memory.
    pub fn fill(self, alloc: Global, sources: Vec<S>, drains: Vec<D>) -> Filled<S, D, L, H, B>
        requires plans { IsPlans self }
        requires sources { vec_len sources ≡ length (inputs_of_nodes self.blueprint.value.nodes.items) }
        requires drains { vec_len drains ≡ length (outputs_of_nodes self.blueprint.value.nodes.items) }
        ensures filled { (filled : IsFilled self.blueprint.value sources.items drains.items result) × (map place_plan filled.nodes ≡ led_plans self)
            × (map place_types filled.nodes ≡ made_types self) }
        ensures lanes { result.lanes ≡ self.lanes }
        ensures homes { result.homes ≡ self.homes }
        ensures count { result.count ≡ self.count }
        ensures ends { result.ends ≡ self.ends }
        ensures board { result.board ≡ self.board }
    {
        islands_have_parts::<S, D, L, H, B>();
        let Plans {
            seats,
            places,
            split,
            blueprint: _,
            lanes,
            homes,
            count,
            ends,
            board,
        } = self;
        let nodes = fill_all(alloc, seats, places, sources, drains);
        let islands = split.join(whole_seats(nodes, &lanes));
        Filled {
            islands,
            lanes,
            homes,
            count,
            ends,
            board,
        }
    }
}
