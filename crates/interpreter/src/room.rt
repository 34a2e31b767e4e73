// What an island takes of memory before its nodes hold their handles.
ghost use Rattle.std.specs.Prelude.{◌≡◌, ◌+◌, ◌*◌, ◌<◌, ◌≤◌, ◌^◌, IfOk, IfSome, length};
ghost use Rattle.stage_core.specs.declared.stage.TheConstants.{LEAST_ACTS};
ghost use Rattle.interpreter.specs.Room.{CallsFit, IsBlank, IsRoom};

use crate::island::IslandEnd;
use crate::lane_ends::no_lanes;
use crate::parts::{Link, Place, all_ends, all_numbers, all_places, blank_ports};
use crate::ways::Ways;
use elem_core::why::NoMemory;
use fused_net::engine::unused_wires;
use fused_net::net::{Ports, WireEnds};
use graph_stage::handlers::Handlers;
use nodes::node::IslandNode;
use plug_logic::book::PlugBook;
use plug_logic::logic::Logic;
use port_core::acts::Acts;
use port_core::ring::EventRing;
use port_core::wire::Wire;
use stage_core::stage::LEAST_ACTS;
use std::alloc::{AllocError, Global};
use stream_io::outside::{Drain, Source};

/// An engine before its nodes are there: tables with a row for each of their ports, and an empty list that has room for them.
#[derive(Drop)]
pub struct Blank<S: Source, D: Drain, L: Logic, H: Handlers, B: PlugBook> {
    pub(crate) ends: Vec<WireEnds>,
    pub(crate) ports: Vec<Ports>,
    pub(crate) wires: Vec<Wire>,
    pub(crate) ring: EventRing,
    pub(crate) nodes: Vec<IslandNode<S, D, L, H, B>>,
}

/// All that an island takes of memory but what its nodes themselves need, so that it is made and taken apart without any.
#[derive(Drop)]
pub struct IslandRoom<S: Source, D: Drain, L: Logic, H: Handlers, B: PlugBook> {
    pub(crate) acts: Acts,
    pub(crate) numbers: Vec<u32>,
    pub(crate) places: Vec<u32>,
    pub(crate) blank: Blank<S, D, L, H, B>,
    pub(crate) ways: Ways,
    pub(crate) end: IslandEnd<S, D>,
}

// This room, or what a call of a node at this place appends where that is more: two actions for each of its ports. None from 2^32 on.
fn room_with(room: u32, place: Place) -> Option<u32>
    ensures least { IfSome result (λ now. room ≤ now) }
    ensures calls { IfSome result (λ now. 2 * (place.inputs + place.outputs) ≤ now) }
{
    let ports = place.inputs.checked_add(place.outputs)?;
    let acts = ports.checked_mul(2)?;
    if acts < room {
        return Some(room);
    }
    Some(acts)
}

// Room for what any call of a node at one of these places appends. None from 2^32 on.
fn room_for_calls(places: &[Place]) -> Option<u32>
    ensures least { IfSome result (λ room. LEAST_ACTS ≤ room) }
    ensures calls { IfSome result (λ room. CallsFit places.now room) }
{
    let mut room = LEAST_ACTS;
    for n in 0..places.len() {
        let wanted = room_with(room, places[n])?;
        room = wanted;
    }
    Some(room)
}

impl<S: Source, D: Drain, L: Logic, H: Handlers, B: PlugBook> Blank<S, D, L, H, B> {
    fn of(alloc: Global, places: &[Place], links: &[Link]) -> Result<Blank<S, D, L, H, B>, NoMemory>
        requires { length links.now < 2 ^ 32 }
        ensures { IfOk result (λ blank. IsBlank blank places.now links.now) }
    {
        let ends = all_ends(alloc, links)?;
        let ports = blank_ports(alloc, places)?;
        let wires = unused_wires(alloc, links.len())?;
        let ring = EventRing::new(alloc, links.len() as u32)?;
        let nodes = Vec::with_capacity(alloc, places.len())?;
        Ok(Blank {
            ends,
            ports,
            wires,
            ring,
            nodes,
        })
    }
}

impl<S: Source, D: Drain, L: Logic, H: Handlers, B: PlugBook> IslandRoom<S, D, L, H, B> {
    /// The room for an island of these places and links.
    pub fn of(
        alloc: Global,
        places: &[Place],
        links: &[Link],
    ) -> Result<IslandRoom<S, D, L, H, B>, NoMemory>
        requires { length links.now < 2 ^ 32 }
        ensures { IfOk result (λ room. IsRoom room places.now links.now) }
    {
        let Some(calls) = room_for_calls(places) else {
            return Err(AllocError);
        };
        let acts = Acts::new(alloc, calls)?;
        let numbers = all_numbers(alloc, links)?;
        let blank = Blank::of(alloc, places, links)?;
        let ways = no_lanes(alloc, links)?;
        let end = IslandEnd::sized(alloc, places.len(), links.len())?;
        let places = all_places(alloc, places)?;
        Ok(IslandRoom {
            acts,
            numbers,
            places,
            blank,
            ways,
            end,
        })
    }
}
