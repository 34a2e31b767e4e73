// The islands of places and wires.
ghost use Rattle.std.specs.Prelude.{◌≡◌, ◌+◌, ◌<◌, ◌≤◌, ◌^◌, [], IfOk, All, length, vec_len, vec_capacity};
ghost use Rattle.blue_names.specs.Links.{AreInRange, wires_of_links};
ghost use Rattle.blue_check.specs.Plan.{lanes_from};
ghost use Rattle.island_parts.specs.Split.{IsReady, IsSplit, AreJoined, AreIslands};

use crate::links::{all_links, link_homes, local_links};
use crate::spaces::{Space, spaces_of, take_next};
use crate::whole::{whole_homes, whole_places};
use blue_check::plan::LanePlan;
use blue_names::links::NumberedWire as WireLink;
use elem_core::why::NoMemory;
use graph_stage::handlers::Handlers;
use interpreter::parts::{Parts, Place, Seated};
use interpreter::room::IslandRoom;
use plug_logic::book::PlugBook;
use plug_logic::logic::Logic;
use scatter::ranks::ranks_of;
use scatter::shares::{rooms, scatter};
use std::alloc::{AllocError, Global};
use stream_io::outside::{Drain, Source};

/// All that the islands of a blueprint take of memory before they start, but what their nodes need.
pub struct Split<S: Source, D: Drain, L: Logic, H: Handlers, B: PlugBook> {
    // The island of each place: of the nodes, of those where lanes come in, of those where they go out.
    pub(crate) homes: Vec<usize>,
    // They are empty, and have room for the places of each island.
    pub(crate) lists: Vec<Vec<Seated<S, D, L, H, B>>>,
    pub(crate) spaces: Vec<Space<S, D, L, H, B>>,
    // It is empty, and has room for all islands.
    pub(crate) islands: Vec<(Parts<S, D, L, H, B>, IslandRoom<S, D, L, H, B>)>,
}

// Dropped by a call, wherever it is dropped: else each of its lists is let go on each way out of a function that holds it.
impl<S: Source, D: Drain, L: Logic, H: Handlers, B: PlugBook> Drop for Split<S, D, L, H, B> {
    fn drop(self) {
        let Split {
            homes: _,
            lists: _,
            spaces: _,
            islands: _,
        } = self;
    }
}

/// The sum of two numbers of places; one that is out of range is want of memory.
fn sum(a: usize, b: usize) -> Result<usize, NoMemory>
    ensures { IfOk result (λ n. n ≡ a + b) }
{
    match a.checked_add(b) {
        Some(n) => Ok(n),
        None => Err(AllocError),
    }
}

/// The islands of these nodes, of which each has one of so many homes, where these wires join them, and these of them have a lane.
pub fn split_of<S: Source, D: Drain, L: Logic, H: Handlers, B: PlugBook>(
    alloc: Global,
    nodes: Vec<Place>,
    wires: &[WireLink],
    homes: Vec<usize>,
    count: usize,
    lanes: &[LanePlan],
) -> Result<Split<S, D, L, H, B>, NoMemory>
    requires each { vec_len homes ≡ vec_len nodes }
    requires below { All (λ h. h < count) homes.items }
    requires ports { All (λ w. (w.output < 2 ^ 8) × (w.input < 2 ^ 8)) wires.now }
    requires ends { AreInRange (vec_len nodes) wires.now }
    requires lanes { lanes.now ≡ lanes_from homes.items 0 (wires_of_links wires.now) }
    ensures { IfOk result (IsSplit homes.items count (wires_of_links wires.now) nodes.items) }
{
    let n = nodes.len();
    let homes = whole_homes(homes, lanes)?;
    let places = whole_places(nodes, lanes)?;
    let links = all_links(alloc, wires, n, sum(n, lanes.len())?)?;
    let ranks = ranks_of(alloc, &homes, count)?;
    let homes_of_links = link_homes(alloc, &links, &homes)?;
    let local = local_links(alloc, &links, &ranks.ranks)?;
    let link_ranks = ranks_of(alloc, &homes_of_links, count)?;
    let link_lists = scatter(&homes_of_links, local, rooms(alloc, &link_ranks.counts)?);
    let place_lists = scatter(&homes, places, rooms(alloc, &ranks.counts)?);
    let spaces = spaces_of(alloc, &place_lists, link_lists)?;
    let lists = rooms(alloc, &ranks.counts)?;
    let islands = Vec::with_capacity(alloc, count)?;
    Ok(Split {
        homes,
        lists,
        spaces,
        islands,
    })
}

/// The parts and the rooms of islands, in order, into an empty list that has room for them.
fn join_lists<S: Source, D: Drain, L: Logic, H: Handlers, B: PlugBook>(
    lists: Vec<Vec<Seated<S, D, L, H, B>>>,
    spaces: Vec<Space<S, D, L, H, B>>,
    islands: Vec<(Parts<S, D, L, H, B>, IslandRoom<S, D, L, H, B>)>,
) -> Vec<(Parts<S, D, L, H, B>, IslandRoom<S, D, L, H, B>)>
    requires many { vec_len lists ≡ vec_len spaces }
    requires empty { islands.items ≡ [] }
    requires room { vec_len lists ≤ vec_capacity islands }
    ensures { AreJoined lists.items spaces.items result.items }
{
    let mut rest = spaces.into_iter();
    let mut islands = islands;
    for nodes in lists {
        islands.push_reserved(take_next(&mut rest).island(nodes));
    }
    islands
}

impl<S: Source, D: Drain, L: Logic, H: Handlers, B: PlugBook> Split<S, D, L, H, B> {
    /// The parts and the room of each island, in order, once all places are there, those of nodes first, then those where lanes come
    /// in, then those where they go out. It takes no memory.
    pub fn join(
        self,
        seats: Vec<Seated<S, D, L, H, B>>,
    ) -> Vec<(Parts<S, D, L, H, B>, IslandRoom<S, D, L, H, B>)>
        requires ready { IsReady (vec_len self.lists) self }
        requires each { vec_len seats ≡ vec_len self.homes }
        ensures { AreIslands self seats.items result.items }
    {
        let Split {
            homes,
            lists,
            spaces,
            islands,
        } = self;
        join_lists(scatter(&homes, seats, lists), spaces, islands)
    }
}
