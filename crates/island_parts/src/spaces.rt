// The links of islands, and the room that each takes.
ghost use Rattle.std.specs.Prelude.{◌≡◌, ◌<◌, ◌+◌, ◌^◌, ◌∷◌, ℕ, IfOk, length, vec_len};
ghost use Rattle.std.specs.Vec.Iter.{into_iter_items, into_iter_len};
ghost use Rattle.scatter.specs.Shares.{items_at};
ghost use Rattle.island_parts.specs.Split.{IsSpace, AreSpaces};

use elem_core::why::NoMemory;
use graph_stage::handlers::Handlers;
use interpreter::parts::{Link, Parts, Place, Seated};
use interpreter::room::IslandRoom;
use plug_logic::book::PlugBook;
use plug_logic::logic::Logic;
use std::alloc::Global;
use std::vec::IntoIter;
use stream_io::outside::{Drain, Source};

/// An island before its places are there.
pub struct Space<S: Source, D: Drain, L: Logic, H: Handlers, B: PlugBook> {
    pub(crate) links: Vec<Link>,
    pub(crate) room: IslandRoom<S, D, L, H, B>,
}

// Dropped by a call, wherever it is dropped: else each crate above proves the drop of each of its parts again.
impl<S: Source, D: Drain, L: Logic, H: Handlers, B: PlugBook> Drop for Space<S, D, L, H, B> {
    fn drop(self) {
        let Space { links: _, room: _ } = self;
    }
}

impl<S: Source, D: Drain, L: Logic, H: Handlers, B: PlugBook> Space<S, D, L, H, B> {
    /// The parts of an island at whose places these stand, and its room.
    pub(crate) fn island(
        self,
        nodes: Vec<Seated<S, D, L, H, B>>,
    ) -> (Parts<S, D, L, H, B>, IslandRoom<S, D, L, H, B>)
        ensures nodes { result.0.nodes.items ≡ nodes.items }
        ensures links { result.0.links.items ≡ self.links.items }
        ensures room { result.1 ≡ self.room }
    {
        let Space { links, room } = self;
        (Parts { nodes, links }, room)
    }
}

/// The space of an island of these places and links.
fn space_of<S: Source, D: Drain, L: Logic, H: Handlers, B: PlugBook>(
    alloc: Global,
    places: &[Place],
    links: Vec<Link>,
) -> Result<Space<S, D, L, H, B>, NoMemory>
    requires { length links.items < 2 ^ 32 }
    ensures { IfOk result (IsSpace places.now links.items) }
{
    let room = IslandRoom::of(alloc, places, &links)?;
    Ok(Space { links, room })
}

/// The spaces of all islands.
pub fn spaces_of<S: Source, D: Drain, L: Logic, H: Handlers, B: PlugBook>(
    alloc: Global,
    places: &[Vec<Place>],
    links: Vec<Vec<Link>>,
) -> Result<Vec<Space<S, D, L, H, B>>, NoMemory>
    requires many { length places.now ≡ vec_len links }
    requires few { (k : ℕ) → length (items_at links.items k) < 2 ^ 32 }
    ensures { IfOk result (λ spaces. AreSpaces places.now links.items spaces.items) }
{
    let mut spaces = Vec::with_capacity(alloc, links.len())?;
    let mut k = 0;
    for list in links {
        spaces.push(space_of(alloc, &places[k], list)?)?;
        k += 1;
    }
    Ok(spaces)
}

/// The next of some.
pub fn take_next<T: Drop>(rest: &mut IntoIter<T, Global>) -> T
    requires { 0 < into_iter_len rest.old }
    ensures items { into_iter_items rest.old ≡ result ∷ into_iter_items rest.new }
    ensures len { into_iter_len rest.old ≡ into_iter_len rest.new + 1 }
{
    match rest.next() {
        Some(next) => next,
        None => unreachable!(),
    }
}
