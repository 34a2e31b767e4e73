// The islands of a blueprint are started.
ghost use Rattle.std.specs.Prelude.{◌≡◌, ◌≤◌, ◌+◌, [], length, IfOk, IfErr, vec_len, vec_capacity};
ghost use Rattle.std.specs.Vec.Iter.{into_iter_items, into_iter_len};
ghost use Rattle.island_parts.specs.Starts.{CanStart, CanAllStart, HasStarted, AllStarted, GivesBack, AllGiveBack, IslandLeaves, Appends, TakenApart};

use graph_stage::handlers::Handlers;
use interpreter::island::{Island, IslandEnd, StartEnd, hand_back};
use interpreter::parts::Parts;
use interpreter::room::IslandRoom;
use plug_logic::book::PlugBook;
use plug_logic::logic::Logic;
use std::alloc::Global;
use std::vec::IntoIter;
use stream_io::outside::{Drain, Source};

/// Starts the islands of these parts, in order, each in the room that was taken for it. Where memory was wanting all are taken apart,
/// those that had started and those that had not: what each leaves stands in order, with its handles as they were handed in. `started`
/// and `ends` are empty and have room for all islands, so only a node may want memory.
pub fn start_all<S: Source, D: Drain, L: Logic, H: Handlers, B: PlugBook>(
    alloc: Global,
    islands: Vec<(Parts<S, D, L, H, B>, IslandRoom<S, D, L, H, B>)>,
    started: Vec<Island<S, D, L, H, B>>,
    ends: Vec<IslandEnd<S, D>>,
) -> Result<Vec<Island<S, D, L, H, B>>, Vec<IslandEnd<S, D>>>
    requires can { CanAllStart islands.items }
    requires none_started { started.items ≡ [] }
    requires room_to_start { vec_len islands ≤ vec_capacity started }
    requires none_ended { ends.items ≡ [] }
    requires room_to_end { vec_len islands ≤ vec_capacity ends }
    ensures started { IfOk result (λ all. AllStarted S.state D.state B.lists islands.items all.items) }
    ensures ended { IfErr result (λ all. AllGiveBack S.state D.state islands.items all.items) }
{
    let mut started = started;
    let mut rest = islands.into_iter();
    while let Some(next) = rest.next() {
        match start_one(alloc, next) {
            Ok(island) => started.push_reserved(island),
            Err(end) => return Err(take_apart(alloc, started, end, rest, ends)),
        }
    }
    Ok(started)
}

// One island, which gives its handles back where it did not start.
fn start_one<S: Source, D: Drain, L: Logic, H: Handlers, B: PlugBook>(
    alloc: Global,
    island: (Parts<S, D, L, H, B>, IslandRoom<S, D, L, H, B>),
) -> Result<Island<S, D, L, H, B>, IslandEnd<S, D>>
    requires { CanStart island }
    ensures started { IfOk result (HasStarted S.state D.state B.lists island.0) }
    ensures ended { IfErr result (GivesBack S.state D.state island) }
{
    let (parts, room) = island;
    match Island::start(alloc, parts, room) {
        Ok(island) => Ok(island),
        Err(StartEnd::NoMemory(end)) => Err(end),
    }
}

// What all leave: the islands that had started, the one that did not, and those behind it.
fn take_apart<S: Source, D: Drain, L: Logic, H: Handlers, B: PlugBook>(
    alloc: Global,
    started: Vec<Island<S, D, L, H, B>>,
    end: IslandEnd<S, D>,
    rest: IntoIter<(Parts<S, D, L, H, B>, IslandRoom<S, D, L, H, B>), Global>,
    ends: Vec<IslandEnd<S, D>>,
) -> Vec<IslandEnd<S, D>>
    requires can { CanAllStart (into_iter_items rest) }
    requires len { into_iter_len rest ≡ length (into_iter_items rest) }
    requires none_ended { ends.items ≡ [] }
    requires room { vec_len started + 1 + into_iter_len rest ≤ vec_capacity ends }
    ensures { TakenApart S.state D.state started.items end (into_iter_items rest) result.items }
{
    let mut ends = ends;
    finish_all(started, &mut ends);
    ends.push_reserved(end);
    hand_all_back(alloc, rest, &mut ends);
    ends
}

// What each of these islands leaves goes behind what others left.
fn finish_all<S: Source, D: Drain, L: Logic, H: Handlers, B: PlugBook>(
    islands: Vec<Island<S, D, L, H, B>>,
    ends: &mut Vec<IslandEnd<S, D>>,
)
    requires room { vec_len ends.old + vec_len islands ≤ vec_capacity ends.old }
    ensures adds { Appends IslandLeaves islands.items ends.old.items ends.new.items }
    ensures len { vec_len ends.new ≡ vec_len ends.old + vec_len islands }
    ensures room { vec_capacity ends.new ≡ vec_capacity ends.old }
{
    for island in islands {
        ends.push_reserved(finish(island));
    }
}

// What an island leaves.
fn finish<S: Source, D: Drain, L: Logic, H: Handlers, B: PlugBook>(
    island: Island<S, D, L, H, B>,
) -> IslandEnd<S, D>
    ensures { IslandLeaves island result }
{
    match island.finish() {
        Ok(end) => end,
        Err(_) => unreachable!(),
    }
}

// The same of islands that are not to be started.
fn hand_all_back<S: Source, D: Drain, L: Logic, H: Handlers, B: PlugBook>(
    alloc: Global,
    islands: IntoIter<(Parts<S, D, L, H, B>, IslandRoom<S, D, L, H, B>), Global>,
    ends: &mut Vec<IslandEnd<S, D>>,
)
    requires can { CanAllStart (into_iter_items islands) }
    requires len { into_iter_len islands ≡ length (into_iter_items islands) }
    requires room { vec_len ends.old + into_iter_len islands ≤ vec_capacity ends.old }
    ensures { Appends (GivesBack S.state D.state) (into_iter_items islands) ends.old.items ends.new.items }
{
    let mut rest = islands;
    while let Some(next) = rest.next() {
        ends.push_reserved(hand_one_back(alloc, next));
    }
}

// One of them.
fn hand_one_back<S: Source, D: Drain, L: Logic, H: Handlers, B: PlugBook>(
    alloc: Global,
    island: (Parts<S, D, L, H, B>, IslandRoom<S, D, L, H, B>),
) -> IslandEnd<S, D>
    requires { CanStart island }
    ensures { GivesBack S.state D.state island result }
{
    let (parts, room) = island;
    hand_back(alloc, parts, room)
}
