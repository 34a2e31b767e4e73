// The bodies of islands are made, and taken apart.
ghost use Rattle.std.specs.Prelude.{◌≡◌, ◌≤◌, ◌<◌, ◌+◌, ◌∷◌, [], length, vec_len, vec_capacity};
ghost use Rattle.std.specs.Vec.Iter.{into_iter_items, into_iter_len};
ghost use Rattle.island_plans.specs.Making.{CanAllBegin, AreAllBodies, AreEndsOfBodies};
ghost use Rattle.island_plans.specs.Peers.{HavePeers};

use graph_stage::handlers::Handlers;
use interpreter::island::{Island, IslandEnd};
use island_body::body::Body;
use island_body::input::IslandInput;
use island_body::output::OutputBoundary;
use island_body::peers::Peers;
use island_body::way::Way;
use plug_logic::book::PlugBook;
use plug_logic::logic::Logic;
use std::alloc::Global;
use std::vec::IntoIter;
use stream_io::outside::{Drain, Source};

/// Makes the bodies of these islands, in their order, each with the ends of its lanes, with its blank table, and with the islands at the
/// other ends of its lanes. Each end has then done what it has to do at the start. `bodies` is empty and has room for all: it takes no memory, and no unit.
pub fn make_all<S: Source, D: Drain, L: Logic, H: Handlers, B: PlugBook>(
    islands: Vec<Island<S, D, L, H, B>>,
    ins: Vec<Vec<IslandInput>>,
    outs: Vec<Vec<OutputBoundary>>,
    tables: Vec<Vec<Way>>,
    peers: Vec<Peers>,
    bodies: Vec<Body<S, D, L, H, B>>,
) -> Vec<Body<S, D, L, H, B>>
    requires begin { CanAllBegin islands.items ins.items outs.items tables.items peers.items }
    requires none_made { bodies.items ≡ [] }
    requires room { vec_len islands ≤ vec_capacity bodies }
    ensures all { AreAllBodies S.state D.state B.lists islands.items ins.items outs.items result.items }
    ensures peers { HavePeers peers.items result.items }
{
    let mut bodies = bodies;
    let mut takers = ins.into_iter();
    let mut senders = outs.into_iter();
    let mut blanks = tables.into_iter();
    let mut others = peers.into_iter();
    for island in islands {
        let table = first(&mut blanks);
        let takes = first(&mut takers);
        let sends = first(&mut senders);
        let peers = first(&mut others);
        bodies.push_reserved(Body::new(island, table, takes, sends, peers));
    }
    bodies
}

// The first of some, where there is one.
fn first<T>(rest: &mut IntoIter<T, Global>) -> T
    requires len { into_iter_len rest.old ≡ length (into_iter_items rest.old) }
    requires some { 0 < into_iter_len rest.old }
    ensures items { into_iter_items rest.old ≡ result ∷ into_iter_items rest.new }
    ensures len { into_iter_len rest.old ≡ into_iter_len rest.new + 1 }
{
    match rest.next() {
        Some(item) => item,
        None => unreachable!(),
    }
}

/// Takes these bodies apart: what the island of each leaves, in their order. `ends` is empty and has room for all: it takes no memory,
/// also after a turn that answered `NoMemory`.
pub fn finish_all<S: Source, D: Drain, L: Logic, H: Handlers, B: PlugBook>(
    bodies: Vec<Body<S, D, L, H, B>>,
    ends: Vec<IslandEnd<S, D>>,
) -> Vec<IslandEnd<S, D>>
    requires none_ended { ends.items ≡ [] }
    requires room { vec_len bodies ≤ vec_capacity ends }
    ensures { AreEndsOfBodies bodies.items result.items }
{
    let mut ends = ends;
    for body in bodies {
        ends.push_reserved(body.finish());
    }
    ends
}
