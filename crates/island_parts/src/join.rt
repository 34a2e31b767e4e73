// The ends of islands are brought back into one.
ghost use Rattle.std.specs.Prelude.{◌≡◌, List, vec_len};
ghost use Rattle.island_parts.specs.Ends.{Whole, AreEndsOf, AreHomesOf, AreHandlesOf, IsWholeEnd};
ghost use Rattle.island_parts.specs.Room.{IsRoomForEnds};

use crate::lists::{cut, sort};
use crate::room::{EndHomes, EndRoom};
use graph_stage::handlers::Handlers;
use interpreter::island::IslandEnd;
use plug_logic::book::PlugBook;
use plug_logic::logic::Logic;
use scatter::shares::gather;
use stream_io::outside::{Drain, Source};

/// Brings the ends of all islands, in their order, back into one: each list is in order of the blueprint's nodes, and the counts
/// are those at the outputs of its wires, in their order. It takes no memory.
pub fn join_ends<S: Source, D: Drain, L: Logic, H: Handlers, B: PlugBook>(
    ends: Vec<IslandEnd<S, D>>,
    homes: &EndHomes,
    room: EndRoom<S, D>,
) -> IslandEnd<S, D>
    requires room { IsRoomForEnds homes.now (vec_len ends) room }
    requires ends { (w : Whole S D L H B) × (AreEndsOf w ends.items) × (AreHomesOf w homes.now) }
    ensures { (w : Whole S D L H B) → AreEndsOf w ends.items → AreHomesOf w homes.now → IsWholeEnd w result }
{
    let EndRoom { counts, lists, end } = room;
    let mut lists = sort(ends, lists);
    cut(&mut lists.wires, &counts);
    IslandEnd {
        sinks: gather(&homes.sinks, lists.sinks, end.sinks),
        wires: gather(&homes.wires, lists.wires, end.wires),
        picks: gather(&homes.picks, lists.picks, end.picks),
        misfit: lists.misfit,
        seats: gather(&homes.seats, lists.seats, end.seats),
        readers: gather(&homes.readers, lists.readers, end.readers),
        writers: gather(&homes.writers, lists.writers, end.writers),
    }
}

// Choice: docs/DECISIONS.md#only-handles-come-back
/// Brings the handles of all islands, whose ends stand in their order, back into one end: each list is in order of the blueprint's nodes,
/// and the end lists nothing else. It takes no memory.
pub fn join_handles<S: Source, D: Drain>(
    ends: Vec<IslandEnd<S, D>>,
    homes: &EndHomes,
    room: EndRoom<S, D>,
) -> IslandEnd<S, D>
    requires room { IsRoomForEnds homes.now (vec_len ends) room }
    requires ends { (readers : List S) × ((writers : List D) × AreHandlesOf homes.now readers writers ends.items) }
    ensures readers { (readers : List S) (writers : List D) → AreHandlesOf homes.now readers writers ends.items → result.readers.items ≡ readers }
    ensures writers { (readers : List S) (writers : List D) → AreHandlesOf homes.now readers writers ends.items → result.writers.items ≡ writers }
{
    let EndRoom {
        counts: _,
        lists,
        end,
    } = room;
    let lists = sort(ends, lists);
    let readers = gather(&homes.readers, lists.readers, end.readers);
    let writers = gather(&homes.writers, lists.writers, end.writers);
    IslandEnd {
        sinks: end.sinks,
        wires: end.wires,
        picks: end.picks,
        misfit: None,
        seats: end.seats,
        readers,
        writers,
    }
}
