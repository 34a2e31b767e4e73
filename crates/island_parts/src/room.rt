// What the ends of islands take of memory before they are brought back.
ghost use Rattle.std.specs.Prelude.{◌≡◌, ◌<◌, IfOk, All, vec_len};
ghost use Rattle.island_parts.specs.Room.{IsRoomForEnds, AreEmptyLists, IsEmptyEnd};

use crate::lists::EndLists;
use elem_core::why::NoMemory;
use interpreter::island::IslandEnd;
use scatter::ranks::ranks_of;
use std::alloc::Global;
use stream_io::outside::{Drain, Source};

/// Of all that is left of each kind the island that leaves it, in order of the blueprint's nodes, and of its wires.
pub struct EndHomes {
    /// Of each sink.
    pub sinks: Vec<usize>,
    /// Of each wire: the island of its output.
    pub wires: Vec<usize>,
    /// Of each stage whose kind chooses.
    pub picks: Vec<usize>,
    /// Of each valve and each trip.
    pub seats: Vec<usize>,
    /// Of each reader.
    pub readers: Vec<usize>,
    /// Of each sink that has a file.
    pub writers: Vec<usize>,
}

// Dropped by a call, wherever it is dropped: else each of its lists is let go on each way out of a function that holds it.
impl Drop for EndHomes {
    fn drop(self) {
        let EndHomes {
            sinks: _,
            wires: _,
            picks: _,
            seats: _,
            readers: _,
            writers: _,
        } = self;
    }
}

/// All that bringing back takes of memory.
#[derive(Drop)]
pub struct EndRoom<S: Source, D: Drain> {
    /// Of each island how many wires have their output there.
    pub counts: Vec<usize>,
    pub lists: EndLists<S, D>,
    pub end: IslandEnd<S, D>,
}

// An end with nothing left, which has room for what has these homes.
fn empty_end<S: Source, D: Drain>(
    alloc: Global,
    homes: &EndHomes,
) -> Result<IslandEnd<S, D>, NoMemory>
    ensures { IfOk result (λ end. IsEmptyEnd homes.now end) }
{
    Ok(IslandEnd {
        sinks: Vec::with_capacity(alloc, homes.sinks.len())?,
        wires: Vec::with_capacity(alloc, homes.wires.len())?,
        picks: Vec::with_capacity(alloc, homes.picks.len())?,
        misfit: None,
        seats: Vec::with_capacity(alloc, homes.seats.len())?,
        readers: Vec::with_capacity(alloc, homes.readers.len())?,
        writers: Vec::with_capacity(alloc, homes.writers.len())?,
    })
}

impl<S: Source, D: Drain> EndRoom<S, D> {
    /// The room for the ends of so many islands, which leave what has these homes.
    pub fn of(alloc: Global, homes: &EndHomes, count: usize) -> Result<EndRoom<S, D>, NoMemory>
        requires { All (λ h. h < count) homes.now.wires.items }
        ensures { IfOk result (IsRoomForEnds homes.now count) }
    {
        let counts = ranks_of(alloc, &homes.wires, count)?.counts;
        let lists = EndLists::of(alloc, count)?;
        let end = empty_end(alloc, homes)?;
        Ok(EndRoom { counts, lists, end })
    }
}
