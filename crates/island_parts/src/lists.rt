// What islands leave, each kind in a list by island.
ghost use Rattle.std.specs.Prelude.{◌≡◌, ◌<◌, ◌≤◌, ◌+◌, ◌++◌, ◌∷◌, [], ℕ, IfOk, map, take, length, slice_index, vec_len, vec_capacity};
ghost use Rattle.scatter.specs.Shares.{items_at};
ghost use Rattle.island_parts.specs.Room.{AreEmptyLists, AreSorted, HasRoomForMore, IsEndPut};

use elem_core::why::NoMemory;
use interpreter::island::{IslandEnd, SinkStand, least};
use stage_switch::seat::SwitchSeat;
use std::alloc::Global;
use stream_io::outside::{Drain, Source};
use stream_model::outcome::{PickList, WireCount};

/// Of each kind the list of each island.
#[derive(Drop)]
pub struct EndLists<S: Source, D: Drain> {
    pub sinks: Vec<Vec<SinkStand>>,
    pub wires: Vec<Vec<(u32, WireCount)>>,
    pub picks: Vec<Vec<PickList>>,
    /// Of all islands together.
    pub misfit: Option<(u32, u32)>,
    pub seats: Vec<Vec<(u32, SwitchSeat)>>,
    pub readers: Vec<Vec<S>>,
    pub writers: Vec<Vec<D>>,
}

impl<S: Source, D: Drain> EndLists<S, D> {
    // No lists, with room for those of so many islands.
    pub(crate) fn of(alloc: Global, count: usize) -> Result<EndLists<S, D>, NoMemory>
        ensures { IfOk result (λ lists. AreEmptyLists count lists) }
    {
        Ok(EndLists {
            sinks: Vec::with_capacity(alloc, count)?,
            wires: Vec::with_capacity(alloc, count)?,
            picks: Vec::with_capacity(alloc, count)?,
            misfit: None,
            seats: Vec::with_capacity(alloc, count)?,
            readers: Vec::with_capacity(alloc, count)?,
            writers: Vec::with_capacity(alloc, count)?,
        })
    }

    // The lists of one more island.
    fn put(&mut self, end: IslandEnd<S, D>)
        requires { HasRoomForMore 1 self.old }
        ensures { IsEndPut self.old end self.new }
    {
        let IslandEnd {
            sinks,
            wires,
            picks,
            misfit,
            seats,
            readers,
            writers,
        } = end;
        self.sinks.push_reserved(sinks);
        self.wires.push_reserved(wires);
        self.picks.push_reserved(picks);
        self.misfit = least(self.misfit, misfit);
        self.seats.push_reserved(seats);
        self.readers.push_reserved(readers);
        self.writers.push_reserved(writers);
    }
}

// The lists of all islands, in their order. It takes no memory.
pub(crate) fn sort<S: Source, D: Drain>(
    ends: Vec<IslandEnd<S, D>>,
    lists: EndLists<S, D>,
) -> EndLists<S, D>
    requires { AreEmptyLists (vec_len ends) lists }
    ensures { AreSorted ends.items result }
{
    let mut lists = lists;
    for end in ends {
        lists.put(end);
    }
    lists
}

// Leaves of each list so many items, from its front on.
pub(crate) fn cut<T: Drop>(lists: &mut Vec<Vec<T>>, counts: &[usize])
    requires { length counts.now ≡ vec_len lists.old }
    ensures length { vec_len lists.new ≡ vec_len lists.old }
    ensures items { (k : ℕ) → k < vec_len lists.new → items_at lists.new.items k ≡ take (slice_index counts.now k) (items_at lists.old.items k) }
{
    for k in 0..counts.len() {
        lists[k].truncate(counts[k]);
    }
}
