// How many lines each sink may put together.
ghost use Rattle.std.specs.Prelude.{◌≡◌, IfOk, slice_set};
ghost use Rattle.blue_names.specs.Links.{wires_of_links};
ghost use Rattle.materializer.specs.Seats.{gather_of};
ghost use Rattle.island_plans.specs.Rooms.{rooms_by};

use blue_names::links::NumberedWire;
use elem_core::why::NoMemory;
use std::alloc::Global;
use std::cmp::max;

// How many lines a sink may put together behind a wire: half of the places of its lane, but at least one; and one where it has none.
fn gather_of(wire: &NumberedWire) -> u32
    ensures { result ≡ gather_of wire.now.lane }
{
    match wire.lane {
        None => 1,
        Some(size) => max(1, size / 2),
    }
}

// Notes that of the node to which the wire leads.
fn put_room(rooms: &mut Vec<u32>, wire: &NumberedWire)
    ensures { rooms.new.items ≡ slice_set rooms.old.items wire.now.to (gather_of wire.now.lane) }
{
    if wire.to < rooms.len() {
        rooms[wire.to] = gather_of(wire);
    }
}

/// How many lines each of so many nodes may put together, by the wire that leads to it; of those that lead to one the last counts.
pub fn rooms_of(alloc: Global, nodes: usize, wires: &[NumberedWire]) -> Result<Vec<u32>, NoMemory>
    ensures { IfOk result (λ rooms. rooms.items ≡ rooms_by nodes (wires_of_links wires.now)) }
{
    let mut rooms = vec![in alloc; 1; nodes]?;
    for wire in wires {
        put_room(&mut rooms, wire);
    }
    Ok(rooms)
}
