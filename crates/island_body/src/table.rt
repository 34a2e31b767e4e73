// Which end of a lane stands at each connection of an island.
ghost use Rattle.std.specs.Prelude.{◌≡◌, ◌≤◌, IfOk, length, replicate};
ghost use Rattle.island_body.specs.Ends.{in_wires, out_wires, IsTable};
ghost use Rattle.island_body.specs.Keeping.{BodyBegins};
ghost use Rattle.island_body.specs.declared.way.Way.TheVariants as way;

use crate::input::IslandInput;
use crate::output::OutputBoundary;
use crate::way::Way;
use elem_core::why::NoMemory;
use graph_stage::handlers::Handlers;
use interpreter::island::Island;
use plug_logic::book::PlugBook;
use plug_logic::logic::Logic;
use std::alloc::{AllocError, Global};
use stream_io::outside::{Drain, Source};

// Choice: docs/DECISIONS.md#table-of-ends
/// A table for so many connections, at none of which an end of a lane stands. It takes the memory of a body.
pub fn blank_ways(alloc: Global, connections: usize) -> Result<Vec<Way>, NoMemory>
    ensures { IfOk result (λ ways. ways.items ≡ replicate connections way.Inner) }
{
    let mut ways = Vec::new(alloc);
    ways.resize(connections, Way::Inner)?;
    Ok(ways)
}

// Writes into a blank table where the ends stand.
pub(crate) fn mark<S: Source, D: Drain, L: Logic, H: Handlers, B: PlugBook>(
    ways: &mut Vec<Way>,
    island: &Island<S, D, L, H, B>,
    ins: &[IslandInput],
    outs: &[OutputBoundary],
)
    requires begins { BodyBegins island.now ins.now outs.now }
    requires blank { ways.old.items ≡ replicate (length island.now.net.wires) way.Inner }
    requires few { (length ins.now ≤ 4294967295) × (length outs.now ≤ 4294967295) }
    ensures { IsTable island.now (in_wires ins.now) (out_wires outs.now) ways.new.items }
{
    for k in 0..ins.len() {
        let place = island.way_in(ins[k].wire, k);
        ways[place as usize] = Way::In(k as u32);
    }
    for j in 0..outs.len() {
        let place = island.way_out(outs[j].wire, j);
        ways[place as usize] = Way::Out(j as u32);
    }
}
