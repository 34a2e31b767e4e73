// Numbers of nodes that never fall along a wire.
ghost use Rattle.std.specs.Prelude.{◌≡◌, ℕ, ◌≤◌, List, slice_get, slice_index, Some, true};
ghost use Rattle.std.specs.Bool.{OnTrue};
ghost use Rattle.stream_model.specs.Graph.{Edge};
ghost use Rattle.blue_names.specs.Links.{wires_of_links};
ghost use Rattle.blue_check.specs.Ranks.{NeverFalls};

use blue_names::links::NumberedWire;
use std::alloc::Global;

/// The number of a node; 0 where it has none.
pub fn rank_of(ranks: &[usize], node: usize) -> usize
    ensures { result ≡ slice_index ranks.now node }
{
    match ranks.get(node) {
        Some(rank) => *rank,
        None => 0,
    }
}

/// Whether no wire leads from a node to one with a lower number.
fn never_falls(links: &[NumberedWire], ranks: &[usize]) -> bool
    ensures { OnTrue result (NeverFalls (wires_of_links links.now) ranks.now) }
{
    for link in links {
        if rank_of(ranks, link.from) > rank_of(ranks, link.to) {
            return false;
        }
    }
    true
}

/// These numbers, where they never fall along a wire; else none.
pub fn tested(alloc: Global, links: &[NumberedWire], ranks: Vec<usize>) -> Vec<usize>
    ensures { NeverFalls (wires_of_links links.now) result.items }
{
    if never_falls(links, &ranks) {
        ranks
    } else {
        Vec::new(alloc)
    }
}
