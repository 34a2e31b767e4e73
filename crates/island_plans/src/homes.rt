// The islands of nodes.
ghost use Rattle.std.specs.Prelude.{◌≡◌, IfOk, vec_len};
ghost use Rattle.blue_names.specs.Links.{AreInRange, wires_of_links};
ghost use Rattle.island_plans.specs.Homes.{AreNumberedHomes};

use blue_check::homes::{Homes, homes_of};
use blue_check::island_labels::{fused_links, labels_of};
use blue_names::links::NumberedWire;
use elem_core::why::NoMemory;
use std::alloc::Global;

/// The islands of so many nodes that these wires join, numbered by the least node of each.
pub fn homes_of_links(
    alloc: Global,
    nodes: usize,
    links: &[NumberedWire],
) -> Result<Homes, NoMemory>
    requires { AreInRange nodes links.now }
    ensures { IfOk result (λ h. AreNumberedHomes nodes (vec_len h.firsts) (wires_of_links links.now) h.homes.items) }
{
    let fused = fused_links(alloc, links)?;
    let labels = labels_of(alloc, nodes, &fused)?;
    let found = homes_of(alloc, &labels)?;
    Ok(found)
}

/// The same islands once more.
pub fn copy_of(alloc: Global, homes: &[usize]) -> Result<Vec<usize>, NoMemory>
    ensures { IfOk result (λ all. all.items ≡ homes.now) }
{
    let mut all = Vec::new(alloc);
    all.extend_from_slice(homes)?;
    Ok(all)
}
