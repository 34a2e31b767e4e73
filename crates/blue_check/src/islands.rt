// The islands and the lanes of a checked blueprint.
ghost use Rattle.std.specs.Prelude.{IfOk, length};
ghost use Rattle.blue_names.specs.Links.{AreInRange, wires_of_links};
ghost use Rattle.blue_check.specs.Checked.{checked_blueprint};
ghost use Rattle.blue_check.specs.Wires.{blueprint_wires};
ghost use Rattle.blue_check.specs.Plan.{IsPlan};

use crate::checked::Checked;
use crate::fill::{empty_islands, put_nodes, put_wires};
use crate::homes::homes_of;
use crate::island_labels::{fused_links, labels_of};
use crate::lanes::lanes_of;
use crate::plan::Plan;
use blue_names::links::{NumberedWire, links_of};
use elem_core::why::NoMemory;
use std::alloc::Global;

/// The plan of so many nodes that these wires join.
fn plan_of(alloc: Global, count: usize, links: &[NumberedWire]) -> Result<Plan, NoMemory>
    requires { AreInRange count links.now }
    ensures { IfOk result (IsPlan count (wires_of_links links.now)) }
{
    let labels = labels_of(alloc, count, &fused_links(alloc, links)?)?;
    let found = homes_of(alloc, &labels)?;
    let mut islands = empty_islands(alloc, found.firsts.len())?;
    put_nodes(&mut islands, &found.homes)?;
    put_wires(&mut islands, links, &found.homes)?;
    let lanes = lanes_of(alloc, links, &found.homes)?;
    Ok(Plan { islands, lanes })
}

// Choice: docs/DECISIONS.md#islands-without-condition
/// The islands of a checked blueprint, numbered by their least node, and its lanes. It takes time n log n for n nodes and wires.
/// A number that is out of 32 bits is want of memory.
pub fn islands(alloc: Global, c: &Checked) -> Result<Plan, NoMemory>
    ensures { let b = checked_blueprint c.now in IfOk result (IsPlan (length b.nodes.items) (blueprint_wires b)) }
{
    let blueprint = c.blueprint();
    let links = links_of(alloc, &blueprint.nodes, &blueprint.wires)?;
    plan_of(alloc, blueprint.nodes.len(), &links)
}
