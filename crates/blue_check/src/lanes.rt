// The lanes of a blueprint.
ghost use Rattle.std.specs.Prelude.{◌≡◌, ℕ, IfOk, OnOk, [], ◌∷◌, ◌++◌};
ghost use Rattle.blue_names.specs.Links.{wire_of_link, wires_of_links};
ghost use Rattle.blue_check.specs.Plan.{lanes_from, lane_plan_of};

use crate::plan::LanePlan;
use crate::ranks::rank_of;
use blue_names::links::NumberedWire;
use elem_core::count::numbered;
use elem_core::why::NoMemory;
use std::alloc::Global;

/// The number of a hub in a plan.
fn hub_number(hub: Option<usize>) -> Result<Option<u32>, NoMemory>
    ensures { IfOk result (λ number. number ≡ hub) }
{
    match hub {
        None => Ok(None),
        Some(node) => Ok(Some(numbered(node)?)),
    }
}

/// Puts a wire last, where it has a lane.
fn put_lane(
    lanes: &mut Vec<LanePlan>,
    homes: &[usize],
    link: &NumberedWire,
    wire: usize,
) -> Result<(), NoMemory>
    ensures { OnOk result (lanes.new.items ≡ lanes.old.items ++ lane_plan_of homes.now wire (wire_of_link link.now)) }
{
    match link.lane {
        None => Ok(()),
        Some(size) => {
            lanes.push(LanePlan {
                wire: numbered(wire)?,
                size,
                keep: link.keep,
                from: numbered(rank_of(homes, link.from))?,
                to: numbered(rank_of(homes, link.to))?,
                hub: hub_number(link.hub)?,
            })?;
            Ok(())
        }
    }
}

// Choice: docs/DECISIONS.md#lanes-in-the-plan
/// The wires that have a lane.
pub fn lanes_of(
    alloc: Global,
    links: &[NumberedWire],
    homes: &[usize],
) -> Result<Vec<LanePlan>, NoMemory>
    ensures { IfOk result (λ lanes. lanes.items ≡ lanes_from homes.now 0 (wires_of_links links.now)) }
{
    let mut lanes = Vec::new(alloc);
    for (wire, link) in links.iter().enumerate() {
        put_lane(&mut lanes, homes, link, wire)?;
    }
    Ok(lanes)
}
