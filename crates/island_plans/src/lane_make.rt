// The ends of lanes, in the order of lanes.
ghost use Rattle.std.specs.Prelude.{◌≡◌, ◌≤◌, IfOk};
ghost use Rattle.island_plans.specs.LaneEnds.{AreEnds, AreMade, CanAllHaveEnds};

use blue_check::plan::LanePlan;
use elem_core::why::NoMemory;
use island_body::input::IslandInput;
use island_body::output::OutputBoundary;
use lane_core::boundary::InputBoundary;
use lane_core::lane::lane;
use std::alloc::Global;

/// The ends of lanes, each list in the order of lanes.
#[derive(Drop)]
pub struct Made {
    /// Those that send.
    pub(crate) outs: Vec<OutputBoundary>,
    /// Those that take.
    pub(crate) ins: Vec<IslandInput>,
}

// The two ends of a lane.
fn make(alloc: Global, plan: &LanePlan) -> Result<(OutputBoundary, IslandInput), NoMemory>
    requires { (1 ≤ plan.now.size) × (plan.now.size ≤ 1024) }
    ensures { IfOk result (λ r. AreEnds plan.now r.0 r.1) }
{
    let (out, inp) = lane(alloc, plan.size)?;
    let boundary = InputBoundary::new(alloc, inp, plan.keep)?;
    Ok((
        OutputBoundary::new(plan.wire, out),
        IslandInput::new(plan.wire, boundary),
    ))
}

/// The two ends of each lane.
pub fn make_lanes(alloc: Global, lanes: &[LanePlan]) -> Result<Made, NoMemory>
    requires { CanAllHaveEnds lanes.now }
    ensures { IfOk result (λ made. AreMade lanes.now made.outs.items made.ins.items) }
{
    let mut outs = Vec::new(alloc);
    let mut ins = Vec::new(alloc);
    for plan in lanes {
        let (out, inp) = make(alloc, plan)?;
        outs.push(out)?;
        ins.push(inp)?;
    }
    Ok(Made { outs, ins })
}
