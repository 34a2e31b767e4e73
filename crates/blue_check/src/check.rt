// The check of a blueprint.
ghost use Rattle.std.specs.Prelude.{◌≡◌, IfOk, IfErr, map};
ghost use Rattle.stream_model.specs.Known.{head_shape};
ghost use Rattle.blue_check.specs.Checked.{checked_blueprint};
ghost use Rattle.blue_check.specs.Ending.{IsCheckEnd};
ghost use Rattle.blue_check.specs.Fitness.{IsFit};

use crate::checked::Checked;
use crate::fault::CheckFault;
use crate::judge::{Judged, judge};
use crate::picks::needs_picks;
use elem_core::line::Line;
use std::alloc::Global;
use stream_model::blueprint::Blueprint;
use stream_model::head::{CustomHead, PlugHead};
use stream_model::known::Heads;

/// Why a check gives no checked blueprint.
#[derive(Drop)]
pub enum CheckEnd {
    /// The blueprint breaks a rule.
    Fault(CheckFault),
    /// Memory was refused, or a place is out of 32 bits.
    NoMemory,
}

/// Tests the rules on names, ports, plugs and custom stages, sizes, wires of hubs, types and closed walks, in that order. The first rule
/// that is broken decides, at its least place in the order of declaration. `plugs` and `customs` are the stages that the caller hands in,
/// and `taken` the files that it wants for itself.
pub fn check(
    alloc: Global,
    b: Blueprint,
    plugs: &[PlugHead],
    customs: &[CustomHead],
    taken: &[Line],
) -> Result<Checked, CheckEnd>
    ensures blueprint { IfOk result (λ c. checked_blueprint c ≡ b) }
    ensures fit { IfOk result (λ c. IsFit b (record { plugs = plugs.now; customs = map head_shape customs.now }) taken.now) }
    ensures unfit { IfErr result (IsCheckEnd b (record { plugs = plugs.now; customs = map head_shape customs.now }) taken.now) }
{
    match judge(alloc, &b, &Heads::of(plugs, customs), taken) {
        Ok(Judged::Fit(polytree)) => {
            let picks = needs_picks(&b.nodes);
            Ok(Checked::new(b, polytree, picks))
        }
        Ok(Judged::Unfit(fault)) => Err(CheckEnd::Fault(fault)),
        Err(_) => Err(CheckEnd::NoMemory),
    }
}
