// Whether a walk is closed when directions are ignored.
ghost use Rattle.std.specs.Prelude.{◌≡◌, IfOk, true, false};
ghost use Rattle.stream_model.specs.Shape.{IsPolytree};
ghost use Rattle.blue_names.specs.Links.{AreInRange, wires_of_links};
ghost use Rattle.blue_check.specs.Forest.{wiring};

use crate::classes::{own_labels, own_members, unite};
use crate::ranks::rank_of;
use blue_names::links::NumberedWire;
use elem_core::why::NoMemory;
use std::alloc::Global;

/// Whether no closed walk uses each wire at most once, when directions are ignored.
pub fn is_polytree(alloc: Global, count: usize, links: &[NumberedWire]) -> Result<bool, NoMemory>
    requires { AreInRange count links.now }
    ensures tree { IfOk result (λ b. b ≡ true → IsPolytree (wiring (wires_of_links links.now))) }
    ensures no_tree { IfOk result (λ b. b ≡ false → IsPolytree (wiring (wires_of_links links.now)) → ⊥) }
{
    let mut labels = own_labels(alloc, count)?;
    let mut members = own_members(alloc, count)?;
    for link in links {
        let from = rank_of(&labels, link.from);
        let to = rank_of(&labels, link.to);
        if from == to {
            return Ok(false);
        }
        unite(alloc, &mut labels, &mut members, from, to)?;
    }
    Ok(true)
}
