// How the outputs of a stage with several stand, and what is done at each that is open.
ghost use Rattle.std.specs.Prelude.{◌≡◌, ◌≤◌, ◌+◌, ◌++◌, length, IfOk, replicate, vec_items};
ghost use Rattle.stream_model.specs.declared.kind.TheConstants.{MAX_FAN};
ghost use Rattle.port_core.specs.declared.act.Act.TheVariants as act;
ghost use Rattle.stage_core.specs.declared.outs.OutputState.TheVariants.{Quiet};
ghost use Rattle.stage_core.specs.OpenOuts.{at_open};

use elem_core::why::{Cause, NoMemory};
use port_core::act::Act;
use port_core::acts::Acts;
use std::alloc::Global;

/// How an output stands.
#[derive(Clone, Copy, PartialEq, Eq)]
pub enum OutputState {
    /// Nobody asks.
    Quiet,
    /// The other end asked.
    Asks,
    /// It was cancelled.
    Gone,
}

/// So many outputs, of which nobody asks.
pub fn quiet_outs(alloc: Global, outputs: u8) -> Result<Vec<OutputState>, NoMemory>
    ensures { IfOk result (λ v. vec_items v ≡ replicate outputs Quiet) }
{
    let mut outs = Vec::with_capacity(alloc, outputs as usize)?;
    for _ in 0..outputs {
        outs.push(OutputState::Quiet)?;
    }
    Ok(outs)
}

/// Each open output completes.
pub fn complete_open(outs: &[OutputState], acts: &mut Acts)
    requires few { length outs.now ≤ MAX_FAN }
    requires room { length acts.old.items + length outs.now ≤ acts.old.room }
    ensures acts { acts.new ≡ record acts.old { items = acts.old.items ++ at_open (λ j. act.Complete j) 0 outs.now } }
{
    for i in 0..outs.len() {
        if outs[i] != OutputState::Gone {
            acts.add(Act::Complete(i as u8));
        }
    }
}

/// Each open output fails by this cause.
pub fn fail_open(outs: &[OutputState], cause: Cause, acts: &mut Acts)
    requires few { length outs.now ≤ MAX_FAN }
    requires room { length acts.old.items + length outs.now ≤ acts.old.room }
    ensures acts { acts.new ≡ record acts.old { items = acts.old.items ++ at_open (λ j. act.FailOut j cause) 0 outs.now } }
{
    for i in 0..outs.len() {
        if outs[i] != OutputState::Gone {
            acts.add(Act::FailOut(i as u8, cause));
        }
    }
}
