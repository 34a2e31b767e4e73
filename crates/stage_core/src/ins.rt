// How the inputs of a stage with several stand, and a cancel of each that is open.
ghost use Rattle.std.specs.Prelude.{◌≡◌, ◌≤◌, ◌+◌, ◌++◌, false, length, IfOk, replicate, vec_items};
ghost use Rattle.stream_model.specs.declared.kind.TheConstants.{MAX_FAN};
ghost use Rattle.stage_core.specs.Seats.{open_cancels};

use elem_core::why::NoMemory;
use port_core::act::Act;
use port_core::acts::Acts;
use std::alloc::Global;

/// So many inputs, of which none has ended.
pub fn open_inputs(alloc: Global, inputs: u32) -> Result<Vec<bool>, NoMemory>
    ensures { IfOk result (λ over. vec_items over ≡ replicate inputs false) }
{
    let mut over = Vec::with_capacity(alloc, inputs as usize)?;
    for _ in 0..inputs {
        over.push(false)?;
    }
    Ok(over)
}

/// Each input that has not ended is cancelled.
pub fn cancel_open(over: &[bool], acts: &mut Acts)
    requires few { length over.now ≤ MAX_FAN }
    requires room { length acts.old.items + length over.now ≤ acts.old.room }
    ensures { acts.new ≡ record acts.old { items = acts.old.items ++ open_cancels 0 over.now } }
{
    for i in 0..over.len() {
        if !over[i] {
            acts.add(Act::Cancel(i as u8));
        }
    }
}
