// The logic of a custom stage, before its start.
ghost use Rattle.std.specs.Prelude.{◌≡◌, ◌≤◌, ◌<◌, ◌+◌, false, length, replicate, IfOk};
ghost use Rattle.graph_stage.specs.Making.{unpulled_view, quiet_in, quiet_out, IsNewLogic};

use crate::asks::Asks;
use crate::custom::Custom;
use crate::handlers::Handlers;
use crate::logic::CustomLogic;
use crate::sight::{InSight, OutSight, Sight};
use elem_core::trace::Trace;
use elem_core::why::NoMemory;
use std::alloc::Global;
use stream_model::head::CustomHead;

// So many inputs that nobody has asked.
fn quiet_ins(alloc: Global, many: usize) -> Result<Vec<InSight>, NoMemory>
    ensures { IfOk result (λ v. v.items ≡ replicate many quiet_in) }
{
    let mut ins = Vec::new(alloc);
    for _i in 0..many {
        ins.push(InSight {
            asked: false,
            closed: false,
        })?;
    }
    Ok(ins)
}

// So many outputs that nobody has asked.
fn quiet_outs(alloc: Global, many: usize) -> Result<Vec<OutSight>, NoMemory>
    ensures { IfOk result (λ v. v.items ≡ replicate many quiet_out) }
{
    let mut outs = Vec::new(alloc);
    for _j in 0..many {
        outs.push(OutSight {
            asked: false,
            closed: false,
        })?;
    }
    Ok(outs)
}

impl<H: Handlers> CustomLogic<H> {
    /// The logic of node `stage`, which is this custom stage. It has at most eight inputs and at most eight outputs, and at least one
    /// port.
    #[tactic(auto, using(crate::proofs::Making::made_fresh))]
    pub fn new(alloc: Global, stage: u32, custom: Custom<H>) -> Result<CustomLogic<H>, NoMemory>
        requires inputs { length custom.head.inputs.items ≤ 8 }
        requires outputs { length custom.head.outputs.items ≤ 8 }
        requires ports { 0 < length custom.head.inputs.items + length custom.head.outputs.items }
        ensures fresh { IfOk result (λ x. IsNewLogic x (unpulled_view (length custom.head.inputs.items) (length custom.head.outputs.items))) }
        ensures node { IfOk result (λ x. x.node ≡ stage) }
        ensures name { IfOk result (λ x. x.name ≡ custom.head.name) }
        ensures types { IfOk result (λ x. x.types.items ≡ custom.head.outputs.items) }
        ensures handlers { IfOk result (λ x. x.handlers ≡ custom.stage) }
    {
        let Custom {
            head,
            stage: handlers,
        } = custom;
        let CustomHead {
            name,
            inputs,
            outputs,
        } = head;
        let ins = quiet_ins(alloc, inputs.len())?;
        let outs = quiet_outs(alloc, outputs.len())?;
        Ok(CustomLogic {
            node: stage,
            name,
            types: outputs,
            handlers,
            sight: Sight { ins, outs },
            taken: 0,
            took: Trace::empty(),
            asks: Asks::new(alloc),
            asked: Trace::empty(),
            done: Trace::empty(),
        })
    }
}
