ghost use Rattle.std.specs.Prelude.{◌≡◌, ◌≤◌, [], ◌∷◌, OnOk, IfOk, IsOk};
ghost use Rattle.elem_core.specs.declared.item.Item.TheVariants as item;
ghost use Rattle.port_core.specs.Call.{Obeys, Meets, starts, pulls, arrives, cancels};
ghost use Rattle.stage_core.specs.declared.phase.Phase.TheVariants.{New, Open};
ghost use Rattle.stage_state.specs.declared.machine.Part.TheVariants.{Keep};
ghost use Rattle.stream_model.specs.Linear.{scanning};
ghost use Rattle.elem_core.specs.Values.{fold_zero};
ghost use Rattle.step_work.specs.Keeping.{work_in};
ghost use Rattle.stage_state.specs.States.{Begins, IsMachine, new_keep, port_state, Turned};

use crate::buffer::BufferLogic;
use crate::keep::KeepLogic;
use elem_core::elem::Elem;
use elem_core::function::FoldOp;
use elem_core::why::{Cause, Decider, NoMemory};
use port_core::acts::Acts;
use std::alloc::Global;
use std::marker::Model;
use step_work::keeping::StateWork;
use stream_model::kind::{Kind, Policy};

/// The logic of a grouped, a fold, a reduce, a scan, or a buffer that holds its input back: what it gives follows from what it
/// takes, and it chooses nothing. Rule: Akka Streams 2.6 reference.
pub struct MachineLogic {
    part: Part,
}

// Dropped by a call, as what it keeps is.
impl Drop for MachineLogic {
    fn drop(self) {
        let MachineLogic { part: _ } = self;
    }
}

/// What such a stage is.
#[derive(Drop)]
pub enum Part {
    /// One that keeps a group or a value.
    Keep(KeepLogic),
    /// A buffer.
    Buffer(BufferLogic),
}

impl Model for MachineLogic {
    ghost use Rattle.std.specs.Coded.{codes};
    ghost use Rattle.elem_core.specs.TreeCode.{tree_coded};
    ghost use Rattle.stage_state.specs.States.{Logic};

    ghost Value = { Logic };

    ghost coded = { Prim.hlevel (codes, tree_coded) };

    ghost use Rattle.stage_state.specs.Parts.{logic_of};

    ghost view = { λ l. logic_of l.part };
}

impl MachineLogic {
    /// The logic of node `stage`. It takes the memory of a buffer, and of the first value of a fold or a scan.
    pub fn new(
        alloc: Global,
        stage: u32,
        kind: Kind,
        decider: Decider,
    ) -> Result<MachineLogic, NoMemory>
        requires { IsMachine kind }
        ensures { IfOk result (Begins stage kind decider) }
    {
        let part = match kind {
            Kind::Grouped(n) => keep(stage, decider, StateWork::Group(n, Vec::new(alloc))),
            Kind::Fold(op) => keep(stage, decider, StateWork::Fold(op, op.zero(alloc)?)),
            Kind::Reduce(op) => keep(stage, decider, StateWork::Reduce(op, None)),
            Kind::Scan(op) => scan(alloc, stage, decider, op)?,
            Kind::Buffer(n, Policy::Backpressure) => Part::Buffer(BufferLogic::new(
                alloc, stage, n,
            )?),
            _ => unreachable!(),
        };
        Ok(MachineLogic { part })
    }

    /// The run begins.
    pub fn start(&mut self, acts: &mut Acts) -> Result<(), NoMemory>
        requires new { self.old.phase ≡ New }
        requires meets { Meets starts (port_state self.old) }
        requires empty { acts.old.items ≡ [] }
        requires room { 4 ≤ acts.old.room }
        ensures answers { IsOk result }
        ensures ports { OnOk result (Obeys starts (port_state self.old) (port_state self.new) acts.new.items) }
        ensures gives { OnOk result (Turned starts self.old acts.new.items self.new) }
        ensures room { acts.new.room ≡ acts.old.room }
    {
        match &mut self.part {
            Part::Keep(logic) => logic.start(acts),
            Part::Buffer(logic) => logic.start(acts),
        }
    }

    /// An element came.
    pub fn on_push(
        &mut self,
        alloc: Global,
        port: u8,
        e: Elem,
        acts: &mut Acts,
    ) -> Result<(), NoMemory>
        requires open { self.old.phase ≡ Open }
        requires port { port ≡ 0 }
        requires meets { Meets (arrives 0 (item.Elem e)) (port_state self.old) }
        requires empty { acts.old.items ≡ [] }
        requires room { 4 ≤ acts.old.room }
        ensures ports { OnOk result (Obeys (arrives 0 (item.Elem e)) (port_state self.old) (port_state self.new) acts.new.items) }
        ensures gives { OnOk result (Turned (arrives 0 (item.Elem e)) self.old acts.new.items self.new) }
        ensures room { acts.new.room ≡ acts.old.room }
    {
        match &mut self.part {
            Part::Keep(logic) => logic.on_push(alloc, port, e, acts),
            Part::Buffer(logic) => logic.on_push(port, e, acts),
        }
    }

    /// The output was asked.
    pub fn on_pull(&mut self, port: u8, acts: &mut Acts) -> Result<(), NoMemory>
        requires open { self.old.phase ≡ Open }
        requires port { port ≡ 0 }
        requires meets { Meets (pulls 0) (port_state self.old) }
        requires empty { acts.old.items ≡ [] }
        requires room { 4 ≤ acts.old.room }
        ensures answers { IsOk result }
        ensures ports { OnOk result (Obeys (pulls 0) (port_state self.old) (port_state self.new) acts.new.items) }
        ensures gives { OnOk result (Turned (pulls 0) self.old acts.new.items self.new) }
        ensures room { acts.new.room ≡ acts.old.room }
    {
        match &mut self.part {
            Part::Keep(logic) => logic.on_pull(port, acts),
            Part::Buffer(logic) => logic.on_pull(port, acts),
        }
    }

    /// The input has ended.
    pub fn on_finish(&mut self, alloc: Global, port: u8, acts: &mut Acts) -> Result<(), NoMemory>
        requires open { self.old.phase ≡ Open }
        requires port { port ≡ 0 }
        requires meets { Meets (arrives 0 item.Ended) (port_state self.old) }
        requires empty { acts.old.items ≡ [] }
        requires room { 4 ≤ acts.old.room }
        ensures answers { IsOk result }
        ensures ports { OnOk result (Obeys (arrives 0 item.Ended) (port_state self.old) (port_state self.new) acts.new.items) }
        ensures gives { OnOk result (Turned (arrives 0 item.Ended) self.old acts.new.items self.new) }
        ensures room { acts.new.room ≡ acts.old.room }
    {
        match &mut self.part {
            Part::Keep(logic) => logic.on_finish(alloc, port, acts),
            Part::Buffer(logic) => logic.on_finish(port, acts),
        }
    }

    /// The input has failed.
    pub fn on_fail(&mut self, port: u8, cause: Cause, acts: &mut Acts) -> Result<(), NoMemory>
        requires open { self.old.phase ≡ Open }
        requires port { port ≡ 0 }
        requires meets { Meets (arrives 0 (item.Failed cause)) (port_state self.old) }
        requires empty { acts.old.items ≡ [] }
        requires room { 4 ≤ acts.old.room }
        ensures answers { IsOk result }
        ensures ports { OnOk result (Obeys (arrives 0 (item.Failed cause)) (port_state self.old) (port_state self.new) acts.new.items) }
        ensures gives { OnOk result (Turned (arrives 0 (item.Failed cause)) self.old acts.new.items self.new) }
        ensures room { acts.new.room ≡ acts.old.room }
    {
        match &mut self.part {
            Part::Keep(logic) => logic.on_fail(port, cause, acts),
            Part::Buffer(logic) => logic.on_fail(port, cause, acts),
        }
    }

    /// The output was cancelled.
    pub fn on_cancel(&mut self, port: u8, acts: &mut Acts) -> Result<(), NoMemory>
        requires open { self.old.phase ≡ Open }
        requires port { port ≡ 0 }
        requires meets { Meets (cancels 0) (port_state self.old) }
        requires empty { acts.old.items ≡ [] }
        requires room { 4 ≤ acts.old.room }
        ensures answers { IsOk result }
        ensures ports { OnOk result (Obeys (cancels 0) (port_state self.old) (port_state self.new) acts.new.items) }
        ensures gives { OnOk result (Turned (cancels 0) self.old acts.new.items self.new) }
        ensures room { acts.new.room ≡ acts.old.room }
    {
        match &mut self.part {
            Part::Keep(logic) => logic.on_cancel(port, acts),
            Part::Buffer(logic) => logic.on_cancel(port, acts),
        }
    }
}

// One that owes nothing before an element.
fn keep(stage: u32, decider: Decider, keeping: StateWork) -> Part
    ensures { result ≡ Keep (new_keep stage decider (work_in keeping) []) }
{
    Part::Keep(KeepLogic::new(stage, decider, keeping, None))
}

// A scan owes its zero.
fn scan(alloc: Global, stage: u32, decider: Decider, op: FoldOp) -> Result<Part, NoMemory>
    ensures { IfOk result (λ p. p ≡ Keep (new_keep stage decider (scanning op (fold_zero op)) (fold_zero op ∷ []))) }
{
    let first = Some(op.zero(alloc)?);
    let keeping = StateWork::Scan(op, op.zero(alloc)?);
    Ok(Part::Keep(KeepLogic::new(stage, decider, keeping, first)))
}
