ghost use Rattle.std.specs.Prelude.{◌≡◌, ◌≤◌, [], OnOk, IfOk, IsOk, true};
ghost use Rattle.elem_core.specs.declared.item.Item.TheVariants as item;
ghost use Rattle.port_core.specs.Call.{Obeys, Meets, starts, pulls, arrives, cancels};
ghost use Rattle.stream_model.specs.declared.kind.TheConstants.{MAX_FAN};
ghost use Rattle.stage_out.specs.declared.machines.OutMachines.TheVariants.{Copies, Deals};
ghost use Rattle.stage_out.specs.CopyStates as copy;
ghost use Rattle.stage_out.specs.PartitionStates as part;
ghost use Rattle.stage_out.specs.Machines.{room_of, port_state, Turned, IsMachines, IsMade, Begins};

use crate::copy_logic::CopyLogic;
use crate::partition_logic::PartitionLogic;
use elem_core::elem::Elem;
use elem_core::function::MapFn;
use elem_core::why::{Cause, Decider, NoMemory};
use port_core::acts::Acts;
use std::alloc::Global;
use stream_model::kind::Kind;

// Choice: docs/DECISIONS.md#machine-for-each-output
/// The logic of a node with several outputs, each of which is a machine over the input: what it gets hangs on what came alone.
/// A call that appends actions wants room for two of them for each port, of which the node has its outputs and one input.
/// Rule: Akka Streams 2.6 reference.
#[derive(Drop)]
pub enum OutMachines {
    /// A broadcast, a broadcast hub, or an unzip.
    Copies(CopyLogic),
    /// A partition.
    Deals(PartitionLogic),
}

impl OutMachines {
    /// The logic of node `stage`, with 2 to `MAX_FAN` outputs, and of a hub 1 to `MAX_FAN`. It takes the memory of a list of its
    /// outputs. None of these kinds has a decider: a reason stops a partition.
    pub fn new(
        alloc: Global,
        stage: u32,
        kind: Kind,
        decider: Decider,
    ) -> Result<OutMachines, NoMemory>
        requires { IsMachines kind }
        ensures { IfOk result (Begins stage kind) }
    {
        let _decider = decider;
        made(alloc, stage, kind)
    }

    /// The run begins. It waits to be asked.
    pub fn start(&mut self, _acts: &mut Acts) -> Result<(), NoMemory>
        requires meets { Meets starts (port_state self.old) }
        requires empty { _acts.old.items ≡ [] }
        ensures answers { IsOk result }
        ensures ports { OnOk result (Obeys starts (port_state self.old) (port_state self.new) _acts.new.items) }
        ensures gives { OnOk result (Turned starts self.old _acts.new.items self.new) }
        ensures room { _acts.new.room ≡ _acts.old.room }
    {
        Ok(())
    }

    /// An element came. It takes the memory of the copies that a broadcast makes, one less than it has open outputs.
    pub fn on_push(
        &mut self,
        alloc: Global,
        port: u8,
        e: Elem,
        acts: &mut Acts,
    ) -> Result<(), NoMemory>
        requires meets { Meets (arrives port (item.Elem e)) (port_state self.old) }
        requires empty { acts.old.items ≡ [] }
        requires room { room_of self.old ≤ acts.old.room }
        ensures ports { OnOk result (Obeys (arrives port (item.Elem e)) (port_state self.old) (port_state self.new) acts.new.items) }
        ensures gives { OnOk result (Turned (arrives port (item.Elem e)) self.old acts.new.items self.new) }
        ensures room { OnOk result (acts.new.room ≡ acts.old.room) }
    {
        let _port = port;
        match self {
            OutMachines::Copies(logic) => logic.serve(alloc, e, acts),
            OutMachines::Deals(logic) => logic.serve(alloc, e, acts),
        }
    }

    /// Output `port` was asked.
    pub fn on_pull(&mut self, port: u8, acts: &mut Acts) -> Result<(), NoMemory>
        requires meets { Meets (pulls port) (port_state self.old) }
        requires empty { acts.old.items ≡ [] }
        requires room { room_of self.old ≤ acts.old.room }
        ensures answers { IsOk result }
        ensures ports { OnOk result (Obeys (pulls port) (port_state self.old) (port_state self.new) acts.new.items) }
        ensures gives { OnOk result (Turned (pulls port) self.old acts.new.items self.new) }
        ensures room { acts.new.room ≡ acts.old.room }
    {
        match self {
            OutMachines::Copies(logic) => logic.ask(port, acts),
            OutMachines::Deals(logic) => logic.ask(port, acts),
        }
        Ok(())
    }

    /// The input has ended.
    pub fn on_finish(&mut self, port: u8, acts: &mut Acts) -> Result<(), NoMemory>
        requires meets { Meets (arrives port item.Ended) (port_state self.old) }
        requires empty { acts.old.items ≡ [] }
        requires room { room_of self.old ≤ acts.old.room }
        ensures answers { IsOk result }
        ensures ports { OnOk result (Obeys (arrives port item.Ended) (port_state self.old) (port_state self.new) acts.new.items) }
        ensures gives { OnOk result (Turned (arrives port item.Ended) self.old acts.new.items self.new) }
        ensures room { acts.new.room ≡ acts.old.room }
    {
        let _port = port;
        match self {
            OutMachines::Copies(logic) => logic.complete_all(acts),
            OutMachines::Deals(logic) => logic.end(acts),
        }
        Ok(())
    }

    /// The input has failed.
    pub fn on_fail(&mut self, port: u8, cause: Cause, acts: &mut Acts) -> Result<(), NoMemory>
        requires meets { Meets (arrives port (item.Failed cause)) (port_state self.old) }
        requires empty { acts.old.items ≡ [] }
        requires room { room_of self.old ≤ acts.old.room }
        ensures answers { IsOk result }
        ensures ports { OnOk result (Obeys (arrives port (item.Failed cause)) (port_state self.old) (port_state self.new) acts.new.items) }
        ensures gives { OnOk result (Turned (arrives port (item.Failed cause)) self.old acts.new.items self.new) }
        ensures room { acts.new.room ≡ acts.old.room }
    {
        let _port = port;
        match self {
            OutMachines::Copies(logic) => logic.fail_all(cause, acts),
            OutMachines::Deals(logic) => logic.fail_all(cause, acts),
        }
        Ok(())
    }

    /// Output `port` was cancelled.
    pub fn on_cancel(&mut self, port: u8, acts: &mut Acts) -> Result<(), NoMemory>
        requires meets { Meets (cancels port) (port_state self.old) }
        requires empty { acts.old.items ≡ [] }
        requires room { room_of self.old ≤ acts.old.room }
        ensures answers { IsOk result }
        ensures ports { OnOk result (Obeys (cancels port) (port_state self.old) (port_state self.new) acts.new.items) }
        ensures gives { OnOk result (Turned (cancels port) self.old acts.new.items self.new) }
        ensures room { acts.new.room ≡ acts.old.room }
    {
        match self {
            OutMachines::Copies(logic) => logic.lose(port, acts),
            OutMachines::Deals(logic) => logic.lose(port, acts),
        }
        Ok(())
    }
}

fn made(alloc: Global, stage: u32, kind: Kind) -> Result<OutMachines, NoMemory>
    requires { IsMachines kind }
    ensures { IfOk result (IsMade stage kind) }
{
    match kind {
        Kind::Broadcast(n) => copies(alloc, n, false),
        Kind::BroadcastHub(_, n) => copies(alloc, n, false),
        Kind::Unzip => copies(alloc, 2, true),
        Kind::Partition(n, fun) => deals(alloc, stage, n, fun),
        _ => unreachable!(),
    }
}

fn copies(alloc: Global, outputs: u32, halves: bool) -> Result<OutMachines, NoMemory>
    requires fan { (1 ≤ outputs) × (outputs ≤ MAX_FAN) }
    requires pair { halves ≡ true → outputs ≡ 2 }
    ensures { IfOk result (λ l. l ≡ Copies (copy.begun outputs halves)) }
{
    Ok(OutMachines::Copies(CopyLogic::new(alloc, outputs as u8, halves)?))
}

fn deals(alloc: Global, stage: u32, outputs: u32, fun: MapFn) -> Result<OutMachines, NoMemory>
    requires fan { (2 ≤ outputs) × (outputs ≤ MAX_FAN) }
    ensures { IfOk result (λ l. l ≡ Deals (part.begun stage outputs fun)) }
{
    Ok(OutMachines::Deals(PartitionLogic::new(alloc, stage, outputs as u8, fun)?))
}
