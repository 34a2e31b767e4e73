ghost use Rattle.std.specs.Prelude.{◌≡◌, ◌≤◌, ◌<◌, ◌^◌, ℕ, vec_len, OnOk, OnErr, IfOk, IsOk, [], None, Some};
ghost use Rattle.std.specs.Option.{option_map};
ghost use Rattle.elem_core.specs.declared.item.Item.TheVariants as item;
ghost use Rattle.port_core.specs.Picks.{misfit_in};
ghost use Rattle.port_core.specs.Call.{Obeys, Meets, starts, pulls, arrives, cancels};
ghost use Rattle.stream_model.specs.declared.kind.Kind.{Kind};
ghost use Rattle.stage_out.specs.OutLogics.{room_of, port_state, Turned, QueuesLast, ServesFirst, IsOut, OutMayFollow, Begins};
ghost use Rattle.stage_out.specs.Moves.{out_moves, out_picks, out_plan, out_misfit};

use crate::balancing::Balancing;
use crate::machines::OutMachines;
use elem_core::elem::Elem;
use elem_core::why::{Cause, Decider, NoMemory};
use port_core::acts::Acts;
use port_core::pick_log::PickLog;
use std::alloc::Global;
use stream_model::kind::Kind;

/// The logic of a node with several outputs. A call that appends actions wants room for two of them for each port, of which
/// the node has its outputs and one input. Rule: Akka Streams 2.6 reference; which output of a balance comes first: own.
pub enum OutLogic {
    /// A broadcast, a broadcast hub, an unzip or a partition: what each output gets hangs on what came alone.
    Machines(OutMachines),
    /// A balance: each element goes to the output that asked first.
    Balances(Balancing),
}

// Dropped by a call, wherever it is dropped: else each of its variants is a path of each function that drops it.
impl Drop for OutLogic {
    fn drop(self) {
        match self {
            OutLogic::Machines(_) => {}
            OutLogic::Balances(_) => {}
        }
    }
}

impl OutLogic {
    /// The logic of node `stage`, with 2 to `MAX_FAN` outputs, and of a hub 1 to `MAX_FAN`. It takes the memory of lists of its
    /// outputs. None of these kinds has a decider: a reason stops a partition.
    pub fn new(
        alloc: Global,
        stage: u32,
        kind: Kind,
        decider: Decider,
    ) -> Result<OutLogic, NoMemory>
        requires { IsOut kind }
        ensures begins { IfOk result (Begins stage kind) }
        ensures free { IfOk result (λ l. out_plan l ≡ None) }
    {
        match kind {
            Kind::Balance(outputs) => Ok(OutLogic::Balances(Balancing::new(alloc, outputs)?)),
            _ => Ok(OutLogic::Machines(OutMachines::new(alloc, stage, kind, decider)?)),
        }
    }

    /// From now on a new balance follows these moves, each of which is one of its outputs. It takes no memory.
    pub fn follow(&mut self, moves: Vec<u32>)
        requires balance { OutMayFollow moves.items self.old }
        requires few { vec_len moves < 2 ^ 32 }
        ensures begins { (node : ℕ) (kind : Kind) → Begins node kind self.old → Begins node kind self.new }
        ensures plan { out_plan self.new ≡ Some moves.items }
    {
        match self {
            OutLogic::Balances(logic) => logic.follow(moves),
            _ => unreachable!(),
        }
    }

    /// The run begins. It waits to be asked.
    pub fn start(&mut self, acts: &mut Acts) -> Result<(), NoMemory>
        requires meets { Meets starts (port_state self.old) }
        requires empty { acts.old.items ≡ [] }
        ensures answers { IsOk result }
        ensures ports { OnOk result (Obeys starts (port_state self.old) (port_state self.new) acts.new.items) }
        ensures gives { OnOk result (Turned starts self.old acts.new.items self.new) }
        ensures room { acts.new.room ≡ acts.old.room }
    {
        match self {
            OutLogic::Machines(logic) => logic.start(acts),
            OutLogic::Balances(logic) => logic.start(acts),
        }
    }

    /// An element came. It takes the memory of the copies that a broadcast makes, one less than it has open outputs, and of
    /// the move that a balance records.
    pub fn on_push(
        &mut self,
        alloc: Global,
        port: u8,
        e: Elem,
        acts: &mut Acts,
    ) -> Result<(), NoMemory>
        requires meets { Meets (arrives port (item.Elem e)) (port_state self.old) }
        requires empty { acts.old.items ≡ [] }
        requires room { room_of self.old ≤ acts.old.room }
        ensures ports { OnOk result (Obeys (arrives port (item.Elem e)) (port_state self.old) (port_state self.new) acts.new.items) }
        ensures gives { OnOk result (Turned (arrives port (item.Elem e)) self.old acts.new.items self.new) }
        ensures order { OnOk result (ServesFirst self.old self.new) }
        ensures room { OnOk result (acts.new.room ≡ acts.old.room) }
    {
        match self {
            OutLogic::Machines(logic) => logic.on_push(alloc, port, e, acts),
            OutLogic::Balances(logic) => logic.on_push(port, e, acts),
        }
    }

    /// Output `port` was asked. It takes the memory of the move that a balance records; where that is refused, all is as before.
    pub fn on_pull(&mut self, port: u8, acts: &mut Acts) -> Result<(), NoMemory>
        requires meets { Meets (pulls port) (port_state self.old) }
        requires empty { acts.old.items ≡ [] }
        requires room { room_of self.old ≤ acts.old.room }
        ensures answers { out_picks self.old ≡ None → IsOk result }
        ensures ports { OnOk result (Obeys (pulls port) (port_state self.old) (port_state self.new) acts.new.items) }
        ensures gives { OnOk result (Turned (pulls port) self.old acts.new.items self.new) }
        ensures order { OnOk result (QueuesLast port self.old self.new) }
        ensures room { OnOk result (acts.new.room ≡ acts.old.room) }
        ensures refused { OnErr result ((self.new ≡ self.old) × (acts.new ≡ acts.old)) }
    {
        match self {
            OutLogic::Machines(logic) => logic.on_pull(port, acts),
            OutLogic::Balances(logic) => logic.on_pull(port, acts),
        }
    }

    /// The input has ended.
    pub fn on_finish(&mut self, port: u8, acts: &mut Acts) -> Result<(), NoMemory>
        requires meets { Meets (arrives port item.Ended) (port_state self.old) }
        requires empty { acts.old.items ≡ [] }
        requires room { room_of self.old ≤ acts.old.room }
        ensures answers { IsOk result }
        ensures ports { OnOk result (Obeys (arrives port item.Ended) (port_state self.old) (port_state self.new) acts.new.items) }
        ensures gives { OnOk result (Turned (arrives port item.Ended) self.old acts.new.items self.new) }
        ensures room { acts.new.room ≡ acts.old.room }
    {
        match self {
            OutLogic::Machines(logic) => logic.on_finish(port, acts),
            OutLogic::Balances(logic) => logic.on_finish(port, acts),
        }
    }

    /// The input has failed.
    pub fn on_fail(&mut self, port: u8, cause: Cause, acts: &mut Acts) -> Result<(), NoMemory>
        requires meets { Meets (arrives port (item.Failed cause)) (port_state self.old) }
        requires empty { acts.old.items ≡ [] }
        requires room { room_of self.old ≤ acts.old.room }
        ensures answers { IsOk result }
        ensures ports { OnOk result (Obeys (arrives port (item.Failed cause)) (port_state self.old) (port_state self.new) acts.new.items) }
        ensures gives { OnOk result (Turned (arrives port (item.Failed cause)) self.old acts.new.items self.new) }
        ensures room { acts.new.room ≡ acts.old.room }
    {
        match self {
            OutLogic::Machines(logic) => logic.on_fail(port, cause, acts),
            OutLogic::Balances(logic) => logic.on_fail(port, cause, acts),
        }
    }

    /// Output `port` was cancelled.
    pub fn on_cancel(&mut self, port: u8, acts: &mut Acts) -> Result<(), NoMemory>
        requires meets { Meets (cancels port) (port_state self.old) }
        requires empty { acts.old.items ≡ [] }
        requires room { room_of self.old ≤ acts.old.room }
        ensures answers { IsOk result }
        ensures ports { OnOk result (Obeys (cancels port) (port_state self.old) (port_state self.new) acts.new.items) }
        ensures gives { OnOk result (Turned (cancels port) self.old acts.new.items self.new) }
        ensures room { acts.new.room ≡ acts.old.room }
    {
        match self {
            OutLogic::Machines(logic) => logic.on_cancel(port, acts),
            OutLogic::Balances(logic) => logic.on_cancel(port, acts),
        }
    }

    /// The run is over: the log of its moves. It takes no memory.
    pub fn close(self, alloc: Global) -> PickLog
        ensures { result.moves ≡ out_moves self }
    {
        match self {
            OutLogic::Machines(_) => PickLog::new(alloc),
            OutLogic::Balances(logic) => logic.close(),
        }
    }

    /// The run is over: the log of its moves where its kind chooses. It takes no memory.
    pub fn picks(self) -> Option<PickLog>
        ensures picks { option_map (λ log. log.moves) result ≡ out_picks self }
        ensures misfit { misfit_in result ≡ out_misfit self }
    {
        match self {
            OutLogic::Machines(_) => None,
            OutLogic::Balances(logic) => Some(logic.close()),
        }
    }
}
