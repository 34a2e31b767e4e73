ghost use Rattle.std.specs.Prelude.{◌≡◌, ◌≤◌, ◌<◌, ◌^◌, ℕ, [], Some, None, vec_len, OnOk, OnErr, IfOk, IsOk};
ghost use Rattle.elem_core.specs.declared.why.Decider.{Decider};
ghost use Rattle.stream_model.specs.declared.kind.Kind.{Kind};
ghost use Rattle.elem_core.specs.declared.item.Item.TheVariants as item;
ghost use Rattle.port_core.specs.Call.{Obeys, Meets, starts, pulls, arrives, cancels};
ghost use Rattle.stage_in.specs.Logics.{Begins, IsFanIn, MayFollow, IsNew, IsStarted, TakesNone, room_of, port_state, Turned};
ghost use Rattle.std.specs.Option.{option_map};
ghost use Rattle.port_core.specs.Picks.{misfit_in};
ghost use Rattle.stage_in.specs.Moves.{in_moves, in_picks, in_misfit, in_plan};

use crate::sorting::Sorting;
use crate::taking::Taking;
use crate::zipping::Zipping;
use elem_core::elem::Elem;
use elem_core::why::{Cause, Decider, NoMemory};
use port_core::acts::Acts;
use port_core::pick_log::PickLog;
use stage_merge::merging::Merging;
use std::alloc::Global;
use stream_model::kind::Kind;

/// The logic of a stage with several inputs and one output. Once it was started, a call wants room for two actions for each
/// port, of which the stage has its inputs and one output. Rule: Akka Streams 2.6 reference.
pub enum InLogic {
    /// A concat or an interleave.
    Taking(Taking),
    /// A merge_sorted.
    Sorting(Sorting),
    /// A zip.
    Zipping(Zipping),
    /// A merge, or a merge hub, which gathers.
    Merging(Merging),
}

// Dropped by a call, wherever it is dropped: else each of its variants is a path of each function that drops it.
impl Drop for InLogic {
    fn drop(self) {
        match self {
            InLogic::Taking(_) => {}
            InLogic::Sorting(_) => {}
            InLogic::Zipping(_) => {}
            InLogic::Merging(_) => {}
        }
    }
}

impl InLogic {
    /// The logic of node `stage`, which is of one of these kinds: a concat or an interleave of 2 to `MAX_FAN` inputs, the
    /// latter by segments of 1 to 4,000,000,000 elements, a merge_sorted, a zip, a merge of 2 to `MAX_FAN` inputs, or a merge hub
    /// of 1 to `MAX_FAN` producers. It has no decider, for it calls no function. It takes memory for two bytes an input, and a merge
    /// or a merge hub for a flag and an element of each.
    pub fn new(alloc: Global, stage: u32, kind: Kind, decider: Decider) -> Result<InLogic, NoMemory>
        requires { IsFanIn kind }
        ensures begins { IfOk result (Begins stage kind decider) }
        ensures free { IfOk result (λ l. in_plan l ≡ None) }
    {
        let _stage = stage;
        let _decider = decider;
        Ok(match kind {
            Kind::Concat(inputs) => InLogic::Taking(Taking::new(alloc, inputs, None)?),
            Kind::Interleave(inputs, segment) => {
                InLogic::Taking(Taking::new(alloc, inputs, Some(segment))?)
            }
            Kind::MergeSorted => InLogic::Sorting(Sorting::new()),
            Kind::Zip => InLogic::Zipping(Zipping::new()),
            Kind::Merge(inputs) => InLogic::Merging(Merging::new(alloc, inputs, false)?),
            Kind::MergeHub(_, producers) => {
                InLogic::Merging(Merging::new(alloc, producers, true)?)
            }
            _ => unreachable!(),
        })
    }

    /// From now on a new merge or merge hub follows these moves, each of which is one of its inputs. It takes no memory.
    pub fn follow(&mut self, moves: Vec<u32>)
        requires merge { MayFollow moves.items self.old }
        requires few { vec_len moves < 2 ^ 32 }
        ensures begins { (node : ℕ) (kind : Kind) (d : Decider) → Begins node kind d self.old → Begins node kind d self.new }
        ensures plan { in_plan self.new ≡ Some moves.items }
    {
        match self {
            InLogic::Merging(logic) => logic.follow(moves),
            _ => unreachable!(),
        }
    }

    /// The run begins.
    pub fn start(&mut self, acts: &mut Acts) -> Result<(), NoMemory>
        requires fresh { IsNew self.old }
        requires meets { Meets starts (port_state self.old) }
        requires empty { acts.old.items ≡ [] }
        requires room { room_of self.old ≤ acts.old.room }
        ensures answers { IsOk result }
        ensures ports { OnOk result (Obeys starts (port_state self.old) (port_state self.new) acts.new.items) }
        ensures gives { OnOk result (Turned starts self.old acts.new.items self.new) }
        ensures room { acts.new.room ≡ acts.old.room }
    {
        match self {
            InLogic::Taking(logic) => logic.start(acts),
            InLogic::Sorting(logic) => logic.start(acts),
            InLogic::Zipping(logic) => logic.start(acts),
            InLogic::Merging(logic) => logic.start(acts),
        }
    }

    /// An element came. A zip takes memory where it gives a pair, a merge for the move that it may note, and no other stage
    /// takes any.
    pub fn on_push(
        &mut self,
        alloc: Global,
        port: u8,
        e: Elem,
        acts: &mut Acts,
    ) -> Result<(), NoMemory>
        requires started { IsStarted self.old }
        requires meets { Meets (arrives port (item.Elem e)) (port_state self.old) }
        requires empty { acts.old.items ≡ [] }
        requires room { room_of self.old ≤ acts.old.room }
        ensures answers { TakesNone self.old → IsOk result }
        ensures ports { OnOk result (Obeys (arrives port (item.Elem e)) (port_state self.old) (port_state self.new) acts.new.items) }
        ensures gives { OnOk result (Turned (arrives port (item.Elem e)) self.old acts.new.items self.new) }
        ensures room { OnOk result (acts.new.room ≡ acts.old.room) }
    {
        match self {
            InLogic::Taking(logic) => logic.on_push(port, e, acts),
            InLogic::Sorting(logic) => logic.on_push(port, e, acts),
            InLogic::Zipping(logic) => logic.on_push(alloc, port, e, acts),
            InLogic::Merging(logic) => logic.on_push(port, e, acts),
        }
    }

    /// The output was asked. A zip takes memory where it gives a pair, a merge for the move that it may note, and no other
    /// stage takes any.
    pub fn on_pull(&mut self, alloc: Global, port: u8, acts: &mut Acts) -> Result<(), NoMemory>
        requires started { IsStarted self.old }
        requires port { port ≡ 0 }
        requires meets { Meets (pulls 0) (port_state self.old) }
        requires empty { acts.old.items ≡ [] }
        requires room { room_of self.old ≤ acts.old.room }
        ensures answers { TakesNone self.old → IsOk result }
        ensures ports { OnOk result (Obeys (pulls 0) (port_state self.old) (port_state self.new) acts.new.items) }
        ensures gives { OnOk result (Turned (pulls 0) self.old acts.new.items self.new) }
        ensures room { OnOk result (acts.new.room ≡ acts.old.room) }
    {
        let _port = port;
        match self {
            InLogic::Taking(logic) => logic.on_pull(acts),
            InLogic::Sorting(logic) => logic.on_pull(acts),
            InLogic::Zipping(logic) => logic.on_pull(alloc, acts),
            InLogic::Merging(logic) => logic.on_pull(acts),
        }
    }

    /// An input has ended.
    pub fn on_finish(&mut self, port: u8, acts: &mut Acts) -> Result<(), NoMemory>
        requires started { IsStarted self.old }
        requires meets { Meets (arrives port item.Ended) (port_state self.old) }
        requires empty { acts.old.items ≡ [] }
        requires room { room_of self.old ≤ acts.old.room }
        ensures answers { IsOk result }
        ensures ports { OnOk result (Obeys (arrives port item.Ended) (port_state self.old) (port_state self.new) acts.new.items) }
        ensures gives { OnOk result (Turned (arrives port item.Ended) self.old acts.new.items self.new) }
        ensures room { acts.new.room ≡ acts.old.room }
    {
        match self {
            InLogic::Taking(logic) => logic.on_finish(port, acts),
            InLogic::Sorting(logic) => logic.on_finish(port, acts),
            InLogic::Zipping(logic) => logic.on_finish(port, acts),
            InLogic::Merging(logic) => logic.on_finish(port, acts),
        }
    }

    /// An input has failed, which fails the stage: its other inputs are cancelled, and what waits is dropped. A merge hub goes on
    /// without it.
    pub fn on_fail(&mut self, port: u8, cause: Cause, acts: &mut Acts) -> Result<(), NoMemory>
        requires started { IsStarted self.old }
        requires meets { Meets (arrives port (item.Failed cause)) (port_state self.old) }
        requires empty { acts.old.items ≡ [] }
        requires room { room_of self.old ≤ acts.old.room }
        ensures answers { IsOk result }
        ensures ports { OnOk result (Obeys (arrives port (item.Failed cause)) (port_state self.old) (port_state self.new) acts.new.items) }
        ensures gives { OnOk result (Turned (arrives port (item.Failed cause)) self.old acts.new.items self.new) }
        ensures room { acts.new.room ≡ acts.old.room }
    {
        match self {
            InLogic::Taking(logic) => logic.on_fail(port, cause, acts),
            InLogic::Sorting(logic) => logic.on_fail(port, cause, acts),
            InLogic::Zipping(logic) => logic.on_fail(port, cause, acts),
            InLogic::Merging(logic) => logic.on_fail(port, cause, acts),
        }
    }

    /// The output was cancelled.
    pub fn on_cancel(&mut self, port: u8, acts: &mut Acts) -> Result<(), NoMemory>
        requires started { IsStarted self.old }
        requires port { port ≡ 0 }
        requires meets { Meets (cancels 0) (port_state self.old) }
        requires empty { acts.old.items ≡ [] }
        requires room { room_of self.old ≤ acts.old.room }
        ensures answers { IsOk result }
        ensures ports { OnOk result (Obeys (cancels 0) (port_state self.old) (port_state self.new) acts.new.items) }
        ensures gives { OnOk result (Turned (cancels 0) self.old acts.new.items self.new) }
        ensures room { acts.new.room ≡ acts.old.room }
    {
        let _port = port;
        match self {
            InLogic::Taking(logic) => logic.on_cancel(acts),
            InLogic::Sorting(logic) => logic.on_cancel(acts),
            InLogic::Zipping(logic) => logic.on_cancel(acts),
            InLogic::Merging(logic) => logic.on_cancel(acts),
        }
    }

    /// The run is over: the log of its moves, of which only a merge and a merge hub made any. It takes no memory.
    pub fn close(self, alloc: Global) -> PickLog
        ensures { result.moves ≡ in_moves self }
    {
        match self {
            InLogic::Merging(logic) => logic.close(),
            _ => PickLog::new(alloc),
        }
    }

    /// The run is over: the log of its moves where its kind chooses, which a merge and a merge hub alone do. It takes no memory.
    pub fn picks(self) -> Option<PickLog>
        ensures picks { option_map (λ log. log.moves) result ≡ in_picks self }
        ensures misfit { misfit_in result ≡ in_misfit self }
    {
        match self {
            InLogic::Merging(logic) => Some(logic.close()),
            _ => None,
        }
    }
}
