ghost use Rattle.std.specs.Prelude.{◌≡◌, ◌≢◌, ◌≤◌, ◌<◌, ◌^◌, [], Some, None, OnOk, OnErr, IfOk, IsOk, vec_len};
ghost use Rattle.std.specs.Option.{option_map};
ghost use Rattle.elem_core.specs.declared.item.Item.TheVariants as item;
ghost use Rattle.port_core.specs.Call.{Obeys, Meets, starts, pulls, arrives, cancels};
ghost use Rattle.stage_core.specs.declared.phase.Phase.TheVariants.{New, Open};
ghost use Rattle.port_core.specs.View.{unpulled_ports};
ghost use Rattle.stage_state.specs.Handling.{Begins, StateFresh};
ghost use Rattle.stage_state.specs.Logics.{Chooses, IsHandedEnd, IsStateful, TakesNone, TakesNoneAsked, TakesNoneEnded, TakesNoneFailed, StateMayFollow, StateFollows, phase_of, port_state, Turned};
ghost use Rattle.port_core.specs.Picks.{misfit_in};
ghost use Rattle.stage_state.specs.Moves.{state_moves, state_picks, state_misfit, state_seat};

use crate::machine::MachineLogic;
use elem_core::elem::{Elem, Form};
use elem_core::why::{Cause, Decider, NoMemory};
use port_core::acts::Acts;
use port_core::pick_log::PickLog;
use stage_dropping::dropping::Dropping;
use stage_dropping::recover::Recovering;
use stage_switch::end::SwitchEnd;
use stage_switch::order::Order;
use stage_switch::seat::SwitchSeat;
use stage_switch::trip::Trip;
use stage_switch::valve::Valve;
use std::alloc::Global;
use stream_model::kind::{Kind, Policy};

/// The logic of a stage with one input and one output that keeps a state: a grouped, a fold, a reduce, a scan, a buffer, a
/// recover, or a valve or a trip of a kill switch. Rule: Akka Streams 2.6 reference; the trip: own.
pub enum StateLogic {
    /// One that chooses nothing: it keeps a group or a value, or is a buffer that holds its input back.
    Machine(MachineLogic),
    /// A buffer that drops.
    Dropping(Dropping),
    /// A recover.
    Recovering(Recovering),
    /// A valve, which obeys the order of its switch.
    Obeying(Valve),
    /// A trip, which gives its switch an order.
    Tripping(Trip),
}

// Dropped by a call, wherever it is dropped: else each of its variants is a path of each function that drops it.
impl Drop for StateLogic {
    fn drop(self) {
        match self {
            StateLogic::Machine(_) => {}
            StateLogic::Dropping(_) => {}
            StateLogic::Recovering(_) => {}
            StateLogic::Obeying(_) => {}
            StateLogic::Tripping(_) => {}
        }
    }
}

impl StateLogic {
    /// The logic of node `stage`. It takes the memory of a buffer, and of the first value of a fold or a scan. A valve and a trip
    /// are handed a seat of their own at their switch, which gave nothing and knows nothing; no other kind is.
    pub fn new(
        alloc: Global,
        stage: u32,
        kind: Kind,
        decider: Decider,
        switch: Option<SwitchEnd>,
    ) -> Result<StateLogic, NoMemory>
        requires kind { IsStateful kind }
        requires handed { IsHandedEnd kind switch }
        ensures begins { IfOk result (Begins stage kind decider) }
        ensures seat { IfOk result (λ l. state_seat l ≡ option_map (λ e. e.seat) switch) }
    {
        Ok(match kind {
            Kind::Buffer(size, Policy::Backpressure) => {
                let kind = Kind::Buffer(size, Policy::Backpressure);
                StateLogic::Machine(MachineLogic::new(alloc, stage, kind, decider)?)
            }
            Kind::Buffer(size, policy) => {
                StateLogic::Dropping(Dropping::new(alloc, stage, size, policy)?)
            }
            Kind::RecoverNum(number) => {
                StateLogic::Recovering(Recovering::new(alloc, Elem::of(Form::Num(number))))
            }
            Kind::RecoverText(text) => {
                StateLogic::Recovering(Recovering::new(alloc, Elem::of(Form::Text(text))))
            }
            Kind::Valve(_) => StateLogic::Obeying(Valve::new(alloc, stage, end_of(switch))),
            Kind::TripShutdown(_, count) => StateLogic::Tripping(Trip::new(
                stage,
                Order::Shutdown,
                count,
                end_of(switch),
            )),
            Kind::TripAbort(_, count) => StateLogic::Tripping(Trip::new(
                stage,
                Order::Abort,
                count,
                end_of(switch),
            )),
            kind => StateLogic::Machine(MachineLogic::new(alloc, stage, kind, decider)?),
        })
    }

    /// From now on a new stage that chooses follows these moves: of a buffer that drops each is 0 or 1, a recover has at most one, and a
    /// valve none, or an order and a count. It takes no memory.
    pub fn follow(&mut self, moves: Vec<u32>)
        requires may { StateMayFollow moves.items self.old }
        requires few { vec_len moves < 2 ^ 32 }
        ensures follows { StateFollows moves.items self.old self.new }
        ensures fresh { StateFresh self.new unpulled_ports }
    {
        match self {
            StateLogic::Dropping(logic) => logic.follow(moves),
            StateLogic::Recovering(logic) => logic.follow(moves),
            StateLogic::Obeying(logic) => logic.follow(moves),
            StateLogic::Machine(_) | StateLogic::Tripping(_) => unreachable!(),
        }
    }

    /// The run begins. Only a valve takes memory, for the move that it may have to note; where that is refused, it is as before.
    pub fn start(&mut self, acts: &mut Acts) -> Result<(), NoMemory>
        requires new { phase_of self.old ≡ New }
        requires meets { Meets starts (port_state self.old) }
        requires empty { acts.old.items ≡ [] }
        requires room { 4 ≤ acts.old.room }
        ensures answers { TakesNone self.old → IsOk result }
        ensures ports { OnOk result (Obeys starts (port_state self.old) (port_state self.new) acts.new.items) }
        ensures gives { OnOk result (Turned starts self.old acts.new.items self.new) }
        ensures room { acts.new.room ≡ acts.old.room }
        ensures refused { OnErr result (Chooses self.old → (self.new ≡ self.old) × (acts.new ≡ acts.old)) }
    {
        match self {
            StateLogic::Machine(logic) => logic.start(acts),
            StateLogic::Dropping(logic) => logic.start(acts),
            StateLogic::Recovering(logic) => logic.start(acts),
            StateLogic::Obeying(logic) => logic.start(acts),
            StateLogic::Tripping(logic) => logic.start(acts),
        }
    }

    /// An element came. Where a stage that chooses is refused memory, it is as before but for the element.
    pub fn on_push(
        &mut self,
        alloc: Global,
        port: u8,
        e: Elem,
        acts: &mut Acts,
    ) -> Result<(), NoMemory>
        requires open { phase_of self.old ≡ Open }
        requires port { port ≡ 0 }
        requires meets { Meets (arrives 0 (item.Elem e)) (port_state self.old) }
        requires empty { acts.old.items ≡ [] }
        requires room { 4 ≤ acts.old.room }
        ensures ports { OnOk result (Obeys (arrives 0 (item.Elem e)) (port_state self.old) (port_state self.new) acts.new.items) }
        ensures gives { OnOk result (Turned (arrives 0 (item.Elem e)) self.old acts.new.items self.new) }
        ensures room { acts.new.room ≡ acts.old.room }
        ensures refused { OnErr result (Chooses self.old → (self.new ≡ self.old) × (acts.new ≡ acts.old)) }
    {
        match self {
            StateLogic::Machine(logic) => logic.on_push(alloc, port, e, acts),
            StateLogic::Dropping(logic) => logic.on_push(port, e, acts),
            StateLogic::Recovering(logic) => logic.on_push(port, e, acts),
            StateLogic::Obeying(logic) => logic.on_push(e, acts),
            StateLogic::Tripping(logic) => logic.on_push(e, acts),
        }
    }

    /// The output was asked. Only a buffer that drops and a valve take memory; where that is refused, each is as before.
    pub fn on_pull(&mut self, port: u8, acts: &mut Acts) -> Result<(), NoMemory>
        requires open { phase_of self.old ≡ Open }
        requires port { port ≡ 0 }
        requires meets { Meets (pulls 0) (port_state self.old) }
        requires empty { acts.old.items ≡ [] }
        requires room { 4 ≤ acts.old.room }
        ensures answers { TakesNoneAsked self.old → IsOk result }
        ensures ports { OnOk result (Obeys (pulls 0) (port_state self.old) (port_state self.new) acts.new.items) }
        ensures gives { OnOk result (Turned (pulls 0) self.old acts.new.items self.new) }
        ensures room { acts.new.room ≡ acts.old.room }
        ensures refused { OnErr result (Chooses self.old → (self.new ≡ self.old) × (acts.new ≡ acts.old)) }
    {
        match self {
            StateLogic::Machine(logic) => logic.on_pull(port, acts),
            StateLogic::Dropping(logic) => logic.on_pull(port, acts),
            StateLogic::Recovering(logic) => logic.on_pull(port, acts),
            StateLogic::Obeying(logic) => logic.on_pull(acts),
            StateLogic::Tripping(logic) => logic.on_pull(acts),
        }
    }

    /// The input has ended. Of the stages that choose only a valve takes memory; where that is refused, it is as before.
    pub fn on_finish(&mut self, alloc: Global, port: u8, acts: &mut Acts) -> Result<(), NoMemory>
        requires open { phase_of self.old ≡ Open }
        requires port { port ≡ 0 }
        requires meets { Meets (arrives 0 item.Ended) (port_state self.old) }
        requires empty { acts.old.items ≡ [] }
        requires room { 4 ≤ acts.old.room }
        ensures answers { TakesNoneEnded self.old → IsOk result }
        ensures ports { OnOk result (Obeys (arrives 0 item.Ended) (port_state self.old) (port_state self.new) acts.new.items) }
        ensures gives { OnOk result (Turned (arrives 0 item.Ended) self.old acts.new.items self.new) }
        ensures room { acts.new.room ≡ acts.old.room }
        ensures refused { OnErr result (Chooses self.old → (self.new ≡ self.old) × (acts.new ≡ acts.old)) }
    {
        match self {
            StateLogic::Machine(logic) => logic.on_finish(alloc, port, acts),
            StateLogic::Dropping(logic) => logic.on_finish(port, acts),
            StateLogic::Recovering(logic) => logic.on_finish(port, acts),
            StateLogic::Obeying(logic) => logic.on_finish(acts),
            StateLogic::Tripping(logic) => logic.on_finish(acts),
        }
    }

    /// The input has failed. Only a recover and a valve take memory; where that is refused, each is as before.
    pub fn on_fail(&mut self, port: u8, cause: Cause, acts: &mut Acts) -> Result<(), NoMemory>
        requires open { phase_of self.old ≡ Open }
        requires port { port ≡ 0 }
        requires meets { Meets (arrives 0 (item.Failed cause)) (port_state self.old) }
        requires empty { acts.old.items ≡ [] }
        requires room { 4 ≤ acts.old.room }
        ensures answers { TakesNoneFailed self.old → IsOk result }
        ensures ports { OnOk result (Obeys (arrives 0 (item.Failed cause)) (port_state self.old) (port_state self.new) acts.new.items) }
        ensures gives { OnOk result (Turned (arrives 0 (item.Failed cause)) self.old acts.new.items self.new) }
        ensures room { acts.new.room ≡ acts.old.room }
        ensures refused { OnErr result (Chooses self.old → (self.new ≡ self.old) × (acts.new ≡ acts.old)) }
    {
        match self {
            StateLogic::Machine(logic) => logic.on_fail(port, cause, acts),
            StateLogic::Dropping(logic) => logic.on_fail(port, cause, acts),
            StateLogic::Recovering(logic) => logic.on_fail(port, cause, acts),
            StateLogic::Obeying(logic) => logic.on_fail(cause, acts),
            StateLogic::Tripping(logic) => logic.on_fail(cause, acts),
        }
    }

    /// The output was cancelled. Only a valve takes memory; where that is refused, it is as before.
    pub fn on_cancel(&mut self, port: u8, acts: &mut Acts) -> Result<(), NoMemory>
        requires open { phase_of self.old ≡ Open }
        requires port { port ≡ 0 }
        requires meets { Meets (cancels 0) (port_state self.old) }
        requires empty { acts.old.items ≡ [] }
        requires room { 4 ≤ acts.old.room }
        ensures answers { TakesNone self.old → IsOk result }
        ensures ports { OnOk result (Obeys (cancels 0) (port_state self.old) (port_state self.new) acts.new.items) }
        ensures gives { OnOk result (Turned (cancels 0) self.old acts.new.items self.new) }
        ensures room { acts.new.room ≡ acts.old.room }
        ensures refused { OnErr result (Chooses self.old → (self.new ≡ self.old) × (acts.new ≡ acts.old)) }
    {
        match self {
            StateLogic::Machine(logic) => logic.on_cancel(port, acts),
            StateLogic::Dropping(logic) => logic.on_cancel(port, acts),
            StateLogic::Recovering(logic) => logic.on_cancel(port, acts),
            StateLogic::Obeying(logic) => logic.on_cancel(acts),
            StateLogic::Tripping(logic) => logic.on_cancel(acts),
        }
    }

    /// The run is over: the log of its moves, which is empty where its kind does not choose, and the seat that a valve or a trip
    /// has at its switch. It takes no memory.
    pub fn close(self, alloc: Global) -> (PickLog, Option<SwitchSeat>)
        ensures moves { result.0.moves ≡ state_moves self }
        ensures seat { result.1 ≡ state_seat self }
    {
        let (log, seat) = self.leave();
        (log.unwrap_or(PickLog::new(alloc)), seat)
    }

    // Choice: docs/DECISIONS.md#leave-beside-close
    /// The run is over: the log of its moves where its kind chooses, and the seat that a valve or a trip has at its switch. It
    /// takes no memory.
    pub fn leave(self) -> (Option<PickLog>, Option<SwitchSeat>)
        ensures picks { option_map (λ log. log.moves) result.0 ≡ state_picks self }
        ensures misfit { misfit_in result.0 ≡ state_misfit self }
        ensures seat { result.1 ≡ state_seat self }
    {
        match self {
            StateLogic::Machine(_) => (None, None),
            StateLogic::Dropping(logic) => (Some(logic.close()), None),
            StateLogic::Recovering(logic) => (Some(logic.close()), None),
            StateLogic::Obeying(logic) => {
                let (log, seat) = logic.close();
                (Some(log), Some(seat))
            }
            StateLogic::Tripping(logic) => (None, Some(logic.close())),
        }
    }
}

// The seat that was handed in.
fn end_of(switch: Option<SwitchEnd>) -> SwitchEnd
    requires { switch ≢ None }
    ensures { switch ≡ Some result }
{
    match switch {
        Some(end) => end,
        None => unreachable!(),
    }
}
