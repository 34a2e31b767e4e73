ghost use Rattle.std.specs.Prelude.{◌≡◌, ◌≤◌, ◌<◌, ◌∷◌, ◌++◌, ◌+◌, [], length, OnOk, IsOk, Some, None, Ok, false, option_to_list};
ghost use Rattle.elem_core.specs.declared.item.Item.TheVariants as item;
ghost use Rattle.port_core.specs.declared.act.Act.TheVariants.{FailOut};
ghost use Rattle.port_core.specs.Call.{Obeys, Meets, starts, pulls, arrives, cancels};
ghost use Rattle.stage_core.specs.declared.phase.Phase.TheVariants.{New, Open, Closed};
ghost use Rattle.step_work.specs.declared.ending.StateEnd.TheVariants.{Lasting};
ghost use Rattle.step_work.specs.Keeping.{work_in};
ghost use Rattle.stage_state.specs.Outcomes.{answered, answer_acts, cause_at, finished, finish_acts, settled, settle_acts};
ghost use Rattle.stage_state.specs.States.{port_state, Turned};

use elem_core::count::one_more;
use elem_core::elem::Elem;
use elem_core::why::{Cause, Decider, NoMemory, Why};
use port_core::act::Act;
use port_core::acts::Acts;
use stage_core::phase::Phase;
use std::alloc::Global;
use std::marker::Model;
use step_work::ending::StateEnd;
use step_work::keeping::{StateReaction, StateWork};

/// The logic of a grouped, a fold, a reduce or a scan. It asks its input when its output is asked, and again where an
/// element gave nothing; what the end of its input brings it gives when asked, and then completes. A scan gives its zero at
/// the first ask; an end or a failure that comes before is kept until then. Rule: Akka Streams 2.6 reference.
pub struct KeepLogic {
    node: u32,
    decider: Decider,
    taken: u64,
    keeping: StateWork,
    pending: Option<Elem>,
    asked: bool,
    ending: StateEnd,
    phase: Phase,
}

impl Model for KeepLogic {
    ghost use Rattle.std.specs.Coded.{codes};
    ghost use Rattle.std.specs.Prelude.{None, option_to_list};
    ghost use Rattle.elem_core.specs.TreeCode.{tree_coded};
    ghost use Rattle.stage_state.specs.States.{Logic};

    ghost Value = { Logic };

    ghost coded = { Prim.hlevel (codes, tree_coded) };

    ghost use Rattle.step_work.specs.Keeping.{work_in};

    ghost view = { λ l. record {
      phase = l.phase;
      stage = record { node = l.node; decider = l.decider; taken = l.taken; work = work_in l.keeping };
      pending = option_to_list l.pending;
      asked = l.asked;
      ending = l.ending;
      size = None;
    } };
}

// Dropped by a call, as what it keeps is.
impl Drop for KeepLogic {
    fn drop(self) {
        let KeepLogic {
            node: _,
            decider: _,
            taken: _,
            keeping: _,
            pending: _,
            asked: _,
            ending: _,
            phase: _,
        } = self;
    }
}

impl KeepLogic {
    /// The logic of node `stage`, which keeps this and owes `first` before any element. It takes no memory.
    pub fn new(stage: u32, decider: Decider, keeping: StateWork, first: Option<Elem>) -> KeepLogic
        ensures { result ≡ record {
          phase = New;
          stage = record { node = stage; decider = decider; taken = 0; work = work_in keeping };
          pending = option_to_list first;
          asked = false;
          ending = Lasting;
          size = None;
        } }
    {
        KeepLogic {
            node: stage,
            decider,
            taken: 0,
            keeping,
            pending: first,
            asked: false,
            ending: StateEnd::Lasting,
            phase: Phase::New,
        }
    }

    /// The run begins.
    pub fn start(&mut self, acts: &mut Acts) -> Result<(), NoMemory>
        requires new { self.old.phase ≡ New }
        requires meets { Meets starts (port_state self.old) }
        requires empty { acts.old.items ≡ [] }
        requires room { 4 ≤ acts.old.room }
        ensures answers { IsOk result }
        ensures ports { OnOk result (Obeys starts (port_state self.old) (port_state self.new) acts.new.items) }
        ensures gives { OnOk result (Turned starts self.old acts.new.items self.new) }
        ensures room { acts.new.room ≡ acts.old.room }
    {
        self.phase = Phase::Open;
        Ok(())
    }

    /// The output was asked.
    pub fn on_pull(&mut self, port: u8, acts: &mut Acts) -> Result<(), NoMemory>
        requires open { self.old.phase ≡ Open }
        requires port { port ≡ 0 }
        requires meets { Meets (pulls 0) (port_state self.old) }
        requires empty { acts.old.items ≡ [] }
        requires room { 4 ≤ acts.old.room }
        ensures answers { IsOk result }
        ensures ports { OnOk result (Obeys (pulls 0) (port_state self.old) (port_state self.new) acts.new.items) }
        ensures gives { OnOk result (Turned (pulls 0) self.old acts.new.items self.new) }
        ensures room { acts.new.room ≡ acts.old.room }
    {
        match self.pending.take() {
            Some(value) => {
                acts.add(Act::Push(port, value));
                self.settle(acts);
            }
            None => {
                self.asked = true;
                acts.add(Act::Pull(port));
            }
        }
        Ok(())
    }

    // Choice: docs/DECISIONS.md#allocator-is-passed
    /// The input has ended.
    pub fn on_finish(&mut self, alloc: Global, port: u8, acts: &mut Acts) -> Result<(), NoMemory>
        requires open { self.old.phase ≡ Open }
        requires port { port ≡ 0 }
        requires meets { Meets (arrives 0 item.Ended) (port_state self.old) }
        requires empty { acts.old.items ≡ [] }
        requires room { 4 ≤ acts.old.room }
        ensures answers { IsOk result }
        ensures ports { OnOk result (Obeys (arrives 0 item.Ended) (port_state self.old) (port_state self.new) acts.new.items) }
        ensures gives { OnOk result (Turned (arrives 0 item.Ended) self.old acts.new.items self.new) }
        ensures room { acts.new.room ≡ acts.old.room }
    {
        if self.pending.is_some() {
            self.ending = StateEnd::Ended;
        } else {
            let last = self.keeping.finish(alloc);
            self.end(last, acts);
        }
        Ok(())
    }

    /// The input has failed.
    pub fn on_fail(&mut self, port: u8, cause: Cause, acts: &mut Acts) -> Result<(), NoMemory>
        requires open { self.old.phase ≡ Open }
        requires port { port ≡ 0 }
        requires meets { Meets (arrives 0 (item.Failed cause)) (port_state self.old) }
        requires empty { acts.old.items ≡ [] }
        requires room { 4 ≤ acts.old.room }
        ensures answers { IsOk result }
        ensures ports { OnOk result (Obeys (arrives 0 (item.Failed cause)) (port_state self.old) (port_state self.new) acts.new.items) }
        ensures gives { OnOk result (Turned (arrives 0 (item.Failed cause)) self.old acts.new.items self.new) }
        ensures room { acts.new.room ≡ acts.old.room }
    {
        if self.pending.is_some() {
            self.ending = StateEnd::Failed(cause);
        } else {
            self.shut(Act::FailOut(port, cause), acts);
        }
        Ok(())
    }

    /// The output was cancelled.
    pub fn on_cancel(&mut self, port: u8, acts: &mut Acts) -> Result<(), NoMemory>
        requires open { self.old.phase ≡ Open }
        requires port { port ≡ 0 }
        requires meets { Meets (cancels 0) (port_state self.old) }
        requires empty { acts.old.items ≡ [] }
        requires room { 4 ≤ acts.old.room }
        ensures answers { IsOk result }
        ensures ports { OnOk result (Obeys (cancels 0) (port_state self.old) (port_state self.new) acts.new.items) }
        ensures gives { OnOk result (Turned (cancels 0) self.old acts.new.items self.new) }
        ensures room { acts.new.room ≡ acts.old.room }
    {
        match self.ending {
            StateEnd::Lasting => self.shut(Act::Cancel(port), acts),
            StateEnd::Ended | StateEnd::Failed(_) => self.phase = Phase::Closed,
        }
        Ok(())
    }

    /// An element came. Resume leaves out one that the step has no value for, Restart also begins again from the start.
    pub fn on_push(
        &mut self,
        alloc: Global,
        port: u8,
        e: Elem,
        acts: &mut Acts,
    ) -> Result<(), NoMemory>
        requires open { self.old.phase ≡ Open }
        requires port { port ≡ 0 }
        requires meets { Meets (arrives 0 (item.Elem e)) (port_state self.old) }
        requires empty { acts.old.items ≡ [] }
        requires room { 4 ≤ acts.old.room }
        ensures ports { OnOk result (Obeys (arrives 0 (item.Elem e)) (port_state self.old) (port_state self.new) acts.new.items) }
        ensures gives { OnOk result (Turned (arrives 0 (item.Elem e)) self.old acts.new.items self.new) }
        ensures room { acts.new.room ≡ acts.old.room }
    {
        let taken = one_more(self.taken)?;
        let outcome = self.keeping.react(alloc, self.decider, e)?;
        self.answer(taken, outcome, acts);
        Ok(())
    }

    // What element number `taken` came to.
    fn answer(&mut self, taken: u64, outcome: StateReaction, acts: &mut Acts)
        requires empty { acts.old.items ≡ [] }
        requires room { 4 ≤ acts.old.room }
        ensures stage { self.new ≡ answered self.old taken outcome }
        ensures acts { acts.new ≡ record acts.old { items = answer_acts self.old taken outcome } }
    {
        match outcome {
            StateReaction::Gives(value) => {
                self.taken = taken;
                self.asked = false;
                acts.add(Act::Push(0, value));
            }
            StateReaction::Asks => {
                self.taken = taken;
                acts.add(Act::Pull(0));
            }
            StateReaction::Fails(why) => {
                self.fail(taken, why, acts);
                acts.add(Act::Cancel(0));
            }
        }
    }

    // What the end of the input brought.
    fn end(&mut self, last: Result<Option<Elem>, Why>, acts: &mut Acts)
        requires empty { acts.old.items ≡ [] }
        requires room { 4 ≤ acts.old.room }
        ensures stage { self.new ≡ finished self.old last }
        ensures acts { acts.new ≡ record acts.old { items = finish_acts self.old last } }
    {
        match last {
            Ok(None) => self.shut(Act::Complete(0), acts),
            Ok(Some(value)) => self.give_last(value, acts),
            Err(why) => self.fail(0, why, acts),
        }
    }

    // The last value goes out where the output is asked, and is owed where it is not.
    fn give_last(&mut self, value: Elem, acts: &mut Acts)
        requires empty { acts.old.items ≡ [] }
        requires room { 4 ≤ acts.old.room }
        ensures stage { self.new ≡ finished self.old (Ok (Some value)) }
        ensures acts { acts.new ≡ record acts.old { items = finish_acts self.old (Ok (Some value)) } }
    {
        if self.asked {
            self.asked = false;
            acts.add(Act::Push(0, value));
            self.shut(Act::Complete(0), acts);
        } else {
            self.pending = Some(value);
            self.ending = StateEnd::Ended;
        }
    }

    // What was owed went out: the stage ends where its input has.
    fn settle(&mut self, acts: &mut Acts)
        requires room { length acts.old.items < acts.old.room }
        ensures stage { self.new ≡ settled self.old.ending self.old }
        ensures acts { acts.new ≡ record acts.old { items = acts.old.items ++ settle_acts self.old.ending } }
    {
        match self.ending {
            StateEnd::Lasting => {}
            StateEnd::Ended => self.shut(Act::Complete(0), acts),
            StateEnd::Failed(cause) => self.shut(Act::FailOut(0, cause), acts),
        }
    }

    // Element number `nth` is to blame for this; none is where it is 0.
    fn fail(&mut self, nth: u64, why: Why, acts: &mut Acts)
        requires room { length acts.old.items < acts.old.room }
        ensures stage { self.new ≡ record self.old { phase = Closed } }
        ensures acts { acts.new ≡ record acts.old { items = acts.old.items ++ FailOut 0 (cause_at self.old.stage nth why) ∷ [] } }
    {
        let cause = Cause {
            stage: self.node,
            nth,
            why,
        };
        self.shut(Act::FailOut(0, cause), acts);
    }

    // The output is closed.
    fn shut(&mut self, last: Act, acts: &mut Acts)
        requires room { length acts.old.items < acts.old.room }
        ensures stage { self.new ≡ record self.old { phase = Closed } }
        ensures acts { acts.new ≡ record acts.old { items = acts.old.items ++ last ∷ [] } }
    {
        self.phase = Phase::Closed;
        acts.add(last);
    }
}
