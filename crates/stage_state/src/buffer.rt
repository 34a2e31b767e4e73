ghost use Rattle.std.specs.Prelude.{◌≡◌, ◌≤◌, ◌<◌, ◌∷◌, ◌++◌, [], length, OnOk, IfOk, IfSome, IfNone, IsOk, Some, false, true, ◌↔◌};
ghost use Rattle.elem_core.specs.declared.item.Item.TheVariants as item;
ghost use Rattle.port_core.specs.Call.{Obeys, Meets, starts, pulls, arrives, cancels};
ghost use Rattle.stream_model.specs.Linear.{passing};
ghost use Rattle.elem_core.specs.declared.why.Decider.TheVariants.{Stop};
ghost use Rattle.stage_core.specs.declared.phase.Phase.TheVariants.{New, Open, Closed};
ghost use Rattle.step_work.specs.declared.ending.StateEnd.TheVariants.{Lasting};
ghost use Rattle.stage_state.specs.Holding.{is_none, HasRoom, gone_on, go_on_acts};
ghost use Rattle.stage_state.specs.States.{port_state, Turned};

use circular_buffer::HeapCircularBuffer;
use elem_core::elem::Elem;
use elem_core::why::{Cause, NoMemory};
use port_core::act::Act;
use port_core::acts::Acts;
use stage_core::phase::Phase;
use std::alloc::Global;
use std::marker::Model;
use step_work::ending::StateEnd;

// Choice: docs/DECISIONS.md#buffer-is-a-machine
/// The logic of a buffer that holds its input back. It asks at its start, and while fewer elements are held than its size;
/// behind the end of its input it gives what is held, and then completes; a failure drops what is held. All its memory is
/// taken when it is made. Rule: Akka Streams 2.6 reference.
#[derive(Drop)]
pub struct BufferLogic {
    node: u32,
    ring: HeapCircularBuffer<Elem>,
    asked: bool,
    over: bool,
    phase: Phase,
}

impl Model for BufferLogic {
    ghost use Rattle.std.specs.Coded.{codes};
    ghost use Rattle.std.specs.Prelude.{Some};
    ghost use Rattle.elem_core.specs.TreeCode.{tree_coded};
    ghost use Rattle.elem_core.specs.declared.why.Decider.TheVariants.{Stop};
    ghost use Rattle.stream_model.specs.Linear.{passing};
    ghost use Rattle.stage_state.specs.States.{Logic};
    ghost use Rattle.stage_state.specs.Buffering.{ending_of};

    ghost Value = { Logic };

    ghost coded = { Prim.hlevel (codes, tree_coded) };

    ghost view = { λ l. record {
      phase = l.phase;
      stage = record { node = l.node; decider = Stop; taken = 0; work = passing };
      pending = l.ring.items;
      asked = l.asked;
      ending = ending_of l.over;
      size = Some l.ring.capacity;
    } };
}

impl BufferLogic {
    /// The logic of node `stage`, a buffer of `size` elements, all of whose memory it takes now.
    pub fn new(alloc: Global, stage: u32, size: u32) -> Result<BufferLogic, NoMemory>
        ensures { IfOk result (λ l. l ≡ record {
          phase = New;
          stage = record { node = stage; decider = Stop; taken = 0; work = passing };
          pending = [];
          asked = false;
          ending = Lasting;
          size = Some size;
        }) }
    {
        let ring = HeapCircularBuffer::with_capacity(alloc, size as usize)?;
        Ok(BufferLogic {
            node: stage,
            ring,
            asked: false,
            over: false,
            phase: Phase::New,
        })
    }

    /// The run begins: the buffer asks.
    pub fn start(&mut self, acts: &mut Acts) -> Result<(), NoMemory>
        requires new { self.old.phase ≡ New }
        requires meets { Meets starts (port_state self.old) }
        requires empty { acts.old.items ≡ [] }
        requires room { 4 ≤ acts.old.room }
        ensures answers { IsOk result }
        ensures ports { OnOk result (Obeys starts (port_state self.old) (port_state self.new) acts.new.items) }
        ensures gives { OnOk result (Turned starts self.old acts.new.items self.new) }
        ensures room { acts.new.room ≡ acts.old.room }
    {
        self.phase = Phase::Open;
        acts.add(Act::Pull(0));
        Ok(())
    }

    /// The output was asked.
    pub fn on_pull(&mut self, port: u8, acts: &mut Acts) -> Result<(), NoMemory>
        requires open { self.old.phase ≡ Open }
        requires port { port ≡ 0 }
        requires meets { Meets (pulls 0) (port_state self.old) }
        requires empty { acts.old.items ≡ [] }
        requires room { 4 ≤ acts.old.room }
        ensures answers { IsOk result }
        ensures ports { OnOk result (Obeys (pulls 0) (port_state self.old) (port_state self.new) acts.new.items) }
        ensures gives { OnOk result (Turned (pulls 0) self.old acts.new.items self.new) }
        ensures room { acts.new.room ≡ acts.old.room }
    {
        let was_full = self.ring.is_full();
        match self.next_held() {
            Some(e) => {
                acts.add(Act::Push(port, e));
                self.go_on(was_full, acts);
            }
            None => self.asked = true,
        }
        Ok(())
    }

    /// The input has ended.
    pub fn on_finish(&mut self, port: u8, acts: &mut Acts) -> Result<(), NoMemory>
        requires open { self.old.phase ≡ Open }
        requires port { port ≡ 0 }
        requires meets { Meets (arrives 0 item.Ended) (port_state self.old) }
        requires empty { acts.old.items ≡ [] }
        requires room { 4 ≤ acts.old.room }
        ensures answers { IsOk result }
        ensures ports { OnOk result (Obeys (arrives 0 item.Ended) (port_state self.old) (port_state self.new) acts.new.items) }
        ensures gives { OnOk result (Turned (arrives 0 item.Ended) self.old acts.new.items self.new) }
        ensures room { acts.new.room ≡ acts.old.room }
    {
        if self.holds_none() {
            self.shut(Act::Complete(port), acts);
        } else {
            self.over = true;
        }
        Ok(())
    }

    /// The input has failed.
    pub fn on_fail(&mut self, port: u8, cause: Cause, acts: &mut Acts) -> Result<(), NoMemory>
        requires open { self.old.phase ≡ Open }
        requires port { port ≡ 0 }
        requires meets { Meets (arrives 0 (item.Failed cause)) (port_state self.old) }
        requires empty { acts.old.items ≡ [] }
        requires room { 4 ≤ acts.old.room }
        ensures answers { IsOk result }
        ensures ports { OnOk result (Obeys (arrives 0 (item.Failed cause)) (port_state self.old) (port_state self.new) acts.new.items) }
        ensures gives { OnOk result (Turned (arrives 0 (item.Failed cause)) self.old acts.new.items self.new) }
        ensures room { acts.new.room ≡ acts.old.room }
    {
        self.ring.clear();
        self.shut(Act::FailOut(port, cause), acts);
        Ok(())
    }

    /// The output was cancelled.
    pub fn on_cancel(&mut self, port: u8, acts: &mut Acts) -> Result<(), NoMemory>
        requires open { self.old.phase ≡ Open }
        requires port { port ≡ 0 }
        requires meets { Meets (cancels 0) (port_state self.old) }
        requires empty { acts.old.items ≡ [] }
        requires room { 4 ≤ acts.old.room }
        ensures answers { IsOk result }
        ensures ports { OnOk result (Obeys (cancels 0) (port_state self.old) (port_state self.new) acts.new.items) }
        ensures gives { OnOk result (Turned (cancels 0) self.old acts.new.items self.new) }
        ensures room { acts.new.room ≡ acts.old.room }
    {
        if self.over {
            self.phase = Phase::Closed;
        } else {
            self.shut(Act::Cancel(port), acts);
        }
        Ok(())
    }

    /// An element came. It takes no memory.
    pub fn on_push(&mut self, port: u8, e: Elem, acts: &mut Acts) -> Result<(), NoMemory>
        requires open { self.old.phase ≡ Open }
        requires port { port ≡ 0 }
        requires meets { Meets (arrives 0 (item.Elem e)) (port_state self.old) }
        requires empty { acts.old.items ≡ [] }
        requires room { 4 ≤ acts.old.room }
        ensures answers { IsOk result }
        ensures ports { OnOk result (Obeys (arrives 0 (item.Elem e)) (port_state self.old) (port_state self.new) acts.new.items) }
        ensures gives { OnOk result (Turned (arrives 0 (item.Elem e)) self.old acts.new.items self.new) }
        ensures room { acts.new.room ≡ acts.old.room }
    {
        if self.asked {
            self.asked = false;
            acts.add(Act::Push(port, e));
            acts.add(Act::Pull(port));
        } else {
            self.hold(e);
            if !self.ring.is_full() {
                acts.add(Act::Pull(port));
            }
        }
        Ok(())
    }

    // An element went out: behind the end of the input the buffer ends with the last; else it asks, where it had no room.
    fn go_on(&mut self, was_full: bool, acts: &mut Acts)
        requires room { length acts.old.items < acts.old.room }
        ensures stage { self.new ≡ gone_on self.old }
        ensures acts { acts.new ≡ record acts.old { items = acts.old.items ++ go_on_acts self.old was_full } }
    {
        if !self.over {
            if was_full {
                acts.add(Act::Pull(0));
            }
        } else if self.holds_none() {
            self.shut(Act::Complete(0), acts);
        }
    }

    fn holds_none(&self) -> bool
        ensures { result ≡ is_none self.now.pending }
    {
        self.ring.is_empty()
    }

    // Takes out the first of what is held.
    fn next_held(&mut self) -> Option<Elem>
        ensures first { IfSome result (λ e. self.old ≡ record self.new { pending = e ∷ self.new.pending }) }
        ensures none { IfNone result ((self.old.pending ≡ []) × (self.new ≡ self.old)) }
    {
        self.ring.pop_front()
    }

    // Holds one more element, for which there is room.
    fn hold(&mut self, e: Elem)
        requires { HasRoom self.old }
        ensures { self.new ≡ record self.old { pending = self.old.pending ++ e ∷ [] } }
    {
        match self.ring.try_push_back(e) {
            Ok(()) => {}
            Err(_) => unreachable!(),
        }
    }

    // The output is closed.
    fn shut(&mut self, last: Act, acts: &mut Acts)
        requires room { length acts.old.items < acts.old.room }
        ensures stage { self.new ≡ record self.old { phase = Closed } }
        ensures acts { acts.new ≡ record acts.old { items = acts.old.items ++ last ∷ [] } }
    {
        self.phase = Phase::Closed;
        acts.add(last);
    }
}
