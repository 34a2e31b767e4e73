ghost use Rattle.std.specs.Prelude.{ℕ, ◌≡◌, ◌≢◌, ◌≤◌, ◌<◌, ◌+◌, ◌^◌, ◌∷◌, [], ◌++◌, OnOk, OnErr, IsOk, IfOk, IfSome, IfNone, Some, None, true, false, length, nat_lt, is_some};
ghost use Rattle.elem_core.specs.declared.item.Item.TheVariants as item;
ghost use Rattle.port_core.specs.Picks.{next_move, may_end, logged};
ghost use Rattle.port_core.specs.Call.{Obeys, Meets, starts, pulls, arrives, cancels};
ghost use Rattle.stream_model.specs.Outlook.{unended};
ghost use Rattle.stream_model.specs.Picks.{nothing_held};
ghost use Rattle.stream_model.specs.declared.kind.Policy.{Policy};
ghost use Rattle.stream_model.specs.declared.kind.Policy.TheVariants.{Backpressure};
ghost use Rattle.stage_core.specs.declared.phase.Phase.TheVariants.{New, Open, Closed};
ghost use Rattle.stage_dropping.specs.Droppings.{Begins, NamesMoves, end_of, may_take, may_give, lost, wants_input, pulled_on, asks_by, port_state, Turned, MayEnter, Answered, TakesIn, Giving, Serving, Settling, DropNoted, IsOver, Took, cancel_by, stuck_now};

use circular_buffer::HeapCircularBuffer;
use elem_core::count::one_more;
use elem_core::elem::Elem;
use elem_core::why::{Cause, NoMemory, Why};
use port_core::act::Act;
use port_core::acts::Acts;
use port_core::pick_log::{Next, PickLog};
use stage_core::phase::Phase;
use std::alloc::Global;
use std::marker::Model;
use stream_model::kind::Policy;

/// How the input stands behind what waits.
#[derive(Clone, Copy, Drop)]
pub enum After {
    /// More may come.
    Going,
    /// It has ended.
    Ended,
    /// It has failed.
    Failed(Cause),
}

/// Whether a buffer's output is to be closed, and how.
#[derive(Clone, Copy, Drop)]
enum Over {
    GoesOn,
    Ends,
    Fails(Cause),
}

// Choice: docs/DECISIONS.md#dropping-buffer-asks-as-ever
/// The logic of a buffer that does not hold its input back: it asks at its start and again behind each element that it took in; an
/// element that finds no room drops others or is dropped, or fails the buffer. Behind the end of its input it gives what is held, and
/// then completes; a failure drops what is held. Where it follows moves, what came waits for its move, and an end behind it too; and it
/// stops where the next move cannot be made. Its elements' places are taken when it is made. Rule: Akka Streams 2.6 reference; moves: own.
#[derive(Drop)]
pub struct Dropping {
    node: u32,
    policy: Policy,
    ring: HeapCircularBuffer<Elem>,
    log: PickLog,
    came: u64,
    asked: bool,
    pulled: bool,
    waiting: Option<Elem>,
    after: After,
    phase: Phase,
}

impl Model for Dropping {
    ghost use Rattle.std.specs.Coded.{codes};
    ghost use Rattle.elem_core.specs.TreeCode.{tree_coded};
    ghost use Rattle.stage_dropping.specs.Droppings.{Dropping, end_of};

    ghost Value = { Dropping };

    ghost coded = { Prim.hlevel (codes, tree_coded) };

    ghost view = { λ l. record {
      phase = l.phase;
      node = l.node;
      policy = l.policy;
      size = l.ring.capacity;
      came = l.came;
      held = l.ring.items;
      asked = l.asked;
      pulled = l.pulled;
      waiting = l.waiting;
      after = end_of l.after;
      log = l.log;
    } };
}

impl Dropping {
    /// The logic of node `stage`, a buffer of `size` elements, all of whose places it takes now.
    pub fn new(alloc: Global, stage: u32, size: u32, policy: Policy) -> Result<Dropping, NoMemory>
        ensures begins { IfOk result (Begins stage size policy) }
        ensures free { IfOk result (λ l. l.log.left ≡ None) }
    {
        let ring = HeapCircularBuffer::with_capacity(alloc, size as usize)?;
        Ok(Dropping {
            node: stage,
            policy,
            ring,
            log: PickLog::new(alloc),
            came: 0,
            asked: false,
            pulled: false,
            waiting: None,
            after: After::Going,
            phase: Phase::New,
        })
    }

    /// From now on a new buffer follows these moves, each of which is 0 or 1. It takes no memory.
    pub fn follow(&mut self, moves: Vec<u32>)
        requires new { (node : ℕ) × (n : ℕ) × (p : Policy) × Begins node n p self.old }
        requires named { NamesMoves (Some moves.items) }
        requires few { length moves.items < 2 ^ 32 }
        ensures begins { (node : ℕ) → (n : ℕ) → (p : Policy) → Begins node n p self.old → Begins node n p self.new }
        ensures plan { self.new.log.left ≡ Some moves.items }
    {
        self.log = PickLog::follow(moves);
    }

    /// The run begins: the buffer asks.
    pub fn start(&mut self, acts: &mut Acts) -> Result<(), NoMemory>
        requires new { self.old.phase ≡ New }
        requires meets { Meets starts (port_state self.old) }
        requires empty { acts.old.items ≡ [] }
        requires room { 4 ≤ acts.old.room }
        ensures answers { IsOk result }
        ensures ports { OnOk result (Obeys starts (port_state self.old) (port_state self.new) acts.new.items) }
        ensures gives { OnOk result (Turned starts self.old acts.new.items self.new) }
        ensures room { acts.new.room ≡ acts.old.room }
    {
        self.open();
        self.settle(acts);
        Ok(())
    }

    /// The output was asked: the oldest element that is held goes out, where that is to be the next move. It takes memory for the moves
    /// alone; where that is refused, all is as before.
    pub fn on_pull(&mut self, port: u8, acts: &mut Acts) -> Result<(), NoMemory>
        requires open { self.old.phase ≡ Open }
        requires port { port ≡ 0 }
        requires meets { Meets (pulls 0) (port_state self.old) }
        requires empty { acts.old.items ≡ [] }
        requires room { 4 ≤ acts.old.room }
        ensures ports { OnOk result (Obeys (pulls 0) (port_state self.old) (port_state self.new) acts.new.items) }
        ensures gives { OnOk result (Turned (pulls 0) self.old acts.new.items self.new) }
        ensures room { acts.new.room ≡ acts.old.room }
        ensures refused { OnErr result ((self.new ≡ self.old) × (acts.new ≡ acts.old)) }
    {
        let _port = port;
        if self.log.is_stuck() {
            return Ok(());
        }
        self.make_room()?;
        self.want();
        self.answer(acts);
        Ok(())
    }

    /// An element came: it goes out where the output is asked, and else is held by the policy; where moves are followed it waits for its
    /// own. It takes memory for the moves alone; where that is refused, all is as before but for the element.
    pub fn on_push(&mut self, port: u8, e: Elem, acts: &mut Acts) -> Result<(), NoMemory>
        requires open { self.old.phase ≡ Open }
        requires port { port ≡ 0 }
        requires meets { Meets (arrives 0 (item.Elem e)) (port_state self.old) }
        requires empty { acts.old.items ≡ [] }
        requires room { 4 ≤ acts.old.room }
        ensures ports { OnOk result (Obeys (arrives 0 (item.Elem e)) (port_state self.old) (port_state self.new) acts.new.items) }
        ensures gives { OnOk result (Turned (arrives 0 (item.Elem e)) self.old acts.new.items self.new) }
        ensures room { acts.new.room ≡ acts.old.room }
        ensures refused { OnErr result ((self.new ≡ self.old) × (acts.new ≡ acts.old)) }
    {
        let _port = port;
        if self.log.is_stuck() {
            return Ok(());
        }
        self.may_count()?;
        self.make_room()?;
        self.enter(e, acts);
        Ok(())
    }

    /// The input has ended: the buffer completes once nothing waits and nothing is held.
    pub fn on_finish(&mut self, port: u8, acts: &mut Acts) -> Result<(), NoMemory>
        requires open { self.old.phase ≡ Open }
        requires port { port ≡ 0 }
        requires meets { Meets (arrives 0 item.Ended) (port_state self.old) }
        requires empty { acts.old.items ≡ [] }
        requires room { 4 ≤ acts.old.room }
        ensures answers { IsOk result }
        ensures ports { OnOk result (Obeys (arrives 0 item.Ended) (port_state self.old) (port_state self.new) acts.new.items) }
        ensures gives { OnOk result (Turned (arrives 0 item.Ended) self.old acts.new.items self.new) }
        ensures room { acts.new.room ≡ acts.old.room }
    {
        let _port = port;
        self.end(After::Ended, acts);
        Ok(())
    }

    /// The input has failed: what is held is dropped, and the output fails, once nothing waits.
    pub fn on_fail(&mut self, port: u8, cause: Cause, acts: &mut Acts) -> Result<(), NoMemory>
        requires open { self.old.phase ≡ Open }
        requires port { port ≡ 0 }
        requires meets { Meets (arrives 0 (item.Failed cause)) (port_state self.old) }
        requires empty { acts.old.items ≡ [] }
        requires room { 4 ≤ acts.old.room }
        ensures answers { IsOk result }
        ensures ports { OnOk result (Obeys (arrives 0 (item.Failed cause)) (port_state self.old) (port_state self.new) acts.new.items) }
        ensures gives { OnOk result (Turned (arrives 0 (item.Failed cause)) self.old acts.new.items self.new) }
        ensures room { acts.new.room ≡ acts.old.room }
    {
        let _port = port;
        self.end(After::Failed(cause), acts);
        Ok(())
    }

    /// The output was cancelled.
    pub fn on_cancel(&mut self, port: u8, acts: &mut Acts) -> Result<(), NoMemory>
        requires open { self.old.phase ≡ Open }
        requires port { port ≡ 0 }
        requires meets { Meets (cancels 0) (port_state self.old) }
        requires empty { acts.old.items ≡ [] }
        requires room { 4 ≤ acts.old.room }
        ensures answers { IsOk result }
        ensures ports { OnOk result (Obeys (cancels 0) (port_state self.old) (port_state self.new) acts.new.items) }
        ensures gives { OnOk result (Turned (cancels 0) self.old acts.new.items self.new) }
        ensures room { acts.new.room ≡ acts.old.room }
    {
        let _port = port;
        if !self.log.is_stuck() {
            self.leave(acts);
        }
        Ok(())
    }

    /// The run is over: the log of its moves. It takes no memory.
    pub fn close(self) -> PickLog
        ensures { result ≡ self.log }
    {
        self.log
    }

    fn open(&mut self)
        ensures { self.new ≡ record self.old { phase = Open } }
    {
        self.phase = Phase::Open;
    }

    // Room for the moves, before anything else.
    fn make_room(&mut self) -> Result<(), NoMemory>
        ensures kept { self.new ≡ record self.old { log = record self.old.log { room = self.new.log.room } } }
        ensures room { OnOk result (2 ≤ self.new.log.room) }
        ensures err { OnErr result (self.new ≡ self.old) }
    {
        self.log.reserve()
    }

    // Whether one element more may be counted.
    fn may_count(&self) -> Result<(), NoMemory>
        ensures fits { OnOk result (self.now.came + 1 < 2 ^ 64) }
    {
        let _more = one_more(self.came)?;
        Ok(())
    }

    fn want(&mut self)
        ensures { self.new ≡ record self.old { asked = true } }
    {
        self.asked = true;
    }

    fn arrived(&mut self)
        ensures { self.new ≡ record self.old { pulled = false } }
    {
        self.pulled = false;
    }

    // Where nothing is held and nothing is followed, an ask stays open; else what is held may go out, and the input may be asked.
    fn answer(&mut self, acts: &mut Acts)
        requires open { self.old.phase ≡ Open }
        requires idle { self.old.held ≡ [] → self.old.log.left ≡ None → (self.old.waiting ≡ None) × ((self.old.after ≡ unended) × (self.old.pulled ≡ true)) }
        requires drops { (self.old.policy ≢ Backpressure) × (0 < self.old.size) }
        requires few { length self.old.held ≤ self.old.size }
        requires fits { is_some self.old.waiting ≡ true → self.old.came + 1 < 2 ^ 64 }
        requires named { NamesMoves self.old.log.left }
        requires noted { 2 ≤ self.old.log.room }
        requires empty { acts.old.items ≡ [] }
        requires room { 4 ≤ acts.old.room }
        ensures answered { Answered self.old self.new acts.new.items }
        ensures room { acts.new.room ≡ acts.old.room }
    {
        if self.is_idle() {
            return;
        }
        self.serve(acts);
        self.settle(acts);
    }

    // It holds nothing, and makes its own choices.
    #[tactic(auto, using(crate::proofs::DropEnters::free_left, crate::proofs::DropEnters::none_held))]
    fn is_idle(&self) -> bool
        ensures { result ≡ true → (self.now.held ≡ []) × (self.now.log.left ≡ None) }
    {
        self.holds_none() && matches!(self.log.next(), Next::Free)
    }

    // An element came to one that asked: it goes out at once where the output is asked and nothing is followed, and else is let in.
    fn enter(&mut self, e: Elem, acts: &mut Acts)
        requires enters { MayEnter self.old }
        requires going { self.old.after ≡ unended }
        requires pulled { self.old.pulled ≡ true }
        requires noted { 2 ≤ self.old.log.room }
        requires empty { acts.old.items ≡ [] }
        requires room { 4 ≤ acts.old.room }
        ensures answered { Answered (record self.old { waiting = Some e; pulled = false }) self.new acts.new.items }
        ensures room { acts.new.room ≡ acts.old.room }
    {
        if self.passes() {
            self.pass(e, acts);
        } else {
            self.let_in(e, acts);
        }
    }

    // Its output is asked, and it makes its own choices.
    #[tactic(auto, using(crate::proofs::DropEnters::free_left))]
    fn passes(&self) -> bool
        ensures { result ≡ true → (self.now.asked ≡ true) × (self.now.log.left ≡ None) }
    {
        self.asked && matches!(self.log.next(), Next::Free)
    }

    // An element goes through: it is taken in and given, which both are noted, and the input is asked again.
    fn pass(&mut self, e: Elem, acts: &mut Acts)
        requires enters { MayEnter self.old }
        requires asked { self.old.asked ≡ true }
        requires free { self.old.log.left ≡ None }
        requires going { self.old.after ≡ unended }
        requires pulled { self.old.pulled ≡ true }
        requires noted { 2 ≤ self.old.log.room }
        requires empty { acts.old.items ≡ [] }
        requires room { 4 ≤ acts.old.room }
        ensures answered { Answered (record self.old { waiting = Some e; pulled = false }) self.new acts.new.items }
        ensures room { acts.new.room ≡ acts.old.room }
    {
        self.count();
        self.log.note(1);
        self.asked = false;
        acts.add(Act::Push(0, e));
        acts.add(Act::Pull(0));
    }

    // An element is taken in where that may be, or waits for its move; and the input may be asked again.
    fn let_in(&mut self, e: Elem, acts: &mut Acts)
        requires enters { MayEnter self.old }
        requires noted { 2 ≤ self.old.log.room }
        requires empty { acts.old.items ≡ [] }
        requires room { 4 ≤ acts.old.room }
        ensures answered { Answered (record self.old { waiting = Some e; pulled = false }) self.new acts.new.items }
        ensures room { acts.new.room ≡ acts.old.room }
    {
        self.arrived();
        self.take_up(e, acts);
        self.settle(acts);
    }

    fn take_up(&mut self, e: Elem, acts: &mut Acts)
        requires enters { MayEnter self.old }
        requires noted { 2 ≤ self.old.log.room }
        requires empty { acts.old.items ≡ [] }
        requires room { 4 ≤ acts.old.room }
        ensures served { Serving (record self.old { waiting = Some e }) self.new acts.new.items }
        ensures room { acts.new.room ≡ acts.old.room }
    {
        if self.may_take() {
            self.take_one(e, acts);
        } else {
            self.wait(e, acts);
        }
    }

    // An element is taken in, and the first that is held then is given.
    fn take_one(&mut self, e: Elem, acts: &mut Acts)
        requires enters { MayEnter self.old }
        requires next { may_take (next_move self.old.log.left) ≡ true }
        requires noted { 2 ≤ self.old.log.room }
        requires empty { acts.old.items ≡ [] }
        requires room { 4 ≤ acts.old.room }
        ensures served { Serving (record self.old { waiting = Some e }) self.new acts.new.items }
        ensures room { acts.new.room ≡ acts.old.room }
    {
        self.take_noted(e, acts);
        self.give(acts);
    }

    // An element waits for its move.
    fn wait(&mut self, e: Elem, acts: &mut Acts)
        requires enters { MayEnter self.old }
        requires next { may_take (next_move self.old.log.left) ≡ false }
        requires noted { 2 ≤ self.old.log.room }
        requires empty { acts.old.items ≡ [] }
        requires room { 4 ≤ acts.old.room }
        ensures served { Serving (record self.old { waiting = Some e }) self.new acts.new.items }
        ensures room { acts.new.room ≡ acts.old.room }
    {
        self.store(e);
        self.give_then_take(acts);
    }

    fn store(&mut self, e: Elem)
        ensures { self.new ≡ record self.old { waiting = Some e } }
    {
        self.waiting = Some(e);
    }

    fn leave(&mut self, acts: &mut Acts)
        requires empty { acts.old.items ≡ [] }
        requires room { 4 ≤ acts.old.room }
        ensures state { self.new ≡ record self.old { phase = Closed } }
        ensures acts { acts.new.items ≡ cancel_by self.old.after }
        ensures room { acts.new.room ≡ acts.old.room }
    {
        self.phase = Phase::Closed;
        self.cancel(acts);
    }

    // Cancels the input, where it has not ended.
    fn cancel(&self, acts: &mut Acts)
        requires room { length acts.old.items < acts.old.room }
        ensures acts { acts.new.items ≡ acts.old.items ++ cancel_by self.now.after }
        ensures room { acts.new.room ≡ acts.old.room }
    {
        if matches!(self.after, After::Going) {
            acts.add(Act::Cancel(0));
        }
    }

    // The input is over.
    fn end(&mut self, after: After, acts: &mut Acts)
        requires open { self.old.phase ≡ Open }
        requires empty { acts.old.items ≡ [] }
        requires room { 4 ≤ acts.old.room }
        ensures stuck { self.old.log.stuck ≡ true → (self.new ≡ self.old) × (acts.new ≡ acts.old) }
        ensures settles { self.old.log.stuck ≡ false → Settling (record self.old { after = end_of after }) self.new [] acts.new.items }
        ensures room { acts.new.room ≡ acts.old.room }
    {
        if !self.log.is_stuck() {
            self.after = after;
            self.settle(acts);
        }
    }

    // What waits is taken in and what is held is given, in the order of the moves.
    fn serve(&mut self, acts: &mut Acts)
        requires drops { (self.old.policy ≢ Backpressure) × (0 < self.old.size) }
        requires few { length self.old.held ≤ self.old.size }
        requires fits { is_some self.old.waiting ≡ true → self.old.came + 1 < 2 ^ 64 }
        requires named { NamesMoves self.old.log.left }
        requires noted { 2 ≤ self.old.log.room }
        requires empty { acts.old.items ≡ [] }
        requires room { 4 ≤ acts.old.room }
        ensures served { Serving self.old self.new acts.new.items }
        ensures room { acts.new.room ≡ acts.old.room }
    {
        if self.takes() {
            self.take_then_give(acts);
        } else {
            self.give_then_take(acts);
        }
    }

    // THE DECIDING PLACES: whether an element that waits may be taken in, and one that is held given.
    fn may_take(&self) -> bool
        ensures { result ≡ may_take (next_move self.now.log.left) }
    {
        matches!(self.log.next(), Next::Free | Next::Move(0))
    }

    fn may_give(&self) -> bool
        ensures { result ≡ may_give (next_move self.now.log.left) }
    {
        match self.log.next() {
            Next::Free => true,
            Next::Move(m) => m != 0,
            Next::UsedUp => false,
        }
    }

    // Something waits that may be taken in.
    fn takes(&self) -> bool
        ensures yes { result ≡ true → (self.now.phase ≡ Open) × ((may_take (next_move self.now.log.left) ≡ true) × (is_some self.now.waiting ≡ true)) }
        ensures no { result ≡ false → self.now.phase ≡ Open → may_take (next_move self.now.log.left) ≡ true → self.now.waiting ≡ None }
    {
        self.waiting.is_some() && self.phase == Phase::Open && self.may_take()
    }

    // Its output is asked, and one that is held may be given.
    fn gives(&self) -> bool
        ensures yes { result ≡ true → (self.now.phase ≡ Open) × ((self.now.asked ≡ true) × (may_give (next_move self.now.log.left) ≡ true)) }
        ensures no { result ≡ false → self.now.phase ≡ Open → self.now.asked ≡ true → may_give (next_move self.now.log.left) ≡ true → ⊥ }
    {
        self.asked && self.phase == Phase::Open && self.may_give()
    }

    fn take_then_give(&mut self, acts: &mut Acts)
        requires open { (self.old.phase ≡ Open) × ((may_take (next_move self.old.log.left) ≡ true) × (is_some self.old.waiting ≡ true)) }
        requires drops { (self.old.policy ≢ Backpressure) × (0 < self.old.size) }
        requires few { length self.old.held ≤ self.old.size }
        requires fits { is_some self.old.waiting ≡ true → self.old.came + 1 < 2 ^ 64 }
        requires named { NamesMoves self.old.log.left }
        requires noted { 2 ≤ self.old.log.room }
        requires empty { acts.old.items ≡ [] }
        requires room { 4 ≤ acts.old.room }
        ensures served { Serving self.old self.new acts.new.items }
        ensures room { acts.new.room ≡ acts.old.room }
    {
        self.take_waiting(acts);
        self.give(acts);
    }

    fn give_then_take(&mut self, acts: &mut Acts)
        requires none { self.old.phase ≡ Open → may_take (next_move self.old.log.left) ≡ true → self.old.waiting ≡ None }
        requires drops { (self.old.policy ≢ Backpressure) × (0 < self.old.size) }
        requires few { length self.old.held ≤ self.old.size }
        requires fits { is_some self.old.waiting ≡ true → self.old.came + 1 < 2 ^ 64 }
        requires named { NamesMoves self.old.log.left }
        requires noted { 2 ≤ self.old.log.room }
        requires empty { acts.old.items ≡ [] }
        requires room { 4 ≤ acts.old.room }
        ensures served { Serving self.old self.new acts.new.items }
        ensures room { acts.new.room ≡ acts.old.room }
    {
        self.give(acts);
        self.take_waiting(acts);
    }

    // An element that waits is taken in by the policy, where that may be.
    fn take_waiting(&mut self, acts: &mut Acts)
        requires drops { (self.old.policy ≢ Backpressure) × (0 < self.old.size) }
        requires few { length self.old.held ≤ self.old.size }
        requires fits { is_some self.old.waiting ≡ true → self.old.came + 1 < 2 ^ 64 }
        requires noted { 0 < self.old.log.room }
        requires room { length acts.old.items + 2 ≤ acts.old.room }
        ensures taking { TakesIn self.old self.new acts.old.items acts.new.items }
        ensures room { acts.new.room ≡ acts.old.room }
    {
        if self.takes() {
            match self.waiting.take() {
                Some(e) => self.take_noted(e, acts),
                None => unreachable!(),
            }
        }
    }

    // An element is taken in, and that is noted.
    fn take_noted(&mut self, e: Elem, acts: &mut Acts)
        requires drops { (self.old.policy ≢ Backpressure) × (0 < self.old.size) }
        requires few { length self.old.held ≤ self.old.size }
        requires fits { self.old.came + 1 < 2 ^ 64 }
        requires noted { 0 < self.old.log.room }
        requires next { may_take (next_move self.old.log.left) ≡ true }
        requires room { length acts.old.items + 2 ≤ acts.old.room }
        ensures took { DropNoted e self.old self.new acts.old.items acts.new.items }
        ensures room { acts.new.room ≡ acts.old.room }
    {
        self.count();
        if !self.take_in(e) {
            acts.add(Act::FailOut(
                0,
                Cause {
                    stage: self.node,
                    nth: self.came,
                    why: Why::BufferOverflow,
                },
            ));
            self.cancel(acts);
            self.phase = Phase::Closed;
        }
    }

    // One more was taken in.
    fn count(&mut self)
        requires fits { self.old.came + 1 < 2 ^ 64 }
        requires noted { 0 < self.old.log.room }
        requires next { may_take (next_move self.old.log.left) ≡ true }
        ensures { self.new ≡ record self.old { came = self.old.came + 1; log = logged 0 self.old.log } }
    {
        self.came += 1;
        self.log.note(0);
    }

    // The first of what is held is given, where that may be and it is asked.
    fn give(&mut self, acts: &mut Acts)
        requires named { NamesMoves self.old.log.left }
        requires noted { 0 < self.old.log.room }
        requires room { length acts.old.items < acts.old.room }
        ensures giving { Giving self.old self.new acts.old.items acts.new.items }
        ensures room { acts.new.room ≡ acts.old.room }
    {
        if self.gives() {
            if let Some(e) = self.next_held() {
                self.log.note(1);
                self.asked = false;
                acts.add(Act::Push(0, e));
            }
        }
    }

    // The end of a call: what is over closes the output; else the input is asked, and where the next move cannot be made it stops.
    fn settle(&mut self, acts: &mut Acts)
        requires room { length acts.old.items < acts.old.room }
        ensures settling { Settling self.old self.new acts.old.items acts.new.items }
        ensures room { acts.new.room ≡ acts.old.room }
    {
        if !self.is_open() {
            return;
        }
        match self.over() {
            Over::Fails(cause) => {
                acts.add(Act::FailOut(0, cause));
                self.phase = Phase::Closed;
            }
            Over::Ends => {
                acts.add(Act::Complete(0));
                self.phase = Phase::Closed;
            }
            Over::GoesOn => self.go_on(acts),
        }
    }

    fn is_open(&self) -> bool
        ensures yes { result ≡ true → self.now.phase ≡ Open }
        ensures no { result ≡ false → self.now.phase ≡ Open → ⊥ }
    {
        self.phase == Phase::Open
    }

    // Whether its output is to be closed.
    fn over(&self) -> Over
        ensures { IsOver self.now result }
    {
        if self.waiting.is_some() {
            return Over::GoesOn;
        }
        match self.after {
            After::Failed(cause) => Over::Fails(cause),
            After::Ended if self.holds_none() && self.may_end() => Over::Ends,
            _ => Over::GoesOn,
        }
    }

    // The input is asked, where nothing waits; and where the next move cannot be made it stops.
    fn go_on(&mut self, acts: &mut Acts)
        requires room { length acts.old.items < acts.old.room }
        ensures acts { acts.new.items ≡ acts.old.items ++ asks_by (wants_input self.old.waiting self.old.after self.old.pulled) }
        ensures halts { lost (next_move self.old.log.left) self.old.waiting self.old.after self.old.asked self.old.held ≡ true
            → self.new ≡ stuck_now (pulled_on (wants_input self.old.waiting self.old.after self.old.pulled) self.old) }
        ensures goes { lost (next_move self.old.log.left) self.old.waiting self.old.after self.old.asked self.old.held ≡ false
            → self.new ≡ pulled_on (wants_input self.old.waiting self.old.after self.old.pulled) self.old }
        ensures room { acts.new.room ≡ acts.old.room }
    {
        if self.wants() {
            self.pulled = true;
            acts.add(Act::Pull(0));
        }
        if self.is_lost() {
            self.log.misfit();
        }
    }

    fn wants(&self) -> bool
        ensures { result ≡ wants_input self.now.waiting self.now.after self.now.pulled }
    {
        self.waiting.is_none() && matches!(self.after, After::Going) && !self.pulled
    }

    fn is_lost(&self) -> bool
        ensures { result ≡ lost (next_move self.now.log.left) self.now.waiting self.now.after self.now.asked self.now.held }
    {
        match self.log.next() {
            Next::Move(0) => self.waiting.is_none() && matches!(self.after, After::Ended),
            Next::Move(_) => self.asked && self.holds_none(),
            _ => false,
        }
    }

    fn may_end(&self) -> bool
        ensures { result ≡ may_end (next_move self.now.log.left) }
    {
        !matches!(self.log.next(), Next::Move(_))
    }

    // Holds one more element by the policy, or tells that it overflows.
    fn take_in(&mut self, e: Elem) -> bool
        requires drops { (self.old.policy ≢ Backpressure) × (0 < self.old.size) }
        requires few { length self.old.held ≤ self.old.size }
        ensures { Took result self.old e self.new }
    {
        if !self.has_room() {
            match self.policy {
                Policy::Backpressure => unreachable!(),
                Policy::DropHead => {
                    self.next_held();
                }
                Policy::DropTail => {
                    self.ring.pop_back();
                }
                Policy::DropBuffer => self.ring.clear(),
                Policy::DropNew => return true,
                Policy::Fail => return false,
            }
        }
        self.hold(e);
        true
    }

    fn has_room(&self) -> bool
        ensures { result ≡ nat_lt (length self.now.held) self.now.size }
    {
        self.ring.len() < self.ring.capacity()
    }

    fn holds_none(&self) -> bool
        ensures { result ≡ nothing_held self.now.held }
    {
        self.ring.is_empty()
    }

    // Takes out the first of what is held.
    fn next_held(&mut self) -> Option<Elem>
        ensures first { IfSome result (λ e. self.old ≡ record self.new { held = e ∷ self.new.held }) }
        ensures none { IfNone result ((self.old.held ≡ []) × (self.new ≡ self.old)) }
    {
        self.ring.pop_front()
    }

    // Holds one more element, for which there is room.
    fn hold(&mut self, e: Elem)
        requires { length self.old.held < self.old.size }
        ensures { self.new ≡ record self.old { held = self.old.held ++ e ∷ [] } }
    {
        match self.ring.try_push_back(e) {
            Ok(()) => {}
            Err(_) => unreachable!(),
        }
    }
}
