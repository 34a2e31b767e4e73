ghost use Rattle.std.specs.Prelude.{◌≡◌, ◌≢◌, ◌≤◌, ◌<◌, ◌^◌, ◌∷◌, ◌++◌, ◌+◌, ◌-◌, ℕ, Bool, List, [], length, replicate, vec_len, OnOk, OnErr, IsOk, IfOk, IfSome, IfNone, slice_get, slice_set, slice_index_or, Some, None, true, false, if◌then◌else◌};
ghost use Rattle.std.specs.VecDeque.{deque_capacity};
ghost use Rattle.elem_core.specs.declared.item.Item.TheVariants as item;
ghost use Rattle.port_core.specs.Picks.{MayNote, may_end, next_move, logged};
ghost use Rattle.port_core.specs.declared.pick_log.Next.TheVariants.{Free, Move};
ghost use Rattle.port_core.specs.declared.act.Act.TheVariants as act;
ghost use Rattle.port_core.specs.Call.{Obeys, Meets, starts, pulls, arrives, cancels};
ghost use Rattle.stream_model.specs.declared.kind.TheConstants.{MAX_FAN};
ghost use Rattle.stage_core.specs.Seats.{room_for};
ghost use Rattle.stage_core.specs.declared.outs.OutputState.TheVariants.{Quiet, Asks, Gone};
ghost use Rattle.stage_core.specs.OpenOuts.{at_open};
ghost use Rattle.stage_out.specs.Balancings.{port_state, Turned, FirstServed, LastInLine, OthersStay, Begins, NamesOutputs, MayDeal, MayServe, Does, Settles, Deals, ServesWaiting, Ended, Lost, asks_input, drops_next, choice_of, queue_then, closed, stuck_now, emptied, lined, input_idle, ended_now, asking, given_out, passed_over, filled, others, without};

use elem_core::elem::Elem;
use elem_core::why::{Cause, NoMemory};
use port_core::act::Act;
use port_core::acts::Acts;
use port_core::pick_log::{Next, PickLog};
use stage_core::outs::{OutputState, complete_open, fail_open, quiet_outs};
use std::alloc::Global;
use std::collections::VecDeque;
use std::marker::Model;

/// What becomes of an element.
#[derive(Clone, Copy)]
pub enum Choice {
    /// It goes to this output.
    Sends(u8),
    /// It is dropped, since this output, for which it was, is gone.
    Drops(u8),
    /// It waits.
    Stays,
}

// Choice: docs/DECISIONS.md#outputs-that-ask
// Choice: docs/DECISIONS.md#balance-drops-for-outputs-that-are-gone
/// The logic of a balance. It asks its input when an output asks, and gives each element to the output that asked first; what
/// finds no output that asks waits, and an end waits for it. It notes the output of each element that it gives. One that follows moves
/// gives each element to the output that the next one names, drops it where that output is gone, and stops where the input ended before
/// its moves did. Rule: Akka Streams 2.6 reference; first asked, first served, and moves: own.
#[derive(Drop)]
pub struct Balancing {
    log: PickLog,
    live: bool,
    outs: Vec<OutputState>,
    // The outputs that ask, first asked first, with room for each.
    queue: VecDeque<u8>,
    open_outs: u8,
    // An element that came while no output asked, or which waits for the output of its move.
    waiting: Option<Elem>,
    over: bool,
    // The input was asked, and nothing came since.
    pulled: bool,
}

impl Model for Balancing {
    ghost use Rattle.std.specs.Prelude.{vec_items};
    ghost use Rattle.std.specs.VecDeque.{deque_capacity};
    ghost use Rattle.std.specs.Coded.{codes};
    ghost use Rattle.elem_core.specs.TreeCode.{tree_coded};
    ghost use Rattle.stage_out.specs.Balancings.{Balancing};

    ghost Value = { Balancing };

    ghost coded = { Prim.hlevel (codes, tree_coded) };

    ghost view = { λ l. record {
      log = l.log;
      core = record {
        live = l.live;
        outs = vec_items l.outs;
        queue = l.queue.items;
        room = deque_capacity l.queue;
        open_outs = l.open_outs;
        waiting = l.waiting;
        over = l.over;
        pulled = l.pulled;
      };
    } };
}

impl Balancing {
    /// A balance of 2 to `MAX_FAN` outputs. It takes memory for a mark and a place in the queue of each.
    pub fn new(alloc: Global, outputs: u32) -> Result<Balancing, NoMemory>
        requires fan { (2 ≤ outputs) × (outputs ≤ MAX_FAN) }
        ensures begins { IfOk result (Begins outputs) }
        ensures free { IfOk result (λ l. l.log.left ≡ None) }
    {
        let outs = quiet_outs(alloc, outputs as u8)?;
        let queue = VecDeque::with_capacity(alloc, outputs as usize)?;
        Ok(Balancing {
            log: PickLog::new(alloc),
            live: true,
            outs,
            queue,
            open_outs: outputs as u8,
            waiting: None,
            over: false,
            pulled: false,
        })
    }

    /// From now on it follows these moves, each of which is one of its outputs. It takes no memory.
    pub fn follow(&mut self, moves: Vec<u32>)
        requires new { (outputs : ℕ) × Begins outputs self.old × NamesOutputs outputs (Some moves.items) }
        requires few { vec_len moves < 2 ^ 32 }
        ensures begins { (outputs : ℕ) → Begins outputs self.old → Begins outputs self.new }
        ensures plan { self.new.log.left ≡ Some moves.items }
    {
        self.log = PickLog::follow(moves);
    }

    /// The run begins.
    pub fn start(&mut self, _acts: &mut Acts) -> Result<(), NoMemory>
        requires live { self.old.core.live ≡ true }
        requires meets { Meets starts (port_state self.old) }
        requires empty { _acts.old.items ≡ [] }
        ensures answers { IsOk result }
        ensures ports { OnOk result (Obeys starts (port_state self.old) (port_state self.new) _acts.new.items) }
        ensures gives { OnOk result (Turned starts self.old _acts.new.items self.new) }
        ensures room { _acts.new.room ≡ _acts.old.room }
    {
        Ok(())
    }

    /// Output `port` was asked. It takes memory for the move alone; where that is refused, all is as before.
    pub fn on_pull(&mut self, port: u8, acts: &mut Acts) -> Result<(), NoMemory>
        requires live { self.old.core.live ≡ true }
        requires meets { Meets (pulls port) (port_state self.old) }
        requires empty { acts.old.items ≡ [] }
        requires room { room_for (length self.old.core.outs) ≤ acts.old.room }
        ensures ports { OnOk result (Obeys (pulls port) (port_state self.old) (port_state self.new) acts.new.items) }
        ensures gives { OnOk result (Turned (pulls port) self.old acts.new.items self.new) }
        ensures order { OnOk result (LastInLine port self.old self.new) }
        ensures room { OnOk result (acts.new.room ≡ acts.old.room) }
        ensures refused { OnErr result ((self.new ≡ self.old) × (acts.new ≡ acts.old)) }
    {
        if self.log.is_stuck() {
            return Ok(());
        }
        self.make_room()?;
        self.line_up(port);
        self.serve(acts);
        Ok(())
    }

    /// An element came. It takes memory for the move alone; where that is refused, all is as before but for the element.
    pub fn on_push(&mut self, port: u8, e: Elem, acts: &mut Acts) -> Result<(), NoMemory>
        requires live { self.old.core.live ≡ true }
        requires meets { Meets (arrives port (item.Elem e)) (port_state self.old) }
        requires empty { acts.old.items ≡ [] }
        requires room { room_for (length self.old.core.outs) ≤ acts.old.room }
        ensures ports { OnOk result (Obeys (arrives port (item.Elem e)) (port_state self.old) (port_state self.new) acts.new.items) }
        ensures gives { OnOk result (Turned (arrives port (item.Elem e)) self.old acts.new.items self.new) }
        ensures order { OnOk result (FirstServed self.old self.new) }
        ensures room { OnOk result (acts.new.room ≡ acts.old.room) }
        ensures refused { OnErr result ((self.new ≡ self.old) × (acts.new ≡ acts.old)) }
    {
        let _port = port;
        self.make_room()?;
        self.unask();
        self.deal(e, acts);
        Ok(())
    }

    /// The input has ended.
    pub fn on_finish(&mut self, port: u8, acts: &mut Acts) -> Result<(), NoMemory>
        requires live { self.old.core.live ≡ true }
        requires meets { Meets (arrives port item.Ended) (port_state self.old) }
        requires empty { acts.old.items ≡ [] }
        requires room { room_for (length self.old.core.outs) ≤ acts.old.room }
        ensures answers { IsOk result }
        ensures ports { OnOk result (Obeys (arrives port item.Ended) (port_state self.old) (port_state self.new) acts.new.items) }
        ensures gives { OnOk result (Turned (arrives port item.Ended) self.old acts.new.items self.new) }
        ensures room { acts.new.room ≡ acts.old.room }
    {
        let _port = port;
        self.finish(acts);
        Ok(())
    }

    /// The input has failed, which fails the stage at once.
    pub fn on_fail(&mut self, port: u8, cause: Cause, acts: &mut Acts) -> Result<(), NoMemory>
        requires live { self.old.core.live ≡ true }
        requires meets { Meets (arrives port (item.Failed cause)) (port_state self.old) }
        requires empty { acts.old.items ≡ [] }
        requires room { room_for (length self.old.core.outs) ≤ acts.old.room }
        ensures answers { IsOk result }
        ensures ports { OnOk result (Obeys (arrives port (item.Failed cause)) (port_state self.old) (port_state self.new) acts.new.items) }
        ensures gives { OnOk result (Turned (arrives port (item.Failed cause)) self.old acts.new.items self.new) }
        ensures room { acts.new.room ≡ acts.old.room }
    {
        let _port = port;
        self.fail(cause, acts);
        Ok(())
    }

    /// Output `port` was cancelled: no more is given there, and where it was the last the input is cancelled. An element that waits for it
    /// is dropped.
    pub fn on_cancel(&mut self, port: u8, acts: &mut Acts) -> Result<(), NoMemory>
        requires live { self.old.core.live ≡ true }
        requires meets { Meets (cancels port) (port_state self.old) }
        requires empty { acts.old.items ≡ [] }
        requires room { room_for (length self.old.core.outs) ≤ acts.old.room }
        ensures answers { IsOk result }
        ensures ports { OnOk result (Obeys (cancels port) (port_state self.old) (port_state self.new) acts.new.items) }
        ensures gives { OnOk result (Turned (cancels port) self.old acts.new.items self.new) }
        ensures order { OthersStay port self.old self.new }
        ensures room { acts.new.room ≡ acts.old.room }
    {
        if !self.log.is_stuck() {
            self.lose(port, acts);
        }
        Ok(())
    }

    /// The run is over: the log of its moves. It takes no memory.
    pub fn close(self) -> PickLog
        ensures { result ≡ self.log }
    {
        self.log
    }

    // Room for a move, before anything else.
    #[inline(always)]
    fn make_room(&mut self) -> Result<(), NoMemory>
        ensures kept { self.new ≡ record self.old { log = record self.old.log { room = self.new.log.room } } }
        ensures room { OnOk result (2 ≤ self.new.log.room) }
        ensures err { OnErr result (self.new ≡ self.old) }
    {
        self.log.reserve()
    }

    // The output waits for its turn.
    #[inline(always)]
    fn line_up(&mut self, port: u8)
        requires there { port < length self.old.core.outs }
        requires fits { length self.old.core.queue < self.old.core.room }
        ensures { self.new ≡ lined port self.old }
    {
        self.outs[port as usize] = OutputState::Asks;
        self.queue.push_back_reserved(port);
    }

    #[inline(always)]
    fn unask(&mut self)
        ensures { self.new ≡ input_idle self.old }
    {
        self.pulled = false;
    }

    // What waits is dealt out; where nothing waits, the input is asked where it is to be, or what is over ends.
    #[inline(always)]
    fn serve(&mut self, acts: &mut Acts)
        requires may { MayServe self.old }
        requires empty { acts.old.items ≡ [] }
        requires room { length self.old.core.outs < acts.old.room }
        ensures serves { ServesWaiting self.old self.new acts.new.items }
        ensures room { acts.new.room ≡ acts.old.room }
    {
        match self.next() {
            Some(e) => self.deal(e, acts),
            None => self.settle(acts),
        }
    }

    // What waits, which waits no more.
    #[inline(always)]
    fn next(&mut self) -> Option<Elem>
        ensures some { IfSome result (λ e. (self.old.core.waiting ≡ Some e) × (self.new ≡ emptied self.old)) }
        ensures none { IfNone result ((self.old.core.waiting ≡ None) × (self.new ≡ self.old)) }
    {
        self.waiting.take()
    }

    // An element is there, and nothing else waits: it goes out, is dropped, or waits.
    #[inline(always)]
    fn deal(&mut self, e: Elem, acts: &mut Acts)
        requires may { MayDeal self.old }
        requires empty { acts.old.items ≡ [] }
        requires room { length self.old.core.outs < acts.old.room }
        ensures deals { Deals e self.old self.new acts.new.items }
        ensures room { acts.new.room ≡ acts.old.room }
    {
        match self.choose() {
            Choice::Sends(port) => self.hand_on(port, e, acts),
            Choice::Drops(port) => self.pass_over(port, acts),
            Choice::Stays => self.keep(e),
        }
    }

    // What becomes of an element; the output that gets it leaves the queue. Whether moves are followed or not, this is where it is chosen.
    #[inline(always)]
    fn choose(&mut self) -> Choice
        requires named { NamesOutputs (length self.old.core.outs) self.old.log.left }
        requires few { length self.old.core.outs ≤ MAX_FAN }
        ensures choice { result ≡ choice_of (next_move self.old.log.left) self.old.core.outs self.old.core.queue }
        ensures queue { self.new
            ≡ record self.old { core = record self.old.core { queue = queue_then result (next_move self.old.log.left) self.old.core.queue } } }
    {
        match self.log.next() {
            Next::Free => self.first(),
            Next::Move(m) => self.find(m),
            Next::UsedUp => Choice::Stays,
        }
    }

    // The output that asked first, which is in the queue no more.
    #[inline(always)]
    #[tactic(auto, using(crate::proofs::BalanceChoices::first_sends, crate::proofs::BalanceChoices::first_stays, crate::proofs::BalanceChoices::first_behind, crate::proofs::BalanceChoices::none_behind))]
    fn first(&mut self) -> Choice
        ensures choice { result ≡ choice_of Free self.old.core.outs self.old.core.queue }
        ensures queue { self.new ≡ record self.old { core = record self.old.core { queue = queue_then result Free self.old.core.queue } } }
    {
        match self.queue.pop_front() {
            Some(port) => Choice::Sends(port),
            None => Choice::Stays,
        }
    }

    // Output m, which is in the queue no more where it asks.
    #[tactic(auto, using(crate::proofs::BalanceChoices::finds_quiet, crate::proofs::BalanceChoices::finds_asks, crate::proofs::BalanceChoices::finds_gone))]
    fn find(&mut self, m: u32) -> Choice
        requires there { m < length self.old.core.outs }
        requires few { length self.old.core.outs ≤ MAX_FAN }
        ensures choice { result ≡ choice_of (Move m) self.old.core.outs self.old.core.queue }
        ensures queue { self.new ≡ record self.old { core = record self.old.core { queue = queue_then result (Move m) self.old.core.queue } } }
    {
        match self.state_of(m) {
            OutputState::Quiet => Choice::Stays,
            OutputState::Asks => {
                leave(&mut self.queue, m as u8);
                Choice::Sends(m as u8)
            }
            OutputState::Gone => Choice::Drops(m as u8),
        }
    }

    fn state_of(&self, m: u32) -> OutputState
        ensures { result ≡ slice_index_or self.now.core.outs m Gone }
    {
        if (m as usize) < self.outs.len() {
            self.outs[m as usize]
        } else {
            OutputState::Gone
        }
    }

    fn keep(&mut self, e: Elem)
        ensures { self.new ≡ filled e self.old }
    {
        self.waiting = Some(e);
    }

    // An element goes out, and its output is noted.
    #[inline(always)]
    fn hand_on(&mut self, port: u8, e: Elem, acts: &mut Acts)
        requires noted { self.old.log.left ≡ None → 0 < self.old.log.room }
        requires next { MayNote port self.old.log.left }
        requires there { port < length self.old.core.outs }
        requires few { length self.old.core.outs ≤ MAX_FAN }
        requires empty { acts.old.items ≡ [] }
        requires room { length self.old.core.outs < acts.old.room }
        ensures settles { Settles (act.Push port e ∷ []) (given_out port self.old) self.new acts.new.items }
        ensures room { acts.new.room ≡ acts.old.room }
    {
        self.give_out(port);
        acts.add(Act::Push(port, e));
        self.settle(acts);
    }

    #[inline(always)]
    fn give_out(&mut self, port: u8)
        requires noted { self.old.log.left ≡ None → 0 < self.old.log.room }
        requires next { MayNote port self.old.log.left }
        requires there { port < length self.old.core.outs }
        ensures { self.new ≡ given_out port self.old }
    {
        self.log.note(port as u32);
        self.outs[port as usize] = OutputState::Quiet;
    }

    // An element was dropped, whose output is noted.
    fn pass_over(&mut self, port: u8, acts: &mut Acts)
        requires noted { self.old.log.left ≡ None → 0 < self.old.log.room }
        requires next { MayNote port self.old.log.left }
        requires few { length self.old.core.outs ≤ MAX_FAN }
        requires empty { acts.old.items ≡ [] }
        requires room { length self.old.core.outs < acts.old.room }
        ensures settles { Settles [] (passed_over port self.old) self.new acts.new.items }
        ensures room { acts.new.room ≡ acts.old.room }
    {
        self.skip(port);
        self.settle(acts);
    }

    fn skip(&mut self, port: u8)
        requires noted { self.old.log.left ≡ None → 0 < self.old.log.room }
        requires next { MayNote port self.old.log.left }
        ensures { self.new ≡ passed_over port self.old }
    {
        self.log.note(port as u32);
    }

    // Nothing waits: what is over ends, and else the input is asked where it is to be.
    #[inline(always)]
    fn settle(&mut self, acts: &mut Acts)
        requires few { length self.old.core.outs ≤ MAX_FAN }
        requires room { length acts.old.items + length self.old.core.outs ≤ acts.old.room }
        requires one { length acts.old.items < acts.old.room }
        ensures settles { Settles acts.old.items self.old self.new acts.new.items }
        ensures room { acts.new.room ≡ acts.old.room }
    {
        if self.over {
            self.end(acts);
        } else {
            self.ask(acts);
        }
    }

    // All complete, or where a move is to be made it stops.
    fn end(&mut self, acts: &mut Acts)
        requires few { length self.old.core.outs ≤ MAX_FAN }
        requires room { length acts.old.items + length self.old.core.outs ≤ acts.old.room }
        ensures completes { may_end (next_move self.old.log.left) ≡ true
            → Does self.new acts.new.items (closed self.old) (acts.old.items ++ at_open (λ k. act.Complete k) 0 self.old.core.outs) }
        ensures halts { may_end (next_move self.old.log.left) ≡ false → Does self.new acts.new.items (stuck_now self.old) acts.old.items }
        ensures room { acts.new.room ≡ acts.old.room }
    {
        if let Next::Move(_) = self.log.next() {
            self.log.misfit();
        } else {
            self.complete_all(acts);
        }
    }

    #[inline(always)]
    fn ask(&mut self, acts: &mut Acts)
        requires room { length acts.old.items < acts.old.room }
        ensures asks { self.old.core.pulled ≡ false → asks_input (next_move self.old.log.left) self.old.core.outs self.old.core.queue ≡ true
            → Does self.new acts.new.items (asking self.old) (acts.old.items ++ act.Pull 0 ∷ []) }
        ensures rests { (asks_input (next_move self.old.log.left) self.old.core.outs self.old.core.queue ≡ true → self.old.core.pulled ≡ true)
            → Does self.new acts.new.items self.old acts.old.items }
        ensures room { acts.new.room ≡ acts.old.room }
    {
        if !self.pulled && self.is_to_ask() {
            self.pulled = true;
            acts.add(Act::Pull(0));
        }
    }

    // Some output asks, or the next element is to be dropped.
    #[inline(always)]
    #[tactic(auto, using(crate::proofs::BalanceChoices::asks_some, crate::proofs::BalanceChoices::asks_none))]
    fn is_to_ask(&self) -> bool
        ensures { result ≡ asks_input (next_move self.now.log.left) self.now.core.outs self.now.core.queue }
    {
        if self.queue.is_empty() {
            self.is_to_drop()
        } else {
            true
        }
    }

    #[inline(always)]
    fn is_to_drop(&self) -> bool
        ensures { result ≡ drops_next (next_move self.now.log.left) self.now.core.outs }
    {
        match self.log.next() {
            Next::Move(m) => matches!(self.state_of(m), OutputState::Gone),
            _ => false,
        }
    }

    // The input has ended: what waits goes out first.
    fn finish(&mut self, acts: &mut Acts)
        requires few { length self.old.core.outs ≤ MAX_FAN }
        requires empty { acts.old.items ≡ [] }
        requires room { length self.old.core.outs < acts.old.room }
        ensures ended { Ended self.old self.new acts.new.items }
        ensures room { acts.new.room ≡ acts.old.room }
    {
        self.end_input();
        if self.waits_none() {
            self.settle(acts);
        }
    }

    fn end_input(&mut self)
        ensures { self.new ≡ ended_now self.old }
    {
        self.over = true;
    }

    fn waits_none(&self) -> bool
        ensures none { result ≡ true → self.now.core.waiting ≡ None }
        ensures some { result ≡ false → self.now.core.waiting ≢ None }
    {
        self.waiting.is_none()
    }

    fn complete_all(&mut self, acts: &mut Acts)
        requires few { length self.old.core.outs ≤ MAX_FAN }
        requires room { length acts.old.items + length self.old.core.outs ≤ acts.old.room }
        ensures does { Does self.new acts.new.items (closed self.old) (acts.old.items ++ at_open (λ k. act.Complete k) 0 self.old.core.outs) }
        ensures room { acts.new.room ≡ acts.old.room }
    {
        complete_open(self.outs.as_slice(), acts);
        self.live = false;
    }

    fn fail(&mut self, cause: Cause, acts: &mut Acts)
        requires few { length self.old.core.outs ≤ MAX_FAN }
        requires empty { acts.old.items ≡ [] }
        requires room { length self.old.core.outs ≤ acts.old.room }
        ensures does { Does self.new acts.new.items (closed self.old) (at_open (λ k. act.FailOut k cause) 0 self.old.core.outs) }
        ensures room { acts.new.room ≡ acts.old.room }
    {
        fail_open(self.outs.as_slice(), cause, acts);
        self.live = false;
    }

    // The output was cancelled, and leaves the queue: where it was the last, the input is cancelled.
    fn lose(&mut self, port: u8, acts: &mut Acts)
        requires there { port < length self.old.core.outs }
        requires some { 1 ≤ self.old.core.open_outs }
        requires may { MayServe (without port self.old) }
        requires empty { acts.old.items ≡ [] }
        requires room { length self.old.core.outs < acts.old.room }
        ensures lost { Lost port self.old self.new acts.new.items }
        ensures room { acts.new.room ≡ acts.old.room }
    {
        self.forget(port);
        if self.open_outs == 0 {
            self.leave_input(acts);
        } else {
            self.serve(acts);
        }
    }

    fn leave_input(&mut self, acts: &mut Acts)
        requires empty { acts.old.items ≡ [] }
        requires room { 1 ≤ acts.old.room }
        ensures does { Does self.new acts.new.items (closed self.old) (if self.old.core.over then [] else act.Cancel 0 ∷ []) }
        ensures room { acts.new.room ≡ acts.old.room }
    {
        self.live = false;
        if !self.over {
            acts.add(Act::Cancel(0));
        }
    }

    fn forget(&mut self, port: u8)
        requires there { port < length self.old.core.outs }
        requires some { 1 ≤ self.old.core.open_outs }
        ensures { self.new ≡ without port self.old }
    {
        self.outs[port as usize] = OutputState::Gone;
        leave(&mut self.queue, port);
        self.open_outs -= 1;
    }
}

// The output is in the queue no more, and the others keep their order.
fn leave(queue: &mut VecDeque<u8>, port: u8)
    ensures items { queue.new.items ≡ others port queue.old.items }
    ensures capacity { deque_capacity queue.new ≡ deque_capacity queue.old }
{
    queue.retain(|p| *p != port);
}
