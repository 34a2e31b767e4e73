ghost use Rattle.std.specs.Prelude.{ℕ, Bool, ◌^◌, ◌≡◌, ◌≢◌, ◌+◌, ◌<◌, ◌≤◌, ◌∷◌, [], ◌++◌, length, slice_set, Some, None, true, false, IsOk, OnOk, OnErr, IfOk, IfSome, IfNone};
ghost use Rattle.elem_core.specs.declared.item.Item.TheVariants as item;
ghost use Rattle.port_core.specs.Picks.{MayNote, may_end, next_move};
ghost use Rattle.port_core.specs.declared.act.Act.TheVariants as act;
ghost use Rattle.port_core.specs.Call.{Obeys, Meets, starts, pulls, arrives, cancels};
ghost use Rattle.stream_model.specs.declared.kind.TheConstants.{MAX_FAN};
ghost use Rattle.stage_core.specs.declared.phase.Phase.TheVariants.{New, Open, Closed};
ghost use Rattle.stage_core.specs.Merges.{item_by};
ghost use Rattle.stage_core.specs.Seats.{open_cancels, room_for};
ghost use Rattle.stage_merge.specs.Mergings.{port_state, Turned, ChosenOut, LastIn, Begins, NamesInputs, Does, HandedOn, AskServed, Took, EndsIfDone, Again, Ended, InputLost, goes_next, first_queued, lost, passes_at_once, stuck_now, wanted, stored, without, pull_acts, PortsThere};
ghost use Rattle.stage_merge.specs.Finding.{IsFirstAt};

use elem_core::elem::Elem;
use elem_core::why::{Cause, NoMemory};
use port_core::act::Act;
use port_core::acts::Acts;
use port_core::pick_log::{Next, PickLog};
use stage_core::ins::{cancel_open, open_inputs};
use stage_core::phase::Phase;
use std::alloc::Global;
use std::collections::VecDeque;
use std::marker::Model;

// Choice: docs/DECISIONS.md#one-queue
/// An element that waits, and the input that it came from.
#[derive(Drop)]
pub struct Queued {
    /// The input.
    pub port: u8,
    /// The element.
    pub item: Elem,
}

/// The logic of a merge. It asks all inputs at its start and each again after its element was given; what finds the output
/// unasked waits, first come first. It notes the input of each element that it gives. One that gathers, as a merge hub does, takes an
/// input that failed for one that ended. One that follows moves gives the elements in the order that they name, and stops where the next
/// one cannot be made. Rule: Akka Streams 2.6 reference; that it gathers, and moves: own.
#[derive(Drop)]
pub struct Merging {
    log: PickLog,
    // Whether it goes on where an input fails.
    gathers: bool,
    phase: Phase,
    over: Vec<bool>,
    // With room for an element of each input, since at most one of each waits.
    queue: VecDeque<Queued>,
    asked: bool,
    // How many inputs have not ended.
    left: u8,
}

impl Model for Merging {
    ghost use Rattle.std.specs.Prelude.{vec_items};
    ghost use Rattle.std.specs.VecDeque.{deque_capacity};
    ghost use Rattle.std.specs.Coded.{codes};
    ghost use Rattle.elem_core.specs.TreeCode.{tree_coded};
    ghost use Rattle.stage_merge.specs.Mergings.{Merging};

    ghost Value = { Merging };

    ghost coded = { Prim.hlevel (codes, tree_coded) };

    ghost view = { λ l. record {
      log = l.log;
      gathers = l.gathers;
      core = record {
        phase = l.phase;
        over = vec_items l.over;
        queue = l.queue.items;
        room = deque_capacity l.queue;
        asked = l.asked;
        left = l.left;
      };
    } };
}

impl Merging {
    /// A merge of 1 to `MAX_FAN` inputs, which gathers or does not. It takes memory for a flag and an element of each.
    pub fn new(alloc: Global, inputs: u32, gathers: bool) -> Result<Merging, NoMemory>
        requires fan { (1 ≤ inputs) × (inputs ≤ MAX_FAN) }
        ensures begins { IfOk result (Begins inputs gathers) }
        ensures free { IfOk result (λ l. l.log.left ≡ None) }
    {
        let over = open_inputs(alloc, inputs)?;
        let queue = VecDeque::with_capacity(alloc, inputs as usize)?;
        Ok(Merging {
            log: PickLog::new(alloc),
            gathers,
            phase: Phase::New,
            over,
            queue,
            asked: false,
            left: inputs as u8,
        })
    }

    /// From now on it follows these moves, each of which is one of its inputs. It takes no memory.
    pub fn follow(&mut self, moves: Vec<u32>)
        requires new { (inputs : ℕ) × (gathers : Bool) × Begins inputs gathers self.old × NamesInputs inputs (Some moves.items) }
        requires few { length moves.items < 2 ^ 32 }
        ensures begins { (inputs : ℕ) → (gathers : Bool) → Begins inputs gathers self.old → NamesInputs inputs (Some moves.items)
            → Begins inputs gathers self.new }
        ensures plan { self.new.log.left ≡ Some moves.items }
    {
        self.log = PickLog::follow(moves);
    }

    /// The run begins.
    pub fn start(&mut self, acts: &mut Acts) -> Result<(), NoMemory>
        requires new { self.old.core.phase ≡ New }
        requires meets { Meets starts (port_state self.old) }
        requires empty { acts.old.items ≡ [] }
        requires room { room_for (length self.old.core.over) ≤ acts.old.room }
        ensures answers { IsOk result }
        ensures ports { OnOk result (Obeys starts (port_state self.old) (port_state self.new) acts.new.items) }
        ensures gives { OnOk result (Turned starts self.old acts.new.items self.new) }
        ensures room { acts.new.room ≡ acts.old.room }
    {
        self.begin(acts);
        Ok(())
    }

    /// The output was asked. It takes memory for the move alone; where that is refused, all is as before.
    pub fn on_pull(&mut self, acts: &mut Acts) -> Result<(), NoMemory>
        requires open { self.old.core.phase ≡ Open }
        requires meets { Meets (pulls 0) (port_state self.old) }
        requires empty { acts.old.items ≡ [] }
        requires room { room_for (length self.old.core.over) ≤ acts.old.room }
        ensures ports { OnOk result (Obeys (pulls 0) (port_state self.old) (port_state self.new) acts.new.items) }
        ensures gives { OnOk result (Turned (pulls 0) self.old acts.new.items self.new) }
        ensures order { OnOk result (ChosenOut self.old self.new) }
        ensures room { OnOk result (acts.new.room ≡ acts.old.room) }
        ensures refused { OnErr result ((self.new ≡ self.old) × (acts.new ≡ acts.old)) }
    {
        if self.log.is_stuck() {
            return Ok(());
        }
        self.make_room()?;
        self.want();
        self.serve(acts);
        Ok(())
    }

    /// An element came. It takes memory for the move alone; where that is refused, all is as before but for the element.
    pub fn on_push(&mut self, port: u8, e: Elem, acts: &mut Acts) -> Result<(), NoMemory>
        requires open { self.old.core.phase ≡ Open }
        requires meets { Meets (arrives port (item.Elem e)) (port_state self.old) }
        requires empty { acts.old.items ≡ [] }
        requires room { room_for (length self.old.core.over) ≤ acts.old.room }
        ensures ports { OnOk result (Obeys (arrives port (item.Elem e)) (port_state self.old) (port_state self.new) acts.new.items) }
        ensures gives { OnOk result (Turned (arrives port (item.Elem e)) self.old acts.new.items self.new) }
        ensures order { OnOk result (LastIn port e self.old self.new) }
        ensures room { OnOk result (acts.new.room ≡ acts.old.room) }
        ensures refused { OnErr result ((self.new ≡ self.old) × (acts.new ≡ acts.old)) }
    {
        if self.log.is_stuck() {
            return Ok(());
        }
        self.make_room()?;
        self.take(port, e, acts);
        Ok(())
    }

    /// An input has ended.
    pub fn on_finish(&mut self, port: u8, acts: &mut Acts) -> Result<(), NoMemory>
        requires open { self.old.core.phase ≡ Open }
        requires meets { Meets (arrives port item.Ended) (port_state self.old) }
        requires empty { acts.old.items ≡ [] }
        requires room { room_for (length self.old.core.over) ≤ acts.old.room }
        ensures answers { IsOk result }
        ensures ports { OnOk result (Obeys (arrives port item.Ended) (port_state self.old) (port_state self.new) acts.new.items) }
        ensures gives { OnOk result (Turned (arrives port item.Ended) self.old acts.new.items self.new) }
        ensures room { acts.new.room ≡ acts.old.room }
    {
        if !self.log.is_stuck() {
            self.finish(port, acts);
        }
        Ok(())
    }

    /// An input has failed, which fails the stage at once; one that gathers takes it for an end.
    pub fn on_fail(&mut self, port: u8, cause: Cause, acts: &mut Acts) -> Result<(), NoMemory>
        requires open { self.old.core.phase ≡ Open }
        requires meets { Meets (arrives port (item.Failed cause)) (port_state self.old) }
        requires empty { acts.old.items ≡ [] }
        requires room { room_for (length self.old.core.over) ≤ acts.old.room }
        ensures answers { IsOk result }
        ensures ports { OnOk result (Obeys (arrives port (item.Failed cause)) (port_state self.old) (port_state self.new) acts.new.items) }
        ensures gives { OnOk result (Turned (arrives port (item_by self.old.gathers (item.Failed cause))) self.old acts.new.items self.new) }
        ensures room { acts.new.room ≡ acts.old.room }
    {
        if !self.log.is_stuck() {
            self.lose(port, cause, acts);
        }
        Ok(())
    }

    /// The output was cancelled.
    pub fn on_cancel(&mut self, acts: &mut Acts) -> Result<(), NoMemory>
        requires open { self.old.core.phase ≡ Open }
        requires meets { Meets (cancels 0) (port_state self.old) }
        requires empty { acts.old.items ≡ [] }
        requires room { room_for (length self.old.core.over) ≤ acts.old.room }
        ensures answers { IsOk result }
        ensures ports { OnOk result (Obeys (cancels 0) (port_state self.old) (port_state self.new) acts.new.items) }
        ensures gives { OnOk result (Turned (cancels 0) self.old acts.new.items self.new) }
        ensures room { acts.new.room ≡ acts.old.room }
    {
        if !self.log.is_stuck() {
            self.leave(acts);
        }
        Ok(())
    }

    /// The run is over: the log of its moves. It takes no memory.
    pub fn close(self) -> PickLog
        ensures { result ≡ self.log }
    {
        self.log
    }

    // All inputs are asked.
    fn begin(&mut self, acts: &mut Acts)
        requires few { length self.old.core.over ≤ MAX_FAN }
        requires empty { acts.old.items ≡ [] }
        requires room { length self.old.core.over ≤ acts.old.room }
        ensures does { Does self.new acts.new.items (record self.old { core = record self.old.core { phase = Open } }) (pull_acts 0 self.old.core.over) }
        ensures room { acts.new.room ≡ acts.old.room }
    {
        self.phase = Phase::Open;
        self.ask_all(acts);
    }

    // Room for a move, before anything else.
    fn make_room(&mut self) -> Result<(), NoMemory>
        ensures kept { self.new ≡ record self.old { log = record self.old.log { room = self.new.log.room } } }
        ensures room { OnOk result (2 ≤ self.new.log.room) }
        ensures err { OnErr result (self.new ≡ self.old) }
    {
        self.log.reserve()
    }

    fn want(&mut self)
        ensures { self.new ≡ wanted self.old }
    {
        self.asked = true;
    }

    fn unask(&mut self)
        ensures { self.new ≡ record self.old { core = record self.old.core { asked = false } } }
    {
        self.asked = false;
    }

    // The output is asked: what is chosen goes out, where it waits.
    fn serve(&mut self, acts: &mut Acts)
        requires noted { 2 ≤ self.old.log.room }
        requires there { PortsThere self.old.core.over self.old.core.queue }
        requires empty { acts.old.items ≡ [] }
        requires room { 2 ≤ acts.old.room }
        ensures served { AskServed self.old self.new acts.new.items }
        ensures room { acts.new.room ≡ acts.old.room }
    {
        match self.choose() {
            Some(x) => {
                self.unask();
                self.hand_on(x.port, x.item, acts);
            }
            None => self.judge(),
        }
    }

    // Choice: docs/DECISIONS.md#stopped-merge-waits
    // What is to go out next, which waits no more. Whether moves are followed or not, this is where it is chosen.
    fn choose(&mut self) -> Option<Queued>
        ensures some { IfSome result (λ x. (goes_next (next_move self.old.log.left) self.old.core.queue ≡ Some (x, self.new.core.queue))
            × (self.new ≡ record self.old { core = record self.old.core { queue = self.new.core.queue } })) }
        ensures none { IfNone result ((goes_next (next_move self.old.log.left) self.old.core.queue ≡ None) × (self.new ≡ self.old)) }
    {
        match self.log.next() {
            Next::Free => self.queue.pop_front(),
            Next::Move(m) => self.take_of(m),
            Next::UsedUp => None,
        }
    }

    // The first that waits of input m, which waits no more.
    fn take_of(&mut self, m: u32) -> Option<Queued>
        ensures some { IfSome result (λ x. (first_queued m self.old.core.queue ≡ Some (x, self.new.core.queue))
            × (self.new ≡ record self.old { core = record self.old.core { queue = self.new.core.queue } })) }
        ensures none { IfNone result ((first_queued m self.old.core.queue ≡ None) × (self.new ≡ self.old)) }
    {
        match first_at(&self.queue, m) {
            Some(place) => self.queue.remove(place),
            None => None,
        }
    }

    // Nothing goes out: where what is to go out next will never come, it stops.
    fn judge(&mut self)
        ensures halts { lost (next_move self.old.log.left) self.old.core.over ≡ true → self.new ≡ stuck_now self.old }
        ensures goes { lost (next_move self.old.log.left) self.old.core.over ≡ false → self.new ≡ self.old }
    {
        if self.is_lost() {
            self.log.misfit();
        }
    }

    fn is_lost(&self) -> bool
        ensures { result ≡ lost (next_move self.now.log.left) self.now.core.over }
    {
        match self.log.next() {
            Next::Move(m) => (m as usize) < self.over.len() && self.over[m as usize],
            _ => false,
        }
    }

    fn may_end(&self) -> bool
        ensures { result ≡ may_end (next_move self.now.log.left) }
    {
        !matches!(self.log.next(), Next::Move(_))
    }

    // An element came: it goes out where the output is asked and it is what is to go out next, and else it waits.
    #[tactic(auto, using(crate::proofs::Mergers::passing_note))]
    fn take(&mut self, port: u8, e: Elem, acts: &mut Acts)
        requires noted { 2 ≤ self.old.log.room }
        requires fits { length self.old.core.queue < self.old.core.room }
        requires there { port < length self.old.core.over }
        requires empty { acts.old.items ≡ [] }
        requires room { 2 ≤ acts.old.room }
        ensures took { Took port e self.old self.new acts.new.items }
        ensures room { acts.new.room ≡ acts.old.room }
    {
        if self.asked && self.passes_at_once(port) {
            self.unask();
            self.hand_on(port, e, acts);
        } else {
            self.store(port, e);
        }
    }

    // Choice: docs/DECISIONS.md#passing-through
    // Whether an element of this input goes out at once where the output is asked. Nothing of what is to go out next waits then.
    fn passes_at_once(&self, port: u8) -> bool
        ensures { result ≡ passes_at_once (next_move self.now.log.left) port }
    {
        match self.log.next() {
            Next::Free => true,
            Next::Move(m) => u32::from(port) == m,
            Next::UsedUp => false,
        }
    }

    fn store(&mut self, port: u8, e: Elem)
        requires fits { length self.old.core.queue < self.old.core.room }
        ensures { self.new ≡ stored port e self.old }
    {
        self.queue.push_back_reserved(Queued { port, item: e });
    }

    // An element goes out, its input is noted and asked again.
    #[inline(always)]
    fn hand_on(&mut self, port: u8, e: Elem, acts: &mut Acts)
        requires noted { 2 ≤ self.old.log.room }
        requires next { MayNote port self.old.log.left }
        requires there { port < length self.old.core.over }
        requires empty { acts.old.items ≡ [] }
        requires room { 2 ≤ acts.old.room }
        ensures handed { HandedOn port e self.old self.new acts.new.items }
        ensures room { acts.new.room ≡ acts.old.room }
    {
        self.log.note(port as u32);
        acts.add(Act::Push(0, e));
        self.ask_again(port, acts);
    }

    // The input of an element that went out is asked again, or it has ended.
    fn ask_again(&mut self, port: u8, acts: &mut Acts)
        requires there { port < length self.old.core.over }
        requires room { length acts.old.items < acts.old.room }
        ensures again { Again port acts.old.items self.old self.new acts.new.items }
        ensures room { acts.new.room ≡ acts.old.room }
    {
        if self.over[port as usize] {
            self.end_if_done(acts);
        } else {
            acts.add(Act::Pull(port));
        }
    }

    // It ends where every input has ended, nothing waits and no move is to be made.
    fn end_if_done(&mut self, acts: &mut Acts)
        requires room { length acts.old.items < acts.old.room }
        ensures ends { EndsIfDone acts.old.items self.old self.new acts.new.items }
        ensures room { acts.new.room ≡ acts.old.room }
    {
        if self.left == 0 && self.queue.is_empty() && self.may_end() {
            self.phase = Phase::Closed;
            acts.add(Act::Complete(0));
        }
    }

    // An input has ended.
    #[tactic(auto, using(crate::proofs::Mergers::lost_move))]
    fn finish(&mut self, port: u8, acts: &mut Acts)
        requires there { port < length self.old.core.over }
        requires some { 1 ≤ self.old.core.left }
        requires empty { acts.old.items ≡ [] }
        requires room { 1 ≤ acts.old.room }
        ensures ended { Ended port self.old self.new acts.new.items }
        ensures room { acts.new.room ≡ acts.old.room }
    {
        self.take_off(port);
        if self.asked && self.is_lost() {
            self.log.misfit();
        } else {
            self.end_if_done(acts);
        }
    }

    fn take_off(&mut self, port: u8)
        requires there { port < length self.old.core.over }
        requires some { 1 ≤ self.old.core.left }
        ensures { self.new ≡ without port self.old }
    {
        self.over[port as usize] = true;
        self.left -= 1;
    }

    // An input has failed: one that gathers goes on without it.
    fn lose(&mut self, port: u8, cause: Cause, acts: &mut Acts)
        requires few { length self.old.core.over ≤ MAX_FAN }
        requires there { port < length self.old.core.over }
        requires some { 1 ≤ self.old.core.left }
        requires empty { acts.old.items ≡ [] }
        requires room { length self.old.core.over < acts.old.room }
        ensures lost { InputLost port cause self.old self.new acts.new.items }
        ensures room { acts.new.room ≡ acts.old.room }
    {
        if self.gathers {
            self.finish(port, acts);
        } else {
            self.fail(port, cause, acts);
        }
    }

    // An input has failed: so does the output, and the other inputs are cancelled.
    fn fail(&mut self, port: u8, cause: Cause, acts: &mut Acts)
        requires few { length self.old.core.over ≤ MAX_FAN }
        requires there { port < length self.old.core.over }
        requires empty { acts.old.items ≡ [] }
        requires room { length self.old.core.over < acts.old.room }
        ensures does { Does self.new acts.new.items
            (record self.old { core = record self.old.core { over = slice_set self.old.core.over port true; phase = Closed } })
            (act.FailOut 0 cause ∷ open_cancels 0 (slice_set self.old.core.over port true)) }
        ensures room { acts.new.room ≡ acts.old.room }
    {
        self.over[port as usize] = true;
        self.phase = Phase::Closed;
        acts.add(Act::FailOut(0, cause));
        cancel_open(self.over.as_slice(), acts);
    }

    // All inputs are cancelled.
    fn leave(&mut self, acts: &mut Acts)
        requires few { length self.old.core.over ≤ MAX_FAN }
        requires empty { acts.old.items ≡ [] }
        requires room { length self.old.core.over ≤ acts.old.room }
        ensures does { Does self.new acts.new.items (record self.old { core = record self.old.core { phase = Closed } }) (open_cancels 0 self.old.core.over) }
        ensures room { acts.new.room ≡ acts.old.room }
    {
        self.phase = Phase::Closed;
        cancel_open(self.over.as_slice(), acts);
    }

    // Asks every input that has not ended.
    fn ask_all(&self, acts: &mut Acts)
        requires few { length self.now.core.over ≤ MAX_FAN }
        requires room { length acts.old.items + length self.now.core.over ≤ acts.old.room }
        ensures { acts.new ≡ record acts.old { items = acts.old.items ++ pull_acts 0 self.now.core.over } }
    {
        let over = self.over.as_slice();
        for i in 0..over.len() {
            if !over[i] {
                acts.add(Act::Pull(i as u8));
            }
        }
    }
}

// The place of the first that waits of input m.
fn first_at(queue: &VecDeque<Queued>, m: u32) -> Option<usize>
    ensures { IsFirstAt m queue.now.items result }
{
    for place in 0..queue.len() {
        if u32::from(queue[place].port) == m {
            return Some(place);
        }
    }
    None
}
