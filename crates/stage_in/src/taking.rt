ghost use Rattle.std.specs.Prelude.{◌≡◌, ◌≢◌, ◌≤◌, ◌<◌, ◌∷◌, ◌+◌, ℕ, [], length, OnOk, IfOk, IsOk, IfSome, IfNone, Some, true, false, slice_set, map, vec_items};
ghost use Rattle.stream_model.specs.declared.kind.TheConstants.{MAX_FAN};
ghost use Rattle.elem_core.specs.declared.item.Item.TheVariants as item;
ghost use Rattle.port_core.specs.declared.act.Act.TheVariants as act;
ghost use Rattle.port_core.specs.Call.{Obeys, Meets, starts, pulls, arrives, cancels};
ghost use Rattle.stage_core.specs.Seats.{open_cancels, room_for};
ghost use Rattle.stage_in.specs.Takings.{port_state, Turned, Begins, Counted, WentOn, Does, Passed, InputFinished, without, failed_by, followed_by, HasFollowers, InputRing, IsNext, AllOverBut};
ghost use Rattle.stage_in.specs.Kinds.{behind_input};

use elem_core::elem::Elem;
use elem_core::why::{Cause, NoMemory};
use port_core::act::Act;
use port_core::acts::Acts;
use stage_core::ins::{cancel_open, open_inputs};
use std::alloc::Global;
use std::marker::Model;

// Choice: docs/DECISIONS.md#one-logic-takes
/// The logic of a concat or an interleave. It asks the current input alone, when its output is asked, and passes each element
/// on; it goes to the next open input where the current one ends, and an interleave behind each segment too. A failure of
/// any input fails it. Rule: Akka Streams 2.6 reference.
#[derive(Drop)]
pub struct Taking {
    live: bool,
    // None: the inputs one after another.
    segment: Option<u32>,
    over: Vec<bool>,
    // Of each input the next that is open, around the inputs: changed where an input ends, so that no element costs a search.
    next: Vec<u8>,
    current: u8,
    left: u32,
    asked: bool,
}

impl Model for Taking {
    ghost use Rattle.std.specs.Prelude.{vec_items};
    ghost use Rattle.std.specs.Coded.{codes};
    ghost use Rattle.stage_in.specs.Takings.{Taking};

    ghost Value = { Taking };

    ghost coded = { Prim.hlevel codes };

    ghost view = { λ l. record {
      live = l.live;
      segment = l.segment;
      over = vec_items l.over;
      next = vec_items l.next;
      current = l.current;
      left = l.left;
      asked = l.asked;
    } };
}

impl Taking {
    /// A stage with `inputs` inputs: by segments of so many elements, or with none, one input after another.
    pub fn new(alloc: Global, inputs: u32, segment: Option<u32>) -> Result<Taking, NoMemory>
        requires fan { (2 ≤ inputs) × (inputs ≤ MAX_FAN) }
        ensures { IfOk result (Begins inputs segment) }
    {
        let over = open_inputs(alloc, inputs)?;
        let next = ring(alloc, inputs)?;
        Ok(Taking {
            live: true,
            segment,
            over,
            next,
            current: 0,
            left: segment.unwrap_or(0),
            asked: false,
        })
    }

    /// The run begins.
    pub fn start(&mut self, _acts: &mut Acts) -> Result<(), NoMemory>
        requires live { self.old.live ≡ true }
        requires meets { Meets starts (port_state self.old) }
        requires empty { _acts.old.items ≡ [] }
        ensures answers { IsOk result }
        ensures ports { OnOk result (Obeys starts (port_state self.old) (port_state self.new) _acts.new.items) }
        ensures gives { OnOk result (Turned starts self.old _acts.new.items self.new) }
        ensures room { _acts.new.room ≡ _acts.old.room }
    {
        Ok(())
    }

    /// The output was asked.
    pub fn on_pull(&mut self, acts: &mut Acts) -> Result<(), NoMemory>
        requires live { self.old.live ≡ true }
        requires meets { Meets (pulls 0) (port_state self.old) }
        requires empty { acts.old.items ≡ [] }
        requires room { room_for (length self.old.over) ≤ acts.old.room }
        ensures answers { IsOk result }
        ensures ports { OnOk result (Obeys (pulls 0) (port_state self.old) (port_state self.new) acts.new.items) }
        ensures gives { OnOk result (Turned (pulls 0) self.old acts.new.items self.new) }
        ensures room { acts.new.room ≡ acts.old.room }
    {
        self.ask(acts);
        Ok(())
    }

    /// An element came, which can be of the current input alone.
    pub fn on_push(&mut self, port: u8, e: Elem, acts: &mut Acts) -> Result<(), NoMemory>
        requires live { self.old.live ≡ true }
        requires meets { Meets (arrives port (item.Elem e)) (port_state self.old) }
        requires empty { acts.old.items ≡ [] }
        requires room { room_for (length self.old.over) ≤ acts.old.room }
        ensures answers { IsOk result }
        ensures ports { OnOk result (Obeys (arrives port (item.Elem e)) (port_state self.old) (port_state self.new) acts.new.items) }
        ensures gives { OnOk result (Turned (arrives port (item.Elem e)) self.old acts.new.items self.new) }
        ensures room { acts.new.room ≡ acts.old.room }
    {
        let _port = port;
        self.pass(e, acts);
        Ok(())
    }

    /// An input has ended.
    pub fn on_finish(&mut self, port: u8, acts: &mut Acts) -> Result<(), NoMemory>
        requires live { self.old.live ≡ true }
        requires meets { Meets (arrives port item.Ended) (port_state self.old) }
        requires empty { acts.old.items ≡ [] }
        requires room { room_for (length self.old.over) ≤ acts.old.room }
        ensures answers { IsOk result }
        ensures ports { OnOk result (Obeys (arrives port item.Ended) (port_state self.old) (port_state self.new) acts.new.items) }
        ensures gives { OnOk result (Turned (arrives port item.Ended) self.old acts.new.items self.new) }
        ensures room { acts.new.room ≡ acts.old.room }
    {
        self.finish(port, acts);
        Ok(())
    }

    /// An input has failed, which fails the stage.
    pub fn on_fail(&mut self, port: u8, cause: Cause, acts: &mut Acts) -> Result<(), NoMemory>
        requires live { self.old.live ≡ true }
        requires meets { Meets (arrives port (item.Failed cause)) (port_state self.old) }
        requires empty { acts.old.items ≡ [] }
        requires room { room_for (length self.old.over) ≤ acts.old.room }
        ensures answers { IsOk result }
        ensures ports { OnOk result (Obeys (arrives port (item.Failed cause)) (port_state self.old) (port_state self.new) acts.new.items) }
        ensures gives { OnOk result (Turned (arrives port (item.Failed cause)) self.old acts.new.items self.new) }
        ensures room { acts.new.room ≡ acts.old.room }
    {
        self.fail(port, cause, acts);
        Ok(())
    }

    /// The output was cancelled.
    pub fn on_cancel(&mut self, acts: &mut Acts) -> Result<(), NoMemory>
        requires live { self.old.live ≡ true }
        requires meets { Meets (cancels 0) (port_state self.old) }
        requires empty { acts.old.items ≡ [] }
        requires room { room_for (length self.old.over) ≤ acts.old.room }
        ensures answers { IsOk result }
        ensures ports { OnOk result (Obeys (cancels 0) (port_state self.old) (port_state self.new) acts.new.items) }
        ensures gives { OnOk result (Turned (cancels 0) self.old acts.new.items self.new) }
        ensures room { acts.new.room ≡ acts.old.room }
    {
        self.leave(acts);
        Ok(())
    }

    // The current input is asked.
    fn ask(&mut self, acts: &mut Acts)
        requires empty { acts.old.items ≡ [] }
        requires room { 1 ≤ acts.old.room }
        ensures does { Does self.new acts.new.items (record self.old { asked = true }) (act.Pull self.old.current ∷ []) }
        ensures room { acts.new.room ≡ acts.old.room }
    {
        self.asked = true;
        acts.add(Act::Pull(self.current));
    }

    // An element of the current input goes out.
    fn pass(&mut self, e: Elem, acts: &mut Acts)
        requires here { self.old.current < length self.old.over }
        requires linked { HasFollowers self.old.over self.old.next }
        requires empty { acts.old.items ≡ [] }
        requires room { 1 ≤ acts.old.room }
        ensures passed { Passed self.old e self.new acts.new.items }
        ensures room { acts.new.room ≡ acts.old.room }
    {
        self.asked = false;
        self.count();
        acts.add(Act::Push(0, e));
    }

    // An input has ended: where it is the current one, the stage goes on to the next.
    fn finish(&mut self, port: u8, acts: &mut Acts)
        requires here { self.old.current < length self.old.over }
        requires there { port < length self.old.over }
        requires linked { HasFollowers self.old.over self.old.next }
        requires empty { acts.old.items ≡ [] }
        requires room { 1 ≤ acts.old.room }
        ensures finished { InputFinished port self.old self.new acts.new.items }
        ensures room { acts.new.room ≡ acts.old.room }
    {
        self.pass_over(port);
        if port == self.current {
            self.go_on(acts);
        }
    }

    // An input has failed: so does the output, and the other inputs are cancelled.
    fn fail(&mut self, port: u8, cause: Cause, acts: &mut Acts)
        requires few { length self.old.over ≤ MAX_FAN }
        requires there { port < length self.old.over }
        requires empty { acts.old.items ≡ [] }
        requires room { length self.old.over < acts.old.room }
        ensures does { Does self.new acts.new.items (failed_by port self.old) (act.FailOut 0 cause ∷ open_cancels 0 (slice_set self.old.over port true)) }
        ensures room { acts.new.room ≡ acts.old.room }
    {
        self.over[port as usize] = true;
        self.live = false;
        acts.add(Act::FailOut(0, cause));
        cancel_open(self.over.as_slice(), acts);
    }

    // All inputs are cancelled.
    fn leave(&mut self, acts: &mut Acts)
        requires few { length self.old.over ≤ MAX_FAN }
        requires empty { acts.old.items ≡ [] }
        requires room { length self.old.over ≤ acts.old.room }
        ensures does { Does self.new acts.new.items (record self.old { live = false }) (open_cancels 0 self.old.over) }
        ensures room { acts.new.room ≡ acts.old.room }
    {
        self.live = false;
        cancel_open(self.over.as_slice(), acts);
    }

    // An element of the current input went out: behind a segment the next open input is current.
    fn count(&mut self)
        requires here { self.old.current < length self.old.over }
        requires linked { HasFollowers self.old.over self.old.next }
        ensures place { Counted self.old.segment self.old self.new }
        ensures other { self.new ≡ record self.old { current = self.new.current; left = self.new.left } }
    {
        if let Some(segment) = self.segment {
            if self.left <= 1 {
                self.left = segment;
                self.current = self.next_open().unwrap_or(self.current);
            } else {
                self.left -= 1;
            }
        }
    }

    // The current input has ended: the stage goes to the next open one, which it asks where its output is asked, or it ends.
    fn go_on(&mut self, acts: &mut Acts)
        requires here { self.old.current < length self.old.over }
        requires linked { HasFollowers self.old.over self.old.next }
        requires empty { acts.old.items ≡ [] }
        requires room { 1 ≤ acts.old.room }
        ensures went { WentOn self.old self.new acts.new.items }
        ensures room { acts.new.room ≡ acts.old.room }
    {
        match self.next_open() {
            Some(c) => {
                self.current = c;
                self.left = self.segment.unwrap_or(0);
                if self.asked {
                    acts.add(Act::Pull(c));
                }
            }
            None => {
                self.live = false;
                acts.add(Act::Complete(0));
            }
        }
    }

    // The next open input behind the current one, around the inputs.
    fn next_open(&self) -> Option<u8>
        requires here { self.now.current < length self.now.over }
        requires linked { HasFollowers self.now.over self.now.next }
        ensures next { IfSome result (IsNext self.now.over self.now.current) }
        ensures none { IfNone result (AllOverBut self.now.current self.now.over) }
    {
        let next = self.next[self.current as usize];
        if self.over[next as usize] {
            None
        } else {
            Some(next)
        }
    }

    // An input has ended: each that it followed is followed by the one behind it.
    fn pass_over(&mut self, port: u8)
        requires there { port < length self.old.over }
        requires linked { HasFollowers self.old.over self.old.next }
        ensures { self.new ≡ without port self.old }
    {
        self.over[port as usize] = true;
        let to = self.next[port as usize];
        relink(self.next.as_mut_slice(), port, to);
    }
}

// Of each of so many inputs the one behind it, around them.
fn ring(alloc: Global, inputs: u32) -> Result<Vec<u8>, NoMemory>
    requires few { inputs ≤ MAX_FAN }
    ensures { IfOk result (λ next. InputRing inputs (vec_items next)) }
{
    let mut next = Vec::with_capacity(alloc, inputs as usize)?;
    for c in 0..inputs {
        next.push(behind(c, inputs))?;
    }
    Ok(next)
}

fn behind(c: u32, inputs: u32) -> u8
    requires there { c < inputs }
    requires few { inputs ≤ MAX_FAN }
    ensures { result ≡ behind_input inputs c }
{
    if c + 1 == inputs { 0 } else { (c + 1) as u8 }
}

// Where input `from` followed, input `to` does.
// Choice: docs/DECISIONS.md#next-open-input
fn relink(next: &mut [u8], from: u8, to: u8)
    ensures { next.new ≡ map (followed_by from to) next.old }
{
    for c in 0..next.len() {
        next[c] = followed_by(next[c], from, to);
    }
}

fn followed_by(next: u8, from: u8, to: u8) -> u8
    ensures { result ≡ followed_by from to next }
{
    if next == from { to } else { next }
}
