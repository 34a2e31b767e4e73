// What comes next, in hand: the consequence of an event is handled at once, without a place in the queue, where no wire waits.
ghost use Rattle.std.specs.Prelude.{◌≡◌, ℕ, true, ◌+◌, ◌<◌, ◌≤◌, [], ◌∷◌, false, None, Some, OnOk, OnErr, Ok, IfOk, IfNone, IfSome, ◌≢◌, length, map};
ghost use Rattle.elem_core.specs.declared.count.TheConstants.{MOST_COUNT};
ghost use Rattle.port_core.specs.Ring.{is_queued};
ghost use Rattle.port_core.specs.declared.act.Act.TheVariants as act;
ghost use Rattle.port_core.specs.Cell.{moved_by, delivered};
ghost use Rattle.port_core.specs.Wire.{pull, arrived, delivery_of};
ghost use Rattle.elem_core.specs.declared.item.Item.TheVariants as item;
ghost use Rattle.stage_core.specs.declared.stage.TheConstants.{LEAST_ACTS};
ghost use Rattle.fused_net.specs.Net.{acted, acted_all, put, wire_at, Able, before, Takes};
ghost use Rattle.fused_net.specs.Laws.{AnyRow, AnyLaw, Settled, Busy, NetGoesOn, AllKept, BreaksOff, HaveRoom};
ghost use Rattle.fused_net.specs.Costs.{all_asks, Uses};
ghost use Rattle.fused_net.specs.Poking.{AtNode};
ghost use Rattle.fused_net.specs.Outside.{BreaksAside, StandsStill, Untouched, touched};
ghost use Rattle.fused_net.specs.Events.{EventsLead, EventHandled};
ghost use Rattle.fused_net.specs.Hand.{acts_at_once, acts_asked, done_in_hand, IsHeld};
ghost use Rattle.port_core.specs.Call.{Meets, arrives, pulls};
ghost use Rattle.stage_core.specs.Rooms.{HasRoom};
ghost use Rattle.stage_core.specs.Handling.{Reacts};
ghost use Rattle.stage_core.specs.declared.stage.Swift.TheVariants as swifts;
ghost use Rattle.fused_net.specs.declared.hand.Hand.TheVariants as hands;

use crate::engine::{Advance, Engine};
use elem_core::elem::{Elem, Form};
use elem_core::item::Item;
use elem_core::why::NoMemory;
use port_core::acts::Acts;
use port_core::conn::Event;
use stage_core::stage::{Stage, Swift};
use std::alloc::Global;
use std::mem;
use std::snapshot::Snapshot;

// Choice: docs/DECISIONS.md#in-hand
// What is handled next without a place in the queue, because nothing waits there.
#[derive(Clone, Copy, PartialEq, Eq)]
pub(crate) enum Hand {
    // Nothing: the queue says what comes next.
    Empty,
    // An element goes down this wire. It stands beside.
    Down(u32),
    // An ask goes up this wire.
    Up(u32),
}

// What a handler wants done: whether its node is passive, and what of it is in hand.
#[derive(Clone, Copy)]
struct Answer {
    heard: bool,
    hand: Hand,
}

// What one event came to.
#[derive(Clone, Copy)]
struct Came {
    // The wire of the event.
    wire: u32,
    // Whether a passive node heard of it.
    heard: bool,
    // What comes next.
    hand: Hand,
}

// What the event of this wire came to.
#[inline(always)]
fn came_of(wire: u32, answer: Answer) -> Came
    ensures { result ≡ record { wire = wire; heard = answer.heard; hand = answer.hand } }
{
    Came {
        wire,
        heard: answer.heard,
        hand: answer.hand,
    }
}

// The element that stands beside an empty hand.
#[inline(always)]
fn no_elem() -> Elem {
    Elem::of(Form::Num(0))
}

// Puts an element beside the hand. What stood there is a number, which owns nothing: so nothing has to be dropped.
#[inline(always)]
fn put_beside(e: &mut Elem, next: Elem)
    ensures { e.new ≡ next }
{
    mem::forget(mem::replace(e, next));
}

// Whether `advance` stops behind an event: where a passive node heard of it, or a source may wait at its next ask.
#[inline(always)]
fn is_to_stop(heard: bool, drained: bool) -> bool
    ensures { result ≡ false → heard ≡ false }
{
    heard || drained
}

// Calls a node to which an element came, at once if it answers so.
#[inline(always)]
fn push_to<S: Stage>(
    node: &mut S,
    alloc: Global,
    port: u8,
    e: &mut Elem,
    acts: &mut Acts,
) -> Result<Swift, NoMemory>
    requires meets { Meets (arrives port (item.Elem e.old)) (S.port_state node.old) }
    requires empty { acts.old.items ≡ [] }
    requires room { LEAST_ACTS ≤ acts.old.room }
    requires ports { HasRoom (arrives port (item.Elem e.old)) (S.port_state node.old) acts.old.room }
    ensures reacts { IfOk result (λ s. Reacts S.port_state S.law S.asking S.moves S.passive S.gone (arrives port (item.Elem e.old)) node.old node.new
        (acts_at_once s e.new acts.new.items)) }
    ensures none { IfOk result (λ s. s ≡ swifts.Gives → acts.new.items ≡ []) }
    ensures none_asked { IfOk result (λ s. s ≡ swifts.Asks → acts.new.items ≡ []) }
    ensures room { OnOk result (acts.new.room ≡ acts.old.room) }
    ensures kept { OnErr result (S.keeps node.old node.new) }
{
    match node.push_at_once(port, e, acts) {
        Swift::Rests => {
            let x = mem::replace(e, no_elem());
            node.on_push(alloc, port, x, acts)?;
            Ok(Swift::Rests)
        }
        swift => Ok(swift),
    }
}

// Calls a node whose output was asked, at once if it asks its input for that alone.
#[inline(always)]
fn pull_from<S: Stage>(
    node: &mut S,
    alloc: Global,
    port: u8,
    acts: &mut Acts,
) -> Result<bool, NoMemory>
    requires meets { Meets (pulls port) (S.port_state node.old) }
    requires empty { acts.old.items ≡ [] }
    requires room { LEAST_ACTS ≤ acts.old.room }
    requires ports { HasRoom (pulls port) (S.port_state node.old) acts.old.room }
    ensures reacts { IfOk result (λ asks. Reacts S.port_state S.law S.asking S.moves S.passive S.gone (pulls port) node.old node.new
        (acts_asked asks acts.new.items)) }
    ensures none { IfOk result (λ asks. asks ≡ true → acts.new.items ≡ []) }
    ensures room { OnOk result (acts.new.room ≡ acts.old.room) }
    ensures kept { OnErr result (S.keeps node.old node.new) }
{
    if node.pull_at_once(port) {
        return Ok(true);
    }
    node.on_pull(alloc, port, acts)?;
    Ok(false)
}

impl<S: Stage> Engine<S> {
    // Node n pushes an element, in hand where nothing waits.
    #[inline(always)]
    fn push_held(&mut self, n: usize, j: u8, x: Elem, e: &mut Elem) -> Hand
        requires { Able self.old n (act.Push j x) }
        ensures after { done_in_hand result e.new self.new ≡ acted self.old n (act.Push j x) }
        ensures held { IsHeld result self.new }
        ensures nodes { self.new.nodes ≡ self.old.nodes }
    {
        let w = self.ports[n].output(j);
        if self.queue.is_empty() && self.wires[w as usize].can_push() {
            put_beside(e, x);
            return Hand::Down(w);
        }
        self.push_at(w, x);
        Hand::Empty
    }

    // Node n pulls, in hand where nothing waits.
    #[inline(always)]
    fn pull_held(&mut self, n: usize, i: u8, e: &Elem) -> Hand
        requires { Able self.old n (act.Pull i) }
        ensures after { done_in_hand result e.now self.new ≡ acted self.old n (act.Pull i) }
        ensures held { IsHeld result self.new }
        ensures nodes { self.new.nodes ≡ self.old.nodes }
    {
        let w = self.ports[n].input(i);
        if self.queue.is_empty() && self.wires[w as usize].can_pull() {
            return Hand::Up(w);
        }
        self.pull_at(w);
        Hand::Empty
    }

    // Node n does what it wants done once an element came, which mostly is to push one. The answer says whether it is passive: one
    // with an action is not.
    // Choice: docs/DECISIONS.md#commonest-action-first
    #[inline(always)]
    fn answer_push(&mut self, n: usize, acts: &mut Acts, e: &mut Elem) -> Answer
        requires within { n < length self.old.nodes }
        requires busy { Busy AnyRow AnyLaw self.old n acts.old.items }
        requires few { all_asks self.old ≤ MOST_COUNT }
        requires still { AtNode self.old n (λ x. S.passive x ≡ true → acts.old.items ≡ []) }
        ensures after { done_in_hand result.hand e.new self.new ≡ acted_all self.old n acts.old.items }
        ensures held { IsHeld result.hand self.new }
        ensures acts { acts.new ≡ record acts.old { items = [] } }
        ensures passive { AtNode (done_in_hand result.hand e.new self.new) n (λ x. result.heard ≡ S.passive x) }
    {
        if let Some((j, x)) = acts.only_push() {
            let hand = self.push_held(n, j, x, e);
            return Answer { heard: false, hand };
        }
        self.answer_by_pull(n, acts, e)
    }

    // The same where it does not push: then it mostly pulls, or is passive, as at the end of a lane, and wants nothing done.
    #[inline(always)]
    fn answer_by_pull(&mut self, n: usize, acts: &mut Acts, e: &mut Elem) -> Answer
        requires within { n < length self.old.nodes }
        requires busy { Busy AnyRow AnyLaw self.old n acts.old.items }
        requires few { all_asks self.old ≤ MOST_COUNT }
        requires still { AtNode self.old n (λ x. S.passive x ≡ true → acts.old.items ≡ []) }
        ensures after { done_in_hand result.hand e.new self.new ≡ acted_all self.old n acts.old.items }
        ensures held { IsHeld result.hand self.new }
        ensures acts { acts.new ≡ record acts.old { items = [] } }
        ensures passive { AtNode (done_in_hand result.hand e.new self.new) n (λ x. result.heard ≡ S.passive x) }
    {
        if let Some(i) = acts.only_pull() {
            let hand = self.pull_held(n, i, e);
            return Answer { heard: false, hand };
        }
        let heard = self.perform_rest(n, acts);
        Answer {
            heard,
            hand: Hand::Empty,
        }
    }

    // The same once it was pulled: then it mostly pulls, or is passive, and else it mostly pushes.
    #[inline(always)]
    fn answer_pull(&mut self, n: usize, acts: &mut Acts, e: &mut Elem) -> Answer
        requires within { n < length self.old.nodes }
        requires busy { Busy AnyRow AnyLaw self.old n acts.old.items }
        requires few { all_asks self.old ≤ MOST_COUNT }
        requires still { AtNode self.old n (λ x. S.passive x ≡ true → acts.old.items ≡ []) }
        ensures after { done_in_hand result.hand e.new self.new ≡ acted_all self.old n acts.old.items }
        ensures held { IsHeld result.hand self.new }
        ensures acts { acts.new ≡ record acts.old { items = [] } }
        ensures passive { AtNode (done_in_hand result.hand e.new self.new) n (λ x. result.heard ≡ S.passive x) }
    {
        if let Some(i) = acts.only_pull() {
            let hand = self.pull_held(n, i, e);
            return Answer { heard: false, hand };
        }
        if let Some((j, x)) = acts.only_push() {
            let hand = self.push_held(n, j, x, e);
            return Answer { heard: false, hand };
        }
        let heard = self.perform_rest(n, acts);
        Answer {
            heard,
            hand: Hand::Empty,
        }
    }

    // Node n does what it wants done, which is neither a push nor a pull alone. The answer says whether it is passive.
    #[inline(always)]
    fn perform_rest(&mut self, n: usize, acts: &mut Acts) -> bool
        requires within { n < length self.old.nodes }
        requires busy { Busy AnyRow AnyLaw self.old n acts.old.items }
        requires few { all_asks self.old ≤ MOST_COUNT }
        requires still { AtNode self.old n (λ x. S.passive x ≡ true → acts.old.items ≡ []) }
        ensures after { self.new ≡ acted_all self.old n acts.old.items }
        ensures acts { acts.new ≡ record acts.old { items = [] } }
        ensures passive { AtNode self.new n (λ x. result ≡ S.passive x) }
    {
        if self.nodes[n].is_passive() {
            return true;
        }
        self.perform(n, acts)
    }

    // Takes out the wire whose event comes next: the one that waits first, or the one that was queued last, where it is chased.
    fn next(&mut self) -> Option<u32>
        ensures none { IfNone result ((self.old.queue ≡ []) × (self.new ≡ self.old)) }
        ensures some { IfSome result (λ w. (w < length self.new.wires) × ((is_queued self.new.queue w ≡ false) × Takes self.old w self.new)) }
    {
        self.queue.next()
    }

    // Handles the event of a wire that was taken out of the queue. An element with nothing behind it and a pull come first, since nearly
    // all events are these.
    #[inline(always)]
    fn handle(
        &mut self,
        alloc: Global,
        w: u32,
        acts: &mut Acts,
        e: &mut Elem,
    ) -> Result<Answer, NoMemory>
        requires within { w < length self.old.wires }
        requires absent { is_queued self.old.queue w ≡ false }
        requires laws { Settled S.port_state S.law S.asking S.moves (before self.old w) }
        requires few { all_asks self.old + 1 ≤ MOST_COUNT }
        requires empty { acts.old.items ≡ [] }
        requires room { LEAST_ACTS ≤ acts.old.room }
        requires ports { HaveRoom self.old.ports acts.old.room }
        ensures answered { IfOk result (λ a. EventHandled S.port_state S.law S.asking S.moves S.gone S.passive self.old (done_in_hand a.hand e.new self.new) w a.heard) }
        ensures held { IfOk result (λ a. IsHeld a.hand self.new) }
        ensures acts { OnOk result (acts.new ≡ acts.old) }
        ensures kept { OnErr result (AllKept S.keeps self.old.nodes self.new.nodes) }
    {
        let since = Snapshot::of(&*self);
        let ends = self.ends[w as usize];
        match self.tell(w) {
            Event::Push => {
                let x = self.take(w, false);
                let n = ends.to as usize;
                self.nodes[n].on_push(alloc, ends.input, x, acts)?;
                Ok(self.answer_push(n, acts, e))
            }
            Event::Pull => {
                let n = ends.from as usize;
                self.nodes[n].on_pull(alloc, ends.output, acts)?;
                Ok(self.answer_pull(n, acts, e))
            }
            event => {
                let heard = self.handle_closing(alloc, w, event, since, acts)?;
                Ok(Answer {
                    heard,
                    hand: Hand::Empty,
                })
            }
        }
    }

    // An element goes down wire w, and the node there takes it.
    #[inline(always)]
    fn go_down(
        &mut self,
        alloc: Global,
        w: u32,
        acts: &mut Acts,
        e: &mut Elem,
    ) -> Result<Answer, NoMemory>
        requires held { IsHeld (hands.Down w) self.old }
        requires laws { Settled S.port_state S.law S.asking S.moves (done_in_hand (hands.Down w) e.old self.old) }
        requires few { all_asks (done_in_hand (hands.Down w) e.old self.old) + 1 ≤ MOST_COUNT }
        requires empty { acts.old.items ≡ [] }
        requires room { LEAST_ACTS ≤ acts.old.room }
        requires ports { HaveRoom self.old.ports acts.old.room }
        ensures answered { IfOk result (λ a. EventHandled S.port_state S.law S.asking S.moves S.gone S.passive
            (put self.old w (moved_by (act.Push 0 e.old) (wire_at self.old w)) false) (done_in_hand a.hand e.new self.new) w a.heard) }
        ensures held { IfOk result (λ a. IsHeld a.hand self.new) }
        ensures acts { OnOk result (acts.new ≡ acts.old) }
        ensures kept { OnErr result (AllKept S.keeps self.old.nodes self.new.nodes) }
    {
        let ends = self.ends[w as usize];
        let n = ends.to as usize;
        self.pass(w, e);
        let swift = push_to(&mut self.nodes[n], alloc, ends.input, e, acts)?;
        Ok(self.answer_at_once(n, swift, acts, e))
    }

    // An element passes wire w, which is open.
    #[inline(always)]
    fn pass(&mut self, w: u32, e: &mut Elem)
        requires held { IsHeld (hands.Down w) self.old }
        ensures same { e.new ≡ e.old }
        ensures brings { delivery_of (moved_by (act.Push 0 e.old) (wire_at self.old w)).wire ≡ arrived (item.Elem e.old) false }
        ensures after { self.new ≡ put self.old w (delivered (moved_by (act.Push 0 e.old) (wire_at self.old w))) false }
    {
        self.queue.chase(false);
        let given = Item::Elem(mem::replace(e, no_elem()));
        self.wires[w as usize].pass(&given);
        if let Item::Elem(x) = given {
            put_beside(e, x);
        }
    }

    // An ask goes up wire w, and the node there hears of it.
    #[inline(always)]
    fn go_up(
        &mut self,
        alloc: Global,
        w: u32,
        acts: &mut Acts,
        e: &mut Elem,
    ) -> Result<Answer, NoMemory>
        requires held { IsHeld (hands.Up w) self.old }
        requires laws { Settled S.port_state S.law S.asking S.moves (done_in_hand (hands.Up w) e.old self.old) }
        requires few { all_asks (done_in_hand (hands.Up w) e.old self.old) + 1 ≤ MOST_COUNT }
        requires empty { acts.old.items ≡ [] }
        requires room { LEAST_ACTS ≤ acts.old.room }
        requires ports { HaveRoom self.old.ports acts.old.room }
        ensures answered { IfOk result (λ a. EventHandled S.port_state S.law S.asking S.moves S.gone S.passive
            (put self.old w (moved_by (act.Pull 0) (wire_at self.old w)) false) (done_in_hand a.hand e.new self.new) w a.heard) }
        ensures held { IfOk result (λ a. IsHeld a.hand self.new) }
        ensures acts { OnOk result (acts.new ≡ acts.old) }
        ensures kept { OnErr result (AllKept S.keeps self.old.nodes self.new.nodes) }
    {
        let ends = self.ends[w as usize];
        let n = ends.from as usize;
        self.ask(w);
        let asks = pull_from(&mut self.nodes[n], alloc, ends.output, acts)?;
        Ok(self.answer_asked(n, asks, acts, e))
    }

    // The node at the output of wire w, which is open, hears that it was asked.
    #[inline(always)]
    fn ask(&mut self, w: u32)
        requires held { IsHeld (hands.Up w) self.old }
        ensures brings { delivery_of (moved_by (act.Pull 0) (wire_at self.old w)).wire ≡ pull }
        ensures after { self.new ≡ put self.old w (delivered (moved_by (act.Pull 0) (wire_at self.old w))) false }
    {
        self.queue.chase(true);
        self.wires[w as usize].ask();
    }

    // Node n pushes the element that stands beside the hand at its first output, in hand where nothing waits.
    #[inline(always)]
    fn push_beside(&mut self, n: usize, e: &mut Elem) -> Hand
        requires { Able self.old n (act.Push 0 e.old) }
        ensures after { done_in_hand result e.new self.new ≡ acted self.old n (act.Push 0 e.old) }
        ensures held { IsHeld result self.new }
        ensures nodes { self.new.nodes ≡ self.old.nodes }
    {
        let w = self.ports[n].output(0);
        if self.queue.is_empty() && self.wires[w as usize].can_push() {
            return Hand::Down(w);
        }
        self.push_at(w, mem::replace(e, no_elem()));
        Hand::Empty
    }

    // Node n does what it wants done once it answered at once.
    #[inline(always)]
    fn answer_at_once(&mut self, n: usize, swift: Swift, acts: &mut Acts, e: &mut Elem) -> Answer
        requires within { n < length self.old.nodes }
        requires busy { Busy AnyRow AnyLaw self.old n (acts_at_once swift e.old acts.old.items) }
        requires few { all_asks self.old ≤ MOST_COUNT }
        requires still { AtNode self.old n (λ x. S.passive x ≡ true → acts_at_once swift e.old acts.old.items ≡ []) }
        requires none { swift ≡ swifts.Gives → acts.old.items ≡ [] }
        requires none_asked { swift ≡ swifts.Asks → acts.old.items ≡ [] }
        ensures after { done_in_hand result.hand e.new self.new ≡ acted_all self.old n (acts_at_once swift e.old acts.old.items) }
        ensures held { IsHeld result.hand self.new }
        ensures acts { acts.new ≡ record acts.old { items = [] } }
        ensures passive { AtNode (done_in_hand result.hand e.new self.new) n (λ x. result.heard ≡ S.passive x) }
    {
        match swift {
            Swift::Gives => {
                let hand = self.push_beside(n, e);
                Answer { heard: false, hand }
            }
            Swift::Asks => {
                let hand = self.pull_held(n, 0, e);
                Answer { heard: false, hand }
            }
            Swift::Rests => self.answer_push(n, acts, e),
            Swift::Acts => {
                let heard = self.perform(n, acts);
                Answer {
                    heard,
                    hand: Hand::Empty,
                }
            }
        }
    }

    // The same once it was asked, and asked its input for that alone, or not.
    #[inline(always)]
    fn answer_asked(&mut self, n: usize, asks: bool, acts: &mut Acts, e: &mut Elem) -> Answer
        requires within { n < length self.old.nodes }
        requires busy { Busy AnyRow AnyLaw self.old n (acts_asked asks acts.old.items) }
        requires few { all_asks self.old ≤ MOST_COUNT }
        requires still { AtNode self.old n (λ x. S.passive x ≡ true → acts_asked asks acts.old.items ≡ []) }
        requires none { asks ≡ true → acts.old.items ≡ [] }
        ensures after { done_in_hand result.hand e.new self.new ≡ acted_all self.old n (acts_asked asks acts.old.items) }
        ensures held { IsHeld result.hand self.new }
        ensures acts { acts.new ≡ record acts.old { items = [] } }
        ensures passive { AtNode (done_in_hand result.hand e.new self.new) n (λ x. result.heard ≡ S.passive x) }
    {
        if asks {
            let hand = self.pull_held(n, 0, e);
            return Answer { heard: false, hand };
        }
        self.answer_pull(n, acts, e)
    }

    // Does at its wire what is in hand, which then has its place in the queue.
    fn put_down(&mut self, hand: Hand, e: Elem)
        requires { IsHeld hand self.old }
        ensures { self.new ≡ done_in_hand hand e self.old }
    {
        match hand {
            Hand::Empty => {}
            Hand::Down(w) => self.push_at(w, e),
            Hand::Up(w) => self.pull_at(w),
        }
    }

    // One event: of what is in hand, or else of the queue. None comes where no event is left.
    #[inline(always)]
    fn step(
        &mut self,
        alloc: Global,
        hand: Hand,
        acts: &mut Acts,
        e: &mut Elem,
    ) -> Result<Option<Came>, NoMemory>
        requires held { IsHeld hand self.old }
        requires laws { Settled S.port_state S.law S.asking S.moves (done_in_hand hand e.old self.old) }
        requires few { all_asks (done_in_hand hand e.old self.old) + 1 ≤ MOST_COUNT }
        requires empty { acts.old.items ≡ [] }
        requires room { LEAST_ACTS ≤ acts.old.room }
        requires ports { HaveRoom self.old.ports acts.old.room }
        ensures none { result ≡ Ok None → (hand ≡ hands.Empty) × ((self.old.queue ≡ []) × (self.new ≡ self.old)) }
        ensures steps { IfOk result (λ o. IfSome o (λ a. EventsLead S.port_state S.law S.asking S.moves S.gone S.passive
            (done_in_hand hand e.old self.old) (done_in_hand a.hand e.new self.new) 1)) }
        ensures untouched { IfOk result (λ o. IfSome o (λ a. Untouched S.passive (touched a.heard a.wire)
            (done_in_hand hand e.old self.old) (done_in_hand a.hand e.new self.new))) }
        ensures within { IfOk result (λ o. IfSome o (λ a. a.wire < length self.new.wires)) }
        ensures held { IfOk result (λ o. IfSome o (λ a. IsHeld a.hand self.new)) }
        ensures acts { OnOk result (acts.new ≡ acts.old) }
        ensures kept { OnErr result (AllKept S.keeps self.old.nodes self.new.nodes) }
    {
        match hand {
            Hand::Empty => {
                let Some(w) = self.next() else {
                    return Ok(None);
                };
                let answer = self.handle(alloc, w, acts, e)?;
                Ok(Some(came_of(w, answer)))
            }
            Hand::Down(w) => {
                let answer = self.go_down(alloc, w, acts, e)?;
                Ok(Some(came_of(w, answer)))
            }
            Hand::Up(w) => {
                let answer = self.go_up(alloc, w, acts, e)?;
                Ok(Some(came_of(w, answer)))
            }
        }
    }

    // Choice: docs/DECISIONS.md#no-step-between
    /// Handles at most `limit` events, one unit each, and fewer only where none is left. It answers how many. After `NoMemory`
    /// each node has kept what outlives that since the last moment between two events, and the graph is only taken apart.
    pub fn execute(&mut self, alloc: Global, limit: u32, acts: &mut Acts) -> Result<u32, NoMemory>
        requires laws { Settled S.port_state S.law S.asking S.moves self.old }
        requires few { all_asks self.old + limit ≤ MOST_COUNT }
        requires empty { acts.old.items ≡ [] }
        requires room { LEAST_ACTS ≤ acts.old.room }
        requires ports { HaveRoom self.old.ports acts.old.room }
        ensures laws { OnOk result (Settled S.port_state S.law S.asking S.moves self.new) }
        ensures on { OnOk result (NetGoesOn self.old self.new) }
        ensures uses { IfOk result (λ used. Uses self.old self.new used) }
        ensures steps { IfOk result (λ used. EventsLead S.port_state S.law S.asking S.moves S.gone S.passive self.old self.new used) }
        ensures within { IfOk result (λ used. used ≤ limit) }
        ensures rest { IfOk result (λ used. used < limit → self.new.queue ≡ []) }
        ensures gone { OnOk result (map S.gone self.new.nodes ≡ map S.gone self.old.nodes) }
        ensures still { OnOk result (StandsStill S.passive self.old self.new) }
        ensures acts { OnOk result (acts.new ≡ acts.old) }
        ensures breaks { OnErr result (BreaksOff S.port_state S.law S.asking S.moves S.keeps self.old self.new.nodes) }
        ensures count { length self.new.nodes ≡ length self.old.nodes }
    {
        self.settle();
        let mut e = no_elem();
        let mut hand = Hand::Empty;
        for used in 0..limit {
            let Some(came) = self.step(alloc, hand, acts, &mut e)? else {
                return Ok(used);
            };
            hand = came.hand;
        }
        self.put_down(hand, e);
        Ok(limit)
    }

    /// Handles events as `execute` does, but stops behind one that a passive node has heard of, and says on which wire that was: so
    /// whoever acts for the passive nodes has to look at that wire alone. It stops behind any other event too where a source may wait at
    /// its next ask. Fewer than `limit` without such a wire only where no event is left. What was pushed or pulled outside of the handlers
    /// since the last event counts as caused by it, and may be chased: whoever does not want that settles before.
    // Out of line, so that its registers are its own.
    #[inline(never)]
    pub fn advance(
        &mut self,
        alloc: Global,
        limit: u32,
        acts: &mut Acts,
    ) -> Result<Advance, NoMemory>
        requires laws { Settled S.port_state S.law S.asking S.moves self.old }
        requires few { all_asks self.old + limit ≤ MOST_COUNT }
        requires empty { acts.old.items ≡ [] }
        requires room { LEAST_ACTS ≤ acts.old.room }
        requires ports { HaveRoom self.old.ports acts.old.room }
        ensures laws { OnOk result (Settled S.port_state S.law S.asking S.moves self.new) }
        ensures on { OnOk result (NetGoesOn self.old self.new) }
        ensures uses { IfOk result (λ a. Uses self.old self.new a.used) }
        ensures steps { IfOk result (λ a. EventsLead S.port_state S.law S.asking S.moves S.gone S.passive self.old self.new a.used) }
        ensures within { IfOk result (λ a. a.used ≤ limit) }
        ensures rest { IfOk result (λ a. a.used < limit → a.heard ≡ None → self.new.queue ≡ []) }
        ensures gone { OnOk result (map S.gone self.new.nodes ≡ map S.gone self.old.nodes) }
        ensures still { OnOk result (StandsStill S.passive self.old self.new) }
        ensures untouched { IfOk result (λ a. Untouched S.passive a.heard self.old self.new) }
        ensures acts { OnOk result (acts.new ≡ acts.old) }
        ensures none { IfOk result (λ a. a.used ≡ 0 → self.new ≡ self.old) }
        ensures heard { IfOk result (λ a. (w : ℕ) → a.heard ≡ Some w → (1 ≤ a.used) × (w < length self.new.wires)) }
        ensures breaks { OnErr result (BreaksAside S.port_state S.law S.asking S.moves S.gone S.passive S.keeps self.old self.new.nodes) }
        ensures count { length self.new.nodes ≡ length self.old.nodes }
    {
        let mut e = no_elem();
        let mut hand = Hand::Empty;
        for used in 0..limit {
            let Some(came) = self.step(alloc, hand, acts, &mut e)? else {
                return Ok(Advance { used, heard: None });
            };
            hand = came.hand;
            if is_to_stop(came.heard, acts.any_drained()) {
                self.put_down(hand, e);
                return Ok(Advance {
                    used: used + 1,
                    heard: Some(came.wire),
                });
            }
        }
        self.put_down(hand, e);
        Ok(Advance {
            used: limit,
            heard: None,
        })
    }
}
