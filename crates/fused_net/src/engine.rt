// Nodes joined by wires: one action, one event, and `execute`.
ghost use Rattle.std.specs.Prelude.{◌≡◌, ℕ, true, ◌+◌, ◌^◌, ◌<◌, ◌≤◌, [], ◌∷◌, ◌++◌, false, None, Some, OnOk, OnErr, IfOk, IfNone, IfSome, IsSome, IsTrue, ◌↔◌, ◌≢◌, length, map, replicate, slice_get};
ghost use Rattle.elem_core.specs.Prefix.{IsPrefix};
ghost use Rattle.elem_core.specs.declared.count.TheConstants.{MOST_COUNT};
ghost use Rattle.port_core.specs.Call.{Meets};
ghost use Rattle.port_core.specs.Ring.{is_queued};
ghost use Rattle.port_core.specs.Wire.{nothing, delivery_of};
ghost use Rattle.port_core.specs.declared.act.Act.TheVariants as act;
ghost use Rattle.port_core.specs.declared.conn.Event.TheVariants as events;
ghost use Rattle.stage_core.specs.declared.stage.TheConstants.{LEAST_ACTS};
ghost use Rattle.stage_core.specs.Rooms.{HasRoom};
ghost use Rattle.stage_core.specs.Handling.{PullsAs, StaysPassive, Handles};
ghost use Rattle.stage_core.specs.Handing.{cancel_first};
ghost use Rattle.port_core.specs.Cell.{new_cell, moved_by, brought_in, Tells};
ghost use Rattle.port_core.specs.Decoding.{can_push, can_pull};
ghost use Rattle.elem_core.specs.Items.{elements};
ghost use Rattle.fused_net.specs.Net.{acted, acted_all, event_told, put, wire_at, end_at, Able, port_at, node_for, call_for, IsBrought, before, Takes};
ghost use Rattle.fused_net.specs.declared.queue.TheConstants.{MOST_CHASES};
ghost use Rattle.fused_net.specs.Laws.{AnyRow, AnyLaw, Wired, first_view, Settled, Busy, Starting, NetGoesOn, AllKept, BreaksOff, IsMinded, HaveRoom};
ghost use Rattle.fused_net.specs.Costs.{all_asks, Uses};
ghost use Rattle.fused_net.specs.Poking.{AtNode, HandsAt, TellsPoked};
ghost use Rattle.fused_net.specs.Outside.{BreaksAside, StandsStill, Untouched};
ghost use Rattle.fused_net.specs.Events.{EventsLead, EventHandled};

use crate::net::{Ports, WireEnds};
use crate::queue::EventQueue;
use elem_core::elem::Elem;
use elem_core::item::Item;
use elem_core::why::{Cause, NoMemory};
use port_core::act::Act;
use port_core::acts::Acts;
use port_core::conn::Event;
use port_core::ring::EventRing;
use port_core::wire::Wire;
use stage_core::stage::Stage;
use std::alloc::Global;
use std::marker::Model;
use std::snapshot::Snapshot;

/// Nodes joined by wires, and the wires that have an event.
#[derive(Drop)]
pub struct Engine<S> {
    pub(crate) nodes: Vec<S>,
    pub(crate) wires: Vec<Wire>,
    pub(crate) ends: Vec<WireEnds>,
    pub(crate) ports: Vec<Ports>,
    pub(crate) queue: EventQueue,
    firsts: Snapshot<Vec<S>>,
}

impl<S> Model for Engine<S> {
    ghost use Rattle.std.specs.Prelude.{◌≡◌, length};
    ghost use Rattle.fused_net.specs.Net.{Net};
    ghost use Rattle.fused_net.specs.Queue.{waiting};
    ghost use Rattle.std.specs.Coded.{codes};
    ghost use Rattle.elem_core.specs.TreeCode.{tree_coded};

    ghost Value = { Net S };

    ghost coded = { Prim.hlevel (codes, tree_coded) };

    ghost view = { λ e. record {
      nodes = e.nodes.items;
      firsts = e.firsts.value.items;
      wires = e.wires.items;
      ends = e.ends.items;
      ports = e.ports.items;
      queue = waiting e.queue;
    } };

    ghost invariant = { λ e. e.queue.size ≡ length e.wires.items };
}

/// How far a graph went.
#[derive(Clone, Copy, PartialEq, Eq, Debug)]
pub struct Advance {
    /// How many events were handled.
    pub used: u32,
    /// The wire of the last of them, where a passive node heard of it.
    pub heard: Option<u32>,
}

/// So many wires on which nothing happened.
pub fn unused_wires(alloc: Global, count: usize) -> Result<Vec<Wire>, NoMemory>
    ensures { IfOk result (λ wires. wires.items ≡ replicate count new_cell) }
{
    let mut wires = Vec::with_capacity(alloc, count)?;
    for _i in 0..count {
        wires.push_reserved(Wire::new());
    }
    Ok(wires)
}

// What an event but a pull brings to an end of its wire.
#[derive(Drop)]
enum Delivered {
    // The input's cancel, to the output.
    Cancel,
    // An element or an end, to the input.
    Arrived(Item),
}

fn node_of(event: &Delivered, ends: WireEnds) -> u32
    ensures { result ≡ node_for event.now ends }
{
    match event {
        Delivered::Cancel => ends.from,
        Delivered::Arrived(_) => ends.to,
    }
}

// Calls the handler of a node that the event is for.
#[inline(always)]
fn call<S: Stage>(
    node: &mut S,
    alloc: Global,
    ends: WireEnds,
    event: Delivered,
    acts: &mut Acts,
) -> Result<(), NoMemory>
    requires meets { Meets (call_for event ends) (S.port_state node.old) }
    requires empty { acts.old.items ≡ [] }
    requires room { LEAST_ACTS ≤ acts.old.room }
    requires ports { HasRoom (call_for event ends) (S.port_state node.old) acts.old.room }
    ensures handles { OnOk result (Handles S.port_state S.law (call_for event ends) node.old node.new acts.new.items) }
    ensures pulls { OnOk result (PullsAs (call_for event ends) (S.port_state node.old) (S.asking node.new) acts.new.items) }
    ensures grows { OnOk result (IsPrefix (S.moves node.old) (S.moves node.new)) }
    ensures passive { OnOk result (StaysPassive (S.passive node.old) (S.passive node.new) acts.new.items) }
    ensures gone { OnOk result (S.gone node.new ≡ S.gone node.old) }
    ensures room { OnOk result (acts.new.room ≡ acts.old.room) }
    ensures kept { OnErr result (S.keeps node.old node.new) }
{
    match event {
        Delivered::Cancel => node.on_cancel(alloc, ends.output, acts),
        Delivered::Arrived(Item::Elem(e)) => node.on_push(alloc, ends.input, e, acts),
        Delivered::Arrived(Item::Ended) => node.on_finish(alloc, ends.input, acts),
        Delivered::Arrived(Item::Failed(cause)) => node.on_fail(alloc, ends.input, cause, acts),
    }
}

impl<S: Stage> Engine<S> {
    /// Joins nodes that were not started by wires on which nothing happened, with an empty ring for them. `ends` has the ports at
    /// the ends of each wire, and `ports` the wires of each node. It takes no memory.
    pub fn new(
        nodes: Vec<S>,
        ends: Vec<WireEnds>,
        ports: Vec<Ports>,
        wires: Vec<Wire>,
        ring: EventRing,
    ) -> Engine<S>
        requires wired { Wired ends.items ports.items (length nodes.items) (length ends.items) }
        requires wires { wires.items ≡ replicate (length ends.items) new_cell }
        requires ring { ring ≡ record { size = length ends.items; queue = [] } }
        requires fresh { (n : ℕ) (x : S) → slice_get nodes.items n ≡ Some x → S.fresh x (first_view (port_at ports.items n)) }
        ensures starting { Starting S.port_state S.law S.asking S.moves S.fresh result 0 }
        ensures nodes { result.nodes ≡ nodes.items }
        ensures firsts { result.firsts ≡ nodes.items }
        ensures ends { result.ends ≡ ends.items }
        ensures ports { result.ports ≡ ports.items }
        ensures wires { result.wires ≡ wires.items }
        ensures asks { all_asks result ≡ 0 }
    {
        let firsts = Snapshot::of(&nodes);
        let queue = EventQueue::new(ring);
        Engine {
            nodes,
            wires,
            ends,
            ports,
            queue,
            firsts,
        }
    }

    // Starts node n.
    fn start_at(&mut self, alloc: Global, n: usize, acts: &mut Acts) -> Result<(), NoMemory>
        requires starting { Starting S.port_state S.law S.asking S.moves S.fresh self.old n }
        requires within { n < length self.old.nodes }
        requires few { all_asks self.old ≤ MOST_COUNT }
        requires kept { AllKept S.keeps self.old.firsts self.old.nodes }
        requires empty { acts.old.items ≡ [] }
        requires room { LEAST_ACTS ≤ acts.old.room }
        requires ports { HaveRoom self.old.ports acts.old.room }
        ensures starting { OnOk result (Starting S.port_state S.law S.asking S.moves S.fresh self.new (n + 1)) }
        ensures on { OnOk result (NetGoesOn self.old self.new) }
        ensures asks { OnOk result (all_asks self.new ≤ all_asks self.old) }
        ensures gone { OnOk result (map S.gone self.new.nodes ≡ map S.gone self.old.nodes) }
        ensures still { OnOk result (StandsStill S.passive self.old self.new) }
        ensures acts { OnOk result (acts.new ≡ acts.old) }
        ensures kept { AllKept S.keeps self.old.firsts self.new.nodes }
    {
        self.nodes[n].start(alloc, acts)?;
        self.perform_all(n, acts);
        Ok(())
    }

    /// Starts every node, in their order. Also after `NoMemory` each node is as it was handed in, or has kept what outlives
    /// its start, and the graph is only taken apart.
    pub fn start(&mut self, alloc: Global, acts: &mut Acts) -> Result<(), NoMemory>
        requires starting { Starting S.port_state S.law S.asking S.moves S.fresh self.old 0 }
        requires few { all_asks self.old ≤ MOST_COUNT }
        requires empty { acts.old.items ≡ [] }
        requires room { LEAST_ACTS ≤ acts.old.room }
        requires ports { HaveRoom self.old.ports acts.old.room }
        ensures laws { OnOk result (Settled S.port_state S.law S.asking S.moves self.new) }
        ensures on { OnOk result (NetGoesOn self.old self.new) }
        ensures asks { OnOk result (all_asks self.new ≤ all_asks self.old) }
        ensures gone { OnOk result (map S.gone self.new.nodes ≡ map S.gone self.old.nodes) }
        ensures still { OnOk result (StandsStill S.passive self.old self.new) }
        ensures acts { OnOk result (acts.new ≡ acts.old) }
        ensures kept { AllKept S.keeps self.old.firsts self.new.nodes }
        ensures count { length self.new.nodes ≡ length self.old.nodes }
    {
        let count = self.nodes.len();
        for n in 0..count {
            self.start_at(alloc, n, acts)?;
        }
        Ok(())
    }

    // Node n acts at its wire.
    #[inline(always)]
    fn act(&mut self, n: usize, act: Act)
        requires { Able self.old n act }
        ensures { self.new ≡ acted self.old n act }
    {
        match act {
            Act::Pull(i) => self.pull(n, i),
            Act::Push(j, e) => self.push(n, j, e),
            Act::Complete(j) => self.complete(n, j),
            Act::FailOut(j, cause) => self.fail(n, j, cause),
            Act::Cancel(i) => self.cancel(n, i),
        }
    }

    // Node n pulls. The event of that may be the next one.
    #[inline(always)]
    fn pull(&mut self, n: usize, i: u8)
        requires { Able self.old n (act.Pull i) }
        ensures { self.new ≡ acted self.old n (act.Pull i) }
    {
        let w = self.ports[n].input(i);
        self.pull_at(w);
    }

    // The node at the input of wire w pulls there.
    #[inline(always)]
    pub(crate) fn pull_at(&mut self, w: u32)
        requires within { w < length self.old.wires }
        requires free { can_pull (wire_at self.old w).wire.conn ≡ true → is_queued self.old.queue w ≡ false }
        ensures { self.new ≡ put self.old w (moved_by (act.Pull 0) (wire_at self.old w)) (can_pull (wire_at self.old w).wire.conn) }
    {
        if self.wires[w as usize].pull() {
            self.queue.pull(w);
        }
    }

    // Node n pushes an element. The event of that may be the next one.
    #[inline(always)]
    fn push(&mut self, n: usize, j: u8, e: Elem)
        requires { Able self.old n (act.Push j e) }
        ensures { self.new ≡ acted self.old n (act.Push j e) }
    {
        let w = self.ports[n].output(j);
        self.push_at(w, e);
    }

    // The node at the output of wire w pushes an element there.
    #[inline(always)]
    pub(crate) fn push_at(&mut self, w: u32, e: Elem)
        requires within { w < length self.old.wires }
        requires free { can_push (wire_at self.old w).wire.conn ≡ true → is_queued self.old.queue w ≡ false }
        requires count { elements (wire_at self.old w).wire.sent + 1 < 2 ^ 64 }
        ensures { self.new ≡ put self.old w (moved_by (act.Push 0 e) (wire_at self.old w)) (can_push (wire_at self.old w).wire.conn) }
    {
        if self.wires[w as usize].push(e) {
            self.queue.push(w);
        }
    }

    #[inline(never)]
    fn complete(&mut self, n: usize, j: u8)
        requires { Able self.old n (act.Complete j) }
        ensures { self.new ≡ acted self.old n (act.Complete j) }
    {
        let w = self.ports[n].output(j);
        let queued = self.wires[w as usize].complete();
        self.queue.close(w, queued);
    }

    #[inline(never)]
    fn fail(&mut self, n: usize, j: u8, cause: Cause)
        requires { Able self.old n (act.FailOut j cause) }
        ensures { self.new ≡ acted self.old n (act.FailOut j cause) }
    {
        let w = self.ports[n].output(j);
        let queued = self.wires[w as usize].fail(cause);
        self.queue.close(w, queued);
    }

    #[inline(never)]
    fn cancel(&mut self, n: usize, i: u8)
        requires { Able self.old n (act.Cancel i) }
        ensures { self.new ≡ acted self.old n (act.Cancel i) }
    {
        let w = self.ports[n].input(i);
        let queued = self.wires[w as usize].cancel();
        self.queue.close(w, queued);
    }

    // The same, whatever it is that it wants done.
    #[inline(never)]
    pub(crate) fn perform(&mut self, n: usize, acts: &mut Acts) -> bool
        requires within { n < length self.old.nodes }
        requires busy { Busy AnyRow AnyLaw self.old n acts.old.items }
        requires few { all_asks self.old ≤ MOST_COUNT }
        requires still { AtNode self.old n (λ x. S.passive x ≡ true → acts.old.items ≡ []) }
        ensures after { self.new ≡ acted_all self.old n acts.old.items }
        ensures acts { acts.new ≡ record acts.old { items = [] } }
        ensures passive { AtNode self.new n (λ x. result ≡ S.passive x) }
    {
        match acts.only() {
            Some(only) => {
                self.act(n, only);
                false
            }
            None => {
                let passive = self.nodes[n].is_passive();
                self.perform_all(n, acts);
                passive
            }
        }
    }

    // Node n does all its actions, in their order. Their events wait for their turns, so that none of them runs ahead of the others.
    #[inline(never)]
    fn perform_all(&mut self, n: usize, acts: &mut Acts)
        requires busy { Busy AnyRow AnyLaw self.old n acts.old.items }
        requires few { all_asks self.old ≤ MOST_COUNT }
        ensures after { self.new ≡ acted_all self.old n acts.old.items }
        ensures acts { acts.new ≡ record acts.old { items = [] } }
    {
        let Some(last) = acts.take_last() else {
            return;
        };
        match acts.only() {
            Some(first) => {
                self.act(n, first);
                self.act(n, last);
            }
            None => self.perform_many(n, acts, last),
        }
        self.settle();
    }

    // The same where they are not two, and the last was taken out of the list.
    #[inline(never)]
    fn perform_many(&mut self, n: usize, acts: &mut Acts, last: Act)
        requires busy { Busy AnyRow AnyLaw self.old n (acts.old.items ++ last ∷ []) }
        requires few { all_asks self.old ≤ MOST_COUNT }
        ensures after { self.new ≡ acted_all self.old n (acts.old.items ++ last ∷ []) }
        ensures acts { acts.new ≡ record acts.old { items = [] } }
    {
        acts.reverse();
        while let Some(act) = acts.take_last() {
            self.act(n, act);
        }
        self.act(n, last);
    }

    // Tells an end of the event of a wire that was taken out of the queue.
    #[inline(always)]
    pub(crate) fn tell(&mut self, w: u32) -> Event
        requires { w < length self.old.wires }
        ensures tells { Tells result (wire_at self.old w) (wire_at self.new w) }
        ensures after { self.new ≡ put self.old w (wire_at self.new w) false }
    {
        self.wires[w as usize].tell()
    }

    // Hands out the element that waits at a wire, which has to be queued again or not.
    #[inline(always)]
    pub(crate) fn take(&mut self, w: u32, more: bool) -> Elem
        requires within { w < length self.old.wires }
        requires absent { more ≡ true → is_queued self.old.queue w ≡ false }
        requires there { IsSome (wire_at self.old w).wire.conn.to_grab }
        requires open { (wire_at self.old w).wire.conn.in_closed ≡ false }
        ensures value { (wire_at self.old w).wire.conn.to_grab ≡ Some result }
        ensures after { self.new ≡ put self.old w (brought_in result (wire_at self.old w)) more }
    {
        let e = self.wires[w as usize].take();
        if more {
            self.queue.enqueue(w);
        }
        e
    }

    // Delivers any other event, which an end of wire w was told of, and says what it brings: `since` is the graph before that.
    #[inline(always)]
    fn deliver(&mut self, w: u32, event: Event, since: Snapshot<Engine<S>>) -> Option<Delivered>
        requires within { w < length since.value.wires }
        requires absent { is_queued since.value.queue w ≡ false }
        requires no_push { event ≢ events.Push }
        requires no_pull { event ≢ events.Pull }
        requires tells { Tells event (wire_at since.value w) (wire_at self.old w) }
        requires after { self.old ≡ put since.value w (wire_at self.old w) false }
        ensures none { IfNone result (delivery_of (wire_at since.value w).wire ≡ nothing) }
        ensures some { IfSome result (λ b. IsBrought b (delivery_of (wire_at since.value w).wire)) }
        ensures after { self.new ≡ event_told since.value w }
    {
        match event {
            Event::Nothing => None,
            Event::Cancel => Some(Delivered::Cancel),
            Event::PushThenClose => Some(Delivered::Arrived(Item::Elem(self.take(w, true)))),
            Event::Finish | Event::Fail => Some(Delivered::Arrived(self.wires[w as usize].end())),
            Event::Push | Event::Pull => unreachable!(),
        }
    }

    // Handles such an event.
    #[inline(never)]
    pub(crate) fn handle_closing(
        &mut self,
        alloc: Global,
        w: u32,
        event: Event,
        since: Snapshot<Engine<S>>,
        acts: &mut Acts,
    ) -> Result<bool, NoMemory>
        requires within { w < length since.value.wires }
        requires absent { is_queued since.value.queue w ≡ false }
        requires laws { Settled S.port_state S.law S.asking S.moves (before since.value w) }
        requires few { all_asks since.value + 1 ≤ MOST_COUNT }
        requires no_push { event ≢ events.Push }
        requires no_pull { event ≢ events.Pull }
        requires tells { Tells event (wire_at since.value w) (wire_at self.old w) }
        requires after { self.old ≡ put since.value w (wire_at self.old w) false }
        requires empty { acts.old.items ≡ [] }
        requires room { LEAST_ACTS ≤ acts.old.room }
        requires ports { HaveRoom since.value.ports acts.old.room }
        ensures answered { IfOk result (λ heard. EventHandled S.port_state S.law S.asking S.moves S.gone S.passive since.value self.new w heard) }
        ensures acts { OnOk result (acts.new ≡ acts.old) }
        ensures kept { OnErr result (AllKept S.keeps since.value.nodes self.new.nodes) }
    {
        let ends = self.ends[w as usize];
        let Some(event) = self.deliver(w, event, since) else {
            return Ok(false);
        };
        let n = node_of(&event, ends) as usize;
        call(&mut self.nodes[n], alloc, ends, event, acts)?;
        Ok(self.perform(n, acts))
    }

    /// Each wire that has an event waits for its turn: only what is caused from now on is chased. It takes no memory.
    pub fn settle(&mut self)
        ensures { self.new ≡ self.old }
    {
        self.queue.settle();
    }

    /// Whether nothing waits at node n to leave the graph.
    pub fn is_clear(&self, n: u32) -> bool
        requires { n < length self.now.nodes }
        ensures { AtNode self.now n (λ x. IsTrue result ↔ (S.waits x ≡ [])) }
    {
        self.nodes[n as usize].is_clear()
    }

    /// Hands out what waits at node n to leave the graph, first come first. It takes no memory and costs no unit.
    pub fn hand_out(&mut self, n: u32) -> Option<Item>
        requires laws { Settled S.port_state S.law S.asking S.moves self.old }
        requires within { n < length self.old.nodes }
        ensures none { IfNone result ((self.new ≡ self.old) × AtNode self.old n (λ x. S.waits x ≡ [])) }
        ensures some { IfSome result (λ i. HandsAt S.gone S.waits self.old n (i ∷ []) self.new) }
        ensures on { NetGoesOn self.old self.new }
        ensures uses { Uses self.old self.new 0 }
        ensures laws { Settled S.port_state S.law S.asking S.moves self.new }
    {
        self.nodes[n as usize].hand_out()
    }

    /// Drops what waits at node n to leave the graph. It takes no memory and costs no unit.
    pub fn let_go(&mut self, n: u32)
        requires laws { Settled S.port_state S.law S.asking S.moves self.old }
        requires within { n < length self.old.nodes }
        ensures hands { AtNode self.old n (λ x. HandsAt S.gone S.waits self.old n (S.waits x) self.new) }
        ensures on { NetGoesOn self.old self.new }
        ensures uses { Uses self.old self.new 0 }
        ensures laws { Settled S.port_state S.law S.asking S.moves self.new }
    {
        self.nodes[n as usize].let_go();
    }

    // Choice: docs/DECISIONS.md#acts-from-outside
    /// Node n acts outside of its handlers, as the stage does where a lane comes in or goes out. The port rules allow the
    /// action, and the node's port state and its law hold once it is done. It takes no memory and costs no unit.
    pub fn poke(&mut self, n: u32, act: Act)
        requires laws { Settled S.port_state S.law S.asking S.moves self.old }
        requires within { n < length self.old.nodes }
        requires may { IsMinded S.port_state S.law self.old n (act ∷ []) }
        requires tells { TellsPoked S.asking self.old n act }
        requires few { all_asks self.old ≤ MOST_COUNT }
        ensures after { self.new ≡ acted self.old n act }
        ensures laws { Settled S.port_state S.law S.asking S.moves self.new }
        ensures on { NetGoesOn self.old self.new }
        ensures uses { Uses self.old self.new 0 }
    {
        self.act(n as usize, act);
    }

    /// The node at the output of wire w pushes an element there outside of its handlers, as `poke` says.
    #[inline(always)]
    pub fn poke_push(&mut self, w: u32, e: Elem)
        requires laws { Settled S.port_state S.law S.asking S.moves self.old }
        requires within { w < length self.old.wires }
        requires may { IsMinded S.port_state S.law self.old (end_at self.old.ends w).from (act.Push (end_at self.old.ends w).output e ∷ []) }
        requires few { all_asks self.old ≤ MOST_COUNT }
        ensures after { self.new ≡ acted self.old (end_at self.old.ends w).from (act.Push (end_at self.old.ends w).output e) }
        ensures laws { Settled S.port_state S.law S.asking S.moves self.new }
        ensures on { NetGoesOn self.old self.new }
        ensures uses { Uses self.old self.new 0 }
    {
        self.push_at(w, e);
    }

    /// The node at the input of wire w pulls there outside of its handlers, as `poke` says.
    #[inline(always)]
    pub fn poke_pull(&mut self, w: u32)
        requires laws { Settled S.port_state S.law S.asking S.moves self.old }
        requires within { w < length self.old.wires }
        requires may { IsMinded S.port_state S.law self.old (end_at self.old.ends w).to (act.Pull (end_at self.old.ends w).input ∷ []) }
        requires tells { TellsPoked S.asking self.old (end_at self.old.ends w).to (act.Pull (end_at self.old.ends w).input) }
        requires few { all_asks self.old ≤ MOST_COUNT }
        ensures after { self.new ≡ acted self.old (end_at self.old.ends w).to (act.Pull (end_at self.old.ends w).input) }
        ensures laws { Settled S.port_state S.law S.asking S.moves self.new }
        ensures on { NetGoesOn self.old self.new }
        ensures uses { Uses self.old self.new 0 }
    {
        self.pull_at(w);
    }

    // Node n cancels its first input, where it failed, and else does nothing.
    fn cancel_if(&mut self, n: usize, failed: bool)
        requires { failed ≡ true → Able self.old n (act.Cancel 0) }
        ensures { self.new ≡ acted_all self.old n (cancel_first failed) }
    {
        if failed {
            self.cancel(n, 0);
        }
    }

    // Node n writes what it has put off, and cancels its first input where that failed.
    fn put_off_at(&mut self, n: usize)
        requires laws { Settled S.port_state S.law S.asking S.moves self.old }
        requires within { n < length self.old.nodes }
        requires few { all_asks self.old ≤ MOST_COUNT }
        ensures laws { Settled S.port_state S.law S.asking S.moves self.new }
        ensures on { NetGoesOn self.old self.new }
        ensures uses { Uses self.old self.new 0 }
        ensures gone { map S.gone self.new.nodes ≡ map S.gone self.old.nodes }
        ensures still { StandsStill S.passive self.old self.new }
        ensures untouched { Untouched S.passive None self.old self.new }
        ensures here { AtNode self.new n (λ x. S.late x ≡ 0) }
        ensures others { (k : ℕ) → k ≢ n → slice_get self.new.nodes k ≡ slice_get self.old.nodes k }
    {
        let failed = self.nodes[n].put_off();
        self.cancel_if(n, failed);
    }

    // Choice: docs/DECISIONS.md#sinks-write-at-rest
    /// Each node writes, outside of its handlers, what it has put off, and cancels its first input where that failed: only then is there
    /// a new event. No passive node hears of anything. It takes no memory and costs no unit.
    pub fn put_off(&mut self)
        requires laws { Settled S.port_state S.law S.asking S.moves self.old }
        requires few { all_asks self.old ≤ MOST_COUNT }
        ensures laws { Settled S.port_state S.law S.asking S.moves self.new }
        ensures on { NetGoesOn self.old self.new }
        ensures uses { Uses self.old self.new 0 }
        ensures gone { map S.gone self.new.nodes ≡ map S.gone self.old.nodes }
        ensures still { StandsStill S.passive self.old self.new }
        ensures untouched { Untouched S.passive None self.old self.new }
        ensures all { (k : ℕ) → AtNode self.new k (λ x. S.late x ≡ 0) }
    {
        let count = self.nodes.len();
        for n in 0..count {
            self.put_off_at(n);
        }
    }

    // Whether wire w was asked, and the node at its output may wait for a read then.
    fn awaits_read_at(&self, w: usize) -> bool {
        let (Some(wire), Some(ends)) = (self.wires.get(w), self.ends.get(w)) else {
            return false;
        };
        match self.nodes.get(ends.from as usize) {
            Some(node) => wire.is_asked() && node.may_wait(),
            None => false,
        }
    }

    /// Whether a node was asked that may wait for a read then. A hint, on which no clause rests. It takes no memory.
    pub fn awaits_read(&self) -> bool {
        for w in 0..self.wires.len() {
            if self.awaits_read_at(w) {
                return true;
            }
        }
        false
    }
}

impl<S> Engine<S> {
    /// What is known of wire w.
    pub fn wire(&self, w: u32) -> &Wire
        requires { w < length self.now.wires }
        ensures { result.now ≡ wire_at self.now w }
    {
        &self.wires[w as usize]
    }

    /// The ports at the ends of wire w.
    pub fn ends(&self, w: u32) -> WireEnds
        requires { w < length self.now.ends }
        ensures { result ≡ end_at self.now.ends w }
    {
        self.ends[w as usize]
    }

    /// Whether no event is left.
    pub fn is_at_rest(&self) -> bool
        ensures { IsTrue result ↔ (self.now.queue ≡ []) }
    {
        self.queue.is_empty()
    }

    /// The most events that were chased for one that waited for its turn: handled at once, since a handler that had just been called
    /// asked for them or gave them. It takes no memory.
    pub fn longest_chase(&self) -> u32
        ensures { result ≤ MOST_CHASES }
    {
        self.queue.longest()
    }

    /// The nodes and the wires, each in their order.
    pub fn into_parts(self) -> (Vec<S>, Vec<Wire>)
        ensures nodes { result.0.items ≡ self.nodes }
        ensures wires { result.1.items ≡ self.wires }
    {
        (self.nodes, self.wires)
    }
}
