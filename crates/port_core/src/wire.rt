ghost use Rattle.std.specs.Prelude.{◌≡◌, ◌↔◌, ◌+◌, ◌<◌, ◌^◌, not, false, true, IsTrue, IsSome, Some};
ghost use Rattle.port_core.specs.Decoding.{can_pull, can_push, is_at_rest, is_open};
ghost use Rattle.elem_core.specs.Tree.{Tree};
ghost use Rattle.elem_core.specs.declared.item.Item.TheVariants as item;
ghost use Rattle.port_core.specs.Wire.{end_item, pull, arrived, delivery_of};
ghost use Rattle.port_core.specs.declared.act.Act.TheVariants as act;
ghost use Rattle.port_core.specs.Cell.{new_cell, moved_by, brought_in, delivered, Tells};
ghost use Rattle.port_core.specs.View.{output_closed, input_closed};
ghost use Rattle.port_core.specs.Closes.{output_cancelled};
ghost use Rattle.elem_core.specs.Items.{elements};

use crate::conn::{Conn, Event};
use crate::view::{InView, OutView};
use elem_core::elem::Elem;
use elem_core::item::Item;
use elem_core::trace::Trace;
use elem_core::why::Cause;
use std::marker::Model;
use std::snapshot::Snapshot;

// Out of line, since to drop an element takes a frame, and few pushes drop theirs.
#[inline(never)]
fn drop_item(_item: Item) {}

// Choice: docs/DECISIONS.md#known-to-contracts-alone
/// One output joined to one input, with what the stages at both ends know of it. A pull or a push that only a closing forbids
/// which was not delivered yet is dropped: such a pull changes nothing, and such a push counts and answers the pull. No call
/// takes memory. Rule: Akka Streams 2.6 reference, chapter on custom stream processing; that a pull or push is dropped is own.
#[derive(Drop)]
pub struct Wire {
    out: Snapshot<OutView>,
    inp: Snapshot<InView>,
    conn: Conn,
    sent: Trace<Item>,
    got: Trace<Item>,
    pushed: u64,
    asked: bool,
    // What the two views say of closings. An element that passes an open wire leaves these as they are.
    output_closed: bool,
    cancelled: bool,
    input_closed: bool,
}

impl Model for Wire {
    ghost use Rattle.std.specs.Prelude.{◌≡◌};
    ghost use Rattle.std.specs.Coded.{codes};
    ghost use Rattle.elem_core.specs.TreeCode.{tree_coded};
    ghost use Rattle.elem_core.specs.Items.{elements};
    ghost use Rattle.port_core.specs.Cell.{WireState};
    ghost use Rattle.port_core.specs.Closes.{Closes};

    ghost Value = { WireState };

    ghost coded = { Prim.hlevel (codes, tree_coded) };

    ghost view = { λ w. record {
      wire = record { out = w.out.value; inp = w.inp.value; conn = w.conn; sent = w.sent.items; got = w.got.items };
      asked = w.asked;
    } };

    ghost invariant = { λ w. (w.pushed ≡ elements w.sent.items) × Closes w.out.value w.inp.value w.conn w.output_closed w.cancelled w.input_closed };
}

impl Wire {
    /// A wire on which nothing happened.
    pub fn new() -> Wire
        ensures { result ≡ new_cell }
    {
        Wire {
            out: Snapshot::of(&OutView::Unpulled),
            inp: Snapshot::of(&InView::Idle),
            conn: Conn::new(),
            sent: Trace::empty(),
            got: Trace::empty(),
            pushed: 0,
            asked: false,
            output_closed: false,
            cancelled: false,
            input_closed: false,
        }
    }

    /// How many elements its output pushed.
    pub fn pushed(&self) -> u64
        ensures { result ≡ elements self.now.wire.sent }
    {
        self.pushed
    }

    /// Whether its input has pulled and was not answered by an element.
    pub fn is_asked(&self) -> bool
        ensures { result ≡ self.now.asked }
    {
        self.asked
    }

    /// Whether either end has closed it.
    pub fn is_closed(&self) -> bool
        ensures { result ≡ not (is_open self.now.wire.conn) }
    {
        self.conn.is_closed()
    }

    /// Whether its output may push an element that comes to the connection.
    pub fn can_push(&self) -> bool
        ensures { result ≡ can_push self.now.wire.conn }
    {
        self.conn.can_push()
    }

    /// Whether its input may pull so that the pull comes to the connection.
    pub fn can_pull(&self) -> bool
        ensures { result ≡ can_pull self.now.wire.conn }
    {
        self.conn.can_pull()
    }

    /// Whether its output closed it, or heard that its input cancelled.
    pub fn output_closed(&self) -> bool
        ensures { result ≡ output_closed self.now.wire.out }
    {
        self.output_closed
    }

    /// Whether its output heard that its input cancelled.
    pub fn is_cancelled(&self) -> bool
        ensures { result ≡ output_cancelled self.now.wire.out }
    {
        self.cancelled
    }

    /// Whether its input cancelled it, or heard of its end.
    pub fn input_closed(&self) -> bool
        ensures { result ≡ input_closed self.now.wire.inp }
    {
        self.input_closed
    }

    /// The stage at its input pulls. The answer says whether the wire has to be queued.
    #[inline(always)]
    pub fn pull(&mut self) -> bool
        ensures queued { result ≡ can_pull self.old.wire.conn }
        ensures moved { self.new ≡ moved_by (act.Pull 0) self.old }
    {
        self.inp = Snapshot::of(&InView::Pulled);
        if self.conn.can_pull() {
            self.asked = true;
            self.conn.pull()
        } else {
            self.input_closed = false;
            false
        }
    }

    /// The stage at its output gives an element. The answer says whether the wire has to be queued.
    #[inline(always)]
    #[tactic(auto, using(crate::proofs::Counting::elements_elem))]
    pub fn push(&mut self, e: Elem) -> bool
        requires count { elements self.old.wire.sent + 1 < 2 ^ 64 }
        ensures queued { result ≡ can_push self.old.wire.conn }
        ensures moved { self.new ≡ moved_by (act.Push 0 e) self.old }
    {
        self.out = Snapshot::of(&OutView::Unpulled);
        self.asked = false;
        self.pushed += 1;
        let item = Item::Elem(e);
        self.sent = self.sent.and(&item);
        if !self.conn.can_push() {
            self.output_closed = false;
            self.cancelled = false;
            drop_item(item);
            return false;
        }
        match item {
            Item::Elem(e) => self.conn.push(e),
            _ => unreachable!(),
        }
    }

    /// The stage at its input pulls, and the stage at its output hears of that at once: what `pull` and `tell` do.
    #[inline(always)]
    pub fn ask(&mut self)
        requires { can_pull self.old.wire.conn ≡ true }
        ensures brings { delivery_of (moved_by (act.Pull 0) self.old).wire ≡ pull }
        ensures after { self.new ≡ delivered (moved_by (act.Pull 0) self.old) }
    {
        self.inp = Snapshot::of(&InView::Pulled);
        self.out = Snapshot::of(&OutView::Available);
        self.asked = true;
        self.conn.ask();
    }

    /// The stage at its output gives an element, which goes to the stage at its input at once: what `push`, `tell` and `take` do.
    #[inline(always)]
    #[tactic(auto, using(crate::proofs::Counting::elements_elem))]
    pub fn pass(&mut self, given: &Item)
        requires elem { (e : Tree) × (given.now ≡ item.Elem e) }
        requires count { elements self.old.wire.sent + 1 < 2 ^ 64 }
        requires free { can_push self.old.wire.conn ≡ true }
        ensures brings { (e : Tree) → given.now ≡ item.Elem e → delivery_of (moved_by (act.Push 0 e) self.old).wire ≡ arrived given.now false }
        ensures after { (e : Tree) → given.now ≡ item.Elem e → self.new ≡ delivered (moved_by (act.Push 0 e) self.old) }
    {
        self.out = Snapshot::of(&OutView::Unpulled);
        self.inp = Snapshot::of(&InView::Idle);
        self.asked = false;
        self.pushed += 1;
        self.sent = self.sent.and(given);
        self.got = self.got.and(given);
        self.conn.pass();
    }

    /// The stage at its output completes it. The answer says whether the wire has to be queued.
    #[tactic(auto, using(crate::proofs::Counting::elements_ended))]
    pub fn complete(&mut self) -> bool
        ensures queued { result ≡ is_at_rest self.old.wire.conn }
        ensures moved { self.new ≡ moved_by (act.Complete 0) self.old }
    {
        self.out = Snapshot::of(&OutView::Closed);
        self.output_closed = true;
        self.cancelled = false;
        self.sent = self.sent.and(&Item::Ended);
        self.conn.complete()
    }

    /// The stage at its output fails it with a cause. The answer says whether the wire has to be queued.
    #[tactic(auto, using(crate::proofs::Counting::elements_failed))]
    pub fn fail(&mut self, cause: Cause) -> bool
        ensures queued { result ≡ is_at_rest self.old.wire.conn }
        ensures moved { self.new ≡ moved_by (act.FailOut 0 cause) self.old }
    {
        self.out = Snapshot::of(&OutView::Closed);
        self.output_closed = true;
        self.cancelled = false;
        self.sent = self.sent.and(&Item::Failed(cause));
        self.conn.fail(cause)
    }

    /// The stage at its input cancels it. The answer says whether the wire has to be queued.
    pub fn cancel(&mut self) -> bool
        ensures queued { result ≡ is_at_rest self.old.wire.conn }
        ensures moved { self.new ≡ moved_by (act.Cancel 0) self.old }
    {
        self.inp = Snapshot::of(&InView::Cancelled);
        self.input_closed = true;
        self.conn.cancel()
    }

    // Choice: docs/DECISIONS.md#told-then-taken
    /// Tells an end of the event of a wire that was queued. An element then waits, and `take` hands it out.
    #[inline(always)]
    pub fn tell(&mut self) -> Event
        ensures { Tells result self.old self.new }
    {
        let event = self.conn.decode();
        match event {
            Event::Nothing | Event::Push | Event::PushThenClose => {}
            Event::Pull => self.out = Snapshot::of(&OutView::Available),
            Event::Cancel => {
                self.out = Snapshot::of(&OutView::Cancelled);
                self.output_closed = true;
                self.cancelled = true;
            }
            Event::Finish | Event::Fail => {
                self.inp = Snapshot::of(&InView::Finished);
                self.input_closed = true;
                let item = self.end();
                self.got = self.got.and(&item);
            }
        }
        event
    }

    /// Hands the element that waits to the input.
    #[inline(always)]
    pub fn take(&mut self) -> Elem
        requires there { IsSome self.old.wire.conn.to_grab }
        requires open { self.old.wire.conn.in_closed ≡ false }
        ensures value { self.old.wire.conn.to_grab ≡ Some result }
        ensures after { self.new ≡ brought_in result self.old }
    {
        self.inp = Snapshot::of(&InView::Idle);
        let item = Item::Elem(self.conn.grab());
        self.got = self.got.and(&item);
        match item {
            Item::Elem(e) => e,
            _ => unreachable!(),
        }
    }

    /// How its output ended, where it closed: it failed with a cause, or completed.
    pub fn end(&self) -> Item
        ensures { result ≡ end_item self.now.wire.conn.cause }
    {
        match self.conn.cause() {
            None => Item::Ended,
            Some(cause) => Item::Failed(cause),
        }
    }
}
