ghost use Rattle.std.specs.Prelude.{◌≡◌, ℕ, ◌<◌, ◌≤◌, ◌∷◌, [], ◌++◌, false, true, None, Some, if◌then◌else◌, IsTrue, IfNone, IfSome, ◌↔◌, ◌⊎◌, max};
ghost use Rattle.port_core.specs.Ring.{is_queued};
ghost use Rattle.fused_net.specs.Queue.{waiting, chase_queued, pushed_on, Chases, Dequeues};
ghost use Rattle.fused_net.specs.declared.queue.TheConstants.{MOST_CHASES};

use port_core::ring::EventRing;
use std::marker::Model;

/// How many events may be chased for one that comes from the ring. Own: a limit, so that a chase cannot starve the wires that wait.
pub const MOST_CHASES: u32 = 16;

// Choice: docs/DECISIONS.md#chased-wire-is-last
/// The wires that have an event, each at most once: first in first out, but that the one wire at which a handler just pushed or pulled
/// may come first. So an event's consequence is handled at once, and at most 16 such events for each one that waited for its turn. A
/// chase goes down by pushes and then up by pulls: an element that a chased pull brought waits for its turn where others wait. So a
/// stage that pulls again and again, as a buffer that drops, cannot run ahead of the nodes below it. After the chasing of the Akka
/// Streams 2.6 interpreter; the limit of 16 is own.
#[derive(Drop)]
pub struct EventQueue {
    ring: EventRing,
    chased: Option<u32>,
    pulling: bool,
    chases: u32,
    longest: u32,
}

impl Model for EventQueue {
    ghost use Rattle.fused_net.specs.Queue.{Queue, IsQueue};

    ghost Value = { Queue };

    ghost view = { λ q. record { size = q.ring.size; ring = q.ring.queue; chased = q.chased; pulling = q.pulling; chases = q.chases; longest = q.longest } };

    ghost invariant = { λ q. IsQueue (record {
      size = q.ring.size;
      ring = q.ring.queue;
      chased = q.chased;
      pulling = q.pulling;
      chases = q.chases;
      longest = q.longest;
    }) };
}

impl EventQueue {
    /// The queue of the wires in a ring. It takes no memory.
    pub fn new(ring: EventRing) -> EventQueue
        ensures is { result ≡ record { size = ring.size; ring = ring.queue; chased = None; pulling = false; chases = 0; longest = 0 } }
        ensures waits { waiting result ≡ ring.queue }
    {
        EventQueue {
            ring,
            chased: None,
            pulling: false,
            chases: 0,
            longest: 0,
        }
    }

    /// Whether no wire has an event.
    pub fn is_empty(&self) -> bool
        ensures { IsTrue result ↔ (waiting self.now ≡ []) }
    {
        self.chased.is_none() && self.ring.is_empty()
    }

    /// The most events that were chased for one that came from the ring.
    pub fn longest(&self) -> u32
        ensures is { result ≡ max self.now.longest self.now.chases }
        ensures few { result ≤ MOST_CHASES }
    {
        if self.longest < self.chases {
            self.chases
        } else {
            self.longest
        }
    }

    /// Puts a wire last at which a handler pulled, as the one that may come first. It takes no memory.
    #[inline(always)]
    pub fn pull(&mut self, w: u32)
        requires within { w < self.old.size }
        requires absent { is_queued (waiting self.old) w ≡ false }
        ensures is { self.new ≡ record (chase_queued self.old) { chased = Some w; pulling = true } }
        ensures waits { waiting self.new ≡ waiting self.old ++ w ∷ [] }
    {
        self.settle();
        self.pulling = true;
        self.chased = Some(w);
    }

    // Choice: docs/DECISIONS.md#only-action-is-chased
    /// Puts a wire last at which a handler pushed: where a pull was chased since one came from the ring and others wait, so that it waits for
    /// its turn, and else as the one that may come first. It takes no memory.
    #[inline(always)]
    pub fn push(&mut self, w: u32)
        requires within { w < self.old.size }
        requires absent { is_queued (waiting self.old) w ≡ false }
        ensures is { self.new ≡ pushed_on self.old w }
        ensures size { self.new.size ≡ self.old.size }
        ensures waits { waiting self.new ≡ waiting self.old ++ w ∷ [] }
    {
        self.settle();
        if self.pulling && !self.ring.is_empty() {
            self.ring.enqueue(w);
        } else {
            self.pulling = false;
            self.chased = Some(w);
        }
    }

    /// Puts a wire last in the ring, so that it waits for its turn. It takes no memory.
    pub fn enqueue(&mut self, w: u32)
        requires within { w < self.old.size }
        requires absent { is_queued (waiting self.old) w ≡ false }
        ensures is { self.new ≡ record (chase_queued self.old) { ring = waiting self.old ++ w ∷ [] } }
        ensures waits { waiting self.new ≡ waiting self.old ++ w ∷ [] }
    {
        self.settle();
        self.ring.enqueue(w);
    }

    /// A side of a wire was closed, which has to be queued for that or not. No event is chased then. It takes no memory.
    #[inline(never)]
    pub fn close(&mut self, w: u32, queued: bool)
        requires within { w < self.old.size }
        requires absent { queued ≡ true → is_queued (waiting self.old) w ≡ false }
        ensures is { self.new ≡ (if queued then record (chase_queued self.old) { ring = waiting self.old ++ w ∷ [] } else chase_queued self.old) }
        ensures size { self.new.size ≡ self.old.size }
        ensures waits { waiting self.new ≡ (if queued then waiting self.old ++ w ∷ [] else waiting self.old) }
    {
        if queued {
            self.enqueue(w);
        } else {
            self.settle();
        }
    }

    /// Every wire waits for its turn. It takes no memory.
    #[inline(always)]
    pub fn settle(&mut self)
        ensures is { self.new ≡ chase_queued self.old }
        ensures waits { waiting self.new ≡ waiting self.old }
    {
        if let Some(w) = self.chased {
            self.settle_one(w);
        }
    }

    // The chased wire waits for its turn. Out of line, since mostly there is none.
    #[inline(never)]
    fn settle_one(&mut self, chased: u32)
        requires { self.old.chased ≡ Some chased }
        ensures is { self.new ≡ chase_queued self.old }
        ensures waits { waiting self.new ≡ waiting self.old }
    {
        self.chased = None;
        self.ring.enqueue(chased);
    }

    /// Takes out the wire whose event is to be handled: the chased one, where fewer than 16 were chased since one came from the ring,
    /// else the first of the ring.
    pub fn next(&mut self) -> Option<u32>
        ensures none { IfNone result ((waiting self.old ≡ []) × (self.new ≡ chase_queued self.old)) }
        ensures some { IfSome result (λ w. Chases self.old w self.new ⊎ Dequeues self.old w self.new) }
        ensures once { IfSome result (λ w. (w < self.new.size) × (is_queued (waiting self.new) w ≡ false)) }
        ensures size { self.new.size ≡ self.old.size }
    {
        if let Some(w) = self.chased {
            if self.chases < MOST_CHASES {
                self.chased = None;
                self.chases += 1;
                return Some(w);
            }
        }
        self.settle();
        self.first()
    }

    /// Counts an event that is handled at once, since no wire has an event: as if its wire was put in by `pull` or by `push` and was taken
    /// out by `next`.
    #[inline(always)]
    pub fn chase(&mut self, pulls: bool)
        requires empty { waiting self.old ≡ [] }
        ensures next { (w : ℕ) → Chases (record self.old { chased = Some w; pulling = pulls }) w self.new
            ⊎ Dequeues (record self.old { chased = Some w; pulling = pulls }) w self.new }
        ensures waits { waiting self.new ≡ waiting self.old }
        ensures size { self.new.size ≡ self.old.size }
    {
        if self.chases < MOST_CHASES {
            self.chases += 1;
            self.pulling = pulls;
        } else {
            self.longest = MOST_CHASES;
            self.chases = 0;
            self.pulling = false;
        }
    }

    // Takes out the first of the ring.
    fn first(&mut self) -> Option<u32>
        requires { self.old.chased ≡ None }
        ensures none { IfNone result ((self.old.ring ≡ []) × (self.new ≡ self.old)) }
        ensures some { IfSome result (λ w. Dequeues self.old w self.new) }
        ensures once { IfSome result (λ w. (w < self.new.size) × (is_queued self.new.ring w ≡ false)) }
    {
        let w = self.ring.dequeue()?;
        if self.longest < self.chases {
            self.longest = self.chases;
        }
        self.chases = 0;
        self.pulling = false;
        Some(w)
    }
}
