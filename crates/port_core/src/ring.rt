ghost use Rattle.std.specs.Prelude.{◌≡◌, ◌<◌, ◌∷◌, [], ◌++◌, false, IsTrue, IfOk, IfSome, IfNone, IsNone, ◌↔◌};
ghost use Rattle.port_core.specs.Ring.{is_queued, IsRing};

use elem_core::why::NoMemory;
use std::alloc::Global;
use std::collections::VecDeque;
use std::marker::Model;

// Choice: docs/DECISIONS.md#ring-never-grows
/// The connections that have an event, first in first out, each at most once.
#[derive(Drop)]
pub struct EventRing {
    queue: VecDeque<u32>,
    // Whether each connection waits, so that this is known without a search.
    marks: Vec<bool>,
}

impl Model for EventRing {
    ghost use Rattle.std.specs.Prelude.{length};
    ghost use Rattle.std.specs.VecDeque.{deque_capacity};
    ghost use Rattle.port_core.specs.Ring.{Ring, Marked};

    ghost Value = { Ring };

    ghost view = { λ r. record { size = length r.marks.items; queue = r.queue.items } };

    ghost invariant = { λ r. Marked r.queue.items r.marks.items (deque_capacity r.queue) };
}

impl EventRing {
    /// An empty ring for the connections 0 to `n` - 1.
    pub fn new(alloc: Global, n: u32) -> Result<EventRing, NoMemory>
        ensures { IfOk result (λ r. r ≡ record { size = n; queue = [] }) }
    {
        let queue = VecDeque::with_capacity(alloc, n as usize)?;
        let marks = vec![in alloc; false; n as usize]?;
        Ok(EventRing { queue, marks })
    }

    // Choice: docs/DECISIONS.md#ring-has
    /// Whether the connection is in the ring. What every ring keeps is known then.
    pub fn has(&self, c: u32) -> bool
        ensures has { result ≡ is_queued self.now.queue c }
        ensures ring { IsRing self.now }
    {
        let c = c as usize;
        c < self.marks.len() && self.marks[c]
    }

    /// Whether no connection is in the ring.
    pub fn is_empty(&self) -> bool
        ensures { IsTrue result ↔ (self.now.queue ≡ []) }
    {
        self.queue.is_empty()
    }

    /// Puts a connection last. It takes no memory.
    pub fn enqueue(&mut self, c: u32)
        requires within { c < self.old.size }
        requires absent { is_queued self.old.queue c ≡ false }
        ensures { self.new ≡ record self.old { queue = self.old.queue ++ c ∷ [] } }
    {
        self.marks[c as usize] = true;
        self.queue.push_back_reserved(c);
    }

    /// Takes out the first connection, which then is in the ring no more. It takes no memory.
    pub fn dequeue(&mut self) -> Option<u32>
        ensures empty { IsNone result ↔ (self.old.queue ≡ []) }
        ensures unchanged { IfNone result (self.new ≡ self.old) }
        ensures first { IfSome result (λ c. (self.old.queue ≡ c ∷ self.new.queue) × (self.new.size ≡ self.old.size)) }
        ensures once { IfSome result (λ c. (c < self.old.size) × (is_queued self.new.queue c ≡ false)) }
    {
        let c = self.queue.pop_front()?;
        self.marks[c as usize] = false;
        Some(c)
    }
}
