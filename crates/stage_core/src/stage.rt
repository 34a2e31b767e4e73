ghost use Rattle.std.specs.Prelude.{◌≡◌, ◌≤◌, ◌↔◌, ◌⊎◌, ℕ, Bool, true, false, List, [], ◌∷◌, OnOk, OnErr, IfNone, IfSome, IsTrue};
ghost use Rattle.elem_core.specs.Prefix.{IsPrefix};
ghost use Rattle.elem_core.specs.declared.item.Item.{Item};
ghost use Rattle.elem_core.specs.declared.item.Item.TheVariants as item;
ghost use Rattle.port_core.specs.View.{View};
ghost use Rattle.port_core.specs.Call.{Meets, starts, pulls, arrives, cancels};
ghost use Rattle.stage_core.specs.declared.stage.TheConstants.{LEAST_ACTS};
ghost use Rattle.stage_core.specs.Rooms.{HasRoom};
ghost use Rattle.stage_core.specs.Handling.{PullsAs, StaysPassive, Starts, Handles, Reacts};
ghost use Rattle.stage_core.specs.declared.stage.Swift.TheVariants as swift;
ghost use Rattle.port_core.specs.declared.act.Act.TheVariants as act;
ghost use Rattle.stage_core.specs.Handing.{Hands, PutsOff, cancel_first};

use elem_core::elem::Elem;
use elem_core::item::Item;
use elem_core::why::{Cause, NoMemory};
use port_core::acts::Acts;
use std::alloc::Global;

// Choice: docs/DECISIONS.md#room-of-actions
/// The most actions that one call of a stage with one input and one output appends: two for each of its ports. There is room for so
/// many at each call.
pub const LEAST_ACTS: u32 = 4;

/// What an element or an ask came to at once.
#[derive(Clone, Copy, PartialEq, Eq)]
pub enum Swift {
    /// One element goes on at output 0, in the place of the one that came.
    Gives,
    /// Input 0 is pulled.
    Asks,
    /// The list of actions says it.
    Acts,
    /// Nothing: the handler has to be called.
    Rests,
}

// Choice: docs/DECISIONS.md#handlers-have-two-clauses
/// A node of a fused graph: a source, a stage or a sink. Each call is a handler; what it wants done at its ports it appends
/// to `acts`, which is empty and has room for two actions for each of its ports; a passive one appends nothing, since it acts only between two events, from outside. The moves that it has recorded are a log of its choices, which only grows. After `NoMemory` a stage is
/// only dropped or taken apart, and `keeps` says what of it is as it was before that call. Rule: Akka Streams 2.6 reference,
/// chapter on custom stream processing; want of memory: own.
pub trait Stage: Drop {
    ghost fresh: { Self → View → Type 0 };

    ghost port_state: { Self → View → Type 0 };

    ghost law: { Self → Self → View → List (List Item) → List (List Item) → Type 0 };

    ghost asking: { Self → View → Type 0 };

    ghost moves: { Self → List ℕ };

    ghost keeps: { Self → Self → Type 0 };

    ghost passive: { Self → Bool };

    ghost gone: { Self → List Item };

    ghost waits: { Self → List Item };

    ghost late: { Self → ℕ };

    /// The run begins. Nothing is read or written yet.
    fn start(&mut self, alloc: Global, acts: &mut Acts) -> Result<(), NoMemory>
        requires meets { Meets starts (fresh self.old) }
        requires empty { acts.old.items ≡ [] }
        requires room { LEAST_ACTS ≤ acts.old.room }
        requires ports { HasRoom starts (fresh self.old) acts.old.room }
        ensures starts { OnOk result (Starts port_state law fresh self.old self.new acts.new.items) }
        ensures pulls { OnOk result (PullsAs starts (fresh self.old) (asking self.new) acts.new.items) }
        ensures grows { OnOk result (IsPrefix (moves self.old) (moves self.new)) }
        ensures passive { OnOk result (StaysPassive (passive self.old) (passive self.new) acts.new.items) }
        ensures gone { OnOk result (gone self.new ≡ gone self.old) }
        ensures room { OnOk result (acts.new.room ≡ acts.old.room) }
        ensures kept { keeps self.old self.new };

    /// Output `port` was pulled.
    fn on_pull(&mut self, alloc: Global, port: u8, acts: &mut Acts) -> Result<(), NoMemory>
        requires meets { Meets (pulls port) (port_state self.old) }
        requires empty { acts.old.items ≡ [] }
        requires room { LEAST_ACTS ≤ acts.old.room }
        requires ports { HasRoom (pulls port) (port_state self.old) acts.old.room }
        ensures handles { OnOk result (Handles port_state law (pulls port) self.old self.new acts.new.items) }
        ensures pulls { OnOk result (PullsAs (pulls port) (port_state self.old) (asking self.new) acts.new.items) }
        ensures grows { OnOk result (IsPrefix (moves self.old) (moves self.new)) }
        ensures passive { OnOk result (StaysPassive (passive self.old) (passive self.new) acts.new.items) }
        ensures gone { OnOk result (gone self.new ≡ gone self.old) }
        ensures room { OnOk result (acts.new.room ≡ acts.old.room) }
        ensures kept { OnErr result (keeps self.old self.new) };

    /// An element came to input `port`.
    fn on_push(&mut self, alloc: Global, port: u8, e: Elem, acts: &mut Acts) -> Result<(), NoMemory>
        requires meets { Meets (arrives port (item.Elem e)) (port_state self.old) }
        requires empty { acts.old.items ≡ [] }
        requires room { LEAST_ACTS ≤ acts.old.room }
        requires ports { HasRoom (arrives port (item.Elem e)) (port_state self.old) acts.old.room }
        ensures handles { OnOk result (Handles port_state law (arrives port (item.Elem e)) self.old self.new acts.new.items) }
        ensures pulls { OnOk result (PullsAs (arrives port (item.Elem e)) (port_state self.old) (asking self.new) acts.new.items) }
        ensures grows { OnOk result (IsPrefix (moves self.old) (moves self.new)) }
        ensures passive { OnOk result (StaysPassive (passive self.old) (passive self.new) acts.new.items) }
        ensures gone { OnOk result (gone self.new ≡ gone self.old) }
        ensures room { OnOk result (acts.new.room ≡ acts.old.room) }
        ensures kept { OnErr result (keeps self.old self.new) };

    /// Input `port` has ended.
    fn on_finish(&mut self, alloc: Global, port: u8, acts: &mut Acts) -> Result<(), NoMemory>
        requires meets { Meets (arrives port item.Ended) (port_state self.old) }
        requires empty { acts.old.items ≡ [] }
        requires room { LEAST_ACTS ≤ acts.old.room }
        requires ports { HasRoom (arrives port item.Ended) (port_state self.old) acts.old.room }
        ensures handles { OnOk result (Handles port_state law (arrives port item.Ended) self.old self.new acts.new.items) }
        ensures pulls { OnOk result (PullsAs (arrives port item.Ended) (port_state self.old) (asking self.new) acts.new.items) }
        ensures grows { OnOk result (IsPrefix (moves self.old) (moves self.new)) }
        ensures passive { OnOk result (StaysPassive (passive self.old) (passive self.new) acts.new.items) }
        ensures gone { OnOk result (gone self.new ≡ gone self.old) }
        ensures room { OnOk result (acts.new.room ≡ acts.old.room) }
        ensures kept { OnErr result (keeps self.old self.new) };

    /// Input `port` has failed.
    fn on_fail(
        &mut self,
        alloc: Global,
        port: u8,
        cause: Cause,
        acts: &mut Acts,
    ) -> Result<(), NoMemory>
        requires meets { Meets (arrives port (item.Failed cause)) (port_state self.old) }
        requires empty { acts.old.items ≡ [] }
        requires room { LEAST_ACTS ≤ acts.old.room }
        requires ports { HasRoom (arrives port (item.Failed cause)) (port_state self.old) acts.old.room }
        ensures handles { OnOk result (Handles port_state law (arrives port (item.Failed cause)) self.old self.new acts.new.items) }
        ensures pulls { OnOk result (PullsAs (arrives port (item.Failed cause)) (port_state self.old) (asking self.new) acts.new.items) }
        ensures grows { OnOk result (IsPrefix (moves self.old) (moves self.new)) }
        ensures passive { OnOk result (StaysPassive (passive self.old) (passive self.new) acts.new.items) }
        ensures gone { OnOk result (gone self.new ≡ gone self.old) }
        ensures room { OnOk result (acts.new.room ≡ acts.old.room) }
        ensures kept { OnErr result (keeps self.old self.new) };

    /// Output `port` was cancelled.
    fn on_cancel(&mut self, alloc: Global, port: u8, acts: &mut Acts) -> Result<(), NoMemory>
        requires meets { Meets (cancels port) (port_state self.old) }
        requires empty { acts.old.items ≡ [] }
        requires room { LEAST_ACTS ≤ acts.old.room }
        requires ports { HasRoom (cancels port) (port_state self.old) acts.old.room }
        ensures handles { OnOk result (Handles port_state law (cancels port) self.old self.new acts.new.items) }
        ensures pulls { OnOk result (PullsAs (cancels port) (port_state self.old) (asking self.new) acts.new.items) }
        ensures grows { OnOk result (IsPrefix (moves self.old) (moves self.new)) }
        ensures passive { OnOk result (StaysPassive (passive self.old) (passive self.new) acts.new.items) }
        ensures gone { OnOk result (gone self.new ≡ gone self.old) }
        ensures room { OnOk result (acts.new.room ≡ acts.old.room) }
        ensures kept { OnErr result (keeps self.old self.new) };

    /// Hands out, outside of its handlers, what waits at a stage to leave the graph, first come first. At most kinds nothing
    /// ever waits. It takes no memory.
    fn hand_out(&mut self) -> Option<Item>
        ensures none { IfNone result ((waits self.old ≡ []) × (self.new ≡ self.old)) }
        ensures some { IfSome result (λ x. Hands port_state law asking moves gone waits self.old (x ∷ []) self.new) };

    /// Drops all that waits there. It takes no memory.
    fn let_go(&mut self)
        ensures { Hands port_state law asking moves gone waits self.old (waits self.old) self.new };

    /// Whether nothing waits there.
    fn is_clear(&self) -> bool
        ensures { IsTrue result ↔ (waits self.now ≡ []) };

    /// Whether it is passive.
    fn is_passive(&self) -> bool
        ensures { result ≡ passive self.now };

    /// Writes, outside of its handlers, what it has put off. True comes where a write failed: then it has to cancel its first input. At
    /// most kinds nothing is ever put off. It takes no memory.
    fn put_off(&mut self) -> bool
        ensures puts { ((self.new ≡ self.old) × (result ≡ false)) ⊎ PutsOff port_state law asking moves gone passive self.old (cancel_first result) self.new }
        ensures all { late self.new ≡ 0 };

    /// Whether it may wait for a read where it is asked next. A hint, on which no clause rests. It takes no memory.
    fn may_wait(&self) -> bool {
        false
    }

    /// An element came to input `port`: does what `on_push` does, if that takes no memory. The element that goes on stands in the place of
    /// the one that came. Rests leaves the stage and the element as they were.
    fn push_at_once(&mut self, _port: u8, _e: &mut Elem, _acts: &mut Acts) -> Swift
        requires meets { Meets (arrives _port (item.Elem _e.old)) (port_state self.old) }
        requires empty { _acts.old.items ≡ [] }
        requires room { LEAST_ACTS ≤ _acts.old.room }
        ensures gives { result ≡ swift.Gives → Reacts port_state law asking moves passive gone (arrives _port (item.Elem _e.old)) self.old self.new
            (act.Push 0 _e.new ∷ []) }
        ensures asks { result ≡ swift.Asks → Reacts port_state law asking moves passive gone (arrives _port (item.Elem _e.old)) self.old self.new
            (act.Pull 0 ∷ []) }
        ensures acts { result ≡ swift.Acts → Reacts port_state law asking moves passive gone (arrives _port (item.Elem _e.old)) self.old self.new
            _acts.new.items }
        ensures rests { result ≡ swift.Rests → (self.new ≡ self.old) × (_e.new ≡ _e.old) }
        ensures none { (result ≡ swift.Acts → ⊥) → _acts.new ≡ _acts.old }
        ensures room { _acts.new.room ≡ _acts.old.room }
    {
        Swift::Rests
    }

    /// Output `port` was asked: whether it asks input 0 for that alone, as `on_pull` would. False leaves the stage as it was.
    fn pull_at_once(&mut self, _port: u8) -> bool
        requires meets { Meets (pulls _port) (port_state self.old) }
        ensures asks { result ≡ true → Reacts port_state law asking moves passive gone (pulls _port) self.old self.new (act.Pull 0 ∷ []) }
        ensures rests { result ≡ false → self.new ≡ self.old }
    {
        false
    }
}
