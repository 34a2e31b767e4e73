// The logic of a stage that a caller makes.
ghost use Rattle.std.specs.Prelude.{◌≡◌, [], ⊤};
ghost use Rattle.plug_logic.specs.Gives.{Gives, after, Replied};

use elem_core::elem::Elem;
use elem_core::elems::Elems;
use std::alloc::Global;

/// What a logic comes to with a call.
#[derive(Clone, Copy)]
pub enum Verdict {
    /// It goes on. Behind `on_end`: the stage completes once all outputs were emitted.
    Go,
    /// It is done: the outputs of this call are emitted, then the stage completes and cancels its input.
    Finish,
    /// The outputs of this call are dropped, and the stage fails with this code.
    Fail(u8),
    /// There was no memory; its logic is not called any more.
    NoMemory,
}

// Choice: docs/DECISIONS.md#one-equation
/// The logic of a stage with one input and one output that the caller makes. Its meaning, `gives`, is what it replies to every list of
/// further inputs and to their end. It is called for each element in order, and once at the end of the input, and not again behind a
/// verdict other than `Go`. It stands for a custom stage (`GraphStage`) of Akka Streams 2.6.
pub trait Logic: Drop {
    ghost gives: { Self → Gives };

    /// One more element came. It appends its outputs to `out`.
    fn on_elem(&mut self, alloc: Global, e: Elem, out: &mut Elems) -> Verdict
        ensures { Replied ((gives self.old).reply [] e) out.old out.new (gives self.new ≡ after (gives self.old) e) result };

    /// The input has ended. It appends its outputs to `out`.
    fn on_end(&mut self, alloc: Global, out: &mut Elems) -> Verdict
        ensures { Replied ((gives self.old).closing []) out.old out.new ⊤ result };
}

// A boxed logic is one: each call goes to the value inside.
// Choice: docs/DECISIONS.md#boxed-logics
impl Logic for Box<dyn Logic + Send> {
    ghost gives = { λ b. (Logic-box b).gives b.value };

    fn on_elem(&mut self, alloc: Global, e: Elem, out: &mut Elems) -> Verdict {
        (**self).on_elem(alloc, e, out)
    }

    fn on_end(&mut self, alloc: Global, out: &mut Elems) -> Verdict {
        (**self).on_end(alloc, out)
    }
}
