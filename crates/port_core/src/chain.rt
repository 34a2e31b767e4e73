ghost use Rattle.std.specs.Prelude.{◌≡◌, Bool, true, IsTrue, List, IfOk, OnOk};
ghost use Rattle.elem_core.specs.Tree.{Tree};
ghost use Rattle.port_core.specs.ListFunction.{ListFunction, Same, Pushed, FunctionFinished, goes_on};

use elem_core::elem::Elem;
use elem_core::elems::Elems;
use elem_core::why::{NoMemory, Why};
use std::alloc::Global;

/// How a chain stands after a call.
#[derive(Clone, Copy)]
pub enum ChainStep {
    /// It goes on; after the end of its input, it gave what the end adds.
    Go,
    /// It ended by its own doing.
    Closed,
    /// It failed.
    Failed(Why),
}

// Choices: docs/DECISIONS.md#chain-is-two-functions, docs/DECISIONS.md#chains-get-the-allocator
/// A chain of linear stages, as a substream runs it. Its meaning is a list function: what it gives for a list of elements,
/// whether it stopped within them, and what the end of its input adds. It stands for a subflow of the Akka Streams 2.6
/// reference.
pub trait Chain: Send + Sized + Drop {
    /// What it gives from its start.
    ghost whole: { Self → ListFunction };

    /// What it still gives for what comes from now on.
    ghost rest: { Self → ListFunction };

    /// It has not stopped, and its input has not ended.
    ghost is_open: { Self → Bool };

    /// A chain that has taken nothing, with the list function that this one had at its start.
    fn fresh(&self, alloc: Global) -> Result<Self, NoMemory>
        ensures same { IfOk result (λ c. Same (whole c) (whole self.now)) }
        ensures new { IfOk result (λ c. Same (rest c) (whole c)) }
        ensures open { IfOk result (λ c. IsTrue (is_open c)) };

    /// Takes an element, and appends what it gives for it to `out`. After want of memory the chain is only dropped.
    fn push(&mut self, alloc: Global, e: Elem, out: &mut Elems) -> Result<ChainStep, NoMemory>
        requires { IsTrue (is_open self.old) }
        ensures gives { IfOk result (λ step. Pushed (rest self.old) e step out.old out.new (rest self.new)) }
        ensures same { OnOk result (Same (whole self.new) (whole self.old)) }
        ensures open { IfOk result (λ step. is_open self.new ≡ goes_on step) };

    /// Takes the normal end of its input, and appends what it adds to `out`; where it fails, what it appended does not count.
    /// The answer is never `Closed`. After want of memory the chain is only dropped.
    fn end(&mut self, alloc: Global, out: &mut Elems) -> Result<ChainStep, NoMemory>
        requires { IsTrue (is_open self.old) }
        ensures gives { IfOk result (λ step. FunctionFinished (rest self.old) step out.old out.new) }
        ensures same { OnOk result (Same (whole self.new) (whole self.old)) };
}
