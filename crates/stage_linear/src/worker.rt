ghost use Rattle.std.specs.Prelude.{◌≡◌, [], IfOk, IfSome, IfNone};
ghost use Rattle.step_work.specs.Tasks.{HasMore, ReactedBy, outcome_of};
ghost use Rattle.stage_linear.specs.Plugs.{WorkEndsAs};
ghost use Rattle.stage_linear.specs.Workers.{work_by, CanTake, GoesOnReady};

use crate::plug::PlugTask;
use elem_core::elem::Elem;
use elem_core::elems::Elems;
use elem_core::why::NoMemory;
use plug_logic::book::PlugBook;
use plug_logic::logic::Logic;
use std::alloc::Global;
use step_work::task::{AtOnce, LinearEnd, LinearReaction, LinearWork};

/// What does the work of a linear stage.
pub enum Worker<L: Logic, B: PlugBook> {
    /// A task of the program's own stages.
    Plain(LinearWork),
    /// A logic that a caller made.
    Plug(PlugTask<L, B>),
}

// Dropped by a call, as its task is.
impl<L: Logic, B: PlugBook> Drop for Worker<L, B> {
    fn drop(self) {
        match self {
            Worker::Plain(_) => {}
            Worker::Plug(_) => {}
        }
    }
}

impl<L: Logic, B: PlugBook> Worker<L, B> {
    /// One more element, where what comes of it is known at once. `None` leaves the worker as it is; a plug is not called.
    #[inline(always)]
    pub fn at_once(&mut self, e: &Elem) -> Option<AtOnce>
        requires more { HasMore (work_by self.old) }
        requires ready { CanTake self.old }
        ensures reacts { IfSome result (λ s. ReactedBy B.lists (work_by self.old) e.now (work_by self.new) (outcome_of s e.now)) }
        ensures ready { CanTake self.new }
        ensures unsaid { IfNone result (self.new ≡ self.old) }
    {
        match self {
            Worker::Plain(task) => task.at_once(e),
            Worker::Plug(_) => None,
        }
    }

    /// One more element. A plug puts its outputs into `out`, which is empty, so that its list takes no memory anew.
    pub fn react(&mut self, alloc: Global, e: Elem, out: Elems) -> Result<LinearReaction, NoMemory>
        requires more { HasMore (work_by self.old) }
        requires ready { CanTake self.old }
        requires empty { out ≡ [] }
        ensures reacts { IfOk result (ReactedBy B.lists (work_by self.old) e (work_by self.new)) }
        ensures ready { IfOk result (GoesOnReady self.new) }
    {
        match self {
            Worker::Plain(task) => task.react(alloc, e),
            Worker::Plug(plug) => plug.react(alloc, e, out),
        }
    }

    /// The end of the input: what it gives then. A task gives nothing, and takes no memory.
    pub fn end(&mut self, alloc: Global) -> Result<LinearEnd, NoMemory>
        requires ready { CanTake self.old }
        ensures last { IfOk result (WorkEndsAs B.lists (work_by self.old)) }
        ensures work { work_by self.new ≡ work_by self.old }
    {
        match self {
            Worker::Plain(_) => Ok(LinearEnd::Adds(Elems::new(alloc))),
            Worker::Plug(plug) => plug.end(alloc),
        }
    }
}
