ghost use Rattle.std.specs.Prelude.{◌≡◌, IfOk};
ghost use Rattle.step_work.specs.Keeping.{FinishesBy};
ghost use Rattle.elem_core.specs.declared.why.Decider.{Decider};
ghost use Rattle.step_work.specs.Tasks as tasks;
ghost use Rattle.step_work.specs.Keeping as keepings;
ghost use Rattle.line_chain.specs.Steps.{work_in, Replies};

use elem_core::elem::Elem;
use elem_core::why::{Decider, NoMemory, Why};
use std::alloc::Global;
use step_work::keeping;
use step_work::keeping::StateWork;
use step_work::task::{LinearReaction, LinearWork};

/// The work of a step of a chain, and how far it has come. Rule: Akka Streams 2.6 reference, but where a line says own.
pub enum StepWork {
    /// A task, which keeps at most a count.
    Plain(LinearWork),
    /// What keeps elements between elements.
    Keeps(StateWork),
    /// It passes each element on. Own.
    Passes,
    /// It passes the first, and ends.
    First,
    /// It keeps the last.
    Last(Option<Elem>),
}

// Dropped by a call, wherever it is dropped: else each of its variants is a path of each function that drops it.
impl Drop for StepWork {
    fn drop(self) {
        match self {
            StepWork::Plain(_) => {}
            StepWork::Keeps(_) => {}
            StepWork::Last(_) => {}
            StepWork::Passes | StepWork::First => {}
        }
    }
}

impl StepWork {
    /// One more element, for a step with this decider.
    pub fn react(
        &mut self,
        alloc: Global,
        decider: Decider,
        e: Elem,
    ) -> Result<LinearReaction, NoMemory>
        ensures { IfOk result (Replies decider (work_in self.old) e (work_in self.new)) }
    {
        match self {
            StepWork::Plain(task) => {
                let outcome = plain(task, alloc, e)?;
                Ok(outcome)
            }
            StepWork::Keeps(kept) => keep(kept, alloc, decider, e),
            StepWork::Passes => Ok(LinearReaction::Gives(e)),
            StepWork::First => Ok(LinearReaction::EndsWith(e)),
            StepWork::Last(value) => {
                *value = Some(e);
                Ok(LinearReaction::Skips)
            }
        }
    }

    /// The input has ended: what is given then, or why the step fails. It takes no memory.
    pub fn finish(&mut self, alloc: Global) -> Result<Option<Elem>, Why>
        ensures { FinishesBy (work_in self.old) result }
    {
        match self {
            StepWork::Plain(_) | StepWork::Passes => Ok(None),
            StepWork::Keeps(kept) => kept.finish(alloc),
            StepWork::First => Err(Why::EmptySink),
            StepWork::Last(value) => match value.take() {
                Some(last) => Ok(Some(last)),
                None => Err(Why::EmptySink),
            },
        }
    }
}

// One more element of a task. A take that is to pass none ends, as the model does; a step that begins so has ended before.
fn plain(task: &mut LinearWork, alloc: Global, e: Elem) -> Result<LinearReaction, NoMemory>
    ensures { IfOk result (λ o. (d : Decider) → Replies d (tasks.work_in task.old) e (tasks.work_in task.new) o) }
{
    match task {
        LinearWork::Take(0) => Ok(LinearReaction::Ends),
        _ => {
            let outcome = task.react(alloc, e)?;
            Ok(outcome)
        }
    }
}

// One more element of what keeps elements.
fn keep(
    kept: &mut StateWork,
    alloc: Global,
    decider: Decider,
    e: Elem,
) -> Result<LinearReaction, NoMemory>
    ensures { IfOk result (Replies decider (keepings.work_in kept.old) e (keepings.work_in kept.new)) }
{
    match kept.react(alloc, decider, e)? {
        keeping::StateReaction::Gives(value) => Ok(LinearReaction::Gives(value)),
        keeping::StateReaction::Asks => Ok(LinearReaction::Skips),
        keeping::StateReaction::Fails(why) => Ok(LinearReaction::Fails(why)),
    }
}
