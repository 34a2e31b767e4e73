ghost use Rattle.std.specs.Prelude.{◌≡◌, IfOk, option_to_list};
ghost use Rattle.stream_model.specs.Linear.{first_of};
ghost use Rattle.step_work.specs.Tasks as tasks;
ghost use Rattle.line_chain.specs.Kinds.{begun, begun_ending, DoesStep};
ghost use Rattle.line_chain.specs.Steps.{work_in};

use crate::work::StepWork;
use elem_core::elem::Elem;
use elem_core::why::NoMemory;
use std::alloc::{AllocError, Global};
use step_work::copies::{copy_map, copy_pred};
use step_work::ending::StateEnd;
use step_work::kind::StateKind;
use step_work::task::LinearWork;
use stream_model::kind::Kind;

/// What a step of a chain does, from its start. Rule: Akka Streams 2.6 reference, but where a line says own.
pub enum StepKind {
    /// The task of a linear stage that has taken nothing.
    Plain(LinearWork),
    /// What keeps elements between elements.
    Keeps(StateKind),
    /// It passes each element on. Own, for what is no stage.
    Passes,
    /// It passes the first, and ends.
    First,
    /// It gives the last at the end.
    Last,
}

// Dropped by a call, wherever it is dropped: else each of its variants is a path of each function that drops it.
impl Drop for StepKind {
    fn drop(self) {
        match self {
            StepKind::Plain(_) => {}
            StepKind::Keeps(_) | StepKind::Passes | StepKind::First | StepKind::Last => {}
        }
    }
}

impl StepKind {
    // Choice: docs/DECISIONS.md#steps-that-pass-all
    /// What a step of this kind does. One that is no stage passes what it takes. A plug, which no text can say in a chain, is not
    /// made: that counts as want of memory.
    pub fn of(alloc: Global, kind: &Kind) -> Result<StepKind, NoMemory>
        ensures { IfOk result (DoesStep kind.now) }
    {
        match kind {
            Kind::Map(f) => Ok(StepKind::Plain(LinearWork::Map(copy_map(alloc, f)?))),
            Kind::Filter(p) => Ok(StepKind::Plain(LinearWork::Filter(copy_pred(alloc, p)?))),
            Kind::FilterNot(p) => Ok(StepKind::Plain(LinearWork::FilterNot(copy_pred(alloc, p)?))),
            Kind::TakeWhile(p) => Ok(StepKind::Plain(LinearWork::TakeWhile(copy_pred(alloc, p)?))),
            Kind::DropWhile(p) => Ok(StepKind::Plain(LinearWork::DropWhile(
                copy_pred(alloc, p)?,
                false,
            ))),
            Kind::Take(n) => Ok(StepKind::Plain(LinearWork::Take(*n))),
            Kind::Drop(n) => Ok(StepKind::Plain(LinearWork::Drop(*n))),
            Kind::Limit(n) => Ok(StepKind::Plain(LinearWork::Limit(*n))),
            Kind::MapConcat(x) => Ok(StepKind::Plain(LinearWork::Expand(*x))),
            Kind::Grouped(n) => Ok(StepKind::Keeps(StateKind::Group(*n))),
            Kind::Fold(op) => Ok(StepKind::Keeps(StateKind::Fold(*op))),
            Kind::Scan(op) => Ok(StepKind::Keeps(StateKind::Scan(*op))),
            Kind::Reduce(op) => Ok(StepKind::Keeps(StateKind::Reduce(*op))),
            Kind::Head(_) => Ok(StepKind::First),
            Kind::Last(_) => Ok(StepKind::Last),
            Kind::Plug(_) => Err(AllocError),
            _ => Ok(StepKind::Passes),
        }
    }

    /// The same.
    pub fn copy(&self, alloc: Global) -> Result<StepKind, NoMemory>
        ensures { IfOk result (λ s. s ≡ self.now) }
    {
        match self {
            StepKind::Plain(task) => Ok(StepKind::Plain(task.copy(alloc)?)),
            StepKind::Keeps(kind) => Ok(StepKind::Keeps(*kind)),
            StepKind::Passes => Ok(StepKind::Passes),
            StepKind::First => Ok(StepKind::First),
            StepKind::Last => Ok(StepKind::Last),
        }
    }

    /// The work that it begins with.
    pub fn begin(&self, alloc: Global) -> Result<StepWork, NoMemory>
        ensures { IfOk result (λ w. work_in w ≡ begun self.now) }
    {
        match self {
            StepKind::Plain(task) => Ok(StepWork::Plain(task.copy(alloc)?)),
            StepKind::Keeps(kind) => Ok(StepWork::Keeps(kind.begin(alloc)?)),
            StepKind::Passes => Ok(StepWork::Passes),
            StepKind::First => Ok(StepWork::First),
            StepKind::Last => Ok(StepWork::Last(None)),
        }
    }

    /// What it gives before any element: a scan its zero.
    pub fn first(&self, alloc: Global) -> Result<Option<Elem>, NoMemory>
        ensures { IfOk result (λ owed. option_to_list owed ≡ first_of (begun self.now)) }
    {
        match self {
            StepKind::Keeps(kind) => kind.first(alloc),
            StepKind::Plain(_task) => Ok(None),
            StepKind::Passes | StepKind::First | StepKind::Last => Ok(None),
        }
    }

    /// How it stands before any element: one that is to pass none has ended.
    pub fn ending(&self) -> StateEnd
        ensures { result ≡ begun_ending (begun self.now) }
    {
        match self {
            StepKind::Plain(task) => task_ending(task),
            StepKind::Keeps(_kind) => StateEnd::Lasting,
            StepKind::Passes | StepKind::First | StepKind::Last => StateEnd::Lasting,
        }
    }
}

// How a step of this task stands before any element.
fn task_ending(task: &LinearWork) -> StateEnd
    ensures { result ≡ begun_ending (tasks.work_in task.now) }
{
    match task {
        LinearWork::Take(0) => StateEnd::Ended,
        _ => StateEnd::Lasting,
    }
}
