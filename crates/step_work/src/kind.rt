ghost use Rattle.std.specs.Prelude.{◌≡◌, IfOk, option_to_list};
ghost use Rattle.stream_model.specs.Linear.{first_of};
ghost use Rattle.step_work.specs.Keeping.{work_in, begun};

use crate::keeping::StateWork;
use elem_core::elem::Elem;
use elem_core::function::{FoldOp, ReduceOp};
use elem_core::why::NoMemory;
use std::alloc::Global;

/// What a stage that keeps elements does, from its start. Rule: Akka Streams 2.6 reference.
#[derive(Clone, Copy)]
pub enum StateKind {
    /// Lists of so many elements.
    Group(u32),
    /// The last value of a fold, at the end.
    Fold(FoldOp),
    /// The last value of a reduction, at the end.
    Reduce(ReduceOp),
    /// Each value of a fold, from its zero on.
    Scan(FoldOp),
}

impl StateKind {
    /// The work that it begins with.
    pub fn begin(self, alloc: Global) -> Result<StateWork, NoMemory>
        ensures { IfOk result (λ w. work_in w ≡ begun self) }
    {
        match self {
            StateKind::Group(n) => Ok(StateWork::Group(n, Vec::new(alloc))),
            StateKind::Fold(op) => Ok(StateWork::Fold(op, op.zero(alloc)?)),
            StateKind::Reduce(op) => Ok(StateWork::Reduce(op, None)),
            StateKind::Scan(op) => Ok(StateWork::Scan(op, op.zero(alloc)?)),
        }
    }

    /// What it gives before any element: a scan its zero.
    pub fn first(self, alloc: Global) -> Result<Option<Elem>, NoMemory>
        ensures { IfOk result (λ owed. option_to_list owed ≡ first_of (begun self)) }
    {
        match self {
            StateKind::Scan(op) => Ok(Some(op.zero(alloc)?)),
            StateKind::Group(_) | StateKind::Fold(_) | StateKind::Reduce(_) => Ok(None),
        }
    }
}
