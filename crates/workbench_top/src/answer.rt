// What the workbench answers.
ghost use Rattle.std.specs.Prelude.{◌≡◌, []};
ghost use Rattle.workbench_top.specs.Answer.{code_of};

use std::alloc::Global;

/// How a call of the workbench ended.
#[derive(Clone, Copy)]
pub enum Ending {
    /// What was wanted is said.
    Done,
    /// The words are no command, or their numbers do not fit the blueprint.
    Words,
    /// The blueprint has a fault, or the report is none of it.
    Faulty,
    /// The blueprint's file is not there, or its opening was refused.
    Missing,
    /// The blueprint's file or the report could not be read.
    ReadFault,
    /// Memory was wanting.
    NoMemory,
}

/// What is said on the console, and what is told where faults are told.
#[derive(Drop)]
pub struct Answer {
    /// How the call ended.
    pub ending: Ending,
    /// What is said on the console.
    pub said: Vec<u8>,
    /// What is told of faults.
    pub told: Vec<u8>,
}

impl Answer {
    ghost use Rattle.std.specs.Prelude.{◌≡◌, []};

    /// An answer that says this, and tells of no fault.
    pub fn saying(alloc: Global, said: Vec<u8>) -> Answer
        ensures ending { result.ending ≡ Ending.Done }
        ensures said { result.said.items ≡ said.items }
        ensures told { result.told.items ≡ [] }
    {
        Answer {
            ending: Ending::Done,
            said,
            told: Vec::new(alloc),
        }
    }

    /// An answer that says nothing, and tells this.
    pub fn telling(alloc: Global, ending: Ending, told: Vec<u8>) -> Answer
        ensures ending { result.ending ≡ ending }
        ensures said { result.said.items ≡ [] }
        ensures told { result.told.items ≡ told.items }
    {
        Answer {
            ending,
            said: Vec::new(alloc),
            told,
        }
    }

    /// An answer where memory was wanting: it says and tells nothing.
    pub fn without_memory(alloc: Global) -> Answer
        ensures { result.ending ≡ Ending.NoMemory }
    {
        Answer {
            ending: Ending::NoMemory,
            said: Vec::new(alloc),
            told: Vec::new(alloc),
        }
    }
}

// Choice: docs/DECISIONS.md#exit-codes
/// The exit code of an ending: 0, 1 for the words, 2 for the blueprint, and those of `streams` for the outside and memory.
pub fn code(ending: Ending) -> u8
    ensures { result ≡ code_of ending }
{
    match ending {
        Ending::Done => 0,
        Ending::Words => 1,
        Ending::Faulty => 2,
        Ending::Missing => 6,
        Ending::ReadFault => 7,
        Ending::NoMemory => 9,
    }
}
