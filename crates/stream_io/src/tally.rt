// The counts of a folder, by name.
ghost use Rattle.std.specs.Prelude.{◌≡◌, [], ◌∷◌, None};
ghost use Rattle.stream_io.specs.Counts.{Rose};
ghost use Rattle.stream_io.specs.State.{RefusesName, SameFaults, ClosesSource, ClosesDrain};
ghost use Rattle.stream_io.specs.Tally.{counts_grown, tallied, folder_of_counts};

use elem_core::line::Line;
use std::alloc::{AllocError, Global};
use std::marker::Model;

/// What a folder counts of one name.
#[derive(Drop)]
pub struct Counts {
    pub name: Line,
    pub refusals: u64,
    pub rfaults: u64,
    pub wfaults: u64,
    pub read: u64,
}

impl Counts {
    fn grow(&mut self, more: &Counts)
        ensures { self.new ≡ counts_grown self.old more.now }
    {
        self.refusals = self.refusals.saturating_add(more.refusals);
        self.rfaults = self.rfaults.saturating_add(more.rfaults);
        self.wfaults = self.wfaults.saturating_add(more.wfaults);
        self.read = self.read.saturating_add(more.read);
    }
}

/// The counts of a folder. They stand in links, so that an entry can be added without memory, in a link that was made before.
#[cycle(tally)]
#[derive(Drop)]
pub struct Tally {
    link: TallyCell,
}

#[cycle(tally)]
#[derive(Drop)]
enum TallyCell {
    End,
    More(Counts, Box<Tally>),
}

impl Model for Tally {
    ghost use Rattle.std.specs.Prelude.{List, length};
    ghost use Rattle.stream_io.specs.declared.tally.Counts.{Counts};

    ghost Value = { List Counts };

    ghost use Rattle.stream_io.specs.TallyLink.{entries_of};

    ghost view = { λ t. entries_of t.link };

    ghost size = { length };

    ghost use Rattle.std.proofs.Common.{arith, length-append};

    ghost size_decreases = { λ a h. Prim.grind (arith, length-append) };
}

impl Tally {
    /// No counts.
    pub fn new() -> Tally
        ensures { result ≡ [] }
    {
        Tally {
            link: TallyCell::End,
        }
    }

    /// A link for one more entry.
    pub fn spare(alloc: Global) -> Result<Box<Tally>, AllocError> {
        Ok(Box::new(alloc, Tally::new())?)
    }

    /// Counts a refused opening of a name.
    pub fn refuse(&mut self, name: Line, spare: Box<Tally>)
        ensures rose { Rose ((folder_of_counts self.old).refusals name) ((folder_of_counts self.new).refusals name) }
        ensures refusal { RefusesName (folder_of_counts self.old) (folder_of_counts self.new) name }
        ensures faults { SameFaults (folder_of_counts self.old) (folder_of_counts self.new) }
    {
        let more = Counts {
            name,
            refusals: 1,
            rfaults: 0,
            wfaults: 0,
            read: 0,
        };
        self.add(more, spare);
    }

    /// Counts what a closed source of a name tells.
    pub fn close_in(&mut self, name: Line, spare: Box<Tally>, given: u64, faults: u64)
        ensures { ClosesSource (folder_of_counts self.old) (folder_of_counts self.new) (record { name = name; whole = None; given = given; faults = faults }) }
    {
        let more = Counts {
            name,
            refusals: 0,
            rfaults: faults,
            wfaults: 0,
            read: given,
        };
        self.add(more, spare);
    }

    /// Counts what a closed drain of a name tells.
    pub fn close_out(&mut self, name: Line, spare: Box<Tally>, faults: u64)
        ensures { ClosesDrain (folder_of_counts self.old) (folder_of_counts self.new) (record { name = name; holds = None; faults = faults }) }
    {
        let more = Counts {
            name,
            refusals: 0,
            rfaults: 0,
            wfaults: faults,
            read: 0,
        };
        self.add(more, spare);
    }

    /// Adds counts to those of their name, and takes the link where there are none. It takes no memory.
    pub fn add(&mut self, more: Counts, mut spare: Box<Tally>)
        ensures { self.new ≡ tallied self.old more }
    {
        match &mut self.link {
            TallyCell::End => {
                *spare = Tally::new();
                self.link = TallyCell::More(more, spare);
            }
            TallyCell::More(counts, later) => {
                if counts.name == more.name {
                    counts.grow(&more);
                } else {
                    later.add(more, spare);
                }
            }
        }
    }
}
