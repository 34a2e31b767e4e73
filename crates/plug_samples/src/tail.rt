// A plug that gives two outputs at its end.
ghost use Rattle.std.specs.Prelude.{◌≡◌, codes};
ghost use Rattle.plug_logic.specs.Gives.{listed};
ghost use Rattle.plug_samples.specs.Samples.{tail_after, sample_book};

use elem_core::elem::Elem;
use elem_core::elems::Elems;
use plug_logic::logic::{Logic, Verdict};
use std::alloc::Global;

/// The plug `tail`: it gives the last element twice, at the end of its input.
#[derive(Drop)]
pub struct Tail {
    last: Option<Elem>,
}

impl Tail {
    /// It took nothing yet. It takes no memory.
    pub fn new() -> Tail
        ensures { ⟦<Tail as Logic>⟧.gives result ≡ listed sample_book (codes "tail") }
    {
        Tail { last: None }
    }
}

impl Logic for Tail {
    ghost gives = { λ t. tail_after t.last };

    fn on_elem(&mut self, _alloc: Global, e: Elem, out: &mut Elems) -> Verdict {
        let _ = out;
        self.last = Some(e);
        Verdict::Go
    }

    fn on_end(&mut self, alloc: Global, out: &mut Elems) -> Verdict {
        let Some(e) = self.last.take() else {
            return Verdict::Go;
        };
        let Ok(copy) = e.copy(alloc) else {
            return Verdict::NoMemory;
        };
        if out.add(copy).is_err() || out.add(e).is_err() {
            return Verdict::NoMemory;
        }
        Verdict::Go
    }
}
