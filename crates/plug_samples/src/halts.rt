// A plug that fails at its second element, with an output that is dropped.
ghost use Rattle.std.specs.Prelude.{◌≡◌, codes};
ghost use Rattle.plug_logic.specs.Gives.{listed};
ghost use Rattle.plug_samples.specs.Samples.{halts_after, sample_book};

use elem_core::elem::Elem;
use elem_core::elems::Elems;
use plug_logic::logic::{Logic, Verdict};
use std::alloc::Global;

/// The plug `halts`: it gives the first element, and fails with code 7 at the second, which it has put out by then.
#[derive(Drop)]
pub struct Halts {
    came: bool,
}

impl Halts {
    /// It took nothing yet. It takes no memory.
    pub fn new() -> Halts
        ensures { ⟦<Halts as Logic>⟧.gives result ≡ listed sample_book (codes "halts") }
    {
        Halts { came: false }
    }
}

impl Logic for Halts {
    ghost gives = { λ h. halts_after h.came };

    fn on_elem(&mut self, _alloc: Global, e: Elem, out: &mut Elems) -> Verdict {
        if out.add(e).is_err() {
            return Verdict::NoMemory;
        }
        if self.came {
            return Verdict::Fail(7);
        }
        self.came = true;
        Verdict::Go
    }

    fn on_end(&mut self, _alloc: Global, out: &mut Elems) -> Verdict {
        let _ = out;
        Verdict::Go
    }
}
