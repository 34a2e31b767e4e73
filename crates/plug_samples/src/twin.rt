// A plug that finishes with two outputs.
ghost use Rattle.std.specs.Prelude.{◌≡◌, codes};
ghost use Rattle.plug_logic.specs.Gives.{listed};
ghost use Rattle.plug_samples.specs.Samples.{twin_gives, sample_book};

use elem_core::elem::Elem;
use elem_core::elems::Elems;
use plug_logic::logic::{Logic, Verdict};
use std::alloc::Global;

/// The plug `twin`: it gives the first element twice, and is done.
#[derive(Drop)]
pub struct Twin {}

impl Twin {
    /// It took nothing yet. It takes no memory.
    pub fn new() -> Twin
        ensures { ⟦<Twin as Logic>⟧.gives result ≡ listed sample_book (codes "twin") }
    {
        Twin {}
    }
}

impl Logic for Twin {
    ghost gives = { λ t. twin_gives };

    fn on_elem(&mut self, alloc: Global, e: Elem, out: &mut Elems) -> Verdict {
        let Ok(copy) = e.copy(alloc) else {
            return Verdict::NoMemory;
        };
        if out.add(copy).is_err() || out.add(e).is_err() {
            return Verdict::NoMemory;
        }
        Verdict::Finish
    }

    fn on_end(&mut self, _alloc: Global, out: &mut Elems) -> Verdict {
        let _ = out;
        Verdict::Go
    }
}
