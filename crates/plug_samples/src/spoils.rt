// A plug that fails at its end.
ghost use Rattle.std.specs.Prelude.{◌≡◌, codes};
ghost use Rattle.plug_logic.specs.Gives.{listed};
ghost use Rattle.plug_samples.specs.Samples.{spoils_gives, sample_book};

use elem_core::elem::Elem;
use elem_core::elems::Elems;
use plug_logic::logic::{Logic, Verdict};
use std::alloc::Global;

/// The plug `spoils`: it passes each element on, and fails with code 9 at the end of its input.
#[derive(Drop)]
pub struct Spoils {}

impl Spoils {
    /// It took nothing yet. It takes no memory.
    pub fn new() -> Spoils
        ensures { ⟦<Spoils as Logic>⟧.gives result ≡ listed sample_book (codes "spoils") }
    {
        Spoils {}
    }
}

impl Logic for Spoils {
    ghost gives = { λ s. spoils_gives };

    fn on_elem(&mut self, _alloc: Global, e: Elem, out: &mut Elems) -> Verdict {
        match out.add(e) {
            Ok(()) => Verdict::Go,
            Err(_) => Verdict::NoMemory,
        }
    }

    fn on_end(&mut self, _alloc: Global, out: &mut Elems) -> Verdict {
        let _ = out;
        Verdict::Fail(9)
    }
}
