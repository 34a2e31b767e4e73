// Two plugs that meet only where two threads run.
ghost use Rattle.std.specs.Prelude.{◌≡◌, codes};
ghost use Rattle.plug_logic.specs.Gives.{listed};
ghost use Rattle.plug_samples.specs.Samples.{passes_all, sample_book};

use elem_core::elem::Elem;
use elem_core::elems::Elems;
use once_cell::race::OnceBool;
use plug_logic::logic::{Logic, Verdict};
use std::alloc::Global;
use std::sync::Arc;

/// How often a plug looks for the other.
const LOOKS: u32 = 200_000_000;

/// The plugs `left` and `right`: each passes every element on. Before that it sets its own flag, and looks for the other's; where it finds
/// that, it sets a third.
#[derive(Drop)]
pub struct Meets {
    own: Arc<OnceBool>,
    other: Arc<OnceBool>,
    met: Arc<OnceBool>,
}

impl Meets {
    /// With these flags. It takes no memory.
    pub fn new(own: Arc<OnceBool>, other: Arc<OnceBool>, met: Arc<OnceBool>) -> Meets
        ensures left { ⟦<Meets as Logic>⟧.gives result ≡ listed sample_book (codes "left") }
        ensures right { ⟦<Meets as Logic>⟧.gives result ≡ listed sample_book (codes "right") }
    {
        Meets { own, other, met }
    }

    // Whether the other's flag was found.
    fn looks(&self) -> bool {
        for _ in 0..LOOKS {
            if self.other.get().is_some() {
                return true;
            }
        }
        false
    }
}

impl Logic for Meets {
    ghost gives = { λ m. passes_all };

    fn on_elem(&mut self, _alloc: Global, e: Elem, out: &mut Elems) -> Verdict {
        let _ = self.own.set(true);
        if self.looks() {
            let _ = self.met.set(true);
        }
        match out.add(e) {
            Ok(()) => Verdict::Go,
            Err(_) => Verdict::NoMemory,
        }
    }

    fn on_end(&mut self, _alloc: Global, out: &mut Elems) -> Verdict {
        let _ = out;
        Verdict::Go
    }
}
