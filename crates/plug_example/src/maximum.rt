// A plug that keeps the greatest element so far.
ghost use Rattle.std.specs.Prelude.{◌≡◌, ◌++◌, ◌∷◌, [], codes, IfOk, IfErr};
ghost use Rattle.plug_logic.specs.Gives.{listed};
ghost use Rattle.plug_logic.specs.declared.logic.Verdict.TheVariants.{NoMemory};
ghost use Rattle.plug_example.specs.Maximum.{greatest, maximum_after, own_book};

use elem_core::elem::Elem;
use elem_core::elems::Elems;
use plug_logic::logic::{Logic, Verdict};
use std::alloc::Global;
use std::cmp::Ordering;

/// The plug `maximum`: behind each element it gives the greatest that came so far, by the order of elements. It copies what it gives.
#[derive(Drop)]
pub struct RunningMaximum {
    greatest: Option<Elem>,
}

impl RunningMaximum {
    /// It took nothing yet. It takes no memory.
    pub fn new() -> RunningMaximum
        ensures { ⟦<RunningMaximum as Logic>⟧.gives result ≡ listed own_book (codes "maximum") }
    {
        RunningMaximum { greatest: None }
    }
}

// Gives an element, and keeps a copy of it.
fn give(alloc: Global, e: Elem, out: &mut Elems) -> Result<Elem, Verdict>
    ensures given { IfOk result (λ kept. (kept ≡ e) × (out.new ≡ out.old ++ e ∷ [])) }
    ensures refused { IfErr result (λ verdict. verdict ≡ NoMemory) }
{
    let Ok(copy) = e.copy(alloc) else {
        return Err(Verdict::NoMemory);
    };
    match out.add(e) {
        Ok(()) => Ok(copy),
        Err(_) => Err(Verdict::NoMemory),
    }
}

// The greater of two elements, and the first where they are equal.
fn greater(best: Option<Elem>, e: Elem) -> Elem
    ensures { result ≡ greatest best e }
{
    match best {
        Some(best) if best.compare(&e) != Ordering::Less => best,
        _ => e,
    }
}

impl Logic for RunningMaximum {
    ghost gives = { λ m. maximum_after m.greatest };

    fn on_elem(&mut self, alloc: Global, e: Elem, out: &mut Elems) -> Verdict {
        let best = greater(self.greatest.take(), e);
        match give(alloc, best, out) {
            Ok(kept) => {
                self.greatest = Some(kept);
                Verdict::Go
            }
            Err(verdict) => verdict,
        }
    }

    fn on_end(&mut self, _alloc: Global, out: &mut Elems) -> Verdict {
        let _ = out;
        Verdict::Go
    }
}
