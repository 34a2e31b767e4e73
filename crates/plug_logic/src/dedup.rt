// A plug that leaves out repeated elements.
ghost use Rattle.std.specs.Prelude.{◌≡◌};
ghost use Rattle.std.specs.Prelude.{codes};
ghost use Rattle.plug_logic.specs.Gives.{listed};
ghost use Rattle.plug_logic.specs.Shipped.{dedup_after, shipped_book};

use crate::logic::{Logic, Verdict};
use elem_core::elem::Elem;
use elem_core::elems::Elems;
use std::alloc::Global;
use std::cmp::Ordering;

/// The plug `dedup`: it leaves out an element that is equal to the one before it. It copies each element that it gives.
#[derive(Drop)]
pub struct Dedup {
    last: Option<Elem>,
}

impl Dedup {
    /// It took nothing yet. It takes no memory.
    pub fn new() -> Dedup
        ensures { ⟦<Dedup as Logic>⟧.gives result ≡ listed shipped_book (codes "dedup") }
    {
        Dedup { last: None }
    }
}

impl Logic for Dedup {
    ghost gives = { λ d. dedup_after d.last };

    fn on_elem(&mut self, alloc: Global, e: Elem, out: &mut Elems) -> Verdict {
        match &self.last {
            Some(last) if last.compare(&e) == Ordering::Equal => {
                self.last = Some(e);
                Verdict::Go
            }
            _ => {
                let Ok(copy) = e.copy(alloc) else {
                    return Verdict::NoMemory;
                };
                self.last = Some(copy);
                match out.add(e) {
                    Ok(()) => Verdict::Go,
                    Err(_) => Verdict::NoMemory,
                }
            }
        }
    }

    fn on_end(&mut self, _alloc: Global, out: &mut Elems) -> Verdict {
        let _ = out;
        Verdict::Go
    }
}
