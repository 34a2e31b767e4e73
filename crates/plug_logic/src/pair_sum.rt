// A plug that adds neighbours up.
ghost use Rattle.std.specs.Prelude.{◌≡◌, ◌⊎◌, ◌++◌, ◌∷◌, [], codes};
ghost use Rattle.plug_logic.specs.declared.logic.Verdict.TheVariants.{Go, NoMemory};
ghost use Rattle.plug_logic.specs.Gives.{listed};
ghost use Rattle.plug_logic.specs.Shipped.{sums_after, shipped_book};

use crate::logic::{Logic, Verdict};
use elem_core::elem::Elem;
use elem_core::elems::Elems;
use elem_core::function::{FnEnd, ReduceOp};
use std::alloc::Global;

/// The plug `pairsum`: it gives the sum of each two neighbours, the first and the second, the third and the fourth, and at the end an odd
/// last number alone. Where a sum is out of range it fails with code 1.
#[derive(Drop)]
pub struct PairSum {
    first: Option<Elem>,
}

impl PairSum {
    /// It took nothing yet. It takes no memory.
    pub fn new() -> PairSum
        ensures { ⟦<PairSum as Logic>⟧.gives result ≡ listed shipped_book (codes "pairsum") }
    {
        PairSum { first: None }
    }
}

// One output.
fn put(e: Elem, out: &mut Elems) -> Verdict
    ensures { ((result ≡ Go) × (out.new ≡ out.old ++ e ∷ [])) ⊎ (result ≡ NoMemory) }
{
    match out.add(e) {
        Ok(()) => Verdict::Go,
        Err(_) => Verdict::NoMemory,
    }
}

impl Logic for PairSum {
    ghost gives = { λ p. sums_after p.first };

    fn on_elem(&mut self, alloc: Global, e: Elem, out: &mut Elems) -> Verdict {
        match self.first.take() {
            None => {
                self.first = Some(e);
                Verdict::Go
            }
            Some(first) => match ReduceOp::Sum.step(alloc, first, &e) {
                Ok(sum) => put(sum, out),
                Err(FnEnd::NoMemory) => Verdict::NoMemory,
                Err(FnEnd::Why(_)) => Verdict::Fail(1),
            },
        }
    }

    fn on_end(&mut self, _alloc: Global, out: &mut Elems) -> Verdict {
        match self.first.take() {
            None => Verdict::Go,
            Some(first) => put(first, out),
        }
    }
}
