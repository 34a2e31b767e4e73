ghost use Rattle.std.specs.Prelude.{◌≡◌, [], ◌∷◌, ◌++◌, OnOk, IfSome, IfNone, IsNone, ◌↔◌};

use elem_core::elem::Elem;
use elem_core::elems::Elems;
use elem_core::why::NoMemory;
use std::alloc::Global;
use std::marker::Model;

// Choice: docs/DECISIONS.md#batches
/// What goes from one step of a chain to the next: a list of elements, of which the first takes no memory. Most lists have one.
#[derive(Drop)]
pub struct Batch {
    first: Option<Elem>,
    more: Elems,
}

impl Model for Batch {
    ghost use Rattle.std.specs.Prelude.{◌≡◌, List, [], ◌++◌, None, option_to_list};
    ghost use Rattle.elem_core.specs.Tree.{Tree};
    ghost use Rattle.elem_core.specs.TreeCode.{tree_coded};
    ghost use Rattle.std.specs.Coded.{coded_list};

    ghost Value = { List Tree };

    ghost coded = { coded_list tree_coded };

    ghost view = { λ b. option_to_list b.first ++ b.more };

    ghost invariant = { λ b. b.first ≡ None → b.more ≡ [] };
}

impl Batch {
    /// None. It takes no memory.
    pub fn new(alloc: Global) -> Batch
        ensures { result ≡ [] }
    {
        Batch {
            first: None,
            more: Elems::new(alloc),
        }
    }

    /// Puts e last.
    pub fn add(&mut self, e: Elem) -> Result<(), NoMemory>
        ensures { OnOk result (self.new ≡ self.old ++ e ∷ []) }
    {
        match self.first {
            None => {
                self.first = Some(e);
                Ok(())
            }
            Some(_) => {
                self.more.add(e)?;
                Ok(())
            }
        }
    }

    /// Takes out the first; `None` where there is none. It takes no memory.
    pub fn take(&mut self) -> Option<Elem>
        ensures first { IfSome result (λ e. self.old ≡ e ∷ self.new) }
        ensures empty { IsNone result ↔ (self.old ≡ []) }
        ensures unchanged { IfNone result (self.new ≡ self.old) }
    {
        match self.first.take() {
            Some(e) => {
                self.first = self.more.take();
                Some(e)
            }
            None => None,
        }
    }

    /// Drops all, and keeps the memory.
    pub fn clear(&mut self)
        ensures { self.new ≡ [] }
    {
        while let Some(_) = self.take() {}
    }

    /// Moves all of `from` behind what is there.
    pub fn add_all(&mut self, from: &mut Elems) -> Result<(), NoMemory>
        ensures { OnOk result (self.new ≡ self.old ++ from.old) }
    {
        while let Some(e) = from.take() {
            self.add(e)?;
        }
        Ok(())
    }

    /// Moves all behind `to`.
    pub fn move_to(&mut self, to: &mut Elems) -> Result<(), NoMemory>
        ensures all { OnOk result (to.new ≡ to.old ++ self.old) }
        ensures none { OnOk result (self.new ≡ []) }
    {
        while let Some(e) = self.take() {
            to.add(e)?;
        }
        Ok(())
    }
}
