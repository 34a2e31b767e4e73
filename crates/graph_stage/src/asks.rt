ghost use Rattle.std.specs.Prelude.{◌≡◌, [], ◌∷◌, ◌++◌, length, OnOk, OnErr, IfSome, IfNone, IsNone, ◌↔◌};

use crate::ask::Ask;
use std::alloc::{AllocError, Global};
use std::collections::VecDeque;
use std::marker::Model;

/// The asks of one call of a custom stage, first come first carried out.
#[derive(Drop)]
pub struct Asks {
    queue: VecDeque<Ask>,
}

impl Model for Asks {
    ghost use Rattle.std.specs.Prelude.{List};
    ghost use Rattle.std.specs.Coded.{codes};
    ghost use Rattle.elem_core.specs.TreeCode.{tree_coded};
    ghost use Rattle.graph_stage.specs.declared.ask.Ask.{Ask};

    ghost Value = { List Ask };

    ghost coded = { Prim.hlevel (codes, tree_coded) };

    ghost view = { λ a. a.queue.items };
}

impl Asks {
    /// No asks. It takes no memory.
    pub fn new(alloc: Global) -> Asks
        ensures { result ≡ [] }
    {
        Asks {
            queue: VecDeque::new(alloc),
        }
    }

    /// Puts an ask last. On a refusal of memory the list is as before, and the ask is dropped.
    pub fn add(&mut self, a: Ask) -> Result<(), AllocError>
        ensures ok { OnOk result (self.new ≡ self.old ++ a ∷ []) }
        ensures err { OnErr result (self.new ≡ self.old) }
    {
        self.queue.push_back(a)?;
        Ok(())
    }

    /// How many they are: fewer than 2^64, so a handler that asks without end is refused memory. It takes no memory.
    pub fn len(&self) -> usize
        ensures { result ≡ length self.now }
    {
        self.queue.len()
    }

    /// Drops all of them. It takes no memory.
    pub(crate) fn clear(&mut self)
        ensures { self.new ≡ [] }
    {
        self.queue.clear();
    }

    /// Takes out the first ask; `None` where there is none. It takes no memory.
    pub(crate) fn take(&mut self) -> Option<Ask>
        ensures first { IfSome result (λ a. self.old ≡ a ∷ self.new) }
        ensures empty { IsNone result ↔ (self.old ≡ []) }
        ensures unchanged { IfNone result (self.new ≡ self.old) }
    {
        self.queue.pop_front()
    }
}
