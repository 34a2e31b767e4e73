ghost use Rattle.port_core.specs.declared.act.Act.TheVariants as act;
ghost use Rattle.std.specs.Prelude.{◌≡◌, ◌<◌, ◌∷◌, [], ◌++◌, length, reverse, IfOk, IfSome, IfNone, IsNone, ◌↔◌, ◌≢◌};

use crate::act::Act;
use elem_core::elem::Elem;
use elem_core::why::NoMemory;
use std::alloc::Global;
use std::marker::Model;

// Choice: docs/DECISIONS.md#room-is-capacity
/// A handler's actions, first in first out, with room for a number of them that is fixed at the start.
#[derive(Drop)]
pub struct Acts {
    items: Vec<Act>,
    // How many sources may wait at their next ask.
    drained: u32,
}

impl Model for Acts {
    ghost use Rattle.std.specs.Prelude.{vec_capacity};
    ghost use Rattle.std.specs.Coded.{codes};
    ghost use Rattle.elem_core.specs.TreeCode.{tree_coded};
    ghost use Rattle.port_core.specs.ActList.{ActList};

    ghost Value = { ActList };

    ghost coded = { Prim.hlevel (codes, tree_coded) };

    ghost view = { λ a. record { room = vec_capacity a.items; items = a.items.items } };
}

impl Acts {
    /// An empty list with room for `room` actions.
    pub fn new(alloc: Global, room: u32) -> Result<Acts, NoMemory>
        ensures { IfOk result (λ a. a ≡ record { room = room; items = [] }) }
    {
        let items = Vec::with_capacity(alloc, room as usize)?;
        Ok(Acts { items, drained: 0 })
    }

    /// Notes that a source may wait at its next ask, as it has given all that it read. A hint for whoever runs the handlers.
    pub fn note_drained(&mut self)
        ensures { self.new ≡ self.old }
    {
        self.drained = self.drained.saturating_add(1);
    }

    /// Notes that a source of which that was noted keeps something again, or gives nothing any more.
    pub fn note_filled(&mut self)
        ensures { self.new ≡ self.old }
    {
        self.drained = self.drained.saturating_sub(1);
    }

    /// Whether some source may wait at its next ask.
    #[inline(always)]
    pub fn any_drained(&self) -> bool {
        self.drained > 0
    }

    /// Puts an action last, in constant time. It takes no memory.
    pub fn add(&mut self, act: Act)
        requires { length self.old.items < self.old.room }
        ensures { self.new ≡ record self.old { items = self.old.items ++ act ∷ [] } }
    {
        self.items.push_reserved(act);
    }

    /// How many actions are held.
    pub fn len(&self) -> usize
        ensures { result ≡ length self.now.items }
    {
        self.items.len()
    }

    /// Takes out the action where exactly one is held, in constant time; else the list stays. It takes no memory.
    pub fn only(&mut self) -> Option<Act>
        ensures one { IfSome result (λ a. (self.old.items ≡ a ∷ []) × (self.new ≡ record self.old { items = [] })) }
        ensures other { IfNone result ((self.new ≡ self.old) × (length self.old.items ≢ 1)) }
    {
        if self.items.len() == 1 {
            self.items.pop()
        } else {
            None
        }
    }

    /// Takes out the action where exactly one is held and it pulls, and says at which input; else the list stays. It takes no memory.
    #[inline(always)]
    pub fn only_pull(&mut self) -> Option<u8>
        ensures one { IfSome result (λ i. (self.old.items ≡ act.Pull i ∷ []) × (self.new ≡ record self.old { items = [] })) }
        ensures other { IfNone result (self.new ≡ self.old) }
    {
        if self.items.len() != 1 {
            return None;
        }
        let Act::Pull(_) = &self.items[0] else {
            return None;
        };
        match self.items.pop() {
            Some(Act::Pull(i)) => Some(i),
            _ => unreachable!(),
        }
    }

    /// Takes out the action where exactly one is held and it pushes, and says at which output and what; else the list stays. It takes no memory.
    #[inline(always)]
    pub fn only_push(&mut self) -> Option<(u8, Elem)>
        ensures one { IfSome result (λ p. (self.old.items ≡ act.Push p.0 p.1 ∷ []) × (self.new ≡ record self.old { items = [] })) }
        ensures other { IfNone result (self.new ≡ self.old) }
    {
        if self.items.len() != 1 {
            return None;
        }
        let Act::Push(_, _) = &self.items[0] else {
            return None;
        };
        match self.items.pop() {
            Some(Act::Push(j, e)) => Some((j, e)),
            _ => unreachable!(),
        }
    }

    /// Takes out the first action; where one is held, in constant time. It takes no memory.
    pub fn take(&mut self) -> Option<Act>
        ensures empty { IsNone result ↔ (self.old.items ≡ []) }
        ensures unchanged { IfNone result (self.new ≡ self.old) }
        ensures first { IfSome result (λ a. self.old ≡ record self.new { items = a ∷ self.new.items }) }
    {
        if self.items.len() > 1 {
            Some(self.items.remove(0))
        } else {
            self.items.pop()
        }
    }

    /// Turns the list round, so that `take_last` then takes the actions in their order: whoever takes several moves each once. It
    /// takes no memory.
    pub fn reverse(&mut self)
        ensures { self.new ≡ record self.old { items = reverse self.old.items } }
    {
        self.items.reverse();
    }

    /// Takes out the last action, in constant time. It takes no memory.
    pub fn take_last(&mut self) -> Option<Act>
        ensures empty { IsNone result ↔ (self.old.items ≡ []) }
        ensures unchanged { IfNone result (self.new ≡ self.old) }
        ensures last { IfSome result (λ a. self.old ≡ record self.new { items = self.new.items ++ a ∷ [] }) }
    {
        self.items.pop()
    }
}
