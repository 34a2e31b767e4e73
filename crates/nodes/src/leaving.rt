// The boundary stage at the output end of a lane.
ghost use Rattle.std.specs.Prelude.{◌≡◌, ◌≤◌, ◌++◌, true, [], ◌∷◌, IsOk, IfSome, IfNone, length, false, ⊤};
ghost use Rattle.elem_core.specs.declared.item.Item.TheVariants as item;
ghost use Rattle.port_core.specs.declared.view.InView.TheVariants.{Idle};
ghost use Rattle.nodes.specs.OnePort.{input_only};
ghost use Rattle.nodes.specs.Leaving.{LeavingFresh, LeavingPortState, LeavingLaw};

use elem_core::elem::Elem;
use elem_core::item::Item;
use elem_core::trace::Trace;
use elem_core::why::{Cause, NoMemory};
use port_core::acts::Acts;
use stage_core::stage::Stage;
use std::alloc::Global;
use std::marker::Model;

// Choice: docs/DECISIONS.md#one-list-left
/// The stage at which what came to it leaves an island for a lane. It has one input and no output: an element that came, and an
/// end behind it, wait here until they are handed out or dropped between two events of the island. Its input is asked and
/// cancelled from there too, and asked only where nothing waits, so two places are enough. What waits is handed out of the place
/// in which it lies, and is not moved up before. Rule: Akka Streams 2.6 reference, chapter on asynchronous boundaries.
#[derive(Drop)]
pub struct Leaving {
    wire: u32,
    first: Option<Item>,
    second: Option<Item>,
    gone: Trace<Item>,
}

impl Model for Leaving {
    ghost use Rattle.std.specs.Prelude.{◌++◌};
    ghost use Rattle.std.specs.Option.{option_to_list};
    ghost use Rattle.std.specs.Coded.{codes};
    ghost use Rattle.elem_core.specs.TreeCode.{tree_coded};
    ghost use Rattle.nodes.specs.Leaving.{Leaving};

    ghost Value = { Leaving };

    ghost coded = { Prim.hlevel (codes, tree_coded) };

    ghost view = { λ s. record { wire = s.wire; waits = option_to_list s.first ++ option_to_list s.second; gone = s.gone.items } };
}

impl Leaving {
    /// The stage of the lane that is wire `wire`. It takes no memory.
    pub fn new(wire: u32) -> Leaving
        ensures stage { result ≡ record { wire = wire; waits = []; gone = [] } }
        ensures fresh { LeavingFresh result (input_only Idle) }
    {
        Leaving {
            wire,
            first: None,
            second: None,
            gone: Trace::empty(),
        }
    }

    /// The number of the wire that its lane is.
    pub fn wire(&self) -> u32
        ensures { result ≡ self.now.wire }
    {
        self.wire
    }

    // An item came: it waits behind the one that waits, if one does.
    #[inline(always)]
    fn add(&mut self, item: Item)
        requires few { length self.old.waits ≤ 1 }
        ensures { self.new ≡ record self.old { waits = self.old.waits ++ item ∷ [] } }
    {
        match (&self.first, &self.second) {
            (None, None) => self.first = Some(item),
            _ => self.add_behind(item),
        }
    }

    // The same where one waits, in either place. Out of line, since this comes once.
    #[inline(never)]
    fn add_behind(&mut self, item: Item)
        requires few { length self.old.waits ≤ 1 }
        ensures { self.new ≡ record self.old { waits = self.old.waits ++ item ∷ [] } }
    {
        match &self.first {
            None => self.first = self.second.replace(item),
            Some(_) => self.second = Some(item),
        }
    }

    // Takes the first that waits out of the place in which it lies, and does not yet note that it is gone.
    #[inline(always)]
    fn take_first(&mut self) -> Option<Item>
        ensures none { IfNone result ((self.old.waits ≡ []) × (self.new ≡ self.old)) }
        ensures some { IfSome result (λ x. (self.old.waits ≡ x ∷ self.new.waits)
            × (self.new ≡ record self.old { waits = self.new.waits })) }
    {
        match self.first.take() {
            Some(item) => Some(item),
            None => self.second.take(),
        }
    }

    // Takes out the first that waits. Out of line, since `hand_out` takes most out itself.
    #[inline(never)]
    fn pop(&mut self) -> Option<Item>
        ensures none { IfNone result ((self.old.waits ≡ []) × (self.new ≡ self.old)) }
        ensures some { IfSome result (λ x. (self.old.waits ≡ x ∷ self.new.waits)
            × (self.new ≡ record { wire = self.old.wire; waits = self.new.waits; gone = self.old.gone ++ x ∷ [] })) }
    {
        let item = self.take_first()?;
        self.gone = self.gone.and(&item);
        Some(item)
    }
}

impl Stage for Leaving {
    ghost fresh = { LeavingFresh };

    ghost port_state = { LeavingPortState };

    ghost law = { LeavingLaw };

    ghost asking = { λ x v. ⊤ };

    ghost moves = { λ x. [] };

    ghost keeps = { λ old new. new ≡ old };

    ghost passive = { λ x. true };

    ghost gone = { λ x. x.gone };

    ghost waits = { λ x. x.waits };

    ghost late = { λ x. 0 };

    fn start(&mut self, _alloc: Global, _acts: &mut Acts) -> Result<(), NoMemory>
        ensures same { (self.new ≡ self.old) × (_acts.new ≡ _acts.old) }
        ensures answers { IsOk result }
    {
        Ok(())
    }

    // Nobody asks or cancels, since it has no output.
    fn on_pull(&mut self, _alloc: Global, _port: u8, _acts: &mut Acts) -> Result<(), NoMemory>
        ensures same { (self.new ≡ self.old) × (_acts.new ≡ _acts.old) }
        ensures answers { IsOk result }
    {
        Ok(())
    }

    fn pull_at_once(&mut self, _port: u8) -> bool
        ensures rests { result ≡ false }
        ensures same { self.new ≡ self.old }
    {
        false
    }

    fn on_push(
        &mut self,
        _alloc: Global,
        _port: u8,
        e: Elem,
        _acts: &mut Acts,
    ) -> Result<(), NoMemory>
        requires few { length self.old.waits ≤ 1 }
        ensures waits { self.new ≡ record self.old { waits = self.old.waits ++ item.Elem e ∷ [] } }
        ensures nothing { _acts.new ≡ _acts.old }
        ensures answers { IsOk result }
    {
        self.add(Item::Elem(e));
        Ok(())
    }

    fn on_finish(&mut self, _alloc: Global, _port: u8, _acts: &mut Acts) -> Result<(), NoMemory>
        requires few { length self.old.waits ≤ 1 }
        ensures waits { self.new ≡ record self.old { waits = self.old.waits ++ item.Ended ∷ [] } }
        ensures nothing { _acts.new ≡ _acts.old }
        ensures answers { IsOk result }
    {
        self.add(Item::Ended);
        Ok(())
    }

    fn on_fail(
        &mut self,
        _alloc: Global,
        _port: u8,
        cause: Cause,
        _acts: &mut Acts,
    ) -> Result<(), NoMemory>
        requires few { length self.old.waits ≤ 1 }
        ensures waits { self.new ≡ record self.old { waits = self.old.waits ++ item.Failed cause ∷ [] } }
        ensures nothing { _acts.new ≡ _acts.old }
        ensures answers { IsOk result }
    {
        self.add(Item::Failed(cause));
        Ok(())
    }

    fn on_cancel(&mut self, _alloc: Global, _port: u8, _acts: &mut Acts) -> Result<(), NoMemory>
        ensures same { (self.new ≡ self.old) × (_acts.new ≡ _acts.old) }
        ensures answers { IsOk result }
    {
        Ok(())
    }

    // The first place is looked at here: what waits nearly always lies in it, and one more call would move it once more.
    fn hand_out(&mut self) -> Option<Item> {
        match self.first.take() {
            Some(item) => {
                self.gone = self.gone.and(&item);
                Some(item)
            }
            None => self.pop(),
        }
    }

    fn let_go(&mut self) {
        while let Some(item) = self.pop() {
            drop(item);
        }
    }

    fn is_clear(&self) -> bool {
        self.first.is_none() && self.second.is_none()
    }

    fn is_passive(&self) -> bool {
        true
    }

    fn put_off(&mut self) -> bool {
        false
    }
}
