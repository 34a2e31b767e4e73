// A linear stage as the interpreter calls it: its calls keep the law of its output over its whole history, by its book of plugs.
ghost use Rattle.std.specs.Prelude.{[], false, ⊤};
ghost use Rattle.stage_linear.specs.Handling.{LinearFresh, LinearPortState, LinearLaw};

use crate::laws::a_called_stage_is_open;
use crate::logic::LinearLogic;
use elem_core::elem::Elem;
use elem_core::item::Item;
use elem_core::why::{Cause, NoMemory};
use plug_logic::book::PlugBook;
use plug_logic::logic::Logic;
use port_core::acts::Acts;
use stage_core::stage::{Stage, Swift};
use std::alloc::Global;

impl<L: Logic, B: PlugBook> Stage for LinearLogic<L, B> {
    ghost fresh = { LinearFresh };

    ghost port_state = { LinearPortState };

    ghost law = { LinearLaw B.lists };

    ghost asking = { λ l v. ⊤ };

    ghost moves = { λ l. [] };

    ghost keeps = { λ old new. ⊤ };

    ghost passive = { λ l. false };

    ghost gone = { λ l. [] };

    ghost waits = { λ l. [] };

    ghost late = { λ l. 0 };

    fn start(&mut self, _alloc: Global, acts: &mut Acts) -> Result<(), NoMemory> {
        self.start(acts)
    }

    fn on_pull(&mut self, alloc: Global, _port: u8, acts: &mut Acts) -> Result<(), NoMemory> {
        a_called_stage_is_open();
        if self.holds_none() {
            self.ask(0, acts);
            return Ok(());
        }
        self.on_pull(alloc, 0, acts)
    }

    fn on_push(
        &mut self,
        alloc: Global,
        _port: u8,
        e: Elem,
        acts: &mut Acts,
    ) -> Result<(), NoMemory> {
        a_called_stage_is_open();
        let taken = self.next_number()?;
        match self.at_once(&e) {
            Some(said) => {
                self.answer_at_once(taken, said, e, acts);
                Ok(())
            }
            None => self.react(alloc, taken, e, acts),
        }
    }

    fn on_finish(&mut self, alloc: Global, _port: u8, acts: &mut Acts) -> Result<(), NoMemory> {
        a_called_stage_is_open();
        self.on_finish(alloc, 0, acts)
    }

    fn on_fail(
        &mut self,
        _alloc: Global,
        _port: u8,
        cause: Cause,
        acts: &mut Acts,
    ) -> Result<(), NoMemory> {
        a_called_stage_is_open();
        self.on_fail(0, cause, acts)
    }

    fn on_cancel(&mut self, _alloc: Global, _port: u8, acts: &mut Acts) -> Result<(), NoMemory> {
        a_called_stage_is_open();
        self.on_cancel(0, acts)
    }

    fn hand_out(&mut self) -> Option<Item> {
        None
    }

    fn let_go(&mut self) {}

    fn is_clear(&self) -> bool {
        true
    }

    fn is_passive(&self) -> bool {
        false
    }

    fn put_off(&mut self) -> bool {
        false
    }

    #[inline(always)]
    fn push_at_once(&mut self, _port: u8, _e: &mut Elem, _acts: &mut Acts) -> Swift {
        a_called_stage_is_open();
        let Ok(taken) = self.next_number() else {
            return Swift::Rests;
        };
        match self.at_once(_e) {
            Some(said) => self.answer_in_place(taken, said, _e, _acts),
            None => Swift::Rests,
        }
    }

    #[inline(always)]
    fn pull_at_once(&mut self, _port: u8) -> bool {
        a_called_stage_is_open();
        if self.holds_none() {
            self.wait();
            return true;
        }
        false
    }
}
