// A stage with state as the interpreter calls it: its calls keep the law of its output over its whole history.
ghost use Rattle.std.specs.Prelude.{[], false, ⊤};
ghost use Rattle.stage_state.specs.Handling.{StateFresh, StatePortState, StateLaw};
ghost use Rattle.stage_state.specs.Moves.{state_moves};

use crate::laws::a_called_stage_is_open;
use crate::logic::StateLogic;
use elem_core::elem::Elem;
use elem_core::item::Item;
use elem_core::why::{Cause, NoMemory};
use port_core::acts::Acts;
use stage_core::stage::Stage;
use std::alloc::Global;

impl Stage for StateLogic {
    ghost fresh = { StateFresh };

    ghost port_state = { StatePortState };

    ghost law = { StateLaw };

    ghost asking = { λ l v. ⊤ };

    ghost moves = { state_moves };

    ghost keeps = { λ old new. ⊤ };

    ghost passive = { λ l. false };

    ghost gone = { λ l. [] };

    ghost waits = { λ l. [] };

    ghost late = { λ l. 0 };

    fn start(&mut self, _alloc: Global, acts: &mut Acts) -> Result<(), NoMemory> {
        self.start(acts)
    }

    fn on_pull(&mut self, _alloc: Global, _port: u8, acts: &mut Acts) -> Result<(), NoMemory> {
        a_called_stage_is_open();
        self.on_pull(0, acts)
    }

    fn on_push(
        &mut self,
        alloc: Global,
        _port: u8,
        e: Elem,
        acts: &mut Acts,
    ) -> Result<(), NoMemory> {
        a_called_stage_is_open();
        self.on_push(alloc, 0, e, acts)
    }

    fn on_finish(&mut self, alloc: Global, _port: u8, acts: &mut Acts) -> Result<(), NoMemory> {
        a_called_stage_is_open();
        self.on_finish(alloc, 0, acts)
    }

    fn on_fail(
        &mut self,
        _alloc: Global,
        _port: u8,
        cause: Cause,
        acts: &mut Acts,
    ) -> Result<(), NoMemory> {
        a_called_stage_is_open();
        self.on_fail(0, cause, acts)
    }

    fn on_cancel(&mut self, _alloc: Global, _port: u8, acts: &mut Acts) -> Result<(), NoMemory> {
        a_called_stage_is_open();
        self.on_cancel(0, acts)
    }

    fn hand_out(&mut self) -> Option<Item> {
        None
    }

    fn let_go(&mut self) {}

    fn is_clear(&self) -> bool {
        true
    }

    fn is_passive(&self) -> bool {
        false
    }

    fn put_off(&mut self) -> bool {
        false
    }
}
