// A stage with several outputs as the interpreter calls it: its calls keep the law of each output over its whole history.
ghost use Rattle.std.specs.Prelude.{[], false, ⊤};
ghost use Rattle.stage_out.specs.OutLogics.{port_state as out_port_state, OutAsking, OutFresh, OutLaw};
ghost use Rattle.stage_out.specs.Moves.{out_moves};

use crate::logic::OutLogic;
use elem_core::elem::Elem;
use elem_core::item::Item;
use elem_core::why::{Cause, NoMemory};
use port_core::acts::Acts;
use stage_core::stage::Stage;
use std::alloc::Global;

impl Stage for OutLogic {
    ghost fresh = { OutFresh };

    ghost port_state = { out_port_state };

    ghost law = { OutLaw };

    ghost asking = { OutAsking };

    ghost moves = { out_moves };

    ghost keeps = { λ old new. ⊤ };

    ghost passive = { λ l. false };

    ghost gone = { λ l. [] };

    ghost waits = { λ l. [] };

    ghost late = { λ l. 0 };

    fn start(&mut self, _alloc: Global, acts: &mut Acts) -> Result<(), NoMemory> {
        self.start(acts)
    }

    fn on_pull(&mut self, _alloc: Global, port: u8, acts: &mut Acts) -> Result<(), NoMemory> {
        self.on_pull(port, acts)
    }

    fn on_push(
        &mut self,
        alloc: Global,
        port: u8,
        e: Elem,
        acts: &mut Acts,
    ) -> Result<(), NoMemory> {
        self.on_push(alloc, port, e, acts)
    }

    fn on_finish(&mut self, _alloc: Global, port: u8, acts: &mut Acts) -> Result<(), NoMemory> {
        self.on_finish(port, acts)
    }

    fn on_fail(
        &mut self,
        _alloc: Global,
        port: u8,
        cause: Cause,
        acts: &mut Acts,
    ) -> Result<(), NoMemory> {
        self.on_fail(port, cause, acts)
    }

    fn on_cancel(&mut self, _alloc: Global, port: u8, acts: &mut Acts) -> Result<(), NoMemory> {
        self.on_cancel(port, acts)
    }

    fn hand_out(&mut self) -> Option<Item> {
        None
    }

    fn let_go(&mut self) {}

    fn is_clear(&self) -> bool {
        true
    }

    fn is_passive(&self) -> bool {
        false
    }

    fn put_off(&mut self) -> bool {
        false
    }
}
