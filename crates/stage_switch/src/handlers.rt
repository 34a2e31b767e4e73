// A valve and a trip as the interpreter calls them: their calls keep the law of their histories and of their seats.
ghost use Rattle.std.specs.Prelude.{[], false, ⊤};
ghost use Rattle.stage_switch.specs.Handling.{ValveFresh, ValvePortState, ValveAs, KeepsValve, TripFresh, TripPortState, TripAs, KeepsTrip};

use crate::laws::a_called_stage_is_open;
use crate::trip::Trip;
use crate::valve::Valve;
use elem_core::elem::Elem;
use elem_core::item::Item;
use elem_core::why::{Cause, NoMemory};
use port_core::acts::Acts;
use stage_core::stage::Stage;
use std::alloc::Global;

impl Stage for Valve {
    ghost fresh = { ValveFresh };

    ghost port_state = { ValvePortState };

    ghost law = { ValveAs };

    ghost asking = { λ l v. ⊤ };

    ghost moves = { λ l. l.moves };

    ghost keeps = { KeepsValve };

    ghost passive = { λ l. false };

    ghost gone = { λ l. [] };

    ghost waits = { λ l. [] };

    ghost late = { λ l. 0 };

    fn start(&mut self, _alloc: Global, acts: &mut Acts) -> Result<(), NoMemory> {
        self.start(acts)
    }

    fn on_pull(&mut self, _alloc: Global, _port: u8, acts: &mut Acts) -> Result<(), NoMemory> {
        a_called_stage_is_open();
        self.on_pull(acts)
    }

    fn on_push(
        &mut self,
        _alloc: Global,
        _port: u8,
        e: Elem,
        acts: &mut Acts,
    ) -> Result<(), NoMemory> {
        a_called_stage_is_open();
        self.on_push(e, acts)
    }

    fn on_finish(&mut self, _alloc: Global, _port: u8, acts: &mut Acts) -> Result<(), NoMemory> {
        a_called_stage_is_open();
        self.on_finish(acts)
    }

    fn on_fail(
        &mut self,
        _alloc: Global,
        _port: u8,
        cause: Cause,
        acts: &mut Acts,
    ) -> Result<(), NoMemory> {
        a_called_stage_is_open();
        self.on_fail(cause, acts)
    }

    fn on_cancel(&mut self, _alloc: Global, _port: u8, acts: &mut Acts) -> Result<(), NoMemory> {
        a_called_stage_is_open();
        self.on_cancel(acts)
    }

    fn hand_out(&mut self) -> Option<Item> {
        None
    }

    fn let_go(&mut self) {}

    fn is_clear(&self) -> bool {
        true
    }

    fn is_passive(&self) -> bool {
        false
    }

    fn put_off(&mut self) -> bool {
        false
    }
}

impl Stage for Trip {
    ghost fresh = { TripFresh };

    ghost port_state = { TripPortState };

    ghost law = { TripAs };

    ghost asking = { λ l v. ⊤ };

    ghost moves = { λ l. [] };

    ghost keeps = { KeepsTrip };

    ghost passive = { λ l. false };

    ghost gone = { λ l. [] };

    ghost waits = { λ l. [] };

    ghost late = { λ l. 0 };

    fn start(&mut self, _alloc: Global, acts: &mut Acts) -> Result<(), NoMemory> {
        self.start(acts)
    }

    fn on_pull(&mut self, _alloc: Global, _port: u8, acts: &mut Acts) -> Result<(), NoMemory> {
        a_called_stage_is_open();
        self.on_pull(acts)
    }

    fn on_push(
        &mut self,
        _alloc: Global,
        _port: u8,
        e: Elem,
        acts: &mut Acts,
    ) -> Result<(), NoMemory> {
        a_called_stage_is_open();
        self.on_push(e, acts)
    }

    fn on_finish(&mut self, _alloc: Global, _port: u8, acts: &mut Acts) -> Result<(), NoMemory> {
        a_called_stage_is_open();
        self.on_finish(acts)
    }

    fn on_fail(
        &mut self,
        _alloc: Global,
        _port: u8,
        cause: Cause,
        acts: &mut Acts,
    ) -> Result<(), NoMemory> {
        a_called_stage_is_open();
        self.on_fail(cause, acts)
    }

    fn on_cancel(&mut self, _alloc: Global, _port: u8, acts: &mut Acts) -> Result<(), NoMemory> {
        a_called_stage_is_open();
        self.on_cancel(acts)
    }

    fn hand_out(&mut self) -> Option<Item> {
        None
    }

    fn let_go(&mut self) {}

    fn is_clear(&self) -> bool {
        true
    }

    fn is_passive(&self) -> bool {
        false
    }

    fn put_off(&mut self) -> bool {
        false
    }
}
