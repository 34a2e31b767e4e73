// A stage with substreams as the interpreter calls it, over the chain that the program runs: its calls keep the law of its
// output and of its moves over its whole history.
ghost use Rattle.std.specs.Prelude.{[], false, ⊤};
ghost use Rattle.line_chain.specs.Line.{line_whole, line_rest, line_is_open};
ghost use Rattle.stage_sub.specs.LedLaws.{LedNew, LedPortState, SubsLaw};
ghost use Rattle.stage_sub.specs.Leds.{made_moves};

use crate::logic::SubLogic;
use elem_core::elem::Elem;
use elem_core::item::Item;
use elem_core::why::{Cause, NoMemory};
use line_chain::line::LineChain;
use port_core::acts::Acts;
use stage_core::stage::Stage;
use std::alloc::Global;

// Choice: docs/DECISIONS.md#stage-over-line-chains
impl Stage for SubLogic<LineChain> {
    ghost fresh = { LedNew line_rest line_is_open };

    ghost port_state = { LedPortState line_rest line_is_open };

    ghost law = { SubsLaw line_rest line_is_open line_whole };

    ghost asking = { λ l v. ⊤ };

    ghost moves = { made_moves };

    ghost keeps = { λ old new. ⊤ };

    ghost passive = { λ l. false };

    ghost gone = { λ l. [] };

    ghost waits = { λ l. [] };

    ghost late = { λ l. 0 };

    fn start(&mut self, _alloc: Global, acts: &mut Acts) -> Result<(), NoMemory> {
        self.start(acts)
    }

    fn on_pull(&mut self, _alloc: Global, _port: u8, acts: &mut Acts) -> Result<(), NoMemory> {
        self.on_pull(0, acts)
    }

    fn on_push(
        &mut self,
        alloc: Global,
        _port: u8,
        e: Elem,
        acts: &mut Acts,
    ) -> Result<(), NoMemory> {
        self.on_push(alloc, 0, e, acts)
    }

    fn on_finish(&mut self, alloc: Global, _port: u8, acts: &mut Acts) -> Result<(), NoMemory> {
        self.on_finish(alloc, 0, acts)
    }

    fn on_fail(
        &mut self,
        _alloc: Global,
        _port: u8,
        cause: Cause,
        acts: &mut Acts,
    ) -> Result<(), NoMemory> {
        self.on_fail(0, cause, acts)
    }

    fn on_cancel(&mut self, _alloc: Global, _port: u8, acts: &mut Acts) -> Result<(), NoMemory> {
        self.on_cancel(0, acts)
    }

    fn hand_out(&mut self) -> Option<Item> {
        None
    }

    fn let_go(&mut self) {}

    fn is_clear(&self) -> bool {
        true
    }

    fn is_passive(&self) -> bool {
        false
    }

    fn put_off(&mut self) -> bool {
        false
    }
}
