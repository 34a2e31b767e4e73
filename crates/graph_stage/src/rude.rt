// One of the two custom stages that the program ships.
ghost use Rattle.std.specs.Prelude.{◌≡◌};
ghost use Rattle.graph_stage.specs.Shipped.{rude_asks};
ghost use Rattle.graph_stage.specs.Told.{no_list};

use crate::ask::Ask;
use crate::asks::Asks;
use crate::handlers::Handlers;
use crate::sight::Sight;
use elem_core::elem::Elem;
use elem_core::why::{Cause, NoMemory};
use std::alloc::Global;

/// Pulls whenever its output is pulled, and pushes each element twice at once, which the port rules forbid. It passes a failure on, and
/// finishes at its input's end and at a cancel.
#[derive(Drop)]
pub struct Rude {}

impl Handlers for Rude {
    ghost does = { λ old heard asks new. asks ≡ rude_asks heard.call };

    ghost tells = { λ x. no_list };

    fn start(&mut self, _alloc: Global, _sight: &Sight, _asks: &mut Asks) -> Result<(), NoMemory> {
        Ok(())
    }

    fn on_push(
        &mut self,
        alloc: Global,
        _port: u8,
        e: Elem,
        _sight: &Sight,
        asks: &mut Asks,
    ) -> Result<(), NoMemory> {
        let again = e.copy(alloc)?;
        asks.add(Ask::Push(0, e))?;
        asks.add(Ask::Push(0, again))
    }

    fn on_pull(
        &mut self,
        _alloc: Global,
        _port: u8,
        _sight: &Sight,
        asks: &mut Asks,
    ) -> Result<(), NoMemory> {
        asks.add(Ask::Pull(0))
    }

    fn on_finish(
        &mut self,
        _alloc: Global,
        _port: u8,
        _sight: &Sight,
        asks: &mut Asks,
    ) -> Result<(), NoMemory> {
        asks.add(Ask::Finish)
    }

    fn on_fail(
        &mut self,
        _alloc: Global,
        _port: u8,
        _cause: Cause,
        _sight: &Sight,
        asks: &mut Asks,
    ) -> Result<(), NoMemory> {
        asks.add(Ask::Pass)
    }

    fn on_cancel(
        &mut self,
        _alloc: Global,
        _port: u8,
        _sight: &Sight,
        asks: &mut Asks,
    ) -> Result<(), NoMemory> {
        asks.add(Ask::Finish)
    }
}
