// One of the two custom stages that the program ships.
ghost use Rattle.std.specs.Prelude.{◌≡◌, ◌++◌, false, OnOk};
ghost use Rattle.graph_stage.specs.Shipped.{alternate_asks, output_in_turn, pull_for, turn_after};
ghost use Rattle.graph_stage.specs.Told.{no_list};

use crate::ask::Ask;
use crate::asks::Asks;
use crate::handlers::Handlers;
use crate::sight::Sight;
use elem_core::elem::Elem;
use elem_core::why::{Cause, NoMemory};
use std::alloc::Global;

/// Gives its elements to two outputs in turn. It pulls when the output whose turn it is is asked, passes a failure on, and finishes at
/// its input's end and at any cancel.
#[derive(Drop)]
pub struct Alternate {
    second: bool,
}

impl Alternate {
    /// It begins with the first output. It takes no memory.
    pub fn new() -> Alternate
        ensures { result.second ≡ false }
    {
        Alternate { second: false }
    }

    // The output whose turn it is.
    fn turn(&self) -> u8
        ensures { result ≡ output_in_turn self.now.second }
    {
        if self.second { 1 } else { 0 }
    }

    // Pulls where that output is asked and the input is open and not pulled yet.
    fn pull(&self, sight: &Sight, asks: &mut Asks) -> Result<(), NoMemory>
        ensures { OnOk result (asks.new ≡ asks.old ++ pull_for (output_in_turn self.now.second) sight.now) }
    {
        let input = sight.input(0);
        if sight.output(self.turn()).asked && !input.asked && !input.closed {
            asks.add(Ask::Pull(0))?;
        }
        Ok(())
    }
}

impl Handlers for Alternate {
    ghost does = { λ old heard asks new. (asks ≡ alternate_asks old.second heard.sight heard.call)
        × (new.second ≡ turn_after old.second heard.call) };

    ghost tells = { λ x. no_list };

    fn start(&mut self, _alloc: Global, _sight: &Sight, _asks: &mut Asks) -> Result<(), NoMemory> {
        Ok(())
    }

    fn on_push(
        &mut self,
        _alloc: Global,
        _port: u8,
        e: Elem,
        sight: &Sight,
        asks: &mut Asks,
    ) -> Result<(), NoMemory> {
        asks.add(Ask::Push(self.turn(), e))?;
        self.second = !self.second;
        self.pull(sight, asks)
    }

    fn on_pull(
        &mut self,
        _alloc: Global,
        _port: u8,
        sight: &Sight,
        asks: &mut Asks,
    ) -> Result<(), NoMemory> {
        self.pull(sight, asks)
    }

    fn on_finish(
        &mut self,
        _alloc: Global,
        _port: u8,
        _sight: &Sight,
        asks: &mut Asks,
    ) -> Result<(), NoMemory> {
        asks.add(Ask::Finish)
    }

    fn on_fail(
        &mut self,
        _alloc: Global,
        _port: u8,
        _cause: Cause,
        _sight: &Sight,
        asks: &mut Asks,
    ) -> Result<(), NoMemory> {
        asks.add(Ask::Pass)
    }

    fn on_cancel(
        &mut self,
        _alloc: Global,
        _port: u8,
        _sight: &Sight,
        asks: &mut Asks,
    ) -> Result<(), NoMemory> {
        asks.add(Ask::Finish)
    }
}
