// The handlers of a stage that a caller makes.
ghost use Rattle.std.specs.Prelude.{◌≡◌, [], List, OnOk};
ghost use Rattle.elem_core.specs.declared.item.Item.TheVariants as item;
ghost use Rattle.port_core.specs.Call.{starts, pulls, arrives, cancels};
ghost use Rattle.graph_stage.specs.declared.ask.Ask.{Ask};
ghost use Rattle.graph_stage.specs.OwnView.{Called};
ghost use Rattle.graph_stage.specs.Told.{ToldList, TellsOn};

use crate::asks::Asks;
use crate::sight::Sight;
use elem_core::elem::Elem;
use elem_core::why::{Cause, NoMemory};
use std::alloc::Global;

// Choice: docs/DECISIONS.md#meaning-is-a-relation
/// What a stage that the caller makes does at its ports. Each call appends its asks to `asks`, which is empty; they are carried out
/// in order once the call is over. Its meaning, `does`, says what a call may make of the stage and what it may ask for then; one of
/// which nothing is to be proved says that anything may be. What it `tells` is a list that it gives of what comes, as that of a plug, and
/// then it asks for just that; or that there is none. It stands for a custom stage (`GraphStage`) of Akka Streams 2.6.
pub trait Handlers: Drop {
    ghost does: { Self → Called → List Ask → Self → Type 0 };

    ghost tells: { Self → ToldList };

    /// The run begins.
    fn start(&mut self, alloc: Global, sight: &Sight, asks: &mut Asks) -> Result<(), NoMemory>
        requires empty { asks.old ≡ [] }
        ensures meaning { OnOk result (does self.old (record { call = starts; sight = sight.now }) asks.new self.new) }
        ensures told { OnOk result (TellsOn starts (tells self.old) asks.new (tells self.new)) };

    /// An element came to input `port`.
    fn on_push(
        &mut self,
        alloc: Global,
        port: u8,
        e: Elem,
        sight: &Sight,
        asks: &mut Asks,
    ) -> Result<(), NoMemory>
        requires empty { asks.old ≡ [] }
        ensures meaning { OnOk result (does self.old (record { call = arrives port (item.Elem e); sight = sight.now }) asks.new self.new) }
        ensures told { OnOk result (TellsOn (arrives port (item.Elem e)) (tells self.old) asks.new (tells self.new)) };

    /// Output `port` was pulled.
    fn on_pull(
        &mut self,
        alloc: Global,
        port: u8,
        sight: &Sight,
        asks: &mut Asks,
    ) -> Result<(), NoMemory>
        requires empty { asks.old ≡ [] }
        ensures meaning { OnOk result (does self.old (record { call = pulls port; sight = sight.now }) asks.new self.new) }
        ensures told { OnOk result (TellsOn (pulls port) (tells self.old) asks.new (tells self.new)) };

    /// Input `port` has ended.
    fn on_finish(
        &mut self,
        alloc: Global,
        port: u8,
        sight: &Sight,
        asks: &mut Asks,
    ) -> Result<(), NoMemory>
        requires empty { asks.old ≡ [] }
        ensures meaning { OnOk result (does self.old (record { call = arrives port item.Ended; sight = sight.now }) asks.new self.new) }
        ensures told { OnOk result (TellsOn (arrives port item.Ended) (tells self.old) asks.new (tells self.new)) };

    /// Input `port` has failed.
    fn on_fail(
        &mut self,
        alloc: Global,
        port: u8,
        cause: Cause,
        sight: &Sight,
        asks: &mut Asks,
    ) -> Result<(), NoMemory>
        requires empty { asks.old ≡ [] }
        ensures meaning { OnOk result (does self.old (record { call = arrives port (item.Failed cause); sight = sight.now }) asks.new self.new) }
        ensures told { OnOk result (TellsOn (arrives port (item.Failed cause)) (tells self.old) asks.new (tells self.new)) };

    /// Output `port` was cancelled.
    fn on_cancel(
        &mut self,
        alloc: Global,
        port: u8,
        sight: &Sight,
        asks: &mut Asks,
    ) -> Result<(), NoMemory>
        requires empty { asks.old ≡ [] }
        ensures meaning { OnOk result (does self.old (record { call = cancels port; sight = sight.now }) asks.new self.new) }
        ensures told { OnOk result (TellsOn (cancels port) (tells self.old) asks.new (tells self.new)) };
}

// Boxed handlers are handlers: each call goes to the value inside, which stays of its type.
impl Handlers for Box<dyn Handlers + Send> {
    ghost does = { λ b h a c. (v : _) × ((c ≡ record b { value = v }) × ((Handlers-box b).does b.value h a v)) };

    ghost tells = { λ b. (Handlers-box b).tells b.value };

    fn start(&mut self, alloc: Global, sight: &Sight, asks: &mut Asks) -> Result<(), NoMemory> {
        (**self).start(alloc, sight, asks)
    }

    fn on_push(
        &mut self,
        alloc: Global,
        port: u8,
        e: Elem,
        sight: &Sight,
        asks: &mut Asks,
    ) -> Result<(), NoMemory> {
        (**self).on_push(alloc, port, e, sight, asks)
    }

    fn on_pull(
        &mut self,
        alloc: Global,
        port: u8,
        sight: &Sight,
        asks: &mut Asks,
    ) -> Result<(), NoMemory> {
        (**self).on_pull(alloc, port, sight, asks)
    }

    fn on_finish(
        &mut self,
        alloc: Global,
        port: u8,
        sight: &Sight,
        asks: &mut Asks,
    ) -> Result<(), NoMemory> {
        (**self).on_finish(alloc, port, sight, asks)
    }

    fn on_fail(
        &mut self,
        alloc: Global,
        port: u8,
        cause: Cause,
        sight: &Sight,
        asks: &mut Asks,
    ) -> Result<(), NoMemory> {
        (**self).on_fail(alloc, port, cause, sight, asks)
    }

    fn on_cancel(
        &mut self,
        alloc: Global,
        port: u8,
        sight: &Sight,
        asks: &mut Asks,
    ) -> Result<(), NoMemory> {
        (**self).on_cancel(alloc, port, sight, asks)
    }
}
