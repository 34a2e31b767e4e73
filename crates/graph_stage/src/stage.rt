// A custom stage as a stage of an island.
ghost use Rattle.std.specs.Prelude.{◌≡◌, ◌≤◌, ◌<◌, ◌+◌, false, [], ⊤, length, OnOk, IfOk};
ghost use Rattle.elem_core.specs.declared.item.Item.TheVariants as item;
ghost use Rattle.port_core.specs.Call.{starts, pulls, arrives, cancels};
ghost use Rattle.graph_stage.specs.Laws.{CustomFresh, CustomPortState, CustomLaw};
ghost use Rattle.graph_stage.specs.Making.{unpulled_view};
ghost use Rattle.graph_stage.specs.Room.{most_acts};
ghost use Rattle.graph_stage.specs.State.{IsCallable, RuledAs};
ghost use Rattle.graph_stage.specs.Told.{HandedAs};

use crate::custom::Custom;
use crate::handlers::Handlers;
use crate::logic::CustomLogic;
use elem_core::elem::Elem;
use elem_core::item::Item;
use elem_core::why::{Cause, NoMemory};
use plug_logic::book::PlugBook;
use port_core::acts::Acts;
use stage_core::stage::Stage;
use std::alloc::Global;
use std::marker::{Model, PhantomData};

// Choice: docs/DECISIONS.md#handlers-are-hidden
/// A stage that a caller hands in, as islands hold it. Contracts see all of it but its handlers, and what each call of these asked for:
/// nothing but a call of the logic notes more, so none can be left out, doubled or changed, and nothing above names what handlers do. Behind
/// `NoMemory` it is only dropped.
#[derive(Drop)]
pub struct CustomStage<H: Handlers, B: PlugBook> {
    logic: CustomLogic<H>,
    // No call of it wanted memory in vain.
    running: bool,
    of: PhantomData<B>,
}

impl<H: Handlers, B: PlugBook> Model for CustomStage<H, B> {
    ghost use Rattle.std.specs.Prelude.{◌≡◌, true};
    ghost use Rattle.std.specs.Coded.{codes};
    ghost use Rattle.elem_core.specs.Sort.{sort_coded};
    ghost use Rattle.elem_core.specs.TreeCode.{tree_coded};
    ghost use Rattle.graph_stage.specs.State.{CustomState, shown};
    ghost use Rattle.graph_stage.specs.Told.{telling_by, TellsAs};

    ghost Value = { CustomState };

    ghost coded = { Prim.hlevel (codes, sort_coded, tree_coded) };

    ghost view = { λ s. shown s.logic (telling_by (B.lists.tells s.logic.name) (H.tells s.logic.handlers)) s.running };

    ghost invariant = { λ s. s.running ≡ true
        → TellsAs (B.lists.tells s.logic.name) B.lists s.logic.name s.logic.types.items s.logic.took.items (H.tells s.logic.handlers) };
}

impl<H: Handlers, B: PlugBook> CustomStage<H, B> {
    /// The stage of node `stage`, which is this custom stage and was not started. It has at most eight inputs and at most eight outputs, and
    /// at least one port.
    #[tactic(auto, using(crate::proofs::Shown::fresh_ok))]
    pub fn new(alloc: Global, stage: u32, custom: Custom<H>) -> Result<CustomStage<H, B>, NoMemory>
        requires inputs { length custom.head.inputs.items ≤ 8 }
        requires outputs { length custom.head.outputs.items ≤ 8 }
        requires ports { 0 < length custom.head.inputs.items + length custom.head.outputs.items }
        requires told { HandedAs (B.lists.tells custom.head.name) B.lists custom.head.name custom.head.inputs.items custom.head.outputs.items
            (H.tells custom.stage) }
        ensures fresh { IfOk result (λ x. CustomFresh x (unpulled_view (length custom.head.inputs.items) (length custom.head.outputs.items))) }
        ensures node { IfOk result (λ x. x.node ≡ stage) }
        ensures name { IfOk result (λ x. x.name ≡ custom.head.name) }
        ensures types { IfOk result (λ x. x.types ≡ custom.head.outputs.items) }
    {
        Ok(CustomStage {
            logic: CustomLogic::new(alloc, stage, custom)?,
            running: true,
            of: PhantomData,
        })
    }

    /// The run begins.
    #[tactic(auto, using(crate::proofs::Shown::ready_logic, crate::proofs::Shown::ruled_ok))]
    pub fn start(&mut self, alloc: Global, acts: &mut Acts) -> Result<(), NoMemory>
        requires ready { IsCallable self.old }
        requires empty { acts.old.items ≡ [] }
        requires room { most_acts self.old.sight ≤ acts.old.room }
        ensures ruled { OnOk result (RuledAs B.lists starts self.old self.new acts.new.items) }
        ensures room { OnOk result (acts.new.room ≡ acts.old.room) }
    {
        self.running = false;
        self.logic.start(alloc, acts)?;
        self.running = true;
        Ok(())
    }

    /// Output `port` was pulled.
    #[tactic(auto, using(crate::proofs::Shown::ready_logic, crate::proofs::Shown::ruled_ok))]
    pub fn on_pull(&mut self, alloc: Global, port: u8, acts: &mut Acts) -> Result<(), NoMemory>
        requires ready { IsCallable self.old }
        requires empty { acts.old.items ≡ [] }
        requires room { most_acts self.old.sight ≤ acts.old.room }
        ensures ruled { OnOk result (RuledAs B.lists (pulls port) self.old self.new acts.new.items) }
        ensures room { OnOk result (acts.new.room ≡ acts.old.room) }
    {
        self.running = false;
        self.logic.on_pull(alloc, port, acts)?;
        self.running = true;
        Ok(())
    }

    /// An element came to input `port`.
    #[tactic(auto, using(crate::proofs::Shown::ready_logic, crate::proofs::Shown::ruled_ok))]
    pub fn on_push(
        &mut self,
        alloc: Global,
        port: u8,
        e: Elem,
        acts: &mut Acts,
    ) -> Result<(), NoMemory>
        requires ready { IsCallable self.old }
        requires empty { acts.old.items ≡ [] }
        requires room { most_acts self.old.sight ≤ acts.old.room }
        ensures ruled { OnOk result (RuledAs B.lists (arrives port (item.Elem e)) self.old self.new acts.new.items) }
        ensures room { OnOk result (acts.new.room ≡ acts.old.room) }
    {
        self.running = false;
        self.logic.on_push(alloc, port, e, acts)?;
        self.running = true;
        Ok(())
    }

    /// Input `port` has ended.
    #[tactic(auto, using(crate::proofs::Shown::ready_logic, crate::proofs::Shown::ruled_ok))]
    pub fn on_finish(&mut self, alloc: Global, port: u8, acts: &mut Acts) -> Result<(), NoMemory>
        requires ready { IsCallable self.old }
        requires empty { acts.old.items ≡ [] }
        requires room { most_acts self.old.sight ≤ acts.old.room }
        ensures ruled { OnOk result (RuledAs B.lists (arrives port item.Ended) self.old self.new acts.new.items) }
        ensures room { OnOk result (acts.new.room ≡ acts.old.room) }
    {
        self.running = false;
        self.logic.on_finish(alloc, port, acts)?;
        self.running = true;
        Ok(())
    }

    /// Input `port` has failed.
    #[tactic(auto, using(crate::proofs::Shown::ready_logic, crate::proofs::Shown::ruled_ok))]
    pub fn on_fail(
        &mut self,
        alloc: Global,
        port: u8,
        cause: Cause,
        acts: &mut Acts,
    ) -> Result<(), NoMemory>
        requires ready { IsCallable self.old }
        requires empty { acts.old.items ≡ [] }
        requires room { most_acts self.old.sight ≤ acts.old.room }
        ensures ruled { OnOk result (RuledAs B.lists (arrives port (item.Failed cause)) self.old self.new acts.new.items) }
        ensures room { OnOk result (acts.new.room ≡ acts.old.room) }
    {
        self.running = false;
        self.logic.on_fail(alloc, port, cause, acts)?;
        self.running = true;
        Ok(())
    }

    /// Output `port` was cancelled.
    #[tactic(auto, using(crate::proofs::Shown::ready_logic, crate::proofs::Shown::ruled_ok))]
    pub fn on_cancel(&mut self, alloc: Global, port: u8, acts: &mut Acts) -> Result<(), NoMemory>
        requires ready { IsCallable self.old }
        requires empty { acts.old.items ≡ [] }
        requires room { most_acts self.old.sight ≤ acts.old.room }
        ensures ruled { OnOk result (RuledAs B.lists (cancels port) self.old self.new acts.new.items) }
        ensures room { OnOk result (acts.new.room ≡ acts.old.room) }
    {
        self.running = false;
        self.logic.on_cancel(alloc, port, acts)?;
        self.running = true;
        Ok(())
    }
}

impl<H: Handlers, B: PlugBook> Stage for CustomStage<H, B> {
    ghost fresh = { CustomFresh };

    ghost port_state = { CustomPortState };

    ghost law = { CustomLaw B.lists };

    ghost asking = { λ x v. ⊤ };

    ghost moves = { λ x. [] };

    ghost keeps = { λ old new. ⊤ };

    ghost passive = { λ x. false };

    ghost gone = { λ x. [] };

    ghost waits = { λ x. [] };

    ghost late = { λ x. 0 };

    #[tactic(auto, using(crate::proofs::Handles::starts_ok))]
    fn start(&mut self, alloc: Global, acts: &mut Acts) -> Result<(), NoMemory> {
        self.start(alloc, acts)
    }

    #[tactic(auto, using(crate::proofs::Handles::handles_ok))]
    fn on_pull(&mut self, alloc: Global, port: u8, acts: &mut Acts) -> Result<(), NoMemory> {
        self.on_pull(alloc, port, acts)
    }

    #[tactic(auto, using(crate::proofs::Handles::handles_ok))]
    fn on_push(
        &mut self,
        alloc: Global,
        port: u8,
        e: Elem,
        acts: &mut Acts,
    ) -> Result<(), NoMemory> {
        self.on_push(alloc, port, e, acts)
    }

    #[tactic(auto, using(crate::proofs::Handles::handles_ok))]
    fn on_finish(&mut self, alloc: Global, port: u8, acts: &mut Acts) -> Result<(), NoMemory> {
        self.on_finish(alloc, port, acts)
    }

    #[tactic(auto, using(crate::proofs::Handles::handles_ok))]
    fn on_fail(
        &mut self,
        alloc: Global,
        port: u8,
        cause: Cause,
        acts: &mut Acts,
    ) -> Result<(), NoMemory> {
        self.on_fail(alloc, port, cause, acts)
    }

    #[tactic(auto, using(crate::proofs::Handles::handles_ok))]
    fn on_cancel(&mut self, alloc: Global, port: u8, acts: &mut Acts) -> Result<(), NoMemory> {
        self.on_cancel(alloc, port, acts)
    }

    fn hand_out(&mut self) -> Option<Item> {
        None
    }

    fn let_go(&mut self) {}

    fn is_clear(&self) -> bool {
        true
    }

    fn is_passive(&self) -> bool {
        false
    }

    fn put_off(&mut self) -> bool {
        false
    }
}
