// A stage that a caller hands in, as the engine calls it.
ghost use Rattle.std.specs.Prelude.{◌≡◌, ◌≤◌, ◌++◌, ◌∷◌, [], OnOk};
ghost use Rattle.elem_core.specs.declared.item.Item.TheVariants as item;
ghost use Rattle.port_core.specs.Call.{starts, pulls, arrives, cancels};
ghost use Rattle.graph_stage.specs.Room.{most_acts, FewPorts};
ghost use Rattle.graph_stage.specs.Ruled.{IsReadyForCall, Ruled, outcome_at};
ghost use Rattle.graph_stage.specs.Standing.{without_taken_back};

use crate::asks::Asks;
use crate::carrying::{answer, take_back};
use crate::handlers::Handlers;
use crate::occasion::Occasion;
use crate::sight::{InSight, OutSight, Sight};
use elem_core::count::one_more;
use elem_core::elem::Elem;
use elem_core::elem_type::ElemType;
use elem_core::line::Line;
use elem_core::trace::Trace;
use elem_core::why::{Cause, NoMemory};
use port_core::acts::Acts;
use std::alloc::Global;

/// The logic of a stage that a caller hands in. It keeps what the stage sees of its ports, calls its handlers, and appends the actions of
/// what they ask for, in order. The first ask that the port rules forbid fails the stage, and the rest is dropped. A pull whose input the
/// same call closes is taken back. Rule: own; the port rules are those of the Akka Streams 2.6 reference.
#[derive(Drop)]
pub struct CustomLogic<H: Handlers> {
    /// The number of its node.
    pub node: u32,
    /// The name of its head.
    pub name: Line,
    /// The types of its outputs.
    pub types: Vec<ElemType>,
    /// What the caller made.
    pub handlers: H,
    /// Its ports, as the stage sees them.
    pub sight: Sight,
    /// How many elements it took on all its inputs.
    pub taken: u64,
    /// Which, oldest first.
    pub took: Trace<Elem>,
    // Choice: docs/DECISIONS.md#asks-are-kept
    /// What a handler asks for; between two calls it is empty. It is kept so that a call takes no memory where an earlier one asked as much.
    pub asks: Asks,
    /// What each call of its handlers asked for, oldest first.
    pub asked: Trace<Asks>,
    /// The actions of each call, oldest first.
    pub done: Trace<Acts>,
}

impl<H: Handlers> CustomLogic<H> {
    // Notes and carries out what its handler asked for, at the element of this number or with this failure.
    fn settle(&mut self, nth: u64, failure: Option<Cause>, acts: &mut Acts)
        requires few { FewPorts self.old.sight }
        requires empty { acts.old.items ≡ [] }
        requires room { most_acts self.old.sight ≤ acts.old.room }
        ensures acts { acts.new ≡ record acts.old { items = without_taken_back self.new.sight (outcome_at self.old nth failure).acts } }
        ensures sight { self.new.sight ≡ (outcome_at self.old nth failure).sight }
        ensures node { self.new.node ≡ self.old.node }
        ensures types { self.new.types ≡ self.old.types }
        ensures handlers { self.new.handlers ≡ self.old.handlers }
        ensures taken { self.new.taken ≡ self.old.taken }
        ensures took { self.new.took ≡ self.old.took }
        ensures name { self.new.name ≡ self.old.name }
        ensures asks { self.new.asks ≡ [] }
        ensures asked { self.new.asked.items ≡ self.old.asked.items ++ self.old.asks ∷ [] }
        ensures done { self.new.done.items ≡ self.old.done.items ++ acts.new ∷ [] }
    {
        self.asked = self.asked.and(&self.asks);
        let occasion = Occasion {
            node: self.node,
            taken: self.taken,
            nth,
            failure,
        };
        answer(
            &self.types,
            &occasion,
            &mut self.sight,
            &mut self.asks,
            acts,
        );
        take_back(&self.sight, acts);
        self.done = self.done.and(acts);
    }

    /// The run begins.
    pub fn start(&mut self, alloc: Global, acts: &mut Acts) -> Result<(), NoMemory>
        requires ready { IsReadyForCall self.old }
        requires empty { acts.old.items ≡ [] }
        requires room { most_acts self.old.sight ≤ acts.old.room }
        ensures ruled { OnOk result (Ruled H.does H.tells starts self.old self.new acts.new.items) }
        ensures room { OnOk result (acts.new.room ≡ acts.old.room) }
    {
        self.handlers.start(alloc, &self.sight, &mut self.asks)?;
        self.settle(0, None, acts);
        Ok(())
    }

    /// Output `port` was pulled.
    #[tactic(auto, using(crate::proofs::Rooms::few_output, crate::proofs::Rooms::room_output))]
    pub fn on_pull(&mut self, alloc: Global, port: u8, acts: &mut Acts) -> Result<(), NoMemory>
        requires ready { IsReadyForCall self.old }
        requires empty { acts.old.items ≡ [] }
        requires room { most_acts self.old.sight ≤ acts.old.room }
        ensures ruled { OnOk result (Ruled H.does H.tells (pulls port) self.old self.new acts.new.items) }
        ensures room { OnOk result (acts.new.room ≡ acts.old.room) }
    {
        self.sight.set_output(
            port,
            OutSight {
                asked: true,
                ..self.sight.output(port)
            },
        );
        self.handlers
            .on_pull(alloc, port, &self.sight, &mut self.asks)?;
        self.settle(0, None, acts);
        Ok(())
    }

    /// An element came to input `port`.
    #[tactic(auto, using(crate::proofs::Rooms::few_input, crate::proofs::Rooms::room_input))]
    pub fn on_push(
        &mut self,
        alloc: Global,
        port: u8,
        e: Elem,
        acts: &mut Acts,
    ) -> Result<(), NoMemory>
        requires ready { IsReadyForCall self.old }
        requires empty { acts.old.items ≡ [] }
        requires room { most_acts self.old.sight ≤ acts.old.room }
        ensures ruled { OnOk result (Ruled H.does H.tells (arrives port (item.Elem e)) self.old self.new acts.new.items) }
        ensures room { OnOk result (acts.new.room ≡ acts.old.room) }
    {
        self.taken = one_more(self.taken)?;
        self.took = self.took.and(&e);
        self.sight.set_input(
            port,
            InSight {
                asked: false,
                ..self.sight.input(port)
            },
        );
        self.handlers
            .on_push(alloc, port, e, &self.sight, &mut self.asks)?;
        self.settle(self.taken, None, acts);
        Ok(())
    }

    /// Input `port` has ended.
    #[tactic(auto, using(crate::proofs::Rooms::few_input, crate::proofs::Rooms::room_input))]
    pub fn on_finish(&mut self, alloc: Global, port: u8, acts: &mut Acts) -> Result<(), NoMemory>
        requires ready { IsReadyForCall self.old }
        requires empty { acts.old.items ≡ [] }
        requires room { most_acts self.old.sight ≤ acts.old.room }
        ensures ruled { OnOk result (Ruled H.does H.tells (arrives port item.Ended) self.old self.new acts.new.items) }
        ensures room { OnOk result (acts.new.room ≡ acts.old.room) }
    {
        self.sight.set_input(
            port,
            InSight {
                closed: true,
                ..self.sight.input(port)
            },
        );
        self.handlers
            .on_finish(alloc, port, &self.sight, &mut self.asks)?;
        self.settle(0, None, acts);
        Ok(())
    }

    /// Input `port` has failed.
    #[tactic(auto, using(crate::proofs::Rooms::few_input, crate::proofs::Rooms::room_input))]
    pub fn on_fail(
        &mut self,
        alloc: Global,
        port: u8,
        cause: Cause,
        acts: &mut Acts,
    ) -> Result<(), NoMemory>
        requires ready { IsReadyForCall self.old }
        requires empty { acts.old.items ≡ [] }
        requires room { most_acts self.old.sight ≤ acts.old.room }
        ensures ruled { OnOk result (Ruled H.does H.tells (arrives port (item.Failed cause)) self.old self.new acts.new.items) }
        ensures room { OnOk result (acts.new.room ≡ acts.old.room) }
    {
        self.sight.set_input(
            port,
            InSight {
                closed: true,
                ..self.sight.input(port)
            },
        );
        self.handlers
            .on_fail(alloc, port, cause, &self.sight, &mut self.asks)?;
        self.settle(0, Some(cause), acts);
        Ok(())
    }

    /// Output `port` was cancelled.
    #[tactic(auto, using(crate::proofs::Rooms::few_output, crate::proofs::Rooms::room_output))]
    pub fn on_cancel(&mut self, alloc: Global, port: u8, acts: &mut Acts) -> Result<(), NoMemory>
        requires ready { IsReadyForCall self.old }
        requires empty { acts.old.items ≡ [] }
        requires room { most_acts self.old.sight ≤ acts.old.room }
        ensures ruled { OnOk result (Ruled H.does H.tells (cancels port) self.old self.new acts.new.items) }
        ensures room { OnOk result (acts.new.room ≡ acts.old.room) }
    {
        self.sight.set_output(
            port,
            OutSight {
                closed: true,
                ..self.sight.output(port)
            },
        );
        self.handlers
            .on_cancel(alloc, port, &self.sight, &mut self.asks)?;
        self.settle(0, None, acts);
        Ok(())
    }
}
