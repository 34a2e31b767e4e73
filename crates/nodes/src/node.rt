// A node of an island, whatever its kind is.
ghost use Rattle.std.specs.Prelude.{◌≡◌, ◌≤◌, [], false, OnOk, OnErr};
ghost use Rattle.std.specs.Option.{option_map};
ghost use Rattle.elem_core.specs.Prefix.{IsPrefix};
ghost use Rattle.elem_core.specs.declared.item.Item.TheVariants as item;
ghost use Rattle.port_core.specs.Call.{Meets, pulls, arrives};
ghost use Rattle.port_core.specs.Picks.{misfit_in};
ghost use Rattle.stage_core.specs.declared.stage.TheConstants.{LEAST_ACTS};
ghost use Rattle.stage_core.specs.Rooms.{HasRoom};
ghost use Rattle.stage_core.specs.Handling.{PullsAs, StaysPassive, Handles};
ghost use Rattle.nodes.specs.Nodes.{IsNotLinear, node_fresh, node_port_state, node_law, node_asking, node_moves, node_picks, node_misfit, node_seat, node_end, node_passive, node_gone, node_waits, node_late, KeepsNode};

use crate::entering::Entering;
use crate::ignoring::IgnoreSink;
use crate::leaving::Leaving;
use crate::maker::ValueSource;
use crate::sink::{ClosedSink, FileSink};
use crate::source::LinesSource;
use elem_core::elem::Elem;
use elem_core::item::Item;
use elem_core::why::{Cause, NoMemory};
use graph_stage::handlers::Handlers;
use graph_stage::stage::CustomStage;
use line_chain::line::LineChain;
use plug_logic::book::PlugBook;
use plug_logic::logic::Logic;
use port_core::acts::Acts;
use port_core::pick_log::PickLog;
use stage_core::stage::{Stage, Swift};
use stage_in::logic::InLogic;
use stage_linear::logic::LinearLogic;
use stage_out::logic::OutLogic;
use stage_state::logic::StateLogic;
use stage_sub::logic::SubLogic;
use stage_switch::seat::SwitchSeat;
use std::alloc::Global;
use stream_io::outside::{Drain, Source};

// Choice: docs/DECISIONS.md#stages-implement-the-trait
/// A node of an island.
pub enum IslandNode<S: Source, D: Drain, L: Logic, H: Handlers, B: PlugBook> {
    /// A source of the lines of a file.
    Reading(LinesSource<S>),
    /// A source without a file.
    Making(ValueSource),
    /// A linear stage.
    Linear(LinearLogic<L, B>),
    /// A stage with state.
    State(StateLogic),
    /// A stage with substreams.
    Sub(SubLogic<LineChain>),
    /// A stage with several inputs.
    FanIn(InLogic),
    /// A stage with several outputs.
    FanOut(OutLogic),
    /// A stage that the caller hands in and that calls its ports itself.
    Custom(CustomStage<H, B>),
    /// A sink that writes elements into a file.
    Writing(FileSink<D>),
    /// A sink that keeps nothing.
    Ignoring(IgnoreSink),
    /// The stage at which what a lane brings enters the island.
    Entering(Entering),
    /// The stage at which what leaves the island for a lane waits.
    Leaving(Leaving),
}

// Dropped by a call, wherever it is dropped: else each of its variants is a path of each function that drops it.
impl<S: Source, D: Drain, L: Logic, H: Handlers, B: PlugBook> Drop for IslandNode<S, D, L, H, B> {
    fn drop(self) {
        match self {
            IslandNode::Reading(_) => {}
            IslandNode::Making(_) => {}
            IslandNode::Linear(_) => {}
            IslandNode::State(_) => {}
            IslandNode::Sub(_) => {}
            IslandNode::FanIn(_) => {}
            IslandNode::FanOut(_) => {}
            IslandNode::Custom(_) => {}
            IslandNode::Writing(_) => {}
            IslandNode::Ignoring(_) => {}
            IslandNode::Entering(_) | IslandNode::Leaving(_) => {}
        }
    }
}

/// What a node leaves at the end of a run.
#[derive(Drop)]
pub enum NodeEnd<S: Source, D: Drain> {
    /// The source of bytes of a source of lines.
    Read(S),
    /// A stage, a source without a file, or the end of a lane leaves nothing.
    Staged,
    /// What a sink leaves.
    Wrote(ClosedSink<D>),
}

impl<S: Source, D: Drain, L: Logic, H: Handlers, B: PlugBook> IslandNode<S, D, L, H, B> {
    /// What it leaves, the log of its moves where it is a stage whose kind chooses, and its seat where it is a valve or a trip. It
    /// takes no memory.
    pub fn close(self) -> (NodeEnd<S, D>, Option<PickLog>, Option<SwitchSeat>)
        ensures end { result.0 ≡ node_end self }
        ensures picks { option_map (λ log. log.moves) result.1 ≡ node_picks self }
        ensures misfit { misfit_in result.1 ≡ node_misfit self }
        ensures seat { result.2 ≡ node_seat self }
    {
        match self {
            IslandNode::Reading(source) => (NodeEnd::Read(source.into_source()), None, None),
            IslandNode::Making(_)
            | IslandNode::Linear(_)
            | IslandNode::Custom(_)
            | IslandNode::Entering(_)
            | IslandNode::Leaving(_) => { (NodeEnd::Staged, None, None) }
            IslandNode::State(logic) => {
                let (log, seat) = logic.leave();
                (NodeEnd::Staged, log, seat)
            }
            IslandNode::Sub(logic) => (NodeEnd::Staged, logic.picks(), None),
            IslandNode::FanIn(logic) => (NodeEnd::Staged, logic.picks(), None),
            IslandNode::FanOut(logic) => (NodeEnd::Staged, logic.picks(), None),
            IslandNode::Writing(sink) => (NodeEnd::Wrote(sink.close()), None, None),
            IslandNode::Ignoring(sink) => (NodeEnd::Wrote(sink.close()), None, None),
        }
    }

    // The handler of every other kind, out of line, so that a linear stage's keeps a small frame.
    #[inline(never)]
    fn pull_rest(&mut self, alloc: Global, port: u8, acts: &mut Acts) -> Result<(), NoMemory>
        requires rest { IsNotLinear self.old }
        requires meets { Meets (pulls port) (node_port_state self.old) }
        requires empty { acts.old.items ≡ [] }
        requires room { LEAST_ACTS ≤ acts.old.room }
        requires ports { HasRoom (pulls port) (node_port_state self.old) acts.old.room }
        ensures handles { OnOk result (Handles node_port_state (node_law S.state D.state B.lists) (pulls port) self.old self.new acts.new.items) }
        ensures pulls { OnOk result (PullsAs (pulls port) (node_port_state self.old) (node_asking self.new) acts.new.items) }
        ensures grows { OnOk result (IsPrefix (node_moves self.old) (node_moves self.new)) }
        ensures passive { OnOk result (StaysPassive (node_passive self.old) (node_passive self.new) acts.new.items) }
        ensures gone { OnOk result (node_gone self.new ≡ node_gone self.old) }
        ensures room { OnOk result (acts.new.room ≡ acts.old.room) }
        ensures kept { OnErr result (KeepsNode S.state D.state self.old self.new) }
    {
        match self {
            IslandNode::Reading(source) => source.on_pull(acts),
            IslandNode::Making(source) => source.on_pull(acts),
            IslandNode::State(logic) => Stage::on_pull(logic, alloc, port, acts),
            IslandNode::Sub(logic) => Stage::on_pull(logic, alloc, port, acts),
            IslandNode::FanIn(logic) => Stage::on_pull(logic, alloc, port, acts),
            IslandNode::FanOut(logic) => Stage::on_pull(logic, alloc, port, acts),
            IslandNode::Custom(stage) => Stage::on_pull(stage, alloc, port, acts),
            IslandNode::Entering(stage) => Stage::on_pull(stage, alloc, port, acts),
            IslandNode::Leaving(stage) => Stage::on_pull(stage, alloc, port, acts),
            IslandNode::Linear(_) | IslandNode::Writing(_) | IslandNode::Ignoring(_) => {
                unreachable!()
            }
        }
    }

    // The handler of every other kind, in place, so that the element gets its place on the way to them alone.
    #[inline(always)]
    fn push_else(
        &mut self,
        alloc: Global,
        port: u8,
        e: Elem,
        acts: &mut Acts,
    ) -> Result<(), NoMemory>
        requires rest { IsNotLinear self.old }
        requires meets { Meets (arrives port (item.Elem e)) (node_port_state self.old) }
        requires empty { acts.old.items ≡ [] }
        requires room { LEAST_ACTS ≤ acts.old.room }
        requires ports { HasRoom (arrives port (item.Elem e)) (node_port_state self.old) acts.old.room }
        ensures handles { OnOk result (Handles node_port_state (node_law S.state D.state B.lists)
            (arrives port (item.Elem e)) self.old self.new acts.new.items) }
        ensures pulls { OnOk result (PullsAs (arrives port (item.Elem e)) (node_port_state self.old) (node_asking self.new) acts.new.items) }
        ensures grows { OnOk result (IsPrefix (node_moves self.old) (node_moves self.new)) }
        ensures passive { OnOk result (StaysPassive (node_passive self.old) (node_passive self.new) acts.new.items) }
        ensures gone { OnOk result (node_gone self.new ≡ node_gone self.old) }
        ensures room { OnOk result (acts.new.room ≡ acts.old.room) }
        ensures kept { OnErr result (KeepsNode S.state D.state self.old self.new) }
    {
        self.push_rest(alloc, port, e, acts)
    }

    // The same, out of line, so that a linear stage's keeps a small frame.
    #[inline(never)]
    fn push_rest(
        &mut self,
        alloc: Global,
        port: u8,
        e: Elem,
        acts: &mut Acts,
    ) -> Result<(), NoMemory>
        requires rest { IsNotLinear self.old }
        requires meets { Meets (arrives port (item.Elem e)) (node_port_state self.old) }
        requires empty { acts.old.items ≡ [] }
        requires room { LEAST_ACTS ≤ acts.old.room }
        requires ports { HasRoom (arrives port (item.Elem e)) (node_port_state self.old) acts.old.room }
        ensures handles { OnOk result (Handles node_port_state (node_law S.state D.state B.lists)
            (arrives port (item.Elem e)) self.old self.new acts.new.items) }
        ensures pulls { OnOk result (PullsAs (arrives port (item.Elem e)) (node_port_state self.old) (node_asking self.new) acts.new.items) }
        ensures grows { OnOk result (IsPrefix (node_moves self.old) (node_moves self.new)) }
        ensures passive { OnOk result (StaysPassive (node_passive self.old) (node_passive self.new) acts.new.items) }
        ensures gone { OnOk result (node_gone self.new ≡ node_gone self.old) }
        ensures room { OnOk result (acts.new.room ≡ acts.old.room) }
        ensures kept { OnErr result (KeepsNode S.state D.state self.old self.new) }
    {
        match self {
            IslandNode::Reading(_) | IslandNode::Making(_) | IslandNode::Linear(_) =>
                unreachable!(),
            IslandNode::State(logic) => Stage::on_push(logic, alloc, port, e, acts),
            IslandNode::Sub(logic) => Stage::on_push(logic, alloc, port, e, acts),
            IslandNode::FanIn(logic) => Stage::on_push(logic, alloc, port, e, acts),
            IslandNode::FanOut(logic) => Stage::on_push(logic, alloc, port, e, acts),
            IslandNode::Custom(stage) => Stage::on_push(stage, alloc, port, e, acts),
            IslandNode::Writing(sink) => sink.on_push(e, acts),
            IslandNode::Ignoring(sink) => sink.on_push(e, acts),
            IslandNode::Entering(stage) => Stage::on_push(stage, alloc, port, e, acts),
            IslandNode::Leaving(stage) => Stage::on_push(stage, alloc, port, e, acts),
        }
    }
}

impl<S: Source, D: Drain, L: Logic, H: Handlers, B: PlugBook> Stage for IslandNode<S, D, L, H, B> {
    ghost fresh = { node_fresh };

    ghost port_state = { node_port_state };

    ghost law = { node_law S.state D.state B.lists };

    ghost asking = { node_asking };

    ghost moves = { node_moves };

    ghost keeps = { KeepsNode S.state D.state };

    ghost passive = { node_passive };

    ghost gone = { node_gone };

    ghost waits = { node_waits };

    ghost late = { node_late };

    fn start(&mut self, alloc: Global, acts: &mut Acts) -> Result<(), NoMemory> {
        match self {
            IslandNode::Reading(source) => source.start(acts),
            IslandNode::Making(source) => source.start(acts),
            IslandNode::Linear(logic) => Stage::start(logic, alloc, acts),
            IslandNode::State(logic) => Stage::start(logic, alloc, acts),
            IslandNode::Sub(logic) => Stage::start(logic, alloc, acts),
            IslandNode::FanIn(logic) => Stage::start(logic, alloc, acts),
            IslandNode::FanOut(logic) => Stage::start(logic, alloc, acts),
            IslandNode::Custom(stage) => Stage::start(stage, alloc, acts),
            IslandNode::Writing(sink) => sink.start(acts),
            IslandNode::Ignoring(sink) => sink.start(acts),
            IslandNode::Entering(stage) => Stage::start(stage, alloc, acts),
            IslandNode::Leaving(stage) => Stage::start(stage, alloc, acts),
        }
    }

    fn on_pull(&mut self, alloc: Global, port: u8, acts: &mut Acts) -> Result<(), NoMemory> {
        match self {
            IslandNode::Linear(logic) => Stage::on_pull(logic, alloc, port, acts),
            _ => self.pull_rest(alloc, port, acts),
        }
    }

    fn on_push(
        &mut self,
        alloc: Global,
        port: u8,
        e: Elem,
        acts: &mut Acts,
    ) -> Result<(), NoMemory> {
        match self {
            IslandNode::Linear(logic) => Stage::on_push(logic, alloc, port, e, acts),
            _ => self.push_else(alloc, port, e, acts),
        }
    }

    fn on_finish(&mut self, alloc: Global, port: u8, acts: &mut Acts) -> Result<(), NoMemory> {
        match self {
            IslandNode::Reading(_) | IslandNode::Making(_) => unreachable!(),
            IslandNode::Linear(logic) => Stage::on_finish(logic, alloc, port, acts),
            IslandNode::State(logic) => Stage::on_finish(logic, alloc, port, acts),
            IslandNode::Sub(logic) => Stage::on_finish(logic, alloc, port, acts),
            IslandNode::FanIn(logic) => Stage::on_finish(logic, alloc, port, acts),
            IslandNode::FanOut(logic) => Stage::on_finish(logic, alloc, port, acts),
            IslandNode::Custom(stage) => Stage::on_finish(stage, alloc, port, acts),
            IslandNode::Writing(sink) => sink.on_finish(acts),
            IslandNode::Ignoring(sink) => sink.on_finish(acts),
            IslandNode::Entering(stage) => Stage::on_finish(stage, alloc, port, acts),
            IslandNode::Leaving(stage) => Stage::on_finish(stage, alloc, port, acts),
        }
    }

    fn on_fail(
        &mut self,
        alloc: Global,
        port: u8,
        cause: Cause,
        acts: &mut Acts,
    ) -> Result<(), NoMemory> {
        match self {
            IslandNode::Reading(_) | IslandNode::Making(_) => unreachable!(),
            IslandNode::Linear(logic) => Stage::on_fail(logic, alloc, port, cause, acts),
            IslandNode::State(logic) => Stage::on_fail(logic, alloc, port, cause, acts),
            IslandNode::Sub(logic) => Stage::on_fail(logic, alloc, port, cause, acts),
            IslandNode::FanIn(logic) => Stage::on_fail(logic, alloc, port, cause, acts),
            IslandNode::FanOut(logic) => Stage::on_fail(logic, alloc, port, cause, acts),
            IslandNode::Custom(stage) => Stage::on_fail(stage, alloc, port, cause, acts),
            IslandNode::Writing(sink) => sink.on_fail(cause, acts),
            IslandNode::Ignoring(sink) => sink.on_fail(cause, acts),
            IslandNode::Entering(stage) => Stage::on_fail(stage, alloc, port, cause, acts),
            IslandNode::Leaving(stage) => Stage::on_fail(stage, alloc, port, cause, acts),
        }
    }

    fn on_cancel(&mut self, alloc: Global, port: u8, acts: &mut Acts) -> Result<(), NoMemory> {
        match self {
            IslandNode::Reading(source) => source.on_cancel(acts),
            IslandNode::Making(source) => source.on_cancel(acts),
            IslandNode::Linear(logic) => Stage::on_cancel(logic, alloc, port, acts),
            IslandNode::State(logic) => Stage::on_cancel(logic, alloc, port, acts),
            IslandNode::Sub(logic) => Stage::on_cancel(logic, alloc, port, acts),
            IslandNode::FanIn(logic) => Stage::on_cancel(logic, alloc, port, acts),
            IslandNode::FanOut(logic) => Stage::on_cancel(logic, alloc, port, acts),
            IslandNode::Custom(stage) => Stage::on_cancel(stage, alloc, port, acts),
            IslandNode::Entering(stage) => Stage::on_cancel(stage, alloc, port, acts),
            IslandNode::Leaving(stage) => Stage::on_cancel(stage, alloc, port, acts),
            IslandNode::Writing(_) | IslandNode::Ignoring(_) => unreachable!(),
        }
    }

    fn hand_out(&mut self) -> Option<Item> {
        match self {
            IslandNode::Leaving(stage) => stage.hand_out(),
            _ => None,
        }
    }

    fn let_go(&mut self) {
        if let IslandNode::Leaving(stage) = self {
            stage.let_go();
        }
    }

    fn is_clear(&self) -> bool {
        match self {
            IslandNode::Leaving(stage) => stage.is_clear(),
            _ => true,
        }
    }

    #[inline(always)]
    fn push_at_once(&mut self, _port: u8, _e: &mut Elem, _acts: &mut Acts) -> Swift {
        match self {
            IslandNode::Linear(logic) => Stage::push_at_once(logic, _port, _e, _acts),
            _ => Swift::Rests,
        }
    }

    #[inline(always)]
    fn pull_at_once(&mut self, _port: u8) -> bool {
        match self {
            IslandNode::Linear(logic) => Stage::pull_at_once(logic, _port),
            _ => false,
        }
    }

    fn is_passive(&self) -> bool {
        matches!(self, IslandNode::Entering(_) | IslandNode::Leaving(_))
    }

    fn put_off(&mut self) -> bool {
        match self {
            IslandNode::Writing(sink) => sink.put_waiting(),
            _ => false,
        }
    }

    fn may_wait(&self) -> bool {
        match self {
            IslandNode::Reading(source) => source.may_wait(),
            _ => false,
        }
    }
}
