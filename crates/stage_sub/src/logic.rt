ghost use Rattle.std.specs.Prelude.{◌≡◌, ◌≢◌, ◌≤◌, ◌<◌, ◌+◌, ◌^◌, ◌⊎◌, ℕ, [], ◌∷◌, ◌++◌, length, vec_len, None, Some, true, false, OnOk, IfOk, IsOk};
ghost use Rattle.std.specs.Option.{option_map};
ghost use Rattle.elem_core.specs.declared.item.Item.TheVariants as item;
ghost use Rattle.port_core.specs.Picks.{misfit_in, may_end, next_move};
ghost use Rattle.port_core.specs.declared.pick_log.Next.TheVariants.{Move};
ghost use Rattle.port_core.specs.Call.{Obeys, Meets, starts, pulls, arrives, cancels};
ghost use Rattle.stream_model.specs.declared.kind.Kind.{Kind};
ghost use Rattle.stage_core.specs.declared.phase.Phase.TheVariants.{New, Open};
ghost use Rattle.stage_sub.specs.Handling.{sub_picks, new_log, IsSub};
ghost use Rattle.stage_sub.specs.LedLaws.{LedBegins};
ghost use Rattle.stage_sub.specs.Leds.{Led, led_port_state, LedTurned, Unled, Followed, TookUp, EndedUp, LedGoesOn, LedServed, LedSettling, sub_plan, sub_misfit};
ghost use Rattle.stage_sub.specs.States.{begun, port_state, Turned, Ready};

use crate::blame::Blame;
use crate::log::{follows, is_stuck, log_of, make_room, misfit, next, note, note_next};
use crate::opening::OpenBy;
use crate::state::SubState;
use elem_core::elem::Elem;
use elem_core::why::{Cause, Decider, NoMemory};
use port_core::act::Act;
use port_core::acts::Acts;
use port_core::chain::Chain;
use port_core::pick_log::{Next, PickLog};
use std::alloc::Global;
use std::marker::Model;
use stream_model::kind::{Joining, Kind};

// Choice: docs/DECISIONS.md#substreams-in-a-box
/// The logic of a stage with substreams, whose outputs it gives in the order in which they arise. One that joins them by
/// `merge` has a log of its moves: before it does anything else, a handler that may give an output makes room there, and it
/// notes the number of the substream of each output that it gives. Where it follows moves, each names the substream of the next output
/// that it gives; it asks where it is asked and holds nothing, and stops where it is asked and cannot make the next move. Rule: Akka Streams
/// 2.6 reference; the log, and moves: own.
#[derive(Drop)]
pub struct SubLogic<C: Chain> {
    // In a box, so that a stage without substreams takes no room for them.
    state: Box<SubState<C>>,
    log: Option<PickLog>,
}

impl<C: Chain> Model for SubLogic<C> {
    ghost use Rattle.std.specs.Coded.{codes};
    ghost use Rattle.elem_core.specs.TreeCode.{tree_coded};
    ghost use Rattle.stage_sub.specs.Logs.{moves_in};
    ghost use Rattle.stage_sub.specs.Leds.{Led, left_in, stuck_in};

    ghost Value = { Led C };

    ghost coded = { Prim.hlevel (codes, tree_coded) };

    ghost view = { λ l. record {
      logic = record l.state.value { moves = moves_in l.log };
      left = left_in l.log;
      stuck = stuck_in l.log;
    } };
}

impl<C: Chain> SubLogic<C> {
    /// The logic of node `node`, a stage with substreams, each of which runs a chain like `chain`. No such stage has a decider.
    pub fn new(
        alloc: Global,
        node: u32,
        kind: Kind,
        decider: Decider,
        chain: C,
    ) -> Result<SubLogic<C>, NoMemory>
        requires { IsSub kind }
        ensures begins { IfOk result (LedBegins C.rest C.is_open node kind chain) }
        ensures free { IfOk result (λ l. l.left ≡ None) }
    {
        match kind {
            Kind::GroupBy(most, by, _) => {
                SubLogic::of(alloc, node, OpenBy::Key(most, by), Joining::Merge, chain)
            }
            Kind::SplitWhen(test, _, joining) => {
                SubLogic::of(alloc, node, OpenBy::Before(test), joining, chain)
            }
            Kind::SplitAfter(test, _, joining) => {
                SubLogic::of(alloc, node, OpenBy::Behind(test), joining, chain)
            }
            _ => unreachable!(),
        }
    }

    // A stage that has not begun.
    fn of(
        alloc: Global,
        node: u32,
        how: OpenBy,
        joining: Joining,
        chain: C,
    ) -> Result<SubLogic<C>, NoMemory>
        ensures stage { IfOk result (λ l. l ≡ record { logic = begun node how (new_log joining) chain; left = None; stuck = false }) }
        ensures ready { IfOk result (λ l. Ready C.rest C.is_open l.logic) }
    {
        let state = Box::new(alloc, SubState::new(alloc, node, how, chain))?;
        Ok(SubLogic {
            state,
            log: log_of(alloc, joining),
        })
    }

    /// From now on a new stage that joins its substreams by `merge` follows these moves. It takes no memory.
    pub fn follow(&mut self, moves: Vec<u32>)
        requires merge { self.old.logic.moves ≡ Some [] }
        requires few { vec_len moves < 2 ^ 32 }
        ensures begins { (node : ℕ) (kind : Kind) (chain : C) → LedBegins C.rest C.is_open node kind chain self.old
            → LedBegins C.rest C.is_open node kind chain self.new }
        ensures plan { sub_plan self.new ≡ Some moves.items }
    {
        self.log = Some(PickLog::follow(moves));
    }

    /// The run begins.
    pub fn start(&mut self, acts: &mut Acts) -> Result<(), NoMemory>
        requires new { self.old.logic.phase ≡ New }
        requires calm { self.old.stuck ≡ false }
        requires meets { Meets starts (led_port_state self.old) }
        requires empty { acts.old.items ≡ [] }
        requires room { 4 ≤ acts.old.room }
        requires ready { Ready C.rest C.is_open self.old.logic }
        ensures answers { IsOk result }
        ensures ports { OnOk result (Obeys starts (led_port_state self.old) (led_port_state self.new) acts.new.items) }
        ensures gives { OnOk result (LedTurned C.whole C.rest C.is_open starts self.old acts.new.items self.new) }
        ensures ready { OnOk result (Ready C.rest C.is_open self.new.logic) }
        ensures room { acts.new.room ≡ acts.old.room }
    {
        self.state.begin();
        Ok(())
    }

    /// The output was asked. It takes memory for the move alone.
    pub fn on_pull(&mut self, port: u8, acts: &mut Acts) -> Result<(), NoMemory>
        requires open { self.old.logic.phase ≡ Open }
        requires port { port ≡ 0 }
        requires meets { Meets (pulls 0) (led_port_state self.old) }
        requires empty { acts.old.items ≡ [] }
        requires room { 4 ≤ acts.old.room }
        requires ready { Ready C.rest C.is_open self.old.logic }
        ensures ports { OnOk result (Obeys (pulls 0) (led_port_state self.old) (led_port_state self.new) acts.new.items) }
        ensures gives { OnOk result (LedTurned C.whole C.rest C.is_open (pulls 0) self.old acts.new.items self.new) }
        ensures ready { OnOk result (Ready C.rest C.is_open self.new.logic) }
        ensures room { acts.new.room ≡ acts.old.room }
    {
        let _port = port;
        if follows(&self.log) {
            self.pull_by(acts)
        } else {
            self.pull_freely(acts)
        }
    }

    // The output was asked, and nothing is followed.
    fn pull_freely(&mut self, acts: &mut Acts) -> Result<(), NoMemory>
        requires free { self.old.left ≡ None }
        requires open { self.old.logic.phase ≡ Open }
        requires meets { Meets (pulls 0) (port_state self.old.logic) }
        requires empty { acts.old.items ≡ [] }
        requires room { 4 ≤ acts.old.room }
        requires ready { Ready C.rest C.is_open self.old.logic }
        ensures ports { OnOk result (Obeys (pulls 0) (port_state self.old.logic) (port_state self.new.logic) acts.new.items) }
        ensures gives { OnOk result (Unled C.whole C.rest C.is_open (pulls 0) self.old acts.new.items self.new) }
        ensures ready { OnOk result (Ready C.rest C.is_open self.new.logic) }
        ensures room { acts.new.room ≡ acts.old.room }
    {
        make_room(&mut self.log)?;
        let gave = self.state.pull(acts);
        note(&mut self.log, gave);
        Ok(())
    }

    // The output was asked, and moves are followed.
    fn pull_by(&mut self, acts: &mut Acts) -> Result<(), NoMemory>
        requires follows { self.old.left ≢ None }
        requires open { self.old.logic.phase ≡ Open }
        requires meets { Meets (pulls 0) (led_port_state self.old) }
        requires empty { acts.old.items ≡ [] }
        requires room { 4 ≤ acts.old.room }
        requires ready { Ready C.rest C.is_open self.old.logic }
        ensures answers { IsOk result }
        ensures ports { OnOk result (Obeys (pulls 0) (led_port_state self.old) (led_port_state self.new) acts.new.items) }
        ensures gives { OnOk result (Followed C.whole C.rest C.is_open (pulls 0) self.old acts.new.items self.new) }
        ensures ready { OnOk result (Ready C.rest C.is_open self.new.logic) }
        ensures room { acts.new.room ≡ acts.old.room }
    {
        if !is_stuck(&self.log) {
            self.state.want();
            self.go_on(acts);
        }
        Ok(())
    }

    /// The input has failed: what is held is dropped.
    pub fn on_fail(&mut self, port: u8, cause: Cause, acts: &mut Acts) -> Result<(), NoMemory>
        requires open { self.old.logic.phase ≡ Open }
        requires port { port ≡ 0 }
        requires meets { Meets (arrives 0 (item.Failed cause)) (led_port_state self.old) }
        requires empty { acts.old.items ≡ [] }
        requires room { 4 ≤ acts.old.room }
        requires ready { Ready C.rest C.is_open self.old.logic }
        ensures answers { IsOk result }
        ensures ports { OnOk result (Obeys (arrives 0 (item.Failed cause)) (led_port_state self.old) (led_port_state self.new) acts.new.items) }
        ensures gives { OnOk result (LedTurned C.whole C.rest C.is_open (arrives 0 (item.Failed cause)) self.old acts.new.items self.new) }
        ensures ready { OnOk result (Ready C.rest C.is_open self.new.logic) }
        ensures room { acts.new.room ≡ acts.old.room }
    {
        let _port = port;
        if follows(&self.log) {
            self.fail_by(cause, acts)
        } else {
            self.fail_freely(cause, acts)
        }
    }

    // The input has failed, and nothing is followed.
    fn fail_freely(&mut self, cause: Cause, acts: &mut Acts) -> Result<(), NoMemory>
        requires free { self.old.left ≡ None }
        requires open { self.old.logic.phase ≡ Open }
        requires meets { Meets (arrives 0 (item.Failed cause)) (port_state self.old.logic) }
        requires empty { acts.old.items ≡ [] }
        requires room { 4 ≤ acts.old.room }
        requires ready { Ready C.rest C.is_open self.old.logic }
        ensures answers { IsOk result }
        ensures ports { OnOk result (Obeys (arrives 0 (item.Failed cause)) (port_state self.old.logic) (port_state self.new.logic) acts.new.items) }
        ensures gives { OnOk result (Unled C.whole C.rest C.is_open (arrives 0 (item.Failed cause)) self.old acts.new.items self.new) }
        ensures ready { OnOk result (Ready C.rest C.is_open self.new.logic) }
        ensures room { acts.new.room ≡ acts.old.room }
    {
        self.state.fail(cause, acts);
        Ok(())
    }

    // The input has failed, and moves are followed.
    fn fail_by(&mut self, cause: Cause, acts: &mut Acts) -> Result<(), NoMemory>
        requires follows { self.old.left ≢ None }
        requires open { self.old.logic.phase ≡ Open }
        requires meets { Meets (arrives 0 (item.Failed cause)) (led_port_state self.old) }
        requires empty { acts.old.items ≡ [] }
        requires room { 4 ≤ acts.old.room }
        requires ready { Ready C.rest C.is_open self.old.logic }
        ensures answers { IsOk result }
        ensures ports { OnOk result (Obeys (arrives 0 (item.Failed cause)) (led_port_state self.old) (led_port_state self.new) acts.new.items) }
        ensures gives { OnOk result (Followed C.whole C.rest C.is_open (arrives 0 (item.Failed cause)) self.old acts.new.items self.new) }
        ensures ready { OnOk result (Ready C.rest C.is_open self.new.logic) }
        ensures room { acts.new.room ≡ acts.old.room }
    {
        if !is_stuck(&self.log) {
            self.state.fail(cause, acts);
        }
        Ok(())
    }

    /// The output was cancelled.
    pub fn on_cancel(&mut self, port: u8, acts: &mut Acts) -> Result<(), NoMemory>
        requires open { self.old.logic.phase ≡ Open }
        requires port { port ≡ 0 }
        requires meets { Meets (cancels 0) (led_port_state self.old) }
        requires empty { acts.old.items ≡ [] }
        requires room { 4 ≤ acts.old.room }
        requires ready { Ready C.rest C.is_open self.old.logic }
        ensures answers { IsOk result }
        ensures ports { OnOk result (Obeys (cancels 0) (led_port_state self.old) (led_port_state self.new) acts.new.items) }
        ensures gives { OnOk result (LedTurned C.whole C.rest C.is_open (cancels 0) self.old acts.new.items self.new) }
        ensures ready { OnOk result (Ready C.rest C.is_open self.new.logic) }
        ensures room { acts.new.room ≡ acts.old.room }
    {
        let _port = port;
        if follows(&self.log) {
            self.leave_by(acts)
        } else {
            self.leave_freely(acts)
        }
    }

    // The output was cancelled, and nothing is followed.
    fn leave_freely(&mut self, acts: &mut Acts) -> Result<(), NoMemory>
        requires free { self.old.left ≡ None }
        requires open { self.old.logic.phase ≡ Open }
        requires meets { Meets (cancels 0) (port_state self.old.logic) }
        requires empty { acts.old.items ≡ [] }
        requires room { 4 ≤ acts.old.room }
        requires ready { Ready C.rest C.is_open self.old.logic }
        ensures answers { IsOk result }
        ensures ports { OnOk result (Obeys (cancels 0) (port_state self.old.logic) (port_state self.new.logic) acts.new.items) }
        ensures gives { OnOk result (Unled C.whole C.rest C.is_open (cancels 0) self.old acts.new.items self.new) }
        ensures ready { OnOk result (Ready C.rest C.is_open self.new.logic) }
        ensures room { acts.new.room ≡ acts.old.room }
    {
        self.state.leave(acts);
        Ok(())
    }

    // The output was cancelled, and moves are followed.
    fn leave_by(&mut self, acts: &mut Acts) -> Result<(), NoMemory>
        requires follows { self.old.left ≢ None }
        requires open { self.old.logic.phase ≡ Open }
        requires meets { Meets (cancels 0) (led_port_state self.old) }
        requires empty { acts.old.items ≡ [] }
        requires room { 4 ≤ acts.old.room }
        requires ready { Ready C.rest C.is_open self.old.logic }
        ensures answers { IsOk result }
        ensures ports { OnOk result (Obeys (cancels 0) (led_port_state self.old) (led_port_state self.new) acts.new.items) }
        ensures gives { OnOk result (Followed C.whole C.rest C.is_open (cancels 0) self.old acts.new.items self.new) }
        ensures ready { OnOk result (Ready C.rest C.is_open self.new.logic) }
        ensures room { acts.new.room ≡ acts.old.room }
    {
        if !is_stuck(&self.log) {
            self.state.leave(acts);
        }
        Ok(())
    }

    /// The input has ended: all substreams end. Where one fails, what is held is dropped.
    pub fn on_finish(&mut self, alloc: Global, port: u8, acts: &mut Acts) -> Result<(), NoMemory>
        requires open { self.old.logic.phase ≡ Open }
        requires port { port ≡ 0 }
        requires meets { Meets (arrives 0 item.Ended) (led_port_state self.old) }
        requires empty { acts.old.items ≡ [] }
        requires room { 4 ≤ acts.old.room }
        requires ready { Ready C.rest C.is_open self.old.logic }
        ensures ports { OnOk result (Obeys (arrives 0 item.Ended) (led_port_state self.old) (led_port_state self.new) acts.new.items) }
        ensures gives { OnOk result (LedTurned C.whole C.rest C.is_open (arrives 0 item.Ended) self.old acts.new.items self.new) }
        ensures ready { OnOk result (Ready C.rest C.is_open self.new.logic) }
        ensures room { acts.new.room ≡ acts.old.room }
    {
        let _port = port;
        if follows(&self.log) {
            self.finish_by(alloc, acts)
        } else {
            self.finish_freely(alloc, acts)
        }
    }

    // The input has ended, and nothing is followed.
    fn finish_freely(&mut self, alloc: Global, acts: &mut Acts) -> Result<(), NoMemory>
        requires free { self.old.left ≡ None }
        requires open { self.old.logic.phase ≡ Open }
        requires meets { Meets (arrives 0 item.Ended) (port_state self.old.logic) }
        requires empty { acts.old.items ≡ [] }
        requires room { 4 ≤ acts.old.room }
        requires ready { Ready C.rest C.is_open self.old.logic }
        ensures ports { OnOk result (Obeys (arrives 0 item.Ended) (port_state self.old.logic) (port_state self.new.logic) acts.new.items) }
        ensures gives { OnOk result (Unled C.whole C.rest C.is_open (arrives 0 item.Ended) self.old acts.new.items self.new) }
        ensures ready { OnOk result (Ready C.rest C.is_open self.new.logic) }
        ensures room { acts.new.room ≡ acts.old.room }
    {
        make_room(&mut self.log)?;
        let blame = self.state.end_in(alloc)?;
        let gave = self.state.finish(blame, acts);
        note(&mut self.log, gave);
        Ok(())
    }

    // The input has ended, and moves are followed.
    fn finish_by(&mut self, alloc: Global, acts: &mut Acts) -> Result<(), NoMemory>
        requires follows { self.old.left ≢ None }
        requires open { self.old.logic.phase ≡ Open }
        requires meets { Meets (arrives 0 item.Ended) (led_port_state self.old) }
        requires empty { acts.old.items ≡ [] }
        requires room { 4 ≤ acts.old.room }
        requires ready { Ready C.rest C.is_open self.old.logic }
        ensures ports { OnOk result (Obeys (arrives 0 item.Ended) (led_port_state self.old) (led_port_state self.new) acts.new.items) }
        ensures gives { OnOk result (Followed C.whole C.rest C.is_open (arrives 0 item.Ended) self.old acts.new.items self.new) }
        ensures ready { OnOk result (Ready C.rest C.is_open self.new.logic) }
        ensures room { acts.new.room ≡ acts.old.room }
    {
        if is_stuck(&self.log) {
            return Ok(());
        }
        let blame = self.state.end_in(alloc)?;
        self.end_up(blame, acts);
        Ok(())
    }

    /// An element came.
    pub fn on_push(
        &mut self,
        alloc: Global,
        port: u8,
        e: Elem,
        acts: &mut Acts,
    ) -> Result<(), NoMemory>
        requires open { self.old.logic.phase ≡ Open }
        requires port { port ≡ 0 }
        requires meets { Meets (arrives 0 (item.Elem e)) (led_port_state self.old) }
        requires empty { acts.old.items ≡ [] }
        requires room { 4 ≤ acts.old.room }
        requires ready { Ready C.rest C.is_open self.old.logic }
        ensures ports { OnOk result (Obeys (arrives 0 (item.Elem e)) (led_port_state self.old) (led_port_state self.new) acts.new.items) }
        ensures gives { OnOk result (LedTurned C.whole C.rest C.is_open (arrives 0 (item.Elem e)) self.old acts.new.items self.new) }
        ensures ready { OnOk result (Ready C.rest C.is_open self.new.logic) }
        ensures room { acts.new.room ≡ acts.old.room }
    {
        let _port = port;
        if follows(&self.log) {
            self.push_by(alloc, e, acts)
        } else {
            self.push_freely(alloc, e, acts)
        }
    }

    // An element came, and nothing is followed.
    fn push_freely(&mut self, alloc: Global, e: Elem, acts: &mut Acts) -> Result<(), NoMemory>
        requires free { self.old.left ≡ None }
        requires open { self.old.logic.phase ≡ Open }
        requires meets { Meets (arrives 0 (item.Elem e)) (port_state self.old.logic) }
        requires empty { acts.old.items ≡ [] }
        requires room { 4 ≤ acts.old.room }
        requires ready { Ready C.rest C.is_open self.old.logic }
        ensures ports { OnOk result (Obeys (arrives 0 (item.Elem e)) (port_state self.old.logic) (port_state self.new.logic) acts.new.items) }
        ensures gives { OnOk result (Unled C.whole C.rest C.is_open (arrives 0 (item.Elem e)) self.old acts.new.items self.new) }
        ensures ready { OnOk result (Ready C.rest C.is_open self.new.logic) }
        ensures room { acts.new.room ≡ acts.old.room }
    {
        make_room(&mut self.log)?;
        let taken = self.state.next_number()?;
        let blame = self.state.take_in(alloc, e)?;
        let gave = self.state.answer(taken, blame, acts);
        note(&mut self.log, gave);
        Ok(())
    }

    // An element came, and moves are followed. It comes to none that stopped, which asks nothing.
    fn push_by(&mut self, alloc: Global, e: Elem, acts: &mut Acts) -> Result<(), NoMemory>
        requires follows { self.old.left ≢ None }
        requires open { self.old.logic.phase ≡ Open }
        requires meets { Meets (arrives 0 (item.Elem e)) (led_port_state self.old) }
        requires empty { acts.old.items ≡ [] }
        requires room { 4 ≤ acts.old.room }
        requires ready { Ready C.rest C.is_open self.old.logic }
        ensures ports { OnOk result (Obeys (arrives 0 (item.Elem e)) (led_port_state self.old) (led_port_state self.new) acts.new.items) }
        ensures gives { OnOk result (Followed C.whole C.rest C.is_open (arrives 0 (item.Elem e)) self.old acts.new.items self.new) }
        ensures ready { OnOk result (Ready C.rest C.is_open self.new.logic) }
        ensures room { acts.new.room ≡ acts.old.room }
    {
        let taken = self.state.next_number()?;
        let blame = self.state.take_in(alloc, e)?;
        self.take_up(taken, blame, acts);
        Ok(())
    }

    // What element number `taken` came to: it fails, or goes on.
    fn take_up(&mut self, taken: u64, blame: Option<Blame>, acts: &mut Acts)
        requires follows { self.old.left ≢ None }
        requires empty { acts.old.items ≡ [] }
        requires room { 4 ≤ acts.old.room }
        ensures took { TookUp taken blame self.old self.new acts.new.items }
        ensures kept { self.new.logic.kept ≡ self.old.logic.kept }
        ensures room { acts.new.room ≡ acts.old.room }
    {
        match blame {
            Some(blame) => {
                self.state.answer(taken, Some(blame), acts);
            }
            None => {
                self.state.count(taken);
                self.go_on(acts);
            }
        }
    }

    // What the end of the input came to: it fails, or goes on.
    fn end_up(&mut self, blame: Option<Blame>, acts: &mut Acts)
        requires follows { self.old.left ≢ None }
        requires empty { acts.old.items ≡ [] }
        requires room { 4 ≤ acts.old.room }
        ensures ended { EndedUp blame self.old self.new acts.new.items }
        ensures kept { self.new.logic.kept ≡ self.old.logic.kept }
        ensures room { acts.new.room ≡ acts.old.room }
    {
        match blame {
            Some(blame) => {
                self.state.finish(Some(blame), acts);
            }
            None => {
                self.state.end_input();
                self.go_on(acts);
            }
        }
    }

    // What the output is asked for goes out by the next move, where it is held; and then the stage ends, stops, asks, or rests.
    fn go_on(&mut self, acts: &mut Acts)
        requires follows { self.old.left ≢ None }
        requires empty { acts.old.items ≡ [] }
        requires room { 4 ≤ acts.old.room }
        ensures goes { LedGoesOn self.old self.new acts.new.items }
        ensures kept { self.new.logic.kept ≡ self.old.logic.kept }
        ensures room { acts.new.room ≡ acts.old.room }
    {
        self.serve(acts);
        self.settle(acts);
    }

    // THE DECIDING PLACE: where the output is asked, the first output of the substream that the next move names goes out, and is noted.
    fn serve(&mut self, acts: &mut Acts)
        requires empty { acts.old.items ≡ [] }
        requires room { 4 ≤ acts.old.room }
        ensures serves { LedServed self.old self.new acts.new.items }
        ensures few { length acts.new.items ≤ 1 }
        ensures room { acts.new.room ≡ acts.old.room }
    {
        if self.state.is_asked() {
            if let Next::Move(n) = next(&self.log) {
                self.give_of(n, acts);
            }
        }
    }

    // The first output of that substream goes out, where one is held.
    fn give_of(&mut self, n: u32, acts: &mut Acts)
        requires asked { self.old.logic.asked ≡ true }
        requires next { next_move self.old.left ≡ Move n }
        requires empty { acts.old.items ≡ [] }
        requires room { 4 ≤ acts.old.room }
        ensures serves { LedServed self.old self.new acts.new.items }
        ensures few { length acts.new.items ≤ 1 }
        ensures room { acts.new.room ≡ acts.old.room }
    {
        if self.state.give_of(n, acts) {
            note_next(&mut self.log, n);
        }
    }

    // The end of a call: it ends, stops, asks, or rests.
    fn settle(&mut self, acts: &mut Acts)
        requires room { length acts.old.items < acts.old.room }
        ensures settles { LedSettling acts.old.items self.old self.new acts.new.items }
        ensures room { acts.new.room ≡ acts.old.room }
    {
        if self.state.is_over() && self.state.holds_none() {
            self.end(acts);
        } else if self.state.is_asked() {
            self.ask(acts);
        }
    }

    // Its input has ended and it holds nothing: it ends where no move is to be made, and else stops where it is asked.
    fn end(&mut self, acts: &mut Acts)
        requires over { (self.old.logic.over ≡ true) × (self.old.logic.pending ≡ []) }
        requires room { length acts.old.items < acts.old.room }
        ensures settles { LedSettling acts.old.items self.old self.new acts.new.items }
        ensures room { acts.new.room ≡ acts.old.room }
    {
        if self.may_end() {
            self.state.complete(acts);
        } else if self.state.is_asked() {
            misfit(&mut self.log);
        }
    }

    // Choice: docs/DECISIONS.md#substreams-hold-little
    // It is asked, and more may come or is held: it asks where it holds nothing, and else stops where a move is to be made.
    fn ask(&mut self, acts: &mut Acts)
        requires asked { self.old.logic.asked ≡ true }
        requires going { self.old.logic.over ≡ true → self.old.logic.pending ≢ [] }
        requires room { length acts.old.items < acts.old.room }
        ensures settles { LedSettling acts.old.items self.old self.new acts.new.items }
        ensures room { acts.new.room ≡ acts.old.room }
    {
        if self.state.holds_none() {
            acts.add(Act::Pull(0));
        } else if !self.may_end() {
            misfit(&mut self.log);
        }
    }

    // No move is to be made.
    fn may_end(&self) -> bool
        ensures { result ≡ may_end (next_move self.now.left) }
    {
        !matches!(next(&self.log), Next::Move(_))
    }

    /// The run is over: the log of its moves, where its substreams were joined by `merge`. It takes no memory.
    #[tactic(auto, using(crate::proofs::Following::misfit_same))]
    pub fn picks(self) -> Option<PickLog>
        ensures picks { option_map (λ log. log.moves) result ≡ sub_picks self.logic }
        ensures misfit { misfit_in result ≡ sub_misfit self }
    {
        self.log
    }
}
