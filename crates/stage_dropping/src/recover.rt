ghost use Rattle.std.specs.Prelude.{vec_len, ◌≡◌, ◌+◌, ◌≢◌, ◌≤◌, ◌<◌, ◌∷◌, [], ◌++◌, OnOk, OnErr, IsOk, IfSome, Some, None, true, false, length};
ghost use Rattle.elem_core.specs.Tree.{Tree};
ghost use Rattle.elem_core.specs.declared.item.Item.TheVariants as item;
ghost use Rattle.port_core.specs.declared.act.Act.TheVariants.{Pull, Push, Complete, Cancel};
ghost use Rattle.port_core.specs.Call.{Obeys, Meets, starts, pulls, arrives, cancels};
ghost use Rattle.stage_core.specs.declared.phase.Phase.TheVariants.{New, Open, Closed};
ghost use Rattle.port_core.specs.Picks.{MayNote, may_end, next_move};
ghost use Rattle.stage_dropping.specs.Recoverings.{Recover, port_state, Turned, begun, follows, is_full, may_turn, turn_noted, stopped};

use elem_core::count::one_more_small;
use elem_core::elem::Elem;
use elem_core::why::{Cause, NoMemory};
use port_core::act::Act;
use port_core::acts::Acts;
use port_core::pick_log::{Next, PickLog};
use stage_core::phase::Phase;
use std::alloc::Global;
use std::marker::Model;

/// The logic of a recover: it passes on what comes; a failure of its input it turns into an element of its own, which it gives
/// when asked, and then completes. As the failure comes it notes how many elements passed. One that follows a move does so where as many
/// have passed as the move says, and stops where that cannot come about; one that follows none gives nothing behind a failure. Rule: Akka
/// Streams 2.6 reference; moves: own.
#[derive(Drop)]
pub struct Recovering {
    own: Option<Elem>,
    log: PickLog,
    passed: u32,
    asked: bool,
    over: bool,
    // It does nothing more: it cannot make its next move, or has none and its input failed.
    still: bool,
    phase: Phase,
}

impl Model for Recovering {
    ghost use Rattle.std.specs.Coded.{codes};
    ghost use Rattle.elem_core.specs.TreeCode.{tree_coded};
    ghost use Rattle.stage_dropping.specs.Recoverings.{Recover};

    ghost Value = { Recover };

    ghost coded = { Prim.hlevel (codes, tree_coded) };

    ghost view = { λ l. record {
      phase = l.phase;
      own = l.own;
      passed = l.passed;
      asked = l.asked;
      over = l.over;
      still = l.still;
      moves = l.log.moves;
      left = l.log.left;
      stuck = l.log.stuck;
    } };
}

impl Recovering {
    /// The logic of a recover whose own element is `own`. It takes no memory.
    pub fn new(alloc: Global, own: Elem) -> Recovering
        ensures { result ≡ begun own }
    {
        Recovering {
            own: Some(own),
            log: PickLog::new(alloc),
            passed: 0,
            asked: false,
            over: false,
            still: false,
            phase: Phase::New,
        }
    }

    /// From now on a new recover follows these moves, of which it has at most one. It takes no memory.
    pub fn follow(&mut self, moves: Vec<u32>)
        requires new { (own : Tree) × (self.old ≡ begun own) }
        requires one { vec_len moves ≤ 1 }
        ensures { self.new ≡ follows moves.items self.old }
    {
        self.log = PickLog::follow(moves);
    }

    /// The run begins.
    pub fn start(&mut self, acts: &mut Acts) -> Result<(), NoMemory>
        requires new { self.old.phase ≡ New }
        requires meets { Meets starts (port_state self.old) }
        requires empty { acts.old.items ≡ [] }
        requires room { 4 ≤ acts.old.room }
        ensures answers { IsOk result }
        ensures ports { OnOk result (Obeys starts (port_state self.old) (port_state self.new) acts.new.items) }
        ensures gives { OnOk result (Turned starts self.old acts.new.items self.new) }
        ensures room { acts.new.room ≡ acts.old.room }
    {
        self.phase = Phase::Open;
        Ok(())
    }

    /// The output was asked.
    pub fn on_pull(&mut self, port: u8, acts: &mut Acts) -> Result<(), NoMemory>
        requires open { self.old.phase ≡ Open }
        requires port { port ≡ 0 }
        requires meets { Meets (pulls 0) (port_state self.old) }
        requires empty { acts.old.items ≡ [] }
        requires room { 4 ≤ acts.old.room }
        ensures answers { IsOk result }
        ensures ports { OnOk result (Obeys (pulls 0) (port_state self.old) (port_state self.new) acts.new.items) }
        ensures gives { OnOk result (Turned (pulls 0) self.old acts.new.items self.new) }
        ensures room { acts.new.room ≡ acts.old.room }
    {
        if self.is_still() {
            return Ok(());
        }
        if self.is_over() {
            self.give_own(acts);
        } else {
            self.ask(port, acts);
        }
        Ok(())
    }

    /// An element came, and goes out. Where 2^32 - 1 have passed it answers want of memory, and all is as before.
    pub fn on_push(&mut self, port: u8, e: Elem, acts: &mut Acts) -> Result<(), NoMemory>
        requires open { self.old.phase ≡ Open }
        requires port { port ≡ 0 }
        requires meets { Meets (arrives 0 (item.Elem e)) (port_state self.old) }
        requires empty { acts.old.items ≡ [] }
        requires room { 4 ≤ acts.old.room }
        ensures ports { OnOk result (Obeys (arrives 0 (item.Elem e)) (port_state self.old) (port_state self.new) acts.new.items) }
        ensures gives { OnOk result (Turned (arrives 0 (item.Elem e)) self.old acts.new.items self.new) }
        ensures room { acts.new.room ≡ acts.old.room }
        ensures refused { OnErr result ((self.new ≡ self.old) × (acts.new ≡ acts.old)) }
    {
        if self.is_still() {
            return Ok(());
        }
        if self.is_full() {
            self.stop();
            return Ok(());
        }
        self.count()?;
        acts.add(Act::Push(port, e));
        Ok(())
    }

    /// The input has ended.
    pub fn on_finish(&mut self, port: u8, acts: &mut Acts) -> Result<(), NoMemory>
        requires open { self.old.phase ≡ Open }
        requires port { port ≡ 0 }
        requires meets { Meets (arrives 0 item.Ended) (port_state self.old) }
        requires empty { acts.old.items ≡ [] }
        requires room { 4 ≤ acts.old.room }
        ensures answers { IsOk result }
        ensures ports { OnOk result (Obeys (arrives 0 item.Ended) (port_state self.old) (port_state self.new) acts.new.items) }
        ensures gives { OnOk result (Turned (arrives 0 item.Ended) self.old acts.new.items self.new) }
        ensures room { acts.new.room ≡ acts.old.room }
    {
        if self.is_still() {
            return Ok(());
        }
        if self.may_end() {
            self.complete(port, acts);
        } else {
            self.stop();
        }
        Ok(())
    }

    /// The input has failed: how many elements passed is noted, and the element of its own is given where the output is
    /// asked. It takes memory for the move alone; where that is refused, all is as before.
    pub fn on_fail(&mut self, port: u8, cause: Cause, acts: &mut Acts) -> Result<(), NoMemory>
        requires open { self.old.phase ≡ Open }
        requires port { port ≡ 0 }
        requires meets { Meets (arrives 0 (item.Failed cause)) (port_state self.old) }
        requires empty { acts.old.items ≡ [] }
        requires room { 4 ≤ acts.old.room }
        ensures ports { OnOk result (Obeys (arrives 0 (item.Failed cause)) (port_state self.old) (port_state self.new) acts.new.items) }
        ensures gives { OnOk result (Turned (arrives 0 (item.Failed cause)) self.old acts.new.items self.new) }
        ensures room { acts.new.room ≡ acts.old.room }
        ensures refused { OnErr result ((self.new ≡ self.old) × (acts.new ≡ acts.old)) }
    {
        if self.is_still() {
            return Ok(());
        }
        if self.may_turn() {
            self.note_turn()?;
            self.turn(acts);
        } else {
            self.stop();
        }
        Ok(())
    }

    /// The output was cancelled.
    pub fn on_cancel(&mut self, port: u8, acts: &mut Acts) -> Result<(), NoMemory>
        requires open { self.old.phase ≡ Open }
        requires port { port ≡ 0 }
        requires meets { Meets (cancels 0) (port_state self.old) }
        requires empty { acts.old.items ≡ [] }
        requires room { 4 ≤ acts.old.room }
        ensures answers { IsOk result }
        ensures ports { OnOk result (Obeys (cancels 0) (port_state self.old) (port_state self.new) acts.new.items) }
        ensures gives { OnOk result (Turned (cancels 0) self.old acts.new.items self.new) }
        ensures room { acts.new.room ≡ acts.old.room }
    {
        if self.is_still() {
            return Ok(());
        }
        self.leave(port, acts);
        Ok(())
    }

    fn is_still(&self) -> bool
        ensures { result ≡ self.now.still }
    {
        self.still
    }

    fn is_over(&self) -> bool
        ensures { result ≡ self.now.over }
    {
        self.over
    }

    // The output is asked, and so the input.
    fn ask(&mut self, port: u8, acts: &mut Acts)
        requires empty { acts.old.items ≡ [] }
        requires room { 4 ≤ acts.old.room }
        ensures stage { self.new ≡ record self.old { asked = true } }
        ensures acts { acts.new.items ≡ Pull port ∷ [] }
        ensures room { acts.new.room ≡ acts.old.room }
    {
        self.asked = true;
        acts.add(Act::Pull(port));
    }

    // One more element passes.
    fn count(&mut self) -> Result<(), NoMemory>
        ensures stage { OnOk result (self.new ≡ record self.old { passed = self.old.passed + 1; asked = false }) }
        ensures refused { OnErr result (self.new ≡ self.old) }
    {
        self.passed = one_more_small(self.passed)?;
        self.asked = false;
        Ok(())
    }

    fn complete(&mut self, port: u8, acts: &mut Acts)
        requires empty { acts.old.items ≡ [] }
        requires room { 4 ≤ acts.old.room }
        ensures stage { self.new ≡ record self.old { phase = Closed } }
        ensures acts { acts.new.items ≡ Complete port ∷ [] }
        ensures room { acts.new.room ≡ acts.old.room }
    {
        acts.add(Act::Complete(port));
        self.phase = Phase::Closed;
    }

    // How many elements passed is noted. It takes memory for the move alone; where that is refused, all is as before.
    fn note_turn(&mut self) -> Result<(), NoMemory>
        requires next { MayNote self.old.passed self.old.left }
        ensures noted { OnOk result (self.new ≡ turn_noted self.old) }
        ensures refused { OnErr result (self.new ≡ self.old) }
    {
        self.log.reserve()?;
        self.log.note(self.passed);
        Ok(())
    }

    // The input has failed: its own element is given where the output is asked.
    fn turn(&mut self, acts: &mut Acts)
        requires own { self.old.own ≢ None }
        requires empty { acts.old.items ≡ [] }
        requires room { 4 ≤ acts.old.room }
        ensures waits { self.old.asked ≡ false → (self.new ≡ record self.old { over = true }) × (acts.new.items ≡ []) }
        ensures stage { self.old.asked ≡ true → self.new ≡ record self.old { over = true; phase = Closed; own = None } }
        ensures acts { self.old.asked ≡ true → IfSome self.old.own (λ t. acts.new.items ≡ Push 0 t ∷ Complete 0 ∷ []) }
        ensures room { acts.new.room ≡ acts.old.room }
    {
        self.over = true;
        if self.asked {
            self.give_own(acts);
        }
    }

    // The output was cancelled: so is the input, where it is not over.
    fn leave(&mut self, port: u8, acts: &mut Acts)
        requires empty { acts.old.items ≡ [] }
        requires room { 4 ≤ acts.old.room }
        ensures stage { self.new ≡ record self.old { phase = Closed } }
        ensures going { self.old.over ≡ false → acts.new.items ≡ Cancel port ∷ [] }
        ensures over { self.old.over ≡ true → acts.new.items ≡ [] }
        ensures room { acts.new.room ≡ acts.old.room }
    {
        if !self.over {
            acts.add(Act::Cancel(port));
        }
        self.phase = Phase::Closed;
    }

    // As many elements have passed as the next move says.
    fn is_full(&self) -> bool
        ensures { result ≡ is_full (next_move self.now.left) self.now.passed }
    {
        match self.log.next() {
            Next::Move(k) => k == self.passed,
            Next::Free | Next::UsedUp => false,
        }
    }

    // No move is to be made.
    fn may_end(&self) -> bool
        ensures { result ≡ may_end (next_move self.now.left) }
    {
        !matches!(self.log.next(), Next::Move(_))
    }

    // A failure may be turned into its own element here.
    fn may_turn(&self) -> bool
        ensures { result ≡ may_turn (next_move self.now.left) self.now.passed }
    {
        match self.log.next() {
            Next::Free => true,
            Next::Move(k) => k == self.passed,
            Next::UsedUp => false,
        }
    }

    // It does nothing more. Where a move was to be made, that is marked.
    fn stop(&mut self)
        ensures { self.new ≡ stopped self.old }
    {
        if let Next::Move(_) = self.log.next() {
            self.log.misfit();
        }
        self.still = true;
    }

    // Gives its own element, and completes.
    fn give_own(&mut self, acts: &mut Acts)
        requires own { self.old.own ≢ None }
        requires empty { acts.old.items ≡ [] }
        requires room { 4 ≤ acts.old.room }
        ensures stage { self.new ≡ record self.old { phase = Closed; own = None } }
        ensures acts { IfSome self.old.own (λ t. acts.new.items ≡ Push 0 t ∷ Complete 0 ∷ []) }
        ensures room { acts.new.room ≡ acts.old.room }
    {
        match self.own.take() {
            Some(own) => {
                acts.add(Act::Push(0, own));
                acts.add(Act::Complete(0));
            }
            None => unreachable!(),
        }
        self.phase = Phase::Closed;
    }

    /// The run is over: the log of its moves. It takes no memory.
    pub fn close(self) -> PickLog
        ensures moves { result.moves ≡ self.moves }
        ensures left { result.left ≡ self.left }
        ensures stuck { result.stuck ≡ self.stuck }
    {
        self.log
    }
}
