ghost use Rattle.std.specs.Prelude.{◌≡◌, ◌≤◌, ◌+◌, [], ◌∷◌, true, false, OnOk, OnErr, IfOk, vec_len};
ghost use Rattle.elem_core.specs.declared.item.Item.TheVariants as item;
ghost use Rattle.std.specs.Arc.{arc_value};
ghost use Rattle.port_core.specs.Picks.{next_move, may_end};
ghost use Rattle.port_core.specs.declared.act.Act.TheVariants.{Push, Complete, FailOut, Cancel};
ghost use Rattle.port_core.specs.Call.{Obeys, Meets, starts, pulls, arrives, cancels};
ghost use Rattle.stage_core.specs.declared.phase.Phase.TheVariants.{New, Open, Closed};
ghost use Rattle.stream_model.specs.Picks.{acted};
ghost use Rattle.stage_switch.specs.States.{IsUnused, SeatBy, valve_port_state, order_number, numbered_order, moves_by, new_valve_of, follows_order, IsDue, watched, stop_acts, ValveTurned};

use crate::end::SwitchEnd;
use crate::order::Order;
use crate::seat::SwitchSeat;
use elem_core::count::one_more_small;
use elem_core::elem::Elem;
use elem_core::why::{Cause, NoMemory, Why};
use port_core::act::Act;
use port_core::acts::Acts;
use port_core::pick_log::{Next, PickLog};
use stage_core::phase::Phase;
use std::alloc::Global;
use std::marker::Model;

// Choice: docs/DECISIONS.md#valve-acts-at-a-call
/// The logic of a valve: it passes on what comes, until it finds an order at its switch. It looks at its start and in each
/// handler before all else. Where an order stands it acts by it: Shutdown completes its output, Abort fails it, and both
/// cancel its input. It notes the order and how many elements passed before. One that follows moves never looks: it acts by their
/// order where as many passed as they say, and stops where its input is over before. Rule: Akka Streams 2.6 reference, kill
/// switches; that it looks in its handlers is own.
#[derive(Drop)]
pub struct Valve {
    node: u32,
    end: SwitchEnd,
    log: PickLog,
    passed: u32,
    phase: Phase,
}

impl Model for Valve {
    ghost use Rattle.std.specs.Coded.{codes};
    ghost use Rattle.std.specs.Arc.{arc_value};
    ghost use Rattle.atomic_table.specs.Seated.{table_id_coded};
    ghost use Rattle.stage_switch.specs.States.{Valve, SeatBy};

    ghost Value = { Valve };

    ghost coded = { Prim.hlevel (codes, table_id_coded) };

    ghost view = { λ l. record {
      phase = l.phase;
      node = l.node;
      passed = l.passed;
      moves = l.log.moves;
      left = l.log.left;
      stuck = l.log.stuck;
      switch = arc_value l.end.switch;
      seat = l.end.seat;
    } };

    ghost invariant = { λ l. SeatBy l.log.left (arc_value l.end.switch) l.end.seat l.log.moves };
}

impl Valve {
    /// The valve of node `stage`, with a seat of its own at its switch, which gave nothing and knows nothing. It takes no
    /// memory.
    pub fn new(alloc: Global, stage: u32, end: SwitchEnd) -> Valve
        requires seat { IsUnused (arc_value end.switch) end.seat }
        ensures { result ≡ new_valve_of stage (arc_value end.switch) end.seat }
    {
        Valve {
            node: stage,
            end,
            log: PickLog::new(alloc),
            passed: 0,
            phase: Phase::New,
        }
    }

    /// From now on a new valve follows these moves: none, or an order and how many elements pass before it. It takes no memory.
    pub fn follow(&mut self, moves: Vec<u32>)
        requires new { self.old ≡ new_valve_of self.old.node self.old.switch self.old.seat }
        requires few { vec_len moves ≤ 2 }
        requires formed { moves.items ≡ moves_by (acted moves.items) }
        ensures { self.new ≡ follows_order moves.items self.old }
    {
        self.log = PickLog::follow(moves);
    }

    // Finds an order: where it makes its own choices it looks at the switch; where it follows moves, it takes the next ones once as many
    // elements passed as they say. An order that is found is noted, with how many elements passed before.
    #[inline(always)]
    #[tactic(auto, using(crate::proofs::Following::notes_next, crate::proofs::Following::notes_second, crate::proofs::Following::watched_free, crate::proofs::Following::watched_due, crate::proofs::Following::watched_none, crate::proofs::Following::due_now, crate::proofs::Following::due_later, crate::proofs::Following::due_never, crate::proofs::Following::seat_moved, crate::proofs::Following::seat_free))]
    fn watch(&mut self) -> Result<Option<Order>, NoMemory>
        requires { self.old.moves ≡ [] }
        ensures found { IfOk result (λ o. self.new ≡ watched self.old o) }
        ensures due { IfOk result (λ o. IsDue self.old.left self.old.passed o) }
        ensures valve { OnOk result (SeatBy self.new.left self.new.switch self.new.seat self.new.moves) }
        ensures refused { OnErr result (self.new ≡ self.old) }
    {
        self.log.reserve()?;
        match self.log.next() {
            Next::Free => {
                let SwitchEnd { switch, seat } = &mut self.end;
                let found = switch.look(seat);
                if let Some(order) = found {
                    self.log.note(move_of(order));
                    self.log.note(self.passed);
                }
                Ok(found)
            }
            Next::Move(order) => match self.log.second() {
                Some(count) if count == self.passed => {
                    self.log.note(order);
                    self.log.note(count);
                    Ok(Some(order_of(order)))
                }
                _ => Ok(None),
            },
            Next::UsedUp => Ok(None),
        }
    }

    // Acts by an order.
    fn stop(&mut self, order: Order, cancels: bool, acts: &mut Acts)
        requires empty { acts.old.items ≡ [] }
        requires room { 4 ≤ acts.old.room }
        ensures acts { acts.new.items ≡ stop_acts self.old.node order cancels }
        ensures room { acts.new.room ≡ acts.old.room }
        ensures closed { self.new ≡ record self.old { phase = Closed } }
    {
        acts.add(match order {
            Order::Shutdown => Act::Complete(0),
            Order::Abort => Act::FailOut(
                0,
                Cause {
                    stage: self.node,
                    nth: 0,
                    why: Why::Aborted,
                },
            ),
        });
        if cancels {
            acts.add(Act::Cancel(0));
        }
        self.phase = Phase::Closed;
    }

    /// The run begins. As each call of a handler, it takes memory for the moves alone, and before it looks: where that is refused,
    /// all is as before.
    pub fn start(&mut self, acts: &mut Acts) -> Result<(), NoMemory>
        requires new { self.old.phase ≡ New }
        requires meets { Meets starts (valve_port_state self.old) }
        requires empty { acts.old.items ≡ [] }
        requires room { 4 ≤ acts.old.room }
        ensures ports { OnOk result (Obeys starts (valve_port_state self.old) (valve_port_state self.new) acts.new.items) }
        ensures gives { OnOk result (ValveTurned starts self.old acts.new.items self.new) }
        ensures room { acts.new.room ≡ acts.old.room }
        ensures refused { OnErr result ((self.new ≡ self.old) × (acts.new ≡ acts.old)) }
    {
        if self.is_stuck() {
            return Ok(());
        }
        let found = self.watch()?;
        match found {
            None => self.open(),
            Some(order) => self.stop(order, true, acts),
        }
        Ok(())
    }

    /// The output was asked.
    pub fn on_pull(&mut self, acts: &mut Acts) -> Result<(), NoMemory>
        requires open { self.old.phase ≡ Open }
        requires meets { Meets (pulls 0) (valve_port_state self.old) }
        requires empty { acts.old.items ≡ [] }
        requires room { 4 ≤ acts.old.room }
        ensures ports { OnOk result (Obeys (pulls 0) (valve_port_state self.old) (valve_port_state self.new) acts.new.items) }
        ensures gives { OnOk result (ValveTurned (pulls 0) self.old acts.new.items self.new) }
        ensures room { acts.new.room ≡ acts.old.room }
        ensures refused { OnErr result ((self.new ≡ self.old) × (acts.new ≡ acts.old)) }
    {
        if self.is_stuck() {
            return Ok(());
        }
        let found = self.watch()?;
        match found {
            None => acts.add(Act::Pull(0)),
            Some(order) => self.stop(order, true, acts),
        }
        Ok(())
    }

    /// An element came. It passes, or it is dropped by an order that stands. Where 2^32 - 1 have passed, which no run has units for,
    /// it answers want of memory, and all is as before.
    pub fn on_push(&mut self, e: Elem, acts: &mut Acts) -> Result<(), NoMemory>
        requires open { self.old.phase ≡ Open }
        requires meets { Meets (arrives 0 (item.Elem e)) (valve_port_state self.old) }
        requires empty { acts.old.items ≡ [] }
        requires room { 4 ≤ acts.old.room }
        ensures ports { OnOk result (Obeys (arrives 0 (item.Elem e)) (valve_port_state self.old) (valve_port_state self.new) acts.new.items) }
        ensures gives { OnOk result (ValveTurned (arrives 0 (item.Elem e)) self.old acts.new.items self.new) }
        ensures room { acts.new.room ≡ acts.old.room }
        ensures refused { OnErr result ((self.new ≡ self.old) × (acts.new ≡ acts.old)) }
    {
        if self.is_stuck() {
            return Ok(());
        }
        let passed = self.one_more()?;
        let found = self.watch()?;
        match found {
            None => self.pass(passed, e, acts),
            Some(order) => self.stop(order, true, acts),
        }
        Ok(())
    }

    /// The input has ended. One that follows moves and cannot make them any more stops, and marks that.
    pub fn on_finish(&mut self, acts: &mut Acts) -> Result<(), NoMemory>
        requires open { self.old.phase ≡ Open }
        requires meets { Meets (arrives 0 item.Ended) (valve_port_state self.old) }
        requires empty { acts.old.items ≡ [] }
        requires room { 4 ≤ acts.old.room }
        ensures ports { OnOk result (Obeys (arrives 0 item.Ended) (valve_port_state self.old) (valve_port_state self.new) acts.new.items) }
        ensures gives { OnOk result (ValveTurned (arrives 0 item.Ended) self.old acts.new.items self.new) }
        ensures room { acts.new.room ≡ acts.old.room }
        ensures refused { OnErr result ((self.new ≡ self.old) × (acts.new ≡ acts.old)) }
    {
        if self.is_stuck() {
            return Ok(());
        }
        let found = self.watch()?;
        match found {
            None => self.finish(acts),
            Some(order) => self.stop(order, false, acts),
        }
        Ok(())
    }

    /// The input has failed. One that follows moves and cannot make them any more stops, and marks that.
    pub fn on_fail(&mut self, cause: Cause, acts: &mut Acts) -> Result<(), NoMemory>
        requires open { self.old.phase ≡ Open }
        requires meets { Meets (arrives 0 (item.Failed cause)) (valve_port_state self.old) }
        requires empty { acts.old.items ≡ [] }
        requires room { 4 ≤ acts.old.room }
        ensures ports { OnOk result (Obeys (arrives 0 (item.Failed cause)) (valve_port_state self.old) (valve_port_state self.new) acts.new.items) }
        ensures gives { OnOk result (ValveTurned (arrives 0 (item.Failed cause)) self.old acts.new.items self.new) }
        ensures room { acts.new.room ≡ acts.old.room }
        ensures refused { OnErr result ((self.new ≡ self.old) × (acts.new ≡ acts.old)) }
    {
        if self.is_stuck() {
            return Ok(());
        }
        let found = self.watch()?;
        match found {
            None => self.fail(cause, acts),
            Some(order) => self.stop(order, false, acts),
        }
        Ok(())
    }

    /// The output was cancelled. An order that is found is noted, though there is nothing left to close but the input.
    pub fn on_cancel(&mut self, acts: &mut Acts) -> Result<(), NoMemory>
        requires open { self.old.phase ≡ Open }
        requires meets { Meets (cancels 0) (valve_port_state self.old) }
        requires empty { acts.old.items ≡ [] }
        requires room { 4 ≤ acts.old.room }
        ensures ports { OnOk result (Obeys (cancels 0) (valve_port_state self.old) (valve_port_state self.new) acts.new.items) }
        ensures gives { OnOk result (ValveTurned (cancels 0) self.old acts.new.items self.new) }
        ensures room { acts.new.room ≡ acts.old.room }
        ensures refused { OnErr result ((self.new ≡ self.old) × (acts.new ≡ acts.old)) }
    {
        if self.is_stuck() {
            return Ok(());
        }
        let _found = self.watch()?;
        self.leave(acts);
        Ok(())
    }

    // It does nothing more.
    fn is_stuck(&self) -> bool
        ensures stuck { result ≡ self.now.stuck }
        ensures well { SeatBy self.now.left self.now.switch self.now.seat self.now.moves }
    {
        self.log.is_stuck()
    }

    fn open(&mut self)
        ensures { self.new ≡ record self.old { phase = Open } }
    {
        self.phase = Phase::Open;
    }

    // How many passed with one more.
    fn one_more(&self) -> Result<u32, NoMemory>
        ensures { IfOk result (λ n. n ≡ self.now.passed + 1) }
    {
        one_more_small(self.passed)
    }

    // An element passes, with which so many did.
    fn pass(&mut self, passed: u32, e: Elem, acts: &mut Acts)
        requires empty { acts.old.items ≡ [] }
        requires room { 4 ≤ acts.old.room }
        ensures stage { self.new ≡ record self.old { passed = passed } }
        ensures acts { acts.new.items ≡ Push 0 e ∷ [] }
        ensures room { acts.new.room ≡ acts.old.room }
    {
        acts.add(Act::Push(0, e));
        self.passed = passed;
    }

    // The input has ended: so does the output, or where moves are to be made it stops.
    fn finish(&mut self, acts: &mut Acts)
        requires empty { acts.old.items ≡ [] }
        requires room { 4 ≤ acts.old.room }
        ensures ends { may_end (next_move self.old.left) ≡ true → (self.new ≡ record self.old { phase = Closed }) × (acts.new.items ≡ Complete 0 ∷ []) }
        ensures lacks { may_end (next_move self.old.left) ≡ false → (self.new ≡ record self.old { stuck = true }) × (acts.new.items ≡ []) }
        ensures room { acts.new.room ≡ acts.old.room }
    {
        if let Next::Move(_order) = self.log.next() {
            self.log.misfit();
        } else {
            acts.add(Act::Complete(0));
            self.phase = Phase::Closed;
        }
    }

    // The input has failed: so does the output, or where moves are to be made it stops.
    fn fail(&mut self, cause: Cause, acts: &mut Acts)
        requires empty { acts.old.items ≡ [] }
        requires room { 4 ≤ acts.old.room }
        ensures ends { may_end (next_move self.old.left) ≡ true → (self.new ≡ record self.old { phase = Closed }) × (acts.new.items ≡ FailOut 0 cause ∷ []) }
        ensures lacks { may_end (next_move self.old.left) ≡ false → (self.new ≡ record self.old { stuck = true }) × (acts.new.items ≡ []) }
        ensures room { acts.new.room ≡ acts.old.room }
    {
        if let Next::Move(_) = self.log.next() {
            self.log.misfit();
        } else {
            acts.add(Act::FailOut(0, cause));
            self.phase = Phase::Closed;
        }
    }

    // The output was cancelled: so is the input.
    fn leave(&mut self, acts: &mut Acts)
        requires empty { acts.old.items ≡ [] }
        requires room { 4 ≤ acts.old.room }
        ensures stage { self.new ≡ record self.old { phase = Closed } }
        ensures acts { acts.new.items ≡ Cancel 0 ∷ [] }
        ensures room { acts.new.room ≡ acts.old.room }
    {
        acts.add(Act::Cancel(0));
        self.phase = Phase::Closed;
    }

    /// The run is over: the log of its moves and the seat. It takes no memory.
    pub fn close(self) -> (PickLog, SwitchSeat)
        ensures same { (result.0.moves ≡ self.moves) × (result.1 ≡ self.seat) }
        ensures left { result.0.left ≡ self.left }
        ensures stuck { result.0.stuck ≡ self.stuck }
        ensures valve { SeatBy self.left self.switch self.seat self.moves }
    {
        (self.log, self.end.seat)
    }
}

// The order of a number among the moves.
fn order_of(number: u32) -> Order
    ensures { result ≡ numbered_order number }
{
    if number == 1 {
        Order::Shutdown
    } else {
        Order::Abort
    }
}

// The number of an order among the moves.
fn move_of(order: Order) -> u32
    ensures { result ≡ order_number order }
{
    match order {
        Order::Shutdown => 1,
        Order::Abort => 2,
    }
}
