ghost use Rattle.std.specs.Prelude.{◌≡◌, ◌≤◌, ◌+◌, [], OnOk, OnErr, IsOk};
ghost use Rattle.std.specs.Arc.{arc_value};
ghost use Rattle.elem_core.specs.declared.item.Item.TheVariants as item;
ghost use Rattle.port_core.specs.Call.{Obeys, Meets, starts, pulls, arrives, cancels};
ghost use Rattle.stage_core.specs.declared.phase.Phase.TheVariants.{New, Open};
ghost use Rattle.stage_switch.specs.States.{IsUnused, IsTrip, trip_port_state, new_trip_of, SeatStepped, TripTurned};

use crate::end::SwitchEnd;
use crate::order::Order;
use crate::seat::SwitchSeat;
use elem_core::count::one_more;
use elem_core::elem::Elem;
use elem_core::why::{Cause, NoMemory};
use port_core::act::Act;
use port_core::acts::Acts;
use stage_core::phase::Phase;
use std::alloc::Global;
use std::marker::Model;

/// The logic of a trip: it passes on what comes, and gives its order when its N-th element comes, before it passes that
/// element on. Akka Streams has no such stage.
#[derive(Drop)]
pub struct Trip {
    node: u32,
    end: SwitchEnd,
    order: Order,
    count: u32,
    taken: u64,
    phase: Phase,
}

impl Model for Trip {
    ghost use Rattle.std.specs.Coded.{codes};
    ghost use Rattle.std.specs.Arc.{arc_value};
    ghost use Rattle.atomic_table.specs.Seated.{table_id_coded};
    ghost use Rattle.elem_core.specs.TreeCode.{tree_coded};
    ghost use Rattle.stage_switch.specs.States.{Trip, IsTrip};

    ghost Value = { Trip };

    ghost coded = { Prim.hlevel (codes, tree_coded, table_id_coded) };

    ghost view = { λ l. record {
      phase = l.phase;
      node = l.node;
      taken = l.taken;
      order = l.order;
      count = l.count;
      switch = arc_value l.end.switch;
      seat = l.end.seat;
    } };

    ghost invariant = { λ l. IsTrip l.order l.count l.taken (arc_value l.end.switch) l.end.seat };
}

impl Trip {
    /// The trip of node `stage`, which gives `order` at its element number `count`, counted from 1, with a seat of its own at
    /// its switch, which gave nothing and knows nothing. It takes no memory.
    pub fn new(stage: u32, order: Order, count: u32, end: SwitchEnd) -> Trip
        requires seat { IsUnused (arc_value end.switch) end.seat }
        requires count { 1 ≤ count }
        ensures { result ≡ new_trip_of stage order count (arc_value end.switch) end.seat }
    {
        Trip {
            node: stage,
            end,
            order,
            count,
            taken: 0,
            phase: Phase::New,
        }
    }

    // One more element came: where it is the one at which the order is given, it is given.
    fn count(&mut self) -> Result<(), NoMemory>
        ensures trip { OnOk result (IsTrip self.new.order self.new.count self.new.taken self.new.switch self.new.seat) }
        ensures counted { OnOk result (self.new ≡ record self.old { taken = self.old.taken + 1; seat = self.new.seat }) }
        ensures at_seat { OnOk result (SeatStepped self.old self.new) }
        ensures refused { OnErr result (self.new ≡ self.old) }
    {
        let taken = one_more(self.taken)?;
        if taken == self.count as u64 {
            let SwitchEnd { switch, seat } = &mut self.end;
            match self.order {
                Order::Shutdown => switch.shutdown(seat),
                Order::Abort => switch.abort(seat),
            };
        }
        self.taken = taken;
        Ok(())
    }

    /// The run begins.
    pub fn start(&mut self, acts: &mut Acts) -> Result<(), NoMemory>
        requires new { self.old.phase ≡ New }
        requires meets { Meets starts (trip_port_state self.old) }
        requires empty { acts.old.items ≡ [] }
        requires room { 4 ≤ acts.old.room }
        ensures answers { IsOk result }
        ensures ports { OnOk result (Obeys starts (trip_port_state self.old) (trip_port_state self.new) acts.new.items) }
        ensures gives { OnOk result (TripTurned starts self.old acts.new.items self.new) }
        ensures room { acts.new.room ≡ acts.old.room }
    {
        self.phase = Phase::Open;
        Ok(())
    }

    /// The output was asked.
    pub fn on_pull(&mut self, acts: &mut Acts) -> Result<(), NoMemory>
        requires open { self.old.phase ≡ Open }
        requires meets { Meets (pulls 0) (trip_port_state self.old) }
        requires empty { acts.old.items ≡ [] }
        requires room { 4 ≤ acts.old.room }
        ensures answers { IsOk result }
        ensures ports { OnOk result (Obeys (pulls 0) (trip_port_state self.old) (trip_port_state self.new) acts.new.items) }
        ensures gives { OnOk result (TripTurned (pulls 0) self.old acts.new.items self.new) }
        ensures room { acts.new.room ≡ acts.old.room }
    {
        let _ = &self.node;
        acts.add(Act::Pull(0));
        Ok(())
    }

    /// An element came. It is counted, the order is given where it is its turn, and it passes. Want of memory is answered alone where there
    /// is no number for it, and then all is as before.
    pub fn on_push(&mut self, e: Elem, acts: &mut Acts) -> Result<(), NoMemory>
        requires open { self.old.phase ≡ Open }
        requires meets { Meets (arrives 0 (item.Elem e)) (trip_port_state self.old) }
        requires empty { acts.old.items ≡ [] }
        requires room { 4 ≤ acts.old.room }
        ensures ports { OnOk result (Obeys (arrives 0 (item.Elem e)) (trip_port_state self.old) (trip_port_state self.new) acts.new.items) }
        ensures gives { OnOk result (TripTurned (arrives 0 (item.Elem e)) self.old acts.new.items self.new) }
        ensures room { acts.new.room ≡ acts.old.room }
        ensures refused { OnErr result ((self.new ≡ self.old) × (acts.new ≡ acts.old)) }
    {
        self.count()?;
        acts.add(Act::Push(0, e));
        Ok(())
    }

    /// The input has ended.
    pub fn on_finish(&mut self, acts: &mut Acts) -> Result<(), NoMemory>
        requires open { self.old.phase ≡ Open }
        requires meets { Meets (arrives 0 item.Ended) (trip_port_state self.old) }
        requires empty { acts.old.items ≡ [] }
        requires room { 4 ≤ acts.old.room }
        ensures answers { IsOk result }
        ensures ports { OnOk result (Obeys (arrives 0 item.Ended) (trip_port_state self.old) (trip_port_state self.new) acts.new.items) }
        ensures gives { OnOk result (TripTurned (arrives 0 item.Ended) self.old acts.new.items self.new) }
        ensures room { acts.new.room ≡ acts.old.room }
    {
        acts.add(Act::Complete(0));
        self.phase = Phase::Closed;
        Ok(())
    }

    /// The input has failed.
    pub fn on_fail(&mut self, cause: Cause, acts: &mut Acts) -> Result<(), NoMemory>
        requires open { self.old.phase ≡ Open }
        requires meets { Meets (arrives 0 (item.Failed cause)) (trip_port_state self.old) }
        requires empty { acts.old.items ≡ [] }
        requires room { 4 ≤ acts.old.room }
        ensures answers { IsOk result }
        ensures ports { OnOk result (Obeys (arrives 0 (item.Failed cause)) (trip_port_state self.old) (trip_port_state self.new) acts.new.items) }
        ensures gives { OnOk result (TripTurned (arrives 0 (item.Failed cause)) self.old acts.new.items self.new) }
        ensures room { acts.new.room ≡ acts.old.room }
    {
        acts.add(Act::FailOut(0, cause));
        self.phase = Phase::Closed;
        Ok(())
    }

    /// The output was cancelled.
    pub fn on_cancel(&mut self, acts: &mut Acts) -> Result<(), NoMemory>
        requires open { self.old.phase ≡ Open }
        requires meets { Meets (cancels 0) (trip_port_state self.old) }
        requires empty { acts.old.items ≡ [] }
        requires room { 4 ≤ acts.old.room }
        ensures answers { IsOk result }
        ensures ports { OnOk result (Obeys (cancels 0) (trip_port_state self.old) (trip_port_state self.new) acts.new.items) }
        ensures gives { OnOk result (TripTurned (cancels 0) self.old acts.new.items self.new) }
        ensures room { acts.new.room ≡ acts.old.room }
    {
        acts.add(Act::Cancel(0));
        self.phase = Phase::Closed;
        Ok(())
    }

    /// The run is over: the seat. It takes no memory.
    pub fn close(self) -> SwitchSeat
        ensures same { result ≡ self.seat }
        ensures trip { IsTrip self.order self.count self.taken self.switch self.seat }
    {
        self.end.seat
    }
}
