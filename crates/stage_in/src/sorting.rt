ghost use Rattle.std.specs.Prelude.{◌≡◌, ◌≤◌, ◌<◌, ◌+◌, ◌∷◌, ◌++◌, [], length, OnOk, IfOk, IsOk, IfSome, IfNone, is_none, Some, None, true, false, if◌then◌else◌};
ghost use Rattle.elem_core.specs.declared.item.Item.TheVariants as item;
ghost use Rattle.port_core.specs.declared.act.Act.TheVariants as act;
ghost use Rattle.port_core.specs.Call.{Obeys, Meets, starts, pulls, arrives, cancels};
ghost use Rattle.stage_core.specs.declared.phase.Phase.TheVariants.{New, Open, Closed};
ghost use Rattle.stage_core.specs.Seats.{room_for};
ghost use Rattle.stage_in.specs.Pairings.{Does, new_pair, placed, without, closing};
ghost use Rattle.stage_in.specs.Sortings.{port_state, Turned, next_side, is_used_up, held_at, taken, over_at, number, behind_element, behind_acts, give, give_acts, ended, ended_acts};

use crate::inlet::Side;
use crate::pairing::Pairing;
use elem_core::elem::Elem;
use elem_core::why::{Cause, NoMemory};
use port_core::act::Act;
use port_core::acts::Acts;
use stage_core::phase::Phase;
use std::cmp::Ordering;
use std::marker::Model;

/// The logic of a merge_sorted. It asks both inputs at its start. Where every input that has not ended has an element and the
/// output is asked, it gives the lesser, on a tie that of input 0, and asks that input again. Rule: Akka Streams 2.6
/// reference; the tie is own.
#[derive(Drop)]
pub struct Sorting {
    pair: Pairing,
}

impl Model for Sorting {
    ghost use Rattle.std.specs.Coded.{codes};
    ghost use Rattle.elem_core.specs.TreeCode.{tree_coded};
    ghost use Rattle.stage_in.specs.Pairings.{Pairing};

    ghost Value = { Pairing };

    ghost coded = { Prim.hlevel (codes, tree_coded) };

    ghost view = { λ l. l.pair };
}

impl Sorting {
    /// A merge_sorted to which nothing came.
    pub fn new() -> Sorting
        ensures { result ≡ new_pair }
    {
        Sorting {
            pair: Pairing::new(),
        }
    }

    /// The run begins.
    pub fn start(&mut self, acts: &mut Acts) -> Result<(), NoMemory>
        requires new { self.old.phase ≡ New }
        requires meets { Meets starts (port_state self.old) }
        requires empty { acts.old.items ≡ [] }
        requires room { room_for 2 ≤ acts.old.room }
        ensures answers { IsOk result }
        ensures ports { OnOk result (Obeys starts (port_state self.old) (port_state self.new) acts.new.items) }
        ensures gives { OnOk result (Turned starts self.old acts.new.items self.new) }
        ensures room { acts.new.room ≡ acts.old.room }
    {
        self.pair.begin(acts);
        Ok(())
    }

    /// The output was asked.
    pub fn on_pull(&mut self, acts: &mut Acts) -> Result<(), NoMemory>
        requires open { self.old.phase ≡ Open }
        requires meets { Meets (pulls 0) (port_state self.old) }
        requires empty { acts.old.items ≡ [] }
        requires room { room_for 2 ≤ acts.old.room }
        ensures answers { IsOk result }
        ensures ports { OnOk result (Obeys (pulls 0) (port_state self.old) (port_state self.new) acts.new.items) }
        ensures gives { OnOk result (Turned (pulls 0) self.old acts.new.items self.new) }
        ensures room { acts.new.room ≡ acts.old.room }
    {
        self.pair.want();
        self.give_next(acts);
        Ok(())
    }

    /// An element came.
    pub fn on_push(&mut self, port: u8, e: Elem, acts: &mut Acts) -> Result<(), NoMemory>
        requires open { self.old.phase ≡ Open }
        requires meets { Meets (arrives port (item.Elem e)) (port_state self.old) }
        requires empty { acts.old.items ≡ [] }
        requires room { room_for 2 ≤ acts.old.room }
        ensures answers { IsOk result }
        ensures ports { OnOk result (Obeys (arrives port (item.Elem e)) (port_state self.old) (port_state self.new) acts.new.items) }
        ensures gives { OnOk result (Turned (arrives port (item.Elem e)) self.old acts.new.items self.new) }
        ensures room { acts.new.room ≡ acts.old.room }
    {
        self.pair.place(port, e);
        self.give_next(acts);
        Ok(())
    }

    /// An input has ended.
    pub fn on_finish(&mut self, port: u8, acts: &mut Acts) -> Result<(), NoMemory>
        requires open { self.old.phase ≡ Open }
        requires meets { Meets (arrives port item.Ended) (port_state self.old) }
        requires empty { acts.old.items ≡ [] }
        requires room { room_for 2 ≤ acts.old.room }
        ensures answers { IsOk result }
        ensures ports { OnOk result (Obeys (arrives port item.Ended) (port_state self.old) (port_state self.new) acts.new.items) }
        ensures gives { OnOk result (Turned (arrives port item.Ended) self.old acts.new.items self.new) }
        ensures room { acts.new.room ≡ acts.old.room }
    {
        self.finish(port, acts);
        Ok(())
    }

    /// An input has failed, which fails the stage.
    pub fn on_fail(&mut self, port: u8, cause: Cause, acts: &mut Acts) -> Result<(), NoMemory>
        requires open { self.old.phase ≡ Open }
        requires meets { Meets (arrives port (item.Failed cause)) (port_state self.old) }
        requires empty { acts.old.items ≡ [] }
        requires room { room_for 2 ≤ acts.old.room }
        ensures answers { IsOk result }
        ensures ports { OnOk result (Obeys (arrives port (item.Failed cause)) (port_state self.old) (port_state self.new) acts.new.items) }
        ensures gives { OnOk result (Turned (arrives port (item.Failed cause)) self.old acts.new.items self.new) }
        ensures room { acts.new.room ≡ acts.old.room }
    {
        self.pair.fail(port, cause, acts);
        Ok(())
    }

    /// The output was cancelled.
    pub fn on_cancel(&mut self, acts: &mut Acts) -> Result<(), NoMemory>
        requires open { self.old.phase ≡ Open }
        requires meets { Meets (cancels 0) (port_state self.old) }
        requires empty { acts.old.items ≡ [] }
        requires room { room_for 2 ≤ acts.old.room }
        ensures answers { IsOk result }
        ensures ports { OnOk result (Obeys (cancels 0) (port_state self.old) (port_state self.new) acts.new.items) }
        ensures gives { OnOk result (Turned (cancels 0) self.old acts.new.items self.new) }
        ensures room { acts.new.room ≡ acts.old.room }
    {
        self.pair.leave(acts);
        Ok(())
    }

    // The next element goes out, where there is one and the output is asked.
    fn give_next(&mut self, acts: &mut Acts)
        requires empty { acts.old.items ≡ [] }
        requires room { 6 ≤ acts.old.room }
        ensures does { Does self.new acts.new.items (give self.old) (give_acts self.old) }
        ensures room { acts.new.room ≡ acts.old.room }
    {
        if !self.pair.asked {
            return;
        }
        if let Some(side) = self.next_side() {
            if let Some(e) = self.take(side) {
                acts.add(Act::Push(0, e));
            }
            self.go_on(side, acts);
        }
    }

    // The input whose element goes out next.
    fn next_side(&self) -> Option<Side>
        ensures { result ≡ next_side self.now }
    {
        match (&self.pair.left.held, &self.pair.right.held) {
            (Some(x), Some(y)) => Some(if y.compare(x) == Ordering::Less {
                Side::Second
            } else {
                Side::First
            }),
            (Some(_), None) if self.pair.right.over => Some(Side::First),
            (None, Some(_)) if self.pair.left.over => Some(Side::Second),
            _ => None,
        }
    }

    // What waits of an input; then the output is asked no more.
    fn take(&mut self, side: Side) -> Option<Elem>
        ensures stage { self.new ≡ taken side self.old }
        ensures first { result ≡ held_at side self.old }
    {
        self.pair.asked = false;
        match side {
            Side::First => self.pair.left.held.take(),
            Side::Second => self.pair.right.held.take(),
        }
    }

    fn is_used_up(&self) -> bool
        ensures { result ≡ is_used_up self.now }
    {
        self.pair.left.over
            && self.pair.left.held.is_none()
            && self.pair.right.over
            && self.pair.right.held.is_none()
    }

    // An element of this input went out.
    fn go_on(&mut self, side: Side, acts: &mut Acts)
        requires room { length acts.old.items + 3 ≤ acts.old.room }
        ensures stage { self.new ≡ behind_element self.old }
        ensures acts { acts.new ≡ record acts.old { items = acts.old.items ++ behind_acts side self.old } }
    {
        if self.is_used_up() {
            self.complete(acts);
        } else {
            self.ask_again(side, acts);
        }
    }

    fn complete(&mut self, acts: &mut Acts)
        requires room { length acts.old.items + 3 ≤ acts.old.room }
        ensures stage { self.new ≡ record self.old { phase = Closed } }
        ensures acts { acts.new ≡ record acts.old { items = acts.old.items ++ act.Complete 0 ∷ [] } }
    {
        self.pair.phase = Phase::Closed;
        acts.add(Act::Complete(0));
    }

    fn ask_again(&self, side: Side, acts: &mut Acts)
        requires room { length acts.old.items + 3 ≤ acts.old.room }
        ensures { acts.new ≡ record acts.old { items = acts.old.items ++ (if over_at side self.now then [] else act.Pull (number side) ∷ []) } }
    {
        match side {
            Side::First => {
                if !self.pair.left.over {
                    acts.add(Act::Pull(0));
                }
            }
            Side::Second => {
                if !self.pair.right.over {
                    acts.add(Act::Pull(1));
                }
            }
        }
    }

    // An input has ended: the stage does too, where both are used up, or what waits of the other goes out.
    fn finish(&mut self, port: u8, acts: &mut Acts)
        requires empty { acts.old.items ≡ [] }
        requires room { 6 ≤ acts.old.room }
        ensures does { Does self.new acts.new.items (ended (without port self.old)) (ended_acts (without port self.old)) }
        ensures room { acts.new.room ≡ acts.old.room }
    {
        self.pair.end_input(port);
        if self.is_used_up() {
            self.complete(acts);
        } else {
            self.give_next(acts);
        }
    }
}
