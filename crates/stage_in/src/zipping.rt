ghost use Rattle.std.specs.Prelude.{◌≡◌, ◌≤◌, ◌<◌, ◌+◌, ◌∷◌, ◌++◌, [], length, OnOk, IfOk, IsOk, IfSome, IfNone, is_none, Some, None, true, false};
ghost use Rattle.elem_core.specs.Tree.{both};
ghost use Rattle.elem_core.specs.declared.item.Item.TheVariants as item;
ghost use Rattle.port_core.specs.declared.act.Act.TheVariants as act;
ghost use Rattle.port_core.specs.Call.{Obeys, Meets, starts, pulls, arrives, cancels};
ghost use Rattle.stage_core.specs.declared.phase.Phase.TheVariants.{New, Open, Closed};
ghost use Rattle.stage_core.specs.Seats.{room_for};
ghost use Rattle.stage_in.specs.Pairings.{Does, new_pair, placed, without, closing};
ghost use Rattle.stage_in.specs.Zippings.{port_state, Turned, LacksOne, emptied, held_at, pair, pair_acts, behind_pair, behind_acts, ended_at, ended_acts};

use crate::pairing::Pairing;
use elem_core::elem::{Elem, Form, Pair};
use elem_core::why::{Cause, NoMemory};
use port_core::act::Act;
use port_core::acts::Acts;
use std::alloc::Global;
use std::marker::Model;

/// The logic of a zip. It asks both inputs at its start and after each pair, and gives a pair where both have an element and
/// the output is asked. It completes where an input ends of which no element waits, or behind the pair that uses the last
/// element of an input that has ended. Rule: Akka Streams 2.6 reference.
#[derive(Drop)]
pub struct Zipping {
    pair: Pairing,
}

impl Model for Zipping {
    ghost use Rattle.std.specs.Coded.{codes};
    ghost use Rattle.elem_core.specs.TreeCode.{tree_coded};
    ghost use Rattle.stage_in.specs.Pairings.{Pairing};

    ghost Value = { Pairing };

    ghost coded = { Prim.hlevel (codes, tree_coded) };

    ghost view = { λ l. l.pair };
}

impl Zipping {
    /// A zip to which nothing came.
    pub fn new() -> Zipping
        ensures { result ≡ new_pair }
    {
        Zipping {
            pair: Pairing::new(),
        }
    }

    /// The run begins.
    pub fn start(&mut self, acts: &mut Acts) -> Result<(), NoMemory>
        requires new { self.old.phase ≡ New }
        requires meets { Meets starts (port_state self.old) }
        requires empty { acts.old.items ≡ [] }
        requires room { room_for 2 ≤ acts.old.room }
        ensures answers { IsOk result }
        ensures ports { OnOk result (Obeys starts (port_state self.old) (port_state self.new) acts.new.items) }
        ensures gives { OnOk result (Turned starts self.old acts.new.items self.new) }
        ensures room { acts.new.room ≡ acts.old.room }
    {
        self.pair.begin(acts);
        Ok(())
    }

    /// The output was asked.
    pub fn on_pull(&mut self, alloc: Global, acts: &mut Acts) -> Result<(), NoMemory>
        requires open { self.old.phase ≡ Open }
        requires meets { Meets (pulls 0) (port_state self.old) }
        requires empty { acts.old.items ≡ [] }
        requires room { room_for 2 ≤ acts.old.room }
        ensures ports { OnOk result (Obeys (pulls 0) (port_state self.old) (port_state self.new) acts.new.items) }
        ensures gives { OnOk result (Turned (pulls 0) self.old acts.new.items self.new) }
        ensures room { OnOk result (acts.new.room ≡ acts.old.room) }
    {
        self.pair.want();
        self.give_pair(alloc, acts)
    }

    /// An element came.
    pub fn on_push(
        &mut self,
        alloc: Global,
        port: u8,
        e: Elem,
        acts: &mut Acts,
    ) -> Result<(), NoMemory>
        requires open { self.old.phase ≡ Open }
        requires meets { Meets (arrives port (item.Elem e)) (port_state self.old) }
        requires empty { acts.old.items ≡ [] }
        requires room { room_for 2 ≤ acts.old.room }
        ensures ports { OnOk result (Obeys (arrives port (item.Elem e)) (port_state self.old) (port_state self.new) acts.new.items) }
        ensures gives { OnOk result (Turned (arrives port (item.Elem e)) self.old acts.new.items self.new) }
        ensures room { OnOk result (acts.new.room ≡ acts.old.room) }
    {
        self.pair.place(port, e);
        self.give_pair(alloc, acts)
    }

    /// An input has ended.
    pub fn on_finish(&mut self, port: u8, acts: &mut Acts) -> Result<(), NoMemory>
        requires open { self.old.phase ≡ Open }
        requires meets { Meets (arrives port item.Ended) (port_state self.old) }
        requires empty { acts.old.items ≡ [] }
        requires room { room_for 2 ≤ acts.old.room }
        ensures answers { IsOk result }
        ensures ports { OnOk result (Obeys (arrives port item.Ended) (port_state self.old) (port_state self.new) acts.new.items) }
        ensures gives { OnOk result (Turned (arrives port item.Ended) self.old acts.new.items self.new) }
        ensures room { acts.new.room ≡ acts.old.room }
    {
        self.finish(port, acts);
        Ok(())
    }

    /// An input has failed, which fails the stage.
    pub fn on_fail(&mut self, port: u8, cause: Cause, acts: &mut Acts) -> Result<(), NoMemory>
        requires open { self.old.phase ≡ Open }
        requires meets { Meets (arrives port (item.Failed cause)) (port_state self.old) }
        requires empty { acts.old.items ≡ [] }
        requires room { room_for 2 ≤ acts.old.room }
        ensures answers { IsOk result }
        ensures ports { OnOk result (Obeys (arrives port (item.Failed cause)) (port_state self.old) (port_state self.new) acts.new.items) }
        ensures gives { OnOk result (Turned (arrives port (item.Failed cause)) self.old acts.new.items self.new) }
        ensures room { acts.new.room ≡ acts.old.room }
    {
        self.pair.fail(port, cause, acts);
        Ok(())
    }

    /// The output was cancelled.
    pub fn on_cancel(&mut self, acts: &mut Acts) -> Result<(), NoMemory>
        requires open { self.old.phase ≡ Open }
        requires meets { Meets (cancels 0) (port_state self.old) }
        requires empty { acts.old.items ≡ [] }
        requires room { room_for 2 ≤ acts.old.room }
        ensures answers { IsOk result }
        ensures ports { OnOk result (Obeys (cancels 0) (port_state self.old) (port_state self.new) acts.new.items) }
        ensures gives { OnOk result (Turned (cancels 0) self.old acts.new.items self.new) }
        ensures room { acts.new.room ≡ acts.old.room }
    {
        self.pair.leave(acts);
        Ok(())
    }

    // A pair goes out, where there is one and the output is asked. Behind it both inputs are asked, or the stage ends.
    fn give_pair(&mut self, alloc: Global, acts: &mut Acts) -> Result<(), NoMemory>
        requires empty { acts.old.items ≡ [] }
        requires room { 6 ≤ acts.old.room }
        ensures does { OnOk result (Does self.new acts.new.items (pair self.old) (pair_acts self.old)) }
        ensures room { OnOk result (acts.new.room ≡ acts.old.room) }
    {
        if !self.pair.asked {
            return Ok(());
        }
        if let Some((left, right)) = self.take_both() {
            let value = pair_of(alloc, left, right)?;
            acts.add(Act::Push(0, value));
            self.go_on(acts);
        }
        Ok(())
    }

    // What waits, where both inputs have an element; then the output is asked no more.
    fn take_both(&mut self) -> Option<(Elem, Elem)>
        ensures some { IfSome result (λ p. (self.old.left.held ≡ Some p.0) × ((self.old.right.held ≡ Some p.1) × (self.new ≡ emptied self.old))) }
        ensures none { IfNone result ((self.new ≡ self.old) × LacksOne self.old.left.held self.old.right.held true) }
    {
        match (self.pair.left.held.take(), self.pair.right.held.take()) {
            (Some(left), Some(right)) => {
                self.pair.asked = false;
                Some((left, right))
            }
            (left, right) => {
                self.pair.left.held = left;
                self.pair.right.held = right;
                None
            }
        }
    }

    // A pair went out.
    fn go_on(&mut self, acts: &mut Acts)
        requires room { length acts.old.items + 3 ≤ acts.old.room }
        ensures stage { self.new ≡ behind_pair self.old }
        ensures acts { acts.new ≡ record acts.old { items = acts.old.items ++ behind_acts self.old } }
    {
        if self.pair.left.over || self.pair.right.over {
            self.pair.close(Act::Complete(0), acts);
        } else {
            acts.add(Act::Pull(0));
            acts.add(Act::Pull(1));
        }
    }

    // An input has ended: the stage does too, where no element of it waits.
    fn finish(&mut self, port: u8, acts: &mut Acts)
        requires empty { acts.old.items ≡ [] }
        requires room { 6 ≤ acts.old.room }
        ensures does { Does self.new acts.new.items (ended_at port self.old) (ended_acts port self.old) }
        ensures room { acts.new.room ≡ acts.old.room }
    {
        if self.end_input(port) {
            self.pair.close(Act::Complete(0), acts);
        }
    }

    // An input has ended; whether none of it waits.
    fn end_input(&mut self, port: u8) -> bool
        ensures stage { self.new ≡ without port self.old }
        ensures used { result ≡ is_none (held_at port self.old) }
    {
        if port == 0 {
            self.pair.left.over = true;
            self.pair.left.held.is_none()
        } else {
            self.pair.right.over = true;
            self.pair.right.held.is_none()
        }
    }
}

fn pair_of(alloc: Global, left: Elem, right: Elem) -> Result<Elem, NoMemory>
    ensures { IfOk result (λ e. e ≡ both left right) }
{
    let left = Box::new(alloc, left)?;
    let right = Box::new(alloc, right)?;
    Ok(Elem::of(Form::Both(Pair { left, right })))
}
