ghost use Rattle.std.specs.Prelude.{◌≡◌, ◌≤◌, ◌+◌, ◌∷◌, ◌++◌, [], length, true};
ghost use Rattle.port_core.specs.declared.act.Act.TheVariants as act;
ghost use Rattle.stage_core.specs.declared.phase.Phase.TheVariants.{Open, Closed};
ghost use Rattle.stage_in.specs.Pairings.{Does, new_pair, placed, without, closing};

use crate::inlet::Inlet;
use elem_core::elem::Elem;
use elem_core::why::Cause;
use port_core::act::Act;
use port_core::acts::Acts;
use stage_core::phase::Phase;
use std::marker::Model;

// Choice: docs/DECISIONS.md#sorting-and-zipping
/// The state of a stage that asks both of two inputs, as a zip and a merge_sorted do, and what both do alike.
#[derive(Drop)]
pub struct Pairing {
    pub phase: Phase,
    pub left: Inlet,
    pub right: Inlet,
    pub asked: bool,
}

impl Model for Pairing {
    ghost use Rattle.std.specs.Coded.{codes};
    ghost use Rattle.elem_core.specs.TreeCode.{tree_coded};
    ghost use Rattle.stage_in.specs.Pairings.{Pairing};

    ghost Value = { Pairing };

    ghost coded = { Prim.hlevel (codes, tree_coded) };

    ghost view = { λ l. record { phase = l.phase; left = l.left; right = l.right; asked = l.asked } };
}

impl Pairing {
    /// One to which nothing came.
    pub fn new() -> Pairing
        ensures { result ≡ new_pair }
    {
        Pairing {
            phase: Phase::New,
            left: Inlet {
                held: None,
                over: false,
            },
            right: Inlet {
                held: None,
                over: false,
            },
            asked: false,
        }
    }

    /// Both inputs are asked.
    pub fn begin(&mut self, acts: &mut Acts)
        requires empty { acts.old.items ≡ [] }
        requires room { 6 ≤ acts.old.room }
        ensures does { Does self.new acts.new.items (record self.old { phase = Open }) (act.Pull 0 ∷ act.Pull 1 ∷ []) }
        ensures room { acts.new.room ≡ acts.old.room }
    {
        self.phase = Phase::Open;
        acts.add(Act::Pull(0));
        acts.add(Act::Pull(1));
    }

    /// The output is asked.
    pub fn want(&mut self)
        ensures { self.new ≡ record self.old { asked = true } }
    {
        self.asked = true;
    }

    /// This element waits of an input.
    pub fn place(&mut self, port: u8, e: Elem)
        ensures { self.new ≡ placed port e self.old }
    {
        if port == 0 {
            self.left.held = Some(e);
        } else {
            self.right.held = Some(e);
        }
    }

    /// An input has ended.
    pub fn end_input(&mut self, port: u8)
        ensures { self.new ≡ without port self.old }
    {
        if port == 0 {
            self.left.over = true;
        } else {
            self.right.over = true;
        }
    }

    /// An input has failed.
    pub fn fail(&mut self, port: u8, cause: Cause, acts: &mut Acts)
        requires empty { acts.old.items ≡ [] }
        requires room { 6 ≤ acts.old.room }
        ensures does { Does self.new acts.new.items (record (without port self.old) { phase = Closed })
            (act.FailOut 0 cause ∷ closing (without port self.old)) }
        ensures room { acts.new.room ≡ acts.old.room }
    {
        self.end_input(port);
        self.close(Act::FailOut(0, cause), acts);
    }

    /// The last action at the output; the inputs that have not ended are cancelled.
    pub fn close(&mut self, last: Act, acts: &mut Acts)
        requires room { length acts.old.items + 3 ≤ acts.old.room }
        ensures stage { self.new ≡ record self.old { phase = Closed } }
        ensures acts { acts.new ≡ record acts.old { items = acts.old.items ++ last ∷ closing self.old } }
    {
        acts.add(last);
        self.leave(acts);
    }

    /// The inputs that have not ended are cancelled.
    pub fn leave(&mut self, acts: &mut Acts)
        requires room { length acts.old.items + 2 ≤ acts.old.room }
        ensures stage { self.new ≡ record self.old { phase = Closed } }
        ensures acts { acts.new ≡ record acts.old { items = acts.old.items ++ closing self.old } }
    {
        self.phase = Phase::Closed;
        if !self.left.over {
            acts.add(Act::Cancel(0));
        }
        if !self.right.over {
            acts.add(Act::Cancel(1));
        }
    }
}
