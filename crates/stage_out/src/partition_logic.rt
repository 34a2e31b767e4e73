ghost use Rattle.std.specs.Prelude.{◌≡◌, ◌≤◌, ◌<◌, ◌+◌, ◌-◌, ◌==◌, ◌∷◌, ◌++◌, ℕ, [], length, OnOk, IfOk, IsTrue, ◌↔◌, ◌≢◌, true, false, slice_set, slice_index_or, Some, None, if◌then◌else◌, Ok};
ghost use Rattle.elem_core.specs.Answer.{Answers};
ghost use Rattle.elem_core.specs.Values.{map_value, part_of};
ghost use Rattle.port_core.specs.declared.act.Act.TheVariants as act;
ghost use Rattle.stream_model.specs.declared.kind.TheConstants.{MAX_FAN};
ghost use Rattle.stage_core.specs.declared.outs.OutputState.TheVariants.{Quiet, Asks, Gone};
ghost use Rattle.stage_core.specs.Seats.{room_for};
ghost use Rattle.stage_core.specs.OpenOuts.{at_open};
ghost use Rattle.stage_out.specs.PartitionStates.{Parts, pull_by, waits_by, moved_on, moving_acts, TookFor, Noted, AskedOf, Dealt, Served, EndedFor, struck, PassedOver, Lost, with_asks, begun};

use elem_core::count::one_more;
use elem_core::elem::{Elem, Form};
use elem_core::function::{FnEnd, MapFn};
use elem_core::why::{Cause, NoMemory, Why};
use port_core::act::Act;
use port_core::acts::Acts;
use stage_core::outs::{OutputState, complete_open, fail_open, quiet_outs};
use std::alloc::{AllocError, Global};
use std::marker::Model;

// Choice: docs/DECISIONS.md#partition-counts-asks
/// The logic of a partition. It asks its input when an output is asked and it holds nothing; it holds one element for an
/// output that is not asked, and drops one for an output that was cancelled. At an end it gives what it holds, and then
/// ends. Rule: Akka Streams 2.6 reference.
#[derive(Drop)]
pub struct PartitionLogic {
    live: bool,
    node: u32,
    parts: u8,
    fun: MapFn,
    outs: Vec<OutputState>,
    // Outputs that ask, and open outputs.
    asking: u8,
    open_outs: u8,
    // What is held, and the output that it is for.
    to: u8,
    held: Option<Elem>,
    waits: bool,
    over: bool,
    taken: u64,
}

impl Model for PartitionLogic {
    ghost use Rattle.std.specs.Prelude.{vec_items};
    ghost use Rattle.std.specs.Coded.{codes};
    ghost use Rattle.elem_core.specs.TreeCode.{tree_coded};
    ghost use Rattle.stage_out.specs.PartitionStates.{PartitionLogic};

    ghost Value = { PartitionLogic };

    ghost coded = { Prim.hlevel (codes, tree_coded) };

    ghost view = { λ l. record {
      live = l.live;
      node = l.node;
      parts = l.parts;
      fun = l.fun;
      outs = vec_items l.outs;
      asking = l.asking;
      open_outs = l.open_outs;
      to = l.to;
      held = l.held;
      waits = l.waits;
      over = l.over;
      taken = l.taken;
    } };
}

impl PartitionLogic {
    /// The logic of node `stage`, with so many outputs.
    pub fn new(
        alloc: Global,
        stage: u32,
        outputs: u8,
        fun: MapFn,
    ) -> Result<PartitionLogic, NoMemory>
        requires fan { (2 ≤ outputs) × (outputs ≤ MAX_FAN) }
        ensures { IfOk result (λ l. l ≡ begun stage outputs fun) }
    {
        let outs = quiet_outs(alloc, outputs)?;
        Ok(PartitionLogic {
            live: true,
            node: stage,
            parts: outputs,
            fun,
            outs,
            asking: 0,
            open_outs: outputs,
            to: 0,
            held: None,
            waits: false,
            over: false,
            taken: 0,
        })
    }

    // The output is asked: it gets what is held for it.
    pub(crate) fn ask(&mut self, port: u8, acts: &mut Acts)
        requires there { port < length self.old.outs }
        requires few { length self.old.outs ≤ MAX_FAN }
        requires count { self.old.asking ≤ MAX_FAN }
        requires empty { acts.old.items ≡ [] }
        requires room { room_for (length self.old.outs) ≤ acts.old.room }
        ensures does { AskedOf port self.old self.new acts.new.items }
        ensures room { acts.new.room ≡ acts.old.room }
    {
        match self.take_for(port) {
            Some(e) => {
                acts.add(Act::Push(port, e));
                self.move_on(acts);
            }
            None => self.note(port, acts),
        }
    }

    fn take_for(&mut self, port: u8) -> Option<Elem>
        ensures { TookFor port self.old self.new result }
    {
        if self.to == port {
            self.held.take()
        } else {
            None
        }
    }

    // It holds nothing more: it ends where its input has ended, and else goes on.
    fn move_on(&mut self, acts: &mut Acts)
        requires few { length self.old.outs ≤ MAX_FAN }
        requires room { length acts.old.items + length self.old.outs < acts.old.room }
        ensures stage { self.new ≡ moved_on self.old.over self.old }
        ensures acts { acts.new ≡ record acts.old { items = acts.old.items ++ moving_acts self.old.over self.old } }
    {
        if self.over {
            self.complete_all(acts);
        } else {
            self.go_on(acts);
        }
    }

    fn go_on(&mut self, acts: &mut Acts)
        requires room { length acts.old.items < acts.old.room }
        ensures stage { self.new ≡ record self.old { waits = waits_by self.old.asking } }
        ensures acts { acts.new ≡ record acts.old { items = acts.old.items ++ pull_by self.old.asking } }
    {
        if self.asking == 0 {
            self.waits = false;
        } else {
            self.waits = true;
            acts.add(Act::Pull(0));
        }
    }

    fn complete_all(&mut self, acts: &mut Acts)
        requires few { length self.old.outs ≤ MAX_FAN }
        requires room { length acts.old.items + length self.old.outs < acts.old.room }
        ensures stage { self.new ≡ record self.old { live = false } }
        ensures acts { acts.new ≡ record acts.old { items = acts.old.items ++ at_open (λ j. act.Complete j) 0 self.old.outs } }
    {
        complete_open(self.outs.as_slice(), acts);
        self.live = false;
    }

    // The output asks, and nothing is held for it.
    fn note(&mut self, port: u8, acts: &mut Acts)
        requires there { port < length self.old.outs }
        requires count { self.old.asking ≤ MAX_FAN }
        requires empty { acts.old.items ≡ [] }
        requires room { 1 ≤ acts.old.room }
        ensures does { Noted port self.old self.new acts.new.items }
        ensures room { acts.new.room ≡ acts.old.room }
    {
        let first = self.is_idle();
        self.count(port);
        if first {
            self.waits = true;
            acts.add(Act::Pull(0));
        }
    }

    fn count(&mut self, port: u8)
        requires there { port < length self.old.outs }
        requires count { self.old.asking ≤ MAX_FAN }
        ensures stage { self.new ≡ with_asks port self.old }
    {
        self.outs[port as usize] = OutputState::Asks;
        self.asking += 1;
    }

    fn is_idle(&self) -> bool
        ensures { IsTrue result ↔ ((self.now.held ≡ None) × (self.now.waits ≡ false)) }
    {
        match &self.held {
            Some(_) => false,
            None => !self.waits,
        }
    }

    // An element goes to the output that has its number.
    pub(crate) fn serve(&mut self, alloc: Global, e: Elem, acts: &mut Acts) -> Result<(), NoMemory>
        requires few { length self.old.outs ≤ MAX_FAN }
        requires some { (p : ℕ) → slice_index_or self.old.outs p Gone ≡ Asks → 1 ≤ self.old.asking }
        requires parts { 1 ≤ self.old.parts }
        requires empty { acts.old.items ≡ [] }
        requires room { room_for (length self.old.outs) ≤ acts.old.room }
        ensures does { OnOk result (Served e self.old self.new acts.new.items) }
        ensures room { OnOk result (acts.new.room ≡ acts.old.room) }
    {
        let taken = one_more(self.taken)?;
        match self.number_of(alloc, &e) {
            Ok(p) => {
                self.recount(taken);
                self.deal(p, e, acts);
                Ok(())
            }
            Err(FnEnd::Why(why)) => {
                self.blame(taken, why, acts);
                Ok(())
            }
            Err(FnEnd::NoMemory) => Err(AllocError),
        }
    }

    fn recount(&mut self, taken: u64)
        ensures stage { self.new ≡ record self.old { taken = taken } }
    {
        self.taken = taken;
    }

    fn number_of(&self, alloc: Global, e: &Elem) -> Result<u8, FnEnd>
        requires { 1 ≤ self.now.parts }
        ensures { Answers (part_of self.now.parts (map_value self.now.fun e.now)) result }
    {
        let value = self.fun.apply(alloc, e)?;
        match value.form() {
            Form::Num(z) => Ok(z.rem_euclid(self.parts as i64) as u8),
            _ => Err(FnEnd::Why(Why::NotANumber)),
        }
    }

    fn want_of(&self, port: u8) -> OutputState
        ensures { result ≡ slice_index_or self.now.outs port Gone }
    {
        if (port as usize) < self.outs.len() {
            self.outs[port as usize]
        } else {
            OutputState::Gone
        }
    }

    fn deal(&mut self, port: u8, e: Elem, acts: &mut Acts)
        requires some { slice_index_or self.old.outs port Gone ≡ Asks → 1 ≤ self.old.asking }
        requires empty { acts.old.items ≡ [] }
        requires room { 2 ≤ acts.old.room }
        ensures does { Dealt port e self.old self.new acts.new.items }
        ensures room { acts.new.room ≡ acts.old.room }
    {
        match self.want_of(port) {
            OutputState::Asks => {
                self.uncount(port);
                acts.add(Act::Push(port, e));
                self.go_on(acts);
            }
            OutputState::Quiet => self.keep(port, e),
            OutputState::Gone => self.go_on(acts),
        }
    }

    fn uncount(&mut self, port: u8)
        requires there { slice_index_or self.old.outs port Gone ≡ Asks }
        requires some { 1 ≤ self.old.asking }
        ensures stage { self.new ≡ record self.old { outs = slice_set self.old.outs port Quiet; asking = self.old.asking - 1 } }
    {
        self.outs[port as usize] = OutputState::Quiet;
        self.asking -= 1;
    }

    fn keep(&mut self, port: u8, e: Elem)
        ensures stage { self.new ≡ record self.old { to = port; held = Some e; waits = false } }
    {
        self.to = port;
        self.held = Some(e);
        self.waits = false;
    }

    // Element number `taken` is to blame for this.
    // Choice: docs/DECISIONS.md#reasons-fail-all
    fn blame(&mut self, taken: u64, why: Why, acts: &mut Acts)
        requires few { length self.old.outs ≤ MAX_FAN }
        requires empty { acts.old.items ≡ [] }
        requires room { room_for (length self.old.outs) ≤ acts.old.room }
        ensures does { Parts self.new acts.new.items (record self.old { live = false })
            (act.Cancel 0 ∷ at_open (λ j. act.FailOut j (record { stage = self.old.node; nth = taken; why = why })) 0 self.old.outs) }
        ensures room { acts.new.room ≡ acts.old.room }
    {
        let cause = Cause {
            stage: self.node,
            nth: taken,
            why,
        };
        acts.add(Act::Cancel(0));
        self.fail_from(cause, acts);
    }

    pub(crate) fn fail_all(&mut self, cause: Cause, acts: &mut Acts)
        requires few { length self.old.outs ≤ MAX_FAN }
        requires empty { acts.old.items ≡ [] }
        requires room { length self.old.outs < acts.old.room }
        ensures does { Parts self.new acts.new.items (record self.old { live = false }) (at_open (λ j. act.FailOut j cause) 0 self.old.outs) }
        ensures room { acts.new.room ≡ acts.old.room }
    {
        self.fail_from(cause, acts);
    }

    fn fail_from(&mut self, cause: Cause, acts: &mut Acts)
        requires few { length self.old.outs ≤ MAX_FAN }
        requires room { length acts.old.items + length self.old.outs < acts.old.room }
        ensures stage { self.new ≡ record self.old { live = false } }
        ensures acts { acts.new ≡ record acts.old { items = acts.old.items ++ at_open (λ j. act.FailOut j cause) 0 self.old.outs } }
    {
        fail_open(self.outs.as_slice(), cause, acts);
        self.live = false;
    }

    // The input has ended: so does each output, now or once what is held went out.
    // Choice: docs/DECISIONS.md#partition-ends-together
    pub(crate) fn end(&mut self, acts: &mut Acts)
        requires few { length self.old.outs ≤ MAX_FAN }
        requires empty { acts.old.items ≡ [] }
        requires room { length self.old.outs < acts.old.room }
        ensures does { EndedFor self.old self.new acts.new.items }
        ensures room { acts.new.room ≡ acts.old.room }
    {
        if self.holds() {
            self.over = true;
        } else {
            self.complete_all(acts);
        }
    }

    fn holds(&self) -> bool
        ensures { IsTrue result ↔ (self.now.held ≢ None) }
    {
        match &self.held {
            Some(_) => true,
            None => false,
        }
    }

    // The output was cancelled.
    pub(crate) fn lose(&mut self, port: u8, acts: &mut Acts)
        requires there { port < length self.old.outs }
        requires few { length self.old.outs ≤ MAX_FAN }
        requires some { 1 ≤ self.old.open_outs }
        requires asks { slice_index_or self.old.outs port Gone ≡ Asks → 1 ≤ self.old.asking }
        requires empty { acts.old.items ≡ [] }
        requires room { room_for (length self.old.outs) ≤ acts.old.room }
        ensures does { Lost port self.old self.new acts.new.items }
        ensures room { acts.new.room ≡ acts.old.room }
    {
        self.strike(port);
        if self.open_outs == 0 {
            self.leave(acts);
        } else {
            self.pass_over(port, acts);
        }
    }

    fn strike(&mut self, port: u8)
        requires there { port < length self.old.outs }
        requires some { 1 ≤ self.old.open_outs }
        requires asks { slice_index_or self.old.outs port Gone ≡ Asks → 1 ≤ self.old.asking }
        ensures stage { self.new ≡ struck port self.old }
    {
        if self.want_of(port) == OutputState::Asks {
            self.asking -= 1;
        }
        self.outs[port as usize] = OutputState::Gone;
        self.open_outs -= 1;
    }

    fn leave(&mut self, acts: &mut Acts)
        requires empty { acts.old.items ≡ [] }
        requires room { 1 ≤ acts.old.room }
        ensures does { Parts self.new acts.new.items (record self.old { live = false }) (if self.old.over then [] else act.Cancel 0 ∷ []) }
        ensures room { acts.new.room ≡ acts.old.room }
    {
        self.live = false;
        if !self.over {
            acts.add(Act::Cancel(0));
        }
    }

    fn pass_over(&mut self, port: u8, acts: &mut Acts)
        requires few { length self.old.outs ≤ MAX_FAN }
        requires empty { acts.old.items ≡ [] }
        requires room { length self.old.outs < acts.old.room }
        ensures does { PassedOver port self.old self.new acts.new.items }
        ensures room { acts.new.room ≡ acts.old.room }
    {
        if let Some(_e) = self.take_for(port) {
            self.move_on(acts);
        }
    }
}
