ghost use Rattle.std.specs.Prelude.{◌≡◌, ◌≤◌, ◌<◌, ◌+◌, ◌-◌, ◌==◌, ◌∷◌, ◌++◌, [], length, OnOk, IfOk, true, false, slice_get, slice_set, slice_index_or, Some, None, if◌then◌else◌};
ghost use Rattle.port_core.specs.declared.act.Act.TheVariants as act;
ghost use Rattle.stream_model.specs.declared.kind.TheConstants.{MAX_FAN};
ghost use Rattle.stage_core.specs.declared.outs.OutputState.TheVariants.{Quiet, Asks, Gone};
ghost use Rattle.elem_core.specs.Values.{left_half, right_half};
ghost use Rattle.stage_core.specs.OpenOuts.{at_open};
ghost use Rattle.stage_out.specs.Copies.{push_to, push_where, served, served_one};
ghost use Rattle.stage_out.specs.CopyStates.{Does, Lost, part_by, begun};

use elem_core::elem::{Elem, Form};
use elem_core::why::{Cause, NoMemory};
use port_core::act::Act;
use port_core::acts::Acts;
use stage_core::outs::{OutputState, complete_open, fail_open, quiet_outs};
use std::alloc::Global;
use std::marker::Model;

// Choice: docs/DECISIONS.md#broadcast-and-unzip
/// The logic of a broadcast, a broadcast hub or an unzip. It asks its input when every open output is asked, and gives each open output its
/// copy or its half; it passes an end on, and cancels its input when all outputs were cancelled. Rule: Akka Streams 2.6
/// reference.
#[derive(Drop)]
pub struct CopyLogic {
    live: bool,
    halves: bool,
    outs: Vec<OutputState>,
    // Open outputs that nobody asks, and open outputs.
    quiet: u8,
    open_outs: u8,
}

impl Model for CopyLogic {
    ghost use Rattle.std.specs.Prelude.{vec_items};
    ghost use Rattle.std.specs.Coded.{codes};
    ghost use Rattle.stage_out.specs.CopyStates.{CopyLogic};

    ghost Value = { CopyLogic };

    ghost coded = { Prim.hlevel codes };

    ghost view = { λ l. record { live = l.live; halves = l.halves; outs = vec_items l.outs; quiet = l.quiet; open_outs = l.open_outs } };
}

impl CopyLogic {
    /// A broadcast or a broadcast hub with so many outputs, or an unzip, which has two.
    pub fn new(alloc: Global, outputs: u8, halves: bool) -> Result<CopyLogic, NoMemory>
        requires fan { (1 ≤ outputs) × (outputs ≤ MAX_FAN) }
        requires pair { halves ≡ true → outputs ≡ 2 }
        ensures { IfOk result (λ l. l ≡ begun outputs halves) }
    {
        let outs = quiet_outs(alloc, outputs)?;
        Ok(CopyLogic {
            live: true,
            halves,
            outs,
            quiet: outputs,
            open_outs: outputs,
        })
    }

    // The output is asked: where it was the last that was not, the input is asked.
    pub(crate) fn ask(&mut self, port: u8, acts: &mut Acts)
        requires there { port < length self.old.outs }
        requires some { 1 ≤ self.old.quiet }
        requires empty { acts.old.items ≡ [] }
        requires room { 1 ≤ acts.old.room }
        ensures does { Does self.new acts.new.items (record self.old { outs = slice_set self.old.outs port Asks; quiet = self.old.quiet - 1 })
            (if self.old.quiet - 1 == 0 then act.Pull 0 ∷ [] else []) }
        ensures room { acts.new.room ≡ acts.old.room }
    {
        self.outs[port as usize] = OutputState::Asks;
        self.quiet -= 1;
        if self.quiet == 0 {
            acts.add(Act::Pull(0));
        }
    }

    // Each open output gets its part, and is not asked any more.
    pub(crate) fn serve(&mut self, alloc: Global, e: Elem, acts: &mut Acts) -> Result<(), NoMemory>
        requires few { length self.old.outs ≤ MAX_FAN }
        requires pair { self.old.halves ≡ true → length self.old.outs ≡ 2 }
        requires empty { acts.old.items ≡ [] }
        requires room { length self.old.outs ≤ acts.old.room }
        ensures does { OnOk result (Does self.new acts.new.items (record self.old { outs = served self.old.outs; quiet = self.old.open_outs })
            (at_open (λ j. act.Push j (part_by self.old.halves j e)) 0 self.old.outs)) }
        ensures room { OnOk result (acts.new.room ≡ acts.old.room) }
    {
        self.give(alloc, e, acts)?;
        settle(self.outs.as_mut_slice());
        self.quiet = self.open_outs;
        Ok(())
    }

    fn give(&self, alloc: Global, e: Elem, acts: &mut Acts) -> Result<(), NoMemory>
        requires few { length self.now.outs ≤ MAX_FAN }
        requires pair { self.now.halves ≡ true → length self.now.outs ≡ 2 }
        requires room { length acts.old.items + length self.now.outs ≤ acts.old.room }
        ensures acts { OnOk result (acts.new ≡ record acts.old {
          items = acts.old.items
              ++ at_open (λ j. act.Push j (part_by self.now.halves j e)) 0 self.now.outs;
        }) }
    {
        if self.halves {
            self.give_halves(alloc, e, acts)
        } else {
            self.give_copies(alloc, e, acts)
        }
    }

    // The last open output gets the element itself, and each other a copy.
    // Choice: docs/DECISIONS.md#last-output-gets-it
    fn give_copies(&self, alloc: Global, e: Elem, acts: &mut Acts) -> Result<(), NoMemory>
        requires few { length self.now.outs ≤ MAX_FAN }
        requires room { length acts.old.items + length self.now.outs ≤ acts.old.room }
        ensures acts { OnOk result (acts.new ≡ record acts.old { items = acts.old.items ++ at_open (λ j. act.Push j e) 0 self.now.outs }) }
    {
        let outs = self.outs.as_slice();
        let mut last: Option<u8> = None;
        for i in 0..outs.len() {
            if outs[i] != OutputState::Gone {
                give_copy(alloc, last, &e, acts)?;
                last = Some(i as u8);
            }
        }
        if let Some(port) = last {
            acts.add(Act::Push(port, e));
        }
        Ok(())
    }

    fn give_halves(&self, alloc: Global, e: Elem, acts: &mut Acts) -> Result<(), NoMemory>
        requires pair { length self.now.outs ≡ 2 }
        requires room { length acts.old.items + 2 ≤ acts.old.room }
        ensures acts { OnOk result (acts.new ≡ record acts.old { items = acts.old.items ++ at_open (λ j. act.Push j (part_by true j e)) 0 self.now.outs }) }
    {
        let (left, right) = halves_of(alloc, e)?;
        self.give_to(0, left, acts);
        self.give_to(1, right, acts);
        Ok(())
    }

    // The output gets this where it is open.
    fn give_to(&self, port: u8, value: Elem, acts: &mut Acts)
        requires there { port < length self.now.outs }
        requires room { length acts.old.items < acts.old.room }
        ensures acts { acts.new ≡ record acts.old { items = acts.old.items ++ push_where (slice_index_or self.now.outs port Gone) port value } }
    {
        if self.outs[port as usize] != OutputState::Gone {
            acts.add(Act::Push(port, value));
        }
    }

    pub(crate) fn complete_all(&mut self, acts: &mut Acts)
        requires few { length self.old.outs ≤ MAX_FAN }
        requires empty { acts.old.items ≡ [] }
        requires room { length self.old.outs ≤ acts.old.room }
        ensures does { Does self.new acts.new.items (record self.old { live = false }) (at_open (λ j. act.Complete j) 0 self.old.outs) }
        ensures room { acts.new.room ≡ acts.old.room }
    {
        complete_open(self.outs.as_slice(), acts);
        self.live = false;
    }

    pub(crate) fn fail_all(&mut self, cause: Cause, acts: &mut Acts)
        requires few { length self.old.outs ≤ MAX_FAN }
        requires empty { acts.old.items ≡ [] }
        requires room { length self.old.outs ≤ acts.old.room }
        ensures does { Does self.new acts.new.items (record self.old { live = false }) (at_open (λ j. act.FailOut j cause) 0 self.old.outs) }
        ensures room { acts.new.room ≡ acts.old.room }
    {
        fail_open(self.outs.as_slice(), cause, acts);
        self.live = false;
    }

    // The output was cancelled: where it was the last, so is the input; where it was the last that was not asked, the input is asked.
    pub(crate) fn lose(&mut self, port: u8, acts: &mut Acts)
        requires there { port < length self.old.outs }
        requires some { 1 ≤ self.old.open_outs }
        requires quiet { slice_get self.old.outs port ≡ Some Quiet → 1 ≤ self.old.quiet }
        requires empty { acts.old.items ≡ [] }
        requires room { 1 ≤ acts.old.room }
        ensures does { Lost port self.old self.new acts.new.items }
        ensures room { acts.new.room ≡ acts.old.room }
    {
        let was = self.outs[port as usize];
        self.outs[port as usize] = OutputState::Gone;
        self.open_outs -= 1;
        if self.open_outs == 0 {
            self.live = false;
            acts.add(Act::Cancel(0));
        } else if was == OutputState::Quiet {
            self.quiet -= 1;
            if self.quiet == 0 {
                acts.add(Act::Pull(0));
            }
        }
    }
}

// A copy for the output, where there is one.
fn give_copy(alloc: Global, port: Option<u8>, e: &Elem, acts: &mut Acts) -> Result<(), NoMemory>
    requires room { length acts.old.items + length (push_to port e.now) ≤ acts.old.room }
    ensures acts { OnOk result (acts.new ≡ record acts.old { items = acts.old.items ++ push_to port e.now }) }
{
    if let Some(port) = port {
        let value = e.copy(alloc)?;
        acts.add(Act::Push(port, value));
    }
    Ok(())
}

// The halves of a pair; an element that is none is both.
fn halves_of(alloc: Global, e: Elem) -> Result<(Elem, Elem), NoMemory>
    ensures { IfOk result (λ p. (p.0 ≡ left_half e) × (p.1 ≡ right_half e)) }
{
    match e.into_form() {
        Form::Both(pair) => Ok((Box::into_inner(pair.left), Box::into_inner(pair.right))),
        form => twice(alloc, Elem::of(form)),
    }
}

fn twice(alloc: Global, e: Elem) -> Result<(Elem, Elem), NoMemory>
    ensures { IfOk result (λ p. (p.0 ≡ e) × (p.1 ≡ e)) }
{
    let copy = e.copy(alloc)?;
    Ok((copy, e))
}

// No open output is asked any more.
fn settle(outs: &mut [OutputState])
    ensures { outs.new ≡ served outs.old }
{
    for i in 0..outs.len() {
        outs[i] = served_one(outs[i]);
    }
}

fn served_one(want: OutputState) -> OutputState
    ensures { result ≡ served_one want }
{
    match want {
        OutputState::Gone => OutputState::Gone,
        _ => OutputState::Quiet,
    }
}
