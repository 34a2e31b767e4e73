ghost use Rattle.std.specs.Prelude.{◌≡◌, ◌≢◌, ⊤, ◌≤◌, ◌<◌, true, false, ◌∷◌, ◌++◌, ◌+◌, [], length, OnOk, IfOk, List, None};
ghost use Rattle.elem_core.specs.Tree.{Tree};
ghost use Rattle.port_core.specs.declared.act.Act.TheVariants.{FailOut, Complete};
ghost use Rattle.port_core.specs.ListFunction.{ListFunction, Same};
ghost use Rattle.stream_model.specs.Outlook.{End};
ghost use Rattle.stream_model.specs.Machine.{Given};
ghost use Rattle.stream_model.specs.Substreams.{Sub, end_all};
ghost use Rattle.stage_core.specs.declared.phase.Phase.TheVariants.{Open, Closed};
ghost use Rattle.step_work.specs.Means.{Means};
ghost use Rattle.stage_sub.specs.Subs.{SubsReach};
ghost use Rattle.stage_sub.specs.KeptSubs.{Keeps, TakesBy};
ghost use Rattle.stage_sub.specs.Moves.{port_in, first_output};
ghost use Rattle.stage_sub.specs.Leds.{GivesOf};
ghost use Rattle.stage_sub.specs.States.{begun, Ready, cause_of_blame, first_out, first_acts, answered, answer_acts, answer_gave, emptied, emptied_acts, pulled, pulled_acts, sealed, sealed_acts, sealed_gave, finished, finish_acts, finish_gave, cancel_acts};

use crate::blame::Blame;
use crate::kept::KeptSubs;
use crate::opening::OpenBy;
use crate::outputs::Outputs;
use elem_core::elem::Elem;
use elem_core::why::{Cause, NoMemory};
use port_core::act::Act;
use port_core::acts::Acts;
use port_core::chain::Chain;
use stage_core::phase::Phase;
use std::alloc::{AllocError, Global};
use std::marker::Model;

/// A stage with substreams, but for the log of its moves. It gives the outputs of its substreams in the order in which they
/// arise. Rule: Akka Streams 2.6 reference.
pub struct SubState<C: Chain> {
    node: u32,
    taken: u64,
    how: OpenBy,
    chain: C,
    kept: KeptSubs<C>,
    outs: Outputs,
    asked: bool,
    over: bool,
    phase: Phase,
}

// Dropped by a call, wherever it is dropped: else each of its parts is a path of each function that drops it.
impl<C: Chain> Drop for SubState<C> {
    fn drop(self) {
        let SubState {
            node: _,
            taken: _,
            how: _,
            chain: _,
            kept: _,
            outs: _,
            asked: _,
            over: _,
            phase: _,
        } = self;
    }
}

impl<C: Chain> Model for SubState<C> {
    ghost use Rattle.std.specs.Prelude.{None};
    ghost use Rattle.std.specs.Coded.{codes};
    ghost use Rattle.elem_core.specs.TreeCode.{tree_coded};
    ghost use Rattle.stage_sub.specs.States.{Logic};

    ghost Value = { Logic C };

    ghost coded = { Prim.hlevel (codes, tree_coded) };

    ghost view = { λ l. record {
      phase = l.phase;
      node = l.node;
      taken = l.taken;
      how = l.how;
      chain = l.chain;
      kept = l.kept;
      pending = l.outs;
      asked = l.asked;
      over = l.over;
      moves = None;
    } };
}

impl<C: Chain> SubState<C> {
    /// One that has not begun. It takes no memory.
    #[tactic(auto, using(crate::proofs::Beginning::ready))]
    pub fn new(alloc: Global, node: u32, how: OpenBy, chain: C) -> SubState<C>
        ensures stage { result ≡ begun node how None chain }
        ensures ready { Ready C.rest C.is_open result }
    {
        SubState {
            node,
            taken: 0,
            how,
            chain,
            kept: KeptSubs::new(alloc),
            outs: Outputs::new(alloc),
            asked: false,
            over: false,
            phase: Phase::New,
        }
    }

    /// The run begins.
    pub fn begin(&mut self)
        ensures { self.new ≡ record self.old { phase = Open } }
    {
        self.phase = Phase::Open;
    }

    /// The number of the next element; past 64 bits memory is wanting.
    pub fn next_number(&self) -> Result<u64, NoMemory>
        ensures { IfOk result (λ n. n ≡ self.now.taken + 1) }
    {
        self.taken.checked_add(1).ok_or(AllocError)
    }

    /// The output was cancelled.
    pub fn leave(&mut self, acts: &mut Acts)
        requires empty { acts.old.items ≡ [] }
        requires room { 4 ≤ acts.old.room }
        ensures stage { self.new ≡ record self.old { phase = Closed } }
        ensures acts { acts.new ≡ record acts.old { items = cancel_acts self.old.over } }
    {
        self.phase = Phase::Closed;
        if !self.over {
            acts.add(Act::Cancel(0));
        }
    }

    /// The input has failed: what is held is dropped.
    pub fn fail(&mut self, cause: Cause, acts: &mut Acts)
        requires empty { acts.old.items ≡ [] }
        requires room { 4 ≤ acts.old.room }
        ensures stage { self.new ≡ record self.old { phase = Closed } }
        ensures acts { acts.new ≡ record acts.old { items = FailOut 0 cause ∷ [] } }
    {
        self.phase = Phase::Closed;
        acts.add(Act::FailOut(0, cause));
    }

    /// The element goes to its substream.
    pub fn take_in(&mut self, alloc: Global, e: Elem) -> Result<Option<Blame>, NoMemory>
        requires ready { Ready C.rest C.is_open self.old }
        ensures takes { IfOk result (λ b. (f : ListFunction) → Same (C.whole self.old.chain) f → (yields : List Tree → End → Given Tree) → Means yields f
            → (ss : List Sub) → Keeps C.rest C.is_open f yields self.old.how self.old.kept ss
            → TakesBy C.rest C.is_open f yields self.old.how ss e b self.old.pending self.new.pending self.new.kept) }
        ensures ready { OnOk result (Ready C.rest C.is_open self.new) }
        ensures stays { self.new ≡ record self.old { kept = self.new.kept; pending = self.new.pending } }
    {
        self.kept
            .take(alloc, &self.how, &self.chain, e, &mut self.outs)
    }

    /// What element number `taken` came to. It answers the number of the substream of the output that it gave.
    pub fn answer(&mut self, taken: u64, blame: Option<Blame>, acts: &mut Acts) -> Option<u32>
        requires empty { acts.old.items ≡ [] }
        requires room { 4 ≤ acts.old.room }
        ensures stage { self.new ≡ answered self.old taken blame }
        ensures acts { acts.new ≡ record acts.old { items = answer_acts self.old taken blame } }
        ensures gave { result ≡ port_in (answer_gave self.old blame) }
    {
        match blame {
            None => {
                self.taken = taken;
                self.give_first(acts)
            }
            Some(blame) => {
                self.phase = Phase::Closed;
                acts.add(Act::FailOut(0, self.cause(taken, blame)));
                acts.add(Act::Cancel(0));
                None
            }
        }
    }

    fn cause(&self, taken: u64, blame: Blame) -> Cause
        ensures { result ≡ cause_of_blame self.now.node taken blame }
    {
        match blame {
            Blame::AtElement(why) => Cause {
                stage: self.node,
                nth: taken,
                why,
            },
            Blame::AtEnd(why) => Cause {
                stage: self.node,
                nth: 0,
                why,
            },
        }
    }

    // The first of what is held goes out; where there is none it asks.
    fn give_first(&mut self, acts: &mut Acts) -> Option<u32>
        requires room { length acts.old.items < acts.old.room }
        ensures stage { self.new ≡ first_out self.old self.old.pending }
        ensures acts { acts.new ≡ record acts.old { items = acts.old.items ++ first_acts self.old.pending } }
        ensures gave { result ≡ port_in (first_output self.old.pending) }
    {
        match self.outs.take() {
            Some(o) => {
                self.asked = false;
                acts.add(Act::Push(0, o.item));
                Some(o.port)
            }
            None => {
                acts.add(Act::Pull(0));
                None
            }
        }
    }

    // The input has ended, and nothing is held: the stage ends.
    fn end_if_empty(&mut self, acts: &mut Acts)
        requires room { length acts.old.items < acts.old.room }
        ensures stage { self.new ≡ emptied true self.old self.old.pending }
        ensures acts { acts.new ≡ record acts.old { items = acts.old.items ++ emptied_acts true self.old.pending } }
    {
        if self.outs.is_empty() {
            self.phase = Phase::Closed;
            acts.add(Act::Complete(0));
        }
    }

    /// All substreams end.
    pub fn end_in(&mut self, alloc: Global) -> Result<Option<Blame>, NoMemory>
        requires ready { Ready C.rest C.is_open self.old }
        ensures becomes { IfOk result (λ b. (f : ListFunction) → (yields : List Tree → End → Given Tree) → Means yields f → (ss : List Sub)
            → Keeps C.rest C.is_open f yields self.old.how self.old.kept ss
            → SubsReach yields (λ k. ⊤) ss (end_all ss) b self.old.pending self.new.pending) }
        ensures ready { OnOk result (Ready C.rest C.is_open self.new) }
        ensures stays { self.new ≡ record self.old { kept = self.new.kept; pending = self.new.pending } }
    {
        self.kept.end(alloc, &self.how, &mut self.outs)
    }

    /// What the end of the input came to. It answers the number of the substream of the output that it gave.
    pub fn finish(&mut self, blame: Option<Blame>, acts: &mut Acts) -> Option<u32>
        requires empty { acts.old.items ≡ [] }
        requires room { 4 ≤ acts.old.room }
        ensures stage { self.new ≡ finished self.old blame }
        ensures acts { acts.new ≡ record acts.old { items = finish_acts self.old blame } }
        ensures gave { result ≡ port_in (finish_gave self.old blame) }
    {
        match blame {
            Some(blame) => {
                self.phase = Phase::Closed;
                acts.add(Act::FailOut(0, self.cause(0, blame)));
                None
            }
            None => self.seal(acts),
        }
    }

    // The input has ended: the stage ends where nothing is held; else the first goes out where the output is asked.
    fn seal(&mut self, acts: &mut Acts) -> Option<u32>
        requires empty { acts.old.items ≡ [] }
        requires room { 4 ≤ acts.old.room }
        ensures stage { self.new ≡ sealed self.old.asked self.old self.old.pending }
        ensures acts { acts.new ≡ record acts.old { items = sealed_acts self.old.asked self.old.pending } }
        ensures gave { result ≡ port_in (sealed_gave self.old.asked self.old.pending) }
    {
        if self.outs.is_empty() {
            self.phase = Phase::Closed;
            acts.add(Act::Complete(0));
            return None;
        }
        self.over = true;
        if self.asked {
            self.give_last(acts)
        } else {
            None
        }
    }

    // The first of what is held goes out, and the stage ends with the last.
    fn give_last(&mut self, acts: &mut Acts) -> Option<u32>
        requires room { length acts.old.items + 2 ≤ acts.old.room }
        requires over { self.old.over ≡ true }
        requires some { 0 < length self.old.pending }
        ensures stage { self.new ≡ sealed true self.old self.old.pending }
        ensures acts { acts.new ≡ record acts.old { items = acts.old.items ++ sealed_acts true self.old.pending } }
        ensures gave { result ≡ port_in (first_output self.old.pending) }
    {
        self.asked = false;
        match self.outs.take() {
            Some(o) => {
                acts.add(Act::Push(0, o.item));
                self.end_if_empty(acts);
                Some(o.port)
            }
            None => None,
        }
    }

    /// The first of what is held goes out, and the stage ends with the last where its input has ended; or it asks. It answers
    /// the number of the substream of the output that it gave.
    pub fn pull(&mut self, acts: &mut Acts) -> Option<u32>
        requires empty { acts.old.items ≡ [] }
        requires room { 4 ≤ acts.old.room }
        ensures stage { self.new ≡ pulled self.old self.old.pending }
        ensures acts { acts.new ≡ record acts.old { items = pulled_acts self.old.over self.old.pending } }
        ensures gave { result ≡ port_in (first_output self.old.pending) }
    {
        match self.outs.take() {
            Some(o) => {
                acts.add(Act::Push(0, o.item));
                if self.over {
                    self.end_if_empty(acts);
                }
                Some(o.port)
            }
            None => {
                self.asked = true;
                acts.add(Act::Pull(0));
                None
            }
        }
    }

    // ---- where moves are followed

    /// The output was asked.
    pub fn want(&mut self)
        ensures { self.new ≡ record self.old { asked = true } }
    {
        self.asked = true;
    }

    /// So many elements were taken.
    pub fn count(&mut self, taken: u64)
        ensures { self.new ≡ record self.old { taken = taken } }
    {
        self.taken = taken;
    }

    /// The input has ended.
    pub fn end_input(&mut self)
        ensures { self.new ≡ record self.old { over = true } }
    {
        self.over = true;
    }

    /// Whether the output is asked.
    pub fn is_asked(&self) -> bool
        ensures { result ≡ self.now.asked }
    {
        self.asked
    }

    /// Whether the input has ended.
    pub fn is_over(&self) -> bool
        ensures { result ≡ self.now.over }
    {
        self.over
    }

    /// Whether no output is held.
    pub fn holds_none(&self) -> bool
        ensures yes { result ≡ true → self.now.pending ≡ [] }
        ensures no { result ≡ false → self.now.pending ≢ [] }
    {
        self.outs.is_empty()
    }

    /// The first output of substream `port` that is held goes out, where there is one.
    pub fn give_of(&mut self, port: u32, acts: &mut Acts) -> bool
        requires room { length acts.old.items < acts.old.room }
        ensures gives { GivesOf port result self.old self.new acts.old.items acts.new.items }
        ensures room { acts.new.room ≡ acts.old.room }
    {
        match self.outs.take_of(port) {
            Some(o) => {
                self.asked = false;
                acts.add(Act::Push(0, o.item));
                true
            }
            None => false,
        }
    }

    /// The stage ends.
    pub fn complete(&mut self, acts: &mut Acts)
        requires room { length acts.old.items < acts.old.room }
        ensures stage { self.new ≡ record self.old { phase = Closed } }
        ensures acts { acts.new.items ≡ acts.old.items ++ Complete 0 ∷ [] }
        ensures room { acts.new.room ≡ acts.old.room }
    {
        self.phase = Phase::Closed;
        acts.add(Act::Complete(0));
    }
}
