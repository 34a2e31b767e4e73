ghost use Rattle.std.specs.Prelude.{◌≡◌, [], None, IfOk, OnOk};
ghost use Rattle.step_work.specs.declared.ending.StateEnd.TheVariants.{Lasting};
ghost use Rattle.stream_model.specs.Linear.{begin_work};
ghost use Rattle.stream_model.specs.Machine.{run};
ghost use Rattle.stream_model.specs.Outlook.{ended};
ghost use Rattle.line_chain.specs.Kinds.{begun};
ghost use Rattle.line_chain.specs.Steps.{work_in, machine, end_of, start_of, state_of, now_of, replied, given_before, failed_step, decided_step, StepFeeds, Began, StepCloses, Ran};

use crate::batch::Batch;
use crate::kind::StepKind;
use crate::work::StepWork;
use elem_core::count::one_more;
use elem_core::elem::Elem;
use elem_core::why::{Cause, Decider, NoMemory, Why};
use std::alloc::Global;
use step_work::ending::StateEnd;
use step_work::task::LinearReaction;

// Choice: docs/DECISIONS.md#fresh-from-used
/// A step of a chain as it runs. Rule: Akka Streams 2.6 reference.
pub struct LineStep {
    // The node of the chain.
    pub node: u32,
    pub decider: Decider,
    // What it does, from its start.
    pub kind: StepKind,
    // What it gives before any element, where it has not yet.
    pub owed: Option<Elem>,
    // How many elements it took.
    pub taken: u64,
    pub work: StepWork,
    // Whether it has ended or failed by its own doing.
    pub ending: StateEnd,
}

// Dropped by a call, as its kind and its work are.
impl Drop for LineStep {
    fn drop(self) {
        let LineStep {
            node: _,
            decider: _,
            kind: _,
            owed: _,
            taken: _,
            work: _,
            ending: _,
        } = self;
    }
}

impl LineStep {
    /// A step that has taken nothing.
    pub fn begin(
        alloc: Global,
        node: u32,
        decider: Decider,
        kind: StepKind,
    ) -> Result<LineStep, NoMemory>
        ensures starts { IfOk result (λ s. start_of s ≡ begin_work node decider (begun kind)) }
        ensures now { IfOk result (λ s. now_of s ≡ begin_work node decider (begun kind)) }
    {
        let owed = kind.first(alloc)?;
        let work = kind.begin(alloc)?;
        let ending = kind.ending();
        Ok(LineStep {
            node,
            decider,
            kind,
            owed,
            taken: 0,
            work,
            ending,
        })
    }

    /// The step as it began.
    pub fn fresh(&self, alloc: Global) -> Result<LineStep, NoMemory>
        ensures starts { IfOk result (λ s. start_of s ≡ start_of self.now) }
        ensures now { IfOk result (λ s. now_of s ≡ start_of self.now) }
    {
        let kind = self.kind.copy(alloc)?;
        let step = LineStep::begin(alloc, self.node, self.decider, kind)?;
        Ok(step)
    }

    /// It takes all of `inputs`, which stand so: its outputs are put in `outputs`, and the answer is how they stand.
    pub fn run(
        &mut self,
        alloc: Global,
        inputs: &mut Batch,
        ending: StateEnd,
        outputs: &mut Batch,
    ) -> Result<StateEnd, NoMemory>
        requires { outputs.old ≡ [] }
        ensures runs { IfOk result (λ e. Ran self.old inputs.old (end_of ending) self.new outputs.new (end_of e)) }
        ensures none { OnOk result (inputs.new ≡ []) }
    {
        self.give_owed(outputs)?;
        self.take_all(alloc, inputs, outputs)?;
        let last = self.close(alloc, ending, outputs)?;
        Ok(last)
    }

    // It gives what it owes before any element.
    fn give_owed(&mut self, outputs: &mut Batch) -> Result<(), NoMemory>
        requires { outputs.old ≡ [] }
        ensures gives { OnOk result (record { gave = outputs.new; state = state_of self.new } ≡ now_of self.old) }
        ensures began { OnOk result (Began self.old self.new) }
        ensures owed { OnOk result (self.new.owed ≡ None) }
    {
        match self.owed.take() {
            Some(first) => {
                outputs.add(first)?;
                Ok(())
            }
            None => Ok(()),
        }
    }

    // It takes all of `inputs`.
    fn take_all(
        &mut self,
        alloc: Global,
        inputs: &mut Batch,
        outputs: &mut Batch,
    ) -> Result<(), NoMemory>
        requires { self.old.owed ≡ None }
        ensures takes { OnOk result (record { gave = outputs.new; state = state_of self.new } ≡ run machine
            (record { gave = outputs.old; state = state_of self.old }) inputs.old) }
        ensures began { OnOk result (Began self.old self.new) }
        ensures owed { OnOk result (self.new.owed ≡ None) }
        ensures none { OnOk result (inputs.new ≡ []) }
    {
        while let Some(e) = inputs.take() {
            self.feed(alloc, e, outputs)?;
        }
        Ok(())
    }

    // One more element; a step that has stopped lets it fall.
    fn feed(&mut self, alloc: Global, e: Elem, outputs: &mut Batch) -> Result<(), NoMemory>
        ensures feeds { OnOk result (StepFeeds self.old outputs.old e self.new outputs.new) }
        ensures began { OnOk result (Began self.old self.new) }
        ensures owed { OnOk result (self.new.owed ≡ self.old.owed) }
    {
        match self.ending {
            StateEnd::Lasting => {
                let nth = one_more(self.taken)?;
                let outcome = self.work.react(alloc, self.decider, e)?;
                self.answer(nth, outcome, outputs)?;
                Ok(())
            }
            StateEnd::Ended => Ok(()),
            StateEnd::Failed(_) => Ok(()),
        }
    }

    // What its element number `nth` came to.
    fn answer(
        &mut self,
        nth: u64,
        outcome: LinearReaction,
        outputs: &mut Batch,
    ) -> Result<(), NoMemory>
        requires { self.old.ending ≡ Lasting }
        ensures gives { OnOk result (record { gave = outputs.new; state = state_of self.new } ≡ given_before outputs.old
            (replied self.old.decider self.old.node nth (work_in self.old.work) outcome)) }
        ensures began { OnOk result (Began self.old self.new) }
        ensures owed { OnOk result (self.new.owed ≡ self.old.owed) }
    {
        match outcome {
            LinearReaction::Gives(value) => {
                self.taken = nth;
                outputs.add(value)?;
                Ok(())
            }
            LinearReaction::GivesAll(mut values) => {
                self.taken = nth;
                outputs.add_all(&mut values)?;
                Ok(())
            }
            LinearReaction::Skips => {
                self.taken = nth;
                Ok(())
            }
            LinearReaction::EndsWith(value) => {
                self.ending = StateEnd::Ended;
                outputs.add(value)?;
                Ok(())
            }
            LinearReaction::EndsWithAll(mut values) => {
                self.ending = StateEnd::Ended;
                outputs.add_all(&mut values)?;
                Ok(())
            }
            LinearReaction::Ends => {
                self.ending = StateEnd::Ended;
                Ok(())
            }
            LinearReaction::Blames(why) => {
                self.decide(nth, why);
                Ok(())
            }
            LinearReaction::Fails(why) => {
                self.fail(nth, why);
                Ok(())
            }
        }
    }

    // The decider's answer to element number `nth`, which the function has no value for.
    fn decide(&mut self, nth: u64, why: Why)
        ensures { self.new ≡ decided_step self.old nth why }
    {
        match self.decider {
            Decider::Stop => self.fail(nth, why),
            Decider::Resume | Decider::Restart => self.taken = nth,
        }
    }

    // It fails, and its element number `nth` is to blame; none is where that is 0.
    fn fail(&mut self, nth: u64, why: Why)
        ensures { self.new ≡ failed_step self.old nth why }
    {
        self.ending = StateEnd::Failed(Cause {
            stage: self.node,
            nth,
            why,
        });
    }

    // All of its input came, which stands so: what it adds is put in `outputs`, and the answer is how they stand.
    fn close(
        &mut self,
        alloc: Global,
        ending: StateEnd,
        outputs: &mut Batch,
    ) -> Result<StateEnd, NoMemory>
        ensures closes { IfOk result (λ e. StepCloses self.old outputs.old (end_of ending) self.new outputs.new (end_of e)) }
        ensures began { OnOk result (Began self.old self.new) }
    {
        match self.ending {
            StateEnd::Lasting => {
                let last = self.close_open(alloc, ending, outputs)?;
                Ok(last)
            }
            StateEnd::Ended => Ok(StateEnd::Ended),
            StateEnd::Failed(cause) => Ok(StateEnd::Failed(cause)),
        }
    }

    // The same, where it has not stopped.
    fn close_open(
        &mut self,
        alloc: Global,
        ending: StateEnd,
        outputs: &mut Batch,
    ) -> Result<StateEnd, NoMemory>
        requires { self.old.ending ≡ Lasting }
        ensures closes { IfOk result (λ e. StepCloses self.old outputs.old (end_of ending) self.new outputs.new (end_of e)) }
        ensures began { OnOk result (Began self.old self.new) }
    {
        match ending {
            StateEnd::Lasting => Ok(StateEnd::Lasting),
            StateEnd::Failed(cause) => Ok(StateEnd::Failed(cause)),
            StateEnd::Ended => {
                let last = self.finish(alloc, outputs)?;
                Ok(last)
            }
        }
    }

    // The same, where its input has ended.
    fn finish(&mut self, alloc: Global, outputs: &mut Batch) -> Result<StateEnd, NoMemory>
        requires { self.old.ending ≡ Lasting }
        ensures closes { IfOk result (λ e. StepCloses self.old outputs.old ended self.new outputs.new (end_of e)) }
        ensures began { OnOk result (Began self.old self.new) }
    {
        match self.work.finish(alloc) {
            Ok(None) => Ok(StateEnd::Ended),
            Ok(Some(value)) => {
                outputs.add(value)?;
                Ok(StateEnd::Ended)
            }
            Err(why) => Ok(StateEnd::Failed(Cause {
                stage: self.node,
                nth: 0,
                why,
            })),
        }
    }
}
