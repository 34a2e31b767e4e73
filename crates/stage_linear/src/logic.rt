ghost use Rattle.std.specs.Prelude.{true, ◌≡◌, ◌≤◌, ◌<◌, ◌∷◌, ◌++◌, ◌+◌, [], length, OnOk, IfOk, IsOk, IfSome, IfNone, IsTrue, ◌↔◌};
ghost use Rattle.elem_core.specs.declared.item.Item.TheVariants as item;
ghost use Rattle.port_core.specs.declared.act.Act.TheVariants as act;
ghost use Rattle.port_core.specs.Call.{Obeys, Meets, starts, pulls, arrives, cancels};
ghost use Rattle.stage_core.specs.declared.phase.Phase.TheVariants.{New, Open, Closed};
ghost use Rattle.stage_core.specs.declared.stage.Swift.TheVariants as swift;
ghost use Rattle.plug_logic.specs.Gives.{listed};
ghost use Rattle.stream_model.specs.Linear.{finish_of};
ghost use Rattle.stream_model.specs.declared.kind.Kind.TheVariants as kind;
ghost use Rattle.stage_linear.specs.declared.course.Course.TheVariants as course;
ghost use Rattle.stage_linear.specs.Outcomes.{answered, answer_acts, CameTo, Said};
ghost use Rattle.stage_linear.specs.Plugs.{Is};
ghost use Rattle.stage_linear.specs.Pending.{spread, first_acts, leaving, leaving_acts, ended_with, ended_acts, ended_by, closed_acts, given_on_from, last_acts, behind_last, behind_last_acts, StaysReady};
ghost use Rattle.step_work.specs.Tasks.{HasMore, outcome_of};
ghost use Rattle.stage_linear.specs.States.{Begins, port_state, Turned, HasTask, counted, skipped, decided_by, decided_acts, failing_acts};

use crate::course::Course;
use crate::plug::PlugTask;
use crate::worker::Worker;
use elem_core::elem::{Elem, Form};
use elem_core::elems::Elems;
use elem_core::why::{Cause, Decider, NoMemory, Why};
use plug_logic::book::PlugBook;
use plug_logic::logic::Logic;
use plug_logic::plug::Plug;
use port_core::act::Act;
use port_core::acts::Acts;
use port_core::pick_log::PickLog;
use stage_core::phase::Phase;
use stage_core::stage::Swift;
use std::alloc::{AllocError, Global};
use std::marker::Model;
use std::mem;
use step_work::task::{AtOnce, LinearEnd, LinearReaction, LinearWork};
use stream_model::kind::Kind;

/// The logic of a map, a filter, a filter_not, a take, a take_while, a drop, a drop_while, a limit, a map_concat or a plug. It
/// asks its input when its output is asked, and again where an element gave nothing; it passes an end on, and a cancel. A
/// map_concat and a plug give the items of one element one by one, and ask when none is left. Where the input ends while items
/// are held, these go out first; then a plug is asked for its last outputs, and the stage ends with the last of all. A plug that
/// is done gives what it holds; then the stage ends and cancels its input. Rule: Akka Streams 2.6 reference; when a plug is
/// asked for its last outputs: own.
#[derive(Drop)]
pub struct LinearLogic<L: Logic, B: PlugBook> {
    node: u32,
    decider: Decider,
    taken: u64,
    worker: Worker<L, B>,
    phase: Phase,
    // No list until outputs were first held.
    pending: Option<Elems>,
    course: Course,
}

impl<L: Logic, B: PlugBook> Model for LinearLogic<L, B> {
    ghost use Rattle.std.specs.Coded.{codes};
    ghost use Rattle.elem_core.specs.TreeCode.{tree_coded};
    ghost use Rattle.stage_linear.specs.States.{Logic};

    ghost Value = { Logic };

    ghost coded = { Prim.hlevel (codes, tree_coded) };

    ghost use Rattle.stage_linear.specs.Workers.{work_by, ready_by};
    ghost use Rattle.stage_linear.specs.Pending.{outputs_in};

    ghost view = { λ l. record {
      phase = l.phase;
      stage = record { node = l.node; decider = l.decider; taken = l.taken; work = work_by l.worker };
      pending = outputs_in l.pending;
      course = l.course;
      ready = ready_by l.worker;
    } };
}

impl<L: Logic, B: PlugBook> LinearLogic<L, B> {
    // Choice: docs/DECISIONS.md#new-asks-for-its-kind
    /// The logic of node `stage`. It holds nothing and knows nothing yet; it takes no memory.
    pub fn new(stage: u32, kind: Kind, decider: Decider) -> Result<LinearLogic<L, B>, NoMemory>
        requires { HasTask kind }
        ensures answers { IsOk result }
        ensures begins { IfOk result (Begins stage kind decider) }
    {
        let task = match kind {
            Kind::Map(f) => LinearWork::Map(f),
            Kind::Filter(p) => LinearWork::Filter(p),
            Kind::FilterNot(p) => LinearWork::FilterNot(p),
            Kind::Take(n) => LinearWork::Take(n),
            Kind::TakeWhile(p) => LinearWork::TakeWhile(p),
            Kind::Drop(n) => LinearWork::Drop(n),
            Kind::DropWhile(p) => LinearWork::DropWhile(p, false),
            Kind::Limit(n) => LinearWork::Limit(n),
            Kind::MapConcat(x) => LinearWork::Expand(x),
            _ => unreachable!(),
        };
        Ok(LinearLogic {
            node: stage,
            decider,
            taken: 0,
            worker: Worker::Plain(task),
            phase: Phase::New,
            pending: None,
            course: Course::Idles,
        })
    }

    /// The logic of node `stage` that holds this plug, which gives what the book lists of its name. It takes no memory.
    pub fn of_plug(stage: u32, plug: Plug<L>, decider: Decider) -> LinearLogic<L, B>
        requires { Is (L.gives plug.logic) [] (listed B.lists plug.head.name) }
        ensures { Begins stage (kind.Plug plug.head.name) decider result }
    {
        let Plug { head, logic } = plug;
        LinearLogic {
            node: stage,
            decider,
            taken: 0,
            worker: Worker::Plug(PlugTask::of(head.name, logic)),
            phase: Phase::New,
            pending: None,
            course: Course::Idles,
        }
    }

    /// The run begins. A take of nothing ends at once.
    pub fn start(&mut self, acts: &mut Acts) -> Result<(), NoMemory>
        requires new { self.old.phase ≡ New }
        requires meets { Meets starts (port_state self.old) }
        requires empty { acts.old.items ≡ [] }
        requires room { 4 ≤ acts.old.room }
        ensures answers { IsOk result }
        ensures ports { OnOk result (Obeys starts (port_state self.old) (port_state self.new) acts.new.items) }
        ensures gives { OnOk result (Turned B.lists starts self.old acts.new.items self.new) }
        ensures room { acts.new.room ≡ acts.old.room }
    {
        self.pending = None;
        self.course = Course::Idles;
        if let Worker::Plain(LinearWork::Take(0)) = self.worker {
            self.complete(acts);
        } else {
            self.phase = Phase::Open;
        }
        Ok(())
    }

    /// Nothing is held that could be given: asks the input.
    #[inline(always)]
    pub fn ask(&mut self, port: u8, acts: &mut Acts)
        requires open { self.old.phase ≡ Open }
        requires port { port ≡ 0 }
        requires meets { Meets (pulls 0) (port_state self.old) }
        requires none { self.old.pending ≡ [] }
        requires empty { acts.old.items ≡ [] }
        requires room { 4 ≤ acts.old.room }
        ensures ports { Obeys (pulls 0) (port_state self.old) (port_state self.new) acts.new.items }
        ensures gives { Turned B.lists (pulls 0) self.old acts.new.items self.new }
        ensures room { acts.new.room ≡ acts.old.room }
    {
        self.course = Course::Waits;
        acts.add(Act::Pull(port));
    }

    /// Nothing is held that could be given: the input is asked, without a list of actions.
    #[inline(always)]
    pub(crate) fn wait(&mut self)
        requires open { self.old.phase ≡ Open }
        requires meets { Meets (pulls 0) (port_state self.old) }
        requires none { self.old.pending ≡ [] }
        ensures ports { Obeys (pulls 0) (port_state self.old) (port_state self.new) (act.Pull 0 ∷ []) }
        ensures gives { Turned B.lists (pulls 0) self.old (act.Pull 0 ∷ []) self.new }
    {
        self.course = Course::Waits;
    }

    /// The output was asked.
    pub fn on_pull(&mut self, alloc: Global, port: u8, acts: &mut Acts) -> Result<(), NoMemory>
        requires open { self.old.phase ≡ Open }
        requires port { port ≡ 0 }
        requires meets { Meets (pulls 0) (port_state self.old) }
        requires empty { acts.old.items ≡ [] }
        requires room { 4 ≤ acts.old.room }
        ensures ports { OnOk result (Obeys (pulls 0) (port_state self.old) (port_state self.new) acts.new.items) }
        ensures gives { OnOk result (Turned B.lists (pulls 0) self.old acts.new.items self.new) }
        ensures room { acts.new.room ≡ acts.old.room }
    {
        match self.next_pending() {
            Some(e) => self.give_pending(alloc, e, acts),
            None => {
                self.ask(port, acts);
                Ok(())
            }
        }
    }

    /// The input has ended.
    pub fn on_finish(&mut self, alloc: Global, port: u8, acts: &mut Acts) -> Result<(), NoMemory>
        requires open { self.old.phase ≡ Open }
        requires port { port ≡ 0 }
        requires meets { Meets (arrives 0 item.Ended) (port_state self.old) }
        requires empty { acts.old.items ≡ [] }
        requires room { 4 ≤ acts.old.room }
        ensures ports { OnOk result (Obeys (arrives 0 item.Ended) (port_state self.old) (port_state self.new) acts.new.items) }
        ensures gives { OnOk result (Turned B.lists (arrives 0 item.Ended) self.old acts.new.items self.new) }
        ensures room { acts.new.room ≡ acts.old.room }
    {
        if self.holds_none() {
            return self.close_input(alloc, acts);
        }
        self.course = match self.course {
            Course::Leaves => Course::Ends,
            _ => Course::Closes,
        };
        Ok(())
    }

    /// The input has failed.
    pub fn on_fail(&mut self, port: u8, cause: Cause, acts: &mut Acts) -> Result<(), NoMemory>
        requires open { self.old.phase ≡ Open }
        requires port { port ≡ 0 }
        requires meets { Meets (arrives 0 (item.Failed cause)) (port_state self.old) }
        requires empty { acts.old.items ≡ [] }
        requires room { 4 ≤ acts.old.room }
        ensures answers { IsOk result }
        ensures ports { OnOk result (Obeys (arrives 0 (item.Failed cause)) (port_state self.old) (port_state self.new) acts.new.items) }
        ensures gives { OnOk result (Turned B.lists (arrives 0 (item.Failed cause)) self.old acts.new.items self.new) }
        ensures room { acts.new.room ≡ acts.old.room }
    {
        match self.course {
            Course::Leaves => self.course = Course::Ends,
            _ => self.shut(Act::FailOut(port, cause), acts),
        }
        Ok(())
    }

    /// The output was cancelled.
    pub fn on_cancel(&mut self, port: u8, acts: &mut Acts) -> Result<(), NoMemory>
        requires open { self.old.phase ≡ Open }
        requires port { port ≡ 0 }
        requires meets { Meets (cancels 0) (port_state self.old) }
        requires empty { acts.old.items ≡ [] }
        requires room { 4 ≤ acts.old.room }
        ensures answers { IsOk result }
        ensures ports { OnOk result (Obeys (cancels 0) (port_state self.old) (port_state self.new) acts.new.items) }
        ensures gives { OnOk result (Turned B.lists (cancels 0) self.old acts.new.items self.new) }
        ensures room { acts.new.room ≡ acts.old.room }
    {
        match self.course {
            Course::Closes | Course::Ends => self.phase = Phase::Closed,
            _ => self.shut(Act::Cancel(port), acts),
        }
        Ok(())
    }

    /// The run is over: the log of its moves, of which it made none. It takes no memory.
    pub fn close(self, alloc: Global) -> PickLog
        ensures { result.moves ≡ [] }
    {
        PickLog::new(alloc)
    }

    // Choice: docs/DECISIONS.md#elements-past-64-bits
    /// The number of the next element. Past 64 bits there is none: that counts as want of memory.
    pub(crate) fn next_number(&self) -> Result<u64, NoMemory>
        ensures { IfOk result (λ n. n ≡ self.now.stage.taken + 1) }
    {
        match self.taken.checked_add(1) {
            Some(n) => Ok(n),
            None => Err(AllocError),
        }
    }

    /// What comes of this element, where it is known at once. `None` leaves the stage as it is; no plug is called.
    #[inline(always)]
    pub(crate) fn at_once(&mut self, e: &Elem) -> Option<AtOnce>
        requires more { HasMore self.old.stage.work }
        requires ready { self.old.ready ≡ true }
        ensures said { IfSome result (λ s. Said B.lists self.old e.now (outcome_of s e.now) self.new) }
        ensures unsaid { IfNone result (self.new ≡ self.old) }
    {
        self.worker.at_once(e)
    }

    /// What element number `taken`, which is `e`, came to at once.
    pub(crate) fn answer_at_once(&mut self, taken: u64, said: AtOnce, e: Elem, acts: &mut Acts)
        requires empty { acts.old.items ≡ [] }
        requires room { 4 ≤ acts.old.room }
        ensures stage { self.new ≡ answered self.old taken (outcome_of said e) }
        ensures acts { acts.new ≡ record acts.old { items = answer_acts self.old taken (outcome_of said e) } }
    {
        match said {
            AtOnce::Passes => self.give(taken, e, acts),
            AtOnce::Gives(z) => {
                let_go(e);
                self.give(taken, Elem::of(Form::Num(z)), acts)
            }
            AtOnce::Skips => {
                let_go(e);
                self.skip(taken, acts)
            }
            AtOnce::PassesLast => {
                self.give(taken, e, acts);
                self.complete(acts);
            }
            AtOnce::Blames(why) => self.decide(taken, why, acts),
        }
    }

    // Element number `taken` gave one, which stands in its place.
    #[inline(always)]
    fn note_given(&mut self, taken: u64)
        ensures { self.new ≡ counted self.old taken }
    {
        self.taken = taken;
        self.course = Course::Idles;
    }

    // Element number `taken` gave nothing.
    #[inline(always)]
    fn note_skipped(&mut self, taken: u64)
        ensures { self.new ≡ skipped self.old taken }
    {
        self.taken = taken;
        self.course = Course::Waits;
    }

    /// What element number `taken` came to at once. One that is given stands in its place; what is more than one push or pull is in the
    /// list.
    #[inline(always)]
    pub(crate) fn answer_in_place(
        &mut self,
        taken: u64,
        said: AtOnce,
        e: &mut Elem,
        acts: &mut Acts,
    ) -> Swift
        requires empty { acts.old.items ≡ [] }
        requires room { 4 ≤ acts.old.room }
        ensures stage { self.new ≡ answered self.old taken (outcome_of said e.old) }
        ensures gives { result ≡ swift.Gives → act.Push 0 e.new ∷ [] ≡ answer_acts self.old taken (outcome_of said e.old) }
        ensures asks { result ≡ swift.Asks → act.Pull 0 ∷ [] ≡ answer_acts self.old taken (outcome_of said e.old) }
        ensures acts { result ≡ swift.Acts → acts.new.items ≡ answer_acts self.old taken (outcome_of said e.old) }
        ensures some { result ≡ swift.Rests → ⊥ }
        ensures none { (result ≡ swift.Acts → ⊥) → acts.new ≡ acts.old }
        ensures room { acts.new.room ≡ acts.old.room }
    {
        match said {
            AtOnce::Passes => {
                self.note_given(taken);
                Swift::Gives
            }
            AtOnce::Gives(z) => {
                let_go(mem::replace(e, Elem::of(Form::Num(z))));
                self.note_given(taken);
                Swift::Gives
            }
            AtOnce::Skips => {
                let_go(mem::replace(e, Elem::of(Form::Num(0))));
                self.note_skipped(taken);
                Swift::Asks
            }
            said => {
                let x = mem::replace(e, Elem::of(Form::Num(0)));
                self.answer_at_once(taken, said, x, acts);
                Swift::Acts
            }
        }
    }

    /// Element number `taken` comes to what the worker makes of it. Resume and Restart leave out one that the function has no value for.
    /// Out of line, so that `on_push` keeps a small frame.
    #[inline(never)]
    pub(crate) fn react(
        &mut self,
        alloc: Global,
        taken: u64,
        e: Elem,
        acts: &mut Acts,
    ) -> Result<(), NoMemory>
        requires none { self.old.pending ≡ [] }
        requires more { HasMore self.old.stage.work }
        requires ready { self.old.ready ≡ true }
        requires empty { acts.old.items ≡ [] }
        requires room { 4 ≤ acts.old.room }
        ensures came { OnOk result (CameTo B.lists self.old taken e acts.new.items self.new) }
        ensures room { acts.new.room ≡ acts.old.room }
    {
        let out = self.take_list(alloc);
        let outcome = self.worker.react(alloc, e, out)?;
        self.answer(taken, outcome, acts);
        Ok(())
    }

    // The list from which all that was held has gone out; a new one, which takes no memory, where nothing was held yet.
    fn take_list(&mut self, alloc: Global) -> Elems
        requires none { self.old.pending ≡ [] }
        ensures list { result ≡ [] }
        ensures same { self.new ≡ self.old }
    {
        match self.pending.take() {
            Some(list) => list,
            None => Elems::new(alloc),
        }
    }

    // What element number `taken` came to.
    fn answer(&mut self, taken: u64, outcome: LinearReaction, acts: &mut Acts)
        requires none { self.old.pending ≡ [] }
        requires empty { acts.old.items ≡ [] }
        requires room { 4 ≤ acts.old.room }
        ensures stage { self.new ≡ answered self.old taken outcome }
        ensures acts { acts.new ≡ record acts.old { items = answer_acts self.old taken outcome } }
    {
        match outcome {
            LinearReaction::Gives(value) => self.give(taken, value, acts),
            LinearReaction::GivesAll(values) => self.give_all(taken, values, acts),
            LinearReaction::Skips => self.skip(taken, acts),
            LinearReaction::EndsWith(value) => {
                self.give(taken, value, acts);
                self.complete(acts);
            }
            LinearReaction::EndsWithAll(values) => self.leave(taken, values, acts),
            LinearReaction::Ends => self.complete(acts),
            LinearReaction::Blames(why) => self.decide(taken, why, acts),
            LinearReaction::Fails(why) => self.fail(taken, why, acts),
        }
    }

    // The decider's answer to an element that the function has no value for, which was element number `taken`.
    #[inline(never)]
    fn decide(&mut self, taken: u64, why: Why, acts: &mut Acts)
        requires empty { acts.old.items ≡ [] }
        requires room { 4 ≤ acts.old.room }
        ensures stage { self.new ≡ decided_by self.old taken }
        ensures acts { acts.new ≡ record acts.old { items = decided_acts self.old taken why } }
    {
        match self.decider {
            Decider::Stop => self.fail(taken, why, acts),
            Decider::Resume | Decider::Restart => self.skip(taken, acts),
        }
    }

    // Element number `taken` is to blame for this.
    #[inline(never)]
    fn fail(&mut self, taken: u64, why: Why, acts: &mut Acts)
        requires room { length acts.old.items + 2 ≤ acts.old.room }
        ensures stage { self.new ≡ record self.old { phase = Closed } }
        ensures acts { acts.new ≡ record acts.old { items = acts.old.items ++ failing_acts self.old.stage taken why } }
    {
        let cause = Cause {
            stage: self.node,
            nth: taken,
            why,
        };
        self.shut(Act::FailOut(0, cause), acts);
        acts.add(Act::Cancel(0));
    }

    #[inline(never)]
    fn complete(&mut self, acts: &mut Acts)
        requires room { length acts.old.items + 2 ≤ acts.old.room }
        ensures stage { self.new ≡ record self.old { phase = Closed } }
        ensures acts { acts.new ≡ record acts.old { items = acts.old.items ++ act.Complete 0 ∷ act.Cancel 0 ∷ [] } }
    {
        self.shut(Act::Complete(0), acts);
        acts.add(Act::Cancel(0));
    }

    // The last action, or the last but a cancel of the input.
    fn shut(&mut self, last: Act, acts: &mut Acts)
        requires room { length acts.old.items < acts.old.room }
        ensures stage { self.new ≡ record self.old { phase = Closed } }
        ensures acts { acts.new ≡ record acts.old { items = acts.old.items ++ last ∷ [] } }
    {
        self.phase = Phase::Closed;
        acts.add(last);
    }

    // Element number `taken` gave this.
    fn give(&mut self, taken: u64, value: Elem, acts: &mut Acts)
        requires room { length acts.old.items < acts.old.room }
        ensures stage { self.new ≡ counted self.old taken }
        ensures acts { acts.new ≡ record acts.old { items = acts.old.items ++ act.Push 0 value ∷ [] } }
    {
        self.taken = taken;
        self.course = Course::Idles;
        acts.add(Act::Push(0, value));
    }

    // Element number `taken` gave these: the first goes out, and the others are held.
    fn give_all(&mut self, taken: u64, mut values: Elems, acts: &mut Acts)
        requires none { self.old.pending ≡ [] }
        requires empty { acts.old.items ≡ [] }
        requires room { 4 ≤ acts.old.room }
        ensures stage { self.new ≡ spread self.old taken values }
        ensures acts { acts.new ≡ record acts.old { items = first_acts values } }
    {
        match values.take() {
            Some(first) => {
                self.give(taken, first, acts);
                self.pending = Some(values);
            }
            None => self.skip(taken, acts),
        }
    }

    // Element number `taken` gave these, and it is the last: the first goes out, and the others are held.
    // Choice: docs/DECISIONS.md#plug-finishes-one-by-one
    fn leave(&mut self, taken: u64, mut values: Elems, acts: &mut Acts)
        requires none { self.old.pending ≡ [] }
        requires empty { acts.old.items ≡ [] }
        requires room { 4 ≤ acts.old.room }
        ensures stage { self.new ≡ leaving self.old taken values }
        ensures acts { acts.new ≡ record acts.old { items = leaving_acts values } }
    {
        let Some(first) = values.take() else {
            self.complete(acts);
            return;
        };
        if values.is_empty() {
            acts.add(Act::Push(0, first));
            self.complete(acts);
        } else {
            self.give(taken, first, acts);
            self.pending = Some(values);
            self.course = Course::Leaves;
        }
    }

    // The first of what is held goes out; with the last, the stage does what its course says.
    fn give_pending(&mut self, alloc: Global, e: Elem, acts: &mut Acts) -> Result<(), NoMemory>
        requires ready { self.old.course ≡ course.Closes → self.old.ready ≡ true }
        requires empty { acts.old.items ≡ [] }
        requires room { 4 ≤ acts.old.room }
        ensures stage { OnOk result (self.new ≡ record (given_on_from self.old (finish_of B.lists self.old.stage self.old.stage.work)) {
          ready =
              self.new.ready;
        }) }
        ensures acts { OnOk result (acts.new.items ≡ act.Push 0 e ∷ last_acts self.old (finish_of B.lists self.old.stage self.old.stage.work)) }
        ensures ready { OnOk result (StaysReady self.old self.new) }
        ensures room { acts.new.room ≡ acts.old.room }
    {
        acts.add(Act::Push(0, e));
        if self.holds_none() {
            return self.end_course(alloc, acts);
        }
        Ok(())
    }

    // The last of what was held went out.
    fn end_course(&mut self, alloc: Global, acts: &mut Acts) -> Result<(), NoMemory>
        requires ready { self.old.course ≡ course.Closes → self.old.ready ≡ true }
        requires room { length acts.old.items + 3 ≤ acts.old.room }
        ensures stage { OnOk result (self.new ≡ record (behind_last self.old self.old.course
            (finish_of B.lists self.old.stage self.old.stage.work)) { ready = self.new.ready }) }
        ensures acts { OnOk result (acts.new ≡ record acts.old {
          items = acts.old.items
              ++ behind_last_acts self.old self.old.course (finish_of B.lists self.old.stage self.old.stage.work);
        }) }
        ensures ready { OnOk result (StaysReady self.old self.new) }
        ensures room { acts.new.room ≡ acts.old.room }
    {
        match self.course {
            Course::Waits | Course::Idles => {}
            Course::Leaves => self.complete(acts),
            Course::Closes => return self.close_input(alloc, acts),
            Course::Ends => self.shut(Act::Complete(0), acts),
        }
        Ok(())
    }

    // The input has ended and nothing is held: the last outputs. Where the output is asked the first goes out.
    // Choice: docs/DECISIONS.md#plug-ends-late
    fn close_input(&mut self, alloc: Global, acts: &mut Acts) -> Result<(), NoMemory>
        requires ready { self.old.ready ≡ true }
        requires room { length acts.old.items + 3 ≤ acts.old.room }
        ensures stage { OnOk result (self.new ≡ record (ended_by self.old (finish_of B.lists self.old.stage self.old.stage.work)) { ready = self.new.ready }) }
        ensures acts { OnOk result (acts.new ≡ record acts.old {
          items = acts.old.items
              ++ closed_acts self.old (finish_of B.lists self.old.stage self.old.stage.work);
        }) }
        ensures room { acts.new.room ≡ acts.old.room }
    {
        match self.worker.end(alloc)? {
            LinearEnd::Adds(values) => self.end_with(values, acts),
            LinearEnd::Refuses(why) => {
                let cause = Cause {
                    stage: self.node,
                    nth: 0,
                    why,
                };
                self.shut(Act::FailOut(0, cause), acts);
            }
        }
        Ok(())
    }

    // The last outputs.
    fn end_with(&mut self, mut values: Elems, acts: &mut Acts)
        requires room { length acts.old.items + 3 ≤ acts.old.room }
        ensures stage { self.new ≡ ended_with self.old self.old.course values }
        ensures acts { acts.new ≡ record acts.old { items = acts.old.items ++ ended_acts self.old.course values } }
    {
        if let Course::Waits = self.course {
            if let Some(first) = values.take() {
                acts.add(Act::Push(0, first));
            }
        }
        if values.is_empty() {
            self.shut(Act::Complete(0), acts);
        } else {
            self.pending = Some(values);
            self.course = Course::Ends;
        }
    }

    // Takes out the first of what is held.
    fn next_pending(&mut self) -> Option<Elem>
        ensures first { IfSome result (λ e. self.old ≡ record self.new { pending = e ∷ self.new.pending }) }
        ensures none { IfNone result ((self.old.pending ≡ []) × (self.new ≡ self.old)) }
    {
        match &mut self.pending {
            Some(list) => list.take(),
            None => None,
        }
    }

    /// Whether nothing is held that could be given.
    pub fn holds_none(&self) -> bool
        ensures { IsTrue result ↔ (self.now.pending ≡ []) }
    {
        match &self.pending {
            Some(list) => list.is_empty(),
            None => true,
        }
    }

    // Element number `taken` gave nothing: the stage asks for the next.
    fn skip(&mut self, taken: u64, acts: &mut Acts)
        requires room { length acts.old.items < acts.old.room }
        ensures stage { self.new ≡ skipped self.old taken }
        ensures acts { acts.new ≡ record acts.old { items = acts.old.items ++ act.Pull 0 ∷ [] } }
    {
        self.taken = taken;
        self.course = Course::Waits;
        acts.add(Act::Pull(0));
    }
}

// Drops an element, without a call where it is a number or a text.
#[inline(always)]
fn let_go(e: Elem) {
    match e.into_form() {
        Form::Text(line) => drop(line),
        form => Elem::of(form).discard(),
    }
}
