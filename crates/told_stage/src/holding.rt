ghost use Rattle.std.specs.Prelude.{◌≡◌, [], ◌∷◌, ◌++◌, true, OnOk, IfSome, IfNone, ◌↔◌};
ghost use Rattle.graph_stage.specs.Lifted.{not_begun, over, may_reply, asked_course, course_behind_end, spread_asks, spread_to, leaving_asks, leaving_to, ended_asks, ended_to};

use elem_core::elem::Elem;
use elem_core::elems::Elems;
use elem_core::why::NoMemory;
use graph_stage::ask::Ask;
use graph_stage::asks::Asks;
use stage_linear::course::Course;
use std::alloc::Global;
use std::marker::Model;

/// The outputs that a lifted plug holds, and what it does next.
#[derive(Drop)]
pub struct Holding {
    // No list until outputs were first held.
    pending: Option<Elems>,
    course: Course,
}

impl Model for Holding {
    ghost use Rattle.std.specs.Coded.{codes};
    ghost use Rattle.elem_core.specs.TreeCode.{tree_coded};
    ghost use Rattle.graph_stage.specs.Lifted.{Telling};
    ghost use Rattle.stage_linear.specs.Pending.{outputs_in};

    ghost Value = { Telling };

    ghost coded = { Prim.hlevel (codes, tree_coded) };

    ghost view = { λ h. record { pending = outputs_in h.pending; course = h.course } };
}

impl Holding {
    /// It holds nothing, and nobody asks it. It takes no memory.
    pub fn new() -> Holding
        ensures { result ≡ not_begun }
    {
        Holding {
            pending: None,
            course: Course::Idles,
        }
    }

    /// What it does next.
    pub fn course(&self) -> Course
        ensures { result ≡ self.now.course }
    {
        self.course
    }

    /// Whether its logic may be called.
    pub fn may_reply(&self) -> bool
        ensures { result ≡ may_reply self.now.course }
    {
        match self.course {
            Course::Waits | Course::Idles | Course::Closes => true,
            Course::Leaves | Course::Ends => false,
        }
    }

    /// From now on it does this next.
    pub fn turn_to(&mut self, course: Course)
        ensures { self.new ≡ record self.old { course = course } }
    {
        self.course = course;
    }

    /// Its output was asked, and it holds nothing: it waits for its input.
    pub fn wait(&mut self)
        ensures { self.new ≡ record self.old { course = asked_course self.old.course } }
    {
        if self.may_reply() {
            self.course = Course::Waits;
        }
    }

    /// Its input has ended, and it still holds something.
    pub fn end(&mut self)
        ensures { self.new ≡ record self.old { course = course_behind_end self.old.course } }
    {
        self.course = if self.may_reply() {
            Course::Closes
        } else {
            Course::Ends
        };
    }

    /// It is done, and drops what it holds. It takes no memory.
    pub fn stop(&mut self)
        ensures { self.new ≡ over }
    {
        self.pending = None;
        self.course = Course::Ends;
    }

    /// Whether it holds nothing.
    pub fn is_empty(&self) -> bool
        ensures { result ≡ true ↔ (self.now.pending ≡ []) }
    {
        match &self.pending {
            Some(held) => held.is_empty(),
            None => true,
        }
    }

    /// Takes out the first that it holds; `None` where it holds nothing. It takes no memory.
    pub fn next(&mut self) -> Option<Elem>
        ensures first { IfSome result (λ e. self.old ≡ record self.new { pending = e ∷ self.new.pending }) }
        ensures none { IfNone result (self.old.pending ≡ []) }
        ensures unchanged { IfNone result (self.new ≡ self.old) }
    {
        match &mut self.pending {
            Some(held) => held.take(),
            None => None,
        }
    }

    /// Takes out all that it holds. It takes no memory.
    pub fn take_all(&mut self, alloc: Global) -> Elems
        ensures list { result ≡ self.old.pending }
        ensures none { self.new ≡ record self.old { pending = [] } }
    {
        match self.pending.take() {
            Some(held) => held,
            None => Elems::new(alloc),
        }
    }

    /// These are its outputs now: the first goes out, and the others are held; where there is none the input is asked again.
    pub fn spread(&mut self, mut outputs: Elems, asks: &mut Asks) -> Result<(), NoMemory>
        requires empty { asks.old ≡ [] }
        ensures asks { OnOk result (asks.new ≡ spread_asks outputs) }
        ensures stands { OnOk result (self.new ≡ spread_to outputs) }
    {
        match outputs.take() {
            Some(first) => {
                self.pending = Some(outputs);
                self.course = Course::Idles;
                asks.add(Ask::Push(0, first))
            }
            None => {
                self.pending = None;
                self.course = Course::Waits;
                asks.add(Ask::Pull(0))
            }
        }
    }

    /// These are its last outputs, and it is done: the first goes out, and the others are held; with the last it finishes.
    pub fn leave(&mut self, mut outputs: Elems, asks: &mut Asks) -> Result<(), NoMemory>
        requires empty { asks.old ≡ [] }
        ensures asks { OnOk result (asks.new ≡ leaving_asks outputs) }
        ensures stands { OnOk result (self.new ≡ leaving_to outputs) }
    {
        self.course = Course::Leaves;
        let Some(first) = outputs.take() else {
            self.pending = None;
            return asks.add(Ask::Finish);
        };
        let last = outputs.is_empty();
        self.pending = Some(outputs);
        asks.add(Ask::Push(0, first))?;
        if last {
            asks.add(Ask::Finish)?;
        }
        Ok(())
    }

    /// Its input has ended, it holds nothing, and these are its last outputs: where its output is asked the first goes out; with the last
    /// it finishes.
    pub fn end_with(&mut self, mut outputs: Elems, asks: &mut Asks) -> Result<(), NoMemory>
        requires none { self.old.pending ≡ [] }
        ensures asks { OnOk result (asks.new ≡ asks.old ++ ended_asks self.old.course outputs) }
        ensures stands { OnOk result (self.new ≡ ended_to self.old.course outputs) }
    {
        let course = self.course;
        self.course = Course::Ends;
        if outputs.is_empty() {
            self.pending = None;
            return asks.add(Ask::Finish);
        }
        if let Course::Waits = course {
            if let Some(first) = outputs.take() {
                asks.add(Ask::Push(0, first))?;
            }
            if outputs.is_empty() {
                asks.add(Ask::Finish)?;
            }
        }
        self.pending = Some(outputs);
        Ok(())
    }
}
