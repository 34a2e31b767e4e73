ghost use Rattle.std.specs.Prelude.{◌≡◌, ◌≢◌, ◌++◌, [], ⊤, OnOk};
ghost use Rattle.stage_linear.specs.declared.course.Course.TheVariants as course;
ghost use Rattle.graph_stage.specs.Lifted.{not_begun, closing_asks, closing_to, behind_last_asks, behind_last_to};
ghost use Rattle.graph_stage.specs.Told.{list_of, typed_gives};

use crate::holding::Holding;
use elem_core::elem::Elem;
use elem_core::elem_type::ElemType;
use elem_core::elems::Elems;
use elem_core::typed::is_of_type;
use elem_core::why::{Cause, NoMemory};
use graph_stage::ask::Ask;
use graph_stage::asks::Asks;
use graph_stage::handlers::Handlers;
use graph_stage::sight::Sight;
use plug_logic::logic::{Logic, Verdict};
use stage_linear::course::Course;
use std::alloc::{AllocError, Global};

/// The logic of a plug as a custom stage of one input and one output, which gives what that plug gives. An element that is not of the type
/// of its input fails it with code 0; no checked blueprint sends one.
#[derive(Drop)]
pub struct Lift<L: Logic> {
    /// The type of its input.
    pub input: ElemType,
    /// What it gives.
    pub logic: L,
    /// The outputs that it holds, and what it does next.
    pub held: Holding,
}

impl<L: Logic> Lift<L> {
    /// This logic, behind an input of this type. It takes no memory.
    pub fn of(input: ElemType, logic: L) -> Lift<L>
        ensures input { result.input ≡ input }
        ensures logic { result.logic ≡ logic }
        ensures held { result.held ≡ not_begun }
    {
        Lift {
            input,
            logic,
            held: Holding::new(),
        }
    }

    // The end of the input, where nothing is held: what the logic gives then.
    fn close_input(&mut self, alloc: Global, asks: &mut Asks) -> Result<(), NoMemory>
        requires none { self.old.held.pending ≡ [] }
        ensures asks { OnOk result (asks.new ≡ asks.old ++ closing_asks self.old.held.course ((L.gives self.old.logic).closing [])) }
        ensures stands { OnOk result (self.new.held ≡ closing_to self.old.held.course ((L.gives self.old.logic).closing [])) }
        ensures input { self.new.input ≡ self.old.input }
    {
        let mut outputs = Elems::new(alloc);
        match self.logic.on_end(alloc, &mut outputs) {
            Verdict::Go | Verdict::Finish => self.held.end_with(outputs, asks),
            Verdict::Fail(n) => {
                self.held.stop();
                asks.add(Ask::Fail(n))
            }
            Verdict::NoMemory => Err(AllocError),
        }
    }

    // The last of what was held went out.
    fn end_course(&mut self, alloc: Global, asks: &mut Asks) -> Result<(), NoMemory>
        requires none { self.old.held.pending ≡ [] }
        ensures asks { OnOk result (asks.new ≡ asks.old ++ behind_last_asks (L.gives self.old.logic) self.old.held.course) }
        ensures stands { OnOk result (self.new.held ≡ behind_last_to (L.gives self.old.logic) self.old.held.course) }
        ensures logic { self.old.held.course ≢ course.Closes → self.new.logic ≡ self.old.logic }
        ensures input { self.new.input ≡ self.old.input }
    {
        match self.held.course() {
            Course::Waits | Course::Idles => Ok(()),
            Course::Leaves | Course::Ends => asks.add(Ask::Finish),
            Course::Closes => self.close_input(alloc, asks),
        }
    }
}

impl<L: Logic> Handlers for Lift<L> {
    ghost does = { λ old heard asks new. ⊤ };

    ghost tells = { λ l. list_of (typed_gives l.input (L.gives l.logic)) l.held };

    fn start(&mut self, _alloc: Global, _sight: &Sight, _asks: &mut Asks) -> Result<(), NoMemory> {
        Ok(())
    }

    fn on_push(
        &mut self,
        alloc: Global,
        _port: u8,
        e: Elem,
        _sight: &Sight,
        asks: &mut Asks,
    ) -> Result<(), NoMemory> {
        if !self.held.may_reply() || !is_of_type(&e, &self.input) {
            self.held.stop();
            return asks.add(Ask::Fail(0));
        }
        let mut outputs = self.held.take_all(alloc);
        match self.logic.on_elem(alloc, e, &mut outputs) {
            Verdict::Go => self.held.spread(outputs, asks),
            Verdict::Finish => self.held.leave(outputs, asks),
            Verdict::Fail(n) => {
                self.held.stop();
                asks.add(Ask::Fail(n))
            }
            Verdict::NoMemory => Err(AllocError),
        }
    }

    // The first that is held goes out; where nothing is, the input is asked.
    fn on_pull(
        &mut self,
        alloc: Global,
        _port: u8,
        _sight: &Sight,
        asks: &mut Asks,
    ) -> Result<(), NoMemory> {
        let Some(first) = self.held.next() else {
            self.held.wait();
            return asks.add(Ask::Pull(0));
        };
        asks.add(Ask::Push(0, first))?;
        if self.held.is_empty() {
            return self.end_course(alloc, asks);
        }
        Ok(())
    }

    fn on_finish(
        &mut self,
        alloc: Global,
        _port: u8,
        _sight: &Sight,
        asks: &mut Asks,
    ) -> Result<(), NoMemory> {
        if !self.held.is_empty() {
            self.held.end();
            return Ok(());
        }
        if self.held.may_reply() {
            return self.close_input(alloc, asks);
        }
        self.held.stop();
        asks.add(Ask::Finish)
    }

    // One that is done still gives what it holds.
    fn on_fail(
        &mut self,
        _alloc: Global,
        _port: u8,
        _cause: Cause,
        _sight: &Sight,
        asks: &mut Asks,
    ) -> Result<(), NoMemory> {
        if let Course::Leaves = self.held.course() {
            self.held.turn_to(Course::Ends);
            return Ok(());
        }
        asks.add(Ask::Pass)
    }

    fn on_cancel(
        &mut self,
        _alloc: Global,
        _port: u8,
        _sight: &Sight,
        asks: &mut Asks,
    ) -> Result<(), NoMemory> {
        match self.held.course() {
            Course::Closes | Course::Ends => Ok(()),
            _ => asks.add(Ask::Cancel(0)),
        }
    }
}
