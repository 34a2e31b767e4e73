// The body of an island.
ghost use Rattle.std.specs.Prelude.{◌≡◌, ◌+◌, ◌<◌, ◌≤◌, ◌⊎◌, [], ℕ, true, false, None, Some, IsTrue, ◌↔◌, map, IfOk, OnOk, OnErr, length, slice_get, replicate, vec_len};
ghost use Rattle.elem_core.specs.declared.count.TheConstants.{MOST_COUNT};
ghost use Rattle.fused_net.specs.Costs.{Uses, total_cost};
ghost use Rattle.lane_core.specs.Ends.{asked_in_all};
ghost use Rattle.lane_core.specs.Boundary.{waits};
ghost use Rattle.interpreter.specs.Island.{counts_of, sinks_of, readers_of, writers_of};
ghost use Rattle.interpreter.specs.Misfits.{least_of};
ghost use Rattle.interpreter.specs.Picks.{pick_of, picks_of};
ghost use Rattle.interpreter.specs.Seats.{seats_of};
ghost use Rattle.island_body.specs.Sending.{unit_of};
ghost use Rattle.island_body.specs.declared.found.Found.TheVariants as found;
ghost use Rattle.island_body.specs.declared.output.OutputBoundary as outputs;
ghost use Rattle.island_body.specs.declared.input.IslandInput as inputs;
ghost use Rattle.interpreter.specs.Boundary.{way_in, way_out};
ghost use Rattle.island_body.specs.Ends.{in_wires, out_wires, all_taken, all_finds, AllServed, AllDone, IslandGoes};
ghost use Rattle.island_body.specs.Keeping.{is_pending, NoneLateIn, BodyBegins, BodyStands, BodyKeeps, BodyGoes, BodyBreaks, IsIdle, SameLanes};
ghost use Rattle.island_body.specs.declared.way.Way.TheVariants.{Inner};
ghost use Rattle.island_body.specs.Telling.{Wakes, WakesOn};
ghost use Rattle.island_body.specs.Moving.{TookNoneAt, TookNoneBelow, FoundNoneAt, FoundNoneBelow, OnlyIn, OnlyOut, KeepsLooks, LeftNoneAt, SawAllAt, HasLooked};

use crate::found::Found;
use crate::input::IslandInput;
use crate::output::OutputBoundary;
use crate::peers::Peers;
use crate::table::mark;
use crate::way::Way;
use elem_core::why::NoMemory;
use fused_net::engine::Advance;
use graph_stage::handlers::Handlers;
use interpreter::island::{Island, IslandEnd};
use plug_logic::book::PlugBook;
use plug_logic::logic::Logic;
use std::alloc::{AllocError, Global};
use stream_io::outside::{Drain, Source};

/// An island with the ends of its lanes. Rule: Akka Streams 2.6 reference, chapter on asynchronous boundaries.
pub struct Body<S: Source, D: Drain, L: Logic, H: Handlers, B: PlugBook> {
    pub(crate) island: Island<S, D, L, H, B>,
    // Those that take, and those that send, each in the order of their wires.
    pub(crate) ins: Vec<IslandInput>,
    pub(crate) outs: Vec<OutputBoundary>,
    // Which end stands at each connection of the island.
    pub(crate) ways: Vec<Way>,
    // The units of all its turns.
    pub(crate) spent: u32,
    // The islands at the other ends, and which of them are to be woken.
    pub(crate) peers: Peers,
}

// Dropped by a call, wherever it is dropped: else each crate above proves the drop of each of its parts again.
impl<S: Source, D: Drain, L: Logic, H: Handlers, B: PlugBook> Drop for Body<S, D, L, H, B> {
    fn drop(self) {
        let Body {
            island: _,
            ins: _,
            outs: _,
            ways: _,
            spent: _,
            peers: _,
        } = self;
    }
}

impl<S: Source, D: Drain, L: Logic, H: Handlers, B: PlugBook> Body<S, D, L, H, B> {
    /// The body of an island that has started, with the ends of its lanes, each list in the order of their wires. `ways` is a blank
    /// table with a row for each connection of the island, and `peers` the island at the other end of each. Each end does what it has
    /// to do at the start: what is asked for is asked for, and what has ended has ended. It takes no memory, and no unit.
    pub fn new(
        island: Island<S, D, L, H, B>,
        ways: Vec<Way>,
        ins: Vec<IslandInput>,
        outs: Vec<OutputBoundary>,
        peers: Peers,
    ) -> Self
        requires begins { BodyBegins island ins.items outs.items }
        requires blank { ways.items ≡ replicate (length island.net.wires) Inner }
        requires few { (length ins.items ≤ 4294967295) × (length outs.items ≤ 4294967295) }
        requires peers { (length peers.ins.items ≡ length ins.items) × (length peers.outs.items ≡ length outs.items) }
        ensures keeps { BodyKeeps S.state D.state B.lists result }
        ensures goes { IslandGoes island result.island }
        ensures lanes { SameLanes ins.items result.ins.items outs.items result.outs.items }
        ensures spent { result.spent ≡ 0 }
        ensures peers { (result.peers.ins ≡ peers.ins) × (result.peers.outs ≡ peers.outs) × (result.peers.woken.queue ≡ []) }
    {
        let mut ways = ways;
        mark(&mut ways, &island, &ins, &outs);
        let mut body = Body {
            island,
            ins,
            outs,
            ways,
            spent: 0,
            peers,
        };
        body.serve_ins();
        body.serve_outs();
        body.put_off();
        body.peers.clear();
        body.island.laws();
        body
    }

    // The place of the connection of the input end at place k.
    #[inline(always)]
    fn place_in(&self, k: usize) -> u32
        requires within { k < length self.now.ins.items }
        ensures { (x : inputs.IslandInput) → slice_get self.now.ins.items k ≡ Some x → result ≡ way_in self.now.island x.wire }
    {
        self.island.way_in(self.ins[k].wire, k)
    }

    // The same of the output end.
    #[inline(always)]
    fn place_out(&self, k: usize) -> u32
        requires within { k < length self.now.outs.items }
        ensures { (o : outputs.OutputBoundary) → slice_get self.now.outs.items k ≡ Some o → result ≡ way_out self.now.island o.wire }
    {
        self.island.way_out(self.outs[k].wire, k)
    }

    // The input end at place k, whose connection is at this place, does what it has to do.
    fn serve_in(&mut self, k: usize, place: u32)
        requires within { k < length self.old.ins.items }
        requires stands { BodyStands self.old }
        requires place { (x : inputs.IslandInput) → slice_get self.old.ins.items k ≡ Some x → place ≡ way_in self.old.island x.wire }
        ensures stands { BodyStands self.new }
        ensures served { (n m : ℕ) → ((x : inputs.IslandInput) → slice_get self.old.ins.items k ≡ Some x
            → AllServed (Some (way_in self.old.island x.wire)) n m self.old.island self.old.ins.items self.old.outs.items)
            → AllServed None n m self.new.island self.new.ins.items self.new.outs.items }
        ensures count { (length self.new.ins.items ≡ length self.old.ins.items) × (length self.new.outs.items ≡ length self.old.outs.items) }
        ensures goes { BodyGoes self.old self.new }
        ensures uses { Uses self.old.island.net self.new.island.net 0 }
        ensures costs { (all_taken self.new.ins.items ≡ all_taken self.old.ins.items) × (all_finds self.new.outs.items ≡ all_finds self.old.outs.items) }
        ensures rest { (self.new.island.used ≡ self.old.island.used) × (self.new.spent ≡ self.old.spent) }
        ensures only { OnlyIn self.old self.new k }
        ensures looks { KeepsLooks self.old self.new }
        ensures wakes { WakesOn self.old self.new }
        ensures peers { (self.new.peers.ins ≡ self.old.peers.ins) × (self.new.peers.outs ≡ self.old.peers.outs) }
    {
        let told = self.ins[k].serve(&mut self.island, place);
        self.peers.tell_in(k, told);
    }

    // The output end at place k, whose connection is at this place, does what it has to do.
    fn serve_out(&mut self, k: usize, place: u32)
        requires within { k < length self.old.outs.items }
        requires stands { BodyStands self.old }
        requires place { (o : outputs.OutputBoundary) → slice_get self.old.outs.items k ≡ Some o → place ≡ way_out self.old.island o.wire }
        ensures stands { BodyStands self.new }
        ensures served { (n m : ℕ) → ((o : outputs.OutputBoundary) → slice_get self.old.outs.items k ≡ Some o
            → AllServed (Some (way_out self.old.island o.wire)) n m self.old.island self.old.ins.items self.old.outs.items)
            → AllServed None n m self.new.island self.new.ins.items self.new.outs.items }
        ensures count { (length self.new.ins.items ≡ length self.old.ins.items) × (length self.new.outs.items ≡ length self.old.outs.items) }
        ensures goes { BodyGoes self.old self.new }
        ensures uses { Uses self.old.island.net self.new.island.net 0 }
        ensures costs { (all_taken self.new.ins.items ≡ all_taken self.old.ins.items) × (all_finds self.new.outs.items ≡ all_finds self.old.outs.items) }
        ensures rest { (self.new.island.used ≡ self.old.island.used) × (self.new.spent ≡ self.old.spent) }
        ensures looks { KeepsLooks self.old self.new }
        ensures wakes { WakesOn self.old self.new }
        ensures peers { (self.new.peers.ins ≡ self.old.peers.ins) × (self.new.peers.outs ≡ self.old.peers.outs) }
    {
        let told = self.outs[k].serve(&mut self.island, place);
        self.peers.tell_out(k, told);
    }

    // The end of a lane at connection w, if there is one, does what it has to do.
    fn serve_at(&mut self, w: u32)
        requires within { w < length self.old.ways.items }
        requires stands { BodyStands self.old }
        requires served { AllServed (Some w) (length self.old.ins.items) (length self.old.outs.items) self.old.island self.old.ins.items self.old.outs.items }
        ensures stands { BodyStands self.new }
        ensures served { AllDone self.new.island self.new.ins.items self.new.outs.items }
        ensures goes { BodyGoes self.old self.new }
        ensures uses { Uses self.old.island.net self.new.island.net 0 }
        ensures costs { (all_taken self.new.ins.items ≡ all_taken self.old.ins.items) × (all_finds self.new.outs.items ≡ all_finds self.old.outs.items) }
        ensures rest { (self.new.island.used ≡ self.old.island.used) × (self.new.spent ≡ self.old.spent) }
        ensures looks { KeepsLooks self.old self.new }
        ensures wakes { WakesOn self.old self.new }
    {
        match self.ways[w as usize] {
            Way::Inner => {}
            Way::In(k) => self.serve_in(k as usize, w),
            Way::Out(k) => self.serve_out(k as usize, w),
        }
    }

    // Each input end does what it has to do.
    fn serve_ins(&mut self)
        requires stands { BodyStands self.old }
        ensures stands { BodyStands self.new }
        ensures served { AllServed None (length self.new.ins.items) 0 self.new.island self.new.ins.items self.new.outs.items }
        ensures goes { BodyGoes self.old self.new }
        ensures costs { (all_taken self.new.ins.items ≡ all_taken self.old.ins.items) × (all_finds self.new.outs.items ≡ all_finds self.old.outs.items) }
        ensures rest { (self.new.island.used ≡ self.old.island.used) × (self.new.spent ≡ self.old.spent) }
        ensures peers { (self.new.peers.ins ≡ self.old.peers.ins) × (self.new.peers.outs ≡ self.old.peers.outs) }
    {
        for k in 0..self.ins.len() {
            let place = self.place_in(k);
            self.serve_in(k, place);
        }
    }

    // And then each output end.
    fn serve_outs(&mut self)
        requires stands { BodyStands self.old }
        requires served { AllServed None (length self.old.ins.items) 0 self.old.island self.old.ins.items self.old.outs.items }
        ensures stands { BodyStands self.new }
        ensures served { AllDone self.new.island self.new.ins.items self.new.outs.items }
        ensures goes { BodyGoes self.old self.new }
        ensures costs { (all_taken self.new.ins.items ≡ all_taken self.old.ins.items) × (all_finds self.new.outs.items ≡ all_finds self.old.outs.items) }
        ensures rest { (self.new.island.used ≡ self.old.island.used) × (self.new.spent ≡ self.old.spent) }
        ensures peers { (self.new.peers.ins ≡ self.old.peers.ins) × (self.new.peers.outs ≡ self.old.peers.outs) }
    {
        for k in 0..self.outs.len() {
            let place = self.place_out(k);
            self.serve_out(k, place);
        }
    }

    // Looks at the lane of the input end at place k, and does not yet hand on what it takes.
    fn look_in(&mut self, k: usize) -> bool
        requires within { k < length self.old.ins.items }
        requires stands { BodyStands self.old }
        requires served { AllDone self.old.island self.old.ins.items self.old.outs.items }
        ensures stands { BodyStands self.new }
        ensures served { (x : inputs.IslandInput) → slice_get self.new.ins.items k ≡ Some x
            → AllServed (Some (way_in self.new.island x.wire)) (length self.new.ins.items)
            (length self.new.outs.items) self.new.island self.new.ins.items self.new.outs.items }
        ensures still { result ≡ false → AllDone self.new.island self.new.ins.items self.new.outs.items }
        ensures behind { result ≡ true → ((x : inputs.IslandInput) → slice_get self.new.ins.items k ≡ Some x → 2 ≤ length (waits x.boundary))
            → AllDone self.new.island self.new.ins.items self.new.outs.items }
        ensures count { length self.new.ins.items ≡ length self.old.ins.items }
        ensures goes { BodyGoes self.old self.new }
        ensures took { result ≡ true → all_taken self.new.ins.items ≡ all_taken self.old.ins.items + 1 }
        ensures none { result ≡ false → TookNoneAt self.old self.new k × (all_taken self.new.ins.items ≡ all_taken self.old.ins.items) }
        ensures rest { (self.new.island ≡ self.old.island) × (self.new.outs ≡ self.old.outs) × (self.new.spent ≡ self.old.spent) }
        ensures only { OnlyIn self.old self.new k }
        ensures last { result ≡ false → LeftNoneAt self.old.ins.items self.new.ins.items k }
        ensures wakes { WakesOn self.old self.new }
    {
        self.ins[k].look()
    }

    // Whether no element waits at the input end at place k before what came last.
    #[inline(always)]
    fn is_next(&self, k: usize) -> bool
        requires within { k < length self.now.ins.items }
        ensures { result ≡ false → (x : inputs.IslandInput) → slice_get self.now.ins.items k ≡ Some x → 2 ≤ length (waits x.boundary) }
    {
        self.ins[k].boundary.is_next()
    }

    // Takes an item at the input end at place k, where one was sent, and hands on what may be handed on.
    fn take_at(&mut self, k: usize) -> bool
        requires within { k < length self.old.ins.items }
        requires stands { BodyStands self.old }
        requires served { AllDone self.old.island self.old.ins.items self.old.outs.items }
        ensures stands { BodyStands self.new }
        ensures served { AllDone self.new.island self.new.ins.items self.new.outs.items }
        ensures count { length self.new.ins.items ≡ length self.old.ins.items }
        ensures goes { BodyGoes self.old self.new }
        ensures uses { Uses self.old.island.net self.new.island.net 0 }
        ensures took { result ≡ true → all_taken self.new.ins.items ≡ all_taken self.old.ins.items + 1 }
        ensures none { result ≡ false → TookNoneAt self.old self.new k × (all_taken self.new.ins.items ≡ all_taken self.old.ins.items) }
        ensures finds { all_finds self.new.outs.items ≡ all_finds self.old.outs.items }
        ensures rest { (self.new.island.used ≡ self.old.island.used) × (self.new.spent ≡ self.old.spent) }
        ensures only { OnlyIn self.old self.new k }
        ensures last { result ≡ false → LeftNoneAt self.old.ins.items self.new.ins.items k }
        ensures wakes { WakesOn self.old self.new }
    {
        if !self.look_in(k) {
            return false;
        }
        if self.is_next(k) {
            let place = self.place_in(k);
            self.serve_in(k, place);
        }
        true
    }

    // Takes items at the input end at place k, where they were sent, until so many units were used.
    fn take_from(&mut self, k: usize, used: u32, limit: u32) -> u32
        requires within { k < length self.old.ins.items }
        requires less { used ≤ limit }
        requires stands { BodyStands self.old }
        requires served { AllDone self.old.island self.old.ins.items self.old.outs.items }
        ensures stands { BodyStands self.new }
        ensures served { AllDone self.new.island self.new.ins.items self.new.outs.items }
        ensures count { length self.new.ins.items ≡ length self.old.ins.items }
        ensures goes { BodyGoes self.old self.new }
        ensures uses { Uses self.old.island.net self.new.island.net 0 }
        ensures between { (used ≤ result) × (result ≤ limit) }
        ensures took { all_taken self.new.ins.items + used ≡ all_taken self.old.ins.items + result }
        ensures finds { all_finds self.new.outs.items ≡ all_finds self.old.outs.items }
        ensures rest { (self.new.island.used ≡ self.old.island.used) × (self.new.spent ≡ self.old.spent) }
        ensures none { result ≡ used → used < limit → TookNoneAt self.old self.new k }
        ensures only { OnlyIn self.old self.new k }
        ensures last { result < limit → LeftNoneAt self.old.ins.items self.new.ins.items k }
        ensures wakes { WakesOn self.old self.new }
    {
        let mut count = used;
        while count < limit {
            if !self.take_at(k) {
                return count;
            }
            count += 1;
        }
        count
    }

    // Looks at all input ends, in order, and takes what was sent, until so many units were used.
    fn take_all(&mut self, limit: u32) -> u32
        requires stands { BodyStands self.old }
        requires served { AllDone self.old.island self.old.ins.items self.old.outs.items }
        ensures stands { BodyStands self.new }
        ensures served { AllDone self.new.island self.new.ins.items self.new.outs.items }
        ensures goes { BodyGoes self.old self.new }
        ensures uses { Uses self.old.island.net self.new.island.net 0 }
        ensures within { result ≤ limit }
        ensures took { all_taken self.new.ins.items ≡ all_taken self.old.ins.items + result }
        ensures finds { all_finds self.new.outs.items ≡ all_finds self.old.outs.items }
        ensures rest { (self.new.island.used ≡ self.old.island.used) × (self.new.spent ≡ self.old.spent) }
        ensures none { result ≡ 0 → 1 ≤ limit → TookNoneBelow self.old self.new (length self.old.ins.items) }
        ensures outs { self.new.outs ≡ self.old.outs }
        ensures last { result < limit → (k : ℕ) → LeftNoneAt self.old.ins.items self.new.ins.items k }
        ensures wakes { WakesOn self.old self.new }
    {
        let mut used = 0;
        for k in 0..self.ins.len() {
            used = self.take_from(k, used, limit);
        }
        used
    }

    // Looks once at the output end at place k, and does what is found.
    fn visit_out(&mut self, k: usize) -> Found
        requires within { k < length self.old.outs.items }
        requires stands { BodyStands self.old }
        requires served { AllDone self.old.island self.old.ins.items self.old.outs.items }
        ensures stands { BodyStands self.new }
        ensures served { AllDone self.new.island self.new.ins.items self.new.outs.items }
        ensures count { length self.new.outs.items ≡ length self.old.outs.items }
        ensures goes { BodyGoes self.old self.new }
        ensures uses { Uses self.old.island.net self.new.island.net 0 }
        ensures taken { all_taken self.new.ins.items ≡ all_taken self.old.ins.items }
        ensures finds { all_finds self.new.outs.items ≡ all_finds self.old.outs.items + unit_of result }
        ensures rest { (self.new.island.used ≡ self.old.island.used) × (self.new.spent ≡ self.old.spent) }
        ensures none { unit_of result ≡ 0 → FoundNoneAt self.old self.new k }
        ensures only { OnlyOut self.old self.new k }
        ensures last { SawAllAt self.old.outs.items self.new.outs.items k }
        ensures wakes { WakesOn self.old self.new }
    {
        self.outs[k].visit(&mut self.island, k)
    }

    // The same, by the units that it uses: one where something is found.
    fn visit_at(&mut self, k: usize) -> u32
        requires within { k < length self.old.outs.items }
        requires stands { BodyStands self.old }
        requires served { AllDone self.old.island self.old.ins.items self.old.outs.items }
        ensures stands { BodyStands self.new }
        ensures served { AllDone self.new.island self.new.ins.items self.new.outs.items }
        ensures count { length self.new.outs.items ≡ length self.old.outs.items }
        ensures goes { BodyGoes self.old self.new }
        ensures uses { Uses self.old.island.net self.new.island.net 0 }
        ensures one { result ≤ 1 }
        ensures taken { all_taken self.new.ins.items ≡ all_taken self.old.ins.items }
        ensures finds { all_finds self.new.outs.items ≡ all_finds self.old.outs.items + result }
        ensures rest { (self.new.island.used ≡ self.old.island.used) × (self.new.spent ≡ self.old.spent) }
        ensures none { result ≡ 0 → FoundNoneAt self.old self.new k }
        ensures only { OnlyOut self.old self.new k }
        ensures last { SawAllAt self.old.outs.items self.new.outs.items k }
        ensures wakes { WakesOn self.old self.new }
    {
        let found = self.visit_out(k);
        units(found)
    }

    // The same where not so many units were used, and by the units that were used then.
    fn visit_from(&mut self, k: usize, used: u32, limit: u32) -> u32
        requires within { k < length self.old.outs.items }
        requires less { used ≤ limit }
        requires stands { BodyStands self.old }
        requires served { AllDone self.old.island self.old.ins.items self.old.outs.items }
        ensures stands { BodyStands self.new }
        ensures served { AllDone self.new.island self.new.ins.items self.new.outs.items }
        ensures count { length self.new.outs.items ≡ length self.old.outs.items }
        ensures goes { BodyGoes self.old self.new }
        ensures uses { Uses self.old.island.net self.new.island.net 0 }
        ensures between { (used ≤ result) × (result ≤ limit) }
        ensures taken { all_taken self.new.ins.items ≡ all_taken self.old.ins.items }
        ensures finds { all_finds self.new.outs.items + used ≡ all_finds self.old.outs.items + result }
        ensures rest { (self.new.island.used ≡ self.old.island.used) × (self.new.spent ≡ self.old.spent) }
        ensures none { result ≡ used → used < limit → FoundNoneAt self.old self.new k }
        ensures only { OnlyOut self.old self.new k }
        ensures last { result < limit → SawAllAt self.old.outs.items self.new.outs.items k }
        ensures wakes { WakesOn self.old self.new }
    {
        if used == limit {
            return used;
        }
        let found = self.visit_at(k);
        used + found
    }

    // Looks at all output ends, in order, until so many units were used.
    fn visit_all(&mut self, used: u32, limit: u32) -> u32
        requires less { used ≤ limit }
        requires stands { BodyStands self.old }
        requires served { AllDone self.old.island self.old.ins.items self.old.outs.items }
        ensures stands { BodyStands self.new }
        ensures served { AllDone self.new.island self.new.ins.items self.new.outs.items }
        ensures goes { BodyGoes self.old self.new }
        ensures uses { Uses self.old.island.net self.new.island.net 0 }
        ensures between { (used ≤ result) × (result ≤ limit) }
        ensures taken { all_taken self.new.ins.items ≡ all_taken self.old.ins.items }
        ensures finds { all_finds self.new.outs.items + used ≡ all_finds self.old.outs.items + result }
        ensures rest { (self.new.island.used ≡ self.old.island.used) × (self.new.spent ≡ self.old.spent) }
        ensures none { result ≡ used → used < limit → FoundNoneBelow self.old self.new (length self.old.outs.items) }
        ensures ins { self.new.ins ≡ self.old.ins }
        ensures last { result < limit → (k : ℕ) → SawAllAt self.old.outs.items self.new.outs.items k }
        ensures wakes { WakesOn self.old self.new }
    {
        let mut count = used;
        for k in 0..self.outs.len() {
            count = self.visit_from(k, count, limit);
        }
        count
    }

    // Handles the events of the island, and lets each end of a lane that hears of one do what it has to do, until so many units were
    // used, or until it is to pause, where it may.
    fn run(&mut self, alloc: Global, used: u32, limit: u32, pausing: bool) -> Result<u32, NoMemory>
        requires less { used ≤ limit }
        requires few { self.old.island.used + limit ≤ MOST_COUNT + used }
        requires stands { BodyStands self.old }
        requires served { AllDone self.old.island self.old.ins.items self.old.outs.items }
        ensures stands { OnOk result (BodyStands self.new) }
        ensures served { OnOk result (AllDone self.new.island self.new.ins.items self.new.outs.items) }
        ensures goes { OnOk result (BodyGoes self.old self.new) }
        ensures between { IfOk result (λ count. (used ≤ count) × (count ≤ limit)) }
        ensures uses { IfOk result (λ count. total_cost self.old.island.net + count ≤ total_cost self.new.island.net + used) }
        ensures used { IfOk result (λ count. self.new.island.used + used ≡ self.old.island.used + count) }
        ensures costs { OnOk result ((all_taken self.new.ins.items ≡ all_taken self.old.ins.items)
            × (all_finds self.new.outs.items ≡ all_finds self.old.outs.items) × (self.new.spent ≡ self.old.spent)) }
        ensures none { IfOk result (λ count. count ≡ used → used < limit
            → (self.new.ins ≡ self.old.ins) × (self.new.outs ≡ self.old.outs) × (self.old.island.net.queue ≡ [])) }
        ensures looks { OnOk result (KeepsLooks self.old self.new) }
        ensures wakes { OnOk result (WakesOn self.old self.new) }
        ensures rest { IfOk result (λ count. count < limit → (pausing ≡ false) ⊎ (is_pending self.new ≡ false) → self.new.island.net.queue ≡ []) }
        ensures calm { OnOk result (is_pending self.new ≡ false → NoneLateIn self.new) }
        ensures breaks { OnErr result (BodyBreaks S.state D.state B.lists self.old self.new) }
    {
        // Only what an end of a lane does right behind a handler counts as caused by it.
        self.island.settle();
        let mut count = used;
        loop {
            if self.is_to_pause(pausing, count - used) {
                return Ok(count);
            }
            let heard = self.step(alloc, limit - count)?;
            count += heard.used;
            if self.is_done(heard.heard, limit - count) {
                return Ok(count);
            }
        }
    }

    // Whether a turn that may pause is to end behind so many events: the next one may wait for a read, and a peer has something to hear of
    // before.
    // Choice: docs/DECISIONS.md#turn-ends-before-a-read
    fn is_to_pause(&self, pausing: bool, some: u32) -> bool
        ensures { result ≡ true → (pausing ≡ true) × ((0 < some) × (is_pending self.now ≡ true)) }
    {
        pausing
            && self.island.awaits_read()
            && some > 0
            && !self.peers.woken().is_empty()
            && self.is_pending()
    }

    // What is to be done behind events: the end of a lane that heard of one does what it has to do. Where none did, a turn is done, but
    // where units are left and a sink failed to write what it had put off.
    fn is_done(&mut self, heard: Option<u32>, left: u32) -> bool
        requires within { (w : ℕ) → heard ≡ Some w → w < length self.old.ways.items }
        requires stands { BodyStands self.old }
        requires served { AllServed heard (length self.old.ins.items) (length self.old.outs.items) self.old.island self.old.ins.items self.old.outs.items }
        ensures stands { BodyStands self.new }
        ensures served { AllDone self.new.island self.new.ins.items self.new.outs.items }
        ensures goes { BodyGoes self.old self.new }
        ensures uses { Uses self.old.island.net self.new.island.net 0 }
        ensures costs { (all_taken self.new.ins.items ≡ all_taken self.old.ins.items) × (all_finds self.new.outs.items ≡ all_finds self.old.outs.items) }
        ensures rest { (self.new.island.used ≡ self.old.island.used) × (self.new.spent ≡ self.old.spent) }
        ensures looks { KeepsLooks self.old self.new }
        ensures wakes { WakesOn self.old self.new }
        ensures lanes { heard ≡ None → (self.new.ins ≡ self.old.ins) × (self.new.outs ≡ self.old.outs) }
        ensures done { result ≡ true → (heard ≡ None) × (is_pending self.new ≡ false → NoneLateIn self.new) × (1 ≤ left → is_pending self.new ≡ false) }
        ensures not_done { result ≡ false → heard ≡ None → (is_pending self.new ≡ true) × (1 ≤ left) }
    {
        match heard {
            Some(w) => {
                self.serve_at(w);
                false
            }
            None => {
                let pending = self.put_off();
                !pending || left == 0
            }
        }
    }

    // Where no event is left, each sink of the island writes the lines that it has put off. The answer says whether an event is pending
    // then: one is new where a write failed.
    fn put_off(&mut self) -> bool
        requires stands { BodyStands self.old }
        requires served { AllDone self.old.island self.old.ins.items self.old.outs.items }
        ensures stands { BodyStands self.new }
        ensures served { AllDone self.new.island self.new.ins.items self.new.outs.items }
        ensures goes { BodyGoes self.old self.new }
        ensures pending { result ≡ is_pending self.new }
        ensures calm { is_pending self.new ≡ false → NoneLateIn self.new }
        ensures some { is_pending self.old ≡ true → self.new ≡ self.old }
        ensures uses { Uses self.old.island.net self.new.island.net 0 }
        ensures used { self.new.island.used ≡ self.old.island.used }
        ensures lanes { (self.new.ins ≡ self.old.ins) × (self.new.outs ≡ self.old.outs) × (self.new.ways ≡ self.old.ways)
            × (self.new.spent ≡ self.old.spent) × (self.new.peers ≡ self.old.peers) }
    {
        if self.is_pending() {
            return true;
        }
        self.write_off();
        self.is_pending()
    }

    // Each of its sinks does.
    fn write_off(&mut self)
        requires stands { BodyStands self.old }
        requires served { AllDone self.old.island self.old.ins.items self.old.outs.items }
        ensures stands { BodyStands self.new }
        ensures served { AllDone self.new.island self.new.ins.items self.new.outs.items }
        ensures goes { BodyGoes self.old self.new }
        ensures calm { NoneLateIn self.new }
        ensures uses { Uses self.old.island.net self.new.island.net 0 }
        ensures used { self.new.island.used ≡ self.old.island.used }
        ensures lanes { (self.new.ins ≡ self.old.ins) × (self.new.outs ≡ self.old.outs) × (self.new.ways ≡ self.old.ways)
            × (self.new.spent ≡ self.old.spent) × (self.new.peers ≡ self.old.peers) }
    {
        self.island.laws();
        self.island.put_off();
        self.island.laws();
    }

    // Handles events of the island, up to one of which the stage at an end of a lane has heard.
    fn step(&mut self, alloc: Global, limit: u32) -> Result<Advance, NoMemory>
        requires few { self.old.island.used + limit ≤ MOST_COUNT }
        requires stands { BodyStands self.old }
        requires served { AllDone self.old.island self.old.ins.items self.old.outs.items }
        ensures stands { OnOk result (BodyStands self.new) }
        ensures served { IfOk result (λ a. AllServed a.heard (length self.new.ins.items)
            (length self.new.outs.items) self.new.island self.new.ins.items self.new.outs.items) }
        ensures goes { OnOk result (BodyGoes self.old self.new) }
        ensures heard { IfOk result (λ a. (w : ℕ) → a.heard ≡ Some w → (1 ≤ a.used) × (w < length self.new.ways.items)) }
        ensures within { IfOk result (λ a. a.used ≤ limit) }
        ensures none { IfOk result (λ a. a.used ≡ 0 → self.new ≡ self.old) }
        ensures rest { IfOk result (λ a. a.used < limit → a.heard ≡ None → self.new.island.net.queue ≡ []) }
        ensures uses { IfOk result (λ a. Uses self.old.island.net self.new.island.net a.used) }
        ensures used { IfOk result (λ a. self.new.island.used ≡ self.old.island.used + a.used) }
        ensures lanes { OnOk result ((self.new.ins ≡ self.old.ins) × (self.new.outs ≡ self.old.outs) × (self.new.ways ≡ self.old.ways)
            × (self.new.spent ≡ self.old.spent) × (self.new.peers ≡ self.old.peers)) }
        ensures breaks { OnErr result (BodyBreaks S.state D.state B.lists self.old self.new) }
    {
        self.island.laws();
        let advance = self.island.advance(alloc, limit)?;
        self.island.laws();
        Ok(advance)
    }

    // Choices: docs/DECISIONS.md#looks-at-its-start, docs/DECISIONS.md#units-are-answered-by-turns
    /// Takes a turn: takes what its lanes brought, looks once whether more is asked of it, and lets the island run, by at most so many
    /// units in all; one for each event, each item that it takes, and each look that finds new demand or a cancel. It answers how
    /// many. After `NoMemory` it takes no turn any more; its lanes stand, and its handles hold what they held at the last moment
    /// between two events, but for what a source read ahead.
    pub fn take_turn(&mut self, alloc: Global, limit: u32) -> Result<u32, NoMemory>
        requires keeps { BodyKeeps S.state D.state B.lists self.old }
        requires few { self.old.spent + limit ≤ MOST_COUNT }
        ensures keeps { OnOk result (BodyKeeps S.state D.state B.lists self.new) }
        ensures goes { OnOk result (BodyGoes self.old self.new) }
        ensures spent { IfOk result (λ used. self.new.spent ≡ self.old.spent + used) }
        ensures within { IfOk result (λ used. used ≤ limit) }
        ensures idle { IfOk result (λ used. used ≡ 0 → 1 ≤ limit → IsIdle self.old self.new) }
        ensures found { IfOk result (λ used. used < limit → HasLooked self.old self.new) }
        ensures wakes { OnOk result (Wakes self.old self.new) }
        ensures breaks { OnErr result (BodyBreaks S.state D.state B.lists self.old self.new) }
    {
        self.turn_by(alloc, limit, false)
    }

    /// The same, but for that it ends before its limit where an event is left that may wait for a read, and it sent something to other
    /// islands: so these hear of it before the wait. It is to take its next turn behind them.
    pub fn take_part(&mut self, alloc: Global, limit: u32) -> Result<u32, NoMemory>
        requires keeps { BodyKeeps S.state D.state B.lists self.old }
        requires few { self.old.spent + limit ≤ MOST_COUNT }
        ensures keeps { OnOk result (BodyKeeps S.state D.state B.lists self.new) }
        ensures goes { OnOk result (BodyGoes self.old self.new) }
        ensures spent { IfOk result (λ used. self.new.spent ≡ self.old.spent + used) }
        ensures within { IfOk result (λ used. used ≤ limit) }
        ensures idle { IfOk result (λ used. used ≡ 0 → 1 ≤ limit → IsIdle self.old self.new) }
        ensures found { IfOk result (λ used. used < limit → is_pending self.new ≡ false → HasLooked self.old self.new) }
        ensures wakes { OnOk result (Wakes self.old self.new) }
        ensures breaks { OnErr result (BodyBreaks S.state D.state B.lists self.old self.new) }
    {
        self.turn_by(alloc, limit, true)
    }

    // Takes a turn, and pauses in it or not.
    fn turn_by(&mut self, alloc: Global, limit: u32, pausing: bool) -> Result<u32, NoMemory>
        requires keeps { BodyKeeps S.state D.state B.lists self.old }
        requires few { self.old.spent + limit ≤ MOST_COUNT }
        ensures keeps { OnOk result (BodyKeeps S.state D.state B.lists self.new) }
        ensures goes { OnOk result (BodyGoes self.old self.new) }
        ensures spent { IfOk result (λ used. self.new.spent ≡ self.old.spent + used) }
        ensures within { IfOk result (λ used. used ≤ limit) }
        ensures idle { IfOk result (λ used. used ≡ 0 → 1 ≤ limit → IsIdle self.old self.new) }
        ensures found { IfOk result (λ used. used < limit → (pausing ≡ false) ⊎ (is_pending self.new ≡ false) → HasLooked self.old self.new) }
        ensures wakes { OnOk result (Wakes self.old self.new) }
        ensures breaks { OnErr result (BodyBreaks S.state D.state B.lists self.old self.new) }
    {
        self.peers.clear();
        let taken = self.take_all(limit);
        let found = self.visit_all(taken, limit);
        let used = self.run(alloc, found, limit, pausing)?;
        self.island.laws();
        self.spent += used;
        Ok(used)
    }

    // Choice: docs/DECISIONS.md#calls-of-a-body
    /// The islands that the last turn sent an item, demand or a cancel to, each once. It takes no memory.
    pub fn woken(&self) -> &[u32]
        ensures { result.now ≡ self.now.peers.woken.queue }
    {
        self.peers.woken()
    }

    /// Whether an event is pending in its island. It takes no memory.
    pub fn is_pending(&self) -> bool
        ensures { result ≡ is_pending self.now }
    {
        !self.island.at_rest()
    }

    /// How many elements the input end at place `k` has asked its lane for in all.
    pub fn asked(&self, k: usize) -> u64
        requires { k < length self.now.ins.items }
        ensures { (x : inputs.IslandInput) → slice_get self.now.ins.items k ≡ Some x → result ≡ asked_in_all x.boundary.lane }
    {
        self.ins[k].boundary.asked()
    }

    // Choice: docs/DECISIONS.md#taking-apart-cannot-fail
    /// Takes it apart: what its island leaves. It takes no memory, also after a turn that answered `NoMemory`.
    pub fn finish(self) -> IslandEnd<S, D>
        ensures sinks { result.sinks.items ≡ sinks_of self.island.net.nodes }
        ensures wires { result.wires.items ≡ counts_of self.island.numbers self.island.net.wires }
        ensures picks { map pick_of result.picks.items ≡ picks_of self.island.places self.island.net.nodes }
        ensures misfit { result.misfit ≡ least_of self.island.places self.island.net.nodes }
        ensures seats { result.seats.items ≡ seats_of self.island.places self.island.net.nodes }
        ensures readers { result.readers.items ≡ readers_of self.island.net.nodes }
        ensures writers { result.writers.items ≡ writers_of self.island.net.nodes }
    {
        let Body {
            island,
            ins: _,
            outs: _,
            ways: _,
            spent: _,
            peers: _,
        } = self;
        match island.finish() {
            Ok(end) => end,
            Err(AllocError) => unreachable!(),
        }
    }
}

// How many units a find is.
fn units(found: Found) -> u32
    ensures units { result ≡ unit_of found }
    ensures one { result ≤ 1 }
{
    match found {
        Found::Nothing => 0,
        Found::Demand | Found::Cancelled => 1,
    }
}
