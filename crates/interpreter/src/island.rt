// An island of nodes that runs event by event.
ghost use Rattle.std.specs.Prelude.{◌≡◌, ◌+◌, ◌<◌, ◌≤◌, ◌↔◌, ◌∷◌, ◌++◌, [], true, false, None, Some, length, replicate, slice_get, ℕ, IsTrue, IfNone, IfSome, IsOk, IfOk, IfErr, OnOk, OnErr, map, vec_len, vec_capacity};
ghost use Rattle.fused_net.specs.Laws.{Starting, NetGoesOn, BreaksOff};
ghost use Rattle.fused_net.specs.Net.{wire_at};
ghost use Rattle.fused_net.specs.Costs.{all_asks, Uses};
ghost use Rattle.fused_net.specs.Outside.{BreaksAside, StandsStill, Untouched};
ghost use Rattle.fused_net.specs.declared.queue.TheConstants.{MOST_CHASES};
ghost use Rattle.nodes.specs.Nodes.{node_fresh, node_port_state, node_law, node_asking, node_moves, node_gone, node_passive, KeepsNode, NoneLate};
ghost use Rattle.interpreter.specs.Parts.{AreParts, AllBecome, NonePutsTogether, IsSized, ends_of, wire_number, inputs_at, outputs_at, seat_place};
ghost use Rattle.interpreter.specs.Picks.{place_number, pick_of, with_picks, picks_of};
ghost use Rattle.interpreter.specs.Misfits.{least, found_at, least_of};
ghost use Rattle.port_core.specs.Picks.{misfit_in};
ghost use Rattle.nodes.specs.Nodes.{node_misfit};
ghost use Rattle.interpreter.specs.Seats.{with_seat, seats_of};
ghost use Rattle.interpreter.specs.Island.{IslandKeeps, counts_of, sinks_of, readers_of, writers_of};
ghost use Rattle.std.specs.Option.{option_map};
ghost use Rattle.elem_core.specs.declared.count.TheConstants.{MOST_COUNT};
ghost use Rattle.interpreter.specs.Room.{HasRoom, RoomFor, IsBlank, IsRoom};
ghost use Rattle.port_core.specs.Cell.{new_cell};
ghost use Rattle.interpreter.specs.Handles.{DidNotStart, HandsBack, HoldsHandles};
ghost use Rattle.interpreter.specs.declared.parts.Link as wiring;
ghost use Rattle.interpreter.specs.Ways.{comes_in, goes_out};
ghost use Rattle.interpreter.specs.Boundary.{BeginsOut, Enters, Leaves, EntersBy, LeavesBy, HandsOut, Drops, way_in, way_out, cell_in, cell_out, with_net};
ghost use Rattle.interpreter.specs.BoundaryPlaces.{IsClearAt, ReceivedAt, wanted_at, moved_at, ended_at};
ghost use Rattle.interpreter.specs.declared.wanted.Wanted.TheVariants as wanted;
ghost use Rattle.port_core.specs.Decoding.{can_pull};
ghost use Rattle.port_core.specs.declared.act.Act.TheVariants as act;

use crate::calls;
use crate::lane_ends::list_lanes;
use crate::parts::{Parts, Seated, build_all, join_ports};
use crate::room::{Blank, IslandRoom};
use crate::wanted::Wanted;
use crate::ways::Ways;
use elem_core::elem::Elem;
use elem_core::item::Item;
use elem_core::why::{Cause, NoMemory};
use fused_net::engine::{Advance, Engine};
use graph_stage::handlers::Handlers;
use nodes::node::{IslandNode, NodeEnd};
use plug_logic::book::PlugBook;
use plug_logic::logic::Logic;
use port_core::acts::Acts;
use port_core::pick_log::PickLog;
use port_core::wire::Wire;
use stage_switch::seat::SwitchSeat;
use std::alloc::{AllocError, Global};
use std::cmp::min;
use std::marker::Model;
use stream_io::outside::{Drain, Source};
use stream_model::outcome::{EndState, PickList, WireCount};

/// The nodes and wires of one island, and the wires that have an event. After `NoMemory` it is only dropped or taken apart.
/// Akka calls this an island too, and runs it by a `GraphInterpreterShell`.
pub struct Island<S: Source, D: Drain, L: Logic, H: Handlers, B: PlugBook> {
    engine: Engine<IslandNode<S, D, L, H, B>>,
    acts: Acts,
    numbers: Vec<u32>,
    // The number in the blueprint of each of its nodes.
    places: Vec<u32>,
    // The connections at which lanes come in and go out.
    ways: Ways,
    // Whether a sink in it may put lines off.
    gathers: bool,
    used: u32,
    broken: bool,
    // The lists of its end, which are empty and have room for all of it: it is taken apart without memory.
    room: IslandEnd<S, D>,
}

// Dropped by a call, wherever it is dropped: else each crate above proves the drop of each of its parts again.
impl<S: Source, D: Drain, L: Logic, H: Handlers, B: PlugBook> Drop for Island<S, D, L, H, B> {
    fn drop(self) {
        let Island {
            engine: _,
            acts: _,
            numbers: _,
            places: _,
            ways: _,
            gathers: _,
            used: _,
            broken: _,
            room: _,
        } = self;
    }
}

impl<S: Source, D: Drain, L: Logic, H: Handlers, B: PlugBook> Model for Island<S, D, L, H, B> {
    ghost use Rattle.std.specs.Prelude.{◌≡◌, ◌≤◌, [], false, length};
    ghost use Rattle.stage_core.specs.declared.stage.TheConstants.{LEAST_ACTS};
    ghost use Rattle.fused_net.specs.Laws.{HaveRoom};
    ghost use Rattle.interpreter.specs.Island.{Kept, IslandKeeps};
    ghost use Rattle.interpreter.specs.Room.{HasRoom};
    ghost use Rattle.interpreter.specs.Parts.{AllPutOne};
    ghost use Rattle.std.specs.Coded.{codes};
    ghost use Rattle.elem_core.specs.Sort.{sort_coded};
    ghost use Rattle.elem_core.specs.TreeCode.{tree_coded};

    ghost Value = { Kept S D L H B };

    ghost coded = { Prim.hlevel (codes, sort_coded, tree_coded) };

    ghost view = { λ i. record {
      net = i.engine;
      numbers = i.numbers.items;
      places = i.places.items;
      ins = i.ways.ins.items;
      outs = i.ways.outs.items;
      used = i.used;
      broken = i.broken;
    } };

    ghost invariant = { λ i. HasRoom i.room (length i.engine.nodes) (length i.numbers.items) × (length i.places.items ≡ length i.engine.nodes)
        × (i.broken ≡ false → IslandKeeps S.state D.state B.lists i.engine i.used × (i.acts.items ≡ []) × (LEAST_ACTS ≤ i.acts.room)
        × HaveRoom i.engine.ports i.acts.room × (i.gathers ≡ false → AllPutOne i.engine.firsts)) };
}

/// A sink at the end of a run: its node, the lines that it wrote, and how it stands.
pub type SinkStand = (u32, u64, EndState);

/// What an island leaves at its end, each list in order of its nodes or wires.
#[derive(Drop)]
pub struct IslandEnd<S: Source, D: Drain> {
    /// Of each sink its node, the lines that it wrote, and how it stands.
    pub sinks: Vec<SinkStand>,
    /// Of each wire its number in the blueprint, and what it carried.
    pub wires: Vec<(u32, WireCount)>,
    /// The moves of each stage whose kind chooses, also where it made none.
    pub picks: Vec<PickList>,
    /// The least of its nodes that could not make its next move, and the place of that move, from 0.
    pub misfit: Option<(u32, u32)>,
    /// Of each valve and each trip its node, and its seat at its kill switch.
    pub seats: Vec<(u32, SwitchSeat)>,
    /// The sources of bytes of its readers.
    pub readers: Vec<S>,
    /// The drains of its sinks that have a file.
    pub writers: Vec<D>,
}

/// Why an island did not start.
#[derive(Drop)]
pub enum StartEnd<S: Source, D: Drain> {
    /// Memory was wanting: it was taken apart.
    NoMemory(IslandEnd<S, D>),
}

impl<S: Source, D: Drain, L: Logic, H: Handlers, B: PlugBook> Island<S, D, L, H, B> {
    /// Makes the island of these parts, for which this room was taken, and starts every node. Only a node may want memory then.
    /// On want of memory nothing was read or written, and it hands all handles back as they were handed in.
    pub fn start(
        alloc: Global,
        parts: Parts<S, D, L, H, B>,
        room: IslandRoom<S, D, L, H, B>,
    ) -> Result<Island<S, D, L, H, B>, StartEnd<S, D>>
        requires parts { AreParts parts.nodes.items parts.links.items }
        requires room { IsRoom room (map seat_place parts.nodes.items) parts.links.items }
        ensures whole { IfOk result (λ i. i.broken ≡ false) }
        ensures unused { IfOk result (λ i. i.used ≡ 0) }
        ensures laws { IfOk result (λ i. IslandKeeps S.state D.state B.lists i.net 0) }
        ensures firsts { IfOk result (λ i. AllBecome parts.nodes.items i.net.firsts) }
        ensures ends { IfOk result (λ i. i.net.ends ≡ map ends_of parts.links.items) }
        ensures numbers { IfOk result (λ i. i.numbers ≡ map wire_number parts.links.items) }
        ensures places { IfOk result (λ i. i.places ≡ map place_number parts.nodes.items) }
        ensures enters { IfOk result (λ i. (q : ℕ) (l : wiring.Link) → slice_get parts.links.items q ≡ Some l → comes_in parts.nodes.items l.from ≡ true
            → EntersBy i l.wire q) }
        ensures leaves { IfOk result (λ i. (q : ℕ) (l : wiring.Link) → slice_get parts.links.items q ≡ Some l → goes_out parts.nodes.items l.to ≡ true
            → LeavesBy i l.wire q) }
        ensures begins_in { IfOk result (λ i. (q : ℕ) (l : wiring.Link) → slice_get parts.links.items q ≡ Some l → comes_in parts.nodes.items l.from ≡ true
            → (wire_at i.net q).wire.sent ≡ []) }
        ensures begins_out { IfOk result (λ i. (q : ℕ) (l : wiring.Link) → slice_get parts.links.items q ≡ Some l → goes_out parts.nodes.items l.to ≡ true
            → BeginsOut i.net q) }
        ensures handles { IfOk result (λ i. HoldsHandles S.state D.state parts.nodes.items i.net.nodes) }
        ensures no_memory { IfErr result (DidNotStart S.state D.state parts.nodes.items) }
    {
        let IslandRoom {
            mut acts,
            numbers,
            places,
            blank,
            ways,
            end,
        } = room;
        let ways = list_lanes(ways, &parts.nodes, &parts.links);
        let gathers = may_gather(&parts.nodes);
        let mut engine = assemble(alloc, parts, blank);
        match engine.start(alloc, &mut acts) {
            Ok(()) => Ok(Island {
                engine,
                acts,
                numbers,
                places,
                ways,
                gathers,
                used: 0,
                broken: false,
                room: end,
            }),
            Err(AllocError) => Err(StartEnd::NoMemory(leave(engine, &numbers, &places, end))),
        }
    }

    /// Handles at most `limit` events, one unit each, and fewer only where none is left. It answers how many. On want of memory
    /// its handles hold what they held at the last moment between two events, but for what a source read ahead.
    pub fn execute(&mut self, alloc: Global, limit: u32) -> Result<u32, NoMemory>
        requires whole { self.old.broken ≡ false }
        requires few { self.old.used + limit ≤ MOST_COUNT }
        ensures whole { OnOk result (self.new.broken ≡ false) }
        ensures on { OnOk result (NetGoesOn self.old.net self.new.net) }
        ensures numbers { OnOk result (self.new.numbers ≡ self.old.numbers) }
        ensures places { OnOk result (self.new.places ≡ self.old.places) }
        ensures ways { OnOk result ((self.new.ins ≡ self.old.ins) × (self.new.outs ≡ self.old.outs)) }
        ensures gone { OnOk result (map node_gone self.new.net.nodes ≡ map node_gone self.old.net.nodes) }
        ensures still { OnOk result (StandsStill node_passive self.old.net self.new.net) }
        ensures used { IfOk result (λ used. self.new.used ≡ self.old.used + used) }
        ensures uses { IfOk result (λ used. Uses self.old.net self.new.net used) }
        ensures within { IfOk result (λ used. used ≤ limit) }
        ensures rest { IfOk result (λ used. used < limit → self.new.net.queue ≡ []) }
        ensures breaks { OnErr result (BreaksOff node_port_state (node_law S.state D.state B.lists) node_asking node_moves
            (KeepsNode S.state D.state) self.old.net self.new.net.nodes) }
    {
        self.broken = true;
        let used = self.engine.execute(alloc, limit, &mut self.acts)?;
        self.used += used;
        self.broken = false;
        Ok(used)
    }

    /// Handles events as `execute` does, but stops behind one of which a stage at an end of a lane has heard, and says at which
    /// connection: so whoever serves the ends of lanes has to look at that one alone.
    pub fn advance(&mut self, alloc: Global, limit: u32) -> Result<Advance, NoMemory>
        requires whole { self.old.broken ≡ false }
        requires few { self.old.used + limit ≤ MOST_COUNT }
        ensures whole { OnOk result (self.new.broken ≡ false) }
        ensures on { OnOk result (NetGoesOn self.old.net self.new.net) }
        ensures numbers { OnOk result (self.new.numbers ≡ self.old.numbers) }
        ensures places { OnOk result (self.new.places ≡ self.old.places) }
        ensures ways { OnOk result ((self.new.ins ≡ self.old.ins) × (self.new.outs ≡ self.old.outs)) }
        ensures gone { OnOk result (map node_gone self.new.net.nodes ≡ map node_gone self.old.net.nodes) }
        ensures still { OnOk result (StandsStill node_passive self.old.net self.new.net) }
        ensures untouched { IfOk result (λ a. Untouched node_passive a.heard self.old.net self.new.net) }
        ensures used { IfOk result (λ a. self.new.used ≡ self.old.used + a.used) }
        ensures uses { IfOk result (λ a. Uses self.old.net self.new.net a.used) }
        ensures within { IfOk result (λ a. a.used ≤ limit) }
        ensures rest { IfOk result (λ a. a.used < limit → a.heard ≡ None → self.new.net.queue ≡ []) }
        ensures none { IfOk result (λ a. a.used ≡ 0 → self.new ≡ self.old) }
        ensures heard { IfOk result (λ a. (w : ℕ) → a.heard ≡ Some w → (1 ≤ a.used) × (w < length self.new.net.wires)) }
        ensures breaks { OnErr result (BreaksAside node_port_state (node_law S.state D.state B.lists) node_asking node_moves node_gone node_passive
            (KeepsNode S.state D.state) self.old.net self.new.net.nodes) }
    {
        self.broken = true;
        let advance = self.engine.advance(alloc, limit, &mut self.acts)?;
        self.used += advance.used;
        self.broken = false;
        Ok(advance)
    }

    // Choice: docs/DECISIONS.md#island-knows-whether-it-gathers
    /// Each of its sinks writes the lines that it has put off. Where that fails the sink cancels its input, and only then an event is new.
    /// It takes no memory and costs no unit.
    pub fn put_off(&mut self)
        requires whole { self.old.broken ≡ false }
        ensures whole { self.new.broken ≡ false }
        ensures on { NetGoesOn self.old.net self.new.net }
        ensures numbers { self.new.numbers ≡ self.old.numbers }
        ensures places { self.new.places ≡ self.old.places }
        ensures ways { (self.new.ins ≡ self.old.ins) × (self.new.outs ≡ self.old.outs) }
        ensures gone { map node_gone self.new.net.nodes ≡ map node_gone self.old.net.nodes }
        ensures still { StandsStill node_passive self.old.net self.new.net }
        ensures untouched { Untouched node_passive None self.old.net self.new.net }
        ensures used { self.new.used ≡ self.old.used }
        ensures uses { Uses self.old.net self.new.net 0 }
        ensures all { NoneLate self.new.net.nodes }
    {
        if !self.gathers {
            return;
        }
        self.engine.put_off();
    }

    /// Each of its connections that has an event waits for its turn: only what is caused from now on may be handled at once. Nothing that
    /// contracts see changes. It takes no memory.
    pub fn settle(&mut self)
        ensures { self.new ≡ self.old }
    {
        self.engine.settle();
    }

    /// The place of the connection at which the lane that is wire `wire` comes in, and 0 where it does not. It is looked for first
    /// where it is number `near` of the lanes that come in, in the order of the island's links.
    #[inline(always)]
    pub fn way_in(&self, wire: u32, near: usize) -> u32
        ensures { result ≡ way_in self.now wire }
    {
        self.ways.place_in(wire, near)
    }

    /// The same of the connection at which it goes out.
    #[inline(always)]
    pub fn way_out(&self, wire: u32, near: usize) -> u32
        ensures { result ≡ way_out self.now wire }
    {
        self.ways.place_out(wire, near)
    }

    /// What it keeps between two calls: the law of each node over the histories of its wires, the joint state of each wire,
    /// and the units that it used, which bound the elements that were pushed. The call does nothing.
    pub fn laws(&self)
        ensures { self.now.broken ≡ false → IslandKeeps S.state D.state B.lists self.now.net self.now.used }
    {
        let _ = &self.broken;
    }

    /// Whether no event is left. It takes no memory.
    pub fn at_rest(&self) -> bool
        ensures { IsTrue result ↔ (self.now.net.queue ≡ []) }
    {
        self.engine.is_at_rest()
    }

    /// Whether a source in it may wait for a read where it is asked next. It takes no memory.
    pub fn may_wait(&self) -> bool {
        self.acts.any_drained()
    }

    /// Whether one of these was asked. It takes no memory.
    pub fn awaits_read(&self) -> bool {
        self.may_wait() && self.engine.awaits_read()
    }

    /// The most events that were chased for one that waited for its turn: handled at once, since a handler that had just been called
    /// asked for them or gave them. It takes no memory.
    pub fn longest_chase(&self) -> u32
        ensures { result ≤ MOST_CHASES }
    {
        self.engine.longest_chase()
    }

    /// What the stage at which the lane that is wire `wire` comes in was asked: it was cancelled, its connection lets it push, or
    /// neither. `place` is the place of that connection. It takes no memory.
    pub fn wanted_by_place(&self, wire: u32, place: u32) -> Wanted
        requires enters { Enters self.now wire }
        requires place { place ≡ way_in self.now wire }
        ensures { result ≡ wanted_at (cell_in self.now wire) }
    {
        calls::wanted(&self.engine, place)
    }

    /// Pushes an element where that lane comes in. It takes no memory and costs no unit.
    pub fn push_by_place(&mut self, wire: u32, place: u32, e: Elem)
        requires whole { self.old.broken ≡ false }
        requires enters { Enters self.old wire }
        requires place { place ≡ way_in self.old wire }
        requires asked { wanted_at (cell_in self.old wire) ≡ wanted.Asked }
        ensures after { self.new ≡ with_net self.old (moved_at self.old.net (way_in self.old wire) (act.Push 0 e)) }
        ensures uses { Uses self.old.net self.new.net 0 }
    {
        calls::push_in(&mut self.engine, place, e);
    }

    /// Completes what comes in there, or fails it; no change where its output is closed. It takes no memory and costs no unit.
    pub fn end_by_place(&mut self, wire: u32, place: u32, cause: Option<Cause>)
        requires whole { self.old.broken ≡ false }
        requires enters { Enters self.old wire }
        requires place { place ≡ way_in self.old wire }
        ensures after { self.new ≡ with_net self.old (ended_at self.old.net (way_in self.old wire) cause) }
        ensures uses { Uses self.old.net self.new.net 0 }
    {
        calls::end_in(&mut self.engine, place, cause);
    }

    /// Whether the stage at which the lane that is wire `wire` goes out may ask: its connection lets it, and nothing waits to be
    /// handed out. `place` is the place of that connection. It takes no memory.
    pub fn can_pull_by_place(&self, wire: u32, place: u32) -> bool
        requires whole { self.now.broken ≡ false }
        requires leaves { Leaves self.now wire }
        requires place { place ≡ way_out self.now wire }
        ensures { IsTrue result ↔ (IsTrue (can_pull (cell_out self.now wire).wire.conn) × IsClearAt self.now.net (way_out self.now wire)) }
    {
        calls::can_pull_out(&self.engine, place)
    }

    /// Whether its connection lets it, also where something waits to be handed out. It takes no memory.
    pub fn lets_pull_by_place(&self, wire: u32, place: u32) -> bool
        requires leaves { Leaves self.now wire }
        requires place { place ≡ way_out self.now wire }
        ensures { result ≡ can_pull (cell_out self.now wire).wire.conn }
    {
        calls::lets_pull_out(&self.engine, place)
    }

    /// Whether nothing waits to be handed out there. It takes no memory.
    pub fn is_clear_by_place(&self, wire: u32, place: u32) -> bool
        requires whole { self.now.broken ≡ false }
        requires leaves { Leaves self.now wire }
        requires place { place ≡ way_out self.now wire }
        ensures { IsTrue result ↔ IsClearAt self.now.net (way_out self.now wire) }
    {
        calls::is_clear(&self.engine, place)
    }

    /// Asks there. It takes no memory and costs no unit.
    pub fn pull_by_place(&mut self, wire: u32, place: u32)
        requires whole { self.old.broken ≡ false }
        requires leaves { Leaves self.old wire }
        requires place { place ≡ way_out self.old wire }
        requires can { IsTrue (can_pull (cell_out self.old wire).wire.conn) × IsClearAt self.old.net (way_out self.old wire) }
        ensures after { self.new ≡ with_net self.old (moved_at self.old.net (way_out self.old wire) (act.Pull 0)) }
        ensures uses { Uses self.old.net self.new.net 0 }
    {
        calls::pull_out(&mut self.engine, place);
    }

    /// Cancels there, without change where its input is closed, and drops what waits to be handed out. It takes no memory and
    /// costs no unit.
    pub fn cancel_by_place(&mut self, wire: u32, place: u32)
        requires whole { self.old.broken ≡ false }
        requires leaves { Leaves self.old wire }
        requires place { place ≡ way_out self.old wire }
        ensures drops { Drops self.old wire self.new }
        ensures uses { Uses self.old.net self.new.net 0 }
    {
        calls::cancel_out(&mut self.engine, place);
    }

    /// Hands out what came there, each element and the end once and in order. It takes no memory and costs no unit.
    pub fn hand_out_by_place(&mut self, wire: u32, place: u32) -> Option<Item>
        requires whole { self.old.broken ≡ false }
        requires leaves { Leaves self.old wire }
        requires place { place ≡ way_out self.old wire }
        ensures none { IfNone result ((self.new ≡ self.old) × IsClearAt self.old.net (way_out self.old wire)) }
        ensures some { IfSome result (λ x. HandsOut self.old wire (x ∷ []) self.new) }
        ensures uses { Uses self.old.net self.new.net 0 }
    {
        calls::hand_out(&mut self.engine, place)
    }

    /// What came where that lane goes out: what was handed out or dropped, and then what waits. The call does nothing.
    pub fn came_by_place(&self, wire: u32, place: u32)
        requires whole { self.now.broken ≡ false }
        requires leaves { Leaves self.now wire }
        requires place { place ≡ way_out self.now wire }
        ensures { ReceivedAt self.now.net (way_out self.now wire) }
    {
        calls::came_to(&self.engine, place);
    }

    /// What `wanted_by_place` answers, where the place is not at hand, so that it is looked for.
    pub fn wanted(&self, wire: u32) -> Wanted
        requires { Enters self.now wire }
        ensures { result ≡ wanted_at (cell_in self.now wire) }
    {
        self.wanted_by_place(wire, self.way_in(wire, 0))
    }

    /// `push_by_place` where the place is looked for.
    pub fn push_in(&mut self, wire: u32, e: Elem)
        requires whole { self.old.broken ≡ false }
        requires enters { Enters self.old wire }
        requires asked { wanted_at (cell_in self.old wire) ≡ wanted.Asked }
        ensures after { self.new ≡ with_net self.old (moved_at self.old.net (way_in self.old wire) (act.Push 0 e)) }
        ensures uses { Uses self.old.net self.new.net 0 }
    {
        let place = self.way_in(wire, 0);
        self.push_by_place(wire, place, e);
    }

    /// `end_by_place` where the place is looked for.
    pub fn end_in(&mut self, wire: u32, cause: Option<Cause>)
        requires whole { self.old.broken ≡ false }
        requires enters { Enters self.old wire }
        ensures after { self.new ≡ with_net self.old (ended_at self.old.net (way_in self.old wire) cause) }
        ensures uses { Uses self.old.net self.new.net 0 }
    {
        let place = self.way_in(wire, 0);
        self.end_by_place(wire, place, cause);
    }

    /// `can_pull_by_place` where the place is looked for.
    pub fn can_pull_out(&self, wire: u32) -> bool
        requires whole { self.now.broken ≡ false }
        requires leaves { Leaves self.now wire }
        ensures { IsTrue result ↔ (IsTrue (can_pull (cell_out self.now wire).wire.conn) × IsClearAt self.now.net (way_out self.now wire)) }
    {
        self.can_pull_by_place(wire, self.way_out(wire, 0))
    }

    /// `pull_by_place` where the place is looked for.
    pub fn pull_out(&mut self, wire: u32)
        requires whole { self.old.broken ≡ false }
        requires leaves { Leaves self.old wire }
        requires can { IsTrue (can_pull (cell_out self.old wire).wire.conn) × IsClearAt self.old.net (way_out self.old wire) }
        ensures after { self.new ≡ with_net self.old (moved_at self.old.net (way_out self.old wire) (act.Pull 0)) }
        ensures uses { Uses self.old.net self.new.net 0 }
    {
        let place = self.way_out(wire, 0);
        self.pull_by_place(wire, place);
    }

    /// `cancel_by_place` where the place is looked for.
    pub fn cancel_out(&mut self, wire: u32)
        requires whole { self.old.broken ≡ false }
        requires leaves { Leaves self.old wire }
        ensures drops { Drops self.old wire self.new }
        ensures uses { Uses self.old.net self.new.net 0 }
    {
        let place = self.way_out(wire, 0);
        self.cancel_by_place(wire, place);
    }

    /// `hand_out_by_place` where the place is looked for.
    pub fn hand_out(&mut self, wire: u32) -> Option<Item>
        requires whole { self.old.broken ≡ false }
        requires leaves { Leaves self.old wire }
        ensures none { IfNone result ((self.new ≡ self.old) × IsClearAt self.old.net (way_out self.old wire)) }
        ensures some { IfSome result (λ x. HandsOut self.old wire (x ∷ []) self.new) }
        ensures uses { Uses self.old.net self.new.net 0 }
    {
        let place = self.way_out(wire, 0);
        self.hand_out_by_place(wire, place)
    }

    /// Takes it apart: how its sinks ended, what its wires carried, what its stages chose, the seats of its valves and trips, and its
    /// handles. It takes no memory, also after a call that answered `NoMemory`.
    pub fn finish(self) -> Result<IslandEnd<S, D>, NoMemory>
        ensures answers { IsOk result }
        ensures sinks { IfOk result (λ e. e.sinks.items ≡ sinks_of self.net.nodes) }
        ensures wires { IfOk result (λ e. e.wires.items ≡ counts_of self.numbers self.net.wires) }
        ensures picks { IfOk result (λ e. map pick_of e.picks.items ≡ picks_of self.places self.net.nodes) }
        ensures misfit { IfOk result (λ e. e.misfit ≡ least_of self.places self.net.nodes) }
        ensures seats { IfOk result (λ e. e.seats.items ≡ seats_of self.places self.net.nodes) }
        ensures readers { IfOk result (λ e. e.readers.items ≡ readers_of self.net.nodes) }
        ensures writers { IfOk result (λ e. e.writers.items ≡ writers_of self.net.nodes) }
    {
        let Island {
            engine,
            acts: _,
            numbers,
            places,
            ways: _,
            gathers: _,
            used: _,
            broken: _,
            room,
        } = self;
        Ok(leave(engine, &numbers, &places, room))
    }
}

/// Takes an island apart that is not to be started: its handles come back as they were handed in. It takes no memory.
pub fn hand_back<S: Source, D: Drain, L: Logic, H: Handlers, B: PlugBook>(
    alloc: Global,
    parts: Parts<S, D, L, H, B>,
    room: IslandRoom<S, D, L, H, B>,
) -> IslandEnd<S, D>
    requires parts { AreParts parts.nodes.items parts.links.items }
    requires room { IsRoom room (map seat_place parts.nodes.items) parts.links.items }
    ensures { HandsBack S.state D.state parts.nodes.items result }
{
    let IslandRoom {
        numbers,
        places,
        blank,
        end,
        ..
    } = room;
    let engine = assemble(alloc, parts, blank);
    leave(engine, &numbers, &places, end)
}

// Whether one of these may put lines together.
fn may_gather<S: Source, D: Drain, L: Logic, H: Handlers, B: PlugBook>(
    nodes: &[Seated<S, D, L, H, B>],
) -> bool
    ensures { result ≡ false → NonePutsTogether nodes.now }
{
    for n in 0..nodes.len() {
        if nodes[n].room > 1 {
            return true;
        }
    }
    false
}

// The engine of these parts, of which no node was started. It takes no memory.
fn assemble<S: Source, D: Drain, L: Logic, H: Handlers, B: PlugBook>(
    alloc: Global,
    parts: Parts<S, D, L, H, B>,
    blank: Blank<S, D, L, H, B>,
) -> Engine<IslandNode<S, D, L, H, B>>
    requires parts { AreParts parts.nodes.items parts.links.items }
    requires blank { IsBlank blank (map seat_place parts.nodes.items) parts.links.items }
    ensures starting { Starting node_port_state (node_law S.state D.state B.lists) node_asking node_moves node_fresh result 0 }
    ensures firsts { AllBecome parts.nodes.items result.firsts }
    ensures ends { result.ends ≡ map ends_of parts.links.items }
    ensures asks { all_asks result ≡ 0 }
    ensures count { length result.nodes ≡ vec_len parts.nodes }
    ensures nodes { result.nodes ≡ result.firsts }
    ensures wires { result.wires ≡ replicate (length parts.links.items) new_cell }
    ensures ports { IsSized (inputs_at parts.nodes.items) (outputs_at parts.nodes.items) (length parts.nodes.items) result.ports }
{
    let Blank {
        ends,
        mut ports,
        wires,
        ring,
        nodes,
    } = blank;
    join_ports(&mut ports, &ends);
    let nodes = build_all(alloc, parts.nodes, nodes);
    Engine::new(nodes, ends, ports, wires, ring)
}

// Takes an engine apart, into lists that have room for what it leaves.
fn leave<S: Source, D: Drain, L: Logic, H: Handlers, B: PlugBook>(
    engine: Engine<IslandNode<S, D, L, H, B>>,
    numbers: &[u32],
    places: &[u32],
    end: IslandEnd<S, D>,
) -> IslandEnd<S, D>
    requires room { HasRoom end (length engine.nodes) (length numbers.now) }
    requires places { length places.now ≡ length engine.nodes }
    ensures sinks { result.sinks.items ≡ sinks_of engine.nodes }
    ensures wires { result.wires.items ≡ counts_of numbers.now engine.wires }
    ensures picks { map pick_of result.picks.items ≡ picks_of places.now engine.nodes }
    ensures misfit { result.misfit ≡ least_of places.now engine.nodes }
    ensures seats { result.seats.items ≡ seats_of places.now engine.nodes }
    ensures readers { result.readers.items ≡ readers_of engine.nodes }
    ensures writers { result.writers.items ≡ writers_of engine.nodes }
{
    let (nodes, wires) = engine.into_parts();
    let mut end = gather(nodes, places, end);
    count_wires(numbers, &wires, &mut end.wires);
    end
}

// What these nodes leave, of which these are the numbers, into lists that are empty and have room for it.
fn gather<S: Source, D: Drain, L: Logic, H: Handlers, B: PlugBook>(
    nodes: Vec<IslandNode<S, D, L, H, B>>,
    places: &[u32],
    end: IslandEnd<S, D>,
) -> IslandEnd<S, D>
    requires no_sinks { end.sinks.items ≡ [] }
    requires no_picks { end.picks.items ≡ [] }
    requires no_misfit { end.misfit ≡ None }
    requires no_seats { end.seats.items ≡ [] }
    requires no_readers { end.readers.items ≡ [] }
    requires no_writers { end.writers.items ≡ [] }
    requires room { RoomFor end (vec_len nodes) }
    requires places { length places.now ≡ vec_len nodes }
    ensures sinks { result.sinks.items ≡ sinks_of nodes.items }
    ensures picks { map pick_of result.picks.items ≡ picks_of places.now nodes.items }
    ensures misfit { result.misfit ≡ least_of places.now nodes.items }
    ensures seats { result.seats.items ≡ seats_of places.now nodes.items }
    ensures readers { result.readers.items ≡ readers_of nodes.items }
    ensures writers { result.writers.items ≡ writers_of nodes.items }
    ensures wires { result.wires ≡ end.wires }
{
    let mut end = end;
    let mut place = 0;
    for node in nodes {
        end.add(places[place], node);
        place += 1;
    }
    end
}

// What each wire carried, with its number, into an empty list that has room for it.
fn count_wires(numbers: &[u32], wires: &[Wire], counts: &mut Vec<(u32, WireCount)>)
    requires empty { counts.old.items ≡ [] }
    requires room { length numbers.now ≤ vec_capacity counts.old }
    ensures { counts.new.items ≡ counts_of numbers.now wires.now }
{
    let count = min(numbers.len(), wires.len());
    for i in 0..count {
        let wire = &wires[i];
        let carried = WireCount {
            sent: wire.pushed(),
            asked: wire.is_asked(),
            shut: wire.is_closed(),
        };
        counts.push_reserved((numbers[i], carried));
    }
}

impl<S: Source, D: Drain> IslandEnd<S, D> {
    // Nothing, with room for what so many nodes and wires leave.
    pub(crate) fn sized(
        alloc: Global,
        nodes: usize,
        wires: usize,
    ) -> Result<IslandEnd<S, D>, NoMemory>
        ensures { IfOk result (λ e. HasRoom e nodes wires) }
    {
        Ok(IslandEnd {
            sinks: Vec::with_capacity(alloc, nodes)?,
            wires: Vec::with_capacity(alloc, wires)?,
            picks: Vec::with_capacity(alloc, nodes)?,
            misfit: None,
            seats: Vec::with_capacity(alloc, nodes)?,
            readers: Vec::with_capacity(alloc, nodes)?,
            writers: Vec::with_capacity(alloc, nodes)?,
        })
    }

    // What node `number` leaves, into lists that have room for it.
    fn add<L: Logic, H: Handlers, B: PlugBook>(
        &mut self,
        number: u32,
        node: IslandNode<S, D, L, H, B>,
    )
        requires { RoomFor self.old 1 }
        ensures sinks { self.new.sinks.items ≡ self.old.sinks.items ++ sinks_of (node ∷ []) }
        ensures picks { map pick_of self.new.picks.items ≡ map pick_of self.old.picks.items ++ picks_of (number ∷ []) (node ∷ []) }
        ensures misfit { self.new.misfit ≡ least self.old.misfit (found_at number (node_misfit node)) }
        ensures seats { self.new.seats.items ≡ self.old.seats.items ++ seats_of (number ∷ []) (node ∷ []) }
        ensures readers { self.new.readers.items ≡ self.old.readers.items ++ readers_of (node ∷ []) }
        ensures writers { self.new.writers.items ≡ self.old.writers.items ++ writers_of (node ∷ []) }
        ensures wires { self.new.wires ≡ self.old.wires }
        ensures room { (n : ℕ) → RoomFor self.old (n + 1) → RoomFor self.new n }
    {
        let (end, log, seat) = node.close();
        self.misfit = least(self.misfit, misfit_of(number, &log));
        add_picks(&mut self.picks, number, log);
        add_seat(&mut self.seats, number, seat);
        match end {
            NodeEnd::Read(source) => self.readers.push_reserved(source),
            NodeEnd::Staged => {}
            NodeEnd::Wrote(sink) => {
                self.sinks.push_reserved((sink.node, sink.count, sink.end));
                if let Some(drain) = sink.drain {
                    self.writers.push_reserved(drain);
                }
            }
        }
    }
}

/// The lesser of two nodes that could not make their next move.
pub fn least(one: Option<(u32, u32)>, other: Option<(u32, u32)>) -> Option<(u32, u32)>
    ensures { result ≡ least one other }
{
    match (one, other) {
        (Some(first), Some(second)) if second.0 < first.0 => Some(second),
        (Some(first), _) => Some(first),
        (None, second) => second,
    }
}

// The move that node `number` could not make, where it chooses and found one.
fn misfit_of(number: u32, log: &Option<PickLog>) -> Option<(u32, u32)>
    ensures { result ≡ found_at number (misfit_in log.now) }
{
    match log {
        Some(log) => match log.misfit_at() {
            Some(place) => Some((number, place)),
            None => None,
        },
        None => None,
    }
}

// The moves of node `number`, where it chooses, into a list that has room for them.
fn add_picks(picks: &mut Vec<PickList>, number: u32, log: Option<PickLog>)
    requires { vec_len picks.old < vec_capacity picks.old }
    ensures picks { map pick_of picks.new.items ≡ map pick_of picks.old.items ++ with_picks number (option_map (λ log. log.moves) log) [] }
    ensures few { vec_len picks.new ≤ vec_len picks.old + 1 }
    ensures stay { vec_capacity picks.new ≡ vec_capacity picks.old }
{
    if let Some(log) = log {
        picks.push_reserved(PickList {
            stage: number,
            moves: log.into_moves(),
        });
    }
}

// The seat of node `number`, where it has one, into a list that has room for it.
fn add_seat(seats: &mut Vec<(u32, SwitchSeat)>, number: u32, seat: Option<SwitchSeat>)
    requires { vec_len seats.old < vec_capacity seats.old }
    ensures seats { seats.new.items ≡ seats.old.items ++ with_seat number seat [] }
    ensures few { vec_len seats.new ≤ vec_len seats.old + 1 }
    ensures stay { vec_capacity seats.new ≡ vec_capacity seats.old }
{
    if let Some(seat) = seat {
        seats.push_reserved((number, seat));
    }
}
