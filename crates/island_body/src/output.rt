// The end of a lane at which what leaves an island is sent.
ghost use Rattle.std.specs.Prelude.{◌≡◌, ◌≤◌, ◌<◌, ◌+◌, [], ◌∷◌, ◌++◌, true, false, IsTrue, length};
ghost use Rattle.fused_net.specs.Costs.{Uses};
ghost use Rattle.fused_net.specs.Laws.{NetGoesOn};
ghost use Rattle.lane_core.specs.Ends.{sent, seen_count, saw_cancel, finds, has_ended, told_asked, told_cancel, IsSameOut};
ghost use Rattle.lane_core.specs.Lane.{weight, ends, is_new};
ghost use Rattle.elem_core.specs.Items.{elements};
ghost use Rattle.interpreter.specs.Boundary.{Leaves, Drops, way_out, cell_out};
ghost use Rattle.port_core.specs.declared.view.InView.TheVariants.{Pulled, Cancelled};
ghost use Rattle.island_body.specs.Beside.{Beside, out_node, waiting};
ghost use Rattle.island_body.specs.Sending.{Sends, FoundIs, VisitIs, unit_of};
ghost use Rattle.island_body.specs.Serving.{MayNotAsk, Serves, IsServed};
ghost use Rattle.island_body.specs.declared.found.Found.TheVariants as found;

use crate::found::Found;
use elem_core::item::Item;
use graph_stage::handlers::Handlers;
use interpreter::island::Island;
use lane_core::lane_out::LaneOut;
use lane_core::room::Room;
use plug_logic::book::PlugBook;
use plug_logic::logic::Logic;
use stream_io::outside::{Drain, Source};

/// The end of a lane that sends, and the number of the wire that the lane is. What its island hands out is sent at once: the
/// stage there is asked only where demand is left. Rule: Akka Streams 2.6 reference, chapter on asynchronous boundaries.
pub struct OutputBoundary {
    /// The number of the wire that the lane is.
    pub wire: u32,
    /// The end of the lane that sends.
    pub lane: LaneOut,
}

// Dropped by a call, wherever it is dropped: else each crate above proves the drop of each of its parts again.
impl Drop for OutputBoundary {
    fn drop(self) {
        let OutputBoundary { wire: _, lane: _ } = self;
    }
}

impl OutputBoundary {
    /// The boundary of wire `wire` at this end of its lane. It takes no memory.
    pub fn new(wire: u32, lane: LaneOut) -> OutputBoundary
        ensures { (result.wire ≡ wire) × (result.lane ≡ lane) }
    {
        OutputBoundary { wire, lane }
    }

    /// Looks once at the lane: whether more is asked for than was known, or whether the other end has cancelled. It takes no memory.
    pub fn look<S: Source, D: Drain, L: Logic, H: Handlers, B: PlugBook>(
        &mut self,
        island: &Island<S, D, L, H, B>,
    ) -> Found
        requires keeps { Sends self.old.lane island.now self.old.wire }
        ensures wire { (self.new.wire ≡ self.old.wire) × IsSameOut self.old.lane self.new.lane }
        ensures sent { (sent self.new.lane ≡ sent self.old.lane) × (has_ended self.new.lane ≡ has_ended self.old.lane)
            × (seen_count self.old.lane ≤ seen_count self.new.lane) }
        ensures found { FoundIs result (seen_count self.old.lane) (seen_count self.new.lane) (saw_cancel self.new.lane) }
        ensures finds { finds self.new.lane ≡ finds self.old.lane + is_new (seen_count self.old.lane) (saw_cancel self.old.lane) (seen_count self.new.lane)
            (saw_cancel self.new.lane) }
        ensures told { (told_asked self.old.lane ≤ seen_count self.new.lane) × (told_cancel self.old.lane ≤ saw_cancel self.new.lane) }
        ensures keeps { saw_cancel self.new.lane ≡ 0 → Sends self.new.lane island.now self.new.wire }
    {
        let _ = island;
        let left = self.lane.left();
        match self.lane.room() {
            Room::Cancelled => Found::Cancelled,
            Room::Asked(now) => {
                if left < now {
                    Found::Demand
                } else {
                    Found::Nothing
                }
            }
        }
    }

    // Sends an item that was handed out.
    fn send(&mut self, item: Item)
        requires open { (has_ended self.old.lane ≡ false) × (saw_cancel self.old.lane ≡ 0) }
        requires room { elements (sent self.old.lane) + weight item ≤ seen_count self.old.lane }
        ensures sent { sent self.new.lane ≡ sent self.old.lane ++ item ∷ [] }
        ensures ended { has_ended self.new.lane ≡ ends item }
        ensures rest { (self.new.wire ≡ self.old.wire) × IsSameOut self.old.lane self.new.lane × (seen_count self.new.lane ≡ seen_count self.old.lane)
            × (saw_cancel self.new.lane ≡ saw_cancel self.old.lane) × (finds self.new.lane ≡ finds self.old.lane) }
    {
        match self.lane.offer(item) {
            Ok(()) => {}
            Err(_) => unreachable!(),
        }
    }

    /// Sends the next item that came to the stage there, if one waits; true comes exactly where one did. `place` is that of the lane's
    /// connection. It takes no memory.
    pub fn send_one<S: Source, D: Drain, L: Logic, H: Handlers, B: PlugBook>(
        &mut self,
        island: &mut Island<S, D, L, H, B>,
        place: u32,
    ) -> bool
        requires whole { island.old.broken ≡ false }
        requires leaves { Leaves island.old self.old.wire }
        requires place { place ≡ way_out island.old self.old.wire }
        requires keeps { Sends self.old.lane island.old self.old.wire }
        ensures keeps { Sends self.new.lane island.new self.new.wire }
        ensures wire { (self.new.wire ≡ self.old.wire) × IsSameOut self.old.lane self.new.lane × (seen_count self.new.lane ≡ seen_count self.old.lane)
            × (finds self.new.lane ≡ finds self.old.lane) }
        ensures more { result ≡ true → length (sent self.new.lane) ≡ length (sent self.old.lane) + 1 }
        ensures cell { cell_out island.new self.old.wire ≡ cell_out island.old self.old.wire }
        ensures rest { result ≡ false → (self.new ≡ self.old) × (island.new ≡ island.old) × (waiting island.old self.old.wire ≡ []) }
        ensures less { result ≡ true → length (waiting island.new self.old.wire) < length (waiting island.old self.old.wire) }
        ensures uses { Uses island.old.net island.new.net 0 }
        ensures beside { Beside (way_out island.old self.old.wire) (out_node island.old self.old.wire) island.old island.new }
    {
        island.came_by_place(self.wire, place);
        if island.is_clear_by_place(self.wire, place) {
            return false;
        }
        match island.hand_out_by_place(self.wire, place) {
            None => false,
            Some(item) => {
                self.send(item);
                true
            }
        }
    }

    /// Asks the stage there where demand is left and it may be asked; true comes exactly where it did. `place` is that of the lane's
    /// connection. It takes no memory.
    #[inline(always)]
    pub fn ask<S: Source, D: Drain, L: Logic, H: Handlers, B: PlugBook>(
        &self,
        island: &mut Island<S, D, L, H, B>,
        place: u32,
    ) -> bool
        requires whole { island.old.broken ≡ false }
        requires leaves { Leaves island.old self.now.wire }
        requires place { place ≡ way_out island.old self.now.wire }
        requires keeps { Sends self.now.lane island.old self.now.wire }
        ensures keeps { Sends self.now.lane island.new self.now.wire }
        ensures rest { result ≡ false → (island.new ≡ island.old) × (waiting island.old self.now.wire ≡ [] → MayNotAsk self.now.lane island.old self.now.wire) }
        ensures asked { result ≡ true → (cell_out island.new self.now.wire).wire.inp ≡ Pulled }
        ensures waiting { waiting island.new self.now.wire ≡ waiting island.old self.now.wire }
        ensures got { (cell_out island.new self.now.wire).wire.got ≡ (cell_out island.old self.now.wire).wire.got }
        ensures left { (cell_out island.new self.now.wire).wire.inp ≡ Cancelled → (cell_out island.old self.now.wire).wire.inp ≡ Cancelled }
        ensures uses { Uses island.old.net island.new.net 0 }
        ensures beside { Beside (way_out island.old self.now.wire) (out_node island.old self.now.wire) island.old island.new }
    {
        island.came_by_place(self.wire, place);
        island.laws();
        if self.lane.left() == 0 || !island.can_pull_by_place(self.wire, place) {
            return false;
        }
        island.pull_by_place(self.wire, place);
        true
    }

    // The same where nothing waits at the stage there, so that this is not looked at.
    #[inline(always)]
    fn ask_empty<S: Source, D: Drain, L: Logic, H: Handlers, B: PlugBook>(
        &self,
        island: &mut Island<S, D, L, H, B>,
        place: u32,
    ) -> bool
        requires whole { island.old.broken ≡ false }
        requires leaves { Leaves island.old self.now.wire }
        requires place { place ≡ way_out island.old self.now.wire }
        requires keeps { Sends self.now.lane island.old self.now.wire }
        requires none { waiting island.old self.now.wire ≡ [] }
        ensures keeps { Sends self.now.lane island.new self.now.wire }
        ensures rest { result ≡ false → (island.new ≡ island.old) × MayNotAsk self.now.lane island.old self.now.wire }
        ensures asked { result ≡ true → (cell_out island.new self.now.wire).wire.inp ≡ Pulled }
        ensures waiting { waiting island.new self.now.wire ≡ waiting island.old self.now.wire }
        ensures got { (cell_out island.new self.now.wire).wire.got ≡ (cell_out island.old self.now.wire).wire.got }
        ensures left { (cell_out island.new self.now.wire).wire.inp ≡ Cancelled → (cell_out island.old self.now.wire).wire.inp ≡ Cancelled }
        ensures uses { Uses island.old.net island.new.net 0 }
        ensures beside { Beside (way_out island.old self.now.wire) (out_node island.old self.now.wire) island.old island.new }
    {
        island.came_by_place(self.wire, place);
        island.laws();
        if self.lane.left() == 0 || !island.lets_pull_by_place(self.wire, place) {
            return false;
        }
        island.pull_by_place(self.wire, place);
        true
    }

    /// Sends all that waits at the stage there, and asks it where demand is left and it may be asked. Then nothing is left to do before
    /// something comes to the stage, or to this end of the lane. True comes exactly where something was sent, so that the other end
    /// has to be woken. `place` is the place of the lane's connection. It takes no memory.
    pub fn serve<S: Source, D: Drain, L: Logic, H: Handlers, B: PlugBook>(
        &mut self,
        island: &mut Island<S, D, L, H, B>,
        place: u32,
    ) -> bool
        requires whole { island.old.broken ≡ false }
        requires leaves { Leaves island.old self.old.wire }
        requires place { place ≡ way_out island.old self.old.wire }
        requires serves { Serves self.old.lane island.old self.old.wire }
        ensures serves { Serves self.new.lane island.new self.new.wire }
        ensures served { IsServed self.new.lane island.new self.new.wire }
        ensures wire { (self.new.wire ≡ self.old.wire) × IsSameOut self.old.lane self.new.lane × (seen_count self.new.lane ≡ seen_count self.old.lane)
            × (saw_cancel self.new.lane ≡ saw_cancel self.old.lane) × (finds self.new.lane ≡ finds self.old.lane) }
        ensures sent { result ≡ true → length (sent self.old.lane) < length (sent self.new.lane) }
        ensures same { result ≡ false → sent self.new.lane ≡ sent self.old.lane }
        ensures uses { Uses island.old.net island.new.net 0 }
        ensures beside { Beside (way_out island.old self.old.wire) (out_node island.old self.old.wire) island.old island.new }
    {
        if self.lane.is_cancelled() {
            return false;
        }
        let mut sent = false;
        while self.send_one(island, place) {
            sent = true;
        }
        island.came_by_place(self.wire, place);
        island.laws();
        self.ask_empty(island, place);
        sent
    }

    /// Looks once at the lane, unless a cancel was seen, and does what is found: new demand lets it ask, and a cancel is handed on, which
    /// drops what waits. The lane is looked for first as number `near` of those that go out. It takes no memory.
    pub fn visit<S: Source, D: Drain, L: Logic, H: Handlers, B: PlugBook>(
        &mut self,
        island: &mut Island<S, D, L, H, B>,
        near: usize,
    ) -> Found
        requires whole { island.old.broken ≡ false }
        requires leaves { Leaves island.old self.old.wire }
        requires serves { Serves self.old.lane island.old self.old.wire }
        requires served { IsServed self.old.lane island.old self.old.wire }
        ensures serves { Serves self.new.lane island.new self.new.wire }
        ensures served { IsServed self.new.lane island.new self.new.wire }
        ensures wire { (self.new.wire ≡ self.old.wire) × IsSameOut self.old.lane self.new.lane × (sent self.new.lane ≡ sent self.old.lane)
            × (seen_count self.old.lane ≤ seen_count self.new.lane) }
        ensures found { VisitIs result (seen_count self.old.lane) (saw_cancel self.old.lane) (seen_count self.new.lane) (saw_cancel self.new.lane) }
        ensures nothing { result ≡ found.Nothing → island.new ≡ island.old }
        ensures told { saw_cancel self.old.lane ≡ 0 → (told_asked self.old.lane ≤ seen_count self.new.lane)
            × (told_cancel self.old.lane ≤ saw_cancel self.new.lane) }
        ensures finds { finds self.new.lane ≡ finds self.old.lane + unit_of result }
        ensures uses { Uses island.old.net island.new.net 0 }
        ensures beside { Beside (way_out island.old self.old.wire) (out_node island.old self.old.wire) island.old island.new }
    {
        if self.lane.is_cancelled() {
            return Found::Nothing;
        }
        let found = self.look(island);
        match found {
            Found::Nothing => {}
            Found::Demand => {
                let place = island.way_out(self.wire, near);
                self.ask(island, place);
            }
            Found::Cancelled => {
                let place = island.way_out(self.wire, near);
                island.came_by_place(self.wire, place);
                island.laws();
                island.cancel_by_place(self.wire, place);
            }
        }
        found
    }
}
