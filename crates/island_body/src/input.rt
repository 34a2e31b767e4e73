// The end of a lane at which what enters an island is handed on.
ghost use Rattle.std.specs.Prelude.{◌≡◌, ◌≢◌, ◌⊎◌, ◌↔◌, ◌≤◌, ◌<◌, ◌+◌, ◌++◌, [], ◌∷◌, true, false, cond, length, IsTrue};
ghost use Rattle.elem_core.specs.declared.item.Item.{Item};
ghost use Rattle.fused_net.specs.Costs.{Uses};
ghost use Rattle.port_core.specs.declared.view.OutView.TheVariants as outlet;
ghost use Rattle.lane_core.specs.Lane.{ends};
ghost use Rattle.lane_core.specs.Ends.{taken_items, asked_in_all, ask_calls, has_cancelled, found_sent, told_sent};
ghost use Rattle.lane_core.specs.Boundary.{given, waits, is_over, state, keeps_all, IsSameEnd, BoundaryKeeps};
ghost use Rattle.lane_core.specs.declared.state.State.TheVariants.{Flowing, Closed, Cancelled};
ghost use Rattle.port_core.specs.View.{output_closed};
ghost use Rattle.interpreter.specs.BoundaryPlaces.{wanted_at, moved_at};
ghost use Rattle.interpreter.specs.declared.wanted.Wanted.TheVariants as wanted;
ghost use Rattle.interpreter.specs.Boundary.{Enters, way_in, cell_in, with_net};
ghost use Rattle.island_body.specs.Beside.{Beside, in_node};
ghost use Rattle.island_body.specs.Feeding.{act_of, Feeds, IsFed};

use elem_core::item::Item;
use graph_stage::handlers::Handlers;
use interpreter::island::Island;
use interpreter::wanted::Wanted;
use lane_core::boundary::InputBoundary;
use lane_core::state::State;
use plug_logic::book::PlugBook;
use plug_logic::logic::Logic;
use stream_io::outside::{Drain, Source};

/// The end of a lane that takes, and the number of the wire that the lane is. What it takes is handed on to its island where the
/// stage there is asked. Rule: Akka Streams 2.6 reference, chapter on asynchronous boundaries.
pub struct IslandInput {
    /// The number of the wire that the lane is.
    pub wire: u32,
    /// The end of the lane that takes, with its buffer.
    pub boundary: InputBoundary,
}

// Dropped by a call, wherever it is dropped: else each crate above proves the drop of each of its parts again.
impl Drop for IslandInput {
    fn drop(self) {
        let IslandInput {
            wire: _,
            boundary: _,
        } = self;
    }
}

impl IslandInput {
    /// The input of wire `wire` at this boundary of its lane. It takes no memory.
    pub fn new(wire: u32, boundary: InputBoundary) -> IslandInput
        ensures { (result.wire ≡ wire) × (result.boundary ≡ boundary) }
    {
        IslandInput { wire, boundary }
    }

    /// What its boundary keeps between any two calls. It does nothing.
    pub fn keeps(&self)
        ensures { BoundaryKeeps self.now.boundary }
    {
        self.boundary.keeps();
    }

    /// Takes the next item off the lane, where one was sent and no end was taken; false comes exactly where none was. Nothing is
    /// handed on by it. It takes no memory.
    pub fn look(&mut self) -> bool
        ensures wire { (self.new.wire ≡ self.old.wire) × IsSameEnd self.old.boundary self.new.boundary
            × (asked_in_all self.new.boundary.lane ≡ asked_in_all self.old.boundary.lane)
            × (ask_calls self.new.boundary.lane ≡ ask_calls self.old.boundary.lane)
            × (has_cancelled self.new.boundary.lane ≡ has_cancelled self.old.boundary.lane) }
        ensures given { (given self.new.boundary ≡ given self.old.boundary) × (state self.new.boundary ≡ state self.old.boundary) }
        ensures still { result ≡ false → waits self.new.boundary ≡ waits self.old.boundary }
        ensures took { result ≡ true → (is_over self.old.boundary ≡ false) × ((x : Item)
            × ((taken_items self.new.boundary.lane ≡ taken_items self.old.boundary.lane ++ x ∷ []) × (is_over self.new.boundary ≡ ends x))) }
        ensures none { result ≡ false → (taken_items self.new.boundary.lane ≡ taken_items self.old.boundary.lane)
            × ((is_over self.old.boundary ≡ true) ⊎ ((found_sent self.new.boundary.lane ≡ length (taken_items self.new.boundary.lane))
            × (told_sent self.old.boundary.lane ≤ found_sent self.new.boundary.lane))) }
        ensures over { result ≡ false → is_over self.new.boundary ≡ is_over self.old.boundary }
        ensures told { told_sent self.new.boundary.lane ≡ told_sent self.old.boundary.lane }
        ensures behind { result ≡ true → taken_items self.old.boundary.lane ≡ given self.old.boundary → length (waits self.new.boundary) ≤ 1 }
    {
        self.boundary.look()
    }

    // Whether it still hands on what it takes.
    fn flows(&self) -> bool
        ensures { IsTrue result ↔ (state self.now.boundary ≡ Flowing) }
    {
        match self.boundary.state() {
            State::Flowing => true,
            State::Closed | State::Cancelled => false,
        }
    }

    // Hands on the first element that waits, to a stage that is asked. True comes exactly where the lane was asked for more. `place`
    // is the place of the lane's connection, here and in what is below.
    #[inline(always)]
    fn hand_on<S: Source, D: Drain, L: Logic, H: Handlers, B: PlugBook>(
        &mut self,
        island: &mut Island<S, D, L, H, B>,
        place: u32,
    ) -> bool
        requires whole { island.old.broken ≡ false }
        requires enters { Enters island.old self.old.wire }
        requires place { place ≡ way_in island.old self.old.wire }
        requires feeds { Feeds self.old.boundary island.old self.old.wire }
        requires flows { state self.old.boundary ≡ Flowing }
        requires asked { wanted_at (cell_in island.old self.old.wire) ≡ wanted.Asked }
        ensures feeds { Feeds self.new.boundary island.new self.new.wire }
        ensures flows { state self.new.boundary ≡ Flowing }
        ensures live { (cell_in island.new self.new.wire).wire.out ≢ outlet.Cancelled }
        ensures given { (cell_in island.new self.new.wire).wire.out ≡ outlet.Available → waits self.new.boundary ≡ [] }
        ensures wire { (self.new.wire ≡ self.old.wire) × IsSameEnd self.old.boundary self.new.boundary
            × (taken_items self.new.boundary.lane ≡ taken_items self.old.boundary.lane)
            × (has_cancelled self.new.boundary.lane ≡ has_cancelled self.old.boundary.lane) }
        ensures asks { ask_calls self.new.boundary.lane ≡ ask_calls self.old.boundary.lane + cond result 1 0 }
        ensures known { (found_sent self.new.boundary.lane ≡ found_sent self.old.boundary.lane)
            × (told_sent self.new.boundary.lane ≡ told_sent self.old.boundary.lane) × (is_over self.new.boundary ≡ is_over self.old.boundary) }
        ensures uses { Uses island.old.net island.new.net 0 }
        ensures beside { Beside (way_in island.old self.old.wire) (in_node island.old self.old.wire) island.old island.new }
    {
        island.laws();
        match self.boundary.next() {
            None => false,
            Some((e, asks)) => {
                island.push_by_place(self.wire, place, e);
                asks
            }
        }
    }

    // Hands on the end that waits behind no element. Then nothing is left to do where nothing was but this.
    #[inline(never)]
    fn hand_on_end<S: Source, D: Drain, L: Logic, H: Handlers, B: PlugBook>(
        &mut self,
        island: &mut Island<S, D, L, H, B>,
        place: u32,
    )
        requires whole { island.old.broken ≡ false }
        requires enters { Enters island.old self.old.wire }
        requires place { place ≡ way_in island.old self.old.wire }
        requires feeds { Feeds self.old.boundary island.old self.old.wire }
        requires flows { state self.old.boundary ≡ Flowing }
        requires live { (cell_in island.old self.old.wire).wire.out ≢ outlet.Cancelled }
        requires none { waits self.old.boundary ≡ [] }
        ensures feeds { Feeds self.new.boundary island.new self.new.wire }
        ensures fed { IsFed self.new.boundary island.new self.new.wire }
        ensures wire { (self.new.wire ≡ self.old.wire) × (self.new.boundary.lane ≡ self.old.boundary.lane)
            × (keeps_all self.new.boundary ≡ keeps_all self.old.boundary) }
        ensures over { is_over self.new.boundary ≡ is_over self.old.boundary }
        ensures uses { Uses island.old.net island.new.net 0 }
        ensures beside { Beside (way_in island.old self.old.wire) (in_node island.old self.old.wire) island.old island.new }
    {
        match self.boundary.next_end() {
            None => {}
            Some(end) => give_end(island, self.wire, place, end),
        }
    }

    // The same where such an end waits, and else nothing: then nothing is left to do where the stage was given all that it asked for.
    #[inline(always)]
    fn hand_on_last<S: Source, D: Drain, L: Logic, H: Handlers, B: PlugBook>(
        &mut self,
        island: &mut Island<S, D, L, H, B>,
        place: u32,
    )
        requires whole { island.old.broken ≡ false }
        requires enters { Enters island.old self.old.wire }
        requires place { place ≡ way_in island.old self.old.wire }
        requires feeds { Feeds self.old.boundary island.old self.old.wire }
        requires flows { state self.old.boundary ≡ Flowing }
        requires live { (cell_in island.old self.old.wire).wire.out ≢ outlet.Cancelled }
        requires given { (cell_in island.old self.old.wire).wire.out ≡ outlet.Available → (waits self.old.boundary ≡ [])
            ⊎ ((cell_in island.old self.old.wire).wire.conn.in_closed ≡ true) }
        ensures feeds { Feeds self.new.boundary island.new self.new.wire }
        ensures fed { IsFed self.new.boundary island.new self.new.wire }
        ensures wire { (self.new.wire ≡ self.old.wire) × (self.new.boundary.lane ≡ self.old.boundary.lane)
            × (keeps_all self.new.boundary ≡ keeps_all self.old.boundary) }
        ensures over { is_over self.new.boundary ≡ is_over self.old.boundary }
        ensures uses { Uses island.old.net island.new.net 0 }
        ensures beside { Beside (way_in island.old self.old.wire) (in_node island.old self.old.wire) island.old island.new }
    {
        if self.boundary.is_at_end() {
            self.hand_on_end(island, place);
        }
    }

    /// Hands on what its island asks for: one element where the stage there is asked, and an end that waits behind no element also where
    /// it is not. A cancel of its connection cancels the lane. Then nothing is left to do before something comes off the lane, or
    /// to the stage. True comes exactly where the lane was asked for more or cancelled, so that the other end has to be woken.
    /// `place` is the place of the lane's connection. It takes no memory.
    pub fn serve<S: Source, D: Drain, L: Logic, H: Handlers, B: PlugBook>(
        &mut self,
        island: &mut Island<S, D, L, H, B>,
        place: u32,
    ) -> bool
        requires whole { island.old.broken ≡ false }
        requires enters { Enters island.old self.old.wire }
        requires place { place ≡ way_in island.old self.old.wire }
        requires feeds { Feeds self.old.boundary island.old self.old.wire }
        ensures feeds { Feeds self.new.boundary island.new self.new.wire }
        ensures fed { IsFed self.new.boundary island.new self.new.wire }
        ensures wire { (self.new.wire ≡ self.old.wire) × IsSameEnd self.old.boundary self.new.boundary
            × (taken_items self.new.boundary.lane ≡ taken_items self.old.boundary.lane) }
        ensures least { (ask_calls self.old.boundary.lane ≤ ask_calls self.new.boundary.lane)
            × (has_cancelled self.old.boundary.lane ≤ has_cancelled self.new.boundary.lane) }
        ensures told { result ≡ true → (ask_calls self.old.boundary.lane < ask_calls self.new.boundary.lane)
            ⊎ (has_cancelled self.old.boundary.lane < has_cancelled self.new.boundary.lane) }
        ensures quiet { result ≡ false → (ask_calls self.new.boundary.lane ≡ ask_calls self.old.boundary.lane)
            × (asked_in_all self.new.boundary.lane ≡ asked_in_all self.old.boundary.lane)
            × (has_cancelled self.new.boundary.lane ≡ has_cancelled self.old.boundary.lane) }
        ensures known { (found_sent self.new.boundary.lane ≡ found_sent self.old.boundary.lane)
            × (told_sent self.new.boundary.lane ≡ told_sent self.old.boundary.lane) × (is_over self.new.boundary ≡ is_over self.old.boundary) }
        ensures uses { Uses island.old.net island.new.net 0 }
        ensures beside { Beside (way_in island.old self.old.wire) (in_node island.old self.old.wire) island.old island.new }
    {
        self.boundary.keeps();
        let told = self.serve_now(island, place);
        self.boundary.keeps();
        told
    }

    // The same, of which the count of what was asked is told by the calls that asked.
    fn serve_now<S: Source, D: Drain, L: Logic, H: Handlers, B: PlugBook>(
        &mut self,
        island: &mut Island<S, D, L, H, B>,
        place: u32,
    ) -> bool
        requires whole { island.old.broken ≡ false }
        requires enters { Enters island.old self.old.wire }
        requires place { place ≡ way_in island.old self.old.wire }
        requires feeds { Feeds self.old.boundary island.old self.old.wire }
        requires keeps { BoundaryKeeps self.old.boundary }
        ensures feeds { Feeds self.new.boundary island.new self.new.wire }
        ensures fed { IsFed self.new.boundary island.new self.new.wire }
        ensures wire { (self.new.wire ≡ self.old.wire) × IsSameEnd self.old.boundary self.new.boundary
            × (taken_items self.new.boundary.lane ≡ taken_items self.old.boundary.lane) }
        ensures least { (ask_calls self.old.boundary.lane ≤ ask_calls self.new.boundary.lane)
            × (has_cancelled self.old.boundary.lane ≤ has_cancelled self.new.boundary.lane) }
        ensures told { result ≡ true → (ask_calls self.old.boundary.lane < ask_calls self.new.boundary.lane)
            ⊎ (has_cancelled self.old.boundary.lane < has_cancelled self.new.boundary.lane) }
        ensures quiet { result ≡ false → (ask_calls self.new.boundary.lane ≡ ask_calls self.old.boundary.lane)
            × (has_cancelled self.new.boundary.lane ≡ has_cancelled self.old.boundary.lane) }
        ensures known { (found_sent self.new.boundary.lane ≡ found_sent self.old.boundary.lane)
            × (told_sent self.new.boundary.lane ≡ told_sent self.old.boundary.lane) × (is_over self.new.boundary ≡ is_over self.old.boundary) }
        ensures uses { Uses island.old.net island.new.net 0 }
        ensures beside { Beside (way_in island.old self.old.wire) (in_node island.old self.old.wire) island.old island.new }
    {
        if !self.flows() {
            return false;
        }
        island.laws();
        match island.wanted_by_place(self.wire, place) {
            Wanted::Cancelled => {
                self.boundary.cancel();
                true
            }
            Wanted::Asked => {
                let told = self.hand_on(island, place);
                self.hand_on_last(island, place);
                told
            }
            Wanted::Quiet => {
                self.hand_on_last(island, place);
                false
            }
        }
    }
}

// The stage at which the lane that is wire `wire` comes in ends its output, as the lane did.
fn give_end<S: Source, D: Drain, L: Logic, H: Handlers, B: PlugBook>(
    island: &mut Island<S, D, L, H, B>,
    wire: u32,
    place: u32,
    end: Item,
)
    requires whole { island.old.broken ≡ false }
    requires enters { Enters island.old wire }
    requires place { place ≡ way_in island.old wire }
    requires is_end { ends end ≡ true }
    requires live { output_closed (cell_in island.old wire).wire.out ≡ false }
    ensures after { island.new ≡ with_net island.old (moved_at island.old.net (way_in island.old wire) (act_of end)) }
    ensures uses { Uses island.old.net island.new.net 0 }
{
    match end {
        Item::Elem(_) => unreachable!(),
        Item::Ended => island.end_by_place(wire, place, None),
        Item::Failed(cause) => island.end_by_place(wire, place, Some(cause)),
    }
}
