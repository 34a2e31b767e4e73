// What the boundary stage at an end of a connection does between two events.
ghost use Rattle.std.specs.Prelude.{◌≡◌, ◌<◌, ◌≤◌, ◌↔◌, ◌∷◌, [], length, IsTrue, IfNone, IfSome};
ghost use Rattle.elem_core.specs.declared.count.TheConstants.{MOST_COUNT};
ghost use Rattle.port_core.specs.Decoding.{can_pull};
ghost use Rattle.port_core.specs.declared.act.Act.TheVariants as act;
ghost use Rattle.nodes.specs.Nodes.{node_port_state, node_law, node_asking, node_moves, node_waits, node_gone};
ghost use Rattle.fused_net.specs.Net.{wire_at, end_at};
ghost use Rattle.fused_net.specs.Laws.{Settled, NetGoesOn};
ghost use Rattle.fused_net.specs.Costs.{all_asks, Uses};
ghost use Rattle.fused_net.specs.Poking.{AtNode, HandsAt};
ghost use Rattle.interpreter.specs.declared.wanted.Wanted.TheVariants as wanted;
ghost use Rattle.interpreter.specs.BoundaryPlaces.{EntersAt, LeavesAt, IsClearAt, ReceivedAt, wanted_at, ends_at, moved_at, ended_at, cancelled_at};

use crate::wanted::Wanted;
use elem_core::elem::Elem;
use elem_core::item::Item;
use elem_core::why::Cause;
use fused_net::engine::Engine;
use graph_stage::handlers::Handlers;
use nodes::node::IslandNode;
use plug_logic::book::PlugBook;
use plug_logic::logic::Logic;
use port_core::act::Act;
use stream_io::outside::{Drain, Source};

/// What the stage at the output end of the connection at place `place` was asked, where a lane comes in. It takes no memory.
/// Rule: Akka Streams 2.6 reference, chapter on asynchronous boundaries.
pub fn wanted<S: Source, D: Drain, L: Logic, H: Handlers, B: PlugBook>(
    engine: &Engine<IslandNode<S, D, L, H, B>>,
    place: u32,
) -> Wanted
    requires { place < length engine.now.wires }
    ensures { result ≡ wanted_at (wire_at engine.now place) }
{
    let wire = engine.wire(place);
    if wire.is_cancelled() {
        Wanted::Cancelled
    } else if wire.can_push() {
        Wanted::Asked
    } else {
        Wanted::Quiet
    }
}

/// Pushes an element where a lane comes in. It takes no memory and costs no unit.
pub fn push_in<S: Source, D: Drain, L: Logic, H: Handlers, B: PlugBook>(
    engine: &mut Engine<IslandNode<S, D, L, H, B>>,
    place: u32,
    e: Elem,
)
    requires laws { Settled node_port_state (node_law S.state D.state B.lists) node_asking node_moves engine.old }
    requires within { place < length engine.old.wires }
    requires stage { EntersAt engine.old place }
    requires asked { wanted_at (wire_at engine.old place) ≡ wanted.Asked }
    requires few { all_asks engine.old ≤ MOST_COUNT }
    ensures after { engine.new ≡ moved_at engine.old place (act.Push 0 e) }
    ensures laws { Settled node_port_state (node_law S.state D.state B.lists) node_asking node_moves engine.new }
    ensures on { NetGoesOn engine.old engine.new }
    ensures uses { Uses engine.old engine.new 0 }
{
    engine.poke_push(place, e);
}

/// Completes what comes in there, or fails it; no change where its output is closed. It takes no memory and costs no unit.
pub fn end_in<S: Source, D: Drain, L: Logic, H: Handlers, B: PlugBook>(
    engine: &mut Engine<IslandNode<S, D, L, H, B>>,
    place: u32,
    cause: Option<Cause>,
)
    requires laws { Settled node_port_state (node_law S.state D.state B.lists) node_asking node_moves engine.old }
    requires within { place < length engine.old.wires }
    requires stage { EntersAt engine.old place }
    requires few { all_asks engine.old ≤ MOST_COUNT }
    ensures after { engine.new ≡ ended_at engine.old place cause }
    ensures laws { Settled node_port_state (node_law S.state D.state B.lists) node_asking node_moves engine.new }
    ensures on { NetGoesOn engine.old engine.new }
    ensures uses { Uses engine.old engine.new 0 }
{
    if !engine.wire(place).output_closed() {
        let ends = engine.ends(place);
        engine.poke(ends.from, end_act(ends.output, cause));
    }
}

/// The action that ends an output.
fn end_act(port: u8, cause: Option<Cause>) -> Act
    ensures { result ≡ ends_at port cause }
{
    match cause {
        None => Act::Complete(port),
        Some(cause) => Act::FailOut(port, cause),
    }
}

/// Whether nothing waits to be handed out where a lane goes out. It takes no memory.
pub fn is_clear<S: Source, D: Drain, L: Logic, H: Handlers, B: PlugBook>(
    engine: &Engine<IslandNode<S, D, L, H, B>>,
    place: u32,
) -> bool
    requires laws { Settled node_port_state (node_law S.state D.state B.lists) node_asking node_moves engine.now }
    requires within { place < length engine.now.wires }
    ensures { IsTrue result ↔ IsClearAt engine.now place }
{
    let ends = engine.ends(place);
    engine.is_clear(ends.to)
}

/// Whether the stage at the input end may ask, where a lane goes out: its connection lets it, and nothing waits to be handed
/// out. It takes no memory.
pub fn can_pull_out<S: Source, D: Drain, L: Logic, H: Handlers, B: PlugBook>(
    engine: &Engine<IslandNode<S, D, L, H, B>>,
    place: u32,
) -> bool
    requires laws { Settled node_port_state (node_law S.state D.state B.lists) node_asking node_moves engine.now }
    requires within { place < length engine.now.wires }
    ensures { IsTrue result ↔ (IsTrue (can_pull (wire_at engine.now place).wire.conn) × IsClearAt engine.now place) }
{
    let ends = engine.ends(place);
    engine.wire(place).can_pull() && engine.is_clear(ends.to)
}

/// Whether the connection lets the stage at the input end ask, where a lane goes out. It takes no memory.
pub fn lets_pull_out<S: Source, D: Drain, L: Logic, H: Handlers, B: PlugBook>(
    engine: &Engine<IslandNode<S, D, L, H, B>>,
    place: u32,
) -> bool
    requires within { place < length engine.now.wires }
    ensures { result ≡ can_pull (wire_at engine.now place).wire.conn }
{
    engine.wire(place).can_pull()
}

/// Asks there. It takes no memory and costs no unit.
pub fn pull_out<S: Source, D: Drain, L: Logic, H: Handlers, B: PlugBook>(
    engine: &mut Engine<IslandNode<S, D, L, H, B>>,
    place: u32,
)
    requires laws { Settled node_port_state (node_law S.state D.state B.lists) node_asking node_moves engine.old }
    requires within { place < length engine.old.wires }
    requires stage { LeavesAt engine.old place }
    requires can { IsTrue (can_pull (wire_at engine.old place).wire.conn) × IsClearAt engine.old place }
    requires few { all_asks engine.old ≤ MOST_COUNT }
    ensures after { engine.new ≡ moved_at engine.old place (act.Pull 0) }
    ensures laws { Settled node_port_state (node_law S.state D.state B.lists) node_asking node_moves engine.new }
    ensures on { NetGoesOn engine.old engine.new }
    ensures uses { Uses engine.old engine.new 0 }
{
    engine.poke_pull(place);
}

/// Hands out what came where a lane goes out, each element and the end once and in order. It takes no memory and costs no unit.
pub fn hand_out<S: Source, D: Drain, L: Logic, H: Handlers, B: PlugBook>(
    engine: &mut Engine<IslandNode<S, D, L, H, B>>,
    place: u32,
) -> Option<Item>
    requires laws { Settled node_port_state (node_law S.state D.state B.lists) node_asking node_moves engine.old }
    requires within { place < length engine.old.wires }
    ensures none { IfNone result ((engine.new ≡ engine.old) × IsClearAt engine.old place) }
    ensures some { IfSome result (λ x. HandsAt node_gone node_waits engine.old (end_at engine.old.ends place).to (x ∷ []) engine.new) }
    ensures laws { Settled node_port_state (node_law S.state D.state B.lists) node_asking node_moves engine.new }
    ensures on { NetGoesOn engine.old engine.new }
    ensures uses { Uses engine.old engine.new 0 }
{
    let ends = engine.ends(place);
    engine.hand_out(ends.to)
}

/// Cancels there, without change where its input is closed. It takes no memory and costs no unit.
fn cancel<S: Source, D: Drain, L: Logic, H: Handlers, B: PlugBook>(
    engine: &mut Engine<IslandNode<S, D, L, H, B>>,
    place: u32,
)
    requires laws { Settled node_port_state (node_law S.state D.state B.lists) node_asking node_moves engine.old }
    requires within { place < length engine.old.wires }
    requires stage { LeavesAt engine.old place }
    requires few { all_asks engine.old ≤ MOST_COUNT }
    ensures after { engine.new ≡ cancelled_at engine.old place }
    ensures laws { Settled node_port_state (node_law S.state D.state B.lists) node_asking node_moves engine.new }
    ensures on { NetGoesOn engine.old engine.new }
    ensures uses { Uses engine.old engine.new 0 }
{
    if !engine.wire(place).input_closed() {
        let ends = engine.ends(place);
        engine.poke(ends.to, Act::Cancel(ends.input));
    }
}

/// Cancels there, without change where its input is closed, and drops what waits to be handed out. It takes no memory and costs
/// no unit.
pub fn cancel_out<S: Source, D: Drain, L: Logic, H: Handlers, B: PlugBook>(
    engine: &mut Engine<IslandNode<S, D, L, H, B>>,
    place: u32,
)
    requires laws { Settled node_port_state (node_law S.state D.state B.lists) node_asking node_moves engine.old }
    requires within { place < length engine.old.wires }
    requires stage { LeavesAt engine.old place }
    requires few { all_asks engine.old ≤ MOST_COUNT }
    ensures drops { AtNode (cancelled_at engine.old place) (end_at engine.old.ends place).to
        (λ x. HandsAt node_gone node_waits (cancelled_at engine.old place) (end_at engine.old.ends place).to (node_waits x) engine.new) }
    ensures laws { Settled node_port_state (node_law S.state D.state B.lists) node_asking node_moves engine.new }
    ensures on { NetGoesOn engine.old engine.new }
    ensures uses { Uses engine.old engine.new 0 }
{
    let ends = engine.ends(place);
    cancel(engine, place);
    engine.let_go(ends.to);
}

/// What came where a lane goes out is what was handed out or dropped, and then what waits. The call does nothing.
pub fn came_to<S: Source, D: Drain, L: Logic, H: Handlers, B: PlugBook>(
    engine: &Engine<IslandNode<S, D, L, H, B>>,
    place: u32,
)
    requires laws { Settled node_port_state (node_law S.state D.state B.lists) node_asking node_moves engine.now }
    requires within { place < length engine.now.wires }
    requires stage { LeavesAt engine.now place }
    ensures { ReceivedAt engine.now place }
{
    let _ = engine;
    let _ = place;
}
