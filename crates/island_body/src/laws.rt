// Laws of the ends of a lane at the stages of an island: each function has no body, and its contract is the law.
ghost use Rattle.std.specs.Prelude.{◌≡◌, ◌≢◌, ℕ, Option, map, []};
ghost use Rattle.nodes.specs.Nodes.{node_port_state, node_law, node_asking, node_moves, node_gone, node_passive};
ghost use Rattle.fused_net.specs.Net.{ports_at};
ghost use Rattle.fused_net.specs.Laws.{Settled, NetGoesOn};
ghost use Rattle.fused_net.specs.Outside.{StandsStill, Untouched, IsElse, HasOnly};
ghost use Rattle.lane_core.specs.declared.lane_out.LaneOut.{LaneOut};
ghost use Rattle.interpreter.specs.Island.{Kept};
ghost use Rattle.interpreter.specs.Boundary.{Leaves, way_out, Enters, way_in, cell_in};
ghost use Rattle.island_body.specs.Beside.{Beside, out_node};
ghost use Rattle.island_body.specs.Serving.{Serves, IsServed};
ghost use Rattle.lane_core.specs.Ends.{taken_items};
ghost use Rattle.lane_core.specs.declared.boundary.InputBoundary.{InputBoundary};
ghost use Rattle.lane_core.specs.declared.state.State.TheVariants.{Flowing};
ghost use Rattle.lane_core.specs.Boundary.{given, waits, state};
ghost use Rattle.island_body.specs.Feeding.{Feeds, IsFed};

use graph_stage::handlers::Handlers;
use plug_logic::book::PlugBook;
use plug_logic::logic::Logic;
use stream_io::outside::{Drain, Source};

/// What an output boundary keeps stands while another end of a lane acts (`beside`) and while its island runs (`ran`). One that has
/// nothing to do has nothing to do after the other acted (`served`), nor after the island ran to where it heard of nothing
/// (`untouched`).
pub fn an_output_boundary_stands<S: Source, D: Drain, L: Logic, H: Handlers, B: PlugBook>()
    ensures beside { (o : LaneOut) (q n : ℕ) (old new : Kept S D L H B) (u : ℕ) → Beside q n old new → way_out old u ≢ q → out_node old u ≢ n → Serves o old u
        → Serves o new u }
    ensures served { (o : LaneOut) (q n : ℕ) (old new : Kept S D L H B) (u : ℕ) → Beside q n old new → way_out old u ≢ q → out_node old u ≢ n → IsServed o old u
        → IsServed o new u }
    ensures ran { (o : LaneOut) (old new : Kept S D L H B) (u : ℕ) → Settled node_port_state (node_law S.state D.state B.lists) node_asking node_moves old.net
        → Settled node_port_state (node_law S.state D.state B.lists) node_asking node_moves new.net → Leaves old u → NetGoesOn old.net new.net
        → new.outs ≡ old.outs
        → map node_gone new.net.nodes ≡ map node_gone old.net.nodes → StandsStill node_passive old.net new.net → Serves o old u → Serves o new u }
    ensures untouched { (o : LaneOut) (old new : Kept S D L H B) (u : ℕ) → Settled node_port_state
        (node_law S.state D.state B.lists) node_asking node_moves old.net → Settled node_port_state
        (node_law S.state D.state B.lists) node_asking node_moves new.net → Leaves old u → NetGoesOn old.net new.net → new.outs ≡ old.outs
        → map node_gone new.net.nodes ≡ map node_gone old.net.nodes → StandsStill node_passive old.net new.net → (at : Option ℕ)
        → Untouched node_passive at old.net new.net → IsElse at (way_out old u) → HasOnly (ports_at old.net (out_node old u)) (way_out old u) → IsServed o old u
        → IsServed o new u }
{}

/// What an input boundary keeps at its stage holds where nothing was pushed yet (`begins`). It stands while items come
/// off its lane (`looked`), while another end of a lane acts (`beside`), which leaves the stage where it is (`enters`), and while
/// its island runs (`ran`). One that has nothing to do has nothing to do after the other acted (`fed`), nor where nothing
/// came off its lane (`same`), nor after the island ran to where it heard of nothing (`untouched`).
pub fn an_input_boundary_stands<S: Source, D: Drain, L: Logic, H: Handlers, B: PlugBook>()
    ensures begins { (b : InputBoundary) (i : Kept S D L H B) (u : ℕ) → Settled node_port_state (node_law S.state D.state B.lists) node_asking node_moves i.net
        → Enters i u → (cell_in i u).wire.sent ≡ [] → given b ≡ [] → state b ≡ Flowing → Feeds b i u }
    ensures enters { (q n : ℕ) (old new : Kept S D L H B) (u : ℕ) → Beside q n old new → Enters old u → Enters new u }
    ensures looked { (b c : InputBoundary) (i : Kept S D L H B) (u : ℕ) → given c ≡ given b → state c ≡ state b → Feeds b i u → Feeds c i u }
    ensures beside { (b : InputBoundary) (q n : ℕ) (old new : Kept S D L H B) (u : ℕ) → Beside q n old new → way_in old u ≢ q → Feeds b old u → Feeds b new u }
    ensures fed { (b : InputBoundary) (q n : ℕ) (old new : Kept S D L H B) (u : ℕ) → Beside q n old new → way_in old u ≢ q → IsFed b old u → IsFed b new u }
    ensures same { (b c : InputBoundary) (i : Kept S D L H B) (u : ℕ) → taken_items c.lane ≡ taken_items b.lane → given c ≡ given b → waits c ≡ waits b
        → state c ≡ state b → IsFed b i u → IsFed c i u }
    ensures ran { (b : InputBoundary) (old new : Kept S D L H B) (u : ℕ) → Settled node_port_state
        (node_law S.state D.state B.lists) node_asking node_moves old.net → Settled node_port_state
        (node_law S.state D.state B.lists) node_asking node_moves new.net → Enters old u → NetGoesOn old.net new.net → new.ins ≡ old.ins
        → StandsStill node_passive old.net new.net → Feeds b old u → Feeds b new u }
    ensures untouched { (b : InputBoundary) (old new : Kept S D L H B) (u : ℕ) → Settled node_port_state
        (node_law S.state D.state B.lists) node_asking node_moves old.net → Enters old u → new.ins ≡ old.ins
        → StandsStill node_passive old.net new.net → (at : Option ℕ) → Untouched node_passive at old.net new.net → IsElse at (way_in old u) → IsFed b old u
        → IsFed b new u }
{}
