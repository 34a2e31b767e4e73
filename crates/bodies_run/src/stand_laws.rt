// Laws of a lane between its two stages: each function has no body, and its contract is the law.
ghost use Rattle.std.specs.Prelude.{◌≡◌, ℕ, false, []};
ghost use Rattle.nodes.specs.Nodes.{node_port_state, node_law, node_asking, node_moves};
ghost use Rattle.fused_net.specs.Laws.{Settled};
ghost use Rattle.lane_core.specs.declared.lane_out.LaneOut.{LaneOut};
ghost use Rattle.lane_core.specs.declared.room.Waits.{Waits};
ghost use Rattle.lane_core.specs.Ends.{asked_in_all, in_size, IsLaneHistory, WaitsAre};
ghost use Rattle.lane_core.specs.declared.boundary.InputBoundary.{InputBoundary};
ghost use Rattle.lane_core.specs.Boundary.{keeps_all, BoundaryKeeps};
ghost use Rattle.interpreter.specs.Island.{Kept};
ghost use Rattle.interpreter.specs.Boundary.{Enters, Leaves, cell_in, cell_out};
ghost use Rattle.island_body.specs.Serving.{Serves, IsServed};
ghost use Rattle.island_body.specs.Feeding.{Feeds, IsFed};
ghost use Rattle.bodies_run.specs.Ends.{out_end, in_end};
ghost use Rattle.run_laws.specs.Ends.{OutKeeps, InKeeps, LaneKeeps};
ghost use Rattle.run_laws.specs.Quiet.{OutQuiet, InQuiet, LaneQuiet};

use graph_stage::handlers::Handlers;
use plug_logic::book::PlugBook;
use plug_logic::logic::Logic;
use stream_io::outside::{Drain, Source};

/// What an account wants of each end of a lane, while the islands run (`out`, `inp`) and where its island has no event and nothing is
/// left for the end to do (`out_quiet`, `in_quiet`).
pub fn an_end_is_kept<S: Source, D: Drain, L: Logic, H: Handlers, B: PlugBook>()
    ensures out { (o : LaneOut) (i : Kept S D L H B) (u : ℕ) → Settled node_port_state (node_law S.state D.state B.lists) node_asking node_moves i.net
        → Leaves i u → Serves o i u → OutKeeps (cell_out i u) (out_end o) }
    ensures inp { (b : InputBoundary) (j : Kept S D L H B) (u : ℕ) → Settled node_port_state (node_law S.state D.state B.lists) node_asking node_moves j.net
        → Enters j u → BoundaryKeeps b → Feeds b j u → InKeeps (keeps_all b) (in_size b.lane) (cell_in j u) (in_end b.lane) }
    ensures out_quiet { (o : LaneOut) (b : InputBoundary) (i : Kept S D L H B) (u : ℕ)
        → Settled node_port_state (node_law S.state D.state B.lists) node_asking node_moves i.net → Leaves i u → i.net.queue ≡ [] → IsLaneHistory o b.lane
        → Serves o i u → IsServed o i u → OutQuiet (cell_out i u) (out_end o) }
    ensures in_quiet { (b : InputBoundary) (j : Kept S D L H B) (u : ℕ) → Settled node_port_state (node_law S.state D.state B.lists) node_asking node_moves j.net
        → Enters j u → j.net.queue ≡ [] → BoundaryKeeps b → Feeds b j u → IsFed b j u → InQuiet (cell_in j u) (in_end b.lane) }
{}

/// A lane between two stages, of one island or of two, is what an account wants of it, with its two ends as they are.
pub fn a_lane_is_kept<S: Source, D: Drain, L: Logic, H: Handlers, B: PlugBook>()
    ensures { (o : LaneOut) (b : InputBoundary) (i j : Kept S D L H B) (u : ℕ) → Settled node_port_state
        (node_law S.state D.state B.lists) node_asking node_moves i.net → Settled node_port_state
        (node_law S.state D.state B.lists) node_asking node_moves j.net → Leaves i u → Enters j u
        → BoundaryKeeps b → IsLaneHistory o b.lane → Serves o i u → Feeds b j u
        → (k : LaneKeeps (keeps_all b) (in_size b.lane) (cell_out i u) (cell_in j u) (asked_in_all b.lane)) × ((k.out ≡ out_end o) × (k.inp ≡ in_end b.lane)) }
{}

/// And it is quiet where no event is left at either stage, neither end has anything to do, and nothing waits between them.
pub fn a_lane_is_quiet<S: Source, D: Drain, L: Logic, H: Handlers, B: PlugBook>()
    ensures { (o : LaneOut) (b : InputBoundary) (i j : Kept S D L H B) (u : ℕ) → Settled node_port_state
        (node_law S.state D.state B.lists) node_asking node_moves i.net → Settled node_port_state
        (node_law S.state D.state B.lists) node_asking node_moves j.net → Leaves i u → Enters j u → i.net.queue ≡ [] → j.net.queue ≡ []
        → BoundaryKeeps b → IsLaneHistory o b.lane → Serves o i u → Feeds b j u → IsServed o i u → IsFed b j u → (w : Waits) → WaitsAre o b.lane w
        → w.item ≡ false → w.demand ≡ false
        → (k : LaneKeeps (keeps_all b) (in_size b.lane) (cell_out i u) (cell_in j u) (asked_in_all b.lane)) → k.out ≡ out_end o → k.inp ≡ in_end b.lane
        → LaneQuiet (keeps_all b) (in_size b.lane) (cell_out i u) (cell_in j u) (asked_in_all b.lane) k }
{}
