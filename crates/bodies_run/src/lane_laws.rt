// Laws of the two ends of a lane: each function has no body, and its contract is the law.
ghost use Rattle.std.specs.Prelude.{◌≡◌, List};
ghost use Rattle.elem_core.specs.Tree.{Tree};
ghost use Rattle.port_core.specs.Cell.{WireState};
ghost use Rattle.lane_core.specs.declared.lane_out.LaneOut.{LaneOut};
ghost use Rattle.lane_core.specs.declared.lane_in.LaneIn.{LaneIn};
ghost use Rattle.lane_core.specs.Ends.{IsLaneHistory, in_size};
ghost use Rattle.stream_model.specs.Outlook.{End};
ghost use Rattle.stage_core.specs.Held.{told};
ghost use Rattle.stage_core.specs.Law.{GaveAs};
ghost use Rattle.lane_core.specs.declared.boundary.InputBoundary.{InputBoundary};
ghost use Rattle.lane_core.specs.Boundary.{given, keeps_all, BoundaryKeeps};
ghost use Rattle.run_laws.specs.Ends.{InKeeps, Met};
ghost use Rattle.bodies_run.specs.Ends.{out_end, in_end};

// Choice: docs/DECISIONS.md#lanes-are-told-plainly
/// What is known of the lists and the numbers of a lane's two ends that were brought together is what an account wants of them.
pub fn ends_that_met_are_known()
    ensures { (o : LaneOut) (i : LaneIn) → IsLaneHistory o i → Met (in_size i) (out_end o) (in_end i) }
{}

/// An input boundary is what an account wants of an input end, where the connection behind its stage carries what it handed on.
pub fn an_input_boundary_keeps_its_end()
    ensures { (b : InputBoundary) (c : WireState) (l : List Tree) (e : End) → BoundaryKeeps b → c.wire.sent ≡ given b → c.wire.sent ≡ told l e
        → GaveAs c.wire.out e → InKeeps (keeps_all b) (in_size b.lane) c (in_end b.lane) }
{}
