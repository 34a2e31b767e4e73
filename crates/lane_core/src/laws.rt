// A law of meetings: the function has no body, and its contract is the law.
ghost use Rattle.std.specs.Prelude.{◌≡◌, ◌≤◌, ◌<◌, ◌⊎◌, IsTrue, length};
ghost use Rattle.lane_core.specs.declared.lane_out.LaneOut.{LaneOut};
ghost use Rattle.lane_core.specs.declared.lane_in.LaneIn.{LaneIn};
ghost use Rattle.lane_core.specs.declared.room.Waits.{Waits};
ghost use Rattle.lane_core.specs.Ends.{sent, seen_count, saw_cancel, told_asked, told_cancel, taken_items, told_sent, found_sent, IsLaneHistory, WaitsAre};
ghost use Rattle.lane_core.specs.Meeting.{KeepsOut, KeepsIn, AreTold};

/// What is known of the ends of a lane that were brought together, and what waits there, stands through every later meeting of
/// any ends: so where all lanes of several islands are gone through once, it is known of all of them at the end.
pub fn a_meeting_stands()
    ensures history { (o p : LaneOut) (i j : LaneIn) → KeepsOut o p → KeepsIn i j → IsLaneHistory o i → IsLaneHistory p j }
    ensures waits { (o p : LaneOut) (i j : LaneIn) (w : Waits) → KeepsOut o p → KeepsIn i j → WaitsAre o i w → WaitsAre p j w }
{}

/// What waits at a lane whose ends were brought together is found by the next look of the end for which it waits: a look of the input
/// end that finds nothing, and one of the output end that finds neither demand nor a cancel, came where nothing waited.
pub fn what_waits_is_found()
    ensures item { (o : LaneOut) (i j : LaneIn) (w : Waits) → AreTold o i → WaitsAre o i w → IsTrue w.item → taken_items j ≡ taken_items i
        → found_sent j ≡ length (taken_items j) → told_sent i ≤ found_sent j → ⊥ }
    ensures demand { (o p : LaneOut) (i : LaneIn) (w : Waits) → AreTold o i → WaitsAre o i w → IsTrue w.demand → told_asked o ≤ seen_count p
        → told_cancel o ≤ saw_cancel p → (seen_count o < seen_count p) ⊎ (saw_cancel o < saw_cancel p) }
{}
