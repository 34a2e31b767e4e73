// Laws: each function has no body, and its contract is the law.
ghost use Rattle.std.specs.Prelude.{◌≡◌, ℕ, ◌+◌, ◌*◌, ◌<◌, ◌≤◌, Bool, false, List, [], Some, length};
ghost use Rattle.elem_core.specs.Prefix.{IsPrefix};
ghost use Rattle.elem_core.specs.Tree.{Tree};
ghost use Rattle.elem_core.specs.Items.{elements};
ghost use Rattle.port_core.specs.Joint.{IsSound};
ghost use Rattle.port_core.specs.Cell.{WireState};
ghost use Rattle.port_core.specs.Counts.{spent};
ghost use Rattle.port_core.specs.Marks.{IsMarked};
ghost use Rattle.stream_model.specs.Outlook.{End};
ghost use Rattle.stage_core.specs.Held.{told};
ghost use Rattle.run_laws.specs.Ends.{LaneKeeps};
ghost use Rattle.run_laws.specs.Items.{ArrivedOf};
ghost use Rattle.run_laws.specs.Pictures.{picture_counts};
ghost use Rattle.run_laws.specs.Ports.{InStands, OutStands, InRests, OutRests};
ghost use Rattle.run_laws.specs.Quiet.{LaneQuiet};
ghost use Rattle.run_laws.specs.Units.{over_lanes, Owned, LanesCost};
ghost use Rattle.run_laws.specs.Wires.{far_port, near_port};
ghost use Rattle.stream_model.specs.Graph.{Graph};
ghost use Rattle.stream_model.specs.Joined.{IsJoined};
ghost use Rattle.stream_model.specs.Lane.{loss_of};
ghost use Rattle.stream_model.specs.Shape.{count_needed};
ghost use Rattle.fused_net.specs.Costs.{sum_below, total_cost};
ghost use Rattle.fused_net.specs.Net.{Net};
ghost use Rattle.fused_net.specs.Laws.{Settled};
ghost use Rattle.run_laws.specs.Account.{KeepsLaws, IsStill};
ghost use Rattle.run_laws.specs.Seats.{Seats, Covers, LanesKeep, LanesRest, joined_account};

use stage_core::stage::Stage;

/// Nets of nodes of any type that is a stage, between two events, in which the nodes and the wires of a blueprint have their
/// places, keep its laws: each node its port state, its law and the moments of its asks, and each wire what it does.
pub fn nets_keep<S: Stage>()
    ensures { (g : Graph) (nets : ℕ → Net S) (s : Seats) (asked : ℕ → ℕ) → IsJoined g → Covers g nets s
        → ((b : ℕ) → Settled S.port_state S.law S.asking S.moves (nets b)) → LanesKeep g nets s asked
        → KeepsLaws S.port_state S.law S.asking S.moves g (joined_account nets s asked) }
{}

/// Where moreover no net has an event and each lane rests, no event is left on any wire.
pub fn nets_rest<S: Stage>()
    ensures { (g : Graph) (nets : ℕ → Net S) (s : Seats) (asked : ℕ → ℕ) → Covers g nets s → ((b : ℕ) → Settled S.port_state S.law S.asking S.moves (nets b))
        → ((b : ℕ) → (nets b).queue ≡ []) → LanesRest g nets s asked
        → IsStill g (joined_account nets s asked) }
{}

/// Of what was sent at the output of a lane, the node at its input got a first part; where a normal end came all, and where a
/// failure came all but as many elements as the lane may lose.
pub fn a_lane_brings_what_was_sent()
    ensures { (keep : Bool) (s : ℕ) (near far : WireState) (p q : Bool) (asked : ℕ) → IsSound near.wire p → IsSound far.wire q → LaneKeeps keep s near far asked
        → ArrivedOf (Some (loss_of keep s)) near.wire.sent far.wire.got }
{}

/// At every moment a lane stands for the nodes at its ends as any wire does: no more came than was sent; a lane that is not asked
/// was sent as many elements as it has places; what is wanted of it beyond its places the node at its input has asked for; what the
/// node at its output was asked for is wanted of it; and it is shut where that node knows it to be closed.
pub fn a_lane_stands_as_a_wire()
    ensures input { (keep : Bool) (u s : ℕ) (near far : WireState) (p q : Bool) (asked : ℕ) (list m l : List Tree) (f e : End) → IsSound near.wire p
        → IsSound far.wire q
        → near.wire.sent ≡ told m f → IsPrefix m list → far.wire.got ≡ told l e
        → LaneKeeps keep s near far asked → InStands (far_port u s near far asked list) }
    ensures output { (keep : Bool) (u s : ℕ) (near far : WireState) (asked : ℕ) (list : List Tree) (p : Bool) → IsSound near.wire p
        → LaneKeeps keep s near far asked → OutStands (near_port u s near far asked list) }
{}

/// Where no island has an event, it also rests as any wire does: a node that waits at its input has got all that was sent, and
/// the lane is asked and open; one that was asked at its output finds it asked, one that was not finds it not asked; and a lane
/// that either of the two nodes has closed is shut.
pub fn a_quiet_lane_rests()
    ensures input { (keep : Bool) (u s : ℕ) (near far : WireState) (asked : ℕ) (list : List Tree) → IsSound near.wire false → IsSound far.wire false
        → IsMarked near
        → IsMarked far
        → (k : LaneKeeps keep s near far asked) → LaneQuiet keep s near far asked k → InRests (far_port u s near far asked list) }
    ensures output { (keep : Bool) (u s : ℕ) (near far : WireState) (asked : ℕ) (list : List Tree) → IsSound near.wire false → IsSound far.wire false
        → IsMarked near
        → IsMarked far
        → (k : LaneKeeps keep s near far asked) → LaneQuiet keep s near far asked k → OutRests (near_port u s near far asked list) }
{}

/// What a lane costs: the events of its two connections, the items that were taken off it, and the finds of new demand or a
/// cancel are together below six times the elements that were sent, and twelve.
pub fn a_lane_is_paid()
    ensures { (keep : Bool) (s : ℕ) (near far : WireState) (p q : Bool) (asked : ℕ) → IsSound near.wire p → IsSound far.wire q
        → (k : LaneKeeps keep s near far asked)
        → (spent near.wire p + spent far.wire q) + (length k.inp.taken + k.out.finds) < 6 * elements near.wire.sent + 12 }
{}

/// What islands cost: where each connection of so many islands is one of a wire's, the events of all of them, the items that were
/// taken off the lanes and the finds of new demand or a cancel are together below the count of the blueprint's wires over what
/// they were sent, which is 2n + 4 for a wire with n elements and 6n + 12 for a lane; below it by one for each wire.
pub fn islands_are_paid<S: Stage>()
    ensures { (g : Graph) (nets : ℕ → Net S) (s : Seats) (asked cost : ℕ → ℕ) (islands : ℕ) → Covers g nets s
        → ((b : ℕ) → Settled S.port_state S.law S.asking S.moves (nets b)) → Owned g nets s islands → LanesCost g nets s asked cost
        → (sum_below (λ b. total_cost (nets b)) islands + over_lanes g cost) + length g.wires ≤ count_needed g
        (picture_counts (joined_account nets s asked) g) }
{}
