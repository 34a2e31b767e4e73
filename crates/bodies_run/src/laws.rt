// Laws of the bodies of a blueprint's islands, and of what they leave: each function has no body, and its contract is the law.
ghost use Rattle.std.specs.Prelude.{◌≡◌, ◌+◌, ◌<◌, ◌≤◌, [], ℕ, true, List, length, slice_get, slice_index, Some, All};
ghost use Rattle.std.specs.List.{sum_by};
ghost use Rattle.stream_model.specs.Graph.{Graph, Edge};
ghost use Rattle.stream_model.specs.Shape.{count_needed};
ghost use Rattle.fused_net.specs.Costs.{sum_below, total_cost, all_asks};
ghost use Rattle.fused_net.specs.Laws.{AllKept};
ghost use Rattle.nodes.specs.Nodes.{KeepsNode};
ghost use Rattle.nodes.specs.declared.node.IslandNode.{IslandNode};
ghost use Rattle.interpreter.specs.Island.{Kept};
ghost use Rattle.interpreter.specs.Boundary.{EntersBy, LeavesBy, way_in, way_out};
ghost use Rattle.interpreter.specs.Parts.{AllBecome};
ghost use Rattle.interpreter.specs.Ways.{comes_in, goes_out};
ghost use Rattle.interpreter.specs.declared.parts.Link.{Link};
ghost use Rattle.interpreter.specs.declared.parts.Seated.{Seated};
ghost use Rattle.run_laws.specs.Pictures.{picture_counts};
ghost use Rattle.run_laws.specs.Seats.{Covers, LanesKeep, LanesRest, joined_account};
ghost use Rattle.run_laws.specs.Units.{Owned, LanesCost, over_lanes};
ghost use Rattle.lane_core.specs.Bodies.{AllOf, EachOf};
ghost use Rattle.lane_core.specs.Crossings.{AllJoined, AtRest};
ghost use Rattle.lane_core.specs.declared.crossing.Crossing.{Crossing};
ghost use Rattle.dispatcher.specs.Broken.{WholeOrBroken};
ghost use Rattle.bodies_run.specs.Islands.{seats_by_islands, seats_in, links_in, AreSeated, AreNets, AreBroughtBack};
ghost use Rattle.island_body.specs.Keeping.{is_pending, BodyKeeps, BodyGoes, BodyBreaks};
ghost use Rattle.island_body.specs.Meeting.{BodiesJoined};
ghost use Rattle.island_body.specs.declared.body.Body.{Body};
ghost use Rattle.bodies_run.specs.Bodies.{net_of, AreLanes, AskedAre, AreBodiesOf, AllSettled, AreLastOf};
ghost use Rattle.blue_check.specs.Fitness.{IsFit};
ghost use Rattle.blue_check.specs.Wires.{blueprint_wires};
ghost use Rattle.stream_model.specs.declared.blueprint.Blueprint.{Blueprint};
ghost use Rattle.stream_model.specs.Known.{HeadLists};
ghost use Rattle.run_laws.specs.Account.{Account, IsStill};
ghost use Rattle.run_laws.specs.Runs.{IsRun};
ghost use Rattle.materializer.specs.Graphs.{graph_of, around_of};
ghost use Rattle.materializer.specs.Seats.{AreSeats};
ghost use Rattle.bodies_run.specs.Leaving.{account_in, AreLeft, of_lists};

use graph_stage::handlers::Handlers;
use plug_logic::book::PlugBook;
use plug_logic::logic::Logic;
use stream_io::outside::{Drain, Source};

/// An island whose lanes come in and go out at its links has the stage of each at the place of its wire's connection: at the output
/// (`out`), and at the input (`inp`).
pub fn lanes_lie_at_their_places<S: Source, D: Drain, L: Logic, H: Handlers, B: PlugBook>()
    ensures out { (homes : List ℕ) (count : ℕ) (ws : List Edge) (nodes : List (Seated S D L H B)) (u : ℕ) (v : Edge) (size : ℕ) (i : Kept S D L H B)
        → AreSeated homes count ws nodes → slice_get ws u ≡ Some v → v.lane ≡ Some size
        → ((q : ℕ) (l : Link) → slice_get (links_in homes ws nodes (slice_index homes v.from)) q ≡ Some l
        → goes_out (seats_in homes ws nodes (slice_index homes v.from)) l.to ≡ true → LeavesBy i l.wire q)
        → ((seats_by_islands homes ws).near u).at ≡ way_out i u }
    ensures inp { (homes : List ℕ) (count : ℕ) (ws : List Edge) (nodes : List (Seated S D L H B)) (u : ℕ) (v : Edge) (size : ℕ) (i : Kept S D L H B)
        → AreSeated homes count ws nodes → slice_get ws u ≡ Some v → v.lane ≡ Some size
        → ((q : ℕ) (l : Link) → slice_get (links_in homes ws nodes (slice_index homes v.to)) q ≡ Some l
        → comes_in (seats_in homes ws nodes (slice_index homes v.to)) l.from ≡ true → EntersBy i l.wire q)
        → ((seats_by_islands homes ws).far u).at ≡ way_in i u }
{}

/// The nets of the bodies' islands cover the graph of the blueprint (`covers`), and each of their connections is one of a wire's
/// (`owned`): they are nets of its islands (`nets`), and each net is between two events (`settled`). Their nodes began as what stands at
/// the nodes of the blueprint (`began`), and their crossings are its lanes (`lanes`).
pub fn bodies_cover<S: Source, D: Drain, L: Logic, H: Handlers, B: PlugBook>()
    ensures covers { (g : Graph) (homes : List ℕ) (count : ℕ) (ws : List Edge) (nodes : List (Seated S D L H B)) (crossings : List Crossing)
        (begun now : List (Body S D L H B)) → AreBodiesOf S.state D.state B.lists g homes count ws nodes crossings begun → EachOf BodyGoes begun now
        → AllOf (BodyKeeps S.state D.state B.lists) now
        → Covers g (net_of now) (seats_by_islands homes ws) }
    ensures owned { (g : Graph) (homes : List ℕ) (count : ℕ) (ws : List Edge) (nodes : List (Seated S D L H B)) (crossings : List Crossing)
        (begun now : List (Body S D L H B)) → AreBodiesOf S.state D.state B.lists g homes count ws nodes crossings begun → EachOf BodyGoes begun now
        → AllOf (BodyKeeps S.state D.state B.lists) now
        → Owned g (net_of now) (seats_by_islands homes ws) count }
    ensures nets { (g : Graph) (homes : List ℕ) (count : ℕ) (ws : List Edge) (nodes : List (Seated S D L H B)) (crossings : List Crossing)
        (begun now : List (Body S D L H B)) → AreBodiesOf S.state D.state B.lists g homes count ws nodes crossings begun → EachOf BodyGoes begun now
        → AllOf (BodyKeeps S.state D.state B.lists) now
        → AreNets homes ws nodes count (net_of now) }
    ensures began { (g : Graph) (homes : List ℕ) (count : ℕ) (ws : List Edge) (nodes : List (Seated S D L H B)) (crossings : List Crossing)
        (begun now : List (Body S D L H B)) (all : ℕ → ℕ) → AreBodiesOf S.state D.state B.lists g homes count ws nodes crossings begun → EachOf BodyGoes begun now
        → AllOf (BodyKeeps S.state D.state B.lists) now
        → (firsts : List (IslandNode S D L H B)) × (AllBecome nodes firsts × ((k : ℕ) → k < length g.nodes
        → (joined_account (net_of now) (seats_by_islands homes ws) all).firsts k ≡ slice_get firsts k)) }
    ensures lanes { (g : Graph) (homes : List ℕ) (count : ℕ) (ws : List Edge) (nodes : List (Seated S D L H B)) (crossings : List Crossing)
        (begun now : List (Body S D L H B)) → AreBodiesOf S.state D.state B.lists g homes count ws nodes crossings begun → EachOf BodyGoes begun now
        → AllOf (BodyKeeps S.state D.state B.lists) now
        → AreLanes homes ws now crossings }
    ensures settled { (now : List (Body S D L H B)) → AllOf (BodyKeeps S.state D.state B.lists) now → AllSettled S.state D.state B.lists now }
{}

/// Where the ends of all lanes were brought together, of each lane is kept and known what an account wants, between the connections of
/// its wire.
pub fn their_lanes_keep<S: Source, D: Drain, L: Logic, H: Handlers, B: PlugBook>()
    ensures { (g : Graph) (homes : List ℕ) (count : ℕ) (ws : List Edge) (nodes : List (Seated S D L H B)) (crossings : List Crossing)
        (begun now : List (Body S D L H B)) (all : ℕ → ℕ) → AreBodiesOf S.state D.state B.lists g homes count ws nodes crossings begun → EachOf BodyGoes begun now
        → AllOf (BodyKeeps S.state D.state B.lists) now → AskedAre now crossings all → AllJoined BodiesJoined now crossings
        → LanesKeep g (net_of now) (seats_by_islands homes ws) all }
{}

/// Where no body has an event, no net has one (`queues`), and each lane rests (`lanes`).
pub fn their_lanes_rest<S: Source, D: Drain, L: Logic, H: Handlers, B: PlugBook>()
    ensures queues { (crossings : List Crossing) (now : List (Body S D L H B)) → AtRest is_pending BodiesJoined now crossings → (k : ℕ)
        → (net_of now k).queue ≡ [] }
    ensures lanes { (g : Graph) (homes : List ℕ) (count : ℕ) (ws : List Edge) (nodes : List (Seated S D L H B)) (crossings : List Crossing)
        (begun now : List (Body S D L H B)) (all : ℕ → ℕ) → AreBodiesOf S.state D.state B.lists g homes count ws nodes crossings begun → EachOf BodyGoes begun now
        → AllOf (BodyKeeps S.state D.state B.lists) now → AskedAre now crossings all → AtRest is_pending BodiesJoined now crossings
        → LanesRest g (net_of now) (seats_by_islands homes ws) all }
{}

/// What bodies spent: `cost` is what was taken off each lane, with the finds of new demand or a cancel there. What was spent is at most
/// the events of all nets and these costs, and at least the asks that came to outputs and these costs (`costs`). So all that was spent is
/// below the count of the blueprint's wires over what they were sent, by one for each wire (`paid`).
pub fn bodies_are_paid<S: Source, D: Drain, L: Logic, H: Handlers, B: PlugBook>()
    ensures costs { (g : Graph) (homes : List ℕ) (count : ℕ) (ws : List Edge) (nodes : List (Seated S D L H B)) (crossings : List Crossing)
        (begun now : List (Body S D L H B)) (all : ℕ → ℕ) → AreBodiesOf S.state D.state B.lists g homes count ws nodes crossings begun → EachOf BodyGoes begun now
        → AllOf (BodyKeeps S.state D.state B.lists) now → AskedAre now crossings all → AllJoined BodiesJoined now crossings
        → (cost : ℕ → ℕ) × (LanesCost g (net_of now) (seats_by_islands homes ws) all cost
        × ((sum_by (λ b. b.spent) now ≤ sum_below (λ b. total_cost (net_of now b)) count + over_lanes g cost)
        × (sum_below (λ b. all_asks (net_of now b)) count + over_lanes g cost ≤ sum_by (λ b. b.spent) now))) }
    ensures paid { (g : Graph) (homes : List ℕ) (count : ℕ) (ws : List Edge) (nodes : List (Seated S D L H B)) (crossings : List Crossing)
        (begun now : List (Body S D L H B)) (all : ℕ → ℕ) → AreBodiesOf S.state D.state B.lists g homes count ws nodes crossings begun → EachOf BodyGoes begun now
        → AllOf (BodyKeeps S.state D.state B.lists) now → AskedAre now crossings all → AllJoined BodiesJoined now crossings
        → sum_by (λ b. b.spent) now + length g.wires ≤ count_needed g (picture_counts (joined_account (net_of now) (seats_by_islands homes ws) all) g) }
{}

/// Where memory was wanting, each body that broke off had a last moment between two events, and each other one is at such a moment
/// (`last`). With all islands as they were then, the nets of the bodies cover the graph of the blueprint (`covers`, `owned`, `nets`, `began`), each
/// net is between two events (`settled`), and their lanes keep what an account wants (`lanes`). Since then each node has kept what outlives
/// want of memory (`kept`).
pub fn broken_bodies_cover<S: Source, D: Drain, L: Logic, H: Handlers, B: PlugBook>()
    ensures last { (begun now : List (Body S D L H B)) → WholeOrBroken (BodyKeeps S.state D.state B.lists) BodyGoes (BodyBreaks S.state D.state B.lists) begun now
        → (then : List (Body S D L H B)) × AreLastOf S.state D.state B.lists begun now then }
    ensures covers { (g : Graph) (homes : List ℕ) (count : ℕ) (ws : List Edge) (nodes : List (Seated S D L H B)) (crossings : List Crossing)
        (begun now then : List (Body S D L H B)) → AreBodiesOf S.state D.state B.lists g homes count ws nodes crossings begun
        → WholeOrBroken (BodyKeeps S.state D.state B.lists) BodyGoes (BodyBreaks S.state D.state B.lists) begun now
        → AreLastOf S.state D.state B.lists begun now then
        → Covers g (net_of then) (seats_by_islands homes ws) }
    ensures owned { (g : Graph) (homes : List ℕ) (count : ℕ) (ws : List Edge) (nodes : List (Seated S D L H B)) (crossings : List Crossing)
        (begun now then : List (Body S D L H B)) → AreBodiesOf S.state D.state B.lists g homes count ws nodes crossings begun
        → WholeOrBroken (BodyKeeps S.state D.state B.lists) BodyGoes (BodyBreaks S.state D.state B.lists) begun now
        → AreLastOf S.state D.state B.lists begun now then
        → Owned g (net_of then) (seats_by_islands homes ws) count }
    ensures nets { (g : Graph) (homes : List ℕ) (count : ℕ) (ws : List Edge) (nodes : List (Seated S D L H B)) (crossings : List Crossing)
        (begun now then : List (Body S D L H B)) → AreBodiesOf S.state D.state B.lists g homes count ws nodes crossings begun
        → WholeOrBroken (BodyKeeps S.state D.state B.lists) BodyGoes (BodyBreaks S.state D.state B.lists) begun now
        → AreLastOf S.state D.state B.lists begun now then
        → AreNets homes ws nodes count (net_of then) }
    ensures began { (g : Graph) (homes : List ℕ) (count : ℕ) (ws : List Edge) (nodes : List (Seated S D L H B)) (crossings : List Crossing)
        (begun now then : List (Body S D L H B)) (all : ℕ → ℕ) → AreBodiesOf S.state D.state B.lists g homes count ws nodes crossings begun
        → WholeOrBroken (BodyKeeps S.state D.state B.lists) BodyGoes (BodyBreaks S.state D.state B.lists) begun now
        → AreLastOf S.state D.state B.lists begun now then
        → (firsts : List (IslandNode S D L H B)) × (AllBecome nodes firsts × ((k : ℕ) → k < length g.nodes
        → (joined_account (net_of then) (seats_by_islands homes ws) all).firsts k ≡ slice_get firsts k)) }
    ensures settled { (begun now then : List (Body S D L H B)) → WholeOrBroken (BodyKeeps S.state D.state B.lists) BodyGoes
        (BodyBreaks S.state D.state B.lists) begun now → AreLastOf S.state D.state B.lists begun now then
        → AllSettled S.state D.state B.lists then }
    ensures lanes { (g : Graph) (homes : List ℕ) (count : ℕ) (ws : List Edge) (nodes : List (Seated S D L H B)) (crossings : List Crossing)
        (begun now then : List (Body S D L H B)) (all : ℕ → ℕ) → AreBodiesOf S.state D.state B.lists g homes count ws nodes crossings begun
        → WholeOrBroken (BodyKeeps S.state D.state B.lists) BodyGoes (BodyBreaks S.state D.state B.lists) begun now
        → AreLastOf S.state D.state B.lists begun now then → AskedAre now crossings all → AllJoined BodiesJoined now crossings
        → LanesKeep g (net_of then) (seats_by_islands homes ws) all }
    ensures kept { (begun now then : List (Body S D L H B)) → WholeOrBroken (BodyKeeps S.state D.state B.lists) BodyGoes
        (BodyBreaks S.state D.state B.lists) begun now → AreLastOf S.state D.state B.lists begun now then
        → (k : ℕ) → AllKept (KeepsNode S.state D.state) (net_of then k).nodes (net_of now k).nodes }
{}

/// The bodies of a blueprint that breaks no rule, of whose sources none had handed out a byte, leave a run of it, wherever they are
/// between turns once the ends of all lanes were brought together (`run`). The nodes of their islands come back into one list (`back`), and the
/// run is of those of the blueprint's nodes (`nodes`). No event is left on any wire where no body has one (`still`). What they spent is
/// below the count of the blueprint's wires over what they were sent, by one for each wire (`most`).
pub fn bodies_leave_a_run<S: Source, D: Drain, L: Logic, H: Handlers, B: PlugBook>()
    ensures run { (b : Blueprint) (homes : List ℕ) (count : ℕ) (nodes : List (Seated S D L H B)) (crossings : List Crossing) (begun now : List (Body S D L H B))
        (all : ℕ → ℕ) (heads : HeadLists) (taken : List (List ℕ)) (ss : List S) (ds : List D) → IsFit b heads taken
        → AreSeats (around_of b) 0 b.nodes.items ss ds nodes → All (λ s. (S.state s).given ≡ 0) ss
        → AreBodiesOf S.state D.state B.lists (graph_of b) homes count (blueprint_wires b) nodes crossings begun → EachOf BodyGoes begun now
        → AllOf (BodyKeeps S.state D.state B.lists) now → AskedAre now crossings all → AllJoined BodiesJoined now crossings
        → IsRun S.state D.state B.lists (graph_of b) (account_in homes (blueprint_wires b) now all) }
    ensures back { (b : Blueprint) (homes : List ℕ) (count : ℕ) (nodes : List (Seated S D L H B)) (crossings : List Crossing) (begun now : List (Body S D L H B))
        → AreBodiesOf S.state D.state B.lists (graph_of b) homes count (blueprint_wires b) nodes crossings begun → EachOf BodyGoes begun now
        → AllOf (BodyKeeps S.state D.state B.lists) now
        → (last : List (IslandNode S D L H B)) × ((ends : List (IslandNode S D L H B))
        × AreBroughtBack homes count (blueprint_wires b) (λ k. (net_of now k).nodes) last ends) }
    ensures nodes { (b : Blueprint) (homes : List ℕ) (count : ℕ) (nodes : List (Seated S D L H B)) (crossings : List Crossing) (begun now : List (Body S D L H B))
        (all : ℕ → ℕ) (last ends : List (IslandNode S D L H B)) → AreBodiesOf S.state D.state B.lists (graph_of b) homes count
        (blueprint_wires b) nodes crossings begun → EachOf BodyGoes begun now → AllOf (BodyKeeps S.state D.state B.lists) now
        → AreBroughtBack homes count (blueprint_wires b) (λ k. (net_of now k).nodes) last ends
        → AreLeft nodes (account_in homes (blueprint_wires b) now all) last }
    ensures still { (b : Blueprint) (homes : List ℕ) (count : ℕ) (nodes : List (Seated S D L H B)) (crossings : List Crossing) (begun now : List (Body S D L H B))
        (all : ℕ → ℕ) → AreBodiesOf S.state D.state B.lists (graph_of b) homes count (blueprint_wires b) nodes crossings begun → EachOf BodyGoes begun now
        → AllOf (BodyKeeps S.state D.state B.lists) now → AskedAre now crossings all → AtRest is_pending BodiesJoined now crossings
        → IsStill (graph_of b) (account_in homes (blueprint_wires b) now all) }
    ensures most { (b : Blueprint) (homes : List ℕ) (count : ℕ) (nodes : List (Seated S D L H B)) (crossings : List Crossing) (begun now : List (Body S D L H B))
        (all : ℕ → ℕ) → AreBodiesOf S.state D.state B.lists (graph_of b) homes count (blueprint_wires b) nodes crossings begun → EachOf BodyGoes begun now
        → AllOf (BodyKeeps S.state D.state B.lists) now → AskedAre now crossings all → AllJoined BodiesJoined now crossings
        → sum_by (λ b. b.spent) now + length (blueprint_wires b) ≤ count_needed (graph_of b)
        (picture_counts (account_in homes (blueprint_wires b) now all) (graph_of b)) }
{}

/// Bodies of which some broke off leave a run too, with their islands as they were at a last moment between two events (`run`). The nodes
/// of the islands come back into one list, as they were then and as they are (`back`); the run is of those of the blueprint's nodes as
/// they were then (`nodes`), and since then each has kept what outlives want of memory (`kept`).
pub fn broken_bodies_leave_a_run<S: Source, D: Drain, L: Logic, H: Handlers, B: PlugBook>()
    ensures run { (b : Blueprint) (homes : List ℕ) (count : ℕ) (nodes : List (Seated S D L H B)) (crossings : List Crossing)
        (begun now then : List (Body S D L H B)) (all : ℕ → ℕ) (heads : HeadLists) (taken : List (List ℕ)) (ss : List S) (ds : List D) → IsFit b heads taken
        → AreSeats (around_of b) 0 b.nodes.items ss ds nodes → All (λ s. (S.state s).given ≡ 0) ss
        → AreBodiesOf S.state D.state B.lists (graph_of b) homes count (blueprint_wires b) nodes crossings begun
        → WholeOrBroken (BodyKeeps S.state D.state B.lists) BodyGoes (BodyBreaks S.state D.state B.lists) begun now
        → AreLastOf S.state D.state B.lists begun now then
        → AskedAre now crossings all → AllJoined BodiesJoined now crossings → IsRun S.state D.state B.lists (graph_of b)
        (account_in homes (blueprint_wires b) then all) }
    ensures back { (b : Blueprint) (homes : List ℕ) (count : ℕ) (nodes : List (Seated S D L H B)) (crossings : List Crossing)
        (begun now then : List (Body S D L H B)) → AreBodiesOf S.state D.state B.lists (graph_of b) homes count (blueprint_wires b) nodes crossings begun
        → WholeOrBroken (BodyKeeps S.state D.state B.lists) BodyGoes (BodyBreaks S.state D.state B.lists) begun now
        → AreLastOf S.state D.state B.lists begun now then
        → ((last : List (IslandNode S D L H B)) × ((ends : List (IslandNode S D L H B))
        × AreBroughtBack homes count (blueprint_wires b) (λ k. (net_of then k).nodes) last ends))
        × ((broken : List (IslandNode S D L H B)) × ((ends : List (IslandNode S D L H B))
        × AreBroughtBack homes count (blueprint_wires b) (λ k. (net_of now k).nodes) broken ends)) }
    ensures nodes { (b : Blueprint) (homes : List ℕ) (count : ℕ) (nodes : List (Seated S D L H B)) (crossings : List Crossing)
        (begun now then : List (Body S D L H B)) (all : ℕ → ℕ) (last ends : List (IslandNode S D L H B))
        → AreBodiesOf S.state D.state B.lists (graph_of b) homes count (blueprint_wires b) nodes crossings begun
        → WholeOrBroken (BodyKeeps S.state D.state B.lists) BodyGoes (BodyBreaks S.state D.state B.lists) begun now
        → AreLastOf S.state D.state B.lists begun now then
        → AreBroughtBack homes count (blueprint_wires b) (λ k. (net_of then k).nodes) last ends
        → AreLeft nodes (account_in homes (blueprint_wires b) then all) last }
    ensures kept { (homes : List ℕ) (count : ℕ) (b : Blueprint) (begun now then : List (Body S D L H B)) (last ends broken later : List (IslandNode S D L H B))
        → WholeOrBroken (BodyKeeps S.state D.state B.lists) BodyGoes (BodyBreaks S.state D.state B.lists) begun now
        → AreLastOf S.state D.state B.lists begun now then
        → AreBroughtBack homes count (blueprint_wires b) (λ k. (net_of then k).nodes) last ends
        → AreBroughtBack homes count (blueprint_wires b) (λ k. (net_of now k).nodes) broken later
        → AllKept (KeepsNode S.state D.state) last broken }
{}

/// A run is one too by an account that says nothing beyond the nodes of the blueprint, which holds lists of them (`run`). It is as still
/// (`still`), and its picture is the same (`counts`).
pub fn nodes_alone_are_a_run<S: Source, D: Drain, L: Logic, H: Handlers, B: PlugBook>()
    ensures run { (g : Graph) (a : Account (IslandNode S D L H B)) (places : List (Seated S D L H B)) (nodes : List (IslandNode S D L H B))
        → (left : AreLeft places a nodes) → length places ≡ length g.nodes → IsRun S.state D.state B.lists g a
        → IsRun S.state D.state B.lists g (of_lists a left.firsts nodes) }
    ensures still { (g : Graph) (a : Account (IslandNode S D L H B)) (firsts nodes : List (IslandNode S D L H B)) → IsStill g a
        → IsStill g (of_lists a firsts nodes) }
    ensures counts { (g : Graph) (a : Account (IslandNode S D L H B)) (firsts nodes : List (IslandNode S D L H B))
        → picture_counts (of_lists a firsts nodes) g ≡ picture_counts a g }
{}
