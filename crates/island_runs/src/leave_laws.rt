// Laws of what the bodies of a blueprint leave: each function has no body, and its contract is the law.
ghost use Rattle.std.specs.Prelude.{◌≡◌, ℕ, ◌+◌, List, map, ◌≤◌, length};
ghost use Rattle.stream_model.specs.declared.blueprint.Blueprint.{Blueprint};
ghost use Rattle.blue_check.specs.Wires.{blueprint_wires};
ghost use Rattle.nodes.specs.declared.node.IslandNode.{IslandNode};
ghost use Rattle.interpreter.specs.Island.{readers_of, writers_of};
ghost use Rattle.interpreter.specs.declared.island.IslandEnd.{IslandEnd};
ghost use Rattle.interpreter.specs.declared.parts.Seated.{Seated};
ghost use Rattle.lane_core.specs.Bodies.{AllOf, EachOf};
ghost use Rattle.lane_core.specs.Crossings.{AllJoined};
ghost use Rattle.lane_core.specs.declared.crossing.Crossing.{Crossing};
ghost use Rattle.dispatcher.specs.Broken.{WholeOrBroken};
ghost use Rattle.island_parts.specs.Ends.{AreEndsOf, AreHomesOf, AreHandlesOf, IsWholeEnd};
ghost use Rattle.island_parts.specs.declared.room.EndHomes.{EndHomes};
ghost use Rattle.island_plans.specs.Ends.{AreEndHomes};
ghost use Rattle.bodies_run.specs.Islands.{AreBroughtBack};
ghost use Rattle.island_body.specs.Keeping.{BodyKeeps, BodyGoes, BodyBreaks};
ghost use Rattle.island_body.specs.Meeting.{BodiesJoined};
ghost use Rattle.island_body.specs.declared.body.Body.{Body};
ghost use Rattle.bodies_run.specs.Bodies.{net_of, AreBodiesOf, AreLastOf, AskedAre};
ghost use Rattle.bodies_run.specs.Leaving.{account_in};
ghost use Rattle.materializer.specs.Graphs.{graph_of, around_of};
ghost use Rattle.materializer.specs.Seats.{AreSeats};
ghost use Rattle.island_plans.specs.Making.{AreEndsOfBodies};
ghost use Rattle.bodies_run.specs.Begun.{AreNumberedBodies, AreAligned};
ghost use Rattle.island_runs.specs.Whole.{whole_of, IsLeftBy};
ghost use Rattle.island_parts.specs.Starts.{AllGiveBack};
ghost use Rattle.island_plans.specs.Plans.{IsFilled};
ghost use Rattle.island_plans.specs.declared.plans.Filled.{Filled};
ghost use Rattle.std.specs.List.{sum_by};
ghost use Rattle.stream_model.specs.declared.outcome.WireCount.{WireCount};
ghost use Rattle.run_laws.specs.Pictures.{picture_counts};
ghost use Rattle.blue_check.specs.Plan.{lanes_from};
ghost use Rattle.blue_check.specs.declared.plan.LanePlan.{LanePlan};
ghost use Rattle.island_plans.specs.LaneEnds.{AreRising};
ghost use Rattle.island_plans.specs.Asked.{LieThere, AreAsked, AreNoted, AreWithin};
ghost use Rattle.bodies_run.specs.Counts.{told_from, lane_demand, all_sent, taken_off};

use graph_stage::handlers::Handlers;
use plug_logic::book::PlugBook;
use plug_logic::logic::Logic;
use stream_io::outside::{Drain, Source};

/// What the bodies of a blueprint's islands leave is all that its nodes and wires leave, in shares (`ends`), with the homes that were
/// planned (`homes`); and all of it in one end is left by its nodes and wires (`left`).
pub fn bodies_leave_what_their_nodes_do<S: Source, D: Drain, L: Logic, H: Handlers, B: PlugBook>()
    ensures ends { (b : Blueprint) (homes : List ℕ) (count : ℕ) (nodes : List (Seated S D L H B)) (crossings : List Crossing) (begun now : List (Body S D L H B))
        (all : ℕ → ℕ) (last more : List (IslandNode S D L H B)) (ends : List (IslandEnd S D))
        → AreBodiesOf S.state D.state B.lists (graph_of b) homes count (blueprint_wires b) nodes crossings begun
        → AreNumberedBodies homes (blueprint_wires b) nodes begun → EachOf BodyGoes begun now → AllOf (BodyKeeps S.state D.state B.lists) now
        → AreBroughtBack homes count (blueprint_wires b) (λ k. (net_of now k).nodes) last more → AreEndsOfBodies now ends
        → AreEndsOf (whole_of homes (blueprint_wires b) nodes (account_in homes (blueprint_wires b) now all).near last more) ends }
    ensures homes { (b : Blueprint) (homes : List ℕ) (count : ℕ) (nodes : List (Seated S D L H B)) (crossings : List Crossing) (begun now : List (Body S D L H B))
        (all : ℕ → ℕ) (last more : List (IslandNode S D L H B)) (ss : List S) (ds : List D) (e : EndHomes) → AreSeats (around_of b) 0 b.nodes.items ss ds nodes
        → AreBodiesOf S.state D.state B.lists (graph_of b) homes count (blueprint_wires b) nodes crossings begun → EachOf BodyGoes begun now
        → AllOf (BodyKeeps S.state D.state B.lists) now → AreBroughtBack homes count (blueprint_wires b) (λ k. (net_of now k).nodes) last more
        → AreEndHomes homes b.nodes.items (blueprint_wires b) e
        → AreHomesOf (whole_of homes (blueprint_wires b) nodes (account_in homes (blueprint_wires b) now all).near last more) e }
    ensures left { (b : Blueprint) (homes : List ℕ) (count : ℕ) (nodes : List (Seated S D L H B)) (crossings : List Crossing) (begun now : List (Body S D L H B))
        (all : ℕ → ℕ) (last more : List (IslandNode S D L H B)) (ss : List S) (ds : List D) (x : IslandEnd S D)
        → AreSeats (around_of b) 0 b.nodes.items ss ds nodes
        → AreBodiesOf S.state D.state B.lists (graph_of b) homes count (blueprint_wires b) nodes crossings begun → EachOf BodyGoes begun now
        → AllOf (BodyKeeps S.state D.state B.lists) now → AreBroughtBack homes count (blueprint_wires b) (λ k. (net_of now k).nodes) last more
        → IsWholeEnd (whole_of homes (blueprint_wires b) nodes (account_in homes (blueprint_wires b) now all).near last more) x
        → IsLeftBy (blueprint_wires b) (account_in homes (blueprint_wires b) now all).near last x }
{}

/// What bodies leave of which some broke off are the handles of the blueprint's nodes, in shares, with the homes that were planned. Rule:
/// own.
pub fn broken_bodies_leave_their_handles<S: Source, D: Drain, L: Logic, H: Handlers, B: PlugBook>()
    ensures { (b : Blueprint) (homes : List ℕ) (count : ℕ) (nodes : List (Seated S D L H B)) (crossings : List Crossing) (begun now then : List (Body S D L H B))
        (last more broken later : List (IslandNode S D L H B)) (ss : List S) (ds : List D) (e : EndHomes) (ends : List (IslandEnd S D))
        → AreSeats (around_of b) 0 b.nodes.items ss ds nodes
        → AreBodiesOf S.state D.state B.lists (graph_of b) homes count (blueprint_wires b) nodes crossings begun
        → WholeOrBroken (BodyKeeps S.state D.state B.lists) BodyGoes (BodyBreaks S.state D.state B.lists) begun now
        → AreLastOf S.state D.state B.lists begun now then
        → AreBroughtBack homes count (blueprint_wires b) (λ k. (net_of then k).nodes) last more
        → AreBroughtBack homes count (blueprint_wires b) (λ k. (net_of now k).nodes) broken later
        → AreEndHomes homes b.nodes.items (blueprint_wires b) e → AreEndsOfBodies now ends → AreHandlesOf e (readers_of broken) (writers_of broken) ends }
{}

/// Where the islands of a blueprint are taken apart as they start, what they hand back are handles in order of the nodes (`are`), each as
/// it was handed in (`same`).
pub fn unmade_islands_hand_back<S: Source, D: Drain, L: Logic, H: Handlers, B: PlugBook>()
    ensures are { (b : Blueprint) (ss : List S) (ds : List D) (f : Filled S D L H B) (ends : List (IslandEnd S D)) → IsFilled b ss ds f
        → AllGiveBack S.state D.state f.islands.items ends → (readers : List S) × ((writers : List D) × AreHandlesOf f.ends readers writers ends) }
    ensures same { (b : Blueprint) (ss : List S) (ds : List D) (f : Filled S D L H B) (ends : List (IslandEnd S D)) (readers : List S) (writers : List D)
        → IsFilled b ss ds f → AllGiveBack S.state D.state f.islands.items ends → AreHandlesOf f.ends readers writers ends
        → (map S.state readers ≡ map S.state ss) × (map D.state writers ≡ map D.state ds) }
{}

/// The asks that the input ends of all lanes tell are those of an account (`are`), by the numbers of their wires; ends that are there
/// have such (`some`). The wires of lanes are within the counts of all wires (`within`).
pub fn told_asks_are_those_of_lanes<S: Source, D: Drain, L: Logic, H: Handlers, B: PlugBook>()
    ensures are { (lanes : List LanePlan) (crossings : List Crossing) (bodies : List (Body S D L H B)) (all : List ℕ) → length crossings ≡ length lanes
        → AreRising lanes → AreAligned lanes crossings bodies → AreAsked bodies crossings all → AskedAre bodies crossings (lane_demand lanes all) }
    ensures some { (crossings : List Crossing) (bodies : List (Body S D L H B)) → LieThere bodies crossings → (all : List ℕ) × AreAsked bodies crossings all }
    ensures within { (homes : List ℕ) (b : Blueprint) → AreWithin (length (blueprint_wires b)) (lanes_from homes 0 (blueprint_wires b)) }
{}

/// Where the asks of lanes are noted at what the wires are told to have carried, that is the picture of the account.
pub fn noted_counts_are_the_picture<S: Source, D: Drain, L: Logic, H: Handlers, B: PlugBook>()
    ensures { (b : Blueprint) (homes : List ℕ) (now : List (Body S D L H B)) (all : List ℕ) (counts : List WireCount)
        → length all ≡ length (lanes_from homes 0 (blueprint_wires b))
        → AreNoted all (lanes_from homes 0 (blueprint_wires b)) (map (λ (w : ℕ × WireCount). w.1)
        (told_from (account_in homes (blueprint_wires b) now (lane_demand (lanes_from homes 0 (blueprint_wires b)) all)).near 0 (blueprint_wires b))) counts
        → counts ≡ picture_counts (account_in homes (blueprint_wires b) now (lane_demand (lanes_from homes 0 (blueprint_wires b)) all)) (graph_of b) }
{}

/// Each element that was pushed on a wire took a unit that the bodies spent, that of the ask before it, and each that was taken off a
/// lane another: all that were sent there were, but for as many at most as the lane has places.
pub fn bodies_spent_what_was_sent<S: Source, D: Drain, L: Logic, H: Handlers, B: PlugBook>()
    ensures { (b : Blueprint) (homes : List ℕ) (count : ℕ) (nodes : List (Seated S D L H B)) (crossings : List Crossing) (begun now : List (Body S D L H B))
        (all : ℕ → ℕ) → AreBodiesOf S.state D.state B.lists (graph_of b) homes count (blueprint_wires b) nodes crossings begun → EachOf BodyGoes begun now
        → AllOf (BodyKeeps S.state D.state B.lists) now → AskedAre now crossings all → AllJoined BodiesJoined now crossings
        → all_sent (picture_counts (account_in homes (blueprint_wires b) now all) (graph_of b)) + taken_off (blueprint_wires b)
        (picture_counts (account_in homes (blueprint_wires b) now all) (graph_of b)) ≤ sum_by (λ b. b.spent) now }
{}
