// Laws of the bodies that begin a blueprint's run: each function has no body, and its contract is the law.
ghost use Rattle.std.specs.Prelude.{◌≡◌, ◌<◌, ℕ, List, All, slice_get, Some, length};
ghost use Rattle.stream_model.specs.Graph.{Edge};
ghost use Rattle.stream_model.specs.declared.blueprint.Blueprint.{Blueprint};
ghost use Rattle.blue_check.specs.Wires.{blueprint_wires};
ghost use Rattle.interpreter.specs.Island.{Kept};
ghost use Rattle.interpreter.specs.declared.parts.Parts.{Parts};
ghost use Rattle.interpreter.specs.declared.parts.Seated.{Seated};
ghost use Rattle.interpreter.specs.declared.room.IslandRoom.{IslandRoom};
ghost use Rattle.blue_check.specs.Plan.{lanes_from};
ghost use Rattle.scatter.specs.Shares.{items_at};
ghost use Rattle.island_plans.specs.LaneEnds.{CanAllBeMade, AreRising, AreAllEnds};
ghost use Rattle.island_plans.specs.declared.lane_ends.AllEnds.{AllEnds};
ghost use Rattle.bodies_run.specs.Islands.{AreSeated, IsGraphOf};
ghost use Rattle.island_parts.specs.Starts.{HasStarted, AllStarted};
ghost use Rattle.island_body.specs.Keeping.{BodyBegins, BodyKeeps, BodyGoes, BodyBreaks};
ghost use Rattle.island_body.specs.declared.body.Body.{Body};
ghost use Rattle.bodies_run.specs.Bodies.{AreBegun, AreLanes, AreBodiesOf};
ghost use Rattle.materializer.specs.Graphs.{graph_of};
ghost use Rattle.island_plans.specs.Plans.{IsPlans, IsFilled};
ghost use Rattle.island_plans.specs.declared.plans.Filled.{Filled};
ghost use Rattle.island_plans.specs.declared.plans.Plans.{Plans};
ghost use Rattle.island_runs.specs.Made.{ArePartsOf, AreMadeOf};
ghost use Rattle.island_runs.specs.Sized.{HasFewLinks};
ghost use Rattle.std.specs.declared.vec.Vec.{Vec};
ghost use Rattle.std.specs.declared.alloc.Global.{Global};
ghost use Rattle.lane_core.specs.Bodies.{AllOf, EachOf};
ghost use Rattle.lane_core.specs.declared.crossing.Crossing.{Crossing};
ghost use Rattle.dispatcher.specs.Broken.{WholeOrBroken};
ghost use Rattle.blue_check.specs.declared.plan.LanePlan.{LanePlan};
ghost use Rattle.lane_core.specs.Crossings.{AreCrossings};
ghost use Rattle.island_body.specs.Meeting.{BodiesMayMeet};
ghost use Rattle.island_body.specs.declared.way.Way.{Way};
ghost use Rattle.island_body.specs.declared.peers.Peers.{Peers};
ghost use Rattle.island_plans.specs.Peers.{ArePeers};
ghost use Rattle.island_plans.specs.Asked.{LieThere};
ghost use Rattle.island_plans.specs.Making.{way_homes, AreBlank, CanAllBegin, AreAllBodies};
ghost use Rattle.bodies_run.specs.Begun.{HaveSameLanes, AreNumberedBodies, AreAligned};

use graph_stage::handlers::Handlers;
use plug_logic::book::PlugBook;
use plug_logic::logic::Logic;
use stream_io::outside::{Drain, Source};

/// An island of a blueprint that has started, and those ends of lanes that are its own, as they were made, are fit to be a body: each end
/// stands at a stage and at a connection of its own, and nothing has passed there.
pub fn an_island_begins_a_body<S: Source, D: Drain, L: Logic, H: Handlers, B: PlugBook>()
    ensures { (homes : List ℕ) (count : ℕ) (ws : List Edge) (nodes : List (Seated S D L H B)) (k : ℕ) (x : Parts S D L H B) (i : Kept S D L H B) (e : AllEnds)
        → AreSeated homes count ws nodes → ArePartsOf homes ws nodes k x → HasStarted S.state D.state B.lists x i → AreAllEnds (lanes_from homes 0 ws) count e
        → BodyBegins i (items_at e.ins.items k) (items_at e.outs.items k) }
{}

/// The bodies that were made of a blueprint's islands and of the ends of all its lanes are its bodies as they begin (`begun`), and the
/// crossings at which those ends lie are its lanes (`lanes`).
pub fn made_bodies_are_of_their_blueprint<S: Source, D: Drain, L: Logic, H: Handlers, B: PlugBook>()
    ensures begun { (homes : List ℕ) (count : ℕ) (ws : List Edge) (nodes : List (Seated S D L H B)) (e : AllEnds) (bodies : List (Body S D L H B))
        → AreSeated homes count ws nodes → AreAllEnds (lanes_from homes 0 ws) count e → AreMadeOf S.state D.state B.lists homes ws nodes count e bodies
        → AreBegun S.state D.state B.lists homes count ws nodes bodies }
    ensures lanes { (homes : List ℕ) (count : ℕ) (ws : List Edge) (nodes : List (Seated S D L H B)) (e : AllEnds) (bodies : List (Body S D L H B))
        → AreSeated homes count ws nodes → AreAllEnds (lanes_from homes 0 ws) count e → AreMadeOf S.state D.state B.lists homes ws nodes count e bodies
        → AreLanes homes ws bodies e.crossings.items }
{}

/// Plans of the islands of a blueprint have few links (`few`); each wire begins in one of them (`homes`); both ends of each lane can be
/// made (`lanes`), and the lanes are in the order of their wires (`rise`). Where links are few, the nodes of its islands that hold their handles are seated (`seated`); they are
/// those of its graph (`graph`), and its islands have the parts of them (`parts`).
pub fn filled_islands_are_seated<S: Source, D: Drain, L: Logic, H: Handlers, B: PlugBook>()
    ensures few { (p : Plans S D L H B) → IsPlans p → HasFewLinks p.blueprint.value }
    ensures seated { (b : Blueprint) (ss : List S) (ds : List D) (f : Filled S D L H B) → HasFewLinks b → (filled : IsFilled b ss ds f)
        → AreSeated f.homes.items f.count (blueprint_wires b) filled.nodes }
    ensures graph { (b : Blueprint) (ss : List S) (ds : List D) (f : Filled S D L H B) → (filled : IsFilled b ss ds f)
        → IsGraphOf (graph_of b) (blueprint_wires b) filled.nodes }
    ensures parts { (b : Blueprint) (ss : List S) (ds : List D) (f : Filled S D L H B) (k : ℕ) (x : Parts S D L H B × IslandRoom S D L H B)
        → (filled : IsFilled b ss ds f) → slice_get f.islands.items k ≡ Some x
        → ArePartsOf f.homes.items (blueprint_wires b) filled.nodes k x.0 }
    ensures homes { (p : Plans S D L H B) → IsPlans p → All (λ h. h < p.count) p.ends.wires.items }
    ensures lanes { (p : Plans S D L H B) → IsPlans p → CanAllBeMade p.count p.lanes.items }
    ensures rise { (p : Plans S D L H B) → IsPlans p → AreRising p.lanes.items }
{}

/// The islands of a blueprint that have started, the ends of all its lanes, a blank table for each, and the islands at the other ends of
/// its lanes are fit to be bodies.
pub fn started_islands_begin_bodies<S: Source, D: Drain, L: Logic, H: Handlers, B: PlugBook>()
    ensures { (b : Blueprint) (ss : List S) (ds : List D) (f : Filled S D L H B) (started : List (Kept S D L H B)) (e : AllEnds) (tables : List (Vec Way Global))
        (peers : List Peers) → HasFewLinks b → IsFilled b ss ds f → AllStarted S.state D.state B.lists f.islands.items started
        → AreAllEnds f.lanes.items f.count e → AreBlank (way_homes f.ends.wires.items f.lanes.items) f.count tables → ArePeers f.lanes.items f.count peers
        → CanAllBegin started e.ins.items e.outs.items tables peers }
{}

/// The bodies that were made of them are the bodies of the blueprint, and the crossings of its lanes lie between them (`are`). None has
/// spent a unit (`unspent`), and the ends at each crossing may meet (`meet`). Their islands have the numbers of their nodes and wires
/// (`numbered`), and at the crossing of each lane lies the input end of its wire (`aligned`).
pub fn made_bodies_begin_their_blueprint<S: Source, D: Drain, L: Logic, H: Handlers, B: PlugBook>()
    ensures are { (b : Blueprint) (ss : List S) (ds : List D) (f : Filled S D L H B) (started : List (Kept S D L H B)) (e : AllEnds) (bodies : List (Body S D L H B))
        → HasFewLinks b → (filled : IsFilled b ss ds f) → AllStarted S.state D.state B.lists f.islands.items started
        → AreAllEnds f.lanes.items f.count e → AreAllBodies S.state D.state B.lists started e.ins.items e.outs.items bodies
        → AreBodiesOf S.state D.state B.lists (graph_of b) f.homes.items f.count (blueprint_wires b) filled.nodes e.crossings.items bodies }
    ensures unspent { (f : Filled S D L H B) (started : List (Kept S D L H B)) (e : AllEnds) (bodies : List (Body S D L H B))
        → length started ≡ length f.islands.items → length f.islands.items ≡ f.count → AreAllEnds f.lanes.items f.count e
        → AreAllBodies S.state D.state B.lists started e.ins.items e.outs.items bodies → AllOf (λ b. b.spent ≡ 0) bodies }
    ensures meet { (f : Filled S D L H B) (started : List (Kept S D L H B)) (e : AllEnds) (bodies : List (Body S D L H B)) → length started ≡ length f.islands.items
        → length f.islands.items ≡ f.count → AreAllEnds f.lanes.items f.count e → AreAllBodies S.state D.state B.lists started e.ins.items e.outs.items bodies
        → AreCrossings BodiesMayMeet bodies e.crossings.items }
    ensures numbered { (b : Blueprint) (ss : List S) (ds : List D) (f : Filled S D L H B) (started : List (Kept S D L H B)) (e : AllEnds)
        (bodies : List (Body S D L H B)) → (filled : IsFilled b ss ds f) → AllStarted S.state D.state B.lists f.islands.items started
        → AreAllEnds f.lanes.items f.count e → AreAllBodies S.state D.state B.lists started e.ins.items e.outs.items bodies
        → AreNumberedBodies f.homes.items (blueprint_wires b) filled.nodes bodies }
    ensures aligned { (f : Filled S D L H B) (started : List (Kept S D L H B)) (e : AllEnds) (bodies : List (Body S D L H B))
        → length started ≡ length f.islands.items → length f.islands.items ≡ f.count → AreAllEnds f.lanes.items f.count e
        → AreAllBodies S.state D.state B.lists started e.ins.items e.outs.items bodies → AreAligned f.lanes.items e.crossings.items bodies }
{}

/// Bodies that go on keep the lanes of their ends (`went`), also where some broke off (`broke`). So at the crossing of each lane still lies
/// the input end of its wire (`aligned`), and it is there (`lie`).
pub fn ends_stay_at_their_crossings<S: Source, D: Drain, L: Logic, H: Handlers, B: PlugBook>()
    ensures went { (begun now : List (Body S D L H B)) → EachOf BodyGoes begun now → EachOf HaveSameLanes begun now }
    ensures broke { (begun now : List (Body S D L H B)) → WholeOrBroken (BodyKeeps S.state D.state B.lists) BodyGoes
        (BodyBreaks S.state D.state B.lists) begun now → EachOf HaveSameLanes begun now }
    ensures aligned { (lanes : List LanePlan) (crossings : List Crossing) (begun now : List (Body S D L H B)) → AreAligned lanes crossings begun
        → EachOf HaveSameLanes begun now → AreAligned lanes crossings now }
    ensures lie { (crossings : List Crossing) (begun now : List (Body S D L H B)) → AreCrossings BodiesMayMeet begun crossings → EachOf HaveSameLanes begun now
        → LieThere now crossings }
{}
