// Laws of the islands of a blueprint and their nets: each function has no body, and its contract is the law.
ghost use Rattle.std.specs.Prelude.{◌≡◌, ◌<◌, ◌++◌, true, false, ℕ, List, All, length, map, slice_get, slice_index, Some};
ghost use Rattle.stream_model.specs.Graph.{Graph, Edge};
ghost use Rattle.fused_net.specs.Laws.{NetGoesOn};
ghost use Rattle.fused_net.specs.Net.{Net};
ghost use Rattle.nodes.specs.declared.node.IslandNode.{IslandNode};
ghost use Rattle.interpreter.specs.Parts.{AllBecome, Becomes};
ghost use Rattle.interpreter.specs.Ways.{comes_in, goes_out};
ghost use Rattle.interpreter.specs.declared.parts.Link.{Link};
ghost use Rattle.interpreter.specs.declared.parts.Seated.{Seated};
ghost use Rattle.run_laws.specs.Seats.{Covers};
ghost use Rattle.run_laws.specs.Units.{Owned};
ghost use Rattle.blue_check.specs.Plan.{lanes_from};
ghost use Rattle.scatter.specs.Shares.{of_home, rank_of, share_of};
ghost use Rattle.island_parts.specs.Whole.{in_seat, out_seat};
ghost use Rattle.bodies_run.specs.Islands.{place_homes, seats_by_islands, seats_in, links_in, AreSeated, IsGraphOf, AreNets, HasWays, IsNearOf, IsFarOf, AreBroughtBack};

use graph_stage::handlers::Handlers;
use plug_logic::book::PlugBook;
use plug_logic::logic::Logic;
use stream_io::outside::{Drain, Source};

/// The nets of the islands of a blueprint cover its graph (`covers`), and each of their connections is one of a wire's (`owned`). Nets
/// that went on are nets of the same islands (`on`).
pub fn islands_cover_their_blueprint<S: Source, D: Drain, L: Logic, H: Handlers, B: PlugBook>()
    ensures covers { (g : Graph) (homes : List ℕ) (count : ℕ) (ws : List Edge) (nodes : List (Seated S D L H B)) (nets : ℕ → Net (IslandNode S D L H B))
        → AreSeated homes count ws nodes → IsGraphOf g ws nodes → AreNets homes ws nodes count nets
        → Covers g nets (seats_by_islands homes ws) }
    ensures owned { (g : Graph) (homes : List ℕ) (count : ℕ) (ws : List Edge) (nodes : List (Seated S D L H B)) (nets : ℕ → Net (IslandNode S D L H B))
        → AreSeated homes count ws nodes → IsGraphOf g ws nodes → AreNets homes ws nodes count nets
        → Owned g nets (seats_by_islands homes ws) count }
    ensures on { (homes : List ℕ) (count : ℕ) (ws : List Edge) (nodes : List (Seated S D L H B)) (nets : ℕ → Net (IslandNode S D L H B))
        (later : ℕ → Net (IslandNode S D L H B)) → AreNets homes ws nodes count nets → ((k : ℕ) → k < count → NetGoesOn (nets k) (later k))
        → AreNets homes ws nodes count later }
{}

/// Each lane goes out at its connection in the island of its output, and comes in at that in the island of its input (`ways`). No
/// other connection is at the end of a lane (`only_out`, `only_in`), and none is at two (`apart`). The connections of each wire are in
/// islands that are there (`islands`).
pub fn lanes_have_ways<S: Source, D: Drain, L: Logic, H: Handlers, B: PlugBook>()
    ensures ways { (homes : List ℕ) (count : ℕ) (ws : List Edge) (nodes : List (Seated S D L H B)) (u : ℕ) (v : Edge) (size : ℕ) → AreSeated homes count ws nodes
        → slice_get ws u ≡ Some v → v.lane ≡ Some size
        → HasWays homes ws nodes u v }
    ensures only_out { (homes : List ℕ) (count : ℕ) (ws : List Edge) (nodes : List (Seated S D L H B)) (k : ℕ) (q : ℕ) (l : Link) → AreSeated homes count ws nodes
        → slice_get (links_in homes ws nodes k) q ≡ Some l
        → goes_out (seats_in homes ws nodes k) l.to ≡ true → IsNearOf homes ws k q l.wire }
    ensures only_in { (homes : List ℕ) (count : ℕ) (ws : List Edge) (nodes : List (Seated S D L H B)) (k : ℕ) (q : ℕ) (l : Link) → AreSeated homes count ws nodes
        → slice_get (links_in homes ws nodes k) q ≡ Some l
        → comes_in (seats_in homes ws nodes k) l.from ≡ true → IsFarOf homes ws k q l.wire }
    ensures apart { (homes : List ℕ) (count : ℕ) (ws : List Edge) (nodes : List (Seated S D L H B)) (k : ℕ) (q : ℕ) (l : Link) → AreSeated homes count ws nodes
        → slice_get (links_in homes ws nodes k) q ≡ Some l
        → comes_in (seats_in homes ws nodes k) l.from ≡ true → goes_out (seats_in homes ws nodes k) l.to ≡ false }
    ensures islands { (homes : List ℕ) (count : ℕ) (ws : List Edge) (nodes : List (Seated S D L H B)) (u : ℕ) (v : Edge) → AreSeated homes count ws nodes
        → slice_get ws u ≡ Some v
        → (((seats_by_islands homes ws).near u).island < count) × (((seats_by_islands homes ws).far u).island < count) }
{}

/// The islands of all places are islands of nodes (`below`), and the net of an island has a node for each place of it (`counts`).
/// Each node of a blueprint begins in its island as what was handed in for it (`first`). Where those at which the nodes of all islands
/// began are brought back into one list, those of the blueprint's nodes are what was handed in for them (`became`), and the others
/// are the stages at which lanes come in, and then go out (`ends_became`).
pub fn islands_hold_nodes<S: Source, D: Drain, L: Logic, H: Handlers, B: PlugBook>()
    ensures below { (homes : List ℕ) (count : ℕ) (ws : List Edge) (nodes : List (Seated S D L H B)) → AreSeated homes count ws nodes
        → All (λ h. h < count) (place_homes homes ws) }
    ensures counts { (homes : List ℕ) (count : ℕ) (ws : List Edge) (nodes : List (Seated S D L H B)) (nets : ℕ → Net (IslandNode S D L H B)) (k : ℕ)
        → AreSeated homes count ws nodes → AreNets homes ws nodes count nets → k < count
        → (length (nets k).firsts ≡ share_of k (place_homes homes ws)) × (length (nets k).nodes ≡ share_of k (place_homes homes ws)) }
    ensures first { (homes : List ℕ) (count : ℕ) (ws : List Edge) (nodes : List (Seated S D L H B)) (nets : ℕ → Net (IslandNode S D L H B)) (k : ℕ)
        (s : Seated S D L H B) → AreSeated homes count ws nodes → AreNets homes ws nodes count nets → slice_get nodes k ≡ Some s
        → (x : IslandNode S D L H B) × ((slice_get (nets (slice_index homes k)).firsts (rank_of (place_homes homes ws) k) ≡ Some x) × Becomes s x) }
    ensures became { (homes : List ℕ) (count : ℕ) (ws : List Edge) (nodes : List (Seated S D L H B)) (nets : ℕ → Net (IslandNode S D L H B))
        (all : List (IslandNode S D L H B)) (ends : List (IslandNode S D L H B)) → AreSeated homes count ws nodes → AreNets homes ws nodes count nets
        → AreBroughtBack homes count ws (λ k. (nets k).firsts) all ends → AllBecome nodes all }
    ensures ends_became { (homes : List ℕ) (count : ℕ) (ws : List Edge) (nodes : List (Seated S D L H B)) (nets : ℕ → Net (IslandNode S D L H B))
        (all : List (IslandNode S D L H B)) (ends : List (IslandNode S D L H B)) → AreSeated homes count ws nodes → AreNets homes ws nodes count nets
        → AreBroughtBack homes count ws (λ k. (nets k).firsts) all ends → AllBecome
        (map in_seat (lanes_from homes 0 ws) ++ map out_seat (lanes_from homes 0 ws)) ends }
{}

/// Lists with an item for each place of the islands can be brought back into one (`back`), and into one alone (`one`).
pub fn lists_come_back<S: Source, D: Drain, L: Logic, H: Handlers, B: PlugBook, T>()
    ensures back { (homes : List ℕ) (count : ℕ) (ws : List Edge) (nodes : List (Seated S D L H B)) (lists : ℕ → List T) → AreSeated homes count ws nodes
        → ((k : ℕ) → k < count → length (lists k) ≡ share_of k (place_homes homes ws))
        → (all : List T) × ((ends : List T) × AreBroughtBack homes count ws lists all ends) }
    ensures one { (homes : List ℕ) (count : ℕ) (ws : List Edge) (nodes : List (Seated S D L H B)) (lists : ℕ → List T) (all : List T) (ends : List T)
        (xs : List T) → AreSeated homes count ws nodes → AreBroughtBack homes count ws lists all ends
        → length xs ≡ length (place_homes homes ws) → ((k : ℕ) → k < count → of_home (place_homes homes ws) k xs ≡ lists k) → xs ≡ all ++ ends }
{}

/// What is read off each item of lists that come back into one comes back with it.
pub fn maps_come_back<T, U>()
    ensures { (homes : List ℕ) (count : ℕ) (ws : List Edge) (f : T → U) (lists : ℕ → List T) (all : List T) (ends : List T)
        → AreBroughtBack homes count ws lists all ends → AreBroughtBack homes count ws (λ k. map f (lists k)) (map f all) (map f ends) }
{}
