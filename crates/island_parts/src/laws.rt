// Laws of the islands of a blueprint: each function has no body, and its contract is the law.
ghost use Rattle.std.specs.Prelude.{◌≡◌, ◌<◌, ◌^◌, ℕ, List, length, map};
ghost use Rattle.stream_model.specs.Graph.{Edge};
ghost use Rattle.interpreter.specs.Parts.{AreParts, seat_place};
ghost use Rattle.interpreter.specs.declared.parts.Seated.{Seated};
ghost use Rattle.blue_check.specs.Plan.{lanes_from};
ghost use Rattle.blue_check.specs.declared.plan.LanePlan.{LanePlan};
ghost use Rattle.scatter.specs.Shares.{of_home};
ghost use Rattle.island_parts.specs.Whole.{AreNodes, KeepsInside, own_links, whole_homes, whole_links, whole_places, whole_seats};

use graph_stage::handlers::Handlers;
use plug_logic::book::PlugBook;
use plug_logic::logic::Logic;
use stream_io::outside::{Drain, Source};

/// Where wires join every port of the nodes of a blueprint, and no wire without a lane joins two islands, what stands at the
/// places of each island, and its links, are the parts of an island (`parts`). What is known of all places before they hold their
/// handles is what the places are (`places`).
pub fn islands_have_parts<S: Source, D: Drain, L: Logic, H: Handlers, B: PlugBook>()
    ensures parts { (homes : List ℕ) (ws : List Edge) (nodes : List (Seated S D L H B)) (k : ℕ) → length homes ≡ length nodes → KeepsInside homes ws
        → AreNodes ws nodes → length (whole_links (length nodes) ws) < 2 ^ 32
        → AreParts (of_home (whole_homes homes (lanes_from homes 0 ws)) k (whole_seats nodes (lanes_from homes 0 ws)))
        (own_links (whole_homes homes (lanes_from homes 0 ws)) (whole_links (length nodes) ws) k) }
    ensures places { (nodes : List (Seated S D L H B)) (lanes : List LanePlan) → map seat_place (whole_seats nodes lanes) ≡ whole_places
        (map seat_place nodes) lanes }
{}
