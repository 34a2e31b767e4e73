// Laws of what is left: each function has no body, and its contract is the law.
ghost use Rattle.std.specs.Prelude.{◌≡◌, ◌++◌, ℕ, List, Option, None, Some, length, slice_get};
ghost use Rattle.interpreter.specs.Island.{sinks_of, readers_of, writers_of};
ghost use Rattle.interpreter.specs.Picks.{picks_of};
ghost use Rattle.interpreter.specs.Seats.{seats_of};
ghost use Rattle.nodes.specs.declared.node.IslandNode.{IslandNode};
ghost use Rattle.scatter.specs.Shares.{of_home, share_of};
ghost use Rattle.island_parts.specs.Ends.{homes_left, leaves_something, AreLaneEnds};

use graph_stage::handlers::Handlers;
use plug_logic::book::PlugBook;
use plug_logic::logic::Logic;
use stream_io::outside::{Drain, Source};

/// The stages at the ends of lanes leave nothing: what all places of islands leave is what the blueprint's nodes leave, which stand
/// before them.
pub fn lane_ends_leave_nothing<S: Source, D: Drain, L: Logic, H: Handlers, B: PlugBook>()
    ensures sinks { (nodes more : List (IslandNode S D L H B)) → AreLaneEnds more → sinks_of (nodes ++ more) ≡ sinks_of nodes }
    ensures readers { (nodes more : List (IslandNode S D L H B)) → AreLaneEnds more → readers_of (nodes ++ more) ≡ readers_of nodes }
    ensures writers { (nodes more : List (IslandNode S D L H B)) → AreLaneEnds more → writers_of (nodes ++ more) ≡ writers_of nodes }
    ensures picks { (numbers others : List ℕ) (nodes more : List (IslandNode S D L H B)) → length numbers ≡ length nodes → AreLaneEnds more
        → picks_of (numbers ++ others) (nodes ++ more) ≡ picks_of numbers nodes }
    ensures seats { (numbers others : List ℕ) (nodes more : List (IslandNode S D L H B)) → length numbers ≡ length nodes → AreLaneEnds more
        → seats_of (numbers ++ others) (nodes ++ more) ≡ seats_of numbers nodes }
{}

/// The homes of what is left are known by any list of things of which each leaves something where the other does (`same`), and those
/// behind which nothing leaves anything are all (`all`).
pub fn homes_by_others<X, Y, Z, W>()
    ensures same { (f : X → Option Y) (g : Z → Option W) (homes : List ℕ) (xs : List X) (zs : List Z) → length xs ≡ length zs
        → ((k : ℕ) (x : X) (z : Z) → slice_get xs k ≡ Some x → slice_get zs k ≡ Some z → leaves_something (f x) ≡ leaves_something (g z))
        → homes_left f homes xs ≡ homes_left g homes zs }
    ensures all { (f : X → Option Y) (homes others : List ℕ) (xs more : List X) → length xs ≡ length homes
        → ((k : ℕ) (x : X) → slice_get more k ≡ Some x → f x ≡ None) → homes_left f (homes ++ others) (xs ++ more) ≡ homes_left f homes xs }
{}

/// Lists, each with as many items as there are of its home, are the shares of one list.
pub fn shares_make_one<T>()
    ensures { (homes : List ℕ) (share : ℕ → List T) → ((k : ℕ) → length (share k) ≡ share_of k homes)
        → (all : List T) × (length all ≡ length homes) × ((k : ℕ) → of_home homes k all ≡ share k) }
{}
