// Laws of what stands at the places of a blueprint's nodes: each function has no body, and its contract is the law.
ghost use Rattle.std.specs.Prelude.{◌≡◌, ℕ, List, slice_get, Some, All};
ghost use Rattle.blue_check.specs.Fitness.{IsFit};
ghost use Rattle.stream_model.specs.declared.blueprint.Blueprint.{Blueprint};
ghost use Rattle.stream_model.specs.declared.blueprint.Node as blue;
ghost use Rattle.interpreter.specs.Parts.{AllBecome};
ghost use Rattle.interpreter.specs.declared.parts.Seated.{Seated};
ghost use Rattle.nodes.specs.declared.node.IslandNode.{IslandNode};
ghost use Rattle.stream_model.specs.Known.{HeadLists};
ghost use Rattle.stream_model.specs.Composed.{IsRanked};
ghost use Rattle.stream_model.specs.Graph as graph;
ghost use Rattle.stream_model.specs.declared.kind.Kind.TheVariants as kind;
ghost use Rattle.materializer.specs.Files.{output_of, inputs_of_nodes, outputs_of_nodes};
ghost use Rattle.materializer.specs.Firsts.{AreFirsts};
ghost use Rattle.materializer.specs.Graphs.{Around, chains_of, around_of, graph_of};
ghost use Rattle.materializer.specs.Handed.{ReadsSourceFile, WritesFile, WritesNoFile};
ghost use Rattle.stream_model.specs.Joined.{IsJoined};
ghost use Rattle.materializer.specs.Seats.{AreSeats};

use graph_stage::handlers::Handlers;
use plug_logic::book::PlugBook;
use plug_logic::logic::Logic;
use stream_io::outside::{Drain, Source};

// Choice: docs/DECISIONS.md#ranks
/// The wires of a blueprint that breaks no rule have ranks that rise along every walk (`ranked`), and each of its ports is at
/// one wire (`joined`).
pub fn fit_blueprints_are_whole()
    ensures ranked { (b : Blueprint) (heads : HeadLists) (taken : List (List ℕ)) → IsFit b heads taken → (rank : ℕ → ℕ) × IsRanked (graph_of b) rank }
    ensures joined { (b : Blueprint) (heads : HeadLists) (taken : List (List ℕ)) → IsFit b heads taken → IsJoined (graph_of b) }
{}

/// Where no source has handed out a byte, the nodes at the places of a blueprint, as they are handed in, are those of its graph,
/// each in its order, whether wires or lanes join them.
pub fn parts_are_made_of_their_blueprint<S: Source, D: Drain, L: Logic, H: Handlers, B: PlugBook>()
    ensures { (b : Blueprint) (sources : List S) (drains : List D) (places : List (Seated S D L H B)) (firsts : List (IslandNode S D L H B))
        → AreSeats (around_of b) 0 b.nodes.items sources drains places
        → AllBecome places firsts → All (λ s. (S.state s).given ≡ 0) sources → AreFirsts S.state (chains_of b) (graph_of b).nodes firsts }
{}

/// Each source of lines reads the source that was handed in for its file (`sources`), and each sink of lines writes the drain
/// that was handed in for its file (`drains`), as every other sink with a file does (`files`). A sink that keeps nothing holds
/// none (`ignores`).
pub fn parts_hold_their_files<S: Source, D: Drain, L: Logic, H: Handlers, B: PlugBook>()
    ensures sources { (around : Around) (nodes : List blue.Node) (sources : List S) (drains : List D) (places : List (Seated S D L H B))
        (firsts : List (IslandNode S D L H B)) → AreSeats around 0 nodes sources drains places → AllBecome places firsts
        → (k : ℕ) (n : blue.Node) (name : List ℕ) → slice_get nodes k ≡ Some n → n.kind ≡ kind.Lines name
        → ReadsSourceFile (inputs_of_nodes nodes) sources firsts k name }
    ensures drains { (around : Around) (nodes : List blue.Node) (sources : List S) (drains : List D) (places : List (Seated S D L H B))
        (firsts : List (IslandNode S D L H B)) → AreSeats around 0 nodes sources drains places → AllBecome places firsts
        → (k : ℕ) (n : blue.Node) (name : List ℕ) → slice_get nodes k ≡ Some n → n.kind ≡ kind.ToLines name
        → WritesFile (outputs_of_nodes nodes) drains firsts k name }
    ensures files { (around : Around) (nodes : List blue.Node) (sources : List S) (drains : List D) (places : List (Seated S D L H B))
        (firsts : List (IslandNode S D L H B)) → AreSeats around 0 nodes sources drains places → AllBecome places firsts
        → (k : ℕ) (n : blue.Node) (name : List ℕ) → slice_get nodes k ≡ Some n → output_of n.kind ≡ Some name
        → WritesFile (outputs_of_nodes nodes) drains firsts k name }
    ensures ignores { (around : Around) (nodes : List blue.Node) (sources : List S) (drains : List D) (places : List (Seated S D L H B))
        (firsts : List (IslandNode S D L H B)) → AreSeats around 0 nodes sources drains places → AllBecome places firsts
        → (k : ℕ) (n : blue.Node) → slice_get nodes k ≡ Some n → n.kind ≡ kind.Ignore → WritesNoFile firsts k }
{}
