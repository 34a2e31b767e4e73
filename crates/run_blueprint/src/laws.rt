// Laws of types, of wires that are told shut, and of the wires of hubs: each function has no body, and its contract is the law. A type is
// what the check of a blueprint settles, and an element is of it or not.
ghost use Rattle.std.specs.Prelude.{◌≡◌, ℕ, ◌+◌, ◌≤◌, Bool, List, [], ◌∷◌, length, map, slice_get, Option, Ok, Err, Some, true};
ghost use Rattle.elem_core.specs.Sort.{Sort, num_type, pair_type};
ghost use Rattle.elem_core.specs.Tree.{Tree};
ghost use Rattle.elem_core.specs.Values.{map_value, pred_value, expansion, fold_zero, fold_step, reduce_step, part_of};
ghost use Rattle.elem_core.specs.declared.function.Expand.{Expand};
ghost use Rattle.elem_core.specs.declared.function.FoldOp.{FoldOp};
ghost use Rattle.elem_core.specs.declared.function.MapFn.{MapFn};
ghost use Rattle.elem_core.specs.declared.function.MapFn.TheVariants as fn_kind;
ghost use Rattle.elem_core.specs.declared.function.Pred.{Pred};
ghost use Rattle.elem_core.specs.declared.function.ReduceOp.{ReduceOp};
ghost use Rattle.elem_core.specs.declared.why.Decider.{Decider};
ghost use Rattle.elem_core.specs.declared.why.Why.TheVariants.{NotANumber};
ghost use Rattle.stream_io.specs.State.{FolderState};
ghost use Rattle.stream_model.specs.Composed.{IsRanked, composed};
ghost use Rattle.stream_model.specs.Graph.{Graph, Edge};
ghost use Rattle.stream_model.specs.Linear.{Book};
ghost use Rattle.stream_model.specs.Node.{World, node_outlook};
ghost use Rattle.stream_model.specs.Outlook.{Outlook};
ghost use Rattle.stream_model.specs.Picks.{count_of};
ghost use Rattle.stream_model.specs.declared.kind.Kind.{Kind};
ghost use Rattle.stream_model.specs.declared.kind.Kind.TheVariants as kind;
ghost use Rattle.stream_model.specs.declared.outcome.EndState.TheVariants.{Unended};
ghost use Rattle.stream_model.specs.declared.outcome.WireCount.{WireCount};
ghost use Rattle.fused_net.specs.Laws.{Settled};
ghost use Rattle.fused_net.specs.Net.{Net, wire_at};
ghost use Rattle.nodes.specs.Nodes.{node_port_state, node_law, node_asking, node_moves};
ghost use Rattle.nodes.specs.declared.node.IslandNode as stage;
ghost use Rattle.run_laws.specs.Account.{Account};
ghost use Rattle.run_laws.specs.Seats.{account_of};
ghost use Rattle.run_laws.specs.Made.{Materializes};
ghost use Rattle.run_laws.specs.Runs.{IsRun};
ghost use Rattle.run_laws.specs.Telling.{TellsPicks, TellsCustoms};
ghost use Rattle.stream_model.specs.declared.blueprint.Blueprint.{Blueprint};
ghost use Rattle.stream_model.specs.declared.blueprint.ChainDecl.{ChainDecl};
ghost use Rattle.stream_model.specs.declared.blueprint.Node.{Node};
ghost use Rattle.stream_model.specs.Known.{HeadLists};
ghost use Rattle.blue_names.specs.declared.typed.Typed.TheVariants.{Gives};
ghost use Rattle.blue_names.specs.FnTypes.{map_want, map_gives, pred_want, expand_want, expand_gives, fold_want, fold_gives, reduce_want, reduce_gives};
ghost use Rattle.blue_names.specs.Hubs.{hub_size};
ghost use Rattle.blue_names.specs.Rounds.{half_type};
ghost use Rattle.blue_names.specs.StageTypes.{source_type, stage_typed};
ghost use Rattle.blue_check.specs.Fitness.{IsFit};
ghost use Rattle.blue_check.specs.Wires.{blueprint_wires};
ghost use Rattle.interpreter.specs.Picks.{Pick, pick_of};
ghost use Rattle.island_runs.specs.Leaving.{Moment};
ghost use Rattle.materializer.specs.Graphs.{graph_node, graph_chain, graph_of};
ghost use Rattle.run_blueprint.specs.Checked.{PassesRules, HasKnownSteps, CarriesType};
ghost use Rattle.run_blueprint.specs.Choosing.{HasPicks};
ghost use Rattle.run_blueprint.specs.Drawing.{IsWorldOf};
ghost use Rattle.run_blueprint.specs.Kinds.{is_known, shape_of, joining, single};
ghost use Rattle.run_blueprint.specs.Parties.{CarriesParty};
ghost use Rattle.run_blueprint.specs.Plugs.{KeepsPlugTypes, GivenTyped};
ghost use Rattle.run_blueprint.specs.Running.{LeavesFiles, Runs};
ghost use Rattle.run_blueprint.specs.Sent.{SendsItsType};
ghost use Rattle.run_blueprint.specs.Stands.{SinkStand};
ghost use Rattle.run_blueprint.specs.Types.{HasType, AllTyped, OutlooksTyped, TakesSort};
ghost use Rattle.run_blueprint.specs.declared.run.RunResult.{RunResult};

use graph_stage::handlers::Handlers;
use plug_logic::book::PlugBook;
use plug_logic::logic::Logic;
use stream_io::outside::{Drain, Source};

/// Each function gives an element of the type that its table says, where it has a value for an element of a type that it
/// takes: a map, an expansion, a fold at its zero and at each step, and a reduction, which gives the type that it takes.
pub fn functions_keep_types()
    ensures map { (f : MapFn) (t : Sort) (x y : Tree) → TakesSort (map_want f) t → HasType t x → map_value f x ≡ Ok y → HasType (map_gives f t) y }
    ensures expand { (f : Expand) (t : Sort) (x : Tree) → TakesSort (expand_want f) t → HasType t x → AllTyped (expand_gives f t) (expansion f x) }
    ensures zero { (f : FoldOp) (t : Sort) → HasType (fold_gives f t) (fold_zero f) }
    ensures step { (f : FoldOp) (t : Sort) (a x y : Tree) → HasType (fold_gives f t) a → HasType t x → fold_step f a x ≡ Ok y → HasType (fold_gives f t) y }
    ensures same { (f : ReduceOp) (t : Sort) → TakesSort (reduce_want f) t → reduce_gives f t ≡ t }
    ensures reduce { (f : ReduceOp) (t : Sort) (a x y : Tree) → TakesSort (reduce_want f) t → HasType t a → HasType t x → reduce_step f a x ≡ Ok y
        → HasType t y }
{}

/// A function that meets an element of a type that it takes never lacks a value because the element is of another type: only
/// `num` answers `NotANumber`, of a text that is no number, and a partition by it. So it is of maps, predicates, the steps of
/// folds and reductions, and the part that a partition finds.
pub fn functions_meet_their_types()
    ensures map { (f : MapFn) (t : Sort) (x : Tree) → TakesSort (map_want f) t → HasType t x → map_value f x ≡ Err NotANumber → f ≡ fn_kind.Num }
    ensures predicate { (q : Pred) (t : Sort) (x : Tree) → TakesSort (Some (pred_want q)) t → HasType t x → pred_value q x ≡ Err NotANumber → ⊥ }
    ensures step { (f : FoldOp) (t : Sort) (a x : Tree) → TakesSort (fold_want f) t → HasType (fold_gives f t) a → HasType t x
        → fold_step f a x ≡ Err NotANumber → ⊥ }
    ensures reduce { (f : ReduceOp) (t : Sort) (a x : Tree) → TakesSort (reduce_want f) t → HasType t a → HasType t x → reduce_step f a x ≡ Err NotANumber → ⊥ }
    ensures part { (n : ℕ) (f : MapFn) (t : Sort) (x : Tree) → TakesSort (map_want f) t → map_gives f t ≡ num_type → HasType t x
        → part_of n (map_value f x) ≡ Err NotANumber → f ≡ fn_kind.Num }
{}

/// What may pass an output of a node is of its type, where what may pass its inputs is of theirs: a source gives its type
/// (`source`), a node with one input what the check of a blueprint says of the type of its input (`single`), a merge, a
/// merge hub, a concat, an interleave and a merge_sorted the one type of their inputs (`joining`), and a zip pairs (`zip`).
pub fn stages_keep_types()
    ensures source { (g : Graph) (w : World) (node : ℕ) (d : Decider) (is : List Outlook) (k : Kind) (t : Sort) → source_type k ≡ Some t → (p : ℕ)
        → AllTyped t (node_outlook g w node k d is p).list }
    ensures single { (g : Graph) (w : World) (node : ℕ) (d : Decider) (o : Outlook) (heads : HeadLists) (chains : List ChainDecl) (k : Kind) (t u : Sort)
        → KeepsPlugTypes heads w.book
        → g.chains ≡ map graph_chain chains → HasKnownSteps heads chains → is_known heads k ≡ true → shape_of k ≡ single
        → stage_typed heads chains k t ≡ Gives u → AllTyped t o.list → (p : ℕ) → AllTyped (half_type heads k p u) (node_outlook g w node k d (o ∷ []) p).list }
    ensures joining { (g : Graph) (w : World) (node : ℕ) (d : Decider) (is : List Outlook) (k : Kind) (t : Sort) → shape_of k ≡ joining → OutlooksTyped t is
        → (p : ℕ) → AllTyped t (node_outlook g w node k d is p).list }
    ensures zip { (g : Graph) (w : World) (node : ℕ) (d : Decider) (o r : Outlook) (t u : Sort) → AllTyped t o.list → AllTyped u r.list → (p : ℕ)
        → AllTyped (pair_type t u) (node_outlook g w node kind.Zip d (o ∷ r ∷ []) p).list }
{}

/// A graph of a blueprint that breaks no rule passes the rules that the laws below rest on.
pub fn fit_blueprints_pass_the_rules()
    ensures { (b : Blueprint) (heads : HeadLists) (taken : List (List ℕ)) (g : Graph) → IsFit b heads taken
        → g.nodes ≡ map (graph_node b.wires.items) b.nodes.items
        → g.wires ≡ blueprint_wires b → g.chains ≡ map graph_chain b.chains.items
        → PassesRules heads b.chains.items b.nodes.items g }
{}

/// In a graph that passes the rules, where no directed walk of wires is closed and the heads keep to their types, a type is
/// settled for each wire, only elements of that type may pass it, and the functions of the node to which it leads take that
/// type: its own, and in a chain each what the steps before it give.
pub fn every_list_is_typed()
    ensures { (heads : HeadLists) (chains : List ChainDecl) (nodes : List Node) (g : Graph) (w : World) (rank : ℕ → ℕ) → PassesRules heads chains nodes g
        → KeepsPlugTypes heads w.book → GivenTyped heads nodes g.wires w → IsRanked g rank
        → (i : ℕ) (v : Edge) → slice_get g.wires i ≡ Some v → CarriesType heads chains nodes g w i v }
{}

/// What was sent on each wire of such a graph, at any moment of its run, has only elements of the type that is settled for the
/// wire, whatever the folder tells of its files, where the world tells what the stages chose and what custom stages gave, and its book
/// what the heads of the run give (`run`); so it is of an island that was made of it (`island`).
pub fn every_wire_carries_its_type<S: Source, D: Drain, L: Logic, H: Handlers, B: PlugBook>()
    ensures run { (heads : HeadLists) (chains : List ChainDecl) (nodes : List Node) (g : Graph) (w : World) (rank : ℕ → ℕ)
        (a : Account (stage.IslandNode S D L H B)) → IsRun S.state D.state w.book g a → TellsPicks w a → TellsCustoms g w a
        → PassesRules heads chains nodes g → KeepsPlugTypes heads w.book → GivenTyped heads nodes g.wires w → IsRanked g rank
        → (i : ℕ) (v : Edge) → slice_get g.wires i ≡ Some v → SendsItsType heads chains nodes g w i v (a.near i).wire.sent }
    ensures island { (heads : HeadLists) (chains : List ChainDecl) (nodes : List Node) (g : Graph) (w : World) (rank : ℕ → ℕ)
        (net : Net (stage.IslandNode S D L H B)) → Settled node_port_state (node_law S.state D.state w.book) node_asking node_moves net
        → Materializes S.state g net.firsts net.ends → TellsPicks w (account_of net) → TellsCustoms g w (account_of net) → PassesRules heads chains nodes g
        → KeepsPlugTypes heads w.book → GivenTyped heads nodes g.wires w
        → IsRanked g rank
        → (i : ℕ) (v : Edge) → slice_get g.wires i ≡ Some v → SendsItsType heads chains nodes g w i v (wire_at net i).wire.sent }
{}

/// Whenever a run stopped whose folder had told its files, also where its units were used up: the wire of a sink that goes on, lane or
/// not, is told shut only where all was sent that may pass it, unless its outlook has a failure.
pub fn a_shut_wire_carried_all()
    ensures { (book : Book) (heads : HeadLists) (old new : FolderState) (b : Blueprint) (plans : List (Option (List ℕ))) (trace : Option (List ℕ))
        (sinks : List SinkStand) (picks : List Pick) (wires : List WireCount) (at_rest : Bool)
        (l : LeavesFiles book heads old new b plans trace sinks picks wires at_rest) (w : World)
        → IsWorldOf book b.nodes.items l.drawn w
        → (k : ℕ) (s : SinkStand) (i : ℕ) (v : Edge) (c : WireCount) → slice_get sinks k ≡ Some s → s.2 ≡ Unended
        → slice_get (blueprint_wires b) i ≡ Some v → v.to ≡ s.0 → slice_get wires i ≡ Some c → c.shut ≡ true
        → (composed (graph_of b) w i).fails ≡ [] → c.sent ≡ length (composed (graph_of b) w i).list }
{}

// Choice: docs/DECISIONS.md#hubs-stay-on-lanes
/// What a hub's wire carries, of a producer or to a consumer, at every moment of a run between two events, also at the last one before memory
/// was wanting: what was taken at its input is in order the first of what was offered at its output, at most as many elements as the hub's
/// size were offered and not yet brought to the other island, and an end or a failure was taken behind all of them.
pub fn hubs_carry_each_party<S: Source, D: Drain, L: Logic, H: Handlers, B: PlugBook>()
    ensures { (b : Blueprint) (ss : List S) (ds : List D) (a : Account (stage.IslandNode S D L H B)) (nodes : List (stage.IslandNode S D L H B))
        → Moment S.state D.state B.lists b ss ds a nodes → (u : ℕ) (v : Edge) (size : ℕ) → slice_get (blueprint_wires b) u ≡ Some v
        → hub_size b.nodes.items v.from v.to ≡ Some size → CarriesParty size (a.near u) (a.far u) }
{}

/// Whenever a run stopped, whatever its folder tells: of each producer a merge hub gave no more elements than were sent, by the moves that
/// the run answers, and of those that were sent all but as many as the hub's size and one, which the hub itself may have.
pub fn a_merge_hub_leaves_few()
    ensures { (book : Book) (old new : FolderState) (b : Blueprint) (plans : List (Option (List ℕ))) (trace : Option (List ℕ)) (budget : ℕ) (ran : RunResult)
        (known heads : HeadLists) (taken : List (List ℕ)) (w : World) → Runs book known old new b plans trace budget ran → IsFit b heads taken → w.book ≡ book
        → HasPicks (map pick_of ran.picks.items) w
        → (k : ℕ) (n : Node) (own producers u : ℕ) (v : Edge) (c : WireCount) (size : ℕ) → slice_get b.nodes.items k ≡ Some n
        → n.kind ≡ kind.MergeHub own producers → slice_get (blueprint_wires b) u ≡ Some v → v.to ≡ k → hub_size b.nodes.items v.from v.to ≡ Some size
        → slice_get ran.wires.items u ≡ Some c
        → (count_of v.input (w.moves k) ≤ c.sent) × (c.sent ≤ count_of v.input (w.moves k) + (size + 1)) }
{}
