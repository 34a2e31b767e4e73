// Laws of stages that follow moves: each function has no body, and its contract is the law.
ghost use Rattle.std.specs.Prelude.{◌≡◌, ◌⊎◌, ℕ, true, List, [], ◌∷◌, length, slice_get, Some};
ghost use Rattle.elem_core.specs.Prefix.{IsPrefix};
ghost use Rattle.elem_core.specs.declared.item.Item.{Item};
ghost use Rattle.port_core.specs.View.{View};
ghost use Rattle.stream_model.specs.Composed.{composed, IsRanked};
ghost use Rattle.stream_model.specs.Graph.{Graph};
ghost use Rattle.stream_model.specs.Graph as graph;
ghost use Rattle.stream_model.specs.Node.{World};
ghost use Rattle.stream_model.specs.Outlook.{Outlook, Agrees};
ghost use Rattle.stream_model.specs.FanIn.{AllAgree};
ghost use Rattle.stream_model.specs.Picks.{acted, valve_outlook, merge_fits, gathered_by, recover_fits, recover_outlook, buffer_fits, buffer_outlook};
ghost use Rattle.plan_laws.specs.Sure.{AllSure};
ghost use Rattle.stage_merge.specs.Mergings.{Merging, MergesAs};
ghost use Rattle.stage_dropping.specs.Droppings.{Dropping, DropsAs};
ghost use Rattle.stage_dropping.specs.Recoverings.{Recover, RecoversAs};
ghost use Rattle.stage_switch.specs.States.{Valve, moves_by};
ghost use Rattle.stage_switch.specs.Handling.{ValveAs};
ghost use Rattle.stage_in.specs.declared.logic.InLogic.{InLogic};
ghost use Rattle.stage_in.specs.Logics.{InLaw, StopsRightly};
ghost use Rattle.stage_state.specs.declared.logic.StateLogic.{StateLogic};
ghost use Rattle.stage_state.specs.Handling.{StatePortState, StateLaw};
ghost use Rattle.stage_state.specs.Logics.{StateStopsRightly};
ghost use Rattle.nodes.specs.Nodes.{node_moves, node_misfit, node_plan};
ghost use Rattle.nodes.specs.declared.node.IslandNode.{IslandNode};
ghost use Rattle.run_laws.specs.Account.{Account};
ghost use Rattle.run_laws.specs.Items.{AllMayPass};
ghost use Rattle.run_laws.specs.Pictures.{AllAgreeWith};
ghost use Rattle.run_laws.specs.Replayed.{Plans, IsAtOnce, MisfitsOver};
ghost use Rattle.run_laws.specs.Runs.{IsRun};
ghost use Rattle.run_laws.specs.Telling.{FollowsPlans, TellsPicks, WorldTells};

use graph_stage::handlers::Handlers;
use plug_logic::book::PlugBook;
use plug_logic::logic::Logic;
use stream_io::outside::{Drain, Source};

/// Where its law holds and what it took may pass by the outlooks of its inputs, a stage that follows moves and stopped has the cause of a
/// misfit over those outlooks: a merge or merge hub, a buffer that drops, a recover and a valve.
pub fn stopped_stages_have_their_cause()
    ensures ins { (os : List Outlook) (first now : InLogic) (v : View) (took gave : List (List Item)) → InLaw first now v took gave → AllMayPass os took
        → StopsRightly os now }
    ensures states { (os : List Outlook) (first now : StateLogic) (v : View) (took gave : List (List Item)) → StatePortState now v
        → StateLaw first now v took gave → AllMayPass os took → StateStopsRightly os now }
{}

/// Where its law holds and what came agrees with the outlooks of its inputs, what a stage that follows moves gave agrees with the outlook that
/// the model has of its output by all of them, also where it has not made them: a merge or merge hub, a recover and a buffer that drops
/// where they fit and nothing fails on its wires, and a valve that follows none, or an order and a count.
pub fn stages_follow_their_plan()
    ensures merge { (first now : Merging) (v : View) (took gave : List (List Item)) → (law : MergesAs first now v took gave) → (plan : List ℕ)
        → first.log.left ≡ Some plan → (os : List Outlook) → merge_fits plan os ≡ true → AllSure os → AllAgree os law.by.law.ins
        → Agrees (gathered_by first.gathers plan os) law.by.law.out_list law.by.law.out_end }
    ensures recover { (first now : Recover) (v : View) (took gave : List (List Item)) → (law : RecoversAs first now v took gave) → (plan : List ℕ)
        → first.left ≡ Some plan → (o : Outlook) → recover_fits plan o ≡ true → o.fails ≡ [] → AllAgree (o ∷ []) law.by.law.ins
        → Agrees (recover_outlook law.element plan o) law.by.law.out_list law.by.law.out_end }
    ensures buffer { (first now : Dropping) (v : View) (took gave : List (List Item)) → (law : DropsAs first now v took gave) → (plan : List ℕ)
        → first.log.left ≡ Some plan → (o : Outlook) → buffer_fits first.policy first.size plan o ≡ true → o.fails ≡ []
        → (buffer_outlook first.node first.policy first.size plan o).fails ≡ [] → AllAgree (o ∷ []) law.by.law.ins
        → Agrees (buffer_outlook first.node first.policy first.size plan o) law.by.law.out_list law.by.law.out_end }
    ensures valve { (first now : Valve) (v : View) (took gave : List (List Item)) → (law : ValveAs first now v took gave) → (plan : List ℕ)
        → plan ≡ moves_by (acted plan) → first.moves ≡ [] → first.left ≡ Some plan → (o : Outlook) → AllAgree (o ∷ []) law.by.law.ins
        → Agrees (valve_outlook first.node plan o) law.by.law.out_list law.by.law.out_end }
{}

/// At any moment of a run the moves that a node made are the first of those that it follows; a valve and a recover made all of them or none.
pub fn every_node_begins_its_plan<S: Source, D: Drain, L: Logic, H: Handlers, B: PlugBook>()
    ensures { (g : Graph) (w : World) (a : Account (IslandNode S D L H B)) → IsRun S.state D.state w.book g a
        → (k : ℕ) (n : graph.Node) (first now : IslandNode S D L H B) (plan : List ℕ) → slice_get g.nodes k ≡ Some n → a.firsts k ≡ Some first
        → a.nodes k ≡ Some now → node_plan first ≡ Some plan
        → IsPrefix (node_moves now) plan × (IsAtOnce n.kind → (node_moves now ≡ []) ⊎ (node_moves now ≡ plan)) }
{}

/// At any moment of a run a node that found a move which it cannot make has the cause of a misfit, and the place of that move is how many it
/// made: by any outlooks with which what the wires carried agrees (`any`), and by the composed outlooks (`composed`).
pub fn every_misfit_has_its_cause<S: Source, D: Drain, L: Logic, H: Handlers, B: PlugBook>()
    ensures any { (g : Graph) (w : World) (plans : Plans) (a : Account (IslandNode S D L H B)) (outlook : ℕ → Outlook) → IsRun S.state D.state w.book g a
        → TellsPicks w a → FollowsPlans plans a → AllAgreeWith a g outlook
        → (k : ℕ) (n : graph.Node) (now : IslandNode S D L H B) (place : ℕ) → slice_get g.nodes k ≡ Some n → a.nodes k ≡ Some now
        → node_misfit now ≡ Some place → (place ≡ length (node_moves now)) × MisfitsOver g w plans outlook k n }
    ensures composed { (g : Graph) (w : World) (plans : Plans) (rank : ℕ → ℕ) (a : Account (IslandNode S D L H B)) → IsRun S.state D.state w.book g a
        → WorldTells S.state g w a → FollowsPlans plans a → IsRanked g rank
        → (k : ℕ) (n : graph.Node) (now : IslandNode S D L H B) (place : ℕ) → slice_get g.nodes k ≡ Some n → a.nodes k ≡ Some now
        → node_misfit now ≡ Some place → (place ≡ length (node_moves now)) × MisfitsOver g w plans (composed g w) k n }
{}
