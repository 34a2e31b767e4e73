// Laws of the pictures of a run: each function has no body, and its contract is the law. They speak of what a run leaves of its
// blueprint's nodes and wires, at any moment from its start to its end. The plugs of the run give what the book of the world lists of
// their names; how sinks match is by any world, and the plugs give what `B` lists.
ghost use Rattle.std.specs.Prelude.{ℕ, List};
ghost use Rattle.elem_core.specs.declared.item.Item.{Item};
ghost use Rattle.stream_model.specs.Composed.{composed, IsRanked};
ghost use Rattle.stream_model.specs.Graph.{Graph};
ghost use Rattle.stream_model.specs.Node.{World};
ghost use Rattle.stream_model.specs.Outlook.{Outlook};
ghost use Rattle.stream_model.specs.Rests.{SinksMatch};
ghost use Rattle.nodes.specs.declared.node.IslandNode.{IslandNode};
ghost use Rattle.run_laws.specs.Account.{Account, IsStill};
ghost use Rattle.run_laws.specs.Items.{AgreesWith, WithinOutlook};
ghost use Rattle.run_laws.specs.Pictures.{picture_counts, AllAgreeWith, AllPass};
ghost use Rattle.run_laws.specs.Replayed.{Plans, RestsBy, IsLawfulBy, FitsBy};
ghost use Rattle.run_laws.specs.Runs.{IsRun};
ghost use Rattle.run_laws.specs.Telling.{AreSettled, FollowsPlans, TellsPicks, WorldTells};
ghost use Rattle.run_laws.specs.Picture.{ended_there};

use graph_stage::handlers::Handlers;
use plug_logic::book::PlugBook;
use plug_logic::logic::Logic;
use stream_io::outside::{Drain, Source};

/// What agrees with an outlook is a first part of its list, and then an end or none.
pub fn what_agrees_passes()
    ensures { (o : Outlook) (items : List Item) → AgreesWith o items → WithinOutlook o items }
{}

// Choices: docs/DECISIONS.md#moments-of-rows, docs/DECISIONS.md#lawful-by-any-outlooks
/// The picture of a graph is lawful: no node gave more than it may, and each asks only while it goes on and where what it was
/// sent gives less than is wanted of it; and where the seats of its switches were settled, each order by which a valve acted that
/// follows no moves was given by a trip. So it is by any outlooks of whose lists the wires carried first parts (`any`), and by the
/// composed outlooks (`composed`), where the world tells what the stages chose, and these are the plans of its nodes.
pub fn every_picture_is_lawful<S: Source, D: Drain, L: Logic, H: Handlers, B: PlugBook>()
    ensures any { (g : Graph) (w : World) (plans : Plans) (a : Account (IslandNode S D L H B)) (outlook : ℕ → Outlook) → IsRun S.state D.state w.book g a
        → AreSettled g a → TellsPicks w a → FollowsPlans plans a → AllPass a g outlook → IsLawfulBy g w plans (picture_counts a g) outlook }
    ensures composed { (g : Graph) (w : World) (plans : Plans) (rank : ℕ → ℕ) (a : Account (IslandNode S D L H B)) → IsRun S.state D.state w.book g a
        → AreSettled g a → WorldTells S.state g w a → FollowsPlans plans a → IsRanked g rank
        → IsLawfulBy g w plans (picture_counts a g) (composed g w) }
{}

/// Where no event is left, the picture of a graph rests: each node has all its wires shut, or has nothing to do, or follows moves and cannot
/// make the next of them. So it is by any outlooks with which what the wires carried agrees (`any`), and by the composed outlooks
/// (`composed`). A sink's input is shut exactly where the sink has ended (`sinks`).
pub fn a_picture_without_events_rests<S: Source, D: Drain, L: Logic, H: Handlers, B: PlugBook>()
    ensures any { (g : Graph) (w : World) (plans : Plans) (a : Account (IslandNode S D L H B)) (outlook : ℕ → Outlook) → IsRun S.state D.state w.book g a
        → IsStill g a → TellsPicks w a → FollowsPlans plans a → AllAgreeWith a g outlook → RestsBy g w plans (picture_counts a g) outlook }
    ensures composed { (g : Graph) (w : World) (plans : Plans) (rank : ℕ → ℕ) (a : Account (IslandNode S D L H B)) → IsRun S.state D.state w.book g a
        → IsStill g a → WorldTells S.state g w a → FollowsPlans plans a → IsRanked g rank
        → RestsBy g w plans (picture_counts a g) (composed g w) }
    ensures sinks { (g : Graph) (w : World) (a : Account (IslandNode S D L H B)) (outlook : ℕ → Outlook) → IsRun S.state D.state B.lists g a → IsStill g a
        → SinksMatch g w (picture_counts a g) outlook (λ k. ended_there (a.nodes k)) }
{}

/// The moves of a run fit: each stage could have made them of what may come in on its inputs, and the orders by which valves
/// acted that follow no moves were given, where the seats of its switches were settled.
pub fn every_move_fits<S: Source, D: Drain, L: Logic, H: Handlers, B: PlugBook>()
    ensures { (g : Graph) (w : World) (plans : Plans) (rank : ℕ → ℕ) (a : Account (IslandNode S D L H B)) → IsRun S.state D.state w.book g a
        → AreSettled g a → WorldTells S.state g w a → FollowsPlans plans a → IsRanked g rank → FitsBy g w plans }
{}
