// What the sinks' files hold after a call, in nine short laws: each function does nothing, and its contract is the law. Each follows
// from `told` of `run_file` alone, and `run_streams` hands that on in its clause `answers`.
ghost use Rattle.std.specs.Prelude.{◌≡◌, ◌≢◌, [], false, IsTrue, List, ℕ};
ghost use Rattle.blue_names.specs.Picks.{needs_picks};
ghost use Rattle.run_report.specs.Answer.{Answer};
ghost use Rattle.stream_io.specs.State.{FolderState};
ghost use Rattle.elem_core.specs.declared.why.Cause.{Cause};
ghost use Rattle.materializer.specs.Graphs.{graph_of, graph_node};
ghost use Rattle.run_blueprint.specs.Drawing.{IsWorldOf};
ghost use Rattle.stream_model.specs.Composed.{sink_outlook};
ghost use Rattle.stream_model.specs.Node.{World};
ghost use Rattle.stream_model.specs.Outlook.{Outlook};
ghost use Rattle.stream_model.specs.Listed.{HasLists};
ghost use Rattle.stream_model.specs.declared.blueprint.Blueprint.{Blueprint};
ghost use Rattle.stream_command.specs.Asked.{AskedRun, Plugged};
ghost use Rattle.stream_model.specs.declared.blueprint.Node.{Node};
ghost use Rattle.stream_model.specs.declared.outcome.EndState.TheVariants.{Ended, Failed};
ghost use Rattle.stream_command.specs.Headline.{HoldsWhole, HoldsBetween, WholeFiles, AnswersSink, EndedFiles, RunsAlike, ReplayedFiles, ReplaysRun, FailedWhole, FailuresLead};
ghost use Rattle.stream_command.specs.Outcome.{SaysFile, Told};

use materializer::laws::fit_blueprints_are_whole;
use run_report::outcome::Status;
use stream_model::laws::{causes_lead, failures_lose_nothing, lists_are_apart_from_customs};

// Choice: docs/DECISIONS.md#headline
/// Where a call answers Done and the folder tells its files, each sink's file holds exactly the text of the list that the blueprint's
/// list functions give of the input files, by the plugs that were handed in and the moves that were answered.
pub fn done_means_whole_files()
    ensures { (p : Plugged) (a : Answer) (c : AskedRun) (old new : FolderState) → Told p a c old new → a.status ≡ Status.Done → IsTrue new.tells
        → WholeFiles p a.picks c old new }
{}

/// Where no kind of the blueprint chooses, the same is said without moves: the input files and the plugs alone tell the text, with what
/// custom stages gave where some are named that tell no list.
pub fn done_without_choice_means_whole_files()
    ensures { (p : Plugged) (a : Answer) (c : AskedRun) (old new : FolderState) (b : Blueprint) → Told p a c old new → a.status ≡ Status.Done → IsTrue new.tells
        → SaysFile old c.file b → needs_picks b.nodes.items ≡ false → WholeFiles p [] c old new }
{}

/// Whatever the status of a call that answers some sink, each sink that ended has such a file; and the file of each that failed holds
/// the text of a first part of that list, at least as long as its outlook guarantees.
pub fn each_end_tells_its_file()
    ensures { (p : Plugged) (a : Answer) (c : AskedRun) (old new : FolderState) → Told p a c old new → IsTrue new.tells → a.sinks ≢ []
        → EndedFiles p a c old new }
{}

/// The file of a sink to which no way leads from a custom stage that tells no list is told so by every world of the input files and the
/// moves, whatever that has of what those stages gave.
pub fn files_are_apart_from_customs()
    ensures ended { (p : Plugged) (a : Answer) (c : AskedRun) (old new : FolderState) → (e : EndedFiles p a c old new)
        → (w : World) (x : ℕ → ℕ → Outlook) (k : ℕ) (n : Node)
        (file : List ℕ) → IsWorldOf p.book e.blueprint.nodes.items e.drawn w → AnswersSink a e.blueprint k n file Ended
        → HasLists (graph_of e.blueprint) p.book k
        → HoldsWhole new file (sink_outlook (graph_of e.blueprint) (record w { given = x }) k (graph_node e.blueprint.wires.items n)) }
    ensures failed { (p : Plugged) (a : Answer) (c : AskedRun) (old new : FolderState) → (e : EndedFiles p a c old new)
        → (w : World) (x : ℕ → ℕ → Outlook) (k : ℕ) (n : Node)
        (file : List ℕ) (cause : Cause) → IsWorldOf p.book e.blueprint.nodes.items e.drawn w → AnswersSink a e.blueprint k n file (Failed cause)
        → HasLists (graph_of e.blueprint) p.book k
        → HoldsBetween new file (sink_outlook (graph_of e.blueprint) (record w { given = x }) k (graph_node e.blueprint.wires.items n)) cause }
{
    fit_blueprints_are_whole();
    lists_are_apart_from_customs();
}

/// Two calls that ran what one text says over input files of the same bytes, by the same moves, where no read of a file failed: each
/// sink that ended in both, to which no way leads from a custom stage that tells no list, wrote the same bytes. So does a replay that made
/// all moves of a run's own trace.
pub fn the_same_moves_write_the_same()
    ensures { (p : Plugged) (a x : Answer) (c e : AskedRun) (old new before after : FolderState) → (first : EndedFiles p a c old new)
        → (second : EndedFiles p x e before after)
        → RunsAlike p a x c e old new before after first → (k : ℕ) (n : Node) (file : List ℕ) → AnswersSink a first.blueprint k n file Ended
        → AnswersSink x second.blueprint k n file Ended → HasLists (graph_of first.blueprint) p.book k → new.file file ≡ after.file file }
{
    fit_blueprints_are_whole();
    lists_are_apart_from_customs();
}

/// Whatever the status of a call that answers some sink, its stages made the first of the moves that its file of moves says. And where
/// each made all of them, or no failure may come on its wires, the text is that by all moves of the file.
pub fn each_replay_tells_its_files()
    ensures { (p : Plugged) (a : Answer) (c : AskedRun) (old new : FolderState) → Told p a c old new → IsTrue new.tells → a.sinks ≢ []
        → ReplayedFiles p a c old new }
{}

/// A replay of the moves that another run made, of the same text over the same bytes: each sink that ended in both, to which no way leads
/// from a custom stage that tells no list, wrote the same bytes.
pub fn a_replay_writes_what_was_written()
    ensures { (p : Plugged) (a x : Answer) (c e : AskedRun) (old new before after : FolderState) → (first : EndedFiles p a c old new)
        → (second : ReplayedFiles p x e before after) → ReplaysRun p a x c e old new before after first second → (k : ℕ) (n : Node) (file : List ℕ)
        → AnswersSink a first.blueprint k n file Ended → AnswersSink x second.blueprint k n file Ended
        → HasLists (graph_of first.blueprint) p.book k → new.file file ≡ after.file file }
{
    fit_blueprints_are_whole();
    lists_are_apart_from_customs();
}

/// Whatever the status of a call that answers some sink, each sink that failed blames itself, or a node from which the failure came along a
/// directed walk of wires and where it may arise: also behind a custom stage that tells no list.
pub fn each_failure_has_its_node()
    ensures { (p : Plugged) (a : Answer) (c : AskedRun) (old new : FolderState) → Told p a c old new → IsTrue new.tells → a.sinks ≢ []
        → FailuresLead p a c old new }
{
    fit_blueprints_are_whole();
    causes_lead();
}

/// With no lane that does not keep, no buffer, no stage that holds outputs, no partition and no fan-in between the stage that failed and
/// a sink, that sink's file holds exactly the text of the list: nothing that came before the failure is lost.
pub fn kept_failures_mean_whole_files()
    ensures { (p : Plugged) (a : Answer) (c : AskedRun) (old new : FolderState) → Told p a c old new → IsTrue new.tells → a.sinks ≢ []
        → FailedWhole p a c old new }
{
    fit_blueprints_are_whole();
    failures_lose_nothing();
}
