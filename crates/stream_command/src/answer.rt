// The answer of a call, from the blueprint's file to the status and what is told of a run.
ghost use Rattle.std.specs.Prelude.{ℕ, List, ◌≡◌, ◌<◌, ◌≤◌, ◌||◌, ◌++◌, ◌≢◌, [], ◌⊎◌, Option, map, length, IfOk, IfSome, IsTrue, Some, None, Err, vec_len, vec_capacity};
ghost use Rattle.blue_modules.specs.Plain.{plain};
ghost use Rattle.blue_lang.specs.Texts.{Says, text_fault};
ghost use Rattle.blue_words.specs.declared.fault.BlueFault.{BlueFault};
ghost use Rattle.blue_modules.specs.Text.{plain_text};
ghost use Rattle.blue_modules.specs.Fitness.{IsFlat};
ghost use Rattle.blue_check.specs.declared.fault.CheckFault.{CheckFault};
ghost use Rattle.blue_check.specs.Meaning.{modules_fault};
ghost use Rattle.blue_check.specs.Checked.{checked_blueprint};
ghost use Rattle.blue_check.specs.Fitness.{IsFit};
ghost use Rattle.run_blueprint.specs.Stands.{is_unended, is_write_fault, is_failed};
ghost use Rattle.run_blueprint.specs.Tracing.{IsApart};
ghost use Rattle.run_report.specs.Report.{detail_of};
ghost use Rattle.std.specs.List.{All, Contains, list_any};
ghost use Rattle.std.specs.Option.{option_copied, option_to_list};
ghost use Rattle.elem_core.specs.declared.count.TheConstants.{MOST_COUNT};
ghost use Rattle.materializer.specs.Fit.{CanRun};
ghost use Rattle.materializer.specs.Files.{inputs_of_nodes, sinks_of_nodes};
ghost use Rattle.stream_command.specs.AfterRun.{AfterRun, of_outcome, status_after, sink_ends};
ghost use Rattle.stream_io.specs.Counts.{GrewAtMost};
ghost use Rattle.stream_command.specs.Outcome.{taken_files, Blank, EndedRun, EndedChecked, Told, RunCauses, Causes, SinksOf, QuietButAll, QuietAmong, ReadsMost, plan_limit};
ghost use Rattle.stream_command.specs.Replays.{IsReadApart, plans_status};
ghost use Rattle.materializer.specs.Choosers.{moves_of, PlansFit};
ghost use Rattle.stream_io.specs.Text.{text_limit};
ghost use Rattle.run_blueprint.specs.Receipt.{HasIslands};
ghost use Rattle.stream_command.specs.RunReceipts.{Receipts, RanIslands, RanSaid, RanText, RanFile};
ghost use Rattle.stream_command.specs.Texts.{EndedParsed, EndedSaid, EndedText, CausesChecked, CausesParsed, CausesSaid, CausesText};
ghost use Rattle.materializer.specs.HandedPlugs.{GivesAsListed};
ghost use Rattle.materializer.specs.HandedCustoms.{handed_heads, HasGuests, TellsAsListed};
ghost use Rattle.stream_command.specs.Asked.{plugged_by};

use crate::replays::{PlansEnd, plans_of_file};
use blue_check::check::{CheckEnd, check};
use blue_check::checked::Checked;
use blue_check::detail::put_detail;
use blue_check::fault::CheckFault;
use blue_check::flatten::flatten_own;
use blue_lang::parse::{ParseEnd, parse};
use blue_modules::text::BlueText;
use elem_core::line::Line;
use elem_core::why::NoMemory;
use graph_stage::custom::Custom;
use graph_stage::handlers::Handlers;
use interpreter::island::SinkStand;
use materializer::heads::{custom_heads_of, heads_of};
use materializer::names::sink_names;
use plug_logic::book::PlugBook;
use plug_logic::logic::Logic;
use plug_logic::plug::Plug;
use run_blueprint::Ran;
use run_blueprint::run::{RunResult, run};
use run_report::outcome::{SinkEnd, Status};
use std::alloc::Global;
use std::sync::Wait;
use std::thread::Threads;
use stream_io::open::OpenEnd;
use stream_io::outside::Folder;
use stream_io::text::{ReadEnd, read_file};
use stream_model::blueprint::Blueprint;
use stream_model::outcome::{EndState, PickList, Picture};

/// How a call ended, what is told of a rule that is broken, and what is told of a run where a blueprint was run, with its receipt.
#[derive(Drop)]
pub struct CallEnd {
    pub status: Status,
    pub detail: Vec<u8>,
    pub sinks: Vec<SinkEnd>,
    pub picture: Picture,
    pub picks: Vec<PickList>,
    pub used: u64,
    pub ran: Option<Ran>,
}

/// A status without a run, of which nothing more is told.
pub fn without_run(alloc: Global, status: Status) -> CallEnd
    requires { detail_of status ≡ [] }
    ensures status { result.status ≡ status }
    ensures detail { result.detail.items ≡ detail_of result.status }
    ensures blank { Blank (of_outcome result) }
    ensures ran { result.ran ≡ None }
{
    told_without_run(alloc, status, Vec::new(alloc))
}

/// A status without a run, with what is told of it.
fn told_without_run(alloc: Global, status: Status, detail: Vec<u8>) -> CallEnd
    requires { detail.items ≡ detail_of status }
    ensures status { result.status ≡ status }
    ensures detail { result.detail.items ≡ detail_of result.status }
    ensures blank { Blank (of_outcome result) }
    ensures ran { result.ran ≡ None }
{
    CallEnd {
        status,
        detail,
        sinks: Vec::new(alloc),
        picture: Picture {
            wires: Vec::new(alloc),
        },
        picks: Vec::new(alloc),
        used: 0,
        ran: None,
    }
}

/// The text of what is told of a rule that is broken.
fn detail(alloc: Global, fault: &CheckFault) -> Result<Vec<u8>, NoMemory>
    ensures { IfOk result (λ detail. detail.items ≡ detail_of (Status.Unfit fault.now)) }
{
    let mut detail = Vec::new(alloc);
    put_detail(&mut detail, fault)?;
    Ok(detail)
}

/// A rule is broken. Where memory is wanting to tell of it, that is told in its place.
fn unfit(alloc: Global, fault: CheckFault) -> CallEnd
    ensures status { (result.status ≡ Status.Unfit fault) ⊎ (result.status ≡ Status.NoMemory) }
    ensures detail { result.detail.items ≡ detail_of result.status }
    ensures blank { Blank (of_outcome result) }
    ensures ran { result.ran ≡ None }
{
    match detail(alloc, &fault) {
        Ok(detail) => told_without_run(alloc, Status::Unfit(fault), detail),
        Err(_) => without_run(alloc, Status::NoMemory),
    }
}

/// The ends of sinks of these names that stand so, in a list that has room for them.
fn told_ends(names: Vec<Line>, stands: &[SinkStand], room: Vec<SinkEnd>) -> Vec<SinkEnd>
    requires empty { room.items ≡ [] }
    requires room { vec_len names ≤ vec_capacity room }
    requires as_many { vec_len names ≡ length stands.now }
    ensures { result.items ≡ sink_ends names.items stands.now }
{
    let mut ends = room;
    for name in names {
        let (_, count, end) = stands[ends.len()];
        ends.push_reserved(SinkEnd { name, count, end });
    }
    ends
}

/// Whether some sink has an end of this kind.
fn some_write_fault(sinks: &[SinkStand]) -> bool
    ensures { result ≡ list_any (λ s. is_write_fault s.2) sinks.now }
{
    sinks
        .iter()
        .any(|sink| matches!(sink.2, EndState::WriteFault))
}

/// Whether some sink has not ended.
fn some_unended(sinks: &[SinkStand]) -> bool
    ensures { result ≡ list_any (λ s. is_unended s.2) sinks.now }
{
    sinks.iter().any(|sink| matches!(sink.2, EndState::Unended))
}

/// Whether some sink failed.
fn some_failed(sinks: &[SinkStand]) -> bool
    ensures { result ≡ list_any (λ s. is_failed s.2) sinks.now }
{
    sinks
        .iter()
        .any(|sink| matches!(sink.2, EndState::Failed(_)))
}

// Choices: docs/DECISIONS.md#failed-inputs, docs/DECISIONS.md#stalled-or-out-of-turns, docs/DECISIONS.md#order-of-statuses
/// The status of a run, by how its sinks stand, whether a write to the trace's file failed, which stage could not make its next move, and whether no event was left.
fn status_of(
    sinks: &[SinkStand],
    trace_failed: bool,
    misfit: Option<(u32, u32)>,
    at_rest: bool,
) -> Status
    ensures { result ≡ status_after sinks.now trace_failed misfit at_rest }
{
    if some_write_fault(sinks) || trace_failed {
        Status::WriteFault
    } else if let Some((stage, pick)) = misfit {
        Status::Misfit(stage, pick)
    } else if some_unended(sinks) {
        if at_rest {
            Status::Stalled
        } else {
            Status::OutOfTurns
        }
    } else if some_failed(sinks) {
        Status::StreamFailed
    } else {
        Status::Done
    }
}

/// What is told of a run, in a list that has room for its sinks.
fn after_run(alloc: Global, names: Vec<Line>, room: Vec<SinkEnd>, ran: RunResult) -> CallEnd
    requires empty { room.items ≡ [] }
    requires room { vec_len names ≤ vec_capacity room }
    requires as_many { vec_len names ≡ vec_len ran.sinks }
    ensures run { AfterRun names.items ran (of_outcome result) }
    ensures ran { result.ran ≡ Some ran.ran }
    ensures detail { result.detail.items ≡ detail_of result.status }
{
    let RunResult {
        sinks,
        picks,
        misfit,
        wires,
        used,
        at_rest,
        trace_failed,
        ran,
    } = ran;
    CallEnd {
        status: status_of(&sinks, trace_failed, misfit, at_rest),
        detail: Vec::new(alloc),
        sinks: told_ends(names, &sinks, room),
        picture: Picture { wires },
        picks,
        used: u64::from(used),
        ran: Some(ran),
    }
}

/// The names of a blueprint's sinks, and room to tell of them.
fn sinks_to_tell(alloc: Global, b: &Blueprint) -> Result<(Vec<Line>, Vec<SinkEnd>), NoMemory>
    ensures names { IfOk result (λ sinks. sinks.0.items ≡ sinks_of_nodes b.now.nodes.items) }
    ensures empty { IfOk result (λ sinks. sinks.1.items ≡ []) }
    ensures room { IfOk result (λ sinks. vec_len sinks.0 ≤ vec_capacity sinks.1) }
{
    let names = sink_names(alloc, b)?;
    let room = Vec::with_capacity(alloc, names.len())?;
    Ok((names, room))
}

/// Runs a blueprint that can be run.
fn run_fit<
    R: Threads + Wait + Sync,
    F: Folder,
    L: Logic + Send,
    H: Handlers + Send,
    B: PlugBook + Send,
>(
    rt: &R,
    alloc: Global,
    folder: &mut F,
    b: Blueprint,
    trace: Option<Line>,
    plans: Vec<Option<Vec<u32>>>,
    workers: u32,
    turns: u32,
    plugs: Vec<Plug<L>>,
    customs: Vec<Custom<H>>,
) -> CallEnd
    requires runs { CanRun b }
    requires has { HasGuests (handed_heads plugs.items customs.items) b.wires.items b.nodes.items }
    requires listed { All (GivesAsListed L.gives B.lists) plugs.items }
    requires customs { All (TellsAsListed H.tells B.lists) customs.items }
    requires apart { IsApart b trace }
    requires follow { PlansFit (map (λ n. n.kind) b.nodes.items) (map moves_of plans.items) }
    requires workers { (0 < workers) × (workers ≤ 64) }
    requires turns { turns ≤ MOST_COUNT }
    ensures told { IsTrue (F.state folder.old).tells → EndedRun (plugged_by B.lists plugs.items customs.items) result.status (of_outcome result) b
        (map moves_of plans.items) trace turns
        (F.state folder.old) (F.state folder.new) }
    ensures tells { IsTrue (F.state folder.new).tells → IsTrue (F.state folder.old).tells }
    ensures causes { RunCauses (plugged_by B.lists plugs.items customs.items) result.status (of_outcome result) b
        (map moves_of plans.items) trace turns
        (F.state folder.old) (F.state folder.new) }
    ensures sinks { SinksOf result.status (of_outcome result) trace }
    ensures detail { result.detail.items ≡ detail_of result.status }
    ensures reads { QuietButAll (inputs_of_nodes b.nodes.items) (F.state folder.old).read (F.state folder.new).read }
    ensures ran { Receipts result.status workers result.used result.ran }
    ensures islands { IfSome result.ran (λ r. HasIslands b r.islands) }
    ensures handles { F.handles folder.new ≡ F.handles folder.old }
{
    // The names and the room for the ends of its sinks are made before a file is opened, so that want of memory hides no fault.
    let Ok((names, room)) = sinks_to_tell(alloc, &b) else {
        return without_run(alloc, Status::NoMemory);
    };
    match run::<R, F, L, H, B>(
        rt, alloc, folder, b, trace, workers, turns, plugs, customs, plans,
    ) {
        Ok(ran) => after_run(alloc, names, room, ran),
        Err(OpenEnd::MissingInput(name)) => without_run(alloc, Status::Missing(name)),
        Err(OpenEnd::MissingOutput(name)) => without_run(alloc, Status::Missing(name)),
        Err(OpenEnd::NoMemory) => without_run(alloc, Status::NoMemory),
    }
}

/// There are no moves to follow.
fn without_plans(alloc: Global, end: PlansEnd, replay: Option<Line>) -> CallEnd
    ensures status { result.status ≡ plans_status replay end }
    ensures detail { result.detail.items ≡ detail_of result.status }
    ensures blank { Blank (of_outcome result) }
    ensures ran { result.ran ≡ None }
{
    match (end, replay) {
        (PlansEnd::Missing, Some(name)) => without_run(alloc, Status::Missing(name)),
        (PlansEnd::ReadFault, _) => without_run(alloc, Status::ReadFault),
        (PlansEnd::BadTrace(line), _) => without_run(alloc, Status::BadTrace(line)),
        (_, _) => without_run(alloc, Status::NoMemory),
    }
}

/// Runs a blueprint that was checked, once the moves were read that its stages follow.
fn run_checked<
    R: Threads + Wait + Sync,
    F: Folder,
    L: Logic + Send,
    H: Handlers + Send,
    B: PlugBook + Send,
>(
    rt: &R,
    alloc: Global,
    folder: &mut F,
    checked: Checked,
    trace: Option<Line>,
    replay: Option<Line>,
    workers: u32,
    turns: u32,
    plugs: Vec<Plug<L>>,
    customs: Vec<Custom<H>>,
) -> CallEnd
    requires listed { All (GivesAsListed L.gives B.lists) plugs.items }
    requires customs { All (TellsAsListed H.tells B.lists) customs.items }
    requires fit { (taken : List (List ℕ)) × IsFit (checked_blueprint checked) (handed_heads plugs.items customs.items) taken }
    requires apart { IsApart (checked_blueprint checked) trace }
    requires other { IsReadApart (checked_blueprint checked) replay }
    requires few { length (checked_blueprint checked).nodes.items ≤ 1024 }
    requires workers { (0 < workers) × (workers ≤ 64) }
    requires turns { turns ≤ MOST_COUNT }
    ensures told { IsTrue (F.state folder.old).tells → EndedChecked (plugged_by B.lists plugs.items customs.items) result.status (of_outcome result)
        (checked_blueprint checked) trace replay turns (F.state folder.old) (F.state folder.new) }
    ensures tells { IsTrue (F.state folder.new).tells → IsTrue (F.state folder.old).tells }
    ensures causes { CausesChecked (plugged_by B.lists plugs.items customs.items) result.status (of_outcome result)
        (checked_blueprint checked) trace replay turns
        (F.state folder.old)
        (F.state folder.new) }
    ensures sinks { SinksOf result.status (of_outcome result) trace }
    ensures detail { result.detail.items ≡ detail_of result.status }
    ensures reads { QuietButAll (option_to_list replay ++ inputs_of_nodes (checked_blueprint checked).nodes.items) (F.state folder.old).read
        (F.state folder.new).read }
    ensures reads_moves { ReadsMost replay (F.state folder.old).read (F.state folder.new).read }
    ensures ran { Receipts result.status workers result.used result.ran }
    ensures islands { (taken : List (List ℕ)) → IsFit (checked_blueprint checked) (handed_heads plugs.items customs.items) taken
        → IfSome result.ran (λ r. RanIslands (plugged_by B.lists plugs.items customs.items) (checked_blueprint checked) taken r) }
    ensures handles { F.handles folder.new ≡ F.handles folder.old }
{
    let b = checked.into_blueprint();
    let plans = match plans_of_file(alloc, folder, &b.nodes, replay.as_ref()) {
        Ok(plans) => plans,
        Err(end) => return without_plans(alloc, end, replay),
    };
    run_fit::<R, F, L, H, B>(
        rt, alloc, folder, b, trace, plans, workers, turns, plugs, customs,
    )
}

/// Checks a blueprint, where these files are taken, and runs it.
fn run_parsed<
    R: Threads + Wait + Sync,
    F: Folder,
    L: Logic + Send,
    H: Handlers + Send,
    B: PlugBook + Send,
>(
    rt: &R,
    alloc: Global,
    folder: &mut F,
    b: Blueprint,
    taken: &[Line],
    trace: Option<Line>,
    replay: Option<Line>,
    workers: u32,
    turns: u32,
    plugs: Vec<Plug<L>>,
    customs: Vec<Custom<H>>,
) -> CallEnd
    requires listed { All (GivesAsListed L.gives B.lists) plugs.items }
    requires customs { All (TellsAsListed H.tells B.lists) customs.items }
    requires taken { (t : List ℕ) → trace ≡ Some t → Contains taken.now t }
    requires moves { (t : List ℕ) → replay ≡ Some t → Contains taken.now t }
    requires few { length b.nodes.items ≤ 1024 }
    requires workers { (0 < workers) × (workers ≤ 64) }
    requires turns { turns ≤ MOST_COUNT }
    ensures told { IsTrue (F.state folder.old).tells → EndedParsed (plugged_by B.lists plugs.items customs.items) result.status
        (of_outcome result) b taken.now trace replay turns
        (F.state folder.old) (F.state folder.new) }
    ensures tells { IsTrue (F.state folder.new).tells → IsTrue (F.state folder.old).tells }
    ensures causes { CausesParsed (plugged_by B.lists plugs.items customs.items) result.status (of_outcome result) b taken.now trace replay turns
        (F.state folder.old)
        (F.state folder.new) }
    ensures sinks { SinksOf result.status (of_outcome result) trace }
    ensures detail { result.detail.items ≡ detail_of result.status }
    ensures reads { QuietAmong taken.now replay (F.state folder.old).read (F.state folder.new).read }
    ensures reads_moves { ReadsMost replay (F.state folder.old).read (F.state folder.new).read }
    ensures ran { Receipts result.status workers result.used result.ran }
    ensures islands { IfSome result.ran (λ r. RanIslands (plugged_by B.lists plugs.items customs.items) b taken.now r) }
    ensures handles { F.handles folder.new ≡ F.handles folder.old }
{
    let Ok(heads) = heads_of(alloc, &plugs) else {
        return without_run(alloc, Status::NoMemory);
    };
    let Ok(shapes) = custom_heads_of(alloc, &customs) else {
        return without_run(alloc, Status::NoMemory);
    };
    match check(alloc, b, &heads, &shapes, taken) {
        Ok(checked) => run_checked::<R, F, L, H, B>(
            rt, alloc, folder, checked, trace, replay, workers, turns, plugs, customs,
        ),
        Err(CheckEnd::Fault(fault)) => unfit(alloc, fault),
        Err(CheckEnd::NoMemory) => without_run(alloc, Status::NoMemory),
    }
}

/// The blueprint of what a text says, which is let go, so that it takes no memory in the run.
fn blueprint_of(alloc: Global, text: BlueText) -> Result<Blueprint, CheckEnd>
    ensures flat { IfOk result (λ b. IsFlat (plain_text text) (plain b)) }
    ensures fault { (f : CheckFault) → result ≡ Err (CheckEnd.Fault f) → modules_fault (plain_text text) ≡ Some f }
{
    flatten_own(alloc, text)
}

/// Runs the blueprint of what a text says, where these files are taken.
fn run_said<
    R: Threads + Wait + Sync,
    F: Folder,
    L: Logic + Send,
    H: Handlers + Send,
    B: PlugBook + Send,
>(
    rt: &R,
    alloc: Global,
    folder: &mut F,
    text: BlueText,
    taken: &[Line],
    trace: Option<Line>,
    replay: Option<Line>,
    workers: u32,
    turns: u32,
    plugs: Vec<Plug<L>>,
    customs: Vec<Custom<H>>,
) -> CallEnd
    requires listed { All (GivesAsListed L.gives B.lists) plugs.items }
    requires customs { All (TellsAsListed H.tells B.lists) customs.items }
    requires taken { (t : List ℕ) → trace ≡ Some t → Contains taken.now t }
    requires moves { (t : List ℕ) → replay ≡ Some t → Contains taken.now t }
    requires workers { (0 < workers) × (workers ≤ 64) }
    requires turns { turns ≤ MOST_COUNT }
    ensures told { IsTrue (F.state folder.old).tells → EndedSaid (plugged_by B.lists plugs.items customs.items) result.status
        (of_outcome result) (plain_text text) taken.now trace replay turns (F.state folder.old) (F.state folder.new) }
    ensures tells { IsTrue (F.state folder.new).tells → IsTrue (F.state folder.old).tells }
    ensures causes { CausesSaid (plugged_by B.lists plugs.items customs.items) result.status (of_outcome result)
        (plain_text text) taken.now trace replay turns
        (F.state folder.old)
        (F.state folder.new) }
    ensures sinks { SinksOf result.status (of_outcome result) trace }
    ensures detail { result.detail.items ≡ detail_of result.status }
    ensures reads { QuietAmong taken.now replay (F.state folder.old).read (F.state folder.new).read }
    ensures reads_moves { ReadsMost replay (F.state folder.old).read (F.state folder.new).read }
    ensures ran { Receipts result.status workers result.used result.ran }
    ensures islands { RanSaid (plugged_by B.lists plugs.items customs.items) (plain_text text) taken.now result.ran }
    ensures handles { F.handles folder.new ≡ F.handles folder.old }
{
    match blueprint_of(alloc, text) {
        Ok(b) => run_parsed::<R, F, L, H, B>(
            rt, alloc, folder, b, taken, trace, replay, workers, turns, plugs, customs,
        ),
        Err(CheckEnd::Fault(fault)) => unfit(alloc, fault),
        Err(CheckEnd::NoMemory) => without_run(alloc, Status::NoMemory),
    }
}

/// What a text says, as `parse` tells it. The text is let go, so that a run does not hold it.
fn parse_all(alloc: Global, text: Vec<u8>) -> Result<BlueText, ParseEnd>
    ensures ok { IfOk result (λ t. Says text.items (plain_text t)) }
    ensures fault { (f : BlueFault) → result ≡ Err (ParseEnd.Fault f) → text_fault text.items ≡ Some f }
{
    parse(alloc, &text)
}

/// Runs the blueprint of a text, where these files are taken.
fn run_text<
    R: Threads + Wait + Sync,
    F: Folder,
    L: Logic + Send,
    H: Handlers + Send,
    B: PlugBook + Send,
>(
    rt: &R,
    alloc: Global,
    folder: &mut F,
    text: Vec<u8>,
    taken: &[Line],
    trace: Option<Line>,
    replay: Option<Line>,
    workers: u32,
    turns: u32,
    plugs: Vec<Plug<L>>,
    customs: Vec<Custom<H>>,
) -> CallEnd
    requires listed { All (GivesAsListed L.gives B.lists) plugs.items }
    requires customs { All (TellsAsListed H.tells B.lists) customs.items }
    requires taken { (t : List ℕ) → trace ≡ Some t → Contains taken.now t }
    requires moves { (t : List ℕ) → replay ≡ Some t → Contains taken.now t }
    requires workers { (0 < workers) × (workers ≤ 64) }
    requires turns { turns ≤ MOST_COUNT }
    ensures told { IsTrue (F.state folder.old).tells → EndedText (plugged_by B.lists plugs.items customs.items) result.status
        (of_outcome result) text.items taken.now trace replay turns (F.state folder.old) (F.state folder.new) }
    ensures tells { IsTrue (F.state folder.new).tells → IsTrue (F.state folder.old).tells }
    ensures causes { CausesText (plugged_by B.lists plugs.items customs.items) result.status (of_outcome result) text.items taken.now trace replay turns
        (F.state folder.old)
        (F.state folder.new) }
    ensures sinks { SinksOf result.status (of_outcome result) trace }
    ensures detail { result.detail.items ≡ detail_of result.status }
    ensures reads { QuietAmong taken.now replay (F.state folder.old).read (F.state folder.new).read }
    ensures reads_moves { ReadsMost replay (F.state folder.old).read (F.state folder.new).read }
    ensures ran { Receipts result.status workers result.used result.ran }
    ensures islands { RanText (plugged_by B.lists plugs.items customs.items) text.items taken.now result.ran }
    ensures handles { F.handles folder.new ≡ F.handles folder.old }
{
    match parse_all(alloc, text) {
        Ok(said) => run_said::<R, F, L, H, B>(
            rt, alloc, folder, said, taken, trace, replay, workers, turns, plugs, customs,
        ),
        Err(ParseEnd::Fault(fault)) => without_run(alloc, Status::Refused(fault)),
        Err(ParseEnd::NoMemory) => without_run(alloc, Status::NoMemory),
    }
}

/// A copy of a name, where there is one.
fn copy_of(alloc: Global, name: Option<&Line>) -> Result<Option<Line>, NoMemory>
    ensures { IfOk result (λ copy. copy ≡ option_copied name.entry) }
{
    match name {
        Some(line) => Ok(Some(line.copy(alloc)?)),
        None => Ok(None),
    }
}

/// The files that no source and no sink may name.
fn taken_by(
    alloc: Global,
    file: &Line,
    trace: Option<&Line>,
    replay: Option<&Line>,
) -> Result<Vec<Line>, NoMemory>
    ensures { IfOk result (λ names. names.items ≡ taken_files file.now (option_copied trace.entry) (option_copied replay.entry)) }
{
    let mut taken = Vec::new(alloc);
    taken.push(file.copy(alloc)?)?;
    if let Some(name) = trace {
        taken.push(name.copy(alloc)?)?;
    }
    if let Some(name) = replay {
        taken.push(name.copy(alloc)?)?;
    }
    Ok(taken)
}

/// The names of a call: that of its file, to tell that it is missing, those of its trace and of its file of moves, and those of the files that are taken.
#[derive(Drop)]
struct Names {
    file: Line,
    trace: Option<Line>,
    replay: Option<Line>,
    taken: Vec<Line>,
}

/// Copies the names of a call.
fn names_of(
    alloc: Global,
    file: &Line,
    trace: Option<&Line>,
    replay: Option<&Line>,
) -> Result<Names, NoMemory>
    ensures file { IfOk result (λ names. names.file ≡ file.now) }
    ensures trace { IfOk result (λ names. names.trace ≡ option_copied trace.entry) }
    ensures replay { IfOk result (λ names. names.replay ≡ option_copied replay.entry) }
    ensures taken { IfOk result (λ names. names.taken.items ≡ taken_files file.now (option_copied trace.entry) (option_copied replay.entry)) }
{
    Ok(Names {
        file: file.copy(alloc)?,
        trace: copy_of(alloc, trace)?,
        replay: copy_of(alloc, replay)?,
        taken: taken_by(alloc, file, trace, replay)?,
    })
}

/// Reads the blueprint of that name's file, and lets so many workers run it by at most so many units; the file of the trace, where one is wanted, is another.
pub fn run_file<
    R: Threads + Wait + Sync,
    F: Folder,
    L: Logic + Send,
    H: Handlers + Send,
    B: PlugBook + Send,
>(
    rt: &R,
    alloc: Global,
    folder: &mut F,
    file: &Line,
    trace: Option<&Line>,
    replay: Option<&Line>,
    workers: u32,
    turns: u32,
    plugs: Vec<Plug<L>>,
    customs: Vec<Custom<H>>,
) -> CallEnd
    requires listed { All (GivesAsListed L.gives B.lists) plugs.items }
    requires customs { All (TellsAsListed H.tells B.lists) customs.items }
    requires workers { (0 < workers) × (workers ≤ 64) }
    requires turns { turns ≤ MOST_COUNT }
    ensures told { IsTrue (F.state folder.old).tells → Told (plugged_by B.lists plugs.items customs.items) (of_outcome result)
        (record { file = file.now; trace = option_copied trace.entry; replay = option_copied replay.entry; turns = turns }) (F.state folder.old)
        (F.state folder.new) }
    ensures causes { Causes (plugged_by B.lists plugs.items customs.items) result.status (of_outcome result) file.now (option_copied trace.entry)
        (option_copied replay.entry) turns (F.state folder.old)
        (F.state folder.new) }
    ensures sinks { SinksOf result.status (of_outcome result) (option_copied trace.entry) }
    ensures no_usage { result.status ≡ Status.Usage → ⊥ }
    ensures tells { IsTrue (F.state folder.new).tells → IsTrue (F.state folder.old).tells }
    ensures detail { result.detail.items ≡ detail_of result.status }
    ensures reads { option_copied replay.entry ≢ Some file.now → GrewAtMost ((F.state folder.old).read file.now) text_limit
        ((F.state folder.new).read file.now) }
    ensures reads_moves { (t : List ℕ) → option_copied replay.entry ≡ Some t → t ≢ file.now
        → GrewAtMost ((F.state folder.old).read t) plan_limit ((F.state folder.new).read t) }
    ensures ran { Receipts result.status workers result.used result.ran }
    ensures islands { IsTrue (F.state folder.old).tells → RanFile (plugged_by B.lists plugs.items customs.items) (F.state folder.old) file.now
        (option_copied trace.entry) (option_copied replay.entry) result.ran }
    ensures handles { F.handles folder.new ≡ F.handles folder.old }
{
    let Ok(names) = names_of(alloc, file, trace, replay) else {
        return without_run(alloc, Status::NoMemory);
    };
    let Names {
        file: name,
        trace: path,
        replay: moves,
        taken,
    } = names;
    match read_file(alloc, folder, file) {
        Ok(text) => run_text::<R, F, L, H, B>(
            rt, alloc, folder, text, &taken, path, moves, workers, turns, plugs, customs,
        ),
        Err(ReadEnd::Missing) => without_run(alloc, Status::Missing(name)),
        Err(ReadEnd::Fault) => without_run(alloc, Status::ReadFault),
        Err(ReadEnd::NoMemory) => without_run(alloc, Status::NoMemory),
    }
}
