// The run of a blueprint over a folder.
ghost use Rattle.std.specs.Prelude.{◌≡◌, ◌+◌, ◌-◌, ◌<◌, ◌≤◌, ◌++◌, [], ℕ, List, Option, IfOk, IfErr, Err, Bool, true, false, IsTrue, map, length, vec_len, is_some};
ghost use Rattle.std.specs.Option.{option_map, option_to_list};
ghost use Rattle.stream_model.specs.Known.{HeadLists};
ghost use Rattle.stream_model.specs.declared.blueprint.Blueprint as plan;
ghost use Rattle.stream_io.specs.State.{FolderState};
ghost use Rattle.materializer.specs.Fit.{CanRun};
ghost use Rattle.materializer.specs.Choices.{pick_names};
ghost use Rattle.materializer.specs.Choosers.{PlansFit, moves_of};
ghost use Rattle.materializer.specs.Seats.{place_plan, place_types};
ghost use Rattle.materializer.specs.Files.{inputs_of_nodes, outputs_of_nodes};
ghost use Rattle.stream_io.specs.Opening.{MissesInput, RefusesOutput};
ghost use Rattle.stream_io.specs.Closing.{ClosesAll};
ghost use Rattle.plan_reader.specs.Text.{trace_text};
ghost use Rattle.run_report.specs.Trace.{moves_in};
ghost use Rattle.island_runs.specs.Leaving.{RunLeaves, LeavesBroken, HasAsMany};
ghost use Rattle.run_blueprint.specs.Receipt.{IsReceipt};
ghost use Rattle.run_blueprint.specs.Plugs.{ToldTyped};
ghost use Rattle.run_blueprint.specs.Opening.{Opens, OpensAs, WritesAs, ClosesAs};
ghost use Rattle.run_blueprint.specs.Running.{Runs, Wants, WantsWithin};
ghost use Rattle.run_blueprint.specs.Tracing.{written_files, IsApart};
ghost use Rattle.std.specs.List.{All};
ghost use Rattle.elem_core.specs.declared.count.TheConstants.{MOST_COUNT};
ghost use Rattle.materializer.specs.HandedCustoms.{handed_heads, HasGuests, TellsAsListed, types_by_heads};
ghost use Rattle.materializer.specs.HandedPlugs.{GivesAsListed};

use crate::laws::{every_wire_carries_its_type, fit_blueprints_pass_the_rules};
use elem_core::line::Line;
use elem_core::why::NoMemory;
use graph_stage::custom::Custom;
use graph_stage::handlers::Handlers;
use interpreter::island::{IslandEnd, SinkStand};
use island_runs::prepare::prepare;
use island_runs::ran::Ran;
use island_runs::run::{Broken, Stopped};
use materializer::laws::{fit_blueprints_are_whole, parts_hold_their_files};
use materializer::names::{input_names, output_names, pick_names};
use plug_logic::book::PlugBook;
use plug_logic::logic::Logic;
use plug_logic::plug::Plug;
use run_laws::misfit_laws::{every_misfit_has_its_cause, every_node_begins_its_plan};
use run_laws::outlook_laws::{
    customs_blame_themselves, every_node_gives_of_what_came, every_plan_is_served,
    every_sink_agrees, every_sink_counts_its_lines, every_sink_writes,
    every_source_reads_little_ahead, every_wire_agrees,
};
use run_laws::picture_laws::{
    a_picture_without_events_rests, every_move_fits, every_picture_is_lawful,
};
use run_report::trace::put_trace;
use std::alloc::Global;
use std::sync::Wait;
use std::thread::Threads;
use stream_io::close::close_all;
use stream_io::open::{OpenEnd, Opened, open_all};
use stream_io::outside::{Drain, Folder};
use stream_model::blueprint::Blueprint;
use stream_model::outcome::{PickList, WireCount};
use stream_model::picture_laws::polytrees_end;

/// What a run came to: of each sink, in order of nodes, its node, how many whole lines it wrote and how it stands; the moves of
/// each stage whose kind chooses, in order of nodes; the least of them that could not make its next move, and the place of that move;
/// what each wire carried; how many units were used, and whether no event was left; whether a write to the trace's file failed; and the
/// receipt of the run.
#[derive(Drop)]
pub struct RunResult {
    pub sinks: Vec<SinkStand>,
    pub picks: Vec<PickList>,
    pub misfit: Option<(u32, u32)>,
    pub wires: Vec<WireCount>,
    pub used: u32,
    pub at_rest: bool,
    pub trace_failed: bool,
    pub ran: Ran,
}

/// How many bytes of a trace are written at once.
const PIECE: usize = 4096;

/// What a run names before its files are opened: the names of its inputs and of the files that it writes, that of its trace behind
/// those of its sinks; the names of the stages whose kinds choose, and room to gather their lines.
#[derive(Drop)]
struct RunNames {
    inputs: Vec<Line>,
    outputs: Vec<Line>,
    choosers: Vec<Line>,
    room: Vec<u8>,
}

// Choice: docs/DECISIONS.md#trace-is-opened-last
/// The files that a run writes: those of its sinks, and that of its trace where one is wanted.
fn written_names(alloc: Global, b: &Blueprint, trace: Option<Line>) -> Result<Vec<Line>, NoMemory>
    ensures { IfOk result (λ names. names.items ≡ written_files b.now trace) }
{
    let mut names = output_names(alloc, b)?;
    if let Some(file) = trace {
        names.push(file)?;
    }
    Ok(names)
}

/// The names of a run's files and of its stages that choose, and room for its trace.
fn names_of(alloc: Global, b: &Blueprint, trace: Option<Line>) -> Result<RunNames, NoMemory>
    ensures inputs { IfOk result (λ n. n.inputs.items ≡ inputs_of_nodes b.now.nodes.items) }
    ensures outputs { IfOk result (λ n. n.outputs.items ≡ written_files b.now trace) }
    ensures choosers { IfOk result (λ n. n.choosers.items ≡ pick_names b.now.nodes.items) }
    ensures room { IfOk result (λ n. n.room.items ≡ []) }
{
    Ok(RunNames {
        inputs: input_names(alloc, b)?,
        outputs: written_names(alloc, b, trace)?,
        choosers: pick_names(alloc, b)?,
        room: Vec::with_capacity(alloc, PIECE)?,
    })
}

/// The drain of the trace's file, which was opened last, where a trace is wanted.
fn take_last<D: Drain>(drains: &mut Vec<D>, wanted: bool) -> Option<D>
    requires { IsTrue wanted → 1 ≤ length drains.old.items }
    ensures all { drains.old.items ≡ drains.new.items ++ option_to_list result }
    ensures wanted { is_some result ≡ wanted }
{
    if wanted { drains.pop() } else { None }
}

/// Writes the trace, where one is wanted, and says whether a write failed.
fn write_trace<D: Drain>(
    drain: Option<D>,
    choosers: &[Line],
    picks: &[PickList],
    room: Vec<u8>,
) -> (Option<D>, bool)
    requires { room.items ≡ [] }
    ensures writes { WritesAs (option_map D.state drain) (option_map D.state result.0) (trace_text choosers.now (map moves_in picks.now)) result.1 }
    ensures same { length (option_to_list result.0) ≡ length (option_to_list drain) }
{
    match drain {
        Some(mut file) => {
            let failed = put_trace(&mut file, choosers, picks, room).is_err();
            (Some(file), failed)
        }
        None => (None, false),
    }
}

/// Closes the trace's file, where there is one.
fn close_trace<F: Folder>(folder: &mut F, drain: Option<F::Out>)
    ensures closes { ClosesAs (F.state folder.old) (F.state folder.new) (option_map F.Out.state drain) }
    ensures handles { F.handles folder.new ≡ F.handles folder.old - length (option_to_list drain) }
{
    if let Some(file) = drain {
        folder.close_out(file);
    }
}

/// Writes the trace of a run, and closes what it had opened.
fn close<F: Folder, L: Logic, H: Handlers, B: PlugBook>(
    folder: &mut F,
    stopped: Stopped<F::Inp, F::Out>,
    drain: Option<F::Out>,
    choosers: &[Line],
    room: Vec<u8>,
) -> RunResult
    requires { room.items ≡ [] }
    ensures runs { (old : FolderState) (b : plan.Blueprint) (plans : List (Option (List ℕ))) (trace : Option (List ℕ)) (budget : ℕ) (ss : List F.Inp)
        (ds : List F.Out) → CanRun b
        → IsApart b trace → choosers.now ≡ pick_names b.nodes.items
        → Opens old (F.state folder.old) (inputs_of_nodes b.nodes.items) (outputs_of_nodes b.nodes.items) (option_to_list trace) (map F.Inp.state ss)
        (map F.Out.state ds) → OpensAs (F.state folder.old) trace (option_map F.Out.state drain)
        → (left : RunLeaves L H B F.Inp.state F.Out.state B.lists b ss ds budget stopped) → map place_plan left.moment.places ≡ plans
        → (heads : HeadLists) → map place_types left.moment.places ≡ types_by_heads heads b.nodes.items → ToldTyped heads B.lists
        → Runs B.lists heads old (F.state folder.new) b plans trace budget result }
    ensures handles { F.handles folder.new ≡ F.handles folder.old - (length stopped.end.readers.items + length stopped.end.writers.items + length
        (option_to_list drain)) }
    ensures all { (old : FolderState) (b : plan.Blueprint) (trace : Option (List ℕ)) (budget : ℕ) (ss : List F.Inp) (ds : List F.Out) → CanRun b
        → IsApart b trace
        → Opens old (F.state folder.old) (inputs_of_nodes b.nodes.items) (outputs_of_nodes b.nodes.items) (option_to_list trace) (map F.Inp.state ss)
        (map F.Out.state ds) → OpensAs (F.state folder.old) trace (option_map F.Out.state drain)
        → RunLeaves L H B F.Inp.state F.Out.state B.lists b ss ds budget stopped → HasAsMany ss ds stopped.end }
    ensures same { (result.used ≡ stopped.used) × (result.at_rest ≡ stopped.at_rest) × (result.ran ≡ stopped.ran) }
{
    every_wire_agrees::<F::Inp, F::Out, L, H, B>();
    customs_blame_themselves::<F::Inp, F::Out, L, H, B>();
    every_sink_agrees::<F::Inp, F::Out, L, H, B>();
    every_sink_counts_its_lines::<F::Inp, F::Out, L, H, B>();
    every_sink_writes::<F::Inp, F::Out, L, H, B>();
    every_source_reads_little_ahead::<F::Inp, F::Out, L, H, B>();
    every_picture_is_lawful::<F::Inp, F::Out, L, H, B>();
    a_picture_without_events_rests::<F::Inp, F::Out, L, H, B>();
    every_move_fits::<F::Inp, F::Out, L, H, B>();
    every_node_begins_its_plan::<F::Inp, F::Out, L, H, B>();
    every_misfit_has_its_cause::<F::Inp, F::Out, L, H, B>();
    every_plan_is_served::<F::Inp, F::Out, L, H, B>();
    polytrees_end();
    fit_blueprints_are_whole();
    fit_blueprints_pass_the_rules();
    every_wire_carries_its_type::<F::Inp, F::Out, L, H, B>();
    every_node_gives_of_what_came::<F::Inp, F::Out, L, H, B>();
    parts_hold_their_files::<F::Inp, F::Out, L, H, B>();
    let Stopped {
        end,
        wires,
        used,
        at_rest,
        ran,
    } = stopped;
    let (drain, trace_failed) = write_trace(drain, choosers, &end.picks, room);
    close_all(folder, end.readers, end.writers);
    close_trace(folder, drain);
    RunResult {
        sinks: end.sinks,
        picks: end.picks,
        misfit: end.misfit,
        wires,
        used,
        at_rest,
        trace_failed,
        ran,
    }
}

/// Closes the files of the nodes of a run in which memory was wanting.
fn close_broken<F: Folder>(folder: &mut F, end: IslandEnd<F::Inp, F::Out>)
    ensures closes { ClosesAll (F.state folder.old) (F.state folder.new) (map F.Inp.state end.readers.items) (map F.Out.state end.writers.items) }
    ensures handles { F.handles folder.new ≡ F.handles folder.old - (length end.readers.items + length end.writers.items) }
{
    let (readers, writers) = (end.readers, end.writers);
    close_all(folder, readers, writers);
}

/// Closes what a run had opened in which memory was wanting. Its trace is not written.
fn give_up<F: Folder, L: Logic, H: Handlers, B: PlugBook>(
    folder: &mut F,
    end: IslandEnd<F::Inp, F::Out>,
    drain: Option<F::Out>,
)
    ensures wants { (old : FolderState) (b : plan.Blueprint) (trace : Option (List ℕ)) (ss : List F.Inp) (ds : List F.Out) → CanRun b → IsApart b trace
        → Opens old (F.state folder.old) (inputs_of_nodes b.nodes.items) (outputs_of_nodes b.nodes.items) (option_to_list trace) (map F.Inp.state ss)
        (map F.Out.state ds) → OpensAs (F.state folder.old) trace (option_map F.Out.state drain)
        → LeavesBroken L H B F.Inp.state F.Out.state B.lists b ss ds end → WantsWithin B.lists old (F.state folder.new) b trace }
    ensures handles { F.handles folder.new ≡ F.handles folder.old - (length end.readers.items + length end.writers.items + length (option_to_list drain)) }
    ensures all { (old : FolderState) (b : plan.Blueprint) (trace : Option (List ℕ)) (ss : List F.Inp) (ds : List F.Out) → CanRun b → IsApart b trace
        → Opens old (F.state folder.old) (inputs_of_nodes b.nodes.items) (outputs_of_nodes b.nodes.items) (option_to_list trace) (map F.Inp.state ss)
        (map F.Out.state ds) → OpensAs (F.state folder.old) trace (option_map F.Out.state drain)
        → LeavesBroken L H B F.Inp.state F.Out.state B.lists b ss ds end → HasAsMany ss ds end }
{
    every_sink_agrees::<F::Inp, F::Out, L, H, B>();
    every_sink_writes::<F::Inp, F::Out, L, H, B>();
    every_source_reads_little_ahead::<F::Inp, F::Out, L, H, B>();
    fit_blueprints_are_whole();
    parts_hold_their_files::<F::Inp, F::Out, L, H, B>();
    close_broken(folder, end);
    close_trace(folder, drain);
}

/// Closes what was opened for islands of which one did not start.
fn close_unmade<F: Folder>(folder: &mut F, end: IslandEnd<F::Inp, F::Out>, drain: Option<F::Out>)
    ensures closes { ClosesAll (F.state folder.old) (F.state folder.new) (map F.Inp.state end.readers.items)
        (map F.Out.state end.writers.items ++ option_to_list (option_map F.Out.state drain)) }
    ensures handles { F.handles folder.new ≡ F.handles folder.old - (length end.readers.items + length end.writers.items + length (option_to_list drain)) }
{
    close_broken(folder, end);
    close_trace(folder, drain);
}

// Choice: docs/DECISIONS.md#as-many-handles
/// Opens the files of a blueprint, its inputs in order and then its outputs in order, and behind them the file of its trace where one is
/// wanted; lets so many workers, 1 to 64, run its islands by at most `budget` units, where each stage that chooses follows its moves of
/// `plans`, if there are some; writes the trace, which takes no memory, and closes the files, also where memory is wanting. The trace is
/// then left empty. But for what its nodes want as they start and run all memory is taken before the first opening. It leaves as many
/// open handles as there were.
pub fn run<
    R: Threads + Wait + Sync,
    F: Folder,
    L: Logic + Send,
    H: Handlers + Send,
    B: PlugBook + Send,
>(
    rt: &R,
    alloc: Global,
    folder: &mut F,
    b: Blueprint,
    trace: Option<Line>,
    workers: u32,
    budget: u32,
    plugs: Vec<Plug<L>>,
    customs: Vec<Custom<H>>,
    plans: Vec<Option<Vec<u32>>>,
) -> Result<RunResult, OpenEnd>
    requires runs { CanRun b }
    requires has { HasGuests (handed_heads plugs.items customs.items) b.wires.items b.nodes.items }
    requires listed { All (GivesAsListed L.gives B.lists) plugs.items }
    requires customs { All (TellsAsListed H.tells B.lists) customs.items }
    requires follow { PlansFit (map (λ n. n.kind) b.nodes.items) (map moves_of plans.items) }
    requires apart { IsApart b trace }
    requires workers { (0 < workers) × (workers ≤ 64) }
    requires budget { budget ≤ MOST_COUNT }
    ensures ran { IfOk result (λ ran. Runs B.lists (handed_heads plugs.items customs.items) (F.state folder.old) (F.state folder.new) b
        (map moves_of plans.items) trace budget ran) }
    ensures receipt { IfOk result (λ ran. IsReceipt b workers ran.used ran.at_rest ran.ran) }
    ensures no_input { (n : List ℕ) → result ≡ Err (OpenEnd.MissingInput n) → MissesInput (F.state folder.old) (F.state folder.new)
        (inputs_of_nodes b.nodes.items) n }
    ensures no_output { (n : List ℕ) → result ≡ Err (OpenEnd.MissingOutput n) → RefusesOutput (F.state folder.old) (F.state folder.new)
        (inputs_of_nodes b.nodes.items) (written_files b trace) n }
    ensures no_memory { result ≡ Err OpenEnd.NoMemory → Wants B.lists (F.state folder.old) (F.state folder.new) b trace }
    ensures handles { F.handles folder.new ≡ F.handles folder.old }
{
    let wanted = trace.is_some();
    let Ok(named) = names_of(alloc, &b, trace) else {
        return Err(OpenEnd::NoMemory);
    };
    let RunNames {
        inputs,
        outputs,
        choosers,
        room,
    } = named;
    let Ok(prepared) = prepare::<F::Inp, F::Out, L, H, B>(alloc, b, plugs, customs, plans) else {
        return Err(OpenEnd::NoMemory);
    };
    let Opened {
        inputs,
        mut outputs,
    } = match open_all(alloc, folder, inputs, outputs) {
        Ok(opened) => opened,
        Err(end) => return Err(end),
    };
    let drain = take_last(&mut outputs, wanted);
    match island_runs::run::run(rt, alloc, prepared, inputs, outputs, workers, budget) {
        Ok(stopped) => Ok(close::<F, L, H, B>(folder, stopped, drain, &choosers, room)),
        Err(Broken::Unmade(end)) => {
            close_unmade(folder, end, drain);
            Err(OpenEnd::NoMemory)
        }
        Err(Broken::Within(end)) => {
            give_up::<F, L, H, B>(folder, end, drain);
            Err(OpenEnd::NoMemory)
        }
    }
}
