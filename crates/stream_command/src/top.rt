// The run of a file, and the report of a call.
ghost use Rattle.std.specs.Prelude.{◌≡◌, ◌≢◌, ◌<◌, ◌≤◌, ◌⊎◌, ℕ, List, [], Some, None, IsTrue};
ghost use Rattle.std.specs.List.{All};
ghost use Rattle.std.specs.Option.{option_copied};
ghost use Rattle.elem_core.specs.declared.count.TheConstants.{MOST_COUNT};
ghost use Rattle.stream_io.specs.Counts.{GrewAtMost};
ghost use Rattle.stream_command.specs.RunCalls.{answer_of};
ghost use Rattle.stream_command.specs.Outcome.{Blank, Told, Causes, SinksOf, IsValid, RoseNowhere, RanWithoutFault, plan_limit};
ghost use Rattle.stream_io.specs.Text.{text_limit};
ghost use Rattle.stream_command.specs.RunReceipts.{Receipts, RanFile};
ghost use Rattle.run_report.specs.Report.{detail_of, report_of, code_of};
ghost use Rattle.stream_io.specs.Putting.{Puts, PutsPart};
ghost use Rattle.materializer.specs.HandedPlugs.{GivesAsListed};
ghost use Rattle.materializer.specs.HandedCustoms.{TellsAsListed};
ghost use Rattle.stream_command.specs.Asked.{plugged_by};

use crate::answer::{self, CallEnd};
use elem_core::line::Line;
use graph_stage::custom::Custom;
use graph_stage::handlers::Handlers;
use plan_reader::laws::a_text_has_one_reading;
use plug_logic::book::PlugBook;
use plug_logic::logic::Logic;
use plug_logic::plug::Plug;
use run_blueprint::Ran;
use run_report::outcome::{SinkEnd, Status};
use run_report::report::{code, put_report};
use std::alloc::Global;
use std::sync::Wait;
use std::thread::Threads;
use stream_io::outside::{Drain, Failed, Folder};
use stream_model::outcome::{PickList, Picture};

/// What a call comes to: the exit code, the status, and where a blueprint was run its sinks, what its wires carried, the moves of
/// each stage whose kind chooses, in order of nodes, how many units were used, and the receipt of the run, which names its workers and
/// its islands.
#[derive(Drop)]
pub struct RunEnd {
    pub code: u8,
    pub status: Status,
    pub sinks: Vec<SinkEnd>,
    pub picture: Picture,
    pub picks: Vec<PickList>,
    pub used: u64,
    pub ran: Option<Ran>,
}

/// Reads the blueprint of the file of that name, lets so many workers, 1 to 64, run it by at most so many units, 4,000,000,000 at most, and writes the report to the console. Where a file for the trace is given, it is opened behind those of the sinks, and what the stages chose is written into it after the run, a line for each stage whose kind chooses, in order of nodes. No source and no sink may name it, nor the blueprint's file. Where a file of moves is given, it is read once the blueprint was checked, no source and no sink may name it, and each stage that chooses makes the moves of its line.
pub fn run_file<
    R: Threads + Wait + Sync,
    F: Folder,
    C: Drain,
    L: Logic + Send,
    H: Handlers + Send,
    B: PlugBook + Send,
>(
    rt: &R,
    alloc: Global,
    file: &Line,
    trace: Option<&Line>,
    replay: Option<&Line>,
    workers: u32,
    turns: u32,
    folder: &mut F,
    console: &mut C,
    plugs: Vec<Plug<L>>,
    customs: Vec<Custom<H>>,
) -> RunEnd
    requires listed { All (GivesAsListed L.gives B.lists) plugs.items }
    requires customs { All (TellsAsListed H.tells B.lists) customs.items }
    requires workers { (0 < workers) × (workers ≤ 64) }
    requires turns { turns ≤ MOST_COUNT }

    // What is answered and left where the folder told its files before. What files hold then is said where it still tells them.
    ensures tells { IsTrue (F.state folder.new).tells → IsTrue (F.state folder.old).tells }
    ensures told { IsTrue (F.state folder.old).tells → Told (plugged_by B.lists plugs.items customs.items) (answer_of result)
        (record { file = file.now; trace = option_copied trace.entry; replay = option_copied replay.entry; turns = turns }) (F.state folder.old)
        (F.state folder.new) }

    // A valid text and inputs and no fault give a run, or memory was wanting.
    ensures complete { IsTrue (F.state folder.old).tells → IsValid (plugged_by B.lists plugs.items customs.items) file.now (option_copied trace.entry)
        (option_copied replay.entry) (F.state folder.old)
        → RoseNowhere (F.state folder.old) (F.state folder.new) → RanWithoutFault result.status }

    // Which counts rose, and what the units and the picture of the run are, whether it tells them or not.
    ensures causes { Causes (plugged_by B.lists plugs.items customs.items) result.status (answer_of result) file.now (option_copied trace.entry)
        (option_copied replay.entry) turns (F.state folder.old)
        (F.state folder.new) }
    ensures sinks { SinksOf result.status (answer_of result) (option_copied trace.entry) }

    // After a run, and only there, there is a receipt, of so many workers and as many islands as the blueprint of the file has.
    ensures ran { Receipts result.status workers result.used result.ran }
    ensures islands { IsTrue (F.state folder.old).tells → RanFile (plugged_by B.lists plugs.items customs.items) (F.state folder.old) file.now
        (option_copied trace.entry) (option_copied replay.entry) result.ran }

    // A file is no want of words.
    ensures no_usage { result.status ≡ Status.Usage → ⊥ }

    // Reading the blueprint's file stops after so many bytes, and so does reading the file of moves.
    ensures reads { option_copied replay.entry ≢ Some file.now → GrewAtMost ((F.state folder.old).read file.now) text_limit
        ((F.state folder.new).read file.now) }
    ensures reads_moves { (t : List ℕ) → option_copied replay.entry ≡ Some t → t ≢ file.now
        → GrewAtMost ((F.state folder.old).read t) plan_limit ((F.state folder.new).read t) }

    // Every file that it opened is closed, whatever is answered.
    ensures handles { F.handles folder.new ≡ F.handles folder.old }

    // The console has the report behind what it held, or a first part of it where a write to it failed.
    ensures console { (Puts (C.state console.old) (C.state console.new) (report_of (answer_of result)) × (result.code ≡ code_of result.status))
        ⊎ (PutsPart (C.state console.old) (C.state console.new) (report_of (answer_of result)) × (result.code ≡ 8)) }
{
    a_text_has_one_reading();
    let CallEnd {
        status,
        detail,
        sinks,
        picture,
        picks,
        used,
        ran,
    } = answer::run_file::<R, F, L, H, B>(
        rt, alloc, folder, file, trace, replay, workers, turns, plugs, customs,
    );
    let code = match put_report(console, &status, &detail, &sinks, &picture.wires, used) {
        Ok(()) => code(&status),
        Err(Failed) => 8,
    };
    RunEnd {
        code,
        status,
        sinks,
        picture,
        picks,
        used,
        ran,
    }
}

/// Ends a call before a file was run, with a status of which nothing more is told, and writes the report to the console.
pub fn end_before_run<C: Drain>(alloc: Global, status: Status, console: &mut C) -> RunEnd
    requires { detail_of status ≡ [] }
    ensures status { result.status ≡ status }
    ensures blank { Blank (answer_of result) }
    ensures ran { result.ran ≡ None }
    ensures console { (Puts (C.state console.old) (C.state console.new) (report_of (answer_of result)) × (result.code ≡ code_of result.status))
        ⊎ (PutsPart (C.state console.old) (C.state console.new) (report_of (answer_of result)) × (result.code ≡ 8)) }
{
    let code = match put_report(console, &status, &[], &[], &[], 0) {
        Ok(()) => code(&status),
        Err(Failed) => 8,
    };
    RunEnd {
        code,
        status,
        sinks: Vec::new(alloc),
        picture: Picture {
            wires: Vec::new(alloc),
        },
        picks: Vec::new(alloc),
        used: 0,
        ran: None,
    }
}
