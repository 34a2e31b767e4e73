// The whole call.
ghost use Rattle.std.specs.Prelude.{◌≡◌, [], ◌<◌, ◌≤◌, ◌⊎◌, ◌↔◌, ◌≢◌, List, ℕ, Some, None, IsTrue};
ghost use Rattle.std.specs.List.{All};
ghost use Rattle.elem_core.specs.declared.count.TheConstants.{MOST_COUNT};
ghost use Rattle.stream_io.specs.Counts.{GrewAtMost};
ghost use Rattle.run_report.specs.Asking.{Asked, asked_of};
ghost use Rattle.run_report.specs.Commands.{asked};
ghost use Rattle.stream_command.specs.RunCalls.{answer_of};
ghost use Rattle.stream_command.specs.Outcome.{RoseNowhere, RanWithoutFault};
ghost use Rattle.stream_io.specs.Text.{text_limit};
ghost use Rattle.run_report.specs.Report.{report_of, code_of};
ghost use Rattle.stream_io.specs.Putting.{Puts, PutsPart};
ghost use Rattle.stream_command.specs.Answers.{AnswersCommand, AnswersTo, RunsFile, IsValidFor};
ghost use Rattle.stream_command.specs.Receipts.{ReceiptsOf, ReceiptsFor, IslandsOf, IslandsFor};
ghost use Rattle.stream_command.specs.RunReceipts.{Receipts, RanFile};
ghost use Rattle.plug_logic.specs.Gives.{listed};
ghost use Rattle.stage_linear.specs.Plugs.{Is};
ghost use Rattle.graph_stage.specs.Told.{HandedAs};
ghost use Rattle.materializer.specs.HandedPlugs.{GivesAsListed};
ghost use Rattle.materializer.specs.HandedCustoms.{TellsAsListed};
ghost use Rattle.stream_command.specs.Asked.{plugged_by};

use crate::top::{RunEnd, end_before_run, run_file};
use elem_core::line::Line;
use graph_stage::custom::Custom;
use graph_stage::handlers::Handlers;
use plug_logic::book::PlugBook;
use plug_logic::logic::Logic;
use plug_logic::plug::Plug;
use run_report::command::{Command, WordsEnd, read_words};
use run_report::generate::{GenerateEnd, generate};
use run_report::outcome::Status;
use std::alloc::Global;
use std::sync::Wait;
use std::thread::Threads;
use stream_io::outside::{Drain, Folder};

// Choice: docs/DECISIONS.md#file-is-copied-first
/// Reads the command's words, generates the files that they ask for, reads the blueprint of the file that they name and lets as many workers run it as they say, and writes the report to the console.
pub fn run_streams<R: Threads + Wait + Sync, F: Folder, C: Drain, B: PlugBook + Send>(
    rt: &R,
    alloc: Global,
    words: &[Line],
    folder: &mut F,
    console: &mut C,
    plugs: Vec<Plug>,
    customs: Vec<Custom>,
) -> RunEnd
    requires listed { All (λ p. Is (gives p.logic) [] (listed B.lists p.head.name)) plugs.items }
    // A custom stage of which the book has a list tells that, of the type of its one output; of the others nothing is asked.
    requires customs { All (λ c. HandedAs (B.lists.tells c.head.name) B.lists c.head.name c.head.inputs.items c.head.outputs.items
        (tells c.stage)) customs.items }
    // Words that are no command, and no others, have this answer, or memory was wanting.
    ensures usage { result.status ≢ Status.NoMemory → (result.status ≡ Status.Usage ↔ asked_of words.now ≡ None) }

    // What is answered and left, by what the words ask for.
    ensures answers { AnswersCommand (plugged_by B.lists plugs.items customs.items) (asked_of words.now) (answer_of result) (F.state folder.old)
        (F.state folder.new) }

    // A valid blueprint and no fault give a run, or memory was wanting.
    ensures complete { (c : Asked) → asked_of words.now ≡ Some c
        → IsValidFor (plugged_by B.lists plugs.items customs.items) c.generated c.file c.trace c.replay
        (F.state folder.old)
        (F.state folder.new) → RoseNowhere (F.state folder.old) (F.state folder.new) → RanWithoutFault result.status }

    // After a run, and only there, there is a receipt, of the command's workers and as many islands as the file's blueprint has.
    ensures ran { ReceiptsOf (asked_of words.now) (answer_of result) result.ran }
    ensures islands { IslandsOf (plugged_by B.lists plugs.items customs.items) (asked_of words.now) result.ran (F.state folder.old)
        (F.state folder.new) }

    // Reading the blueprint's file stops after so many bytes.
    ensures reads { (c : Asked) → asked_of words.now ≡ Some c → GrewAtMost ((F.state folder.old).read c.file) text_limit ((F.state folder.new).read c.file) }

    // The folder never begins to tell its files.
    ensures tells { IsTrue (F.state folder.new).tells → IsTrue (F.state folder.old).tells }

    // Every file that it opened is closed, whatever is answered.
    ensures handles { F.handles folder.new ≡ F.handles folder.old }

    // The console has the report behind what it held, or a first part of it where a write to it failed.
    ensures console { (Puts (C.state console.old) (C.state console.new) (report_of (answer_of result)) × (result.code ≡ code_of result.status))
        ⊎ (PutsPart (C.state console.old) (C.state console.new) (report_of (answer_of result)) × (result.code ≡ 8)) }
{
    run_words::<R, F, C, Box<dyn Logic + Send>, Box<dyn Handlers + Send>, B>(
        rt, alloc, words, folder, console, plugs, customs,
    )
}

/// Reads the command's words, generates the files that they ask for, reads the blueprint of the file that they name and lets as many workers run it as they say, and writes the report to the console.
#[tactic(auto, using(crate::proofs::Answering::told_before, crate::proofs::Answering::reads_little, crate::proofs::Answering::completes, crate::proofs::Answering::usage_of, crate::proofs::Answering::gave_up, crate::proofs::Answering::refused, crate::proofs::Answering::as_asked))]
fn run_words<
    R: Threads + Wait + Sync,
    F: Folder,
    C: Drain,
    L: Logic + Send,
    H: Handlers + Send,
    B: PlugBook + Send,
>(
    rt: &R,
    alloc: Global,
    words: &[Line],
    folder: &mut F,
    console: &mut C,
    plugs: Vec<Plug<L>>,
    customs: Vec<Custom<H>>,
) -> RunEnd
    requires listed { All (GivesAsListed L.gives B.lists) plugs.items }
    requires customs { All (TellsAsListed H.tells B.lists) customs.items }
    // Words that are no command, and no others, have this answer, or memory was wanting.
    ensures usage { result.status ≢ Status.NoMemory → (result.status ≡ Status.Usage ↔ asked_of words.now ≡ None) }

    // What is answered and left, by what the words ask for.
    ensures answers { AnswersCommand (plugged_by B.lists plugs.items customs.items) (asked_of words.now) (answer_of result) (F.state folder.old)
        (F.state folder.new) }

    // A valid blueprint and no fault give a run, or memory was wanting.
    ensures complete { (c : Asked) → asked_of words.now ≡ Some c
        → IsValidFor (plugged_by B.lists plugs.items customs.items) c.generated c.file c.trace c.replay
        (F.state folder.old)
        (F.state folder.new) → RoseNowhere (F.state folder.old) (F.state folder.new) → RanWithoutFault result.status }

    // After a run, and only there, there is a receipt, of the command's workers and as many islands as the file's blueprint has.
    ensures ran { ReceiptsOf (asked_of words.now) (answer_of result) result.ran }
    ensures islands { IslandsOf (plugged_by B.lists plugs.items customs.items) (asked_of words.now) result.ran (F.state folder.old)
        (F.state folder.new) }

    // Reading the blueprint's file stops after so many bytes.
    ensures reads { (c : Asked) → asked_of words.now ≡ Some c → GrewAtMost ((F.state folder.old).read c.file) text_limit ((F.state folder.new).read c.file) }

    // The folder never begins to tell its files.
    ensures tells { IsTrue (F.state folder.new).tells → IsTrue (F.state folder.old).tells }

    // Every file that it opened is closed, whatever is answered.
    ensures handles { F.handles folder.new ≡ F.handles folder.old }

    // The console has the report behind what it held, or a first part of it where a write to it failed.
    ensures console { (Puts (C.state console.old) (C.state console.new) (report_of (answer_of result)) × (result.code ≡ code_of result.status))
        ⊎ (PutsPart (C.state console.old) (C.state console.new) (report_of (answer_of result)) × (result.code ≡ 8)) }
{
    match read_words(alloc, words) {
        Ok(command) => run_command::<R, F, C, L, H, B>(
            rt, alloc, &command, folder, console, plugs, customs,
        ),
        Err(WordsEnd::Usage) => end_before_run(alloc, Status::Usage, console),
        Err(WordsEnd::NoMemory) => end_before_run(alloc, Status::NoMemory, console),
    }
}

/// Does what a command asks for.
#[tactic(auto, using(crate::proofs::Answering::file_was_run, crate::proofs::Answering::was_generated))]
fn run_command<
    R: Threads + Wait + Sync,
    F: Folder,
    C: Drain,
    L: Logic + Send,
    H: Handlers + Send,
    B: PlugBook + Send,
>(
    rt: &R,
    alloc: Global,
    command: &Command,
    folder: &mut F,
    console: &mut C,
    plugs: Vec<Plug<L>>,
    customs: Vec<Custom<H>>,
) -> RunEnd
    requires listed { All (GivesAsListed L.gives B.lists) plugs.items }
    requires customs { All (TellsAsListed H.tells B.lists) customs.items }
    requires workers { (0 < command.now.workers) × (command.now.workers ≤ 64) }
    requires turns { command.now.turns ≤ MOST_COUNT }
    ensures answers { AnswersCommand (plugged_by B.lists plugs.items customs.items) (Some (asked command.now)) (answer_of result) (F.state folder.old)
        (F.state folder.new) }
    ensures ran { ReceiptsOf (Some (asked command.now)) (answer_of result) result.ran }
    ensures islands { IslandsOf (plugged_by B.lists plugs.items customs.items) (Some (asked command.now)) result.ran (F.state folder.old)
        (F.state folder.new) }
    ensures handles { F.handles folder.new ≡ F.handles folder.old }
    ensures console { (Puts (C.state console.old) (C.state console.new) (report_of (answer_of result)) × (result.code ≡ code_of result.status))
        ⊎ (PutsPart (C.state console.old) (C.state console.new) (report_of (answer_of result)) × (result.code ≡ 8)) }
{
    match command.generated {
        Some(n) => run_generated::<R, F, C, L, H, B>(
            rt, alloc, n, command, folder, console, plugs, customs,
        ),
        None => run_command_file::<R, F, C, L, H, B>(
            rt, alloc, command, folder, console, plugs, customs,
        ),
    }
}

// Choice: docs/DECISIONS.md#file-run-is-a-call
/// Runs the file of a command.
fn run_command_file<
    R: Threads + Wait + Sync,
    F: Folder,
    C: Drain,
    L: Logic + Send,
    H: Handlers + Send,
    B: PlugBook + Send,
>(
    rt: &R,
    alloc: Global,
    command: &Command,
    folder: &mut F,
    console: &mut C,
    plugs: Vec<Plug<L>>,
    customs: Vec<Custom<H>>,
) -> RunEnd
    requires listed { All (GivesAsListed L.gives B.lists) plugs.items }
    requires customs { All (TellsAsListed H.tells B.lists) customs.items }
    requires workers { (0 < command.now.workers) × (command.now.workers ≤ 64) }
    requires turns { command.now.turns ≤ MOST_COUNT }
    ensures runs { RunsFile (plugged_by B.lists plugs.items customs.items) command.now.file command.now.trace command.now.replay command.now.turns
        (answer_of result)
        (F.state folder.old)
        (F.state folder.new) }
    ensures ran { Receipts result.status command.now.workers result.used result.ran }
    ensures islands { IsTrue (F.state folder.old).tells → RanFile (plugged_by B.lists plugs.items customs.items)
        (F.state folder.old) command.now.file command.now.trace command.now.replay result.ran }
    ensures handles { F.handles folder.new ≡ F.handles folder.old }
    ensures console { (Puts (C.state console.old) (C.state console.new) (report_of (answer_of result)) × (result.code ≡ code_of result.status))
        ⊎ (PutsPart (C.state console.old) (C.state console.new) (report_of (answer_of result)) × (result.code ≡ 8)) }
{
    run_file::<R, F, C, L, H, B>(
        rt,
        alloc,
        &command.file,
        command.trace.as_ref(),
        command.replay.as_ref(),
        command.workers,
        command.turns,
        folder,
        console,
        plugs,
        customs,
    )
}

// Choice: docs/DECISIONS.md#folder-in-between
/// Generates so many lines and their blueprint, and runs it.
#[tactic(auto, using(crate::proofs::Answering::ended, crate::proofs::Answering::ran))]
fn run_generated<
    R: Threads + Wait + Sync,
    F: Folder,
    C: Drain,
    L: Logic + Send,
    H: Handlers + Send,
    B: PlugBook + Send,
>(
    rt: &R,
    alloc: Global,
    n: u32,
    command: &Command,
    folder: &mut F,
    console: &mut C,
    plugs: Vec<Plug<L>>,
    customs: Vec<Custom<H>>,
) -> RunEnd
    requires listed { All (GivesAsListed L.gives B.lists) plugs.items }
    requires customs { All (TellsAsListed H.tells B.lists) customs.items }
    requires workers { (0 < command.now.workers) × (command.now.workers ≤ 64) }
    requires turns { command.now.turns ≤ MOST_COUNT }
    ensures answers { AnswersTo (plugged_by B.lists plugs.items customs.items) (Some n) (asked command.now) (answer_of result) (F.state folder.old)
        (F.state folder.new) }
    ensures ran { ReceiptsFor (Some n) (answer_of result) command.now.workers result.ran }
    ensures islands { IslandsFor (plugged_by B.lists plugs.items customs.items)
        (Some n) command.now.file command.now.trace command.now.replay result.ran (F.state folder.old)
        (F.state folder.new) }
    ensures handles { F.handles folder.new ≡ F.handles folder.old }
    ensures console { (Puts (C.state console.old) (C.state console.new) (report_of (answer_of result)) × (result.code ≡ code_of result.status))
        ⊎ (PutsPart (C.state console.old) (C.state console.new) (report_of (answer_of result)) × (result.code ≡ 8)) }
{
    match generate(alloc, folder, n) {
        Ok(()) => run_command_file::<R, F, C, L, H, B>(
            rt, alloc, command, folder, console, plugs, customs,
        ),
        Err(GenerateEnd::Missing(name)) => end_before_run(alloc, Status::Missing(name), console),
        Err(GenerateEnd::WriteFault) => end_before_run(alloc, Status::WriteFault, console),
        Err(GenerateEnd::NoMemory) => end_before_run(alloc, Status::NoMemory, console),
    }
}
