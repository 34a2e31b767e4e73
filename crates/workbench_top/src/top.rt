// A call of the workbench.
ghost use Rattle.std.specs.Prelude.{◌≡◌, ◌⊎◌, IfErr, IfOk, None};
ghost use Rattle.stream_io.specs.State.{SameFiles};
ghost use Rattle.stream_io.specs.Text.{ReadsFile};
ghost use Rattle.workbench_top.specs.Task.{Asks, TaskEnds, row_in, files_in};
ghost use Rattle.workbench_top.specs.Answer.{AnswersText, DrawsInput};
ghost use Rattle.workbench_top.specs.Files.{ChecksRead};
ghost use Rattle.workbench_top.specs.Call.{AnswersTask, AnswersNothing, AnswersWords, IsAnswerPut, IsMissing, IsUnread, Works, missing_text};

use crate::answer::{Answer, Ending, code};
use crate::files::check_files;
use crate::report::{ReportEnd, read_report};
use crate::rows::answer_row;
use crate::task::{Task, TaskEnd, TaskKind, read_files, read_row, read_words};
use crate::texts::{check_text, count_text, draw_text, explain_text, format_text};
use elem_core::line::Line;
use elem_core::why::NoMemory;
use std::alloc::Global;
use stream_io::outside::{Drain, Folder, Source};
use stream_io::put::put_all;
use stream_io::text::{ReadEnd, read_file};

/// The answer that tells these words.
fn telling(alloc: Global, ending: Ending, words: &[u8]) -> Answer
    ensures { (result.ending ≡ ending) ⊎ (result.ending ≡ Ending.NoMemory) }
{
    match Vec::from_slice(alloc, words) {
        Ok(told) => Answer::telling(alloc, ending, told),
        Err(_) => Answer::without_memory(alloc),
    }
}

/// What is told of a file that is not there.
fn missing_text(alloc: Global, file: &Line) -> Result<Vec<u8>, NoMemory>
    ensures { IfOk result (λ told. told.items ≡ missing_text file.now) }
{
    let mut told = Vec::new(alloc);
    told.extend_from_slice(b"the blueprint's file ")?;
    told.extend_from_slice(file.bytes())?;
    told.extend_from_slice(b" is not there, or was refused\n")?;
    Ok(told)
}

/// The answer where the blueprint's file is not there.
fn missing(alloc: Global, file: &Line) -> Answer
    ensures { IsMissing file.now result ⊎ (result.ending ≡ Ending.NoMemory) }
{
    match missing_text(alloc, file) {
        Ok(told) => Answer::telling(alloc, Ending::Missing, told),
        Err(_) => Answer::without_memory(alloc),
    }
}

/// The answer where the report was not read.
fn unread(alloc: Global, end: &ReportEnd) -> Answer
    ensures { (result.ending ≡ Ending.ReadFault) ⊎ (result.ending ≡ Ending.NoMemory) }
{
    match end {
        ReportEnd::Fault => telling(alloc, Ending::ReadFault, b"the report could not be read\n"),
        ReportEnd::NoMemory => Answer::without_memory(alloc),
    }
}

/// The answer to a report that is read from the input.
fn explain_input<S: Source>(alloc: Global, text: &[u8], file: &Line, input: &mut S) -> Answer {
    match read_report(alloc, input) {
        Ok(report) => explain_text(alloc, text, file, &report),
        Err(end) => unread(alloc, &end),
    }
}

// Choice: docs/DECISIONS.md#report-of-a-drawing
/// The answer to `draw`, with what a report says that is read from the input. None is read where a read may wait.
#[tactic(auto, using(crate::proofs::Saying::draws_input))]
fn draw_input<S: Source>(alloc: Global, text: &[u8], file: &Line, input: &mut S) -> Answer
    ensures { DrawsInput text.now file.now result }
{
    if input.may_wait() {
        return draw_text(alloc, text, file, &[]);
    }
    match read_report(alloc, input) {
        Ok(report) => draw_text(alloc, text, file, &report),
        Err(end) => unread(alloc, &end),
    }
}

/// The answer to a task on the text of its file.
fn answer_text<S: Source>(alloc: Global, task: &Task, text: &[u8], input: &mut S) -> Answer
    ensures { AnswersText task.now.work text.now task.now.file task.now.counts.items result }
{
    match task.work {
        TaskKind::Check => check_text(alloc, text, &task.file),
        TaskKind::Format => format_text(alloc, text, &task.file),
        TaskKind::Draw => draw_input(alloc, text, &task.file, input),
        TaskKind::Explain => explain_input(alloc, text, &task.file, input),
        TaskKind::Turns => count_text(alloc, text, &task.file, &task.counts),
    }
}

/// The text of a blueprint's file, or the answer where it was not read.
fn read_blueprint<F: Folder>(alloc: Global, folder: &mut F, file: &Line) -> Result<Vec<u8>, Answer>
    ensures ok { IfOk result (λ text. ReadsFile (F.state folder.old) (F.state folder.new) file.now text.items) }
    ensures unread { IfErr result (IsUnread file.now (F.state folder.old) (F.state folder.new)) }
    ensures files { SameFiles (F.state folder.old) (F.state folder.new) }
{
    match read_file(alloc, folder, file) {
        Ok(text) => Ok(text),
        Err(ReadEnd::Missing) => Err(missing(alloc, file)),
        Err(ReadEnd::Fault) => Err(telling(
            alloc,
            Ending::ReadFault,
            b"the blueprint's file could not be read\n",
        )),
        Err(ReadEnd::NoMemory) => Err(Answer::without_memory(alloc)),
    }
}

/// The answer to a task.
#[tactic(auto, using(crate::proofs::Answering::unread))]
fn answer_task<S: Source, F: Folder>(
    alloc: Global,
    task: &Task,
    input: &mut S,
    folder: &mut F,
) -> Answer
    ensures answers { AnswersTask task.now (F.state folder.old) (F.state folder.new) result }
    ensures files { SameFiles (F.state folder.old) (F.state folder.new) }
{
    match read_blueprint(alloc, folder, &task.file) {
        Ok(text) => answer_text(alloc, task, &text, input),
        Err(answer) => answer,
    }
}

/// The answer where the words ask to check the blueprint of this file with the files that it names.
#[tactic(auto, using(crate::proofs::Answering::read_checked))]
fn answer_files<F: Folder>(alloc: Global, file: &Line, folder: &mut F) -> Answer
    ensures answers { IsUnread file.now (F.state folder.old) (F.state folder.new) result
        ⊎ ChecksRead file.now (F.state folder.old) (F.state folder.new) result }
    ensures files { SameFiles (F.state folder.old) (F.state folder.new) }
{
    match read_blueprint(alloc, folder, file) {
        Ok(text) => check_files(alloc, &text, file, folder),
        Err(answer) => answer,
    }
}

/// The answer to words that ask for nothing.
fn answer_end(alloc: Global, words: &[Line], end: TaskEnd) -> Answer
    requires row { row_in words.now ≡ None }
    requires files { files_in words.now ≡ None }
    requires end { TaskEnds words.now end }
    ensures { AnswersNothing words.now result ⊎ (result.ending ≡ Ending.NoMemory) }
{
    match end {
        TaskEnd::Help(text) => Answer::saying(alloc, text.into_bytes()),
        TaskEnd::Usage(text) => Answer::telling(alloc, Ending::Words, text.into_bytes()),
        TaskEnd::NoMemory => Answer::without_memory(alloc),
    }
}

/// The answer to words that ask for no row, and not for `check` with the option that looks for files.
fn answer_plain<S: Source, F: Folder>(
    alloc: Global,
    words: &[Line],
    commit: &str,
    input: &mut S,
    folder: &mut F,
) -> Answer
    requires row { row_in words.now ≡ None }
    requires files { files_in words.now ≡ None }
    ensures answers { AnswersWords words.now (F.state folder.old) (F.state folder.new) result }
    ensures files { SameFiles (F.state folder.old) (F.state folder.new) }
{
    match read_words(alloc, words, commit) {
        Ok(task) => answer_task(alloc, &task, input, folder),
        Err(end) => answer_end(alloc, words, end),
    }
}

/// The answer to words that ask for no row.
#[tactic(auto, using(crate::proofs::Answering::files_asked))]
fn answer_no_row<S: Source, F: Folder>(
    alloc: Global,
    words: &[Line],
    commit: &str,
    input: &mut S,
    folder: &mut F,
) -> Answer
    requires { row_in words.now ≡ None }
    ensures answers { AnswersWords words.now (F.state folder.old) (F.state folder.new) result }
    ensures files { SameFiles (F.state folder.old) (F.state folder.new) }
{
    match read_files(words) {
        Some(file) => answer_files(alloc, file, folder),
        None => answer_plain(alloc, words, commit, input, folder),
    }
}

/// The answer to words.
#[tactic(auto, using(crate::proofs::Answering::row_asked))]
fn answer_words<S: Source, F: Folder>(
    alloc: Global,
    words: &[Line],
    commit: &str,
    input: &mut S,
    folder: &mut F,
) -> Answer
    ensures answers { AnswersWords words.now (F.state folder.old) (F.state folder.new) result }
    ensures files { SameFiles (F.state folder.old) (F.state folder.new) }
{
    match read_row(words) {
        Some((source, parts)) => answer_row(alloc, source, parts),
        None => answer_no_row(alloc, words, commit, input, folder),
    }
}

/// Puts an answer, and gives the exit code: 8 where a write failed.
pub(crate) fn put_answer<C: Drain, D: Drain>(answer: &Answer, console: &mut C, faults: &mut D) -> u8
    ensures { IsAnswerPut answer.now (C.state console.old) (C.state console.new) (D.state faults.old) (D.state faults.new) result }
{
    if put_all(console, &answer.said).is_err() || put_all(faults, &answer.told).is_err() {
        return 8;
    }
    code(answer.ending)
}

/// A call of the workbench: `check FILE`, `check --files FILE`, `fmt FILE`, `draw FILE`, `explain FILE`, `turns FILE N..` or `row ROW`. It reads the blueprint
/// of that file, for `explain` a report from the input, for `draw` one too, unless that may wait or is empty, and for `row` nothing; it
/// changes no file. What was wanted goes to the console, faults go where faults are told. The version that
/// it gives has this commit. The exit code is 0, 1 for the words, 2 for the blueprint, and those of `streams` for the outside and for
/// memory: 6, 7, 8 and 9.
pub fn run_workbench<S: Source, F: Folder, C: Drain, D: Drain>(
    alloc: Global,
    words: &[Line],
    commit: &str,
    input: &mut S,
    folder: &mut F,
    console: &mut C,
    faults: &mut D,
) -> u8
    ensures { Works words.now (F.state folder.old) (F.state folder.new) (C.state console.old) (C.state console.new) (D.state faults.old)
        (D.state faults.new) result }
{
    let answer = answer_words(alloc, words, commit, input, folder);
    put_answer(&answer, console, faults)
}
