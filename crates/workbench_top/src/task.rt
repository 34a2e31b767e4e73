// What the words of the workbench ask for.
ghost use Rattle.std.specs.Prelude.{◌≡◌, false, true, map, IfOk, IfErr, IfSome, MatchOption, Ok, None, Some};
ghost use Rattle.blue_words.specs.Numbers.{read_count};
ghost use Rattle.workbench_top.specs.Task.{Asks, TaskEnds, row_named, row_in, named_file, files_behind, files_named, files_in, task_named, are_numbers, allows, is_rest, is_task};

use crate::word_texts::no_task;
use blue_words::lines::cut_at;
use blue_words::names::is_file_name;
use blue_words::places::count_place;
use blue_words::words::is_word;
use elem_core::line::Line;
use std::alloc::{AllocError, Global};

// Choice: docs/DECISIONS.md#words-by-grammar
/// What is to be done with a blueprint.
#[derive(Clone, Copy)]
pub enum TaskKind {
    /// Its first fault is told.
    Check,
    /// Its canonical text is printed.
    Format,
    /// Its graph is drawn.
    Draw,
    /// A report of its run is said in words.
    Explain,
    /// The units that suffice for its run are counted.
    Turns,
}

/// What the words ask for.
#[derive(Drop)]
pub struct Task {
    /// What is to be done.
    pub work: TaskKind,
    /// The blueprint's file.
    pub file: Line,
    /// How many elements the sources give, in their order; for `Turns` alone.
    pub counts: Vec<u64>,
}

/// Why the words ask for nothing.
#[derive(Drop)]
pub enum TaskEnd {
    /// They ask for help or for the version, which is this text.
    Help(String),
    /// They are no command; this text says so.
    Usage(String),
    /// Memory was refused.
    NoMemory,
}

impl From<AllocError> for TaskEnd {
    ghost use Rattle.std.specs.Prelude.{◌≡◌};
    ghost use Rattle.workbench_top.specs.declared.task.TaskEnd.TheVariants.{NoMemory};

    ghost from_gives = { λ _ e. e ≡ NoMemory };

    fn from(_error: AllocError) -> TaskEnd {
        TaskEnd::NoMemory
    }
}

/// The work of that name.
fn task_named(word: &[u8]) -> Option<TaskKind>
    ensures { result ≡ task_named word.now }
{
    if is_word(word, b"check") {
        Some(TaskKind::Check)
    } else if is_word(word, b"fmt") {
        Some(TaskKind::Format)
    } else if is_word(word, b"draw") {
        Some(TaskKind::Draw)
    } else if is_word(word, b"explain") {
        Some(TaskKind::Explain)
    } else if is_word(word, b"turns") {
        Some(TaskKind::Turns)
    } else {
        None
    }
}

/// The numbers of words, where each is one.
fn counts_of(alloc: Global, words: &[Line]) -> Result<Option<Vec<u64>>, AllocError>
    ensures numbers { IfOk result (λ counts. IfSome counts (λ counts. map (λ n. Ok n) counts.items ≡ map (read_count 64) words.now)) }
    ensures all { IfOk result (λ counts. IfSome counts (λ _. are_numbers words.now ≡ true)) }
    ensures other { result ≡ Ok None → are_numbers words.now ≡ false }
{
    let mut counts = Vec::new(alloc);
    for word in words {
        match count_place(word.bytes()) {
            Ok(n) => counts.push(n)?,
            Err(_) => return Ok(None),
        }
    }
    Ok(Some(counts))
}

/// Whether so many words may stand behind the file.
fn allows(work: TaskKind, rest: &[Line]) -> bool
    ensures { result ≡ allows work rest.now }
{
    match work {
        TaskKind::Turns => true,
        _ => rest.is_empty(),
    }
}

/// The task of that work and file, with the words that stand behind them.
fn task_of(
    alloc: Global,
    work: TaskKind,
    file: &Line,
    rest: &[Line],
) -> Result<Option<Task>, AllocError>
    ensures task { IfOk result (λ task. IfSome task (λ t. (t.work ≡ work) × (t.file ≡ file.now)
        × (map (λ n. Ok n) t.counts.items ≡ map (read_count 64) rest.now))) }
    ensures fits { IfOk result (λ task. IfSome task (λ _. is_rest work file.now rest.now ≡ true)) }
    ensures other { result ≡ Ok None → is_rest work file.now rest.now ≡ false }
{
    if !is_file_name(file.bytes()) || !allows(work, rest) {
        return Ok(None);
    }
    match counts_of(alloc, rest)? {
        Some(counts) => {
            let file = file.copy(alloc)?;
            Ok(Some(Task { work, file, counts }))
        }
        None => Ok(None),
    }
}

/// The task of the words, where they are in the grammar.
fn task_in(alloc: Global, words: &[Line]) -> Result<Option<Task>, AllocError>
    ensures task { IfOk result (λ task. IfSome task (Asks words.now)) }
    ensures other { result ≡ Ok None → is_task words.now ≡ false }
{
    match words {
        [name, file, rest @ ..] => match task_named(name.bytes()) {
            Some(work) => task_of(alloc, work, file, rest),
            None => Ok(None),
        },
        _ => Ok(None),
    }
}

/// The row behind the command's name, where that is `row`: what stands before its first `|`, and what stands behind it.
fn row_named<'a>(name: &Line, row: &'a Line) -> Option<(&'a [u8], &'a [u8])>
    ensures { MatchOption result (row_named name.now row.now ≡ None) (λ r. row_named name.now row.now ≡ Some (r.0.now, r.1.now)) }
{
    if is_word(name.bytes(), b"row") {
        cut_at(row.bytes(), b'|')
    } else {
        None
    }
}

/// The row whose blueprint the words ask for, by `row ROW`: what stands before its first `|`, and what stands behind it.
pub fn read_row(words: &[Line]) -> Option<(&[u8], &[u8])>
    ensures { MatchOption result (row_in words.now ≡ None) (λ r. row_in words.now ≡ Some (r.0.now, r.1.now)) }
{
    match words {
        [name, row] => row_named(name, row),
        _ => None,
    }
}

/// The word, if it is the name of a file.
fn named_file(word: &Line) -> Option<&Line>
    ensures { MatchOption result (named_file word.now ≡ None) (λ f. named_file word.now ≡ Some f.now) }
{
    if is_file_name(word.bytes()) {
        Some(word)
    } else {
        None
    }
}

/// The file behind or before the option that looks for files.
fn files_behind<'a>(first: &'a Line, second: &'a Line) -> Option<&'a Line>
    ensures { MatchOption result (files_behind first.now second.now ≡ None) (λ f. files_behind first.now second.now ≡ Some f.now) }
{
    if is_word(first.bytes(), b"--files") {
        named_file(second)
    } else if is_word(second.bytes(), b"--files") {
        named_file(first)
    } else {
        None
    }
}

/// The same where the command's name is `check`.
fn files_named<'a>(name: &Line, first: &'a Line, second: &'a Line) -> Option<&'a Line>
    ensures { MatchOption result (files_named name.now first.now second.now ≡ None)
        (λ f. files_named name.now first.now second.now ≡ Some f.now) }
{
    if is_word(name.bytes(), b"check") {
        files_behind(first, second)
    } else {
        None
    }
}

/// The blueprint's file that the words ask to check with the files that it names, by `check --files FILE` or `check FILE --files`.
pub fn read_files(words: &[Line]) -> Option<&Line>
    ensures { MatchOption result (files_in words.now ≡ None) (λ f. files_in words.now ≡ Some f.now) }
{
    match words {
        [name, first, second] => files_named(name, first, second),
        _ => None,
    }
}

/// What the words ask for: `check FILE`, `fmt FILE`, `draw FILE`, `explain FILE` or `turns FILE N..`, where FILE is the name of a
/// file and each N a number of 64 bits. For all other words the parser of commands says what is wrong, or
/// helps; the version that it gives has this commit.
pub fn read_words(alloc: Global, words: &[Line], commit: &str) -> Result<Task, TaskEnd>
    ensures task { IfOk result (Asks words.now) }
    ensures end { IfErr result (TaskEnds words.now) }
{
    match task_in(alloc, words)? {
        Some(task) => Ok(task),
        None => Err(no_task(alloc, words, commit)),
    }
}
