// What the words of the command ask for.
ghost use Rattle.std.specs.Prelude.{◌≡◌, ◌≤◌, map, List, ℕ, IfOk, IfSome, IsTrue, Ok, Err, Some, None, length, option_map};
ghost use Rattle.elem_core.specs.Line.{has_no_lf};
ghost use Rattle.elem_core.specs.declared.count.TheConstants.{MOST_COUNT};
ghost use Rattle.blue_words.specs.Names.{is_file_name};
ghost use Rattle.run_report.specs.Asking.{Asked, asked_by, asked_of, only};
ghost use Rattle.run_report.specs.Shape.{text_in};
ghost use Rattle.run_report.specs.Commands.{asked, chosen};
ghost use Rattle.run_report.specs.Parts.{Part, parts_of, files_of, values_of};
ghost use Rattle.run_report.specs.Parts as part;

use crate::limits::{
    MOST_TURNS, MOST_WORKERS, USUAL_TURNS, USUAL_WORKERS, asked_input, number_or, replay_of,
    trace_of,
};
use crate::parts::{Said, matches_of, parts_in, texts_of};
use elem_core::line::Line;
use std::alloc::{AllocError, Global};

/// Why the words ask for nothing.
#[derive(Drop, Clone, Copy)]
pub enum WordsEnd {
    /// They are no command.
    Usage,
    NoMemory,
}

impl From<AllocError> for WordsEnd {
    ghost use Rattle.std.specs.Prelude.{◌≡◌};
    ghost use Rattle.run_report.specs.declared.command.WordsEnd.TheVariants.{NoMemory};

    ghost from_gives = { λ _ e. e ≡ NoMemory };

    fn from(_error: AllocError) -> WordsEnd {
        WordsEnd::NoMemory
    }
}

/// What the words ask for: the run of a file's blueprint.
#[derive(Drop)]
pub struct Command {
    /// The blueprint's file.
    pub file: Line,
    /// How many lines are to be generated before the run, 1 to 10,000,000; then the file is `gen.blue`.
    pub generated: Option<u32>,
    /// How many workers take turns, 1 to 64.
    pub workers: u32,
    /// How many turns there may be at most, 1 to 4,000,000,000.
    pub turns: u32,
    /// The file of the trace, which is another than the blueprint's.
    pub trace: Option<Line>,
    /// The file of the moves to follow, which is another than these two; then there is one worker, and nothing is generated.
    pub replay: Option<Line>,
}

/// The options and the file that the words ask for, as texts of theirs.
#[derive(Drop)]
struct Choice<'a> {
    file: &'a str,
    generated: Option<u32>,
    workers: u32,
    turns: u32,
    trace: Option<&'a str>,
    replay: Option<&'a str>,
}

/// What the parts ask for, where each value is within its limits.
fn choice_of<'a>(said: &Said<'a>) -> Option<Choice<'a>>
    ensures asked { (parts : List Part)
        → text_in said.now.file ≡ only (files_of parts)
        → text_in said.now.generate ≡ only (values_of part.generate parts)
        → text_in said.now.workers ≡ only (values_of part.workers parts)
        → text_in said.now.turns ≡ only (values_of part.turns parts)
        → text_in said.now.trace ≡ only (values_of part.trace parts)
        → text_in said.now.replay ≡ only (values_of part.replay parts)
        → option_map chosen result ≡ asked_by parts }
    ensures file { IfSome result (λ choice. IsTrue (is_file_name choice.file.now)) }
    ensures trace { IfSome result (λ choice. IfSome choice.trace (λ path. IsTrue (is_file_name path.now))) }
    ensures replay { IfSome result (λ choice. IfSome choice.replay (λ path. IsTrue (is_file_name path.now))) }
    ensures workers { IfSome result (λ choice. (1 ≤ choice.workers) × (choice.workers ≤ 64)) }
    ensures turns { IfSome result (λ choice. (1 ≤ choice.turns) × (choice.turns ≤ MOST_COUNT)) }
    ensures generated { IfSome result (λ choice. IfSome choice.generated (λ n. (1 ≤ n) × (n ≤ 10000000))) }
{
    let (file, generated) = asked_input(said.file, said.generate)?;
    let workers = number_or(USUAL_WORKERS, MOST_WORKERS, said.workers)?;
    let turns = number_or(USUAL_TURNS, MOST_TURNS, said.turns)?;
    let trace = trace_of(file, said.trace)?;
    let replay = replay_of(said.replay, said.generate, said.workers, file, trace)?;
    Some(Choice {
        file,
        generated,
        workers,
        turns,
        trace,
        replay,
    })
}

/// The line of a file's name.
#[tactic(auto, using(crate::proofs::Names::file_lacks_lf))]
fn line_of(alloc: Global, name: &str) -> Result<Line, AllocError>
    requires { IsTrue (is_file_name name.now) }
    ensures { IfOk result (λ line. line ≡ name.now) }
{
    blue_words::places::line_of(alloc, name.as_bytes())
}

/// The command of a choice, with lines of its own.
fn command_of(alloc: Global, choice: &Choice<'_>) -> Result<Command, AllocError>
    requires file { IsTrue (is_file_name choice.now.file.now) }
    requires trace { IfSome choice.now.trace (λ path. IsTrue (is_file_name path.now)) }
    requires replay { IfSome choice.now.replay (λ path. IsTrue (is_file_name path.now)) }
    ensures { IfOk result (λ command. asked command ≡ chosen choice.now) }
{
    let file = line_of(alloc, choice.file)?;
    let trace = match choice.trace {
        Some(path) => Some(line_of(alloc, path)?),
        None => None,
    };
    let replay = match choice.replay {
        Some(path) => Some(line_of(alloc, path)?),
        None => None,
    };
    Ok(Command {
        file,
        generated: choice.generated,
        workers: choice.workers,
        turns: choice.turns,
        trace,
        replay,
    })
}

// Choices: docs/DECISIONS.md#clap-takes-repeats, docs/DECISIONS.md#ascii-words, docs/DECISIONS.md#no-help
/// What the words ask for: `(FILE | --gen N) [--workers N] [--turns N] [--trace FILE] [--replay FILE]`, in any order, and beside `--replay`
/// neither `--gen` nor `--workers`. Usage comes exactly for all other words; NoMemory may come in place of either.
pub fn read_words(alloc: Global, words: &[Line]) -> Result<Command, WordsEnd>
    ensures command { IfOk result (λ command. asked_of words.now ≡ Some (asked command)) }
    ensures usage { result ≡ Err WordsEnd.Usage → asked_of words.now ≡ None }
    ensures file { IfOk result (λ command. IsTrue (is_file_name command.file)) }
    ensures workers { IfOk result (λ command. (1 ≤ command.workers) × (command.workers ≤ 64)) }
    ensures turns { IfOk result (λ command. (1 ≤ command.turns) × (command.turns ≤ MOST_COUNT)) }
    ensures generated { IfOk result (λ command. IfSome command.generated (λ n. (1 ≤ n) × (n ≤ 10000000))) }
{
    let texts = texts_of(alloc, words)?;
    let matches = matches_of(alloc, &texts)?;
    match choice_of(&parts_in(&matches)) {
        Some(choice) => Ok(command_of(alloc, &choice)?),
        None => Err(WordsEnd::Usage),
    }
}
