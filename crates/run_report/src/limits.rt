// The values of options, with their limits.
ghost use Rattle.std.specs.Prelude.{◌≡◌, ◌≤◌, IsTrue, IfSome, option_map};
ghost use Rattle.blue_words.specs.Names.{is_file_name};
ghost use Rattle.run_report.specs.Asking.{number_within, number_or, asked_input, trace_of, is_other, replay_of};
ghost use Rattle.run_report.specs.Shape.{text_in};

use blue_words::names::is_file_name;
use blue_words::places::count_place;
use elem_core::count::MOST_COUNT;

/// The greatest number of lines to generate.
pub(crate) const MOST_GENERATED: u32 = 10_000_000;

/// The greatest number of workers.
pub(crate) const MOST_WORKERS: u32 = 64;

/// The greatest number of turns.
pub(crate) const MOST_TURNS: u32 = MOST_COUNT;

/// The workers where no number is given.
pub(crate) const USUAL_WORKERS: u32 = 1;

/// The turns where no number is given.
pub(crate) const USUAL_TURNS: u32 = 100_000_000;

const MOST_DIGITS: usize = 10;

/// The blueprint's file where lines are generated.
const GENERATED: &str = "gen.blue";

/// The number of 1 to 10 digits, from 1 to the greatest.
fn number_within(most: u32, word: &str) -> Option<u32>
    ensures number { result ≡ number_within most word.now }
    ensures least { IfSome result (λ n. 1 ≤ n) }
    ensures most { IfSome result (λ n. n ≤ most) }
{
    if word.len() > MOST_DIGITS {
        return None;
    }
    match count_place(word.as_bytes()) {
        Ok(n) if n >= 1 && n <= u64::from(most) => Some(n as u32),
        _ => None,
    }
}

/// The number of an option, or the usual one where none is given.
pub(crate) fn number_or(usual: u32, most: u32, value: Option<Option<&str>>) -> Option<u32>
    requires usual { (1 ≤ usual) × (usual ≤ most) }
    ensures number { result ≡ number_or usual most (text_in value.entry) }
    ensures least { IfSome result (λ n. 1 ≤ n) }
    ensures most { IfSome result (λ n. n ≤ most) }
{
    match value {
        Some(None) => Some(usual),
        Some(Some(word)) => number_within(most, word),
        None => None,
    }
}

/// The blueprint's file, with the number of lines to generate: one file and no number, or a number and no file.
pub(crate) fn asked_input<'a>(
    file: Option<Option<&'a str>>,
    number: Option<Option<&str>>,
) -> Option<(&'a str, Option<u32>)>
    ensures input { option_map (λ input. (input.0.now, input.1)) result ≡ asked_input (text_in file.entry) (text_in number.entry) }
    ensures file { IfSome result (λ input. IsTrue (is_file_name input.0.now)) }
    ensures limits { IfSome result (λ input. IfSome input.1 (λ n. (1 ≤ n) × (n ≤ 10000000))) }
{
    match (file, number) {
        (Some(Some(file)), Some(None)) if is_file_name(file.as_bytes()) => Some((file, None)),
        (Some(None), Some(Some(number))) => {
            let n = number_within(MOST_GENERATED, number)?;
            Some((GENERATED, Some(n)))
        }
        _ => None,
    }
}

/// The trace's file, which is another than the blueprint's.
pub(crate) fn trace_of<'a>(other: &str, file: Option<Option<&'a str>>) -> Option<Option<&'a str>>
    ensures path { text_in result ≡ trace_of other.now (text_in file.entry) }
    ensures name { IfSome result (λ path. IfSome path (λ path. IsTrue (is_file_name path.now))) }
{
    match file {
        Some(None) => Some(None),
        Some(Some(file)) if is_file_name(file.as_bytes()) && file != other => Some(Some(file)),
        _ => None,
    }
}

/// Whether the word is another than that, where there is one.
fn is_other(path: Option<&str>, word: &str) -> bool
    ensures { result ≡ is_other (option_map (λ path. path.now) path.entry) word.now }
{
    match path {
        None => true,
        Some(path) => word != path,
    }
}

/// The file of the moves to follow, which is another than the blueprint's and the trace's. Beside it no number of lines and no number of
/// workers is given.
pub(crate) fn replay_of<'a>(
    replay: Option<Option<&'a str>>,
    number: Option<Option<&str>>,
    workers: Option<Option<&str>>,
    other: &str,
    path: Option<&str>,
) -> Option<Option<&'a str>>
    ensures moves { text_in result ≡ replay_of (text_in replay.entry) (text_in number.entry) (text_in workers.entry) other.now
        (option_map (λ path. path.now) path.entry) }
    ensures name { IfSome result (λ moves. IfSome moves (λ moves. IsTrue (is_file_name moves.now))) }
{
    match (replay, number, workers) {
        (Some(None), _, _) => Some(None),
        (Some(Some(word)), Some(None), Some(None))
            if is_file_name(word.as_bytes()) && word != other && is_other(path, word) => {
            Some(Some(word))
        }
        _ => None,
    }
}
