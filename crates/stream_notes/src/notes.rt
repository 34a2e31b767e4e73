// What is said on standard error after a run.
use crate::moves::{FORM, put_why};
use crate::usage::usage_note;
use elem_core::line::Line;
use elem_core::why::NoMemory;
use process_words::lines::command_lines;
use run_report::command::read_words;
use run_report::outcome::Status;
use std::alloc::Global;
use workbench_draw::judge::judge_text;
use workbench_draw::message::{message_of, put_number};
use workbench_top::explain::explain;

/// What stands behind the first line of a text.
fn after_line(text: &[u8]) -> &[u8] {
    for i in 0..text.len() {
        if text[i] == b'\n' {
            return &text[i + 1..];
        }
    }
    &[]
}

/// What is said of a blueprint that breaks a rule only beside the words of its command.
const TAKEN: &[u8] = b"\
The file of `--trace` or `--replay` is one that the blueprint reads or writes.
Give it another name.
";

/// What is said of a text that has a fault or breaks a rule: what `blueprint check` says behind the line of the report.
fn fault_note(alloc: Global, text: &[u8], file: &Line) -> Result<Vec<u8>, NoMemory> {
    match judge_text(alloc, text, file) {
        Ok(_) => Vec::from_slice(alloc, TAKEN),
        Err(why) => {
            let message = message_of(alloc, text, file, &why)?;
            Vec::from_slice(alloc, after_line(&message))
        }
    }
}

/// What is said of the line of a report.
fn line_note(alloc: Global, text: &[u8], file: &Line, line: &[u8]) -> Result<Vec<u8>, NoMemory> {
    match explain(alloc, text, file, line)? {
        Some(note) => Ok(note),
        None => Ok(Vec::new(alloc)),
    }
}

/// The line of a report that a line of the file of moves is at fault.
fn bad_trace_line(alloc: Global, number: u32) -> Result<Vec<u8>, NoMemory> {
    let mut line = Vec::from_slice(alloc, b"trace line ")?;
    put_number(&mut line, u64::from(number))?;
    line.push(b'\n')?;
    Ok(line)
}

/// The line of a report that a stage could not make a move.
fn misfit_line(alloc: Global, stage: u32, place: u32) -> Result<Vec<u8>, NoMemory> {
    let mut line = Vec::from_slice(alloc, b"misfit stage ")?;
    put_number(&mut line, u64::from(stage))?;
    line.extend_from_slice(b" pick ")?;
    put_number(&mut line, u64::from(place))?;
    line.push(b'\n')?;
    Ok(line)
}

/// What is said of a line of the file of moves, or of its length if that number is 0.
fn bad_trace_note(
    alloc: Global,
    text: &[u8],
    file: &Line,
    number: u32,
) -> Result<Vec<u8>, NoMemory> {
    let mut note = line_note(alloc, text, file, &bad_trace_line(alloc, number)?)?;
    if number != 0 {
        note.extend_from_slice(FORM)?;
    }
    Ok(note)
}

/// What is said of a stage that could not make the move at that place.
fn misfit_note(
    alloc: Global,
    text: &[u8],
    file: &Line,
    stage: u32,
    place: u32,
) -> Result<Vec<u8>, NoMemory> {
    let mut note = line_note(alloc, text, file, &misfit_line(alloc, stage, place)?)?;
    put_why(alloc, &mut note, text, file, stage)?;
    Ok(note)
}

/// What is said of a blueprint's text.
fn text_note(
    alloc: Global,
    text: &[u8],
    file: &Line,
    status: &Status,
) -> Result<Vec<u8>, NoMemory> {
    match status {
        Status::Refused(_) | Status::Unfit(_) => fault_note(alloc, text, file),
        Status::BadTrace(number) => bad_trace_note(alloc, text, file, *number),
        Status::Misfit(stage, place) => misfit_note(alloc, text, file, *stage, *place),
        _ => Ok(Vec::new(alloc)),
    }
}

/// Returns what is said after a run with these words that ended so, of a blueprint of this text, if it is known. Nothing is said of most
/// ends.
pub(crate) fn note_of(
    alloc: Global,
    words: &[Vec<u8>],
    status: &Status,
    text: Option<&[u8]>,
) -> Result<Vec<u8>, NoMemory> {
    let lines = command_lines(alloc, words)?;
    if matches!(status, Status::Usage) {
        return usage_note(alloc, &lines);
    }
    match (read_words(alloc, &lines), text) {
        (Ok(command), Some(text)) => text_note(alloc, text, &command.file, status),
        _ => Ok(Vec::new(alloc)),
    }
}
