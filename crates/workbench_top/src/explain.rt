// A report in words.
use crate::report::words_of;
use crate::ring::put_ring;
use crate::scene::Scene;
use crate::sinks::put_sink_line;
use crate::statuses::put_status;
use crate::wires::put_wire_line;
use blue_check::flatten::flatten;
use blue_lang::parse::parse;
use blue_modules::counts::book_of;
use blue_modules::text::BlueText;
use blue_words::lines::next_line;
use blue_words::words::is_word;
use elem_core::line::Line;
use elem_core::why::NoMemory;
use std::alloc::Global;
use stream_model::blueprint::Blueprint;
use workbench_draw::judge::{Unready, judge_text};
use workbench_draw::message::message_of;

/// Appends what a line behind the first says, and says whether it is one of such a report.
fn put_line(
    alloc: Global,
    out: &mut Vec<u8>,
    scene: Scene<'_>,
    line: &[u8],
) -> Result<bool, NoMemory> {
    let words = words_of(alloc, line)?;
    match words.as_slice() {
        [first, rest @ ..] => {
            if is_word(first, b"sink") {
                put_sink_line(out, scene, rest)
            } else if is_word(first, b"wire") {
                put_wire_line(out, scene, rest)
            } else {
                Ok(false)
            }
        }
        _ => Ok(false),
    }
}

/// Appends what the lines behind the first say, and says whether they are those of such a report.
fn put_lines(
    alloc: Global,
    out: &mut Vec<u8>,
    scene: Scene<'_>,
    lines: &[u8],
) -> Result<bool, NoMemory> {
    let mut rest = lines;
    while let Some((line, after)) = next_line(rest) {
        if !put_line(alloc, out, scene, line)? {
            return Ok(false);
        }
        rest = after;
    }
    Ok(true)
}

/// What is said of a text that has a fault or breaks a rule, where the report has the same line of it.
fn of_fault(
    alloc: Global,
    text: &[u8],
    file: &Line,
    line: &[u8],
) -> Result<Option<Vec<u8>>, NoMemory> {
    let why = match judge_text(alloc, text, file) {
        Ok(_) => return Ok(None),
        Err(why) => why,
    };
    if matches!(why, Unready::NoMemory) {
        return Ok(None);
    }
    let mut message = message_of(alloc, text, file, &why)?;
    match next_line(&message) {
        Some((first, _)) if first == line => {}
        _ => return Ok(None),
    }
    message.extend_from_slice(b"Nothing was run, and no file was changed.\n")?;
    Ok(Some(message))
}

/// What is said of a report of a blueprint.
fn of_run(
    alloc: Global,
    text: &[u8],
    said: &BlueText,
    b: &Blueprint,
    line: &[u8],
    later: &[u8],
) -> Result<Option<Vec<u8>>, NoMemory> {
    let book = book_of(alloc, &said.modules)?;
    let scene = Scene {
        text,
        said,
        book: &book,
        blueprint: b,
    };
    let mut out = Vec::new(alloc);
    if !put_status(alloc, &mut out, Some(scene), line)?
        || !put_lines(alloc, &mut out, scene, later)?
    {
        return Ok(None);
    }
    if is_word(line, b"stalled") {
        put_ring(alloc, &mut out, scene, later)?;
    }
    Ok(Some(out))
}

/// What is said of a report where the text says no blueprint.
fn of_words(alloc: Global, line: &[u8], later: &[u8]) -> Result<Option<Vec<u8>>, NoMemory> {
    let mut out = Vec::new(alloc);
    if later.is_empty() && put_status(alloc, &mut out, None, line)? {
        Ok(Some(out))
    } else {
        Ok(None)
    }
}

/// A report of the run of that name's file, of which this is the text, in words: how it ended, for each sink its line, what its file
/// holds and who is to blame, for each wire how many elements passed and which node waits for which, and of a stalled run the nodes
/// that wait for each other in a ring. None where it is no report of this text.
pub fn explain(
    alloc: Global,
    text: &[u8],
    file: &Line,
    report: &[u8],
) -> Result<Option<Vec<u8>>, NoMemory> {
    let Some((line, later)) = next_line(report) else {
        return Ok(None);
    };
    if line.starts_with(b"refused ") || line.starts_with(b"unfit ") {
        return of_fault(alloc, text, file, line);
    }
    match parse(alloc, text) {
        Ok(said) => match flatten(alloc, &said) {
            Ok(b) => of_run(alloc, text, &said, &b, line, later),
            Err(_) => of_words(alloc, line, later),
        },
        Err(_) => of_words(alloc, line, later),
    }
}
