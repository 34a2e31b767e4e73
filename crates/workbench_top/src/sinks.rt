// The line of a sink, in words.
use crate::reasons::put_reason;
use crate::scene::{Scene, put_node};
use blue_names::claims::file_of;
use blue_words::places::count_place;
use blue_words::words::is_word;
use elem_core::line::Line;
use elem_core::why::NoMemory;
use workbench_draw::message::put_number;

/// Appends what a file holds, or that there is none.
fn put_holds(
    out: &mut Vec<u8>,
    file: Option<&Line>,
    count: u64,
    rest: &[u8],
) -> Result<(), NoMemory> {
    match file {
        Some(file) => {
            out.extend_from_slice(file.bytes())?;
            out.extend_from_slice(b" holds ")?;
            put_number(out, count)?;
            out.extend_from_slice(if count == 1 { b" line" } else { b" lines" })?;
            out.extend_from_slice(rest)
        }
        None => out.extend_from_slice(b"It keeps nothing"),
    }
}

/// Appends how a sink of that name ended, with its line and its file. Answers whether there is such a sink.
fn put_sink(
    out: &mut Vec<u8>,
    scene: Scene<'_>,
    name: &[u8],
    count: &[u8],
    how: &[u8],
    rest: &[u8],
) -> Result<bool, NoMemory> {
    let (Some(number), Ok(count)) = (scene.number_of(name), count_place(count)) else {
        return Ok(false);
    };
    if !put_node(out, scene, number)? {
        return Ok(false);
    }
    out.extend_from_slice(how)?;
    let file = match scene.node(number) {
        Some(node) => file_of(&node.kind),
        None => None,
    };
    put_holds(out, file, count, rest)?;
    Ok(true)
}

/// Appends which node is to blame, at which element and why.
fn put_cause(
    out: &mut Vec<u8>,
    scene: Scene<'_>,
    stage: &[u8],
    nth: &[u8],
    why: &[u8],
) -> Result<bool, NoMemory> {
    let (Ok(stage), Ok(nth)) = (count_place(stage), count_place(nth)) else {
        return Ok(false);
    };
    out.extend_from_slice(b". It failed at ")?;
    if !put_node(out, scene, stage as usize)? {
        return Ok(false);
    }
    if nth != 0 {
        out.extend_from_slice(b", with element ")?;
        put_number(out, nth)?;
        out.extend_from_slice(b" of those that came there")?;
    }
    out.extend_from_slice(b": ")?;
    let is_reason = put_reason(out, why)?;
    out.extend_from_slice(b".\n")?;
    Ok(is_reason)
}

/// Appends the end of a sink that did not fail.
fn put_end(
    out: &mut Vec<u8>,
    scene: Scene<'_>,
    name: &[u8],
    end: &[u8],
    count: &[u8],
) -> Result<bool, NoMemory> {
    let is_sink = if is_word(end, b"ended") {
        put_sink(out, scene, name, count, b" ended. ", b": all of them")?
    } else if is_word(end, b"unended") {
        put_sink(out, scene, name, count, b" has not ended. ", b" so far")?
    } else if is_word(end, b"fault") {
        put_sink(
            out,
            scene,
            name,
            count,
            b" could not be written. ",
            b", and perhaps a part of the next",
        )?
    } else {
        false
    };
    out.extend_from_slice(b".\n")?;
    Ok(is_sink)
}

/// Appends what the words of a sink's line say, behind its first word, and says whether they are such a line.
pub(crate) fn put_sink_line(
    out: &mut Vec<u8>,
    scene: Scene<'_>,
    words: &[&[u8]],
) -> Result<bool, NoMemory> {
    match words {
        [name, end, count] => put_end(out, scene, name, end, count),
        [name, _, count, _, stage, _, nth, _, why] => {
            Ok(
                put_sink(
                    out,
                    scene,
                    name,
                    count,
                    b" failed. ",
                    b", what came before the failure",
                )? && put_cause(out, scene, stage, nth, why)?,
            )
        }
        _ => Ok(false),
    }
}
