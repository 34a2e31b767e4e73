// The first line of a report, in words.
use crate::report::words_of;
use crate::scene::{Scene, put_node};
use blue_check::picks::picks;
use blue_names::claims::file_of;
use blue_words::places::count_place;
use blue_words::words::is_word;
use elem_core::why::NoMemory;
use std::alloc::Global;
use workbench_draw::message::{put_number, put_shown};

/// What a first line says that is always the same.
fn fixed(line: &[u8]) -> Option<&'static [u8]> {
    let text: &'static [u8] = if is_word(line, b"done") {
        b"Every sink ended, and the files are complete.\n"
    } else if is_word(line, b"failed") {
        b"Every sink ended or failed, and some failed.\n"
    } else if is_word(line, b"stalled") {
        b"Some sink has not ended, and nothing more can happen.\n"
    } else if is_word(line, b"read fault") {
        b"The blueprint's file could not be read. Nothing was run, and no file was changed.\n"
    } else if is_word(line, b"write fault") {
        b"A file could not be written: that of a sink below, or one that was generated.\n"
    } else if is_word(line, b"no memory") {
        b"Memory was wanting. In a run the file of each sink holds a first part of what it was to hold; before it some are empty.\n"
    } else if line.starts_with(b"usage: ") {
        b"The words are no command of streams. No file was touched.\n"
    } else {
        return None;
    };
    Some(text)
}

/// Appends that a file is missing, and the node that wants it.
fn put_missing(out: &mut Vec<u8>, scene: Option<Scene<'_>>, name: &[u8]) -> Result<(), NoMemory> {
    put_shown(out, name)?;
    out.extend_from_slice(
        b" is not there, or was refused. Nothing was run; files of sinks before it are empty.\n",
    )?;
    let Some(scene) = scene else {
        return Ok(());
    };
    for i in 0..scene.blueprint.nodes.len() {
        if let Some(file) = file_of(&scene.blueprint.nodes[i].kind) {
            if file.bytes() == name {
                put_node(out, scene, i)?;
                out.extend_from_slice(b" wants it.\n")?;
            }
        }
    }
    Ok(())
}

/// Appends that the units were used up.
fn put_used(out: &mut Vec<u8>, word: &[u8]) -> Result<bool, NoMemory> {
    out.extend_from_slice(b"Some sink has not ended, and all units are used: ")?;
    put_shown(out, word)?;
    out.extend_from_slice(
        b". Run it with more --turns; `blueprint turns` tells how many suffice.\n",
    )?;
    Ok(count_place(word).is_ok())
}

/// The number of the stage that chooses whose line that one of a file of moves is.
fn chooser_of(scene: Scene<'_>, line: u64) -> Option<usize> {
    let mut left = line;
    for i in 0..scene.blueprint.nodes.len() {
        if picks(&scene.blueprint.nodes[i].kind) {
            match left.checked_sub(1) {
                Some(0) => return Some(i),
                Some(more) => left = more,
                None => return None,
            }
        }
    }
    None
}

/// Appends which line of the file of moves is at fault, and whose line is to stand there.
fn put_bad_trace(
    out: &mut Vec<u8>,
    scene: Option<Scene<'_>>,
    word: &[u8],
) -> Result<bool, NoMemory> {
    let Ok(line) = count_place(word) else {
        return Ok(false);
    };
    if line == 0 {
        out.extend_from_slice(
            b"The file of moves is too long. Nothing was run, and no file was changed.\n",
        )?;
        return Ok(true);
    }
    out.extend_from_slice(b"Line ")?;
    put_number(out, line)?;
    out.extend_from_slice(b" of the file of moves is at fault")?;
    if let Some(scene) = scene {
        match chooser_of(scene, line) {
            Some(number) => {
                out.extend_from_slice(b": moves of ")?;
                put_node(out, scene, number)?;
                out.extend_from_slice(b" are to stand there")?;
            }
            None => out.extend_from_slice(b": there is no stage more that chooses")?,
        }
    }
    out.extend_from_slice(b". Nothing was run, and no file was changed.\n")?;
    Ok(true)
}

/// Appends which stage could not make its next move.
fn put_misfit(
    alloc: Global,
    out: &mut Vec<u8>,
    scene: Option<Scene<'_>>,
    rest: &[u8],
) -> Result<bool, NoMemory> {
    let Some(scene) = scene else {
        return Ok(false);
    };
    let words = words_of(alloc, rest)?;
    match words.as_slice() {
        [stage, pick, place] if is_word(pick, b"pick") => {
            let (Ok(stage), Ok(place)) = (count_place(stage), count_place(place)) else {
                return Ok(false);
            };
            if !put_node(out, scene, stage as usize)? {
                return Ok(false);
            }
            out.extend_from_slice(b" could not make its move ")?;
            put_number(out, place)?;
            out.extend_from_slice(
                b", counted from 0, and did nothing more. The files hold what the moves before it gave.\n",
            )?;
            Ok(true)
        }
        _ => Ok(false),
    }
}

/// Appends what the first line of a report says, but for a text that has a fault, and says whether it is such a line.
pub(crate) fn put_status(
    alloc: Global,
    out: &mut Vec<u8>,
    scene: Option<Scene<'_>>,
    line: &[u8],
) -> Result<bool, NoMemory> {
    if let Some(text) = fixed(line) {
        out.extend_from_slice(text)?;
        return Ok(true);
    }
    if let Some(name) = line.strip_prefix(b"missing ") {
        put_missing(out, scene, name)?;
        return Ok(true);
    }
    if let Some(word) = line.strip_prefix(b"trace line ") {
        return put_bad_trace(out, scene, word);
    }
    if let Some(rest) = line.strip_prefix(b"misfit stage ") {
        return put_misfit(alloc, out, scene, rest);
    }
    match line.strip_prefix(b"out of turns ") {
        Some(used) => put_used(out, used),
        None => Ok(false),
    }
}
