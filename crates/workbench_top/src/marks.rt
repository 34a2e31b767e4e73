// What a report says of nodes and wires, for the drawing of its blueprint.
use crate::report::words_of;
use crate::wires::read_wire;
use blue_words::lines::next_line;
use blue_words::places::count_place;
use blue_words::words::is_word;
use elem_core::why::NoMemory;
use std::alloc::Global;
use stream_model::blueprint::{Blueprint, Node};
use workbench_draw::marks::{RunMarks, SinkEnd, SinkMark};

/// The end of a sink, by the word of a report.
fn end_of(word: &[u8]) -> Option<SinkEnd> {
    if is_word(word, b"ended") {
        Some(SinkEnd::Ended)
    } else if is_word(word, b"unended") {
        Some(SinkEnd::Unended)
    } else if is_word(word, b"failed") {
        Some(SinkEnd::Failed)
    } else if is_word(word, b"fault") {
        Some(SinkEnd::Fault)
    } else {
        None
    }
}

/// The number of the node of that name.
fn number_of(nodes: &[Node], name: &[u8]) -> Option<usize> {
    for i in 0..nodes.len() {
        if nodes[i].name.bytes() == name {
            return Some(i);
        }
    }
    None
}

/// The node of which the words of a sink's line are, behind its first word, and what they say of it.
fn read_sink(nodes: &[Node], words: &[&[u8]]) -> Option<(usize, SinkMark)> {
    let [name, end, count, ..] = words else {
        return None;
    };
    let number = number_of(nodes, name)?;
    let end = end_of(end)?;
    match count_place(count) {
        Ok(count) => Some((number, SinkMark { end, count })),
        Err(_) => None,
    }
}

/// Notes what a line of a report says of a node or a wire.
fn note_line(
    alloc: Global,
    marks: &mut RunMarks,
    nodes: &[Node],
    line: &[u8],
) -> Result<(), NoMemory> {
    let words = words_of(alloc, line)?;
    let [first, rest @ ..] = words.as_slice() else {
        return Ok(());
    };
    if is_word(first, b"sink") {
        if let Some((number, mark)) = read_sink(nodes, rest) {
            marks.mark_sink(number, mark);
        }
    } else if is_word(first, b"wire") {
        if let Some((number, mark)) = read_wire(rest) {
            marks.mark_wire(number, mark);
        }
    }
    Ok(())
}

/// What a report says of the nodes and the wires of its blueprint. Lines that say nothing of them are left out.
pub(crate) fn marks_of(alloc: Global, b: &Blueprint, report: &[u8]) -> Result<RunMarks, NoMemory> {
    let mut marks = RunMarks::new(alloc, b.nodes.len(), b.wires.len())?;
    let mut rest = report;
    while let Some((line, after)) = next_line(rest) {
        note_line(alloc, &mut marks, &b.nodes, line)?;
        rest = after;
    }
    Ok(marks)
}
