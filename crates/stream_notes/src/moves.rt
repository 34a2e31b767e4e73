// Why a move does not fit, and what a line of moves is.
use elem_core::line::Line;
use elem_core::why::NoMemory;
use std::alloc::Global;
use stream_model::kind::Kind;
use workbench_draw::judge::blueprint_of;

/// What each line of a file of moves is.
pub(crate) const FORM: &[u8] = b"\
Such a line is `pick`, the stage's name and its moves, each a number with one space before it and no zero in front, as `--trace` writes it; it ends in LF.
";

/// What the moves of a kind are, and why one could not be made.
fn why_of(kind: &Kind) -> &'static [u8] {
    match kind {
        Kind::Merge(_) | Kind::MergeHub(_, _) => {
            b"A move is the number of the input that gives the next element, from 0. That input had ended, and all its elements were given.\n"
        }
        Kind::Balance(_) => {
            b"A move is the number of the output that takes the next element, from 0. The input had ended, and all its elements were given.\n"
        }
        Kind::Buffer(_, _) => {
            b"A move is 0 to take an element, or 1 to give one. The input had ended, or the buffer was empty.\n"
        }
        Kind::RecoverNum(_) | Kind::RecoverText(_) => {
            b"The move is how many elements pass before the failure. The input ended or failed before that, or one more element came.\n"
        }
        Kind::Valve(_) => {
            b"The moves are 1 for shutdown or 2 for abort, and how many elements pass before it. The input ended or failed before that.\n"
        }
        Kind::GroupBy(_, _, _) | Kind::SplitWhen(_, _, _) | Kind::SplitAfter(_, _, _) => {
            b"A move is the number of the substream that gives the next element, from 0 in the order of opening. That substream had no element, or was not opened.\n"
        }
        _ => b"",
    }
}

/// Appends why the stage of that number, in the blueprint of a text, could not make a move.
pub(crate) fn put_why(
    alloc: Global,
    out: &mut Vec<u8>,
    text: &[u8],
    file: &Line,
    stage: u32,
) -> Result<(), NoMemory> {
    let Ok(b) = blueprint_of(alloc, text, file) else {
        return Ok(());
    };
    match b.nodes.get(stage as usize) {
        Some(node) => out.extend_from_slice(why_of(&node.kind)),
        None => Ok(()),
    }
}
