// The label of a node: its name, what it does, the chain that it runs, and how it ended.
use crate::look::{put_bold, put_fault, put_text};
use crate::marks::{SinkEnd, SinkMark};
use crate::message::put_number;
use blue_lang::kinds::{write_decider, write_kind};
use elem_core::line::Line;
use elem_core::why::{Decider, NoMemory};
use std::alloc::Global;
use stream_model::blueprint::{ChainDecl, Node, Step};
use stream_model::kind::Kind;

/// Appends the decider of a stage in brown, where it does not stop.
fn put_decider(alloc: Global, out: &mut Vec<u8>, decider: Decider) -> Result<(), NoMemory> {
    let told = match decider {
        Decider::Stop => return Ok(()),
        Decider::Resume => Decider::Resume,
        Decider::Restart => Decider::Restart,
    };
    let mut words = Vec::new(alloc);
    write_decider(&mut words, Some(told))?;
    out.extend_from_slice(b" <font color=\"#953800\">")?;
    put_text(out, words.strip_prefix(b" ").unwrap_or(&words))?;
    out.extend_from_slice(b"</font>")
}

/// Appends the words of a kind, and its decider.
fn put_words(
    alloc: Global,
    out: &mut Vec<u8>,
    kind: &Kind,
    decider: Decider,
) -> Result<(), NoMemory> {
    let mut words = Vec::new(alloc);
    write_kind(&mut words, kind)?;
    put_text(out, words.strip_prefix(b" ").unwrap_or(&words))?;
    put_decider(alloc, out, decider)
}

/// Appends what a node does as a further line: of lines their file alone, of a sink that keeps nothing nothing.
fn put_work(alloc: Global, out: &mut Vec<u8>, node: &Node) -> Result<(), NoMemory> {
    if matches!(node.kind, Kind::Ignore) {
        return Ok(());
    }
    out.extend_from_slice(b"<br/><font point-size=\"10\">")?;
    match &node.kind {
        Kind::Lines(file) | Kind::ToLines(file) => put_text(out, file.bytes())?,
        kind => put_words(alloc, out, kind, node.decider)?,
    }
    out.extend_from_slice(b"</font>")
}

/// The chain that a kind runs.
fn chain_of(kind: &Kind) -> Option<&Line> {
    match kind {
        Kind::GroupBy(_, _, chain) => Some(chain),
        Kind::SplitWhen(_, chain, _) => Some(chain),
        Kind::SplitAfter(_, chain, _) => Some(chain),
        _ => None,
    }
}

/// The chain of that name.
fn chain_named<'a>(chains: &'a [ChainDecl], name: &Line) -> Option<&'a ChainDecl> {
    for chain in chains {
        if chain.name == *name {
            return Some(chain);
        }
    }
    None
}

/// Appends the steps of a chain, one on a line, each behind a bar.
fn put_steps(alloc: Global, out: &mut Vec<u8>, steps: &[Step]) -> Result<(), NoMemory> {
    for step in steps {
        out.extend_from_slice(b"| ")?;
        put_words(alloc, out, &step.kind, step.decider)?;
        out.extend_from_slice(b"<br align=\"left\"/>")?;
    }
    Ok(())
}

/// Appends the chain that a node runs as further lines.
fn put_chain(
    alloc: Global,
    out: &mut Vec<u8>,
    chains: &[ChainDecl],
    kind: &Kind,
) -> Result<(), NoMemory> {
    let Some(name) = chain_of(kind) else {
        return Ok(());
    };
    let Some(chain) = chain_named(chains, name) else {
        return Ok(());
    };
    out.extend_from_slice(b"<br/><font point-size=\"9\">chain ")?;
    put_bold(out, name.bytes())?;
    out.extend_from_slice(b"<br align=\"left\"/>")?;
    put_steps(alloc, out, &chain.steps)?;
    out.extend_from_slice(b"</font>")
}

/// The sign, the colour and the word of how a sink ended.
fn end_words(end: SinkEnd) -> &'static [u8] {
    match end {
        SinkEnd::Ended => b"#2a7d3f\">&#10003; ended ",
        SinkEnd::Unended => b"#b2610b\">&#8230; unended ",
        SinkEnd::Failed => b"#b3261e\">&#10007; failed ",
        SinkEnd::Fault => b"#b3261e\">&#10007; fault ",
    }
}

/// Appends how a sink ended as a further line.
fn put_mark(out: &mut Vec<u8>, mark: SinkMark) -> Result<(), NoMemory> {
    out.extend_from_slice(b"<br/><font point-size=\"10\" color=\"")?;
    out.extend_from_slice(end_words(mark.end))?;
    put_number(out, mark.count)?;
    out.extend_from_slice(b"</font>")
}

/// Appends the label of a node: its name, what it does, the chain that it runs, how it ended, and what is said of its fault.
pub(crate) fn put_label(
    alloc: Global,
    out: &mut Vec<u8>,
    chains: &[ChainDecl],
    node: &Node,
    mark: Option<SinkMark>,
    fault: Option<&[u8]>,
) -> Result<(), NoMemory> {
    put_bold(out, node.name.bytes())?;
    put_work(alloc, out, node)?;
    put_chain(alloc, out, chains, &node.kind)?;
    if let Some(mark) = mark {
        put_mark(out, mark)?;
    }
    if let Some(fault) = fault {
        out.extend_from_slice(b"<br/>")?;
        put_fault(out, fault)?;
    }
    Ok(())
}
