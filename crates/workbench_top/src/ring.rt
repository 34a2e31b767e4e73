// Nodes of a stalled run that wait for each other in a ring, and the wire where room would end that.
use crate::report::words_of;
use crate::scene::{Scene, put_line};
use crate::wires::{put_wire, read_wire};
use blue_words::words::is_word;
use elem_core::why::NoMemory;
use std::alloc::Global;
use stream_model::blueprint::WireDecl;
use stream_model::kind::Kind;
use workbench_draw::marks::WireMark;
use workbench_draw::place::{FaultPlace, Sort};

/// A node that waits for another one, both by their numbers.
#[derive(Clone, Copy)]
struct Wait {
    /// The node that waits.
    node: usize,
    /// The node that it waits for.
    on: usize,
    /// The wire between them.
    wire: usize,
    /// Whether it waits for an element; else it waits until it is asked for one.
    asked: bool,
}

/// Who waits for whom at a wire that is not closed.
fn wait_of(scene: Scene<'_>, number: usize, mark: WireMark) -> Option<Wait> {
    if mark.shut {
        return None;
    }
    let wire = scene.wire(number)?;
    let from = scene.number_of(wire.from.bytes())?;
    let to = scene.number_of(wire.to.bytes())?;
    let (node, on) = if mark.asked { (to, from) } else { (from, to) };
    Some(Wait {
        node,
        on,
        wire: number,
        asked: mark.asked,
    })
}

/// The wire that a line of a report is of, and what it says of it, if it is a wire's.
fn wire_said(words: &[&[u8]]) -> Option<(usize, WireMark)> {
    match words {
        [first, rest @ ..] if is_word(first, b"wire") => read_wire(rest),
        _ => None,
    }
}

/// Who waits for whom, by the lines of a report.
fn waits_of(alloc: Global, scene: Scene<'_>, lines: &[u8]) -> Result<Vec<Wait>, NoMemory> {
    let mut waits = Vec::new(alloc);
    for line in lines.split(|byte| *byte == b'\n') {
        let words = words_of(alloc, line)?;
        if let Some((number, mark)) = wire_said(&words) {
            if let Some(wait) = wait_of(scene, number, mark) {
                waits.push(wait)?;
            }
        }
    }
    Ok(waits)
}

fn is_set(flags: &[bool], i: usize) -> bool {
    match flags.get(i) {
        Some(flag) => *flag,
        None => false,
    }
}

/// The nodes that wait for one of these.
fn waiting(alloc: Global, waits: &[Wait], left: &[bool]) -> Result<Vec<bool>, NoMemory> {
    let mut still = Vec::new(alloc);
    for _ in 0..left.len() {
        still.push(false)?;
    }
    for wait in waits {
        if is_set(left, wait.on) && wait.node < still.len() {
            still[wait.node] = true;
        }
    }
    Ok(still)
}

/// The nodes that wait for nodes that wait, without an end: where there is one, there is a ring.
fn entangled(alloc: Global, waits: &[Wait], count: usize) -> Result<Vec<bool>, NoMemory> {
    let mut left = Vec::new(alloc);
    for _ in 0..count {
        left.push(true)?;
    }
    for _ in 0..count {
        left = waiting(alloc, waits, &left)?;
    }
    Ok(left)
}

/// The first wait of a node for one of these.
fn wait_at(waits: &[Wait], left: &[bool], node: usize) -> Option<Wait> {
    for wait in waits {
        if wait.node == node && is_set(left, wait.on) {
            return Some(*wait);
        }
    }
    None
}

/// A node on a ring: where as many steps lead as there are nodes, from the first of these.
fn node_on_ring(waits: &[Wait], left: &[bool]) -> Option<usize> {
    let mut node = left.iter().position(|is_left| *is_left)?;
    for _ in 0..left.len() {
        node = wait_at(waits, left, node)?.on;
    }
    Some(node)
}

/// The waits of a ring, each for the node of the next, the last for that of the first; empty if there is none.
fn ring_of(alloc: Global, waits: &[Wait], count: usize) -> Result<Vec<Wait>, NoMemory> {
    let mut ring = Vec::new(alloc);
    let left = entangled(alloc, waits, count)?;
    let Some(start) = node_on_ring(waits, &left) else {
        return Ok(ring);
    };
    let mut node = start;
    for _ in 0..count {
        let Some(wait) = wait_at(waits, &left, node) else {
            return Ok(Vec::new(alloc));
        };
        ring.push(wait)?;
        node = wait.on;
        if node == start {
            return Ok(ring);
        }
    }
    Ok(Vec::new(alloc))
}

/// Appends the name of a node.
fn put_name(out: &mut Vec<u8>, scene: Scene<'_>, number: usize) -> Result<(), NoMemory> {
    match scene.node(number) {
        Some(node) => out.extend_from_slice(node.name.bytes()),
        None => Ok(()),
    }
}

/// Appends the waits of a ring.
fn put_waits(out: &mut Vec<u8>, scene: Scene<'_>, ring: &[Wait]) -> Result<(), NoMemory> {
    let mut between: &[u8] = b"These nodes wait for each other in a ring: ";
    for wait in ring {
        out.extend_from_slice(between)?;
        put_name(out, scene, wait.node)?;
        out.extend_from_slice(b" for ")?;
        put_name(out, scene, wait.on)?;
        between = b", ";
    }
    out.extend_from_slice(b".\n")
}

/// The wait behind that of a number in a ring.
fn wait_behind(ring: &[Wait], number: usize) -> Option<Wait> {
    match ring.get(number.saturating_add(1)) {
        Some(wait) => Some(*wait),
        None => ring.first().copied(),
    }
}

/// The wire of a ring into a node that asks for an element of another wire: what waits there could go on if there were room.
fn full_wire(ring: &[Wait]) -> Option<usize> {
    for i in 0..ring.len() {
        if let Some(next) = wait_behind(ring, i) {
            if !ring[i].asked && next.asked {
                return Some(ring[i].wire);
            }
        }
    }
    None
}

/// Whether a wire is a lane: it is marked `async`, or is one of a hub.
fn is_lane(scene: Scene<'_>, wire: &WireDecl) -> bool {
    wire.lane.is_some()
        || is_hub(scene, wire.from.bytes(), true)
        || is_hub(scene, wire.to.bytes(), false)
}

/// Whether the node of that name is a hub whose outputs, or whose inputs, are lanes.
fn is_hub(scene: Scene<'_>, name: &[u8], outputs: bool) -> bool {
    let Some(number) = scene.number_of(name) else {
        return false;
    };
    match scene.node(number) {
        Some(node) => match node.kind {
            Kind::BroadcastHub(_, _) => outputs,
            Kind::MergeHub(_, _) => !outputs,
            _ => false,
        },
        None => false,
    }
}

/// Appends where room would end a ring.
fn put_cure(
    out: &mut Vec<u8>,
    scene: Scene<'_>,
    number: usize,
    wire: &WireDecl,
) -> Result<(), NoMemory> {
    let lane = is_lane(scene, wire);
    out.extend_from_slice(if lane {
        b"The lane of the wire "
    } else {
        b"An `async` on the wire "
    })?;
    put_wire(out, wire)?;
    put_line(out, scene, FaultPlace::of(Sort::Wire, number))?;
    out.extend_from_slice(if lane {
        b" is full: a greater size, or a stage `buffer N backpressure` before it,"
    } else {
        b", or a stage `buffer N backpressure` in it,"
    })?;
    out.extend_from_slice(
        b" ends the ring if it has room for all elements that have to wait there.\n",
    )
}

/// Appends the nodes that wait for each other in a ring, by the wires' lines of the report of a stalled run, and the wire where room
/// would end that. Nothing if there is no ring.
pub(crate) fn put_ring(
    alloc: Global,
    out: &mut Vec<u8>,
    scene: Scene<'_>,
    lines: &[u8],
) -> Result<(), NoMemory> {
    let waits = waits_of(alloc, scene, lines)?;
    let ring = ring_of(alloc, &waits, scene.blueprint.nodes.len())?;
    if ring.is_empty() {
        return Ok(());
    }
    put_waits(out, scene, &ring)?;
    let Some(number) = full_wire(&ring) else {
        return Ok(());
    };
    match scene.wire(number) {
        Some(wire) => put_cure(out, scene, number, wire),
        None => Ok(()),
    }
}
