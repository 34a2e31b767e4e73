// Two ways that part at one stage and meet again at another with no room on either: where a run may stall.
ghost use Rattle.std.specs.Prelude.{◌≡◌, [], IfOk};
ghost use Rattle.stream_model.specs.Shape.{IsPolytree};
ghost use Rattle.blue_check.specs.Checked.{checked_blueprint};
ghost use Rattle.blue_check.specs.Forest.{wiring};
ghost use Rattle.blue_check.specs.Wires.{blueprint_wires};

use crate::message::put_part_line;
use crate::place::{FaultPlace, Sort};
use blue_check::checked::Checked;
use blue_lang::parse::parse;
use blue_modules::text::BlueText;
use blue_names::links::{NumberedWire, links_of};
use elem_core::why::{Decider, NoMemory};
use std::alloc::Global;
use stream_model::blueprint::{Blueprint, Node};
use stream_model::kind::Kind;

/// The outputs of a stage from which there is a way to a node with no lane and no buffer on it, a bit for each.
#[derive(Clone, Copy, PartialEq, Eq)]
struct Reach {
    /// All of them.
    ways: u64,
    /// Those whose ways may bring another number of elements than the stage sends.
    uneven: u64,
}

/// No output.
const NOWHERE: Reach = Reach { ways: 0, uneven: 0 };

/// Two ways that part at a node and meet at another, both by their numbers.
#[derive(Clone, Copy)]
struct Meeting {
    parts: usize,
    meets: usize,
}

/// Whether a stage of this kind may ask one of its inputs while it asks another for nothing.
fn takes_turns(kind: &Kind) -> bool {
    matches!(
        kind,
        Kind::Concat(_) | Kind::Interleave(_, _) | Kind::MergeSorted | Kind::Zip
    )
}

/// Whether a stage sends on several ways what it takes, and waits for all of them or for one.
fn parts(kind: &Kind) -> bool {
    matches!(
        kind,
        Kind::Broadcast(_) | Kind::Balance(_) | Kind::Partition(_, _) | Kind::Unzip
    )
}

/// What leaves a stage where ways part by one of its outputs.
fn first_reach(kind: &Kind, output: u32) -> Reach {
    let ways = 1u64.checked_shl(output).unwrap_or(0);
    let uneven = if matches!(kind, Kind::Broadcast(_) | Kind::Unzip) {
        0
    } else {
        ways
    };
    Reach { ways, uneven }
}

/// What leaves a node that these ways reach: nothing a buffer, and of one that does not send an element for each uneven ways.
fn passed_reach(node: &Node, reach: Reach) -> Reach {
    let Reach { ways, .. } = reach;
    match node.kind {
        Kind::Buffer(_, _) => NOWHERE,
        Kind::Map(_) if matches!(node.decider, Decider::Stop) => reach,
        _ => Reach { ways, uneven: ways },
    }
}

/// The ways from a node that a wire is on.
fn reach_on(nodes: &[Node], from: usize, reached: &[Reach], link: &NumberedWire) -> Reach {
    if link.lane.is_some() {
        return NOWHERE;
    }
    let (Some(node), Some(reach)) = (nodes.get(link.from), reached.get(link.from)) else {
        return NOWHERE;
    };
    if link.from == from {
        first_reach(&node.kind, link.output)
    } else {
        passed_reach(node, *reach)
    }
}

/// Goes on along each wire, and says whether a node was reached by a way more.
fn spread(nodes: &[Node], from: usize, links: &[NumberedWire], reached: &mut Vec<Reach>) -> bool {
    let mut more = false;
    for link in links {
        let reach = reach_on(nodes, from, reached.as_slice(), link);
        if link.to < reached.len() {
            let old = reached[link.to];
            let new = Reach {
                ways: old.ways | reach.ways,
                uneven: old.uneven | reach.uneven,
            };
            more = more || new != old;
            reached[link.to] = new;
        }
    }
    more
}

/// The ways from a node that reach each node.
fn reached_from(
    alloc: Global,
    nodes: &[Node],
    from: usize,
    links: &[NumberedWire],
) -> Result<Vec<Reach>, NoMemory> {
    let mut reached = Vec::new(alloc);
    for _ in 0..nodes.len() {
        reached.push(NOWHERE)?;
    }
    for _ in 0..nodes.len() {
        if !spread(nodes, from, links, &mut reached) {
            break;
        }
    }
    Ok(reached)
}

/// Whether two ways from a node meet at another by different inputs, and one may have to wait for the other there.
fn meets(
    nodes: &[Node],
    from: usize,
    links: &[NumberedWire],
    reached: &[Reach],
    to: usize,
) -> bool {
    let (Some(node), Some(all)) = (nodes.get(to), reached.get(to)) else {
        return false;
    };
    if !takes_turns(&node.kind) || all.ways.count_ones() < 2 {
        return false;
    }
    if matches!(node.kind, Kind::Zip) && all.uneven == 0 {
        return false;
    }
    let mut inputs: usize = 0;
    for link in links {
        if link.to == to && reach_on(nodes, from, reached, link) != NOWHERE {
            inputs = inputs.saturating_add(1);
        }
    }
    inputs > 1
}

/// Whether a node is among those where ways meet.
fn is_among(meetings: &[Meeting], node: usize) -> bool {
    for meeting in meetings {
        if meeting.meets == node {
            return true;
        }
    }
    false
}

/// Appends where ways from a node meet, but for nodes that are there already.
fn add_meetings(
    meetings: &mut Vec<Meeting>,
    nodes: &[Node],
    from: usize,
    links: &[NumberedWire],
    reached: &[Reach],
) -> Result<(), NoMemory> {
    for to in 0..nodes.len() {
        if !is_among(meetings.as_slice(), to) && meets(nodes, from, links, reached, to) {
            meetings.push(Meeting {
                parts: from,
                meets: to,
            })?;
        }
    }
    Ok(())
}

/// Where ways part and meet again, each place of meeting once.
fn meetings_of(alloc: Global, b: &Blueprint) -> Result<Vec<Meeting>, NoMemory> {
    let links = links_of(alloc, &b.nodes, &b.wires)?;
    let mut meetings = Vec::new(alloc);
    for from in 0..b.nodes.len() {
        if parts(&b.nodes[from].kind) {
            let reached = reached_from(alloc, &b.nodes, from, &links)?;
            add_meetings(&mut meetings, &b.nodes, from, &links, &reached)?;
        }
    }
    Ok(meetings)
}

/// Appends a node by its name and its line.
fn put_node(
    alloc: Global,
    out: &mut Vec<u8>,
    text: &[u8],
    said: &BlueText,
    b: &Blueprint,
    number: usize,
) -> Result<(), NoMemory> {
    let Some(node) = b.nodes.get(number) else {
        return Ok(());
    };
    out.push(b'`')?;
    out.extend_from_slice(node.name.bytes())?;
    out.push(b'`')?;
    put_part_line(alloc, out, text, said, FaultPlace::of(Sort::Node, number))
}

/// Appends a warning.
fn put_warning(
    alloc: Global,
    out: &mut Vec<u8>,
    text: &[u8],
    said: &BlueText,
    b: &Blueprint,
    meeting: Meeting,
) -> Result<(), NoMemory> {
    out.extend_from_slice(b"warning: two ways from ")?;
    put_node(alloc, out, text, said, b, meeting.parts)?;
    out.extend_from_slice(b" meet at ")?;
    put_node(alloc, out, text, said, b, meeting.meets)?;
    out.extend_from_slice(
        b", with no lane and no buffer on them.\nIf one of them has to wait for the other, the run stalls. An `async` on a wire, or a stage `buffer N backpressure`, gives room.\n",
    )
}

/// The warnings of a text that says this blueprint.
fn warnings_in(alloc: Global, text: &[u8], b: &Blueprint) -> Result<Vec<u8>, NoMemory> {
    let mut out = Vec::new(alloc);
    if let Ok(said) = parse(alloc, text) {
        let meetings = meetings_of(alloc, b)?;
        for meeting in meetings.iter() {
            put_warning(alloc, &mut out, text, &said, b, *meeting)?;
        }
    }
    Ok(out)
}

// Choice: docs/DECISIONS.md#ways-that-meet
/// Warnings of a text that says a blueprint which breaks no rule: for each stage that takes its inputs by turns two ways that part at
/// one stage and meet there, if neither has a lane or a buffer. A run may stall there. Empty if the wires have no closed walk,
/// directions ignored.
pub fn warnings_of(alloc: Global, text: &[u8], c: &Checked) -> Result<Vec<u8>, NoMemory>
    ensures { IfOk result (λ told. IsPolytree (wiring (blueprint_wires (checked_blueprint c.now))) → told.items ≡ []) }
{
    if c.is_polytree() {
        Ok(Vec::new(alloc))
    } else {
        warnings_in(alloc, text, c.blueprint())
    }
}
