// The lines of wires: where each ends, its type, its lane, and what passed it.
ghost use Rattle.std.specs.Prelude.{◌≡◌, IfOk, length, vec_len};

use crate::known::Known;
use crate::look::{Role, put_fault, put_quoted, role_of};
use crate::marks::{RunMarks, WireMark};
use crate::message::put_number;
use crate::place::Sort;
use crate::ports::{Side, put_end};
use blue_check::detail::put_type;
use elem_core::elem_type::ElemType;
use elem_core::line::Line;
use elem_core::why::NoMemory;
use std::alloc::Global;
use stream_model::blueprint::{Blueprint, Node, WireDecl};
use stream_model::kind::Kind;

/// What a wire shows.
#[derive(Clone, Copy)]
struct Shown<'t, 'f> {
    /// Its type, where that is known.
    carried: Option<&'t ElemType>,
    /// The size of its lane.
    lane: Option<u32>,
    /// Whether the lane keeps what came before a failure.
    keep: bool,
    /// What passed it.
    mark: Option<WireMark>,
    /// How many tenths of a point it is thicker than usual.
    share: u64,
    /// What is said of its fault.
    fault: Option<&'f [u8]>,
}

/// The node of that name.
fn node_named<'a>(nodes: &'a [Node], name: &Line) -> Option<&'a Node> {
    for node in nodes {
        if node.name == *name {
            return Some(node);
        }
    }
    None
}

/// The lane of a wire, and whether it keeps what came before a failure: that of the hub to which it belongs, and else its own.
fn lane_of(wire: &WireDecl, from: Option<&Node>, to: Option<&Node>) -> (Option<u32>, bool) {
    if let Some(node) = from {
        if let Kind::BroadcastHub(size, _) = &node.kind {
            return (Some(*size), true);
        }
    }
    if let Some(node) = to {
        if let Kind::MergeHub(size, _) = &node.kind {
            return (Some(*size), true);
        }
    }
    (wire.lane, wire.keep)
}

/// The share of a wire in what passed the one that most passed, in thirtieths.
fn share_of(marks: Option<&RunMarks>, mark: Option<WireMark>) -> u64 {
    match (marks, mark) {
        (Some(marks), Some(mark)) => mark.sent.saturating_mul(30) / marks.most().max(1),
        _ => 0,
    }
}

/// Appends where a wire ends at its nodes: at their ports, where those are shown, and at the tip of a source.
fn put_ends(
    out: &mut Vec<u8>,
    wire: &WireDecl,
    from: Option<&Node>,
    to: Option<&Node>,
) -> Result<(), NoMemory> {
    if let Some(node) = from {
        match role_of(&node.kind) {
            Role::Source => out.extend_from_slice(b"tailport=e, ")?,
            _ => put_end(out, Side::Outputs, &node.kind, wire.output)?,
        }
    }
    if let Some(node) = to {
        put_end(out, Side::Inputs, &node.kind, wire.input)?;
    }
    Ok(())
}

/// Appends how the line of a wire looks: of a lane thick and dashed, at fault red, and thicker by its share.
fn put_look(out: &mut Vec<u8>, shown: &Shown<'_, '_>) -> Result<(), NoMemory> {
    if shown.lane.is_some() {
        out.extend_from_slice(b"style=dashed, ")?;
    }
    if shown.fault.is_some() {
        return out.extend_from_slice(b"penwidth=3, color=\"#b3261e\", ");
    }
    let tenths = shown.share.saturating_add(match shown.lane {
        Some(_) => 20,
        None => 10,
    });
    if tenths != 10 {
        out.extend_from_slice(b"penwidth=")?;
        put_number(out, tenths / 10)?;
        out.push(b'.')?;
        put_number(out, tenths % 10)?;
        out.extend_from_slice(b", ")?;
    }
    if shown.lane.is_some() {
        out.extend_from_slice(b"color=\"#6b3fb0\", ")?;
    }
    Ok(())
}

/// Appends a type in blue.
fn put_carried(out: &mut Vec<u8>, carried: &ElemType) -> Result<(), NoMemory> {
    out.extend_from_slice(b"<font color=\"#33639c\">")?;
    put_type(out, carried)?;
    out.extend_from_slice(b"</font>")
}

/// Appends the box of a lane, with its size.
fn put_lane(out: &mut Vec<u8>, size: u32, keep: bool) -> Result<(), NoMemory> {
    out.extend_from_slice(
        b"<tr><td border=\"1\" color=\"#6b3fb0\"><font color=\"#6b3fb0\"><b>lane ",
    )?;
    put_number(out, u64::from(size))?;
    if keep {
        out.extend_from_slice(b" keep")?;
    }
    out.extend_from_slice(b"</b></font></td></tr>")
}

/// Appends how many elements passed, and whether one more is asked.
fn put_mark(out: &mut Vec<u8>, mark: WireMark) -> Result<(), NoMemory> {
    out.extend_from_slice(b"<tr><td><font point-size=\"11\" color=\"#1d2430\"><b>")?;
    put_number(out, mark.sent)?;
    out.extend_from_slice(b"</b></font>")?;
    if mark.shut {
        out.extend_from_slice(b" shut")?;
    } else if mark.asked {
        out.extend_from_slice(b" <font color=\"#953800\">&#9666; asked</font>")?;
    }
    out.extend_from_slice(b"</td></tr>")
}

/// Appends the rows of the label of a wire.
fn put_rows(out: &mut Vec<u8>, shown: &Shown<'_, '_>) -> Result<(), NoMemory> {
    if let Some(carried) = shown.carried {
        out.extend_from_slice(b"<tr><td>")?;
        put_carried(out, carried)?;
        out.extend_from_slice(b"</td></tr>")?;
    }
    if let Some(size) = shown.lane {
        put_lane(out, size, shown.keep)?;
    }
    if let Some(mark) = shown.mark {
        put_mark(out, mark)?;
    }
    if let Some(fault) = shown.fault {
        out.extend_from_slice(b"<tr><td>")?;
        put_fault(out, fault)?;
        out.extend_from_slice(b"</td></tr>")?;
    }
    Ok(())
}

/// Appends the label of a wire: its type alone, or a row for each thing that is known of it.
fn put_label(out: &mut Vec<u8>, shown: &Shown<'_, '_>) -> Result<(), NoMemory> {
    if shown.lane.is_none() && shown.mark.is_none() && shown.fault.is_none() {
        return match shown.carried {
            Some(carried) => {
                out.extend_from_slice(b"label=<")?;
                put_carried(out, carried)?;
                out.extend_from_slice(b">")
            }
            None => out.extend_from_slice(b"label=\"\""),
        };
    }
    out.extend_from_slice(
        b"label=<<table border=\"0\" cellborder=\"0\" cellspacing=\"0\" cellpadding=\"1\">",
    )?;
    put_rows(out, shown)?;
    out.extend_from_slice(b"</table>>")
}

/// The line of a wire, from its node to its node.
fn wire_line(
    alloc: Global,
    nodes: &[Node],
    wire: &WireDecl,
    known: &Known<'_, '_, '_>,
    number: usize,
) -> Result<Vec<u8>, NoMemory> {
    let from = node_named(nodes, &wire.from);
    let to = node_named(nodes, &wire.to);
    let (lane, keep) = lane_of(wire, from, to);
    let mark = known.marks.and_then(|marks| marks.wire(number));
    let shown = Shown {
        carried: known.type_on(number),
        lane,
        keep,
        mark,
        share: share_of(known.marks, mark),
        fault: known.blame_at(Sort::Wire, number),
    };
    let mut out = Vec::new(alloc);
    out.extend_from_slice(b"  ")?;
    put_quoted(&mut out, wire.from.bytes())?;
    out.extend_from_slice(b" -> ")?;
    put_quoted(&mut out, wire.to.bytes())?;
    out.extend_from_slice(b" [")?;
    put_ends(&mut out, wire, from, to)?;
    put_look(&mut out, &shown)?;
    put_label(&mut out, &shown)?;
    out.extend_from_slice(b"];\n")?;
    Ok(out)
}

/// A line for each wire, in the order of wires.
pub(crate) fn wire_lines(
    alloc: Global,
    b: &Blueprint,
    known: &Known<'_, '_, '_>,
) -> Result<Vec<Vec<u8>>, NoMemory>
    ensures { IfOk result (λ lines. vec_len lines ≡ length b.now.wires.items) }
{
    let mut lines = Vec::new(alloc);
    for (i, wire) in b.wires.iter().enumerate() {
        lines.push(wire_line(alloc, &b.nodes, wire, known, i)?)?;
    }
    Ok(lines)
}
