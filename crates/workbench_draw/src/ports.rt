// The ports that a drawing shows at a node: those that wires join, where the node has several.
use crate::message::put_number;
use blue_names::ports::{input_ports, output_ports};
use elem_core::why::NoMemory;
use std::alloc::Global;
use stream_model::blueprint::{Node, WireDecl};
use stream_model::kind::Kind;

/// A side of a node.
#[derive(Clone, Copy)]
pub(crate) enum Side {
    /// Its inputs, at the left.
    Inputs,
    /// Its outputs, at the right.
    Outputs,
}

/// Whether a port of a node is shown: the node has several at that side, or it is not the first.
fn is_shown(side: Side, kind: &Kind, number: u32) -> bool {
    let count = match side {
        Side::Inputs => input_ports((2, 2), kind),
        Side::Outputs => output_ports((2, 2), kind),
    };
    !matches!(kind, Kind::Ignore) && (number != 0 || count > 1)
}

/// The port of a node at which a wire ends, where it ends there.
fn joined(side: Side, node: &Node, wire: &WireDecl) -> Option<u32> {
    match side {
        Side::Inputs if wire.to == node.name => Some(wire.input),
        Side::Outputs if wire.from == node.name => Some(wire.output),
        _ => None,
    }
}

/// Puts a number among others in ascending order, once.
fn insert(alloc: Global, ports: &[u32], number: u32) -> Result<Vec<u32>, NoMemory> {
    let mut out = Vec::new(alloc);
    let mut is_in = false;
    for port in ports {
        if number <= *port && !is_in {
            out.push(number)?;
            is_in = true;
        }
        if number != *port {
            out.push(*port)?;
        }
    }
    if !is_in {
        out.push(number)?;
    }
    Ok(out)
}

/// The ports of a node that are shown at a side, in ascending order.
pub(crate) fn ports_shown(
    alloc: Global,
    side: Side,
    node: &Node,
    wires: &[WireDecl],
) -> Result<Vec<u32>, NoMemory> {
    let mut ports = Vec::new(alloc);
    for wire in wires {
        if let Some(number) = joined(side, node, wire) {
            if is_shown(side, &node.kind, number) {
                ports = insert(alloc, &ports, number)?;
            }
        }
    }
    Ok(ports)
}

/// The letter of a side in the names of ports.
fn letter(side: Side) -> u8 {
    match side {
        Side::Inputs => b'i',
        Side::Outputs => b'o',
    }
}

// Choice: docs/DECISIONS.md#ports-are-cells
/// Appends the cells of ports as a column of a table.
pub(crate) fn put_cells(out: &mut Vec<u8>, side: Side, ports: &[u32]) -> Result<(), NoMemory> {
    if ports.is_empty() {
        return Ok(());
    }
    out.extend_from_slice(
        b"<td><table border=\"0\" cellborder=\"0\" cellspacing=\"0\" cellpadding=\"1\">",
    )?;
    for port in ports {
        out.extend_from_slice(b"<tr><td port=\"")?;
        out.push(letter(side))?;
        put_number(out, u64::from(*port))?;
        out.extend_from_slice(b"\"><font point-size=\"8\">")?;
        put_number(out, u64::from(*port))?;
        out.extend_from_slice(b"</font></td></tr>")?;
    }
    out.extend_from_slice(b"</table></td>")
}

/// Appends where an end of a wire meets a node: at the cell of its port, where that is shown.
pub(crate) fn put_end(
    out: &mut Vec<u8>,
    side: Side,
    kind: &Kind,
    number: u32,
) -> Result<(), NoMemory> {
    if !is_shown(side, kind, number) {
        return Ok(());
    }
    out.extend_from_slice(match side {
        Side::Inputs => b"headport=\"i",
        Side::Outputs => b"tailport=\"o",
    })?;
    put_number(out, u64::from(number))?;
    out.extend_from_slice(match side {
        Side::Inputs => b":w\", ",
        Side::Outputs => b":e\", ",
    })
}
