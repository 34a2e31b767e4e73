// The lines of a drawing: one for each node, each island and each order of a switch.
ghost use Rattle.std.specs.Prelude.{◌≡◌, IfOk, length, vec_len};

use crate::known::{Blamed, Known};
use crate::labels::put_label;
use crate::look::{
    AREA, NODE_FAULT, Role, colours_of, form_of, put_fault, put_quoted, put_text, role_of,
};
use crate::message::put_number;
use crate::place::Sort;
use crate::ports::{Side, ports_shown, put_cells};
use blue_check::plan::IslandPlan;
use elem_core::line::Line;
use elem_core::why::NoMemory;
use std::alloc::Global;
use stream_model::blueprint::{Blueprint, Node};
use stream_model::kind::Kind;

/// Appends the label of a node: plain, or between the columns of its ports.
fn put_whole_label(
    alloc: Global,
    out: &mut Vec<u8>,
    b: &Blueprint,
    node: &Node,
    label: &[u8],
) -> Result<(), NoMemory> {
    let inputs = ports_shown(alloc, Side::Inputs, node, &b.wires)?;
    let outputs = ports_shown(alloc, Side::Outputs, node, &b.wires)?;
    if inputs.is_empty() && outputs.is_empty() {
        out.extend_from_slice(b"label=<")?;
        out.extend_from_slice(label)?;
        return out.extend_from_slice(b">");
    }
    out.extend_from_slice(
        b"margin=0, label=<<table border=\"0\" cellborder=\"0\" cellspacing=\"0\" cellpadding=\"3\"><tr>",
    )?;
    put_cells(out, Side::Inputs, &inputs)?;
    out.extend_from_slice(b"<td>")?;
    out.extend_from_slice(label)?;
    out.extend_from_slice(b"</td>")?;
    put_cells(out, Side::Outputs, &outputs)?;
    out.extend_from_slice(b"</tr></table>>")
}

/// Appends the form and the colours of a node, and how the name of its label begins: that of a point is `xlabel`.
fn put_form(out: &mut Vec<u8>, role: Role, is_blamed: bool) -> Result<(), NoMemory> {
    out.extend_from_slice(form_of(role))?;
    out.extend_from_slice(if is_blamed {
        NODE_FAULT
    } else {
        colours_of(role)
    })?;
    match role {
        Role::Nothing => out.extend_from_slice(b"x"),
        _ => Ok(()),
    }
}

/// The line of a node: its name, its form, and its label. That of a point stands beside it.
fn node_line(
    alloc: Global,
    b: &Blueprint,
    node: &Node,
    known: &Known<'_, '_, '_>,
    number: usize,
) -> Result<Vec<u8>, NoMemory> {
    let fault = known.blame_at(Sort::Node, number);
    let mark = known.marks.and_then(|marks| marks.sink(number));
    let mut label = Vec::new(alloc);
    put_label(alloc, &mut label, &b.chains, node, mark, fault)?;
    let mut out = Vec::new(alloc);
    out.extend_from_slice(b"  ")?;
    put_quoted(&mut out, node.name.bytes())?;
    out.extend_from_slice(b" [")?;
    put_form(&mut out, role_of(&node.kind), fault.is_some())?;
    put_whole_label(alloc, &mut out, b, node, &label)?;
    out.extend_from_slice(b"];\n")?;
    Ok(out)
}

/// A line for each node, in the order of nodes.
pub(crate) fn node_lines(
    alloc: Global,
    b: &Blueprint,
    known: &Known<'_, '_, '_>,
) -> Result<Vec<Vec<u8>>, NoMemory>
    ensures { IfOk result (λ lines. vec_len lines ≡ length b.now.nodes.items) }
{
    let mut lines = Vec::new(alloc);
    for (i, node) in b.nodes.iter().enumerate() {
        lines.push(node_line(alloc, b, node, known, i)?)?;
    }
    Ok(lines)
}

/// The switch that a trip orders.
fn switch_ordered(kind: &Kind) -> Option<&Line> {
    match kind {
        Kind::TripShutdown(switch, _) => Some(switch),
        Kind::TripAbort(switch, _) => Some(switch),
        _ => None,
    }
}

/// Whether a kind is a valve of that switch.
fn is_valve_of(kind: &Kind, switch: &Line) -> bool {
    match kind {
        Kind::Valve(name) => *name == *switch,
        _ => false,
    }
}

/// The line from a trip to a valve of its switch.
fn order_line(
    alloc: Global,
    trip: &Node,
    valve: &Node,
    switch: &Line,
) -> Result<Vec<u8>, NoMemory> {
    let mut out = Vec::new(alloc);
    out.extend_from_slice(b"  ")?;
    put_quoted(&mut out, trip.name.bytes())?;
    out.extend_from_slice(b" -> ")?;
    put_quoted(&mut out, valve.name.bytes())?;
    out.extend_from_slice(
        b" [style=dotted, arrowhead=vee, constraint=false, color=\"#b3261e\", label=<switch ",
    )?;
    put_text(&mut out, switch.bytes())?;
    out.extend_from_slice(b">];\n")?;
    Ok(out)
}

/// Adds a line from a trip to each valve of its switch.
fn add_orders(
    alloc: Global,
    lines: &mut Vec<Vec<u8>>,
    nodes: &[Node],
    trip: &Node,
    switch: &Line,
) -> Result<(), NoMemory> {
    for valve in nodes {
        if is_valve_of(&valve.kind, switch) {
            lines.push(order_line(alloc, trip, valve, switch)?)?;
        }
    }
    Ok(())
}

/// Adds a line from each trip to each valve of its switch.
fn add_all_orders(alloc: Global, lines: &mut Vec<Vec<u8>>, nodes: &[Node]) -> Result<(), NoMemory> {
    for trip in nodes {
        if let Some(switch) = switch_ordered(&trip.kind) {
            add_orders(alloc, lines, nodes, trip, switch)?;
        }
    }
    Ok(())
}

/// Appends the names of the nodes of an island.
fn put_members(out: &mut Vec<u8>, nodes: &[Node], island: &IslandPlan) -> Result<(), NoMemory> {
    for number in &island.nodes {
        if let Some(node) = nodes.get(*number as usize) {
            out.push(b' ')?;
            put_quoted(out, node.name.bytes())?;
            out.push(b';')?;
        }
    }
    Ok(())
}

/// The line of an island: a light box round its nodes.
fn island_line(
    alloc: Global,
    nodes: &[Node],
    island: &IslandPlan,
    number: usize,
) -> Result<Vec<u8>, NoMemory> {
    let mut out = Vec::new(alloc);
    out.extend_from_slice(b"  subgraph cluster_")?;
    put_number(&mut out, number as u64)?;
    out.extend_from_slice(b" { label=\"island ")?;
    put_number(&mut out, number as u64)?;
    out.extend_from_slice(b"\"; ")?;
    out.extend_from_slice(AREA)?;
    put_members(&mut out, nodes, island)?;
    out.extend_from_slice(b" }\n")?;
    Ok(out)
}

/// A line for each island, in the order of islands.
pub(crate) fn island_lines(
    alloc: Global,
    nodes: &[Node],
    islands: &[IslandPlan],
) -> Result<Vec<Vec<u8>>, NoMemory>
    ensures { IfOk result (λ lines. vec_len lines ≡ length islands.now) }
{
    let mut lines = Vec::new(alloc);
    for (i, island) in islands.iter().enumerate() {
        lines.push(island_line(alloc, nodes, island, i)?)?;
    }
    Ok(lines)
}

/// Adds a line for a switch or a chain that is at fault, which no node stands for.
fn add_blamed(
    alloc: Global,
    lines: &mut Vec<Vec<u8>>,
    blamed: Option<Blamed<'_>>,
) -> Result<(), NoMemory> {
    let Some(b) = blamed else {
        return Ok(());
    };
    let sort: &[u8] = match b.place.sort {
        Sort::Switch => b"switch ",
        Sort::Chain => b"chain ",
        _ => return Ok(()),
    };
    let mut out = Vec::new(alloc);
    out.extend_from_slice(b"  \"at fault\" [")?;
    out.extend_from_slice(NODE_FAULT)?;
    out.extend_from_slice(b"label=<")?;
    out.extend_from_slice(sort)?;
    put_number(&mut out, b.place.number as u64)?;
    out.extend_from_slice(b"<br/>")?;
    put_fault(&mut out, b.fault)?;
    out.extend_from_slice(b">];\n")?;
    lines.push(out)?;
    Ok(())
}

/// The lines that are of no node, wire or island: of a switch or a chain that is at fault, and from trips to valves.
pub(crate) fn other_lines(
    alloc: Global,
    nodes: &[Node],
    blamed: Option<Blamed<'_>>,
) -> Result<Vec<Vec<u8>>, NoMemory> {
    let mut lines = Vec::new(alloc);
    add_blamed(alloc, &mut lines, blamed)?;
    add_all_orders(alloc, &mut lines, nodes)?;
    Ok(lines)
}
