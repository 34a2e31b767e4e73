// The drawing of a blueprint.
ghost use Rattle.std.specs.Prelude.{◌≡◌, ◌++◌, IfOk, OnOk, length, vec_len};
ghost use Rattle.std.specs.List.{flat_map};
ghost use Rattle.blue_check.specs.Checked.{checked_blueprint};
ghost use Rattle.workbench_draw.specs.Drawing.{IsDrawingOf, drawing_head, drawing_text};

use crate::frames::frame_lines;
use crate::known::{Blamed, Known};
use crate::lines::{island_lines, node_lines, other_lines};
use crate::marks::RunMarks;
use crate::place::place_of;
use crate::types::types_of;
use crate::wires::wire_lines;
use blue_check::checked::Checked;
use blue_check::fault::CheckFault;
use blue_check::islands::islands;
use blue_check::plan::IslandPlan;
use elem_core::line::Line;
use elem_core::why::NoMemory;
use std::alloc::Global;
use stream_model::blueprint::{Blueprint, Node};

// Choice: docs/DECISIONS.md#drawings-are-lines
/// The lines of a drawing: `areas` has those of islands, or of instances.
#[derive(Drop)]
struct Drawing {
    areas: Vec<Vec<u8>>,
    nodes: Vec<Vec<u8>>,
    wires: Vec<Vec<u8>>,
    others: Vec<Vec<u8>>,
}

/// Appends lines.
fn put_lines(out: &mut Vec<u8>, lines: &[Vec<u8>]) -> Result<(), NoMemory>
    ensures { OnOk result (out.new.items ≡ out.old.items ++ flat_map (λ line. line.items) lines.now) }
{
    for line in lines {
        out.extend_from_slice(line)?;
    }
    Ok(())
}

/// Appends the first lines of a drawing: from left to right, outputs in their order, and how nodes and wires look.
fn put_head(out: &mut Vec<u8>) -> Result<(), NoMemory>
    ensures { OnOk result (out.new.items ≡ out.old.items ++ drawing_head) }
{
    out.extend_from_slice(
        b"digraph blueprint {\n  rankdir=LR; ordering=out; nodesep=0.3; ranksep=0.6;\n  graph [fontname=Helvetica, fontsize=10, fontcolor=\"#5b6675\"];\n  node [shape=box, style=\"rounded,filled\", fillcolor=\"#eaf1fb\", color=\"#33639c\", fontname=Helvetica, fontsize=12, fontcolor=\"#1d2430\", margin=\"0.12,0.06\"];\n  edge [fontname=Helvetica, fontsize=9, fontcolor=\"#5b6675\", color=\"#5b6675\", arrowsize=0.7];\n",
    )
}

/// The text of a drawing.
fn text_of(alloc: Global, drawing: &Drawing) -> Result<Vec<u8>, NoMemory>
    ensures { IfOk result (λ text. text.items ≡ drawing_text drawing.now) }
{
    let mut out = Vec::new(alloc);
    put_head(&mut out)?;
    put_lines(&mut out, &drawing.areas)?;
    put_lines(&mut out, &drawing.nodes)?;
    put_lines(&mut out, &drawing.wires)?;
    put_lines(&mut out, &drawing.others)?;
    out.extend_from_slice(b"}\n")?;
    Ok(out)
}

/// The text of a drawing of a blueprint.
fn drawn(alloc: Global, b: &Blueprint, drawing: &Drawing) -> Result<Vec<u8>, NoMemory>
    requires nodes { vec_len drawing.now.nodes ≡ length b.now.nodes.items }
    requires wires { vec_len drawing.now.wires ≡ length b.now.wires.items }
    ensures { IfOk result (λ text. IsDrawingOf b.now text.items) }
{
    text_of(alloc, drawing)
}

/// The lines of the areas of a drawing: of islands where there are several, and of instances where there is one.
fn area_lines(
    alloc: Global,
    nodes: &[Node],
    islands: &[IslandPlan],
) -> Result<Vec<Vec<u8>>, NoMemory> {
    if islands.len() > 1 {
        island_lines(alloc, nodes, islands)
    } else if islands.len() == 1 {
        frame_lines(alloc, nodes)
    } else {
        Ok(Vec::new(alloc))
    }
}

/// The text of a drawing with a box round each island where there are several, and what is known beside the blueprint.
fn draw_all(
    alloc: Global,
    b: &Blueprint,
    islands: &[IslandPlan],
    known: &Known<'_, '_, '_>,
) -> Result<Vec<u8>, NoMemory>
    ensures { IfOk result (λ text. IsDrawingOf b.now text.items) }
{
    let drawing = Drawing {
        areas: area_lines(alloc, &b.nodes, islands)?,
        nodes: node_lines(alloc, b, known)?,
        wires: wire_lines(alloc, b, known)?,
        others: other_lines(alloc, &b.nodes, known.blamed)?,
    };
    drawn(alloc, b, &drawing)
}

/// The graph of a checked blueprint in the DOT language: a line for each node, with the form and the colours of its role, its kind and
/// the chain that it runs; and one for each wire with its type, a lane dashed and with its size. Ports have their numbers where a node
/// has several. A dotted line leads from each trip to the valves of its switch. Where there are several islands a box is round each,
/// else a frame round each instance of a module. `marks` is what a report says of a run: how each sink ended, and what passed each wire.
pub fn draw(alloc: Global, c: &Checked, marks: Option<&RunMarks>) -> Result<Vec<u8>, NoMemory>
    ensures { IfOk result (λ text. IsDrawingOf (checked_blueprint c.now) text.items) }
{
    let plan = islands(alloc, c)?;
    let types = types_of(alloc, c)?;
    let known = Known {
        types: &types,
        blamed: None,
        marks,
    };
    draw_all(alloc, c.blueprint(), &plan.islands, &known)
}

/// The graph of a blueprint that breaks a rule: the same without islands and types, and the place of the fault is red and has the
/// words of `told` in its label. `own` is the blueprint's own file.
pub fn draw_unfit(
    alloc: Global,
    b: &Blueprint,
    own: &Line,
    fault: &CheckFault,
    told: &[u8],
) -> Result<Vec<u8>, NoMemory>
    ensures { IfOk result (λ text. IsDrawingOf b.now text.items) }
{
    let blamed = match place_of(b, own, fault) {
        Some(place) => Some(Blamed { place, fault: told }),
        None => None,
    };
    let known = Known {
        types: &[],
        blamed,
        marks: None,
    };
    draw_all(alloc, b, &[], &known)
}
