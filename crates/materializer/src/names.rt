// The files that a blueprint reads and writes, its sinks, and its stages that choose.
// Choice: docs/DECISIONS.md#hash-maps
ghost use Rattle.std.specs.Prelude.{◌≡◌, IfOk};
ghost use Rattle.std.specs.Option.{option_map};
ghost use Rattle.materializer.specs.Choices.{pick_names};
ghost use Rattle.materializer.specs.Files.{source_file, output_of, inputs_of_nodes, outputs_of_nodes, is_sink, sinks_of_nodes};

use blue_check::picks::picks;
use elem_core::line::Line;
use elem_core::why::NoMemory;
use std::alloc::Global;
use stream_model::blueprint::{Blueprint, Node};
use stream_model::kind::Kind;

/// The file that a source reads.
pub fn source_file(kind: &Kind) -> Option<&Line>
    ensures { option_map (λ l. l.now) result ≡ source_file kind.now }
{
    match kind {
        Kind::Lines(file) => Some(file),
        _ => None,
    }
}

/// The file that a sink writes.
pub fn output_of(kind: &Kind) -> Option<&Line>
    ensures { option_map (λ l. l.now) result ≡ output_of kind.now }
{
    match kind {
        Kind::ToLines(file) | Kind::Head(file) | Kind::Last(file) => Some(file),
        _ => None,
    }
}

/// Whether a node is a sink.
pub fn is_sink(node: &Node) -> bool
    ensures { result ≡ is_sink node.now }
{
    match node.kind {
        Kind::ToLines(_) | Kind::Head(_) | Kind::Last(_) | Kind::Ignore => true,
        _ => false,
    }
}

/// The files that these nodes read.
fn inputs_of(alloc: Global, nodes: &[Node]) -> Result<Vec<Line>, NoMemory>
    ensures { IfOk result (λ names. names.items ≡ inputs_of_nodes nodes.now) }
{
    let mut names = Vec::new(alloc);
    for node in nodes {
        if let Some(file) = source_file(&node.kind) {
            names.push(file.copy(alloc)?)?;
        }
    }
    Ok(names)
}

/// The files that these nodes write.
fn outputs_of_nodes(alloc: Global, nodes: &[Node]) -> Result<Vec<Line>, NoMemory>
    ensures { IfOk result (λ names. names.items ≡ outputs_of_nodes nodes.now) }
{
    let mut names = Vec::new(alloc);
    for node in nodes {
        if let Some(file) = output_of(&node.kind) {
            names.push(file.copy(alloc)?)?;
        }
    }
    Ok(names)
}

/// The names of the sinks among these nodes.
fn sinks_of(alloc: Global, nodes: &[Node]) -> Result<Vec<Line>, NoMemory>
    ensures { IfOk result (λ names. names.items ≡ sinks_of_nodes nodes.now) }
{
    let mut names = Vec::new(alloc);
    for node in nodes {
        if is_sink(node) {
            names.push(node.name.copy(alloc)?)?;
        }
    }
    Ok(names)
}

/// The names of the stages among these nodes whose kinds choose.
fn picks_of(alloc: Global, nodes: &[Node]) -> Result<Vec<Line>, NoMemory>
    ensures { IfOk result (λ names. names.items ≡ pick_names nodes.now) }
{
    let mut names = Vec::new(alloc);
    for node in nodes {
        if picks(&node.kind) {
            names.push(node.name.copy(alloc)?)?;
        }
    }
    Ok(names)
}

/// The names of the files that its sources read, in the order of nodes.
pub fn input_names(alloc: Global, b: &Blueprint) -> Result<Vec<Line>, NoMemory>
    ensures { IfOk result (λ names. names.items ≡ inputs_of_nodes b.now.nodes.items) }
{
    inputs_of(alloc, &b.nodes)
}

/// The names of the files that its sinks write, in the order of nodes.
pub fn output_names(alloc: Global, b: &Blueprint) -> Result<Vec<Line>, NoMemory>
    ensures { IfOk result (λ names. names.items ≡ outputs_of_nodes b.now.nodes.items) }
{
    outputs_of_nodes(alloc, &b.nodes)
}

/// The names of its sinks, in the order of nodes; also of those without a file.
pub fn sink_names(alloc: Global, b: &Blueprint) -> Result<Vec<Line>, NoMemory>
    ensures { IfOk result (λ names. names.items ≡ sinks_of_nodes b.now.nodes.items) }
{
    sinks_of(alloc, &b.nodes)
}

/// The names of its stages whose kinds choose, in the order of nodes.
pub fn pick_names(alloc: Global, b: &Blueprint) -> Result<Vec<Line>, NoMemory>
    ensures { IfOk result (λ names. names.items ≡ pick_names b.now.nodes.items) }
{
    picks_of(alloc, &b.nodes)
}
