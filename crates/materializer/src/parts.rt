// The places of a blueprint's nodes.
ghost use Rattle.std.specs.Prelude.{◌≡◌, ◌+◌, if◌then◌else◌, IfOk};
ghost use Rattle.elem_core.specs.Values.{same_text};
ghost use Rattle.stream_model.specs.Composed.{inputs_by};
ghost use Rattle.stream_model.specs.View.{outputs_by};
ghost use Rattle.materializer.specs.Planned.{places_from};
ghost use Rattle.materializer.specs.Ports.{used_inputs, used_outputs, used_ports};

use blue_names::ports::{input_ports, output_ports};
use elem_core::count::numbered;
use elem_core::line::Line;
use elem_core::why::NoMemory;
use interpreter::parts::Place;
use std::alloc::{AllocError, Global};
use stream_model::blueprint::{Node, WireDecl};
use stream_model::kind::Kind;

/// One above the port, where the name is that of its node.
fn port_above(name: &Line, node: &Line, port: u32) -> Result<u32, NoMemory>
    ensures { IfOk result (λ n. n ≡ (if same_text name.now node.now then port + 1 else 0)) }
{
    if *name == *node {
        match port.checked_add(1) {
            Some(above) => Ok(above),
            None => Err(AllocError),
        }
    } else {
        Ok(0)
    }
}

/// How many inputs of that node its wires use: one above the highest.
fn used_inputs(wires: &[WireDecl], name: &Line) -> Result<u32, NoMemory>
    ensures { IfOk result (λ n. n ≡ used_inputs wires.now name.now) }
{
    let mut most = 0;
    for wire in wires {
        most = most.max(port_above(name, &wire.to, wire.input)?);
    }
    Ok(most)
}

/// How many outputs of that node its wires use: one above the highest.
fn used_outputs(wires: &[WireDecl], name: &Line) -> Result<u32, NoMemory>
    ensures { IfOk result (λ n. n ≡ used_outputs wires.now name.now) }
{
    let mut most = 0;
    for wire in wires {
        most = most.max(port_above(name, &wire.from, wire.output)?);
    }
    Ok(most)
}

/// The ports of a custom stage of that name; those of any other kind do not matter, and are told as none.
fn ports_of(wires: &[WireDecl], node: &Node) -> Result<(u32, u32), NoMemory>
    ensures { IfOk result (λ ports. (inputs_by ports node.now.kind ≡ inputs_by (used_ports wires.now node.now.name) node.now.kind)
        × (outputs_by ports node.now.kind ≡ outputs_by (used_ports wires.now node.now.name) node.now.kind)) }
{
    match node.kind {
        Kind::Custom(_) => Ok((
            used_inputs(wires, &node.name)?,
            used_outputs(wires, &node.name)?,
        )),
        _ => Ok((0, 0)),
    }
}

// Choices: docs/DECISIONS.md#ports-of-8-bits, docs/DECISIONS.md#ports-by-wires
/// The places of these nodes, in order, between which these wires lead. A number that is out of 32 bits is want of memory.
pub fn places_of(alloc: Global, nodes: &[Node], wires: &[WireDecl]) -> Result<Vec<Place>, NoMemory>
    ensures { IfOk result (λ places. places.items ≡ places_from wires.now 0 nodes.now) }
{
    let mut places = Vec::with_capacity(alloc, nodes.len())?;
    for (i, node) in nodes.iter().enumerate() {
        let ports = ports_of(wires, node)?;
        places.push(Place {
            node: numbered(i)?,
            inputs: input_ports(ports, &node.kind),
            outputs: output_ports(ports, &node.kind),
        })?;
    }
    Ok(places)
}
