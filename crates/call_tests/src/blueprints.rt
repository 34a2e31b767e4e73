// Nodes and wires of small blueprints, whose nodes have names of one byte.
use elem_core::line::Line;
use elem_core::why::{Decider, NoMemory};
use std::alloc::{AllocError, Global};
use stream_model::blueprint::{Node, WireDecl};
use stream_model::kind::Kind;

/// A name of one byte.
fn name(alloc: Global, byte: u8) -> Result<Line, NoMemory> {
    let mut bytes = Vec::new(alloc);
    bytes.push(byte)?;
    if !Line::can_hold(&bytes) {
        return Err(AllocError);
    }
    Ok(Line::of(bytes))
}

/// A node that is called by this byte.
pub fn node(alloc: Global, byte: u8, kind: Kind) -> Result<Node, NoMemory> {
    Ok(Node {
        name: name(alloc, byte)?,
        kind,
        decider: Decider::Stop,
    })
}

/// A wire from the one output of a node to the one input of another.
pub fn wire(alloc: Global, from: u8, to: u8, lane: Option<u32>) -> Result<WireDecl, NoMemory> {
    Ok(WireDecl {
        from: name(alloc, from)?,
        output: 0,
        to: name(alloc, to)?,
        input: 0,
        lane,
        keep: false,
    })
}
