// Which end of a wire is at a port that its node does not have, and which ports that node has.
use crate::message::{put_number, put_part_line};
use crate::place::{FaultPlace, Sort};
use blue_lang::kinds::sort_word;
use blue_modules::text::BlueText;
use blue_names::custom_ports::{kind_inputs, kind_outputs};
use elem_core::line::Line;
use elem_core::why::NoMemory;
use std::alloc::Global;
use stream_model::blueprint::{Blueprint, Node};
use stream_model::heads::{shipped_customs, shipped_heads};
use stream_model::kind::Kind;
use stream_model::known::Heads;

/// An end of a wire: the name of its node, which of its ports, and whether that is an output.
#[derive(Clone, Copy)]
struct End<'a> {
    name: &'a Line,
    port: u32,
    output: bool,
}

/// The number of inputs or of outputs of a kind, with the plugs and the custom stages of `streams`.
fn ports_of(alloc: Global, kind: &Kind, output: bool) -> Result<u32, NoMemory> {
    let plugs = shipped_heads(alloc)?;
    let customs = shipped_customs(alloc)?;
    let heads = Heads::of(&plugs, &customs);
    Ok(if output {
        kind_outputs(&heads, kind)
    } else {
        kind_inputs(&heads, kind)
    })
}

/// The number of the first node of that name.
fn node_named(nodes: &[Node], name: &Line) -> Option<usize> {
    for i in 0..nodes.len() {
        if nodes[i].name == *name {
            return Some(i);
        }
    }
    None
}

/// Appends the number of ports of one direction, and their numbers.
fn put_ports(out: &mut Vec<u8>, count: u32, output: bool) -> Result<(), NoMemory> {
    let word: &[u8] = if output { b"output" } else { b"input" };
    match count {
        0 => out.extend_from_slice(b"no ")?,
        _ => {
            put_number(out, u64::from(count))?;
            out.push(b' ')?;
        }
    }
    out.extend_from_slice(word)?;
    match count.checked_sub(1) {
        None => Ok(()),
        Some(0) => out.extend_from_slice(b", number 0"),
        Some(last) => {
            out.extend_from_slice(b"s, numbers 0 to ")?;
            put_number(out, u64::from(last))
        }
    }
}

/// Appends which ports the node of an end has, if it does not have that one; says whether that is so.
fn put_end(
    alloc: Global,
    out: &mut Vec<u8>,
    text: &[u8],
    said: &BlueText,
    b: &Blueprint,
    end: End<'_>,
) -> Result<bool, NoMemory> {
    let Some(number) = node_named(&b.nodes, end.name) else {
        return Ok(false);
    };
    let Some(node) = b.nodes.get(number) else {
        return Ok(false);
    };
    let count = ports_of(alloc, &node.kind, end.output)?;
    if end.port < count {
        return Ok(false);
    }
    out.push(b'`')?;
    out.extend_from_slice(end.name.bytes())?;
    out.extend_from_slice(b"` is a ")?;
    out.extend_from_slice(sort_word(&node.kind))?;
    out.extend_from_slice(b" with ")?;
    put_ports(out, count, end.output)?;
    put_part_line(alloc, out, text, said, FaultPlace::of(Sort::Node, number))?;
    out.extend_from_slice(b".\n")?;
    Ok(true)
}

/// Appends which ports the node has that lacks a port of the wire of that number: the node where the wire begins, or else the one
/// where it ends.
pub(crate) fn put_lacking(
    alloc: Global,
    out: &mut Vec<u8>,
    text: &[u8],
    said: &BlueText,
    b: &Blueprint,
    number: usize,
) -> Result<(), NoMemory> {
    let Some(wire) = b.wires.get(number) else {
        return Ok(());
    };
    let from = End {
        name: &wire.from,
        port: wire.output,
        output: true,
    };
    let to = End {
        name: &wire.to,
        port: wire.input,
        output: false,
    };
    if !put_end(alloc, out, text, said, b, from)? {
        put_end(alloc, out, text, said, b, to)?;
    }
    Ok(())
}
