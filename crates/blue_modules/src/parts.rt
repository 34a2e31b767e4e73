// The parts of bodies, with each instance replaced.
ghost use Rattle.std.specs.Prelude.{◌≡◌, ◌++◌, ◌∷◌, [], Bool, List, OnOk, IfOk, map, Option, ◌==◌, ◌&&◌};
ghost use Rattle.std.specs.List.{flat_map};
ghost use Rattle.elem_core.specs.Bytes.{point_byte};
ghost use Rattle.blue_modules.specs.declared.text.Entry.{Entry as Said};
ghost use Rattle.blue_modules.specs.Counts.{counted_modules, plain_counted, AreCounted, body_parts};
ghost use Rattle.blue_modules.specs.Flatten.{inside, around_body, decider_within, flat_node, flat_lane, flat_wire, entry_parts, prefix_of, replaced, flat_body, part_nodes, part_wires, place, port_through};

use crate::copies::{copy_kind, takes_decider};
use crate::counts::Counted;
use crate::entries::Entries;
use crate::places::follow;
use crate::text::{Attrs, Entry, LaneMark, NodeText, PortMark, UseText, WireText};
use elem_core::line::Line;
use elem_core::why::{Decider, NoMemory};
use std::alloc::{AllocError, Global};
use stream_model::blueprint::{Node, WireDecl};

/// What is set around the parts of a body.
#[derive(Clone, Copy)]
pub struct Around {
    /// The size of a lane that names none.
    pub size: u32,
    /// The decider of a stage that has none of its own.
    pub decider: Decider,
}

/// Nodes and wires of a blueprint, so far.
#[derive(Drop)]
pub struct Parts {
    /// The nodes.
    pub nodes: Vec<Node>,
    /// The wires.
    pub wires: Vec<WireDecl>,
}

/// What is set around the parts of something that sets this.
pub fn inside(attrs: Attrs, around: Around) -> Around
    ensures { result ≡ inside attrs around }
{
    Around {
        size: attrs.size.unwrap_or(around.size),
        decider: attrs.decider.unwrap_or(around.decider),
    }
}

/// What is set around the body of an instance of a module.
fn around_body(of: &Counted<'_>, instance: &UseText, around: Around) -> Around
    ensures { result ≡ around_body (plain_counted of.now) instance.now around }
{
    inside(of.of.attrs, inside(instance.attrs, around))
}

// Choice: docs/DECISIONS.md#empty-modules-are-passed
/// Whether a module comes to nothing.
fn is_empty(counted: &Counted<'_>) -> bool
    ensures { result ≡ ((counted.now.nodes == 0) && (counted.now.wires == 0)) }
{
    counted.nodes == 0 && counted.wires == 0
}

/// The decider of a stage.
pub fn decider_within(takes: bool, own: Option<Decider>, around: Decider) -> Decider
    ensures { result ≡ decider_within takes own around }
{
    if takes {
        own.unwrap_or(around)
    } else {
        Decider::Stop
    }
}

// Choice: docs/DECISIONS.md#longer-than-a-line
/// A line of these bytes. One that no line can hold is answered as want of memory.
pub fn line_of(bytes: Vec<u8>) -> Result<Line, NoMemory>
    ensures { IfOk result (λ l. l ≡ bytes.items) }
{
    if Line::can_hold(&bytes) {
        Ok(Line::of(bytes))
    } else {
        Err(AllocError)
    }
}

fn flat_node(
    alloc: Global,
    prefix: &[u8],
    around: Around,
    node: &NodeText,
) -> Result<Node, NoMemory>
    ensures { IfOk result (λ n. n ≡ flat_node prefix.now around node.now) }
{
    let mut name = prefix.to_vec(alloc)?;
    name.extend_from_slice(node.name.bytes())?;
    Ok(Node {
        name: line_of(name)?,
        kind: copy_kind(alloc, &node.kind)?,
        decider: decider_within(takes_decider(&node.kind), node.decider, around.decider),
    })
}

/// The size of a lane, where a wire is one.
pub(crate) fn flat_lane(around: Around, lane: LaneMark) -> Option<u32>
    ensures { result ≡ flat_lane around lane }
{
    match lane {
        LaneMark::Fused => None,
        LaneMark::Inherited => Some(around.size),
        LaneMark::Own(size) => Some(size),
    }
}

/// A node of a text without modules. Nothing of it is copied.
pub(crate) fn own_node(around: Around, node: NodeText) -> Node
    ensures { result ≡ flat_node [] around node }
{
    let NodeText {
        name,
        kind,
        decider,
    } = node;
    let decider = decider_within(takes_decider(&kind), decider, around.decider);
    Node {
        name,
        kind,
        decider,
    }
}

/// A name with a point behind it.
fn pointed(alloc: Global, name: &Line) -> Result<Line, NoMemory>
    ensures { IfOk result (λ l. l ≡ name.now ++ point_byte ∷ []) }
{
    let mut path = name.bytes().to_vec(alloc)?;
    path.push(b'.')?;
    line_of(path)
}

/// The node and the port that a place of a text without modules stands for. The name of a node is not copied.
pub(crate) fn own_end(alloc: Global, name: Line, port: PortMark) -> Result<(Line, u32), NoMemory>
    ensures name { (output : Bool) (body : List Said) → IfOk result (λ r. r.0 ≡ (place (port_through output []) body name port).0) }
    ensures port { (output : Bool) (body : List Said) → IfOk result (λ r. r.1 ≡ (place (port_through output []) body name port).1) }
{
    match port {
        PortMark::Num(number) => Ok((name, number)),
        // A text without modules has no instance, which alone has ports by names.
        PortMark::Name(_) => Ok((pointed(alloc, &name)?, 0)),
    }
}

/// The node and the port that a place stands for.
fn flat_end(
    alloc: Global,
    book: &[Counted<'_>],
    body: &Entries<'_>,
    prefix: &[u8],
    output: bool,
    name: &Line,
    port: &PortMark,
) -> Result<(Line, u32), NoMemory>
    ensures name { IfOk result (λ r. r.0 ≡ prefix.now ++ (place (port_through output (counted_modules book.now)) body.now name.now port.now).0) }
    ensures port { IfOk result (λ r. r.1 ≡ (place (port_through output (counted_modules book.now)) body.now name.now port.now).1) }
{
    let mut path = prefix.to_vec(alloc)?;
    let number = follow(&mut path, book, body, output, name, port)?;
    Ok((line_of(path)?, number))
}

fn flat_wire(
    alloc: Global,
    book: &[Counted<'_>],
    body: &Entries<'_>,
    prefix: &[u8],
    around: Around,
    wire: &WireText,
) -> Result<WireDecl, NoMemory>
    ensures { IfOk result (λ w. w ≡ flat_wire (counted_modules book.now) body.now prefix.now around wire.now) }
{
    let (from, output) = flat_end(alloc, book, body, prefix, true, &wire.from, &wire.output)?;
    let (to, input) = flat_end(alloc, book, body, prefix, false, &wire.to, &wire.input)?;
    Ok(WireDecl {
        from,
        output,
        to,
        input,
        lane: flat_lane(around, wire.lane),
        keep: wire.keep,
    })
}

/// The names of the instances around the body of an instance.
fn prefix_of(alloc: Global, prefix: &[u8], name: &Line) -> Result<Vec<u8>, NoMemory>
    ensures { IfOk result (λ p. p.items ≡ prefix_of prefix.now name.now) }
{
    let mut longer = prefix.to_vec(alloc)?;
    longer.extend_from_slice(name.bytes())?;
    longer.push(b'.')?;
    Ok(longer)
}

/// Adds the parts of a body.
#[cycle(replace)]
pub fn put_body(
    alloc: Global,
    parts: &mut Parts,
    book: &[Counted<'_>],
    body: &Entries<'_>,
    prefix: &[u8],
    around: Around,
) -> Result<(), NoMemory>
    requires { AreCounted book.now }
    ensures nodes { OnOk result (parts.new.nodes.items ≡ parts.old.nodes.items ++ part_nodes
        (flat_body (counted_modules book.now) prefix.now around body.now)) }
    ensures wires { OnOk result (parts.new.wires.items ≡ parts.old.wires.items ++ part_wires
        (flat_body (counted_modules book.now) prefix.now around body.now)) }
{
    put_entries(alloc, parts, book, body, prefix, around, body.all())
}

/// Adds the parts of these entries of a body.
#[cycle(replace)]
fn put_entries(
    alloc: Global,
    parts: &mut Parts,
    book: &[Counted<'_>],
    body: &Entries<'_>,
    prefix: &[u8],
    around: Around,
    entries: &[Entry],
) -> Result<(), NoMemory>
    requires { AreCounted book.now }
    ensures nodes { OnOk result (parts.new.nodes.items ≡ parts.old.nodes.items ++ part_nodes
        (flat_map (entry_parts (counted_modules book.now) (replaced (counted_modules book.now)) body.now prefix.now around) entries.now)) }
    ensures wires { OnOk result (parts.new.wires.items ≡ parts.old.wires.items ++ part_wires
        (flat_map (entry_parts (counted_modules book.now) (replaced (counted_modules book.now)) body.now prefix.now around) entries.now)) }
{
    for entry in entries {
        put_entry(alloc, parts, book, body, prefix, around, entry)?;
    }
    Ok(())
}

/// Adds the parts of an entry of a body.
#[cycle(replace)]
fn put_entry(
    alloc: Global,
    parts: &mut Parts,
    book: &[Counted<'_>],
    body: &Entries<'_>,
    prefix: &[u8],
    around: Around,
    entry: &Entry,
) -> Result<(), NoMemory>
    requires { AreCounted book.now }
    ensures nodes { OnOk result (parts.new.nodes.items ≡ parts.old.nodes.items ++ part_nodes
        (entry_parts (counted_modules book.now) (replaced (counted_modules book.now)) body.now prefix.now around entry.now)) }
    ensures wires { OnOk result (parts.new.wires.items ≡ parts.old.wires.items ++ part_wires
        (entry_parts (counted_modules book.now) (replaced (counted_modules book.now)) body.now prefix.now around entry.now)) }
{
    match entry {
        Entry::Node(node) => {
            let node = flat_node(alloc, prefix, around, node)?;
            parts.nodes.push(node)?;
            Ok(())
        }
        Entry::Instance(instance) => put_instance(alloc, parts, book, prefix, around, instance),
        Entry::Wire(wire) => {
            let wire = flat_wire(alloc, book, body, prefix, around, wire)?;
            parts.wires.push(wire)?;
            Ok(())
        }
    }
}

/// Adds the parts of an instance.
#[cycle(replace)]
fn put_instance(
    alloc: Global,
    parts: &mut Parts,
    book: &[Counted<'_>],
    prefix: &[u8],
    around: Around,
    instance: &UseText,
) -> Result<(), NoMemory>
    requires { AreCounted book.now }
    ensures nodes { OnOk result (parts.new.nodes.items ≡ parts.old.nodes.items ++ part_nodes
        (replaced (counted_modules book.now) prefix.now around instance.now)) }
    ensures wires { OnOk result (parts.new.wires.items ≡ parts.old.wires.items ++ part_wires
        (replaced (counted_modules book.now) prefix.now around instance.now)) }
{
    match book.split_first() {
        None => Ok(()),
        Some((first, rest)) => {
            if first.of.name == instance.of {
                put_module(alloc, parts, first, rest, prefix, around, instance)
            } else {
                put_instance(alloc, parts, rest, prefix, around, instance)
            }
        }
    }
}

/// Adds the parts of the body of an instance's module. One that comes to nothing is passed over, since there may be very many
/// instances of it.
#[cycle(replace)]
fn put_module(
    alloc: Global,
    parts: &mut Parts,
    first: &Counted<'_>,
    rest: &[Counted<'_>],
    prefix: &[u8],
    around: Around,
    instance: &UseText,
) -> Result<(), NoMemory>
    requires { AreCounted (first.now ∷ rest.now) }
    ensures nodes { OnOk result (parts.new.nodes.items ≡ parts.old.nodes.items ++ part_nodes (body_parts rest.now first.now prefix.now around instance.now)) }
    ensures wires { OnOk result (parts.new.wires.items ≡ parts.old.wires.items ++ part_wires (body_parts rest.now first.now prefix.now around instance.now)) }
{
    if is_empty(first) {
        return Ok(());
    }
    let longer = prefix_of(alloc, prefix, &instance.name)?;
    let around = around_body(first, instance, around);
    put_body(alloc, parts, rest, &first.body, &longer, around)
}
