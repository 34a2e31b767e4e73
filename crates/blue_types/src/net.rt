// A blueprint's nodes and wires by numbers, and the types of its nodes.
ghost use Rattle.std.specs.Prelude.{◌≡◌, ◌<◌, ℕ, List, Option, IfOk, MatchBool, map, slice_get, length, Some, None, unwrap_or};
ghost use Rattle.std.specs.Option.{option_map, option_copied};
ghost use Rattle.blue_names.specs.Rounds.{wire_into, port_type, half_type, type_on};
ghost use Rattle.blue_names.specs.CustomPorts.{custom_named, output_type};
ghost use Rattle.blue_names.specs.Links.{wire_of_link, wires_of_links};
ghost use Rattle.blue_types.specs.Net.{HasFirstWires, type_at};

use crate::library::Library;
use crate::sorts::{left_type, right_type};
use blue_names::custom_ports::custom_named;
use blue_names::links::{NumberedWire, link_at};
use blue_names::ports::{PortTable, wire_at};
use elem_core::elem_type::ElemType;
use elem_core::line::Line;
use elem_core::why::NoMemory;
use std::alloc::Global;
use stream_model::blueprint::Node;
use stream_model::kind::Kind;

/// The nodes, the wires, and the wire into each input.
#[derive(Drop)]
pub struct Net<'a> {
    /// The nodes.
    pub nodes: &'a [Node],
    /// The wires by the numbers of their nodes.
    pub links: &'a [NumberedWire],
    /// The wire into each input.
    pub targets: &'a PortTable,
}

/// The node of that number.
pub fn node_at(nodes: &[Node], i: usize) -> Option<&Node>
    ensures { option_map (λ n. n.now) result ≡ slice_get nodes.now i }
{
    nodes.get(i)
}

/// The type of a node, where it is fixed.
pub fn type_of(types: &[Option<ElemType>], node: usize) -> Option<&ElemType>
    ensures { option_map (λ t. t.now) result ≡ type_at types.now node }
{
    match types.get(node) {
        Some(t) => t.as_ref(),
        None => None,
    }
}

/// The wire into an input of a node.
fn wire_into(net: &Net<'_>, node: usize, port: u32) -> Option<NumberedWire>
    requires { HasFirstWires net.now }
    ensures { option_map wire_of_link result ≡ wire_into net.now.nodes.now (wires_of_links net.now.links.now) node port }
{
    match wire_at(net.targets, node, port) {
        Some(i) => link_at(net.links, i),
        None => None,
    }
}

/// The type of an output of the custom stage of that name.
fn output_type<'a>(library: &Library<'a>, name: &Line, port: u32) -> Option<&'a ElemType>
    ensures { option_map (λ t. t.now) result ≡ output_type (custom_named library.now.heads.now name.now) port }
{
    match custom_named(library.heads.customs(), name) {
        Some(head) => head.outputs.get(port as usize),
        None => None,
    }
}

/// What an output of a kind carries, where the type of its node is this.
fn half_type(
    alloc: Global,
    library: &Library<'_>,
    kind: &Kind,
    port: u32,
    t: &ElemType,
) -> Result<ElemType, NoMemory>
    ensures { IfOk result (λ u. u ≡ half_type library.now.heads.now kind.now port t.now) }
{
    match kind {
        Kind::Unzip => {
            if port == 0 {
                left_type(alloc, t)
            } else {
                right_type(alloc, t)
            }
        }
        Kind::Custom(name) => match output_type(library, name, port) {
            Some(output) => output.copy(alloc),
            None => t.copy(alloc),
        },
        _ => t.copy(alloc),
    }
}

/// The same of a node.
fn port_type(
    alloc: Global,
    library: &Library<'_>,
    nodes: &[Node],
    node: usize,
    port: u32,
    t: &ElemType,
) -> Result<ElemType, NoMemory>
    ensures { IfOk result (λ u. u ≡ port_type library.now.heads.now (slice_get nodes.now node) port t.now) }
{
    match nodes.get(node) {
        Some(node) => half_type(alloc, library, &node.kind, port, t),
        None => t.copy(alloc),
    }
}

/// The type on a wire, where the type of its node is fixed.
pub fn type_on(
    alloc: Global,
    library: &Library<'_>,
    net: &Net<'_>,
    types: &[Option<ElemType>],
    link: NumberedWire,
) -> Result<Option<ElemType>, NoMemory>
    ensures { IfOk result (λ o. o ≡ type_on library.now.heads.now net.now.nodes.now (wires_of_links net.now.links.now) (type_at types.now)
        (Some (wire_of_link link))) }
{
    match type_of(types, link.from) {
        Some(t) => Ok(Some(port_type(alloc, library, net.nodes, link.from, link.output, t)?)),
        None => Ok(None),
    }
}

/// The type that arrives at an input of a node, where it is fixed.
pub fn arrival(
    alloc: Global,
    library: &Library<'_>,
    net: &Net<'_>,
    types: &[Option<ElemType>],
    node: usize,
    port: u32,
) -> Result<Option<ElemType>, NoMemory>
    requires { HasFirstWires net.now }
    ensures { IfOk result (λ o. o ≡ type_on library.now.heads.now net.now.nodes.now (wires_of_links net.now.links.now) (type_at types.now)
        (wire_into net.now.nodes.now (wires_of_links net.now.links.now) node port)) }
{
    match wire_into(net, node, port) {
        Some(link) => type_on(alloc, library, net, types, link),
        None => Ok(None),
    }
}
