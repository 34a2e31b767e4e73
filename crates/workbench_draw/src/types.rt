// The types on the wires of a checked blueprint.
ghost use Rattle.blue_names.specs.Links.{AreInRange};

use blue_check::checked::Checked;
use blue_names::links::{NumberedWire, links_of};
use blue_names::outs::outs_of;
use blue_names::ports::targets_of;
use blue_types::library::Library;
use blue_types::net::{Net, type_on};
use blue_types::rounds::settle_types;
use elem_core::elem_type::ElemType;
use elem_core::why::NoMemory;
use std::alloc::Global;
use stream_model::blueprint::{ChainDecl, Node};
use stream_model::heads::{shipped_customs, shipped_heads};
use stream_model::known::Heads;

/// The type on each wire of a net of so many nodes, where it is settled.
fn types_in(
    alloc: Global,
    nodes: &[Node],
    chains: &[ChainDecl],
    count: usize,
    links: &[NumberedWire],
) -> Result<Vec<Option<ElemType>>, NoMemory>
    requires { AreInRange count links.now }
{
    let targets = targets_of(alloc, links)?;
    let outs = outs_of(alloc, count, links)?;
    let plugs = shipped_heads(alloc)?;
    let customs = shipped_customs(alloc)?;
    let heads = Heads::of(&plugs, &customs);
    let library = Library::new(alloc, &heads, chains)?;
    let net = Net {
        nodes,
        links,
        targets: &targets,
    };
    let settled = settle_types(alloc, &library, &net, &outs)?;
    let mut types = Vec::new(alloc);
    for link in links {
        types.push(type_on(alloc, &library, &net, &settled, *link)?)?;
    }
    Ok(types)
}

/// The type on each wire, in the order of wires.
pub(crate) fn types_of(alloc: Global, c: &Checked) -> Result<Vec<Option<ElemType>>, NoMemory> {
    let b = c.blueprint();
    let links = links_of(alloc, &b.nodes, &b.wires)?;
    types_in(alloc, &b.nodes, &b.chains, b.nodes.len(), &links)
}
