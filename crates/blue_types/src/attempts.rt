// What a node would give, where it has what it needs.
ghost use Rattle.std.specs.Prelude.{◌≡◌, ◌<◌, ◌≤◌, ℕ, ◌-◌, List, [], ◌∷◌, Option, IfOk, slice_get, Some, None};
ghost use Rattle.stream_model.specs.Composed.{count_from};
ghost use Rattle.blue_names.specs.CustomPorts.{kind_inputs};
ghost use Rattle.blue_names.specs.Rounds.{arrivals, first_typed, pair_up, attempt, attempt_by, attempt_at, fixes, is_deep};
ghost use Rattle.blue_names.specs.StageTypes.{fixed_type};
ghost use Rattle.blue_names.specs.Links.{wires_of_links};
ghost use Rattle.blue_types.specs.Library.{IsKnown};
ghost use Rattle.blue_types.specs.Net.{HasFirstWires, type_at};

use crate::library::Library;
use crate::net::{Net, arrival};
use crate::sorts::pair_of;
use crate::stages::{fixed_type, limited, stage_typed};
use blue_names::custom_ports::kind_inputs;
use blue_names::typed::Typed;
use elem_core::elem_type::ElemType;
use elem_core::why::NoMemory;
use std::alloc::Global;
use stream_model::kind::Kind;

/// The type of the lowest-numbered of so many inputs of a node that has one.
fn first_typed(
    alloc: Global,
    library: &Library<'_>,
    net: &Net<'_>,
    types: &[Option<ElemType>],
    node: usize,
    count: u32,
) -> Result<Option<ElemType>, NoMemory>
    requires { HasFirstWires net.now }
    ensures { IfOk result (λ o. o ≡ first_typed (arrivals library.now.heads.now net.now.nodes.now (wires_of_links net.now.links.now) (type_at types.now) node
        (count_from 0 count))) }
{
    for port in 0..count {
        match arrival(alloc, library, net, types, node, port)? {
            Some(t) => return Ok(Some(t)),
            None => {}
        }
    }
    Ok(None)
}

/// What a zip would give: pairs of the types of both its inputs.
fn zipped(
    alloc: Global,
    library: &Library<'_>,
    net: &Net<'_>,
    types: &[Option<ElemType>],
    node: usize,
) -> Result<Option<ElemType>, NoMemory>
    requires { HasFirstWires net.now }
    ensures { IfOk result (λ o. o ≡ pair_up (arrivals library.now.heads.now net.now.nodes.now (wires_of_links net.now.links.now) (type_at types.now) node
        (0 ∷ 1 ∷ []))) }
{
    let left = arrival(alloc, library, net, types, node, 0)?;
    let right = arrival(alloc, library, net, types, node, 1)?;
    match left {
        Some(left) => match right {
            Some(right) => Ok(Some(pair_of(alloc, left, right)?)),
            None => Ok(None),
        },
        None => Ok(None),
    }
}

/// What a node of a kind would give, where its type depends on what it takes.
fn attempt_on(
    alloc: Global,
    library: &Library<'_>,
    net: &Net<'_>,
    types: &[Option<ElemType>],
    node: usize,
    kind: &Kind,
) -> Result<Option<Typed>, NoMemory>
    requires known { IsKnown library.now }
    requires wired { HasFirstWires net.now }
    ensures { IfOk result (λ o. o ≡ attempt_by library.now.heads.now library.now.chains.now None kind.now
        (arrivals library.now.heads.now net.now.nodes.now (wires_of_links net.now.links.now) (type_at types.now) node
        (count_from 0 (kind_inputs library.now.heads.now kind.now)))) }
{
    match kind {
        Kind::Custom(_) => Ok(None),
        Kind::Zip => match zipped(alloc, library, net, types, node)? {
            Some(t) => Ok(Some(limited(t))),
            None => Ok(None),
        },
        _ => match first_typed(
            alloc,
            library,
            net,
            types,
            node,
            kind_inputs(library.heads, kind),
        )? {
            Some(t) => Ok(Some(stage_typed(alloc, library, kind, &t)?)),
            None => Ok(None),
        },
    }
}

/// What a node of a kind would give.
pub fn attempt(
    alloc: Global,
    library: &Library<'_>,
    net: &Net<'_>,
    types: &[Option<ElemType>],
    node: usize,
    kind: &Kind,
) -> Result<Option<Typed>, NoMemory>
    requires known { IsKnown library.now }
    requires wired { HasFirstWires net.now }
    ensures { IfOk result (λ o. o ≡ attempt library.now.heads.now library.now.chains.now kind.now
        (arrivals library.now.heads.now net.now.nodes.now (wires_of_links net.now.links.now) (type_at types.now) node
        (count_from 0 (kind_inputs library.now.heads.now kind.now)))) }
{
    match fixed_type(alloc, library, kind)? {
        Some(t) => Ok(Some(limited(t))),
        None => attempt_on(alloc, library, net, types, node, kind),
    }
}

/// What the node of that number would give.
pub fn attempt_at(
    alloc: Global,
    library: &Library<'_>,
    net: &Net<'_>,
    types: &[Option<ElemType>],
    node: usize,
) -> Result<Option<Typed>, NoMemory>
    requires known { IsKnown library.now }
    requires wired { HasFirstWires net.now }
    ensures { IfOk result (λ o. o ≡ attempt_at library.now.heads.now library.now.chains.now net.now.nodes.now (wires_of_links net.now.links.now)
        (type_at types.now) node (slice_get net.now.nodes.now node)) }
{
    match net.nodes.get(node) {
        Some(n) => attempt(alloc, library, net, types, node, &n.kind),
        None => Ok(None),
    }
}

/// The type that the node of that number would fix.
pub fn fixes_at(
    alloc: Global,
    library: &Library<'_>,
    net: &Net<'_>,
    types: &[Option<ElemType>],
    node: usize,
) -> Result<Option<ElemType>, NoMemory>
    requires known { IsKnown library.now }
    requires wired { HasFirstWires net.now }
    ensures { IfOk result (λ o. o ≡ fixes (attempt_at library.now.heads.now library.now.chains.now net.now.nodes.now (wires_of_links net.now.links.now)
        (type_at types.now) node (slice_get net.now.nodes.now node))) }
{
    match attempt_at(alloc, library, net, types, node)? {
        Some(Typed::Gives(t)) => Ok(Some(t)),
        _ => Ok(None),
    }
}
