// The first wire on which types clash, and the first node at which a type would nest too deep.
ghost use Rattle.std.specs.Prelude.{◌≡◌, ◌==◌, ℕ, List, Option, IfOk, slice_get, Some, length};
ghost use Rattle.std.specs.Option.{option_map};
ghost use Rattle.elem_core.specs.Sort.{Sort};
ghost use Rattle.stream_model.specs.declared.blueprint.Node.{Node as Declared};
ghost use Rattle.blue_names.specs.First.{first_from, when};
ghost use Rattle.blue_names.specs.Rounds.{is_joining, unlike, clash_of, clash_with, clash_on, type_on, attempt_at, is_deep, settled, type_clash, too_deep};
ghost use Rattle.blue_names.specs.Links.{wire_of_link, wires_of_links};
ghost use Rattle.blue_types.specs.Library.{IsKnown};
ghost use Rattle.blue_types.specs.Net.{HasFirstWires, type_at};

use crate::attempts::attempt;
use crate::library::Library;
use crate::net::{Net, node_at, type_of, type_on};
use crate::stages::port_typed;
use blue_names::links::NumberedWire;
use blue_names::typed::{Clash, Typed};
use blue_names::want::Want;
use elem_core::elem_type::ElemType;
use elem_core::why::NoMemory;
use std::alloc::Global;
use stream_model::blueprint::Node;
use stream_model::kind::Kind;

/// Whether the inputs of a kind take one type.
fn is_joining(kind: &Kind) -> bool
    ensures { result ≡ is_joining kind.now }
{
    match kind {
        Kind::Merge(_) | Kind::MergeHub(_, _) => true,
        Kind::Concat(_) | Kind::Interleave(_, _) | Kind::MergeSorted => true,
        _ => false,
    }
}

/// The clash of a type with the one that a node took.
fn unlike(
    alloc: Global,
    wire: usize,
    t: ElemType,
    taken: Option<&ElemType>,
) -> Result<Option<Clash>, NoMemory>
    ensures { (o : Option Sort) → option_map (λ s. s.now) taken.entry ≡ o → IfOk result (λ c. c ≡ unlike wire t o) }
{
    match taken {
        None => Ok(None),
        Some(taken) => {
            if *taken == t {
                Ok(None)
            } else {
                let want = Want::Is(taken.copy(alloc)?);
                Ok(Some(Clash {
                    wire,
                    left: t,
                    want,
                }))
            }
        }
    }
}

/// The clash that came of a type.
fn clash_of(wire: usize, typed: Typed) -> Option<Clash>
    ensures { result ≡ clash_of wire typed }
{
    match typed {
        Typed::Clashes(left, want) => Some(Clash { wire, left, want }),
        _ => None,
    }
}

/// The clash of a type that arrives at a node of a kind.
fn clash_at(
    alloc: Global,
    library: &Library<'_>,
    kind: &Kind,
    wire: usize,
    port: u32,
    t: ElemType,
    taken: Option<&ElemType>,
) -> Result<Option<Clash>, NoMemory>
    requires { IsKnown library.now }
    ensures { (n : Declared) (o : Option Sort) → n.kind ≡ kind.now → option_map (λ s. s.now) taken.entry ≡ o
        → IfOk result (λ c. c ≡ clash_with library.now.heads.now library.now.chains.now wire port (Some n) o (Some t)) }
{
    if is_joining(kind) {
        unlike(alloc, wire, t, taken)
    } else {
        let typed = port_typed(alloc, library, port, kind, &t)?;
        Ok(clash_of(wire, typed))
    }
}

/// The clash on a wire.
fn clash_on(
    alloc: Global,
    library: &Library<'_>,
    net: &Net<'_>,
    types: &[Option<ElemType>],
    wire: usize,
    link: NumberedWire,
) -> Result<Option<Clash>, NoMemory>
    requires { IsKnown library.now }
    ensures { IfOk result (λ c. c ≡ clash_on library.now.heads.now library.now.chains.now net.now.nodes.now (wires_of_links net.now.links.now)
        (type_at types.now) wire (wire_of_link link)) }
{
    match node_at(net.nodes, link.to) {
        None => Ok(None),
        Some(node) => match type_on(alloc, library, net, types, link)? {
            None => Ok(None),
            Some(t) => clash_at(
                alloc,
                library,
                &node.kind,
                wire,
                link.input,
                t,
                type_of(types, link.to),
            ),
        },
    }
}

/// The first clash on a wire, where these types are fixed.
fn first_clash(
    alloc: Global,
    library: &Library<'_>,
    net: &Net<'_>,
    types: &[Option<ElemType>],
) -> Result<Option<Clash>, NoMemory>
    requires { IsKnown library.now }
    ensures { IfOk result (λ c. c ≡ first_from (clash_on library.now.heads.now library.now.chains.now net.now.nodes.now (wires_of_links net.now.links.now)
        (type_at types.now)) 0 (wires_of_links net.now.links.now)) }
{
    for (i, link) in net.links.iter().enumerate() {
        if let Some(clash) = clash_on(alloc, library, net, types, i, *link)? {
            return Ok(Some(clash));
        }
    }
    Ok(None)
}

/// Whether a type would nest too deep.
fn is_deep(typed: Option<Typed>) -> bool
    ensures { result ≡ is_deep typed }
{
    match typed {
        Some(Typed::TooDeep) => true,
        _ => false,
    }
}

/// The first node at which a type would nest too deep, where these types are fixed.
fn first_deep(
    alloc: Global,
    library: &Library<'_>,
    net: &Net<'_>,
    types: &[Option<ElemType>],
) -> Result<Option<usize>, NoMemory>
    requires known { IsKnown library.now }
    requires wired { HasFirstWires net.now }
    ensures { IfOk result (λ o. o ≡ first_from (λ i n. when (is_deep (attempt_at library.now.heads.now library.now.chains.now net.now.nodes.now
        (wires_of_links net.now.links.now) (type_at types.now) i (Some n))) i) 0 net.now.nodes.now) }
{
    for (i, node) in net.nodes.iter().enumerate() {
        if is_deep(attempt(alloc, library, net, types, i, &node.kind)?) {
            return Ok(Some(i));
        }
    }
    Ok(None)
}

// Choice: docs/DECISIONS.md#fans-clash
/// The first wire on which a type arrives that its input does not accept.
pub fn type_clash(
    alloc: Global,
    library: &Library<'_>,
    net: &Net<'_>,
    types: &[Option<ElemType>],
) -> Result<Option<Clash>, NoMemory>
    requires known { IsKnown library.now }
    requires settled { (i : ℕ) → type_at types.now i ≡ settled library.now.heads.now library.now.chains.now net.now.nodes.now
        (wires_of_links net.now.links.now) i }
    ensures { IfOk result (λ c. c ≡ type_clash library.now.heads.now library.now.chains.now net.now.nodes.now (wires_of_links net.now.links.now)) }
{
    first_clash(alloc, library, net, types)
}

/// The first node at which a type would nest too deep.
pub fn too_deep(
    alloc: Global,
    library: &Library<'_>,
    net: &Net<'_>,
    types: &[Option<ElemType>],
) -> Result<Option<usize>, NoMemory>
    requires known { IsKnown library.now }
    requires wired { HasFirstWires net.now }
    requires settled { (i : ℕ) → type_at types.now i ≡ settled library.now.heads.now library.now.chains.now net.now.nodes.now
        (wires_of_links net.now.links.now) i }
    ensures { IfOk result (λ o. o ≡ too_deep library.now.heads.now library.now.chains.now net.now.nodes.now (wires_of_links net.now.links.now)) }
{
    first_deep(alloc, library, net, types)
}
