// The types of nodes, once a round fixes nothing.
ghost use Rattle.std.specs.Prelude.{◌≡◌, ◌<◌, ◌≤◌, ℕ, List, [], ◌∷◌, ◌++◌, Option, IfOk, OnOk, slice_get, length, vec_len, true};
ghost use Rattle.blue_names.specs.Rounds.{source_at, settled};
ghost use Rattle.blue_names.specs.Links.{wires_of_links};
ghost use Rattle.blue_names.specs.Outs.{IsOuts};
ghost use Rattle.blue_types.specs.Library.{IsKnown};
ghost use Rattle.blue_types.specs.Net.{HasFirstWires, type_at};
ghost use Rattle.blue_names.specs.Members.{is_in};

use crate::library::Library;
use crate::net::Net;
use crate::news::types_round;
use crate::stages::source_type;
use elem_core::elem_type::ElemType;
use elem_core::why::NoMemory;
use std::alloc::Global;
use stream_model::blueprint::Node;

/// The types before the first round: those of the sources.
fn before(alloc: Global, nodes: &[Node]) -> Result<Vec<Option<ElemType>>, NoMemory>
    ensures types { IfOk result (λ types. (i : ℕ) → type_at types.items i ≡ source_at (slice_get nodes.now i)) }
    ensures length { IfOk result (λ types. vec_len types ≡ length nodes.now) }
{
    let mut types = Vec::new(alloc);
    for node in nodes {
        types.push(source_type(&node.kind))?;
    }
    Ok(types)
}

/// The numbers below a count.
fn all_below(alloc: Global, count: usize) -> Result<Vec<usize>, NoMemory>
    ensures { IfOk result (λ all. (i : ℕ) → i < count → is_in i all.items ≡ true) }
{
    let mut all = Vec::new(alloc);
    for i in 0..count {
        all.push(i)?;
    }
    Ok(all)
}

// Choice: docs/DECISIONS.md#types-of-nodes
/// The types of the nodes, once a round fixes nothing. A round looks only at the nodes to which wires lead from those that the
/// round before it fixed.
pub fn settle_types(
    alloc: Global,
    library: &Library<'_>,
    net: &Net<'_>,
    outs: &[Vec<usize>],
) -> Result<Vec<Option<ElemType>>, NoMemory>
    requires known { IsKnown library.now }
    requires wired { HasFirstWires net.now }
    requires outs { IsOuts outs.now (wires_of_links net.now.links.now) }
    ensures { IfOk result (λ types. (i : ℕ) → type_at types.items i
        ≡ settled library.now.heads.now library.now.chains.now net.now.nodes.now (wires_of_links net.now.links.now) i) }
{
    let mut types = before(alloc, net.nodes)?;
    let mut front = all_below(alloc, net.nodes.len())?;
    'rounds: for _ in 0..net.nodes.len() {
        if front.is_empty() {
            return Ok(types);
        }
        front = types_round(alloc, library, net, outs, &mut types, &front)?;
    }
    Ok(types)
}
