// The first wire on a closed walk.
ghost use Rattle.std.specs.Prelude.{◌≡◌, ◌<◌, ℕ, nat_lt, IfOk, IfSome, IfNone, List, true, false, vec_len};
ghost use Rattle.std.specs.List.{list_all};
ghost use Rattle.blue_names.specs.Paths.{Path, IsFirstClosed, HasNoClosedWalk};
ghost use Rattle.blue_names.specs.Links.{AreInRange, wires_of_links};
ghost use Rattle.blue_names.specs.Outs.{IsOuts};
ghost use Rattle.blue_check.specs.Ranks.{NeverFalls};
ghost use Rattle.blue_check.specs.Components.{AreOrigins, AreGoals};

use crate::components::{Components, components_of};
use crate::marks::{is_marked, reach};
use crate::ranks::rank_of;
use blue_names::links::NumberedWire;
use elem_core::why::NoMemory;
use std::alloc::Global;

/// Whether a walk leads from a node back to another. Where the numbers rise from that other to the node, no walk does; where the
/// node's goal is the other's origin, one does. A walk is looked for only where neither is so, and no wire is known at which.
fn leads_back(
    alloc: Global,
    count: usize,
    links: &[NumberedWire],
    outs: &[Vec<usize>],
    found: &Components,
    from: usize,
    to: usize,
) -> Result<bool, NoMemory>
    requires from { from < count }
    requires to { to < count }
    requires outs { IsOuts outs.now (wires_of_links links.now) }
    requires in_range { AreInRange count links.now }
    requires ranks { NeverFalls (wires_of_links links.now) found.now.ranks.items }
    requires origins { AreOrigins (wires_of_links links.now) found.now.origins.items }
    requires goals { AreGoals (wires_of_links links.now) found.now.goals.items }
    requires origins_length { vec_len found.now.origins ≡ count }
    requires goals_length { vec_len found.now.goals ≡ count }
    ensures leads { IfOk result (λ b. b ≡ true → Path (wires_of_links links.now) to from) }
    ensures leads_not { IfOk result (λ b. b ≡ false → Path (wires_of_links links.now) to from → ⊥) }
{
    if rank_of(&found.ranks, from) < rank_of(&found.ranks, to) {
        return Ok(false);
    }
    if rank_of(&found.goals, to) == rank_of(&found.origins, from) {
        return Ok(true);
    }
    let marks = reach(alloc, count, links, outs, to)?;
    Ok(is_marked(&marks, from))
}

/// Whether each wire leads to a node that is declared later.
fn rises(links: &[NumberedWire]) -> bool
    ensures { result ≡ list_all (λ l. nat_lt l.from l.to) links.now }
{
    links.iter().all(|link| link.from < link.to)
}

// Choice: docs/DECISIONS.md#walks-are-tested
/// The first wire on a closed walk.
pub fn first_closed(
    alloc: Global,
    count: usize,
    links: &[NumberedWire],
    outs: &[Vec<usize>],
) -> Result<Option<usize>, NoMemory>
    requires outs { IsOuts outs.now (wires_of_links links.now) }
    requires in_range { AreInRange count links.now }
    ensures first { IfOk result (λ o. IfSome o (IsFirstClosed (wires_of_links links.now))) }
    ensures none { IfOk result (λ o. IfNone o (HasNoClosedWalk (wires_of_links links.now))) }
{
    // A blueprint that is declared along its wires needs no walk.
    if rises(links) {
        return Ok(None);
    }
    let found = components_of(alloc, count, links, outs)?;
    for (i, link) in links.iter().enumerate() {
        if leads_back(alloc, count, links, outs, &found, link.from, link.to)? {
            return Ok(Some(i));
        }
    }
    Ok(None)
}
