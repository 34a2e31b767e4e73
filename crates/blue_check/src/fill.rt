// The lists of islands: their nodes, and their wires.
ghost use Rattle.std.specs.Prelude.{◌≡◌, ◌<◌, ◌==◌, ℕ, IfOk, OnOk, All, [], ◌∷◌, ◌++◌, if◌then◌else◌, length, slice_index, vec_len};
ghost use Rattle.blue_names.specs.Links.{AreInRange, wire_of_link, wires_of_links};
ghost use Rattle.blue_check.specs.Plan.{nodes_at, wires_at, island_nodes, is_wire_of, island_wires};

use crate::plan::IslandPlan;
use crate::ranks::rank_of;
use blue_names::links::NumberedWire;
use elem_core::count::numbered;
use elem_core::why::NoMemory;
use std::alloc::Global;

/// So many islands without nodes.
pub fn empty_islands(alloc: Global, count: usize) -> Result<Vec<IslandPlan>, NoMemory>
    ensures length { IfOk result (λ islands. vec_len islands ≡ count) }
    ensures nodes { IfOk result (λ islands. (k : ℕ) → nodes_at islands.items k ≡ []) }
    ensures wires { IfOk result (λ islands. (k : ℕ) → wires_at islands.items k ≡ []) }
{
    let mut islands = Vec::new(alloc);
    'islands: for _ in 0..count {
        islands.push(IslandPlan {
            nodes: Vec::new(alloc),
            wires: Vec::new(alloc),
        })?;
    }
    Ok(islands)
}

/// Puts a node last into an island.
fn put_node(islands: &mut Vec<IslandPlan>, island: usize, node: usize) -> Result<(), NoMemory>
    requires { island < vec_len islands.old }
    ensures length { OnOk result (vec_len islands.new ≡ vec_len islands.old) }
    ensures nodes { (k : ℕ) → OnOk result (nodes_at islands.new.items k ≡ nodes_at islands.old.items k ++ (if island == k then node ∷ [] else [])) }
    ensures wires { (k : ℕ) → OnOk result (wires_at islands.new.items k ≡ wires_at islands.old.items k) }
{
    let number = numbered(node)?;
    islands[island].nodes.push(number)?;
    Ok(())
}

/// Puts a wire last into an island.
fn put_wire(islands: &mut Vec<IslandPlan>, island: usize, wire: usize) -> Result<(), NoMemory>
    requires { island < vec_len islands.old }
    ensures length { OnOk result (vec_len islands.new ≡ vec_len islands.old) }
    ensures wires { (k : ℕ) → OnOk result (wires_at islands.new.items k ≡ wires_at islands.old.items k ++ (if island == k then wire ∷ [] else [])) }
    ensures nodes { (k : ℕ) → OnOk result (nodes_at islands.new.items k ≡ nodes_at islands.old.items k) }
{
    let number = numbered(wire)?;
    islands[island].wires.push(number)?;
    Ok(())
}

/// Puts a wire into the island where it begins, unless it has a lane.
fn put_fused(
    islands: &mut Vec<IslandPlan>,
    homes: &[usize],
    link: &NumberedWire,
    wire: usize,
) -> Result<(), NoMemory>
    requires home { slice_index homes.now link.now.from < vec_len islands.old }
    ensures length { OnOk result (vec_len islands.new ≡ vec_len islands.old) }
    ensures wires { (k : ℕ) → OnOk result (wires_at islands.new.items k ≡ wires_at islands.old.items k
        ++ (if is_wire_of homes.now k (wire_of_link link.now) then wire ∷ [] else [])) }
    ensures nodes { (k : ℕ) → OnOk result (nodes_at islands.new.items k ≡ nodes_at islands.old.items k) }
{
    if link.lane.is_some() {
        return Ok(());
    }
    put_wire(islands, rank_of(homes, link.from), wire)
}

/// Puts each node into its island.
pub fn put_nodes(islands: &mut Vec<IslandPlan>, homes: &[usize]) -> Result<(), NoMemory>
    requires homes { All (λ h. h < vec_len islands.old) homes.now }
    requires none { (k : ℕ) → nodes_at islands.old.items k ≡ [] }
    ensures length { OnOk result (vec_len islands.new ≡ vec_len islands.old) }
    ensures nodes { (k : ℕ) → OnOk result (nodes_at islands.new.items k ≡ island_nodes homes.now k) }
    ensures wires { (k : ℕ) → OnOk result (wires_at islands.new.items k ≡ wires_at islands.old.items k) }
{
    for (node, home) in homes.iter().enumerate() {
        put_node(islands, *home, node)?;
    }
    Ok(())
}

/// Puts each wire without a lane into its island.
pub fn put_wires(
    islands: &mut Vec<IslandPlan>,
    links: &[NumberedWire],
    homes: &[usize],
) -> Result<(), NoMemory>
    requires homes { All (λ h. h < vec_len islands.old) homes.now }
    requires links { AreInRange (length homes.now) links.now }
    requires none { (k : ℕ) → wires_at islands.old.items k ≡ [] }
    ensures length { OnOk result (vec_len islands.new ≡ vec_len islands.old) }
    ensures wires { (k : ℕ) → OnOk result (wires_at islands.new.items k ≡ island_wires homes.now (wires_of_links links.now) k) }
    ensures nodes { (k : ℕ) → OnOk result (nodes_at islands.new.items k ≡ nodes_at islands.old.items k) }
{
    for (wire, link) in links.iter().enumerate() {
        put_fused(islands, homes, link, wire)?;
    }
    Ok(())
}
