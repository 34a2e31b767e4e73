// Components: nodes between which walks lead both ways.
ghost use Rattle.std.specs.Prelude.{◌≡◌, IfOk, vec_len};
ghost use Rattle.blue_names.specs.Links.{wires_of_links};
ghost use Rattle.blue_check.specs.Ranks.{NeverFalls};
ghost use Rattle.blue_check.specs.Components.{AreOrigins, AreGoals};

use crate::classes::own_labels;
use crate::depth::{ins_of, walk_all, walk_sources, walk_targets};
use crate::ranks::{rank_of, tested};
use blue_names::links::{NumberedWire, link_at};
use elem_core::why::NoMemory;
use std::alloc::Global;

/// Numbers of components, and for each node one of its component from which, and one to which, a walk leads.
#[derive(Drop)]
pub struct Components {
    /// The number of each node's component. It never falls along a wire.
    pub ranks: Vec<usize>,
    /// The node from which a walk leads to each.
    pub origins: Vec<usize>,
    /// The node to which a walk leads from each.
    pub goals: Vec<usize>,
}

/// The end of a wire within a component gets the origin of its beginning.
fn pass_origin(links: &[NumberedWire], ranks: &[usize], i: usize, origins: &mut Vec<usize>)
    requires { AreOrigins (wires_of_links links.now) origins.old.items }
    ensures origins { AreOrigins (wires_of_links links.now) origins.new.items }
    ensures length { vec_len origins.new ≡ vec_len origins.old }
{
    if let Some(link) = link_at(links, i) {
        let from = link.from;
        let to = link.to;
        if from < origins.len()
            && to < origins.len()
            && rank_of(ranks, from) == rank_of(ranks, to)
        {
            origins[to] = origins[from];
        }
    }
}

/// The beginning of a wire within a component gets the goal of its end.
fn pass_goal(links: &[NumberedWire], ranks: &[usize], i: usize, goals: &mut Vec<usize>)
    requires { AreGoals (wires_of_links links.now) goals.old.items }
    ensures goals { AreGoals (wires_of_links links.now) goals.new.items }
    ensures length { vec_len goals.new ≡ vec_len goals.old }
{
    if let Some(link) = link_at(links, i) {
        let from = link.from;
        let to = link.to;
        if from < goals.len() && to < goals.len() && rank_of(ranks, from) == rank_of(ranks, to) {
            goals[from] = goals[to];
        }
    }
}

/// For each node one from which a walk leads, found along these wires in order.
fn origins_of(
    alloc: Global,
    count: usize,
    links: &[NumberedWire],
    ranks: &[usize],
    wires: &[usize],
) -> Result<Vec<usize>, NoMemory>
    ensures origins { IfOk result (λ origins. AreOrigins (wires_of_links links.now) origins.items) }
    ensures length { IfOk result (λ origins. vec_len origins ≡ count) }
{
    let mut origins = own_labels(alloc, count)?;
    for i in wires {
        pass_origin(links, ranks, *i, &mut origins);
    }
    Ok(origins)
}

/// For each node one to which a walk leads, found along these wires in order.
fn goals_of(
    alloc: Global,
    count: usize,
    links: &[NumberedWire],
    ranks: &[usize],
    wires: &[usize],
) -> Result<Vec<usize>, NoMemory>
    ensures goals { IfOk result (λ goals. AreGoals (wires_of_links links.now) goals.items) }
    ensures length { IfOk result (λ goals. vec_len goals ≡ count) }
{
    let mut goals = own_labels(alloc, count)?;
    for i in wires {
        pass_goal(links, ranks, *i, &mut goals);
    }
    Ok(goals)
}

/// The components of so many nodes, by two depth-first walks: one along the wires, and one against them from the nodes that the
/// first left last.
pub fn components_of(
    alloc: Global,
    count: usize,
    links: &[NumberedWire],
    outs: &[Vec<usize>],
) -> Result<Components, NoMemory>
    ensures ranks { IfOk result (λ found. NeverFalls (wires_of_links links.now) found.ranks.items) }
    ensures origins { IfOk result (λ found. AreOrigins (wires_of_links links.now) found.origins.items) }
    ensures goals { IfOk result (λ found. AreGoals (wires_of_links links.now) found.goals.items) }
    ensures origins_length { IfOk result (λ found. vec_len found.origins ≡ count) }
    ensures goals_length { IfOk result (λ found. vec_len found.goals ≡ count) }
{
    let along = walk_all(
        alloc,
        &walk_targets(alloc, links)?,
        outs,
        &own_labels(alloc, count)?,
    )?;
    let ins = ins_of(alloc, count, links)?;
    let against = walk_all(alloc, &walk_sources(alloc, links)?, &ins, &along.left)?;
    let origins = origins_of(alloc, count, links, &against.trees, &along.wires)?;
    let goals = goals_of(alloc, count, links, &against.trees, &against.wires)?;
    Ok(Components {
        ranks: tested(alloc, links, against.trees),
        origins,
        goals,
    })
}
