// Labels of nodes: two have one just where wires without a lane link them.
ghost use Rattle.std.specs.Prelude.{◌≡◌, ◌<◌, IfOk, OnOk, is_none, vec_len};
ghost use Rattle.std.specs.List.{filter};
ghost use Rattle.blue_names.specs.Links.{AreInRange, wires_of_links};
ghost use Rattle.blue_check.specs.Classes.{AreListed, AreMerged};
ghost use Rattle.blue_check.specs.Labels.{AreLabels};

use crate::classes::{own_labels, own_members, unite};
use crate::ranks::rank_of;
use blue_names::links::NumberedWire;
use elem_core::why::NoMemory;
use std::alloc::Global;

/// The wires without a lane.
pub fn fused_links(alloc: Global, links: &[NumberedWire]) -> Result<Vec<NumberedWire>, NoMemory>
    ensures { IfOk result (λ fused. fused.items ≡ filter (λ l. is_none l.lane) links.now) }
{
    let mut fused = Vec::new(alloc);
    for link in links {
        if link.lane.is_none() {
            fused.push(*link)?;
        }
    }
    Ok(fused)
}

/// Makes two labels one, which may be one already.
fn merge(
    alloc: Global,
    labels: &mut Vec<usize>,
    members: &mut Vec<Vec<usize>>,
    one: usize,
    other: usize,
) -> Result<(), NoMemory>
    requires listed { AreListed labels.old.items members.old.items }
    requires one { one < vec_len members.old }
    requires other { other < vec_len members.old }
    ensures joined { OnOk result (AreMerged labels.old.items labels.new.items one other) }
    ensures listed { OnOk result (AreListed labels.new.items members.new.items) }
    ensures length { OnOk result (vec_len labels.new ≡ vec_len labels.old) }
{
    if one == other {
        return Ok(());
    }
    unite(alloc, labels, members, one, other)
}

/// The labels of so many nodes that these wires join.
pub fn labels_of(
    alloc: Global,
    count: usize,
    links: &[NumberedWire],
) -> Result<Vec<usize>, NoMemory>
    requires { AreInRange count links.now }
    ensures { IfOk result (λ labels. AreLabels (wires_of_links links.now) count labels.items) }
{
    let mut labels = own_labels(alloc, count)?;
    let mut members = own_members(alloc, count)?;
    for link in links {
        let from = rank_of(&labels, link.from);
        let to = rank_of(&labels, link.to);
        merge(alloc, &mut labels, &mut members, from, to)?;
    }
    Ok(labels)
}
