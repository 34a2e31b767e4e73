// Classes of nodes: a label for each node, and a list of the nodes of each label, in which the node of its own number need not stand.
ghost use Rattle.std.specs.Prelude.{◌≡◌, ◌<◌, ◌==◌, ℕ, [], ◌∷◌, IfOk, OnOk, true, slice_index, vec_len, if◌then◌else◌};
ghost use Rattle.std.proofs.Common.{◌++◌};
ghost use Rattle.blue_names.specs.Outs.{row_at};
ghost use Rattle.blue_names.specs.Members.{is_in};
ghost use Rattle.blue_check.specs.Classes.{AreListed, AreMerged, IsRelabeled};

use blue_names::outs::row_of;
use elem_core::why::NoMemory;
use std::alloc::Global;
use std::mem;

/// A label of its own for each node.
pub fn own_labels(alloc: Global, count: usize) -> Result<Vec<usize>, NoMemory>
    ensures own { IfOk result (λ labels. (i : ℕ) → i < count → slice_index labels.items i ≡ i) }
    ensures length { IfOk result (λ labels. vec_len labels ≡ count) }
{
    let mut labels = Vec::new(alloc);
    for i in 0..count {
        labels.push(i)?;
    }
    Ok(labels)
}

/// An empty list for each label: its only node is that of its number.
pub fn own_members(alloc: Global, count: usize) -> Result<Vec<Vec<usize>>, NoMemory>
    ensures { IfOk result (λ rows. vec_len rows ≡ count) }
{
    let mut rows = Vec::new(alloc);
    'rows: for _ in 0..count {
        rows.push(Vec::new(alloc))?;
    }
    Ok(rows)
}

/// Gives one node another label, where it has this one.
fn relabel_one(labels: &mut Vec<usize>, node: usize, from: usize, to: usize)
    ensures relabeled { (i : ℕ) → i < vec_len labels.old → slice_index labels.new.items i ≡
        (if node == i then (if slice_index labels.old.items i == from then to else slice_index labels.old.items i) else slice_index labels.old.items i) }
    ensures length { vec_len labels.new ≡ vec_len labels.old }
{
    if let Some(label) = labels.get_mut(node) {
        if *label == from {
            *label = to;
        }
    }
}

/// Gives the nodes of one label another. All of them are listed.
fn relabel(labels: &mut Vec<usize>, nodes: &[usize], from: usize, to: usize)
    requires { (i : ℕ) → i < vec_len labels.old → slice_index labels.old.items i ≡ from → is_in i nodes.now ≡ true }
    ensures relabeled { IsRelabeled labels.old.items labels.new.items from to }
    ensures length { vec_len labels.new ≡ vec_len labels.old }
{
    for node in nodes {
        relabel_one(labels, *node, from, to);
    }
}

/// Takes the list of a label away.
fn take_members(alloc: Global, members: &mut Vec<Vec<usize>>, label: usize) -> Vec<usize>
    requires { label < vec_len members.old }
    ensures taken { result.items ≡ row_at members.old.items label }
    ensures others { (n : ℕ) → (n ≡ label → ⊥) → row_at members.new.items n ≡ row_at members.old.items n }
    ensures length { vec_len members.new ≡ vec_len members.old }
{
    mem::replace(&mut members[label], Vec::new(alloc))
}

/// Puts a node last into the list of a label.
fn add_member(members: &mut Vec<Vec<usize>>, label: usize, node: usize) -> Result<(), NoMemory>
    requires { label < vec_len members.old }
    ensures here { OnOk result (row_at members.new.items label ≡ row_at members.old.items label ++ node ∷ []) }
    ensures others { (n : ℕ) → (n ≡ label → ⊥) → OnOk result (row_at members.new.items n ≡ row_at members.old.items n) }
    ensures length { OnOk result (vec_len members.new ≡ vec_len members.old) }
{
    members[label].push(node)?;
    Ok(())
}

/// Puts nodes last into the list of a label.
fn append(members: &mut Vec<Vec<usize>>, label: usize, nodes: &[usize]) -> Result<(), NoMemory>
    requires { label < vec_len members.old }
    ensures here { OnOk result (row_at members.new.items label ≡ row_at members.old.items label ++ nodes.now) }
    ensures others { (n : ℕ) → (n ≡ label → ⊥) → OnOk result (row_at members.new.items n ≡ row_at members.old.items n) }
    ensures length { OnOk result (vec_len members.new ≡ vec_len members.old) }
{
    members[label].extend_from_slice(nodes)?;
    Ok(())
}

/// Gives the nodes of one label another, whose list takes them.
fn join(
    alloc: Global,
    labels: &mut Vec<usize>,
    members: &mut Vec<Vec<usize>>,
    from: usize,
    to: usize,
) -> Result<(), NoMemory>
    requires listed { AreListed labels.old.items members.old.items }
    requires from { from < vec_len members.old }
    requires to { to < vec_len members.old }
    requires apart { from ≡ to → ⊥ }
    ensures relabeled { OnOk result (IsRelabeled labels.old.items labels.new.items from to) }
    ensures listed { OnOk result (AreListed labels.new.items members.new.items) }
    ensures length { OnOk result (vec_len labels.new ≡ vec_len labels.old) }
{
    let nodes = take_members(alloc, members, from);
    // The node of the label's own number stands in no list.
    relabel_one(labels, from, from, to);
    relabel(labels, &nodes, from, to);
    add_member(members, to, from)?;
    append(members, to, &nodes)?;
    Ok(())
}

// Choice: docs/DECISIONS.md#lists-by-label
/// Makes two labels one. Only the nodes of the one that has fewer get another label: so none gets one more often than there are
/// doublings from 1 to the number of nodes.
pub fn unite(
    alloc: Global,
    labels: &mut Vec<usize>,
    members: &mut Vec<Vec<usize>>,
    one: usize,
    other: usize,
) -> Result<(), NoMemory>
    requires listed { AreListed labels.old.items members.old.items }
    requires one { one < vec_len members.old }
    requires other { other < vec_len members.old }
    requires apart { one ≡ other → ⊥ }
    ensures joined { OnOk result (AreMerged labels.old.items labels.new.items one other) }
    ensures listed { OnOk result (AreListed labels.new.items members.new.items) }
    ensures length { OnOk result (vec_len labels.new ≡ vec_len labels.old) }
{
    if row_of(members, one).len() < row_of(members, other).len() {
        join(alloc, labels, members, one, other)
    } else {
        join(alloc, labels, members, other, one)
    }
}
