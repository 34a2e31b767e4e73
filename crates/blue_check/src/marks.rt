// Which nodes a walk along wires can reach.
ghost use Rattle.std.specs.Prelude.{◌≡◌, ◌<◌, ◌≤◌, ℕ, List, [], ◌∷◌, IfOk, OnOk, IsTrue, ◌↔◌, length, vec_len, slice_get, Some, true, false, Bool, ◌++◌};
ghost use Rattle.std.proofs.Common.{take};
ghost use Rattle.stream_model.specs.Graph.{Edge};
ghost use Rattle.blue_names.specs.Paths.{Path};
ghost use Rattle.blue_names.specs.Links.{AreInRange, wires_of_links};
ghost use Rattle.blue_names.specs.Outs.{IsOuts};
ghost use Rattle.blue_names.specs.Members.{is_in};
ghost use Rattle.blue_check.specs.Marks.{Reaches, mark_at};
ghost use Rattle.blue_check.specs.Visits.{Visits};

use blue_names::links::NumberedWire;
use blue_names::outs::{row_of, target_of};
use elem_core::why::NoMemory;
use std::alloc::Global;

/// So many marks that are not set.
fn no_marks(alloc: Global, count: usize) -> Result<Vec<bool>, NoMemory>
    ensures none { IfOk result (λ marks. (i : ℕ) → mark_at marks.items i ≡ false) }
    ensures length { IfOk result (λ marks. vec_len marks ≡ count) }
{
    let mut marks = Vec::new(alloc);
    'marks: for _ in 0..count {
        marks.push(false)?;
    }
    Ok(marks)
}

/// Marks a node to which a walk leads, and puts it last, where it is not marked.
fn arrive(marks: &mut Vec<bool>, order: &mut Vec<usize>, node: usize) -> Result<(), NoMemory>
    requires { node < vec_len marks.old }
    ensures reaches { (ws : List Edge) (start count : ℕ) → Path ws start node → node < count → Reaches ws start count marks.old.items order.old.items
        → OnOk result (Reaches ws start count marks.new.items order.new.items) }
    ensures length { OnOk result (vec_len marks.new ≡ vec_len marks.old) }
    ensures longer { OnOk result (vec_len order.old ≤ vec_len order.new) }
    ensures front { (k : ℕ) → k ≤ vec_len order.old → OnOk result (take k order.new.items ≡ take k order.old.items) }
    ensures kept { (i : ℕ) → is_in i order.old.items ≡ true → OnOk result (is_in i order.new.items ≡ true) }
    ensures here { (ws : List Edge) (start count : ℕ) → Reaches ws start count marks.old.items order.old.items
        → OnOk result (is_in node order.new.items ≡ true) }
{
    if !marks[node] {
        order.push(node)?;
        marks[node] = true;
    }
    Ok(())
}

/// Marks the node to which a wire leads.
fn follow(
    links: &[NumberedWire],
    i: usize,
    marks: &mut Vec<bool>,
    order: &mut Vec<usize>,
) -> Result<(), NoMemory>
    requires { AreInRange (vec_len marks.old) links.now }
    ensures visits { (node : ℕ) (first : List Bool) (begun row : List ℕ) → ((w : Edge) → slice_get (wires_of_links links.now) i ≡ Some w → w.from ≡ node)
        → Visits (wires_of_links links.now) node (vec_len marks.old) first marks.old.items begun order.old.items row
        → OnOk result (Visits (wires_of_links links.now) node (vec_len marks.old) first marks.new.items begun order.new.items (row ++ i ∷ [])) }
    ensures length { OnOk result (vec_len marks.new ≡ vec_len marks.old) }
{
    match target_of(links, i) {
        Some(target) => {
            arrive(marks, order, target)?;
            Ok(())
        }
        None => Ok(()),
    }
}

/// Marks the nodes to which the wires out of a node lead.
fn visit(
    links: &[NumberedWire],
    outs: &[Vec<usize>],
    node: usize,
    marks: &mut Vec<bool>,
    order: &mut Vec<usize>,
) -> Result<(), NoMemory>
    requires outs { IsOuts outs.now (wires_of_links links.now) }
    requires in_range { AreInRange (vec_len marks.old) links.now }
    ensures reaches { (start : ℕ) → Path (wires_of_links links.now) start node → Reaches (wires_of_links links.now) start
        (vec_len marks.old) marks.old.items order.old.items
        → OnOk result (Reaches (wires_of_links links.now) start (vec_len marks.old) marks.new.items order.new.items) }
    ensures leads { (start : ℕ) → Path (wires_of_links links.now) start node → Reaches (wires_of_links links.now) start
        (vec_len marks.old) marks.old.items order.old.items
        → (i : ℕ) (w : Edge) → slice_get (wires_of_links links.now) i ≡ Some w → w.from ≡ node → OnOk result (is_in w.to order.new.items ≡ true) }
    ensures length { OnOk result (vec_len marks.new ≡ vec_len marks.old) }
    ensures front { (k : ℕ) → k ≤ vec_len order.old → OnOk result (take k order.new.items ≡ take k order.old.items) }
    ensures kept { (i : ℕ) → is_in i order.old.items ≡ true → OnOk result (is_in i order.new.items ≡ true) }
{
    for i in row_of(outs, node) {
        follow(links, *i, marks, order)?;
    }
    Ok(())
}

/// The nodes to which walks from a node lead: their marks are set.
pub fn reach(
    alloc: Global,
    count: usize,
    links: &[NumberedWire],
    outs: &[Vec<usize>],
    start: usize,
) -> Result<Vec<bool>, NoMemory>
    requires start { start < count }
    requires outs { IsOuts outs.now (wires_of_links links.now) }
    requires in_range { AreInRange count links.now }
    ensures walked { IfOk result (λ marks. (i : ℕ) → mark_at marks.items i ≡ true → Path (wires_of_links links.now) start i) }
    ensures all { IfOk result (λ marks. (i : ℕ) → Path (wires_of_links links.now) start i → mark_at marks.items i ≡ true) }
    ensures length { IfOk result (λ marks. vec_len marks ≡ count) }
{
    let mut marks = no_marks(alloc, count)?;
    let mut order = Vec::new(alloc);
    order.push(start)?;
    marks[start] = true;
    'walk: for k in 0..count {
        if k >= order.len() {
            return Ok(marks);
        }
        let node = order[k];
        visit(links, outs, node, &mut marks, &mut order)?;
    }
    Ok(marks)
}

/// The mark of a node.
pub fn is_marked(marks: &[bool], node: usize) -> bool
    ensures { result ≡ mark_at marks.now node }
{
    match marks.get(node) {
        Some(mark) => *mark,
        None => false,
    }
}
