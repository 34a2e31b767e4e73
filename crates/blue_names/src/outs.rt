// The wires out of each node.
ghost use Rattle.std.specs.Prelude.{◌≡◌, ◌<◌, ℕ, List, [], IfOk, OnOk, length, vec_len, map, slice_get, Some, IfSome};
ghost use Rattle.std.proofs.Common.{set, get_or, ◌++◌, ◌∷◌};
ghost use Rattle.stream_model.specs.Graph.{Edge};
ghost use Rattle.blue_names.specs.Links.{AreInRange, wires_of_links};
ghost use Rattle.blue_names.specs.Outs.{IsOuts, row_at};

use crate::links::{NumberedWire, link_at};
use elem_core::why::NoMemory;
use std::alloc::Global;

/// So many empty rows.
fn empty_rows(alloc: Global, count: usize) -> Result<Vec<Vec<usize>>, NoMemory>
    ensures none { IfOk result (λ rows. (n : ℕ) → row_at rows.items n ≡ []) }
    ensures length { IfOk result (λ rows. vec_len rows ≡ count) }
{
    let mut rows = Vec::new(alloc);
    'rows: for _ in 0..count {
        rows.push(Vec::new(alloc))?;
    }
    Ok(rows)
}

/// Puts a number last into a row, where there is such a row.
fn put_in(rows: &mut Vec<Vec<usize>>, row: usize, number: usize) -> Result<(), NoMemory>
    requires { row < vec_len rows.old }
    ensures length { OnOk result (vec_len rows.new ≡ vec_len rows.old) }
    ensures here { OnOk result (row_at rows.new.items row ≡ row_at rows.old.items row ++ number ∷ []) }
    ensures others { (n : ℕ) → (n ≡ row → ⊥) → OnOk result (row_at rows.new.items n ≡ row_at rows.old.items n) }
{
    rows[row].push(number)?;
    Ok(())
}

/// The wires out of each of so many nodes.
pub fn outs_of(
    alloc: Global,
    count: usize,
    links: &[NumberedWire],
) -> Result<Vec<Vec<usize>>, NoMemory>
    requires { AreInRange count links.now }
    ensures rows { IfOk result (λ rows. IsOuts rows.items (wires_of_links links.now)) }
    ensures length { IfOk result (λ rows. vec_len rows ≡ count) }
{
    let mut rows = empty_rows(alloc, count)?;
    for (i, link) in links.iter().enumerate() {
        put_in(&mut rows, link.from, i)?;
    }
    Ok(rows)
}

/// The wires out of a node.
pub fn row_of(outs: &[Vec<usize>], node: usize) -> &[usize]
    ensures { result.now ≡ row_at outs.now node }
{
    match outs.get(node) {
        Some(row) => row,
        None => &[],
    }
}

/// The node to which a wire leads.
pub fn target_of(links: &[NumberedWire], i: usize) -> Option<usize>
    ensures to { (w : Edge) → slice_get (wires_of_links links.now) i ≡ Some w → result ≡ Some w.to }
    ensures wire { IfSome result (λ t. (w : Edge) × (slice_get (wires_of_links links.now) i ≡ Some w) × (w.to ≡ t)) }
{
    match link_at(links, i) {
        Some(link) => Some(link.to),
        None => None,
    }
}
