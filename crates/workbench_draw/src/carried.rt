// How many elements each wire carries, where every stage passes all on.
ghost use Rattle.std.specs.Prelude.{◌≡◌, ◌+◌, ◌==◌, ℕ, true, map, IfOk, IfSome, OnOk, if◌then◌else◌};
ghost use Rattle.blue_names.specs.Links.{wires_of_links};
ghost use Rattle.workbench_draw.specs.Carried.{number_at, own_elements, passed_on, passed_all, source_count};

use blue_names::links::NumberedWire;
use blue_names::ports::input_ports;
use elem_core::why::NoMemory;
use std::alloc::Global;
use stream_model::blueprint::Node;

/// The number at a place; 0 where there is none.
pub(crate) fn number_at(numbers: &[u64], i: usize) -> u64
    ensures { result ≡ number_at numbers.now i }
{
    match numbers.get(i) {
        Some(n) => *n,
        None => 0,
    }
}

/// How many sources there are.
pub(crate) fn source_count(nodes: &[Node]) -> usize
    ensures { result ≡ source_count nodes.now }
{
    let mut count = 0;
    for node in nodes {
        if input_ports((1, 1), &node.kind) == 0 {
            count += 1;
        }
    }
    count
}

/// What each node gives of its own: a source as many as is said of it, in the order of sources, and any other node none.
pub(crate) fn own_of(alloc: Global, nodes: &[Node], counts: &[u64]) -> Result<Vec<u64>, NoMemory>
    ensures { IfOk result (λ numbers. numbers.items ≡ own_elements nodes.now counts.now) }
{
    let mut numbers = Vec::new(alloc);
    let mut rest = counts;
    for node in nodes {
        if input_ports((1, 1), &node.kind) != 0 {
            numbers.push(0)?;
        } else if let Some((count, later)) = rest.split_first() {
            numbers.push(*count)?;
            rest = later;
        } else {
            numbers.push(0)?;
        }
    }
    Ok(numbers)
}

/// Adds to the number at a place, and says whether there is one and the sum fits.
fn add(sums: &mut Vec<u64>, place: usize, n: u64) -> bool
    ensures { result ≡ true → (a : ℕ) → number_at sums.new.items a ≡ number_at sums.old.items a + (if place == a then n else 0) }
{
    if place >= sums.len() {
        return false;
    }
    match sums[place].checked_add(n) {
        Some(sum) => {
            sums[place] = sum;
            true
        }
        None => false,
    }
}

/// Adds to what each node gives of its own what comes to it, and says whether all of it fits.
fn add_all(sums: &mut Vec<u64>, links: &[NumberedWire], carried: &[u64]) -> bool
    ensures { result ≡ true → (a : ℕ) → number_at sums.new.items a ≡ passed_on sums.old.items (wires_of_links links.now) (number_at carried.now) a }
{
    for i in 0..links.len() {
        if !add(sums, links[i].to, number_at(carried, i)) {
            return false;
        }
    }
    true
}

// Choice: docs/DECISIONS.md#all-is-passed-on
/// What each wire carries where its node passes on what comes to it; None where that does not fit.
fn round(
    alloc: Global,
    links: &[NumberedWire],
    own: &[u64],
    carried: &[u64],
) -> Result<Option<Vec<u64>>, NoMemory>
    ensures { IfOk result (λ next. IfSome next (λ next. next.items ≡ passed_all own.now (wires_of_links links.now) (number_at carried.now))) }
{
    let mut sums = Vec::from_slice(alloc, own)?;
    if !add_all(&mut sums, links, carried) {
        return Ok(None);
    }
    let mut next = Vec::new(alloc);
    for link in links {
        next.push(number_at(&sums, link.from))?;
    }
    Ok(Some(next))
}

/// What each wire carries where every node passes all on that it has of its own and that comes to it; None where that does not fit,
/// or does not settle in so many rounds.
pub(crate) fn carried_by(
    alloc: Global,
    links: &[NumberedWire],
    own: &[u64],
    rounds: usize,
) -> Result<Option<Vec<u64>>, NoMemory>
    ensures { IfOk result (λ carried. IfSome carried (λ carried. carried.items ≡ passed_all own.now (wires_of_links links.now) (number_at carried.items))) }
{
    let mut carried = Vec::new(alloc);
    for _ in 0..rounds {
        match round(alloc, links, own, &carried)? {
            None => return Ok(None),
            Some(next) => {
                if next.as_slice() == carried.as_slice() {
                    return Ok(Some(next));
                }
                carried = next;
            }
        }
    }
    Ok(None)
}
