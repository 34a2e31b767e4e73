// The numbers of islands: by the least node of each.
ghost use Rattle.std.specs.Prelude.{◌≡◌, ◌<◌, ℕ, List, IfOk, OnOk, All, None, is_none, length, slice_get, vec_len};
ghost use Rattle.std.specs.List.{filter};
ghost use Rattle.blue_names.specs.Links.{AreInRange, wires_of_links};
ghost use Rattle.blue_names.specs.declared.links.NumberedWire.{NumberedWire};
ghost use Rattle.blue_check.specs.Homes.{AreNumbered, IsNumbered};
ghost use Rattle.blue_check.specs.Labels.{AreLabels};
ghost use Rattle.blue_check.specs.Plan.{AreHomes};

use elem_core::why::NoMemory;
use std::alloc::Global;

/// Islands by their numbers.
#[derive(Drop)]
pub struct Homes {
    /// The island of each node.
    pub homes: Vec<usize>,
    /// The least node of each island.
    pub firsts: Vec<usize>,
}

/// So many labels without a number.
fn no_numbers(alloc: Global, count: usize) -> Result<Vec<Option<usize>>, NoMemory>
    ensures none { IfOk result (λ numbers. (l : ℕ) → l < count → slice_get numbers.items l ≡ Some None) }
    ensures length { IfOk result (λ numbers. vec_len numbers ≡ count) }
{
    let mut numbers = Vec::new(alloc);
    'numbers: for _ in 0..count {
        numbers.push(None)?;
    }
    Ok(numbers)
}

/// The number of a label's island; where it has none yet, the next one, of which this node is the least.
fn home_of(
    numbers: &mut Vec<Option<usize>>,
    firsts: &mut Vec<usize>,
    label: usize,
    node: usize,
) -> Result<usize, NoMemory>
    requires { label < vec_len numbers.old }
    ensures { IfOk result (IsNumbered numbers.old.items numbers.new.items firsts.old.items firsts.new.items label node) }
{
    match numbers[label] {
        Some(number) => Ok(number),
        None => {
            let number = firsts.len();
            firsts.push(node)?;
            numbers[label] = Some(number);
            Ok(number)
        }
    }
}

/// The islands of nodes: those of one label are one.
pub fn homes_of(alloc: Global, labels: &[usize]) -> Result<Homes, NoMemory>
    requires { All (λ l. l < length labels.now) labels.now }
    ensures numbered { IfOk result (λ h. AreNumbered labels.now h.homes.items h.firsts.items) }
    ensures each { IfOk result (λ h. vec_len h.homes ≡ length labels.now) }
    ensures homes { (count : ℕ) (links : List NumberedWire) → AreLabels (wires_of_links (filter (λ l. is_none l.lane) links)) count labels.now
        → AreInRange count links → IfOk result (λ h. AreHomes count (wires_of_links links) h.homes.items) }
{
    let mut numbers = no_numbers(alloc, labels.len())?;
    let mut firsts = Vec::new(alloc);
    let mut homes = Vec::new(alloc);
    for (node, label) in labels.iter().enumerate() {
        let home = home_of(&mut numbers, &mut firsts, *label, node)?;
        homes.push(home)?;
    }
    Ok(Homes { homes, firsts })
}
