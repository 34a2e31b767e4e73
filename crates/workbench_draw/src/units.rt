// The units that suffice for what wires carry.
ghost use Rattle.std.specs.Prelude.{◌≡◌, ℕ, sum, map, IfSome, Some, IfOk};
ghost use Rattle.stream_model.specs.Shape.{units_of, need_from};
ghost use Rattle.blue_names.specs.Links.{wires_of_links};
ghost use Rattle.workbench_draw.specs.Carried.{number_at};
ghost use Rattle.workbench_draw.specs.Units.{units_at, some_units};

use crate::carried::number_at;
use blue_names::links::{NumberedWire, link_at};

/// The units for so many elements on a wire.
fn units_of(lane: Option<u32>, n: u64) -> u128
    ensures { result ≡ units_of lane n }
{
    match lane {
        None => 2 * u128::from(n) + 4,
        Some(_) => 6 * u128::from(n) + 12,
    }
}

/// The units for all wires, where they fit.
pub(crate) fn all_units(links: &[NumberedWire], carried: &[u64]) -> Option<u128>
    ensures { IfSome result (λ n. n ≡ need_from 0 (wires_of_links links.now) (number_at carried.now)) }
{
    let mut total: u128 = 0;
    for i in 0..links.len() {
        total = total.checked_add(units_of(links[i].lane, number_at(carried, i)))?;
    }
    Some(total)
}

/// The units for one wire; none where there is no such wire.
fn units_at(links: &[NumberedWire], carried: &[u64], wire: usize) -> u128
    ensures { result ≡ units_at (wires_of_links links.now) (number_at carried.now) wire }
{
    match link_at(links, wire) {
        Some(link) => units_of(link.lane, number_at(carried, wire)),
        None => 0,
    }
}

/// The units for some wires, where they fit.
pub(crate) fn some_units(links: &[NumberedWire], carried: &[u64], wires: &[u32]) -> Option<u128>
    ensures { IfSome result (λ n. n ≡ some_units (wires_of_links links.now) (number_at carried.now) wires.now) }
{
    let mut total: u128 = 0;
    for wire in wires {
        total = total.checked_add(units_at(links, carried, *wire as usize))?;
    }
    Some(total)
}
