// The units that suffice for the run of a blueprint.
ghost use Rattle.std.specs.Prelude.{◌≡◌, ◌++◌, ℕ, IfOk, IfSome, OnOk, codes};
ghost use Rattle.std.specs.Fmt.{decimal};
ghost use Rattle.stream_model.specs.Shape.{need_from};
ghost use Rattle.blue_names.specs.Links.{wires_of_links};
ghost use Rattle.blue_check.specs.Checked.{checked_blueprint};
ghost use Rattle.workbench_draw.specs.Carried.{number_at, own_elements, passed_all};
ghost use Rattle.workbench_draw.specs.Turns.{Suffices, TellsAll};

use crate::carried::{carried_by, own_of, source_count};
use crate::units::{all_units, some_units};
use blue_check::checked::Checked;
use blue_check::islands::islands;
use blue_check::plan::{LanePlan, Plan};
use blue_names::links::{NumberedWire, links_of};
use elem_core::why::NoMemory;
use itoa::Buffer;
use std::alloc::{AllocError, Global};

/// Why no units are told.
#[derive(Drop)]
pub enum TurnsEnd {
    /// The blueprint has so many sources, and other than so many counts are given.
    Sources(usize),
    /// What a wire would carry, or the units, are more than can be told: there is no such run.
    TooMany,
    /// Memory was refused.
    NoMemory,
}

impl From<AllocError> for TurnsEnd {
    ghost use Rattle.std.specs.Prelude.{◌≡◌};
    ghost use Rattle.workbench_draw.specs.declared.turns.TurnsEnd.TheVariants.{NoMemory};

    ghost from_gives = { λ _ e. e ≡ NoMemory };

    fn from(_error: AllocError) -> TurnsEnd {
        TurnsEnd::NoMemory
    }
}

/// Appends a number.
fn put_number(out: &mut Vec<u8>, n: u128) -> Result<(), NoMemory>
    ensures { OnOk result (out.new.items ≡ out.old.items ++ decimal n) }
{
    let mut buffer = Buffer::new();
    out.extend_from_slice(buffer.format(n).as_bytes())
}

/// Appends a line of a word and a number.
fn put_line(out: &mut Vec<u8>, word: &[u8], n: u128) -> Result<(), NoMemory>
    ensures { OnOk result (out.new.items ≡ out.old.items ++ (word.now ++ (decimal n ++ codes "\n"))) }
{
    out.extend_from_slice(word)?;
    put_number(out, n)?;
    out.extend_from_slice(b"\n")
}

/// Appends a line for each island, with the units of its wires, and says whether they fit.
fn put_islands(
    out: &mut Vec<u8>,
    plan: &Plan,
    links: &[NumberedWire],
    carried: &[u64],
) -> Result<bool, NoMemory> {
    for (i, island) in plan.islands.iter().enumerate() {
        let Some(units) = some_units(links, carried, &island.wires) else {
            return Ok(false);
        };
        out.extend_from_slice(b"island ")?;
        put_number(out, i as u128)?;
        put_line(out, b" ", units)?;
    }
    Ok(true)
}

/// The numbers of the wires with lanes.
fn wires_of(alloc: Global, lanes: &[LanePlan]) -> Result<Vec<u32>, NoMemory> {
    let mut wires = Vec::new(alloc);
    for lane in lanes {
        wires.push(lane.wire)?;
    }
    Ok(wires)
}

/// The lines of the islands and of the lanes, where their units fit.
fn parts_text(
    alloc: Global,
    plan: &Plan,
    links: &[NumberedWire],
    carried: &[u64],
) -> Result<Option<Vec<u8>>, NoMemory> {
    let mut out = Vec::new(alloc);
    if !put_islands(&mut out, plan, links, carried)? {
        return Ok(None);
    }
    let wires = wires_of(alloc, &plan.lanes)?;
    let Some(units) = some_units(links, carried, &wires) else {
        return Ok(None);
    };
    if !wires.is_empty() {
        put_line(&mut out, b"lanes ", units)?;
    }
    Ok(Some(out))
}

/// The text, where the units fit.
fn text_of(
    alloc: Global,
    plan: &Plan,
    links: &[NumberedWire],
    carried: &[u64],
) -> Result<Vec<u8>, TurnsEnd>
    ensures { IfOk result (λ text. TellsAll text.items (need_from 0 (wires_of_links links.now) (number_at carried.now))) }
{
    let Some(all) = all_units(links, carried) else {
        return Err(TurnsEnd::TooMany);
    };
    let Some(mut text) = parts_text(alloc, plan, links, carried)? else {
        return Err(TurnsEnd::TooMany);
    };
    put_line(&mut text, b"all ", all)?;
    Ok(text)
}

/// What the wires carry, where it fits.
fn carried_in(
    alloc: Global,
    c: &Checked,
    links: &[NumberedWire],
    counts: &[u64],
) -> Result<Vec<u64>, TurnsEnd>
    ensures { IfOk result (λ carried. carried.items ≡ passed_all (own_elements (checked_blueprint c.now).nodes.items counts.now) (wires_of_links links.now)
        (number_at carried.items)) }
{
    let b = c.blueprint();
    let sources = source_count(&b.nodes);
    if sources != counts.len() {
        return Err(TurnsEnd::Sources(sources));
    }
    let numbers = own_of(alloc, &b.nodes, counts)?;
    let rounds = b.nodes.len().saturating_add(2);
    match carried_by(alloc, links, &numbers, rounds)? {
        Some(carried) => Ok(carried),
        None => Err(TurnsEnd::TooMany),
    }
}

/// How many units suffice for the run of a checked blueprint whose sources give so many elements, in the order of sources, and of
/// which every stage passes all on: a line for each island, one for the lanes where there are some, and one for all wires.
pub fn count_units(alloc: Global, c: &Checked, counts: &[u64]) -> Result<Vec<u8>, TurnsEnd>
    ensures { IfOk result (λ text. Suffices (checked_blueprint c.now) counts.now text.items) }
{
    let b = c.blueprint();
    let links = links_of(alloc, &b.nodes, &b.wires)?;
    let carried = carried_in(alloc, c, &links, counts)?;
    let plan = islands(alloc, c)?;
    text_of(alloc, &plan, &links, &carried)
}
