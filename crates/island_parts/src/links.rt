// The links of all islands.
ghost use Rattle.std.specs.Prelude.{◌≡◌, ◌<◌, ◌^◌, ◌++◌, IfOk, OnOk, All, map, length, slice_index};
ghost use Rattle.blue_names.specs.Links.{wire_of_link, wires_of_links};
ghost use Rattle.interpreter.specs.declared.parts.Link as wiring;
ghost use Rattle.island_parts.specs.Whole.{one_lane, near_at, nears_from, far_at, fars_from, whole_links, link_home, at_ranks};

use blue_check::ranks::rank_of;
use blue_names::links::NumberedWire;
use elem_core::count::numbered;
use elem_core::why::NoMemory;
use interpreter::parts::Link;
use std::alloc::{AllocError, Global};

/// The place of the next lane, behind a wire.
fn behind(place: usize, wire: &NumberedWire) -> Result<usize, NoMemory>
    ensures { IfOk result (λ next. next ≡ one_lane wire.now.lane place) }
{
    match wire.lane {
        None => Ok(place),
        Some(_) => match place.checked_add(1) {
            Some(next) => Ok(next),
            None => Err(AllocError),
        },
    }
}

/// The link at the output of wire u: of a lane it leads to the place where it goes out.
fn near_link(out: usize, u: u32, wire: &NumberedWire) -> Result<Link, NoMemory>
    requires output { wire.now.output < 2 ^ 8 }
    requires input { wire.now.input < 2 ^ 8 }
    ensures { IfOk result (λ link. link ≡ near_at out u (wire_of_link wire.now) wire.now.lane) }
{
    let from = numbered(wire.from)?;
    let output = wire.output as u8;
    match wire.lane {
        None => Ok(Link {
            wire: u,
            from,
            output,
            to: numbered(wire.to)?,
            input: wire.input as u8,
        }),
        Some(_) => Ok(Link {
            wire: u,
            from,
            output,
            to: numbered(out)?,
            input: 0,
        }),
    }
}

/// Puts the link at the input of wire u last, where it has a lane: it comes from the place where that comes in.
fn put_far(links: &mut Vec<Link>, place: usize, u: u32, wire: &NumberedWire) -> Result<(), NoMemory>
    requires input { wire.now.input < 2 ^ 8 }
    ensures { OnOk result (links.new.items ≡ links.old.items ++ far_at place u (wire_of_link wire.now) wire.now.lane) }
{
    if wire.lane.is_none() {
        return Ok(());
    }
    links.push(Link {
        wire: u,
        from: numbered(place)?,
        output: 0,
        to: numbered(wire.to)?,
        input: wire.input as u8,
    })?;
    Ok(())
}

/// The links at the outputs of wires.
fn near_links(alloc: Global, wires: &[NumberedWire], outs: usize) -> Result<Vec<Link>, NoMemory>
    requires ports { All (λ w. (w.output < 2 ^ 8) × (w.input < 2 ^ 8)) wires.now }
    ensures { IfOk result (λ links. links.items ≡ nears_from outs 0 (wires_of_links wires.now)) }
{
    let mut out = outs;
    let mut links = Vec::new(alloc);
    for (u, wire) in wires.iter().enumerate() {
        links.push(near_link(out, numbered(u)?, wire)?)?;
        out = behind(out, wire)?;
    }
    Ok(links)
}

/// The links at the inputs of lanes, behind others.
fn put_fars(links: &mut Vec<Link>, wires: &[NumberedWire], first: usize) -> Result<(), NoMemory>
    requires ports { All (λ w. (w.output < 2 ^ 8) × (w.input < 2 ^ 8)) wires.now }
    ensures { OnOk result (links.new.items ≡ links.old.items ++ fars_from first 0 (wires_of_links wires.now)) }
{
    let mut place = first;
    for (u, wire) in wires.iter().enumerate() {
        put_far(links, place, numbered(u)?, wire)?;
        place = behind(place, wire)?;
    }
    Ok(())
}

/// All links of a blueprint of so many nodes, by the places of all islands, where this is the place of the first lane that goes
/// out: one at the output of each wire, then one at the input of each lane. There are fewer than 2^32.
pub fn all_links(
    alloc: Global,
    wires: &[NumberedWire],
    nodes: usize,
    outs: usize,
) -> Result<Vec<Link>, NoMemory>
    requires ports { All (λ w. (w.output < 2 ^ 8) × (w.input < 2 ^ 8)) wires.now }
    ensures links { IfOk result (λ links. links.items ≡ nears_from outs 0 (wires_of_links wires.now) ++ fars_from nodes 0 (wires_of_links wires.now)) }
    ensures few { IfOk result (λ links. length links.items < 2 ^ 32) }
{
    let mut links = near_links(alloc, wires, outs)?;
    put_fars(&mut links, wires, nodes)?;
    let _ = numbered(links.len())?;
    Ok(links)
}

/// The island of each link: that of the place from which it comes.
pub fn link_homes(alloc: Global, links: &[Link], homes: &[usize]) -> Result<Vec<usize>, NoMemory>
    ensures { IfOk result (λ all. all.items ≡ map (link_home homes.now) links.now) }
{
    let mut all = Vec::new(alloc);
    for link in links {
        all.push(rank_of(homes, link.from as usize))?;
    }
    Ok(all)
}

/// The links, whose places have these ranks in their islands.
pub fn local_links(alloc: Global, links: &[Link], ranks: &[usize]) -> Result<Vec<Link>, NoMemory>
    ensures { IfOk result (λ all. all.items ≡ map (at_ranks ranks.now) links.now) }
{
    let mut all = Vec::new(alloc);
    for link in links {
        all.push(Link {
            wire: link.wire,
            from: numbered(rank_of(ranks, link.from as usize))?,
            output: link.output,
            to: numbered(rank_of(ranks, link.to as usize))?,
            input: link.input,
        })?;
    }
    Ok(all)
}
