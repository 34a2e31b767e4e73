// What no clause says: that the numbers tell of each wire whether it lies on a closed walk, so that no walk has to be looked for.
use blue_check::components::{Components, components_of};
use blue_check::depth::ins_of;
use blue_check::ranks::rank_of;
use blue_names::links::NumberedWire;
use elem_core::why::NoMemory;
use std::alloc::Global;
use std::test::Fail;

/// The next of a row of numbers without an order.
fn next_number(seed: u64) -> u64 {
    seed.wrapping_mul(6_364_136_223_846_793_005)
        .wrapping_add(1_442_695_040_888_963_407)
}

/// One of seven nodes.
fn node_of(seed: u64) -> usize {
    (seed >> 33) as usize % 7
}

/// A wire between two nodes.
fn wire(from: usize, to: usize) -> NumberedWire {
    NumberedWire {
        from,
        output: 0,
        to,
        input: 0,
        lane: None,
        keep: false,
        hub: None,
    }
}

/// So many wires between seven nodes, and the same the other way round.
fn some_wires(
    alloc: Global,
    wires: usize,
    first_seed: u64,
) -> Result<(Vec<NumberedWire>, Vec<NumberedWire>), NoMemory> {
    let mut links = Vec::new(alloc);
    let mut turned = Vec::new(alloc);
    let mut seed = first_seed;
    for _ in 0..wires {
        seed = next_number(seed);
        let from = node_of(seed);
        seed = next_number(seed);
        let to = node_of(seed);
        links.push(wire(from, to))?;
        turned.push(wire(to, from))?;
    }
    Ok((links, turned))
}

/// Whether the numbers tell of a wire.
fn is_told(found: &Components, link: &NumberedWire) -> bool {
    rank_of(&found.ranks, link.from) < rank_of(&found.ranks, link.to)
        || rank_of(&found.goals, link.to) == rank_of(&found.origins, link.from)
}

/// How many of so many wires they tell of.
fn told(alloc: Global, wires: usize, seed: u64) -> Result<usize, NoMemory> {
    let (links, turned) = some_wires(alloc, wires, seed)?;
    let outs = ins_of(alloc, 7, &turned)?;
    let found = components_of(alloc, 7, &links, &outs)?;
    let mut count = 0_usize;
    for link in &links {
        if is_told(&found, link) {
            count = count.saturating_add(1);
        }
    }
    Ok(count)
}

#[test]
fn numbers_tell_of_each_wire(rt: HostRuntime) -> Result<(), Fail> {
    for seed in 0..40_u64 {
        for wires in 1..16_usize {
            assert_eq!(rt; told(rt.alloc(), wires, seed)?, wires);
        }
    }
    Ok(())
}
