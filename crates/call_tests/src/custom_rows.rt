// Custom stages as a caller may write them, in a run.
use crate::plug_calls::{Came, call_with, hire};
use custom_samples::every_nth::EveryNth;
use custom_samples::joined::JoinedDedup;
use custom_samples::router::Router;
use graph_stage::custom::Custom;
use graph_stage::handlers::Handlers;
use std::alloc::{AllocError, Global};
use std::sync::Wait;
use std::test::Fail;
use std::thread::Threads;

const EVERY: &str =
    "streams 1\nsource src lines in.txt\nstage e custom sample\nsink out lines out.txt\nwire src.0 -> e.0\nwire e.0 -> out.0\n";

const EVERY_APART: &str =
    "streams 1\nsource src lines in.txt\nstage e custom sample\nsink out lines out.txt\nwire src.0 -> e.0 async 1\nwire e.0 -> out.0 async 1\n";

const ROUTED: &str =
    "streams 1\nsource src range 1 5\nstage r custom sample\nsink low lines low.txt\nsink high lines high.txt\nwire src.0 -> r.0\nwire r.0 -> low.0\nwire r.1 -> high.0\n";

const JOINED: &str =
    "streams 1\nsource src lines in.txt\nsource none empty text\nstage j custom sample\nsink out lines out.txt\nwire src.0 -> j.0\nwire none.0 -> j.1\nwire j.0 -> out.0\n";

/// What the run of a blueprint with one custom stage, `sample`, comes to.
fn run<R: Threads + Wait + Sync>(
    rt: &R,
    alloc: Global,
    text: &str,
    ports: (usize, usize),
    numbers: bool,
    stage: Box<dyn Handlers + Send>,
    workers: &str,
) -> Result<Came, AllocError> {
    let mut customs: Vec<Custom> = Vec::new(alloc);
    hire(alloc, &mut customs, "sample", ports, numbers, stage)?;
    call_with(
        rt,
        alloc,
        text,
        "a\na\nb\nc\nc\n",
        workers,
        Vec::new(alloc),
        customs,
    )
}

#[test]
fn every_second_element_passes(rt: HostRuntime) -> Result<(), Fail> {
    let alloc = rt.alloc();
    for (text, workers) in [(EVERY, "1"), (EVERY_APART, "4"), (EVERY_APART, "64")] {
        let stage = Box::new(alloc, EveryNth::new(2))?;
        let came = run(&rt, alloc, text, (1, 1), false, stage, workers)?;
        assert!(rt; came.says("done\nsink out ended 3\n"));
        assert!(rt; came.holds(alloc, "out.txt", "a\nb\nc\n")?);
    }
    Ok(())
}

#[test]
fn a_router_parts_numbers(rt: HostRuntime) -> Result<(), Fail> {
    let alloc = rt.alloc();
    let stage = Box::new(alloc, Router::new(3))?;
    let came = run(&rt, alloc, ROUTED, (1, 2), true, stage, "1")?;
    assert!(rt; came.says("done\nsink low ended 2\nsink high ended 3\n"));
    assert!(rt; came.holds(alloc, "low.txt", "1\n2\n")?);
    assert!(rt; came.holds(alloc, "high.txt", "3\n4\n5\n")?);
    Ok(())
}

#[test]
fn a_dedup_of_two_inputs_leaves_out_what_repeats(rt: HostRuntime) -> Result<(), Fail> {
    let alloc = rt.alloc();
    let stage = Box::new(alloc, JoinedDedup::new())?;
    let came = run(&rt, alloc, JOINED, (2, 1), false, stage, "1")?;
    assert!(rt; came.says("done\nsink out ended 3\n"));
    assert!(rt; came.holds(alloc, "out.txt", "a\nb\nc\n")?);
    Ok(())
}
