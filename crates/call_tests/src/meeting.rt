// A run that uses one thread is told from one that uses two, and workers last: another worker still comes behind lanes, and behind a time in
// which one island alone had something to do.
use crate::plug_calls::{add, call};
use once_cell::race::OnceBool;
use plug_logic::plug::Plug;
use plug_samples::meets::Meets;
use std::alloc::Global;
use std::sync::{Arc, Wait};
use std::test::Fail;
use std::thread::Threads;

const APART: &str =
    "streams 1\nsource a range 1 1\nsource b range 1 1\nstage l plug left\nstage r plug right\nsink x lines x.txt\nsink y lines y.txt\nwire a.0 -> l.0\nwire b.0 -> r.0\nwire l.0 -> x.0\nwire r.0 -> y.0\n";

// Each plug in an island of its own, between lanes.
const BEHIND_LANES: &str =
    "streams 1\nsource a range 1 1\nsource b range 1 1\nstage l plug left\nstage r plug right\nsink x lines x.txt\nsink y lines y.txt\nwire a.0 -> l.0 async 1\nwire b.0 -> r.0 async\nwire l.0 -> x.0\nwire r.0 -> y.0 async 64\n";

// Until the sum is there the island of the fold alone has something to do.
const BEHIND_A_FOLD: &str =
    "streams 1\nsource a range 1 3000000\nstage f fold sum\nstage c broadcast 2\nstage l plug left\nstage r plug right\nsink x lines x.txt\nsink y lines y.txt\nwire a.0 -> f.0\nwire f.0 -> c.0\nwire c.0 -> l.0 async\nwire c.1 -> r.0 async\nwire l.0 -> x.0\nwire r.0 -> y.0\n";

// Whether two plugs of this blueprint meet at so many workers, each of which waits for the other.
fn meet_in<R: Threads + Wait + Sync>(
    rt: &R,
    alloc: Global,
    text: &str,
    workers: &str,
    line: &str,
) -> Result<bool, Fail> {
    let left = Arc::new(alloc, OnceBool::new())?;
    let right = Arc::new(alloc, OnceBool::new())?;
    let left_met = Arc::new(alloc, OnceBool::new())?;
    let right_met = Arc::new(alloc, OnceBool::new())?;
    let mut plugs: Vec<Plug> = Vec::new(alloc);
    let one = Meets::new(
        Arc::try_clone(&left)?,
        Arc::try_clone(&right)?,
        Arc::try_clone(&left_met)?,
    );
    add(alloc, &mut plugs, "left", true, Box::new(alloc, one)?)?;
    let two = Meets::new(right, left, Arc::try_clone(&right_met)?);
    add(alloc, &mut plugs, "right", true, Box::new(alloc, two)?)?;
    let came = call(rt, alloc, text, "", workers, plugs)?;
    let done = came.says("done\nsink x ended 1\nsink y ended 1\n");
    let same = came.holds(alloc, "x.txt", line)? && came.holds(alloc, "y.txt", line)?;
    Ok(done && same && left_met.get().is_some() && right_met.get().is_some())
}

#[test]
fn two_plugs_meet(rt: HostRuntime) -> Result<(), Fail> {
    let met = meet_in(&rt, rt.alloc(), APART, "2", "1\n")?;
    assert!(rt; met);
    Ok(())
}

#[test]
fn two_plugs_meet_behind_lanes(rt: HostRuntime) -> Result<(), Fail> {
    for workers in ["2", "4", "64"] {
        let met = meet_in(&rt, rt.alloc(), BEHIND_LANES, workers, "1\n")?;
        assert!(rt; met);
    }
    Ok(())
}

#[test]
fn two_plugs_meet_behind_a_fold(rt: HostRuntime) -> Result<(), Fail> {
    for workers in ["2", "64"] {
        let met = meet_in(&rt, rt.alloc(), BEHIND_A_FOLD, workers, "4500001500000\n")?;
        assert!(rt; met);
    }
    Ok(())
}
