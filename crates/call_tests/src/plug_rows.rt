// Plugs in a row between a source and a sink.
ghost use Rattle.std.specs.Prelude.{◌≡◌, ◌≤◌, [], IsTrue, IfOk, length};
ghost use Rattle.std.specs.List.{All};
ghost use Rattle.elem_core.specs.Line.{has_no_lf};
ghost use Rattle.plug_logic.specs.Gives.{listed};
ghost use Rattle.plug_samples.specs.Samples.{sample_book};
ghost use Rattle.stage_linear.specs.Plugs.{Is};

use crate::plug_calls::{add, call};
use plug_logic::logic::Logic;
use plug_logic::plug::Plug;
use plug_samples::halts::Halts;
use plug_samples::spoils::Spoils;
use plug_samples::tail::Tail;
use plug_samples::twin::Twin;
use std::alloc::{AllocError, Global};
use std::sync::Wait;
use std::test::Fail;
use std::thread::Threads;

const TWIN: &str =
    "streams 1\nsource src lines in.txt\nstage p plug twin\nsink out lines out.txt\nwire src.0 -> p.0\nwire p.0 -> out.0\n";

const TWIN_TAKEN: &str =
    "streams 1\nsource src lines in.txt\nstage p plug twin\nstage t take 1\nsink out lines out.txt\nwire src.0 -> p.0\nwire p.0 -> t.0\nwire t.0 -> out.0\n";

const TWIN_LIMITED: &str =
    "streams 1\nsource src lines in.txt\nstage l limit 1\nstage p plug twin\nsink out lines out.txt\nwire src.0 -> l.0\nwire l.0 -> p.0 async 1\nwire p.0 -> out.0\n";

const HALTS: &str =
    "streams 1\nsource src lines in.txt\nstage p plug halts\nsink out lines out.txt\nwire src.0 -> p.0\nwire p.0 -> out.0\n";

const SPOILS: &str =
    "streams 1\nsource src lines in.txt\nstage p plug spoils\nsink out lines out.txt\nwire src.0 -> p.0\nwire p.0 -> out.0\n";

const TAIL: &str =
    "streams 1\nsource src lines in.txt\nstage p plug tail\nsink out lines out.txt\nwire src.0 -> p.0 async 2\nwire p.0 -> out.0 async 1\n";

const BOTH: &str =
    "streams 1\nsource src lines in.txt\nstage t plug tail\nstage w plug twin\nsink out lines out.txt\nwire src.0 -> t.0\nwire t.0 -> w.0\nwire w.0 -> out.0\n";

// One plug of texts alone.
fn only(alloc: Global, name: &str, logic: Box<dyn Logic + Send>) -> Result<Vec<Plug>, AllocError>
    requires short { length name.now ≤ 65536 }
    requires no_lf { IsTrue (has_no_lf name.now) }
    requires listed { gives logic ≡ listed sample_book name.now }
    ensures { IfOk result (λ plugs. All (λ p. Is (gives p.logic) [] (listed sample_book p.head.name)) plugs.items) }
{
    let mut plugs = Vec::new(alloc);
    add(alloc, &mut plugs, name, false, logic)?;
    Ok(plugs)
}

// Whether a run over these lines, by so many workers, says this and leaves this in `out.txt`.
fn leaves<R: Threads + Wait + Sync>(
    rt: &R,
    alloc: Global,
    text: &str,
    workers: &str,
    plugs: Vec<Plug>,
    input: &str,
    said: &str,
    left: &str,
) -> Result<bool, AllocError>
    requires { All (λ p. Is (gives p.logic) [] (listed sample_book p.head.name)) plugs.items }
{
    let came = call(rt, alloc, text, input, workers, plugs)?;
    Ok(came.says(said) && came.holds(alloc, "out.txt", left)?)
}

// One that finishes gives both of its outputs; where one is taken, the second is let go; a failure behind its end is not heard.
#[test]
fn a_plug_that_finishes_gives_both_outputs(rt: HostRuntime) -> Result<(), Fail> {
    let alloc = rt.alloc();
    for (text, input, said, left) in [
        (TWIN, "a\nb\nc\n", "done\nsink out ended 2\n", "a\na\n"),
        (TWIN_TAKEN, "a\nb\n", "done\nsink out ended 1\n", "a\n"),
        (TWIN_LIMITED, "a\nb\n", "done\nsink out ended 2\n", "a\na\n"),
    ] {
        let twin = only(alloc, "twin", Box::new(alloc, Twin::new())?)?;
        assert!(rt; leaves(&rt, alloc, text, "1", twin, input, said, left)?);
    }
    Ok(())
}

// One that fails drops what it put out in that call; one that fails at its end does so behind all that it gave.
#[test]
fn a_plug_that_fails_drops_what_it_put_out(rt: HostRuntime) -> Result<(), Fail> {
    let alloc = rt.alloc();
    let halts = only(alloc, "halts", Box::new(alloc, Halts::new())?)?;
    let said = "failed\nsink out failed 1 stage 1 nth 2 why 15/7\n";
    assert!(rt; leaves(&rt, alloc, HALTS, "1", halts, "a\nb\nc\n", said, "a\n")?);
    let spoils = only(alloc, "spoils", Box::new(alloc, Spoils::new())?)?;
    let said = "failed\nsink out failed 2 stage 1 nth 0 why 15/9\n";
    assert!(rt; leaves(&rt, alloc, SPOILS, "1", spoils, "a\nb\n", said, "a\nb\n")?);
    Ok(())
}

// Two outputs at the end pass lanes, and a second plug.
#[test]
fn two_outputs_at_the_end_pass_on(rt: HostRuntime) -> Result<(), Fail> {
    let alloc = rt.alloc();
    let tail = only(alloc, "tail", Box::new(alloc, Tail::new())?)?;
    assert!(rt;
        leaves(
            &rt,
            alloc,
            TAIL,
            "2",
            tail,
            "a\nb\nc\n",
            "done\nsink out ended 2\n",
            "c\nc\n"
        )?
    );
    let mut both = only(alloc, "twin", Box::new(alloc, Twin::new())?)?;
    add(
        alloc,
        &mut both,
        "tail",
        false,
        Box::new(alloc, Tail::new())?,
    )?;
    assert!(rt;
        leaves(
            &rt,
            alloc,
            BOTH,
            "1",
            both,
            "a\nb\n",
            "done\nsink out ended 2\n",
            "b\nb\n"
        )?
    );
    Ok(())
}
