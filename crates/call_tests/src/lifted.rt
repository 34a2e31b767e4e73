// Plugs as custom stages: each gives what it gives as a plug.
use crate::plug_calls::{call_with, hire};
use elem_core::elem_type::{ElemType, TypeForm};
use graph_stage::custom::Custom;
use graph_stage::handlers::Handlers;
use plug_logic::dedup::Dedup;
use plug_logic::pair_sum::PairSum;
use plug_samples::halts::Halts;
use plug_samples::spoils::Spoils;
use plug_samples::tail::Tail;
use plug_samples::twin::Twin;
use std::alloc::{AllocError, Global};
use std::test::Fail;
use told_stage::lift::Lift;

pub const TEXTS: &str =
    "streams 1\nsource src lines in.txt\nstage p custom lifted\nsink out lines out.txt\nwire src.0 -> p.0\nwire p.0 -> out.0\n";

pub const LIMITED: &str =
    "streams 1\nsource src lines in.txt\nstage l limit 1\nstage p custom lifted\nsink out lines out.txt\nwire src.0 -> l.0\nwire l.0 -> p.0 async 1\nwire p.0 -> out.0\n";

const NUMBERS: &str =
    "streams 1\nsource src lines in.txt\nstage n map num\nstage p custom lifted\nstage s map show\nsink out lines out.txt\nwire src.0 -> n.0\nwire n.0 -> p.0\nwire p.0 -> s.0\nwire s.0 -> out.0\n";

const AMONG_THREADS: &str =
    "streams 1\nsource src lines in.txt\nstage p custom lifted\nsink out lines out.txt\nwire src.0 -> p.0 async 2\nwire p.0 -> out.0 async 1\n";

/// The plug that is lifted.
#[derive(Clone, Copy)]
enum Lifted {
    Dedup,
    /// The only one of numbers.
    PairSum,
    Twin,
    Tail,
    Halts,
    Spoils,
}

impl Lifted {
    /// Whether it is one of numbers.
    fn takes_numbers(self) -> bool {
        match self {
            Lifted::PairSum => true,
            _ => false,
        }
    }

    /// It as a custom stage.
    fn boxed(self, alloc: Global) -> Result<Box<dyn Handlers + Send>, AllocError> {
        let form = if self.takes_numbers() {
            TypeForm::Num
        } else {
            TypeForm::Text
        };
        let input = ElemType::of(form);
        Ok(match self {
            Lifted::Dedup => Box::new(alloc, Lift::of(input, Dedup::new()))?,
            Lifted::PairSum => Box::new(alloc, Lift::of(input, PairSum::new()))?,
            Lifted::Twin => Box::new(alloc, Lift::of(input, Twin::new()))?,
            Lifted::Tail => Box::new(alloc, Lift::of(input, Tail::new()))?,
            Lifted::Halts => Box::new(alloc, Lift::of(input, Halts::new()))?,
            Lifted::Spoils => Box::new(alloc, Lift::of(input, Spoils::new()))?,
        })
    }
}

/// Each row: the plug, a blueprint with it, its input, the workers, and what the run says and leaves.
#[test]
fn a_lifted_plug_gives_what_it_gives_as_a_plug(rt: HostRuntime) -> Result<(), Fail> {
    let alloc = rt.alloc();
    for (plug, text, input, workers, said, left) in [
        // A dedup leaves out what repeats,
        (
            Lifted::Dedup,
            TEXTS,
            "a\na\nb\na\n",
            "1",
            "done\nsink out ended 3\n",
            "a\nb\na\n",
        ),
        // and a failure passes it.
        (
            Lifted::Dedup,
            LIMITED,
            "a\nb\n",
            "1",
            "failed\nsink out failed 1 stage 1 nth 2 why 6\n",
            "a\n",
        ),
        // A sum without a value is the plug's own failure.
        (
            Lifted::PairSum,
            NUMBERS,
            "1\n2\n9223372036854775807\n1\n",
            "1",
            "failed\nsink out failed 1 stage 2 nth 4 why 15/1\n",
            "3\n",
        ),
        // One that finishes gives both outputs,
        (
            Lifted::Twin,
            TEXTS,
            "a\nb\nc\n",
            "1",
            "done\nsink out ended 2\n",
            "a\na\n",
        ),
        // and a failure behind the finish is not heard.
        (
            Lifted::Twin,
            LIMITED,
            "a\nb\n",
            "1",
            "done\nsink out ended 2\n",
            "a\na\n",
        ),
        // Last outputs go out across threads.
        (
            Lifted::Tail,
            AMONG_THREADS,
            "a\nb\nc\n",
            "4",
            "done\nsink out ended 2\n",
            "c\nc\n",
        ),
        // One that fails drops what it put out,
        (
            Lifted::Halts,
            TEXTS,
            "a\nb\nc\n",
            "1",
            "failed\nsink out failed 1 stage 1 nth 2 why 15/7\n",
            "a\n",
        ),
        // and one that fails at its end does so behind all that it gave.
        (
            Lifted::Spoils,
            TEXTS,
            "a\nb\n",
            "1",
            "failed\nsink out failed 2 stage 1 nth 0 why 15/9\n",
            "a\nb\n",
        ),
    ] {
        let mut customs: Vec<Custom> = Vec::new(alloc);
        let stage = plug.boxed(alloc)?;
        hire(
            alloc,
            &mut customs,
            "lifted",
            (1, 1),
            plug.takes_numbers(),
            stage,
        )?;
        let came = call_with(&rt, alloc, text, input, workers, Vec::new(alloc), customs)?;
        assert!(rt; came.says(said));
        assert!(rt; came.holds(alloc, "out.txt", left)?);
    }
    Ok(())
}
