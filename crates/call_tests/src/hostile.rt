// What a custom stage can do that breaks its rules: it fails by the rule, and the sink of another stage has what it had without it.
ghost use Rattle.std.specs.Prelude.{⊤, IsErr};
ghost use Rattle.graph_stage.specs.Told.{no_list};

use crate::plug_calls::{Came, call_with, hire};
use elem_core::elem::{Elem, Form};
use elem_core::line::Line;
use elem_core::why::{Cause, NoMemory};
use graph_stage::ask::Ask;
use graph_stage::asks::Asks;
use graph_stage::custom::Custom;
use graph_stage::handlers::Handlers;
use graph_stage::sight::Sight;
use std::alloc::{AllocError, Global};
use std::sync::Wait;
use std::test::Fail;
use std::thread::Threads;

const BESIDE: &str =
    "streams 1\nsource src lines in.txt\nstage h custom hostile\nsource a range 1 3\nsink out lines out.txt\nsink far lines far.txt\nwire src.0 -> h.0\nwire h.0 -> out.0\nwire a.0 -> far.0\n";

const ALONE: &str =
    "streams 1\nsource src lines in.txt\nstage h custom hostile\nsink out lines out.txt\nwire src.0 -> h.0\nwire h.0 -> out.0\n";

/// What it does with each element.
#[derive(Clone, Copy)]
enum Deed {
    /// It pushes a number where a text is due.
    OtherType,
    /// It pushes at an output that it has not.
    NoSuchOutput,
    /// It pulls an input that it has not.
    NoSuchInput,
    /// It pulls its input twice.
    TwicePulled,
    /// It passes on a failure where none came.
    PassesNothing,
    /// It completes its output a thousand times.
    ThousandAsks,
    /// It asks without end.
    EndlessAsks,
    /// It finishes, and then pushes.
    PushesBehindEnd,
    /// It never asks for anything.
    AsksNothing,
    /// It says that there is no memory.
    WantsMemory,
}

/// Asks for pushes without end, of texts that have twice the room of the one before, so that a machine has no more of it while nothing is
/// written there. It is refused, since no list of asks is longer than the turns of its loop.
fn push_without_end(alloc: Global, asks: &mut Asks) -> Result<(), NoMemory>
    ensures { IsErr result }
{
    let mut room = 1024usize;
    for _i in 0..u64::MAX {
        let bytes = Vec::with_capacity(alloc, room)?;
        asks.add(Ask::Push(0, Elem::of(Form::Text(Line::of(bytes)))))?;
        room = room.saturating_mul(2);
    }
    let asked = asks.add(Ask::Finish);
    let _count = asks.len();
    asked
}

#[derive(Drop)]
struct Hostile {
    deed: Deed,
}

impl Handlers for Hostile {
    ghost does = { λ old heard asks new. ⊤ };

    ghost tells = { λ x. no_list };

    fn start(&mut self, _alloc: Global, _sight: &Sight, _asks: &mut Asks) -> Result<(), NoMemory> {
        Ok(())
    }

    fn on_push(
        &mut self,
        alloc: Global,
        _port: u8,
        e: Elem,
        _sight: &Sight,
        asks: &mut Asks,
    ) -> Result<(), NoMemory> {
        match self.deed {
            Deed::OtherType => asks.add(Ask::Push(0, Elem::of(Form::Num(7)))),
            Deed::NoSuchOutput => asks.add(Ask::Push(200, e)),
            Deed::NoSuchInput => asks.add(Ask::Pull(200)),
            Deed::TwicePulled => {
                asks.add(Ask::Pull(0))?;
                asks.add(Ask::Pull(0))
            }
            Deed::PassesNothing => asks.add(Ask::Pass),
            Deed::ThousandAsks => {
                asks.add(Ask::Push(0, e))?;
                for _i in 0..1000u32 {
                    asks.add(Ask::Complete(0))?;
                }
                Ok(())
            }
            Deed::EndlessAsks => push_without_end(alloc, asks),
            Deed::PushesBehindEnd => {
                asks.add(Ask::Finish)?;
                asks.add(Ask::Push(0, e))
            }
            Deed::AsksNothing => Ok(()),
            Deed::WantsMemory => Err(AllocError),
        }
    }

    fn on_pull(
        &mut self,
        _alloc: Global,
        _port: u8,
        _sight: &Sight,
        asks: &mut Asks,
    ) -> Result<(), NoMemory> {
        match self.deed {
            Deed::AsksNothing => Ok(()),
            _ => asks.add(Ask::Pull(0)),
        }
    }

    fn on_finish(
        &mut self,
        _alloc: Global,
        _port: u8,
        _sight: &Sight,
        asks: &mut Asks,
    ) -> Result<(), NoMemory> {
        match self.deed {
            Deed::AsksNothing => Ok(()),
            _ => asks.add(Ask::Finish),
        }
    }

    fn on_fail(
        &mut self,
        _alloc: Global,
        _port: u8,
        _cause: Cause,
        _sight: &Sight,
        asks: &mut Asks,
    ) -> Result<(), NoMemory> {
        asks.add(Ask::Pass)
    }

    fn on_cancel(
        &mut self,
        _alloc: Global,
        _port: u8,
        _sight: &Sight,
        asks: &mut Asks,
    ) -> Result<(), NoMemory> {
        asks.add(Ask::Finish)
    }
}

/// What the run of a blueprint with a hostile stage comes to.
fn run<R: Threads + Wait + Sync>(
    rt: &R,
    alloc: Global,
    text: &str,
    deed: Deed,
) -> Result<Came, AllocError> {
    let mut customs: Vec<Custom> = Vec::new(alloc);
    let hostile = Box::new(alloc, Hostile { deed })?;
    hire(alloc, &mut customs, "hostile", (1, 1), false, hostile)?;
    call_with(rt, alloc, text, "a\nb\n", "2", Vec::new(alloc), customs)
}

/// Each deed: the blueprint, and what a run of it says and leaves. What the other stage gives is looked at where both end.
#[test]
fn a_hostile_stage_harms_no_other(rt: HostRuntime) -> Result<(), Fail> {
    let alloc = rt.alloc();
    for (deed, text, said, out, far) in [
        // A push of another type fails it.
        (
            Deed::OtherType,
            BESIDE,
            "failed\nsink out failed 0 stage 1 nth 1 why 16/4\nsink far ended 3\n",
            "",
            Some("1\n2\n3\n"),
        ),
        // So does a push where no output is,
        (
            Deed::NoSuchOutput,
            BESIDE,
            "failed\nsink out failed 0 stage 1 nth 1 why 16/3\nsink far ended 3\n",
            "",
            Some("1\n2\n3\n"),
        ),
        // a pull where no input is,
        (
            Deed::NoSuchInput,
            BESIDE,
            "failed\nsink out failed 0 stage 1 nth 1 why 16/3\nsink far ended 3\n",
            "",
            Some("1\n2\n3\n"),
        ),
        // a second pull,
        (
            Deed::TwicePulled,
            BESIDE,
            "failed\nsink out failed 0 stage 1 nth 1 why 16/1\nsink far ended 3\n",
            "",
            Some("1\n2\n3\n"),
        ),
        // and passing on a failure that did not come.
        (
            Deed::PassesNothing,
            BESIDE,
            "failed\nsink out failed 0 stage 1 nth 1 why 16/5\nsink far ended 3\n",
            "",
            Some("1\n2\n3\n"),
        ),
        // A thousand asks complete once.
        (
            Deed::ThousandAsks,
            BESIDE,
            "done\nsink out ended 1\nsink far ended 3\n",
            "a\n",
            Some("1\n2\n3\n"),
        ),
        // A push behind the end changes nothing.
        (
            Deed::PushesBehindEnd,
            BESIDE,
            "done\nsink out ended 0\nsink far ended 3\n",
            "",
            Some("1\n2\n3\n"),
        ),
        // One that asks nothing stalls.
        (
            Deed::AsksNothing,
            ALONE,
            "stalled\nsink out unended 0\nwire 0 sent 0 unasked live\nwire 1 sent 0 asked live\n",
            "",
            None,
        ),
        // A want of memory is the run's,
        (Deed::WantsMemory, BESIDE, "no memory\n", "", None),
        // and asks without end are one.
        (Deed::EndlessAsks, BESIDE, "no memory\n", "", None),
    ] {
        let came = run(&rt, alloc, text, deed)?;
        assert!(rt; came.says(said));
        assert!(rt; came.holds(alloc, "out.txt", out)?);
        if let Some(far) = far {
            assert!(rt; came.holds(alloc, "far.txt", far)?);
        }
    }
    Ok(())
}

/// Asks without end are taken while there is memory, of which eleven need two megabytes, and then refused.
#[test]
fn asks_without_end_are_taken_while_memory_lasts(rt: HostRuntime) -> Result<(), Fail> {
    let alloc = rt.alloc();
    let mut asks = Asks::new(alloc);
    assert!(rt; push_without_end(alloc, &mut asks).is_err());
    assert!(rt; asks.len() > 10);
    Ok(())
}
