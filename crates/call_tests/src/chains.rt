// The trait of chains at concrete types, through its bound, and a log of picks with ample memory.
ghost use Rattle.std.specs.Prelude.{◌≡◌, List, [], length, Ok, Err, IfOk, ◌==◌, if◌then◌else◌, true, take};
ghost use Rattle.port_core.specs.declared.chain.ChainStep.TheVariants.{Go, Closed, Failed};
ghost use Rattle.elem_core.specs.declared.why.Why.TheVariants.{LimitReached, EmptySink};

use elem_core::elem::{Elem, Form};
use elem_core::elems::Elems;
use elem_core::why::{NoMemory, Why};
use port_core::chain::{Chain, ChainStep};
use port_core::pick_log::PickLog;
use std::alloc::Global;
use std::test::Fail;

/// Passes the first element and ends.
#[derive(Drop)]
struct First {
    open: bool,
}

impl Chain for First {
    ghost whole = { λ _. record { gives = λ l. take 1 l; stop = λ l. if length l == 0 then Go else Closed; adds = λ l. Ok [] } };

    ghost rest = { λ _. record { gives = λ l. take 1 l; stop = λ l. if length l == 0 then Go else Closed; adds = λ l. Ok [] } };

    ghost is_open = { λ c. c.open };

    fn fresh(&self, _alloc: Global) -> Result<First, NoMemory> {
        Ok(First { open: true })
    }

    fn push(&mut self, _alloc: Global, e: Elem, out: &mut Elems) -> Result<ChainStep, NoMemory> {
        self.open = false;
        out.add(e)?;
        Ok(ChainStep::Closed)
    }

    fn end(&mut self, _alloc: Global, _out: &mut Elems) -> Result<ChainStep, NoMemory> {
        self.open = false;
        Ok(ChainStep::Go)
    }
}

/// Takes no element, and wants one.
#[derive(Drop)]
struct Wanting {
    open: bool,
}

impl Chain for Wanting {
    ghost whole = { λ _. record { gives = λ l. []; stop = λ l. if length l == 0 then Go else Failed LimitReached; adds = λ l. Err EmptySink } };

    ghost rest = { λ _. record { gives = λ l. []; stop = λ l. if length l == 0 then Go else Failed LimitReached; adds = λ l. Err EmptySink } };

    ghost is_open = { λ c. c.open };

    fn fresh(&self, _alloc: Global) -> Result<Wanting, NoMemory> {
        Ok(Wanting { open: true })
    }

    fn push(&mut self, _alloc: Global, _e: Elem, _out: &mut Elems) -> Result<ChainStep, NoMemory> {
        self.open = false;
        Ok(ChainStep::Failed(Why::LimitReached))
    }

    fn end(&mut self, _alloc: Global, _out: &mut Elems) -> Result<ChainStep, NoMemory> {
        self.open = false;
        Ok(ChainStep::Failed(Why::EmptySink))
    }
}

/// Gives a new chain an element, or none, and where it goes on the end. Answers how it stands and how much it gave.
fn run<C: Chain>(alloc: Global, chain: &C, given: bool) -> Result<(ChainStep, usize), NoMemory> {
    let mut out = Elems::new(alloc);
    let mut chain = chain.fresh(alloc)?;
    if given {
        match chain.push(alloc, Elem::of(Form::Num(5)), &mut out)? {
            ChainStep::Go => {}
            step => return Ok((step, out.len())),
        }
    }
    let step = chain.end(alloc, &mut out)?;
    Ok((step, out.len()))
}

#[test]
fn chains_run_through_their_bound(rt: HostRuntime) -> Result<(), Fail> {
    let first = First { open: true };
    let wanting = Wanting { open: true };
    assert!(rt; matches!(run(rt.alloc(), &first, false)?, (ChainStep::Go, 0)));
    assert!(rt; matches!(run(rt.alloc(), &first, true)?, (ChainStep::Closed, 1)));
    assert!(rt;
        matches!(
            run(rt.alloc(), &wanting, false)?,
            (ChainStep::Failed(Why::EmptySink), 0)
        )
    );
    assert!(rt;
        matches!(
            run(rt.alloc(), &wanting, true)?,
            (ChainStep::Failed(Why::LimitReached), 0)
        )
    );
    Ok(())
}

#[test]
fn logs_keep_their_moves(rt: HostRuntime) -> Result<(), Fail> {
    let mut log = PickLog::new(rt.alloc());
    log.reserve()?;
    log.note(3);
    log.reserve()?;
    log.note(1);
    log.reserve()?;
    log.note(2);
    assert_eq!(rt; log.into_moves().as_slice(), [3, 1, 2].as_slice());
    Ok(())
}
