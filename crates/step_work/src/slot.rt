ghost use Rattle.std.specs.Prelude.{IfOk, OnOk, IsTrue, List};
ghost use Rattle.elem_core.specs.Tree.{Tree};
ghost use Rattle.port_core.specs.ListFunction.{ListFunction, Same};
ghost use Rattle.step_work.specs.Means.{Running};
ghost use Rattle.step_work.specs.Slots.{ChainEnded, MayCall, SlotHolds, Fed, Begun};

use elem_core::elem::Elem;
use elem_core::elems::Elems;
use elem_core::why::{NoMemory, Why};
use port_core::chain::{Chain, ChainStep};
use std::alloc::Global;

/// The end of a substream: its chain adds to `out`, or it answers why it fails.
pub fn end_chain<C: Chain>(
    alloc: Global,
    mut chain: C,
    out: &mut Elems,
) -> Result<Option<Why>, NoMemory>
    requires { IsTrue (C.is_open chain) }
    ensures { IfOk result (λ why. (f : ListFunction) (took : List Tree) → Running f took (C.rest chain) → ChainEnded f took why out.old out.new) }
{
    match chain.end(alloc, out)? {
        ChainStep::Go => Ok(None),
        ChainStep::Failed(why) => Ok(Some(why)),
        ChainStep::Closed => unreachable!(),
    }
}

/// One more element of a substream, whose chain is in `slot`; there is none where the chain has stopped.
pub fn feed_slot<C: Chain>(
    alloc: Global,
    slot: &mut Option<C>,
    e: Elem,
    out: &mut Elems,
) -> Result<Option<Why>, NoMemory>
    requires { MayCall C.rest C.is_open slot.old }
    ensures fed { IfOk result (λ why. (f : ListFunction) (took : List Tree) → SlotHolds C.rest C.is_open f slot.old took
        → Fed C.rest C.is_open f took e why out.old out.new slot.new) }
    ensures may { OnOk result (MayCall C.rest C.is_open slot.new) }
{
    let step = match slot {
        Some(chain) => chain.push(alloc, e, out)?,
        None => return Ok(None),
    };
    match step {
        ChainStep::Go => Ok(None),
        ChainStep::Closed => {
            *slot = None;
            Ok(None)
        }
        ChainStep::Failed(why) => {
            *slot = None;
            Ok(Some(why))
        }
    }
}

/// A new substream, and its first element.
pub fn begin_slot<C: Chain>(
    alloc: Global,
    chain: &C,
    e: Elem,
    out: &mut Elems,
) -> Result<Result<Option<C>, Why>, NoMemory>
    ensures begun { IfOk result (λ r. (f : ListFunction) → Same (C.whole chain.now) f → Begun C.rest C.is_open f e r out.old out.new) }
    ensures may { IfOk result (λ r. IfOk r (MayCall C.rest C.is_open)) }
{
    let mut fresh = chain.fresh(alloc)?;
    match fresh.push(alloc, e, out)? {
        ChainStep::Go => Ok(Ok(Some(fresh))),
        ChainStep::Closed => Ok(Ok(None)),
        ChainStep::Failed(why) => Ok(Err(why)),
    }
}
