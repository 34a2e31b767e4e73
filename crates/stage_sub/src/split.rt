ghost use Rattle.std.specs.Prelude.{IfOk, OnOk, List, None};
ghost use Rattle.elem_core.specs.Tree.{Tree};
ghost use Rattle.stream_model.specs.Outlook.{End};
ghost use Rattle.stream_model.specs.Machine.{Given};
ghost use Rattle.stream_model.specs.Substreams.{Sub, before, behind, end_all, opened};
ghost use Rattle.port_core.specs.ListFunction.{ListFunction, Same};
ghost use Rattle.step_work.specs.Means.{Means};
ghost use Rattle.stage_sub.specs.Splits.{MayCallLast};
ghost use Rattle.stage_sub.specs.Subs.{grown, Split, SubsBecome, SubsTake};

use crate::blame::Blame;
use crate::last::LastSubstream;
use crate::outputs::Outputs;
use elem_core::elem::Elem;
use elem_core::elems::Elems;
use elem_core::function::Pred;
use elem_core::why::NoMemory;
use port_core::chain::Chain;
use std::alloc::Global;

/// The last substream takes the element; where all have ended, a new one opens with it.
pub fn grow<C: Chain>(
    alloc: Global,
    chain: &C,
    last: &mut LastSubstream<C>,
    e: Elem,
    outs: &mut Outputs,
    scratch: &mut Elems,
) -> Result<Option<Blame>, NoMemory>
    requires may { MayCallLast C.rest C.is_open last.old }
    ensures becomes { IfOk result (λ b. (f : ListFunction) → Same (C.whole chain.now) f → (yields : List Tree → End → Given Tree) → Means yields f
        → (ss : List Sub) → Split C.rest C.is_open f yields last.old ss
        → SubsBecome C.rest C.is_open f yields ss (grown ss e) b outs.old outs.new last.new) }
    ensures may { OnOk result (MayCallLast C.rest C.is_open last.new) }
{
    match last.grow(alloc, chain, e, outs, scratch)? {
        Some(why) => Ok(Some(Blame::AtElement(why))),
        None => Ok(None),
    }
}

/// The last substream ends, and a new one opens with the element.
pub fn end_and_open<C: Chain>(
    alloc: Global,
    chain: &C,
    last: &mut LastSubstream<C>,
    e: Elem,
    outs: &mut Outputs,
    scratch: &mut Elems,
) -> Result<Option<Blame>, NoMemory>
    requires may { MayCallLast C.rest C.is_open last.old }
    ensures becomes { IfOk result (λ b. (f : ListFunction) → Same (C.whole chain.now) f → (yields : List Tree → End → Given Tree) → Means yields f
        → (ss : List Sub) → Split C.rest C.is_open f yields last.old ss
        → SubsBecome C.rest C.is_open f yields ss (opened e e ss) b outs.old outs.new last.new) }
    ensures may { OnOk result (MayCallLast C.rest C.is_open last.new) }
{
    if let Some(why) = last.end(alloc, outs, scratch)? {
        return Ok(Some(Blame::AtEnd(why)));
    }
    match last.grow(alloc, chain, e, outs, scratch)? {
        Some(why) => Ok(Some(Blame::AtElement(why))),
        None => Ok(None),
    }
}

/// The last substream takes the element, or a new one does, and it ends with it.
pub fn grow_and_end<C: Chain>(
    alloc: Global,
    chain: &C,
    last: &mut LastSubstream<C>,
    e: Elem,
    outs: &mut Outputs,
    scratch: &mut Elems,
) -> Result<Option<Blame>, NoMemory>
    requires may { MayCallLast C.rest C.is_open last.old }
    ensures becomes { IfOk result (λ b. (f : ListFunction) → Same (C.whole chain.now) f → (yields : List Tree → End → Given Tree) → Means yields f
        → (ss : List Sub) → Split C.rest C.is_open f yields last.old ss
        → SubsBecome C.rest C.is_open f yields ss (end_all (grown ss e)) b outs.old outs.new last.new) }
    ensures may { OnOk result (MayCallLast C.rest C.is_open last.new) }
{
    if let Some(why) = last.grow(alloc, chain, e, outs, scratch)? {
        return Ok(Some(Blame::AtElement(why)));
    }
    match last.end(alloc, outs, scratch)? {
        Some(why) => Ok(Some(Blame::AtEnd(why))),
        None => Ok(None),
    }
}

/// An element of a stage that splits before each element that passes the test.
pub fn take_before<C: Chain>(
    alloc: Global,
    test: &Pred,
    chain: &C,
    last: &mut LastSubstream<C>,
    e: Elem,
    outs: &mut Outputs,
    scratch: &mut Elems,
) -> Result<Option<Blame>, NoMemory>
    requires may { MayCallLast C.rest C.is_open last.old }
    ensures takes { IfOk result (λ b. (f : ListFunction) → Same (C.whole chain.now) f → (yields : List Tree → End → Given Tree) → Means yields f
        → (ss : List Sub) → Split C.rest C.is_open f yields last.old ss
        → SubsTake C.rest C.is_open f yields (before test.now) ss e b outs.old outs.new last.new) }
    ensures may { OnOk result (MayCallLast C.rest C.is_open last.new) }
{
    match test.test(&e) {
        Ok(true) => end_and_open(alloc, chain, last, e, outs, scratch),
        Ok(false) => grow(alloc, chain, last, e, outs, scratch),
        Err(why) => Ok(Some(Blame::AtElement(why))),
    }
}

/// An element of a stage that splits behind each element that passes the test.
pub fn take_behind<C: Chain>(
    alloc: Global,
    test: &Pred,
    chain: &C,
    last: &mut LastSubstream<C>,
    e: Elem,
    outs: &mut Outputs,
    scratch: &mut Elems,
) -> Result<Option<Blame>, NoMemory>
    requires may { MayCallLast C.rest C.is_open last.old }
    ensures takes { IfOk result (λ b. (f : ListFunction) → Same (C.whole chain.now) f → (yields : List Tree → End → Given Tree) → Means yields f
        → (ss : List Sub) → Split C.rest C.is_open f yields last.old ss
        → SubsTake C.rest C.is_open f yields (behind test.now) ss e b outs.old outs.new last.new) }
    ensures may { OnOk result (MayCallLast C.rest C.is_open last.new) }
{
    match test.test(&e) {
        Ok(true) => grow_and_end(alloc, chain, last, e, outs, scratch),
        Ok(false) => grow(alloc, chain, last, e, outs, scratch),
        Err(why) => Ok(Some(Blame::AtElement(why))),
    }
}

/// The input has ended: all substreams end.
pub fn end_last<C: Chain>(
    alloc: Global,
    last: &mut LastSubstream<C>,
    outs: &mut Outputs,
    scratch: &mut Elems,
) -> Result<Option<Blame>, NoMemory>
    requires may { MayCallLast C.rest C.is_open last.old }
    ensures becomes { IfOk result (λ b. (f : ListFunction) (yields : List Tree → End → Given Tree) → Means yields f → (ss : List Sub)
        → Split C.rest C.is_open f yields last.old ss
        → SubsBecome C.rest C.is_open f yields ss (end_all ss) b outs.old outs.new last.new) }
    ensures may { OnOk result (MayCallLast C.rest C.is_open last.new) }
{
    match last.end(alloc, outs, scratch)? {
        Some(why) => Ok(Some(Blame::AtEnd(why))),
        None => Ok(None),
    }
}
