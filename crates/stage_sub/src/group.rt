ghost use Rattle.std.specs.Prelude.{◌≡◌, ◌<◌, ◌+◌, ◌++◌, ◌∷◌, [], IfOk, OnOk, Ok, Err, List, Option, None, Some, length, slice_get, slice_set};
ghost use Rattle.elem_core.specs.Tree.{Tree};
ghost use Rattle.elem_core.specs.declared.why.Why.{Why};
ghost use Rattle.port_core.specs.ListFunction.{ListFunction, Same};
ghost use Rattle.step_work.specs.Slots.{SlotHolds, Fed, Begun};
ghost use Rattle.stage_sub.specs.Groups.{MayCallAll};

use elem_core::elem::Elem;
use elem_core::elems::Elems;
use elem_core::why::{NoMemory, Why};
use port_core::chain::Chain;
use std::alloc::Global;
use step_work::slot::{begin_slot, feed_slot};

/// One more element of the substream at place i.
#[tactic(auto, using(crate::proofs::Groups::may_at, crate::proofs::Groups::may_set))]
pub fn feed_at<C: Chain>(
    alloc: Global,
    slots: &mut Vec<Option<C>>,
    i: usize,
    e: Elem,
    out: &mut Elems,
) -> Result<Option<Why>, NoMemory>
    requires within { i < length slots.old.items }
    requires may { MayCallAll C.rest C.is_open slots.old.items }
    ensures fed { IfOk result (λ why. (d : Option C) × ((slots.new.items ≡ slice_set slots.old.items i d)
        × ((f : ListFunction) (took : List Tree) (c : Option C) → slice_get slots.old.items i ≡ Some c → SlotHolds C.rest C.is_open f c took
        → Fed C.rest C.is_open f took e why out.old out.new d))) }
    ensures may { OnOk result (MayCallAll C.rest C.is_open slots.new.items) }
{
    let why = feed_slot(alloc, &mut slots[i], e, out)?;
    Ok(why)
}

/// A new substream behind the others, with its first element.
#[tactic(auto, using(crate::proofs::Groups::may_push))]
pub fn open_slot<C: Chain>(
    alloc: Global,
    chain: &C,
    slots: &mut Vec<Option<C>>,
    e: Elem,
    out: &mut Elems,
) -> Result<Option<Why>, NoMemory>
    requires may { MayCallAll C.rest C.is_open slots.old.items }
    ensures begun { IfOk result (λ why. why ≡ None → (f : ListFunction) → Same (C.whole chain.now) f
        → (d : Option C) × ((slots.new.items ≡ slots.old.items ++ d ∷ []) × Begun C.rest C.is_open f e (Ok d) out.old out.new)) }
    ensures fails { IfOk result (λ why. (w : Why) → why ≡ Some w → (f : ListFunction) → Same (C.whole chain.now) f
        → Begun C.rest C.is_open f e (Err w) out.old out.new) }
    ensures stays { IfOk result (λ why. (w : Why) → why ≡ Some w → slots.new.items ≡ slots.old.items) }
    ensures grows { IfOk result (λ why. why ≡ None → length slots.new.items ≡ length slots.old.items + 1) }
    ensures may { OnOk result (MayCallAll C.rest C.is_open slots.new.items) }
{
    match begin_slot(alloc, chain, e, out)? {
        Ok(slot) => {
            slots.push(slot)?;
            Ok(None)
        }
        Err(why) => Ok(Some(why)),
    }
}
