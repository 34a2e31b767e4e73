ghost use Rattle.std.specs.Prelude.{◌≡◌, ◌<◌, ◌++◌, ◌∷◌, ⊤, [], IfOk, OnOk, List, Option, None, Some, false, length, slice_get, slice_set};
ghost use Rattle.elem_core.specs.Tree.{Tree};
ghost use Rattle.stream_model.specs.Outlook.{End};
ghost use Rattle.stream_model.specs.Machine.{Given};
ghost use Rattle.stream_model.specs.Substreams.{Sub, by_key, take_at, end_all};
ghost use Rattle.port_core.specs.ListFunction.{ListFunction, Same};
ghost use Rattle.step_work.specs.Means.{Means};
ghost use Rattle.step_work.specs.Slots.{MayCall};
ghost use Rattle.stage_sub.specs.Groups.{MayCallAll, EachHolds, Grouped, EndsOne, Within};
ghost use Rattle.stage_sub.specs.Places.{place_at};
ghost use Rattle.stage_sub.specs.Subs.{SubsReach, Arranges};

use crate::blame::Blame;
use crate::group::{feed_at, open_slot};
use crate::last::LastSubstream;
use crate::outputs::Outputs;
use crate::places::{Places, add_place, find_place};
use crate::scratch::clear;
use elem_core::count::numbered;
use elem_core::elem::Elem;
use elem_core::elems::Elems;
use elem_core::function::{FnEnd, MapFn};
use elem_core::why::{NoMemory, Why};
use port_core::chain::Chain;
use std::alloc::{AllocError, Global};

/// The substream at place i takes the element.
pub fn feed_group<C: Chain>(
    alloc: Global,
    slots: &mut Vec<Option<C>>,
    i: usize,
    e: Elem,
    outs: &mut Outputs,
    scratch: &mut Elems,
) -> Result<Option<Blame>, NoMemory>
    requires within { i < length slots.old.items }
    requires may { MayCallAll C.rest C.is_open slots.old.items }
    ensures feeds { IfOk result (λ b. (f : ListFunction) (yields : List Tree → End → Given Tree) → Means yields f → (ss : List Sub)
        → EachHolds C.rest C.is_open f slots.old.items ss
        → SubsReach yields (EachHolds C.rest C.is_open f slots.new.items) ss (take_at i e ss) b outs.old outs.new) }
    ensures count { OnOk result (length slots.new.items ≡ length slots.old.items) }
    ensures may { OnOk result (MayCallAll C.rest C.is_open slots.new.items) }
{
    let port = numbered(i)?;
    clear(scratch);
    if let Some(why) = feed_at(alloc, slots, i, e, scratch)? {
        return Ok(Some(Blame::AtElement(why)));
    }
    outs.put_all(port, scratch)?;
    Ok(None)
}

/// A new substream of this key opens with the element.
pub fn open_group<C: Chain>(
    alloc: Global,
    chain: &C,
    places: &mut Places,
    slots: &mut Vec<Option<C>>,
    key: Elem,
    e: Elem,
    outs: &mut Outputs,
    scratch: &mut Elems,
) -> Result<Option<Blame>, NoMemory>
    requires none { place_at places.old key ≡ None }
    requires within { Within (place_at places.old) slots.old.items }
    requires may { MayCallAll C.rest C.is_open slots.old.items }
    ensures opens { IfOk result (λ b. (f : ListFunction) → Same (C.whole chain.now) f → (yields : List Tree → End → Given Tree) → Means yields f
        → (ss : List Sub) → Grouped C.rest C.is_open f (place_at places.old) slots.old.items ss
        → SubsReach yields (Grouped C.rest C.is_open f (place_at places.new) slots.new.items) ss
        (ss ++ record { key = key; took = e ∷ []; ended = false } ∷ []) b outs.old outs.new) }
    ensures within { OnOk result (Within (place_at places.new) slots.new.items) }
    ensures may { OnOk result (MayCallAll C.rest C.is_open slots.new.items) }
{
    let i = slots.len();
    let port = numbered(i)?;
    clear(scratch);
    if let Some(why) = open_slot(alloc, chain, slots, e, scratch)? {
        return Ok(Some(Blame::AtElement(why)));
    }
    add_place(places, key, i)?;
    outs.put_all(port, scratch)?;
    Ok(None)
}

// Choice: docs/DECISIONS.md#elements-as-keys
/// One more element of a group_by of at most `most` keys.
pub fn take_group<C: Chain>(
    alloc: Global,
    most: u32,
    by: &MapFn,
    chain: &C,
    places: &mut Places,
    slots: &mut Vec<Option<C>>,
    e: Elem,
    outs: &mut Outputs,
    scratch: &mut Elems,
) -> Result<Option<Blame>, NoMemory>
    requires within { Within (place_at places.old) slots.old.items }
    requires may { MayCallAll C.rest C.is_open slots.old.items }
    ensures takes { IfOk result (λ b. (f : ListFunction) → Same (C.whole chain.now) f → (yields : List Tree → End → Given Tree) → Means yields f
        → (ss : List Sub) → Grouped C.rest C.is_open f (place_at places.old) slots.old.items ss
        → Arranges yields (Grouped C.rest C.is_open f (place_at places.new) slots.new.items) (by_key most by.now) ss e b outs.old outs.new) }
    ensures within { OnOk result (Within (place_at places.new) slots.new.items) }
    ensures may { OnOk result (MayCallAll C.rest C.is_open slots.new.items) }
{
    let key = match by.apply(alloc, &e) {
        Ok(key) => key,
        Err(FnEnd::Why(why)) => return Ok(Some(Blame::AtElement(why))),
        Err(FnEnd::NoMemory) => return Err(AllocError),
    };
    match find_place(places, &key) {
        Some(i) => feed_group(alloc, slots, i, e, outs, scratch),
        None => {
            if slots.len() < most as usize {
                open_group(alloc, chain, places, slots, key, e, outs, scratch)
            } else {
                Ok(Some(Blame::AtElement(Why::TooManySubstreams)))
            }
        }
    }
}

// Takes the chain out of the slot at place i.
#[tactic(auto, using(crate::proofs::Groups::may_set, crate::proofs::Groups::is_there))]
fn take_slot<C: Chain>(slots: &mut Vec<Option<C>>, i: usize) -> Option<C>
    requires within { i < length slots.old.items }
    requires may { MayCallAll C.rest C.is_open slots.old.items }
    ensures was { slice_get slots.old.items i ≡ Some result }
    ensures now { slots.new.items ≡ slice_set slots.old.items i None }
    ensures may { MayCallAll C.rest C.is_open slots.new.items }
    ensures call { MayCall C.rest C.is_open result }
{
    slots[i].take()
}

// The substream at place i ends.
fn end_one<C: Chain>(
    alloc: Global,
    slots: &mut Vec<Option<C>>,
    i: usize,
    outs: &mut Outputs,
    scratch: &mut Elems,
) -> Result<Option<Why>, NoMemory>
    requires within { i < length slots.old.items }
    requires may { MayCallAll C.rest C.is_open slots.old.items }
    ensures ends { IfOk result (λ why. EndsOne C.rest C.is_open slots.old.items i why outs.old outs.new) }
    ensures now { OnOk result (slots.new.items ≡ slice_set slots.old.items i None) }
    ensures count { OnOk result (length slots.new.items ≡ length slots.old.items) }
    ensures may { OnOk result (MayCallAll C.rest C.is_open slots.new.items) }
{
    let port = numbered(i)?;
    let mut sub = LastSubstream::of(take_slot(slots, i), port);
    let why = sub.end(alloc, outs, scratch)?;
    Ok(why)
}

/// The input has ended: all substreams end, in the order in which they opened.
pub fn end_groups<C: Chain>(
    alloc: Global,
    slots: &mut Vec<Option<C>>,
    outs: &mut Outputs,
    scratch: &mut Elems,
) -> Result<Option<Blame>, NoMemory>
    requires may { MayCallAll C.rest C.is_open slots.old.items }
    ensures ends { IfOk result (λ b. (f : ListFunction) (yields : List Tree → End → Given Tree) → Means yields f → (ss : List Sub)
        → EachHolds C.rest C.is_open f slots.old.items ss
        → SubsReach yields (λ now. ⊤) ss (end_all ss) b outs.old outs.new) }
    ensures may { OnOk result (MayCallAll C.rest C.is_open slots.new.items) }
    ensures count { OnOk result (length slots.new.items ≡ length slots.old.items) }
{
    let mut i: usize = 0;
    while i < slots.len() {
        match end_one(alloc, slots, i, outs, scratch)? {
            Some(why) => return Ok(Some(Blame::AtEnd(why))),
            None => {}
        }
        i += 1;
    }
    Ok(None)
}
