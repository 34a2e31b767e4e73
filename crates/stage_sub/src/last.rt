ghost use Rattle.std.specs.Prelude.{◌≡◌, IfOk, OnOk, List, Option, None, Some, true, false};
ghost use Rattle.elem_core.specs.Tree.{Tree};
ghost use Rattle.port_core.specs.ListFunction.{ListFunction, Same};
ghost use Rattle.stage_sub.specs.Splits.{MayCallLast, LastTook, LastEnds, LastOpens, LastFeeds, LastGrows};

use crate::outputs::Outputs;
use crate::scratch::clear;
use elem_core::count::one_more_small;
use elem_core::elem::Elem;
use elem_core::elems::Elems;
use elem_core::why::{NoMemory, Why};
use port_core::chain::Chain;
use std::alloc::Global;
use std::marker::Model;
use step_work::slot::{begin_slot, end_chain, feed_slot};

/// The last substream of a stage that splits; all before it have ended.
#[derive(Drop)]
pub struct LastSubstream<C: Chain> {
    ended: u32,
    live: bool,
    slot: Option<C>,
}

impl<C: Chain> Model for LastSubstream<C> {
    ghost use Rattle.std.specs.Coded.{codes};
    ghost use Rattle.elem_core.specs.TreeCode.{tree_coded};
    ghost use Rattle.stage_sub.specs.Splits.{Last};

    ghost Value = { Last C };

    ghost coded = { Prim.hlevel (codes, tree_coded) };

    ghost view = { λ l. record { ended = l.ended; live = l.live; slot = l.slot } };
}

impl<C: Chain> LastSubstream<C> {
    /// None yet.
    pub fn new() -> LastSubstream<C>
        ensures { result ≡ record { ended = 0; live = false; slot = None } }
    {
        LastSubstream {
            ended: 0,
            live: false,
            slot: None,
        }
    }

    /// The substream of number `place`, which has not ended.
    pub fn of(slot: Option<C>, place: u32) -> LastSubstream<C>
        ensures { result ≡ record { ended = place; live = true; slot = slot } }
    {
        LastSubstream {
            ended: place,
            live: true,
            slot,
        }
    }

    /// It ends, where there is one.
    #[tactic(auto, using(crate::proofs::Lasts::stopped_ends))]
    pub fn end(
        &mut self,
        alloc: Global,
        outs: &mut Outputs,
        scratch: &mut Elems,
    ) -> Result<Option<Why>, NoMemory>
        requires may { MayCallLast C.rest C.is_open self.old }
        ensures ends { IfOk result (λ why. (f : ListFunction) (took : Option (List Tree)) → LastTook C.rest C.is_open f self.old took
            → LastEnds C.rest C.is_open f self.old took why outs.old outs.new self.new) }
        ensures may { OnOk result (MayCallLast C.rest C.is_open self.new) }
    {
        if !self.live {
            return Ok(None);
        }
        let ended = one_more_small(self.ended)?;
        let chain = match self.slot.take() {
            Some(chain) => chain,
            None => {
                self.ended = ended;
                self.live = false;
                return Ok(None);
            }
        };
        clear(scratch);
        if let Some(why) = end_chain(alloc, chain, scratch)? {
            return Ok(Some(why));
        }
        outs.put_all(self.ended, scratch)?;
        self.ended = ended;
        self.live = false;
        Ok(None)
    }

    /// A new one opens, with its first element.
    pub fn open(
        &mut self,
        alloc: Global,
        chain: &C,
        e: Elem,
        outs: &mut Outputs,
        scratch: &mut Elems,
    ) -> Result<Option<Why>, NoMemory>
        requires none { self.old.live ≡ false }
        requires may { MayCallLast C.rest C.is_open self.old }
        ensures opens { IfOk result (λ why. (f : ListFunction) → Same (C.whole chain.now) f
            → LastOpens C.rest C.is_open f self.old e why outs.old outs.new self.new) }
        ensures may { OnOk result (MayCallLast C.rest C.is_open self.new) }
    {
        clear(scratch);
        match begin_slot(alloc, chain, e, scratch)? {
            Ok(slot) => {
                self.slot = slot;
                self.live = true;
                outs.put_all(self.ended, scratch)?;
                Ok(None)
            }
            Err(why) => Ok(Some(why)),
        }
    }

    /// It takes one more element.
    pub fn feed(
        &mut self,
        alloc: Global,
        e: Elem,
        outs: &mut Outputs,
        scratch: &mut Elems,
    ) -> Result<Option<Why>, NoMemory>
        requires may { MayCallLast C.rest C.is_open self.old }
        ensures feeds { IfOk result (λ why. (f : ListFunction) (took : List Tree) → LastTook C.rest C.is_open f self.old (Some took)
            → LastFeeds C.rest C.is_open f self.old took e why outs.old outs.new self.new) }
        ensures may { OnOk result (MayCallLast C.rest C.is_open self.new) }
    {
        clear(scratch);
        if let Some(why) = feed_slot(alloc, &mut self.slot, e, scratch)? {
            return Ok(Some(why));
        }
        outs.put_all(self.ended, scratch)?;
        Ok(None)
    }

    /// It takes the element; where all have ended, a new one opens with it.
    pub fn grow(
        &mut self,
        alloc: Global,
        chain: &C,
        e: Elem,
        outs: &mut Outputs,
        scratch: &mut Elems,
    ) -> Result<Option<Why>, NoMemory>
        requires may { MayCallLast C.rest C.is_open self.old }
        ensures grows { IfOk result (λ why. (f : ListFunction) → Same (C.whole chain.now) f → (took : Option (List Tree))
            → LastTook C.rest C.is_open f self.old took → LastGrows C.rest C.is_open f self.old took e why outs.old outs.new self.new) }
        ensures may { OnOk result (MayCallLast C.rest C.is_open self.new) }
    {
        if self.live {
            self.feed(alloc, e, outs, scratch)
        } else {
            self.open(alloc, chain, e, outs, scratch)
        }
    }
}
