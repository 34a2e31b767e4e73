ghost use Rattle.std.specs.Prelude.{◌≡◌, ⊤, [], IfOk, OnOk, List, None, false};
ghost use Rattle.elem_core.specs.Tree.{Tree};
ghost use Rattle.stream_model.specs.Outlook.{End};
ghost use Rattle.stream_model.specs.Machine.{Given};
ghost use Rattle.stream_model.specs.Substreams.{Sub, end_all};
ghost use Rattle.port_core.specs.ListFunction.{ListFunction, Same};
ghost use Rattle.step_work.specs.Means.{Means};
ghost use Rattle.stage_sub.specs.Subs.{SubsReach};
ghost use Rattle.stage_sub.specs.KeptSubs.{MayCallKept, Keeps, TakesBy};

use crate::blame::Blame;
use crate::keyed::{end_groups, take_group};
use crate::last::LastSubstream;
use crate::opening::OpenBy;
use crate::outputs::Outputs;
use crate::places::Places;
use crate::split::{end_last, take_before, take_behind};
use elem_core::elem::Elem;
use elem_core::elems::Elems;
use elem_core::why::NoMemory;
use port_core::chain::Chain;
use std::alloc::Global;
use std::collections::BTreeMap;
use std::marker::Model;

// Choice: docs/DECISIONS.md#no-history
/// The substreams of a stage that splits or groups.
#[derive(Drop)]
pub struct KeptSubs<C: Chain> {
    last: LastSubstream<C>,
    places: Places,
    slots: Vec<Option<C>>,
    scratch: Elems,
}

impl<C: Chain> Model for KeptSubs<C> {
    ghost use Rattle.std.specs.Coded.{codes};
    ghost use Rattle.elem_core.specs.TreeCode.{tree_coded};
    ghost use Rattle.stage_sub.specs.KeptSubs.{KeptSubs};

    ghost Value = { KeptSubs C };

    ghost coded = { Prim.hlevel (codes, tree_coded) };

    ghost view = { λ r. record { last = r.last; places = r.places.entries; slots = r.slots.items } };
}

impl<C: Chain> KeptSubs<C> {
    /// No substream yet. It takes no memory.
    pub fn new(alloc: Global) -> KeptSubs<C>
        ensures { result ≡ record { last = record { ended = 0; live = false; slot = None }; places = []; slots = [] } }
    {
        KeptSubs {
            last: LastSubstream::new(),
            places: BTreeMap::new(alloc),
            slots: Vec::new(alloc),
            scratch: Elems::new(alloc),
        }
    }

    /// One more element of the stage.
    pub fn take(
        &mut self,
        alloc: Global,
        how: &OpenBy,
        chain: &C,
        e: Elem,
        outs: &mut Outputs,
    ) -> Result<Option<Blame>, NoMemory>
        requires may { MayCallKept C.rest C.is_open self.old }
        ensures takes { IfOk result (λ b. (f : ListFunction) → Same (C.whole chain.now) f → (yields : List Tree → End → Given Tree) → Means yields f
            → (ss : List Sub) → Keeps C.rest C.is_open f yields how.now self.old ss
            → TakesBy C.rest C.is_open f yields how.now ss e b outs.old outs.new self.new) }
        ensures may { OnOk result (MayCallKept C.rest C.is_open self.new) }
    {
        match how {
            OpenBy::Before(test) => {
                take_before(
                    alloc,
                    test,
                    chain,
                    &mut self.last,
                    e,
                    outs,
                    &mut self.scratch,
                )
            }
            OpenBy::Behind(test) => {
                take_behind(
                    alloc,
                    test,
                    chain,
                    &mut self.last,
                    e,
                    outs,
                    &mut self.scratch,
                )
            }
            OpenBy::Key(most, by) => {
                take_group(
                    alloc,
                    *most,
                    by,
                    chain,
                    &mut self.places,
                    &mut self.slots,
                    e,
                    outs,
                    &mut self.scratch,
                )
            }
        }
    }

    /// The input has ended: all substreams end.
    pub fn end(
        &mut self,
        alloc: Global,
        how: &OpenBy,
        outs: &mut Outputs,
    ) -> Result<Option<Blame>, NoMemory>
        requires may { MayCallKept C.rest C.is_open self.old }
        ensures ends { IfOk result (λ b. (f : ListFunction) (yields : List Tree → End → Given Tree) → Means yields f → (ss : List Sub)
            → Keeps C.rest C.is_open f yields how.now self.old ss
            → SubsReach yields (λ k. ⊤) ss (end_all ss) b outs.old outs.new) }
        ensures may { OnOk result (MayCallKept C.rest C.is_open self.new) }
    {
        match how {
            OpenBy::Before(_) => end_last(alloc, &mut self.last, outs, &mut self.scratch),
            OpenBy::Behind(_) => end_last(alloc, &mut self.last, outs, &mut self.scratch),
            OpenBy::Key(_, _) => end_groups(alloc, &mut self.slots, outs, &mut self.scratch),
        }
    }
}
