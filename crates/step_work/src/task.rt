ghost use Rattle.std.specs.Prelude.{◌≡◌, IfOk, IfSome, IfNone, true, false};
ghost use Rattle.stream_model.specs.Linear.{mapping, filtering, taking_while};
ghost use Rattle.step_work.specs.Tasks.{work_in, HasMore, Reacted, outcome_of, IsUnsaid, dropping_by};

use crate::copies::{copy_map, copy_pred};
use elem_core::elem::{Elem, Form};
use elem_core::elems::Elems;
use elem_core::function::{Expand, FnEnd, MapFn, Pred};
use elem_core::why::{NoMemory, Why};
use std::alloc::{AllocError, Global};

// Choice: docs/DECISIONS.md#state-is-the-kind
/// What a stage does with each element. Rule: Akka Streams 2.6 reference.
pub enum LinearWork {
    /// It maps it.
    Map(MapFn),
    /// It passes it on where it passes.
    Filter(Pred),
    /// It passes it on where it does not pass.
    FilterNot(Pred),
    /// It passes so many more on.
    Take(u64),
    /// It passes it on where it passes, and ends at the first that does not.
    TakeWhile(Pred),
    /// It leaves so many more out.
    Drop(u64),
    /// It leaves it out where it passes, up to the first that does not; from then on, which is marked, it passes each on.
    DropWhile(Pred, bool),
    /// It passes so many more on, and fails at the next.
    Limit(u64),
    /// It gives the items of its list.
    Expand(Expand),
}

// Dropped by a call, wherever it is dropped: else each of its variants is a path of each function that drops it.
impl Drop for LinearWork {
    fn drop(self) {
        match self {
            LinearWork::Map(_)
            | LinearWork::Filter(_)
            | LinearWork::FilterNot(_)
            | LinearWork::TakeWhile(_)
            | LinearWork::DropWhile(_, _) => {}
            LinearWork::Take(_)
            | LinearWork::Drop(_)
            | LinearWork::Limit(_)
            | LinearWork::Expand(_) => {}
        }
    }
}

// Choice: docs/DECISIONS.md#outcome-is-a-value
/// What came of an element.
#[derive(Drop)]
pub enum LinearReaction {
    /// This is given.
    Gives(Elem),
    /// These are given one by one.
    GivesAll(Elems),
    /// Nothing is given.
    Skips,
    /// This is given, and the stage ends.
    EndsWith(Elem),
    /// These are given one by one, and then the stage ends.
    EndsWithAll(Elems),
    /// The stage ends.
    Ends,
    /// The function has no value for it: the decider is asked.
    Blames(Why),
    /// The stage fails, whatever its decider.
    Fails(Why),
}

/// What comes of an element at once: it takes no memory, and holds no element.
#[derive(Clone, Copy)]
pub enum AtOnce {
    /// The element is given as it is.
    Passes,
    /// This number is given.
    Gives(i64),
    /// Nothing is given.
    Skips,
    /// The element is given as it is, and the stage ends.
    PassesLast,
    /// The function has no value for it: the decider is asked.
    Blames(Why),
}

impl AtOnce {
    // The same of this element.
    fn reaction(self, e: Elem) -> LinearReaction
        ensures { result ≡ outcome_of self e }
    {
        match self {
            AtOnce::Passes => LinearReaction::Gives(e),
            AtOnce::Gives(z) => LinearReaction::Gives(Elem::of(Form::Num(z))),
            AtOnce::Skips => LinearReaction::Skips,
            AtOnce::PassesLast => LinearReaction::EndsWith(e),
            AtOnce::Blames(why) => LinearReaction::Blames(why),
        }
    }
}

/// What came of the end of the input.
#[derive(Drop)]
pub enum LinearEnd {
    /// These are given one by one, and then the stage ends.
    Adds(Elems),
    /// The stage fails.
    Refuses(Why),
}

impl LinearWork {
    /// The same.
    pub fn copy(&self, alloc: Global) -> Result<LinearWork, NoMemory>
        ensures { IfOk result (λ w. w ≡ self.now) }
    {
        match self {
            LinearWork::Map(f) => Ok(LinearWork::Map(copy_map(alloc, f)?)),
            LinearWork::Filter(p) => Ok(LinearWork::Filter(copy_pred(alloc, p)?)),
            LinearWork::FilterNot(p) => Ok(LinearWork::FilterNot(copy_pred(alloc, p)?)),
            LinearWork::Take(n) => Ok(LinearWork::Take(*n)),
            LinearWork::TakeWhile(p) => Ok(LinearWork::TakeWhile(copy_pred(alloc, p)?)),
            LinearWork::Drop(n) => Ok(LinearWork::Drop(*n)),
            LinearWork::DropWhile(p, passes) => {
                Ok(LinearWork::DropWhile(copy_pred(alloc, p)?, *passes))
            }
            LinearWork::Limit(n) => Ok(LinearWork::Limit(*n)),
            LinearWork::Expand(x) => Ok(LinearWork::Expand(*x)),
        }
    }

    /// One more element, where what comes of it is known at once. `None` leaves the task as it is.
    // Inlined, so that what is said has no place in memory.
    // Choice: docs/DECISIONS.md#short-way
    #[inline(always)]
    pub fn at_once(&mut self, e: &Elem) -> Option<AtOnce>
        requires { HasMore (work_in self.old) }
        ensures said { IfSome result (λ s. Reacted (work_in self.old) e.now (work_in self.new) (outcome_of s e.now)) }
        ensures unsaid { IfNone result ((self.new ≡ self.old) × IsUnsaid self.old) }
    {
        match self {
            LinearWork::Map(f) => map_at_once(f, e),
            LinearWork::Filter(p) => Some(filter_at_once(p, e)),
            LinearWork::FilterNot(p) => Some(filter_not_at_once(p, e)),
            LinearWork::Take(n) => {
                *n -= 1;
                if *n == 0 {
                    return Some(AtOnce::PassesLast);
                }
                Some(AtOnce::Passes)
            }
            LinearWork::Drop(n) => {
                if *n == 0 {
                    return Some(AtOnce::Passes);
                }
                *n -= 1;
                Some(AtOnce::Skips)
            }
            LinearWork::Limit(n) => {
                if *n == 0 {
                    return None;
                }
                *n -= 1;
                Some(AtOnce::Passes)
            }
            LinearWork::TakeWhile(_) | LinearWork::DropWhile(_, _) | LinearWork::Expand(_) => None,
        }
    }

    /// One more element.
    #[inline(never)]
    pub fn react(&mut self, alloc: Global, e: Elem) -> Result<LinearReaction, NoMemory>
        requires { HasMore (work_in self.old) }
        ensures { IfOk result (Reacted (work_in self.old) e (work_in self.new)) }
    {
        if let Some(said) = self.at_once(&e) {
            return Ok(said.reaction(e));
        }
        match self {
            LinearWork::Map(f) => map(f, alloc, &e),
            LinearWork::TakeWhile(p) => Ok(take_while(p, e)),
            LinearWork::DropWhile(p, passes) => Ok(drop_while(p, passes, e)),
            LinearWork::Limit(_) => Ok(LinearReaction::Fails(Why::LimitReached)),
            LinearWork::Expand(x) => Ok(LinearReaction::GivesAll(x.apply(alloc, &e)?)),
            LinearWork::Filter(_)
            | LinearWork::FilterNot(_)
            | LinearWork::Take(_)
            | LinearWork::Drop(_) => unreachable!(),
        }
    }
}

#[inline(always)]
fn map_at_once(f: &MapFn, e: &Elem) -> Option<AtOnce>
    ensures { IfSome result (λ s. Reacted (mapping f.now) e.now (mapping f.now) (outcome_of s e.now)) }
{
    match f.number_at_once(e) {
        Some(z) => Some(AtOnce::Gives(z)),
        None => None,
    }
}

#[inline(always)]
fn filter_at_once(p: &Pred, e: &Elem) -> AtOnce
    ensures { Reacted (filtering p.now true) e.now (filtering p.now true) (outcome_of result e.now) }
{
    match p.test(e) {
        Ok(true) => AtOnce::Passes,
        Ok(false) => AtOnce::Skips,
        Err(why) => AtOnce::Blames(why),
    }
}

#[inline(always)]
fn filter_not_at_once(p: &Pred, e: &Elem) -> AtOnce
    ensures { Reacted (filtering p.now false) e.now (filtering p.now false) (outcome_of result e.now) }
{
    match p.test(e) {
        Ok(true) => AtOnce::Skips,
        Ok(false) => AtOnce::Passes,
        Err(why) => AtOnce::Blames(why),
    }
}

fn map(f: &MapFn, alloc: Global, e: &Elem) -> Result<LinearReaction, NoMemory>
    ensures { IfOk result (Reacted (mapping f.now) e.now (mapping f.now)) }
{
    match f.apply(alloc, e) {
        Ok(value) => Ok(LinearReaction::Gives(value)),
        Err(FnEnd::Why(why)) => Ok(LinearReaction::Blames(why)),
        Err(FnEnd::NoMemory) => Err(AllocError),
    }
}

fn take_while(p: &Pred, e: Elem) -> LinearReaction
    ensures { Reacted (taking_while p.now) e (taking_while p.now) result }
{
    match p.test(&e) {
        Ok(true) => LinearReaction::Gives(e),
        Ok(false) => LinearReaction::Ends,
        Err(why) => LinearReaction::Blames(why),
    }
}

// Choice: docs/DECISIONS.md#drop-while-keeps-its-test
fn drop_while(p: &Pred, passes: &mut bool, e: Elem) -> LinearReaction
    ensures { Reacted (dropping_by p.now passes.old) e (dropping_by p.now passes.new) result }
{
    if *passes {
        return LinearReaction::Gives(e);
    }
    match p.test(&e) {
        Ok(true) => LinearReaction::Skips,
        Ok(false) => {
            *passes = true;
            LinearReaction::Gives(e)
        }
        Err(why) => LinearReaction::Blames(why),
    }
}
