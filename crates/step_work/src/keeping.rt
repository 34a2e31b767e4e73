ghost use Rattle.std.specs.Prelude.{◌≡◌, IfOk, IfSome, IfNone, [], Ok, Some, None};
ghost use Rattle.elem_core.specs.Tree.{num};
ghost use Rattle.elem_core.specs.Values.{fold_step, reduce_step};
ghost use Rattle.elem_core.specs.declared.why.Decider.{Decider};
ghost use Rattle.stream_model.specs.Linear.{grouping, folding, scanning, reducing};
ghost use Rattle.step_work.specs.Keeping.{work_in, kept_outcome, last_group, Reacted, Finishes, NextBy, NextReducedBy};

use elem_core::elem::{Elem, Form};
use elem_core::function::{FnEnd, FoldOp, ReduceOp};
use elem_core::why::{Decider, NoMemory, Why};
use std::alloc::{AllocError, Global};
use std::mem;

// Choice: docs/DECISIONS.md#zero-is-made-with-the-logic
/// What a stage keeps between elements, and what it does with each. Rule: Akka Streams 2.6 reference.
pub enum StateWork {
    /// Groups of so many, and the group that is not full.
    Group(u32, Vec<Elem>),
    /// A fold, and its value.
    Fold(FoldOp, Elem),
    /// A reduction, and its value where there was an element.
    Reduce(ReduceOp, Option<Elem>),
    /// A scan, and its value.
    Scan(FoldOp, Elem),
}

// Dropped by a call, wherever it is dropped: else each of its variants is a path of each function that drops it.
impl Drop for StateWork {
    fn drop(self) {
        match self {
            StateWork::Group(_, _) => {}
            StateWork::Fold(_, _) | StateWork::Scan(_, _) => {}
            StateWork::Reduce(_, _) => {}
        }
    }
}

/// What came of an element.
#[derive(Drop)]
pub enum StateReaction {
    /// This is given.
    Gives(Elem),
    /// Nothing is given: the stage asks again.
    Asks,
    /// The stage fails.
    Fails(Why),
}

// What comes of an element at once: it takes no memory, and holds no element.
#[derive(Clone, Copy)]
enum KeptAtOnce {
    /// This number is given.
    Gives(i64),
    /// Nothing is given: the stage asks again.
    Asks,
}

impl KeptAtOnce {
    // The same, as what came of an element.
    #[inline(always)]
    fn reaction(self) -> StateReaction
        ensures { result ≡ kept_outcome self }
    {
        match self {
            KeptAtOnce::Gives(z) => StateReaction::Gives(Elem::of(Form::Num(z))),
            KeptAtOnce::Asks => StateReaction::Asks,
        }
    }
}

impl StateWork {
    // One more element, where the next value is a number: what comes of it is known at once, whatever the decider. `None` leaves
    // the work as it is.
    // Choice: docs/DECISIONS.md#short-way
    #[inline(always)]
    fn at_once(&mut self, e: &Elem) -> Option<KeptAtOnce>
        ensures said { IfSome result (λ s. (d : Decider) → Reacted d (work_in self.old) e.now (work_in self.new) (kept_outcome s)) }
        ensures unsaid { IfNone result (self.new ≡ self.old) }
    {
        match self {
            StateWork::Fold(op, acc) => fold_at_once(op, acc, e),
            StateWork::Scan(op, acc) => scan_at_once(op, acc, e),
            StateWork::Reduce(op, acc) => reduce_at_once(op, acc, e),
            StateWork::Group(_, _) => None,
        }
    }

    /// One more element, for a stage with this decider.
    #[inline(always)]
    pub fn react(
        &mut self,
        alloc: Global,
        decider: Decider,
        e: Elem,
    ) -> Result<StateReaction, NoMemory>
        ensures { IfOk result (Reacted decider (work_in self.old) e (work_in self.new)) }
    {
        match self.at_once(&e) {
            Some(said) => {
                e.discard();
                Ok(said.reaction())
            }
            None => self.react_by_step(alloc, decider, e),
        }
    }

    // The same where it is not known at once, out of line, since most elements are numbers.
    #[inline(never)]
    fn react_by_step(
        &mut self,
        alloc: Global,
        decider: Decider,
        e: Elem,
    ) -> Result<StateReaction, NoMemory>
        ensures { IfOk result (Reacted decider (work_in self.old) e (work_in self.new)) }
    {
        match self {
            StateWork::Group(n, held) => group(*n, held, alloc, decider, e),
            StateWork::Fold(op, acc) => fold(op, acc, alloc, decider, &e),
            StateWork::Reduce(op, acc) => reduce(op, acc, alloc, decider, e),
            StateWork::Scan(op, acc) => scan(op, acc, alloc, decider, &e),
        }
    }

    /// The input has ended: what is given then, or why the stage fails. It takes no memory.
    pub fn finish(&mut self, alloc: Global) -> Result<Option<Elem>, Why>
        ensures { Finishes (work_in self.old) (work_in self.new) result }
    {
        match self {
            StateWork::Group(_, held) => Ok(rest_of(held, alloc)),
            StateWork::Fold(_, acc) => Ok(Some(mem::replace(acc, placeholder()))),
            StateWork::Reduce(_, acc) => acc
                .take()
                .map_or(Err(Why::EmptyReduce), |value| Ok(Some(value))),
            StateWork::Scan(_, _) => Ok(None),
        }
    }
}

// An element without memory, where one was moved out.
fn placeholder() -> Elem {
    Elem::of(Form::Num(0))
}

#[inline(always)]
fn fold_at_once(op: &FoldOp, acc: &mut Elem, e: &Elem) -> Option<KeptAtOnce>
    ensures said { IfSome result (λ s. (d : Decider) → Reacted d (folding op.now acc.old) e.now (folding op.now acc.new) (kept_outcome s)) }
    ensures unsaid { IfNone result (acc.new ≡ acc.old) }
{
    let z = folded(op, acc, e)?;
    set(acc, z);
    Some(KeptAtOnce::Asks)
}

#[inline(always)]
fn scan_at_once(op: &FoldOp, acc: &mut Elem, e: &Elem) -> Option<KeptAtOnce>
    ensures said { IfSome result (λ s. (d : Decider) → Reacted d (scanning op.now acc.old) e.now (scanning op.now acc.new) (kept_outcome s)) }
    ensures unsaid { IfNone result (acc.new ≡ acc.old) }
{
    let z = folded(op, acc, e)?;
    set(acc, z);
    Some(KeptAtOnce::Gives(z))
}

#[inline(always)]
fn reduce_at_once(op: &ReduceOp, acc: &mut Option<Elem>, e: &Elem) -> Option<KeptAtOnce>
    ensures said { IfSome result (λ s. (d : Decider) → Reacted d (reducing op.now acc.old) e.now (reducing op.now acc.new) (kept_outcome s)) }
    ensures unsaid { IfNone result (acc.new ≡ acc.old) }
{
    let Some(value) = acc else {
        return None;
    };
    let z = reduced(op, value, e)?;
    set(value, z);
    Some(KeptAtOnce::Asks)
}

// The next value of a fold, where it is a number.
#[inline(always)]
fn folded(op: &FoldOp, acc: &Elem, e: &Elem) -> Option<i64>
    ensures { IfSome result (λ z. fold_step op.now acc.now e.now ≡ Ok (num z)) }
{
    let Form::Num(a) = acc.form() else {
        return None;
    };
    if let FoldOp::Count = op {
        return a.checked_add(1);
    }
    let Form::Num(x) = e.form() else {
        return None;
    };
    match op {
        FoldOp::Sum => a.checked_add(*x),
        FoldOp::SumNonneg if *x >= 0 => a.checked_add(*x),
        _ => None,
    }
}

// The next value of a reduction, where it is a number.
#[inline(always)]
fn reduced(op: &ReduceOp, acc: &Elem, e: &Elem) -> Option<i64>
    ensures { IfSome result (λ z. reduce_step op.now acc.now e.now ≡ Ok (num z)) }
{
    let (Form::Num(a), Form::Num(x)) = (acc.form(), e.form()) else {
        return None;
    };
    match op {
        ReduceOp::Sum => a.checked_add(*x),
        ReduceOp::Max => Some(if *x > *a { *x } else { *a }),
        ReduceOp::Min => Some(if *x < *a { *x } else { *a }),
    }
}

// A value becomes this number.
#[inline(always)]
fn set(value: &mut Elem, z: i64)
    ensures { value.new ≡ num z }
{
    mem::replace(value, Elem::of(Form::Num(z))).discard();
}

fn group(
    n: u32,
    held: &mut Vec<Elem>,
    alloc: Global,
    decider: Decider,
    e: Elem,
) -> Result<StateReaction, NoMemory>
    ensures { IfOk result (Reacted decider (grouping n held.old.items) e (grouping n held.new.items)) }
{
    held.push(e)?;
    if held.len() < n as usize {
        return Ok(StateReaction::Asks);
    }
    let full = mem::replace(held, Vec::new(alloc));
    Ok(StateReaction::Gives(Elem::of(Form::Seq(full))))
}

// The last group, where it is not empty.
fn rest_of(held: &mut Vec<Elem>, alloc: Global) -> Option<Elem>
    ensures gives { result ≡ last_group held.old.items }
    ensures none { held.new.items ≡ [] }
{
    if held.is_empty() {
        return None;
    }
    Some(Elem::of(Form::Seq(mem::replace(held, Vec::new(alloc)))))
}

fn fold(
    op: &FoldOp,
    acc: &mut Elem,
    alloc: Global,
    decider: Decider,
    e: &Elem,
) -> Result<StateReaction, NoMemory>
    ensures { IfOk result (Reacted decider (folding op.now acc.old) e.now (folding op.now acc.new)) }
{
    match (next(op, acc, alloc, decider, e)?, decider) {
        (Some(why), Decider::Stop) => Ok(StateReaction::Fails(why)),
        _ => Ok(StateReaction::Asks),
    }
}

fn scan(
    op: &FoldOp,
    acc: &mut Elem,
    alloc: Global,
    decider: Decider,
    e: &Elem,
) -> Result<StateReaction, NoMemory>
    ensures { IfOk result (Reacted decider (scanning op.now acc.old) e.now (scanning op.now acc.new)) }
{
    match (next(op, acc, alloc, decider, e)?, decider) {
        (Some(why), Decider::Stop) => Ok(StateReaction::Fails(why)),
        (Some(_), Decider::Resume) => Ok(StateReaction::Asks),
        _ => Ok(StateReaction::Gives(acc.copy(alloc)?)),
    }
}

// The next value of a fold; or why there is none, and then the value that the decider goes on from.
// Choice: docs/DECISIONS.md#failed-steps-drop
fn next(
    op: &FoldOp,
    acc: &mut Elem,
    alloc: Global,
    decider: Decider,
    e: &Elem,
) -> Result<Option<Why>, NoMemory>
    ensures { IfOk result (NextBy decider op.now acc.old e.now acc.new) }
{
    let kept = match decider {
        Decider::Resume => Some(acc.copy(alloc)?),
        Decider::Stop | Decider::Restart => None,
    };
    match op.step(alloc, mem::replace(acc, placeholder()), e) {
        Ok(value) => {
            *acc = value;
            Ok(None)
        }
        Err(FnEnd::Why(why)) => {
            *acc = match kept {
                Some(value) => value,
                None => op.zero(alloc)?,
            };
            Ok(Some(why))
        }
        Err(FnEnd::NoMemory) => Err(AllocError),
    }
}

fn reduce(
    op: &ReduceOp,
    acc: &mut Option<Elem>,
    alloc: Global,
    decider: Decider,
    e: Elem,
) -> Result<StateReaction, NoMemory>
    ensures { IfOk result (Reacted decider (reducing op.now acc.old) e (reducing op.now acc.new)) }
{
    match acc.take() {
        None => {
            *acc = Some(e);
            Ok(StateReaction::Asks)
        }
        Some(value) => match (next_reduced(op, value, acc, alloc, decider, &e)?, decider) {
            (Some(why), Decider::Stop) => Ok(StateReaction::Fails(why)),
            _ => Ok(StateReaction::Asks),
        },
    }
}

// The next value of a reduction; or why there is none, and then the value that the decider goes on from, if any.
fn next_reduced(
    op: &ReduceOp,
    value: Elem,
    acc: &mut Option<Elem>,
    alloc: Global,
    decider: Decider,
    e: &Elem,
) -> Result<Option<Why>, NoMemory>
    ensures { IfOk result (NextReducedBy decider op.now value e.now acc.new) }
{
    let kept = match decider {
        Decider::Resume => Some(value.copy(alloc)?),
        Decider::Stop | Decider::Restart => None,
    };
    match op.step(alloc, value, e) {
        Ok(next) => {
            *acc = Some(next);
            Ok(None)
        }
        Err(FnEnd::Why(why)) => {
            *acc = kept;
            Ok(Some(why))
        }
        Err(FnEnd::NoMemory) => Err(AllocError),
    }
}
