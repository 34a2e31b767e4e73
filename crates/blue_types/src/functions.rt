// The types that functions want and give.
ghost use Rattle.std.specs.Prelude.{◌≡◌, IfOk};
ghost use Rattle.elem_core.specs.Sort.{num_type, text_type};
ghost use Rattle.blue_names.specs.FnTypes.{map_want, map_fixed, map_shape, map_gives, pred_want, expand_want, expand_fixed, expand_gives, fold_want, fold_fixed, fold_gives, reduce_want, reduce_fixed, reduce_gives};

use crate::sorts::{items_type, left_type, num_type, pair_of, right_type, seq_of, text_type};
use blue_names::want::Want;
use elem_core::elem_type::ElemType;
use elem_core::function::{Expand, FoldOp, MapFn, Pred, ReduceOp};
use elem_core::why::NoMemory;
use std::alloc::Global;

/// What a function wants; none where it takes every type.
pub fn map_want(alloc: Global, function: &MapFn) -> Result<Option<Want>, NoMemory>
    ensures { IfOk result (λ w. w ≡ map_want function.now) }
{
    match function {
        MapFn::Show | MapFn::Twin => Ok(None),
        MapFn::Num | MapFn::Len | MapFn::Field(_) | MapFn::Prefix(_) | MapFn::Suffix(_) => {
            Ok(Some(Want::Is(text_type())))
        }
        MapFn::First | MapFn::Second | MapFn::Swap => Ok(Some(Want::AnyPair)),
        MapFn::Size => Ok(Some(Want::AnySeq)),
        MapFn::Sum => Ok(Some(Want::Is(seq_of(alloc, num_type())?))),
        _ => Ok(Some(Want::Is(num_type()))),
    }
}

/// What a function gives whatever it takes.
pub fn map_fixed(function: &MapFn) -> Option<ElemType>
    ensures { result ≡ map_fixed function.now }
{
    match function {
        MapFn::Show | MapFn::Field(_) | MapFn::Prefix(_) | MapFn::Suffix(_) => Some(text_type()),
        MapFn::First | MapFn::Second | MapFn::Swap | MapFn::Twin => None,
        _ => Some(num_type()),
    }
}

/// What a function gives that keeps the parts of what it takes.
fn map_shape(alloc: Global, function: &MapFn, t: &ElemType) -> Result<ElemType, NoMemory>
    ensures { IfOk result (λ u. u ≡ map_shape function.now t.now) }
{
    match function {
        MapFn::First => left_type(alloc, t),
        MapFn::Second => right_type(alloc, t),
        MapFn::Swap => pair_of(alloc, right_type(alloc, t)?, left_type(alloc, t)?),
        _ => pair_of(alloc, t.copy(alloc)?, t.copy(alloc)?),
    }
}

/// What a function gives for a type that it takes.
pub fn map_gives(alloc: Global, function: &MapFn, t: &ElemType) -> Result<ElemType, NoMemory>
    ensures { IfOk result (λ u. u ≡ map_gives function.now t.now) }
{
    match map_fixed(function) {
        Some(fixed) => Ok(fixed),
        None => map_shape(alloc, function, t),
    }
}

/// What a predicate wants.
pub fn pred_want(predicate: &Pred) -> Want
    ensures { result ≡ pred_want predicate.now }
{
    match predicate {
        Pred::Blank
        | Pred::Has(_)
        | Pred::Starts(_)
        | Pred::Is(_)
        | Pred::Numeric
        | Pred::FieldIs(_, _) => { Want::Is(text_type()) }
        _ => Want::Is(num_type()),
    }
}

/// What an expansion wants; none where it takes every type.
pub fn expand_want(expand: Expand) -> Option<Want>
    ensures { result ≡ expand_want expand }
{
    match expand {
        Expand::Words => Some(Want::Is(text_type())),
        Expand::Flat => Some(Want::AnySeq),
        Expand::Twice => None,
    }
}

/// What an expansion gives whatever it takes.
pub fn expand_fixed(expand: Expand) -> Option<ElemType>
    ensures { result ≡ expand_fixed expand }
{
    match expand {
        Expand::Words => Some(text_type()),
        _ => None,
    }
}

/// What an expansion gives for a type that it takes.
pub fn expand_gives(alloc: Global, expand: Expand, t: &ElemType) -> Result<ElemType, NoMemory>
    ensures { IfOk result (λ u. u ≡ expand_gives expand t.now) }
{
    match expand {
        Expand::Words => Ok(text_type()),
        Expand::Flat => items_type(alloc, t),
        Expand::Twice => t.copy(alloc),
    }
}

/// What a fold wants; none where it takes every type.
pub fn fold_want(op: FoldOp) -> Option<Want>
    ensures { result ≡ fold_want op }
{
    match op {
        FoldOp::Sum | FoldOp::SumNonneg => Some(Want::Is(num_type())),
        _ => None,
    }
}

/// What a fold gives whatever it takes.
pub fn fold_fixed(op: FoldOp) -> Option<ElemType>
    ensures { result ≡ fold_fixed op }
{
    match op {
        FoldOp::Collect => None,
        _ => Some(num_type()),
    }
}

/// What a fold gives for a type that it takes.
pub fn fold_gives(alloc: Global, op: FoldOp, t: &ElemType) -> Result<ElemType, NoMemory>
    ensures { IfOk result (λ u. u ≡ fold_gives op t.now) }
{
    match op {
        FoldOp::Collect => seq_of(alloc, t.copy(alloc)?),
        _ => Ok(num_type()),
    }
}

/// What a reduction wants; none where it takes every type.
pub fn reduce_want(op: ReduceOp) -> Option<Want>
    ensures { result ≡ reduce_want op }
{
    match op {
        ReduceOp::Sum => Some(Want::Is(num_type())),
        _ => None,
    }
}

/// What a reduction gives whatever it takes.
pub fn reduce_fixed(op: ReduceOp) -> Option<ElemType>
    ensures { result ≡ reduce_fixed op }
{
    match op {
        ReduceOp::Sum => Some(num_type()),
        _ => None,
    }
}

/// What a reduction gives for a type that it takes.
pub fn reduce_gives(alloc: Global, op: ReduceOp, t: &ElemType) -> Result<ElemType, NoMemory>
    ensures { IfOk result (λ u. u ≡ reduce_gives op t.now) }
{
    match op {
        ReduceOp::Sum => Ok(num_type()),
        _ => t.copy(alloc),
    }
}
