// Equal kinds, since a module may be used in many places.
ghost use Rattle.std.specs.Prelude.{◌≡◌, IfOk};
ghost use Rattle.blue_modules.specs.Deciders.{takes_decider};

use elem_core::why::NoMemory;
use std::alloc::Global;
use step_work::copies::{copy_map, copy_pred};
use stream_model::kind::Kind;

/// An equal kind.
pub fn copy_kind(alloc: Global, kind: &Kind) -> Result<Kind, NoMemory>
    ensures { IfOk result (λ k. k ≡ kind.now) }
{
    match kind {
        Kind::Lines(file) => Ok(Kind::Lines(file.copy(alloc)?)),
        Kind::Range(first, last) => Ok(Kind::Range(*first, *last)),
        Kind::Empty(base) => Ok(Kind::Empty(*base)),
        Kind::Failed(base) => Ok(Kind::Failed(*base)),
        Kind::Map(f) => Ok(Kind::Map(copy_map(alloc, f)?)),
        Kind::Filter(p) => Ok(Kind::Filter(copy_pred(alloc, p)?)),
        Kind::FilterNot(p) => Ok(Kind::FilterNot(copy_pred(alloc, p)?)),
        Kind::TakeWhile(p) => Ok(Kind::TakeWhile(copy_pred(alloc, p)?)),
        Kind::DropWhile(p) => Ok(Kind::DropWhile(copy_pred(alloc, p)?)),
        Kind::Take(n) => Ok(Kind::Take(*n)),
        Kind::Drop(n) => Ok(Kind::Drop(*n)),
        Kind::Limit(n) => Ok(Kind::Limit(*n)),
        Kind::Grouped(n) => Ok(Kind::Grouped(*n)),
        Kind::MapConcat(e) => Ok(Kind::MapConcat(*e)),
        Kind::Fold(op) => Ok(Kind::Fold(*op)),
        Kind::Scan(op) => Ok(Kind::Scan(*op)),
        Kind::Reduce(op) => Ok(Kind::Reduce(*op)),
        Kind::Buffer(n, policy) => Ok(Kind::Buffer(*n, *policy)),
        Kind::RecoverNum(k) => Ok(Kind::RecoverNum(*k)),
        Kind::RecoverText(text) => Ok(Kind::RecoverText(text.copy(alloc)?)),
        Kind::Valve(switch) => Ok(Kind::Valve(switch.copy(alloc)?)),
        Kind::TripShutdown(switch, n) => Ok(Kind::TripShutdown(switch.copy(alloc)?, *n)),
        Kind::TripAbort(switch, n) => Ok(Kind::TripAbort(switch.copy(alloc)?, *n)),
        Kind::Plug(plug) => Ok(Kind::Plug(plug.copy(alloc)?)),
        Kind::Custom(custom) => Ok(Kind::Custom(custom.copy(alloc)?)),
        Kind::GroupBy(n, f, chain) => {
            Ok(Kind::GroupBy(*n, copy_map(alloc, f)?, chain.copy(alloc)?))
        }
        Kind::SplitWhen(p, chain, joining) => {
            Ok(Kind::SplitWhen(copy_pred(alloc, p)?, chain.copy(alloc)?, *joining))
        }
        Kind::SplitAfter(p, chain, joining) => {
            Ok(Kind::SplitAfter(copy_pred(alloc, p)?, chain.copy(alloc)?, *joining))
        }
        Kind::Merge(n) => Ok(Kind::Merge(*n)),
        Kind::MergeHub(size, n) => Ok(Kind::MergeHub(*size, *n)),
        Kind::Concat(n) => Ok(Kind::Concat(*n)),
        Kind::Interleave(n, segment) => Ok(Kind::Interleave(*n, *segment)),
        Kind::MergeSorted => Ok(Kind::MergeSorted),
        Kind::Zip => Ok(Kind::Zip),
        Kind::Broadcast(n) => Ok(Kind::Broadcast(*n)),
        Kind::BroadcastHub(size, n) => Ok(Kind::BroadcastHub(*size, *n)),
        Kind::Balance(n) => Ok(Kind::Balance(*n)),
        Kind::Partition(n, f) => Ok(Kind::Partition(*n, copy_map(alloc, f)?)),
        Kind::Unzip => Ok(Kind::Unzip),
        Kind::ToLines(file) => Ok(Kind::ToLines(file.copy(alloc)?)),
        Kind::Head(file) => Ok(Kind::Head(file.copy(alloc)?)),
        Kind::Last(file) => Ok(Kind::Last(file.copy(alloc)?)),
        Kind::Ignore => Ok(Kind::Ignore),
    }
}

/// Whether a kind may have a decider.
pub fn takes_decider(kind: &Kind) -> bool
    ensures { result ≡ takes_decider kind.now }
{
    matches!(
        kind,
        Kind::Map(_)
            | Kind::Filter(_)
            | Kind::FilterNot(_)
            | Kind::TakeWhile(_)
            | Kind::DropWhile(_)
            | Kind::MapConcat(_)
            | Kind::Fold(_)
            | Kind::Scan(_)
            | Kind::Reduce(_)
    )
}
