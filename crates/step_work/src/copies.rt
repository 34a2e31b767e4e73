ghost use Rattle.std.specs.Prelude.{◌≡◌, IfOk};

use elem_core::function::{MapFn, Pred};
use elem_core::why::NoMemory;
use std::alloc::Global;

/// An equal function of one element.
pub fn copy_map(alloc: Global, f: &MapFn) -> Result<MapFn, NoMemory>
    ensures { IfOk result (λ g. g ≡ f.now) }
{
    match f {
        MapFn::Num => Ok(MapFn::Num),
        MapFn::Show => Ok(MapFn::Show),
        MapFn::Add(k) => Ok(MapFn::Add(*k)),
        MapFn::Mul(k) => Ok(MapFn::Mul(*k)),
        MapFn::Div(k) => Ok(MapFn::Div(*k)),
        MapFn::Rem(k) => Ok(MapFn::Rem(*k)),
        MapFn::DivInto(k) => Ok(MapFn::DivInto(*k)),
        MapFn::Neg => Ok(MapFn::Neg),
        MapFn::Abs => Ok(MapFn::Abs),
        MapFn::Nonneg => Ok(MapFn::Nonneg),
        MapFn::Len => Ok(MapFn::Len),
        MapFn::Field(k) => Ok(MapFn::Field(*k)),
        MapFn::Prefix(line) => Ok(MapFn::Prefix(line.copy(alloc)?)),
        MapFn::Suffix(line) => Ok(MapFn::Suffix(line.copy(alloc)?)),
        MapFn::First => Ok(MapFn::First),
        MapFn::Second => Ok(MapFn::Second),
        MapFn::Swap => Ok(MapFn::Swap),
        MapFn::Twin => Ok(MapFn::Twin),
        MapFn::Size => Ok(MapFn::Size),
        MapFn::Sum => Ok(MapFn::Sum),
    }
}

/// An equal test of an element.
pub fn copy_pred(alloc: Global, p: &Pred) -> Result<Pred, NoMemory>
    ensures { IfOk result (λ q. q ≡ p.now) }
{
    match p {
        Pred::Even => Ok(Pred::Even),
        Pred::Odd => Ok(Pred::Odd),
        Pred::Lt(k) => Ok(Pred::Lt(*k)),
        Pred::Le(k) => Ok(Pred::Le(*k)),
        Pred::Gt(k) => Ok(Pred::Gt(*k)),
        Pred::Ge(k) => Ok(Pred::Ge(*k)),
        Pred::Eq(k) => Ok(Pred::Eq(*k)),
        Pred::Multiple(k) => Ok(Pred::Multiple(*k)),
        Pred::Blank => Ok(Pred::Blank),
        Pred::Has(line) => Ok(Pred::Has(line.copy(alloc)?)),
        Pred::Starts(line) => Ok(Pred::Starts(line.copy(alloc)?)),
        Pred::Is(line) => Ok(Pred::Is(line.copy(alloc)?)),
        Pred::Numeric => Ok(Pred::Numeric),
        Pred::FieldIs(k, line) => Ok(Pred::FieldIs(*k, line.copy(alloc)?)),
    }
}
