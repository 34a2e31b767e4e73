// Types of elements, made and taken apart.
ghost use Rattle.std.specs.Prelude.{◌≡◌, IfOk};
ghost use Rattle.elem_core.specs.Sort.{num_type, text_type, seq_type, pair_type};
ghost use Rattle.blue_names.specs.FnTypes.{suits, items_type, left_type, right_type};

use blue_names::want::Want;
use elem_core::elem_type::{ElemType, TypeForm};
use elem_core::why::NoMemory;
use std::alloc::Global;

/// The type of numbers.
pub fn num_type() -> ElemType
    ensures { result ≡ num_type }
{
    ElemType::of(TypeForm::Num)
}

/// The type of texts.
pub fn text_type() -> ElemType
    ensures { result ≡ text_type }
{
    ElemType::of(TypeForm::Text)
}

/// The type of lists of these.
pub fn seq_of(alloc: Global, items: ElemType) -> Result<ElemType, NoMemory>
    ensures { IfOk result (λ t. t ≡ seq_type items) }
{
    let items = Box::new(alloc, items)?;
    Ok(ElemType::of(TypeForm::SeqOf(items)))
}

/// The type of pairs of these.
pub fn pair_of(alloc: Global, left: ElemType, right: ElemType) -> Result<ElemType, NoMemory>
    ensures { IfOk result (λ t. t ≡ pair_type left right) }
{
    let left = Box::new(alloc, left)?;
    let right = Box::new(alloc, right)?;
    Ok(ElemType::of(TypeForm::PairOf(left, right)))
}

/// The items of a list; another type as it is.
pub fn items_type(alloc: Global, t: &ElemType) -> Result<ElemType, NoMemory>
    ensures { IfOk result (λ u. u ≡ items_type t.now) }
{
    match t.form() {
        TypeForm::SeqOf(items) => items.copy(alloc),
        _ => t.copy(alloc),
    }
}

/// The left half of a pair; another type as it is.
pub fn left_type(alloc: Global, t: &ElemType) -> Result<ElemType, NoMemory>
    ensures { IfOk result (λ u. u ≡ left_type t.now) }
{
    match t.form() {
        TypeForm::PairOf(left, _) => left.copy(alloc),
        _ => t.copy(alloc),
    }
}

/// The right half of a pair; another type as it is.
pub fn right_type(alloc: Global, t: &ElemType) -> Result<ElemType, NoMemory>
    ensures { IfOk result (λ u. u ≡ right_type t.now) }
{
    match t.form() {
        TypeForm::PairOf(_, right) => right.copy(alloc),
        _ => t.copy(alloc),
    }
}

/// Whether a type is one of those that are wanted.
pub fn suits(want: &Want, t: &ElemType) -> bool
    ensures { result ≡ suits want.now t.now }
{
    match want {
        Want::Is(wanted) => wanted == t,
        Want::AnySeq => is_seq(t),
        Want::AnyPair => is_pair(t),
    }
}

/// Whether it is a type of lists.
fn is_seq(t: &ElemType) -> bool
    ensures { result ≡ suits Want.AnySeq t.now }
{
    match t.form() {
        TypeForm::SeqOf(_) => true,
        _ => false,
    }
}

/// Whether it is a type of pairs.
fn is_pair(t: &ElemType) -> bool
    ensures { result ≡ suits Want.AnyPair t.now }
{
    match t.form() {
        TypeForm::PairOf(_, _) => true,
        _ => false,
    }
}
