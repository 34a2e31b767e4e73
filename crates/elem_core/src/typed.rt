// Whether an element is of a type.
ghost use Rattle.std.specs.Prelude.{◌≡◌};
ghost use Rattle.elem_core.specs.Tree.{row};
ghost use Rattle.elem_core.specs.Typed.{is_of, all_of};

use crate::elem::{Elem, Form};
use crate::elem_type::{ElemType, TypeForm};

/// Whether the element is of that type.
#[cycle(is_of)]
pub fn is_of_type(e: &Elem, t: &ElemType) -> bool
    ensures { result ≡ is_of t.now e.now }
{
    match (t.form(), e.form()) {
        (TypeForm::Num, Form::Num(_)) => true,
        (TypeForm::Text, Form::Text(_)) => true,
        (TypeForm::SeqOf(t), Form::Seq(items)) => are_of_type(items, t),
        (TypeForm::PairOf(t, u), Form::Both(pair)) => {
            is_of_type(&pair.left, t) && is_of_type(&pair.right, u)
        }
        _ => false,
    }
}

#[cycle(is_of)]
fn are_of_type(items: &Vec<Elem>, t: &ElemType) -> bool
    ensures { result ≡ all_of t.now (row items.now.items) }
{
    for e in items {
        if !is_of_type(e, t) {
            return false;
        }
    }
    true
}
