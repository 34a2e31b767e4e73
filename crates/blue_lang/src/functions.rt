// The words of functions, predicates, expansions and folds.
ghost use Rattle.std.specs.Prelude.{◌≡◌, ◌++◌, ◌∷◌, [], OnOk};
ghost use Rattle.blue_lang.specs.Spaced.{spaced};
ghost use Rattle.blue_lang.specs.Functions.{map_words, pred_words, expand_word, fold_word, reduce_word};

use crate::words::{write_two, write_word, write_word_count, write_word_int};
use elem_core::function::{Expand, FoldOp, MapFn, Pred, ReduceOp};
use elem_core::why::NoMemory;

// The words of a function of one element.
pub(crate) fn write_map(out: &mut Vec<u8>, function: &MapFn) -> Result<(), NoMemory>
    ensures { OnOk result (out.new.items ≡ out.old.items ++ spaced (map_words function.now)) }
{
    match function {
        MapFn::Num => write_word(out, b"num"),
        MapFn::Show => write_word(out, b"show"),
        MapFn::Add(k) => write_word_int(out, b"add", *k),
        MapFn::Mul(k) => write_word_int(out, b"mul", *k),
        MapFn::Div(k) => write_word_int(out, b"div", *k),
        MapFn::Rem(k) => write_word_int(out, b"rem", *k),
        MapFn::DivInto(k) => write_word_int(out, b"div_into", *k),
        MapFn::Neg => write_word(out, b"neg"),
        MapFn::Abs => write_word(out, b"abs"),
        MapFn::Nonneg => write_word(out, b"nonneg"),
        MapFn::Len => write_word(out, b"len"),
        MapFn::Field(n) => write_word_count(out, b"field", *n),
        MapFn::Prefix(w) => write_two(out, b"prefix", w.bytes()),
        MapFn::Suffix(w) => write_two(out, b"suffix", w.bytes()),
        MapFn::First => write_word(out, b"first"),
        MapFn::Second => write_word(out, b"second"),
        MapFn::Swap => write_word(out, b"swap"),
        MapFn::Twin => write_word(out, b"twin"),
        MapFn::Size => write_word(out, b"size"),
        MapFn::Sum => write_word(out, b"sum"),
    }
}

// The words of a predicate.
pub(crate) fn write_pred(out: &mut Vec<u8>, pred: &Pred) -> Result<(), NoMemory>
    ensures { OnOk result (out.new.items ≡ out.old.items ++ spaced (pred_words pred.now)) }
{
    match pred {
        Pred::Even => write_word(out, b"even"),
        Pred::Odd => write_word(out, b"odd"),
        Pred::Lt(k) => write_word_int(out, b"lt", *k),
        Pred::Le(k) => write_word_int(out, b"le", *k),
        Pred::Gt(k) => write_word_int(out, b"gt", *k),
        Pred::Ge(k) => write_word_int(out, b"ge", *k),
        Pred::Eq(k) => write_word_int(out, b"eq", *k),
        Pred::Multiple(k) => write_word_int(out, b"multiple", *k),
        Pred::Blank => write_word(out, b"blank"),
        Pred::Has(w) => write_two(out, b"has", w.bytes()),
        Pred::Starts(w) => write_two(out, b"starts", w.bytes()),
        Pred::Is(w) => write_two(out, b"is", w.bytes()),
        Pred::Numeric => write_word(out, b"numeric"),
        Pred::FieldIs(n, w) => {
            write_word_count(out, b"field_is", *n)?;
            write_word(out, w.bytes())
        }
    }
}

// The word of an expansion.
pub(crate) fn expand_word(expand: Expand) -> &'static [u8]
    ensures { result.now ≡ expand_word expand }
{
    match expand {
        Expand::Words => b"words",
        Expand::Flat => b"flat",
        Expand::Twice => b"twice",
    }
}

// The word of a fold's step.
pub(crate) fn fold_word(fold: FoldOp) -> &'static [u8]
    ensures { result.now ≡ fold_word fold }
{
    match fold {
        FoldOp::Sum => b"sum",
        FoldOp::SumNonneg => b"sum_nonneg",
        FoldOp::Count => b"count",
        FoldOp::Collect => b"collect",
    }
}

// The word of a reduction's step.
pub(crate) fn reduce_word(reduce: ReduceOp) -> &'static [u8]
    ensures { result.now ≡ reduce_word reduce }
{
    match reduce {
        ReduceOp::Sum => b"sum",
        ReduceOp::Max => b"max",
        ReduceOp::Min => b"min",
    }
}
