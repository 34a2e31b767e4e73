// Expansions, folds and reductions, and words of a table.
ghost use Rattle.std.specs.Prelude.{◌≡◌, Ok, Err, MatchOption};
ghost use Rattle.blue_words.specs.Reading.{Reads};
ghost use Rattle.blue_kinds.specs.Functions.{one_of, expand_named, fold_named, reduce_named};

use blue_words::fault::{FormEnd, PlaceValue};
use blue_words::words::{Words, is_word};
use elem_core::function::{Expand, FoldOp, ReduceOp};

// The value of a fixed word, where it has one.
pub(crate) fn said<T: Drop>(value: Option<T>) -> Result<PlaceValue<T>, FormEnd>
    ensures { MatchOption value (result ≡ Err FormEnd.BadLine) (λ v. result ≡ Ok (Ok v)) }
{
    match value {
        Some(value) => Ok(Ok(value)),
        None => Err(FormEnd::BadLine),
    }
}

// An expansion.
pub(crate) fn read_expand(words: &mut Words) -> Result<PlaceValue<Expand>, FormEnd>
    ensures { Reads result (one_of expand_named words.old) words.new }
{
    match words.next() {
        Some(word) => said(expand_named(word)),
        None => Err(FormEnd::BadLine),
    }
}

// A fold's step.
pub(crate) fn read_fold(words: &mut Words) -> Result<PlaceValue<FoldOp>, FormEnd>
    ensures { Reads result (one_of fold_named words.old) words.new }
{
    match words.next() {
        Some(word) => said(fold_named(word)),
        None => Err(FormEnd::BadLine),
    }
}

// A reduction's step.
pub(crate) fn read_reduce(words: &mut Words) -> Result<PlaceValue<ReduceOp>, FormEnd>
    ensures { Reads result (one_of reduce_named words.old) words.new }
{
    match words.next() {
        Some(word) => said(reduce_named(word)),
        None => Err(FormEnd::BadLine),
    }
}

// The words of expansions.
fn expand_named(word: &[u8]) -> Option<Expand>
    ensures { result ≡ expand_named word.now }
{
    if is_word(word, b"words") {
        return Some(Expand::Words);
    }
    if is_word(word, b"flat") {
        return Some(Expand::Flat);
    }
    if is_word(word, b"twice") {
        return Some(Expand::Twice);
    }
    None
}

// The words of folds.
fn fold_named(word: &[u8]) -> Option<FoldOp>
    ensures { result ≡ fold_named word.now }
{
    if is_word(word, b"sum") {
        return Some(FoldOp::Sum);
    }
    if is_word(word, b"sum_nonneg") {
        return Some(FoldOp::SumNonneg);
    }
    if is_word(word, b"count") {
        return Some(FoldOp::Count);
    }
    if is_word(word, b"collect") {
        return Some(FoldOp::Collect);
    }
    None
}

// The words of reductions.
fn reduce_named(word: &[u8]) -> Option<ReduceOp>
    ensures { result ≡ reduce_named word.now }
{
    if is_word(word, b"sum") {
        return Some(ReduceOp::Sum);
    }
    if is_word(word, b"max") {
        return Some(ReduceOp::Max);
    }
    if is_word(word, b"min") {
        return Some(ReduceOp::Min);
    }
    None
}
