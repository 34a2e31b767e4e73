// The predicates.
ghost use Rattle.std.specs.Prelude.{◌≡◌};
ghost use Rattle.blue_words.specs.Reading.{Reads, made, then_read, word, count};
ghost use Rattle.elem_core.specs.declared.function.Pred.TheVariants.{FieldIs};
ghost use Rattle.blue_kinds.specs.Functions.{pred_of, number_pred, greater_pred, exact_pred, text_pred, whole_pred, bare_pred};

use crate::folds::said;
use blue_words::fault::{FormEnd, PlaceValue};
use blue_words::places::both;
use blue_words::words::{Words, is_word};
use elem_core::function::Pred;
use std::alloc::Global;

// A predicate.
pub(crate) fn read_pred(alloc: Global, words: &mut Words) -> Result<PlaceValue<Pred>, FormEnd>
    ensures { Reads result (pred_of words.old) words.new }
{
    match words.next() {
        Some(word) => read_number_pred(alloc, word, words),
        None => Err(FormEnd::BadLine),
    }
}

// The predicates with a number first.
fn read_number_pred(
    alloc: Global,
    word: &[u8],
    words: &mut Words,
) -> Result<PlaceValue<Pred>, FormEnd>
    ensures { Reads result (number_pred word.now words.old) words.new }
{
    if is_word(word, b"lt") {
        return Ok(words.int()?.map(Pred::Lt));
    }
    if is_word(word, b"le") {
        return Ok(words.int()?.map(Pred::Le));
    }
    read_greater_pred(alloc, word, words)
}

// The predicates of greater numbers.
fn read_greater_pred(
    alloc: Global,
    word: &[u8],
    words: &mut Words,
) -> Result<PlaceValue<Pred>, FormEnd>
    ensures { Reads result (greater_pred word.now words.old) words.new }
{
    if is_word(word, b"gt") {
        return Ok(words.int()?.map(Pred::Gt));
    }
    if is_word(word, b"ge") {
        return Ok(words.int()?.map(Pred::Ge));
    }
    read_exact_pred(alloc, word, words)
}

// The predicates of one number, and of its multiples.
fn read_exact_pred(
    alloc: Global,
    word: &[u8],
    words: &mut Words,
) -> Result<PlaceValue<Pred>, FormEnd>
    ensures { Reads result (exact_pred word.now words.old) words.new }
{
    if is_word(word, b"eq") {
        return Ok(words.int()?.map(Pred::Eq));
    }
    if is_word(word, b"multiple") {
        return Ok(words.int()?.map(Pred::Multiple));
    }
    read_text_pred(alloc, word, words)
}

// The predicates on texts that have a place, and those without one.
fn read_text_pred(
    alloc: Global,
    word: &[u8],
    words: &mut Words,
) -> Result<PlaceValue<Pred>, FormEnd>
    ensures { Reads result (text_pred word.now words.old) words.new }
{
    if is_word(word, b"has") {
        return Ok(words.word(alloc)?.map(Pred::Has));
    }
    if is_word(word, b"starts") {
        return Ok(words.word(alloc)?.map(Pred::Starts));
    }
    read_whole_pred(alloc, word, words)
}

// The predicates that compare with a text, and those without a place.
fn read_whole_pred(
    alloc: Global,
    word: &[u8],
    words: &mut Words,
) -> Result<PlaceValue<Pred>, FormEnd>
    ensures { Reads result (whole_pred word.now words.old) words.new }
{
    if is_word(word, b"is") {
        return Ok(words.word(alloc)?.map(Pred::Is));
    }
    if is_word(word, b"field_is") {
        return read_field_is(alloc, words);
    }
    said(bare_pred(word))
}

fn read_field_is(alloc: Global, words: &mut Words) -> Result<PlaceValue<Pred>, FormEnd>
    ensures { Reads result (made (λ r. FieldIs r.0 r.1) (then_read (count words.old) word)) words.new }
{
    let number = words.count()?;
    let text = words.word(alloc)?;
    Ok(both(number, text).map(|(n, t)| Pred::FieldIs(n, t)))
}

// The predicates without a place.
fn bare_pred(word: &[u8]) -> Option<Pred>
    ensures { result ≡ bare_pred word.now }
{
    if is_word(word, b"even") {
        return Some(Pred::Even);
    }
    if is_word(word, b"odd") {
        return Some(Pred::Odd);
    }
    if is_word(word, b"blank") {
        return Some(Pred::Blank);
    }
    if is_word(word, b"numeric") {
        return Some(Pred::Numeric);
    }
    None
}
