// The kinds of sources, of sinks, and of the stages that a chain may have.
ghost use Rattle.std.specs.Prelude.{◌≡◌};
ghost use Rattle.blue_words.specs.Reading.{Reads};
ghost use Rattle.blue_words.specs.Reading.{made, then_read, int};
ghost use Rattle.stream_model.specs.declared.kind.Kind.TheVariants.{Range};
ghost use Rattle.blue_kinds.specs.Functions.{one_of};
ghost use Rattle.blue_kinds.specs.Kinds.{base_named, source_kind, sink_kind, while_kind, testing_kind, folding_kind, making_kind, bounded_kind, linear_kind};

use crate::folds::{read_expand, read_fold, read_reduce, said};
use crate::functions::read_map;
use crate::predicates::read_pred;
use blue_words::fault::{FormEnd, PlaceValue};
use blue_words::places::both;
use blue_words::words::{Words, is_word};
use std::alloc::Global;
use stream_model::kind::{Base, Kind};

/// The kind of a source, by its first word and those behind it.
pub fn read_source(
    alloc: Global,
    word: &[u8],
    words: &mut Words,
) -> Result<PlaceValue<Kind>, FormEnd>
    ensures { Reads result (source_kind word.now words.old) words.new }
{
    if is_word(word, b"lines") {
        return Ok(words.file(alloc)?.map(Kind::Lines));
    }
    if is_word(word, b"range") {
        return read_range(words);
    }
    if is_word(word, b"empty") {
        return Ok(read_base(words)?.map(Kind::Empty));
    }
    if is_word(word, b"failed") {
        return Ok(read_base(words)?.map(Kind::Failed));
    }
    Err(FormEnd::BadLine)
}

fn read_range(words: &mut Words) -> Result<PlaceValue<Kind>, FormEnd>
    ensures { Reads result (made (λ r. Range r.0 r.1) (then_read (int words.old) int)) words.new }
{
    let first = words.int()?;
    let last = words.int()?;
    Ok(both(first, last).map(|(a, b)| Kind::Range(a, b)))
}

// The type of a source that gives nothing.
fn read_base(words: &mut Words) -> Result<PlaceValue<Base>, FormEnd>
    ensures { Reads result (one_of base_named words.old) words.new }
{
    match words.next() {
        Some(word) => said(base_named(word)),
        None => Err(FormEnd::BadLine),
    }
}

// The words of types.
fn base_named(word: &[u8]) -> Option<Base>
    ensures { result ≡ base_named word.now }
{
    if is_word(word, b"num") {
        return Some(Base::Num);
    }
    if is_word(word, b"text") {
        return Some(Base::Text);
    }
    None
}

/// The kind of a sink, by its first word and those behind it.
pub fn read_sink(alloc: Global, word: &[u8], words: &mut Words) -> Result<PlaceValue<Kind>, FormEnd>
    ensures { Reads result (sink_kind word.now words.old) words.new }
{
    if is_word(word, b"lines") {
        return Ok(words.file(alloc)?.map(Kind::ToLines));
    }
    if is_word(word, b"head") {
        return Ok(words.file(alloc)?.map(Kind::Head));
    }
    if is_word(word, b"last") {
        return Ok(words.file(alloc)?.map(Kind::Last));
    }
    if is_word(word, b"ignore") {
        return Ok(Ok(Kind::Ignore));
    }
    Err(FormEnd::BadLine)
}

// The stages that a chain may have: those that count elements first.
pub(crate) fn read_linear(
    alloc: Global,
    word: &[u8],
    words: &mut Words,
) -> Result<PlaceValue<Kind>, FormEnd>
    ensures { Reads result (linear_kind word.now words.old) words.new }
{
    if is_word(word, b"take") {
        return Ok(words.count()?.map(Kind::Take));
    }
    if is_word(word, b"drop") {
        return Ok(words.count()?.map(Kind::Drop));
    }
    read_bounded(alloc, word, words)
}

// The stages with a bound that they do not pass.
fn read_bounded(alloc: Global, word: &[u8], words: &mut Words) -> Result<PlaceValue<Kind>, FormEnd>
    ensures { Reads result (bounded_kind word.now words.old) words.new }
{
    if is_word(word, b"limit") {
        return Ok(words.count()?.map(Kind::Limit));
    }
    if is_word(word, b"grouped") {
        return Ok(words.size()?.map(Kind::Grouped));
    }
    read_making(alloc, word, words)
}

// The stages that make elements of elements, and then those that test them.
fn read_making(alloc: Global, word: &[u8], words: &mut Words) -> Result<PlaceValue<Kind>, FormEnd>
    ensures { Reads result (making_kind word.now words.old) words.new }
{
    if is_word(word, b"map") {
        return Ok(read_map(alloc, words)?.map(Kind::Map));
    }
    if is_word(word, b"map_concat") {
        return Ok(read_expand(words)?.map(Kind::MapConcat));
    }
    read_folding(alloc, word, words)
}

// The stages that gather elements, and then those that test them.
fn read_folding(alloc: Global, word: &[u8], words: &mut Words) -> Result<PlaceValue<Kind>, FormEnd>
    ensures { Reads result (folding_kind word.now words.old) words.new }
{
    if is_word(word, b"fold") {
        return Ok(read_fold(words)?.map(Kind::Fold));
    }
    if is_word(word, b"scan") {
        return Ok(read_fold(words)?.map(Kind::Scan));
    }
    if is_word(word, b"reduce") {
        return Ok(read_reduce(words)?.map(Kind::Reduce));
    }
    read_testing(alloc, word, words)
}

// The stages that test elements.
fn read_testing(alloc: Global, word: &[u8], words: &mut Words) -> Result<PlaceValue<Kind>, FormEnd>
    ensures { Reads result (testing_kind word.now words.old) words.new }
{
    if is_word(word, b"filter") {
        return Ok(read_pred(alloc, words)?.map(Kind::Filter));
    }
    if is_word(word, b"filter_not") {
        return Ok(read_pred(alloc, words)?.map(Kind::FilterNot));
    }
    read_while(alloc, word, words)
}

// The stages that test elements up to the first that misses.
fn read_while(alloc: Global, word: &[u8], words: &mut Words) -> Result<PlaceValue<Kind>, FormEnd>
    ensures { Reads result (while_kind word.now words.old) words.new }
{
    if is_word(word, b"take_while") {
        return Ok(read_pred(alloc, words)?.map(Kind::TakeWhile));
    }
    if is_word(word, b"drop_while") {
        return Ok(read_pred(alloc, words)?.map(Kind::DropWhile));
    }
    Err(FormEnd::BadLine)
}
