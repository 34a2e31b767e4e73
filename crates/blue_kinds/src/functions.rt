// The functions of map, of keys and of partitions.
ghost use Rattle.std.specs.Prelude.{◌≡◌};
ghost use Rattle.blue_words.specs.Reading.{Reads};
ghost use Rattle.blue_kinds.specs.Functions.{map_of, number_map, quotient_map, text_map, bare_map};

use crate::folds::said;
use blue_words::fault::{FormEnd, PlaceValue};
use blue_words::words::{Words, is_word};
use elem_core::function::MapFn;
use std::alloc::Global;

// A function of one element.
pub(crate) fn read_map(alloc: Global, words: &mut Words) -> Result<PlaceValue<MapFn>, FormEnd>
    ensures { Reads result (map_of words.old) words.new }
{
    match words.next() {
        Some(word) => read_number_map(alloc, word, words),
        None => Err(FormEnd::BadLine),
    }
}

// The functions with a number first.
fn read_number_map(
    alloc: Global,
    word: &[u8],
    words: &mut Words,
) -> Result<PlaceValue<MapFn>, FormEnd>
    ensures { Reads result (number_map word.now words.old) words.new }
{
    if is_word(word, b"add") {
        return Ok(words.int()?.map(MapFn::Add));
    }
    if is_word(word, b"mul") {
        return Ok(words.int()?.map(MapFn::Mul));
    }
    read_quotient_map(alloc, word, words)
}

// The functions that divide.
fn read_quotient_map(
    alloc: Global,
    word: &[u8],
    words: &mut Words,
) -> Result<PlaceValue<MapFn>, FormEnd>
    ensures { Reads result (quotient_map word.now words.old) words.new }
{
    if is_word(word, b"div") {
        return Ok(words.int()?.map(MapFn::Div));
    }
    if is_word(word, b"rem") {
        return Ok(words.int()?.map(MapFn::Rem));
    }
    if is_word(word, b"div_into") {
        return Ok(words.int()?.map(MapFn::DivInto));
    }
    read_text_map(alloc, word, words)
}

// The functions of texts that have a place, and those without one.
fn read_text_map(
    alloc: Global,
    word: &[u8],
    words: &mut Words,
) -> Result<PlaceValue<MapFn>, FormEnd>
    ensures { Reads result (text_map word.now words.old) words.new }
{
    if is_word(word, b"field") {
        return Ok(words.count()?.map(MapFn::Field));
    }
    if is_word(word, b"prefix") {
        return Ok(words.word(alloc)?.map(MapFn::Prefix));
    }
    if is_word(word, b"suffix") {
        return Ok(words.word(alloc)?.map(MapFn::Suffix));
    }
    said(bare_map(word))
}

// The functions without a place.
fn bare_map(word: &[u8]) -> Option<MapFn>
    ensures { result ≡ bare_map word.now }
{
    if is_word(word, b"num") {
        return Some(MapFn::Num);
    }
    if is_word(word, b"show") {
        return Some(MapFn::Show);
    }
    if is_word(word, b"neg") {
        return Some(MapFn::Neg);
    }
    if is_word(word, b"abs") {
        return Some(MapFn::Abs);
    }
    if is_word(word, b"nonneg") {
        return Some(MapFn::Nonneg);
    }
    if is_word(word, b"len") {
        return Some(MapFn::Len);
    }
    if is_word(word, b"first") {
        return Some(MapFn::First);
    }
    if is_word(word, b"second") {
        return Some(MapFn::Second);
    }
    if is_word(word, b"swap") {
        return Some(MapFn::Swap);
    }
    if is_word(word, b"twin") {
        return Some(MapFn::Twin);
    }
    if is_word(word, b"size") {
        return Some(MapFn::Size);
    }
    if is_word(word, b"sum") {
        return Some(MapFn::Sum);
    }
    None
}
