// The kinds of stages that run a chain for each substream.
ghost use Rattle.std.specs.Prelude.{◌≡◌};
ghost use Rattle.blue_words.specs.Reading.{Reads};
ghost use Rattle.blue_words.specs.Reading.{made};
ghost use Rattle.stream_model.specs.declared.kind.Kind.TheVariants.{SplitWhen, SplitAfter};
ghost use Rattle.blue_kinds.specs.Functions.{one_of};
ghost use Rattle.blue_kinds.specs.Kinds.{joining_named, each_chain, split_of, group_of, keys_of, key_of, substream_kind};

use crate::fans::read_hub;
use crate::folds::said;
use crate::functions::read_map;
use crate::predicates::read_pred;
use blue_words::fault::{FormEnd, PlaceValue};
use blue_words::places::both;
use blue_words::words::{Words, is_word};
use elem_core::function::{MapFn, Pred};
use elem_core::line::Line;
use std::alloc::Global;
use stream_model::kind::{Joining, Kind};

// The stages of substreams first.
pub(crate) fn read_substreams(
    alloc: Global,
    word: &[u8],
    words: &mut Words,
) -> Result<PlaceValue<Kind>, FormEnd>
    ensures { Reads result (substream_kind word.now words.old) words.new }
{
    if is_word(word, b"group_by") {
        return read_group(alloc, words);
    }
    if is_word(word, b"split_when") {
        return Ok(read_split(alloc, words)?.map(|(p, (c, j))| Kind::SplitWhen(p, c, j)));
    }
    if is_word(word, b"split_after") {
        return Ok(read_split(alloc, words)?.map(|(p, (c, j))| Kind::SplitAfter(p, c, j)));
    }
    read_hub(alloc, word, words)
}

fn read_group(alloc: Global, words: &mut Words) -> Result<PlaceValue<Kind>, FormEnd>
    ensures { Reads result (group_of words.old) words.new }
{
    let keys = read_keys(alloc, words)?;
    if words.skip(b"merge") {
        Ok(keys.map(|(n, (f, c))| Kind::GroupBy(n, f, c)))
    } else {
        Err(FormEnd::BadLine)
    }
}

// How many keys, the key, and the chain of each.
fn read_keys(alloc: Global, words: &mut Words) -> Result<PlaceValue<(u32, (MapFn, Line))>, FormEnd>
    ensures { Reads result (keys_of words.old) words.new }
{
    let keys = words.size()?;
    let key = read_key(alloc, words)?;
    Ok(both(keys, key))
}

// The key, and the chain of each.
fn read_key(alloc: Global, words: &mut Words) -> Result<PlaceValue<(MapFn, Line)>, FormEnd>
    ensures { Reads result (key_of words.old) words.new }
{
    let key = read_map(alloc, words)?;
    let chain = read_each(alloc, words)?;
    Ok(both(key, chain))
}

// A predicate, a chain, and how its substreams come together.
fn read_split(
    alloc: Global,
    words: &mut Words,
) -> Result<PlaceValue<(Pred, (Line, Joining))>, FormEnd>
    ensures { Reads result (split_of words.old) words.new }
{
    let pred = read_pred(alloc, words)?;
    let chain = read_each(alloc, words)?;
    let joining = read_joining(words)?;
    Ok(both(pred, both(chain, joining)))
}

fn read_each(alloc: Global, words: &mut Words) -> Result<PlaceValue<Line>, FormEnd>
    ensures { Reads result (each_chain words.old) words.new }
{
    if words.skip(b"each") {
        words.name(alloc)
    } else {
        Err(FormEnd::BadLine)
    }
}

// How substreams come together.
fn read_joining(words: &mut Words) -> Result<PlaceValue<Joining>, FormEnd>
    ensures { Reads result (one_of joining_named words.old) words.new }
{
    match words.next() {
        Some(word) => said(joining_named(word)),
        None => Err(FormEnd::BadLine),
    }
}

// The words of joinings.
fn joining_named(word: &[u8]) -> Option<Joining>
    ensures { result ≡ joining_named word.now }
{
    if is_word(word, b"merge") {
        return Some(Joining::Merge);
    }
    if is_word(word, b"concat") {
        return Some(Joining::Concat);
    }
    None
}
