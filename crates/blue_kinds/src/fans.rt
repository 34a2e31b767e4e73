// The kinds of stages with several outputs or inputs, and of hubs.
ghost use Rattle.std.specs.Prelude.{◌≡◌};
ghost use Rattle.blue_words.specs.Reading.{Reads};
ghost use Rattle.blue_words.specs.Reading.{made, then_read, size};
ghost use Rattle.stream_model.specs.declared.kind.Kind.TheVariants.{Partition, Interleave, MergeHub, BroadcastHub};
ghost use Rattle.blue_kinds.specs.Functions.{map_of};
ghost use Rattle.blue_kinds.specs.Kinds.{parting_kind, fan_out_kind, turning_kind, fan_in_kind, hub_kind};

use crate::functions::read_map;
use crate::kinds::read_linear;
use blue_words::fault::{FormEnd, PlaceValue};
use blue_words::places::both;
use blue_words::words::{Words, is_word};
use std::alloc::Global;
use stream_model::kind::Kind;

// The hubs first, and then the stages with several inputs.
pub(crate) fn read_hub(
    alloc: Global,
    word: &[u8],
    words: &mut Words,
) -> Result<PlaceValue<Kind>, FormEnd>
    ensures { Reads result (hub_kind word.now words.old) words.new }
{
    if is_word(word, b"merge_hub") {
        return read_merge_hub(words);
    }
    if is_word(word, b"broadcast_hub") {
        return read_broadcast_hub(words);
    }
    read_fan_in(alloc, word, words)
}

fn read_merge_hub(words: &mut Words) -> Result<PlaceValue<Kind>, FormEnd>
    ensures { Reads result (made (λ r. MergeHub r.0 r.1) (then_read (size words.old) size)) words.new }
{
    let size = words.size()?;
    let producers = words.size()?;
    Ok(both(size, producers).map(|(s, n)| Kind::MergeHub(s, n)))
}

fn read_broadcast_hub(words: &mut Words) -> Result<PlaceValue<Kind>, FormEnd>
    ensures { Reads result (made (λ r. BroadcastHub r.0 r.1) (then_read (size words.old) size)) words.new }
{
    let size = words.size()?;
    let consumers = words.size()?;
    Ok(both(size, consumers).map(|(s, n)| Kind::BroadcastHub(s, n)))
}

// The stages with several inputs.
fn read_fan_in(alloc: Global, word: &[u8], words: &mut Words) -> Result<PlaceValue<Kind>, FormEnd>
    ensures { Reads result (fan_in_kind word.now words.old) words.new }
{
    if is_word(word, b"merge") {
        return Ok(words.size()?.map(Kind::Merge));
    }
    if is_word(word, b"concat") {
        return Ok(words.size()?.map(Kind::Concat));
    }
    read_turning(alloc, word, words)
}

// The stages that take from their inputs by turns or in step.
fn read_turning(alloc: Global, word: &[u8], words: &mut Words) -> Result<PlaceValue<Kind>, FormEnd>
    ensures { Reads result (turning_kind word.now words.old) words.new }
{
    if is_word(word, b"interleave") {
        return read_interleave(words);
    }
    if is_word(word, b"merge_sorted") {
        return Ok(Ok(Kind::MergeSorted));
    }
    if is_word(word, b"zip") {
        return Ok(Ok(Kind::Zip));
    }
    read_fan_out(alloc, word, words)
}

fn read_interleave(words: &mut Words) -> Result<PlaceValue<Kind>, FormEnd>
    ensures { Reads result (made (λ r. Interleave r.0 r.1) (then_read (size words.old) size)) words.new }
{
    let inputs = words.size()?;
    let segment = words.size()?;
    Ok(both(inputs, segment).map(|(n, s)| Kind::Interleave(n, s)))
}

// The stages with several outputs, and then those with one input and one output.
fn read_fan_out(alloc: Global, word: &[u8], words: &mut Words) -> Result<PlaceValue<Kind>, FormEnd>
    ensures { Reads result (fan_out_kind word.now words.old) words.new }
{
    if is_word(word, b"broadcast") {
        return Ok(words.size()?.map(Kind::Broadcast));
    }
    if is_word(word, b"balance") {
        return Ok(words.size()?.map(Kind::Balance));
    }
    read_parting(alloc, word, words)
}

// The stages that part their elements among their outputs.
fn read_parting(alloc: Global, word: &[u8], words: &mut Words) -> Result<PlaceValue<Kind>, FormEnd>
    ensures { Reads result (parting_kind word.now words.old) words.new }
{
    if is_word(word, b"partition") {
        return read_partition(alloc, words);
    }
    if is_word(word, b"unzip") {
        return Ok(Ok(Kind::Unzip));
    }
    read_linear(alloc, word, words)
}

fn read_partition(alloc: Global, words: &mut Words) -> Result<PlaceValue<Kind>, FormEnd>
    ensures { Reads result (made (λ r. Partition r.0 r.1) (then_read (size words.old) map_of)) words.new }
{
    let outputs = words.size()?;
    let number = read_map(alloc, words)?;
    Ok(both(outputs, number).map(|(n, f)| Kind::Partition(n, f)))
}
