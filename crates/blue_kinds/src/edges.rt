// The kinds of the other stages: buffers, recoveries, switches, plugs and custom stages.
ghost use Rattle.std.specs.Prelude.{◌≡◌};
ghost use Rattle.blue_words.specs.Reading.{Reads};
ghost use Rattle.blue_words.specs.Reading.{made, then_read, name, size};
ghost use Rattle.stream_model.specs.declared.kind.Kind.TheVariants.{Buffer};
ghost use Rattle.blue_kinds.specs.Functions.{one_of};
ghost use Rattle.blue_kinds.specs.Kinds.{policy_named, recover_of, trip_of, order_of, is_later, stage_kind, stage_in};

use crate::folds::said;
use crate::substreams::read_substreams;
use blue_words::fault::{FormEnd, PlaceValue, Version};
use blue_words::places::both;
use blue_words::words::{Words, is_word};
use elem_core::line::Line;
use std::alloc::Global;
use stream_model::kind::{Kind, Policy};

/// The kind of a stage in a text of that version, by its first word and those behind it.
pub fn read_stage_in(
    alloc: Global,
    version: Version,
    word: &[u8],
    words: &mut Words,
) -> Result<PlaceValue<Kind>, FormEnd>
    ensures { Reads result (stage_in version word.now words.old) words.new }
{
    if is_later(version, word) {
        return Err(FormEnd::BadLine);
    }
    read_stage_kind(alloc, word, words)
}

// The kinds that version 1 does not have.
fn is_later(version: Version, word: &[u8]) -> bool
    ensures { result ≡ is_later version word.now }
{
    match version {
        Version::First => is_word(word, b"merge_hub") || is_word(word, b"broadcast_hub"),
        Version::Second => false,
    }
}

// The kind of a stage, whatever the version.
fn read_stage_kind(
    alloc: Global,
    word: &[u8],
    words: &mut Words,
) -> Result<PlaceValue<Kind>, FormEnd>
    ensures { Reads result (stage_kind word.now words.old) words.new }
{
    if is_word(word, b"buffer") {
        return read_buffer(words);
    }
    if is_word(word, b"recover") {
        return read_recover(alloc, words);
    }
    if is_word(word, b"valve") {
        return Ok(words.name(alloc)?.map(Kind::Valve));
    }
    if is_word(word, b"trip") {
        return read_trip(alloc, words);
    }
    if is_word(word, b"plug") {
        return Ok(words.name(alloc)?.map(Kind::Plug));
    }
    if is_word(word, b"custom") {
        return Ok(words.name(alloc)?.map(Kind::Custom));
    }
    read_substreams(alloc, word, words)
}

fn read_buffer(words: &mut Words) -> Result<PlaceValue<Kind>, FormEnd>
    ensures { Reads result (made (λ r. Buffer r.0 r.1) (then_read (size words.old) (one_of policy_named))) words.new }
{
    let size = words.size()?;
    let policy = read_policy(words)?;
    Ok(both(size, policy).map(|(n, p)| Kind::Buffer(n, p)))
}

// What a full buffer does.
fn read_policy(words: &mut Words) -> Result<PlaceValue<Policy>, FormEnd>
    ensures { Reads result (one_of policy_named words.old) words.new }
{
    match words.next() {
        Some(word) => said(policy_named(word)),
        None => Err(FormEnd::BadLine),
    }
}

// The words of policies.
fn policy_named(word: &[u8]) -> Option<Policy>
    ensures { result ≡ policy_named word.now }
{
    if is_word(word, b"backpressure") {
        return Some(Policy::Backpressure);
    }
    if is_word(word, b"drop_head") {
        return Some(Policy::DropHead);
    }
    if is_word(word, b"drop_tail") {
        return Some(Policy::DropTail);
    }
    if is_word(word, b"drop_buffer") {
        return Some(Policy::DropBuffer);
    }
    if is_word(word, b"drop_new") {
        return Some(Policy::DropNew);
    }
    if is_word(word, b"fail") {
        return Some(Policy::Fail);
    }
    None
}

fn read_recover(alloc: Global, words: &mut Words) -> Result<PlaceValue<Kind>, FormEnd>
    ensures { Reads result (recover_of words.old) words.new }
{
    let Some(word) = words.next() else {
        return Err(FormEnd::BadLine);
    };
    if is_word(word, b"num") {
        return Ok(words.int()?.map(Kind::RecoverNum));
    }
    if is_word(word, b"text") {
        return Ok(words.word(alloc)?.map(Kind::RecoverText));
    }
    Err(FormEnd::BadLine)
}

fn read_trip(alloc: Global, words: &mut Words) -> Result<PlaceValue<Kind>, FormEnd>
    ensures { Reads result (trip_of (name words.old)) words.new }
{
    let switch = words.name(alloc)?;
    read_order(switch, words)
}

fn read_order(switch: PlaceValue<Line>, words: &mut Words) -> Result<PlaceValue<Kind>, FormEnd>
    ensures { Reads result (order_of switch words.old) words.new }
{
    let Some(word) = words.next() else {
        return Err(FormEnd::BadLine);
    };
    if is_word(word, b"shutdown") {
        let at = words.size()?;
        return Ok(both(switch, at).map(|(s, n)| Kind::TripShutdown(s, n)));
    }
    if is_word(word, b"abort") {
        let at = words.size()?;
        return Ok(both(switch, at).map(|(s, n)| Kind::TripAbort(s, n)));
    }
    Err(FormEnd::BadLine)
}
