// Deciders, and which kinds may have one.
ghost use Rattle.std.specs.Prelude.{◌≡◌};
ghost use Rattle.blue_words.specs.Reading.{Reads, at_map};
ghost use Rattle.blue_kinds.specs.Functions.{one_of};
ghost use Rattle.blue_kinds.specs.Kinds.{may_decide, decider_word, kept_decider, decider_of};

use crate::folds::said;
use blue_words::fault::{FormEnd, PlaceValue, Version};
use blue_words::words::{Words, is_word};
use elem_core::why::Decider;

/// The decider behind a kind, where one is written; one is read only where the kind may have one. In version 1 `stop` says what no
/// decider says.
pub fn read_decider(
    version: Version,
    may: bool,
    words: &mut Words,
) -> Result<PlaceValue<Option<Decider>>, FormEnd>
    ensures { Reads result (decider_of version may words.old) words.new }
{
    if may && words.skip(b"decider") {
        let decider = read_decider_word(words)?;
        Ok(kept_place(version, decider))
    } else {
        Ok(Ok(None))
    }
}

fn kept_place(version: Version, decider: PlaceValue<Decider>) -> PlaceValue<Option<Decider>>
    ensures { result ≡ at_map (kept_decider version) decider }
{
    match decider {
        Ok(decider) => Ok(kept_decider(version, decider)),
        Err(kind) => Err(kind),
    }
}

// Choice: docs/DECISIONS.md#written-stop
// A decider as it is kept.
fn kept_decider(version: Version, decider: Decider) -> Option<Decider>
    ensures { result ≡ kept_decider version decider }
{
    match version {
        Version::First => match decider {
            Decider::Stop => None,
            Decider::Resume => Some(Decider::Resume),
            Decider::Restart => Some(Decider::Restart),
        },
        Version::Second => Some(decider),
    }
}

fn read_decider_word(words: &mut Words) -> Result<PlaceValue<Decider>, FormEnd>
    ensures { Reads result (one_of decider_word words.old) words.new }
{
    match words.next() {
        Some(word) => said(decider_word(word)),
        None => Err(FormEnd::BadLine),
    }
}

fn decider_word(word: &[u8]) -> Option<Decider>
    ensures { result ≡ decider_word word.now }
{
    if is_word(word, b"stop") {
        return Some(Decider::Stop);
    }
    if is_word(word, b"resume") {
        return Some(Decider::Resume);
    }
    if is_word(word, b"restart") {
        return Some(Decider::Restart);
    }
    None
}

/// Whether a kind with this first word may have a decider. Rule: Akka Streams 2.6 reference.
pub fn may_decide(word: &[u8]) -> bool
    ensures { result ≡ may_decide word.now }
{
    is_word(word, b"map")
        || is_word(word, b"filter")
        || is_word(word, b"filter_not")
        || is_word(word, b"take_while")
        || is_word(word, b"drop_while")
        || is_word(word, b"map_concat")
        || is_word(word, b"fold")
        || is_word(word, b"scan")
        || is_word(word, b"reduce")
}
