// The words of a process, one after another.
use elem_core::why::NoMemory;
use std::alloc::{AllocError, Global};
use std::env::FillError;
use std::rt::Env;

/// How many bytes there is room for at the first try.
const FIRST_ROOM: usize = 256;

/// The word at this place, in so much room.
fn word_within<E: Env>(
    env: &E,
    alloc: Global,
    place: usize,
    room: usize,
) -> Result<Result<Vec<u8>, FillError>, NoMemory> {
    let mut word = Vec::new(alloc);
    word.resize(room, 0)?;
    match env.arg(place, &mut word) {
        Ok(size) => {
            word.truncate(size);
            Ok(Ok(word))
        }
        Err(fault) => Ok(Err(fault)),
    }
}

/// The word at this place; None behind the last. Its room is doubled until it fits, or memory is wanting.
fn word_at<E: Env>(env: &E, alloc: Global, place: usize) -> Result<Option<Vec<u8>>, NoMemory> {
    let mut room = FIRST_ROOM;
    for _ in 0..usize::BITS {
        match word_within(env, alloc, place, room)? {
            Ok(word) => return Ok(Some(word)),
            Err(FillError::NotPresent) => return Ok(None),
            Err(FillError::TooLong) => room = room.saturating_add(room),
        }
    }
    Err(AllocError)
}

// Choice: docs/DECISIONS.md#main-is-one-call
/// The words that the process was started with, its program's name first, whatever bytes they are. An error is want of memory alone.
pub fn words_of<E: Env>(env: &E, alloc: Global) -> Result<Vec<Vec<u8>>, NoMemory> {
    let mut words = Vec::new(alloc);
    for place in 0..usize::MAX {
        match word_at(env, alloc, place)? {
            Some(word) => words.push(word)?,
            None => break,
        }
    }
    Ok(words)
}
