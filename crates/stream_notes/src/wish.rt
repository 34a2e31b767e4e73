// Which progress the environment asks for.
use blue_words::places::size_place;
use std::env::FillError;
use std::rt::Env;

/// The longest time from one line of progress to the next, in seconds: a day.
const MOST_SECONDS: u32 = 86_400;

/// How many bytes a number of seconds may have.
const MOST_DIGITS: usize = 20;

/// What the environment says of progress.
#[derive(Drop, Clone, Copy, PartialEq, Eq)]
pub enum Wish {
    /// It does not speak of it.
    Nothing,
    /// A line every so many seconds, 1 to 86,400.
    Every(u32),
    /// It says something that is no such number.
    Unclear,
}

/// The wish of a value.
fn wish_in(value: &[u8]) -> Wish {
    match size_place(value) {
        Ok(seconds) if seconds >= 1 && seconds <= MOST_SECONDS => Wish::Every(seconds),
        _ => Wish::Unclear,
    }
}

/// Returns what the variable `STREAMS_PROGRESS` asks for.
pub fn wish_of<E: Env>(env: &E) -> Wish {
    let mut value = [0; MOST_DIGITS];
    match env.var("STREAMS_PROGRESS", &mut value) {
        Ok(size) => wish_in(&value[..size]),
        Err(FillError::NotPresent) => Wish::Nothing,
        Err(FillError::TooLong) => Wish::Unclear,
    }
}
