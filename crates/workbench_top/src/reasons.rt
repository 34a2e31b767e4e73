// The reasons of failures, in words.
use blue_words::places::count_place;
use elem_core::why::NoMemory;

/// What happened, by the number of the reason.
fn text_of(number: u64) -> Option<&'static [u8]> {
    let text: &'static [u8] = match number {
        1 => b"a text is no number, or an element of another type came than its function takes",
        2 => b"a number is out of 64 bits",
        3 => b"a divisor is 0",
        4 => b"a number is below 0",
        5 => b"a text has no word with that number",
        6 => b"more elements came than its limit allows",
        7 => b"its reduction had no element",
        8 => b"it keeps one element and none came",
        9 => b"more keys came than it has room for",
        10 => b"an element came while its buffer was full",
        11 => b"it is a source that fails",
        12 => b"its file could not be read",
        13 => b"a line or a text has more than 65536 bytes",
        14 => b"its switch was told to abort",
        _ => return None,
    };
    Some(text)
}

/// What a custom stage asked for that the port rules forbid, by its code.
fn ask_of(code: u64) -> Option<&'static [u8]> {
    let text: &'static [u8] = match code {
        1 => b"it pulled an input that is asked or closed",
        2 => b"it pushed at an output that is not asked or is closed",
        3 => b"it asked for something at a port that is not there",
        4 => b"it pushed an element of another type than its output has",
        5 => b"it passed a failure on where none came",
        _ => return None,
    };
    Some(text)
}

/// What happened, by the word of a report that has no code of a stage's own.
fn text_of_word(word: &[u8]) -> Option<&'static [u8]> {
    if let Some(code) = word.strip_prefix(b"16/") {
        return match count_place(code) {
            Ok(number) => ask_of(number),
            Err(_) => None,
        };
    }
    match count_place(word) {
        Ok(number) => text_of(number),
        Err(_) => None,
    }
}

/// Appends what happened, by the word of a report, and says whether it is one.
pub(crate) fn put_reason(out: &mut Vec<u8>, word: &[u8]) -> Result<bool, NoMemory> {
    if let Some(code) = word.strip_prefix(b"15/") {
        out.extend_from_slice(b"it failed with its own code ")?;
        out.extend_from_slice(code)?;
        return Ok(count_place(code).is_ok());
    }
    match text_of_word(word) {
        Some(text) => {
            out.extend_from_slice(text)?;
            Ok(true)
        }
        None => Ok(false),
    }
}
