// The commonest mistakes in a line of a text, by its words and by where it is.
use crate::message::put_source_line;
use crate::source::{SourceLine, first_word, open_before};
use blue_words::lines::is_plain;
use blue_words::words::{Words, is_word};
use elem_core::why::NoMemory;
use stream_model::limit::MAX_TEXT_LINE;

/// Whether lines that begin with this word are only outside of modules.
fn is_outer(word: &[u8]) -> bool {
    is_word(word, b"module")
        || is_word(word, b"switch")
        || is_word(word, b"chain")
        || is_word(word, b"default")
}

/// Whether lines that begin with this word are only inside of modules.
fn is_inner(word: &[u8]) -> bool {
    is_word(word, b"end") || is_word(word, b"in") || is_word(word, b"out")
}

/// Appends that a line may only be outside of the module that is open there.
fn put_outer(out: &mut Vec<u8>, word: &[u8], module: &SourceLine<'_>) -> Result<(), NoMemory> {
    out.push(b'`')?;
    out.extend_from_slice(word)?;
    out.extend_from_slice(b"` may not be inside a module, and one is open here (")?;
    put_source_line(out, module)?;
    out.extend_from_slice(b"). Its `end` comes first.\n")
}

/// Appends that a line may only be inside of a module.
fn put_inner(out: &mut Vec<u8>, word: &[u8]) -> Result<(), NoMemory> {
    out.push(b'`')?;
    out.extend_from_slice(word)?;
    out.extend_from_slice(b"` may only be inside a module, and none is open here.\n")
}

/// Appends why a line of a text of version 2 may not be where it is, and says whether that is so.
pub(crate) fn put_misplaced(
    out: &mut Vec<u8>,
    text: &[u8],
    line: &SourceLine<'_>,
) -> Result<bool, NoMemory> {
    let Some(word) = first_word(line.bytes) else {
        return Ok(false);
    };
    match open_before(text, line.number) {
        Some(module) if is_outer(word) => {
            put_outer(out, word, &module)?;
            Ok(true)
        }
        None if is_inner(word) => {
            put_inner(out, word)?;
            Ok(true)
        }
        _ => Ok(false),
    }
}

/// Appends that a text has one line `default`, if the line is one.
pub(crate) fn put_default_again(out: &mut Vec<u8>, line: &[u8]) -> Result<(), NoMemory> {
    match first_word(line) {
        Some(word) if is_word(word, b"default") => out.extend_from_slice(
            b"A text has at most one line `default`, and an earlier line is one.\n",
        ),
        _ => Ok(()),
    }
}

/// Appends the module that has no end, if there is one.
pub(crate) fn put_endless(out: &mut Vec<u8>, text: &[u8]) -> Result<(), NoMemory> {
    let Some(module) = open_before(text, 0) else {
        return Ok(());
    };
    put_source_line(out, &module)?;
    out.extend_from_slice(
        b"\nThis module has no `end`: write that line where the module's last line is to be.\n",
    )
}

/// The word of a line that only a text of version 2 may have, if there is one.
fn later_word(line: &[u8]) -> Option<&[u8]> {
    if line.len() > MAX_TEXT_LINE || !is_plain(line) {
        return None;
    }
    let mut words = Words::of(line);
    let first = words.next()?;
    if is_word(first, b"module") || is_word(first, b"use") || is_word(first, b"default") {
        return Some(first);
    }
    let _name = words.next()?;
    let kind = words.next()?;
    if is_word(kind, b"merge_hub") || is_word(kind, b"broadcast_hub") {
        Some(kind)
    } else {
        None
    }
}

/// Appends that a word of a line is one of version 2 alone, if there is such a word.
pub(crate) fn put_later(out: &mut Vec<u8>, line: &[u8]) -> Result<(), NoMemory> {
    let Some(word) = later_word(line) else {
        return Ok(());
    };
    out.push(b'`')?;
    out.extend_from_slice(word)?;
    out.extend_from_slice(b"` is a word of version 2: begin the text with the line `streams 2`.\n")
}

/// Whether a byte is a quotation mark.
fn is_quote(byte: Option<&u8>) -> bool {
    matches!(byte, Some(b'"' | b'\''))
}

/// Whether a word of the line begins or ends with a quotation mark.
fn has_quotes(line: &[u8]) -> bool {
    for word in line.split(|byte| *byte == b' ') {
        if is_quote(word.first()) || is_quote(word.last()) {
            return true;
        }
    }
    false
}

/// Whether a word of the line begins as a comment does.
fn has_comment(line: &[u8]) -> bool {
    for word in line.split(|byte| *byte == b' ') {
        if word.starts_with(b"#") {
            return true;
        }
    }
    false
}

/// Appends what a line can't have that other languages have: quotes, and a comment at its end.
pub(crate) fn put_foreign(out: &mut Vec<u8>, line: &[u8]) -> Result<(), NoMemory> {
    if has_quotes(line) {
        out.extend_from_slice(b"Nothing quotes a word here: no word has a space in it.\n")?;
    }
    if has_comment(line) {
        out.extend_from_slice(b"A comment is a line of its own, which begins with `#`.\n")?;
    }
    Ok(())
}

/// Appends how to name a file in another folder, if the line has a path.
pub(crate) fn put_path(out: &mut Vec<u8>, line: &[u8]) -> Result<(), NoMemory> {
    for byte in line {
        if *byte == b'/' {
            return out.extend_from_slice(
                b"Files are in the current folder: for one that is elsewhere make a link, as by `ln -s ../logs/a.log a.log`.\n",
            );
        }
    }
    Ok(())
}
