// The lines of a text in which declarations stand.
ghost use Rattle.std.specs.Prelude.{IsTrue};

use crate::origins::TextPlace;
use crate::place::Sort;
use blue_words::lines::{is_passed_over, is_plain, next_line};
use blue_words::words::{Words, is_word};
use stream_model::limit::MAX_TEXT_LINE;

/// A line of a text: its number, from 1, and its bytes without LF.
#[derive(Clone, Copy)]
pub struct SourceLine<'a> {
    pub number: usize,
    pub bytes: &'a [u8],
}

/// What a word declares that a line begins with.
fn sort_of(word: &[u8]) -> Option<Sort> {
    if is_word(word, b"wire") {
        Some(Sort::Wire)
    } else if is_word(word, b"switch") {
        Some(Sort::Switch)
    } else if is_word(word, b"chain") {
        Some(Sort::Chain)
    } else if is_word(word, b"source") || is_word(word, b"stage") || is_word(word, b"sink") {
        Some(Sort::Node)
    } else if is_word(word, b"use") {
        Some(Sort::Use)
    } else {
        module_sort_of(word)
    }
}

/// What a word declares that a line of a module begins with.
fn module_sort_of(word: &[u8]) -> Option<Sort> {
    if is_word(word, b"module") {
        Some(Sort::Module)
    } else if is_word(word, b"in") || is_word(word, b"out") {
        Some(Sort::Port)
    } else if is_word(word, b"end") {
        Some(Sort::End)
    } else {
        None
    }
}

/// The first word of a line, if it has one that can be read.
pub fn first_word(line: &[u8]) -> Option<&[u8]> {
    if line.len() > MAX_TEXT_LINE || !is_plain(line) {
        return None;
    }
    Words::of(line).next()
}

/// What a line declares.
fn declared(line: &[u8]) -> Option<Sort> {
    sort_of(first_word(line)?)
}

/// Where the lines of a text are: in which module, if in one, and how many modules have begun.
#[derive(Clone, Copy)]
struct Standing {
    body: Option<usize>,
    begun: usize,
}

/// Where the next line is behind one that declares something of that sort.
fn behind(at: Standing, sort: Option<Sort>) -> Standing {
    match sort {
        Some(Sort::Module) => Standing {
            body: Some(at.begun),
            begun: at.begun.saturating_add(1),
        },
        Some(Sort::End) => Standing {
            body: None,
            begun: at.begun,
        },
        _ => at,
    }
}

/// The line in which something is declared.
pub fn line_of(text: &[u8], place: TextPlace) -> Option<SourceLine<'_>> {
    let mut rest = text;
    let mut number: usize = 0;
    let mut left = place.number;
    let mut at = Standing {
        body: None,
        begun: 0,
    };
    while let Some((line, after)) = next_line(rest) {
        number = number.saturating_add(1);
        let sort = declared(line);
        if sort == Some(place.sort) && at.body == place.body {
            if left == 0 {
                return Some(SourceLine {
                    number,
                    bytes: line,
                });
            }
            left -= 1;
        }
        at = behind(at, sort);
        rest = after;
    }
    None
}

/// Whether the words of a line are those of the version line of version 2.
fn names_second(line: &[u8]) -> bool {
    if line.len() > MAX_TEXT_LINE || !is_plain(line) {
        return false;
    }
    let mut words = Words::of(line);
    words.skip(b"streams") && words.skip(b"2") && words.is_empty()
}

/// Whether a text is one of version 2: by its first line that says something.
pub fn is_second(text: &[u8]) -> bool {
    let mut rest = text;
    while let Some((line, after)) = next_line(rest) {
        if !is_passed_over(line) {
            return names_second(line);
        }
        rest = after;
    }
    false
}

/// The line of that number.
pub fn line_numbered(text: &[u8], number: u32) -> Option<SourceLine<'_>> {
    let mut rest = text;
    let mut at: usize = 0;
    while let Some((line, after)) = next_line(rest) {
        at = at.saturating_add(1);
        if at == number as usize {
            return Some(SourceLine {
                number: at,
                bytes: line,
            });
        }
        rest = after;
    }
    None
}

/// The first line of the module that is open where the line of that number begins; none if no module is open there, or if there
/// is no line of that number and each module has its end.
pub(crate) fn open_before(text: &[u8], number: usize) -> Option<SourceLine<'_>> {
    let mut rest = text;
    let mut at: usize = 0;
    let mut open: Option<SourceLine<'_>> = None;
    while let Some((line, after)) = next_line(rest) {
        at = at.saturating_add(1);
        if at == number {
            return open;
        }
        open = match declared(line) {
            Some(Sort::Module) => Some(SourceLine {
                number: at,
                bytes: line,
            }),
            Some(Sort::End) => None,
            _ => open,
        };
        rest = after;
    }
    open
}
