// The canonical text of a text with its comments, each before the declaration that it was before.
ghost use Rattle.std.specs.Prelude.{◌≡◌, IfOk, IfSome, true};
ghost use Rattle.std.specs.Char.{is_ascii_graphic};
ghost use Rattle.std.specs.List.{list_any};
ghost use Rattle.blue_lang.specs.Canonical.{canonical};
ghost use Rattle.blue_lang.specs.Texts.{Says};
ghost use Rattle.blue_modules.specs.Text.{plain_text};
ghost use Rattle.workbench_top.specs.Comments.{is_note, has_notes, uncommented, IsCommented};

use blue_lang::parse::{ParseEnd, parse};
use blue_lang::print::print;
use blue_modules::limit::MAX_MODULES;
use blue_modules::text::BlueText;
use blue_words::lines::{is_passed_over, next_line};
use blue_words::words::is_word;
use elem_core::why::NoMemory;
use std::alloc::{AllocError, Global};
use stream_model::limit::MAX_TEXT;
use workbench_draw::source::first_word;

/// Where the lines of the text's own body come in the canonical text: behind those of all modules.
const OWN: usize = 4 + 4 * MAX_MODULES;

/// A line that says something, with the comments before it.
#[derive(Clone, Copy)]
struct Row {
    /// Where it comes in the canonical text: behind the lines of lesser numbers.
    place: usize,
    /// The first of its comments.
    first: usize,
    /// The number of comments up to it.
    last: usize,
}

/// The comments of a text, and its lines that say something.
#[derive(Drop)]
struct Rows<'a> {
    comments: Vec<&'a [u8]>,
    rows: Vec<Row>,
}

/// Where a line is: in which module, if in one, and how many modules have begun.
#[derive(Clone, Copy)]
struct Standing {
    open: Option<usize>,
    begun: usize,
}

/// Whether a line is a comment: it is passed over, though it has a visible byte.
fn is_note(line: &[u8]) -> bool
    ensures { result ≡ is_note line.now }
{
    is_passed_over(line) && has_visible(line)
}

fn has_visible(line: &[u8]) -> bool
    ensures { result ≡ list_any is_ascii_graphic line.now }
{
    line.iter().any(|byte| byte.is_ascii_graphic())
}

/// Whether a line of the text is a comment.
pub(crate) fn has_notes(text: &[u8]) -> bool
    ensures { result ≡ has_notes text.now }
{
    let mut rest = text;
    while let Some((line, after)) = next_line(rest) {
        if is_note(line) {
            return true;
        }
        rest = after;
    }
    false
}

/// The text without its comments and its empty lines.
fn uncommented(alloc: Global, text: &[u8]) -> Result<Vec<u8>, NoMemory>
    ensures { IfOk result (λ left. left.items ≡ uncommented text.now) }
{
    let mut out = Vec::new(alloc);
    let mut rest = text;
    while let Some((line, after)) = next_line(rest) {
        if !is_passed_over(line) {
            out.extend_from_slice(line)?;
            out.push(b'\n')?;
        }
        rest = after;
    }
    Ok(out)
}

/// The place of a line of a module's body, behind its first line.
fn place_inside(module: usize, word: &[u8]) -> usize {
    let place = if is_word(word, b"in") || is_word(word, b"out") {
        5
    } else if is_word(word, b"end") {
        7
    } else {
        6
    };
    module.saturating_mul(4).saturating_add(place)
}

/// The place of a line that begins with this word, outside of modules.
fn place_outside(begun: usize, word: &[u8]) -> usize {
    if is_word(word, b"streams") {
        0
    } else if is_word(word, b"default") {
        1
    } else if is_word(word, b"switch") {
        2
    } else if is_word(word, b"chain") {
        3
    } else if is_word(word, b"module") {
        begun.saturating_mul(4).saturating_add(4)
    } else {
        OWN
    }
}

/// The place of a line that begins with this word, and where the next line is.
fn place_of(at: Standing, word: &[u8]) -> (usize, Standing) {
    let Standing { open, begun } = at;
    match open {
        Some(module) => {
            let open = if is_word(word, b"end") { None } else { open };
            (place_inside(module, word), Standing { open, begun })
        }
        None if is_word(word, b"module") => {
            let next = Standing {
                open: Some(begun),
                begun: begun.saturating_add(1),
            };
            (place_outside(begun, word), next)
        }
        None => (place_outside(begun, word), at),
    }
}

/// The comments of a text, and its lines that say something, in their order.
fn rows_of(alloc: Global, text: &[u8]) -> Result<Rows<'_>, NoMemory> {
    let mut comments = Vec::new(alloc);
    let mut rows = Vec::new(alloc);
    let mut first: usize = 0;
    let mut at = Standing {
        open: None,
        begun: 0,
    };
    for line in text.split(|byte| *byte == b'\n') {
        if is_note(line) {
            comments.push(line)?;
        } else if let Some(word) = first_word(line) {
            let (place, next) = place_of(at, word);
            let last = comments.len();
            rows.push(Row { place, first, last })?;
            first = last;
            at = next;
        }
    }
    Ok(Rows { comments, rows })
}

/// Appends a line.
fn put_line(out: &mut Vec<u8>, line: &[u8]) -> Result<(), NoMemory> {
    out.extend_from_slice(line)?;
    out.extend_from_slice(b"\n")
}

/// Appends the comments of these numbers.
fn put_comments(
    out: &mut Vec<u8>,
    comments: &[&[u8]],
    first: usize,
    last: usize,
) -> Result<(), NoMemory> {
    for i in first..last {
        if let Some(comment) = comments.get(i) {
            put_line(out, comment)?;
        }
    }
    Ok(())
}

/// The lines of a text.
fn lines_of(alloc: Global, text: &[u8]) -> Result<Vec<&[u8]>, NoMemory> {
    let mut lines = Vec::new(alloc);
    let mut rest = text;
    while let Some((line, after)) = next_line(rest) {
        lines.push(line)?;
        rest = after;
    }
    Ok(lines)
}

/// Appends the lines of that place, each behind its comments; `next` is the number of the next canonical line.
fn put_place(
    out: &mut Vec<u8>,
    rows: &Rows<'_>,
    canonical: &[&[u8]],
    place: usize,
    next: usize,
) -> Result<usize, NoMemory> {
    let mut at = next;
    for row in rows.rows.iter() {
        if row.place == place {
            put_comments(out, &rows.comments, row.first, row.last)?;
            if let Some(line) = canonical.get(at) {
                put_line(out, line)?;
            }
            at = at.saturating_add(1);
        }
    }
    Ok(at)
}

/// The canonical text with the comments of the text: each before the line of the declaration that it was before, and those behind
/// the last declaration at the end.
fn merged(alloc: Global, text: &[u8], canonical: &[u8]) -> Result<Vec<u8>, NoMemory> {
    let rows = rows_of(alloc, text)?;
    let lines = lines_of(alloc, canonical)?;
    let mut out = Vec::new(alloc);
    let mut next: usize = 0;
    for place in 0..=OWN {
        next = put_place(&mut out, &rows, &lines, place, next)?;
    }
    let shown = match rows.rows.last() {
        Some(row) => row.last,
        None => 0,
    };
    put_comments(&mut out, &rows.comments, shown, rows.comments.len())?;
    Ok(out)
}

/// Whether two texts are the same.
#[tactic(auto, using(crate::proofs::Commenting::same_bytes))]
fn is_same(first: &[u8], second: &[u8]) -> bool
    ensures { result ≡ true → first.now ≡ second.now }
{
    first == second
}

/// Whether what a text says has that canonical text.
fn prints_as(alloc: Global, again: &BlueText, wanted: &[u8]) -> Result<bool, NoMemory>
    ensures { IfOk result (λ is. is ≡ true → canonical (plain_text again.now) ≡ wanted.now) }
{
    let printed = print(alloc, again)?;
    Ok(is_same(&printed, wanted))
}

/// Whether a text says what is meant, whose canonical text is given.
fn says_same(
    alloc: Global,
    text: &[u8],
    said: &[u8],
    meant: &BlueText,
    wanted: &[u8],
) -> Result<bool, NoMemory>
    requires says { Says text.now (plain_text meant.now) }
    requires canonical { wanted.now ≡ canonical (plain_text meant.now) }
    ensures { IfOk result (λ is. is ≡ true → Says said.now (plain_text meant.now)) }
{
    if wanted.len() > MAX_TEXT {
        return Ok(false);
    }
    match parse(alloc, said) {
        Ok(again) => {
            let is = prints_as(alloc, &again, wanted)?;
            Ok(is)
        }
        Err(ParseEnd::Fault(_)) => Ok(false),
        Err(ParseEnd::NoMemory) => Err(AllocError),
    }
}

// Choice: docs/DECISIONS.md#comments-are-checked
/// The canonical text with the comments of the text: each before the declaration that it was before. None if that is longer than a text may
/// be: then it can't be read again.
pub(crate) fn commented(
    alloc: Global,
    text: &[u8],
    meant: &BlueText,
    wanted: &[u8],
) -> Result<Option<Vec<u8>>, NoMemory>
    requires says { Says text.now (plain_text meant.now) }
    requires canonical { wanted.now ≡ canonical (plain_text meant.now) }
    ensures { IfOk result (λ said. IfSome said (λ said. IsCommented (plain_text meant.now) said.items)) }
{
    let said = merged(alloc, text, wanted)?;
    let left = uncommented(alloc, &said)?;
    if is_same(&left, wanted) && says_same(alloc, text, &said, meant, wanted)? {
        Ok(Some(said))
    } else {
        Ok(None)
    }
}
