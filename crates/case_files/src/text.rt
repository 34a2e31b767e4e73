// The lines of a file of cases, and what stands in them.
ghost use Rattle.std.specs.Prelude.{◌<◌, IfOk};

use elem_core::line::Line;
use std::alloc::{AllocError, AllocFailed, Global};

/// Why a line of a case was not taken.
#[derive(Drop)]
pub enum Fault {
    /// The line has not the form.
    Malformed,
    /// Memory was refused.
    NoMemory,
}

impl From<AllocError> for Fault {
    fn from(_: AllocError) -> Fault {
        Fault::NoMemory
    }
}

impl<T: Drop> From<AllocFailed<T>> for Fault {
    fn from(_: AllocFailed<T>) -> Fault {
        Fault::NoMemory
    }
}

/// The part of a text before the first such byte, and the part behind it; None where there is no such byte.
fn cut(text: &[u8], mark: u8) -> Option<(&[u8], &[u8])> {
    for i in 0..text.len() {
        if text[i] == mark {
            return Some((&text[..i], &text[i + 1..]));
        }
    }
    None
}

/// A number in decimal.
pub fn number(word: &[u8]) -> Result<u32, Fault> {
    let Ok(text) = str::from_utf8(word) else {
        return Err(Fault::Malformed);
    };
    match text.parse::<u32>() {
        Ok(number) => Ok(number),
        Err(_) => Err(Fault::Malformed),
    }
}

/// The line of these bytes; bytes that are no line are malformed.
pub fn line_of(alloc: Global, bytes: &[u8]) -> Result<Line, Fault> {
    let copy = Vec::from_slice(alloc, bytes)?;
    if Line::can_hold(&copy) {
        Ok(Line::of(copy))
    } else {
        Err(Fault::Malformed)
    }
}

/// Appends what a line of a part says: its bytes and LF. Where it has escapes, those are taken by their meaning, and a line that ends
/// with `\` has no LF.
pub fn put_line(out: &mut Vec<u8>, line: &[u8], has_escapes: bool) -> Result<(), Fault> {
    if has_escapes {
        return put_escapes(out, line);
    }
    out.extend_from_slice(line)?;
    out.push(b'\n')?;
    Ok(())
}

fn put_escapes(out: &mut Vec<u8>, line: &[u8]) -> Result<(), Fault> {
    let mut rest = line;
    for _ in 0..line.len() {
        rest = match rest {
            [] => break,
            [b'\\'] => return Ok(()),
            [b'\\', b'(', inner @ ..] => put_repeated(out, inner)?,
            [b'\\', escape @ ..] => put_escape(out, escape, 0)?,
            [byte, later @ ..] => {
                out.push(*byte)?;
                later
            }
        };
    }
    out.push(b'\n')?;
    Ok(())
}

/// Appends `TEXT` of `N TEXT)` so many times, and gives what stands behind it.
fn put_repeated<'a>(out: &mut Vec<u8>, inner: &'a [u8]) -> Result<&'a [u8], Fault> {
    let (body, later) = cut(inner, b')').ok_or(Fault::Malformed)?;
    let (count, text) = cut(body, b' ').ok_or(Fault::Malformed)?;
    for index in 0..number(count)? {
        put_text(out, text, index)?;
    }
    Ok(later)
}

/// Appends a text with escapes, where `\#` and `\+` stand for the index and for the next one.
fn put_text(out: &mut Vec<u8>, text: &[u8], index: u32) -> Result<(), Fault> {
    let mut rest = text;
    for _ in 0..text.len() {
        rest = match rest {
            [] => break,
            [b'\\', escape @ ..] => put_escape(out, escape, index)?,
            [byte, later @ ..] => {
                out.push(*byte)?;
                later
            }
        };
    }
    Ok(())
}

/// Appends what the escape behind a `\` means, and gives what stands behind it.
fn put_escape<'a>(out: &mut Vec<u8>, escape: &'a [u8], index: u32) -> Result<&'a [u8], Fault> {
    match escape {
        [b'\\', later @ ..] => {
            out.push(b'\\')?;
            Ok(later)
        }
        [b'x', high, low, later @ ..] => {
            out.push(digit(*high)? * 16 + digit(*low)?)?;
            Ok(later)
        }
        [b'#', later @ ..] => {
            put_number(out, index)?;
            Ok(later)
        }
        [b'+', later @ ..] => {
            put_number(out, index.saturating_add(1))?;
            Ok(later)
        }
        _ => Err(Fault::Malformed),
    }
}

/// The value of a hexadecimal digit in lower case.
fn digit(byte: u8) -> Result<u8, Fault>
    ensures { IfOk result (λ n. n < 16) }
{
    match byte {
        b'0'..=b'9' => Ok(byte - b'0'),
        b'a'..=b'f' => Ok(byte - b'a' + 10),
        _ => Err(Fault::Malformed),
    }
}

/// Appends a number in decimal.
pub fn put_number(out: &mut Vec<u8>, number: u32) -> Result<(), AllocError> {
    let mut digits = itoa::Buffer::new();
    out.extend_from_slice(digits.format(number).as_bytes())?;
    Ok(())
}
