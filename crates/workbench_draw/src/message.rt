// What is said of a fault: the line that a report has of it, its line in the text, what it means and what to do.
ghost use Rattle.std.specs.Prelude.{◌≡◌, ◌++◌, IfOk, OnOk, codes};
ghost use Rattle.std.specs.Fmt.{decimal};
ghost use Rattle.elem_core.specs.Prefix.{IsPrefix};
ghost use Rattle.workbench_draw.specs.Message.{report_line, BeginsWithReport};

use crate::hints::{
    put_default_again, put_endless, put_foreign, put_later, put_misplaced, put_path,
};
use crate::judge::Unready;
use crate::lacks::put_lacking;
use crate::modules::broken_at;
use crate::origins::{TextPlace, origin};
use crate::place::{FaultPlace, Sort, place_of};
use crate::sayings::{Saying, of_missing, of_rule, of_text};
use crate::source::{SourceLine, is_second, line_numbered, line_of};
use crate::walk::put_misfit;
use blue_check::check::CheckEnd;
use blue_check::detail::put_detail;
use blue_check::fault::CheckFault;
use blue_check::flatten::flatten;
use blue_lang::parse::parse;
use blue_modules::counts::{Counted, book_of};
use blue_modules::text::BlueText;
use blue_words::fault::{BlueFault, BlueKind, kind_number};
use elem_core::line::Line;
use elem_core::why::NoMemory;
use itoa::Buffer;
use std::alloc::Global;
use stream_model::blueprint::Blueprint;

/// How many bytes of a line are shown.
const SHOWN: usize = 200;

/// Appends a number in decimal.
pub fn put_number(out: &mut Vec<u8>, n: u64) -> Result<(), NoMemory>
    ensures { OnOk result (out.new.items ≡ out.old.items ++ decimal n) }
{
    let mut buffer = Buffer::new();
    out.extend_from_slice(buffer.format(n).as_bytes())
}

/// Appends bytes as they can be shown: other bytes than those of words and spaces as `?`, and at most so many.
pub fn put_shown(out: &mut Vec<u8>, bytes: &[u8]) -> Result<(), NoMemory> {
    for i in 0..bytes.len().min(SHOWN) {
        let byte = bytes[i];
        out.push(if matches!(byte, b' '..=b'~') {
            byte
        } else {
            b'?'
        })?;
    }
    if bytes.len() > SHOWN {
        out.extend_from_slice(b"..")?;
    }
    Ok(())
}

/// Appends a line of the text behind its number.
pub fn put_source_line(out: &mut Vec<u8>, line: &SourceLine<'_>) -> Result<(), NoMemory> {
    out.extend_from_slice(b"line ")?;
    put_number(out, line.number as u64)?;
    out.extend_from_slice(b": ")?;
    put_shown(out, line.bytes)
}

/// The line that a report has of a fault of a text.
fn refused_line(alloc: Global, fault: BlueFault) -> Result<Vec<u8>, NoMemory>
    ensures { IfOk result (λ line. line.items ≡ report_line (Unready.Refused fault)) }
{
    let mut out = Vec::new(alloc);
    out.extend_from_slice(b"refused line ")?;
    put_number(&mut out, u64::from(fault.line))?;
    out.extend_from_slice(b" fault ")?;
    put_number(&mut out, u64::from(kind_number(fault.kind)))?;
    out.extend_from_slice(b"\n")?;
    Ok(out)
}

/// The line that a report has of a rule that is broken.
fn unfit_line(alloc: Global, fault: &CheckFault) -> Result<Vec<u8>, NoMemory>
    ensures { IfOk result (λ line. line.items ≡ report_line (Unready.Unfit fault.now)) }
{
    let mut out = Vec::new(alloc);
    out.extend_from_slice(b"unfit ")?;
    put_number(&mut out, u64::from(fault.number()))?;
    put_detail(&mut out, fault)?;
    out.extend_from_slice(b"\n")?;
    Ok(out)
}

/// Appends what a fault means and what to do.
fn put_words(out: &mut Vec<u8>, saying: Saying) -> Result<(), NoMemory> {
    out.extend_from_slice(saying.means)?;
    out.push(b'\n')?;
    out.extend_from_slice(saying.advice)?;
    out.push(b'\n')?;
    Ok(())
}

/// What is said of a rule behind the line of the report.
fn words_of_rule(
    alloc: Global,
    text: &[u8],
    file: &Line,
    fault: &CheckFault,
) -> Result<Vec<u8>, NoMemory> {
    let mut out = Vec::new(alloc);
    let mut saying = of_rule(fault);
    if let Ok(said) = parse(alloc, text) {
        match flatten(alloc, &said) {
            Ok(b) => {
                if let Some(place) = place_of(&b, file, fault) {
                    put_declared(alloc, &mut out, text, &said, &b, place)?;
                    put_detail_of(alloc, &mut out, text, &said, &b, fault)?;
                    saying = saying_at(&b, place, fault, saying);
                }
            }
            Err(CheckEnd::Fault(_same)) => {
                put_line_of(&mut out, text, broken_at(&said, fault))?;
            }
            Err(CheckEnd::NoMemory) => {}
        }
    }
    put_words(&mut out, saying)?;
    Ok(out)
}

/// Appends what a rule's words can't say of every place: which ports a node has.
fn put_detail_of(
    alloc: Global,
    out: &mut Vec<u8>,
    text: &[u8],
    said: &BlueText,
    b: &Blueprint,
    fault: &CheckFault,
) -> Result<(), NoMemory> {
    match fault {
        CheckFault::NoSuchPort(i) => put_lacking(alloc, out, text, said, b, *i as usize),
        _ => Ok(()),
    }
}

/// What a fault means at its place: of an unknown name also what it was to name.
fn saying_at(b: &Blueprint, place: FaultPlace, fault: &CheckFault, general: Saying) -> Saying {
    match (fault, place.sort) {
        (CheckFault::NoSuchName(_), Sort::Node) => match b.nodes.get(place.number) {
            Some(node) => of_missing(&node.kind),
            None => general,
        },
        _ => general,
    }
}

/// Appends the line in which a part of a blueprint is declared, in parentheses, if it has one.
pub(crate) fn put_part_line(
    alloc: Global,
    out: &mut Vec<u8>,
    text: &[u8],
    said: &BlueText,
    place: FaultPlace,
) -> Result<(), NoMemory> {
    let book = book_of(alloc, &said.modules)?;
    let Some(declared) = declared_at(&book, said, place) else {
        return Ok(());
    };
    if let Some(line) = line_of(text, declared) {
        out.extend_from_slice(b" (")?;
        put_source_line(out, &line)?;
        out.push(b')')?;
    }
    Ok(())
}

/// Appends the line of a declaration, where it has one.
fn put_line_of(out: &mut Vec<u8>, text: &[u8], place: Option<TextPlace>) -> Result<(), NoMemory> {
    let Some(place) = place else {
        return Ok(());
    };
    let Some(line) = line_of(text, place) else {
        return Ok(());
    };
    put_source_line(out, &line)?;
    out.push(b'\n')?;
    Ok(())
}

/// Appends the line in which a part of a blueprint is declared, and the part by its flattened name, where the line stands in a module.
fn put_declared(
    alloc: Global,
    out: &mut Vec<u8>,
    text: &[u8],
    said: &BlueText,
    b: &Blueprint,
    place: FaultPlace,
) -> Result<(), NoMemory> {
    let book = book_of(alloc, &said.modules)?;
    let Some(declared) = declared_at(&book, said, place) else {
        return Ok(());
    };
    let Some(line) = line_of(text, declared) else {
        return Ok(());
    };
    put_source_line(out, &line)?;
    if declared.body.is_some() {
        put_instance(out, b, place)?;
    }
    out.push(b'\n')?;
    Ok(())
}

/// Where a part of the blueprint of a text is declared.
pub fn declared_at(book: &[Counted<'_>], said: &BlueText, place: FaultPlace) -> Option<TextPlace> {
    match place.sort {
        Sort::Node | Sort::Wire => origin(book, None, &said.body, place),
        _ => Some(TextPlace {
            body: None,
            sort: place.sort,
            number: place.number,
        }),
    }
}

/// Appends which part of the blueprint it is.
fn put_instance(out: &mut Vec<u8>, b: &Blueprint, place: FaultPlace) -> Result<(), NoMemory> {
    out.extend_from_slice(b" (as ")?;
    match place.sort {
        Sort::Node => {
            if let Some(node) = b.nodes.get(place.number) {
                out.extend_from_slice(node.name.bytes())?;
            }
        }
        _ => {
            if let Some(wire) = b.wires.get(place.number) {
                out.extend_from_slice(wire.from.bytes())?;
                out.extend_from_slice(b" -> ")?;
                out.extend_from_slice(wire.to.bytes())?;
            }
        }
    }
    out.push(b')')?;
    Ok(())
}

/// Appends what is wrong in a line that is no declaration, or may not be where it is: at which word no form was left, and the
/// commonest mistakes. Nothing if each word fits.
fn put_bad_line(
    alloc: Global,
    out: &mut Vec<u8>,
    text: &[u8],
    line: &SourceLine<'_>,
) -> Result<(), NoMemory> {
    let second = is_second(text);
    if second && put_misplaced(out, text, line)? {
        return Ok(());
    }
    let before = out.len();
    put_misfit(alloc, out, line.bytes, second, false)?;
    if out.len() == before {
        return put_default_again(out, line.bytes);
    }
    if !second {
        put_later(out, line.bytes)?;
    }
    put_foreign(out, line.bytes)
}

/// Appends at which word of a line a name, a file or a number is none.
fn put_bad_place(
    alloc: Global,
    out: &mut Vec<u8>,
    text: &[u8],
    line: &SourceLine<'_>,
    kind: BlueKind,
) -> Result<(), NoMemory> {
    put_misfit(alloc, out, line.bytes, is_second(text), true)?;
    match kind {
        BlueKind::BadName => put_path(out, line.bytes),
        _ => Ok(()),
    }
}

/// Appends what is said of a fault at a line: the line, what is wrong in it, and in general words what that does not say.
fn put_fault_at(
    alloc: Global,
    out: &mut Vec<u8>,
    text: &[u8],
    line: &SourceLine<'_>,
    kind: BlueKind,
) -> Result<(), NoMemory> {
    put_source_line(out, line)?;
    out.push(b'\n')?;
    let before = out.len();
    let is_line = matches!(kind, BlueKind::BadLine);
    if is_line {
        put_bad_line(alloc, out, text, line)?;
    } else if matches!(kind, BlueKind::BadName | BlueKind::BadNumber) {
        put_bad_place(alloc, out, text, line, kind)?;
    }
    let saying = of_text(kind);
    if out.len() == before {
        put_words(out, saying)
    } else if is_line {
        Ok(())
    } else {
        out.extend_from_slice(saying.advice)?;
        out.extend_from_slice(b"\n")
    }
}

/// Appends what is said of a fault of a whole text.
fn put_fault_of(out: &mut Vec<u8>, text: &[u8], kind: BlueKind) -> Result<(), NoMemory> {
    let before = out.len();
    if matches!(kind, BlueKind::BadLine) {
        put_endless(out, text)?;
    }
    if out.len() == before {
        put_words(out, of_text(kind))
    } else {
        Ok(())
    }
}

// Choice: docs/DECISIONS.md#words-that-help-first
/// What is said of a fault of a text behind the line of the report.
fn words_of_text(alloc: Global, text: &[u8], fault: BlueFault) -> Result<Vec<u8>, NoMemory> {
    let mut out = Vec::new(alloc);
    match line_numbered(text, fault.line) {
        Some(line) => put_fault_at(alloc, &mut out, text, &line, fault.kind)?,
        None => put_fault_of(&mut out, text, fault.kind)?,
    }
    Ok(out)
}

/// Two texts, one behind the other.
fn joined(mut first: Vec<u8>, second: &[u8]) -> Result<Vec<u8>, NoMemory>
    ensures { IfOk result (λ all. IsPrefix first.items all.items) }
{
    first.extend_from_slice(second)?;
    Ok(first)
}

// Choice: docs/DECISIONS.md#report-line-first
/// What is said of a text of that name's file that has a fault or breaks a rule: the line that a report has of it, the line of the
/// text at which it is, what it means and what to do.
pub fn message_of(
    alloc: Global,
    text: &[u8],
    file: &Line,
    why: &Unready,
) -> Result<Vec<u8>, NoMemory>
    ensures { IfOk result (λ message. BeginsWithReport why.now message.items) }
{
    match why {
        Unready::Refused(fault) => {
            let words = words_of_text(alloc, text, *fault)?;
            joined(refused_line(alloc, *fault)?, &words)
        }
        Unready::Unfit(fault) => {
            let words = words_of_rule(alloc, text, file, fault)?;
            joined(unfit_line(alloc, fault)?, &words)
        }
        Unready::NoMemory => Vec::from_slice(alloc, b"no memory\n"),
    }
}
