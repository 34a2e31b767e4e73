// The blueprint of a row of stages.
ghost use Rattle.std.specs.Prelude.{◌≡◌, ◌+◌, ◌++◌, IfOk, OnOk};
ghost use Rattle.blue_lang.specs.Texts.{Says};
ghost use Rattle.blue_modules.specs.Text.{plain_text};
ghost use Rattle.workbench_top.specs.Rows.{SaysRow, PrintsRow, row_parts, place_name, stage_line, row_wire_line, stage_between, sink_lines, later_lines, row_text};

use crate::answer::Answer;
use crate::texts::refused;
use blue_lang::parse::{ParseEnd, parse};
use blue_lang::print::print;
use blue_modules::text::BlueText;
use blue_words::lines::cut_at;
use elem_core::why::NoMemory;
use std::alloc::{AllocError, Global};
use stream_model::limit::MAX_TEXT;
use workbench_draw::message::put_number;

/// Appends the name of a place of a row: `in` for the source, and for each stage its number.
fn put_place(out: &mut Vec<u8>, place: u64) -> Result<(), NoMemory>
    ensures { OnOk result (out.new.items ≡ out.old.items ++ place_name place) }
{
    if place == 0 {
        return out.extend_from_slice(b"in");
    }
    out.push(b's')?;
    put_number(out, place)
}

/// Appends the line of the stage of a place.
fn put_stage_line(out: &mut Vec<u8>, place: u64, part: &[u8]) -> Result<(), NoMemory>
    ensures { OnOk result (out.new.items ≡ out.old.items ++ stage_line place part.now) }
{
    out.extend_from_slice(b"stage ")?;
    put_place(out, place)?;
    out.push(b' ')?;
    out.extend_from_slice(part)?;
    out.extend_from_slice(b"\n")
}

/// Appends the line of the wire between two places.
fn put_wire_line(out: &mut Vec<u8>, before: u64, place: u64) -> Result<(), NoMemory>
    ensures { OnOk result (out.new.items ≡ out.old.items ++ row_wire_line before place) }
{
    out.extend_from_slice(b"wire ")?;
    put_place(out, before)?;
    out.extend_from_slice(b".0 -> ")?;
    put_place(out, place)?;
    out.extend_from_slice(b".0\n")
}

/// Appends the lines of the stage of a place, and of the wire to it from the place before it.
fn put_stage(out: &mut Vec<u8>, before: u64, place: u64, part: &[u8]) -> Result<(), NoMemory>
    ensures { OnOk result (out.new.items ≡ out.old.items ++ stage_between before place part.now) }
{
    put_stage_line(out, place, part)?;
    put_wire_line(out, before, place)
}

/// Appends the lines of the sink behind a place, and of the wire to it.
fn put_sink(out: &mut Vec<u8>, place: u64, part: &[u8]) -> Result<(), NoMemory>
    ensures { OnOk result (out.new.items ≡ out.old.items ++ sink_lines place part.now) }
{
    out.extend_from_slice(b"sink out ")?;
    out.extend_from_slice(part)?;
    out.extend_from_slice(b"\nwire ")?;
    put_place(out, place)?;
    out.extend_from_slice(b".0 -> out.0\n")
}

/// Appends the lines of the stages and of the sink.
#[tactic(auto, using(crate::proofs::Parting::later_last))]
fn put_later(out: &mut Vec<u8>, parts: &[u8]) -> Result<(), NoMemory>
    ensures { OnOk result (out.new.items ≡ out.old.items ++ later_lines 0 (row_parts parts.now)) }
{
    let mut place: u64 = 0;
    let mut rest = parts;
    while let Some((part, after)) = cut_at(rest, b'|') {
        let Some(next) = place.checked_add(1) else {
            return Err(AllocError);
        };
        put_stage(out, place, next, part)?;
        place = next;
        rest = after;
    }
    put_sink(out, place, rest)
}

// Choice: docs/DECISIONS.md#names-in-rows
/// The text of a row: a line for its source, and lines for each stage and the sink with the wires to them.
fn text_of_row(alloc: Global, source: &[u8], parts: &[u8]) -> Result<Vec<u8>, NoMemory>
    ensures { IfOk result (λ text. text.items ≡ row_text source.now parts.now) }
{
    let mut out = Vec::new(alloc);
    out.extend_from_slice(b"streams 1\nsource in ")?;
    out.extend_from_slice(source)?;
    out.push(b'\n')?;
    put_later(&mut out, parts)?;
    Ok(out)
}

/// The answer that says the canonical text of a row's blueprint, which is far shorter than a text may be.
#[tactic(auto, using(crate::proofs::Saying::says_row))]
fn row_said(alloc: Global, text: &[u8], meant: &BlueText) -> Result<Answer, NoMemory>
    requires { Says text.now (plain_text meant.now) }
    ensures { IfOk result (SaysRow text.now) }
{
    let said = print(alloc, meant)?;
    if said.len() > MAX_TEXT {
        return Err(AllocError);
    }
    Ok(Answer::saying(alloc, said))
}

/// The answer to `row`: the blueprint of the row of this source and these stages and sink, or the first fault of its text.
pub fn answer_row(alloc: Global, source: &[u8], parts: &[u8]) -> Answer
    ensures { PrintsRow (row_text source.now parts.now) result }
{
    let Ok(text) = text_of_row(alloc, source, parts) else {
        return Answer::without_memory(alloc);
    };
    match parse(alloc, &text) {
        Ok(meant) => match row_said(alloc, &text, &meant) {
            Ok(answer) => answer,
            Err(_) => Answer::without_memory(alloc),
        },
        Err(ParseEnd::Fault(fault)) => refused(alloc, &text, fault),
        Err(ParseEnd::NoMemory) => Answer::without_memory(alloc),
    }
}
