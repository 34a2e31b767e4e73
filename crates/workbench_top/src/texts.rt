// What is answered to a work on the text of a blueprint's file.
ghost use Rattle.std.specs.Prelude.{◌≡◌, ◌<◌, ◌⊎◌, [], IfOk, IfSome, Some, length};
ghost use Rattle.blue_check.specs.Checked.{checked_blueprint};
ghost use Rattle.workbench_draw.specs.Judging.{IsFitText, IsUnready};
ghost use Rattle.blue_lang.specs.Texts.{Says, text_fault};
ghost use Rattle.blue_modules.specs.Text.{plain_text};
ghost use Rattle.blue_check.specs.Meaning.{Denotes};
ghost use Rattle.workbench_draw.specs.Message.{BeginsWithReport};
ghost use Rattle.workbench_top.specs.Answer.{IsBlame, Blames, Checks, RefusesText, SaysCanonical, Formats, DrawsFit, DrawsUnfit, DrawsAnswer, TellsNoReport, RefusesReport, Counts};

use crate::answer::{Answer, Ending};
use crate::comments::{commented, has_notes};
use crate::explain::explain;
use crate::marks::marks_of;
use blue_check::checked::Checked;
use blue_check::fault::CheckFault;
use blue_lang::parse::{ParseEnd, parse};
use blue_lang::print::print;
use blue_modules::text::BlueText;
use blue_words::fault::BlueFault;
use blue_words::lines::next_line;
use elem_core::line::Line;
use elem_core::why::NoMemory;
use itoa::Buffer;
use std::alloc::Global;
use stream_model::blueprint::Blueprint;
use workbench_draw::draw::{draw, draw_unfit};
use workbench_draw::judge::{Unready, blueprint_of, judge_text};
use workbench_draw::marks::RunMarks;
use workbench_draw::message::message_of;
use workbench_draw::turns::{TurnsEnd, count_units};
use workbench_draw::ways::warnings_of;

/// The answer that tells of a fault of a text.
fn faulty(alloc: Global, text: &[u8], file: &Line, why: &Unready) -> Answer
    ensures { IsBlame why.now result }
{
    if matches!(why, Unready::NoMemory) {
        return Answer::without_memory(alloc);
    }
    match message_of(alloc, text, file, why) {
        Ok(message) => Answer::telling(alloc, Ending::Faulty, message),
        Err(_) => Answer::without_memory(alloc),
    }
}

/// The answer that tells the first fault of a text that stands in no file.
pub(crate) fn refused(alloc: Global, text: &[u8], fault: BlueFault) -> Answer
    requires { text_fault text.now ≡ Some fault }
    ensures { RefusesText text.now result ⊎ (result.ending ≡ Ending.NoMemory) }
{
    let no_file = Line::of(Vec::new(alloc));
    faulty(alloc, text, &no_file, &Unready::Refused(fault))
}

/// The same where it is the fault of the text.
pub(crate) fn blaming(alloc: Global, text: &[u8], file: &Line, why: &Unready) -> Answer
    requires { IsUnready text.now file.now why.now }
    ensures { Blames text.now file.now result }
{
    faulty(alloc, text, file, why)
}

/// The answer to `check` of a checked blueprint: warnings, or nothing.
fn passed(alloc: Global, text: &[u8], file: &Line, c: &Checked) -> Answer
    requires { IsFitText text.now file.now (checked_blueprint c.now) }
    ensures { Checks text.now file.now result }
{
    match warnings_of(alloc, text, c) {
        Ok(told) => Answer::telling(alloc, Ending::Done, told),
        Err(_) => blaming(alloc, text, file, &Unready::NoMemory),
    }
}

/// The answer to `check`: nothing or warnings, or the first fault.
pub fn check_text(alloc: Global, text: &[u8], file: &Line) -> Answer
    ensures { Checks text.now file.now result }
{
    match judge_text(alloc, text, file) {
        Ok(c) => passed(alloc, text, file, &c),
        Err(why) => blaming(alloc, text, file, &why),
    }
}

/// The answer that says the canonical text of what a text says, with the comments of the text.
fn formatted(alloc: Global, text: &[u8], meant: &BlueText) -> Result<Answer, NoMemory>
    requires { Says text.now (plain_text meant.now) }
    ensures { IfOk result (SaysCanonical text.now) }
{
    let canonical = print(alloc, meant)?;
    if !has_notes(text) {
        return Ok(Answer::saying(alloc, canonical));
    }
    match commented(alloc, text, meant, &canonical)? {
        Some(said) => Ok(Answer::saying(alloc, said)),
        None => Ok(Answer {
            ending: Ending::Done,
            said: canonical,
            told: Vec::from_slice(
                alloc,
                b"the comments are lost: with them the text is too long\n",
            )?,
        }),
    }
}

/// The answer to `fmt`: the canonical text with the comments of the text, or the first fault of the text.
pub fn format_text(alloc: Global, text: &[u8], file: &Line) -> Answer
    ensures { Formats text.now result }
{
    match parse(alloc, text) {
        Ok(meant) => match formatted(alloc, text, &meant) {
            Ok(answer) => answer,
            Err(_) => Answer::without_memory(alloc),
        },
        Err(ParseEnd::Fault(fault)) => faulty(alloc, text, file, &Unready::Refused(fault)),
        Err(ParseEnd::NoMemory) => Answer::without_memory(alloc),
    }
}

/// What a report says of a fault, without LF.
fn first_line(message: &[u8]) -> &[u8] {
    match next_line(message) {
        Some((line, _)) => line,
        None => message,
    }
}

/// What is told of a report that is none of a blueprint.
fn no_report(alloc: Global) -> Result<Answer, NoMemory>
    ensures { IfOk result TellsNoReport }
{
    let told = Vec::from_slice(alloc, b"this is no report of this blueprint\n")?;
    Ok(Answer::telling(alloc, Ending::Faulty, told))
}

/// The answer that says the drawing of a checked blueprint, with what a report says of its run.
fn drawn_fit(
    alloc: Global,
    text: &[u8],
    file: &Line,
    c: &Checked,
    marks: Option<&RunMarks>,
) -> Result<Answer, NoMemory>
    requires { IsFitText text.now file.now (checked_blueprint c.now) }
    ensures { IfOk result (DrawsFit text.now file.now) }
{
    let said = draw(alloc, c, marks)?;
    Ok(Answer::saying(alloc, said))
}

/// The answer that says the drawing of a checked blueprint with what a report says of its run, or that the report is none of it.
fn drawn_run(
    alloc: Global,
    text: &[u8],
    file: &Line,
    report: &[u8],
    c: &Checked,
) -> Result<Answer, NoMemory>
    requires fit { IsFitText text.now file.now (checked_blueprint c.now) }
    requires given { 0 < length report.now }
    ensures { IfOk result (λ answer. DrawsAnswer text.now file.now answer ⊎ RefusesReport report.now answer) }
{
    if explain(alloc, text, file, report)?.is_none() {
        let answer = no_report(alloc)?;
        return Ok(answer);
    }
    let marks = marks_of(alloc, c.blueprint(), report)?;
    let answer = drawn_fit(alloc, text, file, c, Some(&marks))?;
    Ok(answer)
}

/// The same where the report may be empty, which is none.
fn drawn_checked(
    alloc: Global,
    text: &[u8],
    file: &Line,
    report: &[u8],
    c: &Checked,
) -> Result<Answer, NoMemory>
    requires { IsFitText text.now file.now (checked_blueprint c.now) }
    ensures { IfOk result (λ answer. DrawsAnswer text.now file.now answer ⊎ RefusesReport report.now answer) }
{
    if report.is_empty() {
        let answer = drawn_fit(alloc, text, file, c, None)?;
        Ok(answer)
    } else {
        drawn_run(alloc, text, file, report, c)
    }
}

/// The answer that says the drawing of a blueprint that breaks a rule, which is told.
fn drawn_unfit(
    alloc: Global,
    text: &[u8],
    file: &Line,
    fault: &CheckFault,
    told: Vec<u8>,
    b: &Blueprint,
) -> Result<Answer, NoMemory>
    requires says { Denotes (Says text.now) b.now }
    requires is { IsUnready text.now file.now (Unready.Unfit fault.now) }
    requires told { BeginsWithReport (Unready.Unfit fault.now) told.items }
    ensures { IfOk result (DrawsUnfit text.now file.now) }
{
    let said = draw_unfit(alloc, b, file, fault, first_line(&told))?;
    Ok(Answer {
        ending: Ending::Faulty,
        said,
        told,
    })
}

/// The same, where the text is read again; none where it has no blueprint.
fn drawn_again(
    alloc: Global,
    text: &[u8],
    file: &Line,
    why: &Unready,
) -> Result<Option<Answer>, NoMemory>
    requires { IsUnready text.now file.now why.now }
    ensures { IfOk result (λ answer. IfSome answer (DrawsUnfit text.now file.now)) }
{
    let Unready::Unfit(fault) = why else {
        return Ok(None);
    };
    let told = message_of(alloc, text, file, why)?;
    match blueprint_of(alloc, text, file) {
        Ok(b) => Ok(Some(drawn_unfit(alloc, text, file, fault, told, &b)?)),
        Err(_) => Ok(None),
    }
}

/// The answer to `draw`: the graph, with what a report of its run says, or that the report is none of it; an empty report is none. Where
/// the blueprint breaks a rule the graph, in red at its place, and the rule; or the first fault of the text or of its modules.
pub fn draw_text(alloc: Global, text: &[u8], file: &Line, report: &[u8]) -> Answer
    ensures { DrawsAnswer text.now file.now result ⊎ RefusesReport report.now result }
{
    match judge_text(alloc, text, file) {
        Ok(c) => match drawn_checked(alloc, text, file, report, &c) {
            Ok(answer) => answer,
            Err(_) => blaming(alloc, text, file, &Unready::NoMemory),
        },
        Err(why) => match drawn_again(alloc, text, file, &why) {
            Ok(Some(answer)) => answer,
            Ok(None) => blaming(alloc, text, file, &why),
            Err(_) => blaming(alloc, text, file, &Unready::NoMemory),
        },
    }
}

/// The answer to `explain`: the report in words, or that it is none of this text.
pub fn explain_text(alloc: Global, text: &[u8], file: &Line, report: &[u8]) -> Answer {
    match explain(alloc, text, file, report) {
        Ok(Some(said)) => Answer::saying(alloc, said),
        Ok(None) => match no_report(alloc) {
            Ok(answer) => answer,
            Err(_) => Answer::without_memory(alloc),
        },
        Err(_) => Answer::without_memory(alloc),
    }
}

/// What is told where no units are.
fn missed(alloc: Global, end: &TurnsEnd) -> Result<Vec<u8>, NoMemory> {
    let mut told = Vec::new(alloc);
    match end {
        TurnsEnd::Sources(count) => {
            let mut buffer = Buffer::new();
            told.extend_from_slice(b"sources: ")?;
            told.extend_from_slice(buffer.format(*count).as_bytes())?;
            told.extend_from_slice(b"; give one number for each, in their order\n")?;
        }
        _ => told.extend_from_slice(b"the numbers are greater than any run takes\n")?,
    }
    Ok(told)
}

/// The answer where no units are told of a checked blueprint.
fn uncounted(alloc: Global, end: &TurnsEnd) -> Answer
    ensures ending { (result.ending ≡ Ending.Words) ⊎ (result.ending ≡ Ending.NoMemory) }
    ensures said { result.ending ≡ Ending.Words → result.said.items ≡ [] }
{
    if matches!(end, TurnsEnd::NoMemory) {
        return Answer::without_memory(alloc);
    }
    match missed(alloc, end) {
        Ok(told) => Answer::telling(alloc, Ending::Words, told),
        Err(_) => Answer::without_memory(alloc),
    }
}

/// The answer to `turns` of a checked blueprint.
fn counted(alloc: Global, text: &[u8], file: &Line, counts: &[u64], c: &Checked) -> Answer
    requires { IsFitText text.now file.now (checked_blueprint c.now) }
    ensures { Counts text.now file.now counts.now result }
{
    match count_units(alloc, c, counts) {
        Ok(said) => Answer::saying(alloc, said),
        Err(end) => uncounted(alloc, &end),
    }
}

/// The answer to `turns`: the units that suffice, or the first fault.
pub fn count_text(alloc: Global, text: &[u8], file: &Line, counts: &[u64]) -> Answer
    ensures { Counts text.now file.now counts.now result }
{
    match judge_text(alloc, text, file) {
        Ok(c) => counted(alloc, text, file, counts, &c),
        Err(why) => blaming(alloc, text, file, &why),
    }
}
