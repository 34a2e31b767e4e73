// What a case comes to.
ghost use Rattle.std.specs.Prelude.{◌<◌};

use blue_check::check::{CheckEnd, check};
use blue_check::detail::put_detail;
use blue_check::flatten::flatten;
use blue_lang::parse::{ParseEnd, parse};
use blue_lang::print::print;
use blue_words::fault::{BlueFault, kind_number};
use case_files::case::{Case, Kind, Wanted, copies};
use case_files::text::{Fault, line_of, put_number};
use elem_core::elem_type::{ElemType, TypeForm};
use std::alloc::Global;
use std::sync::Wait;
use std::thread::Threads;
use stream_command::RunEnd;
use stream_command::shipped_run::run_shipped;
use stream_io::named_file::{NamedFile, bytes_of};
use stream_model::blueprint::Blueprint;
use stream_model::head::PlugHead;
use stream_model::heads::shipped_customs;

/// The code that stands for want of memory.
const NO_MEMORY: u32 = 9;

/// What came of one attempt.
#[derive(Drop)]
pub struct Came {
    pub step: u32,
    /// Whether the folder still tells its files.
    pub tells: bool,
    pub code: u32,
    pub said: Vec<u8>,
    pub files: Vec<NamedFile>,
    pub sent: Vec<u64>,
}

/// What came at the first step at which it is nothing that the case wants; None where there is no such step.
pub fn first_miss<R: Threads + Wait + Sync>(
    rt: &R,
    alloc: Global,
    case: &Case,
) -> Result<Option<Came>, Fault> {
    for step in &case.steps {
        let came = attempt(rt, alloc, case, *step)?;
        if !case
            .wanted
            .iter()
            .any(|wanted| is_wanted(wanted, &came, &case.files))
        {
            return Ok(Some(came));
        }
    }
    Ok(None)
}

/// Whether this is what came: each file that is not named is as before.
fn is_wanted(wanted: &Wanted, came: &Came, before: &[NamedFile]) -> bool {
    came.tells
        && wanted.code == came.code
        && wanted.said.as_slice() == came.said.as_slice()
        && before
            .iter()
            .all(|file| bytes_of(&came.files, &file.name).is_some())
        && wanted
            .files
            .iter()
            .all(|file| bytes_of(&came.files, &file.name).is_some())
        && came
            .files
            .iter()
            .all(|file| is_left(&wanted.files, before, file))
        && wanted
            .most
            .iter()
            .all(|(wire, count)| sent_at_most(&came.sent, *wire, *count))
}

fn is_left(after: &[NamedFile], before: &[NamedFile], file: &NamedFile) -> bool {
    match bytes_of(after, &file.name).or(bytes_of(before, &file.name)) {
        Some(bytes) => bytes == file.bytes.as_slice(),
        None => false,
    }
}

fn sent_at_most(sent: &[u64], wire: u32, count: u32) -> bool {
    match sent.get(wire as usize) {
        Some(sent) => *sent <= u64::from(count),
        None => false,
    }
}

fn attempt<R: Threads + Wait + Sync>(
    rt: &R,
    alloc: Global,
    case: &Case,
    step: u32,
) -> Result<Came, Fault> {
    match case.kind {
        Kind::Call => call(rt, alloc, case, step.max(1)),
        Kind::Print => printed(alloc, &case.text),
        Kind::Check(plugs) => checked(alloc, &case.text, plugs),
    }
}

/// A whole call over a folder and a console in memory.
fn call<R: Threads + Wait + Sync>(
    rt: &R,
    alloc: Global,
    case: &Case,
    step: u32,
) -> Result<Came, Fault>
    requires { 0 < step }
{
    let mut folder = case.folder(alloc, step)?;
    let mut console = case.console(alloc, step)?;
    let end = run_shipped(rt, alloc, &case.words, &mut folder, &mut console);
    Ok(Came {
        step,
        tells: folder.tells(),
        code: u32::from(end.code),
        said: Vec::from_slice(alloc, console.bytes())?,
        files: copies(alloc, folder.files())?,
        sent: sent_of(alloc, &end)?,
    })
}

fn sent_of(alloc: Global, end: &RunEnd) -> Result<Vec<u64>, Fault> {
    let mut sent = Vec::new(alloc);
    for wire in &end.picture.wires {
        sent.push(wire.sent)?;
    }
    Ok(sent)
}

/// What is said where no file is touched.
fn said(alloc: Global, code: u32, said: Vec<u8>) -> Came {
    Came {
        step: 1,
        tells: true,
        code,
        said,
        files: Vec::new(alloc),
        sent: Vec::new(alloc),
    }
}

/// The canonical text of what a text says, or the number and the line of its first fault.
fn printed(alloc: Global, text: &[u8]) -> Result<Came, Fault> {
    match parse(alloc, text) {
        Ok(meant) => Ok(said(alloc, 0, print(alloc, &meant)?)),
        Err(end) => refused(alloc, end),
    }
}

fn refused(alloc: Global, end: ParseEnd) -> Result<Came, Fault> {
    let mut text = Vec::new(alloc);
    match end {
        ParseEnd::NoMemory => Ok(said(alloc, NO_MEMORY, text)),
        ParseEnd::Fault(BlueFault { kind, line }) => {
            text.extend_from_slice(b"line ")?;
            put_number(&mut text, line)?;
            text.push(b'\n')?;
            Ok(said(alloc, u32::from(kind_number(kind)), text))
        }
    }
}

/// The two tests of the blueprint of a text, or the number and the detail of the first rule that it breaks.
fn checked(alloc: Global, text: &[u8], plugs: u32) -> Result<Came, Fault> {
    match parse(alloc, text) {
        Ok(meant) => match flatten(alloc, &meant) {
            Ok(blueprint) => judged(alloc, blueprint, plugs),
            Err(end) => unfit(alloc, end),
        },
        Err(end) => refused(alloc, end),
    }
}

/// The number and the detail of a rule that is broken.
fn unfit(alloc: Global, end: CheckEnd) -> Result<Came, Fault> {
    let mut text = Vec::new(alloc);
    let CheckEnd::Fault(fault) = end else {
        return Ok(said(alloc, NO_MEMORY, text));
    };
    let mut detail = Vec::new(alloc);
    put_detail(&mut detail, &fault)?;
    text.extend_from_slice(detail.strip_prefix(b" ").unwrap_or(&detail))?;
    text.push(b'\n')?;
    Ok(said(alloc, u32::from(fault.number()), text))
}

fn judged(alloc: Global, blueprint: Blueprint, plugs: u32) -> Result<Came, Fault> {
    let heads = dedups(alloc, plugs)?;
    let customs = shipped_customs(alloc)?;
    match check(alloc, blueprint, &heads, &customs, &[]) {
        Ok(checked) => {
            let mut text = Vec::new(alloc);
            let tree: &[u8] = if checked.is_polytree() {
                b"tree "
            } else {
                b"no tree "
            };
            let picks: &[u8] = if checked.needs_picks() {
                b"picks\n"
            } else {
                b"no picks\n"
            };
            text.extend_from_slice(tree)?;
            text.extend_from_slice(picks)?;
            Ok(said(alloc, 0, text))
        }
        Err(end) => unfit(alloc, end),
    }
}

/// So many plugs of one name.
fn dedups(alloc: Global, count: u32) -> Result<Vec<PlugHead>, Fault> {
    let mut heads = Vec::new(alloc);
    for _ in 0..count {
        heads.push(PlugHead {
            name: line_of(alloc, b"dedup")?,
            input: ElemType::of(TypeForm::Text),
            output: ElemType::of(TypeForm::Text),
        })?;
    }
    Ok(heads)
}
