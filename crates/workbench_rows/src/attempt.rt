// What a case comes to, over a folder, an input and drains in memory.
use blue_words::words::is_word;
use case_files::case::{Case, Wanted};
use elem_core::line::Line;
use std::alloc::{AllocError, Global};
use std::process::ExitCode;
use std::sync::Wait;
use std::thread::Threads;
use stream_io::mem_drain::MemDrain;
use stream_io::mem_folder::{MemFolder, MemSource};
use stream_io::named_file::NamedFile;
use stream_io::outside::{Folder, OpenFault};
use stream_notes::folder::NotedFolder;
use stream_notes::process::call_shipped;
use stream_notes::progress::Watch;
use stream_notes::wish::Wish;
use workbench_top::top::run_workbench;

/// How many bytes a read or a put handles.
const STEP: u32 = 7;

/// What came of a case.
#[derive(Drop)]
pub struct Came {
    pub code: ExitCode,
    pub said: Vec<u8>,
    pub told: Vec<u8>,
}

impl Came {
    /// Whether this is wanted.
    pub fn is(&self, wanted: &Wanted) -> bool {
        wanted.code < 256
            && ExitCode::from(wanted.code as u8) == self.code
            && wanted.said.as_slice() == self.said.as_slice()
            && wanted.told.as_slice() == self.told.as_slice()
    }
}

/// The name of the input among files.
fn input_name(alloc: Global) -> Result<Line, AllocError> {
    let mut bytes = Vec::new(alloc);
    bytes.push(b'i')?;
    if Line::can_hold(&bytes) {
        Ok(Line::of(bytes))
    } else {
        Err(AllocError)
    }
}

/// The input as a source.
fn input_of(alloc: Global, case: &Case) -> Result<MemSource, AllocError> {
    let mut files = Vec::new(alloc);
    files.push(NamedFile {
        name: input_name(alloc)?,
        bytes: Vec::from_slice(alloc, &case.text)?,
    })?;
    let mut folder = MemFolder::new(files, Vec::new(alloc), STEP, 1);
    match folder.open_in(alloc, &input_name(alloc)?) {
        Ok(source) => Ok(source),
        Err(OpenFault::Missing | OpenFault::NoMemory) => Err(AllocError),
    }
}

/// A watch without a clock.
#[derive(Drop)]
struct Stopped {}

impl Watch for Stopped {
    fn millis(&self) -> Option<u64> {
        None
    }

    fn tell(&mut self, _text: &[u8]) {}
}

/// What came on two drains.
fn came_of(
    alloc: Global,
    code: ExitCode,
    console: &MemDrain,
    faults: &MemDrain,
) -> Result<Came, AllocError> {
    Ok(Came {
        code,
        said: Vec::from_slice(alloc, console.bytes())?,
        told: Vec::from_slice(alloc, faults.bytes())?,
    })
}

/// Tries a case of `blueprint`.
fn attempt_workbench(alloc: Global, case: &Case) -> Result<Came, AllocError> {
    let mut input = input_of(alloc, case)?;
    let mut folder = case.folder(alloc, STEP)?;
    let mut console = case.console(alloc, STEP)?;
    let mut faults = MemDrain::new(alloc, Vec::new(alloc), STEP, 100_000)?;
    let code = run_workbench(
        alloc,
        &case.words,
        "unknown",
        &mut input,
        &mut folder,
        &mut console,
        &mut faults,
    );
    came_of(alloc, ExitCode::from(code), &console, &faults)
}

/// The words of a process.
fn bytes_of(alloc: Global, words: &[Line]) -> Result<Vec<Vec<u8>>, AllocError> {
    let mut copies = Vec::new(alloc);
    for word in words {
        copies.push(Vec::from_slice(alloc, word.bytes())?)?;
    }
    Ok(copies)
}

/// Tries a case of `streams`, which is its first word.
fn attempt_streams<R: Threads + Wait + Sync>(
    rt: &R,
    alloc: Global,
    case: &Case,
) -> Result<Came, AllocError> {
    let inner = case.folder(alloc, STEP)?;
    let mut folder = NotedFolder::new(alloc, inner, Stopped {}, Wish::Nothing);
    let mut console = case.console(alloc, STEP)?;
    let mut faults = MemDrain::new(alloc, Vec::new(alloc), STEP, 100_000)?;
    let code = call_shipped(
        rt,
        alloc,
        Ok(bytes_of(alloc, &case.words)?),
        &mut folder,
        &mut console,
        &mut faults,
    );
    came_of(alloc, code, &console, &faults)
}

/// Tries a case.
pub fn attempt<R: Threads + Wait + Sync>(
    rt: &R,
    alloc: Global,
    case: &Case,
) -> Result<Came, AllocError> {
    match case.words.first() {
        Some(word) if is_word(word.bytes(), b"streams") => attempt_streams(rt, alloc, case),
        _ => attempt_workbench(alloc, case),
    }
}
