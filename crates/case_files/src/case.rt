// A case, and how it is read from the lines of a file.
ghost use Rattle.std.specs.Prelude.{◌<◌};

use crate::text::{Fault, line_of, number, put_line};
use blue_words::words::is_word;
use elem_core::line::Line;
use std::alloc::{AllocError, Global};
use stream_io::fail_at::{FailAt, Op};
use stream_io::mem_drain::MemDrain;
use stream_io::mem_folder::MemFolder;
use stream_io::named_file::NamedFile;

/// What is tried.
#[derive(Drop, Clone, Copy)]
pub enum Kind {
    /// A whole call of the program.
    Call,
    /// A text is read, and what it says is printed.
    Print,
    /// A text is read, and what it says is checked, where so many plugs named `dedup` are handed in.
    Check(u32),
}

/// What a case is to come to, or comes to.
#[derive(Drop, Clone, Copy, PartialEq, Eq)]
pub enum Verdict {
    /// What came is wanted.
    Passes,
    /// What came is not wanted.
    Fails,
    /// A line has not the form.
    Malformed,
}

/// What may come.
pub struct Wanted {
    /// The exit code.
    pub code: u32,
    /// What the console has.
    pub said: Vec<u8>,
    /// What the second console has, where the program has two.
    pub told: Vec<u8>,
    /// The files that differ from those before.
    pub files: Vec<NamedFile>,
    /// Wires, and how many elements at most were sent on each.
    pub most: Vec<(u32, u32)>,
}

impl Drop for Wanted {
    fn drop(self) {
        let Wanted {
            code: _,
            said: _,
            told: _,
            files: _,
            most: _,
        } = self;
    }
}

/// One case.
pub struct Case {
    /// What it is called.
    pub name: Vec<u8>,
    /// What is tried.
    pub kind: Kind,
    /// The words of the call, without the program's name.
    pub words: Vec<Line>,
    /// The files of the folder before the call.
    pub files: Vec<NamedFile>,
    /// The calls on files that fail.
    pub fails: Vec<FailAt>,
    /// The writes to the console that fail, counted from 1.
    pub console_fails: Vec<u32>,
    /// How many bytes a read or a write handles at most; each is tried.
    pub steps: Vec<u32>,
    /// How many bytes an opened file has room for.
    pub room: u32,
    /// The text that is read, or the input of the call.
    pub text: Vec<u8>,
    /// What may come: one of these.
    pub wanted: Vec<Wanted>,
    /// What it is to come to.
    pub verdict: Verdict,
    /// Whether a line has not the form.
    pub is_malformed: bool,
    has_escapes: bool,
    part: Part,
}

// It is dropped by a call, wherever it is dropped: else each of its parts is let go there.
impl Drop for Case {
    fn drop(self) {
        let Case {
            name: _,
            kind: _,
            words: _,
            files: _,
            fails: _,
            console_fails: _,
            steps: _,
            room: _,
            text: _,
            wanted: _,
            verdict: _,
            is_malformed: _,
            has_escapes: _,
            part: _,
        } = self;
    }
}

/// To what the lines that follow belong.
#[derive(Drop, Clone, Copy)]
enum Part {
    Nothing,
    Words,
    File,
    Text,
    Said,
    Told,
    After,
}

impl Case {
    fn new(alloc: Global, name: &[u8], has_escapes: bool) -> Result<Case, Fault> {
        let mut words = Vec::new(alloc);
        words.push(line_of(alloc, b"log.blue")?)?;
        Ok(Case {
            name: Vec::from_slice(alloc, name)?,
            kind: Kind::Call,
            words,
            files: Vec::new(alloc),
            fails: Vec::new(alloc),
            console_fails: Vec::new(alloc),
            steps: Vec::new(alloc),
            room: 100_000,
            text: Vec::new(alloc),
            wanted: Vec::new(alloc),
            verdict: Verdict::Passes,
            is_malformed: false,
            has_escapes,
            part: Part::Nothing,
        })
    }

    /// The folder before the call, where a read or a write handles at most so many bytes.
    pub fn folder(&self, alloc: Global, step: u32) -> Result<MemFolder, AllocError>
        requires { 0 < step }
    {
        let files = copies(alloc, &self.files)?;
        let mut fails = Vec::new(alloc);
        for fail in &self.fails {
            fails.push(FailAt {
                name: fail.name.copy(alloc)?,
                op: fail.op,
                nth: fail.nth,
            })?;
        }
        Ok(MemFolder::new(files, fails, step, self.room))
    }

    /// The console before the call, where a write handles at most so many bytes.
    pub fn console(&self, alloc: Global, step: u32) -> Result<MemDrain, AllocError>
        requires { 0 < step }
    {
        let fails = Vec::from_slice(alloc, &self.console_fails)?;
        MemDrain::new(alloc, fails, step, 100_000)
    }

    /// What the case comes to, by whether what came is wanted. A malformed one is that whatever came.
    pub fn verdict_by(&self, is_wanted: bool) -> Verdict {
        if self.is_malformed {
            Verdict::Malformed
        } else if is_wanted {
            Verdict::Passes
        } else {
            Verdict::Fails
        }
    }

    /// Takes a line behind the one that names the case. One that has not the form makes the case malformed.
    fn take_line(&mut self, alloc: Global, line: &[u8]) -> Result<(), AllocError> {
        let taken = match line {
            [] | [b'#', ..] => Ok(()),
            [b'|', content @ ..] => self.take_content(alloc, content),
            _ => self.take_heading(alloc, line),
        };
        match taken {
            Ok(()) => Ok(()),
            Err(Fault::Malformed) => {
                self.is_malformed = true;
                Ok(())
            }
            Err(Fault::NoMemory) => Err(AllocError),
        }
    }

    fn take_content(&mut self, alloc: Global, content: &[u8]) -> Result<(), Fault> {
        match self.part {
            Part::Nothing => Err(Fault::Malformed),
            Part::Words => self.take_word(alloc, content),
            Part::File => put_file_line(&mut self.files, content, self.has_escapes),
            Part::Text => put_line(&mut self.text, content, self.has_escapes),
            Part::Said | Part::Told | Part::After => match self.wanted.last_mut() {
                Some(wanted) => wanted.take_content(content, self.part, self.has_escapes),
                None => Err(Fault::Malformed),
            },
        }
    }

    /// Takes a line of the part of words: one word, with its escapes.
    fn take_word(&mut self, alloc: Global, content: &[u8]) -> Result<(), Fault> {
        let mut word = Vec::new(alloc);
        put_line(&mut word, content, self.has_escapes)?;
        let word = word.strip_suffix(b"\n").ok_or(Fault::Malformed)?;
        self.words.push(line_of(alloc, word)?)?;
        Ok(())
    }

    fn take_heading(&mut self, alloc: Global, line: &[u8]) -> Result<(), Fault> {
        let mut words = Vec::new(alloc);
        for word in line.split(|byte| *byte == b' ') {
            words.push(word)?;
        }
        self.part = Part::Nothing;
        match words.as_slice() {
            [word] => self.take_one(word),
            [first, second] => self.take_two(alloc, first, second),
            [first, second, third] => self.take_three(first, second, third),
            [first, second, third, fourth] => self.take_four(alloc, first, second, third, fourth),
            [first, wire, third, fourth, count] => {
                want_word(first, b"sent")?;
                want_word(third, b"at")?;
                want_word(fourth, b"most")?;
                self.add_most(number(wire)?, number(count)?)
            }
            _ => Err(Fault::Malformed),
        }
    }

    fn take_one(&mut self, word: &[u8]) -> Result<(), Fault> {
        if is_word(word, b"words") {
            self.words.clear();
            self.part = Part::Words;
            return Ok(());
        }
        if is_word(word, b"text") {
            return Ok(self.set_kind(Kind::Print)?);
        }
        self.part = if is_word(word, b"input") {
            Part::Text
        } else {
            want_word(word, b"tells")?;
            Part::Told
        };
        Ok(())
    }

    fn take_two(&mut self, alloc: Global, first: &[u8], second: &[u8]) -> Result<(), Fault> {
        if is_word(first, b"file") {
            add_file(alloc, &mut self.files, second)?;
            self.part = Part::File;
            return Ok(());
        }
        if is_word(first, b"after") {
            return self.add_after(alloc, second);
        }
        if is_word(first, b"says") {
            return Ok(self.add_wanted(alloc, number(second)?)?);
        }
        self.take_setting(first, second)
    }

    fn take_setting(&mut self, first: &[u8], second: &[u8]) -> Result<(), Fault> {
        if is_word(first, b"step") {
            self.steps.push(number(second)?.max(1))?;
            return Ok(());
        }
        if is_word(first, b"room") {
            self.room = number(second)?;
            return Ok(());
        }
        want_word(first, b"must")?;
        want_word(second, b"fail")?;
        self.verdict = Verdict::Fails;
        Ok(())
    }

    fn take_three(&mut self, first: &[u8], second: &[u8], third: &[u8]) -> Result<(), Fault> {
        if is_word(first, b"fails") {
            want_word(second, b"console")?;
            self.console_fails.push(number(third)?)?;
            return Ok(());
        }
        want_word(first, b"must")?;
        want_word(second, b"be")?;
        want_word(third, b"malformed")?;
        self.verdict = Verdict::Malformed;
        Ok(())
    }

    fn take_four(
        &mut self,
        alloc: Global,
        first: &[u8],
        second: &[u8],
        third: &[u8],
        fourth: &[u8],
    ) -> Result<(), Fault> {
        if is_word(first, b"fails") {
            let op = operation(second)?;
            let name = line_of(alloc, third)?;
            let nth = number(fourth)?;
            self.fails.push(FailAt { name, op, nth })?;
            return Ok(());
        }
        want_word(first, b"blueprint")?;
        want_word(second, b"with")?;
        want_word(fourth, b"plugs")?;
        Ok(self.set_kind(Kind::Check(number(third)?))?)
    }

    /// Sets another kind than a whole call. It reads no file, so that one step is as good as another.
    fn set_kind(&mut self, kind: Kind) -> Result<(), AllocError> {
        self.kind = kind;
        self.part = Part::Text;
        self.steps.push(1)?;
        Ok(())
    }

    fn add_wanted(&mut self, alloc: Global, code: u32) -> Result<(), AllocError> {
        self.wanted.push(Wanted {
            code,
            said: Vec::new(alloc),
            told: Vec::new(alloc),
            files: Vec::new(alloc),
            most: Vec::new(alloc),
        })?;
        self.part = Part::Said;
        Ok(())
    }

    fn add_after(&mut self, alloc: Global, name: &[u8]) -> Result<(), Fault> {
        let wanted = self.wanted.last_mut().ok_or(Fault::Malformed)?;
        add_file(alloc, &mut wanted.files, name)?;
        self.part = Part::After;
        Ok(())
    }

    fn add_most(&mut self, wire: u32, count: u32) -> Result<(), Fault> {
        let wanted = self.wanted.last_mut().ok_or(Fault::Malformed)?;
        wanted.most.push((wire, count))?;
        Ok(())
    }

    /// Ends the reading: without a step each of four is tried, and a case that wants nothing is malformed.
    fn finish(&mut self) -> Result<(), AllocError> {
        if self.steps.is_empty() {
            self.steps.extend_from_slice(&[1, 2, 3, 4096])?;
        }
        self.is_malformed = self.is_malformed || self.wanted.is_empty();
        Ok(())
    }
}

impl Wanted {
    /// Takes a line of one of its parts.
    fn take_content(&mut self, content: &[u8], part: Part, has_escapes: bool) -> Result<(), Fault> {
        match part {
            Part::Said => put_line(&mut self.said, content, has_escapes),
            Part::Told => put_line(&mut self.told, content, has_escapes),
            _ => put_file_line(&mut self.files, content, has_escapes),
        }
    }
}

/// The cases of a file, in order. A line that has not the form makes the case malformed in which it stands. The lines of parts have
/// escapes or stand as they are.
pub fn read_cases(alloc: Global, text: &[u8], has_escapes: bool) -> Result<Vec<Case>, Fault> {
    let mut cases: Vec<Case> = Vec::new(alloc);
    for line in text.split(|byte| *byte == b'\n') {
        if let Some(name) = line.strip_prefix(b"case ") {
            cases.push(Case::new(alloc, name, has_escapes)?)?;
        } else if let Some(case) = cases.last_mut() {
            case.take_line(alloc, line)?;
        } else if !matches!(line, [] | [b'#', ..]) {
            let mut case = Case::new(alloc, b"what stands before the first case", has_escapes)?;
            case.is_malformed = true;
            cases.push(case)?;
        }
    }
    for i in 0..cases.len() {
        cases[i].finish()?;
    }
    Ok(cases)
}

fn operation(word: &[u8]) -> Result<Op, Fault> {
    if is_word(word, b"open_in") {
        return Ok(Op::OpenIn);
    }
    if is_word(word, b"open_out") {
        return Ok(Op::OpenOut);
    }
    if is_word(word, b"read") {
        return Ok(Op::Read);
    }
    want_word(word, b"write")?;
    Ok(Op::Write)
}

/// A heading with another word in this place is malformed.
fn want_word(word: &[u8], fixed: &[u8]) -> Result<(), Fault> {
    if is_word(word, fixed) {
        Ok(())
    } else {
        Err(Fault::Malformed)
    }
}

fn add_file(alloc: Global, files: &mut Vec<NamedFile>, name: &[u8]) -> Result<(), Fault> {
    files.push(NamedFile {
        name: line_of(alloc, name)?,
        bytes: Vec::new(alloc),
    })?;
    Ok(())
}

fn put_file_line(
    files: &mut Vec<NamedFile>,
    content: &[u8],
    has_escapes: bool,
) -> Result<(), Fault> {
    match files.last_mut() {
        Some(file) => put_line(&mut file.bytes, content, has_escapes),
        None => Err(Fault::Malformed),
    }
}

/// Copies of files.
pub fn copies(alloc: Global, files: &[NamedFile]) -> Result<Vec<NamedFile>, AllocError> {
    let mut copies = Vec::new(alloc);
    for file in files {
        copies.push(NamedFile {
            name: file.name.copy(alloc)?,
            bytes: Vec::from_slice(alloc, &file.bytes)?,
        })?;
    }
    Ok(copies)
}
