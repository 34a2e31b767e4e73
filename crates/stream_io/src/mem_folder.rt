// A folder in memory, with calls that fail on purpose.
ghost use Rattle.std.specs.Prelude.{◌≡◌, ◌<◌, ◌≤◌, [], Some, true, vec_len};
ghost use Rattle.stream_io.specs.Files.{bytes_of_file, folder_of};
ghost use Rattle.stream_io.specs.Counts.{Rose};
ghost use Rattle.stream_io.specs.State.{RefusesName, SameFaults, SameFiles};

use crate::fail_at::{FailAt, Op, fires, spend, to_come};
use crate::handles::one_more;
use crate::mem_drain::MemDrain;
use crate::named_file::{NamedFile, bytes_of, put_file, replace};
use crate::outside::{Drain, Failed, Folder, OpenFault, Source};
use crate::tally::Tally;
use elem_core::line::Line;
use std::alloc::Global;

/// A source over the bytes of a file in memory.
#[derive(Drop)]
pub struct MemSource {
    name: Line,
    spare: Box<Tally>,
    bytes: Vec<u8>,
    at: usize,
    step: usize,
    fails: Vec<u32>,
    calls: u32,
    faults: u64,
    ghost within: { at ≤ vec_len bytes },
    ghost steps: { 0 < step },
}

impl Source for MemSource {
    ghost state = { λ s. record { name = s.name; whole = Some s.bytes.items; given = s.at; faults = s.faults } };

    fn next_piece(&mut self, buf: &mut [u8]) -> Result<usize, Failed> {
        self.calls = self.calls.saturating_add(1);
        if self.fails.contains(&self.calls) {
            self.faults = self.faults.saturating_add(1);
            return Err(Failed);
        }
        let size = buf.len().min(self.step).min(self.bytes.len() - self.at);
        buf[..size].copy_from_slice(&self.bytes[self.at..self.at + size]);
        self.at += size;
        Ok(size)
    }
}

/// A drain into a file in memory.
#[derive(Drop)]
pub struct MemSink {
    name: Line,
    spare: Box<Tally>,
    drain: MemDrain,
}

impl Drain for MemSink {
    ghost state = { λ s. record { name = s.name; holds = Some s.drain.held.items; faults = s.drain.faults } };

    fn put(&mut self, piece: &[u8]) -> Result<usize, Failed> {
        self.drain.put(piece)
    }
}

/// A folder in memory. A name that two of its files have is the first's (own).
#[derive(Drop)]
pub struct MemFolder {
    files: Vec<NamedFile>,
    fails: Vec<FailAt>,
    step: u32,
    room: u32,
    tally: Tally,
    tells: bool,
    // How many of its handles are open.
    handles: u64,
    ghost steps: { 0 < step },
}

impl MemFolder {
    /// A folder of these files. A read or a put handles at most `step` bytes, 1 at least; an opened drain has room for `room` bytes; the calls in `fails` fail. It takes no memory.
    pub fn new(files: Vec<NamedFile>, fails: Vec<FailAt>, step: u32, room: u32) -> MemFolder
        requires { 0 < step }
        ensures files { ⟦<MemFolder as Folder>⟧.state result ≡ folder_of true files.items [] }
        ensures no_handles { ⟦<MemFolder as Folder>⟧.handles result ≡ 0 }
    {
        MemFolder {
            files,
            fails,
            step,
            room,
            tally: Tally::new(),
            tells: true,
            handles: 0,
        }
    }

    /// The files that it holds. It takes no memory.
    pub fn files(&self) -> &[NamedFile]
        ensures { (⟦<MemFolder as Folder>⟧.state self.now).file ≡ bytes_of_file result.now }
    {
        &self.files
    }

    /// Whether it tells its files: until a drain of another folder is closed here whose file this one lacks.
    pub fn tells(&self) -> bool
        ensures { result ≡ (⟦<MemFolder as Folder>⟧.state self.now).tells }
    {
        self.tells
    }

    fn refuse(&mut self, name: Line, spare: Box<Tally>) -> OpenFault
        ensures fault { result ≡ OpenFault.Missing }
        ensures rose { Rose ((⟦<MemFolder as Folder>⟧.state self.old).refusals name) ((⟦<MemFolder as Folder>⟧.state self.new).refusals name) }
        ensures refusal { RefusesName (⟦<MemFolder as Folder>⟧.state self.old) (⟦<MemFolder as Folder>⟧.state self.new) name }
        ensures faults { SameFaults (⟦<MemFolder as Folder>⟧.state self.old) (⟦<MemFolder as Folder>⟧.state self.new) }
        ensures files { SameFiles (⟦<MemFolder as Folder>⟧.state self.old) (⟦<MemFolder as Folder>⟧.state self.new) }
        ensures handles { ⟦<MemFolder as Folder>⟧.handles self.new ≡ ⟦<MemFolder as Folder>⟧.handles self.old }
    {
        self.tally.refuse(name, spare);
        OpenFault::Missing
    }
}

impl Folder for MemFolder {
    type Inp = MemSource;

    type Out = MemSink;

    ghost state = { λ f. folder_of f.tells f.files.items f.tally };

    ghost handles = { λ f. f.handles };

    fn open_in(&mut self, alloc: Global, name: &Line) -> Result<MemSource, OpenFault> {
        let handles = one_more(self.handles)?;
        let spare = Tally::spare(alloc)?;
        let own = name.copy(alloc)?;
        let fails = to_come(alloc, &self.fails, Op::Read, name)?;
        let found = match bytes_of(&self.files, name) {
            Some(bytes) => Some(Vec::from_slice(alloc, bytes)?),
            None => None,
        };
        if fires(&mut self.fails, Op::OpenIn, name) {
            return Err(self.refuse(own, spare));
        }
        match found {
            Some(bytes) => {
                self.handles = handles;
                Ok(MemSource {
                    name: own,
                    spare,
                    bytes,
                    at: 0,
                    step: self.step as usize,
                    fails,
                    calls: 0,
                    faults: 0,
                })
            }
            None if self.tells => Err(OpenFault::Missing),
            None => Err(self.refuse(own, spare)),
        }
    }

    fn open_out(&mut self, alloc: Global, name: &Line) -> Result<MemSink, OpenFault> {
        let handles = one_more(self.handles)?;
        let spare = Tally::spare(alloc)?;
        let own = name.copy(alloc)?;
        let fails = to_come(alloc, &self.fails, Op::Write, name)?;
        let drain = MemDrain::new(alloc, fails, self.step, self.room)?;
        let file = NamedFile {
            name: name.copy(alloc)?,
            bytes: Vec::new(alloc),
        };
        self.files.reserve(1)?;
        if fires(&mut self.fails, Op::OpenOut, name) {
            return Err(self.refuse(own, spare));
        }
        put_file(&mut self.files, file)?;
        self.handles = handles;
        Ok(MemSink {
            name: own,
            spare,
            drain,
        })
    }

    fn close_in(&mut self, h: MemSource) {
        spend(&mut self.fails, Op::Read, &h.name, h.calls);
        self.handles = self.handles.saturating_sub(1);
        self.tally.close_in(h.name, h.spare, h.at as u64, h.faults);
    }

    fn close_out(&mut self, h: MemSink) {
        let MemSink { name, spare, drain } = h;
        let faults = drain.faults;
        spend(&mut self.fails, Op::Write, &name, drain.calls);
        self.handles = self.handles.saturating_sub(1);
        let found = replace(&mut self.files, &name, drain.held);
        self.tells = found && self.tells;
        self.tally.close_out(name, spare, faults);
    }
}
