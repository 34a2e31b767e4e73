// A folder and a console whose calls never fail.
ghost use Rattle.std.specs.Prelude.{◌≡◌, ◌<◌, ◌≤◌, [], Some, None, true, vec_len};
ghost use Rattle.stream_io.specs.Files.{sure_folder_of};

use crate::handles::one_more;
use crate::named_file::{NamedFile, bytes_of, replace};
use crate::outside::{Drain, Failed, Folder, OpenFault, Source};
use crate::tally::Tally;
use elem_core::line::Line;
use std::alloc::Global;

/// A source over bytes in memory, of which no read fails.
#[derive(Drop)]
pub struct SureSource {
    name: Line,
    spare: Box<Tally>,
    bytes: Vec<u8>,
    at: usize,
    step: usize,
    ghost within: { at ≤ vec_len bytes },
    ghost steps: { 0 < step },
}

impl Source for SureSource {
    ghost state = { λ s. record { name = s.name; whole = Some s.bytes.items; given = s.at; faults = 0 } };

    fn next_piece(&mut self, buf: &mut [u8]) -> Result<usize, Failed> {
        let size = buf.len().min(self.step).min(self.bytes.len() - self.at);
        buf[..size].copy_from_slice(&self.bytes[self.at..self.at + size]);
        self.at += size;
        Ok(size)
    }
}

/// A drain that keeps only how many bytes were put, of which no put fails.
#[derive(Drop)]
pub struct SureSink {
    name: Line,
    drain: SureDrain,
}

impl Drain for SureSink {
    ghost state = { λ s. record { name = s.name; holds = None; faults = 0 } };

    fn put(&mut self, piece: &[u8]) -> Result<usize, Failed> {
        self.drain.put(piece)
    }
}

/// A console that keeps only how many bytes were put, so that it does not tell them; no put fails (own).
#[derive(Drop)]
pub struct SureDrain {
    written: u64,
    step: usize,
    ghost steps: { 0 < step },
}

impl SureDrain {
    /// An empty drain, which takes at most `step` bytes, 1 at least, at each put. It takes no memory.
    pub fn new(step: u32) -> SureDrain
        requires { 0 < step }
        ensures { ⟦<SureDrain as Drain>⟧.state result ≡ record { name = []; holds = None; faults = 0 } }
    {
        SureDrain {
            written: 0,
            step: step as usize,
        }
    }

    /// How many bytes were put; the count stops at its last value.
    pub fn written(&self) -> u64 {
        self.written
    }
}

impl Drain for SureDrain {
    ghost state = { λ d. record { name = []; holds = None; faults = 0 } };

    fn put(&mut self, piece: &[u8]) -> Result<usize, Failed> {
        let size = piece.len().min(self.step);
        self.written = self.written.saturating_add(size as u64);
        Ok(size)
    }
}

/// A folder of input files in memory; its counts of refusals and of failed reads and writes are the constant 0. After its first `open_out` it tells no files; from then on a name that was written, or that it does not hold, reads as an empty file (own).
#[derive(Drop)]
pub struct SureFolder {
    files: Vec<NamedFile>,
    step: u32,
    tally: Tally,
    tells: bool,
    // How many of its handles are open.
    handles: u64,
    ghost steps: { 0 < step },
}

impl SureFolder {
    /// A folder of these files; a read or a put handles at most `step` bytes, 1 at least. A name that two of the files have is the first's. It takes no memory.
    pub fn new(files: Vec<NamedFile>, step: u32) -> SureFolder
        requires { 0 < step }
        ensures files { ⟦<SureFolder as Folder>⟧.state result ≡ sure_folder_of true files.items [] }
        ensures no_handles { ⟦<SureFolder as Folder>⟧.handles result ≡ 0 }
    {
        SureFolder {
            files,
            step,
            tally: Tally::new(),
            tells: true,
            handles: 0,
        }
    }
}

impl Folder for SureFolder {
    type Inp = SureSource;

    type Out = SureSink;

    ghost state = { λ f. sure_folder_of f.tells f.files.items f.tally };

    ghost handles = { λ f. f.handles };

    fn open_in(&mut self, alloc: Global, name: &Line) -> Result<SureSource, OpenFault> {
        let handles = one_more(self.handles)?;
        let spare = Tally::spare(alloc)?;
        let own = name.copy(alloc)?;
        let bytes = match bytes_of(&self.files, name) {
            Some(bytes) => Vec::from_slice(alloc, bytes)?,
            None if self.tells => return Err(OpenFault::Missing),
            None => Vec::new(alloc),
        };
        self.handles = handles;
        Ok(SureSource {
            name: own,
            spare,
            bytes,
            at: 0,
            step: self.step as usize,
        })
    }

    fn open_out(&mut self, alloc: Global, name: &Line) -> Result<SureSink, OpenFault> {
        let handles = one_more(self.handles)?;
        let own = name.copy(alloc)?;
        replace(&mut self.files, name, Vec::new(alloc));
        self.tells = false;
        self.handles = handles;
        Ok(SureSink {
            name: own,
            drain: SureDrain::new(self.step),
        })
    }

    fn close_in(&mut self, h: SureSource) {
        self.handles = self.handles.saturating_sub(1);
        self.tally.close_in(h.name, h.spare, h.at as u64, 0);
    }

    fn close_out(&mut self, h: SureSink) {
        // The drain kept no bytes, so what its file holds is not told, also where another folder opened it.
        drop(h);
        self.tells = false;
        self.handles = self.handles.saturating_sub(1);
    }
}
