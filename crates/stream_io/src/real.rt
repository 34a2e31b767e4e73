// The real folder and standard output, which tell no contents.
ghost use Rattle.std.specs.Prelude.{◌≡◌, [], None};
ghost use Rattle.stream_io.specs.Tally.{folder_of_counts};

use crate::handles::one_more;
use crate::outside::{Drain, Failed, Folder, OpenFault, Source};
use crate::tally::Tally;
use elem_core::line::Line;
use std::alloc::Global;
use std::fs;
use std::fs::{OpenFile, OpenOptions};
use std::io::{Read, Write};
use std::marker::Send;
use std::os::unix::fs::MetadataExt;
use std::rt::Files;

/// A file that was opened to be read.
#[derive(Drop)]
pub struct DirSource<F> {
    name: Line,
    spare: Box<Tally>,
    file: F,
    // Whether it is no plain file, so that a read may wait.
    waits: bool,
    given: u64,
    faults: u64,
}

impl<F: Read + Drop> Source for DirSource<F> {
    ghost state = { λ s. record { name = s.name; whole = None; given = s.given; faults = s.faults } };

    // Choice: docs/DECISIONS.md#position-is-exact
    fn next_piece(&mut self, buf: &mut [u8]) -> Result<usize, Failed> {
        if let Ok(size) = self.file.read(buf) {
            if let Some(given) = self.given.checked_add(size as u64) {
                self.given = given;
                return Ok(size);
            }
        }
        self.faults = self.faults.saturating_add(1);
        Err(Failed)
    }

    fn may_wait(&self) -> bool {
        self.waits
    }
}

// Choice: docs/DECISIONS.md#put-writes-at-once
/// A file that was opened to be written. A put writes straight to it.
#[derive(Drop)]
pub struct DirSink<F> {
    name: Line,
    spare: Box<Tally>,
    file: F,
    faults: u64,
}

impl<F: Write + Drop> Drain for DirSink<F> {
    ghost state = { λ s. record { name = s.name; holds = None; faults = s.faults } };

    fn put(&mut self, piece: &[u8]) -> Result<usize, Failed> {
        if let Ok(size) = self.file.write(piece) {
            if size != 0 {
                return Ok(size);
            }
        }
        self.faults = self.faults.saturating_add(1);
        Err(Failed)
    }
}

// Which file of the system a file is, and whether it is a plain one.
#[derive(Drop, Clone, Copy, PartialEq, Eq)]
struct FileIdentity {
    device: u64,
    inode: u64,
    plain: bool,
}

// A name under which a file was opened.
#[derive(Drop)]
struct KnownFile {
    name: Line,
    place: FileIdentity,
}

/// The current folder. A name is that of a file in it where it has only letters, digits, `.`, `_` and `-` and begins with a letter or a digit; an opening of another name is refused (own). So is an opening to write of a file that was opened here under another name, which is a link to it: the other name's bytes would be lost (own).
#[derive(Drop)]
pub struct DirFolder<R: Files> {
    rt: R,
    tally: Tally,
    known: Vec<KnownFile>,
    // How many of its handles are open.
    handles: u64,
}

impl<R: Files + Drop> DirFolder<R>
where
    R::File: Send,
{
    /// The current folder of this runtime. It takes no memory.
    pub fn new(alloc: Global, rt: R) -> DirFolder<R>
        ensures counts { ⟦<DirFolder<R> as Folder>⟧.state result ≡ folder_of_counts [] }
        ensures no_handles { ⟦<DirFolder<R> as Folder>⟧.handles result ≡ 0 }
    {
        DirFolder {
            rt,
            tally: Tally::new(),
            known: Vec::new(alloc),
            handles: 0,
        }
    }
}

// The name as a path in the current folder, where it is a plain name.
fn plain(name: &Line) -> Option<&str> {
    let bytes = name.bytes();
    let plain = bytes.first().is_some_and(|b| b.is_ascii_alphanumeric())
        && bytes.iter().all(|b| b.is_ascii_alphanumeric() || matches!(b, b'.' | b'_' | b'-'));
    if plain {
        str::from_utf8(bytes).ok()
    } else {
        None
    }
}

// Which file of the system an open file is.
fn place_of<F: OpenFile>(file: &F) -> Option<FileIdentity> {
    let about = file.metadata().ok()?;
    Some(FileIdentity {
        device: about.dev(),
        inode: about.ino(),
        plain: about.is_file(),
    })
}

// Opens the file of that name to read it.
fn open_to_read<R: Files>(rt: &R, name: &Line) -> Option<(R::File, FileIdentity)> {
    let file = fs::open(rt, plain(name)?).ok()?;
    let place = place_of(&file)?;
    Some((file, place))
}

// Whether the file is known under another name. A runtime that is none of a system gives no file a number but 0.
fn is_linked(known: &[KnownFile], name: &Line, place: FileIdentity) -> bool {
    place.inode != 0
        && known
            .iter()
            .any(|other| other.place == place && other.name != *name)
}

// Opens the file of that name to write it, and makes it empty where it is not known under another name. A device or a pipe has no length to cut.
// Choice: docs/DECISIONS.md#no-other-name
fn open_to_write<R: Files>(
    rt: &R,
    known: &[KnownFile],
    name: &Line,
) -> Option<(R::File, FileIdentity)> {
    let path = plain(name)?;
    let mut how = OpenOptions::new();
    how.write(true).create(true);
    let file = how.open(rt, path).ok()?;
    let place = place_of(&file)?;
    if is_linked(known, name, place) {
        return None;
    }
    if file.metadata().ok()?.is_file() {
        file.set_len(0).ok()?;
    }
    Some((file, place))
}

impl<R: Files + Drop> Folder for DirFolder<R>
where
    R::File: Send,
{
    type Inp = DirSource<R::File>;

    type Out = DirSink<R::File>;

    ghost state = { λ f. folder_of_counts f.tally };

    ghost handles = { λ f. f.handles };

    fn open_in(&mut self, alloc: Global, name: &Line) -> Result<DirSource<R::File>, OpenFault> {
        let handles = one_more(self.handles)?;
        let spare = Tally::spare(alloc)?;
        let own = name.copy(alloc)?;
        let name_known = name.copy(alloc)?;
        self.known.reserve(1)?;
        let Some((file, place)) = open_to_read(&self.rt, name) else {
            self.tally.refuse(own, spare);
            return Err(OpenFault::Missing);
        };
        self.known.push_reserved(KnownFile {
            name: name_known,
            place,
        });
        self.handles = handles;
        Ok(DirSource {
            name: own,
            spare,
            file,
            waits: !place.plain,
            given: 0,
            faults: 0,
        })
    }

    fn open_out(&mut self, alloc: Global, name: &Line) -> Result<DirSink<R::File>, OpenFault> {
        let handles = one_more(self.handles)?;
        let spare = Tally::spare(alloc)?;
        let own = name.copy(alloc)?;
        let name_known = name.copy(alloc)?;
        self.known.reserve(1)?;
        let Some((file, place)) = open_to_write(&self.rt, &self.known, name) else {
            self.tally.refuse(own, spare);
            return Err(OpenFault::Missing);
        };
        self.known.push_reserved(KnownFile {
            name: name_known,
            place,
        });
        self.handles = handles;
        Ok(DirSink {
            name: own,
            spare,
            file,
            faults: 0,
        })
    }

    fn close_in(&mut self, h: DirSource<R::File>) {
        self.handles = self.handles.saturating_sub(1);
        self.tally.close_in(h.name, h.spare, h.given, h.faults);
    }

    fn close_out(&mut self, h: DirSink<R::File>) {
        self.handles = self.handles.saturating_sub(1);
        self.tally.close_out(h.name, h.spare, h.faults);
    }
}

/// Standard output. A put writes straight to it.
#[derive(Drop)]
pub struct StdConsole<R> {
    rt: R,
    faults: u64,
}

impl<R: Print + Drop> StdConsole<R> {
    /// The standard output of this runtime. It takes no memory.
    pub fn new(rt: R) -> StdConsole<R>
        ensures { ⟦<StdConsole<R> as Drain>⟧.state result ≡ record { name = []; holds = None; faults = 0 } }
    {
        StdConsole { rt, faults: 0 }
    }
}

impl<R: Print + Drop> Drain for StdConsole<R> {
    ghost state = { λ c. record { name = []; holds = None; faults = c.faults } };

    fn put(&mut self, piece: &[u8]) -> Result<usize, Failed> {
        if let Ok(size) = self.rt.write_some(piece) {
            if size != 0 {
                return Ok(size);
            }
        }
        self.faults = self.faults.saturating_add(1);
        Err(Failed)
    }
}
