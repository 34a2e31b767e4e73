// Progress: how many lines were read and written, told every so many seconds.
ghost use Rattle.std.specs.Prelude.{◌≡◌, ◌<◌};

use elem_core::line::Line;
use elem_core::why::NoMemory;
use itoa::Buffer;
use std::alloc::Global;
use std::rt::Clock;
use std::sync::atomic::{AtomicU64, Ordering};
use std::sync::{Arc, Mutex};
use stream_io::outside::Drain;
use stream_io::put::put_all;

/// After how many writes a sink looks at the time. A source does so at each read.
const WRITES: u32 = 64;

/// The time, and a place for lines of progress.
pub trait Watch: Drop {
    /// Returns the milliseconds since a start of its own, or None if there is no clock.
    fn millis(&self) -> Option<u64>;

    /// Writes a text, or a first part of it if a write fails.
    fn tell(&mut self, text: &[u8]);
}

/// A clock and a drain.
#[derive(Drop)]
pub struct DrainWatch<R, D> {
    clock: R,
    drain: D,
}

impl<R: Clock + Drop, D: Drain> DrainWatch<R, D> {
    /// Returns the watch of this clock, which tells by this drain. It takes no memory.
    pub fn new(clock: R, drain: D) -> DrainWatch<R, D> {
        DrainWatch { clock, drain }
    }
}

impl<R: Clock + Drop, D: Drain> Watch for DrainWatch<R, D> {
    fn millis(&self) -> Option<u64> {
        let time = self.clock.monotonic().ok()?;
        let millis = time.as_secs().checked_mul(1000)?;
        millis.checked_add(u64::from(time.subsec_millis()))
    }

    fn tell(&mut self, text: &[u8]) {
        let _ = put_all(&mut self.drain, text);
    }
}

/// An open file: its name, whether it is read, how many lines of it were read or written, and how many of them were told.
#[derive(Drop)]
struct Row {
    number: u64,
    name: Line,
    is_read: bool,
    lines: Arc<AtomicU64>,
    told: u64,
}

/// The open files of a run, of which a line is told every `period` milliseconds.
#[derive(Drop)]
pub(crate) struct Board<W> {
    watch: W,
    period: u64,
    started: u64,
    last: u64,
    next: u64,
    rows: Vec<Row>,
    text: Vec<u8>,
}

/// Appends a number in decimal.
fn put_number(out: &mut Vec<u8>, n: u64) -> Result<(), NoMemory> {
    let mut buffer = Buffer::new();
    out.extend_from_slice(buffer.format(n).as_bytes())
}

/// Appends what was read or written of a file, and how much a second in the `passed` milliseconds since the last line.
fn put_row(out: &mut Vec<u8>, row: &mut Row, passed: u64) -> Result<(), NoMemory>
    requires { 0 < passed }
{
    let lines = row.lines.load(Ordering::SeqCst);
    let rate = lines.saturating_sub(row.told).saturating_mul(1000) / passed;
    row.told = lines;
    out.extend_from_slice(if row.is_read { b" read " } else { b" wrote " })?;
    out.extend_from_slice(row.name.bytes())?;
    out.push(b' ')?;
    put_number(out, lines)?;
    out.extend_from_slice(b" (")?;
    put_number(out, rate)?;
    out.extend_from_slice(b" a second)")
}

/// Appends what was read or written of each file.
fn put_rows(out: &mut Vec<u8>, rows: &mut [Row], passed: u64) -> Result<(), NoMemory>
    requires { 0 < passed }
{
    let mut is_first = true;
    for row in rows.iter_mut() {
        if !is_first {
            out.push(b',')?;
        }
        is_first = false;
        put_row(out, row, passed)?;
    }
    Ok(())
}

impl<W: Watch> Board<W> {
    /// Makes the line of all files, `passed` milliseconds after the last one.
    fn make_line(&mut self, now: u64, passed: u64) -> Result<(), NoMemory>
        requires { 0 < passed }
    {
        self.text.clear();
        self.text.extend_from_slice(b"after ")?;
        put_number(&mut self.text, now.saturating_sub(self.started) / 1000)?;
        self.text.extend_from_slice(b" s:")?;
        put_rows(&mut self.text, &mut self.rows, passed)?;
        self.text.push(b'\n')?;
        Ok(())
    }

    /// Tells a line if it is due and a file is open. A line that memory is wanting for is left out.
    fn look(&mut self) {
        let Some(now) = self.watch.millis() else {
            return;
        };
        let passed = now.saturating_sub(self.last);
        if passed == 0 || passed < self.period || self.rows.is_empty() {
            return;
        }
        self.last = now;
        if self.make_line(now, passed).is_ok() {
            self.watch.tell(&self.text);
        }
    }

    /// Enters a file, and returns its number.
    fn enter(&mut self, name: Line, is_read: bool, lines: Arc<AtomicU64>) -> Result<u64, NoMemory> {
        let number = self.next;
        self.next = number.wrapping_add(1);
        self.rows.push(Row {
            number,
            name,
            is_read,
            lines,
            told: 0,
        })?;
        Ok(number)
    }

    /// Strikes out the file of that number.
    fn leave(&mut self, number: u64) {
        for i in 0..self.rows.len() {
            if self.rows[i].number == number {
                drop(self.rows.remove(i));
                return;
            }
        }
    }
}

/// The open files of a run, which all that read and write share.
#[derive(Drop)]
pub(crate) struct Progress<W> {
    board: Arc<Mutex<Board<W>>>,
}

// Choice: docs/DECISIONS.md#progress-is-told-by-those-who-work
/// What shows the lines of one open file. Its source or sink knows how many there are.
#[derive(Drop)]
pub(crate) struct Meter<W> {
    board: Arc<Mutex<Board<W>>>,
    lines: Arc<AtomicU64>,
    number: u64,
    writes: u32,
}

impl<W: Watch> Progress<W> {
    /// Begins a progress that tells a line every `seconds` seconds.
    pub(crate) fn new(alloc: Global, watch: W, seconds: u32) -> Result<Progress<W>, NoMemory> {
        let started = watch.millis().unwrap_or(0);
        let board = Board {
            watch,
            period: u64::from(seconds) * 1000,
            started,
            last: started,
            next: 0,
            rows: Vec::new(alloc),
            text: Vec::new(alloc),
        };
        Ok(Progress {
            board: Arc::new(alloc, Mutex::new(board))?,
        })
    }

    /// Enters a file that was opened, and returns its meter. It is boxed, so that an island's nodes stay small without it.
    pub(crate) fn enter(
        &self,
        alloc: Global,
        name: &Line,
        is_read: bool,
    ) -> Result<Option<Box<Meter<W>>>, NoMemory> {
        let name = name.copy(alloc)?;
        let lines = Arc::new(alloc, AtomicU64::new(0))?;
        let meter = Meter {
            board: Arc::try_clone(&self.board)?,
            lines: Arc::try_clone(&lines)?,
            number: 0,
            writes: 0,
        };
        let mut meter = Box::new(alloc, meter)?;
        let Some(mut open) = self.board.try_lock() else {
            return Ok(None);
        };
        meter.number = open.enter(name, is_read, lines)?;
        drop(open);
        Ok(Some(meter))
    }
}

impl<W: Watch> Meter<W> {
    /// Tells a line if it is due, unless another thread is about to.
    fn look(&self) {
        if let Some(mut board) = self.board.try_lock() {
            board.look();
        }
    }

    /// Shows how many lines were read.
    pub(crate) fn note_read(&self, lines: u64) {
        self.lines.store(lines, Ordering::Relaxed);
        self.look();
    }

    /// Shows how many lines were written.
    pub(crate) fn note_written(&mut self, lines: u64) {
        self.lines.store(lines, Ordering::Relaxed);
        self.writes = self.writes.wrapping_add(1);
        if self.writes % WRITES == 0 {
            self.look();
        }
    }

    /// Strikes out the file, which was closed.
    pub(crate) fn close(&self) {
        if let Some(mut board) = self.board.try_lock() {
            board.leave(self.number);
        }
    }
}
