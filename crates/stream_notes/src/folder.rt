// A folder that keeps the text of the blueprint, and shows how many lines were read and written.
use crate::progress::{Meter, Progress, Watch};
use crate::wish::Wish;
use elem_core::line::Line;
use std::alloc::Global;
use std::marker::Send;
use stream_io::outside::{Drain, Failed, Folder, OpenFault, Source};

/// A source of a noted folder.
#[derive(Drop)]
pub struct NotedSource<S, W> {
    source: S,
    // What it handed out, if it is to be kept.
    kept: Option<Vec<u8>>,
    meter: Option<Box<Meter<W>>>,
}

/// Keeps a piece. If memory is wanting, what was kept is let go.
fn keep(kept: &mut Option<Vec<u8>>, piece: &[u8]) {
    let failed = match kept {
        Some(text) => text.extend_from_slice(piece).is_err(),
        None => false,
    };
    if failed {
        *kept = None;
    }
}

impl<S: Source, W: Watch> Source for NotedSource<S, W> {
    ghost state = { λ s. S.state s.source };

    #[inline]
    fn next_piece(&mut self, buf: &mut [u8]) -> Result<usize, Failed> {
        let size = match self.source.next_piece(buf) {
            Ok(size) => size,
            Err(Failed) => return Err(Failed),
        };
        keep(&mut self.kept, &buf[..size]);
        Ok(size)
    }

    fn may_wait(&self) -> bool {
        self.source.may_wait()
    }

    fn note_lines(&mut self, lines: u64) {
        if let Some(meter) = &self.meter {
            meter.note_read(lines);
        }
    }
}

/// A drain of a noted folder.
#[derive(Drop)]
pub struct NotedDrain<D, W> {
    drain: D,
    meter: Option<Box<Meter<W>>>,
}

impl<D: Drain, W: Watch> Drain for NotedDrain<D, W> {
    ghost state = { λ d. D.state d.drain };

    #[inline(always)]
    fn put(&mut self, piece: &[u8]) -> Result<usize, Failed> {
        self.drain.put(piece)
    }

    #[inline(always)]
    fn note_lines(&mut self, lines: u64) {
        if let Some(meter) = &mut self.meter {
            meter.note_written(lines);
        }
    }
}

/// A folder, of whose first source the bytes are kept, so that they need not be read again, and of whose other files the lines are
/// shown if progress is wanted.
#[derive(Drop)]
pub struct NotedFolder<F, W> {
    /// The folder itself, which tells what this one tells.
    pub folder: F,
    // Whether a source was opened.
    is_read: bool,
    // What the first source handed out, once it is closed.
    text: Option<Vec<u8>>,
    progress: Option<Progress<W>>,
    // Whether the wish for progress was no number.
    is_unclear: bool,
}

/// The meter of a file that was opened, if progress is wanted.
fn meter_of<W: Watch>(
    progress: &Option<Progress<W>>,
    alloc: Global,
    name: &Line,
    is_read: bool,
) -> Option<Box<Meter<W>>> {
    match progress {
        Some(progress) => progress.enter(alloc, name, is_read).unwrap_or(None),
        None => None,
    }
}

/// Keeps the bytes that a source handed out, if they were kept.
fn keep_text(text: &mut Option<Vec<u8>>, kept: Option<Vec<u8>>) {
    if kept.is_some() {
        *text = kept;
    }
}

/// Counts a file as closed, if it was counted.
fn close_meter<W: Watch>(meter: Option<Box<Meter<W>>>) {
    if let Some(meter) = meter {
        meter.close();
    }
}

impl<F, W: Watch> NotedFolder<F, W> {
    /// Returns this folder with what the environment wishes of progress, which is told by `watch`. If memory is wanting, there is no
    /// progress.
    pub fn new(alloc: Global, folder: F, watch: W, wish: Wish) -> NotedFolder<F, W> {
        let progress = match wish {
            Wish::Every(seconds) => Progress::new(alloc, watch, seconds).ok(),
            Wish::Nothing | Wish::Unclear => None,
        };
        NotedFolder {
            folder,
            is_read: false,
            text: None,
            progress,
            is_unclear: wish == Wish::Unclear,
        }
    }
}

impl<F, W> NotedFolder<F, W> {
    /// Returns whether the environment's wish for progress was no number.
    pub fn is_unclear(&self) -> bool {
        self.is_unclear
    }

    /// Returns what the first source handed out, if it was closed and memory sufficed.
    pub fn text(&self) -> Option<&[u8]> {
        match &self.text {
            Some(text) => Some(text),
            None => None,
        }
    }
}

impl<F: Folder, W: Watch + Send> Folder for NotedFolder<F, W> {
    type Inp = NotedSource<F::Inp, W>;

    type Out = NotedDrain<F::Out, W>;

    ghost state = { λ f. F.state f.folder };

    ghost handles = { λ f. F.handles f.folder };

    fn open_in(&mut self, alloc: Global, name: &Line) -> Result<NotedSource<F::Inp, W>, OpenFault> {
        let source = match self.folder.open_in(alloc, name) {
            Ok(source) => source,
            Err(fault) => return Err(fault),
        };
        if self.is_read {
            let meter = meter_of(&self.progress, alloc, name, true);
            return Ok(NotedSource {
                source,
                kept: None,
                meter,
            });
        }
        self.is_read = true;
        Ok(NotedSource {
            source,
            kept: Some(Vec::new(alloc)),
            meter: None,
        })
    }

    fn open_out(&mut self, alloc: Global, name: &Line) -> Result<NotedDrain<F::Out, W>, OpenFault> {
        let drain = match self.folder.open_out(alloc, name) {
            Ok(drain) => drain,
            Err(fault) => return Err(fault),
        };
        let meter = meter_of(&self.progress, alloc, name, false);
        Ok(NotedDrain { drain, meter })
    }

    fn close_in(&mut self, h: NotedSource<F::Inp, W>) {
        let NotedSource {
            source,
            kept,
            meter,
        } = h;
        keep_text(&mut self.text, kept);
        close_meter(meter);
        self.folder.close_in(source);
    }

    fn close_out(&mut self, h: NotedDrain<F::Out, W>) {
        let NotedDrain { drain, meter } = h;
        close_meter(meter);
        self.folder.close_out(drain);
    }
}
