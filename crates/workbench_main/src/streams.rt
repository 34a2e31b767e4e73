// Standard input and standard error, which tell no contents.
ghost use Rattle.std.specs.Prelude.{[], None};

use std::io::{IsTerminal, Read, Write};
use stream_io::outside::{Drain, Failed, Source};

// Choice: docs/DECISIONS.md#standard-streams
/// A reader as a source.
#[derive(Drop)]
pub struct Input<R> {
    reader: R,
    is_terminal: bool,
    given: u64,
    faults: u64,
}

impl<R: Read + IsTerminal + Drop> Input<R> {
    /// The source of this reader. It takes no memory.
    pub fn new(reader: R) -> Input<R> {
        let is_terminal = reader.is_terminal();
        Input {
            reader,
            is_terminal,
            given: 0,
            faults: 0,
        }
    }
}

impl<R: Read + Drop> Source for Input<R> {
    ghost state = { λ s. record { name = []; whole = None; given = s.given; faults = s.faults } };

    fn next_piece(&mut self, buf: &mut [u8]) -> Result<usize, Failed> {
        if let Ok(size) = self.reader.read(buf) {
            if let Some(given) = self.given.checked_add(size as u64) {
                self.given = given;
                return Ok(size);
            }
        }
        self.faults = self.faults.saturating_add(1);
        Err(Failed)
    }

    /// Whether it is a terminal, where a read waits until someone types.
    fn may_wait(&self) -> bool {
        self.is_terminal
    }
}

/// A writer as a drain. A put writes straight to it.
#[derive(Drop)]
pub struct WriterDrain<W> {
    writer: W,
    faults: u64,
}

impl<W: Write + Drop> WriterDrain<W> {
    /// The drain of this writer. It takes no memory.
    pub fn new(writer: W) -> WriterDrain<W> {
        WriterDrain { writer, faults: 0 }
    }
}

impl<W: Write + Drop> Drain for WriterDrain<W> {
    ghost state = { λ d. record { name = []; holds = None; faults = d.faults } };

    fn put(&mut self, piece: &[u8]) -> Result<usize, Failed> {
        if let Ok(size) = self.writer.write(piece) {
            if size != 0 {
                return Ok(size);
            }
        }
        self.faults = self.faults.saturating_add(1);
        Err(Failed)
    }
}
