// A reader of lines over a source of bytes.
ghost use Rattle.std.specs.Prelude.{◌≡◌, ◌+◌, ◌<◌, ◌≤◌, ◌-◌, ◌*◌, ◌++◌, [], ◌∷◌, length, take, drop, slice_index, slice_range, vec_len, IsTrue, IsSome, IfOk, OnOk, IfErr, OnErr, IfSome, MatchOption};
ghost use Rattle.elem_core.specs.Line.{has_no_lf};
ghost use Rattle.elem_core.specs.Text.{lines};
ghost use Rattle.stream_io.specs.Counts.{Rose};
ghost use Rattle.stream_io.specs.State.{StartsWithPiece};
ghost use Rattle.stream_io.specs.Reading.{NoEnd, HoldsEnd, rest, ReadsOn, Fetched, LineEndsAt, AtEnd, TooLong, ReadToEnd, Draws, FirstTooLong};
ghost use Rattle.stream_io.specs.LineFault.{CountsFault};

use crate::outside::{Failed, Source};
use elem_core::line::Line;
use memchr::memchr;
use std::alloc::{AllocError, Global};
use std::marker::Model;

/// At most how many bytes one read asks for (own).
const PIECE: usize = 4096;

/// The most bytes that a line may have (own).
const LONGEST: usize = 65536;

/// Why no line was drawn. After an error the reader is not called again.
#[derive(Drop, Clone, Copy, PartialEq, Eq)]
pub enum LineEnd {
    /// A read failed; the source's count of failed reads rose.
    ReadFault,
    /// The next line has more than 65,536 bytes.
    LineTooLong,
    /// There is no memory for the line or for the kept bytes.
    NoMemory,
}

impl From<Failed> for LineEnd {
    ghost use Rattle.std.specs.Prelude.{◌≡◌};
    ghost use Rattle.stream_io.specs.declared.line_reader.LineEnd.TheVariants.{ReadFault};

    ghost from_gives = { λ _ e. e ≡ ReadFault };

    fn from(_failed: Failed) -> LineEnd {
        LineEnd::ReadFault
    }
}

impl From<AllocError> for LineEnd {
    ghost use Rattle.std.specs.Prelude.{◌≡◌};
    ghost use Rattle.stream_io.specs.declared.line_reader.LineEnd.TheVariants.{NoMemory};

    ghost from_gives = { λ _ e. e ≡ NoMemory };

    fn from(_error: AllocError) -> LineEnd {
        LineEnd::NoMemory
    }
}

/// A reader of the lines of a source. It reads pieces of at most 4096 bytes, and only while the bytes that it keeps hold no whole line (own).
#[derive(Drop)]
pub struct LineReader<S: Source> {
    source: S,
    // The kept bytes stand in it from `start` to `end`, and no LF stands among them before `scanned`.
    bytes: Vec<u8>,
    start: usize,
    scanned: usize,
    end: usize,
}

impl<S: Source> Model for LineReader<S> {
    ghost use Rattle.std.specs.Prelude.{slice_range};
    ghost use Rattle.stream_io.specs.Reading.{ReaderState};
    ghost use Rattle.stream_io.specs.Buffered.{IsBuffered};

    ghost Value = { ReaderState S };

    ghost view = { λ r. record { source = r.source; kept = slice_range r.bytes.items r.start r.end } };

    ghost invariant = { λ r. IsBuffered r.bytes.items r.start r.scanned r.end };
}

impl<S: Source> LineReader<S> {
    /// A reader at the first byte of what the source will hand out. It takes no memory.
    pub fn new(alloc: Global, source: S) -> LineReader<S>
        ensures source { result.source ≡ source }
        ensures kept { result.kept ≡ [] }
    {
        LineReader {
            source,
            bytes: Vec::new(alloc),
            start: 0,
            scanned: 0,
            end: 0,
        }
    }

    /// Whether the next draw may wait: it keeps no whole line, and its source's reads may wait. It takes no memory.
    pub fn may_wait(&self) -> bool {
        if !self.source.may_wait() {
            return false;
        }
        memchr(b'\n', &self.bytes[self.scanned..self.end]).is_none()
    }

    /// The source, which handed out what was read. It takes no memory.
    pub fn into_source(self) -> S
        ensures { result ≡ self.source }
    {
        self.source
    }

    /// Draws the next line: lines end in LF, a last line without LF counts, CR is kept. `None` comes only at the end, `LineTooLong` only where the next line has more than 65,536 bytes, and each comes there unless the source's count of failed reads rose in this call; `ReadFault` comes only where it rose. After an error nothing that was left to draw is lost.
    ///
    /// `drawn` says how many lines were drawn before, for the source's own use.
    pub fn next(&mut self, drawn: u64) -> Result<Option<Line>, LineEnd>
        ensures draws { IfOk result (λ next. IfSome next (λ line. IsSome (S.state self.old.source).whole
            → Draws (rest (S.state self.old.source) self.old.kept) line (rest (S.state self.new.source) self.new.kept))) }
        ensures line { IfOk result (λ next. IfSome next (λ line. IsSome (S.state self.old.source).whole
            → lines (rest (S.state self.old.source) self.old.kept) ≡ line ∷ lines (rest (S.state self.new.source) self.new.kept))) }
        ensures short { IfOk result (λ next. IfSome next (λ line. length line ≤ 65536)) }
        ensures no_lf { IfOk result (λ next. IfSome next (λ line. IsTrue (has_no_lf line))) }
        ensures end { result ≡ Ok None → ReadToEnd (S.state self.old.source) self.old.kept (S.state self.new.source) self.new.kept }
        ensures too_long { result ≡ Err LineEnd.LineTooLong → IsSome (S.state self.old.source).whole
            → FirstTooLong (lines (rest (S.state self.old.source) self.old.kept)) }
        ensures too_long_comes { IsSome (S.state self.old.source).whole → FirstTooLong (lines (rest (S.state self.old.source) self.old.kept)) → OnOk result ⊥ }
        ensures fault { IfErr result (λ e. CountsFault e (S.state self.old.source).faults (S.state self.new.source).faults) }
        ensures no_fault { OnOk result ((S.state self.new.source).faults ≡ (S.state self.old.source).faults) }
        ensures never_falls { (S.state self.old.source).faults ≤ (S.state self.new.source).faults }
        ensures drawn_before_fault { result ≡ Err LineEnd.ReadFault → NoEnd self.new.kept }
        ensures nothing_lost { OnErr result (IsSome (S.state self.old.source).whole
            → rest (S.state self.new.source) self.new.kept ≡ rest (S.state self.old.source) self.old.kept) }
        ensures untouched { HoldsEnd self.old.kept → self.new.source ≡ self.old.source }
        ensures few { OnOk result (length self.new.kept ≤ 4096) }
        ensures bound { length self.new.kept ≤ 69632 }
        ensures given { (S.state self.old.source).given ≤ (S.state self.new.source).given }
        ensures reads { (S.state self.new.source).given + length self.old.kept ≤ (S.state self.old.source).given + 69632 }
        ensures read_for_line { IfOk result
            (λ next. IfSome next (λ line.
            (S.state self.new.source).given + length self.old.kept ≤ (S.state self.old.source).given + (length self.new.kept + (length line + 1)))) }
        ensures read_at_end { result ≡ Ok None → (S.state self.new.source).given + length self.old.kept ≡
            (S.state self.old.source).given + length self.new.kept }
        ensures read_at_fault { OnErr result ((S.state self.new.source).given + length self.old.kept ≡ (S.state self.old.source).given + length self.new.kept) }
        ensures name { (S.state self.new.source).name ≡ (S.state self.old.source).name }
        ensures whole { (S.state self.new.source).whole ≡ (S.state self.old.source).whole }
    {
        match self.fill(drawn)? {
            Some(at) => Ok(Some(self.draw(at, at + 1)?)),
            None => {
                let kept = self.kept_len();
                if kept == 0 {
                    return Ok(None);
                }
                Ok(Some(self.draw(kept, kept)?))
            }
        }
    }

    // Where the first whole line ends, counted from the first kept byte.
    fn find_end(&mut self) -> Option<usize>
        ensures same { self.new ≡ self.old }
        ensures none { result ≡ None → NoEnd self.old.kept }
        ensures within { IfSome result (λ at. at < length self.old.kept) }
        ensures before { IfSome result (λ at. NoEnd (take at self.old.kept)) }
        ensures found { IfSome result (λ at. slice_index self.old.kept at ≡ 10) }
        ensures near { IfSome result (λ at. length self.old.kept ≤ at + 4096) }
        ensures bound { length self.old.kept ≤ 69632 }
    {
        match memchr(b'\n', &self.bytes[self.scanned..self.end]) {
            None => {
                self.scanned = self.end;
                None
            }
            Some(at) => {
                self.scanned += at;
                Some(self.scanned - self.start)
            }
        }
    }

    // How many bytes are kept.
    fn kept_len(&self) -> usize
        ensures { result ≡ length self.now.kept }
    {
        self.end - self.start
    }

    // Reads one piece behind the kept bytes, all of which were searched; 0 is the end of the source. So many lines were drawn before.
    fn read(&mut self, drawn: u64) -> Result<usize, LineEnd>
        requires searched { NoEnd self.old.kept }
        requires short { length self.old.kept ≤ 65536 }
        ensures kept { IfOk result (λ n. length self.new.kept ≡ length self.old.kept + n) }
        ensures piece { IfOk result (λ n. n ≤ 4096) }
        ensures bytes { IfOk result (λ n. IfSome (S.state self.old.source).whole
            (λ whole. ReadsOn whole (S.state self.old.source).given n self.old.kept self.new.kept)) }
        ensures nothing { result ≡ Ok 0 → self.new.kept ≡ self.old.kept }
        ensures end { result ≡ Ok 0 → IfSome (S.state self.old.source).whole (λ whole. length whole ≤ (S.state self.old.source).given) }
        ensures given { IfOk result (λ n. (S.state self.new.source).given ≡ (S.state self.old.source).given + n) }
        ensures no_fault { OnOk result ((S.state self.new.source).faults ≡ (S.state self.old.source).faults) }
        ensures fault { IfErr result (λ e. CountsFault e (S.state self.old.source).faults (S.state self.new.source).faults) }
        ensures not_long { result ≡ Err LineEnd.LineTooLong → ⊥ }
        ensures failed_given { OnErr result ((S.state self.new.source).given ≡ (S.state self.old.source).given) }
        ensures failed_kept { OnErr result (self.new.kept ≡ self.old.kept) }
        ensures never_falls { (S.state self.old.source).faults ≤ (S.state self.new.source).faults }
        ensures name { (S.state self.new.source).name ≡ (S.state self.old.source).name }
        ensures whole { (S.state self.new.source).whole ≡ (S.state self.old.source).whole }
    {
        let room = make_room(&mut self.bytes, self.start, self.end);
        self.end -= self.start;
        self.scanned = self.end;
        self.start = 0;
        room?;
        let n = read_at(&mut self.source, &mut self.bytes, self.end, drawn)?;
        self.end += n;
        Ok(n)
    }

    // Reads until the kept bytes hold a whole line, and says where it ends; None where the source ended before.
    fn fill(&mut self, drawn: u64) -> Result<Option<usize>, LineEnd>
        ensures reads { Fetched (S.state self.old.source) self.old.kept (S.state self.new.source) self.new.kept }
        ensures untouched { HoldsEnd self.old.kept → self.new ≡ self.old }
        ensures no_fault { OnOk result ((S.state self.new.source).faults ≡ (S.state self.old.source).faults) }
        ensures fault { IfErr result (λ e. CountsFault e (S.state self.old.source).faults (S.state self.new.source).faults) }
        ensures never_falls { (S.state self.old.source).faults ≤ (S.state self.new.source).faults }
        ensures bound { length self.new.kept ≤ 69632 }
        ensures found { IfOk result (λ found. IfSome found (LineEndsAt self.new.kept)) }
        ensures end { result ≡ Ok None → AtEnd (S.state self.new.source) self.new.kept }
        ensures too_long { result ≡ Err LineEnd.LineTooLong → TooLong self.new.kept }
        ensures read_fault { result ≡ Err LineEnd.ReadFault → NoEnd self.new.kept }
    {
        loop {
            match self.find_end() {
                Some(at) if at > LONGEST => return Err(LineEnd::LineTooLong),
                Some(at) => return Ok(Some(at)),
                None => {}
            }
            if self.kept_len() > LONGEST {
                return Err(LineEnd::LineTooLong);
            }
            if self.read(drawn)? == 0 {
                return Ok(None);
            }
        }
    }

    // Gives out the first kept bytes as a line, and leaves those past a place.
    fn draw(&mut self, size: usize, past: usize) -> Result<Line, LineEnd>
        requires ordered { size ≤ past }
        requires within { past ≤ length self.old.kept }
        requires short { size ≤ 65536 }
        requires no_end { NoEnd (take size self.old.kept) }
        requires few { length self.old.kept ≤ past + 4096 }
        ensures line { IfOk result (λ line. line ≡ take size self.old.kept) }
        ensures no_lf { IfOk result (λ line. IsTrue (has_no_lf line)) }
        ensures kept { OnOk result (self.new.kept ≡ drop past self.old.kept) }
        ensures source { self.new.source ≡ self.old.source }
        ensures err { OnErr result (self.new ≡ self.old) }
        ensures no_memory { IfErr result (λ e. e ≡ LineEnd.NoMemory) }
    {
        let line = &self.bytes[self.start..self.start + size];
        let bytes = Vec::from_slice(*self.bytes.allocator(), line)?;
        self.start += past;
        self.scanned = self.start;
        Ok(Line::of(bytes))
    }
}

// Moves the kept bytes to the front, and makes room for one piece behind them.
fn make_room(bytes: &mut Vec<u8>, start: usize, end: usize) -> Result<(), AllocError>
    requires begins { start ≤ end }
    requires fits { end ≤ vec_len bytes.old }
    requires short { end ≤ start + 65536 }
    ensures kept { take (end - start) bytes.new.items ≡ slice_range bytes.old.items start end }
    ensures still { end - start ≤ vec_len bytes.new }
    ensures room { OnOk result (end - start + 4096 ≤ vec_len bytes.new) }
{
    if start != 0 {
        bytes.copy_within(start..end, 0);
    }
    let wanted = end - start + PIECE;
    if bytes.len() < wanted {
        bytes.resize(2 * wanted, 0)?;
    }
    Ok(())
}

// Reads one piece into the buffer at a place. So many lines were drawn before.
fn read_at<S: Source>(
    source: &mut S,
    bytes: &mut [u8],
    at: usize,
    drawn: u64,
) -> Result<usize, Failed>
    requires { at + 4096 ≤ length bytes.old }
    ensures front { take at bytes.new ≡ take at bytes.old }
    ensures piece { IfOk result (λ n. n ≤ 4096) }
    ensures bytes { IfOk result (λ n. IfSome (S.state source.old).whole (λ whole. StartsWithPiece whole (S.state source.old).given
        (slice_range bytes.new at (at + n)))) }
    ensures given { IfOk result (λ n. (S.state source.new).given ≡ (S.state source.old).given + n) }
    ensures end { result ≡ Ok 0 → IfSome (S.state source.old).whole (λ whole. length whole ≤ (S.state source.old).given) }
    ensures no_fault { OnOk result ((S.state source.new).faults ≡ (S.state source.old).faults) }
    ensures fault { OnErr result (Rose (S.state source.old).faults (S.state source.new).faults) }
    ensures failed { OnErr result ((S.state source.new).given ≡ (S.state source.old).given) }
    ensures never_falls { (S.state source.old).faults ≤ (S.state source.new).faults }
    ensures name { (S.state source.new).name ≡ (S.state source.old).name }
    ensures whole { (S.state source.new).whole ≡ (S.state source.old).whole }
{
    source.note_lines(drawn);
    source.next_piece(&mut bytes[at..at + PIECE])
}
