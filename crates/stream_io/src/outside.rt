// The traits of the outside.
ghost use Rattle.std.specs.Prelude.{ℕ, ◌≡◌, ◌+◌, ◌-◌, ◌<◌, ◌≤◌, ◌++◌, ◌⊎◌, length, take, IfOk, OnOk, OnErr, IfSome};
ghost use Rattle.std.specs.Option.{option_map};
ghost use Rattle.stream_io.specs.Counts.{Rose};
ghost use Rattle.stream_io.specs.State.{SourceState, DrainState, FolderState, StartsWithPiece, SameFiles, SameFaults, SameRefusals, RefusesName, LacksFile, OpensSource, OpensDrain, ClosesSource, ClosesDrain};

use elem_core::line::Line;
use std::alloc::{AllocError, Global};

/// A read or a write of the outside failed; the count of the source or drain rose.
#[derive(Drop, Clone, Copy, PartialEq, Eq)]
pub struct Failed;

/// Why a file was not opened.
#[derive(Drop, Clone, Copy, PartialEq, Eq)]
pub enum OpenFault {
    /// The folder has no such file, or refused to open it.
    Missing,
    NoMemory,
}

impl From<AllocError> for OpenFault {
    ghost use Rattle.std.specs.Prelude.{◌≡◌};
    ghost use Rattle.stream_io.specs.declared.outside.OpenFault.TheVariants.{NoMemory};

    ghost from_gives = { λ _ e. e ≡ NoMemory };

    fn from(_error: AllocError) -> OpenFault {
        OpenFault::NoMemory
    }
}

/// A source of bytes, which hands them out in pieces.
pub trait Source: Drop {
    /// What it tells: its name, its bytes where they are told, how many it handed out, and how many reads failed.
    ghost state: { Self → SourceState };

    /// Writes the next bytes to the front of `buf` and says how many: 0 means the end. `Failed` comes only where the count of failed reads rose, and then nothing was handed out.
    fn next_piece(&mut self, buf: &mut [u8]) -> Result<usize, Failed>
        requires { 0 < length buf.old }
        ensures fits { IfOk result (λ n. n ≤ length buf.new) }
        ensures given { IfOk result (λ n. (state self.new).given ≡ (state self.old).given + n) }
        ensures bytes { IfOk result (λ n. IfSome (state self.old).whole (λ whole. StartsWithPiece whole (state self.old).given (take n buf.new))) }
        ensures end { result ≡ Ok 0 → IfSome (state self.old).whole (λ whole. length whole ≤ (state self.old).given) }
        ensures no_fault { OnOk result ((state self.new).faults ≡ (state self.old).faults) }
        ensures fault { OnErr result (Rose (state self.old).faults (state self.new).faults) }
        ensures failed { OnErr result ((state self.new).given ≡ (state self.old).given) }
        ensures never_falls { (state self.old).faults ≤ (state self.new).faults }
        ensures name { (state self.new).name ≡ (state self.old).name }
        ensures whole { (state self.new).whole ≡ (state self.old).whole };

    /// Whether a read may wait until someone writes, as that of a pipe does. A hint, on which no clause rests (own).
    fn may_wait(&self) -> bool {
        false
    }

    /// Is told, before a read, how many lines were drawn of what it handed out. A hint, on which no clause rests (own).
    fn note_lines(&mut self, _lines: u64)
        ensures { state self.new ≡ state self.old }
    {}
}

/// A drain that takes bytes and keeps them in order.
pub trait Drain: Drop {
    /// What it tells: its name, the bytes that it holds where they are told, and how many writes failed.
    ghost state: { Self → DrainState };

    /// Appends bytes from the front of `piece` and says how many, 1 at least. `Failed` comes only where the count of failed writes rose, and then nothing was appended.
    fn put(&mut self, piece: &[u8]) -> Result<usize, Failed>
        requires { 0 < length piece.now }
        ensures some { IfOk result (λ n. 0 < n) }
        ensures fits { IfOk result (λ n. n ≤ length piece.now) }
        ensures appends { IfOk result (λ n. (state self.new).holds ≡ option_map (λ held. held ++ take n piece.now) (state self.old).holds) }
        ensures no_fault { OnOk result ((state self.new).faults ≡ (state self.old).faults) }
        ensures fault { OnErr result (Rose (state self.old).faults (state self.new).faults) }
        ensures failed { OnErr result ((state self.new).holds ≡ (state self.old).holds) }
        ensures never_falls { (state self.old).faults ≤ (state self.new).faults }
        ensures name { (state self.new).name ≡ (state self.old).name };

    /// Is told, behind the writes of lines, how many whole lines it was given. A hint, on which no clause rests (own).
    fn note_lines(&mut self, _lines: u64)
        ensures { state self.new ≡ state self.old }
    {}
}

// Choice: docs/DECISIONS.md#open-handles-are-counted
/// A folder of named files.
pub trait Folder {
    type Inp: Source + Send;

    type Out: Drain + Send;

    /// What it tells: its files where it tells them, and for each name how often an opening was refused, how many reads and writes of closed handles failed, how many bytes closed sources handed out.
    ghost state: { Self → FolderState };

    /// How many of its handles are open: it opened them, and did not take them back.
    ghost handles: { Self → ℕ };

    /// Opens the file of that name to read it from its start. It changes no file, and never ends the telling. Where it opens one there is one open handle more.
    fn open_in(&mut self, alloc: Global, name: &Line) -> Result<Self::Inp, OpenFault>
        ensures opened { IfOk result (λ h. OpensSource (state self.old) name.now (Self.Inp.state h)) }
        ensures missing { result ≡ Err OpenFault.Missing → LacksFile (state self.old) name.now
            ⊎ Rose ((state self.old).refusals name.now) ((state self.new).refusals name.now) }
        ensures files { SameFiles (state self.old) (state self.new) }
        ensures faults { SameFaults (state self.old) (state self.new) }
        ensures no_refusal { OnOk result (SameRefusals (state self.old) (state self.new)) }
        ensures one_more { OnOk result (handles self.new ≡ handles self.old + 1) }
        ensures no_more { OnErr result (handles self.new ≡ handles self.old) }
        ensures no_memory { result ≡ Err OpenFault.NoMemory → SameRefusals (state self.old) (state self.new) }
        ensures refusal { RefusesName (state self.old) (state self.new) name.now };

    /// Makes the file of that name empty, and opens it to write it; a folder may cease to tell its files here. A refused opening changes no file. Where it opens one there is one open handle more.
    fn open_out(&mut self, alloc: Global, name: &Line) -> Result<Self::Out, OpenFault>
        ensures opened { IfOk result (λ h. OpensDrain (state self.old) (state self.new) name.now (Self.Out.state h)) }
        ensures missing { result ≡ Err OpenFault.Missing → Rose ((state self.old).refusals name.now) ((state self.new).refusals name.now) }
        ensures files { OnErr result (SameFiles (state self.old) (state self.new)) }
        ensures faults { SameFaults (state self.old) (state self.new) }
        ensures no_refusal { OnOk result (SameRefusals (state self.old) (state self.new)) }
        ensures one_more { OnOk result (handles self.new ≡ handles self.old + 1) }
        ensures no_more { OnErr result (handles self.new ≡ handles self.old) }
        ensures no_memory { result ≡ Err OpenFault.NoMemory → SameRefusals (state self.old) (state self.new) }
        ensures refusal { RefusesName (state self.old) (state self.new) name.now };

    /// Takes a source back, and adds its counts to those of its name. It changes no file, and never ends the telling. There is one open handle less; where none was open, as of a handle of another folder, there is none.
    fn close_in(&mut self, h: Self::Inp)
        ensures closed { ClosesSource (state self.old) (state self.new) (Self.Inp.state h) }
        ensures files { SameFiles (state self.old) (state self.new) }
        ensures one_less { handles self.new ≡ handles self.old - 1 };

    /// Takes a drain back, and adds its count to that of its name. The file of its name is then what the drain held; a folder that does not know that ceases to tell its files. There is one open handle less, as at a source.
    fn close_out(&mut self, h: Self::Out)
        ensures closed { ClosesDrain (state self.old) (state self.new) (Self.Out.state h) }
        ensures one_less { handles self.new ≡ handles self.old - 1 };
}
