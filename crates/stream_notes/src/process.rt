// The call that a process makes with the words that it was started with.
ghost use Rattle.std.specs.Prelude.{◌≡◌};
ghost use Rattle.std.specs.Process.{exit_status};
ghost use Rattle.stream_command.specs.Process.{EndsProcess};

use crate::folder::NotedFolder;
use crate::notes::note_of;
use crate::progress::Watch;
use elem_core::why::NoMemory;
use std::alloc::Global;
use std::marker::Send;
use std::process::ExitCode;
use std::sync::Wait;
use std::thread::Threads;
use stream_command::RunEnd;
use stream_command::process::run_process;
use stream_io::outside::{Drain, Folder};
use stream_io::put::put_all;

/// What is said of a wish for progress that is no number.
const UNCLEAR: &[u8] =
    b"streams: STREAMS_PROGRESS is a number of seconds from 1 to 86400; no progress is shown\n";

/// Says that the wish for progress is no number, if it is none.
fn put_unclear<D: Drain>(is_unclear: bool, faults: &mut D) {
    if is_unclear {
        let _ = put_all(faults, UNCLEAR);
    }
}

/// Says what is to be said of the end of a run with these words, of a blueprint of this text, if it is known.
fn put_note<D: Drain>(
    alloc: Global,
    words: &Result<Vec<Vec<u8>>, NoMemory>,
    end: &RunEnd,
    text: Option<&[u8]>,
    faults: &mut D,
) {
    if let Ok(words) = words {
        if let Ok(note) = note_of(alloc, words, &end.status, text) {
            let _ = put_all(faults, &note);
        }
    }
}

// Choices: docs/DECISIONS.md#standard-error-has-no-clause, docs/DECISIONS.md#text-is-kept
/// Does what the words of a process ask for, as `run_process` does, and returns the exit code that the process ends with. What helps to
/// mend words, a blueprint or a file of moves goes to `faults`; of what it holds then, no clause tells. A failed write there changes
/// nothing else.
pub fn call_shipped<R: Threads + Wait + Sync, F: Folder, W: Watch + Send, C: Drain, D: Drain>(
    rt: &R,
    alloc: Global,
    words: Result<Vec<Vec<u8>>, NoMemory>,
    folder: &mut NotedFolder<F, W>,
    console: &mut C,
    faults: &mut D,
) -> ExitCode
    // What is answered and left, by the words, and the exit code of that answer.
    ensures ends { EndsProcess words (exit_status result) (F.state folder.old.folder) (F.state folder.new.folder) (C.state console.old)
        (C.state console.new) }

    // Every file that it opened is closed, whatever is answered.
    ensures handles { F.handles folder.new.folder ≡ F.handles folder.old.folder }
{
    put_unclear(folder.is_unclear(), faults);
    let end = run_process(rt, alloc, &words, folder, console);
    put_note(alloc, &words, &end, folder.text(), faults);
    ExitCode::from(end.code)
}
