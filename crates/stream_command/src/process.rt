// What the words that a process was started with come to.
ghost use Rattle.std.specs.Prelude.{◌≡◌};
ghost use Rattle.process_words.specs.Words.{bytes_of, command_words};
ghost use Rattle.stream_command.specs.Process.{AnswersProcess, AnswersShipped};

use crate::shipped_run::run_shipped;
use crate::{RunEnd, end_before_run};
use elem_core::why::NoMemory;
use process_words::lines::command_lines;
use run_report::outcome::Status;
use std::alloc::Global;
use std::sync::Wait;
use std::thread::Threads;
use stream_io::outside::{Drain, Folder};

/// What the words of a process come to.
#[tactic(auto, using(crate::proofs::Answering::gave_up))]
fn answer_words<R: Threads + Wait + Sync, F: Folder, C: Drain>(
    rt: &R,
    alloc: Global,
    words: &[Vec<u8>],
    folder: &mut F,
    console: &mut C,
) -> RunEnd
    ensures answers { AnswersShipped (command_words (bytes_of words.now)) result (F.state folder.old) (F.state folder.new) (C.state console.old)
        (C.state console.new) }
    ensures handles { F.handles folder.new ≡ F.handles folder.old }
{
    match command_lines(alloc, words) {
        Ok(lines) => run_shipped(rt, alloc, &lines, folder, console),
        Err(_) => end_before_run(alloc, Status::NoMemory, console),
    }
}

/// Does what the words of a process ask for, as `run_shipped` does, and returns how that ended, with the exit code that it asks for.
/// The first word is the program's name. A word that is no line, or not UTF-8, counts as an empty one, which no command has. If the
/// words could not be read for lack of memory, the answer is NoMemory.
pub fn run_process<R: Threads + Wait + Sync, F: Folder, C: Drain>(
    rt: &R,
    alloc: Global,
    words: &Result<Vec<Vec<u8>>, NoMemory>,
    folder: &mut F,
    console: &mut C,
) -> RunEnd
    // What is answered and left, by the words.
    ensures answers { AnswersProcess words.now result (F.state folder.old) (F.state folder.new) (C.state console.old) (C.state console.new) }

    // Every file that it opened is closed, whatever is answered.
    ensures handles { F.handles folder.new ≡ F.handles folder.old }
{
    match words {
        Ok(words) => answer_words(rt, alloc, words, folder, console),
        Err(_) => end_before_run(alloc, Status::NoMemory, console),
    }
}
