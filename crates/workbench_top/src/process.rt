// The call that a process of the workbench makes with the words that it was started with.
ghost use Rattle.std.specs.Process.{exit_status};
ghost use Rattle.process_words.specs.Words.{bytes_of, command_words};
ghost use Rattle.workbench_top.specs.Call.{Works};
ghost use Rattle.workbench_top.specs.Process.{EndsWorkbench, PutsNoMemory};

use crate::answer::Answer;
use crate::top::{put_answer, run_workbench};
use elem_core::why::NoMemory;
use process_words::lines::command_lines;
use std::alloc::Global;
use std::process::ExitCode;
use stream_io::outside::{Drain, Folder, Source};

/// Puts the answer that memory was wanting, and gives the exit code.
fn put_no_memory<C: Drain, D: Drain>(alloc: Global, console: &mut C, faults: &mut D) -> u8
    ensures { PutsNoMemory (C.state console.old) (C.state console.new) (D.state faults.old) (D.state faults.new) result }
{
    put_answer(&Answer::without_memory(alloc), console, faults)
}

/// Does what the words of a process ask for, and gives the exit code.
fn answer_process<S: Source, F: Folder, C: Drain, D: Drain>(
    alloc: Global,
    words: &[Vec<u8>],
    commit: &str,
    input: &mut S,
    folder: &mut F,
    console: &mut C,
    faults: &mut D,
) -> u8
    ensures { Works (command_words (bytes_of words.now)) (F.state folder.old) (F.state folder.new) (C.state console.old) (C.state console.new)
        (D.state faults.old) (D.state faults.new) result }
{
    match command_lines(alloc, words) {
        Ok(lines) => run_workbench(alloc, &lines, commit, input, folder, console, faults),
        Err(_) => put_no_memory(alloc, console, faults),
    }
}

/// Does what the words of a process ask for, as `run_workbench` does, and gives the exit code that the process ends with. The first
/// word is the program's name. A word that is no line, or not UTF-8, counts as an empty one, which no command has. Where memory was
/// wanting as the words were read, that is answered.
pub fn call_workbench<S: Source, F: Folder, C: Drain, D: Drain>(
    alloc: Global,
    words: Result<Vec<Vec<u8>>, NoMemory>,
    commit: &str,
    input: &mut S,
    folder: &mut F,
    console: &mut C,
    faults: &mut D,
) -> ExitCode
    ensures { EndsWorkbench words (F.state folder.old) (F.state folder.new) (C.state console.old) (C.state console.new) (D.state faults.old)
        (D.state faults.new) (exit_status result) }
{
    ExitCode::from(match words {
        Ok(words) => answer_process(alloc, &words, commit, input, folder, console, faults),
        Err(_) => put_no_memory(alloc, console, faults),
    })
}
