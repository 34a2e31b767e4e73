//! The program `streams`: the current folder, standard output and standard error, and the exit code.
#![tactic(auto)]

use process_words::words::words_of;
use std::process::ExitCode;
use stream_io::real::{DirFolder, StdConsole};
use stream_notes::folder::NotedFolder;
use stream_notes::process::call_shipped;
use stream_notes::progress::DrainWatch;
use stream_notes::wish::wish_of;

fn main(rt: HostRuntime) -> ExitCode {
    let alloc = rt.alloc();
    let words = words_of(&rt, alloc);
    let watch = DrainWatch::new(rt, StdConsole::new(rt.stderr()));
    let mut folder = NotedFolder::new(alloc, DirFolder::new(alloc, rt), watch, wish_of(&rt));
    let mut console = StdConsole::new(rt);
    let mut faults = StdConsole::new(rt.stderr());
    call_shipped(&rt, alloc, words, &mut folder, &mut console, &mut faults)
}
