//! The program `blueprint`: the current folder, standard input, output and error, and the exit code.
#![tactic(auto)]

mod streams;

use process_words::words::words_of;
use std::process::ExitCode;
use stream_io::real::{DirFolder, StdConsole};
use streams::{Input, WriterDrain};
use workbench_top::process::call_workbench;

// Choice: docs/DECISIONS.md#commit-is-put-in
/// The commit of the sources, as `--version` prints it. `tools/prove` and `tools/quick` put it here, in the copy that they build.
const COMMIT: &str = "unknown";

fn main(rt: HostRuntime) -> ExitCode {
    let alloc = rt.alloc();
    let words = words_of(&rt, alloc);
    let mut input = Input::new(rt.stdin());
    let mut folder = DirFolder::new(alloc, rt);
    let mut console = StdConsole::new(rt);
    let mut faults = WriterDrain::new(rt.stderr());
    call_workbench(
        alloc,
        words,
        COMMIT,
        &mut input,
        &mut folder,
        &mut console,
        &mut faults,
    )
}
