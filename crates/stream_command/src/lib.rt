//! The whole call: the command's words, the run of the file that they name, the report, and the plugs that the program ships.
//!
//! - `answer`, `sure`, `top`: The run of a file: its blueprint is read and run, and the report is written.
//! - `replays`: The moves that the stages of a blueprint follow, by the file of moves.
//! - `run`: The command: its words are read, files are generated where they ask for it, the file is run, and the report is written.
//! - `laws`, `shipped_run`: The whole call with the plugs that the program ships.
//! - `headline`: What the files of sinks hold after a call, as short laws.
//! - `process`: What the words of a process come to, which is what the program answers.
#![tactic(auto)]

mod answer;
pub mod headline;
pub mod laws;
pub mod process;
pub mod replays;
pub mod run;
pub mod shipped_run;
pub mod sure;
pub mod top;

pub use crate::sure::run_surely;
pub use crate::top::{RunEnd, end_before_run};
pub use run_report::outcome;
pub use run_report::outcome::Status;
