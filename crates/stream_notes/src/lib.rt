//! What the program `streams` says on standard error beside its run, and the exit code that it ends with.
//!
//! - `moves`, `notes`, `usage`: What is said after a run: which of the words is at fault, what is wrong with the blueprint, or with the file of moves.
//! - `progress`, `wish`: How many lines were read and written, told every so many seconds if the environment asks for it.
//! - `folder`: The folder of a run, of which the blueprint's text is kept, and lines are counted for progress.
//! - `process`: The call that the program makes, from the words of its process to the exit code.
#![tactic(auto)]

pub mod folder;
mod moves;
mod notes;
pub mod process;
pub mod progress;
mod usage;
pub mod wish;
