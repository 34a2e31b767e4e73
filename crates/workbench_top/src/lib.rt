//! The workbench's call: its words, its answers and their explanations.
//!
//! - `task`, `word_texts`: The words of the workbench: which command, on which file, with which numbers.
//! - `explain`, `marks`, `reasons`, `ring`, `scene`, `sinks`, `statuses`, `wires`: A report of a run in words: how it ended, what each file holds, who is to blame, and which node waits for which; and what of it a drawing shows.
//! - `answer`, `comments`, `files`, `rows`, `texts`: What the workbench answers to each of its works, on the text of a blueprint's file, and to a row.
//! - `process`: The call that the program makes, from the words of its process to the exit code.
//! - `report`, `top`: The workbench: its words are read, then the blueprint's file, and what is wanted of it is put on the console.
//!
//! Choice: docs/DECISIONS.md#stands-low
#![tactic(auto)]

pub mod answer;
mod comments;
pub mod explain;
mod files;
mod marks;
pub mod process;
mod reasons;
mod report;
mod ring;
pub mod rows;
mod scene;
mod sinks;
mod statuses;
pub mod task;
pub mod texts;
pub mod top;
mod wires;
mod word_texts;
