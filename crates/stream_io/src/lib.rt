//! The outside of a run: folders, files read by lines and written by texts, the files of a run opened and closed, and whole files read.
//!
//! - `fail_at`, `handles`, `line_reader`, `mem_drain`, `mem_folder`, `named_file`, `outside`, `put`, `real`, `sure`, `tally`: The outside of the program: sources of bytes, drains for bytes and folders of named files, and a reader of lines.
//! - `close`, `open`: The files of a run: its inputs and its outputs are opened before it, and closed behind it.
//! - `text`: The text of a blueprint's file: read to its end, or to one byte past the greatest length of a blueprint.
#![tactic(auto)]

pub mod close;
pub mod fail_at;
mod handles;
pub mod line_reader;
pub mod mem_drain;
pub mod mem_folder;
pub mod named_file;
pub mod open;
pub mod outside;
pub mod put;
pub mod real;
pub mod sure;
mod tally;
pub mod text;
