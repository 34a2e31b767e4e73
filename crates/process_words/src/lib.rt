//! The words that a process was started with, as the lines that a command is read from.
//!
//! - `lines`: The lines of words: one that is no line, or not UTF-8, is the empty line, which no command has.
//! - `words`: The words of a process, as bytes.
#![tactic(auto)]

pub mod lines;
pub mod words;
