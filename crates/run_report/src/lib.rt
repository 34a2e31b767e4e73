//! The report of a run, the generator of files, and the words of the command.
//!
//! - `outcome`, `put`, `report`, `trace`: What a call comes to, and the report of it.
//! - `generate`, `generator_put`, `write`: The files that the command generates: numbers as text, and a blueprint that reads them.
//! - `command`, `limits`, `parts`: The words of the command: what they ask for, or that they are no command.
//!
//! # How the words of the command are read
//!
//! The words are turned into texts: one that is not ASCII, or is `-` alone, is in no command. `clap` is told of the files and of each
//! option as things that may come several times, since then it has no rule on repeats: it refuses just the words that are an unknown
//! option, or an option without its value. The reader refuses what is given twice, and tests the values and their limits.
//!
//! `clap` says of such a command, as functions of the words, which kinds of fault it may answer and which values it finds. `Walking` of the
//! crate's proofs goes along the words: at each of them clap's walk stands where the grammar stands, with what it found so far. `Rows`
//! reads the values of each option off what was found, and `Texts` shows that words which are no texts are in no command.
#![tactic(auto)]

pub mod command;
pub mod generate;
mod generator_put;
mod limits;
pub mod outcome;
mod parts;
pub mod put;
pub mod report;
pub mod trace;
mod write;
