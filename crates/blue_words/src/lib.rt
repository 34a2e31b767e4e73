//! The words of a blueprint's text: its lines, their words, and the names and numbers that stand in words.
#![tactic(auto)]

pub mod fault;
pub mod lines;
pub mod names;
mod numerals;
pub mod places;
pub mod words;
