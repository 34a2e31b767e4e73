//! The language of blueprints: how its words are spelt, its parser and its printer.
//!
//! - `functions`, `kinds`, `words`: The kinds of a blueprint's nodes and the functions that they apply, written as words.
//! - `attrs`, `places`, `declarations`: What one line declares, in a text of either version.
//! - `progress`, `parse`, `print`: A text, read and written.
//! - `laws`, `worked`: Laws and worked values of the definitions.
#![tactic(auto)]

mod attrs;
mod declarations;
mod functions;
pub mod kinds;
pub mod laws;
pub mod parse;
mod places;
pub mod print;
mod progress;
pub mod words;
pub mod worked;
