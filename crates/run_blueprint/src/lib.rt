//! The run of a blueprint over its files, and the types of what its wires carry.
//!
//! - `laws`: In an island that was made of a checked blueprint every function meets an element of its type; what the wires of hubs carry of their parties: laws alone, no code.
//! - `run`: The run of a blueprint over a folder: its files are opened, its islands run, and the files are closed.
#![tactic(auto)]

pub mod laws;
pub mod run;

pub use island_runs::ran::Ran;
