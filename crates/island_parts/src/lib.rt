//! How the nodes, wires and handles of a blueprint are parted into islands, and joined again behind a run.
//!
//! - `laws`, `links`, `spaces`, `split`, `whole`: The parts of all islands of a blueprint, whose lanes are cut.
//! - `start`: Several islands are started, or all of them are taken apart.
//! - `ends_laws`, `join`, `lists`, `room`: What several islands leave at their end is brought back into one, in order of the blueprint's nodes and wires.
#![tactic(auto)]

pub mod ends_laws;
pub mod join;
pub mod laws;
mod links;
pub mod lists;
pub mod room;
pub mod spaces;
pub mod split;
pub mod start;
pub mod whole;
