//! The stages that run a chain of linear stages for each of several substreams.
//!
//! # A stage with substreams
//!
//! `SubLogic` is a `SubState` and, where its substreams come together by `merge`, a log. The state has the chain as it was made, the
//! substreams (`KeptSubs`) and the outputs that are held, each with the number of its substream (`Outputs`). A split keeps its last
//! substream alone, since those before have ended; a group_by keeps a map from keys to places, and at each place a chain, or none where
//! that substream has stopped. An element is given to its substream, which may open or end one; what its chain gives is put behind the
//! outputs that are held; the first of them goes out when the output asks, and the input is asked when none is held.
//!
//! The stage is written and proved for a chain of any type, by the list functions that the trait `Chain` tells. The program's chain is
//! `LineChain` of line_chain.
#![tactic(auto)]

pub mod blame;
pub mod group;
pub mod handlers;
pub mod kept;
pub mod keyed;
pub mod last;
pub mod laws;
mod log;
pub mod logic;
pub mod opening;
pub mod outputs;
pub mod places;
mod scratch;
pub mod split;
mod state;
