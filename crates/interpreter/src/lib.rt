//! An island of fused stages: it is made from its parts, executes events, and is closed; its boundary stages are called by their wires.
//!
//! - `calls`, `given`: What the boundary stages of an island do between two events: the calls that join it to its lanes.
//! - `island`, `lane_ends`, `parts`, `room`, `ways`: The fused interpreter: an island of nodes that runs event by event.
#![tactic(auto)]

pub mod calls;
pub mod island;
mod lane_ends;
pub mod parts;
pub mod room;
pub mod wanted;
pub mod ways;
