//! The laws of bodies that run together: lanes between islands, and the account of the whole graph.
//!
//! - `lane_laws`: The two ends of a lane of lane_core, and the input boundary, as an account of a run tells of them. Laws alone.
//! - `stand_laws`: A lane between two stages of islands, as an account of a run tells of it, from what its two ends keep there. Laws alone.
//! - `seat_laws`: Where the nodes and the wires of a blueprint stand, in the nets of its islands.
//! - `laws`: The bodies of a blueprint's islands give the account of a run, and what they leave is a run of their blueprint. Laws alone.
#![tactic(auto)]

pub mod lane_laws;
pub mod laws;
pub mod seat_laws;
pub mod stand_laws;
