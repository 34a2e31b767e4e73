//! A plug as a custom stage: it asks at its ports for what the stage of a plug does there.
#![tactic(auto)]

pub mod holding;
pub mod laws;
pub mod lift;
