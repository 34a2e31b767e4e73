// The fused graph: nodes joined by wires, run event by event, for nodes of any type that is a stage.
#![tactic(auto)]

pub mod engine;
mod hand;
pub mod net;
pub mod queue;
