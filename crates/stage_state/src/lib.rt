// The stages with one input and one output that keep elements: groups, folds, scans, buffers and recovers.
#![tactic(auto)]

pub mod buffer;
pub mod handlers;
pub mod keep;
pub mod laws;
pub mod logic;
pub mod machine;
