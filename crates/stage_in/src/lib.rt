// The stages with several inputs and one output: concat, interleave, merge_sorted and zip, whose order their lists determine,
// and merge and merge hub, whose order their moves record.
#![tactic(auto)]

pub mod handlers;
pub mod inlet;
pub mod laws;
pub mod logic;
pub mod pairing;
pub mod sorting;
pub mod taking;
pub mod zipping;
