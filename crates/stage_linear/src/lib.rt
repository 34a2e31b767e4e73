// The stages with one input and one output that keep nothing between elements but a count, and those of the caller's logics.
#![tactic(auto)]

pub mod course;
pub mod handlers;
pub mod laws;
pub mod logic;
pub mod plug;
pub mod worker;
