// Lists that are shared out to homes, and brought back into one.
#![tactic(auto)]

pub mod laws;
pub mod ranks;
pub mod shares;
