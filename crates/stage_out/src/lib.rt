//! The stages with one input and several outputs.
//!
//! - `balance_laws`, `balancing`: The stage with several outputs that gives each element to the one that asked first: balance.
//! - `copy_logic`, `handlers`, `laws`, `logic`, `machines`, `partition_logic`: The stages with one input and several outputs.
#![tactic(auto)]

pub mod balance_laws;
pub mod balancing;
pub mod copy_logic;
pub mod handlers;
pub mod laws;
pub mod logic;
pub mod machines;
pub mod partition_logic;
