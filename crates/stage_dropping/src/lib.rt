//! The buffers that drop, and recover.
//!
//! - `dropping`, `laws`: The stage with one input and one output that does not hold its input back: a buffer that drops.
//! - `recover`, `recover_laws`: The stage with one input and one output that turns a failure into an element and a normal end: a recover.
#![tactic(auto)]

pub mod dropping;
pub mod laws;
pub mod recover;
pub mod recover_laws;
