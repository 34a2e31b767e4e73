//! What a step does, whether a stage or a step of a chain runs it.
//!
//! - `task`: What the linear stages do with each element.
//! - `copies`: Functions and tests copied.
//! - `kind`, `ending`, `keeping`: What a grouped, a fold, a reduce and a scan keep between elements.
//! - `laws`, `slot`: The chain of one substream, called by its list function, and the list function of a chain of linear stages.
//!
//! Choice: docs/DECISIONS.md#steps-below-stages
#![tactic(auto)]

pub mod copies;
pub mod ending;
pub mod keeping;
pub mod kind;
pub mod laws;
pub mod slot;
pub mod task;
