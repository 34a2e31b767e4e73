//! The body of an island: its boundaries are served from and to its lanes, and its events executed, turn by turn.
//!
//! - `found`, `input`, `laws`, `output`: The two ends of a lane at the stages of an island: what the island hands out is sent, and what the lane brings is handed on.
//! - `body`, `meeting`, `peers`, `table`, `way`, `woken`: The body of an island: the island with the ends of its lanes, which takes turns and whose lanes are brought together with those of others.
#![tactic(auto)]

pub mod body;
pub mod found;
pub mod input;
pub mod laws;
pub mod meeting;
pub mod output;
pub mod peers;
pub mod table;
pub mod way;
mod woken;
