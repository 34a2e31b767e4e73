//! Connections with their port rules, the actions of handlers, the logs of picks, and one wire of an island with what its two ends know of it.
//!
//! - `act`, `acts`, `chain`, `conn`, `laws`, `pick_log`, `ring`, `view`: Connections with their port rules, the ring of those that have an event, the actions of handlers and the logs of picks.
//! - `wire`, `wire_laws`: One wire of an island: its connection, what its two ends know of it, and its histories.
#![tactic(auto)]

pub mod act;
pub mod acts;
pub mod chain;
pub mod conn;
pub mod laws;
pub mod pick_log;
pub mod ring;
pub mod view;
pub mod wire;
pub mod wire_laws;
