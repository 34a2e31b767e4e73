//! Names of nodes and of ports, the wires by their numbers, and the rules that speak of them.
//!
//! - `spot`, `typed`, `want`: When a blueprint can be run: the rules, as definitions, with the values that they speak of.
//! - `claims`, `custom_ports`, `hubs`, `links`, `names`, `outs`, `ports`, `sizes`, `table`: The rules on names, ports, sizes and the wires of hubs: each answers the first place at which it is broken.
#![tactic(auto)]

pub mod claims;
pub mod custom_ports;
pub mod hubs;
pub mod links;
pub mod names;
pub mod outs;
pub mod ports;
pub mod sizes;
pub mod spot;
pub mod table;
pub mod typed;
pub mod want;
