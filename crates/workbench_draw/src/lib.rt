//! A blueprint's faults told by lines, its drawing, and its turns.
//!
//! - `forms`, `hints`, `judge`, `lacks`, `message`, `modules`, `origins`, `place`, `sayings`, `source`, `walk`: The faults of blueprints in words: the first fault of a text, its place, its line and what to do.
//! - `ways`: Warnings of a blueprint that breaks no rule, where its run may stall.
//! - `draw`, `frames`, `known`, `labels`, `lines`, `look`, `marks`, `ports`, `types`, `wires`: The graph of a blueprint, in the DOT language: its nodes by their roles, wires with their types, islands and lanes, the instances of modules, a place that is at fault, and what a report says of a run.
//! - `carried`, `turns`, `units`: How many units suffice for the run of a blueprint, where its sources give so many elements and every stage passes all on.
#![tactic(auto)]

mod carried;
pub mod draw;
mod forms;
mod frames;
mod hints;
pub mod judge;
mod known;
mod labels;
mod lacks;
mod lines;
mod look;
pub mod marks;
pub mod message;
mod modules;
pub mod origins;
pub mod place;
mod ports;
pub mod sayings;
pub mod source;
pub mod turns;
mod types;
mod units;
mod walk;
pub mod ways;
mod wires;
