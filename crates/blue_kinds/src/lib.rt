//! The kinds of a blueprint's nodes and the functions that they apply, read from words.
#![tactic(auto)]

pub mod decider;
pub mod edges;
mod fans;
mod folds;
mod functions;
pub mod kinds;
mod predicates;
pub mod steps;
mod substreams;
