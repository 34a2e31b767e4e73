//! The chain of linear stages that each substream of a stage runs.
//!
//! # The chain
//!
//! `LineChain` is the chain that the program runs in a substream: its steps in a list, each with the work that it begins with, so that a
//! fresh chain is made of a used one, and no blueprint is needed for it. A call runs the steps one after another, each over all that the
//! one before gave. There are no ports between them, and so no events and no units.
#![tactic(auto)]

pub mod batch;
pub mod kind;
pub mod line;
pub mod step;
pub mod work;
