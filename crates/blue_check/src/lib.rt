//! The rules of a fit blueprint, in their order: walks over its wires, the check itself, and its islands' labels.
//!
//! - `classes`, `closed`, `components`, `depth`, `forest`, `marks`, `ranks`: Walks along wires: the first wire on a closed one, and whether any is closed when directions are ignored.
//! - `check`, `checked`, `detail`, `fault`, `flatten`, `judge`, `picks`, `rules`: Whether a text has a blueprint and it can be run: the first rule that is broken, or the blueprint as one that was checked.
//! - `fill`, `homes`, `island_labels`, `islands`, `lanes`, `plan`: Which nodes of a blueprint run together: its islands, and the lanes that join them.
//!
//! # The islands of a blueprint
//!
//! `fused_links` leaves the lanes out, and `labels_of` runs the labels of nodes that `is_polytree` uses over what is left, here also past
//! wires whose ends have one label already (`AreLabels`). `homes_of` goes along the nodes once: a label that was not met before gets the
//! next number, so that islands are numbered by their least node (`AreNumbered`). One pass over the nodes and one over the wires fill the
//! lists of islands, and another lists the lanes. No pass searches, so the time is that of the labels, n log n.
#![tactic(auto)]

pub mod check;
pub mod checked;
pub mod classes;
pub mod closed;
pub mod components;
pub mod depth;
pub mod detail;
pub mod fault;
mod fill;
pub mod flatten;
pub mod forest;
pub mod homes;
pub mod island_labels;
pub mod islands;
mod judge;
pub mod lanes;
mod marks;
pub mod picks;
pub mod plan;
pub mod ranks;
mod rules;
