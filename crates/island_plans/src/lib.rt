//! The plans of a blueprint's islands, the ends of their lanes, and the bodies that are made of both.
//!
//! - `lane_ends`, `lane_make`, `share`: Both ends of every lane of a blueprint are made, and lie by its islands.
//! - `ends`, `homes`, `plans`, `rooms`: The islands of a blueprint: all that they take of memory before its files are opened, and their parts.
//! - `asked`, `body_make`, `peers`, `room`: The bodies of all islands of a blueprint are made, and taken apart.
//!
//! # The islands of a blueprint's parts
//!
//! The islands of its nodes come from `blue_check`, their places and links from `island_parts`, and what stands at the places of its nodes
//! from `materializer`: `Standing` shows that wires of a fit blueprint join every port of its nodes, so that the law of `island_parts`
//! speaks of them. All memory is taken while nodes hold no handles; `fill` then puts the handles into the places, the ends of lanes behind
//! them, and shares all places out. What each island's end lists, as the sinks, is later brought back into the order of the blueprint: so a
//! plan also holds the islands of just those nodes (`homes_in`), and of the wires where they begin.
#![tactic(auto)]

pub mod asked;
pub mod body_make;
pub mod ends;
pub mod homes;
pub mod lane_ends;
mod lane_make;
pub mod peers;
pub mod plans;
pub mod room;
mod rooms;
mod share;
