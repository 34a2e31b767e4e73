//! The nodes of an island from those of a blueprint, with the plugs and the switches that are handed to them.
//!
//! - `custom_board`, `guest`, `heads`, `plug_board`: Hands each node of a blueprint that names a plug or a custom stage the one of that name.
//! - `switch_board`, `switch_names`: The kill switches of a blueprint, and the seats of its valves and trips at them.
//! - `chains`, `laws`, `names`, `parts`, `seats`: What stands at the places of a blueprint's nodes, and what ties it to the model.
//!
//! # The places of a blueprint's nodes
//!
//! `graph_of` makes a graph of a blueprint, and `CanRun` says that it breaks no rule. `AreSeats` goes along the nodes of a blueprint with
//! these chains, which a stage with substreams names, and hands the rest of the sources and of the drains on, as the code does with the
//! handles that it has left. `ArePlanned` says the same of seats, which want none yet; `Filling` ties the two. The laws rest on three files
//! of proofs: `Joining` turns the rules on ports into a joined graph, `Linking` a joined graph into the wiring of the places of its nodes,
//! and `Ranking` finds the ranks of wires where no walk is closed: a wire's rank is the number of wires from which a walk leads to it.
//!
//! # The switches of a blueprint
//!
//! `Board::of` makes a switch of each name that some valve or trip mentions, with as many seats as mention it, and hands each of these
//! nodes its end: the switch, which the board shares, and a seat of its own. The ends go with their stages into whatever islands they are
//! in, and the seats come back with what the islands leave, each beside its node's number. The law of a valve and of a trip says that its
//! seat is of the switch that the node was handed, so once all came back `settle` has all seats of each switch, and tells that each order
//! which one of them knew is the one that one of them gave. That is all that the laws of pictures want of switches: `AreSettled` is their
//! one premise, beside the laws of the nodes.
#![tactic(auto)]

mod chains;
pub mod choosers;
mod custom_board;
pub mod guest;
pub mod heads;
pub mod laws;
pub mod names;
pub mod parts;
pub mod plug_board;
pub mod seats;
pub mod switch_board;
pub mod switch_names;
