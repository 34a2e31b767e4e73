//! Stages that a caller makes and hands in, boxed or not; what they give, their book, and the two that the program ships.
//!
//! # A plug
//!
//! A caller hands in a head (a name and two types) and a logic for each plug, with a book that lists what each gives for every list of
//! elements. The check knows heads alone. `hand_out` gives each node that names a plug that plug, before its stage is made. `LinearLogic`
//! then does its work by a `PlugTask`, whose invariant says that what the logic still gives, behind what it took, is what the book lists;
//! so the stage's law speaks of the book, and nothing above has to carry a clause on logics. The public calls of the command take boxed
//! logics; all types below are generic in them, since a box is a logic too.
#![tactic(auto)]

pub mod book;
pub mod dedup;
pub mod logic;
pub mod pair_sum;
pub mod plug;
