//! Switches: trips that turn them, valves that heed them, and the laws of their runs.
//!
//! - `end`, `known`, `order`, `rule`, `seat`, `switch`: Kill switches: a word that stands at no order, or at the one order that was given first.
//! - `handlers`, `laws`, `trip`, `valve`: The stages at a kill switch: valves, which obey its order, and trips, which give one.
//! - `switch_laws`: What the seats of the kill switches of a blueprint tell of its valves' moves: laws alone.
//!
//! # A kill switch
//!
//! A switch is a table of the kit's `atomic_table` with one word: 0, 1 for Shutdown or 2 for Abort. Each trip and each valve of it has a
//! seat, and steps on the word by it: a load, or an exchange of 0 to an order. The rule `OneOrder` holds between any two steps of any two
//! threads: the word is 0 or an order that some seat gave, each known order is the word, and the parts of all seats add up to the number of
//! seats made. So where all seats are put together, as `settle` does, an order that stands is one that one of them gave. A seat's view
//! keeps lists of orders: a join has no step on the word, so what either seat knew has to stay until the load that follows tells that all
//! of it is the word.
//!
//! # A valve and a trip
//!
//! A valve notes at most one pair of moves, and only with its last act: the order, and how many elements passed before. Each of its calls
//! makes room for the pair, then looks once at its switch, and where it finds an order it acts by it before anything else. So a refusal
//! leaves stage, log and seat as they were. The word of the switch is in no clause: whatever a look finds, the call owes `ValveTurnAt` in
//! the branch that it took, and the law is for every rest of the input and every act that may still come. What the seat knows is tied to
//! the moves by the type invariant `SeatBy`, and what a trip's seat gave to the elements that it took by `IsTrip`. Both have the node's
//! law behind them, so that after a run `laws_tell_of_seats` gives what `stage_switch` asks of each node.
#![tactic(auto)]

pub mod end;
pub mod handlers;
pub mod known;
pub mod laws;
pub mod order;
pub mod rule;
pub mod seat;
pub mod switch;
pub mod switch_laws;
pub mod trip;
pub mod valve;
