//! Lanes between two islands: their two ends, how the ends meet, the input boundary behind a lane, and the rounds of a run's bodies.
//!
//! - `lane`, `lane_in`, `lane_out`, `ring`, `room`, `sight`: Lanes between islands. The items lie in size + 1 places; one word says what was asked, one how many items were sent.
//! - `ends`, `laws`, `pairs`: The two ends of a lane are brought together where each lies among the ends of an island, and the islands in one list.
//! - `boundary`, `held`, `state`: The input boundary of an island: the end of a lane that takes, with the buffer in which what was taken waits to be handed on.
//! - `crossing`, `run`, `settle`, `turning`: Several bodies are run by one thread in rounds of turns, their lanes brought together, until none has an event or the budget is used.
//!
//! # A lane
//!
//! A lane is a table of the kit's `atomic_table`, which its two ends share: a word that is twice what was asked, and 1 more where the input
//! end cancelled; a word that is the number of items sent; and a place for each element of its size and one for an end. The output end
//! holds the next place, puts an item there and adds 1 to the sent word; the input end loads that word, takes the item out of its next
//! place and gives the place back with its next step. Each end keeps the number of its next place beside its counts, so no step divides,
//! and the two words are 128 bytes apart, so that the ends do not write to one line of memory.
//!
//! The rule `IsLaneState` holds between any two steps of any two threads. Behind it stands what contracts alone see: the list of all that
//! was sent, what was taken, how many elements were asked and by how many calls, and for each end what it knows of these. `meet` lets each
//! end tell the other what it knows, and from the two notes the caller learns what holds of both.
//!
//! # An input boundary
//!
//! What was taken off the lane is, in this order: the elements that were handed on, those that were dropped, those that wait, and the end.
//! The type keeps this equation (`Flow`), by three histories that proofs alone read; so no clause says where each item went. `look` takes
//! one item: an element waits, an end waits behind it, a failure drops what waits, or waits behind it as a normal end does where the lane
//! keeps what came before. `next` hands on the first element, which the caller calls where one is asked for, and `next_end` the end, where
//! no element waits before it; where half of the places were handed on `next` asks the lane for as many, and says so, since the other end
//! has to be woken then. `cancel` drops what waits, and what comes later. It knows nothing of an island: the caller pushes, closes and asks
//! there.
//!
//! # Rounds
//!
//! Where the workers of dispatcher have left, or where there is only one, the calling thread goes on by `go_on`: every body takes a turn,
//! in order, round after round, until a round used no unit. A body whose turn may wait for a read is passed over until then; then each of
//! these takes one, and rounds follow it. Then the ends of the lanes are brought together, one lane after another. At the first lane where
//! an item or demand waits, the body at that end takes a turn at once, and rounds follow; where none waits, the first body with an event in
//! its ring does. The run is at rest where neither is found. So whether an event is left is always settled by one thread, whatever the
//! workers did, and their schedule is in no clause.
#![tactic(auto)]

pub mod boundary;
pub mod crossing;
pub mod ends;
mod held;
pub mod lane;
pub mod lane_in;
pub mod lane_out;
pub mod laws;
pub mod pairs;
pub mod ring;
pub mod room;
pub mod run;
pub mod settle;
pub mod sight;
pub mod state;
pub mod turning;
