//! Workers that give the turns of a run's bodies: the table of turns, the budget of units, and the run over them.
//!
//! - `hold`, `lends`, `turn_rule`, `turns`: Values that take turns: each has a word that says whether it is wanted and whether its turn has begun, and a slot.
//! - `budget`, `budget_rule`, `share`: A budget of units that many seats draw on at once.
//! - `crew`, `finish`, `origin`, `place`, `ready`, `run`, `taken`, `waking`: Workers give islands their turns: several threads take bodies from a list of those that are ready, and draw on one budget.
//!
//! # A turn table and a budget
//!
//! A turn table is a table of the kit's `atomic_table` with a word and a slot for each value. The word has a bit READY where the place is
//! wanted, and a bit RUNNING where its turn has begun. `wake` sets READY; `begin` exchanges READY for RUNNING and takes the value out of
//! its slot; `end` puts the value back and clears RUNNING. The rule `Orderly` holds between any two steps of any two threads: RUNNING is
//! set exactly where one seat holds the turn of the place, and where it is clear the slot has a value with the origin that was handed in;
//! READY is set from a wake of the place to the next begin of its turn, which is told by how many turns had begun at the wake. The key of
//! the table is a snapshot of the values that were handed in, so nothing is copied. A seat is a badge, which holds no slot between calls;
//! so any number of turns may have begun on one seat, and they end in any order.
//!
//! A budget is a table of one word: the units that were used and the claims of all seats. A seat adds a claim of 1000, may use what the
//! word had left of the budget, and takes back what it did not use. The rule `Fair` says that the units used and those granted are together
//! at most the budget.
//!
//! # Workers
//!
//! `run` of dispatcher puts each body, in memory of its own, into a place of a turn table, with a seat of the budget and, for contracts
//! alone, the body as it was handed in. Every place is woken once, and its number goes on the list of those that are ready. A worker takes
//! a number off that list, begins the turn of the place, claims 1000 units, lets the body take its turn and gives back what it did not use;
//! it wakes the bodies that this one names (`wakes`), and the body itself where it used up a claim above 0; then it ends the turn. Where
//! `wake` or `end` says that a place was at rest and is wanted, its number goes on the list. There are no more workers than bodies. A
//! worker leaves where no number is on the list and no worker is busy, so that none will come, and where memory was wanting in a turn of
//! its own. Behind the workers the calling thread takes the table apart and goes on with what they left; with one worker, or one body, it
//! does all.
//!
//! A worker that looks in vain a few times sleeps (`ReadyList`, in `ready.rt`, where the argument stands that nobody leaves too early and
//! nobody sleeps while something can be done). Whoever puts a second island behind a long turn wakes one for it: behind 32 units or more,
//! or 128 where turns are quick. What shorter turns put is left to those that are awake: one of the workers that wait watches, looks every
//! three milliseconds, and takes an island where the others take few turns or none meanwhile, as where their turns wait in a read; and
//! before a turn of an island whose last turn lasted longer than that, its worker wakes one for what else is ready. So a row of lanes with
//! one place, whose turns cost less than waking a worker, pays for none, and an island that is ready is left for six milliseconds at most
//! while a worker sleeps and no other comes for it. Where turns are quick, a worker that looks in vain sleeps at once, so that they stay
//! with few workers. All this is in no clause.
//!
//! How the calling thread goes on then stands at the head of lane_core: its rounds.
#![tactic(auto)]

pub mod budget;
pub mod budget_rule;
pub mod crew;
pub mod finish;
pub mod hold;
pub mod lends;
pub mod origin;
pub mod place;
pub mod ready;
pub mod run;
pub mod share;
pub mod taken;
pub mod turn_rule;
pub mod turns;
pub mod waking;
