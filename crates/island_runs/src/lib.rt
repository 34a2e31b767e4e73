//! The run of all islands of a blueprint, from their beginning to what they leave.
//!
//! - `begin_laws`: Islands of a blueprint that are filled and have started begin its bodies. Laws alone.
//! - `leave_laws`: What the bodies of a blueprint leave: its nodes and wires, its handles, and how much each wire carried. Laws alone.
//! - `prepare`, `ran`, `run`: The islands of a blueprint are run by workers, over handles that are open.
//!
//! # The run of a blueprint's islands
//!
//! `prepare` takes the plans of the islands, both ends of all lanes, and room for all that the run puts into lists. `run` fills in the
//! handles and starts the islands; each becomes a body with the ends of its lanes, and the bodies take turns in rounds (`lane_core`). They
//! are taken apart then, with no memory: what each leaves is brought back into the order of the blueprint's nodes and wires, and the counts
//! of lanes are noted by what their input ends asked. The seats that valves and trips have at kill switches come back too, each of the
//! switch at which it was handed out, and the board of switches is settled by them (`materializer`). What is known at each step is a law:
//! that the bodies begin as those of the blueprint (of `island_runs`), that they leave a run of it (of `bodies_run`), that what they are
//! told to have carried is what its account counts, and that what comes back is what its nodes leave, or their handles (of `island_runs`).
#![tactic(auto)]

pub mod begin_laws;
pub mod leave_laws;
pub mod prepare;
pub mod ran;
pub mod run;
