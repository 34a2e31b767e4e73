//! Stages that a caller hands in and that call their ports themselves.
//!
//! # A custom stage
//!
//! A caller hands in a head (a name, and the types of its ports) and handlers, which are called as those of a stage are. A handler sees the
//! stage's ports (`Sight`) and appends what it wants done there (`Asks`); `CustomLogic` calls it and carries out its asks in order, up to
//! the first that the port rules forbid, which fails the stage. So whatever a handler asks for, the engine is given allowed actions alone.
//!
//! The meaning of handlers, `does`, is a relation: from which state, at which call with which view of the ports, which asks and which new
//! state may come. One of which nothing is to be proved says that anything may be. `CustomLogic` is proved for handlers of any type, so for
//! any such relation: a body that does not call the handler, calls it twice, calls another one or changes its asks leaves no pair of states
//! that are known to be related, and is refused. `CustomStage` hides the handlers from all that stands above,
//! and tells what each call of them asked for.
#![tactic(auto)]

pub mod alternate;
pub mod ask;
pub mod asks;
pub mod carrying;
pub mod custom;
pub mod fresh;
pub mod handlers;
pub mod laws;
pub mod logic;
pub mod occasion;
pub mod rude;
pub mod sight;
pub mod stage;
pub mod worked;
