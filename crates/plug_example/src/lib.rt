// A worked example: a stage of a caller's own, what it gives, and its book. `docs/PLUGS.md` walks through it.
#![tactic(auto)]

pub mod book;
pub mod maximum;
