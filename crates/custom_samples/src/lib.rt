//! Three custom stages as a caller may write them: a throttle by count, a dedup over two inputs, and a router. Each has a meaning, and
//! none a line of proof; docs/CUSTOM.md goes through them.
#![tactic(auto)]

pub mod every_nth;
pub mod joined;
pub mod router;
