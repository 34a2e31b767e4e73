// Plugs for the tests of whole calls: each does what the plugs of the program do not.
#![tactic(auto)]

pub mod book;
pub mod halts;
pub mod meets;
pub mod spoils;
pub mod tail;
pub mod twin;
