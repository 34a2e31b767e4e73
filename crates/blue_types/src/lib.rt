// How types reach wires, and the first place at which they break a rule.
#![tactic(auto)]

pub mod attempts;
pub mod clashes;
pub mod functions;
pub mod library;
pub mod net;
pub mod news;
pub mod rounds;
pub mod sorts;
pub mod stages;
