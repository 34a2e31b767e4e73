//! Cases, which are plain text: what is tried, what may come, and how they are read from the lines of a file. The programs `rows` and
//! `workbench_rows` try them.
#![tactic(auto)]

pub mod case;
pub mod text;
