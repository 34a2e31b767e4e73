//! Tests of calls of the crates below, of what no contract and no row says. They stand apart, so that no crate is proved twice for them.
#![tactic(auto)]

#[cfg(test)]
mod blueprints;
#[cfg(test)]
mod buffers;
#[cfg(test)]
mod chains;
#[cfg(test)]
mod chases;
#[cfg(test)]
mod custom_rows;
#[cfg(test)]
mod flag_words;
#[cfg(test)]
mod hostile;
#[cfg(test)]
mod lanes;
#[cfg(test)]
mod lifted;
#[cfg(test)]
mod lines;
#[cfg(test)]
mod meeting;
#[cfg(test)]
mod plans;
#[cfg(test)]
mod plug_calls;
#[cfg(test)]
mod plug_rows;
#[cfg(test)]
mod processes;
#[cfg(test)]
mod real_folder;
#[cfg(test)]
mod sure_run;
#[cfg(test)]
mod switches;
#[cfg(test)]
mod told;
#[cfg(test)]
mod turns;
#[cfg(test)]
mod walks;
