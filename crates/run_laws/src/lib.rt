//! The laws of runs and of their pictures: accounts, stages with several ports, outlooks, and what a picture shows at rest.
//!
//! - `account_laws`: What a run leaves, by the numbers of its blueprint: of each node its histories and how its ports stand, and of each wire its connection. The laws of runs and of their pictures are stated over it, wherever the nodes stood.
//! - `fan_laws`: The laws of runs and of pictures for the nodes with several inputs or several outputs, by what such a stage keeps of its ports: what it gave agrees with the outlooks of its outputs, and its rows of lawful and of resting pictures.
//! - `misfit_laws`: A stage that follows moves and stopped has the cause of a misfit, over the outlooks of its inputs; and what one gave by the moves that it follows.
//! - `outlook_laws`: What a run of an island gives, in the words of the model.
//! - `picture_laws`: The picture of a run, by the laws that its engine keeps: it is lawful, and rests where no event is left.
#![tactic(auto)]

pub mod account_laws;
pub mod fan_laws;
pub mod misfit_laws;
pub mod outlook_laws;
pub mod picture_laws;
